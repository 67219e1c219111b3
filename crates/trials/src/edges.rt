//! A bridge over its slots, edge by edge; what of a part has crossed; the response of a refused burst.
use crate::bursts::plan;
use axi::burst::Burst;
use axi::code::Code;
use axi::plan::Level;
use axi::wires::{Beat, Inputs, LowerRead};
use bridge::bridge::Bridge;
use bridge::slots::Slots;
use engines::taken::Taken;
use engines::task::Task;
use engines::writer::Uncrossed;

/// A burst of one beat of eight bytes: two parts on the lower bus.
fn burst() -> Burst {
    Burst {
        id: 5,
        addr: 0x1000,
        len: 0,
        size: 3,
        burst: 1,
        ..Burst::default()
    }
}

/// A write burst and its beat on offer; the block takes LAW at once, and LW if this is true.
fn offered(lwready: bool) -> Inputs {
    Inputs {
        aresetn: true,
        awvalid: true,
        aw: burst(),
        wvalid: true,
        w: Beat {
            wdata: 0,
            wstrb: 255,
        },
        bready: true,
        arvalid: false,
        ar: burst(),
        rready: true,
        lawready: true,
        lwready,
        lbvalid: false,
        lbresp: 0,
        larready: true,
        lrvalid: false,
        lr: LowerRead {
            lrdata: 0,
            lrresp: 0,
        },
    }
}

#[test]
fn a_table_has_its_slots(rt: HostRuntime) {
    let mut slots: Slots<1> = Slots::new();
    let mut bridge = Bridge::new(plan(Level::FullConversion), slots.tables());
    assert!(rt; bridge.wires().awready && bridge.wires().arready);
    assert!(rt; bridge.edge(&offered(true)).is_ok());
    assert!(rt; !bridge.wires().awready && bridge.wires().arready);
    assert_eq!(rt; bridge.owed().writes, 1);
}

#[test]
fn a_part_crosses_on_one_channel_first(rt: HostRuntime) {
    let mut slots: Slots<1> = Slots::new();
    let mut bridge = Bridge::new(plan(Level::FullConversion), slots.tables());
    for _ in 0..3 {
        assert!(rt; bridge.edge(&offered(false)).is_ok());
    }
    let o = bridge.wires();
    assert!(rt; o.lawvalid && o.lwvalid && o.law.addr == 0x1000);
    assert!(rt; bridge.edge(&offered(false)).is_ok());
    let o = bridge.wires();
    assert!(rt; !o.lawvalid && o.lwvalid && !o.lbready && o.law.addr == 0);
    assert!(rt; bridge.edge(&offered(true)).is_ok());
    let o = bridge.wires();
    assert!(rt; !o.lawvalid && !o.lwvalid && o.lbready);
}

#[test]
fn what_has_crossed(rt: HostRuntime) {
    assert_eq!(rt; Uncrossed::Both.crossed(), (false, false));
    assert_eq!(rt; Uncrossed::Law.crossed(), (false, true));
    assert_eq!(rt; Uncrossed::Lw.crossed(), (true, false));
}

#[test]
fn a_refused_burst_has_slverr(rt: HostRuntime) {
    let taken: Task<Code> = Task::new(Taken::new(plan(Level::FullConversion), burst()));
    assert_eq!(rt; taken.response(Code::DecErr), Code::DecErr);
    let refused: Task<Code> = Task::new(Taken::new(plan(Level::FullProtection), burst()));
    assert_eq!(rt; refused.response(Code::Okay), Code::SlvErr);
}
