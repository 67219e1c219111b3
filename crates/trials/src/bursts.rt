//! Worked cases and the edges of the field ranges.
use axi::burst::Burst;
use axi::code::Code;
use axi::plan::{Level, Plan, Widths};
use axi::wires::{Beat, LowerRead, code_fits};
use parts::cut::Parts;
use parts::lanes::lane;
use parts::walk::Walk;

const FIXED: u8 = 0;

const INCR: u8 = 1;

const WRAP: u8 = 2;

/// U 8 and L 4.
pub(crate) fn plan(level: Level) -> Plan {
    Plan {
        widths: Widths::EightOverFour,
        level,
    }
}

fn burst(kind: u8, addr: u32, size: u8, len: u8) -> Burst {
    Burst {
        addr,
        len,
        size,
        burst: kind,
        ..Burst::default()
    }
}

/// The addresses of four beats; past the last one it stays.
fn four(b: Burst) -> [u32; 4] {
    let (a0, w) = Walk::new(b).next();
    let (a1, w) = w.next();
    let (a2, w) = w.next();
    let (a3, _) = w.next();
    [a0, a1, a2, a3]
}

#[test]
fn addresses(rt: HostRuntime) {
    assert_eq!(rt;
        four(burst(INCR, 0x1001, 2, 2)),
        [0x1001, 0x1004, 0x1008, 0x1008]
    );
    assert_eq!(rt;
        four(burst(WRAP, 0x1008, 2, 3)),
        [0x1008, 0x100c, 0x1000, 0x1004]
    );
    assert_eq!(rt;
        four(burst(FIXED, 0x1003, 1, 1)),
        [0x1003, 0x1003, 0x1003, 0x1003]
    );
}

#[test]
fn parts(rt: HostRuntime) {
    let p = plan(Level::FullConversion);
    let one = Parts::of(p, burst(INCR, 0x1005, 3, 0), 0x1005);
    assert_eq!(rt; (one.at, one.more, lane(p, one.at)), (0x1005, 0, 4));
    assert!(rt; one.next(p).is_none());
}

#[test]
fn verdicts(rt: HostRuntime) {
    let p = plan(Level::FullConversion);
    for (kind, addr, size, len, verdict) in [
        (INCR, 0xff8, 2, 1, 0),
        (INCR, 0xff8, 2, 2, 6),
        (INCR, 0xffff_fffc, 2, 0, 0),
        (INCR, 0xffff_fffc, 2, 1, 6),
        (FIXED, 0x1000, 2, 15, 0),
        (FIXED, 0x1000, 2, 16, 3),
        (WRAP, 0x1002, 2, 2, 4),
        (WRAP, 0x1002, 2, 3, 5),
    ] {
        assert_eq!(rt; u8::from(p.judge(burst(kind, addr, size, len))), verdict);
    }
    let cached = Burst {
        cache: 3,
        ..burst(INCR, 0x1000, 1, 0)
    };
    assert_eq!(rt; u8::from(plan(Level::SimpleConversion).judge(cached)), 0);
    assert_eq!(rt; u8::from(plan(Level::FullProtection).judge(cached)), 9);
    assert_eq!(rt; u8::from(p.judge_protected(cached)), 9);
}

#[test]
fn bursts_that_fit(rt: HostRuntime) {
    let b = burst(INCR, 0xffff_ffff, 0, 255);
    for (id, size, kind, lock, cache, prot, fits) in [
        (4095, 7, 3, 1, 15, 7, true),
        (4096, 0, 0, 0, 0, 0, false),
        (0, 8, 0, 0, 0, 0, false),
        (0, 0, 4, 0, 0, 0, false),
        (0, 0, 0, 2, 0, 0, false),
        (0, 0, 0, 0, 16, 0, false),
        (0, 0, 0, 0, 0, 8, false),
    ] {
        let edge = Burst {
            id,
            size,
            burst: kind,
            lock,
            cache,
            prot,
            ..b
        };
        assert_eq!(rt; edge.fits(), fits);
    }
}

#[test]
fn data_that_fit(rt: HostRuntime) {
    let p = Plan {
        widths: Widths::FourOverFour,
        level: Level::FullConversion,
    };
    for (data, strobes, fits) in [
        (0xffff_ffff, 15, true),
        (0, 16, false),
        (0x1_0000_0000, 0, false),
    ] {
        let w = Beat {
            wdata: data,
            wstrb: strobes,
        };
        assert_eq!(rt; p.beat_fits(w), fits);
    }
    for (data, resp, fits) in [
        (0xffff_ffff, 3, true),
        (0, 4, false),
        (0x1_0000_0000, 0, false),
    ] {
        let r = LowerRead {
            lrdata: data,
            lrresp: resp,
        };
        assert_eq!(rt; p.read_part_fits(r), fits);
    }
    assert!(rt; code_fits(3) && !code_fits(4));
    assert_eq!(rt; u8::from(Code::from(1)), 0);
}

/// The number of the refusal, 0 for none.
fn refusal(upper: u8, lower: u8, level: u8) -> u8 {
    Plan::new(upper, lower, level).err().map_or(0, u8::from)
}

#[test]
fn plans(rt: HostRuntime) {
    assert_eq!(rt; refusal(8, 4, 2), 0);
    assert_eq!(rt; refusal(2, 4, 0), 1);
    assert_eq!(rt; refusal(4, 8, 3), 2);
    assert_eq!(rt; refusal(8, 8, 3), 3);
}
