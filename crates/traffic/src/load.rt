//! What the master and the block drive on each edge, and the sum over what the bridge does.
use axi::burst::Burst;
use axi::wires::{Beat, Inputs, LowerRead, Outputs};
use bridge::bridge::Bridge;
use bridge::report::Crossed;

/// Where the load stands, at first with all counts 0.
#[derive(Clone, Copy, Debug, Default, PartialEq, Eq)]
pub struct Load {
    /// The write bursts, read bursts and data beats that have crossed.
    writes: u32,
    reads: u32,
    beats: u64,
    sum: u64,
}

/// The burst of a page: 64 beats of 4 bytes.
fn page(number: u32) -> Burst {
    Burst {
        id: (number & 0xfff) as u16,
        addr: number.wrapping_mul(256).wrapping_add(0x1000),
        len: 63,
        size: 2,
        burst: 1,
        prot: 2,
        ..Burst::default()
    }
}

impl Load {
    /// All payloads shown so far and the counts of what crossed, mixed.
    pub fn sum(&self) -> u64 {
        self.sum ^ self.beats ^ u64::from(self.writes) << 24 ^ u64::from(self.reads) << 44
    }

    /// One edge of the bridge under the load, where the gate has a bit for each wire that may be high.
    pub fn step(&mut self, bridge: &mut Bridge, gate: u32, edge: u64) {
        let x = self.inputs(gate, edge);
        let shown = bridge.wires();
        if let Ok(report) = bridge.edge(&x) {
            self.see(&shown, &report.crossed);
        }
    }

    /// The next data beat: four bytes, on the lower and the upper lanes by turns.
    fn beat(&self) -> Beat {
        Beat {
            wdata: self.beats.wrapping_mul(0x9e37_79b9_7f4a_7c15),
            wstrb: if self.beats & 1 == 0 { 0x0f } else { 0xf0 },
        }
    }

    // The bits are those of a script's gates; what is measured stays free of the crates that play scripts.
    /// What the master and the block drive on an edge.
    fn inputs(&self, gate: u32, edge: u64) -> Inputs {
        Inputs {
            aresetn: true,
            awvalid: gate & 1 != 0,
            aw: page(self.writes),
            wvalid: gate & 2 != 0,
            w: self.beat(),
            bready: gate & 4 != 0,
            arvalid: gate & 8 != 0,
            ar: page(self.reads),
            rready: gate & 16 != 0,
            lawready: gate & 32 != 0,
            lwready: gate & 64 != 0,
            lbvalid: gate & 128 != 0,
            lbresp: 0,
            larready: gate & 256 != 0,
            lrvalid: gate & 512 != 0,
            lr: LowerRead {
                lrdata: edge & 0xffff_ffff,
                lrresp: 0,
            },
        }
    }

    /// Counts what crossed, and mixes what the bridge showed.
    fn see(&mut self, shown: &Outputs, crossed: &Crossed) {
        self.writes = self.writes.wrapping_add(u32::from(crossed.aw));
        self.reads = self.reads.wrapping_add(u32::from(crossed.ar));
        self.beats = self.beats.wrapping_add(u64::from(crossed.w));
        let word = shown.r.rdata
            ^ shown.lw.wdata
            ^ u64::from(shown.law.addr) << 16
            ^ u64::from(shown.lar.addr) << 24
            ^ u64::from(u8::from(shown.b.code)) << 60;
        self.sum = self.sum.rotate_left(5) ^ word;
    }
}
