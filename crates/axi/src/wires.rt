//! The wires of one edge, and which values their fields may have.
ghost use Rattle.std.specs.Prelude.{◌≡◌, ℕ};
ghost use Rattle.axi.specs.Checks.{beat_fits, code_fits, read_part_fits, refusal_number, refused_inputs};

use crate::burst::Burst;
use crate::code::Code;
use crate::plan::{Plan, Widths};
use std::error::Error;
use std::fmt;

/// The payload of W and of LW: data and strobes.
#[derive(Clone, Copy, Debug, Default, PartialEq, Eq)]
pub struct Beat {
    pub wdata: u64,
    pub wstrb: u8,
}

/// The payload of LAW and of LAR: address and protection.
#[derive(Clone, Copy, Debug, Default, PartialEq, Eq)]
pub struct Place {
    pub addr: u32,
    pub prot: u8,
}

/// The payload of LR: data and response.
#[derive(Clone, Copy, Debug, Default, PartialEq, Eq)]
pub struct LowerRead {
    pub lrdata: u64,
    // A number: the block may drive one that is no code.
    pub lrresp: u8,
}

/// The payload of B: ID and response.
#[derive(Clone, Copy, Debug, PartialEq, Eq)]
pub struct WriteAnswer {
    pub id: u16,
    pub code: Code,
}

/// The payload of R: ID, data, response and LAST.
#[derive(Clone, Copy, Debug, PartialEq, Eq)]
pub struct ReadBeat {
    pub id: u16,
    pub rdata: u64,
    pub code: Code,
    pub last: bool,
}

// VALID and payload are wires of their own in AXI, and the payload under a low VALID is promised: no options.
// LBRESP and LRRESP are numbers, since the block may drive one that is no code.
/// What the master and the block drive on one edge.
#[derive(Clone, Copy, Debug, PartialEq, Eq)]
pub struct Inputs {
    pub aresetn: bool,
    pub awvalid: bool,
    pub aw: Burst,
    pub wvalid: bool,
    pub w: Beat,
    pub bready: bool,
    pub arvalid: bool,
    pub ar: Burst,
    pub rready: bool,
    pub lawready: bool,
    pub lwready: bool,
    pub lbvalid: bool,
    pub lbresp: u8,
    pub larready: bool,
    pub lrvalid: bool,
    pub lr: LowerRead,
}

/// What the bridge drives.
#[derive(Clone, Copy, Debug, PartialEq, Eq)]
pub struct Outputs {
    pub awready: bool,
    pub wready: bool,
    pub bvalid: bool,
    pub b: WriteAnswer,
    pub arready: bool,
    pub rvalid: bool,
    pub r: ReadBeat,
    pub lawvalid: bool,
    pub law: Place,
    pub lwvalid: bool,
    pub lw: Beat,
    pub lbready: bool,
    pub larvalid: bool,
    pub lar: Place,
    pub lrready: bool,
}

/// Why an edge is refused: a field is too large under its VALID.
#[derive(Clone, Copy, Debug, PartialEq, Eq)]
pub enum Refusal {
    /// A field of the write burst.
    WriteBurst = 4,
    /// WDATA or WSTRB.
    DataBeat = 5,
    /// A field of the read burst.
    ReadBurst = 6,
    /// LBRESP.
    WriteCode = 7,
    /// LRDATA or LRRESP.
    ReadPart = 8,
}

/// The refusal in words.
impl fmt::Display for Refusal {
    fn fmt<W: fmt::Write>(&self, f: &mut fmt::Formatter<W>) -> fmt::Result {
        f.write_str(match self {
            Refusal::WriteBurst | Refusal::ReadBurst =>
                "a field is too large; expected at most ID fff, SIZE 7, BURST 3, LOCK 1, CACHE f, PROT 7",
            Refusal::DataBeat =>
                "WDATA or WSTRB is too large; expected at most U bytes, and a strobe for each",
            Refusal::WriteCode => "LBRESP is too large; expected at most 3",
            Refusal::ReadPart =>
                "LRDATA or LRRESP is too large; expected at most L bytes, and at most 3",
        })
    }
}

impl Error for Refusal {}

/// The number of the refusal.
impl From<Refusal> for u8 {
    ghost from_gives = { λ refusal n. n ≡ refusal_number refusal };

    fn from(refusal: Refusal) -> u8 {
        refusal as u8
    }
}

/// Whether a response of the block is a code.
pub fn code_fits(resp: u8) -> bool
    ensures { result ≡ code_fits resp }
{
    resp <= 3
}

impl Plan {
    /// Whether a data beat's data and strobes lie within the upper bus.
    pub fn beat_fits(self, w: Beat) -> bool
        ensures { result ≡ beat_fits self w }
    {
        match self.widths {
            Widths::FourOverFour => w.wdata < 0x1_0000_0000 && w.wstrb < 16,
            Widths::EightOverFour | Widths::EightOverEight => true,
        }
    }

    /// Whether a read part's data lie within the lower bus, and its response is a code.
    pub fn read_part_fits(self, lr: LowerRead) -> bool
        ensures { result ≡ read_part_fits self lr }
    {
        let within = match self.widths {
            Widths::FourOverFour | Widths::EightOverFour => lr.lrdata < 0x1_0000_0000,
            Widths::EightOverEight => true,
        };
        within && code_fits(lr.lrresp)
    }

    /// The first reason to refuse an edge. A field is judged only under its VALID, and none with ARESETn low.
    pub fn check(self, x: &Inputs) -> Option<Refusal>
        ensures { result ≡ refused_inputs self x.now }
    {
        if !x.aresetn {
            None
        } else if x.awvalid && !x.aw.fits() {
            Some(Refusal::WriteBurst)
        } else if x.wvalid && !self.beat_fits(x.w) {
            Some(Refusal::DataBeat)
        } else if x.arvalid && !x.ar.fits() {
            Some(Refusal::ReadBurst)
        } else if x.lbvalid && !code_fits(x.lbresp) {
            Some(Refusal::WriteCode)
        } else if x.lrvalid && !self.read_part_fits(x.lr) {
            Some(Refusal::ReadPart)
        } else {
            None
        }
    }
}
