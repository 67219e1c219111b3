//! Bursts and data as the wires carry them, and which values their fields may have.
ghost use Rattle.std.specs.Prelude.{◌≡◌, ℕ, ◌+◌, ◌^◌, ◌<◌, ◌≤◌, slice_index_or};
ghost use Rattle.axi.specs.Bursts.{lengths, bytes, beats, kind_of, burst_fits};

use std::fmt;

/// How the addresses of a burst's beats follow one another.
#[derive(Clone, Copy, Debug, PartialEq, Eq)]
pub enum Kind {
    /// Every beat at the same address.
    Fixed,
    /// Each beat after the one before.
    Incr,
    /// Each beat after the one before, round within an aligned block.
    Wrap,
    /// No kind of burst.
    Reserved,
}

/// The kind of a burst as AXI names it.
impl fmt::Display for Kind {
    fn fmt<W: fmt::Write>(&self, f: &mut fmt::Formatter<W>) -> fmt::Result {
        f.write_str(match self {
            Kind::Fixed => "FIXED",
            Kind::Incr => "INCR",
            Kind::Wrap => "WRAP",
            Kind::Reserved => "reserved",
        })
    }
}

/// The kind that BURST stands for.
impl From<u8> for Kind {
    ghost from_gives = { λ burst kind. kind ≡ kind_of burst };

    fn from(burst: u8) -> Kind {
        match burst {
            0 => Kind::Fixed,
            1 => Kind::Incr,
            2 => Kind::Wrap,
            _ => Kind::Reserved,
        }
    }
}

/// A burst as AW or AR carries it.
#[derive(Clone, Copy, Debug, Default, PartialEq, Eq)]
pub struct Burst {
    pub id: u16,
    pub addr: u32,
    pub len: u8,
    pub size: u8,
    // BURST and LOCK are numbers: their wires carry values that stand for nothing, which `fits` refuses.
    pub burst: u8,
    pub lock: u8,
    pub cache: u8,
    pub prot: u8,
}

/// What a SIZE above 7 counts for: more than any bus carries.
const PAST_TABLE: u32 = 256;

/// The bytes of a beat, S in the rules. A shift, so that the compiler sees a power of two and divides by it without a division.
fn beat_bytes(size: u8) -> u32
    ensures length { result ≡ slice_index_or lengths size 256 }
    ensures small { (0 < result) × (result ≤ 256) }
{
    if size < 8 { 1 << size } else { PAST_TABLE }
}

impl Burst {
    /// The bytes of each beat.
    pub fn bytes(self) -> u32
        ensures length { result ≡ Rattle.axi.specs.Bursts.bytes self }
        ensures small { (0 < result) × (result ≤ 256) }
    {
        beat_bytes(self.size)
    }

    /// The number of beats.
    pub fn beats(self) -> u32
        ensures { result ≡ Rattle.axi.specs.Bursts.beats self }
    {
        u32::from(self.len) + 1
    }

    /// How the addresses go.
    pub fn kind(self) -> Kind
        ensures { result ≡ kind_of self.burst }
    {
        Kind::from(self.burst)
    }

    /// Whether every field has a value that its wires can carry.
    pub fn fits(self) -> bool
        ensures { result ≡ burst_fits self }
    {
        self.id <= 4095
            && self.size <= 7
            && self.burst <= 3
            && self.lock <= 1
            && self.cache <= 15
            && self.prot <= 7
    }
}
