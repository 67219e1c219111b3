//! The verdict on a burst: forwarded, or the first rule that refuses it.
ghost use Rattle.std.specs.Prelude.{◌≡◌, ℕ, ◌+◌, ◌-◌, ◌*◌, ◌%◌, Some, None};
ghost use Rattle.axi.specs.Plans.{upper_bytes, lower_bytes};
ghost use Rattle.axi.specs.Bursts.{bytes, beats, kind_of};
ghost use Rattle.axi.specs.Verdicts.{verdict_of, verdict_number, is_forwarded, wrap_count, past_boundary, shape_refusal, level_verdict, at_level, FirstReason};

use crate::burst::{Burst, Kind};
use crate::plan::{Level, Plan};
use std::fmt;

/// What becomes of a burst: it is forwarded, or refused for the first reason that applies.
#[derive(Clone, Copy, Debug, PartialEq, Eq)]
pub enum Verdict {
    /// The burst goes down in parts.
    Forwarded,
    /// BURST is reserved.
    ReservedKind,
    /// A beat has more bytes than the upper bus.
    WiderThanUpper,
    /// FIXED with more than 16 beats.
    FixedTooLong,
    /// WRAP with a number of beats other than 2, 4, 8 or 16.
    WrapCount,
    /// WRAP from an address that is no multiple of the beat's bytes.
    WrapUnaligned,
    /// INCR across a multiple of 4,096.
    CrossesBoundary,
    /// More than one beat, at level 1 or 2.
    SeveralBeats,
    /// A beat has more bytes than the lower bus, at level 1 or 2.
    WiderThanLower,
    /// A beat has fewer bytes than the lower bus, at level 2.
    NarrowerThanLower,
    /// LOCK or CACHE is set, at level 2.
    LockedOrCached,
}

/// The verdict in words.
impl fmt::Display for Verdict {
    fn fmt<W: fmt::Write>(&self, f: &mut fmt::Formatter<W>) -> fmt::Result {
        f.write_str(match self {
            Verdict::Forwarded => "forwarded",
            Verdict::ReservedKind => "reserved kind of burst",
            Verdict::WiderThanUpper => "beat wider than the upper bus",
            Verdict::FixedTooLong => "FIXED of more than 16 beats",
            Verdict::WrapCount => "WRAP of other than 2, 4, 8 or 16 beats",
            Verdict::WrapUnaligned => "WRAP from an unaligned address",
            Verdict::CrossesBoundary => "INCR across a multiple of 4096",
            Verdict::SeveralBeats => "more than one beat",
            Verdict::WiderThanLower => "beat wider than the lower bus",
            Verdict::NarrowerThanLower => "beat narrower than the lower bus",
            Verdict::LockedOrCached => "LOCK or CACHE set",
        })
    }
}

/// The number of the verdict.
impl From<Verdict> for u8 {
    ghost from_gives = { λ verdict n. n ≡ verdict_number verdict };

    fn from(verdict: Verdict) -> u8 {
        verdict as u8
    }
}

impl Verdict {
    /// Whether the burst goes down.
    pub fn is_forwarded(self) -> bool
        ensures { result ≡ is_forwarded self }
    {
        self == Verdict::Forwarded
    }
}

/// Whether a wrapping burst may have so many beats.
fn wrap_count(n: u32) -> bool
    ensures { result ≡ wrap_count n }
{
    matches!(n, 2 | 4 | 8 | 16)
}

/// Whether an incrementing burst reaches past the next multiple of 4,096.
fn past_boundary(b: Burst) -> bool
    ensures { result ≡ past_boundary b }
{
    let s = b.bytes();
    let from = u64::from(b.addr - b.addr % s);
    let next = u64::from(b.addr - b.addr % 4096) + 4096;
    next < from + u64::from(b.beats() * s)
}

impl Plan {
    /// The rule that the burst's shape breaks, whatever the level.
    fn shape_refusal(self, b: Burst) -> Option<Verdict>
        ensures { result ≡ shape_refusal self b }
    {
        let s = b.bytes();
        let n = b.beats();
        match b.kind() {
            Kind::Reserved => Some(Verdict::ReservedKind),
            _ if self.upper() < s => Some(Verdict::WiderThanUpper),
            Kind::Fixed if 16 < n => Some(Verdict::FixedTooLong),
            Kind::Wrap if !wrap_count(n) => Some(Verdict::WrapCount),
            Kind::Wrap if b.addr % s != 0 => Some(Verdict::WrapUnaligned),
            Kind::Incr if past_boundary(b) => Some(Verdict::CrossesBoundary),
            _ => None,
        }
    }

    /// The verdict that the level gives a burst of legal shape.
    fn level_verdict(self, b: Burst) -> Verdict
        ensures { result ≡ level_verdict self b }
    {
        let s = b.bytes();
        let lower = self.lower();
        match self.level {
            Level::FullConversion => Verdict::Forwarded,
            _ if 1 < b.beats() => Verdict::SeveralBeats,
            _ if lower < s => Verdict::WiderThanLower,
            Level::FullProtection if s < lower => Verdict::NarrowerThanLower,
            Level::FullProtection if b.lock == 1 || b.cache != 0 => Verdict::LockedOrCached,
            _ => Verdict::Forwarded,
        }
    }

    /// The verdict on a burst at a level: the first rule that applies, or that it is forwarded.
    fn judge_at(self, level: Level, b: Burst) -> Verdict
        ensures which { result ≡ verdict_of (at_level level self) b }
        ensures first { FirstReason (at_level level self) b result }
    {
        let plan = Plan {
            widths: self.widths,
            level,
        };
        // A match: by `unwrap_or_else` the proof that the reason is the first one did not close.
        match plan.shape_refusal(b) {
            Some(v) => v,
            None => plan.level_verdict(b),
        }
    }

    /// The verdict on a burst.
    pub fn judge(self, b: Burst) -> Verdict
        ensures which { result ≡ verdict_of self b }
        ensures first { FirstReason self b result }
    {
        self.judge_at(self.level, b)
    }

    /// The verdict that the same burst would have at full protection.
    pub fn judge_protected(self, b: Burst) -> Verdict
        ensures { result ≡ verdict_of (at_level Level.FullProtection self) b }
    {
        self.judge_at(Level::FullProtection, b)
    }
}
