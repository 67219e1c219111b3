//! The settings of a bridge: the widths of both buses and the level of protection.
ghost use Rattle.std.specs.Prelude.{◌≡◌, ℕ, Some, None, Ok, Err};
ghost use Rattle.axi.specs.Plans.{upper_bytes, lower_bytes, level_number, plan_refusal_number, refused_plan, ReadsWidths, ReadsLevel};

use std::error::Error;
use std::fmt;

/// The widths of the upper and the lower bus in bytes. The lower bus is never the wider one.
#[derive(Clone, Copy, Debug, PartialEq, Eq)]
pub enum Widths {
    FourOverFour,
    EightOverFour,
    EightOverEight,
}

/// The widths of the upper and the lower bus by their bytes.
impl TryFrom<(u8, u8)> for Widths {
    type Error = PlanRefusal;

    ghost try_from_gives = { ReadsWidths };

    fn try_from(widths: (u8, u8)) -> Result<Widths, PlanRefusal> {
        match widths {
            (4, 4) => Ok(Widths::FourOverFour),
            (8, 4) => Ok(Widths::EightOverFour),
            (8, 8) => Ok(Widths::EightOverEight),
            (4, 8) => Err(PlanRefusal::LowerAboveUpper),
            _ => Err(PlanRefusal::Width),
        }
    }
}

/// What the bridge converts, and from what it protects the block.
#[derive(Clone, Copy, Debug, PartialEq, Eq)]
pub enum Level {
    /// Level 0: every legal burst is converted.
    FullConversion,
    /// Level 1: bursts of one beat that the lower bus can carry are converted, others are refused.
    SimpleConversion,
    /// Level 2: only a burst that is an AXI4-Lite transfer already is passed on.
    FullProtection,
}

/// The level in words.
impl fmt::Display for Level {
    fn fmt<W: fmt::Write>(&self, f: &mut fmt::Formatter<W>) -> fmt::Result {
        f.write_str(match self {
            Level::FullConversion => "full conversion",
            Level::SimpleConversion => "simple conversion",
            Level::FullProtection => "full protection",
        })
    }
}

/// The number that stands for the level in a plan line.
impl From<Level> for u8 {
    ghost from_gives = { λ level n. n ≡ level_number level };

    fn from(level: Level) -> u8 {
        level as u8
    }
}

/// The level that a number stands for.
impl TryFrom<u8> for Level {
    type Error = PlanRefusal;

    ghost try_from_gives = { ReadsLevel };

    fn try_from(level: u8) -> Result<Level, PlanRefusal> {
        match level {
            0 => Ok(Level::FullConversion),
            1 => Ok(Level::SimpleConversion),
            2 => Ok(Level::FullProtection),
            _ => Err(PlanRefusal::Level),
        }
    }
}

/// Why there is no plan with the values asked for.
#[derive(Clone, Copy, Debug, PartialEq, Eq)]
pub enum PlanRefusal {
    /// A width is neither 4 nor 8.
    Width = 1,
    /// The lower bus is wider than the upper one.
    LowerAboveUpper = 2,
    /// The level is above 2.
    Level = 3,
}

/// The refusal in words.
impl fmt::Display for PlanRefusal {
    fn fmt<W: fmt::Write>(&self, f: &mut fmt::Formatter<W>) -> fmt::Result {
        f.write_str(match self {
            PlanRefusal::Width =>
                "a bus is neither 4 nor 8 bytes wide; expected 4 or 8 for U and L",
            PlanRefusal::LowerAboveUpper =>
                "the lower bus is wider than the upper one; expected L at most U",
            PlanRefusal::Level => "there is no such level; expected 0, 1 or 2",
        })
    }
}

impl Error for PlanRefusal {}

/// The number of the refusal.
impl From<PlanRefusal> for u8 {
    ghost from_gives = { λ refusal n. n ≡ plan_refusal_number refusal };

    fn from(refusal: PlanRefusal) -> u8 {
        refusal as u8
    }
}

/// The settings of a bridge. Every value is legal.
#[derive(Clone, Copy, Debug, PartialEq, Eq)]
pub struct Plan {
    pub widths: Widths,
    pub level: Level,
}

impl Plan {
    /// The plan with these widths in bytes and this level, or the first reason against it.
    pub fn new(upper: u8, lower: u8, level: u8) -> Result<Plan, PlanRefusal>
        ensures { elim result [ Ok p ↦ (refused_plan upper lower level ≡ None) × (upper_bytes p ≡ upper) × (lower_bytes p ≡ lower) × (level_number p.level ≡ level) | Err e ↦ refused_plan upper lower level ≡ Some e ] }
    {
        let widths = Widths::try_from((upper, lower))?;
        let level = Level::try_from(level)?;
        Ok(Plan { widths, level })
    }

    /// The width of the upper bus in bytes.
    pub fn upper(self) -> u32
        ensures { result ≡ upper_bytes self }
    {
        match self.widths {
            Widths::FourOverFour => 4,
            Widths::EightOverFour | Widths::EightOverEight => 8,
        }
    }

    /// The width of the lower bus in bytes.
    pub fn lower(self) -> u32
        ensures { result ≡ lower_bytes self }
    {
        match self.widths {
            Widths::FourOverFour | Widths::EightOverFour => 4,
            Widths::EightOverEight => 8,
        }
    }
}
