//! The line of a bridge.
ghost use Rattle.sections.specs.Lines.{bridge_carriers, bridge_line, settings_row, PlanOf};
ghost use Rattle.std.specs.Prelude.{codes};
ghost use Rattle.words.specs.Lines.{headed};
ghost use Rattle.words.specs.Reading.{Reads, ReadsAs};

use crate::tables::BRIDGE;
use axi::plan::{Plan, PlanRefusal};
use words::cursor::Cursor;
use words::fault::Fault;

// Numbers as they are written: whether there is such a plan is asked later, by `Plan::try_from`.
/// What a bridge's line says: U, L and level.
#[derive(Clone, Copy)]
pub struct Settings {
    pub upper: u8,
    pub lower: u8,
    pub level: u8,
}

impl Settings {
    /// The settings of a line `bridge U L level`, which the cursor passes.
    pub fn read(cursor: &mut Cursor) -> Result<Settings, Fault>
        ensures reads { Reads bridge_line cursor.old cursor.new result }
        ensures numbers { ReadsAs settings_row (headed (codes "bridge") bridge_carriers) cursor.old cursor.new result }
    {
        let [upper, lower, level] = cursor.headed(b"bridge", &BRIDGE)?;
        Ok(Settings {
            upper: upper as u8,
            lower: lower as u8,
            level: level as u8,
        })
    }
}

/// The plan with these settings, or the first reason against it.
impl TryFrom<Settings> for Plan {
    type Error = PlanRefusal;

    ghost try_from_gives = { PlanOf };

    fn try_from(settings: Settings) -> Result<Plan, PlanRefusal> {
        Plan::new(settings.upper, settings.lower, settings.level)
    }
}
