//! What a line says.
ghost use Rattle.listing.specs.Items.{in_force};
ghost use Rattle.std.specs.Prelude.{◌≡◌};

use axi::burst::Burst;
use axi::plan::Plan;

/// What a line says.
#[derive(Clone, Copy, Debug, PartialEq, Eq)]
pub enum Item {
    /// The plan for the bursts that follow.
    Bridge(Plan),
    /// A burst, under the plan in force.
    Burst(Plan, Burst),
}

impl Item {
    /// The plan in force after the line.
    pub fn plan(self) -> Plan
        ensures { result ≡ in_force self }
    {
        match self {
            Item::Bridge(plan) | Item::Burst(plan, _) => plan,
        }
    }
}
