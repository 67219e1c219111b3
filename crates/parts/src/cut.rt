//! The parts of a beat on the lower bus.
ghost use Rattle.std.specs.Prelude.{◌≡◌};
ghost use Rattle.axi.specs.Bursts.{bytes};
ghost use Rattle.parts.specs.Parts.{places, at_places, next_parts, Parted};

use axi::burst::Burst;
use axi::plan::Plan;

/// One part of a beat and how many follow it.
#[derive(Clone, Copy)]
pub struct Parts {
    /// The address of this part.
    pub at: u32,
    /// How many parts of the beat follow.
    pub more: u8,
}

impl Parts {
    // The plan stays a parameter: parts lie in the engines' states, each of which would hold a copy of it.
    /// The parts of a beat of this burst at address `at`.
    pub fn of(plan: Plan, b: Burst, at: u32) -> Parts
        ensures which { at_places plan result ≡ places plan (bytes b) at }
        ensures parted { Parted plan (bytes b) at (at_places plan result) }
    {
        let s = b.bytes();
        let bytes_after = s - 1 - at % s;
        Parts {
            at,
            more: (bytes_after / plan.lower()) as u8,
        }
    }

    /// The parts after this one.
    pub fn next(self, plan: Plan) -> Option<Parts>
        ensures { result ≡ next_parts plan self }
    {
        let more = self.more.checked_sub(1)?;
        let l = plan.lower();
        Some(Parts {
            at: (self.at - self.at % l).wrapping_add(l),
            more,
        })
    }
}
