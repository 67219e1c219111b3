//! The lanes of the upper bus that a part uses, and what it carries on them.
ghost use Rattle.std.specs.Prelude.{◌≡◌, ℕ, ◌+◌, ◌≤◌};
ghost use Rattle.axi.specs.Plans.{lower_bytes, upper_bytes};
ghost use Rattle.parts.specs.Lanes.{raised, write_part};

use axi::plan::{Plan, Widths};
use axi::wires::Beat;

// Plan and address stay two parameters, here and below: a part holds its address alone, and no caller holds a pair of them.
/// The first lane of the upper bus that a part at this address uses.
pub fn lane(plan: Plan, at: u32) -> u32
    ensures which { result ≡ Rattle.parts.specs.Lanes.lane plan at }
    ensures small { result + lower_bytes plan ≤ upper_bytes plan }
{
    match plan.widths {
        Widths::FourOverFour | Widths::EightOverEight => 0,
        Widths::EightOverFour => at % 8 - at % 4,
    }
}

/// What a write part at this address carries: the data and strobes of its lanes.
pub fn write_part(plan: Plan, at: u32, beat: Beat) -> Beat
    ensures { result ≡ write_part plan at beat }
{
    let from = lane(plan, at);
    match plan.widths {
        Widths::FourOverFour | Widths::EightOverFour => Beat {
            wdata: (beat.wdata >> (8 * from)) % 0x1_0000_0000,
            wstrb: (beat.wstrb >> from) % 16,
        },
        Widths::EightOverEight => beat,
    }
}

/// The data of a read part at this address on its own lanes of the upper bus, all others 0.
pub fn raise(plan: Plan, at: u32, lrdata: u64) -> u64
    ensures { result ≡ raised plan at lrdata }
{
    let from = lane(plan, at);
    match plan.widths {
        Widths::FourOverFour | Widths::EightOverFour => (lrdata % 0x1_0000_0000) << (8 * from),
        Widths::EightOverEight => lrdata,
    }
}
