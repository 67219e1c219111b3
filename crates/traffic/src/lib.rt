//! Traffic for a measurement: page writes and page reads at once, with all wires ready or under irregular stalls.
//!
//! A program of another language links `traffic_sum` and takes the time. The model has the same traffic, so both sums must be equal.

#![tactic(auto)]

ghost use Rattle.axi.specs.Plans.{refused_plan};
ghost use Rattle.std.specs.Prelude.{◌≡◌, ◌≢◌, None};

mod gate;
mod load;

use axi::plan::Plan;
use axi::wires::{Beat, ReadBeat, WriteAnswer};
use bridge::bridge::{Bridge, Tables};
use engines::taken::{NO_ANSWER, NO_BEAT, NO_BURST, NO_READ_BEAT, Taken};
use gate::{ALL, SEED, shifted};
use load::Load;

/// The slots of each table.
const SLOTS: usize = 4;

// The closure behind a `dyn`: a type parameter was tried, and the measured edges were slower.
/// Drives a bridge of this plan for so many edges under these gates, and mixes the payloads that it shows and the counts of what crosses into one number.
fn drive(plan: Plan, edges: u64, gate: &mut dyn FnMut() -> u32) -> u64
    requires { IsAlwaysCallable gate.now }
{
    // Five arrays: with `Slots` the compiled library calls `memset`, and needs it from whoever links it.
    let mut write_bursts = [NO_BURST; SLOTS];
    let mut data_beats = [NO_BEAT; SLOTS];
    let mut write_answers = [NO_ANSWER; SLOTS];
    let mut read_bursts = [NO_BURST; SLOTS];
    let mut read_beats = [NO_READ_BEAT; SLOTS];
    let tables = Tables {
        write_bursts: &mut write_bursts,
        data_beats: &mut data_beats,
        write_answers: &mut write_answers,
        read_bursts: &mut read_bursts,
        read_beats: &mut read_beats,
    };
    let mut bridge = Bridge::new(plan, tables);
    let mut load = Load::default();
    for edge in 0..edges {
        load.step(&mut bridge, gate(), edge);
    }
    load.sum()
}

/// Drives a bridge of these settings with four slots in each table for so many edges, and mixes the payloads that it shows and the counts of what crosses
/// into one number. It is 0 without a plan.
///
/// The settings come from outside so that the compiler makes no bridge for one plan alone.
// A flag, since C calls this.
#[unsafe(no_mangle)]
pub extern "C" fn traffic_sum(upper: u8, lower: u8, level: u8, edges: u64, stalls: bool) -> u64
    ensures { refused_plan upper lower level ≢ None → result ≡ 0 }
{
    match Plan::new(upper, lower, level) {
        Ok(plan) if stalls => {
            let mut noise = SEED;
            drive(
                plan,
                edges,
                &mut move || {
                    noise = shifted(noise);
                    noise | (noise >> 16)
                },
            )
        }
        Ok(plan) => drive(plan, edges, &mut || ALL),
        Err(_) => 0,
    }
}

/// The bytes that such a bridge takes without its tables.
#[unsafe(no_mangle)]
pub extern "C" fn traffic_bridge_bytes() -> usize {
    size_of::<Bridge>()
}

/// The bytes that the slots of its five tables take.
#[unsafe(no_mangle)]
pub extern "C" fn traffic_table_bytes() -> usize {
    size_of::<[Taken; SLOTS]>()
        + size_of::<[Beat; SLOTS]>()
        + size_of::<[WriteAnswer; SLOTS]>()
        + size_of::<[Taken; SLOTS]>()
        + size_of::<[ReadBeat; SLOTS]>()
}
