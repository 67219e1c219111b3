//! Playing a script.
ghost use Rattle.std.specs.Prelude.{◌≡◌, IfOk};
ghost use Rattle.playback.specs.Laws.{LinesAreLedgers, EndsIn};
ghost use Rattle.playback.specs.Runs.{Ran};
ghost use Rattle.playback.specs.Transcripts.{Prepared, performed, played_through, transcript};
ghost use Rattle.script.specs.Scripts.{contents};
ghost use Rattle.sections.specs.Sections.{section_text};

use crate::entries::Entries;
use crate::player::Bench;
use axi::plan::Plan;
use bridge::bridge::Bridge;
use bridge::slots::Slots;
use script::script::Script;
use std::alloc::{AllocError, Global};
use transcript::ending::{Ending, print_ending};
use transcript::fault::PlayerFault;

/// What a script's playing prints, and how it ends.
#[derive(Drop)]
pub struct Transcript {
    /// The lines, each ended by byte 0a.
    pub bytes: Vec<u8>,
    /// What the last line says.
    pub ending: Ending,
}

/// A script that was read whole, and its plan.
fn prepare<'a>(bytes: &'a [u8]) -> Result<(Plan, Script<'a>), PlayerFault>
    ensures { Prepared bytes.now result }
{
    let script = Script::read(bytes)?;
    let plan = Plan::try_from(script.settings)?;
    Ok((plan, script))
}

/// Plays a script through a bridge with tables of four slots.
fn run_script(plan: Plan, script: Script, out: &mut Vec<u8>) -> Result<Ending, AllocError>
    ensures { IfOk result (λ end. Ran (played_through (section_text script.entry.gates) (contents script.entry) plan) out.old.items out.new.items end) }
{
    let mut slots: Slots<4> = Slots::new();
    let mut bench = Bench {
        bridge: Bridge::new(plan, slots.tables()),
        entries: Entries {
            master: script.master,
            block: script.block,
        },
    };
    bench.run(script.gates, out)
}

/// The lines of every crossing, and how the playing ends.
fn perform(bytes: &[u8], out: &mut Vec<u8>) -> Result<Ending, AllocError>
    ensures { IfOk result (λ end. Ran (performed bytes.now) out.old.items out.new.items end) }
{
    // A fault still has a transcript, want of memory has none: `?` passes only the second.
    match prepare(bytes) {
        Ok((plan, script)) => run_script(plan, script, out),
        Err(fault) => Ok(Err(fault)),
    }
}

/// The transcript of a script.
fn print(heap: Global, script: &[u8]) -> Result<Transcript, AllocError>
    ensures bytes { IfOk result (λ t. t.bytes.items ≡ transcript script.now) }
    ensures ending { IfOk result (λ t. t.ending ≡ (performed script.now).ending) }
{
    let mut bytes = Vec::new(heap);
    let ending = perform(script, &mut bytes)?;
    print_ending(&mut bytes, ending)?;
    Ok(Transcript { bytes, ending })
}

/// Plays the script in these bytes: a line for each crossing, then what is owed or the fault.
///
/// The transcript is the one that the format gives. Its lines of a channel are that channel's ledger, the ledgers keep the bridge's
/// promise, and a fault points into the script.
pub fn play(heap: Global, script: &[u8]) -> Result<Transcript, AllocError>
    ensures bytes { IfOk result (λ t. t.bytes.items ≡ transcript script.now) }
    ensures ending { IfOk result (λ t. t.ending ≡ (performed script.now).ending) }
    ensures ledgers { LinesAreLedgers script.now }
    ensures points { IfOk result (λ t. EndsIn script.now t.ending) }
{
    print(heap, script)
}
