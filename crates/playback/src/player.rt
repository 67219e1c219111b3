//! Playing gate by gate.
ghost use Rattle.bridge.specs.Edges.{settings};
ghost use Rattle.playback.specs.Entries.{stock};
ghost use Rattle.playback.specs.Runs.{Stepped, Ran, playing, refused_at};
ghost use Rattle.words.specs.Cursors.{text};
ghost use Rattle.sections.specs.Sections.{section_text};
ghost use Rattle.sections.specs.Values.{gates};
ghost use Rattle.std.specs.Prelude.{◌≡◌, IfOk};

use crate::entries::Entries;
use axi::wires::Refusal;
use bridge::bridge::Bridge;
use sections::section::{Gate, Section};
use std::alloc::AllocError;
use transcript::crossing::{CHANNELS, Crossing, crossings, print_edge};
use transcript::ending::Ending;
use transcript::fault::PlayerFault;
use words::cursor::Cursor;

/// A bridge, between the entries that its master and its block have left.
#[derive(Drop)]
pub struct Bench<'b, 's> {
    pub bridge: Bridge<'b>,
    pub entries: Entries<'s>,
}

/// The fault of a refused edge, at its gate's word.
fn fault_at(refusal: Refusal, word: Cursor) -> PlayerFault
    ensures { result ≡ refused_at (text word.entry) word.entry.at refusal }
{
    PlayerFault::from(refusal).at(word.line(), word.place())
}

impl<'b, 's> Bench<'b, 's> {
    /// One gate is one edge: what crosses on it.
    fn step(&mut self, gate: u16) -> Result<[Option<Crossing>; CHANNELS], Refusal>
        ensures edge { Stepped self.old.bridge self.new.bridge (stock self.old.entries) (stock self.new.entries) gate result }
        ensures kept { settings self.new.bridge ≡ settings self.old.bridge }
    {
        let Bench { bridge, entries } = self;
        let x = entries.wires(gate);
        let o = bridge.wires();
        let report = bridge.edge(&x)?;
        entries.pass(&report.crossed);
        Ok(crossings(&report, &x, &o))
    }

    /// Every gate in order, to the end or to the first refused edge.
    pub fn run<'g>(
        &mut self,
        section: Section<'g, Gate<'g>>,
        out: &mut Vec<u8>,
    ) -> Result<Ending, AllocError>
        ensures { IfOk result (λ end. Ran (playing self.old.bridge (stock self.old.entries) (section_text section.entry) 0 (gates section.entry)) out.old.items out.new.items end) }
    {
        for (edge, gate) in section.enumerate() {
            // A refused edge ends the lines, want of memory the call: `?` passes only the second.
            match self.step(gate.bits) {
                Ok(crossings) => print_edge(out, edge as u64, &crossings)?,
                Err(refusal) => return Ok(Err(fault_at(refusal, gate.at))),
            }
        }
        Ok(Ok(self.bridge.owed()))
    }
}
