//! Slots for the five tables of a bridge.
ghost use Rattle.bridge.specs.Tables.{no_entries, SlotsEach, Over};
ghost use Rattle.std.specs.Prelude.{◌≡◌};

use crate::bridge::Tables;
use axi::wires::{Beat, ReadBeat, WriteAnswer};
use engines::taken::{NO_ANSWER, NO_BEAT, NO_BURST, NO_READ_BEAT, Taken};

/// `N` slots for each of the five tables.
#[derive(Clone, Copy)]
pub struct Slots<const N: usize> {
    write_bursts: [Taken; N],
    data_beats: [Beat; N],
    write_answers: [WriteAnswer; N],
    read_bursts: [Taken; N],
    read_beats: [ReadBeat; N],
}

impl<const N: usize> Slots<N> {
    /// Slots that hold no burst, no beat and no answer.
    pub fn new() -> Self
        ensures { result ≡ no_entries N }
    {
        Slots {
            write_bursts: [NO_BURST; N],
            data_beats: [NO_BEAT; N],
            write_answers: [NO_ANSWER; N],
            read_bursts: [NO_BURST; N],
            read_beats: [NO_READ_BEAT; N],
        }
    }

    /// The tables over these slots, `N` slots each.
    pub fn tables(&mut self) -> Tables<'_>
        ensures slots { SlotsEach N result }
        ensures held { Over self.old result }
    {
        Tables {
            write_bursts: &mut self.write_bursts,
            data_beats: &mut self.data_beats,
            write_answers: &mut self.write_answers,
            read_bursts: &mut self.read_bursts,
            read_beats: &mut self.read_beats,
        }
    }
}
