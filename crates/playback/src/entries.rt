//! The entries that are left of a script's sections, and the wires that they drive.
ghost use Rattle.playback.specs.Entries.{stock, driven, left_after, allowed};
ghost use Rattle.ledgers.specs.Lists.{any, oldest, less_if};
ghost use Rattle.sections.specs.Sections.{entries};
ghost use Rattle.std.specs.Prelude.{◌≡◌, ◌&&◌};

use axi::burst::Burst;
use axi::wires::{Beat, Inputs, LowerRead};
use bridge::report::Crossed;
use script::script::{Block, Master};
use sections::entry::Entry;
use sections::section::Section;

// The same bits stand in `traffic`, which stays free of this crate.
/// The wires that a gate allows, by their bits.
#[derive(Clone, Copy)]
pub enum Wire {
    AwValid = 0,
    WValid = 1,
    BReady = 2,
    ArValid = 3,
    RReady = 4,
    LawReady = 5,
    LwReady = 6,
    LbValid = 7,
    LarReady = 8,
    LrValid = 9,
}

/// Whether a gate allows a wire to be high.
fn allows(gate: u16, wire: Wire) -> bool
    ensures { result ≡ allowed gate wire }
{
    (gate >> (wire as u16)) % 2 == 1
}

/// Whether a VALID that may be high is: it also needs an entry that is left.
fn valid<'a, T: Entry<'a>>(mut section: Section<'a, T>, may: bool) -> bool
    ensures { result ≡ may && any (entries T.carriers T.of section.entry) }
{
    may & section.next().is_some()
}

/// The first entry that is left, or what the wires carry where none is.
fn payload<'a, T: Entry<'a>>(mut section: Section<'a, T>, none: T) -> T
    ensures { T.seen result ≡ oldest (T.seen none) (entries T.carriers T.of section.entry) }
{
    section.next().unwrap_or(none)
}

/// A crossing uses up the first entry of a section.
fn use_up<'a, T: Entry<'a>>(section: &mut Section<'a, T>, crosses: bool)
    ensures { entries T.carriers T.of section.new ≡ less_if crosses (entries T.carriers T.of section.old) }
{
    if crosses {
        section.next();
    }
}

/// The entries that are left, one cursor for each section.
#[derive(Clone, Copy)]
pub struct Entries<'a> {
    pub master: Master<'a>,
    pub block: Block<'a>,
}

impl<'a> Entries<'a> {
    /// The wires of master and block on an edge with this gate: each by its bit and its section.
    #[tactic(auto, unfolding(crate::specs::Entries::driven, sections::specs::Values::bursts, sections::specs::Values::beats, sections::specs::Values::write_codes, sections::specs::Values::read_parts))]
    pub fn wires(&self, gate: u16) -> Inputs
        ensures { result ≡ driven (stock self.now) gate }
    {
        let Master {
            writes,
            beats,
            reads,
        } = self.master;
        let Block { wcodes, rparts } = self.block;
        Inputs {
            aresetn: true,
            awvalid: valid(writes, allows(gate, Wire::AwValid)),
            aw: payload(writes, Burst::default()),
            wvalid: valid(beats, allows(gate, Wire::WValid)),
            w: payload(beats, Beat::default()),
            bready: allows(gate, Wire::BReady),
            arvalid: valid(reads, allows(gate, Wire::ArValid)),
            ar: payload(reads, Burst::default()),
            rready: allows(gate, Wire::RReady),
            lawready: allows(gate, Wire::LawReady),
            lwready: allows(gate, Wire::LwReady),
            lbvalid: valid(wcodes, allows(gate, Wire::LbValid)),
            lbresp: payload(wcodes, 0),
            larready: allows(gate, Wire::LarReady),
            lrvalid: valid(rparts, allows(gate, Wire::LrValid)),
            lr: payload(rparts, LowerRead::default()),
        }
    }

    /// What crosses on an edge uses up its entries.
    #[tactic(auto, unfolding(sections::specs::Values::bursts, sections::specs::Values::beats, sections::specs::Values::write_codes, sections::specs::Values::read_parts))]
    pub fn pass(&mut self, crossed: &Crossed)
        ensures { stock self.new ≡ left_after (stock self.old) crossed.now }
    {
        use_up(&mut self.master.writes, crossed.aw);
        use_up(&mut self.master.beats, crossed.w);
        use_up(&mut self.master.reads, crossed.ar);
        use_up(&mut self.block.wcodes, crossed.lb);
        use_up(&mut self.block.rparts, crossed.lr);
    }
}
