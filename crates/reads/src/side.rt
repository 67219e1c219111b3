//! The read side: two queues and the read engine.
ghost use Rattle.reads.specs.ReadSides.{reads_view, read_slots, no_reads, reads_crossed, read_side_events, read_side_moved, read_side_edged, below_of, ReadsBecome};
ghost use Rattle.ledgers.specs.OneByOne.{room};
ghost use Rattle.ledgers.specs.Reader.{busy};
ghost use Rattle.engines.specs.Reads.{reader_view, reader_wires};
ghost use Rattle.engines.specs.Queues.{lasts_of};
ghost use Rattle.ring.specs.Circular.{first};
ghost use Rattle.ring.specs.Entries.{entries};
ghost use Rattle.std.specs.Prelude.{◌≡◌, ℕ, ◌+◌, ◌<◌, ◌^◌, length};

use axi::plan::Plan;
use axi::wires::{Inputs, ReadBeat};
use engines::reader::{Reader, ReaderWires};
use engines::taken::Taken;
use ring::Ring;

// Contracts view a side under a plan, and the side holds none: so it has no Model.
/// The read bursts that wait, the read beats that wait, and the engine between them.
#[derive(Drop)]
pub struct ReadSide<'a> {
    bursts: Ring<'a, Taken>,
    beats: Ring<'a, ReadBeat>,
    reader: Reader,
}

/// What crosses on one edge of the read side.
#[derive(Clone, Copy)]
pub struct ReadEvents {
    /// The burst taken above, with its verdict.
    pub ar: Option<Taken>,
    pub r: bool,
    pub lar: bool,
    pub lr: bool,
}

/// What crosses below on one edge of the read side.
#[derive(Clone, Copy, Default)]
struct Below {
    lar: bool,
    lr: bool,
}

impl<'a> ReadSide<'a> {
    /// Empty queues in the slots that are lent, and an idle engine.
    pub fn new(bursts: &'a mut [Taken], beats: &'a mut [ReadBeat]) -> Self
        ensures empty { (p : Plan) → reads_view p result ≡ no_reads p }
        ensures slots { read_slots result ≡ record { bursts = length bursts.entry.now; beats = length beats.old } }
    {
        ReadSide {
            bursts: Ring::new(bursts),
            beats: Ring::new(beats),
            reader: Reader::Idle,
        }
    }

    // Plan and wires stay two: the plan is the bridge's own, the wires are new on each edge.
    /// One edge: the engine moves, then what crosses above enters and leaves. It answers what crossed.
    #[tactic(auto, using(engines::proofs::Waiting::waits))]
    pub fn edge(&mut self, plan: Plan, x: &Inputs) -> ReadEvents
        ensures events { result ≡ read_side_events plan self.old x.now }
        ensures edged { ReadsBecome plan self.old self.new (read_side_edged plan self.old x.now) }
    {
        let ar = (x.arvalid & self.takes_burst()).then(|| Taken::new(plan, x.ar));
        let r = !self.beats.is_empty() & x.rready;
        let Below { lar, lr } = self.step(plan, x);
        let events = ReadEvents { ar, r, lar, lr };
        self.cross(plan, events);
        events
    }

    /// Empties the queues and stops the engine.
    pub fn reset(&mut self)
        ensures empty { (p : Plan) → reads_view p self.new ≡ no_reads p }
        ensures kept { read_slots self.new ≡ read_slots self.old }
    {
        self.bursts.clear();
        self.beats.clear();
        self.reader = Reader::Idle;
    }

    /// ARREADY: there is a slot for a burst.
    pub fn takes_burst(&self) -> bool
        ensures { result ≡ room (read_slots self.now).bursts (entries self.now.bursts) }
    {
        !self.bursts.is_full()
    }

    /// The oldest beat that waits.
    pub fn beat(&self) -> Option<ReadBeat>
        ensures { result ≡ first (entries self.now.beats) }
    {
        self.beats.front()
    }

    /// The wires of the engine.
    pub fn engine_wires(&self, plan: Plan) -> ReaderWires
        ensures { result ≡ reader_wires plan self.now.reader }
    {
        self.reader.wires(plan)
    }

    /// The read bursts taken whose last beat has not crossed.
    pub fn owed(&self) -> u128
        ensures { (p : Plan) → result ≡ length (entries self.now.bursts) + busy (reader_view p self.now.reader) + lasts_of (entries self.now.beats) }
    {
        let busy = u128::from(!matches!(self.reader, Reader::Idle));
        self.bursts.len() as u128 + busy + self.lasts()
    }

    /// One move of the engine, by its state and the wires from below. It answers what crossed there.
    fn step(&mut self, plan: Plan, x: &Inputs) -> Below
        ensures below { result ≡ below_of (read_side_events plan self.old x.now) }
        ensures moved { ReadsBecome plan self.old self.new (read_side_moved plan self.old x.now) }
    {
        match (self.reader, x.larready, x.lrvalid) {
            (Reader::Idle, _, _) => {
                if let Some(taken) = self.bursts.pop() {
                    self.reader = Reader::begin(plan, taken);
                }
                Below::default()
            }
            (Reader::Send(task, parts), true, _) => {
                self.reader = Reader::Await(task, parts);
                Below {
                    lar: true,
                    lr: false,
                }
            }
            (Reader::Await(task, parts), _, true) => {
                self.reader = task.answer_part(plan, parts, x.lr);
                Below {
                    lar: false,
                    lr: true,
                }
            }
            (Reader::Send(_, _), false, _) | (Reader::Await(_, _), _, false) => Below::default(),
            (Reader::Close(task), _, _) => {
                if self.beats.push(task.read_beat()).is_ok() {
                    self.reader = task.next_read_beat(plan);
                }
                Below::default()
            }
        }
    }

    /// What crosses above: a beat leaves, a burst enters.
    fn cross(&mut self, plan: Plan, events: ReadEvents)
        ensures { ReadsBecome plan self.old self.new (reads_crossed (read_slots self.old) events (reads_view plan self.old)) }
    {
        if events.r {
            self.beats.pop();
        }
        // What crosses had a free slot, so no push is refused.
        if let Some(taken) = events.ar {
            let _ = self.bursts.push(taken);
        }
    }

    /// How many beats that wait have LAST.
    #[tactic(auto, using(crate::proofs::Lasts::append))]
    fn lasts(&self) -> u128
        ensures count { result ≡ lasts_of (entries self.now.beats) }
        ensures small { result < 2 ^ 65 }
    {
        let (older, newer) = self.beats.as_slices();
        lasts_among(older) as u128 + lasts_among(newer) as u128
    }
}

/// How many of these beats have LAST.
#[tactic(auto, using(crate::proofs::Lasts::counted))]
fn lasts_among(beats: &[ReadBeat]) -> usize
    ensures { result ≡ lasts_of beats.now }
{
    beats.iter().filter(|beat| beat.last).count()
}
