//! The write side: three queues and the write engine.
ghost use Rattle.writes.specs.WriteSides.{writes_view, write_slots, no_writes, writes_crossed, write_side_events, write_side_moved, write_side_edged, below_of, WritesBecome};
ghost use Rattle.ledgers.specs.OneByOne.{room};
ghost use Rattle.ledgers.specs.Writer.{busy};
ghost use Rattle.engines.specs.Writes.{writer_view, writer_wires};
ghost use Rattle.ring.specs.Circular.{first};
ghost use Rattle.ring.specs.Entries.{entries};
ghost use Rattle.std.specs.Prelude.{◌+◌, length, ◌≡◌};

use axi::plan::Plan;
use axi::wires::{Beat, Inputs, WriteAnswer};
use engines::taken::Taken;
use engines::task::Task;
use engines::writer::{Writer, WriterWires};
use ring::Ring;

// Contracts view a side under a plan, and the side holds none: so it has no Model.
/// The write bursts and data beats that wait, the write answers that wait, and the engine between them.
#[derive(Drop)]
pub struct WriteSide<'a> {
    bursts: Ring<'a, Taken>,
    beats: Ring<'a, Beat>,
    answers: Ring<'a, WriteAnswer>,
    writer: Writer,
}

/// What crosses on one edge of the write side.
#[derive(Clone, Copy)]
pub struct WriteEvents {
    /// The burst taken above, with its verdict.
    pub aw: Option<Taken>,
    /// The data beat taken above.
    pub w: Option<Beat>,
    pub b: bool,
    pub law: bool,
    pub lw: bool,
    pub lb: bool,
}

/// What crosses below on one edge of the write side.
#[derive(Clone, Copy, Default)]
struct Below {
    law: bool,
    lw: bool,
    lb: bool,
}

impl<'a> WriteSide<'a> {
    /// Empty queues in the slots that are lent, and an idle engine.
    pub fn new(
        bursts: &'a mut [Taken],
        beats: &'a mut [Beat],
        answers: &'a mut [WriteAnswer],
    ) -> Self
        ensures empty { (p : Plan) → writes_view p result ≡ no_writes p }
        ensures slots { write_slots result ≡ record { bursts = length bursts.entry.now; beats = length beats.old; answers = length answers.old } }
    {
        WriteSide {
            bursts: Ring::new(bursts),
            beats: Ring::new(beats),
            answers: Ring::new(answers),
            writer: Writer::Idle,
        }
    }

    // Plan and wires stay two: the plan is the bridge's own, the wires are new on each edge.
    /// One edge: the engine moves, then what crosses above enters and leaves. It answers what crossed.
    #[tactic(auto, using(engines::proofs::Waiting::waits))]
    pub fn edge(&mut self, plan: Plan, x: &Inputs) -> WriteEvents
        ensures events { result ≡ write_side_events plan self.old x.now }
        ensures edged { WritesBecome plan self.old self.new (write_side_edged plan self.old x.now) }
    {
        let aw = (x.awvalid & self.takes_burst()).then(|| Taken::new(plan, x.aw));
        let w = (x.wvalid & self.takes_beat()).then_some(x.w);
        let b = !self.answers.is_empty() & x.bready;
        let Below { law, lw, lb } = self.step(plan, x);
        let events = WriteEvents {
            aw,
            w,
            b,
            law,
            lw,
            lb,
        };
        self.cross(plan, events);
        events
    }

    /// Empties the queues and stops the engine.
    pub fn reset(&mut self)
        ensures empty { (p : Plan) → writes_view p self.new ≡ no_writes p }
        ensures kept { write_slots self.new ≡ write_slots self.old }
    {
        self.bursts.clear();
        self.beats.clear();
        self.answers.clear();
        self.writer = Writer::Idle;
    }

    /// AWREADY: there is a slot for a burst.
    pub fn takes_burst(&self) -> bool
        ensures { result ≡ room (write_slots self.now).bursts (entries self.now.bursts) }
    {
        !self.bursts.is_full()
    }

    /// WREADY: there is a slot for a data beat.
    pub fn takes_beat(&self) -> bool
        ensures { result ≡ room (write_slots self.now).beats (entries self.now.beats) }
    {
        !self.beats.is_full()
    }

    /// The oldest answer that waits.
    pub fn answer(&self) -> Option<WriteAnswer>
        ensures { result ≡ first (entries self.now.answers) }
    {
        self.answers.front()
    }

    /// The wires of the engine.
    pub fn engine_wires(&self, plan: Plan) -> WriterWires
        ensures { result ≡ writer_wires plan self.now.writer }
    {
        self.writer.wires(plan)
    }

    /// The write bursts taken and not yet answered.
    pub fn owed(&self) -> u128
        ensures { (p : Plan) → result ≡ length (entries self.now.bursts) + busy (writer_view p self.now.writer) + length (entries self.now.answers) }
    {
        let busy = u128::from(!matches!(self.writer, Writer::Idle));
        self.bursts.len() as u128 + busy + self.answers.len() as u128
    }

    /// One move of the engine, by its state and the wires from below. It answers what crossed there.
    fn step(&mut self, plan: Plan, x: &Inputs) -> Below
        ensures below { result ≡ below_of (write_side_events plan self.old x.now) }
        ensures moved { WritesBecome plan self.old self.new (write_side_moved plan self.old x.now) }
    {
        match (self.writer, x.lbvalid) {
            (Writer::Idle, _) => {
                if let Some(taken) = self.bursts.pop() {
                    self.writer = Writer::Fetch(Task::new(taken));
                }
                Below::default()
            }
            (Writer::Fetch(task), _) => {
                if let Some(beat) = self.beats.pop() {
                    self.writer = task.take(plan, beat);
                }
                Below::default()
            }
            (Writer::Send(task, part, uncrossed), _) => {
                let (law, lw) = uncrossed.crossed();
                self.writer = task.send(part, law | x.lawready, lw | x.lwready);
                Below {
                    law: !law & x.lawready,
                    lw: !lw & x.lwready,
                    lb: false,
                }
            }
            (Writer::Await(task, part), true) => {
                self.writer = task.answer(plan, part, x.lbresp);
                Below {
                    lb: true,
                    ..Below::default()
                }
            }
            (Writer::Await(_, _), false) => Below::default(),
            (Writer::Close(task), _) => {
                if self.answers.push(task.write_answer()).is_ok() {
                    self.writer = Writer::Idle;
                }
                Below::default()
            }
        }
    }

    /// What crosses above: an answer leaves, a burst and a beat enter.
    fn cross(&mut self, plan: Plan, events: WriteEvents)
        ensures { WritesBecome plan self.old self.new (writes_crossed (write_slots self.old) events (writes_view plan self.old)) }
    {
        if events.b {
            self.answers.pop();
        }
        // What crosses had a free slot, so no push is refused.
        if let Some(taken) = events.aw {
            let _ = self.bursts.push(taken);
        }
        if let Some(beat) = events.w {
            let _ = self.beats.push(beat);
        }
    }
}
