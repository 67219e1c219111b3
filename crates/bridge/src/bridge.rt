//! The whole bridge: both sides, edge by edge.
ghost use Rattle.bridge.specs.Edges.{settings, Becomes, Outcome, writes_after, reads_after, edge_report};
ghost use Rattle.bridge.specs.Machines.{seen, Keeps, edge_call, ask_wires_of, ask_owed_of, after_edge, Answered, outputs_view, shown_by, writes_owed_by, reads_owed_by};
ghost use Rattle.engines.specs.Protocol.{pieces, joining};
ghost use Rattle.ledgers.specs.OneByOne.{made};
ghost use Rattle.reads.specs.ReadSides.{no_reads};
ghost use Rattle.bridge.specs.Reports.{no_report};
ghost use Rattle.writes.specs.WriteSides.{no_writes};
ghost use Rattle.std.specs.Prelude.{◌≡◌, length};

use crate::report::Report;
use axi::plan::Plan;
use axi::wires::{Beat, Inputs, Outputs, ReadBeat, Refusal, WriteAnswer};
use engines::taken::{NO_ANSWER, NO_BEAT, NO_PLACE, NO_READ_BEAT, Taken};
use reads::side::ReadSide;
use writes::side::WriteSide;

/// The five tables that the bench lends, with any number of slots each.
#[derive(Drop)]
pub struct Tables<'a> {
    pub write_bursts: &'a mut [Taken],
    pub data_beats: &'a mut [Beat],
    pub write_answers: &'a mut [WriteAnswer],
    pub read_bursts: &'a mut [Taken],
    pub read_beats: &'a mut [ReadBeat],
}

/// A bridge of a plan, over the bench's tables.
#[derive(Drop)]
pub struct Bridge<'a> {
    plan: Plan,
    writes: WriteSide<'a>,
    reads: ReadSide<'a>,
}

/// What a bridge owes. The counts are wide enough for tables of any size.
#[derive(Clone, Copy)]
pub struct Owed {
    /// Write bursts whose answer has not crossed.
    pub writes: u128,
    /// Read bursts whose last beat has not crossed.
    pub reads: u128,
}

impl<'a> Bridge<'a> {
    /// A bridge of a plan over the bench's tables, as after a reset. It never refuses.
    pub fn new(plan: Plan, tables: Tables<'a>) -> Self
        ensures made { seen plan result ≡ made (pieces plan) (joining plan) }
        ensures settings { Rattle.bridge.specs.Edges.settings result ≡ record { plan = plan; write_side = record { bursts = length tables.entry.write_bursts.now; beats = length tables.entry.data_beats.now; answers = length tables.entry.write_answers.now }; read_side = record { bursts = length tables.entry.read_bursts.now; beats = length tables.entry.read_beats.now } } }
    {
        let Tables {
            write_bursts,
            data_beats,
            write_answers,
            read_bursts,
            read_beats,
        } = tables;
        Bridge {
            plan,
            writes: WriteSide::new(write_bursts, data_beats, write_answers),
            reads: ReadSide::new(read_bursts, read_beats),
        }
    }

    /// One rising edge.
    ///
    /// With ARESETn low it empties all queues and stops both engines. Otherwise a field that is too large under its VALID refuses the
    /// edge, and the bridge and its tables stay as they were; else every channel with VALID and READY both high crosses.
    pub fn edge(&mut self, x: &Inputs) -> Result<Report, Refusal>
        ensures result { Answered self.old x.now self.new result }
        ensures moved { seen self.old.plan self.new ≡ after_edge self.old x.now }
        ensures kept { settings self.new ≡ settings self.old }
        ensures promise { Keeps self.old (edge_call self.old x.now) self.new }
    {
        self.advance(x)
    }

    /// Every wire that the bridge drives, from its state alone. Payload under a low VALID is 0.
    pub fn wires(&self) -> Outputs
        ensures shown { outputs_view self.now.plan result ≡ shown_by self.now }
        ensures promise { Keeps self.now (ask_wires_of self.now) self.now }
    {
        self.drive()
    }

    /// The write bursts and read bursts that were taken and are not answered yet.
    pub fn owed(&self) -> Owed
        ensures writes { result.writes ≡ writes_owed_by self.now }
        ensures reads { result.reads ≡ reads_owed_by self.now }
        ensures promise { Keeps self.now (ask_owed_of self.now) self.now }
    {
        Owed {
            writes: self.writes.owed(),
            reads: self.reads.owed(),
        }
    }

    /// One edge: refused, a reset, or both sides move.
    fn advance(&mut self, x: &Inputs) -> Result<Report, Refusal>
        ensures { Outcome self.old x.now self.new result }
    {
        if let Some(refusal) = self.plan.check(x) {
            return Err(refusal);
        }
        Ok(if x.aresetn { self.run(x) } else { self.reset() })
    }

    /// An edge with ARESETn high and wires that fit.
    fn run(&mut self, x: &Inputs) -> Report
        ensures report { result ≡ edge_report self.old x.now }
        ensures becomes { Becomes self.old self.new (writes_after self.old x.now) (reads_after self.old x.now) }
    {
        let writes = self.writes.edge(self.plan, x);
        let reads = self.reads.edge(self.plan, x);
        Report::new(self.plan, writes, reads)
    }

    /// An edge with ARESETn low.
    fn reset(&mut self) -> Report
        ensures report { result ≡ no_report }
        ensures becomes { Becomes self.old self.new (no_writes self.old.plan) (no_reads self.old.plan) }
    {
        self.writes.reset();
        self.reads.reset();
        Report::nothing()
    }

    /// The wires that the bridge drives, from its state alone.
    #[tactic(auto, using(crate::proofs::QueueLaws::is_when, crate::proofs::Shown::write_shown, crate::proofs::Shown::read_shown))]
    fn drive(&self) -> Outputs
        ensures { outputs_view self.now.plan result ≡ shown_by self.now }
    {
        let writer = self.writes.engine_wires(self.plan);
        let reader = self.reads.engine_wires(self.plan);
        let b = self.writes.answer();
        let r = self.reads.beat();
        Outputs {
            awready: self.writes.takes_burst(),
            wready: self.writes.takes_beat(),
            bvalid: b.is_some(),
            b: b.unwrap_or(NO_ANSWER),
            arready: self.reads.takes_burst(),
            rvalid: r.is_some(),
            r: r.unwrap_or(NO_READ_BEAT),
            lawvalid: writer.law.is_some(),
            law: writer.law.unwrap_or(NO_PLACE),
            lwvalid: writer.lw.is_some(),
            lw: writer.lw.unwrap_or(NO_BEAT),
            lbready: writer.lbready,
            larvalid: reader.lar.is_some(),
            lar: reader.lar.unwrap_or(NO_PLACE),
            lrready: reader.lrready,
        }
    }
}
