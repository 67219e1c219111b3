//! The read engine: one part under way at a time.
ghost use Rattle.std.specs.Prelude.{◌≡◌, ℕ, ◌-◌, map};
ghost use Rattle.answers.specs.Join.{join_reads, part_answer};
ghost use Rattle.parts.specs.Parts.{further};
ghost use Rattle.engines.specs.Cursors.{cursor_places};
ghost use Rattle.engines.specs.Protocol.{pieces, joining, place, read_beat_of};
ghost use Rattle.engines.specs.Reads.{reader_view, reader_wires};
ghost use Rattle.engines.specs.Tasks.{task_burst, task_sum};
ghost use Rattle.ledgers.specs.Due.{is_last};
ghost use Rattle.ledgers.specs.Reader.{next_beat, with_parts, start_beat};

use crate::taken::{Taken, parts_after};
use crate::task::Task;
use answers::answer::Answer;
use answers::collector::Collector;
use answers::read::ReadAnswer;
use axi::plan::Plan;
use axi::wires::{LowerRead, Place, ReadBeat};
use parts::cut::Parts;

/// What the read engine does.
#[derive(Clone, Copy)]
pub enum Reader {
    /// No burst is under way.
    Idle,
    /// Offers a part on LAR.
    Send(Task<ReadAnswer>, Parts),
    /// Waits for the answer to the part.
    Await(Task<ReadAnswer>, Parts),
    /// Waits for a slot for the beat.
    Close(Task<ReadAnswer>),
}

impl Task<ReadAnswer> {
    // The plan stays a parameter: parts lie in the engines' states, each of which would hold a copy of it.
    /// On with these parts of a beat, or to the beat's answer where there are none.
    fn with_read_parts(self, plan: Plan, parts: Option<Parts>) -> Reader
        ensures { reader_view plan result ≡ with_parts (pieces plan) (joining plan) (task_burst self) self.walk.count (task_sum self) (map (place self.walk.burst) (cursor_places plan parts)) }
    {
        match parts {
            Some(parts) => Reader::Send(self, parts),
            None => Reader::Close(self),
        }
    }

    /// The next beat is cut into its parts.
    pub fn start_beat(self, plan: Plan) -> Reader
        ensures { reader_view plan result ≡ start_beat (pieces plan) (joining plan) (task_burst self) (self.walk.count - 1) }
    {
        let (at, rest) = self.walk.next();
        let parts = self.taken().cut(plan, at);
        let task = Task {
            walk: rest,
            sum: Collector::new(),
            ..self
        };
        task.with_read_parts(plan, parts)
    }

    /// A beat is done: on with the next one, if there is one.
    #[tactic(auto, using(crate::proofs::NextBeats::goes_on))]
    pub fn next_read_beat(self, plan: Plan) -> Reader
        ensures { reader_view plan result ≡ next_beat (pieces plan) (joining plan) (task_burst self) self.walk.count }
    {
        if self.walk.is_empty() {
            Reader::Idle
        } else {
            self.start_beat(plan)
        }
    }

    /// The block's answer to a part is joined, and the next part follows.
    pub fn answer_part(self, plan: Plan, parts: Parts, lr: LowerRead) -> Reader
        ensures { reader_view plan result ≡ with_parts (pieces plan) (joining plan) (task_burst self) self.walk.count (join_reads (task_sum self) (part_answer plan parts.at lr)) (map (place self.walk.burst) (further plan parts.at parts.more)) }
    {
        self.join(ReadAnswer::of_part(plan, parts.at, lr))
            .with_read_parts(plan, parts_after(plan, parts))
    }

    /// The beat that R is to carry: SLVERR where the burst was refused, LAST on its last beat only.
    pub fn read_beat(self) -> ReadBeat
        ensures { result ≡ read_beat_of (task_burst self) (task_sum self) (is_last self.walk.count) }
    {
        let sum = self.sum.sum();
        ReadBeat {
            id: self.walk.burst.id,
            rdata: sum.rdata,
            code: self.response(sum.code),
            last: self.walk.is_empty(),
        }
    }
}

/// What the read engine drives: a part on LAR under its VALID, and LRREADY.
#[derive(Clone, Copy, Default)]
pub struct ReaderWires {
    pub lar: Option<Place>,
    pub lrready: bool,
}

impl Reader {
    /// A burst is taken, and its first beat is cut into its parts.
    #[tactic(auto, using(crate::proofs::NextBeats::begins))]
    pub fn begin(plan: Plan, taken: Taken) -> Reader
        ensures { reader_view plan result ≡ start_beat (pieces plan) (joining plan) taken taken.burst.len }
    {
        let task: Task<ReadAnswer> = Task::new(taken);
        task.start_beat(plan)
    }

    /// The wires of the engine: a part until it has crossed, then LRREADY until it is answered.
    pub fn wires(self, plan: Plan) -> ReaderWires
        ensures { result ≡ reader_wires plan self }
    {
        match self {
            Reader::Send(task, parts) => ReaderWires {
                lar: Some(task.place(parts.at)),
                lrready: false,
            },
            Reader::Await(_, _) => ReaderWires {
                lrready: true,
                ..ReaderWires::default()
            },
            Reader::Idle | Reader::Close(_) => ReaderWires::default(),
        }
    }
}
