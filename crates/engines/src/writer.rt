//! The write engine: one part under way at a time.
ghost use Rattle.std.specs.Prelude.{◌≡◌, ℕ, ◌-◌, [], ◌∷◌, map};
ghost use Rattle.engines.specs.Protocol.{pieces, joining, write_part, answer_of};
ghost use Rattle.engines.specs.Cursors.{cursor_places};
ghost use Rattle.engines.specs.Writes.{law_crossed, lw_crossed, writer_view, writer_wires, part_at, parts_after};
ghost use Rattle.engines.specs.Tasks.{task_burst, task_sum};
ghost use Rattle.ledgers.specs.Writer.{next_beat, with_parts, sent, take_beat};
ghost use Rattle.axi.specs.Codes.{read_code};
ghost use Rattle.answers.specs.Join.{join_codes};

use crate::taken::parts_after;
use crate::task::Task;
use answers::answer::Answer;
use axi::code::Code;
use axi::plan::Plan;
use axi::wires::{Beat, Place, WriteAnswer};
use parts::cut::Parts;
use parts::lanes::write_part;

/// The part at hand of a data beat.
#[derive(Clone, Copy)]
pub struct Part {
    pub beat: Beat,
    pub parts: Parts,
}

// Two flags where LAW and LW are spoken of apart, one value where the engine keeps them.
/// On which channels a part has still to cross. One that has crossed on both waits for its response.
#[derive(Clone, Copy)]
pub enum Uncrossed {
    /// On LAW and on LW.
    Both,
    /// On LAW alone.
    Law,
    /// On LW alone.
    Lw,
}

impl Uncrossed {
    /// Whether the part has crossed on LAW, and whether it has on LW.
    pub fn crossed(self) -> (bool, bool)
        ensures law { result.0 ≡ law_crossed self }
        ensures lw { result.1 ≡ lw_crossed self }
    {
        match self {
            Uncrossed::Both => (false, false),
            Uncrossed::Law => (false, true),
            Uncrossed::Lw => (true, false),
        }
    }
}

// The plan is the bridge's own and lent for each call: held in each state, it would be copied with it.
/// What the write engine does.
#[derive(Clone, Copy)]
pub enum Writer {
    /// No burst is under way.
    Idle,
    /// Waits for the next data beat.
    Fetch(Task<Code>),
    /// Offers a part on the channels that it has still to cross on.
    Send(Task<Code>, Part, Uncrossed),
    /// Waits for the response to the part.
    Await(Task<Code>, Part),
    /// Waits for a slot for the answer.
    Close(Task<Code>),
}

impl Task<Code> {
    /// A beat is done: on with the next one, or to the answer.
    fn next_beat(self) -> Writer
        ensures { (p : Plan) → writer_view p result ≡ next_beat (pieces p) (joining p) (task_burst self) self.walk.count (task_sum self) }
    {
        if self.walk.is_empty() {
            Writer::Close(self)
        } else {
            Writer::Fetch(self)
        }
    }

    /// On with these parts of a data beat, or with what follows where there are none.
    fn with_parts(self, plan: Plan, beat: Beat, parts: Option<Parts>) -> Writer
        ensures { writer_view plan result ≡ with_parts (pieces plan) (joining plan) (task_burst self) self.walk.count (task_sum self) (map (write_part plan self.walk.burst beat) (cursor_places plan parts)) }
    {
        match parts {
            Some(parts) => Writer::Send(self, Part { beat, parts }, Uncrossed::Both),
            None => self.next_beat(),
        }
    }

    /// A data beat is taken and cut into its parts.
    pub fn take(self, plan: Plan, beat: Beat) -> Writer
        ensures { writer_view plan result ≡ take_beat (pieces plan) (joining plan) (task_burst self) (self.walk.count - 1) (task_sum self) (beat ∷ []) }
    {
        let (at, rest) = self.walk.next();
        let parts = self.taken().cut(plan, at);
        self.at(rest).with_parts(plan, beat, parts)
    }

    /// The block's response to a part is joined, and the next part follows.
    pub fn answer(self, plan: Plan, part: Part, lbresp: u8) -> Writer
        ensures { writer_view plan result ≡ with_parts (pieces plan) (joining plan) (task_burst self) self.walk.count (join_codes (task_sum self) (read_code lbresp)) (parts_after plan self part) }
    {
        self.join(Code::from(lbresp))
            .with_parts(plan, part.beat, parts_after(plan, part.parts))
    }

    // Two flags: each is joined with a READY of its own, and `Uncrossed` has no value for both.
    /// On which channels a part has crossed: it is offered on the others, or it waits for its response.
    pub fn send(self, part: Part, law: bool, lw: bool) -> Writer
        ensures { (p : Plan) → writer_view p result ≡ sent (pieces p) (joining p) (task_burst self) self.walk.count (task_sum self) (part_at p self part) (parts_after p self part) law lw }
    {
        match (law, lw) {
            (false, false) => Writer::Send(self, part, Uncrossed::Both),
            (false, true) => Writer::Send(self, part, Uncrossed::Law),
            (true, false) => Writer::Send(self, part, Uncrossed::Lw),
            (true, true) => Writer::Await(self, part),
        }
    }

    /// The answer to the burst: SLVERR where it was refused, else what its responses join to.
    pub fn write_answer(self) -> WriteAnswer
        ensures { result ≡ answer_of (task_burst self) (task_sum self) }
    {
        WriteAnswer {
            id: self.walk.burst.id,
            code: self.response(self.sum.sum()),
        }
    }
}

/// What the write engine drives: a part on LAW and on LW, each under its VALID, and LBREADY.
#[derive(Clone, Copy, Default)]
pub struct WriterWires {
    pub law: Option<Place>,
    pub lw: Option<Beat>,
    pub lbready: bool,
}

impl Writer {
    /// The wires of the engine: a part until it has crossed, and LBREADY once it has crossed on both channels.
    pub fn wires(self, plan: Plan) -> WriterWires
        ensures { result ≡ writer_wires plan self }
    {
        match self {
            Writer::Send(task, part, uncrossed) => {
                let (law, lw) = uncrossed.crossed();
                WriterWires {
                    law: (!law).then(|| task.place(part.parts.at)),
                    lw: (!lw).then(|| write_part(plan, part.parts.at, part.beat)),
                    lbready: false,
                }
            }
            Writer::Await(_, _) => WriterWires {
                lbready: true,
                ..WriterWires::default()
            },
            Writer::Idle | Writer::Fetch(_) | Writer::Close(_) => WriterWires::default(),
        }
    }
}
