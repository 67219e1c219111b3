//! A burst as the tables hold it.
ghost use Rattle.engines.specs.Cursors.{cursor_places};
ghost use Rattle.parts.specs.Parts.{further};
ghost use Rattle.engines.specs.Protocol.{judged, cut_at};
ghost use Rattle.std.specs.Prelude.{◌≡◌};

use axi::burst::Burst;
use axi::code::Code;
use axi::plan::Plan;
use axi::verdict::Verdict;
use axi::wires::{Beat, Place, ReadBeat, WriteAnswer};
use parts::cut::Parts;

/// A burst that was taken above, with the verdict that it was given on that edge.
#[derive(Clone, Copy)]
pub struct Taken {
    pub burst: Burst,
    pub verdict: Verdict,
}

// Constants cannot call `default`, so these stand written out.
/// What a bench can fill the slots of a burst table with.
pub const NO_BURST: Taken = Taken {
    burst: Burst {
        id: 0,
        addr: 0,
        len: 0,
        size: 0,
        burst: 0,
        lock: 0,
        cache: 0,
        prot: 0,
    },
    verdict: Verdict::Forwarded,
};

/// The payload of LAW and LAR under a low VALID.
pub const NO_PLACE: Place = Place { addr: 0, prot: 0 };

/// The payload of LW under a low VALID.
pub const NO_BEAT: Beat = Beat { wdata: 0, wstrb: 0 };

/// The payload of B under a low VALID.
pub const NO_ANSWER: WriteAnswer = WriteAnswer {
    id: 0,
    code: Code::Okay,
};

/// The payload of R under a low VALID.
pub const NO_READ_BEAT: ReadBeat = ReadBeat {
    id: 0,
    rdata: 0,
    code: Code::Okay,
    last: false,
};

impl Taken {
    /// The burst with the verdict that the plan gives it.
    pub fn new(plan: Plan, burst: Burst) -> Taken
        ensures { result ≡ judged plan burst }
    {
        Taken {
            burst,
            verdict: plan.judge(burst),
        }
    }

    // The plan stays a parameter: parts lie in the engines' states, each of which would hold a copy of it.
    /// The parts of a beat at this address. A beat of a refused burst has none.
    pub fn cut(self, plan: Plan, at: u32) -> Option<Parts>
        ensures { cursor_places plan result ≡ cut_at plan self at }
    {
        self.verdict
            .is_forwarded()
            .then(|| Parts::of(plan, self.burst, at))
    }
}

/// The parts of a beat after the one at hand.
#[tactic(auto, using(crate::proofs::NextParts::moved_on))]
pub fn parts_after(plan: Plan, parts: Parts) -> Option<Parts>
    ensures { cursor_places plan result ≡ further plan parts.at parts.more }
{
    parts.next(plan)
}
