//! A burst under way, on either side.
ghost use Rattle.parts.specs.Addresses.{left};
ghost use Rattle.axi.specs.Bursts.{beats};
ghost use Rattle.axi.specs.declared.code.Code.TheVariants.{SlvErr};
ghost use Rattle.engines.specs.Protocol.{place, if_forwarded};
ghost use Rattle.engines.specs.Tasks.{task_burst, task_sum};
ghost use Rattle.std.specs.Prelude.{◌≡◌};

use crate::taken::Taken;
use answers::answer::Answer;
use answers::collector::Collector;
use axi::code::Code;
use axi::verdict::Verdict;
use axi::wires::Place;
use parts::walk::Walk;

/// A burst under way: its beats to come, its verdict, and what was collected of the block's answers.
#[derive(Clone, Copy)]
pub struct Task<R> {
    pub walk: Walk,
    pub verdict: Verdict,
    pub sum: Collector<R>,
}

impl<R: Answer + Copy> Task<R> {
    /// The burst is begun.
    pub fn new(taken: Taken) -> Task<R>
        ensures burst { task_burst result ≡ taken }
        ensures beats { result.walk.count ≡ Rattle.axi.specs.Bursts.beats taken.burst }
        ensures sum { task_sum result ≡ R.Answer.none }
    {
        Task {
            walk: Walk::new(taken.burst),
            verdict: taken.verdict,
            sum: Collector::new(),
        }
    }

    /// The burst as it was taken.
    pub fn taken(self) -> Taken
        ensures { result ≡ task_burst self }
    {
        Taken {
            burst: self.walk.burst,
            verdict: self.verdict,
        }
    }

    /// The same burst with these beats to come.
    pub fn at(self, walk: Walk) -> Task<R>
        ensures walk { result.walk ≡ walk }
        ensures verdict { result.verdict ≡ self.verdict }
        ensures sum { task_sum result ≡ task_sum self }
    {
        Task { walk, ..self }
    }

    /// The same burst with one more answer, joined behind those before it.
    pub fn join(self, answer: R) -> Task<R>
        ensures walk { result.walk ≡ self.walk }
        ensures verdict { result.verdict ≡ self.verdict }
        ensures sum { task_sum result ≡ R.Answer.joined (task_sum self) answer }
    {
        Task {
            sum: self.sum.add(answer),
            ..self
        }
    }

    /// The response of the burst: SLVERR where it was refused, else what its answers join to.
    pub fn response(self, joined: Code) -> Code
        ensures { result ≡ if_forwarded (task_burst self) joined SlvErr }
    {
        if self.verdict.is_forwarded() {
            joined
        } else {
            Code::SlvErr
        }
    }

    /// What LAW or LAR carries for a part at this address.
    pub fn place(self, at: u32) -> Place
        ensures { result ≡ Rattle.engines.specs.Protocol.place self.walk.burst at }
    {
        Place {
            addr: at,
            prot: self.walk.burst.prot,
        }
    }
}
