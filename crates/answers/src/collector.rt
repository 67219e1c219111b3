//! One text that collects every kind of answer.
ghost use Rattle.answers.specs.Join.{total};
ghost use Rattle.answers.specs.FirstError.{first_error};
ghost use Rattle.std.specs.Prelude.{◌≡◌, List, [], ◌∷◌, ◌++◌};

use crate::answer::Answer;
use axi::code::Code;

/// The join of all answers added so far: those of a beat's parts, or those of a burst's parts.
#[derive(Clone, Copy)]
pub struct Collector<R> {
    sum: R,
}

impl<R: Answer + Copy> Collector<R> {
    /// Nothing collected.
    pub fn new() -> Self
        ensures none { result.sum ≡ R.Answer.none }
        ensures total { result.sum ≡ Rattle.answers.specs.Join.total R.Answer.none R.Answer.joined [] }
    {
        Collector { sum: R::neutral() }
    }

    /// One more answer, joined behind those before it.
    pub fn add(self, a: R) -> Self
        ensures joined { result.sum ≡ R.Answer.joined self.sum a }
        ensures total { (so_far : List R) → self.sum ≡ Rattle.answers.specs.Join.total R.Answer.none R.Answer.joined so_far → result.sum ≡ Rattle.answers.specs.Join.total R.Answer.none R.Answer.joined (so_far ++ (a ∷ [])) }
    {
        Collector {
            sum: self.sum.join(a),
        }
    }

    /// What all answers so far join to.
    pub fn sum(self) -> R
        ensures { result ≡ self.sum }
    {
        self.sum
    }
}

/// What responses join to in order: the first error among them, or OKAY.
pub fn join_all(codes: &[Code]) -> Code
    ensures { result ≡ first_error codes.now }
{
    codes
        .iter()
        .fold(Collector::new(), |all, code| all.add(*code))
        .sum()
}
