//! What all answers have in common, and the response alone as an answer.
ghost use Rattle.answers.specs.Join.{join_codes};
ghost use Rattle.axi.specs.declared.code.Code.TheVariants.{Okay};
ghost use Rattle.std.specs.Prelude.{◌≡◌};
ghost use Rattle.std.proofs.Common.{rules};

use axi::code::Code;

/// An answer with a neutral one and a joining. Joining is associative, and the neutral answer on either side alters nothing.
pub trait Answer: Sized {
    ghost none: { Self };

    ghost joined: { Self → Self → Self };

    /// The answer that alters nothing.
    fn neutral() -> Self
        ensures { result ≡ none };

    /// This answer, then the other.
    fn join(self, other: Self) -> Self
        ensures { result ≡ joined self other };

    ghost left: { (x : Self) → joined none x ≡ x };

    ghost right: { (x : Self) → joined x none ≡ x };

    ghost assoc: { (x y z : Self) → joined (joined x y) z ≡ joined x (joined y z) };
}

/// A write answer is a response: the first unless it is OKAY, then the second.
impl Answer for Code {
    ghost none = { Okay };

    ghost joined = { join_codes };

    ghost left = { Prim.search rules };

    ghost right = { Prim.search rules };

    ghost assoc = { Prim.search rules };

    fn neutral() -> Code {
        Code::Okay
    }

    fn join(self, other: Code) -> Code {
        match self {
            Code::Okay => other,
            Code::SlvErr | Code::DecErr => self,
        }
    }
}
