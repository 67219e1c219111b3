//! Why a list is refused, and how the user is told.
ghost use Rattle.listing.specs.declared.refusal.ListFault.TheVariants.{Line, NoMemory};
ghost use Rattle.listing.specs.declared.refusal.Refusal.TheVariants.{Words};
ghost use Rattle.std.specs.Prelude.{◌≡◌};

use axi::plan::PlanRefusal;
use axi::wires;
use std::alloc::{AllocError, AllocFailed};
use std::fmt;
use words::fault::{Fault, Wrong};

/// Why a line is refused.
#[derive(Clone, Copy, Debug, PartialEq, Eq)]
pub enum Refusal {
    /// Not the due word or separator, a number that is too large, or the end of the list.
    Words(Fault),
    /// There is no plan with the settings of this line.
    Plan(PlanRefusal, usize),
    /// A field of the burst on this line has a value that its wires cannot carry.
    Field(usize),
}

/// Why a list is refused.
#[derive(Clone, Copy, Debug, PartialEq, Eq)]
pub enum ListFault {
    /// A line is refused.
    Line(Refusal),
    /// There is no memory for the lines.
    NoMemory,
}

impl From<Fault> for Refusal {
    ghost from_gives = { λ f r. r ≡ Words f };

    fn from(fault: Fault) -> Refusal {
        Refusal::Words(fault)
    }
}

impl From<Refusal> for ListFault {
    ghost from_gives = { λ x r. r ≡ Line x };

    fn from(refusal: Refusal) -> ListFault {
        ListFault::Line(refusal)
    }
}

impl From<AllocError> for ListFault {
    ghost from_gives = { λ _ x. x ≡ NoMemory };

    fn from(_error: AllocError) -> ListFault {
        ListFault::NoMemory
    }
}

impl<T: Drop> From<AllocFailed<T>> for ListFault {
    ghost from_gives = { λ _ x. x ≡ NoMemory };

    fn from(_refused: AllocFailed<T>) -> ListFault {
        ListFault::NoMemory
    }
}

/// What a list expects in place of what is wrong. Only a list expects it, so `Wrong` does not say it. Of what is wrong with whole scripts
/// alone it knows nothing.
fn expected(wrong: Wrong) -> Option<&'static str> {
    match wrong {
        Wrong::NotDue => Some(
            "'bridge U L level', or after that 'ID ADDR LEN SIZE BURST LOCK CACHE PROT', with digits 0-9 a-f and one space between words",
        ),
        Wrong::TooLarge => Some("at most ffff for ID, ffffffff for ADDR, ff for any other"),
        Wrong::EndsEarly => Some("a plan and whole lines, each ended by byte 0a"),
        Wrong::TooLong | Wrong::Trailing => None,
    }
}

impl fmt::Display for Refusal {
    fn fmt<W: fmt::Write>(&self, f: &mut fmt::Formatter<W>) -> fmt::Result {
        match *self {
            Refusal::Words(Fault { wrong, line, place }) => match expected(wrong) {
                Some(expected) => {
                    write!(f, "line {line}, byte {place}: {wrong}; expected {expected}")
                }
                None => write!(f, "line {line}, byte {place}: the input is refused"),
            },
            Refusal::Plan(refusal, line) => {
                let number = u8::from(refusal);
                write!(f, "line {line}: refusal {number}, {refusal}")
            }
            Refusal::Field(line) => {
                let refusal = wires::Refusal::WriteBurst;
                let number = u8::from(refusal);
                write!(f, "line {line}: refusal {number}, {refusal}")
            }
        }
    }
}

impl fmt::Display for ListFault {
    fn fmt<W: fmt::Write>(&self, f: &mut fmt::Formatter<W>) -> fmt::Result {
        match *self {
            ListFault::Line(refusal) => write!(f, "{refusal}"),
            ListFault::NoMemory => write!(f, "out of memory"),
        }
    }
}
