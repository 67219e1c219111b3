//! What can be wrong with the input, and how the user is told.
use crate::hex::NumberFault;
use axi::plan::PlanRefusal;
use axi::wires::Refusal;
use std::alloc::{AllocError, AllocFailed};
use std::fmt;

/// The two forms that a line may have.
#[derive(Clone, Copy, Debug, PartialEq, Eq)]
pub enum Form {
    /// The plan for the bursts that follow.
    Bridge,
    /// One burst.
    Burst,
}

/// A number of a line, by its name in the line's form.
#[derive(Clone, Copy, Debug, PartialEq, Eq)]
pub enum Field {
    /// The width of the upper bus in bytes.
    Upper,
    /// The width of the lower bus in bytes.
    Lower,
    /// The level of protection.
    Level,
    // The fields of a burst, by the names of their wires.
    Id,
    Addr,
    Len,
    Size,
    Burst,
    Lock,
    Cache,
    Prot,
}

/// A word that is not the number it should be.
#[derive(Clone, Copy, Debug, PartialEq, Eq)]
pub struct BadNumber {
    /// The number that the word stands for.
    pub field: Field,
    /// The most that it may be.
    pub largest: u32,
    /// What is wrong with the word.
    pub fault: NumberFault,
}

/// What is wrong with a line.
#[derive(Clone, Copy, Debug, PartialEq, Eq)]
pub enum Reason {
    /// A burst, or the end of the input, where there is no plan yet.
    NoPlan,
    /// The line is not ended by byte 0a.
    Unended,
    /// The line ends before this number.
    Missing(Field),
    /// The line goes on after its last number.
    Surplus(Form),
    /// A word is not the number it should be.
    Number(BadNumber),
    /// There is no such plan.
    Plan(PlanRefusal),
    /// A field of the burst has a value that its wires cannot carry.
    FieldTooLarge,
}

// As the fault of a list in `listing`, but for the line: there each refusal has its own.
/// Why the input is refused.
#[derive(Clone, Copy, Debug, PartialEq, Eq)]
pub enum Fault {
    /// What is wrong with the line of this number, counted from 1.
    Line(usize, Reason),
    /// There is no memory for the input's lines.
    NoMemory,
}

impl From<AllocError> for Fault {
    fn from(_error: AllocError) -> Fault {
        Fault::NoMemory
    }
}

impl<T: Drop> From<AllocFailed<T>> for Fault {
    fn from(_refused: AllocFailed<T>) -> Fault {
        Fault::NoMemory
    }
}

impl fmt::Display for Form {
    /// The words of a line of this form.
    fn fmt<W: fmt::Write>(&self, f: &mut fmt::Formatter<W>) -> fmt::Result {
        f.write_str(match self {
            Form::Bridge => "bridge U L level",
            Form::Burst => "ID ADDR LEN SIZE BURST LOCK CACHE PROT",
        })
    }
}

impl Field {
    /// The form of the lines that have this number.
    fn form(self) -> Form {
        match self {
            Field::Upper | Field::Lower | Field::Level => Form::Bridge,
            _ => Form::Burst,
        }
    }
}

impl fmt::Display for Field {
    /// Its name in that form.
    fn fmt<W: fmt::Write>(&self, f: &mut fmt::Formatter<W>) -> fmt::Result {
        f.write_str(match self {
            Field::Upper => "U",
            Field::Lower => "L",
            Field::Level => "level",
            Field::Id => "ID",
            Field::Addr => "ADDR",
            Field::Len => "LEN",
            Field::Size => "SIZE",
            Field::Burst => "BURST",
            Field::Lock => "LOCK",
            Field::Cache => "CACHE",
            Field::Prot => "PROT",
        })
    }
}

/// A byte as a message shows it.
#[derive(Clone, Copy)]
struct Quoted(u8);

impl fmt::Display for Quoted {
    fn fmt<W: fmt::Write>(&self, f: &mut fmt::Formatter<W>) -> fmt::Result {
        let byte = self.0;
        if byte.is_ascii_graphic() {
            let c = char::from(byte);
            write!(f, "'{c}'")
        } else {
            write!(f, "byte {byte:02x}")
        }
    }
}

impl fmt::Display for BadNumber {
    fn fmt<W: fmt::Write>(&self, f: &mut fmt::Formatter<W>) -> fmt::Result {
        let field = self.field;
        let largest = self.largest;
        match self.fault {
            NumberFault::Empty => write!(
                f,
                "{field} has no digit; expected words parted by exactly one space"
            ),
            NumberFault::NotADigit(byte) => {
                let byte = Quoted(byte);
                write!(f, "{field} has {byte}; expected hexadecimal digits 0-9 a-f")
            }
            NumberFault::TooLarge => write!(
                f,
                "{field} is too large; expected at most {largest:x}"
            ),
        }
    }
}

impl fmt::Display for Reason {
    fn fmt<W: fmt::Write>(&self, f: &mut fmt::Formatter<W>) -> fmt::Result {
        match *self {
            Reason::NoPlan => {
                let form = Form::Bridge;
                write!(f, "there is no plan yet; expected '{form}'")
            }
            Reason::Unended => write!(f, "the line is not ended; expected byte 0a at its end"),
            Reason::Missing(field) => {
                let form = field.form();
                write!(f, "{field} is missing; expected '{form}'")
            }
            Reason::Surplus(form) => {
                write!(f, "the line goes on after its last word; expected '{form}'")
            }
            Reason::Number(bad) => write!(f, "{bad}"),
            Reason::Plan(refusal) => {
                let number = u8::from(refusal);
                write!(f, "refusal {number}, {refusal}")
            }
            Reason::FieldTooLarge => {
                let refusal = Refusal::WriteBurst;
                let number = u8::from(refusal);
                write!(f, "refusal {number}, {refusal}")
            }
        }
    }
}

impl fmt::Display for Fault {
    fn fmt<W: fmt::Write>(&self, f: &mut fmt::Formatter<W>) -> fmt::Result {
        match *self {
            Fault::Line(number, reason) => write!(f, "line {number}: {reason}"),
            Fault::NoMemory => write!(f, "out of memory"),
        }
    }
}
