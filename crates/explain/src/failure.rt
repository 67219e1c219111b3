//! Why the program ends with status 1.
use crate::fault::Fault;
use command::failure::Failure;
use std::fmt;

/// Why the program fails, but for input and output.
#[derive(Clone, Copy, Debug, PartialEq, Eq)]
pub enum Refusal {
    /// There are too many arguments.
    Usage,
    /// The input is refused.
    Input(Fault),
}

impl From<Fault> for Failure<Refusal> {
    fn from(fault: Fault) -> Failure<Refusal> {
        Failure::Own(Refusal::Input(fault))
    }
}

impl fmt::Display for Refusal {
    fn fmt<W: fmt::Write>(&self, f: &mut fmt::Formatter<W>) -> fmt::Result {
        match self {
            Refusal::Usage => write!(
                f,
                "too many arguments; expected at most the name of a file, or --help"
            ),
            Refusal::Input(fault) => write!(f, "{fault}"),
        }
    }
}
