//! Why the program ends with status 1.
use std::fmt;

/// Why the program fails, but for input and output.
#[derive(Clone, Copy, Debug, PartialEq, Eq)]
pub enum Stop {
    /// The transcript ends in a fault, which is printed already.
    Fault,
    /// Memory does not suffice.
    Memory,
}

impl fmt::Display for Stop {
    fn fmt<W: fmt::Write>(&self, f: &mut fmt::Formatter<W>) -> fmt::Result {
        f.write_str(match self {
            Stop::Fault => "the script is not played to its end",
            Stop::Memory => "out of memory",
        })
    }
}
