//! Why a program fails.
ghost use Rattle.std.specs.Prelude.{◌≡◌};
ghost use Rattle.command.specs.declared.failure.Failure.TheVariants.{Io};

use std::{fmt, io};

/// Why a program fails that reads a file or standard input. `E` has the reasons of its own.
#[derive(Debug, Drop)]
pub enum Failure<E> {
    /// The file of this name cannot be read.
    Unreadable(String, io::Error),
    /// The arguments, standard input or standard output fail.
    Io(io::Error),
    /// A reason of the program's own.
    Own(E),
}

impl<E> From<io::Error> for Failure<E> {
    ghost from_gives = { λ error failure. failure ≡ Io error };

    fn from(error: io::Error) -> Failure<E> {
        Failure::Io(error)
    }
}

impl<E: fmt::Display> fmt::Display for Failure<E> {
    fn fmt<W: fmt::Write>(&self, f: &mut fmt::Formatter<W>) -> fmt::Result {
        match self {
            Failure::Unreadable(path, error) => write!(f, "cannot read {path}: {error}"),
            Failure::Io(error) => write!(f, "cannot read or write: {error}"),
            Failure::Own(reason) => write!(f, "{reason}"),
        }
    }
}
