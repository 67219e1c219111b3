//! Why a script is refused, at which line and place.
ghost use Rattle.words.specs.Faults.{wrong_number, wrong_text, layer_of};
ghost use Rattle.std.specs.Prelude.{◌≡◌, Some};

use std::fmt;

/// The part of the reading that refuses.
#[derive(Clone, Copy, Debug, PartialEq, Eq)]
pub enum Layer {
    Words,
    Sections,
}

/// What is wrong with a script.
#[derive(Clone, Copy, Debug, PartialEq, Eq)]
pub enum Wrong {
    /// The script is above 16,384 bytes.
    TooLong = 20,
    /// Not the due word or separator.
    NotDue = 21,
    /// A number of over 16 digits or above its carrier.
    TooLarge = 22,
    /// The script ends too early.
    EndsEarly = 23,
    /// Bytes stand after the last section.
    Trailing = 24,
}

impl From<Wrong> for u8 {
    ghost from_gives = { λ w r. r ≡ wrong_number w };

    /// The number of the fault.
    fn from(wrong: Wrong) -> u8 {
        wrong as u8
    }
}

impl fmt::Display for Wrong {
    ghost output = { λ w. Some (wrong_text w) };

    fn fmt<W: fmt::Write>(&self, f: &mut fmt::Formatter<W>) -> fmt::Result {
        f.write_str(match self {
            Wrong::TooLong => "the input is above 16,384 bytes",
            Wrong::NotDue => "not the due word or separator",
            Wrong::TooLarge => "the number is too large",
            Wrong::EndsEarly => "the input ends too early",
            Wrong::Trailing => "bytes stand after the last section",
        })
    }
}

impl Wrong {
    /// The layer of the fault.
    pub fn layer(self) -> Layer
        ensures { result ≡ layer_of self }
    {
        match self {
            Wrong::TooLong | Wrong::NotDue | Wrong::TooLarge => Layer::Words,
            Wrong::EndsEarly | Wrong::Trailing => Layer::Sections,
        }
    }
}

/// A refused script: what is wrong, the line from 1, and the place from 0.
#[derive(Clone, Copy, Debug, PartialEq, Eq)]
pub struct Fault {
    pub wrong: Wrong,
    pub line: usize,
    pub place: usize,
}
