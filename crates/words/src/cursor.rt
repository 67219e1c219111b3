//! A place in a lent script.
mod lines;
mod words;

ghost use Rattle.std.specs.Prelude.{◌≡◌, ◌^◌, ◌<◌, length, take, nat_le};
ghost use Rattle.words.specs.Faults.{line_ends, line_at, fault_at};
ghost use Rattle.words.specs.Cursors.{text};
ghost use Rattle.words.specs.declared.fault.Wrong.TheVariants.{EndsEarly};

use crate::fault::{Fault, Wrong};

/// A place in a script that is lent. Nothing is copied.
#[derive(Clone, Copy, Debug, PartialEq, Eq)]
pub struct Cursor<'a> {
    script: &'a [u8],
    at: usize,
}

/// How many line ends there are.
fn line_ends(bytes: &[u8]) -> usize
    ensures count { result ≡ line_ends bytes.now }
    ensures small { result < 2 ^ 63 }
{
    // A loop: by `filter` and `count` each byte took twice the instructions.
    let mut n = 0;
    for b in bytes {
        if *b == b'\n' {
            n += 1;
        }
    }
    n
}

impl<'a> Cursor<'a> {
    /// At the first byte of a script.
    pub fn new(script: &'a [u8]) -> Self
        ensures start { result.at ≡ 0 }
        ensures whole { text result ≡ script.now }
    {
        Cursor { script, at: 0 }
    }

    /// The bytes of the script before the cursor.
    pub fn place(self) -> usize
        ensures { result ≡ self.entry.at }
    {
        self.at
    }

    /// The line of the cursor, from 1.
    pub fn line(self) -> usize
        ensures { result ≡ line_at (text self.entry) self.entry.at }
    {
        1 + line_ends(self.before())
    }

    /// Whether no byte is left.
    pub fn at_end(self) -> bool
        ensures { result ≡ nat_le (length (text self.entry)) self.entry.at }
    {
        self.at >= self.script.len()
    }

    /// A fault at the cursor.
    pub fn fault(self, wrong: Wrong) -> Fault
        ensures { result ≡ fault_at (text self.entry) wrong self.entry.at }
    {
        Fault {
            wrong,
            line: self.line(),
            place: self.at,
        }
    }

    /// The script before the cursor.
    fn before(self) -> &'a [u8]
        ensures { result.now ≡ take self.entry.at (text self.entry) }
    {
        self.script.get(..self.at).unwrap_or(self.script)
    }

    /// The fault of a script that ends too early.
    fn ended(self) -> Fault
        ensures { result ≡ fault_at (text self.entry) EndsEarly (length (text self.entry)) }
    {
        let end = Cursor {
            at: self.script.len(),
            ..self
        };
        end.fault(Wrong::EndsEarly)
    }
}
