//! The next word, number, keyword or separator.
ghost use Rattle.std.specs.Prelude.{◌≡◌, ◌+◌, ◌<◌, ◌≤◌, true, false, length, if◌then◌else◌, Ok, Err, IfOk};
ghost use Rattle.std.specs.List.{prefix_len};
ghost use Rattle.words.specs.Cursors.{text};
ghost use Rattle.words.specs.Faults.{fault_at};
ghost use Rattle.words.specs.Numbers.{is_number, value_of};
ghost use Rattle.words.specs.Reading.{Told, Reads, ReadsAs};
ghost use Rattle.words.specs.Words.{held_by, of_word, word_length, word_at, word, word_bytes, keyword, number, separator, end, Passed};
ghost use Rattle.words.specs.declared.fault.Wrong.TheVariants.{TooLarge};

use crate::carrier::Carrier;
use crate::cursor::Cursor;
use crate::fault::{Fault, Wrong};
use crate::hex::{all_digits, value};
use crate::word::{Piece, Word};

/// Whether a byte belongs to a word.
fn of_word(b: u8) -> bool
    ensures { result ≡ of_word b }
{
    b != b' ' && b != b'\n'
}

/// How many bytes a word has that begins here.
fn word_length(rest: &[u8]) -> usize
    ensures count { result ≡ prefix_len of_word rest.now }
    ensures within { result ≤ length rest.now }
{
    rest.iter().take_while(|b| of_word(**b)).count()
}

/// The number that the digits of a word write, if this carrier holds it.
fn held(piece: Piece, carrier: Carrier) -> Result<u64, Fault>
    requires { is_number piece.bytes.now ≡ true }
    ensures { result ≡ (if held_by carrier piece.entry.bytes.now then Ok (value_of piece.entry.bytes.now) else Err (fault_at (text piece.entry.at) TooLarge piece.entry.at.at)) }
{
    match value(piece.bytes) {
        Some(number) if number <= carrier.top() => Ok(number),
        _ => Err(piece.at.fault(Wrong::TooLarge)),
    }
}

impl<'a> Cursor<'a> {
    /// The bytes of the word that begins at the cursor.
    fn bytes(self) -> &'a [u8]
        requires { self.at ≤ length (text self) }
        ensures word { result.now ≡ word_at (text self.entry) self.entry.at }
        ensures count { length result.now ≡ word_length (text self.entry) self.entry.at }
        ensures within { self.entry.at + length result.now ≤ length (text self.entry) }
    {
        let rest = &self.script[self.at..];
        &rest[0..word_length(rest)]
    }

    /// The next word, which the cursor passes.
    pub fn word(&mut self) -> Result<Word<'a>, Fault>
        ensures reads { ReadsAs word_bytes word self.old self.new result }
        ensures passed { IfOk result (λ w. Passed self.old self.new.at w) }
    {
        let at = *self;
        if at.at_end() {
            return Err(at.ended());
        }
        let bytes = at.bytes();
        if bytes.is_empty() {
            return Err(at.fault(Wrong::NotDue));
        }
        self.at += bytes.len();
        let piece = Piece { bytes, at };
        if all_digits(bytes) {
            Ok(Word::Number(piece))
        } else {
            Ok(Word::Keyword(piece))
        }
    }

    /// The next word, which has to be this keyword.
    pub fn keyword(&mut self, due: &[u8]) -> Result<(), Fault>
        ensures { Reads (keyword due.now) self.old self.new result }
    {
        let start = *self;
        let Some(_) = self.word()?.spelled(due) else {
            return Err(start.fault(Wrong::NotDue));
        };
        Ok(())
    }

    /// The next word, which has to be a number of this carrier.
    pub fn number(&mut self, carrier: Carrier) -> Result<u64, Fault>
        ensures { Reads (number carrier) self.old self.new result }
    {
        let start = *self;
        let Word::Number(piece) = self.word()? else {
            return Err(start.fault(Wrong::NotDue));
        };
        held(piece, carrier)
    }

    /// The next byte, which has to be this separator.
    pub fn separator(&mut self, due: u8) -> Result<(), Fault>
        ensures { Reads (separator due) self.old self.new result }
    {
        let Some(b) = self.script.get(self.at) else {
            return Err(self.ended());
        };
        if *b != due {
            return Err(self.fault(Wrong::NotDue));
        }
        self.at += 1;
        Ok(())
    }

    /// The end of the script, which has to be here.
    pub fn end(self) -> Result<(), Fault>
        ensures { Told (end (text self.entry) self.entry.at) self.entry.at result }
    {
        if !self.at_end() {
            return Err(self.fault(Wrong::Trailing));
        }
        Ok(())
    }
}
