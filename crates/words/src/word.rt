//! Words of a script, in the bytes that are lent.
ghost use Rattle.std.specs.Prelude.{◌≡◌, if◌then◌else◌, Some, None};
ghost use Rattle.std.specs.Str.{bytes_eq};
ghost use Rattle.words.specs.Words.{piece_of, word_bytes};

use crate::cursor::Cursor;

/// The bytes of a word, and the cursor at the first of them, which has its line and place.
#[derive(Clone, Copy, Debug, PartialEq, Eq)]
pub struct Piece<'a> {
    pub bytes: &'a [u8],
    pub at: Cursor<'a>,
}

/// A word: a number if each of its bytes is a digit.
#[derive(Clone, Copy, Debug, PartialEq, Eq)]
pub enum Word<'a> {
    Keyword(Piece<'a>),
    Number(Piece<'a>),
}

impl<'a> Word<'a> {
    /// The piece of the script that has the word.
    pub(crate) fn piece(self) -> Piece<'a>
        ensures { result ≡ piece_of self.entry }
    {
        match self {
            Word::Keyword(piece) | Word::Number(piece) => piece,
        }
    }

    /// The piece of the word, if it has these bytes.
    pub(crate) fn spelled(self, due: &[u8]) -> Option<Piece<'a>>
        ensures { result ≡ (if bytes_eq (word_bytes self.entry) due.now then Some (piece_of self.entry) else None) }
    {
        let piece = self.piece();
        (piece.bytes == due).then_some(piece)
    }
}
