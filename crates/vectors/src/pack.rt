//! Packs: scripts, each with the transcript that is stored for it.
ghost use Rattle.std.specs.Prelude.{◌+◌, ◌<◌, length, IfSome};
ghost use Rattle.std.specs.Iterator.{at_most};

use std::error::Error;
use std::fmt;

/// A script and the transcript that is stored for it.
#[derive(Clone, Copy, Debug, PartialEq, Eq)]
pub struct Case<'a> {
    pub script: &'a [u8],
    pub stored: &'a [u8],
}

/// What follows is no script with its transcript.
#[derive(Clone, Copy, Debug, PartialEq, Eq)]
pub struct Malformed;

impl fmt::Display for Malformed {
    fn fmt<W: fmt::Write>(&self, f: &mut fmt::Formatter<W>) -> fmt::Result {
        f.write_str("what follows them is no script with its transcript")
    }
}

impl Error for Malformed {}

/// The cases of a pack that are still to be read, in its order.
#[derive(Drop)]
pub struct Pack<'a> {
    rest: &'a [u8],
}

impl<'a> Pack<'a> {
    /// All cases of a pack.
    pub fn new(bytes: &'a [u8]) -> Pack<'a> {
        Pack { rest: bytes }
    }
}

impl<'a> Iterator for Pack<'a> {
    type Item = Result<Case<'a>, Malformed>;

    ghost remaining = { λ s. at_most (length s.rest.now) };

    /// The next case. Nothing is read behind what is malformed.
    fn next(&mut self) -> Option<Result<Case<'a>, Malformed>> {
        if self.rest.is_empty() {
            return None;
        }
        match first_case(self.rest) {
            Some((case, rest)) => {
                self.rest = rest;
                Some(Ok(case))
            }
            None => {
                self.rest = &[];
                Some(Err(Malformed))
            }
        }
    }
}

/// The first case, and the bytes behind it.
fn first_case(bytes: &[u8]) -> Option<(Case<'_>, &[u8])>
    ensures { IfSome result (λ p. length p.0.script.now + length p.0.stored.now + length p.1.now < length bytes.now) }
{
    let (script, rest) = piece(bytes, b"script ")?;
    let (stored, rest) = piece(rest, b"out ")?;
    Some((Case { script, stored }, rest))
}

/// The first piece, whose head is its name and its length, and the bytes behind it.
fn piece<'a>(bytes: &'a [u8], name: &[u8]) -> Option<(&'a [u8], &'a [u8])>
    ensures { IfSome result (λ p. length p.0.now + length p.1.now < length bytes.now) }
{
    let head = bytes.strip_prefix(name)?;
    let (len, body) = number(head)?;
    body.split_at_checked(len)
}

/// The decimal number that the first line is, and the bytes behind that line.
fn number(bytes: &[u8]) -> Option<(usize, &[u8])>
    ensures { IfSome result (λ p. length p.1.now < length bytes.now) }
{
    let end = bytes.iter().position(|byte| *byte == b'\n')?;
    if end == 0 {
        return None;
    }
    let value = bytes[..end].iter().try_fold(0, append)?;
    Some((value, &bytes[end + 1..]))
}

/// A number with one more digit, where it can be a length.
fn append(value: usize, byte: &u8) -> Option<usize> {
    match byte {
        b'0'..=b'9' => value
            .checked_mul(10)?
            .checked_add(usize::from(*byte - b'0')),
        _ => None,
    }
}
