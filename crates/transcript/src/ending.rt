//! The last line of a transcript.
ghost use Rattle.transcript.specs.Endings.{ending_line};
ghost use Rattle.transcript.specs.Printing.{Writes, numeral};
ghost use Rattle.transcript.specs.Printing.Base.{Hex};
ghost use Rattle.std.specs.Prelude.{Some};

use crate::fault::PlayerFault;
use bridge::bridge::Owed;
use std::alloc::AllocError;
use std::fmt;
use std::io::Write;

/// How the playing ends: every gate was played and so much is owed, or a fault ended it.
pub type Ending = Result<Owed, PlayerFault>;

/// One more than the numbers of 64 bits.
const HALF: u128 = 0x1_0000_0000_0000_0000;

/// A count in hexadecimal. The library's `{:x}` states its text up to 64 bits only.
#[derive(Clone, Copy)]
struct Count(u128);

impl fmt::Display for Count {
    ghost output = { λ c. Some (numeral Hex c.0) };

    fn fmt<W: fmt::Write>(&self, f: &mut fmt::Formatter<W>) -> fmt::Result {
        let count = self.0;
        let high = (count / HALF) as u64;
        let low = (count % HALF) as u64;
        if high == 0 {
            write!(f, "{low:x}")
        } else {
            write!(f, "{high:x}{low:016x}")
        }
    }
}

/// The last line.
pub fn print_ending(out: &mut Vec<u8>, ending: Ending) -> Result<(), AllocError>
    ensures { Writes result out.old.items out.new.items (ending_line ending) }
{
    let printed = match ending {
        Ok(owed) => writeln!(out, "owed {} {}", Count(owed.writes), Count(owed.reads)),
        Err(fault) => writeln!(out, "{fault}"),
    };
    // A vector refuses bytes only for want of memory.
    printed.map_err(|_| AllocError)
}
