//! Words and numbers of a line, written straight into a vector.
ghost use Rattle.std.specs.Prelude.{◌≡◌, ◌<◌, [], ◌∷◌, ◌++◌};
ghost use Rattle.transcript.specs.Printing.{Writes, digit_byte, digits_of, numeral, row};
ghost use Rattle.transcript.specs.Printing.Base.{Hex};

use std::alloc::AllocError;

/// The byte of a digit.
fn digit(d: u8) -> u8
    requires { d < 16 }
    ensures { result ≡ digit_byte d }
{
    if d < 10 { d + b'0' } else { d - 10 + b'a' }
}

/// The digits of a number; none of 0.
fn digits(out: &mut Vec<u8>, v: u64) -> Result<(), AllocError>
    ensures { Writes result out.old.items out.new.items (digits_of Hex v) }
{
    if v == 0 {
        return Ok(());
    }
    digits(out, v / 16)?;
    out.push(digit((v % 16) as u8))?;
    Ok(())
}

/// A number in hexadecimal without leading zeros; 0 is one digit.
pub fn number(out: &mut Vec<u8>, v: u64) -> Result<(), AllocError>
    ensures { Writes result out.old.items out.new.items (numeral Hex v) }
{
    if v == 0 {
        out.push(b'0')?;
        return Ok(());
    }
    digits(out, v)
}

/// The numbers that end a line: a space between two, a line end after the last.
pub fn numbers(out: &mut Vec<u8>, vs: &[u64]) -> Result<(), AllocError>
    ensures { Writes result out.old.items out.new.items (row Hex vs.now) }
{
    // Counted, since the place in the row says what follows.
    for (i, v) in vs.iter().enumerate() {
        number(out, *v)?;
        out.push(if i + 1 < vs.len() { b' ' } else { b'\n' })?;
    }
    Ok(())
}

/// A word and the space after it.
pub fn word(out: &mut Vec<u8>, text: &str) -> Result<(), AllocError>
    ensures { Writes result out.old.items out.new.items (text.now ++ (32 ∷ [])) }
{
    out.extend_from_slice(text.as_bytes())?;
    out.push(b' ')?;
    Ok(())
}
