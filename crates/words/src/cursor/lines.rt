//! Lines of numbers.
ghost use Rattle.std.specs.Prelude.{◌≡◌, ◌+◌, ◌<◌, ◌≤◌, IfOk, if◌then◌else◌, nat_lt};
ghost use Rattle.words.specs.Lines.{numbers, headed, Fit};
ghost use Rattle.words.specs.Reading.{Reads};

use crate::carrier::Carrier;
use crate::cursor::Cursor;
use crate::fault::Fault;

/// The separator after the number at a place of a line: a space, or a line end after the last.
fn separator_after(i: usize, count: usize) -> u8
    requires { i < count }
    ensures { result ≡ (if nat_lt (i + 1) count then 32 else 10) }
{
    if i + 1 < count { b' ' } else { b'\n' }
}

impl<'a> Cursor<'a> {
    /// The numbers of a line, one for each carrier: a space between two, a line end after the last.
    pub fn numbers<const N: usize>(&mut self, carriers: &[Carrier; N]) -> Result<[u64; N], Fault>
        ensures reads { Reads (numbers carriers.now) self.old self.new result }
        ensures fit { IfOk result (λ vs. Fit carriers.now vs) }
    {
        // Counted, since the place in the line also says which separator is due.
        let mut values = [0; N];
        for (i, carrier) in carriers.iter().enumerate() {
            values[i] = self.number(*carrier)?;
            self.separator(separator_after(i, N))?;
        }
        Ok(values)
    }

    /// The numbers of a line that begins with this keyword.
    pub fn headed<const N: usize>(
        &mut self,
        due: &[u8],
        carriers: &[Carrier; N],
    ) -> Result<[u64; N], Fault>
        ensures reads { Reads (headed due.now carriers.now) self.old self.new result }
        ensures fit { IfOk result (λ vs. Fit carriers.now vs) }
    {
        self.keyword(due)?;
        self.separator(b' ')?;
        self.numbers(carriers)
    }
}
