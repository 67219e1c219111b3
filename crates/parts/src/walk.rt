//! The addresses of a burst's beats.
ghost use Rattle.std.specs.Prelude.{◌≡◌, ℕ, ◌+◌, ◌-◌, ◌≤◌, ◌==◌};
ghost use Rattle.parts.specs.Addresses.{beat_address, on_bus, beat_number, here, left, begun, CarriedWhole};
ghost use Rattle.axi.specs.Verdicts.{verdict_of};

use axi::burst::{Burst, Kind};

/// The beats of a burst that are still to come.
#[derive(Clone, Copy)]
pub struct Walk {
    pub burst: Burst,
    /// How many beats are to come.
    pub count: u16,
}

impl Walk {
    /// All beats of a burst.
    pub fn new(burst: Burst) -> Walk
        ensures { result ≡ begun burst }
    {
        Walk {
            burst,
            count: u16::from(burst.len) + 1,
        }
    }

    /// Whether no beat is to come.
    pub fn is_empty(self) -> bool
        ensures { result ≡ (self.count == 0) }
    {
        self.count == 0
    }

    /// The number of the next beat, from 0.
    fn number(self) -> u32
        ensures which { result ≡ beat_number self.burst (self.count - 1) }
        ensures small { result ≤ 255 }
    {
        u32::from(self.burst.len).saturating_sub(u32::from(self.count.saturating_sub(1)))
    }

    /// The address of the next beat.
    fn next_address(self) -> u32
        ensures which { result ≡ here self }
        ensures whole { CarriedWhole self result }
    {
        address(self.burst, self.number())
    }

    /// The beats to come after the next one.
    fn rest(self) -> Walk
        ensures { result ≡ left self }
    {
        Walk {
            burst: self.burst,
            count: self.count.saturating_sub(1),
        }
    }

    /// The address of the next beat, and the beats to come after it.
    /// Without a beat to come it is the last beat's address, and still none.
    // A walk is a value within an engine's state, so the beats to come are answered beside the address.
    pub fn next(self) -> (u32, Walk)
        ensures address { result.0 ≡ here self }
        ensures whole { CarriedWhole self result.0 }
        ensures rest { result.1 ≡ left self }
    {
        (self.next_address(), self.rest())
    }
}

/// The address of beat `i`.
fn address(b: Burst, i: u32) -> u32
    requires { i ≤ 255 }
    ensures { result ≡ on_bus (beat_address b i) }
{
    let s = b.bytes();
    match b.kind() {
        Kind::Fixed | Kind::Reserved => b.addr,
        Kind::Incr if i == 0 => b.addr,
        Kind::Incr => (b.addr - b.addr % s).wrapping_add(i * s),
        Kind::Wrap => {
            let total = b.beats() * s;
            let base = b.addr - b.addr % total;
            base.wrapping_add((b.addr - base + i * s) % total)
        }
    }
}
