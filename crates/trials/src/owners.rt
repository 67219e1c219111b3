//! What the owner of slots knows of them once a queue is gone.
ghost use Rattle.std.specs.Prelude.{◌≡◌};

use ring::Ring;

/// A queue that is cleared and goes leaves the slots as they were.
pub fn cleared(slots: &mut [u8])
    ensures { slots.new ≡ slots.old }
{
    let mut ring = Ring::new(slots);
    ring.clear();
}
