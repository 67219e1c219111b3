//! Carriers of numbers.
ghost use Rattle.std.specs.Prelude.{◌≡◌, ◌+◌, ◌^◌};
ghost use Rattle.words.specs.Carriers.{bits};

/// How many bits carry a number.
#[derive(Clone, Copy, Debug, PartialEq, Eq)]
pub enum Carrier {
    Bits8,
    Bits10,
    Bits16,
    Bits32,
    Bits64,
}

impl Carrier {
    /// The largest number that the carrier holds.
    pub fn top(self) -> u64
        ensures { result + 1 ≡ 2 ^ bits self }
    {
        match self {
            Carrier::Bits8 => 0xff,
            Carrier::Bits10 => 0x3ff,
            Carrier::Bits16 => 0xffff,
            Carrier::Bits32 => 0xffff_ffff,
            Carrier::Bits64 => 0xffff_ffff_ffff_ffff,
        }
    }
}
