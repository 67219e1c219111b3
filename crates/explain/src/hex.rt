//! Hexadecimal numbers as the input writes them: digits 0-9 and a-f, lower case only.
ghost use Rattle.std.specs.Prelude.{◌≡◌, ℕ, ◌<◌, ◌≤◌, IfErr, Some, MatchResult};
ghost use Rattle.explain.specs.Faults.{AtFault};
ghost use Rattle.explain.specs.Hex.{hex_value};

use words::hex::digit;

/// Why a word is no number that fits.
#[derive(Clone, Copy, Debug, PartialEq, Eq)]
pub enum NumberFault {
    /// The word has no digit.
    Empty,
    /// This byte is no digit.
    NotADigit(u8),
    /// The number is above the largest allowed.
    TooLarge,
}

/// The number that a word writes, where it is at most `largest`.
pub fn number(word: &[u8], largest: u32) -> Result<u32, NumberFault>
    ensures value { MatchResult result (λ v. (hex_value word.now ≡ Some v) × (v ≤ largest)) (λ _. (v : ℕ) → hex_value word.now ≡ Some v → largest < v) }
    ensures why { IfErr result (λ e. AtFault word.now e) }
{
    if word.is_empty() {
        return Err(NumberFault::Empty);
    }
    // A loop, since it ends early for two reasons.
    let mut value = 0;
    for byte in word {
        let Some(d) = digit(*byte) else {
            return Err(NumberFault::NotADigit(*byte));
        };
        value = value * 16 + u64::from(d);
        // Stopping here keeps the value within 64 bits, however long the word is.
        if value > u64::from(largest) {
            return Err(NumberFault::TooLarge);
        }
    }
    Ok(value as u32)
}
