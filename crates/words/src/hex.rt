//! Digits, and the numbers that they write.
ghost use Rattle.std.specs.Prelude.{◌≡◌, ◌&&◌, length, nat_le, if◌then◌else◌, Some, None};
ghost use Rattle.words.specs.Numbers.{is_digit, digit_value, is_number, value_of};

/// The largest number of digits.
const DIGITS: usize = 16;

/// What a digit counts, if a byte is one.
pub fn digit(b: u8) -> Option<u8>
    ensures { result ≡ (if is_digit b then Some (digit_value b) else None) }
{
    match b {
        b'0'..=b'9' => Some(b - b'0'),
        b'a'..=b'f' => Some(b - b'a' + 10),
        _ => None,
    }
}

/// Whether each byte of a word is a digit.
pub(crate) fn all_digits(word: &[u8]) -> bool
    ensures { result ≡ is_number word.now }
{
    word.iter().all(|b| digit(*b).is_some())
}

/// The number that a word writes, if it has at most 16 digits and no other byte.
pub(crate) fn value(word: &[u8]) -> Option<u64>
    ensures { result ≡ (if nat_le (length word.now) 16 && is_number word.now then Some (value_of word.now) else None) }
{
    if word.len() > DIGITS {
        return None;
    }
    // A loop, since the bound on the sum so far has no proof in a `fold`.
    let mut v = 0u64;
    for b in word {
        v = v * 16 + u64::from(digit(*b)?);
    }
    Some(v)
}
