ghost use Rattle.std.specs.Prelude.{◌≡◌, ◌≤◌, ◌^◌, MatchOption};
ghost use Rattle.std.specs.Str.Parse.{AllDigits, digits_value};
ghost use Rattle.spb_defs.specs.Numbers.{number_of, number_within};

/// The number that the word spells in decimal, if it is at most `most`.
///
/// There is no sign, and no leading zero but in `0` itself. It takes no memory, and passes over the
/// word once.
pub fn number(word: &[u8], most: u64) -> Option<u64>
    ensures { result ≡ number_within most word.now }
{
    let value = value_of(word)?;
    if value <= most { Some(value) } else { None }
}

/// The number that the word spells, if it fits in 64 bits.
fn value_of(word: &[u8]) -> Option<u64>
    ensures { result ≡ number_of word.now }
{
    let first = *word.first()?;
    if first == b'0' {
        return if word.len() == 1 { Some(0) } else { None };
    }
    value_of_digits(word)
}

/// The value of the digits, leading zeros or not, if it fits in 64 bits and there is nothing else.
fn value_of_digits(word: &[u8]) -> Option<u64>
    ensures { MatchOption result
        (AllDigits 10 word.now → 2 ^ 64 ≤ digits_value 10 word.now)
        (λ value. AllDigits 10 word.now × (value ≡ digits_value 10 word.now)) }
{
    let mut value = 0u64;
    for b in word {
        if !b.is_ascii_digit() {
            return None;
        }
        value = value.checked_mul(10)?.checked_add(u64::from(*b - b'0'))?;
    }
    Some(value)
}
