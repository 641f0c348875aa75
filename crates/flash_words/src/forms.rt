//! The form of a number.
ghost use Rattle.std.specs.Prelude.{◌≡◌, ◌<◌, ◌^◌};
ghost use Rattle.flash_words.specs.Words.{number_in};

use itoa::Buffer;

/// The number from `low` to `high` that a word says in decimal, without sign and leading zeros.
pub fn number(low: u64, high: u64, word: &str) -> Option<u64>
    ensures { result ≡ number_in low high word.now }
{
    let Ok(n) = word.parse::<u64>() else {
        return None;
    };
    if n < low {
        return None;
    }
    if n > high {
        return None;
    }
    if Buffer::new().format(n) != word {
        return None;
    }
    Some(n)
}
