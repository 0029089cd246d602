//! Words as numbers: decimal digits, and the bytes that a number has to fit.
ghost use Rattle.std.specs.Prelude.{◌≡◌, true};
ghost use Rattle.std.specs.Char.{is_ascii_digit};
ghost use Rattle.std.specs.List.{list_all};
ghost use Rattle.journals.specs.Numbers.{digit_more, number_in, sized, signed_in};

use crate::wrongs::Wrong;

// Whether there are digits alone.
fn all_digits(word: &[u8]) -> bool
    ensures { result ≡ list_all is_ascii_digit word.now }
{
    word.iter().all(|byte| byte.is_ascii_digit())
}

// A digit more behind a number.
fn followed(number: u64, digit: u8) -> Option<u64>
    requires { is_ascii_digit digit ≡ true }
    ensures { result ≡ digit_more number digit }
{
    number.checked_mul(10)?.checked_add((digit - b'0') as u64)
}

/// The number that a word is, where eight bytes hold it.
pub fn u64_of(word: &[u8]) -> Result<u64, Wrong>
    ensures { result ≡ sized 8 (number_in word.now) }
{
    if word.is_empty() || !all_digits(word) {
        return Err(Wrong::NotANumber);
    }
    let mut number = 0;
    for digit in word {
        let Some(next) = followed(number, *digit) else {
            return Err(Wrong::TooLarge);
        };
        number = next;
    }
    Ok(number)
}

/// The number that a word is, where one byte holds it.
pub fn u8_of(word: &[u8]) -> Result<u8, Wrong>
    ensures { result ≡ sized 1 (number_in word.now) }
{
    u8::try_from(u64_of(word)?).map_err(|_| Wrong::TooLarge)
}

/// The number that a word is, where four bytes hold it.
pub fn u32_of(word: &[u8]) -> Result<u32, Wrong>
    ensures { result ≡ sized 4 (number_in word.now) }
{
    u32::try_from(u64_of(word)?).map_err(|_| Wrong::TooLarge)
}

/// The number that a word is, where it has a minus in front or none, and four bytes hold it.
pub fn i64_of(word: &[u8]) -> Result<i64, Wrong>
    ensures { result ≡ signed_in word.now }
{
    match word {
        [b'-', digits @ ..] => Ok(-(u32_of(digits)? as i64)),
        digits => Ok(u32_of(digits)? as i64),
    }
}
