//! Reading numbers.

ghost use Rattle.std.specs.Prelude.{◌≡◌, ◌≢◌, ◌≤◌, ℕ, true, length, None, IfSome, decimal};
ghost use Rattle.std.specs.List.{list_all};
ghost use Rattle.std.specs.Char.{is_ascii_digit};
ghost use Rattle.mapper_requests.specs.Numbers.{IsNumber, digits_value, is_digits, most_digits, number_of};

use itoa::Buffer;

/// The most digits of a number.
const MOST_DIGITS: usize = 10;

/// Whether each octet is a decimal digit.
fn has_digits(word: &[u8]) -> bool
    ensures { result ≡ list_all is_ascii_digit word.now }
{
    word.iter().all(|octet| octet.is_ascii_digit())
}

/// Whether the word is one to ten decimal digits.
fn is_digits(word: &[u8]) -> bool
    ensures { result ≡ is_digits word.now }
{
    !word.is_empty() && word.len() <= MOST_DIGITS && has_digits(word)
}

/// The value of decimal digits.
fn digits_value(digits: &[u8]) -> u64
    requires few { length digits.now ≤ most_digits }
    requires each { list_all is_ascii_digit digits.now ≡ true }
    ensures { result ≡ digits_value digits.now }
{
    let mut value = 0u64;
    for digit in digits {
        value = 10 * value + u64::from(*digit - b'0');
    }
    value
}

/// The number that the word spells, or `None` where it spells none: one to ten decimal digits, leading zeros
/// among them or not, of value at most 4,294,967,295 (this project's own).
#[tactic(auto, unfolding(crate::specs::Numbers::number_of))]
pub fn read_number(word: &[u8]) -> Option<u32>
    ensures { result ≡ number_of word.now }
{
    if !is_digits(word) {
        return None;
    }
    u32::try_from(digits_value(word)).ok()
}

/// The number whose decimal digits the word is, without leading zeros; `None` where it is that of no number up to
/// 4,294,967,295 (this project's own).
pub fn read_decimal(word: &[u8]) -> Option<u32>
    ensures number { IfSome result (λ number. word.now ≡ decimal number) }
    ensures none { result ≡ None → (number : ℕ) → IsNumber number → word.now ≢ decimal number }
{
    let Some(number) = read_number(word) else {
        return None;
    };
    let mut digits = Buffer::new();
    if digits.format(number).as_bytes() == word {
        Some(number)
    } else {
        None
    }
}
