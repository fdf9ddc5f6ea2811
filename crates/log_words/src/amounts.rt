//! Numbers and bytes as words.

ghost use Rattle.std.specs.Prelude.{◌≡◌, ◌-◌, ◌^◌, ◌+◌, ◌*◌, option_map};
ghost use Rattle.std.specs.List.{list_all};
ghost use Rattle.log_words.specs.Words.{amount_within, hex_digit, hexadecimal, is_hex, is_hex_word, within};

use coll_text::{Number, is, number_at};

/// The value of a hexadecimal digit; letters are lower-case.
pub fn digit(b: u8) -> Option<u8>
    ensures { result ≡ hex_digit b }
{
    match b {
        b'0'..=b'9' => Some(b - b'0'),
        b'a'..=b'f' => Some(b - b'a' + 10),
        _ => None,
    }
}

/// Whether it is such a digit.
fn is_digit(b: u8) -> bool
    ensures { result ≡ is_hex b }
{
    digit(b).is_some()
}

/// Whether all of them are.
fn are_digits(word: &[u8]) -> bool
    ensures { result ≡ list_all is_hex word.now }
{
    word.iter().all(|b| is_digit(*b))
}

/// The number with one more digit, where it is below 2^64.
fn more(number: u64, b: u8) -> Option<u64>
    ensures { result ≡ within (2 ^ 64 - 1) (option_map (λ digit. 16 * number + digit) (hex_digit b)) }
{
    let digit = digit(b)?;
    number.checked_mul(16)?.checked_add(u64::from(digit))
}

/// The number that hexadecimal digits are, where there are some and it is below 2^64.
fn hexadecimal(digits: &[u8]) -> Option<u64>
    ensures { result ≡ within (2 ^ 64 - 1) (hexadecimal digits.now) }
{
    if digits.is_empty() {
        return None;
    }
    let mut number = 0u64;
    for b in digits {
        number = more(number, *b)?;
    }
    Some(number)
}

/// The number that a word is, in decimal without a 0 before other digits, or `0x` and hexadecimal; below 2^64.
#[tactic(auto, unfolding(crate::specs::Words::amount_within))]
pub fn amount_at(word: &[u8]) -> Option<u64>
    ensures { result ≡ amount_within (2 ^ 64 - 1) word.now }
{
    if word.starts_with(b"0x") {
        return hexadecimal(&word[2..]);
    }
    match number_at(word) {
        Number::Small(n) => Some(n),
        _ => None,
    }
}

/// The number that a word is, below 2^32.
#[tactic(auto, unfolding(crate::specs::Words::amount_within))]
pub fn small_at(word: &[u8]) -> Option<u32>
    ensures { result ≡ amount_within (2 ^ 32 - 1) word.now }
{
    match amount_at(word) {
        Some(n) if n <= u64::from(u32::MAX) => Some(n as u32),
        _ => None,
    }
}

/// Whether the word is bytes in hexadecimal, two digits a byte, or `-` for none.
#[tactic(auto, unfolding(crate::specs::Words::is_hex_word))]
pub fn is_hex_word(word: &[u8]) -> bool
    ensures { result ≡ is_hex_word word.now }
{
    is(word, b"-") || (!word.is_empty() && word.len() % 2 == 0 && are_digits(word))
}
