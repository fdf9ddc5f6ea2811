//! Numbers in decimal, with one spelling each.

ghost use Rattle.std.specs.Prelude.{◌≡◌, ℕ, ◌+◌, ◌*◌, ◌≤◌, IfSome, length, take, true};
ghost use Rattle.std.specs.List.{list_all};
ghost use Rattle.coll_text.specs.Text.{is_digit, number_of, number_between, with_digits};
ghost use Rattle.coll_text.specs.Cuts.{ReadsNumber, Holds, goes_on};

use crate::names::is_digit;

/// What a word is as a number.
#[derive(Clone, Copy, Debug, PartialEq, Eq)]
pub enum Number {
    /// It is none: no digits, another byte, or a leading 0.
    Malformed,
    /// It is one from 2^64 on.
    Huge,
    /// It is this one.
    Small(u64),
}

/// Reads a word as a number: `0`, or a digit from 1 to 9 followed by digits.
pub fn number_at(word: &[u8]) -> Number
    ensures exact { ReadsNumber result (number_of word.now) }
{
    let Some((first, others)) = word.split_first() else {
        return Number::Malformed;
    };
    if !is_digit(*first) || (*first == b'0' && !others.is_empty()) {
        return Number::Malformed;
    }
    digits(u64::from(*first - b'0'), others)
}

/// The number that begins so and goes on with these digits.
fn digits(front: u64, others: &[u8]) -> Number
    ensures { ReadsNumber result (goes_on front others.now) }
{
    let mut number = Some(front);
    for b in others {
        if !is_digit(*b) {
            return Number::Malformed;
        }
        number = more(number, *b - b'0');
    }
    match number {
        Some(number) => Number::Small(number),
        None => Number::Huge,
    }
}

/// The number with one more digit, where it is below 2^64.
fn more(number: Option<u64>, digit: u8) -> Option<u64>
    ensures { (n : ℕ) → Holds number n → Holds result (10 * n + digit) }
{
    number?.checked_mul(10)?.checked_add(u64::from(digit))
}

/// A number below this one has room for one more digit in a `u64`.
const ROOMY: u64 = 1_000_000_000_000_000_000;

/// The number that the first digits are, and how many these are. It ends early where one more may not fit.
#[tactic(auto, using(crate::proofs::Leading::value_more, crate::proofs::Leading::digits_more))]
pub(crate) fn leading_digits(bytes: &[u8]) -> (u64, usize)
    ensures within { result.1 ≤ length bytes.now }
    ensures digits { list_all is_digit (take result.1 bytes.now) ≡ true }
    ensures value { with_digits 0 (take result.1 bytes.now) ≡ result.0 }
{
    let mut number = 0u64;
    let mut count = 0usize;
    while count < bytes.len() && number < ROOMY && is_digit(bytes[count]) {
        number = 10 * number + u64::from(bytes[count] - b'0');
        count += 1;
    }
    (number, count)
}

/// The number that the word is, where it is one from `low` to `high`.
pub fn number_between(low: u32, high: u32, word: &[u8]) -> Option<u32>
    ensures value { result ≡ number_between low high word.now }
    ensures least { IfSome result (λ n. low ≤ n) }
    ensures most { IfSome result (λ n. n ≤ high) }
{
    match number_at(word) {
        Number::Small(n) if u64::from(low) <= n && n <= u64::from(high) => Some(n as u32),
        _ => None,
    }
}

/// The number that the word is, where it is one below 2^64.
pub fn long_number(word: &[u8]) -> Option<u64>
    ensures { result ≡ number_between 0 18446744073709551615 word.now }
{
    match number_at(word) {
        Number::Small(n) => Some(n),
        Number::Huge | Number::Malformed => None,
    }
}
