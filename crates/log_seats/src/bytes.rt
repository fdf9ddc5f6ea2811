//! Bytes that a call names.

ghost use Rattle.std.specs.Prelude.{◌≡◌, ◌<◌, ◌∷◌, [], IfNone, IfOk, IfSome, length};
ghost use Rattle.log_seats.specs.Bytes.{byte_of, byte_pairs, bytes_in, digit_value};

use coll_text::is;
use log_words::digit;
use ptl_types::NoMemory;
use std::alloc::Global;

/// The value of a digit; 0 of any other byte.
fn digit_value(b: u8) -> u8
    ensures value { result ≡ digit_value b }
    ensures small { result < 16 }
{
    match digit(b) {
        Some(value) => value,
        None => 0,
    }
}

/// The byte of two digits.
fn byte_of(high: u8, low: u8) -> u8
    ensures { result ≡ byte_of high low }
{
    digit_value(high) * 16 + digit_value(low)
}

/// The byte of the first two digits, and what stands behind them.
fn first_pair(word: &[u8]) -> Option<(u8, &[u8])>
    ensures some { IfSome result (λ pair. byte_pairs word.now ≡ pair.0 ∷ byte_pairs pair.1.now) }
    ensures shorter { IfSome result (λ pair. length pair.1.now < length word.now) }
    ensures none { IfNone result (byte_pairs word.now ≡ []) }
{
    let (high, others) = word.split_first()?;
    let (low, rest) = others.split_first()?;
    Some((byte_of(*high, *low), rest))
}

/// The bytes that digits are, two a byte.
fn pairs(alloc: Global, word: &[u8]) -> Result<Vec<u8>, NoMemory>
    ensures { IfOk result (λ v. v.items ≡ byte_pairs word.now) }
{
    let mut bytes = Vec::new(alloc);
    let mut rest = word;
    while let Some((byte, others)) = first_pair(rest) {
        bytes.push(byte)?;
        rest = others;
    }
    Ok(bytes)
}

/// The bytes that a word is in hexadecimal.
pub fn bytes_in(alloc: Global, word: &[u8]) -> Result<Vec<u8>, NoMemory>
    ensures { IfOk result (λ v. v.items ≡ bytes_in word.now) }
{
    if is(word, b"-") {
        return Ok(Vec::new(alloc));
    }
    pairs(alloc, word)
}
