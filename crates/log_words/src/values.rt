//! What stands behind the `=` of a field.

ghost use Rattle.std.specs.Prelude.{◌≡◌};
ghost use Rattle.log_words.specs.Reading.{amount_in, bytes_in, flag_in, name_in, small_in};

use crate::amounts::{amount_at, is_hex_word, small_at};
use crate::faults::Flaw;
use crate::names::is_name_word;
use crate::words::Word;

/// What is behind `=`, as a number below 2^64.
///
/// # Errors
///
/// `BadWord` of a flag, `BadNumber`.
#[tactic(auto, unfolding(crate::specs::Reading::amount_in))]
pub fn amount_in(value: Option<Word>) -> Result<u64, Flaw>
    ensures { result ≡ amount_in value.entry }
{
    let Some(word) = value else {
        return Err(Flaw::BadWord);
    };
    match amount_at(word.text()) {
        Some(n) => Ok(n),
        None => Err(Flaw::BadNumber),
    }
}

/// The same as a number below 2^32.
///
/// # Errors
///
/// `BadWord` of a flag, `BadNumber`.
#[tactic(auto, unfolding(crate::specs::Reading::small_in))]
pub fn small_in(value: Option<Word>) -> Result<u32, Flaw>
    ensures { result ≡ small_in value.entry }
{
    let Some(word) = value else {
        return Err(Flaw::BadWord);
    };
    match small_at(word.text()) {
        Some(n) => Ok(n),
        None => Err(Flaw::BadNumber),
    }
}

/// The same as a name.
///
/// # Errors
///
/// `BadWord`.
#[tactic(auto, unfolding(crate::specs::Reading::name_in))]
pub fn name_in<'a>(value: Option<Word<'a>>) -> Result<Word<'a>, Flaw>
    ensures { result ≡ name_in value.entry }
{
    let Some(word) = value else {
        return Err(Flaw::BadWord);
    };
    if is_name_word(word.text()) {
        Ok(word)
    } else {
        Err(Flaw::BadWord)
    }
}

/// The same as bytes in hexadecimal, which stay a word.
///
/// # Errors
///
/// `BadWord` of a flag, `BadHex`.
#[tactic(auto, unfolding(crate::specs::Reading::bytes_in))]
pub fn bytes_in<'a>(value: Option<Word<'a>>) -> Result<Word<'a>, Flaw>
    ensures { result ≡ bytes_in value.entry }
{
    let Some(word) = value else {
        return Err(Flaw::BadWord);
    };
    if is_hex_word(word.text()) {
        Ok(word)
    } else {
        Err(Flaw::BadHex)
    }
}

/// Of a flag, which stands without `=`, that it holds.
///
/// # Errors
///
/// `BadWord` where there is a word behind `=`.
#[tactic(auto, unfolding(crate::specs::Reading::flag_in))]
pub fn flag_in(value: Option<Word>) -> Result<bool, Flaw>
    ensures { result ≡ flag_in value.entry }
{
    match value {
        None => Ok(true),
        Some(_) => Err(Flaw::BadWord),
    }
}
