//! Bytes in hexadecimal: two digits a byte, and `-` for none.

ghost use Rattle.std.specs.Prelude.{◌≡◌, ◌≢◌, ◌∷◌, ◌/◌, ◌%◌, ◌<◌, ℕ, List, IfSome, IfNone};
ghost use Rattle.std.specs.Str.{bytes_eq};
ghost use Rattle.log_answers.specs.Texts.{hex_char, hex_digits, hex_word};

use coll_text::is;

/// The digit of a value below 16; letters are lower-case.
pub fn hex_char(n: u8) -> u8
    requires { n < 16 }
    ensures { result ≡ hex_char n }
{
    if n < 10 { n + b'0' } else { n + 87 }
}

/// What stands behind the two digits of a byte, where the word begins with them.
fn behind_digits(word: &[u8], b: u8) -> Option<&[u8]>
    ensures some { IfSome result (λ rest. word.now ≡ hex_char (b / 16) ∷ hex_char (b % 16) ∷ rest.now) }
    ensures none { IfNone result ((ds : List ℕ) → word.now ≢ hex_char (b / 16) ∷ hex_char (b % 16) ∷ ds) }
{
    let (high, others) = word.split_first()?;
    let (low, rest) = others.split_first()?;
    if *high != hex_char(b / 16) {
        return None;
    }
    if *low != hex_char(b % 16) {
        return None;
    }
    Some(rest)
}

/// Whether the word is the digits of these bytes.
fn are_digits_of(word: &[u8], bytes: &[u8]) -> bool
    ensures { result ≡ bytes_eq word.now (hex_digits bytes.now) }
{
    let mut rest = word;
    for b in bytes {
        rest = match behind_digits(rest, *b) {
            Some(rest) => rest,
            None => return false,
        };
    }
    is(rest, b"")
}

/// Whether the word is these bytes.
pub(crate) fn is_hex_of(word: &[u8], bytes: &[u8]) -> bool
    ensures { result ≡ bytes_eq word.now (hex_word bytes.now) }
{
    if bytes.is_empty() {
        return is(word, b"-");
    }
    are_digits_of(word, bytes)
}
