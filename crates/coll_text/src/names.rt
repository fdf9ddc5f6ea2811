//! Names, and words that are compared.

ghost use Rattle.std.specs.Prelude.{◌≡◌};
ghost use Rattle.std.specs.List.{list_all};
ghost use Rattle.std.specs.Str.{bytes_eq};
ghost use Rattle.coll_text.specs.Text.{is_name, is_name_byte, is_letter, is_digit};

/// Whether the word is that text.
pub fn is(word: &[u8], text: &[u8]) -> bool
    ensures value { result ≡ bytes_eq word.now text.now }
{
    word == text
}

/// Whether the word is a name: 1 to 16 bytes of `a` to `z`, `0` to `9` and `_`, the first a letter.
pub fn is_name(word: &[u8]) -> bool
    ensures value { result ≡ is_name word.now }
{
    let Some((first, others)) = word.split_first() else {
        return false;
    };
    is_letter(*first) && are_name_bytes(others) && others.len() <= 15
}

fn are_name_bytes(bytes: &[u8]) -> bool
    ensures { result ≡ list_all is_name_byte bytes.now }
{
    bytes.iter().all(|b| is_name_byte(*b))
}

/// Whether the byte is a digit.
pub(crate) fn is_digit(b: u8) -> bool
    ensures { result ≡ is_digit b }
{
    matches!(b, b'0'..=b'9')
}

fn is_letter(b: u8) -> bool
    ensures { result ≡ is_letter b }
{
    matches!(b, b'a'..=b'z')
}

fn is_name_byte(b: u8) -> bool
    ensures { result ≡ is_name_byte b }
{
    is_letter(b) || is_digit(b) || b == b'_'
}
