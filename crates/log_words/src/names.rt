//! Which words are names.

ghost use Rattle.std.specs.Prelude.{◌≡◌, ◌==◌};
ghost use Rattle.std.specs.List.{list_any};
ghost use Rattle.std.specs.Str.{bytes_eq};
ghost use Rattle.log_words.specs.Words.{condition_refusals, is_name_word, is_reserved, state_refusals};

use coll_text::is;

/// The most bytes of a name.
pub const LONGEST_NAME: usize = 64;

/// Whether the word can name a handle, a message or an operation: it has 1 to 64 bytes, holds no `=`, and says nothing else.
#[tactic(auto, unfolding(crate::specs::Words::is_name_word))]
pub fn is_name_word(word: &[u8]) -> bool
    ensures { result ≡ is_name_word word.now }
{
    !word.is_empty() && word.len() <= LONGEST_NAME && !has_equals(word) && !is_reserved(word)
}

/// Whether a word holds `=`.
fn has_equals(word: &[u8]) -> bool
    ensures { result ≡ list_any (λ b. b == 61) word.now }
{
    word.iter().any(|b| *b == b'=')
}

/// Whether the word says something else wherever it stands.
#[tactic(auto, unfolding(crate::specs::Words::is_reserved))]
fn is_reserved(word: &[u8]) -> bool
    ensures { result ≡ is_reserved word.now }
{
    is(word, b"?")
        || is(word, b"-")
        || is(word, b"->")
        || is(word, b"ok")
        || is(word, b"none")
        || is_refusal_of_a_call(word)
        || is_broken_condition(word)
}

/// Whether the word is the name of a refusal that a call's state brings.
fn is_refusal_of_a_call(word: &[u8]) -> bool
    ensures { result ≡ list_any (bytes_eq word.now) state_refusals }
{
    is(word, b"Stale")
        || is(word, b"NoSpace")
        || is(word, b"OutOfRegion")
        || is(word, b"InUse")
        || is(word, b"CountFull")
        || is(word, b"NoMemory")
}

/// Whether the word is the name of a refusal where a call's condition is broken.
fn is_broken_condition(word: &[u8]) -> bool
    ensures { result ≡ list_any (bytes_eq word.now) condition_refusals }
{
    is(word, b"UnknownRank")
        || is(word, b"UnfitLimits")
        || is(word, b"TooLong")
        || is(word, b"PartialElement")
        || is(word, b"HalvesDiffer")
        || is(word, b"AsksAcknowledgement")
        || is(word, b"NoRoom")
        || is(word, b"OutsideRegion")
        || is(word, b"Elsewhere")
        || is(word, b"NotReady")
}
