//! The words of a line of a given plan.

ghost use Rattle.std.specs.Prelude.{◌≡◌};
ghost use Rattle.given_lines.specs.Words.{cell_op_of, headed, kind_of, remote_of, short_of};

use coll_text::{Words, is, number_between, op_named};
use plan_core::LinkKind;
use ptl_types::AtomicOp;

/// A number below 2^32.
pub(crate) fn short_of(word: &[u8]) -> Option<u32>
    ensures { result ≡ short_of word.now }
{
    number_between(0, u32::MAX, word)
}

/// A cell's operation; `-` stands for none.
pub(crate) fn cell_op_of(word: &[u8]) -> Option<Option<AtomicOp>>
    ensures { result ≡ cell_op_of word.now }
{
    if is(word, b"-") {
        return Some(None);
    }
    let op = op_named(word)?;
    Some(Some(op))
}

/// The kind of link that the word names.
pub(crate) fn kind_of(word: &[u8]) -> Option<LinkKind>
    ensures { result ≡ kind_of word.now }
{
    if is(word, b"put") {
        Some(LinkKind::Put)
    } else if is(word, b"atomic") {
        Some(LinkKind::Atomic)
    } else if is(word, b"bump") {
        Some(LinkKind::Bump)
    } else {
        None
    }
}

/// Whether the word is `remote`; `local` is the other one.
pub(crate) fn remote_of(word: &[u8]) -> Option<bool>
    ensures { result ≡ remote_of word.now }
{
    if is(word, b"remote") {
        Some(true)
    } else if is(word, b"local") {
        Some(false)
    } else {
        None
    }
}

/// The words after the first two of a line, where these are its name and its number.
#[tactic(auto, unfolding(crate::specs::Words::headed))]
pub(crate) fn headed<'a>(name: &[u8], n: u32, mut words: Words<'a>) -> Option<Words<'a>>
    ensures { result ≡ headed name.now n words.entry }
{
    let (key, number) = (words.next()?, words.next()?);
    if is(key, name) && number_between(n, n, number).is_some() {
        Some(words)
    } else {
        None
    }
}
