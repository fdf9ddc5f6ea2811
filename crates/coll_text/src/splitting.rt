//! Cutting bytes at a separator.

ghost use Rattle.std.specs.Prelude.{◌≡◌, ◌∷◌, ◌==◌, ◌<◌, List, ℕ, length, IfSome};
ghost use Rattle.std.specs.List.{slice_split, position};
ghost use Rattle.std.specs.Option.{option_copied};
ghost use Rattle.std.specs.Iterator.{YieldsFirstRef, item_count};
ghost use Rattle.coll_text.specs.Text.{words, words_left};
ghost use Rattle.coll_text.specs.Cuts.{parts_after};

use memchr::memchr;
use std::marker::Model;

/// Where the first separator stands.
fn find(bytes: &[u8], separator: u8) -> Option<usize>
    ensures { result ≡ position (λ b. b == separator) bytes.now }
{
    memchr(separator, bytes)
}

/// The bytes before the first separator, and those after it where there is one.
pub fn cut(bytes: &[u8], separator: u8) -> (&[u8], Option<&[u8]>)
    ensures parts { slice_split (λ b. b == separator) bytes.now ≡ result.0.now ∷ parts_after separator result.1 }
    ensures shorter { IfSome result.1 (λ rest. length rest.now < length bytes.now) }
{
    match find(bytes, separator) {
        Some(at) => (&bytes[..at], Some(&bytes[at + 1..])),
        None => (bytes, None),
    }
}

/// The words of a line that are left to read. Two spaces beside each other have an empty word between them.
#[derive(Drop)]
pub struct Words<'a> {
    pub(crate) left: Option<&'a [u8]>,
}

impl<'a> Model for Words<'a> {
    ghost Value = { List (List ℕ) };

    ghost view = { λ w. words_left (option_copied w.left) };
}

impl<'a> Words<'a> {
    /// All words of a line, which stands without its LF.
    pub fn of(line: &'a [u8]) -> Words<'a>
        ensures makes { result ≡ words line.now }
    {
        Words { left: Some(line) }
    }

    /// The words that are left, once more.
    pub fn again(&self) -> Words<'a>
        ensures same { result ≡ self.now }
    {
        Words { left: self.left }
    }
}

impl<'a> Iterator for Words<'a> {
    type Item = &'a [u8];

    ghost next_gives = { YieldsFirstRef (λ words. words) };

    ghost remaining = { item_count (λ words. words) };

    fn next(&mut self) -> Option<&'a [u8]> {
        let (word, rest) = cut(self.left?, b' ');
        self.left = rest;
        Some(word)
    }
}
