//! Words with the columns where they begin.

ghost use Rattle.std.specs.Prelude.{◌≡◌, ◌∷◌, [], ◌^◌, ◌+◌, ◌<◌, ◌≤◌, length, drop, take, true, false, IfSome, IfNone};
ghost use Rattle.std.specs.List.{list_any};
ghost use Rattle.coll_text.specs.Text.{words};
ghost use Rattle.log_words.specs.Words.{word, rest, all_words, begins, equals_in, is_arrow, is_last, key_of, over, placed, value_of};
ghost use Rattle.log_words.specs.Reading.{said_next, same_key};

use crate::faults::{Flaw, LineFault, at};
use coll_text::{cut, is};
use std::marker::Model;

/// A word of a line, and the column of its first byte, from 1.
#[derive(Drop)]
pub struct Word<'a> {
    text: &'a [u8],
    column: usize,
}

impl<'a> Model for Word<'a> {
    ghost use Rattle.std.specs.Prelude.{◌+◌, ◌^◌, ◌≤◌, length};
    ghost use Rattle.log_words.specs.Words.{Word, word};

    ghost Value = { Word };

    ghost view = { λ w. word w.text.now w.column };

    ghost invariant = { λ w. w.column + length w.text.now ≤ 2 ^ 63 };
}

impl<'a> Word<'a> {
    /// Its bytes.
    pub fn text(&self) -> &'a [u8]
        ensures { result.now ≡ self.now.text }
    {
        self.text
    }

    /// Where it begins.
    pub fn column(&self) -> usize
        ensures { result ≡ self.now.column }
    {
        self.column
    }

    /// The same word again.
    pub fn again(&self) -> Word<'a>
        ensures { result ≡ self.now }
    {
        Word {
            text: self.text,
            column: self.column,
        }
    }

    /// Whether it parts a call from its answer.
    pub(crate) fn is_arrow(&self) -> bool
        ensures { result ≡ is_arrow self.now }
    {
        is(self.text, b"->")
    }

    /// What stands before its first `=`, and the word behind it. Without `=` it is a flag.
    #[tactic(auto, unfolding(crate::specs::Words::key_of, crate::specs::Words::value_of))]
    pub fn field(&self) -> (&'a [u8], Option<Word<'a>>)
        ensures key { result.0.now ≡ key_of self.now }
        ensures value { result.1 ≡ value_of self.now }
    {
        match equals_in(self.text) {
            None => (self.text, None),
            Some(place) => {
                let value = Word {
                    text: behind(self.text, place),
                    column: self.column + place + 1,
                };
                (&self.text[..place], Some(value))
            }
        }
    }

    /// What stands before its first `=`.
    fn key(&self) -> &'a [u8]
        ensures { result.now ≡ key_of self.now }
    {
        let (key, _) = self.field();
        key
    }
}

/// The place of the first `=`.
fn equals_in(text: &[u8]) -> Option<usize>
    ensures value { result ≡ equals_in text.now }
    ensures inside { IfSome result (λ place. place < length text.now) }
{
    text.iter().position(|b| *b == b'=')
}

/// What stands behind a place.
fn behind(text: &[u8], place: usize) -> &[u8]
    requires { place < length text.now }
    ensures { result.now ≡ drop (place + 1) text.now }
{
    &text[place + 1..]
}

/// The words of a line that are left, one space between two.
#[derive(Drop)]
pub struct Rest<'a> {
    left: Option<&'a [u8]>,
    column: usize,
}

impl<'a> Model for Rest<'a> {
    ghost use Rattle.std.specs.Prelude.{◌^◌, ◌≤◌};
    ghost use Rattle.std.specs.Option.{option_copied};
    ghost use Rattle.coll_text.specs.Text.{words_left};
    ghost use Rattle.log_words.specs.Words.{Rest, behind, rest_from};

    ghost Value = { Rest };

    ghost view = { λ r. rest_from r.column (words_left (option_copied r.left)) };

    ghost invariant = { λ r. behind r.column (words_left (option_copied r.left)) ≤ 2 ^ 63 };
}

impl<'a> Rest<'a> {
    /// All words of a line, the first in column 1.
    pub fn of(line: &'a [u8]) -> Rest<'a>
        requires { length line.now < 2 ^ 62 }
        ensures { result ≡ all_words line.now }
    {
        Rest {
            left: Some(line),
            column: 1,
        }
    }

    /// The same words again.
    pub fn again(&self) -> Rest<'a>
        ensures same { result ≡ self.now }
        ensures at_most { length result.words ≤ 2 ^ 63 }
    {
        Rest {
            left: self.left,
            column: self.column,
        }
    }

    /// All bytes of them, where there are some.
    pub fn text(&self) -> Option<&'a [u8]>
        ensures some { IfSome result (λ text. placed (begins self.now) (words text.now) ≡ self.now.words) }
        ensures none { IfNone result (self.now.words ≡ []) }
    {
        self.left
    }

    /// Whether none is left.
    pub fn is_over(&self) -> bool
        ensures { result ≡ is_last self.now.words }
    {
        match self.left {
            Some(_) => false,
            None => true,
        }
    }

    /// Where the next begins, or would begin.
    pub fn column(&self) -> usize
        ensures { result ≡ begins self.now }
    {
        self.column
    }

    /// The next word.
    pub fn next(&mut self) -> Option<Word<'a>>
        ensures some { IfSome result (λ w. self.old ≡ rest (w ∷ self.new.words) self.new.past) }
        ensures none { IfNone result (self.old.words ≡ []) }
    {
        let (text, others) = cut(self.left?, b' ');
        let column = self.column;
        self.left = others;
        self.column = column + text.len() + 1;
        Some(Word { text, column })
    }

    /// The next word before `->` and the end. None is taken where there is none.
    pub fn next_of_call(&mut self) -> Option<Word<'a>>
        ensures some { IfSome result (λ w. self.old ≡ rest (w ∷ self.new.words) self.new.past) }
        ensures inside { IfSome result (λ w. is_arrow w ≡ false) }
        ensures none { IfNone result (over self.old.words ≡ true) }
        ensures stays { IfNone result (self.new ≡ self.old) }
    {
        let mut later = self.again();
        let word = later.next()?;
        if word.is_arrow() {
            return None;
        }
        *self = later;
        Some(word)
    }

    /// What stands behind `->`, where no word is left before it; nothing where there is no `->`.
    ///
    /// # Errors
    ///
    /// `BadLine` at a word that is left before it.
    #[tactic(auto, unfolding(crate::specs::Reading::said_next))]
    pub fn said(mut self) -> Result<Rest<'a>, LineFault>
        ensures { result ≡ said_next self.entry }
    {
        let before = self.again();
        let Some(word) = self.next() else {
            return Ok(before);
        };
        if word.is_arrow() {
            Ok(self)
        } else {
            Err(at(word.column(), Flaw::BadLine))
        }
    }
}

/// Whether one of the first so many words has the key of this word.
pub(crate) fn has_key(mut words: Rest, count: usize, word: &Word) -> bool
    ensures { result ≡ list_any (same_key word.now) (take count words.entry.words) }
{
    let key = word.key();
    let mut left = count;
    while left > 0 {
        let Some(other) = words.next() else {
            return false;
        };
        if is(key, other.key()) {
            return true;
        }
        left -= 1;
    }
    false
}
