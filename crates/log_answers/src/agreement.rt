//! Whether what a device said is what is owed, word by word.

ghost use Rattle.std.specs.Prelude.{◌≡◌, ◌-◌, ◌^◌};
ghost use Rattle.log_words.specs.Words.{amount_within};
ghost use Rattle.log_answers.specs.Agreement.{agrees, found, given, is_number, is_said, is_silent, is_wrong, judged, next_place};
ghost use Rattle.log_answers.specs.Agreement.{place_after, plain};

use crate::hexes::is_hex_of;
use crate::items::{Place, field, item};
use crate::owed::{Item, Knows, Owed};
use coll_text::is;
use log_words::{Rest, Word, amount_at, is_name_word};

/// What an answer was found to be.
#[derive(Drop)]
pub enum Found<'a> {
    /// What is owed, with the word for what is new, where the device gave one.
    Agrees(Option<Word<'a>>),
    /// Otherwise from this column on.
    Differs(usize),
}

/// What a word of an answer was found to be.
#[derive(Clone, Copy)]
pub(crate) enum Judgement {
    /// Not what is owed.
    Wrong,
    /// A field that is owed.
    Field,
    /// What is owed at its place.
    Plain,
    /// The same, and the word of what is new.
    New,
}

/// Whether the word is this number, in either spelling.
fn is_number(word: &[u8], n: u64) -> bool
    ensures { result ≡ is_number n (amount_within (2 ^ 64 - 1) word.now) }
{
    match amount_at(word) {
        Some(m) => m == n,
        None => false,
    }
}

/// Whether the word says this.
fn is_said<K: Knows>(word: &[u8], item: &Item, around: &K) -> bool
    ensures { result ≡ is_said (K.known around.now) word.now item.now }
{
    match item {
        Item::Exact(text) => is(word, text.bytes()),
        Item::Amount(n) => is_number(word, *n),
        Item::Raw(bytes) => is_hex_of(word, bytes.bytes()),
        Item::SomeReady => around.is_ready(word),
        Item::NewThing(sort) => is_name_word(word) && around.is_free(*sort, word),
        Item::NewMessage => is_name_word(word),
        Item::Nameless => false,
    }
}

/// Whether the word says what is owed, where anything is; `?` always does.
fn agrees<K: Knows>(word: &[u8], item: &Option<Item>, around: &K) -> bool
    ensures { result ≡ agrees (K.known around.now) word.now item.now }
{
    match item {
        Some(item) => is(word, b"?") || is_said(word, item, around),
        None => false,
    }
}

/// What a word is that says this.
fn plain(item: &Option<Item>) -> Judgement
    ensures { result ≡ plain item.now }
{
    match item {
        Some(Item::NewThing(_)) => Judgement::New,
        Some(Item::NewMessage) => Judgement::New,
        _ => Judgement::Plain,
    }
}

/// What a word of an answer is.
#[tactic(auto, unfolding(crate::specs::Agreement::judged))]
fn judged<K: Knows>(owed: &Owed, place: Place, word: &Word, around: &K) -> Judgement
    ensures { result ≡ judged (K.known around.now) owed.now place word.now }
{
    let (key, value) = word.field();
    match value {
        Some(value) => {
            let item = field(owed, key, around);
            if agrees(value.text(), &item, around) {
                Judgement::Field
            } else {
                Judgement::Wrong
            }
        }
        None => {
            let item = item(owed, place, around);
            if agrees(word.text(), &item, around) {
                plain(&item)
            } else {
                Judgement::Wrong
            }
        }
    }
}

/// Whether it isn't what is owed.
fn is_wrong(judged: Judgement) -> bool
    ensures { result ≡ is_wrong judged }
{
    matches!(judged, Judgement::Wrong)
}

/// The place behind this one.
fn next_place(place: Place) -> Place
    ensures { result ≡ next_place place }
{
    match place {
        Place::First => Place::Second,
        _ => Place::Behind,
    }
}

/// The place that is due after a word.
fn place_after(judged: Judgement, place: Place) -> Place
    ensures { result ≡ place_after judged place }
{
    match judged {
        Judgement::Field => place,
        _ => next_place(place),
    }
}

/// The word for what is new, after a word.
fn given<'a>(judged: Judgement, word: Word<'a>, before: Option<Word<'a>>) -> Option<Word<'a>>
    ensures { result ≡ given judged word.entry before.entry }
{
    match judged {
        Judgement::New => {
            if is(word.text(), b"?") {
                None
            } else {
                Some(word)
            }
        }
        _ => before,
    }
}

/// Whether a device told nothing of its answer: `?` alone.
fn is_silent(mut said: Rest) -> bool
    ensures { result ≡ is_silent said.entry.words }
{
    let Some(word) = said.next() else {
        return false;
    };
    if !is(word.text(), b"?") {
        return false;
    }
    said.is_over()
}

/// Compares an answer with what is owed.
#[tactic(auto, unfolding(crate::specs::Agreement::found))]
pub fn compare<'a, K: Knows>(mut said: Rest<'a>, owed: &Owed, around: &K) -> Found<'a>
    ensures { result ≡ found (K.known around.now) owed.now said.entry }
{
    if is_silent(said.again()) {
        return Found::Agrees(None);
    }
    let mut place = Place::First;
    let mut new = None;
    let mut column = said.column();
    while let Some(word) = said.next() {
        let found = judged(owed, place, &word, around);
        if is_wrong(found) {
            return Found::Differs(word.column());
        }
        place = place_after(found, place);
        new = given(found, word, new);
        column = said.column();
    }
    match item(owed, place, around) {
        Some(_) => Found::Differs(column),
        None => Found::Agrees(new),
    }
}
