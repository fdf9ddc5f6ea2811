//! What is owed word by word.

ghost use Rattle.std.specs.Prelude.{◌≡◌};
ghost use Rattle.log_answers.specs.Items.{field_in, fields_owed, first_word, second_word, word_owed};

use crate::fields::{event_field, message_field, name, unexpected_field};
use crate::owed::{Item, Knows, Owed, Sort, Text};
use crate::texts::{event_word, outcome_word};

/// A place among the words that stand without a key.
#[derive(Clone, Copy, Debug, PartialEq, Eq)]
pub enum Place {
    /// The first.
    First,
    /// The second.
    Second,
    /// Any further one; none is ever owed there.
    Behind,
}

/// The first word.
fn first_word<'a, K: Knows>(owed: &'a Owed, around: &'a K) -> Option<Item<'a>>
    ensures { result ≡ first_word (K.known around.now) owed.now }
{
    match owed {
        Owed::Word(word) => Some(Item::Exact(Text::of(word.bytes()))),
        Owed::Amount(n) => Some(Item::Amount(*n)),
        Owed::Counts(count) => Some(Item::Amount(count.success)),
        Owed::Part(start, length) => Some(Item::Raw(Text::of(around.part(*start, *length)))),
        Owed::New(sort, _) => Some(Item::NewThing(*sort)),
        Owed::Linked(_) => Some(Item::Exact(Text::of(b"linked"))),
        Owed::Message => Some(Item::NewMessage),
        Owed::Delivered(outcome, _) => Some(Item::Exact(Text::of(outcome_word(*outcome)))),
        Owed::Event(event) => Some(Item::Exact(Text::of(event_word(event.kind)))),
        Owed::Found(_) => Some(Item::Exact(Text::of(b"found"))),
        Owed::Taken(_) => Some(Item::Exact(Text::of(b"taken"))),
        Owed::Told(_) => None,
        Owed::Ready => Some(Item::SomeReady),
        Owed::Operation(number) => Some(name(around.operation_word(*number))),
    }
}

/// The second word.
fn second_word<'a>(owed: &Owed) -> Option<Item<'a>>
    ensures { result ≡ second_word owed.now }
{
    match owed {
        Owed::Counts(count) => Some(Item::Amount(count.failure)),
        Owed::Linked(_) => Some(Item::NewThing(Sort::Entry)),
        Owed::Delivered(_, true) => Some(Item::NewMessage),
        _ => None,
    }
}

/// What is owed as the word at a place.
pub fn item<'a, K: Knows>(owed: &'a Owed, place: Place, around: &'a K) -> Option<Item<'a>>
    ensures { result ≡ word_owed (K.known around.now) owed.now place }
{
    match place {
        Place::First => first_word(owed, around),
        Place::Second => second_word(owed),
        Place::Behind => None,
    }
}

/// What is owed behind the `=` of a field of this key.
pub fn field<'a, K: Knows>(owed: &Owed, key: &[u8], around: &'a K) -> Option<Item<'a>>
    ensures { result ≡ field_in key.now (fields_owed (K.known around.now) owed.now) }
{
    match owed {
        Owed::Event(event) => event_field(event, key),
        Owed::Found(header) => unexpected_field(header, key, around),
        Owed::Taken(header) => unexpected_field(header, key, around),
        Owed::Told(header) => message_field(header, key, around),
        _ => None,
    }
}
