//! The fields that are owed, by their keys.

ghost use Rattle.std.specs.Prelude.{◌≡◌};
ghost use Rattle.std.specs.Option.{option_copied};
ghost use Rattle.log_answers.specs.Items.{event_fields, field_in, flag, header_fields, home_item, home_rank, message_fields, name};
ghost use Rattle.log_answers.specs.Items.{operation_fields, unexpected_fields};
ghost use Rattle.log_answers.specs.declared.owed.Item.TheVariants as items;

use crate::owed::{Item, Knows, Text};
use crate::texts::{ack_word, kind_word, op_word, swap_word, type_word};
use coll_text::is;
use ptl_types::{Event, Header, UnexpectedHeader};

/// A word of a thing, where it has one.
pub(crate) fn name<'a>(word: Option<&'a [u8]>) -> Item<'a>
    ensures { result ≡ name (option_copied word.entry) }
{
    match word {
        Some(word) => Item::Exact(Text::of(word)),
        None => Item::Nameless,
    }
}

/// Whether something holds, as a number.
fn flag<'a>(holds: bool) -> Item<'a>
    ensures { result ≡ flag holds }
{
    Item::Amount(if holds { 1 } else { 0 })
}

/// This word.
fn exact<'a>(word: &'a [u8]) -> Item<'a>
    ensures { result ≡ items.Exact word.now }
{
    Item::Exact(Text::of(word))
}

/// A field of an event.
pub(crate) fn event_field<'a>(event: &Event, key: &[u8]) -> Option<Item<'a>>
    ensures { result ≡ field_in key.now (event_fields event.now) }
{
    if is(key, b"source") {
        Some(Item::Amount(u64::from(event.source)))
    } else if is(key, b"pt") {
        Some(Item::Amount(u64::from(event.pt)))
    } else if is(key, b"bits") {
        Some(Item::Amount(event.match_bits))
    } else if is(key, b"data") {
        Some(Item::Amount(event.hdr_data))
    } else if is(key, b"requested") {
        Some(Item::Amount(event.requested))
    } else if is(key, b"delivered") {
        Some(Item::Amount(event.delivered))
    } else if is(key, b"place") {
        Some(Item::Amount(event.place))
    } else if is(key, b"ok") {
        Some(flag(event.ok))
    } else {
        None
    }
}

/// The descriptor that awaits the answer, by the word that it has at its rank.
fn home<'a, K: Knows>(header: &Header, around: &'a K) -> Item<'a>
    ensures { result ≡ home_item (K.known around.now) (home_rank header.now) header.now.home }
{
    let rank = if header.kind.is_answer() {
        header.target
    } else {
        header.source
    };
    match header.home {
        Some(md) => name(around.descriptor_word(rank, md)),
        None => exact(b"-"),
    }
}

/// A field of a header that says what is done with the elements, or what is answered.
fn operation_field<'a, K: Knows>(header: &Header, key: &[u8], around: &'a K) -> Option<Item<'a>>
    ensures { result ≡ field_in key.now (operation_fields (K.known around.now) header.now) }
{
    if is(key, b"op") {
        Some(exact(op_word(header.op)))
    } else if is(key, b"swap") {
        Some(exact(swap_word(header.swap)))
    } else if is(key, b"type") {
        Some(exact(type_word(header.ty)))
    } else if is(key, b"operand") {
        Some(Item::Amount(header.operand))
    } else if is(key, b"ack") {
        Some(exact(ack_word(header.ack)))
    } else if is(key, b"home") {
        Some(home(header, around))
    } else if is(key, b"home_offset") {
        Some(Item::Amount(header.home_offset))
    } else if is(key, b"ok") {
        Some(flag(header.ok))
    } else {
        None
    }
}

/// A field of a header.
fn header_field<'a, K: Knows>(header: &Header, key: &[u8], around: &'a K) -> Option<Item<'a>>
    ensures { result ≡ field_in key.now (header_fields (K.known around.now) header.now) }
{
    if is(key, b"kind") {
        Some(exact(kind_word(header.kind)))
    } else if is(key, b"source") {
        Some(Item::Amount(u64::from(header.source)))
    } else if is(key, b"target") {
        Some(Item::Amount(u64::from(header.target)))
    } else if is(key, b"pt") {
        Some(Item::Amount(u64::from(header.pt)))
    } else if is(key, b"bits") {
        Some(Item::Amount(header.match_bits))
    } else if is(key, b"offset") {
        Some(Item::Amount(header.offset))
    } else if is(key, b"length") {
        Some(Item::Amount(header.length))
    } else if is(key, b"data") {
        Some(Item::Amount(header.hdr_data))
    } else {
        operation_field(header, key, around)
    }
}

/// A field of an unexpected header.
pub(crate) fn unexpected_field<'a, K: Knows>(
    found: &UnexpectedHeader,
    key: &[u8],
    around: &'a K,
) -> Option<Item<'a>>
    ensures { result ≡ field_in key.now (unexpected_fields (K.known around.now) found.now) }
{
    if is(key, b"place") {
        Some(Item::Amount(found.place))
    } else if is(key, b"delivered") {
        Some(Item::Amount(found.delivered))
    } else if is(key, b"entry") {
        Some(name(around.entry_word(found.entry)))
    } else {
        header_field(&found.header, key, around)
    }
}

/// A field of a message under way.
pub(crate) fn message_field<'a, K: Knows>(
    header: &Header,
    key: &[u8],
    around: &'a K,
) -> Option<Item<'a>>
    ensures { result ≡ field_in key.now (message_fields (K.known around.now) header.now) }
{
    if is(key, b"bytes") {
        Some(Item::Raw(Text::of(around.message())))
    } else {
        header_field(header, key, around)
    }
}
