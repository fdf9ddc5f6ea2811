//! What is owed, as a verdict tells it.

ghost use Rattle.std.specs.Prelude.{◌≡◌, ◌++◌, ◌∷◌, List, ℕ, map, OnOk};
ghost use Rattle.std.specs.List.{flat_map};
ghost use Rattle.std.specs.Fmt.{decimal};
ghost use Rattle.log_answers.specs.Texts.{hex_digits, hex_word};
ghost use Rattle.log_answers.specs.Items.{field_in, fields_owed};
ghost use Rattle.log_answers.specs.Printing.{field_text, item_text, keys_owed, owed_text, word_text};

use crate::hexes::hex_char;
use crate::items::{Place, field, item};
use crate::owed::{Item, Knows, Owed};
use itoa::Buffer;
use std::alloc::AllocError;

/// The keys of an event's fields.
const EVENT_KEYS: [&[u8]; 8] = [
    b"source",
    b"pt",
    b"bits",
    b"data",
    b"requested",
    b"delivered",
    b"place",
    b"ok",
];

/// The keys of a header's fields, and behind them those of an unexpected header and of a message.
const HEADER_KEYS: [&[u8]; 20] = [
    b"kind",
    b"source",
    b"target",
    b"pt",
    b"bits",
    b"offset",
    b"length",
    b"data",
    b"op",
    b"swap",
    b"type",
    b"operand",
    b"ack",
    b"home",
    b"home_offset",
    b"ok",
    b"place",
    b"delivered",
    b"entry",
    b"bytes",
];

/// Adds a number.
fn push_number(out: &mut Vec<u8>, n: u64) -> Result<(), AllocError>
    ensures { OnOk result (out.new.items ≡ out.old.items ++ decimal n) }
{
    let mut buffer = Buffer::new();
    out.extend_from_slice(buffer.format(n).as_bytes())
}

/// Adds the digits of bytes.
fn push_digits(out: &mut Vec<u8>, bytes: &[u8]) -> Result<(), AllocError>
    ensures { OnOk result (out.new.items ≡ out.old.items ++ hex_digits bytes.now) }
{
    for b in bytes {
        out.push(hex_char(*b / 16))?;
        out.push(hex_char(*b % 16))?;
    }
    Ok(())
}

/// Adds bytes in hexadecimal.
fn push_hex(out: &mut Vec<u8>, bytes: &[u8]) -> Result<(), AllocError>
    ensures { OnOk result (out.new.items ≡ out.old.items ++ hex_word bytes.now) }
{
    if bytes.is_empty() {
        out.push(b'-')?;
        return Ok(());
    }
    push_digits(out, bytes)
}

/// Adds what is owed as one word.
fn push_item(out: &mut Vec<u8>, item: &Item) -> Result<(), AllocError>
    ensures { OnOk result (out.new.items ≡ out.old.items ++ item_text item.now) }
{
    match item {
        Item::Exact(text) => out.extend_from_slice(text.bytes()),
        Item::Amount(n) => push_number(out, *n),
        Item::Raw(bytes) => push_hex(out, bytes.bytes()),
        Item::SomeReady => out.extend_from_slice(b"READY"),
        Item::NewThing(_) => out.extend_from_slice(b"HANDLE"),
        Item::NewMessage => out.extend_from_slice(b"MESSAGE"),
        Item::Nameless => out.extend_from_slice(b"?"),
    }
}

/// Adds a space and what is owed as a word, where it is.
fn push_word(out: &mut Vec<u8>, item: &Option<Item>) -> Result<(), AllocError>
    ensures { OnOk result (out.new.items ≡ out.old.items ++ word_text item.now) }
{
    match item {
        Some(item) => {
            out.push(b' ')?;
            push_item(out, item)
        }
        None => Ok(()),
    }
}

/// Adds a space and what is owed as a field, where it is.
fn push_field(out: &mut Vec<u8>, key: &[u8], item: &Option<Item>) -> Result<(), AllocError>
    ensures { OnOk result (out.new.items ≡ out.old.items ++ field_text key.now item.now) }
{
    match item {
        Some(item) => {
            out.push(b' ')?;
            out.extend_from_slice(key)?;
            out.push(b'=')?;
            push_item(out, item)
        }
        None => Ok(()),
    }
}

/// The keys of the fields that are owed.
fn keys_owed(owed: &Owed) -> &'static [&'static [u8]]
    ensures { map (λ key. key.now) result.now ≡ keys_owed owed.now }
{
    match owed {
        Owed::Event(_) => &EVENT_KEYS,
        Owed::Found(_) => &HEADER_KEYS,
        Owed::Taken(_) => &HEADER_KEYS,
        Owed::Told(_) => &HEADER_KEYS,
        _ => &[],
    }
}

/// Adds the fields of these keys.
fn push_fields<K: Knows>(
    out: &mut Vec<u8>,
    keys: &[&[u8]],
    owed: &Owed,
    around: &K,
) -> Result<(), AllocError>
    ensures { OnOk result (out.new.items ≡ out.old.items
        ++ flat_map (λ key. field_text key.now (field_in key.now (fields_owed (K.known around.now) owed.now))) keys.now) }
{
    for key in keys {
        let item = field(owed, key, around);
        push_field(out, key, &item)?;
    }
    Ok(())
}

/// Adds what is owed, each word behind a space.
///
/// # Errors
///
/// There was no memory; a beginning may stand.
pub fn push_owed<K: Knows>(out: &mut Vec<u8>, owed: &Owed, around: &K) -> Result<(), AllocError>
    ensures { OnOk result (out.new.items ≡ out.old.items ++ owed_text (K.known around.now) owed.now) }
{
    let first = item(owed, Place::First, around);
    push_word(out, &first)?;
    let second = item(owed, Place::Second, around);
    push_word(out, &second)?;
    push_fields(out, keys_owed(owed), owed, around)?;
    Ok(())
}
