//! Reading a description in JSON.

ghost use Rattle.std.specs.Prelude.{◌≡◌, ◌↔◌, ◌<◌, length, Err, false, IsTrue, IfOk, OnOk};
ghost use Rattle.serde_json.specs.View.{view};
ghost use Rattle.coll_lang.specs.Readable.{IsReadable};
ghost use Rattle.coll_lang.specs.declared.fault.Refusal.TheVariants as names;
ghost use Rattle.json_lang.specs.Form.{is_form};
ghost use Rattle.json_lang.specs.LineText.{line_text};
ghost use Rattle.json_lang.specs.Reading.{value_in, described, read_json};
ghost use Rattle.json_lang.specs.Answers.{Holds, Reads};

use crate::fault::{JsonFault, JsonRefusal};
use crate::form::is_form;
use crate::writing::push_all;
use coll_lang::{Description, LONGEST_TEXT, ParseFault, Refusal, Text, parse};
use serde_json::Value;
use std::alloc::Global;

/// The line text of a JSON value: the text of the description language that it stands for. Whether that text describes
/// anything, `parse` says.
///
/// # Errors
///
/// The value isn't of the form, which takes no memory to say; or there was no memory for the text.
pub fn lines_of(alloc: Global, value: &Value) -> Result<Text, JsonFault>
    ensures text { IfOk result (λ t. t ≡ line_text (view value.now)) }
    ensures form { OnOk result (IsTrue (is_form (view value.now))) }
    ensures refused { (result ≡ Err JsonFault.BadForm) ↔ (is_form (view value.now) ≡ false) }
{
    if !is_form(value) {
        return Err(JsonFault::BadForm);
    }
    let mut out = Vec::new(alloc);
    match push_all(&mut out, value) {
        Ok(()) => Ok(Text::of(out)),
        Err(_) => Err(JsonFault::NoMemory),
    }
}

/// The value that the bytes hold.
#[tactic(auto, using(crate::proofs::Read::holds, crate::proofs::Read::holds_none))]
fn value_in(alloc: Global, bytes: &[u8]) -> Result<Value, JsonRefusal>
    ensures { Holds result (value_in bytes.now) }
{
    match Value::from_slice(alloc, bytes) {
        Ok(value) => Ok(value),
        Err(fault) => if fault.is_memory() {
            Err(JsonRefusal::NoMemory)
        } else {
            Err(JsonRefusal::BadJson)
        },
    }
}

/// What a value describes: what its line text describes.
#[tactic(auto, unfolding(crate::specs::Reading::described))]
fn described(alloc: Global, value: &Value) -> Result<Description, JsonRefusal>
    ensures exact { Reads result (described (view value.now)) }
    ensures readable { IfOk result (λ d. IsReadable d) }
{
    let text = match lines_of(alloc, value) {
        Ok(text) => text,
        Err(JsonFault::BadForm) => return Err(JsonRefusal::BadForm),
        Err(JsonFault::NoMemory) => return Err(JsonRefusal::NoMemory),
    };
    match parse(alloc, text.as_slice()) {
        Ok(d) => Ok(d),
        Err(ParseFault::Refused { line, name }) => Err(JsonRefusal::Refused { line, name }),
        Err(ParseFault::NoMemory) => Err(JsonRefusal::NoMemory),
    }
}

/// Reads a description in JSON.
///
/// # Errors
///
/// TooLong with line 0 for more than 1,048,576 bytes, before all else. Then BadJson where the bytes aren't UTF-8 or hold no
/// JSON value, then BadForm, then what `parse` answers on the line text, whose lines its refusals count. NoMemory may come
/// in place of any answer but the first.
#[tactic(auto, unfolding(crate::specs::Reading::read_json))]
pub fn parse_json(alloc: Global, bytes: &[u8]) -> Result<Description, JsonRefusal>
    // Unless memory runs out, it is what reading gives, both ways.
    ensures exact { Reads result (read_json bytes.now) }
    // Whatever memory there is.
    ensures too_long { LONGEST_TEXT < length bytes.now → result ≡ Err (JsonRefusal.Refused 0 names.TooLong) }
    ensures readable { IfOk result (λ d. IsReadable d) }
{
    if bytes.len() > LONGEST_TEXT {
        return Err(JsonRefusal::Refused {
            line: 0,
            name: Refusal::TooLong,
        });
    }
    let value = value_in(alloc, bytes)?;
    described(alloc, &value)
}
