//! The calls: their words up to `->`.

ghost use Rattle.std.specs.Prelude.{◌≡◌};
ghost use Rattle.log_words.specs.Reading.{yielded};
ghost use Rattle.log_lines.specs.Calls.{call_next, call_of, ct_inc_next, ct_set_next, entry_next, header_next, md_bind_next};
ghost use Rattle.log_lines.specs.Calls.{me_append_next, me_search_next, named_next, numbered_next, open_next, other_call, pt_alloc_next};
ghost use Rattle.log_lines.specs.Calls.{read_next, starting_next, table_call, triggered_next, two_names_next, write_next};

use crate::calls::{Call, NameCall, NumberCall};
use crate::deeds::{counted_in, deed_in, start_in};
use crate::naming::{called_on, called_with, name_call, number_call, plain_call};
use coll_text::is;
use log_words::call_fields::{
    EntrySaid, StartName, deletes_in, list_in, plain_entry, plain_md, plain_opening, plain_queue,
    start_named,
};
use log_words::{Flaw, LineFault, Rest, Word, at, fields_of};

/// Limits and a region.
#[tactic(auto, unfolding(crate::specs::Calls::open_next))]
fn open_in<'a>(words: &mut Rest<'a>) -> Result<Call<'a>, LineFault>
    ensures { yielded result words.new ≡ open_next words.old }
{
    match fields_of(plain_opening(), words) {
        Ok(opening) => Ok(Call::Open(opening)),
        Err(fault) => Err(fault),
    }
}

/// An index, and the event queue of its own.
#[tactic(auto, unfolding(crate::specs::Calls::pt_alloc_next))]
fn pt_alloc_in<'a>(words: &mut Rest<'a>) -> Result<Call<'a>, LineFault>
    ensures { yielded result words.new ≡ pt_alloc_next words.old }
{
    let index = match words.small() {
        Ok(index) => index,
        Err(fault) => return Err(fault),
    };
    match fields_of(plain_queue(), words) {
        Ok(said) => Ok(Call::PtAlloc(index, said.eq)),
        Err(fault) => Err(fault),
    }
}

/// A memory descriptor.
#[tactic(auto, unfolding(crate::specs::Calls::md_bind_next))]
fn md_bind_in<'a>(words: &mut Rest<'a>) -> Result<Call<'a>, LineFault>
    ensures { yielded result words.new ≡ md_bind_next words.old }
{
    match fields_of(plain_md(), words) {
        Ok(md) => Ok(Call::MdBind(md)),
        Err(fault) => Err(fault),
    }
}

/// The fields of a match entry.
#[tactic(auto, unfolding(crate::specs::Calls::entry_next))]
fn entry_in<'a>(words: &mut Rest<'a>) -> Result<EntrySaid<'a>, LineFault>
    ensures { yielded result words.new ≡ entry_next words.old }
{
    fields_of(plain_entry(), words)
}

/// An index, a list and an entry.
#[tactic(auto, unfolding(crate::specs::Calls::me_append_next))]
fn me_append_in<'a>(words: &mut Rest<'a>) -> Result<Call<'a>, LineFault>
    ensures { yielded result words.new ≡ me_append_next words.old }
{
    let index = match words.small() {
        Ok(index) => index,
        Err(fault) => return Err(fault),
    };
    let list = match list_in(words) {
        Ok(list) => list,
        Err(fault) => return Err(fault),
    };
    match entry_in(words) {
        Ok(entry) => Ok(Call::MeAppend(index, list, entry)),
        Err(fault) => Err(fault),
    }
}

/// An index, whether what is found is deleted, and an entry.
#[tactic(auto, unfolding(crate::specs::Calls::me_search_next))]
fn me_search_in<'a>(words: &mut Rest<'a>) -> Result<Call<'a>, LineFault>
    ensures { yielded result words.new ≡ me_search_next words.old }
{
    let index = match words.small() {
        Ok(index) => index,
        Err(fault) => return Err(fault),
    };
    let deletes = match deletes_in(words) {
        Ok(deletes) => deletes,
        Err(fault) => return Err(fault),
    };
    match entry_in(words) {
        Ok(entry) => Ok(Call::MeSearch(index, deletes, entry)),
        Err(fault) => Err(fault),
    }
}

/// An index and a place.
#[tactic(auto, unfolding(crate::specs::Calls::header_next))]
fn header_in<'a>(words: &mut Rest<'a>) -> Result<Call<'a>, LineFault>
    ensures { yielded result words.new ≡ header_next words.old }
{
    let index = match words.small() {
        Ok(index) => index,
        Err(fault) => return Err(fault),
    };
    match words.small() {
        Ok(place) => Ok(Call::Header(index, place)),
        Err(fault) => Err(fault),
    }
}

/// What a counting event is set to.
#[tactic(auto, unfolding(crate::specs::Calls::ct_set_next))]
fn ct_set_in<'a>(words: &mut Rest<'a>) -> Result<Call<'a>, LineFault>
    ensures { yielded result words.new ≡ ct_set_next words.old }
{
    match counted_in(words) {
        Ok(counted) => {
            let (ct, to) = counted;
            Ok(Call::CtSet(ct, to))
        }
        Err(fault) => Err(fault),
    }
}

/// What a counting event counts by.
#[tactic(auto, unfolding(crate::specs::Calls::ct_inc_next))]
fn ct_inc_in<'a>(words: &mut Rest<'a>) -> Result<Call<'a>, LineFault>
    ensures { yielded result words.new ≡ ct_inc_next words.old }
{
    match counted_in(words) {
        Ok(counted) => {
            let (ct, by) = counted;
            Ok(Call::CtInc(ct, by))
        }
        Err(fault) => Err(fault),
    }
}

/// The names of a triggered operation and of its counting event.
#[tactic(auto, unfolding(crate::specs::Calls::two_names_next))]
fn two_names_in<'a>(words: &mut Rest<'a>) -> Result<(Word<'a>, Word<'a>), LineFault>
    ensures { yielded result words.new ≡ two_names_next words.old }
{
    let first = match words.name() {
        Ok(first) => first,
        Err(fault) => return Err(fault),
    };
    match words.name() {
        Ok(second) => Ok((first, second)),
        Err(fault) => Err(fault),
    }
}

/// A triggered operation.
#[tactic(auto, unfolding(crate::specs::Calls::triggered_next))]
fn triggered_in<'a>(words: &mut Rest<'a>) -> Result<Call<'a>, LineFault>
    ensures { yielded result words.new ≡ triggered_next words.old }
{
    let (name, ct) = match two_names_in(words) {
        Ok(names) => names,
        Err(fault) => return Err(fault),
    };
    let threshold = match words.amount() {
        Ok(threshold) => threshold,
        Err(fault) => return Err(fault),
    };
    match deed_in(words) {
        Ok(deed) => Ok(Call::Triggered(name, ct, threshold, deed)),
        Err(fault) => Err(fault),
    }
}

/// A place in the region, and a length.
#[tactic(auto, unfolding(crate::specs::Calls::read_next))]
fn read_in<'a>(words: &mut Rest<'a>) -> Result<Call<'a>, LineFault>
    ensures { yielded result words.new ≡ read_next words.old }
{
    let start = match words.amount() {
        Ok(start) => start,
        Err(fault) => return Err(fault),
    };
    match words.amount() {
        Ok(length) => Ok(Call::Read(start, length)),
        Err(fault) => Err(fault),
    }
}

/// A place in the region, and bytes.
#[tactic(auto, unfolding(crate::specs::Calls::write_next))]
fn write_in<'a>(words: &mut Rest<'a>) -> Result<Call<'a>, LineFault>
    ensures { yielded result words.new ≡ write_next words.old }
{
    let start = match words.amount() {
        Ok(start) => start,
        Err(fault) => return Err(fault),
    };
    match words.bytes() {
        Ok(bytes) => Ok(Call::Write(start, bytes)),
        Err(fault) => Err(fault),
    }
}

/// A call of counting events, triggered operations or the region.
#[tactic(auto, unfolding(crate::specs::Calls::other_call))]
fn other_call<'a>(word: &Word<'a>, words: &mut Rest<'a>) -> Result<Call<'a>, LineFault>
    ensures { yielded result words.new ≡ other_call word.now words.old }
{
    let text = word.text();
    if is(text, b"ct_inc") {
        return ct_inc_in(words);
    }
    if is(text, b"ct_set") {
        return ct_set_in(words);
    }
    if is(text, b"triggered") {
        return triggered_in(words);
    }
    if is(text, b"read") {
        return read_in(words);
    }
    if is(text, b"write") {
        return write_in(words);
    }
    Err(at(word.column(), Flaw::BadCall))
}

/// A call of interfaces, indices, descriptors or entries, or another.
#[tactic(auto, unfolding(crate::specs::Calls::table_call))]
fn table_call<'a>(word: &Word<'a>, words: &mut Rest<'a>) -> Result<Call<'a>, LineFault>
    ensures { yielded result words.new ≡ table_call word.now words.old }
{
    let text = word.text();
    if is(text, b"open") {
        return open_in(words);
    }
    if is(text, b"pt_alloc") {
        return pt_alloc_in(words);
    }
    if is(text, b"md_bind") {
        return md_bind_in(words);
    }
    if is(text, b"me_append") {
        return me_append_in(words);
    }
    if is(text, b"me_search") {
        return me_search_in(words);
    }
    if is(text, b"header") {
        return header_in(words);
    }
    other_call(word, words)
}

/// A call of a name.
#[tactic(auto, unfolding(crate::specs::Calls::named_next))]
fn named_in<'a>(call: NameCall, words: &mut Rest<'a>) -> Result<Call<'a>, LineFault>
    ensures { yielded result words.new ≡ named_next call words.old }
{
    match words.name() {
        Ok(name) => Ok(called_on(call, name)),
        Err(fault) => Err(fault),
    }
}

/// A call of a number.
#[tactic(auto, unfolding(crate::specs::Calls::numbered_next))]
fn numbered_in<'a>(call: NumberCall, words: &mut Rest<'a>) -> Result<Call<'a>, LineFault>
    ensures { yielded result words.new ≡ numbered_next call words.old }
{
    match words.small() {
        Ok(n) => Ok(called_with(call, n)),
        Err(fault) => Err(fault),
    }
}

/// A start.
#[tactic(auto, unfolding(crate::specs::Calls::starting_next))]
fn starting_in<'a>(name: StartName, words: &mut Rest<'a>) -> Result<Call<'a>, LineFault>
    ensures { yielded result words.new ≡ starting_next name words.old }
{
    match start_in(name, words) {
        Ok(deed) => Ok(Call::Start(deed)),
        Err(fault) => Err(fault),
    }
}

/// The call that this word begins.
#[tactic(auto, unfolding(crate::specs::Calls::call_of))]
fn call_of<'a>(word: &Word<'a>, words: &mut Rest<'a>) -> Result<Call<'a>, LineFault>
    ensures { yielded result words.new ≡ call_of word.now words.old }
{
    let text = word.text();
    if let Some(name) = start_named(text) {
        return starting_in(name, words);
    }
    if let Some(call) = name_call(text) {
        return named_in(call, words);
    }
    if let Some(call) = plain_call(text) {
        return Ok(call);
    }
    if let Some(call) = number_call(text) {
        return numbered_in(call, words);
    }
    table_call(word, words)
}

/// The call that the next words are.
#[tactic(auto, unfolding(crate::specs::Calls::call_next))]
pub(crate) fn call_in<'a>(words: &mut Rest<'a>) -> Result<Call<'a>, LineFault>
    ensures { yielded result words.new ≡ call_next words.old }
{
    match words.word() {
        Ok(word) => call_of(&word, words),
        Err(fault) => Err(fault),
    }
}
