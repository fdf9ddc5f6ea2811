//! The calls of entries and headers, and of the region.

ghost use Rattle.std.specs.Prelude.{◌≡◌, ◌+◌, IfOk, length, nat_lt, not};
ghost use Rattle.ni_model.specs.Calls as calls;
ghost use Rattle.match_lists.specs.unexpected.Places.{header_at};
ghost use Rattle.log_seats.specs.Bytes.{bytes_in};
ghost use Rattle.log_seats.specs.Answers.{Ends, EndsSome, after, appended, entry_of, found, reads, tells, told, writes};

use crate::after::{After, fault_word, misuse_word, told, word};
use crate::bytes::bytes_in;
use crate::seats::Seat;
use guarded_ni::Misuse;
use log_answers::{Owed, Sort};
use log_words::Word;
use log_words::call_fields::EntrySaid;
use ptl_types::{Appended, Entry, List, NiFault, NoMemory, UnexpectedHeader};
use std::alloc::Global;

/// The entry that a log says, with the counting event that its word names.
fn entry_of(seat: &Seat, said: &EntrySaid) -> Entry
    ensures { result ≡ entry_of seat.now said.now }
{
    Entry {
        ct: seat.handle_if(Sort::Counter, &said.ct),
        ..said.entry
    }
}

/// A header, where there is one.
fn found(header: Option<UnexpectedHeader>) -> Owed
    ensures { result ≡ found header }
{
    match header {
        Some(header) => Owed::Found(header),
        None => word(b"none"),
    }
}

/// What became of an append.
fn appended(answer: Result<Appended, NiFault>) -> Owed
    ensures { result ≡ told appended answer }
{
    match answer {
        Ok(Appended::Linked(me)) => Owed::Linked(me),
        Ok(Appended::Consumed(header)) => Owed::Taken(header),
        Err(fault) => fault_word(fault),
    }
}

/// What became of a search.
fn searched(answer: Result<Option<UnexpectedHeader>, NiFault>) -> Owed
    ensures { result ≡ told found answer }
{
    match answer {
        Ok(header) => found(header),
        Err(fault) => fault_word(fault),
    }
}

/// Appends an entry.
pub(crate) fn me_append(seat: &mut Seat, index: u32, list: List, said: &EntrySaid) -> After
    ensures { EndsSome seat.new result (calls.entry_taken seat.old.nic.indices seat.new.nic.headers.unexpected)
        (λ slot. tells appended (calls.me_append slot index list (entry_of seat.old said.now) seat.old.nic) seat.old) }
{
    let entry = entry_of(seat, said);
    told(appended(seat.nic.me_append(index, list, entry)))
}

/// Searches the headers.
pub(crate) fn me_search(seat: &mut Seat, index: u32, deletes: bool, said: &EntrySaid) -> After
    ensures { Ends seat.new result (tells found (calls.me_search index (entry_of seat.old said.now) deletes seat.old.nic) seat.old) }
{
    let entry = entry_of(seat, said);
    told(searched(seat.nic.me_search(index, &entry, deletes)))
}

/// The header at a place.
pub(crate) fn header(seat: &Seat, index: u32, place: u32) -> Owed
    ensures { result ≡ found (header_at index place seat.now.nic.headers.unexpected) }
{
    found(seat.nic.header(index, place).copied())
}

/// Whether a part of the region lies in it.
fn lies_inside(seat: &Seat, start: u64, count: u64) -> bool
    ensures { result ≡ not (nat_lt (length seat.now.nic.memory) (start + count)) }
{
    let size = seat.nic.memory().len() as u64;
    start <= size && count <= size - start
}

/// Reads a part of the region.
pub(crate) fn read(seat: &Seat, start: u64, length: u64) -> Owed
    ensures { after seat.now result ≡ reads start length seat.now }
{
    if lies_inside(seat, start, length) {
        Owed::Part(start, length)
    } else {
        misuse_word(Misuse::OutsideRegion)
    }
}

/// Writes a part of the region.
pub(crate) fn write(
    alloc: Global,
    seat: &mut Seat,
    start: u64,
    said: &Word,
) -> Result<After, NoMemory>
    ensures { IfOk result (λ a. Ends seat.new a (writes start (bytes_in said.now.text) seat.old)) }
{
    let bytes = bytes_in(alloc, said.text())?;
    match guarded_ni::write_memory(&mut seat.nic, start, bytes.as_slice()) {
        Ok(()) => Ok(told(word(b"ok"))),
        Err(misuse) => Ok(told(misuse_word(misuse))),
    }
}
