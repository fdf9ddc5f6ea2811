//! The calls of counting events, event queues, indices and descriptors.

ghost use Rattle.std.specs.Prelude.{◌≡◌, IfOk, nat_lt};
ghost use Rattle.ni_model.specs.Calls as calls;
ghost use Rattle.ni_model.specs.Tables.{has_slot};
ghost use Rattle.guarded_ni.specs.Misuses.{unless};
ghost use Rattle.guarded_ni.specs.declared.faults.Misuse.TheVariants.{NoRoom};
ghost use Rattle.log_seats.specs.Answers.{Ends, EndsSome, after, cancels, counts, frees, gone, got, md_of, new, number, ok, tells, told};
ghost use Rattle.log_seats.specs.Answers.{unless_misused};
ghost use Rattle.log_seats.specs.Seats.{handle_if, handle_of};
ghost use Rattle.log_answers.specs.declared.owed.Sort.TheVariants as sorts;

use crate::after::{After, amount, done, fault_word, made, refused, told, word};
use crate::seats::Seat;
use log_answers::{Owed, Sort};
use log_words::Word;
use log_words::call_fields::MdSaid;
use ptl_types::{Count, Descriptor, EqGot, Handle, NiFault, NoMemory};
use std::alloc::Global;

/// Frees a thing; its word names nothing then.
fn freed(seat: &mut Seat, sort: Sort, handle: Handle, answer: Result<(), NiFault>) -> After
    ensures { Ends seat.new result (after (gone sort handle answer seat.old) (told ok answer)) }
{
    match answer {
        Ok(()) => {
            seat.clear(sort, handle);
            told(word(b"ok"))
        }
        Err(fault) => told(fault_word(fault)),
    }
}

/// Frees a counting event.
pub(crate) fn ct_free(seat: &mut Seat, said: &Word) -> After
    ensures { Ends seat.new result (frees sorts.Counter (handle_of sorts.Counter seat.old said.now)
        (calls.ct_free (handle_of sorts.Counter seat.old said.now) seat.old.nic) seat.old) }
{
    let ct = seat.handle(Sort::Counter, said);
    let answer = seat.nic.ct_free(ct);
    freed(seat, Sort::Counter, ct, answer)
}

/// Frees an event queue.
pub(crate) fn eq_free(seat: &mut Seat, said: &Word) -> After
    ensures { Ends seat.new result (frees sorts.Queue (handle_of sorts.Queue seat.old said.now)
        (calls.eq_free (handle_of sorts.Queue seat.old said.now) seat.old.nic) seat.old) }
{
    let eq = seat.handle(Sort::Queue, said);
    let answer = seat.nic.eq_free(eq);
    freed(seat, Sort::Queue, eq, answer)
}

/// Releases a descriptor.
pub(crate) fn md_release(seat: &mut Seat, said: &Word) -> After
    ensures { Ends seat.new result (frees sorts.Descriptor (handle_of sorts.Descriptor seat.old said.now)
        (calls.md_release (handle_of sorts.Descriptor seat.old said.now) seat.old.nic) seat.old) }
{
    let md = seat.handle(Sort::Descriptor, said);
    let answer = seat.nic.md_release(md);
    freed(seat, Sort::Descriptor, md, answer)
}

/// Unlinks an entry.
pub(crate) fn me_unlink(seat: &mut Seat, said: &Word) -> After
    ensures { Ends seat.new result (frees sorts.Entry (handle_of sorts.Entry seat.old said.now)
        (calls.me_unlink (handle_of sorts.Entry seat.old said.now) seat.old.nic) seat.old) }
{
    let me = seat.handle(Sort::Entry, said);
    let answer = seat.nic.me_unlink(me);
    freed(seat, Sort::Entry, me, answer)
}

/// The counts of a counting event.
pub(crate) fn ct_get(seat: &Seat, said: &Word) -> Owed
    ensures { result ≡ told counts (calls.ct_get (handle_of sorts.Counter seat.now said.now) seat.now.nic) }
{
    match seat.nic.ct_get(seat.handle(Sort::Counter, said)) {
        Ok(count) => Owed::Counts(count),
        Err(fault) => fault_word(fault),
    }
}

/// Sets a counting event.
pub(crate) fn ct_set(seat: &mut Seat, said: &Word, to: Count) -> After
    ensures { Ends seat.new result (tells ok (calls.ct_set (handle_of sorts.Counter seat.old said.now) to seat.old.nic) seat.old) }
{
    let ct = seat.handle(Sort::Counter, said);
    told(done(seat.nic.ct_set(ct, to)))
}

/// Adds to a counting event.
pub(crate) fn ct_inc(seat: &mut Seat, said: &Word, by: Count) -> After
    ensures { Ends seat.new result (tells ok (calls.ct_inc (handle_of sorts.Counter seat.old said.now) by seat.old.nic) seat.old) }
{
    let ct = seat.handle(Sort::Counter, said);
    told(done(seat.nic.ct_inc(ct, by)))
}

/// Allocates a counting event.
pub(crate) fn ct_alloc(seat: &mut Seat) -> After
    ensures { EndsSome seat.new result (λ slot. has_slot slot seat.old.nic.cts.live)
        (λ slot. tells (new sorts.Counter) (calls.ct_alloc slot seat.old.nic) seat.old) }
{
    told(made(Sort::Counter, seat.nic.ct_alloc()))
}

/// Cancels the operations of a counting event.
pub(crate) fn ct_cancel(alloc: Global, seat: &mut Seat, said: &Word) -> Result<After, NoMemory>
    ensures { IfOk result (λ a. Ends seat.new a (cancels (handle_of sorts.Counter seat.old said.now) seat.old)) }
{
    let ct = seat.handle(Sort::Counter, said);
    match seat.nic.ct_cancel(ct) {
        Ok(count) => {
            seat.operations.cancel(alloc, ct)?;
            Ok(told(Owed::Amount(u64::from(count))))
        }
        Err(fault) => Ok(told(fault_word(fault))),
    }
}

/// Allocates an event queue.
pub(crate) fn eq_alloc(seat: &mut Seat, room: u32) -> Result<After, NoMemory>
    ensures { IfOk result (λ a. EndsSome seat.new a (λ slot. has_slot slot seat.old.nic.eqs.live)
        (λ slot. unless_misused (unless (nat_lt 0 room) NoRoom) seat.old (tells (new sorts.Queue)
        (calls.eq_alloc slot room seat.old.nic) seat.old))) }
{
    match guarded_ni::eq_alloc(&mut seat.nic, room) {
        Ok(eq) => Ok(told(Owed::New(Sort::Queue, eq))),
        Err(fault) => Ok(told(refused(fault)?)),
    }
}

/// What became of asking a queue.
fn event_of(answer: Result<EqGot, NiFault>) -> Owed
    ensures { result ≡ told got answer }
{
    match answer {
        Ok(EqGot::Got(event)) => Owed::Event(event),
        Ok(EqGot::Empty) => word(b"empty"),
        Ok(EqGot::Dropped) => word(b"dropped"),
        Err(fault) => fault_word(fault),
    }
}

/// Takes an event.
pub(crate) fn eq_get(seat: &mut Seat, said: &Word) -> After
    ensures { Ends seat.new result (tells got (calls.eq_get (handle_of sorts.Queue seat.old said.now) seat.old.nic) seat.old) }
{
    let eq = seat.handle(Sort::Queue, said);
    told(event_of(seat.nic.eq_get(eq)))
}

/// A descriptor with the handles that its words name.
fn md_of(seat: &Seat, said: &MdSaid) -> Descriptor
    ensures { result ≡ md_of seat.now said.now }
{
    Descriptor {
        eq: seat.handle_if(Sort::Queue, &said.eq),
        ct: seat.handle_if(Sort::Counter, &said.ct),
        ..said.md
    }
}

/// Binds a descriptor.
pub(crate) fn md_bind(seat: &mut Seat, said: &MdSaid) -> After
    ensures { EndsSome seat.new result (λ slot. has_slot slot seat.old.nic.mds.live)
        (λ slot. tells (new sorts.Descriptor) (calls.md_bind slot (md_of seat.old said.now) seat.old.nic) seat.old) }
{
    let md = md_of(seat, said);
    told(made(Sort::Descriptor, seat.nic.md_bind(md)))
}

/// How many answers a descriptor awaits.
pub(crate) fn awaits(seat: &Seat, said: &Word) -> Owed
    ensures { result ≡ told number (calls.awaits (handle_of sorts.Descriptor seat.now said.now) seat.now.nic) }
{
    amount(seat.nic.awaits(seat.handle(Sort::Descriptor, said)))
}

/// Allocates an index.
pub(crate) fn pt_alloc(seat: &mut Seat, index: u32, eq: &Option<Word>) -> After
    ensures { Ends seat.new result (tells ok (calls.pt_alloc index (handle_if sorts.Queue seat.old eq.now) seat.old.nic) seat.old) }
{
    let eq = seat.handle_if(Sort::Queue, eq);
    told(done(seat.nic.pt_alloc(index, eq)))
}

/// Frees an index.
pub(crate) fn pt_free(seat: &mut Seat, index: u32) -> After
    ensures { Ends seat.new result (tells ok (calls.pt_free index seat.old.nic) seat.old) }
{
    told(done(seat.nic.pt_free(index)))
}
