//! What each call of one interface does, and what is owed as its answer.

ghost use Rattle.std.specs.Prelude.{◌≡◌, IfOk};
ghost use Rattle.log_seats.specs.Answers.{Answers, Ends, EntryAnswers, TableAnswers, arrived, left};

use crate::after::{After, misuse_word, told, word, yes};
use crate::entries::{header, me_append, me_search, read, write};
use crate::operations::{fire, is_ready, lane_of, ready, ready_at};
use crate::seats::Seat;
use crate::starts::{start, triggered};
use crate::tables::{
    awaits, ct_alloc, ct_cancel, ct_free, ct_get, ct_inc, ct_set, eq_alloc, eq_free, eq_get,
    md_bind, md_release, me_unlink, pt_alloc, pt_free,
};
use log_answers::Owed;
use log_lines::Call;
use ptl_types::{Message, NoMemory};
use std::alloc::Global;

/// A call of counting events, queues, indices or descriptors.
#[tactic(auto, unfolding(crate::specs::Answers::TableAnswers))]
fn table_answer(alloc: Global, seat: &mut Seat, call: &Call) -> Result<After, NoMemory>
    ensures { IfOk result (λ a. TableAnswers call.now seat.old (left seat.new a)) }
{
    match call {
        Call::PtAlloc(index, eq) => Ok(pt_alloc(seat, *index, eq)),
        Call::PtFree(index) => Ok(pt_free(seat, *index)),
        Call::CtAlloc => Ok(ct_alloc(seat)),
        Call::CtFree(ct) => Ok(ct_free(seat, ct)),
        Call::CtSet(ct, to) => Ok(ct_set(seat, ct, *to)),
        Call::CtInc(ct, by) => Ok(ct_inc(seat, ct, *by)),
        Call::CtCancel(ct) => ct_cancel(alloc, seat, ct),
        Call::EqAlloc(room) => eq_alloc(seat, *room),
        Call::EqFree(eq) => Ok(eq_free(seat, eq)),
        Call::EqGet(eq) => Ok(eq_get(seat, eq)),
        Call::MdBind(md) => Ok(md_bind(seat, md)),
        Call::MdRelease(md) => Ok(md_release(seat, md)),
        _ => Ok(told(word(b""))),
    }
}

/// A call of entries, operations or the region, or another that changes something.
#[tactic(auto, unfolding(crate::specs::Answers::EntryAnswers))]
fn entry_answer(alloc: Global, seat: &mut Seat, call: &Call) -> Result<After, NoMemory>
    ensures { IfOk result (λ a. EntryAnswers call.now seat.old (left seat.new a)) }
{
    match call {
        Call::MeAppend(index, list, entry) => Ok(me_append(seat, *index, *list, entry)),
        Call::MeUnlink(me) => Ok(me_unlink(seat, me)),
        Call::MeSearch(index, deletes, entry) => Ok(me_search(seat, *index, *deletes, entry)),
        Call::Start(deed) => start(seat, deed),
        Call::Triggered(name, ct, threshold, deed) => {
            triggered(alloc, seat, name, ct, *threshold, deed)
        },
        Call::Fire(name) => Ok(fire(seat, name)),
        Call::Write(start, bytes) => write(alloc, seat, *start, bytes),
        _ => table_answer(alloc, seat, call),
    }
}

/// Makes a call of an interface that is open, but for `open` and `deliver`.
#[tactic(auto, unfolding(crate::specs::Answers::Answers))]
pub fn answer(alloc: Global, seat: &mut Seat, call: &Call) -> Result<After, NoMemory>
    ensures { IfOk result (λ a. Answers call.now seat.old (left seat.new a)) }
{
    let owed = match call {
        Call::CtGet(ct) => ct_get(seat, ct),
        Call::Awaits(md) => awaits(seat, md),
        Call::AwaitsAny => yes(seat.nic.awaits_any()),
        Call::Headers => Owed::Amount(seat.nic.headers().len() as u64),
        Call::Header(index, place) => header(seat, *index, *place),
        Call::IsReady(name) => is_ready(seat, name),
        Call::Ready => ready(seat),
        Call::ReadyCount => Owed::Amount(u64::from(seat.nic.ready_count())),
        Call::ReadyAt(place) => ready_at(seat, *place),
        Call::ReadyCountTo(rank) => Owed::Amount(u64::from(seat.nic.ready_count_to(*rank))),
        Call::LaneOf(name) => lane_of(seat, name),
        Call::Read(start, length) => read(seat, *start, *length),
        Call::Pending => Owed::Amount(u64::from(seat.nic.pending())),
        Call::Drops => Owed::Amount(seat.nic.drops()),
        Call::Violations => Owed::Amount(seat.nic.violations()),
        _ => return entry_answer(alloc, seat, call),
    };
    Ok(told(owed))
}

/// What becomes of a message that arrives at an interface.
pub fn arrives(seat: &mut Seat, arriving: Message) -> After
    ensures { Ends seat.new result (arrived arriving seat.old) }
{
    match guarded_ni::deliver(&mut seat.nic, arriving) {
        Ok(delivered) => After {
            owed: Owed::Delivered(delivered.outcome, delivered.answer.is_some()),
            sent: delivered.answer,
        },
        Err(misuse) => told(misuse_word(misuse)),
    }
}
