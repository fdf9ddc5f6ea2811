//! One row for each kind of call: how many calls were answered as they should be, and how long they took together.

use super::calls;
use super::filled::{self, CALLS, Full, NEVER};
use ptl_types::{AckRequest, Appended, Descriptor, Entry, Handle, List};
use std::alloc::Global;
use std::io;
use std::time::Instant;

/// How many calls are measured of a kind that goes over all that there is.
const FEW: u32 = 100;

/// A call that makes or removes a thing of a table.
#[derive(Clone, Copy)]
pub enum Table {
    /// `ct_alloc`
    CtAlloc,
    /// `ct_free`
    CtFree,
    /// `eq_alloc`
    EqAlloc,
    /// `eq_free`
    EqFree,
    /// `md_bind`
    MdBind,
    /// `md_release`
    MdRelease,
    /// `pt_free`, and `pt_alloc` of the same index
    PtAgain,
}

/// A call on what is there, or on counting events.
#[derive(Clone, Copy)]
pub enum Thing {
    /// `rank`, `ranks`, `limits`, `memory`, `drops`, `violations`, `pending`
    Reads,
    /// `write_memory` of one byte
    WriteMemory,
    /// `eq_get` of an empty queue
    EqGet,
    /// `awaits`
    Awaits,
    /// `awaits_any`
    AwaitsAny,
    /// `ct_get`
    CtGet,
    /// `ct_set`
    CtSet,
    /// `ct_inc` on a counting event on which all operations wait and none becomes ready
    CtIncNone,
    /// `triggered`, and `ct_cancel` on its counting event, on which no other operation waits
    CtCancel,
}

/// An operation, and the deliveries that it leads to.
#[derive(Clone, Copy)]
pub enum Operation {
    /// `put`, and `deliver` to the entry of its match bits
    Put,
    /// The same, and `deliver` of its acknowledgement
    PutAcked,
    /// `get`, and `deliver` of it and of its reply
    Get,
    /// `atomic`, and `deliver`
    Atomic,
    /// `fetch_atomic`, and `deliver` of it and of its reply
    FetchAtomic,
    /// `swap`, and `deliver` of it and of its reply
    Swap,
    /// `put`, and `deliver` to an overflow entry
    PutUnexpected,
}

/// A call on entries and headers.
#[derive(Clone, Copy)]
pub enum Entries {
    /// `me_append` to the priority list
    Append,
    /// `me_unlink` out of the middle
    Unlink,
    /// `headers`
    Headers,
    /// `header` in the middle
    Header,
    /// `me_search` of the newest header
    SearchNewest,
    /// `me_append` of a use-once entry that takes the oldest header
    TakeOldest,
    /// `me_search` that deletes the oldest header
    SearchDelete,
    /// `me_append` of a persistent entry that takes one header
    TakeOne,
}

/// A call on triggered operations.
#[derive(Clone, Copy)]
pub enum Waiting {
    /// `triggered`
    Triggered,
    /// `is_ready`
    IsReady,
    /// `lane_of`
    LaneOf,
    /// `ready` where none is
    Ready,
    /// `ct_inc` that makes one operation ready
    CtIncOne,
    /// `ready_count`, and `ready_at` in the middle
    ReadyAt,
    /// `ready_count_to`
    ReadyCountTo,
    /// `ready`, and `fire` of what it answers
    Fire,
}

/// The kinds of call.
#[derive(Clone, Copy)]
pub enum Kind {
    /// `open`
    Open,
    /// On tables of things.
    Table(Table),
    /// On what is there.
    Thing(Thing),
    /// Operations.
    Operation(Operation),
    /// On entries and headers.
    Entries(Entries),
    /// On triggered operations.
    Waiting(Waiting),
}

/// All of them with their calls in words, in the order in which they are measured: what one makes the next may take away.
pub const KINDS: &[(Kind, &str)] = &[
    (Kind::Open, "open"),
    (Kind::Thing(Thing::Reads), "all seven that read one thing"),
    (Kind::Thing(Thing::WriteMemory), "write_memory"),
    (Kind::Table(Table::CtAlloc), "ct_alloc"),
    (Kind::Thing(Thing::CtGet), "ct_get"),
    (Kind::Thing(Thing::CtSet), "ct_set"),
    (
        Kind::Thing(Thing::CtIncNone),
        "ct_inc where all wait and none becomes ready",
    ),
    (
        Kind::Thing(Thing::CtCancel),
        "triggered and ct_cancel of it",
    ),
    (Kind::Table(Table::CtFree), "ct_free"),
    (Kind::Table(Table::EqAlloc), "eq_alloc"),
    (Kind::Thing(Thing::EqGet), "eq_get"),
    (Kind::Table(Table::EqFree), "eq_free"),
    (Kind::Table(Table::MdBind), "md_bind"),
    (Kind::Thing(Thing::Awaits), "awaits"),
    (Kind::Thing(Thing::AwaitsAny), "awaits_any"),
    (Kind::Table(Table::MdRelease), "md_release"),
    (Kind::Table(Table::PtAgain), "pt_free and pt_alloc"),
    (Kind::Entries(Entries::Append), "me_append"),
    (Kind::Entries(Entries::Unlink), "me_unlink"),
    (Kind::Operation(Operation::Put), "put and its delivery"),
    (
        Kind::Operation(Operation::PutAcked),
        "put with its acknowledgement, both delivered",
    ),
    (
        Kind::Operation(Operation::Get),
        "get and its reply, both delivered",
    ),
    (
        Kind::Operation(Operation::Atomic),
        "atomic and its delivery",
    ),
    (
        Kind::Operation(Operation::FetchAtomic),
        "fetch_atomic and its reply, both delivered",
    ),
    (
        Kind::Operation(Operation::Swap),
        "swap and its reply, both delivered",
    ),
    (Kind::Entries(Entries::Headers), "headers"),
    (Kind::Entries(Entries::Header), "header in the middle"),
    (
        Kind::Entries(Entries::SearchNewest),
        "me_search of the newest header",
    ),
    (
        Kind::Entries(Entries::TakeOldest),
        "me_append of a use-once entry that takes the oldest header",
    ),
    (
        Kind::Entries(Entries::SearchDelete),
        "me_search that deletes the oldest header",
    ),
    (
        Kind::Entries(Entries::TakeOne),
        "me_append of a persistent entry that takes one header",
    ),
    (
        Kind::Operation(Operation::PutUnexpected),
        "put and its delivery as an unexpected one",
    ),
    (Kind::Waiting(Waiting::Triggered), "triggered"),
    (Kind::Waiting(Waiting::IsReady), "is_ready"),
    (Kind::Waiting(Waiting::LaneOf), "lane_of"),
    (Kind::Waiting(Waiting::Ready), "ready"),
    (
        Kind::Waiting(Waiting::CtIncOne),
        "ct_inc that makes one ready",
    ),
    (Kind::Waiting(Waiting::ReadyAt), "ready_count and ready_at"),
    (
        Kind::Waiting(Waiting::ReadyCountTo),
        "ready_count_to where 1000 are ready",
    ),
    (Kind::Waiting(Waiting::Fire), "ready and fire"),
];

impl Kind {
    /// How many calls are measured.
    fn calls(self) -> u32 {
        match self {
            Kind::Open => 1,
            Kind::Thing(Thing::AwaitsAny) | Kind::Waiting(Waiting::ReadyCountTo) => FEW,
            Kind::Entries(Entries::Header | Entries::SearchNewest | Entries::TakeOne) => FEW,
            _ => CALLS,
        }
    }
}

/// What came of the calls of a kind.
#[derive(Clone, Copy)]
pub struct Row {
    /// How many were answered as they should be.
    pub answered: u32,
    /// How long all took together, in nanoseconds.
    pub took: u128,
}

impl Row {
    /// Nanoseconds for each call.
    pub fn each(&self) -> u128 {
        if self.answered == 0 {
            return 0;
        }
        self.took / u128::from(self.answered)
    }
}

/// Keeps a handle that was made.
fn keep(full: &mut Full, made: Option<Handle>) -> bool {
    match made {
        Some(handle) => full.made.push(handle).is_ok(),
        None => false,
    }
}

/// The handle that was made last, which isn't kept any more.
fn last(full: &mut Full) -> Handle {
    full.made.pop().unwrap_or(NOTHING)
}

/// A handle of nothing.
const NOTHING: Handle = Handle { slot: 0, stamp: 0 };

/// A handle by its place, counted on from the first again after the last.
fn nth(handles: &[Handle], number: u32) -> Handle {
    if handles.is_empty() {
        return NOTHING;
    }
    handles
        .get(number as usize % handles.len())
        .copied()
        .unwrap_or(NOTHING)
}

/// One call that makes or removes a thing of a table.
fn call_tables(full: &mut Full, kind: Table) -> bool {
    match kind {
        Table::CtAlloc => {
            let made = full.nic.ct_alloc().ok();
            keep(full, made)
        }
        Table::CtFree => {
            let ct = last(full);
            full.nic.ct_free(ct).is_ok()
        }
        Table::EqAlloc => {
            let made = full.nic.eq_alloc(1).ok();
            keep(full, made)
        }
        Table::EqFree => {
            let eq = last(full);
            full.nic.eq_free(eq).is_ok()
        }
        Table::MdBind => {
            let made = full.nic.md_bind(Descriptor::over(0, 8)).ok();
            keep(full, made)
        }
        Table::MdRelease => {
            let md = last(full);
            full.nic.md_release(md).is_ok()
        }
        Table::PtAgain => full.nic.pt_free(2).is_ok() && full.nic.pt_alloc(2, None).is_ok(),
    }
}

/// One call on what is there, or on counting events.
fn call_things(full: &mut Full, kind: Thing, number: u32) -> bool {
    let ct = nth(&full.cts, 1 + number % 500);
    match kind {
        Thing::Reads => calls::reads(&full.nic),
        Thing::WriteMemory => guarded_ni::write_memory(&mut full.nic, 0, &[1]).is_ok(),
        Thing::EqGet => full.nic.eq_get(nth(&full.eqs, number)).is_ok(),
        Thing::Awaits => full.nic.awaits(nth(&full.mds, number)).is_ok(),
        Thing::AwaitsAny => !full.nic.awaits_any(),
        Thing::CtGet => full.nic.ct_get(ct).is_ok(),
        Thing::CtSet => full.nic.ct_set(ct, calls::ONE).is_ok(),
        Thing::CtIncNone => full.nic.ct_inc(nth(&full.cts, 0), calls::ONE).is_ok(),
        Thing::CtCancel => {
            calls::post(&mut full.nic, ct, ct, NEVER).is_some() && full.nic.ct_cancel(ct).is_ok()
        }
    }
}

/// The match bits of an entry that is appended while measuring: no entry had them before.
fn fresh_bits(full: &Full, number: u32) -> u64 {
    u64::from(full.size) + u64::from(number)
}

/// One operation to the entry of its match bits, and the deliveries that it leads to.
fn call_messages(full: &mut Full, kind: Operation, number: u32) -> bool {
    let md = nth(&full.mds, 1);
    let bits = fresh_bits(full, number);
    let nic = &mut full.nic;
    let started = match kind {
        Operation::Put => calls::put(nic, md, 0, bits, AckRequest::NoAck),
        Operation::PutAcked => calls::put(nic, md, 0, bits, AckRequest::Ack),
        Operation::Get => calls::get(nic, md, 0, bits),
        Operation::Atomic => calls::atomic(nic, md, 0, bits),
        Operation::FetchAtomic => calls::fetch_atomic(nic, md, 0, bits),
        Operation::Swap => calls::swap(nic, md, 0, bits),
        Operation::PutUnexpected => calls::put(nic, md, 1, u64::MAX, AckRequest::NoAck),
    };
    calls::exchange(nic, started)
}

/// One call on entries and headers.
fn call_entries(full: &mut Full, kind: Entries, number: u32) -> bool {
    let any = Entry {
        ignore_bits: u64::MAX,
        use_once: true,
        ..Entry::over(0, 8)
    };
    let fresh = Entry {
        match_bits: fresh_bits(full, number),
        allow_get: true,
        ..Entry::over(0, 8)
    };
    let newest = Entry {
        match_bits: fresh_bits(full, 2 * CALLS - 1),
        ..Entry::over(0, 8)
    };
    let older = Entry {
        match_bits: u64::from(2 * CALLS) + u64::from(number),
        ..Entry::over(0, 8)
    };
    match kind {
        Entries::Append => calls::append(&mut full.nic, 0, List::Priority, fresh).is_some(),
        Entries::Unlink => full.nic.me_unlink(nth(&full.entries, number)).is_ok(),
        Entries::Headers => !full.nic.headers().is_empty(),
        Entries::Header => full.nic.header(1, full.size / 2).is_some(),
        Entries::SearchNewest => matches!(full.nic.me_search(1, &newest, false), Ok(Some(_))),
        Entries::TakeOldest => {
            let appended = full.nic.me_append(1, List::Priority, any);
            matches!(appended, Ok(Appended::Consumed(_)))
        }
        Entries::SearchDelete => matches!(full.nic.me_search(1, &any, true), Ok(Some(_))),
        Entries::TakeOne => calls::append(&mut full.nic, 1, List::Priority, older).is_some(),
    }
}

/// One call on triggered operations: those that become ready wait on one counting event, one for each of its next sums.
fn call_triggered(full: &mut Full, kind: Waiting, number: u32) -> bool {
    let ct = nth(&full.cts, 900);
    let other = nth(&full.cts, 901);
    match kind {
        Waiting::Triggered => calls::post(
            &mut full.nic,
            other,
            ct,
            u64::from(number) + 1,
        ).is_some(),
        Waiting::IsReady => !full.nic.is_ready(number),
        Waiting::LaneOf => full.nic.lane_of(number).is_none(),
        Waiting::Ready => full.nic.ready().is_none(),
        Waiting::CtIncOne => full.nic.ct_inc(ct, calls::ONE).is_ok(),
        Waiting::ReadyAt => guarded_ni::ready_at(&full.nic, full.nic.ready_count() / 2).is_ok(),
        Waiting::ReadyCountTo => full.nic.ready_count_to(0) == 0,
        Waiting::Fire => calls::fire(&mut full.nic),
    }
}

/// One call of a kind; whether it was answered as it should be.
fn call(alloc: Global, full: &mut Full, kind: Kind, number: u32) -> bool {
    match kind {
        Kind::Open => filled::opens(alloc, full.size),
        Kind::Table(one) => call_tables(full, one),
        Kind::Thing(one) => call_things(full, one, number),
        Kind::Operation(one) => call_messages(full, one, number),
        Kind::Entries(one) => call_entries(full, one, number),
        Kind::Waiting(one) => call_triggered(full, one, number),
    }
}

/// Makes the calls of a kind, and takes the time.
pub fn measure(rt: &HostRuntime, full: &mut Full, kind: Kind) -> io::Result<Row> {
    let mut answered: u32 = 0;
    let start = Instant::now(rt)?;
    for number in 0..kind.calls() {
        if call(rt.alloc(), full, kind, number) {
            answered = answered.saturating_add(1);
        }
    }
    let took = start.elapsed(rt)?.as_nanos();
    Ok(Row { answered, took })
}
