//! Gets, atomics, fetching atomics and swaps with their replies (Portals 4.3, data movement and atomic operations).

use crate::scene::plays;
use crate::steps::Answer::*;
use crate::steps::Call::*;
use crate::steps::Step::{self, *};
use crate::values::{ENTRY, FIRST, GET, HEADER, LINKED, PUT};
use ptl_types::{
    AtomicOp, ElemType, Entry, Event, EventKind, GetArgs, Header, List, MessageKind, Outcome,
    PutArgs, SwapOp, TriggeredOp,
};

/// One byte at the start of rank 1's region goes to index 0; what was there comes back to its byte 8.
const BYTE: PutArgs = PutArgs { length: 1, ..PUT };

const BACK: GetArgs = GetArgs {
    local_offset: 8,
    length: 1,
    ..GET
};

/// Fetching operations on one byte.
const SUM_OF_BYTE: TriggeredOp = TriggeredOp::FetchAtomic(BACK, BYTE, AtomicOp::Sum, ElemType::U8);

const IF_FOUR: TriggeredOp = TriggeredOp::Swap(BACK, BYTE, SwapOp::Cswap, ElemType::U8, 4);

const LOW_BITS: TriggeredOp = TriggeredOp::Swap(BACK, BYTE, SwapOp::Mswap, ElemType::U8, 0x0f);

const PLAIN: TriggeredOp = TriggeredOp::Swap(BACK, BYTE, SwapOp::Swap, ElemType::U8, 0);

const ONE_BYTE: Entry = Entry { length: 1, ..ENTRY };

fn fetching_operations_answer_the_old_element() -> &'static [&'static [Step]] {
    const SCRIPT: &[Step] = &[
        Here(MeAppend(0, List::Priority, ONE_BYTE), Linked(0)),
        Here(WriteMemory(0, &[250]), Done),
        There(WriteMemory(0, &[10]), Done),
        There(Start(SUM_OF_BYTE), Sent),
        Here(Deliver, Replies(Outcome::Matched)),
        HereHolds(&[4, 0, 0, 0, 0, 0, 0, 0, 0, 0, 0, 0, 0, 0, 0, 0]),
        There(Deliver, Became(Outcome::Answered)),
        ThereHolds(&[10, 0, 0, 0, 0, 0, 0, 0, 250, 0, 0, 0, 0, 0, 0, 0]),
        There(WriteMemory(0, &[9]), Done),
        There(Start(IF_FOUR), Sent),
        Here(Deliver, Replies(Outcome::Matched)),
        HereHolds(&[9, 0, 0, 0, 0, 0, 0, 0, 0, 0, 0, 0, 0, 0, 0, 0]),
        There(Deliver, Became(Outcome::Answered)),
        ThereHolds(&[9, 0, 0, 0, 0, 0, 0, 0, 4, 0, 0, 0, 0, 0, 0, 0]),
        There(WriteMemory(0, &[7]), Done),
        There(Start(IF_FOUR), Sent),
        Here(Deliver, Replies(Outcome::Matched)),
        HereHolds(&[9, 0, 0, 0, 0, 0, 0, 0, 0, 0, 0, 0, 0, 0, 0, 0]),
        There(Deliver, Became(Outcome::Answered)),
        ThereHolds(&[7, 0, 0, 0, 0, 0, 0, 0, 9, 0, 0, 0, 0, 0, 0, 0]),
        Here(WriteMemory(0, &[0x90]), Done),
        There(WriteMemory(0, &[0xff]), Done),
        There(Start(LOW_BITS), Sent),
        Here(Deliver, Replies(Outcome::Matched)),
        HereHolds(&[0x9f, 0, 0, 0, 0, 0, 0, 0, 0, 0, 0, 0, 0, 0, 0, 0]),
        There(Deliver, Became(Outcome::Answered)),
        ThereHolds(&[0xff, 0, 0, 0, 0, 0, 0, 0, 0x90, 0, 0, 0, 0, 0, 0, 0]),
        There(WriteMemory(0, &[3]), Done),
        There(Start(PLAIN), Sent),
        Here(Deliver, Replies(Outcome::Matched)),
        HereHolds(&[3, 0, 0, 0, 0, 0, 0, 0, 0, 0, 0, 0, 0, 0, 0, 0]),
        There(Deliver, Became(Outcome::Answered)),
        ThereHolds(&[3, 0, 0, 0, 0, 0, 0, 0, 0x9f, 0, 0, 0, 0, 0, 0, 0]),
    ];
    const SCRIPTS: &[&[Step]] = &[SCRIPT];
    SCRIPTS
}

fn an_operand_wider_than_the_element_never_equals_it_and_names_no_bit_beyond() -> &'static [&'static [Step]] {
    const TWO: PutArgs = PutArgs { length: 2, ..PUT };
    const BACK_TWO: GetArgs = GetArgs { length: 2, ..BACK };
    /// The element is 0x0104 before each swap, and 0x0909 comes.
    const WIDER: TriggeredOp = TriggeredOp::Swap(
        BACK_TWO,
        TWO,
        SwapOp::Cswap,
        ElemType::U16,
        0x1_0104,
    );
    const EQUAL: TriggeredOp = TriggeredOp::Swap(
        BACK_TWO,
        TWO,
        SwapOp::Cswap,
        ElemType::U16,
        0x0104,
    );
    const MASK: TriggeredOp = TriggeredOp::Swap(
        BACK_TWO,
        TWO,
        SwapOp::Mswap,
        ElemType::U16,
        0xf_00ff,
    );
    const TWO_BYTES: Entry = Entry { length: 2, ..ENTRY };
    const SCRIPT: &[Step] = &[
        Here(MeAppend(0, List::Priority, TWO_BYTES), Linked(0)),
        Here(WriteMemory(0, &[4, 1]), Done),
        There(WriteMemory(0, &[9, 9]), Done),
        There(Start(WIDER), Sent),
        Here(Deliver, Replies(Outcome::Matched)),
        HereHolds(&[4, 1, 0, 0, 0, 0, 0, 0, 0, 0, 0, 0, 0, 0, 0, 0]),
        There(Deliver, Became(Outcome::Answered)),
        ThereHolds(&[9, 9, 0, 0, 0, 0, 0, 0, 4, 1, 0, 0, 0, 0, 0, 0]),
        There(Start(EQUAL), Sent),
        Here(Deliver, Replies(Outcome::Matched)),
        HereHolds(&[9, 9, 0, 0, 0, 0, 0, 0, 0, 0, 0, 0, 0, 0, 0, 0]),
        Here(WriteMemory(0, &[4, 1]), Done),
        There(Start(MASK), Sent),
        Here(Deliver, Replies(Outcome::Matched)),
        HereHolds(&[9, 1, 0, 0, 0, 0, 0, 0, 0, 0, 0, 0, 0, 0, 0, 0]),
    ];
    const SCRIPTS: &[&[Step]] = &[SCRIPT];
    SCRIPTS
}

fn a_get_brings_home_what_an_atomic_left() -> &'static [&'static [Step]] {
    const TWO: PutArgs = PutArgs { length: 2, ..PUT };
    const ASKS: GetArgs = GetArgs { length: 2, ..BACK };
    const REPLY: Header = Header {
        kind: MessageKind::Reply,
        source: 0,
        target: 1,
        length: 2,
        home: Some(FIRST),
        home_offset: 8,
        ..HEADER
    };
    const TWO_BYTES: Entry = Entry { length: 2, ..ENTRY };
    const SCRIPT: &[Step] = &[
        Here(MeAppend(0, List::Priority, TWO_BYTES), Linked(0)),
        There(WriteMemory(0, &[5, 0]), Done),
        There(
            Start(TriggeredOp::Atomic(TWO, AtomicOp::Max, ElemType::U16)),
            Sent,
        ),
        Here(Deliver, Became(Outcome::Matched)),
        HereHolds(&[5, 0, 0, 0, 0, 0, 0, 0, 0, 0, 0, 0, 0, 0, 0, 0]),
        There(Start(TriggeredOp::Get(ASKS)), Sent),
        Here(Deliver, Replies(Outcome::Matched)),
        There(Carries(REPLY, &[5, 0]), Yes),
        There(Deliver, Became(Outcome::Answered)),
        ThereHolds(&[5, 0, 0, 0, 0, 0, 0, 0, 5, 0, 0, 0, 0, 0, 0, 0]),
    ];
    const SCRIPTS: &[&[Step]] = &[SCRIPT];
    SCRIPTS
}

fn an_atomic_is_cut_to_whole_elements() -> &'static [&'static [Step]] {
    const FOUR: PutArgs = PutArgs { length: 4, ..PUT };
    const SUM: TriggeredOp = TriggeredOp::Atomic(FOUR, AtomicOp::Sum, ElemType::U16);
    const THREE_BYTES: Entry = Entry { length: 3, ..ENTRY };
    const SCRIPT: &[Step] = &[
        Here(MeAppend(0, List::Priority, THREE_BYTES), Linked(0)),
        There(WriteMemory(0, &[1, 2, 3, 4]), Done),
        There(Start(SUM), Sent),
        Here(Deliver, Became(Outcome::Matched)),
        HereHolds(&[1, 2, 0, 0, 0, 0, 0, 0, 0, 0, 0, 0, 0, 0, 0, 0]),
    ];
    const SCRIPTS: &[&[Step]] = &[SCRIPT];
    SCRIPTS
}

/// Rank 0 has a queue at index 1, and an entry there that begins at byte 2 and counts its messages.
const TELLING: &[Step] = &[
    Here(EqAlloc(8), Made(0)),
    Here(CtAlloc, Made(0)),
    Here(PtAlloc(1, Some(FIRST)), Done),
    Here(MeAppend(1, List::Priority, COUNTS), Linked(0)),
];

const COUNTS: Entry = Entry {
    start: 2,
    ct: Some(FIRST),
    count_comm: true,
    ..ENTRY
};

/// Put arguments with header data 7 to the second byte of that entry.
const TO_SECOND: PutArgs = PutArgs {
    pt: 1,
    remote_offset: 1,
    hdr_data: 7,
    ..PUT
};

/// The event of a put of two bytes there.
const PUT_TOLD: Event = Event {
    kind: EventKind::Put,
    source: 1,
    hdr_data: 7,
    requested: 2,
    delivered: 2,
    place: 3,
    ..LINKED
};

fn puts_and_gets_raise_their_events() -> &'static [&'static [Step]] {
    const ASKS: GetArgs = GetArgs {
        length: 2,
        pt: 1,
        remote_offset: 3,
        ..BACK
    };
    const GET_TOLD: Event = Event {
        kind: EventKind::Get,
        hdr_data: 0,
        delivered: 1,
        place: 5,
        ..PUT_TOLD
    };
    const SCRIPT: &[Step] = &[
        Comes(TO_SECOND, &[1, 2], Outcome::Matched),
        There(Start(TriggeredOp::Get(ASKS)), Sent),
        Here(Deliver, Replies(Outcome::Matched)),
        Here(CtGet(FIRST), Counts(2, 0)),
        HereTells(FIRST, &[LINKED, PUT_TOLD, GET_TOLD]),
    ];
    const SCRIPTS: &[&[Step]] = &[TELLING, SCRIPT];
    SCRIPTS
}

/// The starts of one byte to that byte, and the events that they raise there.
const ATOMIC_AT_SECOND: TriggeredOp = TriggeredOp::Atomic(
    BYTE_TO_SECOND,
    AtomicOp::Bor,
    ElemType::U8,
);

const FETCH_AT_SECOND: TriggeredOp = TriggeredOp::FetchAtomic(
    BACK_OF_SECOND,
    BYTE_TO_SECOND,
    AtomicOp::Min,
    ElemType::U8,
);

const SWAP_AT_SECOND: TriggeredOp = TriggeredOp::Swap(
    BACK_OF_SECOND,
    BYTE_TO_SECOND,
    SwapOp::Swap,
    ElemType::U8,
    0,
);

const BYTE_TO_SECOND: PutArgs = PutArgs {
    length: 1,
    ..TO_SECOND
};

const BACK_OF_SECOND: GetArgs = GetArgs {
    pt: 1,
    remote_offset: 1,
    ..BACK
};

const ATOMIC_TOLD: Event = Event {
    kind: EventKind::Atomic,
    requested: 1,
    delivered: 1,
    ..PUT_TOLD
};

const FETCH_TOLD: Event = Event {
    kind: EventKind::FetchAtomic,
    ..ATOMIC_TOLD
};

fn atomics_and_fetching_operations_raise_their_events() -> &'static [&'static [Step]] {
    const SCRIPT: &[Step] = &[
        There(WriteMemory(0, &[4]), Done),
        There(Start(ATOMIC_AT_SECOND), Sent),
        Here(Deliver, Became(Outcome::Matched)),
        There(WriteMemory(0, &[1]), Done),
        There(Start(FETCH_AT_SECOND), Sent),
        Here(Deliver, Replies(Outcome::Matched)),
        There(WriteMemory(0, &[9]), Done),
        There(Start(SWAP_AT_SECOND), Sent),
        Here(Deliver, Replies(Outcome::Matched)),
        Here(CtGet(FIRST), Counts(3, 0)),
        HereHolds(&[0, 0, 0, 9, 0, 0, 0, 0, 0, 0, 0, 0, 0, 0, 0, 0]),
        HereTells(FIRST, &[LINKED, ATOMIC_TOLD, FETCH_TOLD, FETCH_TOLD]),
    ];
    const SCRIPTS: &[&[Step]] = &[TELLING, SCRIPT];
    SCRIPTS
}

/// An entry that allows puts alone, and one for match bits 6 that allows gets alone.
const PUTS: Entry = Entry {
    allow_get: false,
    ..ENTRY
};

const GETS: Entry = Entry {
    match_bits: 6,
    allow_put: false,
    ..ENTRY
};

/// A byte to the second entry, and what comes back of it.
const SIX: PutArgs = PutArgs {
    match_bits: 6,
    ..BYTE
};

const BACK_OF_SIX: GetArgs = GetArgs {
    match_bits: 6,
    ..BACK
};

/// The reply that says that it was refused.
const NOT_OK: Header = Header {
    kind: MessageKind::Reply,
    source: 0,
    target: 1,
    match_bits: 6,
    home: Some(FIRST),
    home_offset: 8,
    ok: false,
    ..HEADER
};

fn an_entry_allows_puts_gets_or_both() -> &'static [&'static [Step]] {
    const FETCH: TriggeredOp = TriggeredOp::FetchAtomic(BACK, BYTE, AtomicOp::Sum, ElemType::U8);
    const SWAP: TriggeredOp = TriggeredOp::Swap(BACK_OF_SIX, SIX, SwapOp::Swap, ElemType::U8, 0);
    const SCRIPT: &[Step] = &[
        Here(MeAppend(0, List::Priority, PUTS), Linked(0)),
        Here(MeAppend(0, List::Priority, GETS), Linked(1)),
        Comes(PUT, &[1], Outcome::Matched),
        Comes(SIX, &[1], Outcome::Violation),
        There(Start(TriggeredOp::Get(BACK)), Sent),
        Here(Deliver, Replies(Outcome::Violation)),
        There(Start(TriggeredOp::Get(BACK_OF_SIX)), Sent),
        Here(Deliver, Replies(Outcome::Matched)),
        There(Start(FETCH), Sent),
        Here(Deliver, Replies(Outcome::Violation)),
        There(Start(SWAP), Sent),
        Here(Deliver, Replies(Outcome::Violation)),
        There(Carries(NOT_OK, &[]), Yes),
        There(Deliver, Became(Outcome::Answered)),
        Here(Violations, Number(4)),
        Here(Drops, Number(0)),
    ];
    const SCRIPTS: &[&[Step]] = &[SCRIPT];
    SCRIPTS
}

#[test]
fn each_script(rt: HostRuntime) {
    plays!(&rt;
        fetching_operations_answer_the_old_element,
        an_operand_wider_than_the_element_never_equals_it_and_names_no_bit_beyond,
        a_get_brings_home_what_an_atomic_left,
        an_atomic_is_cut_to_whole_elements,
        puts_and_gets_raise_their_events,
        atomics_and_fetching_operations_raise_their_events,
        an_entry_allows_puts_gets_or_both
    );
}
