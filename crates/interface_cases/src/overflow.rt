//! The overflow list and the unexpected headers that it leaves (Portals 4.3, unexpected messages and searching).

use crate::scene::plays;
use crate::steps::Answer::*;
use crate::steps::Call::*;
use crate::steps::Step::{self, *};
use crate::values::{
    ENTRY, FIRST, FREED, GET, HEADER, LINKED, NOTHING, ONCE, PUT, SECOND, UNLINKED,
};
use ptl_types::NiFault::{InUse, NoSpace, Stale};
use ptl_types::{
    AckRequest, Entry, Event, EventKind, Header, List, MessageKind, Outcome, PutArgs, TriggeredOp,
    UnexpectedHeader,
};

/// An overflow entry over eight bytes that is filled from its start.
const OVERFLOW: Entry = Entry {
    length: 8,
    manage_local: true,
    ..ENTRY
};

/// The same, which is unlinked where fewer than four bytes are left.
const UNLINKS: Entry = Entry {
    min_free: 4,
    ..OVERFLOW
};

/// A persistent entry for match bits 6.
const SIX: Entry = Entry {
    match_bits: 6,
    ..ENTRY
};

/// A put to index 1.
const TO_ONE: PutArgs = PutArgs { pt: 1, ..PUT };

/// The header of a put of three bytes to index 1, which the first entry put at the start of the region.
const THREE_BYTES: UnexpectedHeader = UnexpectedHeader {
    entry: FIRST,
    place: 0,
    delivered: 3,
    header: Header {
        pt: 1,
        length: 3,
        ..HEADER
    },
};

/// The header of a put of two bytes, after them.
const TWO_BYTES: UnexpectedHeader = UnexpectedHeader {
    entry: FIRST,
    place: 3,
    delivered: 2,
    header: Header {
        pt: 1,
        length: 2,
        ..HEADER
    },
};

/// The event of the first header's taking.
const THREE_TAKEN: Event = Event {
    kind: EventKind::PutOverflow,
    source: 1,
    requested: 3,
    delivered: 3,
    ..LINKED
};

/// The event of the second header's.
const TWO_TAKEN: Event = Event {
    requested: 2,
    delivered: 2,
    place: 3,
    ..THREE_TAKEN
};

/// The event of a search that found nothing.
const MISSED: Event = Event {
    kind: EventKind::Search,
    ok: false,
    ..LINKED
};

/// Rank 0 has a queue at index 1, and an overflow entry there that is filled by two puts and unlinked by the second.
const FILLED: &[Step] = &[
    Here(EqAlloc(8), Made(0)),
    Here(PtAlloc(1, Some(FIRST)), Done),
    Here(MeAppend(1, List::Overflow, UNLINKS), Linked(0)),
    Comes(TO_ONE, &[1, 2, 3], Outcome::Overflow),
    Comes(TO_ONE, &[4, 5], Outcome::Overflow),
    Comes(TO_ONE, &[6], Outcome::Dropped),
];

fn use_once_appends_take_the_headers_in_order() -> &'static [&'static [Step]] {
    const SCRIPT: &[Step] = &[
        Here(MeAppend(1, List::Priority, ONCE), Consumed(THREE_BYTES)),
        Here(MeAppend(1, List::Priority, ONCE), Consumed(TWO_BYTES)),
        Here(MeAppend(1, List::Priority, ONCE), Linked(1)),
        Here(EqGet(FIRST), Got(LINKED)),
        Here(EqGet(FIRST), Got(UNLINKED)),
        Here(EqGet(FIRST), Got(THREE_TAKEN)),
        Here(EqGet(FIRST), Got(TWO_TAKEN)),
        Here(EqGet(FIRST), Got(FREED)),
        Here(EqGet(FIRST), Got(LINKED)),
        Here(EqGet(FIRST), Empty),
    ];
    const SCRIPTS: &[&[Step]] = &[FILLED, SCRIPT];
    SCRIPTS
}

fn a_full_queue_loses_the_newest_event() -> &'static [&'static [Step]] {
    const SCRIPT: &[Step] = &[
        Here(EqAlloc(1), Made(0)),
        Here(PtAlloc(1, Some(FIRST)), Done),
        Here(MeAppend(1, List::Priority, ENTRY), Linked(0)),
        Here(MeAppend(1, List::Priority, SIX), Linked(1)),
        Here(EqGet(FIRST), Lost),
        Here(EqGet(FIRST), Got(LINKED)),
        Here(EqGet(FIRST), Empty),
        Here(EqAlloc(1), Refused(NoSpace)),
        Here(MeSearch(1, ENTRY, false), Nothing),
        Here(EqGet(FIRST), Got(MISSED)),
        Here(EqGet(FIRST), Empty),
    ];
    const SCRIPTS: &[&[Step]] = &[SCRIPT];
    SCRIPTS
}

fn a_loss_is_told_once_however_many_were_lost() -> &'static [&'static [Step]] {
    const SCRIPT: &[Step] = &[
        Here(EqAlloc(1), Made(0)),
        Here(PtAlloc(1, Some(FIRST)), Done),
        Here(MeAppend(1, List::Priority, ENTRY), Linked(0)),
        Here(MeAppend(1, List::Priority, SIX), Linked(1)),
        Here(MeAppend(1, List::Priority, SIX), Linked(2)),
        Here(EqGet(FIRST), Lost),
        Here(EqGet(FIRST), Got(LINKED)),
        Here(EqGet(FIRST), Empty),
    ];
    const SCRIPTS: &[&[Step]] = &[SCRIPT];
    SCRIPTS
}

/// A put to the entries for match bits 6.
const TO_SIX: PutArgs = PutArgs {
    match_bits: 6,
    ..PUT
};

fn the_priority_list_goes_first_and_needs_no_room_for_a_header() -> &'static [&'static [Step]] {
    const BEHIND: Entry = Entry { start: 8, ..ENTRY };
    const SCRIPT: &[Step] = &[
        Here(MeAppend(0, List::Overflow, OVERFLOW), Linked(0)),
        Here(MeAppend(0, List::Overflow, SIX), Linked(1)),
        Here(MeAppend(0, List::Priority, BEHIND), Linked(2)),
        Comes(PUT, &[1], Outcome::Matched),
        HereHolds(&[0, 0, 0, 0, 0, 0, 0, 0, 1, 0, 0, 0, 0, 0, 0, 0]),
        Comes(TO_SIX, &[2], Outcome::Overflow),
        Comes(TO_SIX, &[3], Outcome::Overflow),
        // There is no room for a header any more.
        Comes(TO_SIX, &[4], Outcome::Dropped),
        Comes(PUT, &[5], Outcome::Matched),
        HereHolds(&[3, 0, 0, 0, 0, 0, 0, 0, 5, 0, 0, 0, 0, 0, 0, 0]),
        Here(Drops, Number(1)),
    ];
    const SCRIPTS: &[&[Step]] = &[SCRIPT];
    SCRIPTS
}

/// A put that asks for an acknowledgement that counts.
const ASKS: PutArgs = PutArgs {
    ack: AckRequest::CtAck,
    length: 2,
    ..PUT
};

/// Its acknowledgement.
const ACK: Header = Header {
    kind: MessageKind::Ack,
    source: 0,
    target: 1,
    length: 2,
    ack: AckRequest::CtAck,
    home: Some(FIRST),
    ..HEADER
};

/// The acknowledgement of what found no room for its header.
const NOT_OK: Header = Header {
    length: 0,
    ok: false,
    ..ACK
};

fn a_message_of_the_overflow_list_is_answered_and_counted() -> &'static [&'static [Step]] {
    const COUNTS: Entry = Entry {
        ct: Some(FIRST),
        count_comm: true,
        ..OVERFLOW
    };
    const SCRIPT: &[Step] = &[
        Here(CtAlloc, Made(0)),
        Here(MeAppend(0, List::Overflow, COUNTS), Linked(0)),
        There(WriteMemory(0, &[7, 8]), Done),
        There(Start(TriggeredOp::Put(ASKS)), Sent),
        Here(Deliver, Replies(Outcome::Overflow)),
        There(Carries(ACK, &[]), Yes),
        There(Deliver, Became(Outcome::Answered)),
        Here(CtGet(FIRST), Counts(1, 0)),
        Comes(PUT, &[1], Outcome::Overflow),
        Here(CtGet(FIRST), Counts(2, 0)),
        There(Start(TriggeredOp::Put(ASKS)), Sent),
        Here(Deliver, Replies(Outcome::Dropped)),
        There(Carries(NOT_OK, &[]), Yes),
        There(Deliver, Became(Outcome::Answered)),
        Here(CtGet(FIRST), Counts(2, 0)),
        Here(Drops, Number(1)),
        HereHolds(&[7, 8, 1, 0, 0, 0, 0, 0, 0, 0, 0, 0, 0, 0, 0, 0]),
    ];
    const SCRIPTS: &[&[Step]] = &[SCRIPT];
    SCRIPTS
}

fn headers_are_counted_over_all_indices() -> &'static [&'static [Step]] {
    const OF_ONE: UnexpectedHeader = UnexpectedHeader {
        entry: SECOND,
        place: 0,
        delivered: 1,
        header: Header {
            pt: 1,
            length: 1,
            ..HEADER
        },
    };
    const SCRIPT: &[Step] = &[
        Here(PtAlloc(1, None), Done),
        Here(MeAppend(0, List::Overflow, ENTRY), Linked(0)),
        Here(MeAppend(1, List::Overflow, ENTRY), Linked(1)),
        Comes(PUT, &[1], Outcome::Overflow),
        Comes(TO_ONE, &[2], Outcome::Overflow),
        Comes(PUT, &[3], Outcome::Dropped),
        Comes(TO_ONE, &[4], Outcome::Dropped),
        Here(Drops, Number(2)),
        // Room at index 1 is room at index 0.
        Here(MeSearch(1, ENTRY, true), Found(OF_ONE)),
        Comes(PUT, &[5], Outcome::Overflow),
        Comes(TO_ONE, &[6], Outcome::Dropped),
        HereHolds(&[5, 0, 0, 0, 0, 0, 0, 0, 0, 0, 0, 0, 0, 0, 0, 0]),
    ];
    const SCRIPTS: &[&[Step]] = &[SCRIPT];
    SCRIPTS
}

fn an_append_looks_at_no_length() -> &'static [&'static [Step]] {
    const SHORT: Entry = Entry {
        length: 1,
        no_truncate: true,
        ..ONCE
    };
    const SCRIPT: &[Step] = &[
        Here(MeAppend(1, List::Priority, SHORT), Consumed(THREE_BYTES)),
        HereHolds(&[1, 2, 3, 4, 5, 0, 0, 0, 0, 0, 0, 0, 0, 0, 0, 0]),
    ];
    const SCRIPTS: &[&[Step]] = &[FILLED, SCRIPT];
    SCRIPTS
}

fn a_search_looks_at_neither_part_nor_counter() -> &'static [&'static [Step]] {
    const STALE: Entry = Entry {
        start: 13,
        ct: Some(NOTHING),
        ..ENTRY
    };
    const SCRIPT: &[Step] = &[
        Here(MeSearch(0, STALE, false), Nothing),
        Here(MeSearch(1, STALE, false), Found(THREE_BYTES)),
    ];
    const SCRIPTS: &[&[Step]] = &[FILLED, SCRIPT];
    SCRIPTS
}

fn a_message_that_finds_no_room_for_its_header_is_dropped() -> &'static [&'static [Step]] {
    const SCRIPT: &[Step] = &[
        Here(MeAppend(0, List::Overflow, OVERFLOW), Linked(0)),
        Comes(PUT, &[1], Outcome::Overflow),
        Comes(PUT, &[2], Outcome::Overflow),
        Comes(PUT, &[3], Outcome::Dropped),
        Here(Drops, Number(1)),
        Here(Violations, Number(0)),
        HereHolds(&[1, 2, 0, 0, 0, 0, 0, 0, 0, 0, 0, 0, 0, 0, 0, 0]),
    ];
    const SCRIPTS: &[&[Step]] = &[SCRIPT];
    SCRIPTS
}

fn a_persistent_append_takes_all_headers_and_is_linked() -> &'static [&'static [Step]] {
    const COUNTS: Entry = Entry {
        start: 8,
        ct: Some(FIRST),
        count_overflow: true,
        ..ENTRY
    };
    const SCRIPT: &[Step] = &[
        Here(CtAlloc, Made(0)),
        Here(MeAppend(0, List::Overflow, OVERFLOW), Linked(0)),
        Comes(PUT, &[1], Outcome::Overflow),
        Comes(PUT, &[2], Outcome::Overflow),
        Here(MeUnlink(FIRST), Refused(InUse)),
        Here(MeAppend(0, List::Priority, COUNTS), Linked(1)),
        Here(CtGet(FIRST), Counts(2, 0)),
        Here(MeSearch(0, ENTRY, false), Nothing),
        Here(MeUnlink(FIRST), Done),
        Comes(PUT, &[3], Outcome::Matched),
        HereHolds(&[1, 2, 0, 0, 0, 0, 0, 0, 3, 0, 0, 0, 0, 0, 0, 0]),
        Here(CtGet(FIRST), Counts(2, 0)),
    ];
    const SCRIPTS: &[&[Step]] = &[SCRIPT];
    SCRIPTS
}

fn a_search_deletes_the_oldest_header_where_asked() -> &'static [&'static [Step]] {
    const THREE_FOUND: Event = Event {
        kind: EventKind::Search,
        ..THREE_TAKEN
    };
    const TWO_FOUND: Event = Event {
        kind: EventKind::Search,
        ..TWO_TAKEN
    };
    const SCRIPT: &[Step] = &[
        HereTells(FIRST, &[LINKED, UNLINKED]),
        Here(MeSearch(1, ENTRY, false), Found(THREE_BYTES)),
        Here(MeSearch(1, ENTRY, true), Found(THREE_BYTES)),
        Here(PtFree(1), Refused(InUse)),
        Here(MeSearch(1, ENTRY, true), Found(TWO_BYTES)),
        Here(MeSearch(1, ENTRY, true), Nothing),
        Here(PtFree(1), Done),
        HereTells(FIRST, &[THREE_FOUND, THREE_FOUND, TWO_FOUND, FREED, MISSED]),
    ];
    const SCRIPTS: &[&[Step]] = &[FILLED, SCRIPT];
    SCRIPTS
}

/// The header of a message of one byte to the second index.
const ONE_BYTE: UnexpectedHeader = UnexpectedHeader {
    delivered: 1,
    header: Header {
        pt: 1,
        length: 1,
        ..HEADER
    },
    ..THREE_BYTES
};

/// The event of its taking.
const ONE_TAKEN: Event = Event {
    requested: 1,
    delivered: 1,
    ..THREE_TAKEN
};

fn headers_are_searched_and_taken() -> &'static [&'static [Step]] {
    const ONE_FOUND: Event = Event {
        kind: EventKind::Search,
        ..ONE_TAKEN
    };
    const TWO_AT_THE_START: Event = Event {
        place: 0,
        ..TWO_TAKEN
    };
    const SCRIPT: &[Step] = &[
        Here(MeSearch(1, ENTRY, false), Refused(Stale)),
        Here(EqAlloc(8), Made(0)),
        Here(PtAlloc(1, Some(FIRST)), Done),
        Here(MeAppend(1, List::Overflow, ENTRY), Linked(0)),
        Comes(TO_ONE, &[1], Outcome::Overflow),
        Comes(TO_ONE, &[1, 2], Outcome::Overflow),
        Here(MeUnlink(FIRST), Refused(InUse)),
        Here(MeSearch(1, ENTRY, false), Found(ONE_BYTE)),
        Here(MeAppend(1, List::Priority, ONCE), Consumed(ONE_BYTE)),
        Here(MeAppend(1, List::Priority, ENTRY), Linked(1)),
        Here(MeSearch(1, ENTRY, false), Nothing),
        HereTells(
            FIRST,
            &[
                LINKED,
                ONE_FOUND,
                ONE_TAKEN,
                TWO_AT_THE_START,
                LINKED,
                MISSED,
            ],
        ),
    ];
    const SCRIPTS: &[&[Step]] = &[SCRIPT];
    SCRIPTS
}

fn a_get_does_not_look_at_the_overflow_list() -> &'static [&'static [Step]] {
    const SCRIPT: &[Step] = &[
        Here(MeAppend(0, List::Overflow, ENTRY), Linked(0)),
        There(Start(TriggeredOp::Get(GET)), Sent),
        Here(Deliver, Replies(Outcome::Dropped)),
        Here(Drops, Number(1)),
    ];
    const SCRIPTS: &[&[Step]] = &[SCRIPT];
    SCRIPTS
}

fn an_overflow_entry_that_forbids_a_put_leaves_no_header() -> &'static [&'static [Step]] {
    const FORBIDS: Entry = Entry {
        match_bits: 6,
        allow_put: false,
        ..ENTRY
    };
    const SCRIPT: &[Step] = &[
        Here(MeAppend(0, List::Overflow, FORBIDS), Linked(0)),
        Here(MeAppend(0, List::Overflow, ENTRY), Linked(1)),
        Comes(TO_SIX, &[1], Outcome::Violation),
        // The same where there is no room for a header, which is judged after it.
        Comes(PUT, &[2], Outcome::Overflow),
        Comes(PUT, &[3], Outcome::Overflow),
        Comes(TO_SIX, &[4], Outcome::Violation),
        Comes(PUT, &[5], Outcome::Dropped),
        Here(Violations, Number(2)),
        Here(Drops, Number(1)),
        Here(MeSearch(0, SIX, false), Nothing),
        HereHolds(&[3, 0, 0, 0, 0, 0, 0, 0, 0, 0, 0, 0, 0, 0, 0, 0]),
    ];
    const SCRIPTS: &[&[Step]] = &[SCRIPT];
    SCRIPTS
}

fn an_append_finds_no_header_whose_operation_it_forbids() -> &'static [&'static [Step]] {
    const GETS: Entry = Entry {
        allow_put: false,
        ..ONCE
    };
    const BYTE: UnexpectedHeader = UnexpectedHeader {
        entry: FIRST,
        place: 0,
        delivered: 1,
        header: Header {
            length: 1,
            ..HEADER
        },
    };
    const SCRIPT: &[Step] = &[
        Here(MeAppend(0, List::Overflow, ENTRY), Linked(0)),
        Comes(PUT, &[1], Outcome::Overflow),
        Here(MeSearch(0, GETS, true), Nothing),
        Here(MeAppend(0, List::Priority, GETS), Linked(1)),
        Here(MeAppend(0, List::Priority, ONCE), Consumed(BYTE)),
    ];
    const SCRIPTS: &[&[Step]] = &[SCRIPT];
    SCRIPTS
}

#[test]
fn each_script(rt: HostRuntime) {
    plays!(&rt;
        use_once_appends_take_the_headers_in_order,
        a_full_queue_loses_the_newest_event,
        a_loss_is_told_once_however_many_were_lost,
        the_priority_list_goes_first_and_needs_no_room_for_a_header,
        a_message_of_the_overflow_list_is_answered_and_counted,
        headers_are_counted_over_all_indices,
        an_append_looks_at_no_length,
        a_search_looks_at_neither_part_nor_counter,
        a_message_that_finds_no_room_for_its_header_is_dropped,
        a_persistent_append_takes_all_headers_and_is_linked,
        a_search_deletes_the_oldest_header_where_asked,
        headers_are_searched_and_taken,
        a_get_does_not_look_at_the_overflow_list,
        an_overflow_entry_that_forbids_a_put_leaves_no_header,
        an_append_finds_no_header_whose_operation_it_forbids
    );
}
