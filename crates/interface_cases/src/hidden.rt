//! The options that hide events of entries and descriptors (Portals 4.3, options of match list entries and of memory descriptors):
//! what each hides, what it leaves, and that counting events look at none.

use crate::scene::plays;
use crate::steps::Answer::*;
use crate::steps::Call::*;
use crate::steps::Step::{self, *};
use crate::values::{DESCRIPTOR, ENTRY, EVENT, FIRST, FREED, HEADER, LINKED, ONCE, PUT, UNLINKED};
use ptl_types::{
    AckRequest, Descriptor, Entry, Event, EventKind, Header, HiddenDescriptorEvents,
    HiddenEntryEvents, List, Outcome, PutArgs, TriggeredOp, UnexpectedHeader,
};

/// An overflow entry that is unlinked where fewer than four bytes are left; it counts messages.
const BEHIND: Entry = Entry {
    length: 8,
    manage_local: true,
    min_free: 4,
    ct: Some(FIRST),
    count_comm: true,
    ..ENTRY
};

/// A use-once entry that counts messages and the headers that it takes.
const TAKES: Entry = Entry {
    ct: Some(FIRST),
    count_comm: true,
    count_overflow: true,
    ..ONCE
};

/// A put to index 1.
const TO_ONE: PutArgs = PutArgs { pt: 1, ..PUT };

/// The header of one of three bytes, which the first entry put at the start of the region, and of one of two bytes after them.
const THREE: UnexpectedHeader = UnexpectedHeader {
    entry: FIRST,
    place: 0,
    delivered: 3,
    header: Header {
        pt: 1,
        length: 3,
        ..HEADER
    },
};

const TWO: UnexpectedHeader = UnexpectedHeader {
    place: 3,
    delivered: 2,
    header: Header {
        pt: 1,
        length: 2,
        ..HEADER
    },
    ..THREE
};

/// The events of their taking, of a put of one byte, and of a search that finds nothing.
const THREE_TAKEN: Event = Event {
    kind: EventKind::PutOverflow,
    source: 1,
    requested: 3,
    delivered: 3,
    ..LINKED
};

const TWO_TAKEN: Event = Event {
    requested: 2,
    delivered: 2,
    place: 3,
    ..THREE_TAKEN
};

const ONE_PUT: Event = Event {
    kind: EventKind::Put,
    source: 1,
    requested: 1,
    delivered: 1,
    ..LINKED
};

const MISSED: Event = Event {
    kind: EventKind::Search,
    ok: false,
    ..LINKED
};

/// All that entries tell, at index 1: an overflow entry with the first options is filled and unlinked; entries with the second
/// options take its headers, a message, and search in vain. Each message and each header that is taken counts.
macro_rules! tells {
    ($behind:expr, $takes:expr) => {
        &[
            Here(EqAlloc(16), Made(0)),
            Here(CtAlloc, Made(0)),
            Here(PtAlloc(1, Some(FIRST)), Done),
            Here(MeAppend(1, List::Overflow, Entry { hidden: $behind, ..BEHIND }), Linked(0)),
            Comes(TO_ONE, &[1, 2, 3], Outcome::Overflow),
            Comes(TO_ONE, &[4, 5], Outcome::Overflow),
            Here(MeAppend(1, List::Priority, Entry { hidden: $takes, ..TAKES }), Consumed(THREE)),
            Here(MeAppend(1, List::Priority, Entry { hidden: $takes, ..TAKES }), Consumed(TWO)),
            Here(MeAppend(1, List::Priority, Entry { hidden: $takes, ..TAKES }), Linked(1)),
            Comes(TO_ONE, &[6], Outcome::Matched),
            Here(MeSearch(1, Entry { hidden: $takes, ..TAKES }, false), Nothing),
            Here(CtGet(FIRST), Counts(5, 0)),
        ]
    };
}

const NONE: HiddenEntryEvents = HiddenEntryEvents::NONE;

const UNLINK: HiddenEntryEvents = HiddenEntryEvents {
    unlink: true,
    ..NONE
};

fn no_option_hides_nothing() -> &'static [&'static [Step]] {
    const TOLD: &[Step] = &[HereTells(
        FIRST,
        &[
            LINKED,
            UNLINKED,
            THREE_TAKEN,
            TWO_TAKEN,
            FREED,
            LINKED,
            ONE_PUT,
            UNLINKED,
            MISSED,
        ],
    )];
    const SCRIPTS: &[&[Step]] = &[tells!(NONE, NONE), TOLD];
    SCRIPTS
}

fn links_are_hidden() -> &'static [&'static [Step]] {
    const LINK: HiddenEntryEvents = HiddenEntryEvents { link: true, ..NONE };
    const TOLD: &[Step] = &[HereTells(
        FIRST,
        &[
            UNLINKED,
            THREE_TAKEN,
            TWO_TAKEN,
            FREED,
            ONE_PUT,
            UNLINKED,
            MISSED,
        ],
    )];
    const SCRIPTS: &[&[Step]] = &[tells!(LINK, LINK), TOLD];
    SCRIPTS
}

fn messages_are_hidden() -> &'static [&'static [Step]] {
    const COMM: HiddenEntryEvents = HiddenEntryEvents { comm: true, ..NONE };
    const TOLD: &[Step] = &[HereTells(
        FIRST,
        &[
            LINKED,
            UNLINKED,
            THREE_TAKEN,
            TWO_TAKEN,
            FREED,
            LINKED,
            UNLINKED,
            MISSED,
        ],
    )];
    const SCRIPTS: &[&[Step]] = &[tells!(COMM, COMM), TOLD];
    SCRIPTS
}

fn headers_that_are_taken_are_hidden() -> &'static [&'static [Step]] {
    const OVERFLOW: HiddenEntryEvents = HiddenEntryEvents {
        overflow: true,
        ..NONE
    };
    const TOLD: &[Step] = &[HereTells(
        FIRST,
        &[LINKED, UNLINKED, FREED, LINKED, ONE_PUT, UNLINKED, MISSED],
    )];
    const SCRIPTS: &[&[Step]] = &[tells!(OVERFLOW, OVERFLOW), TOLD];
    SCRIPTS
}

fn successes_are_hidden() -> &'static [&'static [Step]] {
    const SUCCESS: HiddenEntryEvents = HiddenEntryEvents {
        success: true,
        ..NONE
    };
    const TOLD: &[Step] = &[HereTells(FIRST, &[MISSED])];
    const SCRIPTS: &[&[Step]] = &[tells!(SUCCESS, SUCCESS), TOLD];
    SCRIPTS
}

fn freeing_goes_by_the_overflow_entry() -> &'static [&'static [Step]] {
    const TOLD: &[Step] = &[HereTells(
        FIRST,
        &[
            LINKED,
            THREE_TAKEN,
            TWO_TAKEN,
            LINKED,
            ONE_PUT,
            UNLINKED,
            MISSED,
        ],
    )];
    const SCRIPTS: &[&[Step]] = &[tells!(UNLINK, NONE), TOLD];
    SCRIPTS
}

fn and_not_by_the_entry_that_takes() -> &'static [&'static [Step]] {
    const TOLD: &[Step] = &[HereTells(
        FIRST,
        &[
            LINKED,
            UNLINKED,
            THREE_TAKEN,
            TWO_TAKEN,
            FREED,
            LINKED,
            ONE_PUT,
            MISSED,
        ],
    )];
    const SCRIPTS: &[&[Step]] = &[tells!(NONE, UNLINK), TOLD];
    SCRIPTS
}

fn a_queue_loses_no_event_that_is_hidden() -> &'static [&'static [Step]] {
    const LINK: Entry = Entry {
        hidden: HiddenEntryEvents { link: true, ..NONE },
        ..ENTRY
    };
    const SCRIPT: &[Step] = &[
        Here(EqAlloc(1), Made(0)),
        Here(PtAlloc(1, Some(FIRST)), Done),
        Here(MeAppend(1, List::Priority, ENTRY), Linked(0)),
        Here(MeAppend(1, List::Priority, LINK), Linked(1)),
        Here(EqGet(FIRST), Got(LINKED)),
        Here(EqGet(FIRST), Empty),
    ];
    const SCRIPTS: &[&[Step]] = &[SCRIPT];
    SCRIPTS
}

/// A descriptor that counts acknowledgements and starts, with a queue.
const ASKING: Descriptor = Descriptor {
    eq: Some(FIRST),
    ct: Some(FIRST),
    count_send: true,
    count_ack: true,
    ..DESCRIPTOR
};

/// A put of two bytes to rank 1 that asks for an acknowledgement.
const ASKS: PutArgs = PutArgs {
    length: 2,
    ack: AckRequest::Ack,
    target: 1,
    ..PUT
};

/// The events of its start, and of its acknowledgement, which is ok or isn't.
const START_TOLD: Event = Event {
    kind: EventKind::Send,
    requested: 2,
    ..EVENT
};

const ACK_TOLD: Event = Event {
    kind: EventKind::Ack,
    source: 1,
    delivered: 2,
    ..EVENT
};

const FAILED: Event = Event {
    delivered: 0,
    ok: false,
    ..ACK_TOLD
};

/// Rank 0 puts twice with a descriptor of these options: an entry takes the first, and the second is dropped. Starts and
/// acknowledgements count.
macro_rules! asks {
    ($hidden:expr) => {
        &[
            There(PtAlloc(0, None), Done),
            There(MeAppend(0, List::Priority, ONCE), Linked(0)),
            Here(EqAlloc(8), Made(0)),
            Here(CtAlloc, Made(0)),
            Here(MdBind(Descriptor { hidden: $hidden, ..ASKING }), Made(0)),
            Here(Start(TriggeredOp::Put(ASKS)), Sent),
            There(Deliver, Replies(Outcome::Matched)),
            Here(Deliver, Became(Outcome::Answered)),
            Here(Start(TriggeredOp::Put(ASKS)), Sent),
            There(Deliver, Replies(Outcome::Dropped)),
            Here(Deliver, Became(Outcome::Answered)),
            Here(CtGet(FIRST), Counts(3, 1)),
        ]
    };
}

const SHOWN: HiddenDescriptorEvents = HiddenDescriptorEvents::NONE;

fn a_descriptor_tells_all() -> &'static [&'static [Step]] {
    const TOLD: &[Step] = &[HereTells(FIRST, &[START_TOLD, ACK_TOLD, START_TOLD, FAILED])];
    const SCRIPTS: &[&[Step]] = &[asks!(SHOWN), TOLD];
    SCRIPTS
}

fn starts_are_hidden() -> &'static [&'static [Step]] {
    const SEND: HiddenDescriptorEvents = HiddenDescriptorEvents {
        send: true,
        ..SHOWN
    };
    const TOLD: &[Step] = &[HereTells(FIRST, &[ACK_TOLD, FAILED])];
    const SCRIPTS: &[&[Step]] = &[asks!(SEND), TOLD];
    SCRIPTS
}

fn successes_of_a_descriptor_are_hidden() -> &'static [&'static [Step]] {
    const SUCCESS: HiddenDescriptorEvents = HiddenDescriptorEvents {
        success: true,
        ..SHOWN
    };
    const TOLD: &[Step] = &[HereTells(FIRST, &[FAILED])];
    const SCRIPTS: &[&[Step]] = &[asks!(SUCCESS), TOLD];
    SCRIPTS
}

#[test]
fn each_script(rt: HostRuntime) {
    plays!(&rt;
        no_option_hides_nothing,
        links_are_hidden,
        messages_are_hidden,
        headers_that_are_taken_are_hidden,
        successes_are_hidden,
        freeing_goes_by_the_overflow_entry,
        and_not_by_the_entry_that_takes,
        a_queue_loses_no_event_that_is_hidden,
        a_descriptor_tells_all,
        starts_are_hidden,
        successes_of_a_descriptor_are_hidden
    );
}
