//! Lines with what they say, by hand.

use log_lines::{Call, Line, read_line};
use log_words::Flaw;
use ptl_types::{HiddenDescriptorEvents, HiddenEntryEvents, List, TriggeredOp};

/// A line, and the column and the flaw that it is refused with.
type Refused = (&'static [u8], usize, Flaw);

/// Each flaw of a line, at words of each kind.
static REFUSED: [Refused; 28] = [
    (b"", 1, Flaw::BadSpace),
    (b"0  ct_alloc -> c0", 3, Flaw::BadSpace),
    (b"0 ct_alloc -> c0 ", 18, Flaw::BadSpace),
    (b"0 ct_\x07alloc  -> c0", 6, Flaw::BadByte),
    (b"x ct_alloc -> c0", 1, Flaw::BadLine),
    (b"4294967296 ct_alloc -> c0", 1, Flaw::BadLine),
    (b"-> c0", 1, Flaw::BadLine),
    (b"0", 3, Flaw::BadLine),
    (b"0 ct_make -> c0", 3, Flaw::BadCall),
    (b"0 ct_get -> 0 0", 10, Flaw::BadLine),
    (b"0 ct_get c0 c1 -> 0 0", 13, Flaw::BadLine),
    (b"0 ct_get ? -> 0 0", 10, Flaw::BadWord),
    (b"0 ct_get Stale -> 0 0", 10, Flaw::BadWord),
    (b"0 ct_get c=0 -> 0 0", 10, Flaw::BadWord),
    (b"0 ct_set c0 01 0 -> ok", 13, Flaw::BadNumber),
    (b"0 ct_set c0 0xG 0 -> ok", 13, Flaw::BadNumber),
    (
        b"0 ct_set c0 18446744073709551616 0 -> ok",
        13,
        Flaw::BadNumber,
    ),
    (b"0 md_bind length=4 length=4 -> d0", 20, Flaw::WordTwice),
    (b"0 md_bind width=4 -> d0", 11, Flaw::BadWord),
    (b"0 md_bind send=1 -> d0", 11, Flaw::BadWord),
    (b"0 md_bind hide_link -> d0", 11, Flaw::BadWord),
    (b"0 md_bind hide_send=1 -> d0", 11, Flaw::BadWord),
    (b"0 md_bind hide_send hide_send -> d0", 21, Flaw::WordTwice),
    (b"0 me_append 0 priority hide_send -> m0", 24, Flaw::BadWord),
    (b"0 get d0 data=1 -> w0", 10, Flaw::BadWord),
    (b"0 write 0 abc -> ok", 11, Flaw::BadHex),
    (b"settle now", 8, Flaw::BadLine),
    (b"lose w0 -> ok", 9, Flaw::BadLine),
];

/// Whether the line is refused with this flaw at this column.
fn is_refused(line: &[u8], column: usize, flaw: Flaw) -> bool {
    match read_line(line) {
        Err(fault) => fault.column == column && fault.flaw == flaw,
        Ok(_) => false,
    }
}

#[test]
fn lines_that_are_refused(rt: HostRuntime) {
    for (line, column, flaw) in &REFUSED {
        assert!(rt; is_refused(line, *column, *flaw), "refused at {column}");
    }
}

/// Whether the call appends the entry that it says by hand.
fn is_append(call: &Call) -> bool {
    let Call::MeAppend(index, list, said) = call else {
        return false;
    };
    *index == 0
        && *list == List::Overflow
        && said.entry.match_bits == 255
        && said.entry.length == 4
        && said.entry.allow_put
        && !said.entry.allow_get
}

/// Whether rank 1 does so in this line, with its answer in column 50.
fn appends(line: &[u8]) -> bool {
    match read_line(line) {
        Ok(Line::Calls(rank, call, answer)) => rank == 1
            && answer.column() == 50
            && is_append(&call),
        _ => false,
    }
}

#[test]
fn an_append(rt: HostRuntime) {
    assert!(rt;
        appends(b"1 me_append 0 overflow put bits=0xff length=4 -> linked m0"),
        "an append"
    );
}

/// Whether the line posts the setting of a counting event that it says by hand.
fn is_triggered_set(line: &[u8]) -> bool {
    let Ok(Line::Calls(_, Call::Triggered(name, ct, threshold, said), _)) = read_line(line) else {
        return false;
    };
    let TriggeredOp::Set(_, to) = said.deed else {
        return false;
    };
    coll_text::is(name.text(), b"t0")
        && ct.column() == 16
        && threshold == 3
        && coll_text::is(said.on.text(), b"c1")
        && to.success == 5
        && to.failure == 6
}

#[test]
fn a_triggered_set(rt: HostRuntime) {
    assert!(rt;
        is_triggered_set(b"0 triggered t0 c0 3 set c1 5 0x6 -> ok"),
        "a triggered set"
    );
}

const SHOWN: HiddenEntryEvents = HiddenEntryEvents::NONE;

/// What an entry hides by its flags.
static ENTRIES: [(&'static [u8], HiddenEntryEvents); 7] = [
    (b"0 me_append 0 priority put -> m0", SHOWN),
    (
        b"0 me_append 0 priority hide_link put -> m0",
        HiddenEntryEvents {
            link: true,
            ..SHOWN
        },
    ),
    (
        b"0 me_append 0 overflow hide_unlink -> m0",
        HiddenEntryEvents {
            unlink: true,
            ..SHOWN
        },
    ),
    (
        b"0 me_append 0 priority comm hide_comm -> m0",
        HiddenEntryEvents {
            comm: true,
            ..SHOWN
        },
    ),
    (
        b"0 me_append 0 priority hide_overflow -> m0",
        HiddenEntryEvents {
            overflow: true,
            ..SHOWN
        },
    ),
    (
        b"0 me_append 0 priority hide_success -> m0",
        HiddenEntryEvents {
            success: true,
            ..SHOWN
        },
    ),
    (
        b"0 me_append 0 priority hide_success hide_link -> m0",
        HiddenEntryEvents {
            link: true,
            success: true,
            ..SHOWN
        },
    ),
];

/// What the entry of this append hides.
fn hidden_by(line: &[u8]) -> Option<HiddenEntryEvents> {
    match read_line(line) {
        Ok(Line::Calls(_, Call::MeAppend(_, _, said), _)) => Some(said.entry.hidden),
        _ => None,
    }
}

#[test]
fn entries_that_hide(rt: HostRuntime) {
    for (line, hidden) in &ENTRIES {
        assert_eq!(rt; hidden_by(line), Some(*hidden));
    }
}

/// What a descriptor hides by its flags.
static DESCRIPTORS: [(&'static [u8], bool, bool); 4] = [
    (b"0 md_bind send -> d0", false, false),
    (b"0 md_bind hide_send -> d0", true, false),
    (b"0 md_bind hide_success ack -> d0", false, true),
    (b"0 md_bind hide_success hide_send -> d0", true, true),
];

/// What the descriptor of this line hides.
fn descriptor_hides(line: &[u8]) -> Option<HiddenDescriptorEvents> {
    match read_line(line) {
        Ok(Line::Calls(_, Call::MdBind(said), _)) => Some(said.md.hidden),
        _ => None,
    }
}

#[test]
fn descriptors_that_hide(rt: HostRuntime) {
    for (line, send, success) in &DESCRIPTORS {
        let hidden = HiddenDescriptorEvents {
            send: *send,
            success: *success,
        };
        assert_eq!(rt; descriptor_hides(line), Some(hidden));
    }
}
