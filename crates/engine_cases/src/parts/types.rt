//! That the calls succeed with ample memory, and worked cases of matching.

use crate::answers::gives;
use ptl_types::{
    Bytes, Count, Descriptor, Entry, EqGot, Event, EventKind, Handle, Header, NiFault, NoMemory,
    Outcome, UnexpectedHeader, matches,
};
use std::test::Fail;

#[test]
fn bytes_keep_their_list_and_their_room(rt: HostRuntime) -> Result<(), Fail> {
    let mut bytes = Bytes::with_room(rt.alloc(), 4)?;
    gives!(rt; bytes.room(), 4);
    gives!(rt; bytes.len(), 0);
    bytes.fill(&[7, 8, 9]);
    gives!(rt; bytes.as_slice(), [7, 8, 9].as_slice());
    bytes.clear();
    gives!(rt; bytes.len(), 0);
    gives!(rt; bytes.room(), 4);
    let copy = Bytes::of(rt.alloc(), &[1, 2])?;
    gives!(rt; copy.as_slice(), [1, 2].as_slice());
    gives!(rt; copy.room(), 2);
    gives!(rt; Bytes::empty(rt.alloc()).room(), 0);
    let items = copy.into_vec();
    gives!(rt; Bytes::from_vec(items).len(), 2);
    Ok(())
}

fn a_put(match_bits: u64, source: u32) -> Header {
    Header {
        match_bits,
        source,
        length: 2,
        ..Header::PLAIN
    }
}

fn an_entry(match_bits: u64, ignore_bits: u64, match_id: Option<u32>) -> Entry {
    Entry {
        match_id,
        match_bits,
        ignore_bits,
        ..Entry::over(0, 4)
    }
}

#[test]
fn entries_match_by_bits_and_source(rt: HostRuntime) {
    let cases = [
        (5, 0, None, 5, 1, true),
        (5, 0, None, 7, 1, false),
        (5, 2, None, 7, 1, true),
        (
            0x0001_0000_0003_0000,
            0xffff,
            None,
            0x0001_0000_0003_0002,
            2,
            true,
        ),
        (
            0x0001_0000_0003_0000,
            0xffff,
            None,
            0x0001_0000_0004_0002,
            2,
            false,
        ),
        (u64::MAX, u64::MAX, None, 0, 0, true),
        (1 << 63, 0, None, 0, 0, false),
        (5, 0, Some(1), 5, 1, true),
        (5, 0, Some(1), 5, 2, false),
    ];
    for (bits, ignore, from, sent, source, want) in cases {
        let found = matches(&an_entry(bits, ignore, from), &a_put(sent, source));
        assert_eq!(rt; found, want, "at {sent:x} from {source}");
    }
}

#[test]
fn an_event_is_printed(rt: HostRuntime) -> Result<(), Fail> {
    let alloc = rt.alloc();
    let event = Event {
        kind: EventKind::PutOverflow,
        source: 3,
        pt: 1,
        match_bits: 0x1f,
        hdr_data: 9,
        requested: 8,
        delivered: 4,
        place: 16,
        ok: false,
    };
    let text = format!(in alloc; "{event}")?;
    assert_eq!(rt;
        text.as_str(),
        "put from overflow from rank 3 at index 1, match bits 0x1f, header data 9, 4 of 8 bytes at 16, failed"
    );
    let got = format!(in alloc; "{}", EqGot::Got(Event { ok: true, ..event }))?;
    assert_eq!(rt;
        got.as_str(),
        "put from overflow from rank 3 at index 1, match bits 0x1f, header data 9, 4 of 8 bytes at 16"
    );
    Ok(())
}

#[test]
fn an_unexpected_header_is_printed(rt: HostRuntime) -> Result<(), Fail> {
    let taken = UnexpectedHeader {
        entry: Handle { slot: 2, stamp: 7 },
        place: 16,
        delivered: 4,
        header: a_put(5, 3),
    };
    let text = format!(in rt.alloc(); "{taken}")?;
    assert_eq!(rt;
        text.as_str(),
        "put from rank 3 to rank 0 at index 0, match bits 0x5, header data 0, 2 bytes at offset 0; 4 of its bytes at 16 by entry number 7 in slot 2"
    );
    Ok(())
}

#[test]
fn a_count_an_outcome_and_a_fault_are_printed(rt: HostRuntime) -> Result<(), Fail> {
    let text = format!(in rt.alloc();
        "{}; {}; {}",
        Count {
            success: 2,
            failure: 1
        },
        Outcome::Matched,
        NiFault::from(NoMemory)
    )?;
    assert_eq!(rt;
        text.as_str(),
        "2 succeeded, 1 failed; taken by a priority entry; out of memory"
    );
    Ok(())
}

#[test]
fn a_plain_descriptor_lies_over_a_part(rt: HostRuntime) {
    gives!(rt; Descriptor::over(3, 5).start, 3);
}
