//! Headers are taken in the order of arrival.

use crate::answers::gives;
use match_lists::unexpected::Headers;
use ni_model::IndexedHeader;
use ptl_types::{
    AckRequest, ElemType, Entry, Handle, Header, HiddenEntryEvents, MessageKind, UnexpectedHeader,
};
use std::test::Fail;

fn put(match_bits: u64, place: u64) -> IndexedHeader {
    let header = Header {
        kind: MessageKind::Put,
        source: 1,
        target: 0,
        pt: 1,
        match_bits,
        offset: 0,
        length: 1,
        hdr_data: 0,
        op: None,
        swap: None,
        ty: ElemType::U8,
        operand: 0,
        ack: AckRequest::NoAck,
        home: None,
        home_offset: 0,
        ok: true,
    };
    IndexedHeader {
        pt: 1,
        header: UnexpectedHeader {
            entry: Handle { slot: 0, stamp: 0 },
            place,
            delivered: 1,
            header,
        },
        hidden: HiddenEntryEvents::NONE,
    }
}

fn entry(match_bits: u64) -> Entry {
    Entry {
        start: 0,
        length: 1,
        ct: None,
        match_id: None,
        match_bits,
        ignore_bits: 0,
        min_free: 0,
        allow_put: true,
        allow_get: false,
        use_once: true,
        manage_local: false,
        no_truncate: false,
        count_comm: false,
        count_overflow: false,
        hidden: HiddenEntryEvents::NONE,
    }
}

#[test]
fn the_oldest_that_matches_is_taken(rt: HostRuntime) -> Result<(), Fail> {
    let mut headers = Headers::open(rt.alloc(), 2)?;
    gives!(rt; headers.at(1, 0).is_none(), true);
    for place in 0..2 {
        if !headers.is_full() {
            headers.add(put(5, place));
        }
    }
    gives!(rt; headers.is_full(), true);
    gives!(rt; headers.at(1, 1).map(|header| header.place), Some(1));
    gives!(rt; headers.at(0, 0).is_none(), true);
    gives!(rt; headers.names(Handle { slot: 0, stamp: 0 }), true);
    gives!(rt; headers.search(1, &entry(6)).is_none(), true);
    gives!(rt; headers.search(1, &entry(5)).map(|unexpected| unexpected.header.place), Some(0));
    gives!(rt; headers.take_oldest(1, &entry(5)).map(|unexpected| unexpected.header.place), Some(0));
    gives!(rt; headers.take_oldest(1, &entry(5)).map(|unexpected| unexpected.header.place), Some(1));
    gives!(rt; headers.take_oldest(1, &entry(5)).is_none(), true);
    Ok(())
}

#[test]
fn a_header_is_put_over_another_and_the_youngest_go(rt: HostRuntime) -> Result<(), Fail> {
    let mut headers = Headers::open(rt.alloc(), 2)?;
    let me = Handle { slot: 0, stamp: 0 };
    for (match_bits, place) in [(6, 0), (5, 1)] {
        if !headers.is_full() {
            headers.add(put(match_bits, place));
        }
    }
    assert_eq!(rt; headers.as_slice().len(), 2);
    let youngest = headers.as_slice()[1];
    headers.put_at(0, youngest);
    headers.truncate(1);
    gives!(rt; headers.names(me), true);
    gives!(rt; headers.as_slice().len(), 1);
    gives!(rt; headers.at(1, 0).map(|header| header.place), Some(1));
    gives!(rt; headers.at(1, 1).is_none(), true);
    Ok(())
}

#[test]
fn one_after_the_other_is_taken_where_one_has_room(rt: HostRuntime) -> Result<(), Fail> {
    let mut headers = Headers::open(rt.alloc(), 2)?;
    headers.add(put(7, 100));
    for place in 0..20 {
        if !headers.is_full() {
            headers.add(put(5, place));
            gives!(rt; headers.is_full(), true);
            let taken = headers
                .take_oldest(1, &entry(5))
                .map(|unexpected| unexpected.header.place);
            gives!(rt; taken, Some(place));
        }
    }
    gives!(rt; headers.as_slice().len(), 1);
    gives!(rt; headers.at(1, 0).map(|header| header.place), Some(100));
    Ok(())
}
