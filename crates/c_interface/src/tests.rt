//! The calls as C makes them: a put with its acknowledgement between two interfaces, an operation that is triggered, and misuse.

use crate::counting::{PtlCTAlloc, PtlCTGet, PtlCTInc};
use crate::entries::{PtlMDBind, PtlMEAppend, PtlPTAlloc};
use crate::forms::{CCount, CDescriptor, CEntry, CHandle, CLimits};
use crate::interfaces::{PtlNIFini, PtlNIInit, SfRead};
use crate::messages::CMessage;
use crate::starts::PtlPut;
use crate::statuses::{CLOSED, OK, OPEN, SHORT};
use crate::triggers::PtlTriggeredPut;
use crate::wires::{SfDeliver, SfFire, SfReady, SfReadyAt};
use nic_handles::NiHandle;
use std::alloc::Global;
use std::process::Abort;

const LIMITS: CLimits = CLimits {
    max_entries: 4,
    max_unexpected_headers: 2,
    max_mds: 2,
    max_cts: 2,
    max_eqs: 1,
    max_pt_index: 2,
    max_triggered_ops: 4,
    max_msg_size: 16,
    max_atomic_size: 8,
    max_fetch_atomic_size: 8,
};

const ENTRY: CEntry = CEntry {
    start: 0,
    length: 4,
    ct_handle: CHandle::NONE,
    options: 1,
    match_id: u32::MAX,
    match_bits: 5,
    ignore_bits: 0,
    min_free: 0,
};

const BLANK: CMessage = CMessage {
    kind: 0,
    source: 0,
    target: 0,
    pt_index: 0,
    ack_req: 0,
    operation: 0,
    swap: 0,
    datatype: 0,
    ok: 0,
    home: CHandle::NONE,
    home_offset: 0,
    match_bits: 0,
    offset: 0,
    length: 0,
    hdr_data: 0,
    operand: 0,
    bytes: 0,
};

/// Rank 1, with an entry over its region.
fn open_target(rt: &impl Abort, alloc: Global) -> NiHandle {
    let mut ni = NiHandle::none();
    let mut me = CHandle::NONE;
    assert_eq!(rt; PtlNIInit(alloc, 1, 2, &LIMITS, &[0, 0, 0, 0], &mut ni), OK);
    assert_eq!(rt; PtlPTAlloc(alloc, &mut ni, 0, CHandle::NONE), OK);
    assert_eq!(rt; PtlMEAppend(alloc, &mut ni, 0, &ENTRY, 0, &mut me), OK);
    ni
}

/// Rank 0, with a counting event and a descriptor over its region, which counts acknowledgements there.
fn open_initiator(rt: &impl Abort, alloc: Global) -> (NiHandle, CHandle, CHandle) {
    let mut ni = NiHandle::none();
    let (mut ct, mut md) = (CHandle::NONE, CHandle::NONE);
    assert_eq!(rt; PtlNIInit(alloc, 0, 2, &LIMITS, &[1, 2, 3, 4], &mut ni), OK);
    assert_eq!(rt; PtlCTAlloc(alloc, &mut ni, &mut ct), OK);
    let descriptor = CDescriptor {
        start: 0,
        length: 4,
        options: 4,
        eq_handle: CHandle::NONE,
        ct_handle: ct,
    };
    assert_eq!(rt; PtlMDBind(alloc, &mut ni, &descriptor, &mut md), OK);
    (ni, ct, md)
}

#[test]
fn a_put_and_a_triggered_one_between_two(rt: HostRuntime) {
    let alloc = rt.alloc();
    let mut target = open_target(&rt, alloc);
    let (mut ni, ct, md) = open_initiator(&rt, alloc);
    let (mut put, mut answer, mut none) = (BLANK, BLANK, BLANK);
    let (mut bytes, mut back, mut held) = ([0; 16], [0; 16], [0; 4]);
    let (mut outcome, mut answered, mut number, mut ready) = (9, 9, 9, 9);
    let mut count = CCount {
        success: 0,
        failure: 0,
    };

    assert_eq!(rt;
        PtlPut(
            alloc, &mut ni, md, 2, 2, 1, 1, 0, 5, 0, 0, &mut put, &mut bytes
        ),
        OK
    );
    assert_eq!(rt;
        SfDeliver(
            alloc,
            &mut target,
            &put,
            &bytes[..2],
            &mut outcome,
            &mut answered,
            &mut answer,
            &mut back
        ),
        OK
    );
    assert_eq!(rt; (outcome, answered), (0, 1));
    assert_eq!(rt; SfRead(alloc, &mut target, 0, &mut held), OK);
    assert_eq!(rt; held, [3, 4, 0, 0]);
    assert_eq!(rt;
        SfDeliver(
            alloc,
            &mut ni,
            &answer,
            &[],
            &mut outcome,
            &mut answered,
            &mut none,
            &mut bytes
        ),
        OK
    );
    assert_eq!(rt; (outcome, answered), (2, 0));
    assert_eq!(rt; PtlCTGet(alloc, &mut ni, ct, &mut count), OK);
    assert_eq!(rt; (count.success, count.failure), (1, 0));

    assert_eq!(rt;
        PtlTriggeredPut(
            alloc,
            &mut ni,
            md,
            0,
            4,
            0,
            1,
            0,
            5,
            0,
            0,
            ct,
            2,
            &mut number
        ),
        OK
    );
    assert_eq!(rt;
        PtlCTInc(
            alloc,
            &mut ni,
            ct,
            CCount {
                success: 1,
                failure: 0
            }
        ),
        OK
    );
    assert_eq!(rt; SfReady(alloc, &mut ni, &mut ready), OK);
    assert_eq!(rt; ready, 1);
    assert_eq!(rt; SfReadyAt(alloc, &mut ni, 0, &mut number), OK);
    assert_eq!(rt;
        SfFire(alloc, &mut ni, number, &mut ready, &mut put, &mut bytes),
        OK
    );
    assert_eq!(rt;
        SfDeliver(
            alloc,
            &mut target,
            &put,
            &bytes[..4],
            &mut outcome,
            &mut answered,
            &mut answer,
            &mut back
        ),
        OK
    );
    assert_eq!(rt; SfRead(alloc, &mut target, 0, &mut held), OK);
    assert_eq!(rt; held, [1, 2, 3, 4]);
    assert_eq!(rt; PtlNIFini(alloc, &mut ni), OK);
    assert_eq!(rt; PtlNIFini(alloc, &mut target), OK);
    assert_eq!(rt; PtlNIFini(alloc, &mut target), CLOSED);
}

#[test]
fn misuse_answers_a_status(rt: HostRuntime) {
    let alloc = rt.alloc();
    let (mut ni, _ct, md) = open_initiator(&rt, alloc);
    let mut put = BLANK;
    let mut bytes = [0; 15];
    assert_eq!(rt; PtlNIInit(alloc, 0, 2, &LIMITS, &[], &mut ni), OPEN);
    assert_eq!(rt;
        PtlPut(
            alloc, &mut ni, md, 0, 4, 0, 1, 0, 5, 0, 0, &mut put, &mut bytes
        ),
        SHORT
    );
    assert_eq!(rt; PtlNIFini(alloc, &mut ni), OK);
    assert_eq!(rt;
        PtlPut(
            alloc, &mut ni, md, 0, 4, 0, 1, 0, 5, 0, 0, &mut put, &mut bytes
        ),
        CLOSED
    );
}
