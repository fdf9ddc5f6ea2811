//! Each rule that the arguments of a guarded call can break, by name; and that the interface is as it was.

use crate::comparing::gives;
use guarded_ni::{
    CallFault, Misuse, atomic, eq_alloc, fetch_atomic, fire, get, open, put, ready_at, swap,
    triggered, write_memory,
};
use portals_ni::{Nic, fit};
use ptl_types::{
    AckRequest, AtomicOp, Bytes, ElemType, GetArgs, Handle, Limits, NiFault, PutArgs, Rank, SwapOp,
    TriggeredOp,
};
use std::alloc::Global;
use std::process::Abort;

const MD: Handle = Handle { slot: 0, stamp: 0 };

const PUT: PutArgs = PutArgs {
    md: MD,
    local_offset: 0,
    length: 4,
    ack: AckRequest::NoAck,
    target: 1,
    pt: 0,
    match_bits: 5,
    remote_offset: 0,
    hdr_data: 0,
};

const GET: GetArgs = GetArgs {
    md: MD,
    local_offset: 0,
    length: 4,
    target: 1,
    pt: 0,
    match_bits: 5,
    remote_offset: 0,
};

const LONG: PutArgs = PutArgs {
    length: 4097,
    ..PUT
};

/// The most of everything that fits.
const MOST: Limits = Limits {
    entries: 1 << 31,
    unexpected: (1 << 31) - 1,
    cts: 1 << 27,
    triggered: 1 << 27,
    ..Limits::SMALL
};

/// One entry more, one counting event more, one operation more.
const UNFIT: &[Limits] = &[
    Limits {
        entries: (1 << 31) + 1,
        ..MOST
    },
    Limits {
        cts: (1 << 27) + 1,
        ..MOST
    },
    Limits {
        triggered: (1 << 27) + 1,
        ..MOST
    },
];

const STALE: CallFault = CallFault::Refused(NiFault::Stale);

/// An interface of one of two ranks.
fn opens<R: Abort + Alloc<A = Global>>(
    rt: &R,
    rank: Rank,
    limits: Limits,
) -> Result<Nic, CallFault> {
    let region = Bytes::of(rt.alloc(), &[0; 4]).expect(rt, "a region");
    open(rt.alloc(), rank, 2, limits, region)
}

fn side<R: Abort + Alloc<A = Global>>(rt: &R) -> Nic {
    opens(rt, 0, Limits::SMALL).expect(rt, "an interface")
}

/// Why a start by the call of its kind isn't made; a deed that counts starts none.
fn start_fault(nic: &mut Nic, deed: TriggeredOp) -> Option<CallFault> {
    match deed {
        TriggeredOp::Put(args) => put(nic, args).err(),
        TriggeredOp::Get(args) => get(nic, args).err(),
        TriggeredOp::Atomic(args, op, ty) => atomic(nic, args, op, ty).err(),
        TriggeredOp::FetchAtomic(back, args, op, ty) => fetch_atomic(nic, back, args, op, ty).err(),
        TriggeredOp::Swap(back, args, op, ty, operand) => swap(
            nic, back, args, op, ty, operand,
        ).err(),
        TriggeredOp::Inc(_, _) | TriggeredOp::Set(_, _) => None,
    }
}

fn triggered_fault(
    nic: &mut Nic,
    deed: TriggeredOp,
    ct: Handle,
    threshold: u64,
) -> Option<CallFault> {
    triggered(nic, deed, ct, threshold).err()
}

fn queue_fault(nic: &mut Nic, room: u32) -> Option<CallFault> {
    eq_alloc(nic, room).err()
}

fn writes(nic: &mut Nic, start: u64, bytes: &[u8]) -> Result<(), Misuse> {
    write_memory(nic, start, bytes)
}

fn ready_fault(nic: &Nic, i: u32) -> Option<Misuse> {
    ready_at(nic, i).err()
}

fn firing_fault(nic: &mut Nic, number: u32) -> Option<Misuse> {
    fire(nic, number).err()
}

/// Starts, and why each isn't made.
const PUTS_AND_GETS: &[(TriggeredOp, CallFault)] = &[
    (
        TriggeredOp::Put(PutArgs { target: 2, ..PUT }),
        CallFault::Misused(Misuse::UnknownRank),
    ),
    (TriggeredOp::Put(LONG), CallFault::Misused(Misuse::TooLong)),
    (
        TriggeredOp::Get(GetArgs {
            target: 2,
            length: 4097,
            ..GET
        }),
        CallFault::Misused(Misuse::UnknownRank),
    ),
    (TriggeredOp::Put(PUT), STALE),
    (TriggeredOp::Get(GET), STALE),
];

const SUM: AtomicOp = AtomicOp::Sum;

const ATOMICS_AND_SWAPS: &[(TriggeredOp, CallFault)] = &[
    (
        TriggeredOp::Atomic(PutArgs { length: 3, ..PUT }, SUM, ElemType::U16),
        CallFault::Misused(Misuse::PartialElement),
    ),
    (
        TriggeredOp::FetchAtomic(GetArgs { pt: 1, ..GET }, PUT, SUM, ElemType::U16),
        CallFault::Misused(Misuse::HalvesDiffer),
    ),
    (
        TriggeredOp::FetchAtomic(
            GET,
            PutArgs {
                ack: AckRequest::Ack,
                ..PUT
            },
            SUM,
            ElemType::U16,
        ),
        CallFault::Misused(Misuse::AsksAcknowledgement),
    ),
    (
        TriggeredOp::Swap(GET, PUT, SwapOp::Swap, ElemType::U16, 7),
        CallFault::Misused(Misuse::PartialElement),
    ),
    (
        TriggeredOp::Swap(GET, PUT, SwapOp::Swap, ElemType::U32, 7),
        STALE,
    ),
];

/// None of these starts is made, each for its reason.
fn are_refused(rt: &impl Abort, nic: &mut Nic, starts: &[(TriggeredOp, CallFault)]) {
    for (deed, fault) in starts {
        gives!(rt; start_fault(nic, *deed), Some(*fault));
    }
}

#[test]
fn puts_and_gets(rt: HostRuntime) {
    let mut nic = side(&rt);
    are_refused(&rt, &mut nic, PUTS_AND_GETS);
}

#[test]
fn atomics_and_swaps(rt: HostRuntime) {
    let mut nic = side(&rt);
    are_refused(&rt, &mut nic, ATOMICS_AND_SWAPS);
    let too_long = CallFault::Misused(Misuse::TooLong);
    gives!(rt; triggered_fault(&mut nic, TriggeredOp::Put(LONG), MD, 1), Some(too_long));
}

/// The first rule that is broken is answered: that of the rank before that of the limits.
#[test]
fn limits_that_do_not_fit(rt: HostRuntime) {
    gives!(rt; fit(&MOST), true);
    let unfit = CallFault::Misused(Misuse::UnfitLimits);
    let unknown = CallFault::Misused(Misuse::UnknownRank);
    for limits in UNFIT {
        gives!(rt; opens(&rt, 0, *limits).err(), Some(unfit));
        gives!(rt; opens(&rt, 2, *limits).err(), Some(unknown));
    }
}

#[test]
fn other_calls(rt: HostRuntime) {
    let unknown = CallFault::Misused(Misuse::UnknownRank);
    gives!(rt; opens(&rt, 2, Limits::SMALL).err(), Some(unknown));
    let mut nic = side(&rt);
    let no_room = CallFault::Misused(Misuse::NoRoom);
    gives!(rt; queue_fault(&mut nic, 0), Some(no_room));
    gives!(rt; writes(&mut nic, 3, &[1, 2]), Err(Misuse::OutsideRegion));
    gives!(rt; writes(&mut nic, 2, &[1, 2]), Ok(()));
    gives!(rt; nic.memory(), [0u8, 0, 1, 2].as_slice());
    gives!(rt; ready_fault(&nic, 0), Some(Misuse::NotReady));
    gives!(rt; firing_fault(&mut nic, 0), Some(Misuse::NotReady));
}
