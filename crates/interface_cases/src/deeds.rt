//! Starts that an interface refuses in which the first and the second descriptor have eight bytes each: for each operation
//! one for each reason. Of a fetching operation a stale handle is told before a part that reaches past its end.

use crate::values::{GET, NOTHING, PUT, SECOND};
use ptl_types::{AtomicOp, ElemType, GetArgs, PutArgs, SwapOp, TriggeredOp};

const SUM: AtomicOp = AtomicOp::Sum;

const SWAP: SwapOp = SwapOp::Swap;

const U8: ElemType = ElemType::U8;

/// One byte of the first descriptor, and one that comes back to the second.
const BYTE: PutArgs = PutArgs { length: 1, ..PUT };

const BACK: GetArgs = GetArgs {
    md: SECOND,
    length: 1,
    ..GET
};

/// The same of a descriptor that isn't bound.
const STALE: PutArgs = PutArgs {
    md: NOTHING,
    ..BYTE
};

const STALE_BACK: GetArgs = GetArgs {
    md: NOTHING,
    ..BACK
};

/// The same of the byte after the descriptor.
const BEHIND: PutArgs = PutArgs {
    local_offset: 8,
    ..BYTE
};

const BEHIND_BACK: GetArgs = GetArgs {
    local_offset: 8,
    ..BACK
};

/// The same of a byte as far after it as can be.
const FAR: PutArgs = PutArgs {
    local_offset: u64::MAX,
    ..BYTE
};

const FAR_BACK: GetArgs = GetArgs {
    local_offset: u64::MAX,
    ..BACK
};

pub const PUT_BYTE: TriggeredOp = TriggeredOp::Put(BYTE);

pub const PUT_STALE: TriggeredOp = TriggeredOp::Put(STALE);

pub const PUT_BEHIND: TriggeredOp = TriggeredOp::Put(BEHIND);

pub const PUT_FAR: TriggeredOp = TriggeredOp::Put(FAR);

pub const GET_BYTE: TriggeredOp = TriggeredOp::Get(BACK);

pub const GET_STALE: TriggeredOp = TriggeredOp::Get(STALE_BACK);

pub const GET_BEHIND: TriggeredOp = TriggeredOp::Get(BEHIND_BACK);

pub const GET_FAR: TriggeredOp = TriggeredOp::Get(FAR_BACK);

pub const SUM_BYTE: TriggeredOp = TriggeredOp::Atomic(BYTE, SUM, U8);

pub const SUM_STALE: TriggeredOp = TriggeredOp::Atomic(STALE, SUM, U8);

pub const SUM_BEHIND: TriggeredOp = TriggeredOp::Atomic(BEHIND, SUM, U8);

pub const SUM_FAR: TriggeredOp = TriggeredOp::Atomic(FAR, SUM, U8);

pub const FETCH_BYTE: TriggeredOp = TriggeredOp::FetchAtomic(BACK, BYTE, SUM, U8);

pub const FETCH_STALE: TriggeredOp = TriggeredOp::FetchAtomic(BEHIND_BACK, STALE, SUM, U8);

pub const FETCH_STALE_BACK: TriggeredOp = TriggeredOp::FetchAtomic(STALE_BACK, BEHIND, SUM, U8);

pub const FETCH_BEHIND: TriggeredOp = TriggeredOp::FetchAtomic(BACK, BEHIND, SUM, U8);

pub const FETCH_BEHIND_BACK: TriggeredOp = TriggeredOp::FetchAtomic(BEHIND_BACK, BYTE, SUM, U8);

pub const FETCH_FAR: TriggeredOp = TriggeredOp::FetchAtomic(BACK, FAR, SUM, U8);

pub const FETCH_FAR_BACK: TriggeredOp = TriggeredOp::FetchAtomic(FAR_BACK, BYTE, SUM, U8);

pub const SWAP_BYTE: TriggeredOp = TriggeredOp::Swap(BACK, BYTE, SWAP, U8, 0);

pub const SWAP_STALE: TriggeredOp = TriggeredOp::Swap(BEHIND_BACK, STALE, SWAP, U8, 0);

pub const SWAP_STALE_BACK: TriggeredOp = TriggeredOp::Swap(STALE_BACK, BEHIND, SWAP, U8, 0);

pub const SWAP_BEHIND: TriggeredOp = TriggeredOp::Swap(BACK, BEHIND, SWAP, U8, 0);

pub const SWAP_BEHIND_BACK: TriggeredOp = TriggeredOp::Swap(BEHIND_BACK, BYTE, SWAP, U8, 0);

pub const SWAP_FAR: TriggeredOp = TriggeredOp::Swap(BACK, FAR, SWAP, U8, 0);

pub const SWAP_FAR_BACK: TriggeredOp = TriggeredOp::Swap(FAR_BACK, BYTE, SWAP, U8, 0);
