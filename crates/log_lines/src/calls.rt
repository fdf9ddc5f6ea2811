//! The calls, as a log says them: handles by the device's own words.

use log_words::Word;
use log_words::call_fields::{EntrySaid, MdSaid, Opening};
use ptl_types::{Count, List, Rank, TriggeredOp};

/// A deed: an operation, or the count that a triggered operation makes.
#[derive(Drop)]
pub struct TriggeredOpSaid<'a> {
    /// All of it but the handles, which stand for nothing yet.
    pub deed: TriggeredOp,
    /// The word of the descriptor, or of the counting event that it counts on.
    pub on: Word<'a>,
    /// The word of the descriptor that a fetching operation's reply is written to.
    pub back: Option<Word<'a>>,
}

/// A call with its arguments.
#[derive(Drop)]
pub enum Call<'a> {
    /// `open`
    Open(Opening<'a>),
    /// `pt_alloc I [eq=Q]`
    PtAlloc(u32, Option<Word<'a>>),
    /// `pt_free I`
    PtFree(u32),
    /// `ct_alloc`
    CtAlloc,
    /// `ct_free C`
    CtFree(Word<'a>),
    /// `ct_get C`
    CtGet(Word<'a>),
    /// `ct_set C S F`
    CtSet(Word<'a>, Count),
    /// `ct_inc C S F`
    CtInc(Word<'a>, Count),
    /// `ct_cancel C`
    CtCancel(Word<'a>),
    /// `eq_alloc ROOM`
    EqAlloc(u32),
    /// `eq_free Q`
    EqFree(Word<'a>),
    /// `eq_get Q`
    EqGet(Word<'a>),
    /// `md_bind ..`
    MdBind(MdSaid<'a>),
    /// `md_release D`
    MdRelease(Word<'a>),
    /// `awaits D`
    Awaits(Word<'a>),
    /// `awaits_any`
    AwaitsAny,
    /// `me_append I LIST ..`
    MeAppend(u32, List, EntrySaid<'a>),
    /// `me_unlink M`
    MeUnlink(Word<'a>),
    /// `me_search I keep|delete ..`
    MeSearch(u32, bool, EntrySaid<'a>),
    /// `headers`
    Headers,
    /// `header I PLACE`
    Header(u32, u32),
    /// `put D ..`, `get D ..`, `atomic OP TYPE D ..`, `fetch_atomic OP TYPE D ..`, `swap OP TYPE D ..`
    Start(TriggeredOpSaid<'a>),
    /// `triggered T C THRESHOLD ..` and a deed
    Triggered(Word<'a>, Word<'a>, u64, TriggeredOpSaid<'a>),
    /// `is_ready T`
    IsReady(Word<'a>),
    /// `ready`
    Ready,
    /// `ready_count`
    ReadyCount,
    /// `ready_at PLACE`
    ReadyAt(u32),
    /// `ready_count_to RANK`
    ReadyCountTo(Rank),
    /// `lane_of T`
    LaneOf(Word<'a>),
    /// `fire T`
    Fire(Word<'a>),
    /// `deliver W`
    Deliver(Word<'a>),
    /// `read START LENGTH`
    Read(u64, u64),
    /// `write START HEX`, with the bytes in hexadecimal
    Write(u64, Word<'a>),
    /// `pending`
    Pending,
    /// `drops`
    Drops,
    /// `violations`
    Violations,
}

/// A call of one name.
#[derive(Clone, Copy)]
pub(crate) enum NameCall {
    CtGet,
    CtFree,
    CtCancel,
    EqGet,
    EqFree,
    MdRelease,
    Awaits,
    MeUnlink,
    IsReady,
    LaneOf,
    Fire,
    Deliver,
}

/// A call of one number below 2^32.
#[derive(Clone, Copy)]
pub(crate) enum NumberCall {
    EqAlloc,
    PtFree,
    ReadyAt,
    ReadyCountTo,
}
