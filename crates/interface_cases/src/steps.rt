//! What a script is made of.
//!
//! A handle stands in a script as its number among the things of its kind that the interface made: `FIRST` is the first
//! counting event in `CtGet(FIRST)`, and the first descriptor in `MdRelease(FIRST)`. Answers name handles in the same way.

use ptl_types::{
    Descriptor, Entry, Event, Handle, Header, Limits, List, NiFault, Outcome, PutArgs, TriggeredOp,
    UnexpectedHeader,
};

/// One step of a script. Rank 0 is here, and rank 1 is there. At most one message is under way between them.
#[derive(Clone, Copy)]
pub enum Step {
    /// A call of the interface of rank 0, and its answer.
    Here(Call, Answer),
    /// A call of the interface of rank 1, and its answer.
    There(Call, Answer),
    /// The region of rank 0 has these bytes.
    HereHolds(&'static [u8]),
    /// The region of rank 1 has these bytes.
    ThereHolds(&'static [u8]),
    /// This queue of rank 0 holds these events, the oldest first, and nothing more; they are taken out.
    HereTells(Handle, &'static [Event]),
    /// Rank 1 writes these bytes at the start of its region and puts them, with these arguments but for the length. This
    /// becomes of the message at rank 0, and no answer is asked for.
    Comes(PutArgs, &'static [u8], Outcome),
}

/// A call of an interface.
#[derive(Clone, Copy)]
pub enum Call {
    Rank,
    Ranks,
    Limits,
    Drops,
    Violations,
    Pending,
    WriteMemory(u64, &'static [u8]),
    PtAlloc(u32, Option<Handle>),
    PtFree(u32),
    CtAlloc,
    CtFree(Handle),
    CtGet(Handle),
    /// A counting event, the successes and the failures.
    CtSet(Handle, u64, u64),
    CtInc(Handle, u64, u64),
    CtCancel(Handle),
    EqAlloc(u32),
    EqFree(Handle),
    EqGet(Handle),
    MdBind(Descriptor),
    MdRelease(Handle),
    Awaits(Handle),
    MeAppend(u32, List, Entry),
    MeUnlink(Handle),
    /// A search by an entry, which deletes the header or doesn't.
    MeSearch(u32, Entry, bool),
    /// `put`, `get`, `atomic`, `fetch_atomic` or `swap`. Its message is under way then, and one that was is lost.
    Start(TriggeredOp),
    /// A deed that waits on a counting event for a threshold.
    Triggered(TriggeredOp, Handle, u64),
    IsReady(u32),
    Ready,
    /// Fires an operation. Its message, where there is one, is under way then.
    Fire(u32),
    /// `deliver` of the message under way. Its answer, where there is one, is under way then.
    Deliver,
    /// No call: whether the message under way has this header and these bytes.
    Carries(Header, &'static [u8]),
    /// No call: an acknowledgement from rank 1 to this descriptor, made by hand, is under way.
    ForgeAck(Handle),
    /// No call: a reply of the bytes 7 and 8 from rank 1 to this offset of a descriptor, made by hand, is under way.
    ForgeReply(Handle, u64),
}

/// What a call answers.
#[derive(Clone, Copy, Debug, PartialEq)]
pub enum Answer {
    /// `Ok`, or nothing.
    Done,
    /// The call is refused. All that the interface tells is as it was.
    Refused(NiFault),
    /// The handle of the counting event, event queue or descriptor of this number.
    Made(u64),
    /// The handle of the entry of this number, which is linked.
    Linked(u64),
    /// The entry took this header and isn't linked.
    Consumed(UnexpectedHeader),
    /// A search found this header.
    Found(UnexpectedHeader),
    /// Success and failure.
    Counts(u64, u64),
    Limited(Limits),
    /// A register, how many, or the number of a triggered operation.
    Number(u64),
    /// `None`: no header is found, no operation is ready, or a firing has no message.
    Nothing,
    Yes,
    No,
    /// The oldest event.
    Got(Event),
    /// The queue holds no event.
    Empty,
    /// An event was lost.
    Lost,
    /// A message, which is under way.
    Sent,
    /// This became of the message, and it has no answer.
    Became(Outcome),
    /// This became of the message, and its answer is under way.
    Replies(Outcome),
}
