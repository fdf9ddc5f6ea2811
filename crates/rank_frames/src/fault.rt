//! Why a rank stops before its time.

use message_codec::Fault;

/// What is wrong with a frame: the first of these that holds.
#[derive(Clone, Copy, Debug, PartialEq, Eq)]
pub enum FrameFault {
    /// The mark of the start has bytes, or comes again.
    Mark,
    /// The frame is of no rank of the plan.
    Source,
    /// The frame is longer than any that may still come.
    TooLong,
    /// Its bytes are no message.
    Message(Fault),
    /// The message names another source than its frame.
    OtherSource,
    /// The message is for another rank.
    OtherTarget,
    /// The message is of another job.
    OtherJob,
    /// The lane carries no further message.
    Lane,
    /// An answer where none is awaited.
    NotAwaited,
    /// More bytes than all messages to this rank have.
    TooMany,
}

/// Why a rank stops before its time.
#[derive(Clone, Copy, Debug, PartialEq, Eq)]
pub enum Stop {
    /// The source failed, or ended.
    Read,
    /// The sink failed.
    Write,
    /// There was no memory, or a message is longer than a frame can tell.
    NoMemory,
    /// A frame was refused. Nothing was done by it.
    Frame(FrameFault),
}
