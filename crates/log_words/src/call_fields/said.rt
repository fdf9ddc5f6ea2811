//! What the fields of a call are of, as a log says it: handles by the device's own words.

use crate::Word;
use ptl_types::{Descriptor, Entry, Handle, Limits, PutArgs, Rank};

/// A handle that no thing ever has: a table gives no such stamp.
pub const NO_HANDLE: Handle = Handle {
    slot: 0,
    stamp: 18_446_744_073_709_551_615,
};

/// What an interface is opened with.
#[derive(Drop)]
pub struct Opening<'a> {
    /// The limits; one that isn't named is 0.
    pub limits: Limits,
    /// The bytes of the region in hexadecimal, where it is named.
    pub region: Option<Word<'a>>,
}

/// A match entry.
#[derive(Drop)]
pub struct EntrySaid<'a> {
    /// All of it but the counting event.
    pub entry: Entry,
    /// The word of the counting event, where one is named.
    pub ct: Option<Word<'a>>,
}

/// A memory descriptor.
#[derive(Drop)]
pub struct MdSaid<'a> {
    /// All of it but what it names.
    pub md: Descriptor,
    /// The word of the event queue, where one is named.
    pub eq: Option<Word<'a>>,
    /// The word of the counting event, where one is named.
    pub ct: Option<Word<'a>>,
}

/// The event queue of an index, as `pt_alloc` names it.
#[derive(Drop)]
pub struct QueueSaid<'a> {
    /// Its word, where one is named.
    pub eq: Option<Word<'a>>,
}

/// What is started.
#[derive(Clone, Copy)]
pub enum StartName {
    /// `put`
    Put,
    /// `get`
    Get,
    /// `atomic`
    Atomic,
    /// `fetch_atomic`
    FetchAtomic,
    /// `swap`
    Swap,
}

/// The fields of a start. The handles of `args` stand for nothing yet.
#[derive(Drop)]
pub struct StartSaid<'a> {
    /// What is started, which says which fields it has.
    pub name: StartName,
    /// The arguments of a put, an atomic, or the sending half of a fetching operation; of a get those that it has.
    pub args: PutArgs,
    /// The word of the descriptor that a fetching operation's reply is written to.
    pub back: Option<Word<'a>>,
    /// Where in it.
    pub back_offset: u64,
    /// What the getting half names otherwise than the sending half.
    pub back_length: Option<u64>,
    /// The same of the target.
    pub back_target: Option<Rank>,
    /// The same of the portal table index.
    pub back_pt: Option<u32>,
    /// The same of the match bits.
    pub back_bits: Option<u64>,
    /// The same of the offset at the target.
    pub back_at: Option<u64>,
    /// The operand of a swap.
    pub operand: u64,
}
