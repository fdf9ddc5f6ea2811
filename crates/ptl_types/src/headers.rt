//! What a message says of itself.

ghost use Rattle.std.specs.Prelude.{◌≡◌};
ghost use Rattle.ptl_types.specs.Kinds.{is_answer, lane_of};

use crate::{AtomicOp, ElemType, Handle, Rank, SwapOp};
use std::fmt;

/// What an initiator asks for when its put or atomic arrives (Portals 4.3, acknowledgement requests).
#[derive(Clone, Copy, Debug, PartialEq, Eq)]
pub enum AckRequest {
    /// No acknowledgement is sent.
    NoAck,
    /// An acknowledgement that is counted alone.
    CtAck,
    /// An acknowledgement that is counted and raises an event.
    Ack,
}

/// The kinds of message: five requests and two answers.
#[derive(Clone, Copy, Debug, PartialEq, Eq)]
pub enum MessageKind {
    /// Bytes for the target's memory.
    Put,
    /// A request for bytes of the target's memory.
    Get,
    /// Elements to be combined with the target's.
    Atomic,
    /// The same, answered with the target's old elements.
    FetchAtomic,
    /// One element for the target's, answered with the old one.
    Swap,
    /// The acknowledgement of a put or an atomic.
    Ack,
    /// The answer of a get, a fetch-atomic or a swap.
    Reply,
}

impl MessageKind {
    /// Whether this is an acknowledgement or a reply.
    pub fn is_answer(self) -> bool
        ensures { result ≡ is_answer self }
    {
        matches!(self, MessageKind::Ack | MessageKind::Reply)
    }

    /// The lane on which messages of this kind travel.
    pub fn lane(self) -> Lane
        ensures { result ≡ lane_of self }
    {
        match self {
            MessageKind::Ack | MessageKind::Reply => Lane::Answer,
            _ => Lane::Request,
        }
    }
}

impl fmt::Display for MessageKind {
    fn fmt<W: fmt::Write>(&self, f: &mut fmt::Formatter<W>) -> fmt::Result {
        f.write_str(match self {
            MessageKind::Put => "put",
            MessageKind::Get => "get",
            MessageKind::Atomic => "atomic",
            MessageKind::FetchAtomic => "fetch-atomic",
            MessageKind::Swap => "swap",
            MessageKind::Ack => "acknowledgement",
            MessageKind::Reply => "reply",
        })
    }
}

/// The two lanes from one rank to another. Messages of one lane keep their order; the two lanes have no common order.
#[derive(Clone, Copy, Debug, PartialEq, Eq)]
pub enum Lane {
    /// Puts, gets, atomics, fetch-atomics and swaps.
    Request,
    /// Acknowledgements and replies.
    Answer,
}

/// The header of a message.
///
/// Of a request it is what its start named. Of an answer it is the request's header with the ranks exchanged, offset 0,
/// the delivered length (0 where `ok` is false), neither `op` nor `swap`, and operand 0.
#[derive(Clone, Copy, Debug, PartialEq, Eq)]
pub struct Header {
    /// The kind of the message.
    pub kind: MessageKind,
    /// The rank that sent it.
    pub source: Rank,
    /// The rank that it is for.
    pub target: Rank,
    /// The portal table index at the target.
    pub pt: u32,
    /// The match bits.
    pub match_bits: u64,
    /// The remote offset, in bytes.
    pub offset: u64,
    /// The length, in bytes: asked for in a request, delivered in an answer.
    pub length: u64,
    /// Header data of the initiator, which an event shows to the target; 0 in a get.
    pub hdr_data: u64,
    /// The operation, exactly in an atomic and a fetch-atomic.
    pub op: Option<AtomicOp>,
    /// The operation, exactly in a swap.
    pub swap: Option<SwapOp>,
    /// The type of the elements; `U8` in a put and a get.
    pub ty: ElemType,
    /// The operand that a swap was given; else 0.
    pub operand: u64,
    /// What acknowledgement is asked for.
    pub ack: AckRequest,
    /// The initiator's descriptor that awaits the answer, where one is asked for.
    pub home: Option<Handle>,
    /// The offset in that descriptor at which a reply's bytes are written, in bytes.
    pub home_offset: u64,
    /// In an answer, whether the request was delivered; true in a request.
    pub ok: bool,
}

impl Header {
    /// The header of a put of no bytes from rank 0 to index 0 of rank 0, with match bits 0, that asks for no answer.
    pub const PLAIN: Header = Header {
        kind: MessageKind::Put,
        source: 0,
        target: 0,
        pt: 0,
        match_bits: 0,
        offset: 0,
        length: 0,
        hdr_data: 0,
        op: None,
        swap: None,
        ty: ElemType::U8,
        operand: 0,
        ack: AckRequest::NoAck,
        home: None,
        home_offset: 0,
        ok: true,
    };
}

impl fmt::Display for Header {
    fn fmt<W: fmt::Write>(&self, f: &mut fmt::Formatter<W>) -> fmt::Result {
        write!(
            f,
            "{} from rank {} to rank {} at index {}, match bits {:#x}, header data {}, {} bytes at offset {}{}",
            self.kind,
            self.source,
            self.target,
            self.pt,
            self.match_bits,
            self.hdr_data,
            self.length,
            self.offset,
            if self.ok { "" } else { ", failed" }
        )
    }
}
