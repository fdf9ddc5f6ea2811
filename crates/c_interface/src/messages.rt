//! Messages in the form that C has them: a header of numbers, and bytes beside it.

use crate::forms::CHandle;

/// `sf_message_t`: a message's header, and how many bytes go with it.
#[repr(C)]
#[derive(Clone, Copy)]
pub struct CMessage {
    pub kind: u32,
    pub source: u32,
    pub target: u32,
    pub pt_index: u32,
    pub ack_req: u32,
    /// 0 where there is none, else one more than the operation's number.
    pub operation: u32,
    /// 0 where there is none, else one more than the swap's number.
    pub swap: u32,
    pub datatype: u32,
    /// 1 where it went well, else 0.
    pub ok: u32,
    pub home: CHandle,
    pub home_offset: u64,
    pub match_bits: u64,
    pub offset: u64,
    pub length: u64,
    pub hdr_data: u64,
    pub operand: u64,
    pub bytes: u64,
}
