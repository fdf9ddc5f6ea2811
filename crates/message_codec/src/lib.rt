//! Messages as bytes, and back: 80 bytes of header, little-endian, and then the bytes that go with it. One message has one
//! encoding, and what is no encoding is refused by name.
#![tactic(auto)]

mod codes;
mod decoding;
mod encoding;
mod fault;

pub use decoding::decode;
pub use encoding::encode;
pub use fault::{DecodeError, Fault};

/// How many bytes the header of a message has.
pub const HEADER: usize = 80;
