//! Messages between two interfaces.

ghost use Rattle.std.specs.Prelude.{◌≡◌};
ghost use Rattle.ptl_types.specs.Messages.{message, FillsHeader};

use crate::{Bytes, Header};
use std::marker::Model;

/// A header and the bytes that go with it.
///
/// A message keeps that its bytes are those that its header speaks of: as many as the header's length in a put, an atomic,
/// a fetch-atomic, a swap and an ok reply, none in an acknowledgement and a failed reply, and none but room for the length
/// in a get. Elements are whole, an operation is there exactly where its kind has one, and a swap has one element.
#[derive(Debug, Drop)]
pub struct Message {
    header: Header,
    bytes: Bytes,
}

impl Model for Message {
    ghost use Rattle.ptl_types.specs.Messages.{Sent, message, FillsHeader};

    ghost Value = { Sent };

    ghost view = { λ m. message m.header m.bytes.list };

    ghost invariant = { λ m. FillsHeader m.header m.bytes };
}

impl Message {
    /// The message of this header and these bytes.
    pub fn new(header: Header, bytes: Bytes) -> Message
        requires { FillsHeader header bytes }
        ensures { result ≡ message header bytes.list }
    {
        Message { header, bytes }
    }

    /// The header and the bytes, whose room may serve an answer.
    pub fn into_parts(self) -> (Header, Bytes)
        ensures header { result.0 ≡ self.header }
        ensures list { result.1.list ≡ self.bytes }
        ensures kept { FillsHeader self.header result.1 }
    {
        let Message { header, bytes } = self;
        (header, bytes)
    }

    /// The header.
    pub fn header(&self) -> &Header
        ensures { result.now ≡ self.now.header }
    {
        &self.header
    }

    /// The bytes, with their room.
    pub fn bytes(&self) -> &Bytes
        ensures list { result.now.list ≡ self.now.bytes }
        ensures kept { FillsHeader self.now.header result.now }
    {
        &self.bytes
    }
}
