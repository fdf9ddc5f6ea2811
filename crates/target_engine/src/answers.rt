//! Acknowledgements and replies.

ghost use Rattle.std.specs.Prelude.{◌≡◌, [], None, Some, true, false, length, if◌then◌else◌};
ghost use Rattle.ptl_types.specs.Messages.{message};
ghost use Rattle.ptl_types.specs.Kinds.{is_no_ack};
ghost use Rattle.ni_model.specs.Arrive.{ack_header, reply_header, answer, refused};

use crate::measures::is_put_or_atomic;
use crate::spare_buffers::SpareBuffers;
use ni_model::Arrived;
use ptl_types::{AckRequest, Bytes, Header, Message, MessageKind, Outcome};

/// The header of the acknowledgement: the message's with the ranks exchanged.
fn ack_header(ok: bool, count: u64, header: &Header) -> Header
    ensures { result ≡ ack_header ok count header.now }
{
    Header {
        kind: MessageKind::Ack,
        source: header.target,
        target: header.source,
        offset: 0,
        length: if ok { count } else { 0 },
        op: None,
        swap: None,
        operand: 0,
        ok,
        ..*header
    }
}

/// The header of the reply: that of the acknowledgement but for its kind. It asks for no acknowledgement.
fn reply_header(ok: bool, count: u64, header: &Header) -> Header
    ensures { result ≡ reply_header ok count header.now }
{
    Header {
        kind: MessageKind::Reply,
        ack: AckRequest::NoAck,
        ..ack_header(ok, count, header)
    }
}

/// The acknowledgement, where one was asked for. It has no bytes. Else the message's room is spare.
pub fn acknowledge(
    ok: bool,
    count: u64,
    header: &Header,
    mut bytes: Bytes,
    spares: &mut SpareBuffers,
) -> Option<Message>
    ensures { result ≡ (if is_no_ack header.now.ack then None else Some (message (ack_header ok count header.now) [])) }
{
    bytes.clear();
    match header.ack {
        AckRequest::NoAck => {
            spares.keep(bytes);
            None
        }
        _ => Some(Message::new(ack_header(ok, count, header), bytes)),
    }
}

/// The reply with these bytes.
pub fn reply(header: &Header, count: u64, bytes: Bytes) -> Message
    requires { length bytes.list ≡ count }
    ensures { result ≡ message (reply_header true count header.now) bytes.list }
{
    Message::new(reply_header(true, count, header), bytes)
}

/// The answer, not ok, to a message that wasn't delivered, where it asked for one.
fn refusal(message: Message, spares: &mut SpareBuffers) -> Option<Message>
    ensures { result ≡ answer false 0 [] message.header }
{
    let (header, mut bytes) = message.into_parts();
    if is_put_or_atomic(header.kind) {
        return acknowledge(false, 0, &header, bytes, spares);
    }
    bytes.clear();
    Some(Message::new(reply_header(false, 0, &header), bytes))
}

/// A message that wasn't delivered.
pub fn refused(outcome: Outcome, message: Message, spares: &mut SpareBuffers) -> Arrived
    ensures { result ≡ refused outcome message.header }
{
    Arrived {
        outcome,
        answer: refusal(message, spares),
        counted: None,
    }
}
