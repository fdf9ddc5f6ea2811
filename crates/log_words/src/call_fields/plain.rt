//! What the fields of a call begin with: a field that isn't named is 0, none or empty.

ghost use Rattle.std.specs.Prelude.{◌≡◌};
ghost use Rattle.log_words.specs.call_fields.Plain.{no_limits, plain_entry, plain_md, plain_opening, plain_queue, plain_start};

use crate::call_fields::said::{
    EntrySaid, MdSaid, NO_HANDLE, Opening, QueueSaid, StartName, StartSaid,
};
use ptl_types::{AckRequest, Descriptor, Entry, Limits, PutArgs};

/// Limits of which none is named.
fn no_limits() -> Limits
    ensures { result ≡ no_limits }
{
    Limits {
        entries: 0,
        unexpected: 0,
        mds: 0,
        cts: 0,
        eqs: 0,
        pts: 0,
        triggered: 0,
        msg: 0,
        atomic: 0,
        fetch_atomic: 0,
    }
}

/// An interface.
pub fn plain_opening<'a>() -> Opening<'a>
    ensures { result ≡ plain_opening }
{
    Opening {
        limits: no_limits(),
        region: None,
    }
}

/// An index.
pub fn plain_queue<'a>() -> QueueSaid<'a>
    ensures { result ≡ plain_queue }
{
    QueueSaid { eq: None }
}

/// A descriptor.
pub fn plain_md<'a>() -> MdSaid<'a>
    ensures { result ≡ plain_md }
{
    MdSaid {
        md: Descriptor::PLAIN,
        eq: None,
        ct: None,
    }
}

/// An entry.
pub fn plain_entry<'a>() -> EntrySaid<'a>
    ensures { result ≡ plain_entry }
{
    let entry = Entry {
        allow_put: false,
        ..Entry::PLAIN
    };
    EntrySaid { entry, ct: None }
}

/// A start.
pub fn plain_start<'a>(name: StartName) -> StartSaid<'a>
    ensures { result ≡ plain_start name }
{
    let args = PutArgs {
        md: NO_HANDLE,
        local_offset: 0,
        length: 0,
        ack: AckRequest::NoAck,
        target: 0,
        pt: 0,
        match_bits: 0,
        remote_offset: 0,
        hdr_data: 0,
    };
    StartSaid {
        name,
        args,
        back: None,
        back_offset: 0,
        back_length: None,
        back_target: None,
        back_pt: None,
        back_bits: None,
        back_at: None,
        operand: 0,
    }
}
