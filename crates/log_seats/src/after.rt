//! What is owed after a call.

ghost use Rattle.std.specs.Prelude.{◌≡◌, IfOk, None};
ghost use Rattle.log_seats.specs.Answers.{IsRefused, fault_word, misuse_word, new, number, ok, says, told, yes};

use guarded_ni::{CallFault, Misuse};
use log_answers::{Owed, Sort, Text};
use ptl_types::{Handle, Message, NiFault, NoMemory};

/// What is owed after a call, and the message that it sent.
#[derive(Drop)]
pub struct After {
    /// What is owed as the answer.
    pub owed: Owed,
    /// The message.
    pub sent: Option<Message>,
}

/// An answer without a message.
pub fn told(owed: Owed) -> After
    ensures { result ≡ record { owed = owed; sent = None } }
{
    After { owed, sent: None }
}

/// A word.
pub fn word(word: &'static [u8]) -> Owed
    ensures { result ≡ says word.now }
{
    Owed::Word(Text::of(word))
}

/// Whether something is so.
pub(crate) fn yes(holds: bool) -> Owed
    ensures { result ≡ yes holds }
{
    if holds { word(b"yes") } else { word(b"no") }
}

/// The word of a refusal.
pub(crate) fn fault_word(fault: NiFault) -> Owed
    ensures { result ≡ says (fault_word fault) }
{
    match fault {
        NiFault::Stale => word(b"Stale"),
        NiFault::NoSpace => word(b"NoSpace"),
        NiFault::OutOfRegion => word(b"OutOfRegion"),
        NiFault::InUse => word(b"InUse"),
        NiFault::CountFull => word(b"CountFull"),
        NiFault::NoMemory => word(b"NoMemory"),
    }
}

/// The word of a rule that is broken.
pub fn misuse_word(misuse: Misuse) -> Owed
    ensures { result ≡ says (misuse_word misuse) }
{
    match misuse {
        Misuse::UnknownRank => word(b"UnknownRank"),
        Misuse::UnfitLimits => word(b"UnfitLimits"),
        Misuse::TooLong => word(b"TooLong"),
        Misuse::PartialElement => word(b"PartialElement"),
        Misuse::HalvesDiffer => word(b"HalvesDiffer"),
        Misuse::AsksAcknowledgement => word(b"AsksAcknowledgement"),
        Misuse::NoRoom => word(b"NoRoom"),
        Misuse::OutsideRegion => word(b"OutsideRegion"),
        Misuse::Elsewhere => word(b"Elsewhere"),
        Misuse::NotReady => word(b"NotReady"),
    }
}

/// A call that is refused. The judge's own want of memory is no answer.
pub fn refused(fault: CallFault) -> Result<Owed, NoMemory>
    ensures { IfOk result (IsRefused fault) }
{
    match fault {
        CallFault::Refused(NiFault::NoMemory) => Err(NoMemory),
        CallFault::Refused(fault) => Ok(fault_word(fault)),
        CallFault::Misused(misuse) => Ok(misuse_word(misuse)),
    }
}

/// A call that answers nothing but that it was made.
pub(crate) fn done(answer: Result<(), NiFault>) -> Owed
    ensures { result ≡ told ok answer }
{
    match answer {
        Ok(()) => word(b"ok"),
        Err(fault) => fault_word(fault),
    }
}

/// A number, or a refusal.
pub(crate) fn amount(answer: Result<u64, NiFault>) -> Owed
    ensures { result ≡ told number answer }
{
    match answer {
        Ok(n) => Owed::Amount(n),
        Err(fault) => fault_word(fault),
    }
}

/// A new thing, or a refusal.
pub(crate) fn made(sort: Sort, answer: Result<Handle, NiFault>) -> Owed
    ensures { result ≡ told (new sort) answer }
{
    match answer {
        Ok(handle) => Owed::New(sort, handle),
        Err(fault) => fault_word(fault),
    }
}
