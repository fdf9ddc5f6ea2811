//! The numbers that calls answer.

ghost use Rattle.std.specs.Prelude.{◌≡◌};
ghost use Rattle.c_interface.specs.Statuses.{fault_number, misuse_number, refusal_number};

use guarded_ni::{CallFault, Misuse};
use ptl_types::NiFault;

/// The call was made.
pub const OK: u32 = 0;
/// There was no memory.
pub const NO_MEMORY: u32 = 6;
/// A part reaches past the region.
pub const OUTSIDE: u32 = 23;
/// The handle holds no interface.
pub const CLOSED: u32 = 32;
/// The handle holds an interface already.
pub const OPEN: u32 = 33;
/// A buffer of the caller's is too short.
pub const SHORT: u32 = 34;
/// A number names no operation, type, list, acknowledgement or option.
pub const UNKNOWN: u32 = 35;
/// The header and the bytes are no message.
pub const MALFORMED: u32 = 36;

/// The number of a refusal.
pub fn refusal(fault: NiFault) -> u32
    ensures { result ≡ refusal_number fault }
{
    match fault {
        NiFault::Stale => 1,
        NiFault::NoSpace => 2,
        NiFault::OutOfRegion => 3,
        NiFault::InUse => 4,
        NiFault::CountFull => 5,
        NiFault::NoMemory => 6,
    }
}

/// The number of a rule that is broken.
pub fn misuse(rule: Misuse) -> u32
    ensures { result ≡ misuse_number rule }
{
    match rule {
        Misuse::UnknownRank => 16,
        Misuse::UnfitLimits => 17,
        Misuse::TooLong => 18,
        Misuse::PartialElement => 19,
        Misuse::HalvesDiffer => 20,
        Misuse::AsksAcknowledgement => 21,
        Misuse::NoRoom => 22,
        Misuse::OutsideRegion => 23,
        Misuse::Elsewhere => 24,
        Misuse::NotReady => 25,
    }
}

/// The number of what kept a call from being made.
pub fn fault(fault: CallFault) -> u32
    ensures { result ≡ fault_number fault }
{
    match fault {
        CallFault::Misused(rule) => misuse(rule),
        CallFault::Refused(why) => refusal(why),
    }
}
