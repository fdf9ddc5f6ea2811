//! Why a call wasn't made.

ghost use Rattle.std.specs.Prelude.{◌≡◌};
ghost use Rattle.guarded_ni.specs.declared.faults.CallFault.TheVariants.{Misused, Refused};

use ptl_types::NiFault;
use std::fmt;

/// The rule that the arguments of a call break. Where they break several, the first of these is answered.
#[derive(Clone, Copy, Debug, PartialEq, Eq)]
pub enum Misuse {
    /// The rank that is opened, or the target, isn't below the number of ranks.
    UnknownRank,
    /// The limits that an interface is opened with: those of entries and of headers together pass 2^32 - 1, or that of triggered
    /// operations or of counting events passes 2^27.
    UnfitLimits,
    /// The length passes the limit of messages, or that of atomics or of fetch-atomics.
    TooLong,
    /// The length isn't one of whole elements; for a swap, not that of one element.
    PartialElement,
    /// The two halves of a fetch-atomic or swap differ in length, target, index, match bits or remote offset.
    HalvesDiffer,
    /// A fetch-atomic or swap asks for an acknowledgement.
    AsksAcknowledgement,
    /// An event queue without room.
    NoRoom,
    /// A part that reaches past the end of the region.
    OutsideRegion,
    /// The message is for another rank.
    Elsewhere,
    /// No operation of this number is ready.
    NotReady,
}

impl fmt::Display for Misuse {
    fn fmt<W: fmt::Write>(&self, f: &mut fmt::Formatter<W>) -> fmt::Result {
        f.write_str(match self {
            Misuse::UnknownRank => "there is no such rank",
            Misuse::UnfitLimits => "no tables can have these limits",
            Misuse::TooLong => "the length passes the limit",
            Misuse::PartialElement => "the length isn't one of whole elements",
            Misuse::HalvesDiffer => "the two halves differ",
            Misuse::AsksAcknowledgement => "a fetching operation asks for an acknowledgement",
            Misuse::NoRoom => "a queue needs room for one event",
            Misuse::OutsideRegion => "a part reaches past the region",
            Misuse::Elsewhere => "the message is for another rank",
            Misuse::NotReady => "no operation of this number is ready",
        })
    }
}

impl std::error::Error for Misuse {}

/// Why a call wasn't made, or was refused. The interface is as it was.
#[derive(Clone, Copy, Debug, PartialEq, Eq)]
pub enum CallFault {
    /// Its arguments break this rule; the call wasn't made.
    Misused(Misuse),
    /// The interface refused it.
    Refused(NiFault),
}

impl fmt::Display for CallFault {
    fn fmt<W: fmt::Write>(&self, f: &mut fmt::Formatter<W>) -> fmt::Result {
        match self {
            CallFault::Misused(misuse) => write!(f, "{misuse}"),
            CallFault::Refused(fault) => write!(f, "{fault}"),
        }
    }
}

impl std::error::Error for CallFault {}

impl From<NiFault> for CallFault {
    ghost from_gives = { λ fault f. f ≡ Refused fault };

    fn from(fault: NiFault) -> CallFault {
        CallFault::Refused(fault)
    }
}

impl From<Misuse> for CallFault {
    ghost from_gives = { λ misuse f. f ≡ Misused misuse };

    fn from(misuse: Misuse) -> CallFault {
        CallFault::Misused(misuse)
    }
}
