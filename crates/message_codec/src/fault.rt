//! Why bytes are no message.

ghost use Rattle.std.specs.Prelude.{◌≡◌};
ghost use Rattle.message_codec.specs.declared.fault.DecodeError.TheVariants as errors;

use ptl_types::NoMemory;
use std::fmt;

/// What is wrong with bytes that should be a message: the first of these that holds, in the order in which they stand here, but
/// for `Short`, which stands before all where there is no whole header, and before `Long` where bytes are lacking behind it.
#[derive(Clone, Copy, Debug, PartialEq, Eq)]
pub enum Fault {
    /// There are fewer bytes than a header has, or than the header says.
    Short,
    /// The first byte is the code of no kind of message.
    Kind,
    /// The byte that says whether a request was delivered is neither 0 nor 1.
    Delivered,
    /// The byte of the acknowledgement is the code of none.
    Ack,
    /// The byte of the atomic operation is the code of none.
    Operation,
    /// The byte of the swap is the code of none.
    Swap,
    /// The byte of the type is the code of no type.
    ElementType,
    /// The byte that says whether a descriptor awaits the answer is neither 0 nor 1.
    Home,
    /// The eighth byte isn't 0.
    Reserved,
    /// No descriptor awaits the answer, and yet one is named.
    StrayHome,
    /// An atomic or a fetch-atomic without an operation, or another kind with one.
    OperationOfKind,
    /// A swap without its operation, or another kind with one.
    SwapOfKind,
    /// The length of elements is no whole number of them.
    PartElement,
    /// A swap that isn't of one element.
    OneElement,
    /// There are more bytes than the header says.
    Long,
}

impl fmt::Display for Fault {
    fn fmt<W: fmt::Write>(&self, f: &mut fmt::Formatter<W>) -> fmt::Result {
        f.write_str(match self {
            Fault::Short => "bytes are lacking",
            Fault::Kind => "an unknown kind of message",
            Fault::Delivered => "an unknown word on delivery",
            Fault::Ack => "an unknown acknowledgement",
            Fault::Operation => "an unknown operation",
            Fault::Swap => "an unknown swap",
            Fault::ElementType => "an unknown type",
            Fault::Home => "an unknown word on the descriptor",
            Fault::Reserved => "a reserved byte that isn't 0",
            Fault::StrayHome => "a descriptor that awaits nothing",
            Fault::OperationOfKind => "an operation that isn't its kind's",
            Fault::SwapOfKind => "a swap that isn't its kind's",
            Fault::PartElement => "a part of an element",
            Fault::OneElement => "a swap that isn't of one element",
            Fault::Long => "too many bytes",
        })
    }
}

/// Why there is no message.
#[derive(Clone, Copy, Debug, PartialEq, Eq)]
pub enum DecodeError {
    /// There was no memory for the message.
    NoMemory,
    /// The bytes are no message's.
    Fault(Fault),
}

impl From<NoMemory> for DecodeError {
    ghost from_gives = { λ _ e. e ≡ errors.NoMemory };

    fn from(_e: NoMemory) -> DecodeError {
        DecodeError::NoMemory
    }
}

impl From<Fault> for DecodeError {
    ghost from_gives = { λ fault e. e ≡ errors.Fault fault };

    fn from(fault: Fault) -> DecodeError {
        DecodeError::Fault(fault)
    }
}

impl fmt::Display for DecodeError {
    fn fmt<W: fmt::Write>(&self, f: &mut fmt::Formatter<W>) -> fmt::Result {
        match self {
            DecodeError::NoMemory => f.write_str("out of memory"),
            DecodeError::Fault(fault) => write!(f, "{fault}"),
        }
    }
}
