//! Why a text is refused.

ghost use Rattle.std.specs.Prelude.{◌≡◌};
ghost use Rattle.coll_lang.specs.Words.{refusal_number, refusal_word};
ghost use Rattle.coll_lang.specs.declared.fault.LineFault.TheVariants.{NoMemory, Refused};
ghost use Rattle.coll_lang.specs.declared.fault.ParseFault.TheVariants as faults;

use std::alloc::{AllocError, AllocFailed};

/// Why a text is refused, or a description under a command. On one line the lowest number that holds counts.
#[derive(Clone, Copy, Debug, PartialEq, Eq)]
pub enum Refusal {
    /// The text has more than 1,048,576 bytes.
    TooLong,
    /// The line holds a byte that isn't allowed: one below 0x20 or above 0x7E.
    BadByte,
    /// Line 1 is neither `coll 1` nor `coll 2`.
    BadHeader,
    /// Line 2 isn't `ranks N` with N from 1 to 64, in version 2 to 256.
    BadRanks,
    /// The line's first word may not stand here, or its words are too few, too many, empty or of the wrong kind.
    BadLine,
    /// COUNT isn't from 1 to 4096, ROOT or a member isn't a number, or a value isn't one of its type.
    BadNumber,
    /// The new name is that of a buffer or a group already.
    NameTaken,
    /// The name that is read or printed is no buffer.
    UnknownBuffer,
    /// ROOT is no place of the group.
    BadRoot,
    /// The buffer that the step reads hasn't the shape that the step needs.
    WrongShape,
    /// This is the 65th step, the 129th buffer, the 129th print or the 65th group.
    TooMany,
    /// The new buffer has more than 16,777,216 elements at some rank, or the prints so far have more over all ranks.
    TooLarge,
    /// A line is still due, and the rest of the text has no LF.
    Unended,
    /// Bytes follow the last line.
    AfterEnd,
    /// An order line is malformed.
    BadOrder,
    /// A member is no rank, or the members don't rise, or the word after `on` is no group.
    BadGroup,
    /// The bytes aren't JSON.
    BadJson,
    /// The JSON doesn't have the form of a description.
    BadForm,
    /// A choice text is run on one thread alone.
    OneThread,
}

impl Refusal {
    /// The number, from 1 on.
    pub fn number(&self) -> u32
        ensures value { result ≡ refusal_number self.now }
    {
        match self {
            Refusal::TooLong => 1,
            Refusal::BadByte => 2,
            Refusal::BadHeader => 3,
            Refusal::BadRanks => 4,
            Refusal::BadLine => 5,
            Refusal::BadNumber => 6,
            Refusal::NameTaken => 7,
            Refusal::UnknownBuffer => 8,
            Refusal::BadRoot => 9,
            Refusal::WrongShape => 10,
            Refusal::TooMany => 11,
            Refusal::TooLarge => 12,
            Refusal::Unended => 13,
            Refusal::AfterEnd => 14,
            Refusal::BadOrder => 15,
            Refusal::BadGroup => 16,
            Refusal::BadJson => 17,
            Refusal::BadForm => 18,
            Refusal::OneThread => 19,
        }
    }

    /// The name as it is written into a refusal's line.
    pub fn word(&self) -> &'static str
        ensures value { result.now ≡ refusal_word self.now }
    {
        match self {
            Refusal::TooLong => "TooLong",
            Refusal::BadByte => "BadByte",
            Refusal::BadHeader => "BadHeader",
            Refusal::BadRanks => "BadRanks",
            Refusal::BadLine => "BadLine",
            Refusal::BadNumber => "BadNumber",
            Refusal::NameTaken => "NameTaken",
            Refusal::UnknownBuffer => "UnknownBuffer",
            Refusal::BadRoot => "BadRoot",
            Refusal::WrongShape => "WrongShape",
            Refusal::TooMany => "TooMany",
            Refusal::TooLarge => "TooLarge",
            Refusal::Unended => "Unended",
            Refusal::AfterEnd => "AfterEnd",
            Refusal::BadOrder => "BadOrder",
            Refusal::BadGroup => "BadGroup",
            Refusal::BadJson => "BadJson",
            Refusal::BadForm => "BadForm",
            Refusal::OneThread => "OneThread",
        }
    }
}

/// Why a line isn't taken.
#[derive(Debug, Drop)]
pub enum LineFault {
    /// The line breaks a rule.
    Refused(Refusal),
    /// There was no memory for what the line says.
    NoMemory,
}

impl From<AllocError> for LineFault {
    ghost from_gives = { λ _ e. e ≡ NoMemory };

    fn from(_e: AllocError) -> LineFault {
        LineFault::NoMemory
    }
}

impl<T: Drop> From<AllocFailed<T>> for LineFault {
    ghost from_gives = { λ _ e. e ≡ NoMemory };

    fn from(_e: AllocFailed<T>) -> LineFault {
        LineFault::NoMemory
    }
}

/// Why a text isn't read.
#[derive(Debug, Drop)]
pub enum ParseFault {
    /// The first refusal of the text.
    Refused {
        /// The first line that breaks a rule, counted from 1; 0 where no line is to blame, as in a text that is too long.
        line: u32,
        /// The rule.
        name: Refusal,
    },
    /// There was no memory for the description.
    NoMemory,
}

impl From<AllocError> for ParseFault {
    ghost from_gives = { λ _ e. e ≡ faults.NoMemory };

    fn from(_e: AllocError) -> ParseFault {
        ParseFault::NoMemory
    }
}

impl<T: Drop> From<AllocFailed<T>> for ParseFault {
    ghost from_gives = { λ _ e. e ≡ faults.NoMemory };

    fn from(_e: AllocFailed<T>) -> ParseFault {
        ParseFault::NoMemory
    }
}
