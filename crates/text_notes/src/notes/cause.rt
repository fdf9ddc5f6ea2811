//! Why a text is refused, in more words than its name.

ghost use Rattle.std.specs.Prelude.{◌≡◌};
ghost use Rattle.text_notes.specs.notes.Causes.{name_of};

use coll_lang::Refusal;
use coll_shape::Need;
use ptl_types::ElemType;

/// What is wrong with the words of a line.
#[derive(Clone, Copy, Debug, PartialEq, Eq)]
pub enum LineFlaw {
    /// No line that begins so may stand on line 3 or after it.
    FirstWord,
    /// No line that begins so may stand after a group or `complete remote`.
    AfterGroups,
    /// No line that begins so may stand after an input.
    AfterInputs,
    /// No line that begins so may stand after a step.
    AfterSteps,
    /// No line that begins so may stand after a choice step.
    AfterChoices,
    /// No line that begins so may stand after a print.
    AfterPrints,
    /// Such a line stands in version 2 alone.
    OnlyInTwo,
    /// The word is no name.
    NoName,
    /// The word is no type.
    NoType,
    /// The word is no operation.
    NoOperation,
    /// The word is no first word of a step.
    NoStep,
    /// The word after `complete` is another.
    NoRemote,
    /// ROOT is missing or empty.
    NoRoot,
    /// COUNT is missing or empty.
    NoCount,
    /// A member is missing or empty.
    NoMember,
    /// The line has a word more.
    ExtraWord,
    /// A value is missing or empty, of so many that are due.
    ValueDue {
        /// How many values the line has.
        count: u32,
    },
    /// The line has a value more than so many.
    ExtraValue {
        /// How many values the line has.
        count: u32,
    },
    /// Another rule of this name.
    OddLine,
}

/// What is wrong with a number.
#[derive(Clone, Copy, Debug, PartialEq, Eq)]
pub enum NumberFlaw {
    /// COUNT is out of its range, or no number.
    NoCount,
    /// ROOT or a member is no number.
    NoNumber,
    /// The word is no value of this type.
    NoValue {
        /// The type.
        ty: ElemType,
    },
}

/// Of what there is one too many.
#[derive(Clone, Copy, Debug, PartialEq, Eq)]
pub enum Limit {
    /// Steps.
    Steps,
    /// Buffers.
    Buffers,
    /// Prints.
    Prints,
    /// Groups.
    Groups,
    /// Links of the plan, up to and with the step.
    Links {
        /// The most.
        most: u32,
    },
}

/// What is too large.
#[derive(Clone, Copy, Debug, PartialEq, Eq)]
pub enum Excess {
    /// The buffer that the step makes.
    Buffer,
    /// The prints up to this one.
    Prints,
    /// The cells of the plan, up to and with the step.
    Cells {
        /// The most.
        most: u32,
    },
}

/// What is wrong with an order line.
#[derive(Clone, Copy, Debug, PartialEq, Eq)]
pub enum OrderFlaw {
    /// Its first word is another than `order`.
    NoOrder,
    /// Another rank is due.
    NoRank {
        /// The rank.
        rank: u32,
    },
    /// The word is no local step of one of so many ranks.
    NoStep {
        /// How many ranks there are.
        ranks: u32,
    },
}

/// What is wrong with a group.
#[derive(Clone, Copy, Debug, PartialEq, Eq)]
pub enum GroupFlaw {
    /// The word after `on` is no group.
    NoGroup,
    /// The member is no rank of so many.
    NoRank {
        /// How many ranks there are.
        ranks: u32,
    },
    /// The member is not greater than the one before it.
    NotRising,
}

/// What is wrong with the form of a JSON value.
#[derive(Clone, Copy, Debug, PartialEq, Eq)]
pub enum FormFlaw {
    /// No member of this name may stand there.
    NoMember,
    /// The member is missing.
    Missing,
    /// It is no object.
    NoObject,
    /// It is no list.
    NoList,
    /// It is no whole number.
    NoWhole,
    /// It is neither true nor false.
    NoTruth,
    /// It is no string that may be a word.
    NoWord,
    /// It is neither a word nor a whole number.
    NoItem,
}

/// Why a text is refused. Each case has the name of its refusal.
#[derive(Clone, Copy, Debug, PartialEq, Eq)]
pub enum Cause {
    /// The text has more bytes than so many.
    TooLong {
        /// The most.
        most: u32,
    },
    /// The byte may not stand in a line.
    BadByte,
    /// Line 1 is another.
    BadHeader,
    /// Line 2 is another, where there may be so many ranks.
    BadRanks {
        /// The most.
        most: u32,
    },
    /// What is wrong with the words of a line.
    BadLine(LineFlaw),
    /// What is wrong with a number.
    BadNumber(NumberFlaw),
    /// The name is taken.
    NameTaken,
    /// The name is no buffer.
    UnknownBuffer,
    /// ROOT is no place among so many members.
    BadRoot {
        /// How many members there are.
        members: u32,
    },
    /// What a step asks of the buffer that it reads.
    WrongShape(Need),
    /// Of what there is one too many.
    TooMany(Limit),
    /// What is too large.
    TooLarge(Excess),
    /// A line with its LF is due.
    Unended,
    /// Nothing may stand there.
    AfterEnd,
    /// What is wrong with an order line.
    BadOrder(OrderFlaw),
    /// What is wrong with a group.
    BadGroup(GroupFlaw),
    /// The bytes are no JSON value.
    BadJson,
    /// What is wrong with the form of a JSON value.
    BadForm(FormFlaw),
    /// A choice text runs on one thread alone.
    OneThread,
}

impl Cause {
    /// The name of the refusal that it belongs to.
    pub fn name(self) -> Refusal
        ensures { result ≡ name_of self }
    {
        match self {
            Cause::TooLong { .. } => Refusal::TooLong,
            Cause::BadByte => Refusal::BadByte,
            Cause::BadHeader => Refusal::BadHeader,
            Cause::BadRanks { .. } => Refusal::BadRanks,
            Cause::BadLine(_) => Refusal::BadLine,
            Cause::BadNumber(_) => Refusal::BadNumber,
            Cause::NameTaken => Refusal::NameTaken,
            Cause::UnknownBuffer => Refusal::UnknownBuffer,
            Cause::BadRoot { .. } => Refusal::BadRoot,
            Cause::WrongShape(_) => Refusal::WrongShape,
            Cause::TooMany(_) => Refusal::TooMany,
            Cause::TooLarge(_) => Refusal::TooLarge,
            Cause::Unended => Refusal::Unended,
            Cause::AfterEnd => Refusal::AfterEnd,
            Cause::BadOrder(_) => Refusal::BadOrder,
            Cause::BadGroup(_) => Refusal::BadGroup,
            Cause::BadJson => Refusal::BadJson,
            Cause::BadForm(_) => Refusal::BadForm,
            Cause::OneThread => Refusal::OneThread,
        }
    }
}
