//! What a note says of its cause.

ghost use Rattle.std.specs.Prelude.{◌≡◌, []};
ghost use Rattle.text_notes.specs.notes.Messages.{cause_message, excess_message, fails_message, form_message, group_message, limit_message};
ghost use Rattle.text_notes.specs.notes.Messages.{line_message, need_message, number_message, order_message, said};

use crate::notes::cause::{
    Cause, Excess, FormFlaw, GroupFlaw, Limit, LineFlaw, NumberFlaw, OrderFlaw,
};
use crate::notes::detail::Detail;
use coll_shape::{
    MOST_BUFFERS, MOST_ELEMENTS, MOST_GIVEN, MOST_GROUPS, MOST_PRINTS, MOST_STEPS, Need,
};
use ptl_types::Cause as Failure;

/// What is said of a word: a text, a detail and a text.
#[derive(Clone, Copy)]
pub(crate) struct Message {
    pub(crate) head: &'static [u8],
    pub(crate) detail: Detail,
    pub(crate) tail: &'static [u8],
}

/// A text alone.
fn plain(head: &'static [u8]) -> Message
    ensures head { (said result).head ≡ head.now }
    ensures detail { (said result).detail ≡ Detail.Nothing }
    ensures tail { (said result).tail ≡ [] }
{
    Message {
        head,
        detail: Detail::Nothing,
        tail: b"",
    }
}

/// A text and a detail.
fn with(head: &'static [u8], detail: Detail) -> Message
    ensures head { (said result).head ≡ head.now }
    ensures detail { (said result).detail ≡ detail }
    ensures tail { (said result).tail ≡ [] }
{
    Message {
        head,
        detail,
        tail: b"",
    }
}

/// A number between two texts.
fn between(head: &'static [u8], number: u32, tail: &'static [u8]) -> Message
    ensures head { (said result).head ≡ head.now }
    ensures detail { (said result).detail ≡ Detail.Number number }
    ensures tail { (said result).tail ≡ tail.now }
{
    Message {
        head,
        detail: Detail::Number(u64::from(number)),
        tail,
    }
}

/// Of what is wrong with the words of a line.
fn line_message(flaw: LineFlaw) -> Message
    ensures { said result ≡ line_message flaw }
{
    match flaw {
        LineFlaw::FirstWord => plain(
            b"is no first word here: complete, group, input, on, elect, tickets, a step, print or end",
        ),
        LineFlaw::AfterGroups => plain(
            b"is no first word here: group, input, on, a step, print or end",
        ),
        LineFlaw::AfterInputs => plain(b"is no first word here: input, on, a step, print or end"),
        LineFlaw::AfterSteps => plain(b"is no first word here: on, a step, print or end"),
        LineFlaw::AfterChoices => plain(b"is no first word here: elect, tickets, print or end"),
        LineFlaw::AfterPrints => plain(b"is no first word here: print or end"),
        LineFlaw::OnlyInTwo => plain(b"stands in a text of version 2 alone"),
        LineFlaw::NoName => plain(b"is no name: 1 to 16 of a-z, 0-9 and _, a letter first"),
        LineFlaw::NoType => with(b"is no type:", Detail::Types),
        LineFlaw::NoOperation => with(b"is no operation:", Detail::Operations),
        LineFlaw::NoStep => with(b"is no first word of a step:", Detail::Steps),
        LineFlaw::NoRemote => plain(b"stands where the word remote is due"),
        LineFlaw::NoRoot => plain(b"stands where ROOT is due, the number of a place"),
        LineFlaw::NoCount => plain(b"stands where COUNT is due, a number"),
        LineFlaw::NoMember => plain(b"stands where a member is due, a rank"),
        LineFlaw::ExtraWord => plain(b"is one word too many"),
        LineFlaw::ValueDue { count } => between(
            b"stands where a value is due: the line has ",
            count,
            b" of them",
        ),
        LineFlaw::ExtraValue { count } => between(
            b"is one value too many: the line has ",
            count,
            b" of them",
        ),
        LineFlaw::OddLine => plain(b"is not what may stand here"),
    }
}

/// Of what is wrong with a number.
fn number_message(flaw: NumberFlaw) -> Message
    ensures { said result ≡ number_message flaw }
{
    match flaw {
        NumberFlaw::NoCount => with(
            b"is no number from 1 to ",
            Detail::Number(MOST_GIVEN as u64),
        ),
        NumberFlaw::NoNumber => plain(b"is no number: 0, or digits without a leading 0"),
        NumberFlaw::NoValue { ty } => with(b"is no value of the type ", Detail::TypeWord(ty)),
    }
}

/// Of what a step asks of the buffer that it reads.
fn need_message(flaw: Need) -> Message
    ensures { said result ≡ need_message flaw }
{
    match flaw {
        Need::Root => plain(b"isn't held by the root"),
        Need::RootInBlocks => plain(
            b"isn't held by the root, or its length is no multiple of the number of members",
        ),
        Need::All => plain(b"isn't held by every member"),
        Need::AllInBlocks => plain(
            b"isn't held by every member, or its length is no multiple of their number",
        ),
        Need::Some => plain(b"isn't held by any member"),
    }
}

/// Of of what there is one too many.
fn limit_message(flaw: Limit) -> Message
    ensures { said result ≡ limit_message flaw }
{
    match flaw {
        Limit::Steps => with(
            b"is one step too many: the most is ",
            Detail::Number(MOST_STEPS as u64),
        ),
        Limit::Buffers => with(
            b"is one buffer too many: the most is ",
            Detail::Number(MOST_BUFFERS as u64),
        ),
        Limit::Prints => with(
            b"is one print too many: the most is ",
            Detail::Number(MOST_PRINTS as u64),
        ),
        Limit::Groups => with(
            b"is one group too many: the most is ",
            Detail::Number(MOST_GROUPS as u64),
        ),
        Limit::Links { most } => between(
            b"up to and with this step the plan has more than ",
            most,
            b" links",
        ),
    }
}

/// Of what is too large.
fn excess_message(flaw: Excess) -> Message
    ensures { said result ≡ excess_message flaw }
{
    match flaw {
        Excess::Buffer => with(
            b"would have more elements at a rank than the most, ",
            Detail::Number(MOST_ELEMENTS),
        ),
        Excess::Prints => with(
            b"with the prints before it has more elements over all ranks than the most, ",
            Detail::Number(MOST_ELEMENTS),
        ),
        Excess::Cells { most } => between(
            b"up to and with this step the plan's cells have more than ",
            most,
            b" bytes",
        ),
    }
}

/// Of what is wrong with an order line.
fn order_message(flaw: OrderFlaw) -> Message
    ensures { said result ≡ order_message flaw }
{
    match flaw {
        OrderFlaw::NoOrder => plain(b"stands where the word order is due"),
        OrderFlaw::NoRank { rank } => between(b"stands where this rank is due: ", rank, b""),
        OrderFlaw::NoStep { ranks } => between(
            b"is no local step: s, rS, aS or fT, with a number T and a rank S below ",
            ranks,
            b"",
        ),
    }
}

/// Of what is wrong with a group.
fn group_message(flaw: GroupFlaw) -> Message
    ensures { said result ≡ group_message flaw }
{
    match flaw {
        GroupFlaw::NoGroup => plain(b"is no group that an earlier line made"),
        GroupFlaw::NoRank { ranks } => between(b"is no rank: each is below ", ranks, b""),
        GroupFlaw::NotRising => plain(b"is not greater than the member before it"),
    }
}

/// Of what is wrong with the form of a JSON value.
fn form_message(flaw: FormFlaw) -> Message
    ensures { said result ≡ form_message flaw }
{
    match flaw {
        FormFlaw::NoMember => plain(b"no member of this name may stand here"),
        FormFlaw::Missing => plain(b"this member is missing"),
        FormFlaw::NoObject => plain(b"an object is due here"),
        FormFlaw::NoList => plain(b"a list is due here"),
        FormFlaw::NoWhole => plain(b"a whole number is due here"),
        FormFlaw::NoTruth => plain(b"true or false is due here"),
        FormFlaw::NoWord => plain(b"a string of bytes from 0x21 to 0x7e is due here"),
        FormFlaw::NoItem => plain(
            b"a string of bytes from 0x21 to 0x7e or a whole number is due here",
        ),
    }
}

/// Of a cause.
pub(crate) fn cause_message(cause: Cause) -> Message
    ensures { said result ≡ cause_message cause }
{
    match cause {
        Cause::TooLong { most } => between(b"the text has more than ", most, b" bytes"),
        Cause::BadByte => plain(b"is no byte of a line: 0x20 to 0x7e are"),
        Cause::BadHeader => plain(b"is not what line 1 says: coll 1 or coll 2"),
        Cause::BadRanks { most } => between(
            b"is not what line 2 says: ranks and a number from 1 to ",
            most,
            b"",
        ),
        Cause::BadLine(flaw) => line_message(flaw),
        Cause::BadNumber(flaw) => number_message(flaw),
        Cause::NameTaken => plain(b"is the name of a buffer or a group already"),
        Cause::UnknownBuffer => plain(b"is no buffer that an earlier line made"),
        Cause::BadRoot { members } => between(
            b"is no place: each is below the number of members, ",
            members,
            b"",
        ),
        Cause::WrongShape(flaw) => need_message(flaw),
        Cause::TooMany(flaw) => limit_message(flaw),
        Cause::TooLarge(flaw) => excess_message(flaw),
        Cause::Unended => plain(b"is no line with its LF, and one is due"),
        Cause::AfterEnd => plain(b"stands after the last line"),
        Cause::BadOrder(flaw) => order_message(flaw),
        Cause::BadGroup(flaw) => group_message(flaw),
        Cause::BadJson => plain(b"the bytes are no JSON value, or not in UTF-8"),
        Cause::BadForm(flaw) => form_message(flaw),
        Cause::OneThread => plain(b"a choice text runs under once and sim X alone"),
    }
}

/// Of what fails of orders.
pub(crate) fn fails_message(cause: Failure) -> Message
    ensures { said result ≡ fails_message cause }
{
    match cause {
        Failure::StartedTwice => plain(b"is a second start of this rank"),
        Failure::NotSent => plain(b"is not possible here: no such message is there"),
        Failure::NotReady => plain(
            b"is not possible here: the operation isn't ready, or doesn't wait",
        ),
        Failure::NotAtRest => plain(b"stands where a further step is due: the rank isn't at rest"),
    }
}
