//! The words of calls.

ghost use Rattle.std.specs.Prelude.{◌≡◌};
ghost use Rattle.log_lines.specs.Calls.{called_on, called_with, name_call, number_call, plain_call};

use crate::calls::{Call, NameCall, NumberCall};
use coll_text::is;
use log_words::Word;

/// The call of nothing that a word names.
#[tactic(auto, unfolding(crate::specs::Calls::plain_call))]
pub(crate) fn plain_call<'a>(text: &[u8]) -> Option<Call<'a>>
    ensures { result ≡ plain_call text.now }
{
    if is(text, b"ct_alloc") {
        Some(Call::CtAlloc)
    } else if is(text, b"awaits_any") {
        Some(Call::AwaitsAny)
    } else if is(text, b"headers") {
        Some(Call::Headers)
    } else if is(text, b"ready") {
        Some(Call::Ready)
    } else if is(text, b"ready_count") {
        Some(Call::ReadyCount)
    } else if is(text, b"pending") {
        Some(Call::Pending)
    } else if is(text, b"drops") {
        Some(Call::Drops)
    } else if is(text, b"violations") {
        Some(Call::Violations)
    } else {
        None
    }
}

/// The call of a name that a word names.
#[tactic(auto, unfolding(crate::specs::Calls::name_call))]
pub(crate) fn name_call(text: &[u8]) -> Option<NameCall>
    ensures { result ≡ name_call text.now }
{
    if is(text, b"ct_get") {
        Some(NameCall::CtGet)
    } else if is(text, b"ct_free") {
        Some(NameCall::CtFree)
    } else if is(text, b"ct_cancel") {
        Some(NameCall::CtCancel)
    } else if is(text, b"eq_get") {
        Some(NameCall::EqGet)
    } else if is(text, b"eq_free") {
        Some(NameCall::EqFree)
    } else if is(text, b"md_release") {
        Some(NameCall::MdRelease)
    } else if is(text, b"awaits") {
        Some(NameCall::Awaits)
    } else if is(text, b"me_unlink") {
        Some(NameCall::MeUnlink)
    } else if is(text, b"is_ready") {
        Some(NameCall::IsReady)
    } else if is(text, b"lane_of") {
        Some(NameCall::LaneOf)
    } else if is(text, b"fire") {
        Some(NameCall::Fire)
    } else if is(text, b"deliver") {
        Some(NameCall::Deliver)
    } else {
        None
    }
}

/// Such a call with its name.
pub(crate) fn called_on<'a>(call: NameCall, name: Word<'a>) -> Call<'a>
    ensures { result ≡ called_on call name.entry }
{
    match call {
        NameCall::CtGet => Call::CtGet(name),
        NameCall::CtFree => Call::CtFree(name),
        NameCall::CtCancel => Call::CtCancel(name),
        NameCall::EqGet => Call::EqGet(name),
        NameCall::EqFree => Call::EqFree(name),
        NameCall::MdRelease => Call::MdRelease(name),
        NameCall::Awaits => Call::Awaits(name),
        NameCall::MeUnlink => Call::MeUnlink(name),
        NameCall::IsReady => Call::IsReady(name),
        NameCall::LaneOf => Call::LaneOf(name),
        NameCall::Fire => Call::Fire(name),
        NameCall::Deliver => Call::Deliver(name),
    }
}

/// The call of a number that a word names.
#[tactic(auto, unfolding(crate::specs::Calls::number_call))]
pub(crate) fn number_call(text: &[u8]) -> Option<NumberCall>
    ensures { result ≡ number_call text.now }
{
    if is(text, b"eq_alloc") {
        Some(NumberCall::EqAlloc)
    } else if is(text, b"pt_free") {
        Some(NumberCall::PtFree)
    } else if is(text, b"ready_at") {
        Some(NumberCall::ReadyAt)
    } else if is(text, b"ready_count_to") {
        Some(NumberCall::ReadyCountTo)
    } else {
        None
    }
}

/// Such a call with its number.
pub(crate) fn called_with<'a>(call: NumberCall, n: u32) -> Call<'a>
    ensures { result ≡ called_with call n }
{
    match call {
        NumberCall::EqAlloc => Call::EqAlloc(n),
        NumberCall::PtFree => Call::PtFree(n),
        NumberCall::ReadyAt => Call::ReadyAt(n),
        NumberCall::ReadyCountTo => Call::ReadyCountTo(n),
    }
}
