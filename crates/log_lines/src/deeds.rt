//! Starts and deeds, behind their words.

ghost use Rattle.std.specs.Prelude.{◌≡◌};
ghost use Rattle.log_words.specs.Reading.{yielded};
ghost use Rattle.log_lines.specs.Calls.{atomic_next, back_of, count_next, counted_next, counting_deed, deed_next, deed_of};
ghost use Rattle.log_lines.specs.Calls.{elements_next, fetch_atomic_next, get_next, get_of, put_next, start_fields, start_next};
ghost use Rattle.log_lines.specs.Calls.{started_next, swapping_next};
ghost use Rattle.ptl_types.specs.declared.calls.TriggeredOp.TheVariants as deeds;

use crate::calls::TriggeredOpSaid;
use coll_text::is;
use log_words::call_fields::{
    NO_HANDLE, StartName, StartSaid, op_in, plain_start, start_named, swap_in, type_in,
};
use log_words::{Flaw, LineFault, Rest, Word, at, fields_of};
use ptl_types::{AtomicOp, Count, ElemType, GetArgs, TriggeredOp};

/// The arguments of a get.
fn get_args(said: &StartSaid) -> GetArgs
    ensures { result ≡ get_of said.now }
{
    let args = said.args;
    GetArgs {
        md: NO_HANDLE,
        local_offset: args.local_offset,
        length: args.length,
        target: args.target,
        pt: args.pt,
        match_bits: args.match_bits,
        remote_offset: args.remote_offset,
    }
}

/// The getting half of a fetching operation: what it doesn't name is the sending half's.
fn back_args(said: &StartSaid) -> GetArgs
    ensures { result ≡ back_of said.now }
{
    let args = said.args;
    GetArgs {
        md: NO_HANDLE,
        local_offset: said.back_offset,
        length: said.back_length.unwrap_or(args.length),
        target: said.back_target.unwrap_or(args.target),
        pt: said.back_pt.unwrap_or(args.pt),
        match_bits: said.back_bits.unwrap_or(args.match_bits),
        remote_offset: said.back_at.unwrap_or(args.remote_offset),
    }
}

/// The fields of a start.
fn fields_in<'a>(name: StartName, words: &mut Rest<'a>) -> Result<StartSaid<'a>, LineFault>
    ensures { yielded result words.new ≡ start_fields name words.old }
{
    fields_of(plain_start(name), words)
}

/// A descriptor and the fields of a start.
#[tactic(auto, unfolding(crate::specs::Calls::started_next))]
fn started_in<'a>(
    name: StartName,
    words: &mut Rest<'a>,
) -> Result<(Word<'a>, StartSaid<'a>), LineFault>
    ensures { yielded result words.new ≡ started_next name words.old }
{
    let on = match words.name() {
        Ok(on) => on,
        Err(fault) => return Err(fault),
    };
    match fields_in(name, words) {
        Ok(said) => Ok((on, said)),
        Err(fault) => Err(fault),
    }
}

/// An operation and the type of its elements.
#[tactic(auto, unfolding(crate::specs::Calls::elements_next))]
fn elements_in(words: &mut Rest) -> Result<(AtomicOp, ElemType), LineFault>
    ensures { yielded result words.new ≡ elements_next words.old }
{
    let op = match op_in(words) {
        Ok(op) => op,
        Err(fault) => return Err(fault),
    };
    match type_in(words) {
        Ok(ty) => Ok((op, ty)),
        Err(fault) => Err(fault),
    }
}

/// A put.
#[tactic(auto, unfolding(crate::specs::Calls::put_next))]
fn put_in<'a>(words: &mut Rest<'a>) -> Result<TriggeredOpSaid<'a>, LineFault>
    ensures { yielded result words.new ≡ put_next words.old }
{
    match started_in(StartName::Put, words) {
        Ok(started) => {
            let (on, said) = started;
            Ok(TriggeredOpSaid {
                deed: TriggeredOp::Put(said.args),
                on,
                back: None,
            })
        }
        Err(fault) => Err(fault),
    }
}

/// A get.
#[tactic(auto, unfolding(crate::specs::Calls::get_next))]
fn get_in<'a>(words: &mut Rest<'a>) -> Result<TriggeredOpSaid<'a>, LineFault>
    ensures { yielded result words.new ≡ get_next words.old }
{
    match started_in(StartName::Get, words) {
        Ok(started) => {
            let (on, said) = started;
            Ok(TriggeredOpSaid {
                deed: TriggeredOp::Get(get_args(&said)),
                on,
                back: None,
            })
        }
        Err(fault) => Err(fault),
    }
}

/// An atomic.
#[tactic(auto, unfolding(crate::specs::Calls::atomic_next))]
fn atomic_in<'a>(words: &mut Rest<'a>) -> Result<TriggeredOpSaid<'a>, LineFault>
    ensures { yielded result words.new ≡ atomic_next words.old }
{
    let (op, ty) = match elements_in(words) {
        Ok(elements) => elements,
        Err(fault) => return Err(fault),
    };
    match started_in(StartName::Atomic, words) {
        Ok(started) => {
            let (on, said) = started;
            Ok(TriggeredOpSaid {
                deed: TriggeredOp::Atomic(said.args, op, ty),
                on,
                back: None,
            })
        }
        Err(fault) => Err(fault),
    }
}

/// A fetching atomic.
#[tactic(auto, unfolding(crate::specs::Calls::fetch_atomic_next))]
fn fetch_atomic_in<'a>(words: &mut Rest<'a>) -> Result<TriggeredOpSaid<'a>, LineFault>
    ensures { yielded result words.new ≡ fetch_atomic_next words.old }
{
    let (op, ty) = match elements_in(words) {
        Ok(elements) => elements,
        Err(fault) => return Err(fault),
    };
    match started_in(StartName::FetchAtomic, words) {
        Ok(started) => {
            let (on, said) = started;
            Ok(TriggeredOpSaid {
                deed: TriggeredOp::FetchAtomic(back_args(&said), said.args, op, ty),
                on,
                back: said.back,
            })
        }
        Err(fault) => Err(fault),
    }
}

/// A swap.
#[tactic(auto, unfolding(crate::specs::Calls::swapping_next))]
fn swapping_in<'a>(words: &mut Rest<'a>) -> Result<TriggeredOpSaid<'a>, LineFault>
    ensures { yielded result words.new ≡ swapping_next words.old }
{
    let op = match swap_in(words) {
        Ok(op) => op,
        Err(fault) => return Err(fault),
    };
    let ty = match type_in(words) {
        Ok(ty) => ty,
        Err(fault) => return Err(fault),
    };
    match started_in(StartName::Swap, words) {
        Ok(started) => {
            let (on, said) = started;
            Ok(TriggeredOpSaid {
                deed: TriggeredOp::Swap(back_args(&said), said.args, op, ty, said.operand),
                on,
                back: said.back,
            })
        }
        Err(fault) => Err(fault),
    }
}

/// What is started.
#[tactic(auto, unfolding(crate::specs::Calls::start_next))]
pub(crate) fn start_in<'a>(
    name: StartName,
    words: &mut Rest<'a>,
) -> Result<TriggeredOpSaid<'a>, LineFault>
    ensures { yielded result words.new ≡ start_next name words.old }
{
    match name {
        StartName::Put => put_in(words),
        StartName::Get => get_in(words),
        StartName::Atomic => atomic_in(words),
        StartName::FetchAtomic => fetch_atomic_in(words),
        StartName::Swap => swapping_in(words),
    }
}

/// The two numbers of a counting event.
#[tactic(auto, unfolding(crate::specs::Calls::count_next))]
fn count_in(words: &mut Rest) -> Result<Count, LineFault>
    ensures { yielded result words.new ≡ count_next words.old }
{
    let success = match words.amount() {
        Ok(n) => n,
        Err(fault) => return Err(fault),
    };
    match words.amount() {
        Ok(failure) => Ok(Count { success, failure }),
        Err(fault) => Err(fault),
    }
}

/// A counting event and two such numbers.
#[tactic(auto, unfolding(crate::specs::Calls::counted_next))]
pub(crate) fn counted_in<'a>(words: &mut Rest<'a>) -> Result<(Word<'a>, Count), LineFault>
    ensures { yielded result words.new ≡ counted_next words.old }
{
    let ct = match words.name() {
        Ok(ct) => ct,
        Err(fault) => return Err(fault),
    };
    match count_in(words) {
        Ok(count) => Ok((ct, count)),
        Err(fault) => Err(fault),
    }
}

/// A counting event and what it counts by.
#[tactic(auto, unfolding(crate::specs::Calls::counting_deed))]
fn increment_in<'a>(words: &mut Rest<'a>) -> Result<TriggeredOpSaid<'a>, LineFault>
    ensures { yielded result words.new ≡ counting_deed (λ c. deeds.Inc NO_HANDLE c) words.old }
{
    match counted_in(words) {
        Ok(counted) => {
            let (on, by) = counted;
            Ok(TriggeredOpSaid {
                deed: TriggeredOp::Inc(NO_HANDLE, by),
                on,
                back: None,
            })
        }
        Err(fault) => Err(fault),
    }
}

/// A counting event and what it is set to.
#[tactic(auto, unfolding(crate::specs::Calls::counting_deed))]
fn setting_in<'a>(words: &mut Rest<'a>) -> Result<TriggeredOpSaid<'a>, LineFault>
    ensures { yielded result words.new ≡ counting_deed (λ c. deeds.Set NO_HANDLE c) words.old }
{
    match counted_in(words) {
        Ok(counted) => {
            let (on, to) = counted;
            Ok(TriggeredOpSaid {
                deed: TriggeredOp::Set(NO_HANDLE, to),
                on,
                back: None,
            })
        }
        Err(fault) => Err(fault),
    }
}

/// The deed that this word begins.
#[tactic(auto, unfolding(crate::specs::Calls::deed_of))]
fn deed_of<'a>(word: &Word<'a>, words: &mut Rest<'a>) -> Result<TriggeredOpSaid<'a>, LineFault>
    ensures { yielded result words.new ≡ deed_of word.now words.old }
{
    let text = word.text();
    if let Some(name) = start_named(text) {
        return start_in(name, words);
    }
    if is(text, b"inc") {
        return increment_in(words);
    }
    if is(text, b"set") {
        return setting_in(words);
    }
    Err(at(word.column(), Flaw::BadWord))
}

/// The deed of a triggered operation.
#[tactic(auto, unfolding(crate::specs::Calls::deed_next))]
pub(crate) fn deed_in<'a>(words: &mut Rest<'a>) -> Result<TriggeredOpSaid<'a>, LineFault>
    ensures { yielded result words.new ≡ deed_next words.old }
{
    match words.word() {
        Ok(word) => deed_of(&word, words),
        Err(fault) => Err(fault),
    }
}
