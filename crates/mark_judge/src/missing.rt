//! What the description asks for, and no line is for.

ghost use Rattle.std.specs.Prelude.{◌≡◌, ◌<◌, length};
ghost use Rattle.std.specs.Option.{option_or};
ghost use Rattle.number_lists.specs.Numbers.{from_to};
ghost use Rattle.coll_shape.specs.Outline.{buffer_at};
ghost use Rattle.mark_judge.specs.declared.flaw.Due.TheVariants.{Result};
ghost use Rattle.mark_judge.specs.Judged.{missing, missing_at, missing_barriers, missing_member, missing_results};
ghost use Rattle.mark_judge.specs.Tables.{has, places};
ghost use Rattle.plan_judge.specs.Causes.{first_found};

use crate::asked::is_barrier_at;
use crate::flaw::{Due, MarkFlaw};
use crate::named::has;
use coll_shape::Shape;
use ptl_types::Rank;

/// It, where it has no line.
fn missing(named: &[bool], due: Due) -> Option<MarkFlaw>
    requires { length named.now ≡ places }
    ensures { result ≡ missing (has named.now) due }
{
    if has(named, due) {
        None
    } else {
        Some(MarkFlaw::NoResult { due })
    }
}

/// The first of these ranks at which a buffer's result has no line.
fn missing_among(named: &[bool], buffer: u32, holders: &[Rank]) -> Option<MarkFlaw>
    requires { length named.now ≡ places }
    ensures { result ≡ first_found (λ r. missing (has named.now) (Result buffer r)) holders.now }
{
    for rank in holders {
        let flaw = missing(
            named,
            Due::Result {
                buffer,
                rank: *rank,
            },
        );
        if flaw.is_some() {
            return flaw;
        }
    }
    None
}

/// The first rank that holds a list of a buffer where its result has no line.
fn missing_of(named: &[bool], shape: &Shape, b: u32) -> Option<MarkFlaw>
    requires { length named.now ≡ places }
    ensures { result ≡ first_found (λ r. missing (has named.now) (Result b r)) (buffer_at shape.now b).spread.holders }
{
    match shape.buffers().get(b as usize) {
        Some(buffer) => missing_among(named, b, buffer.spread.holders.as_slice()),
        None => None,
    }
}

/// The first result that has no line.
pub(crate) fn missing_results(named: &[bool], shape: &Shape) -> Option<MarkFlaw>
    requires { length named.now ≡ places }
    ensures { result ≡ missing_results shape.now (has named.now) }
{
    for b in shape.prints() {
        let flaw = missing_of(named, shape, *b);
        if flaw.is_some() {
            return flaw;
        }
    }
    None
}

/// Where a rank enters a barrier, or where it leaves it, whichever has no line.
fn missing_member(named: &[bool], step: u32, rank: Rank) -> Option<MarkFlaw>
    requires { length named.now ≡ places }
    ensures { result ≡ missing_member (has named.now) step rank }
{
    let entry = missing(named, Due::Enter { step, rank });
    if entry.is_some() {
        return entry;
    }
    missing(named, Due::Leave { step, rank })
}

/// The first of these members without a line for where it enters a barrier or for where it leaves it.
fn missing_members(named: &[bool], s: u32, members: &[Rank]) -> Option<MarkFlaw>
    requires { length named.now ≡ places }
    ensures { result ≡ first_found (missing_member (has named.now) s) members.now }
{
    for rank in members {
        let flaw = missing_member(named, s, *rank);
        if flaw.is_some() {
            return flaw;
        }
    }
    None
}

/// What is missing first of a step, if it is a barrier.
fn missing_at(named: &[bool], shape: &Shape, s: u32) -> Option<MarkFlaw>
    requires { length named.now ≡ places }
    ensures { result ≡ missing_at shape.now (has named.now) s }
{
    if is_barrier_at(shape, s) {
        missing_members(named, s, shape.group(s))
    } else {
        None
    }
}

/// What is missing first of the barriers.
pub(crate) fn missing_barriers(named: &[bool], shape: &Shape) -> Option<MarkFlaw>
    requires { length named.now ≡ places }
    ensures { result ≡ missing_barriers shape.now (has named.now) }
{
    shape.recall_form();
    for s in 0..shape.steps().len() as u32 {
        let flaw = missing_at(named, shape, s);
        if flaw.is_some() {
            return flaw;
        }
    }
    None
}
