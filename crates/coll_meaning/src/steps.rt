//! What a step makes, and which buffers are let go.

ghost use Rattle.std.specs.Prelude.{◌≡◌, ◌<◌, ◌^◌, ℕ, true, length, IfOk, OnOk};
ghost use Rattle.std.specs.List.{list_any};
ghost use Rattle.coll_shape.specs.Collectives.{asks_of, source_of};
ghost use Rattle.coll_shape.specs.Outline.{step_at};
ghost use Rattle.coll_shape.specs.Meaning.{lists_of, made_lists, taken, type_read};
ghost use Rattle.coll_shape.specs.WellFormed.{AreMembers};
ghost use Rattle.coll_meaning.specs.Lengths.{AreAsked};
ghost use Rattle.coll_meaning.specs.Needed.{is_needed, is_number};
ghost use Rattle.coll_meaning.specs.Steps.{FindsAsked, IsMade, later};

use crate::buffers::{Buffers, Taken};
use crate::collectives::form_of;
use crate::lists::RankLists;
use crate::places::places_of;
use coll_shape::{CollStep, Shape, is_in};
use ptl_types::{ElemType, Rank};
use std::alloc::{AllocError, Global};

/// Whether one of the steps reads a buffer.
fn is_read(steps: &[CollStep], buffer: u32) -> bool
    ensures { result ≡ list_any (λ step. is_number buffer (source_of step)) steps.now }
{
    match steps {
        [] => false,
        [step, others @ ..] => match step.source() {
            Some(a) => a == buffer || is_read(others, buffer),
            None => is_read(others, buffer),
        },
    }
}

/// Whether a buffer has to be there: it is kept to the end, or a later step reads it.
fn is_needed(kept: &[u32], later: &[CollStep], buffer: u32) -> bool
    ensures { result ≡ is_needed kept.now later.now buffer }
{
    is_in(buffer, kept) || is_read(later, buffer)
}

/// A step by its number.
fn step_at(shape: &Shape, k: u32) -> CollStep
    requires { k < length shape.now.steps }
    ensures { result ≡ step_at shape.now k }
{
    shape.steps()[k as usize]
}

/// The steps after one.
fn later(shape: &Shape, k: u32) -> &[CollStep]
    requires { k < length shape.now.steps }
    ensures { result.now ≡ later shape.now k }
{
    &shape.steps()[k as usize + 1..]
}

/// The type of the buffer that a step reads.
fn type_read(shape: &Shape, step: CollStep) -> ElemType
    ensures { result ≡ type_read shape.now step }
{
    let Some(a) = step.source() else {
        return ElemType::U8;
    };
    match shape.buffers().get(a as usize) {
        Some(buffer) => buffer.ty,
        None => ElemType::U8,
    }
}

/// A step that is made in a job of so many ranks: it reads buffer `a`, whose elements have this type.
#[derive(Clone, Copy)]
struct Making {
    ranks: u32,
    ty: ElemType,
    step: CollStep,
    a: u32,
}

/// The buffer that a step makes on these members, where it is needed.
fn made(
    alloc: Global,
    needed: bool,
    making: Making,
    held: &Buffers,
    group: &[Rank],
) -> Result<RankLists, AllocError>
    requires members { AreMembers making.ranks group.now }
    requires asked { AreAsked (asks_of making.step) making.ty (taken group.now (lists_of held.now making.a)) }
    ensures { IfOk result (λ made. needed ≡ true → made ≡ made_lists making.ranks group.now making.ty making.step
        (lists_of held.now making.a)) }
{
    if !needed {
        return Ok(RankLists::nothing(alloc));
    }
    let form = form_of(
        alloc,
        making.ty,
        making.step,
        &Taken::of(held, making.a, group),
    )?;
    Ok(RankLists::of(form, places_of(alloc, making.ranks, group)?))
}

/// Lets a buffer go that nothing needs.
fn keep_if_needed(alloc: Global, held: &mut Buffers, kept: &[u32], later: &[CollStep], buffer: u32)
    ensures many { length held.new ≡ length held.old }
    ensures others { (b : ℕ) → is_needed kept.now later.now b ≡ true → lists_of held.new b ≡ lists_of held.old b }
{
    if !is_needed(kept, later, buffer) {
        held.let_go(alloc, buffer);
    }
}

/// Makes a step, and lets go what nothing after it needs.
pub fn take_step(
    alloc: Global,
    shape: &Shape,
    kept: &[u32],
    held: &mut Buffers,
    k: u32,
) -> Result<(), AllocError>
    requires step { k < length shape.now.steps }
    requires at_most { length held.old < 2 ^ 32 }
    requires asked { FindsAsked shape.now k held.old }
    ensures { OnOk result (IsMade shape.now kept.now k held.old held.new) }
{
    shape.recall_form();
    let ranks = shape.ranks();
    let step = step_at(shape, k);
    let Some(a) = step.source() else {
        return Ok(());
    };
    let ty = type_read(shape, step);
    let after = later(shape, k);
    let needed = is_needed(kept, after, held.count() as u32);
    let making = Making { ranks, ty, step, a };
    let made = made(alloc, needed, making, held, shape.group(k))?;
    keep_if_needed(alloc, held, kept, after, a);
    held.push(made)?;
    Ok(())
}
