//! What is wrong with a link.

ghost use Rattle.std.specs.Prelude.{◌≡◌, ◌<◌, ◌≤◌, ◌+◌, ◌^◌, length, nat_lt};
ghost use Rattle.plan_judge.specs.Causes.{first_cause, is_bare, is_rising, is_whole, link_rows, rows_between, same_type};

use crate::flaw::LinkCause;
use crate::kinds::{is_atomic, is_bump};
use plan_core::reading::{cell_at, link_at};
use plan_core::{Cell, Link, Plan};
use ptl_types::ElemType;

/// Whether two types are one.
pub fn same_type(a: ElemType, b: ElemType) -> bool
    ensures { result ≡ same_type a b }
{
    a == b
}

/// Whether a link goes from a lower cell to a higher one, of so many cells.
fn is_rising(link: &Link, cells: usize) -> bool
    ensures { result ≡ is_rising link.now cells }
{
    link.source < link.target && (link.target as usize) < cells
}

/// Whether so many bytes from an offset on pass the end.
fn is_past(offset: u64, bytes: u64, end: u64) -> bool
    ensures { result ≡ nat_lt end (offset + bytes) }
{
    u128::from(end) < u128::from(offset) + u128::from(bytes)
}

/// Whether a link stays on its rank and carries nothing.
fn is_bare(link: &Link, source: &Cell, target: &Cell) -> bool
    ensures { result ≡ is_bare link.now source.now target.now }
{
    source.rank == target.rank && link.length == 0
}

/// Whether a link is over the whole of a cell that combines, from a cell of its type and length.
fn is_whole(link: &Link, source: &Cell, target: &Cell) -> bool
    ensures { result ≡ is_whole link.now source.now target.now }
{
    target.op.is_some()
        && link.target_offset == 0
        && link.length == target.length
        && same_type(source.ty, target.ty)
        && source.length == target.length
}

/// The first cause that a link between these two cells isn't taken. The cells below `others` are go cells or hold inputs.
fn cause_between(link: &Link, source: &Cell, target: &Cell, others: u128) -> Option<LinkCause>
    ensures { result ≡ first_cause (rows_between link.now source.now target.now others) }
{
    if is_past(link.source_offset, link.length, source.length) {
        return Some(LinkCause::OutOfSource);
    }
    if is_past(link.target_offset, link.length, target.length) {
        return Some(LinkCause::OutOfTarget);
    }
    if is_bump(link.kind) && !is_bare(link, source, target) {
        return Some(LinkCause::BadBump);
    }
    if target.op.is_some() && !is_atomic(link.kind) {
        return Some(LinkCause::NotAtomic);
    }
    if is_atomic(link.kind) && !is_whole(link, source, target) {
        return Some(LinkCause::BadAtomic);
    }
    if u128::from(link.target) < others && !is_bump(link.kind) {
        return Some(LinkCause::ToInput);
    }
    None
}

/// The first cause that a link isn't taken. The cells below `others` are go cells or hold inputs.
pub(crate) fn link_cause(plan: &Plan, others: u128, l: u32) -> Option<LinkCause>
    requires { l < length plan.now.links }
    ensures { result ≡ first_cause (link_rows plan.now others l) }
{
    let link = link_at(plan, l);
    if !is_rising(&link, plan.cells().len()) {
        return Some(LinkCause::NotRising);
    }
    let source = cell_at(plan, link.source);
    let target = cell_at(plan, link.target);
    cause_between(&link, &source, &target, others)
}
