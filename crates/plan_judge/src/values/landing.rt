//! What a link does to the bytes of the cell that it comes to.

ghost use Rattle.std.specs.Prelude.{◌≡◌, ◌<◌, ◌≤◌, ◌+◌, ◌%◌, [], All, length, get_or};
ghost use Rattle.ptl_types.specs.Elements.{part, written};
ghost use Rattle.ptl_types.specs.Operations.{bytes_of};
ghost use Rattle.plan_core.specs.Plan.{cell, link};
ghost use Rattle.plan_core.specs.Values.{carried_of, joined, land, land_all, land_as};
ghost use Rattle.plan_judge.specs.values.Given.{IsReady};
ghost use Rattle.plan_core.specs.declared.LinkKind.TheVariants.{Atomic};

use crate::values::evaluating::CellBytes;
use lane_ops::combine;
use plan_core::reading::{cell_at, link_at};
use plan_core::{Cell, Link, LinkKind, Plan};

/// Writes a list over the part of the bytes from `at` on.
fn write(bytes: &mut [u8], at: u64, list: &[u8])
    requires { at + length list.now ≤ length bytes.old }
    ensures { bytes.new ≡ written at list.now bytes.old }
{
    let from = at as usize;
    bytes[from..from + list.len()].copy_from_slice(list);
}

/// Combines a cell's bytes with a list by the cell's operation, if it has one.
fn join(bytes: &mut [u8], cell: &Cell, list: &[u8])
    requires same { length bytes.old ≡ length list.now }
    requires whole { length bytes.old % bytes_of cell.now.ty ≡ 0 }
    ensures { bytes.new ≡ joined cell.now bytes.old list.now }
{
    match cell.op {
        Some(op) => combine(op, cell.ty, bytes, list),
        None => {}
    }
}

/// What a link does to the bytes of its target cell, with the bytes that it carries. An atomic is over the whole cell.
fn land_as(bytes: &mut [u8], link: &Link, cell: &Cell, carried: &[u8])
    requires within { link.now.target_offset + length carried.now ≤ length bytes.old }
    requires begins { link.now.kind ≡ Atomic → link.now.target_offset ≡ 0 }
    requires same { link.now.kind ≡ Atomic → length carried.now ≡ length bytes.old }
    requires whole { length bytes.old % bytes_of cell.now.ty ≡ 0 }
    ensures { bytes.new ≡ land_as link.now.kind cell.now link.now.target_offset carried.now bytes.old }
{
    match link.kind {
        LinkKind::Put => write(bytes, link.target_offset, carried),
        LinkKind::Atomic => join(bytes, cell, carried),
        LinkKind::Bump => {}
    }
}

/// The bytes of its source cell that a link carries, out of those of the cells before its target.
fn carried<'a>(link: &Link, before: &'a [CellBytes]) -> &'a [u8]
    requires cell { link.now.source < length before.now }
    requires within { link.now.source_offset + link.now.length ≤ length (get_or before.now link.now.source []) }
    ensures { result.now ≡ part link.now.source_offset link.now.length (get_or before.now link.now.source []) }
{
    let from = link.source_offset as usize;
    &before[link.source as usize].as_slice()[from..from + link.length as usize]
}

/// What a link does to the bytes of its target, cell c, with what it carries out of those of the cells before that.
fn land(bytes: &mut [u8], plan: &Plan, before: &[CellBytes], c: u32, l: u32)
    requires cell { c < length plan.now.cells }
    requires ready { IsReady plan.now before.now c l }
    requires long { length bytes.old ≡ (cell plan.now c).length }
    requires whole { (cell plan.now c).length % bytes_of (cell plan.now c).ty ≡ 0 }
    ensures { bytes.new ≡ land plan.now l (carried_of plan.now (get_or before.now (link plan.now l).source []) l) bytes.old }
{
    let link = link_at(plan, l);
    let list = carried(&link, before);
    land_as(bytes, &link, &cell_at(plan, c), list);
}

/// What these links do to the bytes of their target, cell c, one after the other.
pub(crate) fn land_all(bytes: &mut [u8], plan: &Plan, before: &[CellBytes], c: u32, links: &[u32])
    requires cell { c < length plan.now.cells }
    requires ready { All (IsReady plan.now before.now c) links.now }
    requires long { length bytes.old ≡ (cell plan.now c).length }
    requires whole { (cell plan.now c).length % bytes_of (cell plan.now c).ty ≡ 0 }
    ensures { bytes.new ≡
        land_all plan.now (λ l. carried_of plan.now (get_or before.now (link plan.now l).source []) l) links.now bytes.old }
{
    for l in links {
        land(bytes, plan, before, c, *l);
    }
}
