//! What the cells of a plan hold in the end.

ghost use Rattle.std.specs.Prelude.{◌∷◌, [], IfOk};
ghost use Rattle.plan_judge.specs.values.Given.{AreLists};

use crate::drawing::{bytes, link, plan_of, sound_cells, sound_links};
use coll_shape::{InputList, Inputs};
use plan_core::{Cell, Link, LinkKind, Plan};
use plan_judge::judge;
use plan_judge::values::{CellValues, judged_plans, values};
use ptl_types::{ElemType, NoMemory};
use std::alloc::Global;
use std::process::Abort;
use std::test::Fail;

/// One input's lists at two ranks, of four bytes each.
#[tactic(auto, using(crate::proofs::Lists::two_lists))]
fn inputs_of(alloc: Global, first: [u8; 4], second: [u8; 4]) -> Result<Inputs, NoMemory>
    ensures { IfOk result (λ inputs. AreLists 2 (4 ∷ []) inputs) }
{
    let first = Vec::from_slice(alloc, &first)?;
    let second = Vec::from_slice(alloc, &second)?;
    let lists = vec![in alloc; InputList::of(first), InputList::of(second)]?;
    Ok(Inputs::of(2, 1, lists))
}

/// What the cells of a plan of two ranks hold in the end, for these lists of its one input; nothing where it has a flaw.
fn evaluated(
    alloc: Global,
    plan: &Plan,
    first: [u8; 4],
    second: [u8; 4],
) -> Result<Option<CellValues>, NoMemory> {
    let inputs = inputs_of(alloc, first, second)?;
    if plan.ranks() != 2 {
        return Ok(None);
    }
    match judge(alloc, plan, &[4])? {
        Some(_) => Ok(None),
        None => {
            judged_plans();
            Ok(Some(values(alloc, plan, &inputs, 1)?))
        }
    }
}

/// Stops the test where the cell doesn't hold these bytes.
fn holds(rt: &impl Abort, values: &CellValues, c: u32, wanted: &[u8]) {
    assert!(rt; (c as usize) < values.len());
    assert_eq!(rt; values.cell(c), wanted);
}

#[test]
fn lists_side_by_side_and_added(rt: HostRuntime) -> Result<(), Fail> {
    let alloc = rt.alloc();
    let plan = plan_of(alloc, 2, &sound_cells(), &sound_links())?;
    let Some(values) = evaluated(alloc, &plan, [1, 2, 3, 4], [255, 6, 7, 250])? else {
        assert!(&rt; false);
        return Ok(());
    };
    assert!(&rt; values.len() == 6);
    holds(&rt, &values, 1, &[]);
    holds(&rt, &values, 2, &[1, 2, 3, 4]);
    holds(&rt, &values, 3, &[255, 6, 7, 250]);
    holds(&rt, &values, 4, &[1, 2, 3, 4, 255, 6, 7, 250]);
    holds(&rt, &values, 5, &[0, 8, 10, 254]);
    Ok(())
}

/// A put of some bytes from within its source.
fn part(source: u32, source_offset: u64, length: u64, target: u32, target_offset: u64) -> Link {
    let mut part = link(LinkKind::Put, source, length, target, target_offset);
    part.source_offset = source_offset;
    part
}

/// The same cell, of elements of two bytes.
fn by_two(mut cell: Cell) -> Cell {
    cell.ty = ElemType::U16;
    cell
}

#[test]
fn parts_and_wide_elements(rt: HostRuntime) -> Result<(), Fail> {
    let alloc = rt.alloc();
    let [a, b, _, d] = sound_cells();
    let cells = [
        by_two(a),
        by_two(b),
        bytes(1, 8, 3),
        by_two(d),
        bytes(1, 4, 2),
    ];
    let [to_first, to_second, _, _, first, second] = sound_links();
    let links = [
        to_first,
        to_second,
        part(2, 2, 2, 4, 0),
        part(3, 0, 4, 4, 2),
        part(2, 0, 2, 4, 6),
        first,
        second,
        part(5, 0, 2, 6, 2),
        part(5, 2, 2, 6, 0),
    ];
    let plan = plan_of(alloc, 2, &cells, &links)?;
    let Some(values) = evaluated(alloc, &plan, [1, 2, 3, 4], [255, 6, 7, 250])? else {
        assert!(&rt; false);
        return Ok(());
    };
    holds(&rt, &values, 4, &[3, 4, 255, 6, 7, 250, 1, 2]);
    holds(&rt, &values, 5, &[0, 9, 10, 254]);
    holds(&rt, &values, 6, &[10, 254, 0, 9]);
    Ok(())
}
