//! The memory with which a rank begins.

ghost use Rattle.std.specs.Prelude.{ℕ, [], nat_le, nat_lt, ◌&&◌, ◌≡◌, ◌<◌, ◌≤◌, ◌+◌, ◌-◌, ◌*◌, ◌/◌, ◌%◌, ◌^◌, ◌++◌};
ghost use Rattle.std.specs.Prelude.{IfOk, get_or, length, replicate, flat_map};
ghost use Rattle.ptl_types.specs.Elements.{starting};
ghost use Rattle.plan_core.specs.Values.{initial};
ghost use Rattle.plan_core.specs.calls.Areas.{blank_area, blank_areas, blank_as, initial_region};
ghost use Rattle.plan_core.specs.calls.Bits.{op_at, type_at};
ghost use Rattle.plan_tables.specs.Installed.{installed};
ghost use Rattle.plan_tables.specs.Ranks.{IsTables};
ghost use Rattle.schedule_compiler.specs.Jobs.{AreInputsFor};

use crate::schedule::Schedule;
use coll_shape::Inputs;
use lane_ops::start_values;
use plan_core::Plan;
use plan_tables::{RankTable, Tables};
use ptl_types::{AtomicOp, Bytes, ElemType, NoMemory, Rank};
use std::alloc::Global;

/// So many zeros after the bytes.
fn add_zeros(bytes: &mut Vec<u8>, n: u64) -> Result<(), NoMemory>
    ensures { IfOk result (λ u. bytes.new.items ≡ bytes.old.items ++ replicate n 0) }
{
    let Some(end) = bytes.len().checked_add(n as usize) else {
        return Err(NoMemory);
    };
    bytes.resize(end, 0)?;
    Ok(())
}

/// The operation of a number, from 0.
fn op_at(number: u32) -> AtomicOp
    ensures { result ≡ op_at number }
{
    match number {
        0 => AtomicOp::Min,
        1 => AtomicOp::Max,
        2 => AtomicOp::Sum,
        3 => AtomicOp::Prod,
        4 => AtomicOp::Lor,
        5 => AtomicOp::Land,
        6 => AtomicOp::Bor,
        7 => AtomicOp::Band,
        8 => AtomicOp::Lxor,
        _ => AtomicOp::Bxor,
    }
}

/// The type of a number, from 0.
fn type_at(number: u32) -> ElemType
    ensures { result ≡ type_at number }
{
    match number {
        0 => ElemType::U8,
        1 => ElemType::I8,
        2 => ElemType::U16,
        3 => ElemType::I16,
        4 => ElemType::U32,
        5 => ElemType::I32,
        6 => ElemType::U64,
        _ => ElemType::I64,
    }
}

/// A list after the bytes.
fn add_list(bytes: &mut Vec<u8>, list: &[u8]) -> Result<(), NoMemory>
    ensures { IfOk result (λ u. bytes.new.items ≡ bytes.old.items ++ list.now) }
{
    bytes.extend_from_slice(list)?;
    Ok(())
}

/// Starting values of an operation after the bytes, as many as whole elements fit into n bytes.
fn add_starting(bytes: &mut Vec<u8>, op: AtomicOp, ty: ElemType, n: u64) -> Result<(), NoMemory>
    ensures { IfOk result (λ u. bytes.new.items ≡ bytes.old.items ++ starting op ty n) }
{
    let start = bytes.len();
    add_zeros(bytes, n - n % ty.size())?;
    start_values(op, ty, &mut bytes[start..]);
    Ok(())
}

/// What n blank bytes hold after the bytes: starting values where something is combined there, else zeros.
fn add_blank(
    bytes: &mut Vec<u8>,
    op: Option<AtomicOp>,
    ty: ElemType,
    n: u64,
) -> Result<(), NoMemory>
    ensures { IfOk result (λ u. bytes.new.items ≡ bytes.old.items ++ blank_as op ty n) }
{
    match op {
        Some(op) => add_starting(bytes, op, ty, n),
        None => add_zeros(bytes, n),
    }
}

/// Whether a cell is one of the input cells, of which there are so many a rank after the go cells.
fn is_input(ranks: u32, count: u32, c: u32) -> bool
    requires ranks { ranks ≤ 256 }
    requires count { count * ranks ≤ 2 ^ 24 }
    ensures { result ≡ (nat_le ranks c && nat_lt c (ranks + count * ranks)) }
{
    ranks <= c && c < ranks + count * ranks
}

/// The list of input cell number i, counted over all inputs, after the bytes.
fn add_input(bytes: &mut Vec<u8>, inputs: &Inputs, ranks: u32, i: u32) -> Result<(), NoMemory>
    requires nonempty { 1 ≤ ranks }
    requires lists { (b : ℕ) → b < length inputs.now → length (get_or inputs.now b []) ≡ ranks }
    requires input { i < length inputs.now * ranks }
    ensures { IfOk result (λ u. bytes.new.items ≡ bytes.old.items ++ get_or (get_or inputs.now (i / ranks) []) (i % ranks) []) }
{
    add_list(bytes, inputs.list(i / ranks, i % ranks))?;
    Ok(())
}

/// What a cell holds at the beginning, after the bytes.
fn add_cell(
    bytes: &mut Vec<u8>,
    plan: &Plan,
    inputs: &Inputs,
    count: u32,
    c: u32,
) -> Result<(), NoMemory>
    requires count { count ≡ length inputs.now }
    requires few_inputs { count * plan.now.ranks ≤ 2 ^ 24 }
    requires cell { c < length plan.now.cells }
    requires nonempty { 1 ≤ plan.now.ranks }
    requires at_most { plan.now.ranks ≤ 256 }
    requires lists { (b : ℕ) → b < length inputs.now → length (get_or inputs.now b []) ≡ plan.now.ranks }
    ensures { IfOk result (λ u. bytes.new.items ≡ bytes.old.items ++ initial plan.now inputs.now c) }
{
    let ranks = plan.ranks();
    let given = is_input(ranks, count, c);
    if given {
        add_input(bytes, inputs, ranks, c - ranks)?;
        Ok(())
    } else {
        let cell = plan.cells()[c as usize];
        add_blank(bytes, cell.op, cell.ty, cell.length)?;
        Ok(())
    }
}

/// What these cells hold at the beginning, one after the other.
fn add_cells(
    bytes: &mut Vec<u8>,
    plan: &Plan,
    inputs: &Inputs,
    count: u32,
    own: &[u32],
) -> Result<(), NoMemory>
    requires count { count ≡ length inputs.now }
    requires few_inputs { count * plan.now.ranks ≤ 2 ^ 24 }
    requires own { (i : ℕ) → i < length own.now → get_or own.now i 0 < length plan.now.cells }
    requires nonempty { 1 ≤ plan.now.ranks }
    requires at_most { plan.now.ranks ≤ 256 }
    requires lists { (b : ℕ) → b < length inputs.now → length (get_or inputs.now b []) ≡ plan.now.ranks }
    ensures { IfOk result (λ u. bytes.new.items ≡ bytes.old.items ++ flat_map (initial plan.now inputs.now) own.now) }
{
    for c in own {
        add_cell(bytes, plan, inputs, count, *c)?;
    }
    Ok(())
}

/// What the area of a class holds at the beginning, after the bytes.
fn add_area(bytes: &mut Vec<u8>, class: u32, n: u64) -> Result<(), NoMemory>
    ensures { IfOk result (λ u. bytes.new.items ≡ bytes.old.items ++ blank_area class n) }
{
    if class == 0 {
        add_blank(bytes, None, ElemType::U8, n)
    } else {
        let op = op_at((class - 1) / 8);
        add_blank(bytes, Some(op), type_at((class - 1) % 8), n)
    }
}

/// What the areas of a rank hold at the beginning, after the bytes. A class without messages has no bytes.
fn add_areas(bytes: &mut Vec<u8>, plan: &Plan, tables: &Tables, r: Rank) -> Result<(), NoMemory>
    requires tables { IsTables plan.now tables.now }
    requires rank { r < plan.now.ranks }
    requires at_most { plan.now.ranks ≤ 256 }
    ensures { IfOk result (λ u. bytes.new.items ≡ bytes.old.items ++ blank_areas plan.now r) }
{
    for class in 0..81u32 {
        add_area(bytes, class, tables.area(plan, r, class))?;
    }
    Ok(())
}

/// The memory with which a rank begins: its cells in order of their numbers, and after them its areas. An input cell holds the
/// rank's list, a cell that combines and an area of what is combined hold starting values, and all else holds zeros.
///
/// # Errors
///
/// There was no memory for it.
pub fn load(
    alloc: Global,
    schedule: &Schedule,
    table: &RankTable,
    inputs: &Inputs,
    r: Rank,
) -> Result<Bytes, NoMemory>
    requires table { table.now ≡ installed schedule.now.plan r }
    requires inputs { AreInputsFor schedule.now inputs.now }
    requires rank { r < schedule.now.plan.ranks }
    ensures { IfOk result (λ bytes. bytes.list ≡ initial_region schedule.now.plan inputs.now r) }
{
    let plan = schedule.plan();
    let mut bytes = Vec::with_capacity(alloc, table.region() as usize)?;
    let count = schedule.input_count();
    add_cells(&mut bytes, plan, inputs, count, table.cells())?;
    add_areas(&mut bytes, plan, schedule.tables(), r)?;
    Ok(Bytes::from_vec(bytes))
}
