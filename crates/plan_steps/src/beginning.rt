//! What a step begins with, by the places of its members.

ghost use Rattle.std.specs.Prelude.{ℕ, ◌≡◌, ◌≤◌, ◌<◌, ◌^◌, ◌++◌, ◌∷◌, [], IfOk, IfSome, get_or, length, map, if◌then◌else◌};
ghost use Rattle.coll_shape.specs.Outline.{list_bytes, read_buffer};
ghost use Rattle.coll_shape.specs.WellFormed.{IsNumber};
ghost use Rattle.plan_steps.specs.Beginning.{source_in};
ghost use Rattle.coll_shape.specs.Collectives.{holding_places, is_in};

use coll_shape::{Shape, is_in};
use plan_core::{BufferCells, Frontier};
use ptl_types::{ElemType, Rank};
use std::alloc::{AllocError, Global};

/// The exits of the members.
pub(crate) fn exits_of(
    alloc: Global,
    exits: &Frontier,
    members: &[Rank],
) -> Result<Vec<u32>, AllocError>
    requires { (i : ℕ) → i < length members.now → get_or members.now i 0 < length exits.now }
    ensures { IfOk result (λ list. list.items ≡ map (λ r. get_or exits.now r 0) members.now) }
{
    let mut list = Vec::with_capacity(alloc, members.len())?;
    for r in members {
        list.push(exits.cell(*r))?;
    }
    Ok(list)
}

/// The cell of the buffer that is read at a rank; 0 where it has none.
fn source_in(held: &BufferCells, read: Option<u32>, r: Rank) -> u32
    requires rank { r < held.now.ranks }
    requires read { IfSome read (λ a. a < held.now.buffers) }
    ensures { result ≡ source_in held.now read r }
{
    match read {
        Some(a) => held.cell(a, r).unwrap_or(0),
        None => 0,
    }
}

/// The cells of the members.
pub(crate) fn sources_of(
    alloc: Global,
    held: &BufferCells,
    read: Option<u32>,
    members: &[Rank],
) -> Result<Vec<u32>, AllocError>
    requires ranks { (i : ℕ) → i < length members.now → get_or members.now i 0 < held.now.ranks }
    requires read { IfSome read (λ a. a < held.now.buffers) }
    ensures { IfOk result (λ list. list.items ≡ map (source_in held.now read) members.now) }
{
    let mut list = Vec::with_capacity(alloc, members.len())?;
    for r in members {
        list.push(source_in(held, read, *r))?;
    }
    Ok(list)
}

/// The type of the buffer that is read, and the bytes of a list of it. A barrier reads none.
pub(crate) fn read_data(shape: &Shape, read: Option<u32>) -> (ElemType, u64)
    requires { IsNumber shape.now read }
    ensures ty { result.0 ≡ (read_buffer shape.now read).ty }
    ensures bytes { result.1 ≡ list_bytes (read_buffer shape.now read) }
    ensures most { result.1 ≤ 2 ^ 27 }
{
    shape.recall_form();
    match read {
        Some(a) => {
            let buffer = &shape.buffers()[a as usize];
            (buffer.ty, buffer.list_bytes())
        }
        None => (ElemType::U8, 0),
    }
}

/// The ranks that hold the buffer that is read.
fn holders_of(shape: &Shape, read: Option<u32>) -> &[Rank]
    requires { IsNumber shape.now read }
    ensures { result.now ≡ (read_buffer shape.now read).spread.holders }
{
    match read {
        Some(a) => shape.buffers()[a as usize].spread.holders.as_slice(),
        None => &[],
    }
}

/// A place, where its rank is one of the holders.
fn push_holding(
    list: &mut Vec<u32>,
    holders: &[Rank],
    r: Rank,
    place: u32,
) -> Result<(), AllocError>
    ensures { IfOk result (λ u. list.new.items ≡ list.old.items ++ (if is_in r holders.now then place ∷ [] else [])) }
{
    if is_in(r, holders) {
        list.push(place)?;
    }
    Ok(())
}

/// The places of the members that hold it.
pub(crate) fn holding_of(
    alloc: Global,
    shape: &Shape,
    read: Option<u32>,
    members: &[Rank],
) -> Result<Vec<u32>, AllocError>
    requires read { IsNumber shape.now read }
    requires at_most { length members.now ≤ 256 }
    ensures { IfOk result (λ list. list.items ≡ holding_places members.now (read_buffer shape.now read).spread.holders) }
{
    let holders = holders_of(shape, read);
    let mut list = Vec::new(alloc);
    for place in 0..members.len() {
        push_holding(&mut list, holders, members[place], place as u32)?;
    }
    Ok(list)
}
