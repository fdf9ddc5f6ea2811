//! Inputs whose bytes are numbered: four of them tell from which byte of the inputs a byte comes.

ghost use Rattle.std.specs.Prelude.{◌≡◌, ◌<◌, ◌+◌, ◌*◌, ◌/◌, ◌%◌, All, IfOk, MatchOption, map};
ghost use Rattle.number_lists.specs.Numbers.{from_to};
ghost use Rattle.plan_agreement.specs.Agreement.{IsMeantIfThere, IsPlanFor, IsWrongFor};
ghost use Rattle.plan_agreement.specs.Witness.{numbered, numbered_byte, numbered_list, numbered_lists};

use crate::exact::differs;
use crate::witness::{bytes_at, list_count};
use coll_shape::{InputList, Inputs, Shape};
use given_lines::Mark;
use plan_core::Plan;
use ptl_types::NoMemory;
use std::alloc::{AllocError, Global};

/// One of the four bytes of the number of byte k of list i, which is the one that counts so many.
fn numbered_byte(unit: u64, i: u32, k: u64) -> u8
    requires { 0 < unit }
    ensures { result ≡ numbered_byte unit i k }
{
    ((u64::from(i) * 32_768 + k % 32_768 + 1) / unit % 256) as u8
}

/// The bytes of list i.
fn numbered_list(alloc: Global, unit: u64, i: u32, count: u64) -> Result<InputList, AllocError>
    requires { 0 < unit }
    ensures { IfOk result (λ list. list ≡ numbered_list unit i count) }
{
    let mut bytes = Vec::with_capacity(alloc, count as usize)?;
    for k in 0..count {
        bytes.push(numbered_byte(unit, i, k))?;
    }
    Ok(InputList::of(bytes))
}

/// The lists of all inputs of a shape, rank by rank in each.
fn numbered_lists(alloc: Global, shape: &Shape, unit: u64) -> Result<Vec<InputList>, AllocError>
    requires { 0 < unit }
    ensures { IfOk result (λ lists. lists.items ≡ numbered_lists shape.now unit) }
{
    let mut lists = Vec::new(alloc);
    for i in 0..list_count(shape) {
        let list = numbered_list(alloc, unit, i, bytes_at(shape, i))?;
        lists.push(list)?;
    }
    Ok(lists)
}

/// Inputs of a shape, each byte one of the four bytes of its number: the one that counts so many. Byte k of list i has the number
/// 32,768 i + k + 1, where the lists are counted input by input and by rank in each.
///
/// # Errors
///
/// There was no memory.
pub fn numbered(alloc: Global, shape: &Shape, unit: u64) -> Result<Inputs, NoMemory>
    requires { 0 < unit }
    ensures { IfOk result (λ inputs. inputs ≡ numbered shape.now unit) }
{
    shape.recall_form();
    match numbered_lists(alloc, shape, unit) {
        Ok(lists) => Ok(Inputs::of(shape.ranks(), shape.input_count(), lists)),
        Err(_) => Err(NoMemory),
    }
}

/// The inputs whose bytes are these of their numbers, if they show that a result isn't what is meant.
fn by_bytes(
    alloc: Global,
    plan: &Plan,
    shape: &Shape,
    mark: Mark,
    unit: u64,
) -> Result<Option<Inputs>, NoMemory>
    requires fits { IsPlanFor plan.now shape.now }
    requires unit { 0 < unit }
    ensures { IfOk result (λ found. MatchOption found (IsMeantIfThere plan.now shape.now mark unit) (IsWrongFor plan.now shape.now mark)) }
{
    let inputs = numbered(alloc, shape, unit)?;
    let found = differs(alloc, plan, shape, &inputs, mark)?;
    if found {
        return Ok(Some(inputs));
    }
    Ok(None)
}

/// The first inputs of numbered bytes that show that a result isn't what is meant: the byte that counts so many is taken of each number.
pub(crate) fn by_numbers(
    alloc: Global,
    plan: &Plan,
    shape: &Shape,
    mark: Mark,
    units: &[u64],
) -> Result<Option<Inputs>, NoMemory>
    requires fits { IsPlanFor plan.now shape.now }
    requires units { All (λ unit. 0 < unit) units.now }
    ensures { IfOk result (λ found. MatchOption found (All (IsMeantIfThere plan.now shape.now mark) units.now)
        (IsWrongFor plan.now shape.now mark)) }
{
    for unit in units {
        let shown = by_bytes(alloc, plan, shape, mark, *unit)?;
        match shown {
            Some(inputs) => return Ok(Some(inputs)),
            None => {}
        }
    }
    Ok(None)
}
