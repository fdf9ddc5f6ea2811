//! The buffers of a description, step by step.

ghost use Rattle.std.specs.Prelude.{◌≡◌, length, IfOk};
ghost use Rattle.number_lists.specs.Numbers.{from_to};
ghost use Rattle.coll_shape.specs.Meaning.{AreInputs, meaning_of};
ghost use Rattle.coll_meaning.specs.Lengths.{AreLong};
ghost use Rattle.coll_meaning.specs.Printed.{PrintsMeaning};
ghost use Rattle.coll_meaning.specs.Steps.{IsThere};

use crate::buffers::Buffers;
use crate::steps::take_step;
use coll_shape::{Inputs, Shape};
use ptl_types::NoMemory;
use std::alloc::{AllocError, Global};

/// Makes all steps, so that the buffers that are to be kept are there.
fn all_steps<'a>(
    alloc: Global,
    shape: &Shape,
    inputs: &'a Inputs,
    kept: &[u32],
) -> Result<Buffers<'a>, AllocError>
    requires { AreInputs shape.now inputs.now }
    ensures { IfOk result (λ held. IsThere shape.now kept.now inputs.now (length shape.now.steps) held) }
{
    shape.recall_form();
    let ranks = shape.ranks();
    let mut held = Buffers::of(alloc, inputs, shape.input_count(), ranks);
    for k in 0..shape.steps().len() {
        take_step(alloc, shape, kept, &mut held, k as u32)?;
    }
    Ok(held)
}

/// The numbers of so many buffers.
#[tactic(auto, using(crate::proofs::Rows::numbers_more))]
fn numbers(alloc: Global, count: u32) -> Result<Vec<u32>, AllocError>
    ensures { IfOk result (λ v. v.items ≡ from_to 0 count) }
{
    let mut numbers = Vec::with_capacity(alloc, count as usize)?;
    for i in 0..count {
        numbers.push(i)?;
    }
    Ok(numbers)
}

/// All buffers of a description.
fn all_buffers<'a>(
    alloc: Global,
    shape: &Shape,
    inputs: &'a Inputs,
) -> Result<Buffers<'a>, AllocError>
    requires { AreInputs shape.now inputs.now }
    ensures value { IfOk result (λ held. held ≡ meaning_of shape.now inputs.now) }
    ensures shaped { IfOk result (λ held. AreLong shape.now (length shape.now.buffers) held) }
{
    // With a call on it a shape tells that it is well formed.
    shape.recall_form();
    let kept = numbers(alloc, shape.buffers().len() as u32)?;
    let held = all_steps(alloc, shape, inputs, kept.as_slice())?;
    Ok(held)
}

/// What a description means: its buffers in order, the inputs first, of each the list at every rank.
///
/// # Errors
///
/// There was no memory for the lists.
pub fn buffers_of<'a>(
    alloc: Global,
    shape: &Shape,
    inputs: &'a Inputs,
) -> Result<Buffers<'a>, NoMemory>
    requires inputs { AreInputs shape.now inputs.now }
    ensures value { IfOk result (λ held. held ≡ meaning_of shape.now inputs.now) }
    // There are as many buffers as the shape has, and each rank's list is as long as its buffer's length and holders say.
    ensures shaped { IfOk result (λ held. AreLong shape.now (length shape.now.buffers) held) }
{
    match all_buffers(alloc, shape, inputs) {
        Ok(held) => Ok(held),
        Err(_) => Err(NoMemory),
    }
}

/// What a description prints: the lists of its printed buffers. The lists of other buffers are let go as soon as no step
/// reads them any more, so that the memory that is needed is that of the lists which are needed at one time.
///
/// # Errors
///
/// There was no memory for the lists.
pub fn printed_of<'a>(
    alloc: Global,
    shape: &Shape,
    inputs: &'a Inputs,
) -> Result<Buffers<'a>, NoMemory>
    requires inputs { AreInputs shape.now inputs.now }
    ensures value { IfOk result (λ held. PrintsMeaning shape.now inputs.now held) }
{
    shape.recall_form();
    match all_steps(alloc, shape, inputs, shape.prints()) {
        Ok(held) => Ok(held),
        Err(_) => Err(NoMemory),
    }
}
