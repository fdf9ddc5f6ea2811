//! The region of a rank: four words of eight bytes for each step of the text.

ghost use Rattle.std.specs.Prelude.{◌≡◌, ◌≤◌, ◌++◌, IfOk, OnOk, flat_map, length};
ghost use Rattle.plan_choice.specs.texts.machine.Machine.{first_word};
ghost use Rattle.plan_choice.specs.texts.view.Calls.{first_bytes};
ghost use Rattle.plan_choice.specs.texts.view.Install.{four_words, given_word, steps, word};
ghost use Rattle.plan_choice.specs.ranks.Seats.{kind_of, kinds_of};

use coll_lang::{ChoiceKind, ChoiceStep};
use ptl_types::{Bytes, NoMemory, Rank};
use std::alloc::Global;

/// The word that an elect swaps where nobody was before it: no rank is so high.
pub const NOBODY: u64 = u64::MAX;

/// What a step does, its name left out.
fn kind(step: &ChoiceStep) -> ChoiceKind
    ensures { result ≡ kind_of step.now }
{
    match step {
        ChoiceStep::Elect(_) => ChoiceKind::Elect,
        ChoiceStep::Tickets(_) => ChoiceKind::Tickets,
    }
}

/// What the steps do.
pub fn kinds(alloc: Global, steps: &[ChoiceStep]) -> Result<Vec<ChoiceKind>, NoMemory>
    ensures { IfOk result (λ v. v.items ≡ kinds_of steps.now) }
{
    let mut kinds = Vec::with_capacity(alloc, steps.len())?;
    for i in 0..steps.len() {
        kinds.push(kind(&steps[i]))?;
    }
    Ok(kinds)
}

/// Eight bytes more, the lowest first.
fn push_word(bytes: &mut Vec<u8>, number: u64) -> Result<(), NoMemory>
    ensures { OnOk result (bytes.new.items ≡ bytes.old.items ++ word number) }
{
    bytes.extend_from_slice(&number.to_le_bytes())?;
    Ok(())
}

/// The word of a step before any request: nobody, or no ticket.
fn first_of(kind: ChoiceKind) -> u64
    ensures { result ≡ first_word kind }
{
    match kind {
        ChoiceKind::Elect => NOBODY,
        ChoiceKind::Tickets => 0,
    }
}

/// What a rank gives to a step: itself, or one.
fn given_by(rank: Rank, kind: ChoiceKind) -> u64
    ensures { result ≡ given_word kind rank }
{
    match kind {
        ChoiceKind::Elect => u64::from(rank),
        ChoiceKind::Tickets => 1,
    }
}

/// The four words of a step: that of rank 0, what the rank gives, the old word and the result.
fn push_step(bytes: &mut Vec<u8>, rank: Rank, kind: ChoiceKind) -> Result<(), NoMemory>
    ensures { OnOk result (bytes.new.items ≡ bytes.old.items ++ four_words (first_word kind) (given_word kind rank) 0 0) }
{
    push_word(bytes, first_of(kind))?;
    push_word(bytes, given_by(rank, kind))?;
    push_word(bytes, 0)?;
    push_word(bytes, 0)?;
    Ok(())
}

/// The bytes of a rank before its start.
pub fn region(alloc: Global, rank: Rank, kinds: &[ChoiceKind]) -> Result<Bytes, NoMemory>
    requires { length kinds.now ≤ 64 }
    ensures { IfOk result (λ b. b.list ≡ flat_map (first_bytes kinds.now rank) (steps kinds.now)) }
{
    let mut bytes = Vec::with_capacity(alloc, 32 * kinds.len())?;
    for step in 0..kinds.len() {
        push_step(&mut bytes, rank, kinds[step])?;
    }
    Ok(Bytes::from_vec(bytes))
}
