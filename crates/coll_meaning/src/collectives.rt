//! What each collective makes: one line for each.

ghost use Rattle.std.specs.Prelude.{◌≡◌, ◌<◌, [], ℕ, suc, length, get_or, IfOk};
ghost use Rattle.coll_shape.specs.Folding.{before_place, block, reduced};
ghost use Rattle.coll_shape.specs.Collectives.{asks_of, list_after};
ghost use Rattle.coll_meaning.specs.Forms.{form_list};
ghost use Rattle.coll_meaning.specs.Lengths.{AreAsked, AreEven};

use crate::buffers::Taken;
use crate::folding::{all_exchanged, blocks, copied, joined, push_folds, reduced};
use crate::lists::{ByteList, Form};
use coll_shape::CollStep;
use ptl_types::{AtomicOp, ElemType, Rank};
use std::alloc::{AllocError, Global};

/// For each place the fold of the lists up to its own.
#[tactic(auto, using(crate::proofs::Rows::row_get))]
fn scanned(
    alloc: Global,
    op: AtomicOp,
    ty: ElemType,
    xs: &Taken,
) -> Result<Vec<ByteList>, AllocError>
    requires { AreEven ty xs.now }
    ensures { IfOk result (λ lists. (i : ℕ) → i < length xs.now → get_or lists.items i [] ≡ reduced op ty (suc i) xs.now) }
{
    let mut lists = Vec::with_capacity(alloc, xs.len())?;
    push_folds(alloc, op, ty, xs, xs.len(), &mut lists)?;
    Ok(lists)
}

/// For each place but the first the fold of the lists before its own; the first has none.
#[tactic(auto, using(crate::proofs::Rows::before_get))]
fn scanned_before(
    alloc: Global,
    op: AtomicOp,
    ty: ElemType,
    xs: &Taken,
) -> Result<Vec<ByteList>, AllocError>
    requires { AreEven ty xs.now }
    ensures { IfOk result (λ lists. (i : ℕ) → i < length xs.now → get_or lists.items i [] ≡ before_place op ty xs.now i) }
{
    let mut lists = Vec::with_capacity(alloc, xs.len())?;
    lists.push(copied(alloc, &[])?)?;
    push_folds(alloc, op, ty, xs, xs.len().saturating_sub(1), &mut lists)?;
    Ok(lists)
}

/// The blocks of the fold of all lists.
fn fold_in_blocks(
    alloc: Global,
    op: AtomicOp,
    ty: ElemType,
    xs: &Taken,
) -> Result<Vec<ByteList>, AllocError>
    requires { AreEven ty xs.now }
    ensures { IfOk result (λ lists. (i : ℕ) → i < length xs.now → get_or lists.items i [] ≡ block (length xs.now) i
        (reduced op ty (length xs.now) xs.now)) }
{
    let fold = reduced(alloc, op, ty, xs)?;
    blocks(alloc, xs.len(), fold.as_slice())
}

/// The lists that a step makes of the members' lists of A, which have this type.
pub fn form_of(alloc: Global, ty: ElemType, step: CollStep, xs: &Taken) -> Result<Form, AllocError>
    requires { AreAsked (asks_of step) ty xs.now }
    ensures { IfOk result (λ form. (i : ℕ) → i < length xs.now → form_list form i ≡ list_after ty step xs.now i) }
{
    match step {
        CollStep::Barrier => Ok(Form::Each(Vec::new(alloc))),
        CollStep::Broadcast { root, .. } => Ok(Form::Same(copied(alloc, xs.list(root as usize))?)),
        CollStep::Reduce { root, op, .. } => Ok(Form::AtRoot(root, reduced(alloc, op, ty, xs)?)),
        CollStep::Allreduce { op, .. } => Ok(Form::Same(reduced(alloc, op, ty, xs)?)),
        CollStep::Gather { root, .. } => Ok(Form::AtRoot(root, joined(alloc, xs)?)),
        CollStep::Allgather { .. } => Ok(Form::Same(joined(alloc, xs)?)),
        CollStep::Alltoall { .. } => Ok(Form::Each(all_exchanged(alloc, xs)?)),
        CollStep::Scan { op, .. } => Ok(Form::Each(scanned(alloc, op, ty, xs)?)),
        CollStep::Scatter { root, .. } => {
            Ok(Form::Each(blocks(alloc, xs.len(), xs.list(root as usize))?))
        }
        CollStep::Reducescatter { op, .. } => Ok(Form::Each(fold_in_blocks(alloc, op, ty, xs)?)),
        CollStep::Exscan { op, .. } => Ok(Form::Each(scanned_before(alloc, op, ty, xs)?)),
        CollStep::Gatherv { root, .. } => Ok(Form::AtRoot(root, joined(alloc, xs)?)),
    }
}
