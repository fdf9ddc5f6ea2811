//! What is found for all inputs.

ghost use Rattle.std.specs.Prelude.{◌≡◌, ◌<◌, ◌^◌, None, All, IfOk, MatchOption, length};
ghost use Rattle.mark_judge.specs.Due.{mark_at};
ghost use Rattle.schedule_compiler.specs.shapes.Drawing.{drawing_of, plan_of};
ghost use Rattle.schedule_compiler.specs.shapes.Footprint.{refusal};
ghost use Rattle.plan_agreement.specs.Agreement.{Agrees, AreMeantTo, AreNumbersTried, IsMeantIfThere, IsOpenAt, IsPlanFor};
ghost use Rattle.plan_agreement.specs.Witness.{number_units};

use crate::comparing::{Unlike, due_of, first_result, first_unlike};
use crate::cut_places::{are_inputs_alike, cut_places};
use crate::exact::differs;
use crate::numbers::by_numbers;
use crate::sources::{NO_LIST, other_list};
use crate::witness::{list_count, witness};
use coll_shape::{Inputs, Shape};
use given_lines::Mark;
use plan_core::Plan;
use plan_slices::{Cut, CutPlans, cut_plans};
use plan_terms::terms::{TermFault, Terms};
use ptl_types::NoMemory;
use schedule_compiler::shapes::{CompileFault, DrawnShape, drawn_shape};
use std::alloc::{AllocError, Global};

/// What the four bytes of a number count. Inputs of numbered bytes are tried with each of them.
pub const NUMBER_UNITS: [u64; 4] = [1, 256, 65_536, 16_777_216];

/// How many inputs are tried after these.
const TRIES: u32 = 9;

/// What is found of the results of a plan, for all inputs.
#[derive(Debug, Drop)]
pub enum Agreement {
    /// Each is what the shape means, whatever the inputs.
    Same,
    /// This one isn't for these inputs. Each before it is for all inputs.
    Differs(u32, Inputs),
    /// Each before this one is for all inputs, and of this one so many of its first bytes are what the shape means of them. Of the rest
    /// neither was found, but for inputs of numbered bytes it is what the shape means.
    Unknown(u32, u64),
}

/// Tries inputs that may show of a mark that its cell doesn't hold what is meant. The list of the number `other` comes into one of the
/// cell and the cell in the shape's own plan, if there is one.
fn try_inputs(
    alloc: Global,
    plan: &Plan,
    shape: &Shape,
    marks: &[Mark],
    unknown: Unlike,
    other: u32,
) -> Result<Agreement, NoMemory>
    requires fits { IsPlanFor plan.now shape.now }
    requires unknown { IsOpenAt plan.now shape.now marks.now unknown }
    requires numbers { All (IsMeantIfThere plan.now shape.now (mark_at marks.now unknown.mark)) number_units }
    ensures agrees { IfOk result (λ found. Agrees plan.now shape.now marks.now found) }
    ensures tried { IfOk result (λ found. AreNumbersTried plan.now shape.now marks.now found) }
{
    let mark = unknown.mark;
    for kind in 0..TRIES {
        let inputs = witness(alloc, shape, kind, other)?;
        let found = differs(alloc, plan, shape, &inputs, marks[mark as usize])?;
        if found {
            return Ok(Agreement::Differs(mark, inputs));
        }
    }
    Ok(Agreement::Unknown(mark, unknown.bytes))
}

/// Looks for inputs that show of a mark that its cell doesn't hold what is meant: first for those of numbered bytes.
fn search(
    alloc: Global,
    plan: &Plan,
    shape: &Shape,
    marks: &[Mark],
    unknown: Unlike,
    other: u32,
) -> Result<Agreement, NoMemory>
    requires fits { IsPlanFor plan.now shape.now }
    requires unknown { IsOpenAt plan.now shape.now marks.now unknown }
    ensures agrees { IfOk result (λ found. Agrees plan.now shape.now marks.now found) }
    ensures tried { IfOk result (λ found. AreNumbersTried plan.now shape.now marks.now found) }
{
    let shown = by_numbers(
        alloc,
        plan,
        shape,
        marks[unknown.mark as usize],
        &NUMBER_UNITS,
    )?;
    match shown {
        Some(inputs) => Ok(Agreement::Differs(unknown.mark, inputs)),
        None => try_inputs(alloc, plan, shape, marks, unknown, other),
    }
}

/// The bytes of the longest list of an input.
fn longest(shape: &Shape) -> u64 {
    shape.recall_form();
    let mut most = 0u64;
    for b in 0..shape.input_count() {
        most = most.max(shape.buffers()[b as usize].list_bytes());
    }
    most
}

/// No terms yet, for so many inputs at each of so many ranks, of at most so many bytes.
fn opened(alloc: Global, ranks: u32, count: u32, longest: u64) -> Result<Terms, TermFault>
    ensures { IfOk result (λ t. t.ranks ≡ ranks) }
{
    let cells = u64::from(ranks) * u64::from(count);
    if cells > u64::from(u32::MAX) || longest > u64::from(u32::MAX) {
        return Err(TermFault::TooMany);
    }
    Terms::open(alloc, ranks, cells as u32, longest as u32)
}

/// Cells of the shape's own plan that are to be cut as cells of a plan: those of the inputs, and of the results that are named.
fn pairs(
    alloc: Global,
    plan: &Plan,
    shape: &Shape,
    drawn: &DrawnShape,
    marks: &[Mark],
) -> Result<Vec<(u32, u32)>, AllocError>
    requires held { drawn.now.held ≡ (drawing_of shape.now).held }
{
    shape.recall_form();
    let mut pairs = Vec::new(alloc);
    for i in 0..list_count(shape) {
        let cell = shape.ranks().saturating_add(i);
        pairs.push((cell, cell))?;
    }
    for mark in marks {
        if let Mark::Result { buffer, rank, cell } = *mark {
            if let Some(due) = due_of(plan, shape, &drawn.held, buffer, rank, cell) {
                pairs.push((due, cell))?;
            }
        }
    }
    Ok(pairs)
}

/// How the cells of the shape's own plan are cut, and those of a plan.
fn joint_cuts(
    alloc: Global,
    plan: &Plan,
    shape: &Shape,
    drawn: &DrawnShape,
    marks: &[Mark],
) -> Result<(Vec<Cut>, Vec<Cut>), AllocError>
    requires held { drawn.now.held ≡ (drawing_of shape.now).held }
{
    let pairs = pairs(alloc, plan, shape, drawn, marks)?;
    cut_plans(
        alloc,
        CutPlans {
            first: &drawn.plan,
            second: plan,
            pairs: pairs.as_slice(),
        },
    )
}

/// The first mark whose cell isn't computed as the shape's own plan computes it.
fn unlike(
    alloc: Global,
    plan: &Plan,
    shape: &Shape,
    drawn: &DrawnShape,
    marks: &[Mark],
) -> Result<Option<Unlike>, TermFault>
    requires fits { IsPlanFor plan.now shape.now }
    requires accepted { refusal shape.now ≡ None }
    requires plan { drawn.now.plan ≡ plan_of shape.now }
    requires held { drawn.now.held ≡ (drawing_of shape.now).held }
    requires few_marks { length marks.now < 2 ^ 32 }
    ensures { IfOk result (λ found. MatchOption found (AreMeantTo plan.now shape.now marks.now (length marks.now))
        (IsOpenAt plan.now shape.now marks.now)) }
{
    shape.recall_form();
    let ranks = shape.ranks();
    let count = shape.input_count();
    let lists = list_count(shape);
    let (own_cuts, given_cuts) = joint_cuts(alloc, plan, shape, drawn, marks)?;
    let mut terms = opened(alloc, ranks, count, longest(shape))?;
    let own = cut_places(&mut terms, alloc, &drawn.plan, own_cuts, count)?;
    let given = cut_places(&mut terms, alloc, plan, given_cuts, count)?;
    if !are_inputs_alike(&given, &own, ranks, lists) {
        return Err(TermFault::Unfit);
    }
    terms.are_solved();
    Ok(first_unlike(plan, shape, &given, &own, &drawn.held, marks))
}

/// What is found where this is the first mark of whose cell it isn't known.
fn by_first(
    alloc: Global,
    plan: &Plan,
    shape: &Shape,
    marks: &[Mark],
    first: Option<Unlike>,
    other: u32,
) -> Result<Agreement, NoMemory>
    requires fits { IsPlanFor plan.now shape.now }
    requires first { MatchOption first (AreMeantTo plan.now shape.now marks.now (length marks.now))
        (IsOpenAt plan.now shape.now marks.now) }
    ensures agrees { IfOk result (λ found. Agrees plan.now shape.now marks.now found) }
    ensures tried { IfOk result (λ found. AreNumbersTried plan.now shape.now marks.now found) }
{
    match first {
        None => Ok(Agreement::Same),
        Some(unknown) => search(alloc, plan, shape, marks, unknown, other),
    }
}

/// What is found where there is nothing to compare with.
fn by_none(alloc: Global, plan: &Plan, shape: &Shape, marks: &[Mark]) -> Result<Agreement, NoMemory>
    requires fits { IsPlanFor plan.now shape.now }
    requires few_marks { length marks.now < 2 ^ 32 }
    ensures agrees { IfOk result (λ found. Agrees plan.now shape.now marks.now found) }
    ensures tried { IfOk result (λ found. AreNumbersTried plan.now shape.now marks.now found) }
{
    by_first(alloc, plan, shape, marks, first_result(marks), NO_LIST)
}

/// What is found by a comparison with the shape's own plan.
fn against(
    alloc: Global,
    plan: &Plan,
    shape: &Shape,
    drawn: &DrawnShape,
    marks: &[Mark],
) -> Result<Agreement, NoMemory>
    requires fits { IsPlanFor plan.now shape.now }
    requires accepted { refusal shape.now ≡ None }
    requires plan { drawn.now.plan ≡ plan_of shape.now }
    requires held { drawn.now.held ≡ (drawing_of shape.now).held }
    requires few_marks { length marks.now < 2 ^ 32 }
    ensures agrees { IfOk result (λ found. Agrees plan.now shape.now marks.now found) }
    ensures tried { IfOk result (λ found. AreNumbersTried plan.now shape.now marks.now found) }
{
    match unlike(alloc, plan, shape, drawn, marks) {
        Ok(found) => {
            let other = other_list(alloc, plan, shape, drawn, marks, found)?;
            by_first(alloc, plan, shape, marks, found, other)
        }
        Err(TermFault::NoMemory) => Err(NoMemory),
        Err(_) => by_none(alloc, plan, shape, marks),
    }
}

/// Compares the results that are named with what the shape means, for all inputs. A result is the same where its bytes are computed from
/// the inputs' bytes as in the shape's own plan, up to the order and grouping of operands, and to operands that an operation may meet
/// again. Where it isn't, inputs are looked for that show that the result isn't what is meant; so are they for the first result where the
/// shape's own plan is refused or there is too much to compare.
///
/// It takes about twelve bytes of memory for each byte of a slice of both plans' cells, some 50 for each link and 70 for each cell, and
/// more for what is combined.
///
/// # Errors
///
/// There was no memory.
pub fn agree(
    alloc: Global,
    plan: &Plan,
    shape: &Shape,
    marks: &[Mark],
) -> Result<Agreement, NoMemory>
    requires fits { IsPlanFor plan.now shape.now }
    requires few_marks { length marks.now < 2 ^ 32 }
    ensures agrees { IfOk result (λ found. Agrees plan.now shape.now marks.now found) }
    ensures tried { IfOk result (λ found. AreNumbersTried plan.now shape.now marks.now found) }
{
    match drawn_shape(alloc, shape) {
        Ok(drawn) => against(alloc, plan, shape, &drawn, marks),
        Err(CompileFault::NoMemory) => Err(NoMemory),
        Err(_) => by_none(alloc, plan, shape, marks),
    }
}
