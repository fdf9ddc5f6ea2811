//! The cells at which barriers are entered and left.

ghost use Rattle.std.specs.Prelude.{◌≡◌, ◌<◌, ◌≤◌, ◌+◌, ◌*◌, ◌∷◌, ◌++◌, ◌^◌, [], IfOk, None, length};
ghost use Rattle.coll_shape.specs.declared.limits.TheConstants.{MOST_RANKS};
ghost use Rattle.given_lines.specs.declared.given.Mark.TheVariants.{Enter, Leave};
ghost use Rattle.marked_plans.specs.Marks.{barrier_marks, row_marks, step_marks};
ghost use Rattle.plan_steps.specs.Rounds.{rounds};
ghost use Rattle.schedule_compiler.specs.shapes.Drawing.{plan_of};
ghost use Rattle.schedule_compiler.specs.shapes.Footprint.{refusal};
ghost use Rattle.schedule_compiler.specs.shapes.Judging.{size_upto, step_size};

use coll_shape::{CollStep, Shape, holders_among};
use given_lines::Mark;
use plan_core::Plan;
use plan_steps::{rounds, step_links};
use ptl_types::Rank;
use std::alloc::AllocError;

/// Adds where a member of a barrier enters it and leaves it.
fn mark_member(
    marks: &mut Vec<Mark>,
    step: u32,
    rank: Rank,
    entry: u32,
    exit: u32,
) -> Result<(), AllocError>
    ensures { IfOk result (λ u. marks.new.items ≡ marks.old.items ++ (Enter step rank entry ∷ Leave step rank exit ∷ [])) }
{
    marks.push(Mark::Enter {
        step,
        rank,
        cell: entry,
    })?;
    marks.push(Mark::Leave {
        step,
        rank,
        cell: exit,
    })?;
    Ok(())
}

/// Adds where each member of a barrier enters it and leaves it. The barrier's cells begin with the first one.
fn mark_members(
    marks: &mut Vec<Mark>,
    step: u32,
    first: u32,
    members: &[Rank],
) -> Result<(), AllocError>
    requires few { length members.now ≤ MOST_RANKS }
    requires cells { first + (rounds (length members.now) * length members.now + length members.now) < 2 ^ 32 }
    ensures { IfOk result (λ u. marks.new.items ≡ marks.old.items ++ row_marks step first members.now) }
{
    let count = members.len() as u32;
    let last = rounds(count) * count;
    for place in 0..count {
        let rank = members[place as usize];
        mark_member(marks, step, rank, first + place, first + (last + place))?;
    }
    Ok(())
}

/// How many links a step has.
fn links_in(shape: &Shape, k: u32) -> u64
    requires step { k < length shape.now.steps }
    ensures value { result ≡ (step_size shape.now k).links }
    ensures at_most { result ≤ 2 ^ 18 }
{
    shape.recall_form();
    let step = &shape.steps()[k as usize];
    let members = shape.group(k);
    let holding = match step.source() {
        Some(a) => holders_among(
            members,
            shape.buffers()[a as usize].spread.holders.as_slice(),
        ),
        None => 0,
    };
    step_links(step, members.len() as u32, holding as u32)
}

/// How many links the inputs have.
fn links_of_inputs(shape: &Shape) -> u64
    ensures value { result ≡ (size_upto shape.now 0).links }
    ensures at_most { result ≤ 2 ^ 15 }
{
    shape.recall_form();
    u64::from(shape.input_count()) * u64::from(shape.ranks())
}

/// Adds where the members of a step enter it and leave it, if it is a barrier. So many links stand before those of the step.
fn mark_step(
    marks: &mut Vec<Mark>,
    shape: &Shape,
    plan: &Plan,
    k: u32,
    links: u64,
) -> Result<(), AllocError>
    requires step { k < length shape.now.steps }
    requires plan { plan.now ≡ plan_of shape.now }
    requires accepted { refusal shape.now ≡ None }
    requires links { links ≡ (size_upto shape.now k).links }
    ensures { IfOk result (λ u. marks.new.items ≡ marks.old.items ++ step_marks shape.now k) }
{
    shape.recall_form();
    match shape.steps()[k as usize] {
        CollStep::Barrier => {
            // Its first link comes to its first cell.
            let first = plan.links()[links as usize].target;
            mark_members(marks, k, first, shape.group(k))
        }
        _ => Ok(()),
    }
}

/// Adds where barriers are entered and left, by the order of steps and by members.
pub(crate) fn mark_barriers(
    marks: &mut Vec<Mark>,
    shape: &Shape,
    plan: &Plan,
) -> Result<(), AllocError>
    requires plan { plan.now ≡ plan_of shape.now }
    requires accepted { refusal shape.now ≡ None }
    ensures { IfOk result (λ u. marks.new.items ≡ marks.old.items ++ barrier_marks shape.now) }
{
    shape.recall_form();
    let mut links = links_of_inputs(shape);
    for k in 0..shape.steps().len() as u32 {
        mark_step(marks, shape, plan, k, links)?;
        links += links_in(shape, k);
    }
    Ok(())
}
