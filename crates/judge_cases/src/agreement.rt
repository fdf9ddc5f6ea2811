//! Shapes, and what is found of their plans.

ghost use Rattle.std.specs.Prelude.{◌≡◌, None};
ghost use Rattle.schedule_compiler.specs.shapes.Drawing.{drawing_of, plan_of};
ghost use Rattle.schedule_compiler.specs.shapes.Footprint.{refusal};

use coll_lang::parse;
use coll_shape::Shape;
use given_lines::Mark;
use plan_agreement::{Agreement, agree, own_plans_fit};
use plan_core::Plan;
use ptl_types::{NoMemory, Rank};
use schedule_compiler::shapes::{DrawnShape, drawn_shape};
use std::alloc::{AllocError, Global};
use std::process::Abort;
use std::test::Fail;

/// Three ranks with an input of three bytes each.
const INPUT: &str = "coll 2\nranks 3\ninput a u8 3\n7 1 2\n9 3 4\n5 6 8\n";

/// More results than there are here.
const MANY: usize = 1000;

/// The cell that holds a buffer at a rank, if there is one.
fn cell_of(shape: &Shape, drawn: &DrawnShape, buffer: u32, rank: Rank) -> Option<u32>
    requires { drawn.now.held ≡ (drawing_of shape.now).held }
{
    shape.recall_form();
    let count = shape.buffers().len();
    let ranks = shape.ranks();
    if buffer as usize >= count {
        return None;
    }
    if rank >= ranks {
        return None;
    }
    drawn.held.cell(buffer, rank)
}

/// The results of a buffer at each rank, of which it is said that they are in the cells of another buffer, so many ranks further on.
fn marks_of(
    alloc: Global,
    shape: &Shape,
    drawn: &DrawnShape,
    buffer: u32,
    of: u32,
    further: u32,
) -> Result<Vec<Mark>, AllocError>
    requires { drawn.now.held ≡ (drawing_of shape.now).held }
{
    let mut marks = Vec::new(alloc);
    let ranks = shape.ranks();
    for rank in 0..ranks {
        if let Some(cell) = cell_of(shape, drawn, of, rank.wrapping_add(further) % ranks) {
            marks.push(Mark::Result { buffer, rank, cell })?;
        }
    }
    Ok(marks)
}

/// What is found of the shape's own plan, where not too many results are named.
fn found_of(
    alloc: Global,
    plan: &Plan,
    shape: &Shape,
    marks: &[Mark],
) -> Result<Agreement, NoMemory>
    requires accepted { refusal shape.now ≡ None }
    requires plan { plan.now ≡ plan_of shape.now }
{
    shape.recall_form();
    own_plans_fit();
    if marks.len() > MANY {
        return Err(NoMemory);
    }
    agree(alloc, plan, shape, marks)
}

/// Its name, with the number of the result that it names.
fn name_of(alloc: Global, found: &Agreement) -> Result<String, AllocError> {
    match found {
        Agreement::Same => format!(in alloc; "same"),
        Agreement::Differs(mark, _) => format!(in alloc; "differs {mark}"),
        Agreement::Unknown(mark, bytes) => format!(in alloc; "unknown {mark} {bytes}"),
    }
}

/// Stops the test where something else is found of the plan of these steps: of the results of a buffer in the cells of another one, so
/// many ranks further on.
fn says(
    rt: &impl Abort,
    alloc: Global,
    steps: &str,
    [buffer, of, further]: [u32; 3],
    wanted: &str,
) -> Result<(), Fail> {
    let text = format!(in alloc; "{INPUT}{steps}\nprint b\nend\n")?;
    let Ok(d) = parse(alloc, text.as_bytes()) else {
        assert!(rt; false);
        return Ok(());
    };
    let shape = d.shape();
    let Ok(drawn) = drawn_shape(alloc, shape) else {
        assert!(rt; false);
        return Ok(());
    };
    let marks = marks_of(alloc, shape, &drawn, buffer, of, further)?;
    let found = found_of(alloc, &drawn.plan, shape, marks.as_slice())?;
    let name = name_of(alloc, &found)?;
    assert_eq!(rt; name.as_bytes(), wanted.as_bytes());
    Ok(())
}

#[test]
fn results_are_meant(rt: HostRuntime) -> Result<(), Fail> {
    let alloc = rt.alloc();
    for step in [
        "broadcast 0 a b",
        "reduce 0 sum a b",
        "allreduce min a b",
        "allreduce lxor a b",
        "allreduce prod a b",
        "gather 1 a b",
        "allgather a b",
        "alltoall a b",
        "scan bxor a b",
        "exscan sum a b",
        "scatter 2 a b",
        "gatherv 1 a b",
        "reducescatter max a b",
    ] {
        says(&rt, alloc, step, [1, 1, 0], "same")?;
    }
    Ok(())
}

#[test]
fn folds_of_folds_are_meant(rt: HostRuntime) -> Result<(), Fail> {
    let alloc = rt.alloc();
    let twice = "allreduce land a b\nallreduce land b c";
    says(&rt, alloc, twice, [2, 2, 0], "same")?;
    // A fold by an operation that may meet an operand again is the same once more.
    says(&rt, alloc, twice, [1, 2, 0], "same")?;
    let thrice = "allreduce sum a b\nallreduce sum b c\nallreduce sum c d";
    says(&rt, alloc, thrice, [3, 3, 0], "same")?;
    says(&rt, alloc, thrice, [1, 2, 0], "differs 0")
}

#[test]
fn results_elsewhere_differ(rt: HostRuntime) -> Result<(), Fail> {
    let alloc = rt.alloc();
    says(&rt, alloc, "alltoall a b", [1, 1, 1], "differs 0")?;
    says(&rt, alloc, "scan sum a b", [1, 1, 1], "differs 0")?;
    // At rank 0 the sum so far is what is given, and at rank 1 it isn't.
    says(&rt, alloc, "scan sum a b", [1, 0, 0], "differs 1")
}

#[test]
fn the_same_otherwise_is_not_known(rt: HostRuntime) -> Result<(), Fail> {
    let alloc = rt.alloc();
    // What is one or zero is its own disjunction, which isn't seen.
    says(
        &rt,
        alloc,
        "allreduce lxor a b\nallreduce lor b c",
        [1, 2, 0],
        "unknown 0 0",
    )
}
