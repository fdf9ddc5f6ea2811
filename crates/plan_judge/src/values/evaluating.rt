//! The bytes of all cells in the end.

ghost use Rattle.std.specs.Prelude.{◌≡◌, ◌<◌, [], IfOk, length, get_or, map};
ghost use Rattle.plan_core.specs.Plan.{all_cells, in_links};
ghost use Rattle.plan_core.specs.Values.{next_value, value, values};
ghost use Rattle.plan_judge.specs.values.Given.{IsGiven};

use crate::links_by_target;
use crate::values::initial::first_bytes;
use crate::values::landing::land_all;
use coll_shape::Inputs;
use plan_core::Plan;
use plan_core::reading::cell_count;
use plan_tables::ByRank;
use ptl_types::NoMemory;
use std::alloc::{AllocError, Global};
use std::marker::Model;

/// The bytes of a cell.
#[derive(Debug, Drop)]
pub(crate) struct CellBytes {
    bytes: Vec<u8>,
}

impl Model for CellBytes {
    ghost use Rattle.std.specs.Prelude.{List, ℕ};

    ghost Value = { List ℕ };

    ghost view = { λ c. c.bytes.items };
}

impl CellBytes {
    /// The bytes.
    pub(crate) fn as_slice(&self) -> &[u8]
        ensures { result.now ≡ self.now }
    {
        self.bytes.as_slice()
    }
}

/// The bytes of each cell, by the cells' numbers.
#[derive(Debug, Drop)]
pub struct CellValues {
    cells: Vec<CellBytes>,
}

impl Model for CellValues {
    ghost use Rattle.std.specs.Prelude.{List, ℕ};

    ghost Value = { List (List ℕ) };

    ghost view = { λ v. v.cells.items };
}

impl CellValues {
    /// How many cells there are.
    pub fn len(&self) -> usize
        ensures { result ≡ length self.now }
    {
        self.cells.len()
    }

    /// The bytes of one cell.
    pub fn cell(&self, c: u32) -> &[u8]
        requires { c < length self.now }
        ensures { result.now ≡ get_or self.now c [] }
    {
        self.cells[c as usize].as_slice()
    }
}

/// A plan, and the inputs that it is evaluated for, of which there are so many.
#[derive(Clone, Copy)]
struct GivenInputs<'a> {
    plan: &'a Plan,
    inputs: &'a Inputs,
    count: u32,
}

/// The bytes of a cell in the end, from those of the cells before it. These links come to it.
fn next_value(
    alloc: Global,
    given: GivenInputs,
    before: &[CellBytes],
    c: u32,
    links: &[u32],
) -> Result<CellBytes, AllocError>
    requires given { IsGiven given.plan.now given.inputs.now }
    requires count { given.count ≡ length given.inputs.now }
    requires cell { c < length given.plan.now.cells }
    requires before { before.now ≡ values given.plan.now given.inputs.now c }
    requires many { length before.now ≡ c }
    requires links { links.now ≡ in_links given.plan.now c }
    ensures { IfOk result (λ bytes. bytes ≡ next_value given.entry.plan.now given.entry.inputs.now before.now c) }
{
    let mut bytes = first_bytes(alloc, given.plan, given.inputs, given.count, c)?;
    land_all(&mut bytes, given.plan, before, c, links);
    Ok(CellBytes { bytes })
}

/// The bytes of each cell in the end, cell by cell.
#[tactic(auto, using(crate::proofs::values::CellByCell::one_more))]
fn all_values(
    alloc: Global,
    plan: &Plan,
    inputs: &Inputs,
    count: u32,
    into: &ByRank,
) -> Result<Vec<CellBytes>, AllocError>
    requires given { IsGiven plan.now inputs.now }
    requires count { count ≡ length inputs.now }
    requires table { into.now ≡ map (in_links plan.now) (all_cells plan.now) }
    ensures { IfOk result (λ cells. cells.items ≡ values plan.now inputs.now (length plan.now.cells)) }
{
    let given = GivenInputs {
        plan,
        inputs,
        count,
    };
    let mut cells = Vec::with_capacity(alloc, cell_count(plan) as usize)?;
    for c in 0..cell_count(plan) {
        let bytes = next_value(alloc, given, cells.as_slice(), c, into.at(c))?;
        cells.push(bytes)?;
    }
    Ok(cells)
}

/// What each cell of a sound plan holds in the end, for these inputs, of which there are so many.
///
/// It takes as many bytes as all cells together, and a number of steps in the order of the cells, the links and their bytes.
///
/// # Errors
///
/// There was no memory for the bytes.
pub fn values(
    alloc: Global,
    plan: &Plan,
    inputs: &Inputs,
    count: u32,
) -> Result<CellValues, NoMemory>
    requires given { IsGiven plan.now inputs.now }
    requires count { count ≡ length inputs.now }
    ensures { IfOk result (λ cells. cells ≡ map (value plan.now inputs.now) (all_cells plan.now)) }
{
    let into = links_by_target(alloc, plan)?;
    match all_values(alloc, plan, inputs, count, &into) {
        Ok(cells) => Ok(CellValues { cells }),
        Err(_) => Err(NoMemory),
    }
}
