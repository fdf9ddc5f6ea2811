//! Reading the text of a plan.

ghost use Rattle.std.specs.Prelude.{◌≡◌, ◌<◌, ◌+◌, ◌*◌, ◌-◌, ◌^◌, IfOk, length};
ghost use Rattle.coll_text.specs.Text.{lines};
ghost use Rattle.given_lines.specs.Given.{read_given};
ghost use Rattle.given_lines.specs.Reads.{Reads};
ghost use Rattle.plan_pictures.specs.lines.Said.{IsPlanOf};

use crate::lines::fault::{Refusal, TextFault};
use crate::lines::lines::{Lines, Parts};
use coll_lang::{Description, parse};
use coll_shape::{MOST_RANKS, Shape};
use coll_text::{Words, is, number_between};
use given_lines::{GivenFault, GivenPlan, Mark, read_given};
use plan_core::{Cell, Link};
use std::alloc::Global;

/// The most links that are read.
const MOST_LINKS: u32 = 20_000;

/// The most cells that are read, beside the go cells.
const MOST_CELLS: u32 = 20_000;

/// A plan as its text says it.
#[derive(Drop)]
pub struct PlanText {
    /// The description before it, if any.
    pub description: Option<Description>,
    /// The plan, and what its text says of it.
    pub given: GivenPlan,
    /// How many ranks its first line says.
    pub ranks: u32,
    /// The number of that line.
    pub first: u32,
}

/// What a line of a plan's text speaks of.
#[derive(Clone, Copy, Debug, PartialEq, Eq)]
pub enum Item {
    /// The plan as a whole, or a line that is none of its text.
    Whole,
    /// The cell of this number.
    Cell(usize),
    /// The link of this number.
    Link(usize),
    /// The done counter of this rank.
    Done(usize),
}

impl PlanText {
    /// The cells, by their numbers.
    pub fn cells(&self) -> &[Cell] {
        self.given.plan().cells()
    }

    /// The links, by their numbers.
    pub fn links(&self) -> &[Link] {
        self.given.plan().links()
    }

    /// How many buffers are inputs, of the description.
    pub fn inputs(&self) -> u32 {
        match &self.description {
            Some(description) => description.shape().input_count(),
            None => 0,
        }
    }

    /// The name of the buffer of this number, none where there is no description.
    pub fn name(&self, buffer: u32) -> &[u8] {
        let Some(description) = &self.description else {
            return b"";
        };
        match description.shape().buffers().get(buffer as usize) {
            Some(buffer) => buffer.name.as_slice(),
            None => b"",
        }
    }

    /// What the line of this number speaks of.
    pub fn item_at(&self, line: u32) -> Item {
        let Some(beyond) = line.checked_sub(self.first) else {
            return Item::Whole;
        };
        let Some(cell) = (beyond as usize).checked_sub(1) else {
            return Item::Whole;
        };
        let Some(link) = cell.checked_sub(self.cells().len()) else {
            return Item::Cell(cell);
        };
        let Some(rank) = link.checked_sub(self.links().len()) else {
            return Item::Link(link);
        };
        let Some(mark) = rank.checked_sub(self.given.done().len()) else {
            return Item::Done(rank);
        };
        match self.given.marks().get(mark) {
            Some(mark) => Item::Cell(named_cell(*mark)),
            None => Item::Whole,
        }
    }
}

/// The number of the cell that a line names.
pub fn named_cell(mark: Mark) -> usize {
    match mark {
        Mark::Result { cell, .. } | Mark::Enter { cell, .. } | Mark::Leave { cell, .. } => {
            cell as usize
        }
    }
}

/// How many ranks, cells and links the first line of a plan's text says: `plan RANKS CELLS LINKS` and another word.
fn counts_in(mut words: Words) -> Option<(u32, u32, u32)> {
    if !is(words.next()?, b"plan") {
        return None;
    }
    let ranks = number_between(1, MOST_RANKS, words.next()?)?;
    let cells = number_between(0, u32::MAX, words.next()?)?;
    let links = number_between(0, u32::MAX, words.next()?)?;
    Some((ranks, cells, links))
}

/// How many ranks a plan's text has that isn't too large.
fn ranks_in(parts: &Parts) -> Result<u32, TextFault> {
    let mut lines = Lines::of(parts.plan, parts.first);
    let refused = lines.refused(Refusal::NotAPlan);
    let too_many = lines.refused(Refusal::TooManyLinks);
    let too_many_cells = lines.refused(Refusal::TooManyCells);
    let words = lines.take().ok_or(refused)?;
    let (ranks, cells, links) = counts_in(words).ok_or(refused)?;
    if links > MOST_LINKS {
        return Err(too_many);
    }
    if cells.saturating_sub(ranks) > MOST_CELLS {
        return Err(too_many_cells);
    }
    Ok(ranks)
}

/// Reads a plan for a description of this shape.
fn given_for(alloc: Global, shape: &Shape, first: u32, text: &[u8]) -> Result<GivenPlan, GivenFault>
    requires { first + length text.now < 2 ^ 32 - 1 }
    ensures { Reads (λ given. given) result
        (read_given shape.now.ranks (shape.now.ranks + shape.now.inputs * shape.now.ranks) shape.now.buffers first (lines text.now)) }
{
    shape.recall_form();
    let ranks = shape.ranks();
    let least = ranks + shape.input_count() * ranks;
    read_given(alloc, ranks, least, shape.buffers(), first, text)
}

/// The plan whose text is the second of these parts.
pub fn plan_in(alloc: Global, parts: &Parts) -> Result<PlanText, TextFault>
    requires { parts.now.first + length parts.now.plan.now < 2 ^ 32 - 1 }
    ensures said { IfOk result (λ p. IsPlanOf p parts.now.plan.now) }
{
    let description = if parts.description.is_empty() {
        None
    } else {
        Some(parse(alloc, parts.description)?)
    };
    let ranks = ranks_in(parts)?;
    let first = parts.first;
    let given = match &description {
        Some(description) => given_for(alloc, description.shape(), first, parts.plan)?,
        None => read_given(alloc, ranks, ranks, &[], first, parts.plan)?,
    };
    Ok(PlanText {
        description,
        given,
        ranks,
        first,
    })
}
