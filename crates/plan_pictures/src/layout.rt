//! Where the cells and links of a plan are drawn.

ghost use Rattle.std.specs.Prelude.{◌<◌, ◌^◌};

use crate::lines::{PlanText, named_cell};
use given_lines::Mark;
use plan_core::LinkKind;
use ptl_types::Rank;
use std::alloc::{AllocError, Global};

/// Sizes in pixels: a cell's box, from one box to the next, and the space between the columns of two ranks.
pub const BOX_WIDTH: u64 = 66;

pub const BOX_HEIGHT: u64 = 40;

pub const ACROSS: u64 = 74;

pub const DOWN: u64 = 88;

pub const BETWEEN_RANKS: u64 = 22;

/// Where the first box stands.
pub const LEFT: u64 = 24;

pub const TOP: u64 = 76;

/// Where the box of a cell stands.
#[derive(Clone, Copy, Debug)]
pub struct Place {
    /// The rank of the cell; the number of ranks, where the cell's is none of the plan.
    pub rank: Rank,
    /// How many boxes have room to the left of it.
    pub column: u32,
    /// The longest way of links to the cell.
    pub height: u32,
}

impl Place {
    /// The left edge of the box.
    pub fn x(&self) -> u64
        ensures { result < 2 ^ 40 }
    {
        LEFT + u64::from(self.column) * ACROSS + u64::from(self.rank) * BETWEEN_RANKS
    }

    /// The upper edge of the box.
    pub fn y(&self) -> u64
        ensures { result < 2 ^ 40 }
    {
        TOP + u64::from(self.height) * DOWN
    }
}

/// A link's arrow, in pixels: where it begins and ends, and where between the columns it goes down, if it passes other boxes.
#[derive(Clone, Copy, Debug)]
pub struct Arrow {
    /// The number of the link.
    pub link: usize,
    pub kind: LinkKind,
    pub from: (u64, u64),
    pub to: (u64, u64),
    pub detour: Option<u64>,
}

/// The columns of a rank.
#[derive(Clone, Copy, Debug)]
pub struct Span {
    /// The rank.
    pub rank: Rank,
    /// How many columns there are to the left of it.
    pub first: u32,
    /// How many columns it has.
    pub width: u32,
}

impl Span {
    /// The left edge of its first box.
    pub fn left(&self) -> u64
        ensures { result < 2 ^ 40 }
    {
        LEFT + u64::from(self.first) * ACROSS + u64::from(self.rank) * BETWEEN_RANKS
    }

    /// The right edge of its last box.
    pub fn right(&self) -> u64
        ensures { result < 2 ^ 41 }
    {
        self.left() + u64::from(self.width.saturating_sub(1)) * ACROSS + BOX_WIDTH
    }
}

/// A line of the plan's text that names a cell, and how many lines before it name the same.
#[derive(Clone, Copy, Debug)]
pub struct Label {
    pub mark: Mark,
    pub above: u32,
}

/// Where everything stands.
#[derive(Drop)]
pub struct Layout {
    /// The place of each cell.
    pub places: Vec<Place>,
    /// The arrow of each link that goes from a cell of the plan to one.
    pub arrows: Vec<Arrow>,
    /// The columns of each rank, and those of cells on no rank of the plan, if there are any.
    pub spans: Vec<Span>,
    /// The lines that name cells, in order.
    pub labels: Vec<Label>,
    /// How many heights there are.
    pub heights: u32,
}

/// So many zeros.
fn zeros(alloc: Global, count: usize) -> Result<Vec<u32>, AllocError> {
    let mut list = Vec::with_capacity(alloc, count)?;
    for _ in 0..count {
        list.push(0u32)?;
    }
    Ok(list)
}

/// The number at this place of a list, 0 where it has none.
fn number_in(list: &[u32], at: usize) -> u32 {
    list.get(at).copied().unwrap_or(0)
}

/// The links' ends, target and source, by rising targets.
fn ends_of(alloc: Global, plan: &PlanText) -> Result<Vec<(u32, u32)>, AllocError> {
    let mut ends = Vec::with_capacity(alloc, plan.links().len())?;
    for link in plan.links() {
        ends.push((link.target, link.source))?;
    }
    ends.sort_unstable();
    Ok(ends)
}

/// The height of each cell. A link that goes to no higher cell raises none.
fn heights_of(alloc: Global, plan: &PlanText) -> Result<Vec<u32>, AllocError> {
    let mut heights = zeros(alloc, plan.cells().len())?;
    let ends = ends_of(alloc, plan)?;
    for (target, source) in ends.iter() {
        if source < target {
            let below = number_in(heights.as_slice(), *source as usize);
            if let Some(height) = heights.get_mut(*target as usize) {
                *height = (*height).max(below.saturating_add(1));
            }
        }
    }
    Ok(heights)
}

/// Takes the next number of a counter, 0 where there is no such counter.
fn next_of(counters: &mut Vec<u32>, at: usize) -> u32 {
    match counters.get_mut(at) {
        Some(counter) => {
            let taken = *counter;
            *counter = taken.saturating_add(1);
            taken
        }
        None => 0,
    }
}

/// The places of the cells, each as if its rank's columns were the first, and how many columns each rank has, and no rank.
fn places_of(
    alloc: Global,
    plan: &PlanText,
    heights: &[u32],
    levels: u32,
) -> Result<(Vec<Place>, Vec<u32>), AllocError> {
    let spans = (plan.ranks as usize).saturating_add(1);
    let mut taken = zeros(alloc, spans.saturating_mul(levels as usize))?;
    let mut widths = zeros(alloc, spans)?;
    let mut places = Vec::with_capacity(alloc, plan.cells().len())?;
    for (cell, height) in plan.cells().iter().zip(heights.iter()) {
        let rank = cell.rank.min(plan.ranks);
        let row = (*height as usize).saturating_mul(spans);
        let column = next_of(&mut taken, row.saturating_add(rank as usize));
        if let Some(width) = widths.get_mut(rank as usize) {
            *width = (*width).max(column.saturating_add(1));
        }
        places.push(Place {
            rank,
            column,
            height: *height,
        })?;
    }
    Ok((places, widths))
}

/// The columns of so many ranks, and those of no rank where there are any, beside one another.
fn spans_of(alloc: Global, ranks: u32, widths: &[u32]) -> Result<Vec<Span>, AllocError> {
    let mut spans = Vec::with_capacity(alloc, widths.len())?;
    let mut first = 0u32;
    let mut rank = 0u32;
    for width in widths {
        if rank < ranks || *width > 0 {
            spans.push(Span {
                rank,
                first,
                width: *width,
            })?;
        }
        first = first.saturating_add(*width);
        rank = rank.saturating_add(1);
    }
    Ok(spans)
}

/// How many links come from each cell, or to each cell.
fn counts_of(alloc: Global, plan: &PlanText, leaving: bool) -> Result<Vec<u32>, AllocError> {
    let mut counts = zeros(alloc, plan.cells().len())?;
    for link in plan.links() {
        let end = if leaving { link.source } else { link.target };
        let _number = next_of(&mut counts, end as usize);
    }
    Ok(counts)
}

/// Where a link's arrow goes down between the columns: beside those of its source, on the side of its target. `None`: it goes
/// from one height to the next, and passes no box.
fn detour_of(number: usize, from: Place, to: Place, spans: &[Span]) -> Option<u64> {
    if to.height.saturating_sub(from.height) <= 1 {
        return None;
    }
    let span = spans.get(from.rank as usize)?;
    let aside = 5 + 4 * (number % 5) as u64;
    if to.rank < from.rank {
        Some(span.left().saturating_sub(aside))
    } else {
        Some(span.right().saturating_add(aside))
    }
}

/// The links' numbers at one of their ends: how many others of the same cell there come from further left, or go there.
fn numbers_at(
    alloc: Global,
    plan: &PlanText,
    places: &[Place],
    spans: &[Span],
    leaving: bool,
) -> Result<Vec<u32>, AllocError> {
    let mut ends = Vec::with_capacity(alloc, plan.links().len())?;
    for (number, link) in plan.links().iter().enumerate() {
        let (source, target) = (link.source as usize, link.target as usize);
        if let (Some(from), Some(to)) = (places.get(source), places.get(target)) {
            let (cell, other) = if leaving {
                (source, to)
            } else {
                (target, from)
            };
            let x = detour_of(number, *from, *to, spans).unwrap_or(other.x());
            ends.push((cell, x, number))?;
        }
    }
    ends.sort_unstable();
    let mut taken = zeros(alloc, places.len())?;
    let mut numbers = zeros(alloc, plan.links().len())?;
    for (cell, _x, number) in ends.iter() {
        let along = next_of(&mut taken, *cell);
        if let Some(slot) = numbers.get_mut(*number) {
            *slot = along;
        }
    }
    Ok(numbers)
}

/// Where the arrow with this number, of so many at an edge of the box, meets it.
fn along(place: Place, number: u32, count: u32) -> u64 {
    let part = BOX_WIDTH * (u64::from(number) + 1) / (u64::from(count) + 1);
    place.x().saturating_add(part)
}

/// The arrows of the links.
fn arrows_of(
    alloc: Global,
    plan: &PlanText,
    places: &[Place],
    spans: &[Span],
) -> Result<Vec<Arrow>, AllocError> {
    let leaving = counts_of(alloc, plan, true)?;
    let coming = counts_of(alloc, plan, false)?;
    let starts = numbers_at(alloc, plan, places, spans, true)?;
    let ends = numbers_at(alloc, plan, places, spans, false)?;
    let mut arrows = Vec::with_capacity(alloc, plan.links().len())?;
    for (number, link) in plan.links().iter().enumerate() {
        let (source, target) = (link.source as usize, link.target as usize);
        if let (Some(from), Some(to)) = (places.get(source), places.get(target)) {
            let start = number_in(starts.as_slice(), number);
            let end = number_in(ends.as_slice(), number);
            let x = along(*from, start, number_in(leaving.as_slice(), source));
            let to_x = along(*to, end, number_in(coming.as_slice(), target));
            arrows.push(Arrow {
                link: number,
                kind: link.kind,
                from: (x, from.y() + BOX_HEIGHT),
                to: (to_x, to.y()),
                detour: detour_of(number, *from, *to, spans),
            })?;
        }
    }
    Ok(arrows)
}

/// The lines that name cells.
fn labels_of(alloc: Global, plan: &PlanText) -> Result<Vec<Label>, AllocError> {
    let marks = plan.given.marks();
    let mut labels = Vec::with_capacity(alloc, marks.len())?;
    let mut taken = zeros(alloc, plan.cells().len())?;
    for mark in marks {
        labels.push(Label {
            mark: *mark,
            above: next_of(&mut taken, named_cell(*mark)),
        })?;
    }
    Ok(labels)
}

/// Moves each cell behind the columns of the ranks before its own.
fn stand_beside(places: &mut [Place], spans: &[Span]) {
    for place in places.iter_mut() {
        let first = match spans.get(place.rank as usize) {
            Some(span) => span.first,
            None => 0,
        };
        place.column = place.column.saturating_add(first);
    }
}

/// The layout of a plan.
pub fn layout_of(alloc: Global, plan: &PlanText) -> Result<Layout, AllocError> {
    let list = heights_of(alloc, plan)?;
    let highest = list.iter().copied().max().unwrap_or(0);
    let heights = highest.saturating_add(1);
    let (mut places, widths) = places_of(alloc, plan, list.as_slice(), heights)?;
    let spans = spans_of(alloc, plan.ranks, widths.as_slice())?;
    stand_beside(places.as_mut_slice(), spans.as_slice());
    let arrows = arrows_of(alloc, plan, places.as_slice(), spans.as_slice())?;
    let labels = labels_of(alloc, plan)?;
    Ok(Layout {
        places,
        arrows,
        spans,
        labels,
        heights,
    })
}
