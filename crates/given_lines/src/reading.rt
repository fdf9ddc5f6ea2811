//! Reading the text of a given plan.

ghost use Rattle.std.specs.Prelude.{◌≡◌, ◌+◌, ◌<◌, ◌^◌, length};
ghost use Rattle.coll_text.specs.Text.{lines};
ghost use Rattle.given_lines.specs.Given.{head_read, read_given};
ghost use Rattle.given_lines.specs.Reads.{Reads, ReadsHead};
ghost use Rattle.given_lines.specs.Words.{counts_in, counts_of};

use crate::fault::{GivenFault, GivenRefusal};
use crate::given::{Counts, GivenPlan};
use crate::lines::Lines;
use crate::marks::marks_in;
use crate::rows::{cells_in, done_in, links_in};
use crate::words::{headed, remote_of, short_of};
use coll_shape::Buffer;
use coll_text::{Words, number_between};
use plan_core::Plan;
use std::alloc::Global;

/// The most links that are read.
const MOST_LINKS: u32 = 500_000;

/// The most cells that are read.
const MOST_CELLS: u32 = 16_777_215;

/// What the words after the number of ranks are, for a plan with so many cells at least.
#[tactic(auto, unfolding(crate::specs::Words::counts_in))]
fn counts_in(least: u32, mut words: Words) -> Option<Counts>
    ensures { result ≡ counts_in least words.entry }
{
    let (cells, links, last) = (words.next()?, words.next()?, words.next()?);
    if words.next().is_some() {
        return None;
    }
    Some(Counts {
        cells: number_between(least, MOST_CELLS, cells)?,
        links: short_of(links)?,
        remote: remote_of(last)?,
    })
}

/// What the words of the first line are, for a plan of so many ranks with so many cells at least.
fn counts_of(ranks: u32, least: u32, words: Words) -> Option<Counts>
    ensures { result ≡ counts_of ranks least words.entry }
{
    counts_in(least, headed(b"plan", ranks, words)?)
}

/// The first line.
fn head_in(ranks: u32, least: u32, left: &mut Lines) -> Result<Counts, GivenFault>
    requires { left.old.number + length left.old.rest.now < 2 ^ 32 }
    ensures head { ReadsHead (head_read ranks least left.old.number (lines left.old.rest.now)) left.old.number result
        left.new.number (lines left.new.rest.now) }
    ensures at_most { left.new.number + length left.new.rest.now < 2 ^ 32 }
{
    let bad = left.refused(GivenRefusal::BadPlan);
    let many = left.refused(GivenRefusal::TooMany);
    let line = left.take()?;
    match counts_of(ranks, least, Words::of(line)) {
        None => Err(bad),
        Some(counts) if counts.links > MOST_LINKS => Err(many),
        Some(counts) => Ok(counts),
    }
}

/// Reads the text of a plan for a description of so many ranks with these buffers, from the line of this number on. The plan has so
/// many cells at least.
///
/// # Errors
///
/// The first line at fault, or that there was no memory.
pub fn read_given(
    alloc: Global,
    ranks: u32,
    least: u32,
    buffers: &[Buffer],
    first: u32,
    text: &[u8],
) -> Result<GivenPlan, GivenFault>
    requires at_most { first + length text.now < 2 ^ 32 }
    requires buffers { length buffers.now < 2 ^ 32 }
    ensures { Reads (λ given. given) result (read_given ranks least buffers.now first (lines text.now)) }
{
    let mut left = Lines {
        rest: text,
        number: first,
    };
    let counts = head_in(ranks, least, &mut left)?;
    let cells = cells_in(alloc, counts.cells, &mut left)?;
    let links = links_in(alloc, counts.links, &mut left)?;
    let done = done_in(alloc, ranks, &mut left)?;
    let marks = marks_in(alloc, buffers, &mut left)?;
    let plan = Plan::of(ranks, counts.remote, cells, links);
    Ok(GivenPlan { plan, done, marks })
}
