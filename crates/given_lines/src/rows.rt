//! The lines of cells, links and done counters.

ghost use Rattle.std.specs.Prelude.{◌≡◌, ◌+◌, ◌<◌, ◌^◌, length};
ghost use Rattle.coll_text.specs.Text.{lines};
ghost use Rattle.given_lines.specs.Reads.{ReadsRows};
ghost use Rattle.given_lines.specs.Words.{cell_in, cell_of, cell_with, done_in, done_of, link_in, link_of, link_with};

use crate::fault::{GivenFault, GivenRefusal};
use crate::lines::Lines;
use crate::words::{cell_op_of, headed, kind_of, short_of};
use coll_text::{Words, long_number, type_named};
use plan_core::{Cell, Link};
use std::alloc::Global;

/// The cell of these words.
fn cell_with(rank: &[u8], ty: &[u8], op: &[u8], length: &[u8], needs: &[u8]) -> Option<Cell>
    ensures { result ≡ cell_with rank.now ty.now op.now length.now needs.now }
{
    Some(Cell {
        rank: short_of(rank)?,
        ty: type_named(ty)?,
        op: cell_op_of(op)?,
        length: long_number(length)?,
        needs: long_number(needs)?,
    })
}

/// The cell that the words after its number are.
#[tactic(auto, unfolding(crate::specs::Words::cell_in))]
fn cell_in(mut words: Words) -> Option<Cell>
    ensures { result ≡ cell_in words.entry }
{
    let (rank, ty, op) = (words.next()?, words.next()?, words.next()?);
    let (length, needs) = (words.next()?, words.next()?);
    match words.next() {
        Some(_) => None,
        None => cell_with(rank, ty, op, length, needs),
    }
}

/// The cell that the words are, which has this number.
fn cell_of(n: u32, words: Words) -> Option<Cell>
    ensures { result ≡ cell_of n words.entry }
{
    cell_in(headed(b"cell", n, words)?)
}

/// The link of these words.
fn link_with(
    source: &[u8],
    source_offset: &[u8],
    length: &[u8],
    target: &[u8],
    target_offset: &[u8],
    kind: &[u8],
) -> Option<Link>
    ensures { result ≡ link_with source.now source_offset.now length.now target.now target_offset.now kind.now }
{
    Some(Link {
        source: short_of(source)?,
        source_offset: long_number(source_offset)?,
        length: long_number(length)?,
        target: short_of(target)?,
        target_offset: long_number(target_offset)?,
        kind: kind_of(kind)?,
    })
}

/// The link that the words after its number are.
#[tactic(auto, unfolding(crate::specs::Words::link_in))]
fn link_in(mut words: Words) -> Option<Link>
    ensures { result ≡ link_in words.entry }
{
    let (source, source_offset, length) = (words.next()?, words.next()?, words.next()?);
    let (target, target_offset, kind) = (words.next()?, words.next()?, words.next()?);
    match words.next() {
        Some(_) => None,
        None => link_with(source, source_offset, length, target, target_offset, kind),
    }
}

/// The link that the words are, which has this number.
fn link_of(n: u32, words: Words) -> Option<Link>
    ensures { result ≡ link_of n words.entry }
{
    link_in(headed(b"link", n, words)?)
}

/// The threshold that the words after the rank are.
#[tactic(auto, unfolding(crate::specs::Words::done_in))]
fn threshold_in(mut words: Words) -> Option<u64>
    ensures { result ≡ done_in words.entry }
{
    let threshold = words.next()?;
    match words.next() {
        Some(_) => None,
        None => long_number(threshold),
    }
}

/// The threshold that the words are, which is that of this rank.
fn done_of(r: u32, words: Words) -> Option<u64>
    ensures { result ≡ done_of r words.entry }
{
    threshold_in(headed(b"done", r, words)?)
}

/// So many cells, a line each.
#[tactic(auto, using(crate::proofs::RowsRead::begins))]
pub(crate) fn cells_in(alloc: Global, count: u32, left: &mut Lines) -> Result<Vec<Cell>, GivenFault>
    requires { left.old.number + length left.old.rest.now < 2 ^ 32 }
    ensures rows { ReadsRows (λ xs. xs.items) cell_of count left.old.number (lines left.old.rest.now) result
        left.new.number (lines left.new.rest.now) }
    ensures at_most { left.new.number + length left.new.rest.now < 2 ^ 32 }
{
    let mut cells = Vec::new(alloc);
    for n in 0..count {
        let bad = left.refused(GivenRefusal::BadPlan);
        let line = left.take()?;
        match cell_of(n, Words::of(line)) {
            Some(cell) => cells.push(cell)?,
            None => return Err(bad),
        }
    }
    Ok(cells)
}

/// So many links, a line each.
#[tactic(auto, using(crate::proofs::RowsRead::begins))]
pub(crate) fn links_in(alloc: Global, count: u32, left: &mut Lines) -> Result<Vec<Link>, GivenFault>
    requires { left.old.number + length left.old.rest.now < 2 ^ 32 }
    ensures rows { ReadsRows (λ xs. xs.items) link_of count left.old.number (lines left.old.rest.now) result
        left.new.number (lines left.new.rest.now) }
    ensures at_most { left.new.number + length left.new.rest.now < 2 ^ 32 }
{
    let mut links = Vec::new(alloc);
    for n in 0..count {
        let bad = left.refused(GivenRefusal::BadPlan);
        let line = left.take()?;
        match link_of(n, Words::of(line)) {
            Some(link) => links.push(link)?,
            None => return Err(bad),
        }
    }
    Ok(links)
}

/// The thresholds of so many ranks, a line each.
#[tactic(auto, using(crate::proofs::RowsRead::begins))]
pub(crate) fn done_in(alloc: Global, ranks: u32, left: &mut Lines) -> Result<Vec<u64>, GivenFault>
    requires { left.old.number + length left.old.rest.now < 2 ^ 32 }
    ensures rows { ReadsRows (λ xs. xs.items) done_of ranks left.old.number (lines left.old.rest.now) result
        left.new.number (lines left.new.rest.now) }
    ensures at_most { left.new.number + length left.new.rest.now < 2 ^ 32 }
{
    let mut done = Vec::new(alloc);
    for r in 0..ranks {
        let bad = left.refused(GivenRefusal::BadPlan);
        let line = left.take()?;
        match done_of(r, Words::of(line)) {
            Some(threshold) => done.push(threshold)?,
            None => return Err(bad),
        }
    }
    Ok(done)
}
