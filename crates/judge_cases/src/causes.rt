//! The flaw of each plan.

use crate::drawing::{bytes, link, plan_of, sound_cells, sound_links, sum};
use plan_core::{Cell, Link, LinkKind};
use plan_judge::{CellCause, Flaw, LinkCause, PlanCause, judge};
use ptl_types::{ElemType, NoMemory};
use std::alloc::Global;
use std::process::Abort;
use std::test::Fail;

/// Stops the test where these differ. A call of its own, since a test's proof goes through the branches of all its comparisons.
fn same(rt: &impl Abort, answer: Option<Flaw>, wanted: Option<Flaw>) {
    assert_eq!(rt; answer, wanted);
}

/// The flaw of a plan of two ranks for one input of four bytes.
fn flaw_of(alloc: Global, cells: &[Cell], links: &[Link]) -> Result<Option<Flaw>, NoMemory> {
    judge(alloc, &plan_of(alloc, 2, cells, links)?, &[4])
}

/// That of the sound plan with another cell in the place of this one. The go cells aren't counted.
fn with_cell(alloc: Global, place: usize, cell: Cell) -> Result<Option<Flaw>, NoMemory> {
    let mut cells = sound_cells();
    if place < cells.len() {
        cells[place] = cell;
    }
    flaw_of(alloc, &cells, &sound_links())
}

/// That of the sound plan with another link in the place of this one.
fn with_link(alloc: Global, place: usize, link: Link) -> Result<Option<Flaw>, NoMemory> {
    let mut links = sound_links();
    if place < links.len() {
        links[place] = link;
    }
    flaw_of(alloc, &sound_cells(), &links)
}

/// That of the sound plan with another cell and another link.
fn with_both(
    alloc: Global,
    place: usize,
    cell: Cell,
    at: usize,
    link: Link,
) -> Result<Option<Flaw>, NoMemory> {
    let mut cells = sound_cells();
    if place < cells.len() {
        cells[place] = cell;
    }
    let mut links = sound_links();
    if at < links.len() {
        links[at] = link;
    }
    flaw_of(alloc, &cells, &links)
}

/// That of the sound plan with one link more, for which this cell is in the place of another.
fn with_more(
    alloc: Global,
    place: usize,
    cell: Cell,
    link: Link,
) -> Result<Option<Flaw>, NoMemory> {
    let mut cells = sound_cells();
    if place < cells.len() {
        cells[place] = cell;
    }
    let [a, b, c, d, e, f] = sound_links();
    flaw_of(alloc, &cells, &[a, b, c, d, e, f, link])
}

fn cell(cell: u32, cause: CellCause) -> Option<Flaw> {
    Some(Flaw::Cell { cell, cause })
}

fn of_link(link: u32, cause: LinkCause) -> Option<Flaw> {
    Some(Flaw::Link { link, cause })
}

fn whole(cause: PlanCause) -> Option<Flaw> {
    Some(Flaw::Plan { cause })
}

#[test]
fn a_sound_plan_has_no_flaw(rt: HostRuntime) -> Result<(), Fail> {
    let alloc = rt.alloc();
    same(&rt, flaw_of(alloc, &sound_cells(), &sound_links())?, None);
    Ok(())
}

#[test]
fn plans_of_a_wrong_size(rt: HostRuntime) -> Result<(), Fail> {
    let alloc = rt.alloc();
    let cells = sound_cells();
    let links = sound_links();
    let no_rank = judge(alloc, &plan_of(alloc, 0, &cells, &links)?, &[])?;
    same(&rt, no_rank, whole(PlanCause::NoRank));
    let many_ranks = judge(alloc, &plan_of(alloc, 257, &cells, &links)?, &[])?;
    same(&rt, many_ranks, whole(PlanCause::TooManyRanks));
    let few_cells = judge(alloc, &plan_of(alloc, 2, &cells, &links)?, &[4, 8, 4])?;
    same(&rt, few_cells, whole(PlanCause::MissingCells));
    let large = bytes(1, 1 << 63, 2);
    let many_bytes = flaw_of(alloc, &[large, large], &links)?;
    same(&rt, many_bytes, whole(PlanCause::TooManyBytes));
    Ok(())
}

#[test]
fn cells_that_are_not_taken(rt: HostRuntime) -> Result<(), Fail> {
    let alloc = rt.alloc();
    let outside = with_cell(alloc, 3, sum(2, 4, 2))?;
    same(&rt, outside, cell(5, CellCause::BadRank));
    let mut halves = bytes(1, 9, 2);
    halves.ty = ElemType::U16;
    same(
        &rt,
        with_cell(alloc, 2, halves)?,
        cell(4, CellCause::PartElement),
    );
    let into_go = with_link(alloc, 0, link(LinkKind::Bump, 0, 0, 1, 0))?;
    same(&rt, into_go, cell(1, CellCause::BadGo));
    let too_soon = with_cell(alloc, 2, bytes(1, 8, 1))?;
    same(&rt, too_soon, cell(4, CellCause::Needs));
    let input_too_soon = with_cell(alloc, 1, bytes(1, 4, 0))?;
    same(&rt, input_too_soon, cell(3, CellCause::Needs));
    let elsewhere = with_cell(alloc, 0, bytes(1, 4, 1))?;
    same(&rt, elsewhere, cell(2, CellCause::BadInput));
    let short = with_cell(alloc, 1, bytes(1, 3, 1))?;
    same(&rt, short, cell(3, CellCause::BadInput));
    let combining = with_cell(alloc, 1, sum(1, 4, 1))?;
    same(&rt, combining, cell(3, CellCause::BadInput));
    Ok(())
}

#[test]
fn inputs_that_nothing_guards(rt: HostRuntime) -> Result<(), Fail> {
    let alloc = rt.alloc();
    let open = with_both(
        alloc,
        1,
        bytes(1, 4, 0),
        1,
        link(LinkKind::Bump, 2, 0, 5, 0),
    )?;
    same(&rt, open, cell(3, CellCause::Unguarded));
    let by_another = with_link(alloc, 1, link(LinkKind::Bump, 0, 0, 3, 0))?;
    same(&rt, by_another, cell(3, CellCause::Unguarded));
    Ok(())
}

#[test]
fn puts_that_do_not_cover_or_overlap(rt: HostRuntime) -> Result<(), Fail> {
    let alloc = rt.alloc();
    let gap = with_cell(alloc, 2, bytes(1, 9, 2))?;
    same(&rt, gap, cell(4, CellCause::NotCovered));
    let twice = with_link(alloc, 3, link(LinkKind::Put, 3, 4, 4, 3))?;
    same(&rt, twice, cell(4, CellCause::Overlap));
    let inside = with_more(alloc, 2, bytes(1, 8, 3), link(LinkKind::Put, 2, 0, 4, 2))?;
    same(&rt, inside, cell(4, CellCause::Overlap));
    let between = with_more(alloc, 2, bytes(1, 8, 3), link(LinkKind::Put, 2, 0, 4, 4))?;
    same(&rt, between, None);
    Ok(())
}

#[test]
fn links_that_are_not_taken(rt: HostRuntime) -> Result<(), Fail> {
    let alloc = rt.alloc();
    let falls = with_link(alloc, 2, link(LinkKind::Put, 5, 4, 4, 0))?;
    same(&rt, falls, of_link(2, LinkCause::NotRising));
    let mut late = link(LinkKind::Put, 2, 4, 4, 0);
    late.source_offset = 1;
    same(
        &rt,
        with_link(alloc, 2, late)?,
        of_link(2, LinkCause::OutOfSource),
    );
    let past = with_link(alloc, 3, link(LinkKind::Put, 3, 4, 4, 5))?;
    same(&rt, past, of_link(3, LinkCause::OutOfTarget));
    let to_rank_1 = with_more(alloc, 2, bytes(1, 8, 3), link(LinkKind::Bump, 2, 0, 4, 0))?;
    same(&rt, to_rank_1, of_link(6, LinkCause::BadBump));
    let put = with_link(alloc, 4, link(LinkKind::Put, 2, 4, 5, 0))?;
    same(&rt, put, of_link(4, LinkCause::NotAtomic));
    let half = with_link(alloc, 5, link(LinkKind::Atomic, 3, 2, 5, 0))?;
    same(&rt, half, of_link(5, LinkCause::BadAtomic));
    let mut signed = sum(0, 4, 2);
    signed.ty = ElemType::I8;
    same(
        &rt,
        with_cell(alloc, 3, signed)?,
        of_link(4, LinkCause::BadAtomic),
    );
    let to_input = with_more(alloc, 0, bytes(0, 4, 2), link(LinkKind::Put, 0, 0, 2, 0))?;
    same(&rt, to_input, of_link(6, LinkCause::ToInput));
    Ok(())
}

#[test]
fn the_first_flaw_is_named(rt: HostRuntime) -> Result<(), Fail> {
    let alloc = rt.alloc();
    let falls = link(LinkKind::Put, 5, 4, 4, 0);
    let cell_first = with_both(alloc, 3, sum(0, 4, 3), 2, falls)?;
    same(&rt, cell_first, cell(5, CellCause::Needs));
    let lower_first = with_both(alloc, 0, bytes(0, 4, 2), 3, link(LinkKind::Put, 3, 4, 4, 3))?;
    same(&rt, lower_first, cell(2, CellCause::Needs));
    let [a, b, _, _, e, f] = sound_links();
    let two = flaw_of(
        alloc,
        &sound_cells(),
        &[a, b, falls, link(LinkKind::Put, 3, 4, 4, 5), e, f],
    )?;
    same(&rt, two, of_link(2, LinkCause::NotRising));
    Ok(())
}
