//! The plan and what each step changes, as JSON of numbers alone.

use crate::playing::{Play, Turn};
use crate::scene::Change;
use plan_core::{Cell, Link, LinkKind};
use plan_pictures::lines::PlanText;
use std::fmt;

/// Nothing before the first of a list, a comma before each other.
fn part<W: fmt::Write>(out: &mut fmt::Formatter<W>, place: usize) -> fmt::Result {
    out.write_str(if place == 0 { "" } else { "," })
}

fn kind_number(kind: LinkKind) -> u32 {
    match kind {
        LinkKind::Put => 0,
        LinkKind::Atomic => 1,
        LinkKind::Bump => 2,
    }
}

/// Of each cell its rank and its needs.
fn write_cells<W: fmt::Write>(out: &mut fmt::Formatter<W>, cells: &[Cell]) -> fmt::Result {
    for (place, cell) in cells.iter().enumerate() {
        part(out, place)?;
        write!(out, "[{},{}]", cell.rank, cell.needs)?;
    }
    Ok(())
}

/// Of each link its source, its target and its kind.
fn write_links<W: fmt::Write>(out: &mut fmt::Formatter<W>, links: &[Link]) -> fmt::Result {
    for (place, link) in links.iter().enumerate() {
        part(out, place)?;
        let kind = kind_number(link.kind);
        write!(out, "[{},{},{kind}]", link.source, link.target)?;
    }
    Ok(())
}

fn write_numbers<W: fmt::Write>(out: &mut fmt::Formatter<W>, numbers: &[u64]) -> fmt::Result {
    for (place, number) in numbers.iter().enumerate() {
        part(out, place)?;
        write!(out, "{number}")?;
    }
    Ok(())
}

/// Of each change the place of the register, and what it held before and after.
fn write_changes<W: fmt::Write>(
    out: &mut fmt::Formatter<W>,
    play: &Play,
    changes: &[Change],
) -> fmt::Result {
    for change in changes {
        let place = play.scene.registers.place(change.register);
        write!(out, ",{place},{},{}", change.before, change.after)?;
    }
    Ok(())
}

/// A step: its rank, and its changes.
fn write_turn<W: fmt::Write>(out: &mut fmt::Formatter<W>, play: &Play, turn: &Turn) -> fmt::Result {
    write!(out, "[{}", turn.rank)?;
    let (from, to) = turn.changes;
    if let Some(changes) = play.scene.changes.get(from..to) {
        write_changes(out, play, changes)?;
    }
    out.write_str("]")
}

fn write_turns<W: fmt::Write>(out: &mut fmt::Formatter<W>, play: &Play) -> fmt::Result {
    for (place, turn) in play.turns.iter().enumerate() {
        part(out, place)?;
        write_turn(out, play, turn)?;
    }
    Ok(())
}

/// The whole.
pub fn write_data<W: fmt::Write>(
    out: &mut fmt::Formatter<W>,
    plan: &PlanText,
    play: &Play,
) -> fmt::Result {
    write!(out, "{{\"ranks\":{},\"cells\":[", plan.ranks)?;
    write_cells(out, plan.cells())?;
    out.write_str("],\"links\":[")?;
    write_links(out, plan.links())?;
    out.write_str("],\"done\":[")?;
    write_numbers(out, plan.given.done())?;
    out.write_str("],\n\"steps\":[")?;
    write_turns(out, play)?;
    out.write_str("]}")
}
