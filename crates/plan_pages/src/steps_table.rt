//! The table of all steps.

use crate::playing::{Play, Turn};
use crate::sentences::{Sentence, Standing, StepName};
use plan_pictures::lines::PlanText;
use std::fmt;

/// The counters that a turn changed.
fn write_standings<W: fmt::Write>(
    out: &mut fmt::Formatter<W>,
    plan: &PlanText,
    play: &Play,
    turn: &Turn,
) -> fmt::Result {
    let (from, to) = turn.changes;
    if let Some(changes) = play.scene.changes.get(from..to) {
        for change in changes {
            let standing = Standing {
                plan: plan.given.plan(),
                done: plan.given.done(),
                change: *change,
            };
            write!(out, "{standing}")?;
        }
    }
    Ok(())
}

/// The row of the turn with this number, from 1.
fn write_row<W: fmt::Write>(
    out: &mut fmt::Formatter<W>,
    plan: &PlanText,
    play: &Play,
    number: usize,
    turn: &Turn,
) -> fmt::Result {
    let sentence = Sentence {
        plan: plan.given.plan(),
        turn,
    };
    write!(
        out,
        "<tr id=\"step-{number}\"><td><a href=\"#step={number}\">{number}</a></td><td>{}</td><td>{}</td><td>{sentence}</td><td>",
        turn.rank,
        StepName(turn.step)
    )?;
    write_standings(out, plan, play, turn)?;
    out.write_str("</td></tr>\n")
}

/// A row for each step that was played.
pub fn write_steps<W: fmt::Write>(
    out: &mut fmt::Formatter<W>,
    plan: &PlanText,
    play: &Play,
) -> fmt::Result {
    for (place, turn) in play.turns.iter().enumerate() {
        write_row(out, plan, play, place.saturating_add(1), turn)?;
    }
    Ok(())
}
