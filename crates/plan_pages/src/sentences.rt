//! What a step does, in words.

use crate::operations::Operation;
use crate::playing::Turn;
use crate::registers::Register;
use crate::scene::{Change, Deed};
use plan_core::Plan;
use plan_pictures::kind_word;
use ptl_types::{Lane, LocalStep};
use std::fmt;

/// A local step as order lines name it.
#[derive(Clone, Copy)]
pub struct StepName(pub LocalStep);

impl fmt::Display for StepName {
    fn fmt<W: fmt::Write>(&self, f: &mut fmt::Formatter<W>) -> fmt::Result {
        match self.0 {
            LocalStep::Start => f.write_str("s"),
            LocalStep::Receive {
                source,
                lane: Lane::Request,
            } => write!(f, "r{source}"),
            LocalStep::Receive { source, .. } => write!(f, "a{source}"),
            LocalStep::Fire { number } => write!(f, "f{number}"),
        }
    }
}

/// What a turn does in a plan.
#[derive(Clone, Copy)]
pub struct Sentence<'a> {
    pub plan: &'a Plan,
    pub turn: &'a Turn,
}

/// A link: its number, its kind and what it carries.
fn say_link<W: fmt::Write>(out: &mut fmt::Formatter<W>, plan: &Plan, number: u32) -> fmt::Result {
    write!(out, "link {number}")?;
    match plan.links().get(number as usize) {
        Some(link) => write!(
            out,
            ", {} of {} bytes from cell {} to cell {}",
            kind_word(link.kind),
            link.length,
            link.source,
            link.target
        ),
        None => Ok(()),
    }
}

impl fmt::Display for Sentence<'_> {
    fn fmt<W: fmt::Write>(&self, f: &mut fmt::Formatter<W>) -> fmt::Result {
        match self.turn.deed {
            Deed::Started => f.write_str("the host starts its interface"),
            Deed::Fired(Operation::Link(link)) => {
                f.write_str("fires ")?;
                say_link(f, self.plan, link)
            }
            Deed::Fired(Operation::Done(cell)) => {
                write!(f, "fires the count of cell {cell} by the done counter")
            }
            Deed::Came { link, early } => {
                f.write_str("receives ")?;
                say_link(f, self.plan, link)?;
                f.write_str(if early {
                    ": before its start, for which it waits"
                } else {
                    ""
                })
            }
            Deed::Answered { link } => { write!(f, "receives the acknowledgement of link {link}") }
        }
    }
}

/// Where a counter stands after a change.
#[derive(Clone, Copy)]
pub struct Standing<'a> {
    pub plan: &'a Plan,
    pub done: &'a [u64],
    pub change: Change,
}

impl fmt::Display for Standing<'_> {
    fn fmt<W: fmt::Write>(&self, f: &mut fmt::Formatter<W>) -> fmt::Result {
        let after = self.change.after;
        match self.change.register {
            Register::Counter(number) => match self.plan.cells().get(number as usize) {
                Some(cell) => {
                    write!(f, "cell {number}: {after} of {}", cell.needs)?;
                    f.write_str(if after == cell.needs {
                        ", final. "
                    } else {
                        ". "
                    })
                }
                None => Ok(()),
            },
            Register::Done(rank) => match self.done.get(rank as usize) {
                Some(threshold) => {
                    write!(f, "done counter: {after} of {threshold}")?;
                    f.write_str(if after == *threshold {
                        ", done. "
                    } else {
                        ". "
                    })
                }
                None => Ok(()),
            },
            _ => Ok(()),
        }
    }
}
