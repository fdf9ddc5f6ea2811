//! Reading an order text.

ghost use Rattle.std.specs.Prelude.{IfOk, IfSome};
ghost use Rattle.plan_pictures.specs.lines.Said.{IsPlanIn};

use crate::lines::fault::{Refusal, TextFault};
use crate::lines::lines::{Lines, begins_with, parts_of};
use crate::lines::plan_text::{PlanText, plan_in};
use crate::lines::verdict::{Verdict, verdict_in};
use coll_shape::MOST_RANKS;
use coll_text::{Words, is, number_between};
use ptl_types::{Lane, LocalStep, Rank};
use std::alloc::Global;

/// The local steps of one rank.
#[derive(Drop)]
pub struct Order {
    /// In the order in which the rank made them.
    pub steps: Vec<LocalStep>,
}

/// What an order text says.
#[derive(Drop)]
pub struct OrderText {
    /// The plan whose text stands before the orders, if any.
    pub plan: Option<PlanText>,
    /// The orders, by rank; with a plan one for each of its ranks, or none beside an answer on it.
    pub orders: Vec<Order>,
    /// What was answered of the plan, where the last line says it.
    pub verdict: Option<Verdict>,
}

/// The line of an order that is due.
#[derive(Clone, Copy)]
struct Due {
    rank: Rank,
    /// The greatest rank.
    last: Rank,
    /// How many steps it may have.
    most: usize,
    /// Its number.
    line: u32,
}

impl Due {
    fn refused(self, name: Refusal) -> TextFault {
        TextFault::Refused {
            line: self.line,
            name,
        }
    }
}

/// The local step that a word is, where there are ranks up to the last.
fn step_of(last: Rank, word: &[u8]) -> Option<LocalStep> {
    let (kind, number) = word.split_first()?;
    match *kind {
        b's' if number.is_empty() => Some(LocalStep::Start),
        b'r' => Some(LocalStep::Receive {
            source: number_between(0, last, number)?,
            lane: Lane::Request,
        }),
        b'a' => Some(LocalStep::Receive {
            source: number_between(0, last, number)?,
            lane: Lane::Answer,
        }),
        b'f' => Some(LocalStep::Fire {
            number: number_between(0, u32::MAX, number)?,
        }),
        _ => None,
    }
}

/// The steps that the words are.
fn steps_in(alloc: Global, due: Due, words: Words) -> Result<Vec<LocalStep>, TextFault> {
    let mut steps = Vec::new(alloc);
    for word in words {
        if steps.len() >= due.most {
            return Err(due.refused(Refusal::TooManySteps));
        }
        let step = step_of(due.last, word).ok_or(due.refused(Refusal::NotAnOrder))?;
        steps.push(step)?;
    }
    Ok(steps)
}

/// Takes the words `order` and the rank that is due.
fn begins_order(rank: Rank, words: &mut Words) -> Option<()> {
    if !is(words.next()?, b"order") {
        return None;
    }
    let _rank = number_between(rank, rank, words.next()?)?;
    Some(())
}

/// The steps after `order` and the rank that is due.
fn order_in(alloc: Global, due: Due, mut words: Words) -> Result<Order, TextFault> {
    begins_order(due.rank, &mut words).ok_or(due.refused(Refusal::NotAnOrder))?;
    let steps = steps_in(alloc, due, words)?;
    Ok(Order { steps })
}

/// The orders of so many ranks; of ranks of an unknown number, all that come.
fn orders_in(
    alloc: Global,
    ranks: Option<u32>,
    most_steps: usize,
    lines: &mut Lines,
) -> Result<Vec<Order>, TextFault> {
    let most_ranks = ranks.unwrap_or(MOST_RANKS);
    let mut orders = Vec::new(alloc);
    let mut most = most_steps;
    for rank in 0..most_ranks {
        if ranks.is_none() && !begins_with(lines.rest(), b"order") {
            break;
        }
        let due = Due {
            rank,
            last: most_ranks - 1,
            most,
            line: lines.number(),
        };
        let words = lines.take().ok_or(due.refused(Refusal::NotAnOrder))?;
        let order = order_in(alloc, due, words)?;
        most = most.saturating_sub(order.steps.len());
        orders.push(order)?;
    }
    Ok(orders)
}

/// Passes over the lines before the first order. An answer on the plan that ends the text is handed back.
fn pass_others(alloc: Global, lines: &mut Lines) -> Result<Option<Verdict>, TextFault> {
    for _ in 0..u64::MAX {
        if begins_with(lines.rest(), b"order") {
            break;
        }
        if let Some(verdict) = verdict_in(alloc, lines)? {
            return Ok(Some(verdict));
        }
        let refused = lines.refused(Refusal::NotAnOrder);
        let _words = lines.take().ok_or(refused)?;
    }
    Ok(None)
}

/// The answer on the plan that is left, or nothing, where nothing is left.
pub fn end_of(alloc: Global, lines: &Lines, name: Refusal) -> Result<Option<Verdict>, TextFault> {
    if lines.rest().is_empty() {
        return Ok(None);
    }
    match verdict_in(alloc, lines)? {
        Some(verdict) => Ok(Some(verdict)),
        None => Err(lines.refused(name)),
    }
}

/// The orders after these lines, and the answer on the plan, if it is the last line. With a plan there may be that answer alone.
fn rest_in(
    alloc: Global,
    ranks: Option<u32>,
    most_steps: usize,
    lines: &mut Lines,
) -> Result<(Vec<Order>, Option<Verdict>), TextFault> {
    let passed = pass_others(alloc, lines)?;
    if passed.is_some() && ranks.is_some() {
        return Ok((Vec::new(alloc), passed));
    }
    let orders = orders_in(alloc, ranks, most_steps, lines)?;
    if orders.is_empty() {
        return Err(lines.refused(Refusal::NotAnOrder));
    }
    let verdict = end_of(alloc, lines, Refusal::NotAnOrder)?;
    Ok((orders, verdict))
}

/// The orders that a text says, of so many local steps at most, the plan, if its text comes before, and the answer on it.
pub fn order_text_in(alloc: Global, most_steps: usize, text: &[u8]) -> Result<OrderText, TextFault>
    ensures said { IfOk result (λ t. IfSome t.plan (IsPlanIn text.now)) }
{
    let parts = parts_of(text)?;
    let plan = if parts.plan.is_empty() {
        None
    } else {
        Some(plan_in(alloc, &parts)?)
    };
    let ranks = plan.as_ref().map(|plan| plan.ranks);
    let mut lines = Lines::of(parts.rest, parts.line);
    let (orders, verdict) = rest_in(alloc, ranks, most_steps, &mut lines)?;
    Ok(OrderText {
        plan,
        orders,
        verdict,
    })
}
