//! Reading the text of a plan, the orders that a run wrote, and what was answered of the plan.

ghost use Rattle.std.specs.Prelude.{IfOk, IfSome};
ghost use Rattle.plan_pictures.specs.lines.Said.{IsPlanIn};

mod fault;
mod lines;
mod order_text;
mod plan_text;
mod verdict;

pub use fault::{Refusal, TextFault};
pub use order_text::{Order, OrderText};
pub use plan_text::{Item, PlanText, named_cell};
use std::alloc::Global;
pub use verdict::Verdict;

/// The most local steps that are read, of all ranks together.
const MOST_STEPS: usize = 200_000;

/// The most local steps that are read to be played one by one.
const MOST_PLAYED: usize = 20_000;

/// A plan, and what was answered of it.
#[derive(Drop)]
pub struct JudgedText {
    /// The plan.
    pub plan: PlanText,
    /// The answer, if it stands after the plan.
    pub verdict: Option<Verdict>,
}

/// Reads the text of a plan, as `portals_run plan` writes it, or a description and the text of a plan that is given for it, as
/// `portals_plan` takes them. The last line may be what `portals_plan verify` answered.
///
/// # Errors
///
/// The first line at fault, more than 20,000 links or cells beside the go cells, or that there was no memory. The description is
/// read first, and then the first line of the plan's text looked at.
pub fn read_plan(alloc: Global, text: &[u8]) -> Result<JudgedText, TextFault>
    ensures said { IfOk result (λ t. IsPlanIn text.now t.plan) }
{
    let parts = lines::parts_of(text)?;
    let plan = plan_text::plan_in(alloc, &parts)?;
    let rest = lines::Lines::of(parts.rest, parts.line);
    let verdict = order_text::end_of(alloc, &rest, Refusal::NotAPlan)?;
    Ok(JudgedText { plan, verdict })
}

/// Reads an order text: a line for each rank. The text of a plan may stand first, with a description or without; other lines before
/// the first order, as those of a result, are passed over, and the last line may be what was answered of the plan.
///
/// # Errors
///
/// The first line that is neither of a plan's text nor of an order text, more links or cells than `read_plan` takes, more than
/// 200,000 local steps, or that there was no memory.
pub fn read_orders(alloc: Global, text: &[u8]) -> Result<OrderText, TextFault>
    ensures said { IfOk result (λ t. IfSome t.plan (IsPlanIn text.now)) }
{
    order_text::order_text_in(alloc, MOST_STEPS, text)
}

/// Reads an order text to be played step by step, as `read_orders` does.
///
/// # Errors
///
/// As of `read_orders`, with at most 20,000 local steps.
pub fn read_played(alloc: Global, text: &[u8]) -> Result<OrderText, TextFault>
    ensures said { IfOk result (λ t. IfSome t.plan (IsPlanIn text.now)) }
{
    order_text::order_text_in(alloc, MOST_PLAYED, text)
}
