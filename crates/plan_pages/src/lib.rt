//! Pictures of orders, and pages that play orders of a plan's ranks step by step: what each local step does is found here, and the page
//! only shows it.
#![tactic(auto)]

mod data;
mod lanes;
mod looks;
mod operations;
mod order_drawing;
mod page;
mod playing;
mod registers;
mod scene;
mod script;
mod sentences;
mod steps_table;
mod time_drawing;

use plan_pictures::drawn_plan;
use plan_pictures::lines::{Refusal, TextFault, read_orders, read_played};
use std::alloc::Global;

/// The drawing of an order text: a row for each rank, with a box for each of its local steps, in order. Where the text of the
/// plan stands before the orders, there is a line from each send to its receipt.
///
/// # Errors
///
/// As `read_orders` of the text; or that there was no memory.
pub fn order_picture(alloc: Global, text: &[u8]) -> Result<String, TextFault> {
    let text = read_orders(alloc, text)?;
    let orders = text.orders.as_slice();
    let flights = match &text.plan {
        Some(plan) => order_drawing::flights_of(alloc, plan, orders)?,
        None => Vec::new(alloc),
    };
    let picture = order_drawing::OrderPicture::of(orders, flights.as_slice());
    Ok(format!(in alloc; "{picture}")?)
}

/// The page of a text: a plan with or without a description before it, the orders of its ranks, and what was answered of it, if that
/// is the last line. It is HTML that needs nothing beside itself.
///
/// # Errors
///
/// As `read_played` of the text; `NotAPlan` in the first line, where no plan's text comes before the orders; or that there was no
/// memory.
pub fn plan_page(alloc: Global, text: &[u8]) -> Result<String, TextFault> {
    let text = read_played(alloc, text)?;
    let Some(plan) = &text.plan else {
        return Err(TextFault::Refused {
            line: 1,
            name: Refusal::NotAPlan,
        });
    };
    let picture = drawn_plan(alloc, plan, text.verdict.as_ref())?;
    let play = playing::played(alloc, plan.given.plan(), text.orders.as_slice())?;
    let time = time_drawing::TimePicture::of(alloc, plan, &play)?;
    let page = page::Page {
        plan,
        orders: text.orders.as_slice(),
        play: &play,
        verdict: text.verdict.as_ref(),
        picture: picture.as_str(),
        time: &time,
    };
    Ok(format!(in alloc; "{page}")?)
}
