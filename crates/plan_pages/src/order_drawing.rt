//! The drawing of orders, each by itself.

ghost use Rattle.std.specs.Prelude.{◌<◌, ◌^◌};

use crate::sentences::StepName;
use plan_core::LinkKind;
use plan_pictures::lines::{Order, PlanText};
use plan_pictures::svg;
use ptl_types::{Lane, LocalStep, Rank};
use std::alloc::{AllocError, Global};
use std::fmt;

/// Sizes in pixels: a local step's box, from one to the next, and where the first stands.
const BOX_WIDTH: u64 = 30;

const BOX_HEIGHT: u64 = 20;

const ACROSS: u64 = 36;

const DOWN: u64 = 70;

const LEFT: u64 = 70;

const TOP: u64 = 50;

/// A message from a place of a rank's order to a place of another's, or of its own.
#[derive(Clone, Copy, Debug)]
pub struct Flight {
    pub is_answer: bool,
    pub from: (Rank, usize),
    pub to: (Rank, usize),
}

/// For each pair of ranks, a list of places of one rank's order.
#[derive(Drop)]
struct Pairs {
    ranks: usize,
    lists: Vec<Vec<usize>>,
}

impl Pairs {
    fn of(alloc: Global, ranks: usize) -> Result<Pairs, AllocError> {
        let mut lists = Vec::new(alloc);
        for _ in 0..ranks.saturating_mul(ranks) {
            lists.push(Vec::new(alloc))?;
        }
        Ok(Pairs { ranks, lists })
    }

    fn index(&self, first: Rank, second: Rank) -> usize {
        (first as usize)
            .saturating_mul(self.ranks)
            .saturating_add(second as usize)
    }

    fn add(&mut self, first: Rank, second: Rank, place: usize) -> Result<(), AllocError> {
        let at = self.index(first, second);
        if let Some(list) = self.lists.get_mut(at) {
            list.push(place)?;
        }
        Ok(())
    }

    fn get(&self, first: Rank, second: Rank, number: usize) -> Option<usize> {
        let list = self.lists.get(self.index(first, second))?;
        list.get(number).copied()
    }

    fn len(&self, first: Rank, second: Rank) -> usize {
        match self.lists.get(self.index(first, second)) {
            Some(list) => list.len(),
            None => 0,
        }
    }
}

/// Adds a rank's receipts on a lane, by their sources.
fn add_receipts(
    pairs: &mut Pairs,
    rank: Rank,
    order: &Order,
    lane: Lane,
) -> Result<(), AllocError> {
    for (place, step) in order.steps.iter().enumerate() {
        match *step {
            LocalStep::Receive { source, lane: on } if on == lane => {
                pairs.add(rank, source, place)?;
            }
            _ => {}
        }
    }
    Ok(())
}

/// The receipts on a lane, by receiver and source.
fn receipts(alloc: Global, orders: &[Order], lane: Lane) -> Result<Pairs, AllocError> {
    let mut pairs = Pairs::of(alloc, orders.len())?;
    let mut rank = 0u32;
    for order in orders {
        add_receipts(&mut pairs, rank, order, lane)?;
        rank = rank.saturating_add(1);
    }
    Ok(pairs)
}

/// Which rank gets the message of each triggered operation that is a link, none for a bump: a list for each rank.
fn targets_of(alloc: Global, plan: &PlanText) -> Result<Vec<Vec<Option<Rank>>>, AllocError> {
    let mut lists = Vec::new(alloc);
    for _ in 0..plan.ranks {
        lists.push(Vec::new(alloc))?;
    }
    for link in plan.links() {
        let (source, target) = (link.source as usize, link.target as usize);
        if let (Some(from), Some(to)) = (plan.cells().get(source), plan.cells().get(target)) {
            let message = match link.kind {
                LinkKind::Put | LinkKind::Atomic if to.rank < plan.ranks => Some(to.rank),
                _ => None,
            };
            if let Some(list) = lists.get_mut(from.rank as usize) {
                list.push(message)?;
            }
        }
    }
    Ok(lists)
}

/// Adds a rank's sends, by their targets.
fn add_sends(
    pairs: &mut Pairs,
    rank: Rank,
    order: &Order,
    targets: &[Option<Rank>],
) -> Result<(), AllocError> {
    for (place, step) in order.steps.iter().enumerate() {
        if let LocalStep::Fire { number } = *step
            && let Some(Some(target)) = targets.get(number as usize).copied()
        {
            pairs.add(rank, target, place)?;
        }
    }
    Ok(())
}

/// The sends of requests, by sender and target.
fn sends(alloc: Global, plan: &PlanText, orders: &[Order]) -> Result<Pairs, AllocError> {
    let targets = targets_of(alloc, plan)?;
    let mut pairs = Pairs::of(alloc, orders.len())?;
    let mut rank = 0u32;
    for (order, list) in orders.iter().zip(targets.iter()) {
        add_sends(&mut pairs, rank, order, list.as_slice())?;
        rank = rank.saturating_add(1);
    }
    Ok(pairs)
}

/// Adds a flight for each message from one rank to another that was sent and received: the k-th that was sent is the k-th that
/// came.
fn add_flights(
    flights: &mut Vec<Flight>,
    (from, to): (Rank, Rank),
    sent: &Pairs,
    received: &Pairs,
    is_answer: bool,
) -> Result<(), AllocError> {
    for number in 0..sent.len(from, to) {
        if let (Some(start), Some(end)) = (
            sent.get(from, to, number),
            received.get(to, from, number),
        ) {
            flights.push(Flight {
                is_answer,
                from: (from, start),
                to: (to, end),
            })?;
        }
    }
    Ok(())
}

/// The messages that orders of a plan tell, each from its send to its receipt.
pub fn flights_of(
    alloc: Global,
    plan: &PlanText,
    orders: &[Order],
) -> Result<Vec<Flight>, AllocError> {
    let mut flights = Vec::new(alloc);
    let sent = sends(alloc, plan, orders)?;
    let received = receipts(alloc, orders, Lane::Request)?;
    let answered = receipts(alloc, orders, Lane::Answer)?;
    for from in 0..plan.ranks {
        for to in 0..plan.ranks {
            add_flights(&mut flights, (from, to), &sent, &received, false)?;
            add_flights(&mut flights, (from, to), &received, &answered, true)?;
        }
    }
    Ok(flights)
}

/// Orders with the messages that are known.
#[derive(Clone, Copy)]
pub struct OrderPicture<'a> {
    orders: &'a [Order],
    flights: &'a [Flight],
}

impl<'a> OrderPicture<'a> {
    /// The picture of orders and of these messages.
    pub fn of(orders: &'a [Order], flights: &'a [Flight]) -> OrderPicture<'a> {
        OrderPicture { orders, flights }
    }
}

/// The left edge of the box at a place.
fn x_of(place: usize) -> u64 {
    LEFT.saturating_add((place as u64).saturating_mul(ACROSS))
}

/// The upper edge of a row.
fn y_of(rank: u32) -> u64
    ensures { result < 2 ^ 40 }
{
    TOP + u64::from(rank) * DOWN
}

/// How a local step's box looks.
pub fn class_of(step: LocalStep) -> &'static str {
    match step {
        LocalStep::Start => "start",
        LocalStep::Receive {
            lane: Lane::Request,
            ..
        } => "receipt",
        LocalStep::Receive { .. } => "acknowledged",
        LocalStep::Fire { .. } => "firing",
    }
}

fn draw_step<W: fmt::Write>(
    out: &mut fmt::Formatter<W>,
    rank: u32,
    place: usize,
    step: LocalStep,
) -> fmt::Result {
    let (x, y) = (x_of(place), y_of(rank));
    write!(out, "<g id=\"step-{rank}-{}\">", place.saturating_add(1))?;
    svg::round_box(out, class_of(step), (x, y), (BOX_WIDTH, BOX_HEIGHT))?;
    svg::begin_text(out, "middle", (x.saturating_add(BOX_WIDTH / 2), y + 13))?;
    writeln!(out, "{}</text></g>", StepName(step))
}

/// A row: the rank and its steps.
fn draw_row<W: fmt::Write>(out: &mut fmt::Formatter<W>, rank: u32, order: &Order) -> fmt::Result {
    svg::begin_text(out, "row", (LEFT - 12, y_of(rank) + 14))?;
    writeln!(out, "rank {rank}</text>")?;
    for (place, step) in order.steps.iter().enumerate() {
        draw_step(out, rank, place, *step)?;
    }
    Ok(())
}

fn draw_rows<W: fmt::Write>(out: &mut fmt::Formatter<W>, orders: &[Order]) -> fmt::Result {
    let mut rank = 0u32;
    for order in orders {
        draw_row(out, rank, order)?;
        rank = rank.saturating_add(1);
    }
    Ok(())
}

/// The middle of a step's box, across.
fn middle_of(place: usize) -> u64 {
    x_of(place).saturating_add(BOX_WIDTH / 2)
}

/// The way of a message: down, up, or over its own row.
fn draw_way<W: fmt::Write>(out: &mut fmt::Formatter<W>, flight: &Flight) -> fmt::Result {
    let ((from, start), (to, end)) = (flight.from, flight.to);
    let (x, to_x) = (middle_of(start), middle_of(end));
    let (y, to_y) = (y_of(from), y_of(to));
    if from < to {
        svg::move_to(out, (x, y + BOX_HEIGHT))?;
        svg::line_to(out, (to_x, to_y))
    } else if to < from {
        svg::move_to(out, (x, y))?;
        svg::line_to(out, (to_x, to_y + BOX_HEIGHT))
    } else {
        let above = y.saturating_sub(26);
        svg::move_to(out, (x, y))?;
        write!(out, " C{x} {above} {to_x} {above} {to_x} {to_y}")
    }
}

/// A message's line, with its two ends by name.
fn draw_flight<W: fmt::Write>(out: &mut fmt::Formatter<W>, flight: &Flight) -> fmt::Result {
    let ((from, start), (to, end)) = (flight.from, flight.to);
    out.write_str("<path ")?;
    svg::begin_arrow(out, if flight.is_answer { "answer" } else { "put" })?;
    draw_way(out, flight)?;
    write!(
        out,
        "\"><title>from rank {from}, step {}",
        start.saturating_add(1)
    )?;
    writeln!(
        out,
        " to rank {to}, step {}</title></path>",
        end.saturating_add(1)
    )
}

/// Every fifth place above the rows.
fn draw_places<W: fmt::Write>(out: &mut fmt::Formatter<W>, longest: usize) -> fmt::Result {
    for place in 0..longest {
        let number = place.saturating_add(1);
        if number == 1 || number % 5 == 0 {
            svg::begin_text(out, "middle", (middle_of(place), 14))?;
            writeln!(out, "{number}</text>")?;
        }
    }
    Ok(())
}

impl fmt::Display for OrderPicture<'_> {
    fn fmt<W: fmt::Write>(&self, f: &mut fmt::Formatter<W>) -> fmt::Result {
        let mut longest = 0usize;
        let mut ranks = 0u32;
        for order in self.orders {
            longest = longest.max(order.steps.len());
            ranks = ranks.saturating_add(1);
        }
        svg::begin(f, x_of(longest).saturating_add(10), y_of(ranks))?;
        draw_places(f, longest)?;
        draw_rows(f, self.orders)?;
        for flight in self.flights {
            draw_flight(f, flight)?;
        }
        svg::end(f)
    }
}
