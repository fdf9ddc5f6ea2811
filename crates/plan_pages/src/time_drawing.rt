//! The steps in time: a row for each rank, a column for each step, and a line from each send to its receipt.

use crate::operations::Operation;
use crate::order_drawing::class_of;
use crate::playing::{Play, Turn};
use crate::scene::Deed;
use crate::sentences::StepName;
use plan_pictures::lines::PlanText;
use plan_pictures::{kind_word, svg};
use ptl_types::Rank;
use std::alloc::{AllocError, Global};
use std::fmt;

/// Sizes in pixels: a step's box, from one column or row to the next, and where the first stands.
const BOX_WIDTH: u64 = 28;

const BOX_HEIGHT: u64 = 20;

const ACROSS: u64 = 32;

const DOWN: u64 = 52;

const LEFT: u64 = 64;

const TOP: u64 = 40;

/// A message, or its acknowledgement, from a turn to a later one.
#[derive(Clone, Copy, Debug)]
struct Flight {
    link: u32,
    is_answer: bool,
    from: (Rank, usize),
    to: (Rank, usize),
}

/// What was played, as it is drawn.
#[derive(Drop)]
pub struct TimePicture<'a> {
    plan: &'a PlanText,
    turns: &'a [Turn],
    flights: Vec<Flight>,
}

/// A list of so many places, none known.
fn unknown(alloc: Global, count: usize) -> Result<Vec<Option<(Rank, usize)>>, AllocError> {
    let mut list = Vec::with_capacity(alloc, count)?;
    for _ in 0..count {
        list.push(None)?;
    }
    Ok(list)
}

/// Where each link's message was sent last, or received.
#[derive(Drop)]
struct Ends {
    sent: Vec<Option<(Rank, usize)>>,
    came: Vec<Option<(Rank, usize)>>,
}

/// Writes where a link was seen, and gives where it was seen before in the other list.
fn note(list: &mut Vec<Option<(Rank, usize)>>, link: u32, at: (Rank, usize)) {
    if let Some(slot) = list.get_mut(link as usize) {
        *slot = Some(at);
    }
}

fn known(list: &[Option<(Rank, usize)>], link: u32) -> Option<(Rank, usize)> {
    list.get(link as usize).copied()?
}

impl Ends {
    /// The flight that ends with this turn, if one does.
    fn follow(&mut self, at: (Rank, usize), deed: Deed) -> Option<Flight> {
        let (link, is_answer) = match deed {
            Deed::Fired(Operation::Link(link)) => {
                note(&mut self.sent, link, at);
                return None;
            }
            Deed::Came { link, .. } => {
                note(&mut self.came, link, at);
                (link, false)
            }
            Deed::Answered { link } => (link, true),
            _ => return None,
        };
        let list = if is_answer { &self.came } else { &self.sent };
        Some(Flight {
            link,
            is_answer,
            from: known(list.as_slice(), link)?,
            to: at,
        })
    }
}

impl<'a> TimePicture<'a> {
    /// The picture of what was played.
    pub fn of(
        alloc: Global,
        plan: &'a PlanText,
        play: &'a Play,
    ) -> Result<TimePicture<'a>, AllocError> {
        let links = plan.links().len();
        let mut ends = Ends {
            sent: unknown(alloc, links)?,
            came: unknown(alloc, links)?,
        };
        let mut flights = Vec::new(alloc);
        for (place, turn) in play.turns.iter().enumerate() {
            if let Some(flight) = ends.follow((turn.rank, place), turn.deed) {
                flights.push(flight)?;
            }
        }
        Ok(TimePicture {
            plan,
            turns: play.turns.as_slice(),
            flights,
        })
    }
}

/// The left edge of a column.
fn x_of(place: usize) -> u64 {
    LEFT.saturating_add((place as u64).saturating_mul(ACROSS))
}

/// The upper edge of a row's boxes.
fn y_of(rank: Rank) -> u64 {
    u64::from(rank).saturating_mul(DOWN).saturating_add(TOP)
}

/// The box of the turn with this number, from 1.
fn draw_turn<W: fmt::Write>(out: &mut fmt::Formatter<W>, place: usize, turn: &Turn) -> fmt::Result {
    let (x, y) = (x_of(place), y_of(turn.rank));
    let number = place.saturating_add(1);
    write!(out, "<g id=\"turn-{number}\" class=\"turn\">")?;
    write!(out, "<title>step {number}: rank {}</title>", turn.rank)?;
    svg::round_box(out, class_of(turn.step), (x, y), (BOX_WIDTH, BOX_HEIGHT))?;
    let middle = (x.saturating_add(BOX_WIDTH / 2), y.saturating_add(13));
    svg::begin_text(out, "middle", middle)?;
    writeln!(out, "{}</text></g>", StepName(turn.step))
}

/// The way of a message: down, up, or over its own row.
fn draw_way<W: fmt::Write>(out: &mut fmt::Formatter<W>, flight: &Flight) -> fmt::Result {
    let ((from, sent), (to, came)) = (flight.from, flight.to);
    let x = x_of(sent).saturating_add(BOX_WIDTH / 2);
    let to_x = x_of(came).saturating_add(BOX_WIDTH / 2);
    let (y, to_y) = (y_of(from), y_of(to));
    if from < to {
        svg::move_to(out, (x, y.saturating_add(BOX_HEIGHT)))?;
        svg::line_to(out, (to_x, to_y))
    } else if to < from {
        svg::move_to(out, (x, y))?;
        svg::line_to(out, (to_x, to_y.saturating_add(BOX_HEIGHT)))
    } else {
        let above = y.saturating_sub(22);
        svg::move_to(out, (x, y))?;
        write!(out, " C{x} {above} {to_x} {above} {to_x} {to_y}")
    }
}

/// A message's line.
fn draw_flight<W: fmt::Write>(
    out: &mut fmt::Formatter<W>,
    plan: &PlanText,
    flight: &Flight,
) -> fmt::Result {
    let link = flight.link;
    let kind = match plan.links().get(link as usize) {
        Some(link) => kind_word(link.kind),
        None => "put",
    };
    if flight.is_answer {
        write!(out, "<path id=\"back-{link}\" ")?;
        svg::begin_arrow(out, "answer")?;
    } else {
        write!(out, "<path id=\"flight-{link}\" ")?;
        svg::begin_arrow(out, kind)?;
    }
    draw_way(out, flight)?;
    writeln!(out, "\"><title>link {link}</title></path>")
}

/// The names of the ranks, and every fifth number of a step.
fn draw_names<W: fmt::Write>(out: &mut fmt::Formatter<W>, ranks: u32, steps: usize) -> fmt::Result {
    for rank in 0..ranks {
        svg::begin_text(out, "row", (LEFT - 12, y_of(rank).saturating_add(14)))?;
        writeln!(out, "rank {rank}</text>")?;
    }
    for place in 0..steps {
        let number = place.saturating_add(1);
        if number == 1 || number % 5 == 0 {
            let x = x_of(place).saturating_add(BOX_WIDTH / 2);
            svg::begin_text(out, "middle", (x, 12))?;
            writeln!(out, "{number}</text>")?;
        }
    }
    Ok(())
}

/// The line behind the step that is shown last; the page moves it.
fn draw_cursor<W: fmt::Write>(out: &mut fmt::Formatter<W>, height: u64) -> fmt::Result {
    let x = LEFT.saturating_sub((ACROSS - BOX_WIDTH) / 2);
    write!(out, "<path id=\"cursor\" data-across=\"{ACROSS}\" d=\"")?;
    svg::move_to(out, (x, 16))?;
    svg::line_to(out, (x, height))?;
    out.write_str("\"/>\n")
}

impl fmt::Display for TimePicture<'_> {
    fn fmt<W: fmt::Write>(&self, f: &mut fmt::Formatter<W>) -> fmt::Result {
        let (width, height) = (x_of(self.turns.len()), y_of(self.plan.ranks));
        svg::begin_plain(f, width.saturating_add(8), height)?;
        draw_names(f, self.plan.ranks, self.turns.len())?;
        draw_cursor(f, height)?;
        for flight in self.flights.iter() {
            draw_flight(f, self.plan, flight)?;
        }
        for (place, turn) in self.turns.iter().enumerate() {
            draw_turn(f, place, turn)?;
        }
        svg::end(f)
    }
}
