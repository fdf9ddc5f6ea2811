//! The drawing of a plan.

use crate::layout::{
    ACROSS, Arrow, BETWEEN_RANKS, BOX_HEIGHT, BOX_WIDTH, DOWN, LEFT, Layout, Place, Span, TOP,
};
use crate::lines::{Item, PlanText, Verdict};
use crate::name_drawing::draw_names;
use crate::strips::{Bands, Strip};
use crate::svg;
use coll_lang::{op_word, type_word};
use plan_core::{Cell, Link, LinkKind};
use std::{fmt, str};

/// The classes of the bands of steps, in turn.
const BANDS: [&str; 4] = ["band-0", "band-1", "band-2", "band-3"];

/// How far a band reaches beside the boxes, and above them.
const BESIDE: u64 = (ACROSS - BOX_WIDTH + BETWEEN_RANKS) / 2;

const ABOVE: u64 = (DOWN - BOX_HEIGHT) / 2;

/// A plan with where everything stands, and what was answered of it.
#[derive(Clone, Copy)]
pub struct PlanPicture<'a> {
    plan: &'a PlanText,
    layout: &'a Layout,
    bands: &'a Bands,
    answer: Option<Answer<'a>>,
}

impl<'a> PlanPicture<'a> {
    /// The picture of a plan, laid out so.
    pub fn of(
        plan: &'a PlanText,
        layout: &'a Layout,
        bands: &'a Bands,
        verdict: Option<&'a Verdict>,
    ) -> PlanPicture<'a> {
        PlanPicture {
            plan,
            layout,
            bands,
            answer: verdict.map(|verdict| Answer::of(plan, verdict)),
        }
    }
}

/// What was answered of a plan, and of what in it.
#[derive(Clone, Copy)]
struct Answer<'a> {
    words: &'a str,
    item: Item,
}

impl<'a> Answer<'a> {
    fn of(plan: &PlanText, verdict: &'a Verdict) -> Answer<'a> {
        Answer {
            words: verdict.words.as_str(),
            item: match verdict.line {
                Some(line) => plan.item_at(line),
                None => Item::Whole,
            },
        }
    }
}

/// The words of what was answered of this item, if it is at fault.
fn fault_of<'a>(answer: Option<Answer<'a>>, item: Item) -> Option<&'a str> {
    match answer {
        Some(answer) if answer.item == item => Some(answer.words),
        _ => None,
    }
}

/// The text of a word of ASCII; of another none.
pub fn ascii(word: &[u8]) -> &str {
    str::from_utf8(word).unwrap_or("")
}

/// The word for a kind of link, as it stands in a plan's text.
pub fn kind_word(kind: LinkKind) -> &'static str {
    match kind {
        LinkKind::Put => "put",
        LinkKind::Atomic => "atomic",
        LinkKind::Bump => "bump",
    }
}

/// A step's part at a rank of its band.
fn draw_strip<W: fmt::Write>(
    out: &mut fmt::Formatter<W>,
    strip: &Strip,
    span: &Span,
    is_first: bool,
) -> fmt::Result {
    let x = span.left().saturating_sub(BESIDE);
    let width = span.right().saturating_sub(x).saturating_add(BESIDE);
    let y = (TOP + u64::from(strip.top) * DOWN).saturating_sub(ABOVE);
    let height = u64::from(strip.bottom.saturating_sub(strip.top)) * DOWN + DOWN;
    let class = BANDS[strip.step as usize % 4];
    svg::area(out, class, (x, y), (width, height))?;
    if is_first {
        svg::begin_text(out, "left", (x.saturating_add(4), y.saturating_add(11)))?;
        writeln!(out, "step {}</text>", strip.step)?;
    }
    Ok(())
}

fn draw_strips<W: fmt::Write>(
    out: &mut fmt::Formatter<W>,
    strips: &[Strip],
    spans: &[Span],
) -> fmt::Result {
    let mut last = 0u32;
    for strip in strips {
        if let Some(span) = spans.get(strip.rank as usize) {
            draw_strip(out, strip, span, strip.step != last)?;
        }
        last = strip.step;
    }
    Ok(())
}

/// A cell's number and its needs.
fn draw_needs<W: fmt::Write>(
    out: &mut fmt::Formatter<W>,
    number: usize,
    cell: &Cell,
    place: &Place,
) -> fmt::Result {
    let (x, y) = (place.x(), place.y() + 11);
    svg::begin_text(out, "number", (x + 4, y))?;
    writeln!(out, "{number}</text>")?;
    svg::begin_text(out, "right", (x + BOX_WIDTH - 4, y))?;
    writeln!(out, "needs {}</text>", cell.needs)
}

/// What a cell holds: its operation, its type and its length.
fn draw_contents<W: fmt::Write>(
    out: &mut fmt::Formatter<W>,
    cell: &Cell,
    place: &Place,
    is_go: bool,
) -> fmt::Result {
    let what = match cell.op {
        Some(op) => ascii(op_word(op)),
        None if is_go => "go",
        None => "",
    };
    let ty = if cell.length > 0 {
        ascii(type_word(cell.ty))
    } else {
        ""
    };
    let (x, right, y) = (place.x(), place.x() + BOX_WIDTH - 4, place.y());
    svg::begin_text(out, "left", (x + 4, y + 23))?;
    writeln!(out, "{what}</text>")?;
    svg::begin_text(out, "right", (right, y + 23))?;
    writeln!(out, "{ty}</text>")?;
    svg::begin_text(out, "right", (right, y + 35))?;
    writeln!(out, "{} B</text>", cell.length)
}

/// Begins a cell's group; where the cell is at fault, that is its title.
fn begin_cell<W: fmt::Write>(
    out: &mut fmt::Formatter<W>,
    number: usize,
    class: &str,
    fault: Option<&str>,
) -> fmt::Result {
    match fault {
        None => writeln!(out, "<g id=\"cell-{number}\" class=\"{class}\">"),
        Some(words) => {
            write!(out, "<g id=\"cell-{number}\" class=\"{class} fault\">")?;
            writeln!(out, "<title>{words}</title>")
        }
    }
}

/// A cell's box, with what it needs and holds.
fn draw_cell<W: fmt::Write>(
    out: &mut fmt::Formatter<W>,
    number: usize,
    cell: &Cell,
    place: &Place,
    (is_go, fault): (bool, Option<&str>),
) -> fmt::Result {
    let class = match cell.op {
        Some(_) => "operation",
        None if is_go => "go",
        None => "part",
    };
    begin_cell(out, number, class, fault)?;
    svg::round_box(out, "box", (place.x(), place.y()), (BOX_WIDTH, BOX_HEIGHT))?;
    draw_needs(out, number, cell, place)?;
    draw_contents(out, cell, place, is_go)?;
    out.write_str("</g>\n")
}

fn draw_cells<W: fmt::Write>(out: &mut fmt::Formatter<W>, picture: &PlanPicture) -> fmt::Result {
    let (plan, places) = (picture.plan, picture.layout.places.as_slice());
    let ranks = plan.ranks as usize;
    for (number, (cell, place)) in plan.cells().iter().zip(places.iter()).enumerate() {
        let fault = fault_of(picture.answer, Item::Cell(number));
        draw_cell(out, number, cell, place, (number < ranks, fault))?;
    }
    Ok(())
}

/// The way of an arrow.
fn draw_way<W: fmt::Write>(out: &mut fmt::Formatter<W>, arrow: &Arrow) -> fmt::Result {
    let (from, to) = (arrow.from, arrow.to);
    svg::move_to(out, from)?;
    let Some(aside) = arrow.detour else {
        return svg::line_to(out, to);
    };
    let below = (aside, from.1.saturating_add(28));
    let above = (aside, to.1.saturating_sub(28));
    svg::curve_to(out, from, below)?;
    svg::line_to(out, above)?;
    svg::curve_to(out, above, to)
}

/// A link's arrow.
fn draw_link<W: fmt::Write>(
    out: &mut fmt::Formatter<W>,
    link: &Link,
    arrow: &Arrow,
    fault: Option<&str>,
) -> fmt::Result {
    let (kind, number) = (kind_word(arrow.kind), arrow.link);
    write!(out, "<path id=\"link-{number}\" ")?;
    match fault {
        None => svg::begin_arrow(out, kind)?,
        Some(_) => svg::begin_fault(out, kind)?,
    }
    draw_way(out, arrow)?;
    out.write_str("\"><title>")?;
    if let Some(words) = fault {
        write!(out, "{words}. ")?;
    }
    write!(out, "link {number}: {kind} of {} bytes", link.length)?;
    write!(out, " from {} of cell {}", link.source_offset, link.source)?;
    writeln!(
        out,
        " to {} of cell {}</title></path>",
        link.target_offset, link.target
    )
}

fn draw_links<W: fmt::Write>(out: &mut fmt::Formatter<W>, picture: &PlanPicture) -> fmt::Result {
    let links = picture.plan.links();
    for arrow in picture.layout.arrows.iter() {
        if let Some(link) = links.get(arrow.link) {
            let fault = fault_of(picture.answer, Item::Link(arrow.link));
            draw_link(out, link, arrow, fault)?;
        }
    }
    Ok(())
}

/// One kind of arrow and its word.
fn draw_key<W: fmt::Write>(out: &mut fmt::Formatter<W>, x: u64, kind: &str) -> fmt::Result {
    out.write_str("<path ")?;
    svg::begin_arrow(out, kind)?;
    svg::move_to(out, (x, 18))?;
    svg::line_to(out, (x.saturating_add(34), 18))?;
    out.write_str("\"/>")?;
    svg::begin_text(out, "left", (x.saturating_add(40), 21))?;
    writeln!(out, "{kind}</text>")
}

/// The three kinds of arrows.
fn draw_keys<W: fmt::Write>(out: &mut fmt::Formatter<W>) -> fmt::Result {
    draw_key(out, 24, "put")?;
    draw_key(out, 104, "atomic")?;
    draw_key(out, 194, "bump")
}

/// The name of a rank above its columns, and below them where it is done.
fn draw_rank<W: fmt::Write>(
    out: &mut fmt::Formatter<W>,
    span: &Span,
    done: u64,
    bottom: u64,
) -> fmt::Result {
    let x = span.left() + span.right().saturating_sub(span.left()) / 2;
    svg::begin_text(out, "rank", (x, 52))?;
    writeln!(out, "rank {}</text>", span.rank)?;
    svg::begin_text(out, "middle", (x, bottom))?;
    writeln!(out, "done at {done}</text>")
}

fn draw_ranks<W: fmt::Write>(
    out: &mut fmt::Formatter<W>,
    plan: &PlanText,
    spans: &[Span],
    bottom: u64,
) -> fmt::Result {
    for (span, done) in spans.iter().zip(plan.given.done().iter()) {
        draw_rank(out, span, *done, bottom)?;
    }
    if let Some(span) = spans.get(plan.ranks as usize) {
        svg::begin_text(out, "rank", (span.left() + BOX_WIDTH / 2, 52))?;
        out.write_str("no rank</text>\n")?;
    }
    Ok(())
}

/// What was answered of the plan, and of what.
fn draw_answer<W: fmt::Write>(out: &mut fmt::Formatter<W>, answer: &Answer) -> fmt::Result {
    if answer.words == "holds" {
        svg::begin_text(out, "left", (LEFT, 36))?;
        return out.write_str("holds</text>\n");
    }
    svg::fault_styles(out)?;
    svg::begin_text(out, "left fault", (LEFT, 36))?;
    out.write_str(answer.words)?;
    match answer.item {
        Item::Whole => {}
        Item::Cell(number) => write!(out, " (cell {number})")?,
        Item::Link(number) => write!(out, " (link {number})")?,
        Item::Done(rank) => write!(out, " (rank {rank})")?,
    }
    out.write_str("</text>\n")
}

/// The right edge of the drawing.
fn width_of(layout: &Layout) -> u64 {
    let mut width = 236u64;
    for span in layout.spans.iter() {
        width = width.max(span.right());
    }
    width.saturating_add(LEFT)
}

/// Takes the boxes of inputs, which belong to no step, out of the bands.
fn draw_inputs<W: fmt::Write>(out: &mut fmt::Formatter<W>, places: &[Place]) -> fmt::Result {
    for place in places {
        let at = (
            place.x().saturating_sub(BESIDE),
            place.y().saturating_sub(ABOVE),
        );
        svg::area(out, "paper", at, (ACROSS + BETWEEN_RANKS / 2, DOWN))?;
    }
    Ok(())
}

impl fmt::Display for PlanPicture<'_> {
    fn fmt<W: fmt::Write>(&self, f: &mut fmt::Formatter<W>) -> fmt::Result {
        let (plan, layout) = (self.plan, self.layout);
        let (places, spans) = (layout.places.as_slice(), layout.spans.as_slice());
        let bottom = TOP + u64::from(layout.heights) * DOWN;
        svg::begin(f, width_of(layout), bottom + 20)?;
        draw_strips(f, self.bands.strips.as_slice(), spans)?;
        if let Some(inputs) = places.get(plan.ranks as usize..self.bands.before) {
            draw_inputs(f, inputs)?;
        }
        draw_keys(f)?;
        draw_ranks(f, plan, spans, bottom)?;
        if let Some(answer) = &self.answer {
            draw_answer(f, answer)?;
        }
        draw_links(f, self)?;
        draw_cells(f, self)?;
        draw_names(f, plan, layout)?;
        svg::end(f)
    }
}
