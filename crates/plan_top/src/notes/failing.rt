//! What is said of a plan that isn't right.

ghost use Rattle.std.specs.Prelude.{◌≡◌, ◌<◌, ◌-◌, ◌/◌, ◌%◌, ◌^◌, min, nat_lt, length};
ghost use Rattle.mark_judge.specs.Due.{cell_of, due_of, mark_at};
ghost use Rattle.plan_top.specs.notes.Failing.{done_words, line_words, mark_words, of_cell, of_due, of_link, of_mark, place_words};
ghost use Rattle.plan_top.specs.notes.Failing.{cell_words, given_words, link_words};

use crate::notes::again::GivenText;
use crate::notes::counts::done_at;
use crate::notes::parts::{Subject, link_at, shown};
use crate::notes::table::{
    cell_message, early_message, link_message, missing_message, named_message, open_message,
};
use given_lines::Mark;
use given_verdicts::GivenCause;
use mark_judge::{Due, MarkFlaw};
use plan_core::Plan;
use plan_judge::{CellCause, LinkCause};
use ptl_types::Rank;
use text_notes::notes::Printable;

/// A place among so many lists, one a rank, by the list's number and the rank.
fn parted(place: u64, ranks: u64) -> (u64, u64)
    ensures input { result.0 ≡ place / ranks }
    ensures rank { result.1 ≡ place % ranks }
{
    if ranks == 0 {
        (0, place)
    } else {
        (place / ranks, place % ranks)
    }
}

/// A cell, and the input whose list it would hold.
fn of_cell(plan: &Plan, c: u64) -> Subject
    ensures { result ≡ of_cell plan.now c }
{
    let ranks = u64::from(plan.ranks());
    let (buffer, rank) = parted(c.saturating_sub(ranks), ranks);
    Subject {
        cell: c,
        source: 0,
        link: 0,
        buffer,
        rank,
        step: 0,
    }
}

/// A link, its source and its target, and the input whose list that would hold.
fn of_link(plan: &Plan, l: u64) -> Subject
    ensures { result ≡ of_link plan.now l }
{
    let link = link_at(plan, l);
    let target = of_cell(plan, u64::from(link.target));
    Subject {
        cell: target.cell,
        source: u64::from(link.source),
        link: l,
        buffer: target.buffer,
        rank: target.rank,
        step: 0,
    }
}

/// What a line is for, and the cell that it names.
fn of_due(due: Due, cell: u32) -> Subject
    ensures { result ≡ of_due due cell }
{
    let (buffer, step, rank) = match due {
        Due::Result { buffer, rank } => (buffer, 0, rank),
        Due::Enter { step, rank } | Due::Leave { step, rank } => (0, step, rank),
    };
    Subject {
        cell: u64::from(cell),
        source: 0,
        link: 0,
        buffer: u64::from(buffer),
        rank: u64::from(rank),
        step: u64::from(step),
    }
}

/// What a line that names a cell is for.
fn due_of(mark: Mark) -> Due
    ensures { result ≡ due_of mark }
{
    match mark {
        Mark::Result { buffer, rank, .. } => Due::Result { buffer, rank },
        Mark::Enter { step, rank, .. } => Due::Enter { step, rank },
        Mark::Leave { step, rank, .. } => Due::Leave { step, rank },
    }
}

/// The cell that a line names.
fn cell_of(mark: Mark) -> u32
    ensures { result ≡ cell_of mark }
{
    match mark {
        Mark::Result { cell, .. } | Mark::Enter { cell, .. } | Mark::Leave { cell, .. } => cell,
    }
}

/// The line of this number among those that name cells.
#[tactic(auto, using(std::proofs::lemmas::List::get_or_past))]
fn mark_at(marks: &[Mark], i: u32) -> Mark
    ensures { result ≡ mark_at marks.now i }
{
    match marks.get(i as usize) {
        Some(mark) => *mark,
        None => Mark::Result {
            buffer: 0,
            rank: 0,
            cell: 0,
        },
    }
}

/// What is said of a line that names a cell.
fn line_words(given: &GivenText, mark: Mark) -> Printable
    ensures { result ≡ line_words given.now mark }
{
    let (plan, cell) = (given.given.plan(), cell_of(mark));
    let is_there = (cell as usize) < plan.cells().len();
    let message = named_message(due_of(mark), is_there);
    shown(
        plan,
        given.description.shape(),
        of_due(due_of(mark), cell),
        message,
    )
}

/// What is said of the line of a rank's done counter.
fn done_words(given: &GivenText, r: Rank) -> Printable
    ensures { result ≡ done_words given.now r }
{
    let mut text = Printable::new();
    text.show(b"done ");
    text.show_number(u64::from(r));
    text.show(b" says ");
    text.show_number(given.given.done().get(r as usize).copied().unwrap_or(0));
    text.show(b"; the counter stands, when that rank is done, at ");
    text.show_number(done_at(given.given.plan(), r));
    text
}

/// What is said of a flaw in the lines after the links.
fn mark_words(given: &GivenText, flaw: MarkFlaw) -> Printable
    ensures { result ≡ mark_words given.now flaw }
{
    let plan = given.given.plan();
    let shape = given.description.shape();
    let marks = given.given.marks();
    match flaw {
        MarkFlaw::BadDone { rank } => done_words(given, rank),
        MarkFlaw::BadResult { mark } => line_words(given, mark_at(marks, mark)),
        MarkFlaw::NoResult { due } => shown(plan, shape, of_due(due, 0), missing_message(due)),
        MarkFlaw::EarlyEntry { mark } => {
            let mark = mark_at(marks, mark);
            shown(
                plan,
                shape,
                of_due(due_of(mark), cell_of(mark)),
                early_message(),
            )
        }
        MarkFlaw::BarrierOpen { mark } => {
            let mark = mark_at(marks, mark);
            shown(
                plan,
                shape,
                of_due(due_of(mark), cell_of(mark)),
                open_message(),
            )
        }
    }
}

/// What is said of the cell whose line this is.
fn cell_words(given: &GivenText, line: u64, cause: CellCause) -> Printable
    ensures { result ≡ cell_words given.now line cause }
{
    let plan = given.given.plan();
    let c = line.saturating_sub(u64::from(given.line) + 1);
    shown(
        plan,
        given.description.shape(),
        of_cell(plan, c),
        cell_message(cause),
    )
}

/// What is said of the link whose line this is.
fn link_words(given: &GivenText, line: u64, cause: LinkCause) -> Printable
    ensures { result ≡ link_words given.now line cause }
{
    let plan = given.given.plan();
    let cells = plan.cells().len() as u64;
    let l = line
        .saturating_sub(u64::from(given.line) + 1)
        .saturating_sub(cells);
    shown(
        plan,
        given.description.shape(),
        of_link(plan, l),
        link_message(cause),
    )
}

/// What is said of a cell, a link or a line after them that is at fault in this line; nothing of other causes.
pub(crate) fn given_words(given: &GivenText, line: u64, cause: &GivenCause) -> Printable
    ensures { result ≡ given_words given.now line cause.now }
{
    match cause {
        GivenCause::Cell(cause) => cell_words(given, line, *cause),
        GivenCause::Link(cause) => link_words(given, line, *cause),
        GivenCause::Mark(flaw) => mark_words(given, *flaw),
        GivenCause::Plan(_) | GivenCause::Value { .. } => Printable::new(),
    }
}

/// What is said of an element of a result, with these words after it.
pub(crate) fn place_words(name: &[u8], rank: Rank, place: u64, words: &[u8]) -> Printable
    ensures { result ≡ place_words name.now rank place words.now }
{
    let mut text = Printable::new();
    text.show(b"result ");
    text.show(name);
    text.show(b" ");
    text.show_number(u64::from(rank));
    text.show(b": element ");
    text.show_number(place);
    text.show(words);
    text
}
