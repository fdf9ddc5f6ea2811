//! Which line of a plan's text is due, and what is said of a text that is refused there.

ghost use Rattle.std.specs.Prelude.{◌≡◌};
ghost use Rattle.plan_top.specs.notes.Dues.{due_at, due_in, head_of, number_of, refused_words, with_due};

use coll_text::{Words, number_between};
use given_lines::GivenRefusal;
use given_verdicts::LONGEST_GIVEN;
use order_lines::first_end;
use text_notes::line_at;
use text_notes::notes::Printable;

/// What the first line of a plan's text says.
#[derive(Clone, Copy)]
pub(crate) struct Head {
    /// How many ranks the plan has.
    pub ranks: u32,
    /// How many cells.
    pub cells: u32,
    /// How many links.
    pub links: u32,
}

/// A line of a plan's text that is due.
#[derive(Clone, Copy)]
pub(crate) enum DueLine {
    /// The first one.
    Head,
    /// That of a cell.
    Cell(u64),
    /// That of a link.
    Link(u64),
    /// That of a rank's done counter.
    Done(u64),
    /// One that names a cell, or the last.
    Mark,
}

/// The number that a word is; 0 for another word.
fn number_of(word: &[u8]) -> u32
    ensures { result ≡ number_of word.now }
{
    number_between(0, u32::MAX, word).unwrap_or(0)
}

/// What these words of a line say as the first one of a plan's text. None: they are too few.
#[tactic(auto, unfolding(crate::specs::notes::Dues::head_of))]
fn head_of<'a>(mut words: Words<'a>) -> Option<Head>
    ensures { result ≡ head_of words.entry }
{
    let (_key, ranks) = (words.next()?, words.next()?);
    let (cells, links) = (words.next()?, words.next()?);
    Some(Head {
        ranks: number_of(ranks),
        cells: number_of(cells),
        links: number_of(links),
    })
}

/// The line that is due so many lines after the first one, which says this.
fn due_in(head: Option<Head>, row: u64) -> DueLine
    ensures { result ≡ due_in head row }
{
    let Some(head) = head else {
        return DueLine::Head;
    };
    let (cells, links) = (u64::from(head.cells), u64::from(head.links));
    if row == 0 {
        DueLine::Head
    } else if row <= cells {
        DueLine::Cell(row - 1)
    } else if row <= cells + links {
        DueLine::Link(row - 1 - cells)
    } else if row <= cells + links + u64::from(head.ranks) {
        DueLine::Done(row - 1 - cells - links)
    } else {
        DueLine::Mark
    }
}

/// The line of a plan's text that is due as this line of a text in which it follows a description.
fn due_at(text: &[u8], line: u32) -> DueLine
    ensures { result ≡ due_at text.now line }
{
    if text.len() > LONGEST_GIVEN {
        return DueLine::Head;
    }
    let first = first_end(text).1;
    let head = head_of(Words::of(line_at(text, first)));
    due_in(head, u64::from(line.saturating_sub(first)))
}

/// Adds the form of the line that is due.
fn show_due(text: &mut Printable, due: DueLine)
    ensures { text.new ≡ with_due text.old due }
{
    match due {
        DueLine::Head => text.show(b"plan RANKS CELLS LINKS, and local or remote"),
        DueLine::Cell(c) => {
            text.show(b"cell ");
            text.show_number(c);
            text.show(b" RANK TYPE OP LENGTH NEEDS");
        }
        DueLine::Link(l) => {
            text.show(b"link ");
            text.show_number(l);
            text.show(b" SOURCE SOURCE_OFFSET LENGTH TARGET TARGET_OFFSET KIND");
        }
        DueLine::Done(r) => {
            text.show(b"done ");
            text.show_number(r);
            text.show(b" THRESHOLD");
        }
        DueLine::Mark => text.show(
            b"result NAME RANK CELL, enter STEP RANK CELL, leave STEP RANK CELL, or end",
        ),
    }
}

/// What is said of a text that is refused in a line of its plan.
pub(crate) fn refused_words(text: &[u8], line: u32, name: GivenRefusal) -> Printable
    ensures { result ≡ refused_words text.now line name }
{
    let mut said = Printable::new();
    match name {
        GivenRefusal::BadPlan => {
            said.show(b"this line is due: ");
            show_due(&mut said, due_at(text, line));
        }
        GivenRefusal::TooMany => said.show(b"the plan has more than 500000 links"),
        GivenRefusal::Unended => {
            said.show(b"no line feed stands here or after it; this line is due: ");
            show_due(&mut said, due_at(text, line));
        }
        GivenRefusal::AfterEnd => said.show(b"something stands after the line end"),
    }
    said
}
