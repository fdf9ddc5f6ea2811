//! The lines that name cells of results and barriers.

ghost use Rattle.std.specs.Prelude.{◌≡◌, ◌+◌, ◌<◌, ◌^◌, if◌then◌else◌, length};
ghost use Rattle.coll_text.specs.Text.{is_empty, lines};
ghost use Rattle.coll_lang.specs.Language.{buffer_number};
ghost use Rattle.given_lines.specs.Given.{marks_from};
ghost use Rattle.given_lines.specs.Reads.{Reads};
ghost use Rattle.given_lines.specs.Words.{enter_of, leave_of, mark_of, mark_with, result_of};
ghost use Rattle.given_lines.specs.declared.fault.GivenRefusal.TheVariants.{AfterEnd};

use crate::fault::{GivenFault, GivenRefusal};
use crate::given::Mark;
use crate::lines::Lines;
use crate::words::short_of;
use coll_shape::Buffer;
use coll_text::{Words, is};
use std::alloc::Global;

/// The place of the buffer of that name. There are at most 128.
fn buffer_place(buffers: &[Buffer], name: &[u8]) -> Option<usize>
    ensures { result ≡ buffer_number buffers.now name.now }
{
    buffers.iter().position(|b| is(b.name.as_slice(), name))
}

/// The number of the buffer of that name.
fn buffer_number(buffers: &[Buffer], name: &[u8]) -> Option<u32>
    requires { length buffers.now < 2 ^ 32 }
    ensures { result ≡ buffer_number buffers.now name.now }
{
    let at = buffer_place(buffers, name)?;
    Some(at as u32)
}

/// The cell of a result, of the words after the first.
fn result_of(buffers: &[Buffer], name: &[u8], rank: &[u8], cell: &[u8]) -> Option<Mark>
    requires { length buffers.now < 2 ^ 32 }
    ensures { result ≡ result_of buffers.now name.now rank.now cell.now }
{
    Some(Mark::Result {
        buffer: buffer_number(buffers, name)?,
        rank: short_of(rank)?,
        cell: short_of(cell)?,
    })
}

/// A cell at which a barrier is entered.
fn enter_of(step: &[u8], rank: &[u8], cell: &[u8]) -> Option<Mark>
    ensures { result ≡ enter_of step.now rank.now cell.now }
{
    Some(Mark::Enter {
        step: short_of(step)?,
        rank: short_of(rank)?,
        cell: short_of(cell)?,
    })
}

/// A cell at which it is left.
fn leave_of(step: &[u8], rank: &[u8], cell: &[u8]) -> Option<Mark>
    ensures { result ≡ leave_of step.now rank.now cell.now }
{
    Some(Mark::Leave {
        step: short_of(step)?,
        rank: short_of(rank)?,
        cell: short_of(cell)?,
    })
}

/// The cell that a line of these words names.
fn mark_with(buffers: &[Buffer], key: &[u8], what: &[u8], rank: &[u8], cell: &[u8]) -> Option<Mark>
    requires { length buffers.now < 2 ^ 32 }
    ensures { result ≡ mark_with buffers.now key.now what.now rank.now cell.now }
{
    if is(key, b"result") {
        result_of(buffers, what, rank, cell)
    } else if is(key, b"enter") {
        enter_of(what, rank, cell)
    } else if is(key, b"leave") {
        leave_of(what, rank, cell)
    } else {
        None
    }
}

/// The cell that a line names.
#[tactic(auto, unfolding(crate::specs::Words::mark_of))]
fn mark_of(buffers: &[Buffer], mut words: Words) -> Option<Mark>
    requires { length buffers.now < 2 ^ 32 }
    ensures { result ≡ mark_of buffers.now words.entry }
{
    let (key, what) = (words.next()?, words.next()?);
    let (rank, cell) = (words.next()?, words.next()?);
    match words.next() {
        Some(_) => None,
        None => mark_with(buffers, key, what, rank, cell),
    }
}

/// These cells, where nothing stands after the line `end`.
fn ended(marks: Vec<Mark>, left: &Lines) -> Result<Vec<Mark>, GivenFault>
    ensures { Reads (λ cells. cells.items) result
        (if is_empty left.now.rest.now then Ok marks.items else Err (left.now.number, AfterEnd)) }
{
    if left.is_at_end() {
        Ok(marks)
    } else {
        Err(left.refused(GivenRefusal::AfterEnd))
    }
}

/// The named cells up to the line `end`, after which nothing may stand.
#[tactic(auto, using(crate::proofs::MarksRead::begins))]
pub(crate) fn marks_in(
    alloc: Global,
    buffers: &[Buffer],
    left: &mut Lines,
) -> Result<Vec<Mark>, GivenFault>
    requires at_most { left.old.number + length left.old.rest.now < 2 ^ 32 }
    requires buffers { length buffers.now < 2 ^ 32 }
    ensures { Reads (λ marks. marks.items) result (marks_from buffers.now left.old.number (lines left.old.rest.now)) }
{
    let mut marks = Vec::new(alloc);
    loop {
        let bad = left.refused(GivenRefusal::BadPlan);
        let line = left.take()?;
        if is(line, b"end") {
            return ended(marks, left);
        }
        match mark_of(buffers, Words::of(line)) {
            Some(mark) => marks.push(mark)?,
            None => return Err(bad),
        }
    }
}
