//! Notes of refused texts.

ghost use Rattle.std.specs.Prelude.{◌≡◌, ◌≤◌, List, ℕ, [], length};
ghost use Rattle.text_notes.specs.notes.Causes.{name_of};
ghost use Rattle.coll_lang.specs.declared.fault.Refusal.TheVariants as names;
ghost use Rattle.text_notes.specs.declared.notes.note.About.{About};
ghost use Rattle.text_notes.specs.Places.{IsNamed, Stands, line_at, line_of_order};

use crate::flaws::{
    excess, group_flaw, header_word, limit, members_of, most_ranks, need, new_name, number_flaw,
    ranks_word, read_name,
};
use crate::keys::after_key;
use crate::lines::line_flaw;
use crate::notes::{About, Cause, FormFlaw, Note, Printable, cut_word};
use crate::orders::order_flaw;
use crate::places::{strange_place, word_place};
use crate::standing::{Standing, standing_at};
use coll_lang::{LONGEST_TEXT, Refusal};
use coll_shape::Version;
use coll_text::cut;
use order_lines::{LONGEST_CHECK, first_end};
use ptl_types::{Cause as Failure, Rank};

/// What of a line is to blame.
#[derive(Clone, Copy)]
enum Blame {
    /// Nothing that stands in a column.
    Whole,
    /// The first byte that may stand in no line.
    Byte,
    /// The word of this number, from 0.
    Word(usize),
}

/// The most bytes that were allowed of an input of so many.
fn most_bytes(length: usize) -> u32 {
    if length > LONGEST_CHECK {
        LONGEST_CHECK as u32
    } else {
        LONGEST_TEXT as u32
    }
}

/// Of a text that is too long.
fn too_long(bytes: &[u8]) -> (Blame, Cause)
    ensures { name_of result.1 ≡ names.TooLong }
{
    let most = most_bytes(bytes.len());
    (Blame::Whole, Cause::TooLong { most })
}

/// Of line 2.
fn bad_ranks(line: &[u8], version: Version) -> (Blame, Cause)
    ensures { name_of result.1 ≡ names.BadRanks }
{
    let most = most_ranks(version);
    (
        Blame::Word(ranks_word(line, most)),
        Cause::BadRanks { most },
    )
}

/// Of a malformed line.
fn bad_line(line: &[u8], standing: Standing) -> (Blame, Cause)
    ensures { name_of result.1 ≡ names.BadLine }
{
    let (number, flaw) = line_flaw(line, standing);
    (Blame::Word(number), Cause::BadLine(flaw))
}

/// Of a word that is no number of its kind.
fn bad_number(line: &[u8], standing: Standing) -> (Blame, Cause)
    ensures { name_of result.1 ≡ names.BadNumber }
{
    let (number, flaw) = number_flaw(line, standing);
    (Blame::Word(number), Cause::BadNumber(flaw))
}

/// Of a root that is no place.
fn bad_root(bytes: &[u8], line: &[u8], ranks: u32) -> (Blame, Cause)
    ensures { name_of result.1 ≡ names.BadRoot }
{
    let members = members_of(bytes, line, ranks);
    (Blame::Word(after_key(line)), Cause::BadRoot { members })
}

/// Of a line that makes one thing too many.
fn too_many(line: &[u8], steps: usize) -> (Blame, Cause)
    ensures { name_of result.1 ≡ names.TooMany }
{
    let (number, flaw) = limit(line, steps);
    (Blame::Word(number), Cause::TooMany(flaw))
}

/// Of a line that makes something too large.
fn too_large(line: &[u8]) -> (Blame, Cause)
    ensures { name_of result.1 ≡ names.TooLarge }
{
    let (number, flaw) = excess(line);
    (Blame::Word(number), Cause::TooLarge(flaw))
}

/// Of an order line.
fn bad_order(line: &[u8], standing: Standing) -> (Blame, Cause)
    ensures { name_of result.1 ≡ names.BadOrder }
{
    let (number, flaw) = order_flaw(line, standing.ranks, standing.orders);
    (Blame::Word(number), Cause::BadOrder(flaw))
}

/// Of a group or the name of one.
fn bad_group(line: &[u8], ranks: u32) -> (Blame, Cause)
    ensures { name_of result.1 ≡ names.BadGroup }
{
    let (number, flaw) = group_flaw(line, ranks);
    (Blame::Word(number), Cause::BadGroup(flaw))
}

/// What of a line is to blame for a refusal, and why.
fn blamed(bytes: &[u8], line: &[u8], standing: Standing, name: Refusal) -> (Blame, Cause)
    ensures { name_of result.1 ≡ name }
{
    match name {
        Refusal::TooLong => too_long(bytes),
        Refusal::BadByte => (Blame::Byte, Cause::BadByte),
        Refusal::BadHeader => (Blame::Word(header_word(line)), Cause::BadHeader),
        Refusal::BadRanks => bad_ranks(line, standing.version),
        Refusal::BadLine => bad_line(line, standing),
        Refusal::BadNumber => bad_number(line, standing),
        Refusal::NameTaken => (Blame::Word(new_name(line)), Cause::NameTaken),
        Refusal::UnknownBuffer => (Blame::Word(read_name(line)), Cause::UnknownBuffer),
        Refusal::BadRoot => bad_root(bytes, line, standing.ranks),
        Refusal::WrongShape => (Blame::Word(read_name(line)), Cause::WrongShape(need(line))),
        Refusal::TooMany => too_many(line, standing.steps),
        Refusal::TooLarge => too_large(line),
        Refusal::Unended => (Blame::Word(0), Cause::Unended),
        Refusal::AfterEnd => (Blame::Word(0), Cause::AfterEnd),
        Refusal::BadOrder => bad_order(line, standing),
        Refusal::BadGroup => bad_group(line, standing.ranks),
        Refusal::BadJson => (Blame::Whole, Cause::BadJson),
        Refusal::BadForm => (Blame::Whole, Cause::BadForm(FormFlaw::NoObject)),
        Refusal::OneThread => (Blame::Whole, Cause::OneThread),
    }
}

/// The line of that number, counted from 1; an empty one where there is none.
#[tactic(auto, using(crate::proofs::Cutting::one_on, crate::proofs::Cutting::none_on, crate::proofs::Cutting::first))]
pub fn line_at(bytes: &[u8], number: u32) -> &[u8]
    ensures { result.now ≡ line_at bytes.now number }
{
    let mut rest = bytes;
    let mut left = number.saturating_sub(1);
    while left > 0 {
        let (_, Some(later)) = cut(rest, b'\n') else {
            return &[];
        };
        rest = later;
        left -= 1;
    }
    cut(rest, b'\n').0
}

/// A note without a column.
pub fn plain_note(line: u32, about: About) -> Note
    ensures line { result.line ≡ line }
    ensures about { result.about ≡ about }
    ensures path { result.path ≡ [] }
    ensures stands { (text : List ℕ) → Stands text result }
{
    Note {
        line,
        column: 0,
        path: Printable::new(),
        about,
        found: Printable::new(),
    }
}

/// A note of what stands at a place of a line.
fn placed_note(number: u32, line: &[u8], place: (usize, usize), about: About) -> Note
    requires order { place.0 ≤ place.1 }
    requires within { place.1 ≤ length line.now }
    ensures line { result.line ≡ number }
    ensures about { result.about ≡ about }
    ensures path { result.path ≡ [] }
    ensures stands { Stands line.now result }
{
    let (start, end) = place;
    if start >= u32::MAX as usize {
        return plain_note(number, about);
    }
    Note {
        line: number,
        column: start as u32 + 1,
        path: Printable::new(),
        about,
        found: cut_word(&line[start..end]),
    }
}

/// A note of what is to blame of a line.
fn blamed_note(number: u32, line: &[u8], blame: Blame, about: About) -> Note
    ensures line { result.line ≡ number }
    ensures about { result.about ≡ about }
    ensures path { result.path ≡ [] }
    ensures stands { Stands line.now result }
{
    match blame {
        Blame::Whole => plain_note(number, about),
        Blame::Byte => placed_note(number, line, strange_place(line), about),
        Blame::Word(word) => placed_note(number, line, word_place(line, word), about),
    }
}

/// The note of a text, or of a text and orders after it, that is refused so: the line and the name are those that reading answers.
pub fn explain_text(bytes: &[u8], number: u32, name: Refusal) -> Note
    ensures line { result.line ≡ number }
    ensures name { IsNamed name result.about }
    ensures path { result.path ≡ [] }
    // What it shows stands in its column of that line.
    ensures stands { Stands (line_at bytes.now number) result }
{
    let line = line_at(bytes, number);
    let standing = standing_at(bytes, number);
    let (blame, cause) = blamed(bytes, line, standing, name);
    blamed_note(number, line, blame, About::Refused(cause))
}

/// The number of the line of a rank's order. A text that is too long to be read has none: 0.
fn line_of_order(bytes: &[u8], rank: Rank) -> u32
    ensures { length bytes.now ≤ LONGEST_CHECK → result ≡ line_of_order bytes.now rank }
{
    if bytes.len() > LONGEST_CHECK {
        0
    } else {
        first_end(bytes).1.saturating_add(rank)
    }
}

/// The note of orders that fail at a step of a rank: it points at the step's word in the rank's order line.
pub fn explain_fails(bytes: &[u8], rank: Rank, place: u64, cause: Failure) -> Note
    // Of a text that is read it is the rank's own line.
    ensures line { length bytes.now ≤ LONGEST_CHECK → result.line ≡ line_of_order bytes.now rank }
    ensures about { result.about ≡ About.Fails rank place cause }
    ensures path { result.path ≡ [] }
    // What it shows stands in its column of that line.
    ensures stands { Stands (line_at bytes.now result.line) result }
{
    let number = line_of_order(bytes, rank);
    let line = line_at(bytes, number);
    let word = usize::try_from(place.saturating_add(1)).unwrap_or(usize::MAX);
    let about = About::Fails { rank, place, cause };
    blamed_note(number, line, Blame::Word(word), about)
}
