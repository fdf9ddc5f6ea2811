//! Lines.

ghost use Rattle.std.specs.Prelude.{◌≡◌, ◌<◌, ◌≤◌, ◌&&◌, ◌==◌, length, not, IfNone, IfSome};
ghost use Rattle.std.specs.List.{list_all, list_any, position};
ghost use Rattle.coll_text.specs.Text.{is_empty, words};
ghost use Rattle.log_lines.specs.Lines.{alone, called, early_flaw, empty_flaw, is_allowed, is_note, line_of, loses, read_line, space_flaw};
ghost use Rattle.log_lines.specs.Lines.{tells, words_read};

use crate::calling::call_in;
use crate::calls::Call;
use coll_text::is;
use log_words::{Flaw, LineFault, Rest, Word, at, small_at};
use ptl_types::Rank;

/// The most bytes of a line, without its LF.
pub const LONGEST_LINE: usize = 16_777_216;

/// A line after the first two, and before `end`.
#[derive(Drop)]
pub enum Line<'a> {
    /// A comment.
    Note,
    /// What is said of a message under way: its word, and fields.
    Tells(Word<'a>, Rest<'a>),
    /// The message is lost.
    Loses(Word<'a>),
    /// All messages arrive and all ready operations fire.
    Settles,
    /// A call of a rank, and its answer.
    Calls(Rank, Call<'a>, Rest<'a>),
}

/// Whether the byte may not stand in a line.
fn is_barred(b: u8) -> bool
    ensures { result ≡ not (is_allowed b) }
{
    !matches!(b, b' '..=b'~')
}

/// The place of the first byte that may not stand in a line.
fn first_barred(line: &[u8]) -> Option<usize>
    ensures value { result ≡ position (λ b. not (is_allowed b)) line.now }
    ensures inside { IfSome result (λ place. place < length line.now) }
{
    line.iter().position(|b| is_barred(*b))
}

/// Whether the line is a comment.
fn is_note(line: &[u8]) -> bool
    ensures { result ≡ is_note line.now }
{
    match line.split_first() {
        Some((first, _)) => *first == b'#',
        None => false,
    }
}

/// The first empty word.
fn empty_flaw(mut words: Rest) -> Option<LineFault>
    ensures { result ≡ empty_flaw words.entry.words }
{
    while let Some(word) = words.next() {
        if word.text().is_empty() {
            return Some(at(word.column(), Flaw::BadSpace));
        }
    }
    None
}

/// The first space that may not stand there.
fn space_flaw(line: &[u8]) -> Option<LineFault>
    requires { length line.now ≤ LONGEST_LINE }
    ensures { result ≡ space_flaw line.now }
{
    if is_note(line) {
        return None;
    }
    empty_flaw(Rest::of(line))
}

/// Whether a byte ends a word as it begins.
fn ends_empty(begins: bool, b: u8) -> bool
    ensures { result ≡ (begins && b == 32) }
{
    begins && b == b' '
}

/// Whether each byte may stand in a line, and no word is empty: what most lines are, by one look at each byte.
fn is_plain(line: &[u8]) -> bool
    ensures { result ≡ (list_all is_allowed line.now && not (list_any is_empty (words line.now))) }
{
    let mut begins = true;
    for b in line {
        if is_barred(*b) {
            return false;
        }
        if ends_empty(begins, *b) {
            return false;
        }
        begins = *b == b' ';
    }
    !begins
}

/// The first byte or space that may not stand there.
#[tactic(auto, unfolding(crate::specs::Lines::early_flaw), using(crate::proofs::Plain::no_flaw))]
fn early_flaw(line: &[u8]) -> Option<LineFault>
    ensures value { result ≡ early_flaw line.now }
    ensures short { IfNone result (length line.now ≤ LONGEST_LINE) }
{
    if line.len() > LONGEST_LINE {
        return Some(at(LONGEST_LINE + 1, Flaw::TooLong));
    }
    if is_plain(line) {
        return None;
    }
    match first_barred(line) {
        Some(place) => Some(at(place + 1, Flaw::BadByte)),
        None => space_flaw(line),
    }
}

/// A line of which no word is left.
#[tactic(auto, unfolding(crate::specs::Lines::alone))]
fn alone<'a>(line: Line<'a>, mut words: Rest<'a>) -> Result<Line<'a>, LineFault>
    ensures { result ≡ alone line.entry words.entry }
{
    match words.next() {
        None => Ok(line),
        Some(word) => Err(at(word.column(), Flaw::BadLine)),
    }
}

/// A message that is lost.
#[tactic(auto, unfolding(crate::specs::Lines::loses))]
fn loses<'a>(mut words: Rest<'a>) -> Result<Line<'a>, LineFault>
    ensures { result ≡ loses words.entry }
{
    match words.name() {
        Ok(message) => alone(Line::Loses(message), words),
        Err(fault) => Err(fault),
    }
}

/// A call of the rank that a word is.
#[tactic(auto, unfolding(crate::specs::Lines::called))]
fn called<'a>(word: &Word<'a>, mut words: Rest<'a>) -> Result<Line<'a>, LineFault>
    ensures { result ≡ called word.now words.entry }
{
    let Some(rank) = small_at(word.text()) else {
        return Err(at(word.column(), Flaw::BadLine));
    };
    let call = match call_in(&mut words) {
        Ok(call) => call,
        Err(fault) => return Err(fault),
    };
    match words.said() {
        Ok(said) => Ok(Line::Calls(rank, call, said)),
        Err(fault) => Err(fault),
    }
}

/// A message of which something is said.
#[tactic(auto, unfolding(crate::specs::Lines::tells))]
fn tells<'a>(mut words: Rest<'a>) -> Result<Line<'a>, LineFault>
    ensures { result ≡ tells words.entry }
{
    match words.name() {
        Ok(message) => Ok(Line::Tells(message, words)),
        Err(fault) => Err(fault),
    }
}

/// The line that this word begins.
#[tactic(auto, unfolding(crate::specs::Lines::line_of))]
fn line_of<'a>(word: &Word<'a>, words: Rest<'a>) -> Result<Line<'a>, LineFault>
    ensures { result ≡ line_of word.now words.entry }
{
    let text = word.text();
    if is(text, b"message") {
        return tells(words);
    }
    if is(text, b"lose") {
        return loses(words);
    }
    if is(text, b"settle") {
        return alone(Line::Settles, words);
    }
    called(word, words)
}

/// The line that the words are.
#[tactic(auto, unfolding(crate::specs::Lines::words_read))]
fn words_read(line: &[u8]) -> Result<Line, LineFault>
    requires { length line.now ≤ LONGEST_LINE }
    ensures { result ≡ words_read line.now }
{
    if is_note(line) {
        return Ok(Line::Note);
    }
    let mut words = Rest::of(line);
    match words.word() {
        Ok(word) => line_of(&word, words),
        Err(fault) => Err(fault),
    }
}

/// Reads a line between the first two and `end`.
///
/// # Errors
///
/// The first flaw with its column.
#[tactic(auto, unfolding(crate::specs::Lines::read_line))]
pub fn read_line(line: &[u8]) -> Result<Line, LineFault>
    ensures exact { result ≡ read_line line.now }
{
    match early_flaw(line) {
        Some(fault) => Err(fault),
        None => words_read(line),
    }
}
