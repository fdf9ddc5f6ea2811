//! Reading a whole text.

ghost use Rattle.std.specs.Prelude.{◌≡◌, ◌<◌, ◌≤◌, ◌+◌, ◌^◌, true, false, length, IfOk};
ghost use Rattle.coll_text.specs.Text.{lines};
ghost use Rattle.coll_lang.specs.Language.{nothing, read, read_from, is_finished};
ghost use Rattle.coll_lang.specs.States.{past};
ghost use Rattle.coll_lang.specs.Blocks.{ReadsOn};
ghost use Rattle.coll_lang.specs.Verdicts.{Reads, fault_at};
ghost use Rattle.coll_lang.specs.Spelling.{text};
ghost use Rattle.coll_lang.specs.Readable.{IsReadable};

use crate::block::{ByThreads, InTurn, ReadAhead};
use crate::description::Description;
use crate::fault::{LineFault, ParseFault, Refusal};
use crate::reader::Reader;
use crate::stage::Stage;
use crate::take::{all_ranks, take_line};
use coll_shape::Version;
use coll_text::cut;
use std::alloc::{AllocError, Global};
use std::thread::Threads;

/// The most bytes of a description, and of the line text of one in JSON.
pub const LONGEST_TEXT: usize = 1_048_576;

/// A reader that no line was given yet.
fn new_reader(alloc: Global) -> Result<Reader, AllocError>
    ensures { IfOk result (λ reader. past reader ≡ nothing) }
{
    Ok(Reader {
        alloc,
        stage: Stage::Header,
        version: Version::One,
        ranks: 1,
        everyone: all_ranks(alloc, 1)?,
        remote: false,
        groups: Vec::new(alloc),
        buffers: Vec::new(alloc),
        inputs: 0,
        given: Vec::new(alloc),
        steps: Vec::new(alloc),
        on: Vec::new(alloc),
        choices: Vec::new(alloc),
        prints: Vec::new(alloc),
        printed: 0,
    })
}

/// Whether no line is due.
fn is_finished(stage: Stage) -> bool
    ensures { result ≡ is_finished stage }
{
    matches!(stage, Stage::Finished)
}

/// Takes the next line, which has this number. Answers the number of the line after it, and what is left.
#[tactic(auto, using(crate::proofs::Reading::goes_on, crate::proofs::Reading::breaks_off))]
fn next_line<'a>(
    reader: &mut Reader,
    number: u32,
    bytes: &'a [u8],
) -> Result<(u32, &'a [u8]), ParseFault>
    requires going { is_finished reader.old.stage ≡ false }
    requires at_most { number + length bytes.now < 2 ^ 32 }
    ensures read { ReadsOn result number bytes.now (past reader.old) (past reader.new) }
    ensures shorter { IfOk result (λ r. length r.1.now < length bytes.now) }
{
    let (line, Some(rest)) = cut(bytes, b'\n') else {
        return Err(refused(number, Refusal::Unended));
    };
    match take_line(reader, line) {
        Ok(()) => Ok((number + 1, rest)),
        Err(fault) => Err(fault_at(number, fault)),
    }
}

/// What was read, where nothing is left after the last line.
fn ended(reader: Reader, number: u32, rest: &[u8]) -> Result<Reader, ParseFault>
    requires done { is_finished reader.stage ≡ true }
    ensures { Reads past result (read_from (past reader) number (lines rest.now)) }
{
    if rest.is_empty() {
        Ok(reader)
    } else {
        Err(refused(number, Refusal::AfterEnd))
    }
}

/// What the lines say. Long runs of data lines may be taken ahead.
fn read_lines<A: ReadAhead>(alloc: Global, ahead: &A, bytes: &[u8]) -> Result<Reader, ParseFault>
    requires ready { A.ready ahead.now }
    requires short { length bytes.now ≤ LONGEST_TEXT }
    ensures { Reads past result (read_from nothing 1 (lines bytes.now)) }
{
    let mut reader = new_reader(alloc)?;
    let mut rest = bytes;
    let mut number = 1u32;
    while !is_finished(reader.stage) {
        let (next, behind) = next_line(&mut reader, number, rest)?;
        (number, rest) = ahead.read_ahead(&mut reader, next, behind)?;
    }
    ended(reader, number, rest)
}

/// A line's fault, with its number.
pub(crate) fn fault_at(line: u32, fault: LineFault) -> ParseFault
    ensures { result ≡ fault_at line fault }
{
    match fault {
        LineFault::Refused(name) => ParseFault::Refused { line, name },
        LineFault::NoMemory => ParseFault::NoMemory,
    }
}

/// The refusal of a line.
fn refused(line: u32, name: Refusal) -> ParseFault
    ensures { result ≡ ParseFault.Refused line name }
{
    ParseFault::Refused { line, name }
}

/// What a text describes, or its first refusal. Long runs of data lines may be taken ahead.
#[tactic(auto, unfolding(crate::specs::Language::read))]
fn parsed<A: ReadAhead>(alloc: Global, ahead: &A, bytes: &[u8]) -> Result<Description, ParseFault>
    requires { A.ready ahead.now }
    ensures { Reads (λ d. d) result (read bytes.now) }
{
    if bytes.len() > LONGEST_TEXT {
        return Err(refused(0, Refusal::TooLong));
    }
    let reader = read_lines(alloc, ahead, bytes)?;
    Ok(Description::of(reader))
}

/// Reads a description in one pass.
///
/// # Errors
///
/// The first refusal of the text with its line, or that there was no memory for the description.
pub fn parse(alloc: Global, bytes: &[u8]) -> Result<Description, ParseFault>
    // Unless memory runs out, it is what reading gives, both ways.
    ensures exact { Reads (λ d. d) result (read bytes.now) }
    // What is read has the text as its one spelling.
    ensures spelled { IfOk result (λ d. bytes.now ≡ text d) }
    ensures readable { IfOk result (λ d. IsReadable d) }
{
    parsed(alloc, &InTurn, bytes)
}

/// Reads a description, as `parse` does. Long runs of data lines are read by as many threads; where no thread can be started, the call
/// does its part itself.
///
/// # Errors
///
/// The first refusal of the text with its line, or that there was no memory for the description.
pub fn parse_by<R: Threads + Sync>(
    rt: &R,
    alloc: Global,
    threads: u32,
    bytes: &[u8],
) -> Result<Description, ParseFault>
    requires threads { 0 < threads }
    // Unless memory runs out, it is what reading gives, both ways.
    ensures exact { Reads (λ d. d) result (read bytes.now) }
    // What is read has the text as its one spelling.
    ensures spelled { IfOk result (λ d. bytes.now ≡ text d) }
    ensures readable { IfOk result (λ d. IsReadable d) }
{
    parsed(alloc, &ByThreads { rt, threads }, bytes)
}
