//! Reading bytes as a description, in either spelling.

ghost use Rattle.std.specs.Prelude.{◌<◌, ◌≡◌, IfErr};
ghost use Rattle.coll_lang.specs.Verdicts.{Reads};
ghost use Rattle.portals_top.specs.Formats.{read_as, with_line};
ghost use Rattle.json_lang.specs.Reading.{read_json};
ghost use Rattle.text_notes.specs.Places.{IsNamed};
ghost use Rattle.portals_top.specs.Explained.{PointsAt};

use crate::words::Format;
use coll_lang::{Description, ParseFault, Refusal, parse_by};
use json_lang::notes::explain_json;
use json_lang::parse_json;
use std::alloc::Global;
use std::thread::Threads;
use text_notes::explain_text;
use text_notes::notes::Note;

/// Reads JSON as a description.
fn parse_in_json(alloc: Global, bytes: &[u8]) -> Result<Description, ParseFault>
    ensures { Reads (λ d. d) result (with_line (read_json bytes.now)) }
{
    match parse_json(alloc, bytes) {
        Ok(d) => Ok(d),
        Err(fault) => match fault.refusal() {
            Some((line, name)) => Err(ParseFault::Refused { line, name }),
            None => Err(ParseFault::NoMemory),
        },
    }
}

/// Reads bytes as a description that is spelled so. Lines of text are read by so many threads.
fn parse_as<R: Threads + Sync>(
    rt: &R,
    alloc: Global,
    threads: u32,
    format: Format,
    bytes: &[u8],
) -> Result<Description, ParseFault>
    requires threads { 0 < threads }
    ensures { Reads (λ d. d) result (read_as format bytes.now) }
{
    match format {
        Format::Text => parse_by(rt, alloc, threads, bytes),
        Format::Json => parse_in_json(alloc, bytes),
    }
}

/// The note of bytes of this spelling that are refused so.
fn explained(alloc: Global, format: Format, bytes: &[u8], line: u32, name: Refusal) -> Note
    ensures line { result.line ≡ line }
    ensures name { IsNamed name result.about }
{
    match format {
        Format::Text => explain_text(bytes, line, name),
        Format::Json => explain_json(alloc, bytes, line, name),
    }
}

/// Reads bytes, as `parse_as` does. The note of a refusal is kept.
fn parse_noted<R: Threads + Sync>(
    rt: &R,
    alloc: Global,
    threads: u32,
    format: Format,
    bytes: &[u8],
    told: &mut Option<Note>,
) -> Result<Description, ParseFault>
    requires threads { 0 < threads }
    ensures read { Reads (λ d. d) result (read_as format bytes.now) }
    ensures told { IfErr result (λ fault. PointsAt fault told.new) }
{
    match parse_as(rt, alloc, threads, format, bytes) {
        Ok(d) => Ok(d),
        Err(ParseFault::NoMemory) => Err(ParseFault::NoMemory),
        Err(ParseFault::Refused { line, name }) => {
            *told = Some(explained(alloc, format, bytes, line, name));
            Err(ParseFault::Refused { line, name })
        }
    }
}

/// Reads a text, as `parse_noted` does, and gives it back.
pub(crate) fn parse_text<R: Threads + Sync>(
    rt: &R,
    alloc: Global,
    threads: u32,
    format: Format,
    text: Vec<u8>,
    told: &mut Option<Note>,
) -> Result<Description, ParseFault>
    requires threads { 0 < threads }
    ensures read { Reads (λ d. d) result (read_as format text.items) }
    ensures told { IfErr result (λ fault. PointsAt fault told.new) }
{
    parse_noted(rt, alloc, threads, format, text.as_slice(), told)
}
