//! The program over any source and any sink.

ghost use Rattle.std.specs.Prelude.{◌≡◌, map, string_bytes};
ghost use Rattle.run_text.specs.Ending.{Written};
ghost use Rattle.log_top.specs.Answered.{AnswersSome, Does, asked, both_of, mode_in, order_in};
ghost use Rattle.log_top.specs.Telling.{owed_usage};

use crate::ending::{Ended, explain};
use crate::filling::fill;
use crate::judging::judge;
use crate::serving::serve;
use port_io::{Sink, Source};
use run_text::{Status, write_short};
use std::alloc::Global;

const USAGE: &[u8] = b"usage: portals_log judge | fill | serve [any-order]\n";

/// What is asked for.
#[derive(Clone, Copy, Debug, PartialEq, Eq)]
pub(crate) enum Mode {
    /// The verdict.
    Judge,
    /// The log with the answers that are owed.
    Fill,
    /// An answer to each line at once.
    Serve,
}

/// What the first word asks for.
fn mode_in(word: &str) -> Option<Mode>
    ensures { result ≡ mode_in word.now }
{
    if word == "judge" {
        Some(Mode::Judge)
    } else if word == "fill" {
        Some(Mode::Fill)
    } else if word == "serve" {
        Some(Mode::Serve)
    } else {
        None
    }
}

/// Whether the other words are `any-order`, or none.
fn order_in(words: &[String]) -> Option<bool>
    ensures { result ≡ order_in (map string_bytes words.now) }
{
    let Some((word, rest)) = words.split_first() else {
        return Some(false);
    };
    if word.as_str() == "any-order" && rest.is_empty() {
        Some(true)
    } else {
        None
    }
}

/// Both, where both are asked for.
fn both_of(mode: Option<Mode>, any_order: Option<bool>) -> Option<(Mode, bool)>
    ensures { result ≡ both_of mode any_order }
{
    match (mode, any_order) {
        (Some(mode), Some(any_order)) => Some((mode, any_order)),
        _ => None,
    }
}

/// What the words ask for, and whether messages of one lane may overtake each other.
fn asked(words: &[String]) -> Option<(Mode, bool)>
    ensures { result ≡ asked (map string_bytes words.now) }
{
    let Some((first, others)) = words.split_first() else {
        return None;
    };
    both_of(mode_in(first.as_str()), order_in(others))
}

/// Writes the usage line.
fn usage<K: Sink>(sink: &mut K) -> Status
    ensures { Written owed_usage (K.outflow sink.old) (K.outflow sink.new) result }
{
    match write_short(sink, USAGE) {
        Ok(()) => Status::Usage,
        Err(_) => Status::WriteFault,
    }
}

/// The whole program but what is said on standard error.
fn answered<S: Source, K: Sink>(
    alloc: Global,
    words: &[String],
    source: &mut S,
    sink: &mut K,
) -> Ended
    ensures { AnswersSome (asked (map string_bytes words.now)) (S.inflow source.old) (S.inflow source.new) (K.outflow sink.old)
        (K.outflow sink.new) result }
{
    match asked(words) {
        Some((Mode::Judge, any_order)) => judge(alloc, any_order, source, sink),
        Some((Mode::Fill, any_order)) => fill(alloc, any_order, source, sink),
        Some((Mode::Serve, any_order)) => Ended::alone(serve(alloc, any_order, source, sink)),
        None => Ended::alone(usage(sink)),
    }
}

/// The whole program: what the words ask for is done with the log that the source has, and how it ended is answered. The words are those
/// of the command line without the program's name: `judge`, `fill` or `serve`, and behind it `any-order` where the messages of one lane
/// may overtake each other. All others get the usage line, and leave the source unread.
///
/// `judge` writes the verdict on a log. `fill` writes a log of calls without answers with those that are owed; where it isn't a log, the
/// verdict stands behind what was filled in. `serve` writes a line for each line, before it reads the next: the answer that is owed, `ok`
/// where none is, or the refusal, after which all is as it was.
///
/// Where memory is lacking, `judge` has written nothing, and takes none once it writes; `fill` has written a beginning of the log with its
/// answers, `serve` the answers to some first lines. Of a source that fails the same holds; of a sink that fails it took a beginning of
/// what was due.
///
/// Of a source that doesn't tell its bytes there are bytes for which all this holds; of a sink that doesn't tell what it took nothing is
/// said of the text. What a person is to know of a refusal or a fault stands in `notes`. What fails there changes nothing.
pub fn log_main<S: Source, K: Sink, N: Sink>(
    alloc: Global,
    words: &[String],
    source: &mut S,
    sink: &mut K,
    notes: &mut N,
) -> Status
    ensures { Does (asked (map string_bytes words.now)) (S.inflow source.old) (S.inflow source.new) (K.outflow sink.old)
        (K.outflow sink.new) (N.outflow notes.old) (N.outflow notes.new) result }
{
    let ended = answered(alloc, words, source, sink);
    explain(notes, ended);
    ended.status
}
