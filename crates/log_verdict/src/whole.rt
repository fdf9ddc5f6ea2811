//! The verdict on a log that is there as a whole.

ghost use Rattle.std.specs.Prelude.{IfOk};
ghost use Rattle.log_verdict.specs.Judging.{IsVerdict};

use crate::judge::{Judge, Verdict};
use coll_text::cut;
use ptl_types::NoMemory;
use std::alloc::Global;

/// The verdict on a log. `any_order`: messages of one lane may overtake each other.
///
/// # Errors
///
/// There was no memory; there is no verdict then.
pub fn verdict_of(alloc: Global, any_order: bool, text: &[u8]) -> Result<Verdict, NoMemory>
    ensures { IfOk result (IsVerdict any_order text.now) }
{
    let mut judge = Judge::new(alloc, any_order);
    let mut rest = text;
    'lines: loop {
        let (line, after) = cut(rest, b'\n');
        let Some(after) = after else {
            return Ok(judge.end(line));
        };
        let judged = judge.judge_line(line)?;
        if let Some(verdict) = judged {
            return Ok(verdict);
        }
        rest = after;
    }
}
