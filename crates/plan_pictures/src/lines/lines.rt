//! The lines of a text, and where the texts in it begin and end.

ghost use Rattle.std.specs.Prelude.{◌≡◌, ◌<◌, ◌+◌, ◌-◌, ◌^◌, ◌++◌, IfOk, length};

use crate::lines::fault::{Refusal, TextFault};
use coll_text::{Words, cut, is};
use order_lines::first_end;

/// The most bytes that are read.
pub const LONGEST_TEXT: usize = 33_554_432;

/// The lines of a text that are left to read.
#[derive(Drop)]
pub struct Lines<'a> {
    rest: &'a [u8],
    number: u32,
}

/// Whether the first word of a text's first line is this one.
pub fn begins_with(text: &[u8], key: &[u8]) -> bool {
    let (line, _behind) = cut(text, b'\n');
    let (word, _others) = cut(line, b' ');
    is(word, key)
}

impl<'a> Lines<'a> {
    /// The lines of a text, the first of which has this number.
    pub fn of(text: &'a [u8], number: u32) -> Lines<'a> {
        Lines { rest: text, number }
    }

    /// The words of the next line. `None`: the rest of the text has no LF.
    pub fn take(&mut self) -> Option<Words<'a>> {
        let (line, after) = cut(self.rest, b'\n');
        self.rest = after?;
        self.number = self.number.saturating_add(1);
        Some(Words::of(line))
    }

    /// The bytes that are left.
    pub fn rest(&self) -> &'a [u8] {
        self.rest
    }

    /// The number of the next line.
    pub fn number(&self) -> u32 {
        self.number
    }

    /// The refusal of the next line.
    pub fn refused(&self, name: Refusal) -> TextFault {
        TextFault::Refused {
            line: self.number,
            name,
        }
    }
}

/// A text by its parts: a description up to its line `end`, the text of a plan up to its own, and what follows.
#[derive(Clone, Copy)]
pub struct Parts<'a> {
    /// The description; no bytes where none comes first.
    pub description: &'a [u8],
    /// The text of the plan; no bytes where none comes next.
    pub plan: &'a [u8],
    /// The number of the line with which the plan's text begins.
    pub first: u32,
    /// The rest.
    pub rest: &'a [u8],
    /// The number of the first line of the rest.
    pub line: u32,
}

/// The parts of a text.
///
/// # Errors
///
/// It is too long.
pub fn parts_of(text: &[u8]) -> Result<Parts<'_>, TextFault>
    ensures parts { IfOk result (λ p. text.now ≡ p.description.now ++ p.plan.now ++ p.rest.now) }
    ensures at_most { IfOk result (λ p. p.first + length p.plan.now < 2 ^ 32 - 1) }
{
    if text.len() > LONGEST_TEXT {
        return Err(TextFault::Refused {
            line: 0,
            name: Refusal::TooLong,
        });
    }
    let (at, first) = if begins_with(text, b"coll") {
        first_end(text)
    } else {
        (0, 1)
    };
    let behind = &text[at..];
    let (end, next) = if begins_with(behind, b"plan") {
        first_end(behind)
    } else {
        (0, 1)
    };
    Ok(Parts {
        description: &text[..at],
        plan: &behind[..end],
        first,
        rest: &behind[end..],
        line: first.saturating_add(next.saturating_sub(1)),
    })
}
