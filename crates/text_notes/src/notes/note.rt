//! Notes.

ghost use Rattle.std.specs.Prelude.{◌≡◌};
ghost use Rattle.text_notes.specs.notes.Notes.{cut_word};

use crate::notes::cause::Cause;
use crate::notes::printable::Printable;
use ptl_types::{Cause as Failure, Rank};

/// How many bytes of a word are shown at most.
pub const SHOWN: usize = 20;

/// What a note is about.
#[derive(Clone, Copy, Debug, PartialEq, Eq)]
pub enum About {
    /// A text is refused.
    Refused(Cause),
    /// Orders fail.
    Fails {
        /// The rank whose order fails.
        rank: Rank,
        /// The place of the step among the rank's own, from 1.
        place: u64,
        /// Why.
        cause: Failure,
    },
}

/// Why a text is refused, or why its orders fail, and where.
#[derive(Drop)]
pub struct Note {
    /// The line, counted from 1; 0 is the whole text.
    pub line: u32,
    /// The column of the first byte of what stands there, in bytes from 1; 0 is none.
    pub column: u32,
    /// The place in JSON; empty in a text.
    pub path: Printable,
    /// What it is about.
    pub about: About,
    /// What stands in the column, as `cut_word` shows it.
    pub found: Printable,
}

/// A word as a note shows it: of a long one the first 20 bytes and `..`.
pub fn cut_word(word: &[u8]) -> Printable
    ensures { result ≡ cut_word word.now }
{
    let mut text = Printable::new();
    if word.len() > SHOWN {
        text.show(&word[..SHOWN]);
        text.show(b"..");
    } else {
        text.show(word);
    }
    text
}
