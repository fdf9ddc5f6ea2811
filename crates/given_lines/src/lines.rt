//! The lines of a text that are left to read.

ghost use Rattle.std.specs.Prelude.{◌≡◌, ◌==◌, ◌+◌, ◌<◌, ◌^◌, OnOk, length};
ghost use Rattle.given_lines.specs.Reads.{TakesLine};
ghost use Rattle.given_lines.specs.declared.fault.GivenFault.TheVariants.{Refused};

use crate::fault::{GivenFault, GivenRefusal};
use coll_text::cut;

/// The rest of a text, and the number of its first line.
#[derive(Drop)]
pub(crate) struct Lines<'a> {
    pub(crate) rest: &'a [u8],
    pub(crate) number: u32,
}

impl<'a> Lines<'a> {
    /// The refusal of the next line.
    pub(crate) fn refused(&self, name: GivenRefusal) -> GivenFault
        ensures { result ≡ Refused self.now.number name }
    {
        GivenFault::Refused {
            line: self.number,
            name,
        }
    }

    /// Whether no byte is left.
    pub(crate) fn is_at_end(&self) -> bool
        ensures { result ≡ (length self.now.rest.now == 0) }
    {
        self.rest.is_empty()
    }

    /// The next line without its LF.
    pub(crate) fn take(&mut self) -> Result<&'a [u8], GivenFault>
        requires { self.old.number + length self.old.rest.now < 2 ^ 32 }
        ensures taken { TakesLine self.old.rest.now self.old.number result self.new.rest.now self.new.number }
        ensures at_most { self.new.number + length self.new.rest.now < 2 ^ 32 }
        ensures shorter { OnOk result (length self.new.rest.now < length self.old.rest.now) }
    {
        let (line, after) = cut(self.rest, b'\n');
        match after {
            None => Err(self.refused(GivenRefusal::Unended)),
            Some(after) => {
                self.rest = after;
                self.number += 1;
                Ok(line)
            }
        }
    }
}
