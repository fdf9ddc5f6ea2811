//! The fields and flags of a call, in any order, each at most once.

ghost use Rattle.std.specs.Prelude.{◌≡◌, ℕ, List, Option, Result};
ghost use Rattle.log_words.specs.Words.{Word as WordSaid};
ghost use Rattle.log_words.specs.Reading.{yielded, fields_next};
ghost use Rattle.log_words.specs.declared.faults.Flaw.{Flaw as FlawSaid};

use crate::faults::{Flaw, LineFault, at};
use crate::words::{Rest, Word, has_key};

/// What fields are of: a field changes one thing of it.
pub trait HasFields<'a>: Drop + Sized {
    ghost set: { List ℕ → Option WordSaid → Self → Result Self FlawSaid };

    /// What it is with the field of this key. `value` is the word behind `=`, or `None` of a flag.
    ///
    /// # Errors
    ///
    /// There is no such field, or its value has a flaw.
    fn with(self, key: &[u8], value: Option<Word<'a>>) -> Result<Self, Flaw>
        ensures { result ≡ set key.now value.entry self };
}

/// The fields that are left of a call, of what it is without any.
///
/// # Errors
///
/// The first field that stands a second time, or has a flaw.
#[tactic(auto, unfolding(crate::specs::Reading::fields_next))]
pub fn fields_of<'a, T: HasFields<'a>>(plain: T, words: &mut Rest<'a>) -> Result<T, LineFault>
    ensures { yielded result words.new ≡ fields_next T.set plain words.old }
{
    let first = words.again();
    let mut count = 0usize;
    let mut of = plain;
    while let Some(word) = words.next_of_call() {
        let (key, value) = word.field();
        if has_key(first.again(), count, &word) {
            return Err(at(word.column(), Flaw::WordTwice));
        }
        of = match of.with(key, value) {
            Ok(of) => of,
            Err(flaw) => return Err(at(word.column(), flaw)),
        };
        count += 1;
    }
    Ok(of)
}
