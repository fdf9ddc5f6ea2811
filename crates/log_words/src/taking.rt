//! The words of a call, taken from the left.

ghost use Rattle.std.specs.Prelude.{◌≡◌};
ghost use Rattle.log_words.specs.Reading.{yielded, next, name_next, amount_next, small_next, bytes_next};

use crate::amounts::{amount_at, is_hex_word, small_at};
use crate::faults::{Flaw, LineFault, at};
use crate::names::is_name_word;
use crate::words::{Rest, Word};

impl<'a> Rest<'a> {
    /// The next word, which must be there.
    #[tactic(auto, unfolding(crate::specs::Reading::next))]
    pub fn word(&mut self) -> Result<Word<'a>, LineFault>
        ensures { yielded result self.new ≡ next self.old }
    {
        let column = self.column();
        match self.next_of_call() {
            Some(word) => Ok(word),
            None => Err(at(column, Flaw::BadLine)),
        }
    }

    /// The next word as a name.
    #[tactic(auto, unfolding(crate::specs::Reading::name_next))]
    pub fn name(&mut self) -> Result<Word<'a>, LineFault>
        ensures { yielded result self.new ≡ name_next self.old }
    {
        let word = self.word()?;
        if is_name_word(word.text()) {
            Ok(word)
        } else {
            Err(at(word.column(), Flaw::BadWord))
        }
    }

    /// The next word as a number below 2^64.
    #[tactic(auto, unfolding(crate::specs::Reading::amount_next))]
    pub fn amount(&mut self) -> Result<u64, LineFault>
        ensures { yielded result self.new ≡ amount_next self.old }
    {
        let word = self.word()?;
        match amount_at(word.text()) {
            Some(n) => Ok(n),
            None => Err(at(word.column(), Flaw::BadNumber)),
        }
    }

    /// The next word as a number below 2^32.
    #[tactic(auto, unfolding(crate::specs::Reading::small_next))]
    pub fn small(&mut self) -> Result<u32, LineFault>
        ensures { yielded result self.new ≡ small_next self.old }
    {
        let word = self.word()?;
        match small_at(word.text()) {
            Some(n) => Ok(n),
            None => Err(at(word.column(), Flaw::BadNumber)),
        }
    }

    /// The next word as bytes, which stay a word.
    #[tactic(auto, unfolding(crate::specs::Reading::bytes_next))]
    pub fn bytes(&mut self) -> Result<Word<'a>, LineFault>
        ensures { yielded result self.new ≡ bytes_next self.old }
    {
        let word = self.word()?;
        if is_hex_word(word.text()) {
            Ok(word)
        } else {
            Err(at(word.column(), Flaw::BadHex))
        }
    }
}
