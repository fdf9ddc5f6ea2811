//! The triggered operations that wait.

ghost use Rattle.std.specs.Prelude.{◌≡◌, ◌++◌, ◌∷◌, [], IfOk, OnOk, option_copied, if◌then◌else◌};
ghost use Rattle.log_answers.specs.names.Postings.{cancelled, each_removed, no_postings, number_of, posted, removed, waiting_on};
ghost use Rattle.log_answers.specs.names.Postings.{word_of_number};

use crate::names::keys::{ByNumber, ByWord, Name};
use ptl_types::{Handle, NoMemory};
use std::alloc::Global;

/// What an operation waits on, and its word.
#[derive(Drop)]
pub struct Waiting {
    ct: Handle,
    word: Name,
}

/// The triggered operations of an interface that wait, and the log's words for them.
#[derive(Drop)]
pub struct Postings {
    numbers: ByWord<u32>,
    waiting: ByNumber<Waiting>,
}

/// One number more, where it is one of those that are asked for.
fn push_if(found: &mut Vec<u64>, is_one: bool, number: u64) -> Result<(), NoMemory>
    ensures { OnOk result (found.new.items ≡ found.old.items ++ (if is_one then number ∷ [] else [])) }
{
    if is_one {
        found.push(number)?;
    }
    Ok(())
}

/// The numbers of those that wait on a counting event.
fn waiting_on(alloc: Global, waiting: &ByNumber<Waiting>, ct: Handle) -> Result<Vec<u64>, NoMemory>
    ensures { IfOk result (λ v. v.items ≡ waiting_on ct waiting.now) }
{
    let mut found = Vec::new(alloc);
    for (number, kept) in waiting.iter() {
        push_if(&mut found, kept.ct.is(ct), *number)?;
    }
    Ok(found)
}

impl Postings {
    /// None.
    pub fn new(alloc: Global) -> Postings
        ensures { result ≡ no_postings }
    {
        Postings {
            numbers: ByWord::new(alloc),
            waiting: ByNumber::new(alloc),
        }
    }

    /// The number of the operation of a word.
    pub fn number(&self, word: &[u8]) -> Option<u32>
        ensures { result ≡ number_of word.now self.now }
    {
        self.numbers.get(word)
    }

    /// The word of the operation of a number.
    pub fn word(&self, number: u32) -> Option<&[u8]>
        ensures { option_copied result ≡ word_of_number number self.now }
    {
        match self.waiting.get(u64::from(number)) {
            Some(waiting) => Some(waiting.word.as_slice()),
            None => None,
        }
    }

    /// One more operation, which waits on this counting event.
    ///
    /// # Errors
    ///
    /// There was no memory; the words are some of those then.
    #[tactic(auto, unfolding(crate::specs::names::Postings::posted))]
    pub fn post(
        &mut self,
        alloc: Global,
        number: u32,
        ct: Handle,
        word: &[u8],
    ) -> Result<(), NoMemory>
        ensures { OnOk result (self.new ≡ posted number ct word.now self.old) }
    {
        let kept = Waiting {
            ct,
            word: Name::of(alloc, word)?,
        };
        self.numbers.put(alloc, word, number)?;
        self.waiting.put(u64::from(number), kept)
    }

    /// The operation of a number waits no longer.
    #[tactic(auto, unfolding(crate::specs::names::Postings::removed))]
    fn remove_at(&mut self, number: u64)
        ensures { self.new ≡ removed number self.old }
    {
        let Some(waiting) = self.waiting.take(number) else {
            return;
        };
        self.numbers.remove(waiting.word.as_slice());
    }

    /// The operation of a number waits no longer.
    pub fn remove(&mut self, number: u32)
        ensures { self.new ≡ removed number self.old }
    {
        self.remove_at(u64::from(number));
    }

    /// Those of these numbers wait no longer.
    fn remove_each(&mut self, numbers: &[u64])
        ensures { self.new ≡ each_removed numbers.now self.old }
    {
        for number in numbers {
            self.remove_at(*number);
        }
    }

    /// Those that wait on a counting event wait no longer.
    ///
    /// # Errors
    ///
    /// There was no memory; nothing changed then.
    #[tactic(auto, unfolding(crate::specs::names::Postings::cancelled))]
    pub fn cancel(&mut self, alloc: Global, ct: Handle) -> Result<(), NoMemory>
        ensures { OnOk result (self.new ≡ cancelled ct self.old) }
    {
        let numbers = waiting_on(alloc, &self.waiting, ct)?;
        self.remove_each(numbers.as_slice());
        Ok(())
    }
}
