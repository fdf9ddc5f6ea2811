//! The device's own words for things of one sort.

ghost use Rattle.std.specs.Prelude.{◌≡◌, OnOk};
ghost use Rattle.std.specs.Option.{option_copied};
ghost use Rattle.log_answers.specs.names.Names.{bound, cleared, named, named_if, names_it, no_names, thing_of, word_of};

use crate::names::keys::{ByNumber, ByWord, Name};
use ptl_types::{Handle, NoMemory};
use std::alloc::Global;

/// The word that the thing of a slot was given, and that thing's stamp.
#[derive(Drop)]
pub struct Named {
    stamp: u64,
    word: Name,
}

/// What words name, for things of one sort at one rank. Of each slot the word of its newest thing is kept, so that there are never more
/// than the table has slots.
#[derive(Drop)]
pub struct Names {
    things: ByWord<Handle>,
    words: ByNumber<Named>,
}

impl Names {
    /// No words.
    pub fn new(alloc: Global) -> Names
        ensures { result ≡ no_names }
    {
        Names {
            things: ByWord::new(alloc),
            words: ByNumber::new(alloc),
        }
    }

    /// The thing that a word names, which may be gone.
    pub fn thing(&self, word: &[u8]) -> Option<Handle>
        ensures { result ≡ thing_of word.now self.now }
    {
        self.things.get(word)
    }

    /// The word of a thing.
    pub fn word(&self, handle: Handle) -> Option<&[u8]>
        ensures { option_copied result ≡ word_of handle self.now }
    {
        match self.words.get(u64::from(handle.slot)) {
            Some(named) => {
                if named.stamp == handle.stamp {
                    Some(named.word.as_slice())
                } else {
                    None
                }
            }
            None => None,
        }
    }

    /// Whether a word names this thing.
    fn names(&self, word: &[u8], thing: Handle) -> bool
        ensures { result ≡ names_it thing (thing_of word.now self.now) }
    {
        match self.things.get(word) {
            Some(named) => named.is(thing),
            None => false,
        }
    }

    /// The thing of a slot is gone: its word names nothing any more, where it named that.
    #[tactic(auto, unfolding(crate::specs::names::Names::cleared))]
    pub fn clear(&mut self, slot: u32)
        ensures { self.new ≡ cleared slot self.old }
    {
        let Some(named) = self.words.take(u64::from(slot)) else {
            return;
        };
        let gone = Handle {
            slot,
            stamp: named.stamp,
        };
        if self.names(named.word.as_slice(), gone) {
            self.things.remove(named.word.as_slice());
        }
    }

    /// A word for a new thing, whose slot is cleared.
    fn name(&mut self, alloc: Global, handle: Handle, word: &[u8]) -> Result<(), NoMemory>
        ensures { OnOk result (self.new ≡ named handle word.now self.old) }
    {
        let kept = Named {
            stamp: handle.stamp,
            word: Name::of(alloc, word)?,
        };
        self.things.put(alloc, word, handle)?;
        self.words.put(u64::from(handle.slot), kept)
    }

    /// The same, where there is a word.
    fn name_if(
        &mut self,
        alloc: Global,
        handle: Handle,
        word: Option<&[u8]>,
    ) -> Result<(), NoMemory>
        ensures { OnOk result (self.new ≡ named_if handle (option_copied word.entry) self.old) }
    {
        match word {
            Some(word) => self.name(alloc, handle, word),
            None => Ok(()),
        }
    }

    /// A new thing, with the word that the device gave for it, where it gave one. What its slot held before is gone.
    ///
    /// # Errors
    ///
    /// There was no memory; the words are some of those then.
    #[tactic(auto, unfolding(crate::specs::names::Names::bound))]
    pub fn bind(
        &mut self,
        alloc: Global,
        handle: Handle,
        word: Option<&[u8]>,
    ) -> Result<(), NoMemory>
        ensures { OnOk result (self.new ≡ bound handle (option_copied word.entry) self.old) }
    {
        self.clear(handle.slot);
        self.name_if(alloc, handle, word)
    }
}
