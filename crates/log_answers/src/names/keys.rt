//! Maps whose keys are words, and maps whose keys are numbers.

ghost use Rattle.std.specs.Prelude.{◌≡◌, [], IfOk, OnOk, option_copied};
ghost use Rattle.log_answers.specs.names.Keys.{number_lookup, with_number, with_word, without_number, without_word, word_lookup};

use ptl_types::NoMemory;
use std::alloc::Global;
use std::collections::BTreeMap;
use std::collections::btree_map::Iter;
use std::marker::Model;

/// A word that is kept.
#[derive(Drop)]
pub struct Name {
    bytes: Vec<u8>,
}

impl Model for Name {
    ghost use Rattle.std.specs.Prelude.{List, ℕ};

    ghost Value = { List ℕ };

    ghost view = { λ n. n.bytes.items };
}

impl Name {
    /// A copy of a word.
    pub fn of(alloc: Global, word: &[u8]) -> Result<Name, NoMemory>
        ensures { IfOk result (λ n. n ≡ word.now) }
    {
        let bytes = word.to_vec(alloc)?;
        Ok(Name { bytes })
    }

    /// Its bytes.
    pub fn as_slice(&self) -> &[u8]
        ensures { result.now ≡ self.now }
    {
        self.bytes.as_slice()
    }
}

/// What stands at each of some words.
#[derive(Drop)]
pub struct ByWord<X> {
    entries: BTreeMap<Vec<u8>, X>,
}

impl<X> Model for ByWord<X> {
    ghost use Rattle.std.specs.Prelude.{List, ℕ};

    ghost Value = { List (List ℕ × X) };

    ghost use Rattle.log_answers.specs.names.Keys.{words_of};

    ghost view = { λ m. words_of m.entries };
}

impl<X: Copy + Drop> ByWord<X> {
    /// No words.
    pub fn new(alloc: Global) -> ByWord<X>
        ensures { result ≡ [] }
    {
        ByWord {
            entries: BTreeMap::new(alloc),
        }
    }

    /// What stands at a word.
    pub fn get(&self, word: &[u8]) -> Option<X>
        ensures { result ≡ word_lookup word.now self.now }
    {
        self.entries.get(word).copied()
    }

    /// Puts something at a word, in place of what stood there.
    ///
    /// # Errors
    ///
    /// There was no memory; nothing changed then.
    pub fn put(&mut self, alloc: Global, word: &[u8], thing: X) -> Result<(), NoMemory>
        ensures { OnOk result (self.new ≡ with_word word.now thing self.old) }
    {
        let key = word.to_vec(alloc)?;
        let _ = self.entries.insert(key, thing)?;
        Ok(())
    }

    /// Nothing stands at a word any more.
    pub fn remove(&mut self, word: &[u8])
        ensures { self.new ≡ without_word word.now self.old }
    {
        let _ = self.entries.remove(word);
    }
}

/// What stands at each of some numbers.
#[derive(Drop)]
pub struct ByNumber<X> {
    entries: BTreeMap<u64, X>,
}

impl<X> Model for ByNumber<X> {
    ghost use Rattle.std.specs.Prelude.{List, ℕ};

    ghost Value = { List (ℕ × X) };

    ghost view = { λ m. m.entries.entries };
}

impl<X: Drop> ByNumber<X> {
    /// No numbers.
    pub fn new(alloc: Global) -> ByNumber<X>
        ensures { result ≡ [] }
    {
        ByNumber {
            entries: BTreeMap::new(alloc),
        }
    }

    /// What stands at a number.
    pub fn get(&self, number: u64) -> Option<&X>
        ensures { option_copied result ≡ number_lookup number self.now }
    {
        self.entries.get(&number)
    }

    /// All, by rising number.
    pub fn iter(&self) -> Iter<'_, u64, X>
        ensures { result ≡ self.now }
    {
        self.entries.iter()
    }

    /// Puts something at a number, in place of what stood there.
    ///
    /// # Errors
    ///
    /// There was no memory; nothing changed then.
    pub fn put(&mut self, number: u64, thing: X) -> Result<(), NoMemory>
        ensures { OnOk result (self.new ≡ with_number number thing self.old) }
    {
        let _ = self.entries.insert(number, thing)?;
        Ok(())
    }

    /// Takes what stands at a number.
    pub fn take(&mut self, number: u64) -> Option<X>
        ensures value { result ≡ number_lookup number self.old }
        ensures rest { self.new ≡ without_number number self.old }
    {
        self.entries.remove(&number)
    }
}
