//! An open interface, and what words name there.

ghost use Rattle.std.specs.Prelude.{◌≡◌, OnOk};
ghost use Rattle.std.specs.Option.{option_copied};
ghost use Rattle.log_seats.specs.Seats.{handle_if, handle_of, is_free, names_at, new_seat, operation_of, with_thing, without_thing};

use log_answers::Sort;
use log_answers::names::{Names, Postings};
use log_words::Word;
use log_words::call_fields::NO_HANDLE;
use portals_ni::Nic;
use ptl_types::{Handle, NoMemory};
use std::alloc::Global;

/// An open interface, with the words for its things and for the operations that wait there.
#[derive(Drop)]
pub struct Seat {
    /// The interface.
    pub nic: Nic,
    /// The words for counting events.
    pub counters: Names,
    /// The words for event queues.
    pub queues: Names,
    /// The words for descriptors.
    pub descriptors: Names,
    /// The words for entries.
    pub entries: Names,
    /// The words for the operations that wait.
    pub operations: Postings,
}

impl Seat {
    /// An interface of which nothing is named yet.
    pub fn new(alloc: Global, nic: Nic) -> Seat
        ensures { result ≡ new_seat nic }
    {
        Seat {
            nic,
            counters: Names::new(alloc),
            queues: Names::new(alloc),
            descriptors: Names::new(alloc),
            entries: Names::new(alloc),
            operations: Postings::new(alloc),
        }
    }

    /// The words for things of one sort.
    pub fn names(&self, sort: Sort) -> &Names
        ensures { result.now ≡ names_at sort self.now }
    {
        match sort {
            Sort::Counter => &self.counters,
            Sort::Queue => &self.queues,
            Sort::Descriptor => &self.descriptors,
            Sort::Entry => &self.entries,
        }
    }

    /// The handle that a word names. A word that names nothing is a handle that no thing has.
    pub fn handle(&self, sort: Sort, word: &Word) -> Handle
        ensures { result ≡ handle_of sort self.now word.now }
    {
        match self.names(sort).thing(word.text()) {
            Some(handle) => handle,
            None => NO_HANDLE,
        }
    }

    /// The handle that a word names, where there is a word.
    pub fn handle_if(&self, sort: Sort, word: &Option<Word>) -> Option<Handle>
        ensures { result ≡ handle_if sort self.now word.now }
    {
        match word {
            Some(word) => Some(self.handle(sort, word)),
            None => None,
        }
    }

    /// The number of the operation that a word names.
    pub fn operation(&self, word: &Word) -> Option<u32>
        ensures { result ≡ operation_of self.now word.now }
    {
        self.operations.number(word.text())
    }

    /// Whether a device may give this word for a new thing: no counting event, queue or descriptor that is there has it.
    pub fn is_free(&self, sort: Sort, word: &[u8]) -> bool
        ensures { result ≡ is_free sort self.now word.now }
    {
        match sort {
            Sort::Entry => true,
            _ => self.names(sort).thing(word).is_none(),
        }
    }

    /// A new thing, with its word where it has one.
    pub fn bind(
        &mut self,
        alloc: Global,
        sort: Sort,
        handle: Handle,
        word: Option<&[u8]>,
    ) -> Result<(), NoMemory>
        ensures { OnOk result (self.new ≡ with_thing sort handle (option_copied word.entry) self.old) }
    {
        match sort {
            Sort::Counter => self.counters.bind(alloc, handle, word),
            Sort::Queue => self.queues.bind(alloc, handle, word),
            Sort::Descriptor => self.descriptors.bind(alloc, handle, word),
            Sort::Entry => self.entries.bind(alloc, handle, word),
        }
    }

    /// A thing is gone; its word names nothing then.
    pub fn clear(&mut self, sort: Sort, handle: Handle)
        ensures { self.new ≡ without_thing sort handle self.old }
    {
        match sort {
            Sort::Counter => self.counters.clear(handle.slot),
            Sort::Queue => self.queues.clear(handle.slot),
            Sort::Descriptor => self.descriptors.clear(handle.slot),
            Sort::Entry => self.entries.clear(handle.slot),
        }
    }
}
