//! The threads.
ghost use Rattle.std.specs.Prelude.{◌≡◌, ℕ, ◌<◌, ◌^◌, false, [], length, replicate, IfOk, IfSome, IsTrue};
ghost use Rattle.chain_list.specs.threads.Threads.{woven, thread as thread_at, is_on, is_threaded, first_place, last_place, place_after};
ghost use Rattle.chain_list.specs.threads.Threads.{with_place, with_place_after, without_place, AreApart};

use crate::threads::ends::{Ends, next_of, set_next, set_previous};
use crate::threads::links::Links;
use ptl_types::NoMemory;
use std::alloc::Global;
use std::marker::Model;

/// The threads. Their value is, for each thread, the list of the places on it, and
/// below which number all places lie.
#[derive(Drop)]
pub struct Threads {
    links: Links,
    ends: Vec<Ends>,
}

impl Model for Threads {
    ghost use Rattle.std.specs.Prelude.{length};
    ghost use Rattle.chain_list.specs.threads.Threads.{Woven, woven};

    ghost Value = { Woven };

    ghost use Rattle.chain_list.specs.threads.Fields.{IsThreads, threads_of};

    ghost view = { λ t. woven (threads_of t.links t.ends.items) (length t.links) };

    ghost invariant = { λ t. IsThreads t.links t.ends.items (threads_of t.links t.ends.items) };
}

impl Threads {
    /// `count` empty threads for places below `places`, each of which has a number of 32 bits. No later call takes memory.
    pub fn open(alloc: Global, count: usize, places: usize) -> Result<Threads, NoMemory>
        requires { places < 2 ^ 32 }
        ensures { IfOk result (λ t. t ≡ woven (replicate count []) places) }
    {
        let none = Ends {
            first: None,
            last: None,
        };
        let Ok(ends) = Vec::from_elem(alloc, none, count) else {
            return Err(NoMemory);
        };
        let links = Links::with_len(alloc, places)?;
        Ok(Threads { links, ends })
    }

    /// Puts a place after the last of a thread. O(1).
    pub fn push_back(&mut self, thread: u32, place: u32)
        requires thread { thread < length self.old.threads }
        requires place { place < self.old.places }
        requires free { is_threaded place self.old ≡ false }
        ensures { self.new ≡ with_place thread place self.old }
    {
        let mut ends = self.ends[thread as usize];
        let last = ends.last;
        self.links.put(place, thread);
        set_next(&mut self.links, &mut ends, last, Some(place));
        set_previous(&mut self.links, &mut ends, Some(place), last);
        ends.last = Some(place);
        self.ends[thread as usize] = ends;
    }

    /// Puts a place on a thread after another one there, or before all. O(1).
    pub fn insert(&mut self, thread: u32, after: Option<u32>, place: u32)
        requires thread { thread < length self.old.threads }
        requires place { place < self.old.places }
        requires free { is_threaded place self.old ≡ false }
        requires there { IfSome after (λ p. IsTrue (is_on p (thread_at thread self.old))) }
        ensures { self.new ≡ with_place_after thread after place self.old }
    {
        let mut ends = self.ends[thread as usize];
        let next = next_of(&self.links, ends, after);
        self.links.put_between(place, thread, after, next);
        set_next(&mut self.links, &mut ends, after, Some(place));
        set_previous(&mut self.links, &mut ends, next, Some(place));
        self.ends[thread as usize] = ends;
    }

    /// Takes a place off its thread. O(1).
    pub fn unlink(&mut self, place: u32)
        requires { IsTrue (is_threaded place self.old) }
        ensures { self.new ≡ without_place place self.old }
    {
        let link = self.links.at(place);
        let (thread, before, after) = (link.thread() as usize, link.before(), link.after());
        let mut ends = self.ends[thread];
        set_next(&mut self.links, &mut ends, before, after);
        set_previous(&mut self.links, &mut ends, after, before);
        self.ends[thread] = ends;
    }

    /// The first place of a thread; `None` exactly where it is empty. O(1).
    pub fn first(&self, thread: u32) -> Option<u32>
        requires { thread < length self.now.threads }
        ensures { result ≡ first_place (thread_at thread self.now) }
    {
        let _links = &self.links;
        self.ends[thread as usize].first
    }

    /// The last place of a thread; `None` exactly where it is empty. O(1).
    pub fn last(&self, thread: u32) -> Option<u32>
        requires { thread < length self.now.threads }
        ensures last { result ≡ last_place (thread_at thread self.now) }
        ensures apart { AreApart (thread_at thread self.now) }
    {
        let _links = &self.links;
        self.ends[thread as usize].last
    }

    /// The place after one on its thread; `None` exactly where it is the last. O(1).
    pub fn next(&self, place: u32) -> Option<u32>
        requires { IsTrue (is_threaded place self.now) }
        ensures { (k : ℕ) → IsTrue (is_on place (thread_at k self.now)) → result ≡ place_after place (thread_at k self.now) }
    {
        let _ends = &self.ends;
        self.links.at(place).after()
    }
}
