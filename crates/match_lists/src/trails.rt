//! The threads through the places of a list's entries and the looks at these places, behind calls that count what they read.
ghost use Rattle.std.specs.Prelude.{◌≡◌, ℕ, ◌+◌, ◌<◌, ◌^◌, false, [], length, replicate, get_or, slice_set, IfOk, IsTrue};
ghost use Rattle.chain_list.specs.threads.Threads.{woven, thread as thread_at, is_on, is_threaded};
ghost use Rattle.chain_list.specs.threads.Threads.{first_place, place_after, with_place, without_place};
ghost use Rattle.match_lists.specs.declared.look.Look.{Look};
ghost use Rattle.match_lists.specs.Trails.{place_in};

use crate::look::{Look, no_look};
use chain_list::threads::Threads;
use chain_list::{Places, Steps};
use ptl_types::NoMemory;
use std::alloc::Global;
use std::sync::ledger::Ledger;

/// A place that a walk along a thread has come to. Which place it is, and what lies there, `Trails::visit` alone tells.
#[derive(Clone, Copy)]
pub struct Unseen {
    place: u32,
}

/// The same place, if there is one, to be visited.
fn to_visit(place: Option<u32>) -> Option<Unseen>
    ensures { place_in result ≡ place }
{
    match place {
        Some(place) => Some(Unseen { place }),
        None => None,
    }
}

/// Threads of places, and at each place a look. All that can be read of a place is read by `visit`, which counts it: so nobody
/// walks along a thread, or passes over looks, without counting each place. The calls that write tell nothing of a place, and
/// count nothing.
#[derive(Drop)]
pub struct Trails {
    threads: Threads,
    looks: Places<Look>,
}

impl Trails {
    /// `count` empty threads for places below `places`. No other call has an answer for want of memory.
    pub(crate) fn open(alloc: Global, count: usize, places: usize) -> Result<Trails, NoMemory>
        requires { places < 2 ^ 32 }
        ensures threads { IfOk result (λ t. t.threads ≡ woven (replicate count []) places) }
        ensures looks { IfOk result (λ t. length t.looks.items ≡ places) }
    {
        let threads = Threads::open(alloc, count, places)?;
        let looks = Places::open(alloc, no_look(), places)?;
        Ok(Trails { threads, looks })
    }

    /// Puts a place after the last of a thread, with its look. O(1).
    pub(crate) fn put(&mut self, thread: u32, place: u32, look: Look)
        requires thread { thread < length self.old.threads.threads }
        requires place { place < self.old.threads.places }
        requires free { is_threaded place self.old.threads ≡ false }
        requires look { place < length self.old.looks.items }
        ensures threads { self.new.threads ≡ with_place thread place self.old.threads }
        ensures looks { self.new.looks.items ≡ slice_set self.old.looks.items place look }
    {
        self.threads.push_back(thread, place);
        self.looks.set(place as usize, look);
    }

    /// Takes a place off its thread. O(1).
    pub(crate) fn take(&mut self, place: u32)
        requires { IsTrue (is_threaded place self.old.threads) }
        ensures threads { self.new.threads ≡ without_place place self.old.threads }
        ensures looks { self.new.looks.items ≡ self.old.looks.items }
    {
        self.threads.unlink(place);
    }

    /// Puts another look at a place. O(1).
    pub(crate) fn renew(&mut self, place: u32, look: Look)
        requires { place < length self.old.looks.items }
        ensures threads { self.new.threads ≡ self.old.threads }
        ensures looks { self.new.looks.items ≡ slice_set self.old.looks.items place look }
    {
        self.looks.set(place as usize, look);
    }

    /// The first place of a thread; `None` exactly where it is empty. O(1).
    pub(crate) fn first(&self, thread: u32) -> Option<Unseen>
        requires { thread < length self.now.threads.threads }
        ensures { place_in result ≡ first_place (thread_at thread self.now.threads) }
    {
        to_visit(self.threads.first(thread))
    }

    /// Visits a place: which it is, the place after it on its thread (`None` exactly where it is the last), and its look. Counts
    /// one node.
    pub(crate) fn visit<L: Ledger>(
        &self,
        at: Unseen,
        steps: &mut Steps<L>,
    ) -> (u32, Option<Unseen>, &Look)
        requires threaded { IsTrue (is_threaded at.place self.now.threads) }
        requires look { at.place < length self.now.looks.items }
        ensures place { result.0 ≡ at.place }
        ensures after { (k : ℕ) → IsTrue (is_on at.place (thread_at k self.now.threads))
            → place_in result.1 ≡ place_after at.place (thread_at k self.now.threads) }
        ensures look { (d : Look) → get_or self.now.looks.items at.place d ≡ result.2.now }
        ensures steps { steps.new ≡ steps.old + 1 }
    {
        steps.tick();
        // Read before the look, so that the way to the next place waits for nothing but itself.
        let after = self.threads.next(at.place);
        (at.place, to_visit(after), self.looks.get(at.place as usize))
    }
}
