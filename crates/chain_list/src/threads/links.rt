//! The links of places along their threads.
ghost use Rattle.std.specs.Prelude.{◌≡◌, ◌<◌, ◌-◌, ◌^◌, Some, None, length, replicate, get_or, slice_set, IfOk, IfSome};
ghost use Rattle.chain_list.specs.threads.Nodes.{place_in, node_of};
ghost use Rattle.chain_list.specs.NodeMap.{node};
ghost use Rattle.chain_list.specs.Relinked.{places_after, places_before};

use crate::Places;
use ptl_types::NoMemory;
use std::alloc::Global;
use std::marker::Model;

/// What a place on a thread knows: the thread, and its neighbours there, each as the place and one, or 0 for none. Of a place on no
/// thread it says nothing.
#[derive(Clone, Copy, Debug)]
pub struct Link {
    thread: u32,
    before: u32,
    after: u32,
}

/// A neighbour as a link has it.
fn code_of(place: Option<u32>) -> u32
    requires { IfSome place (λ p. p < 2 ^ 32 - 1) }
    ensures { place_in result ≡ place }
{
    match place {
        Some(place) => place + 1,
        None => 0,
    }
}

/// The neighbour that a link has so.
fn place_in(code: u32) -> Option<u32>
    ensures { result ≡ place_in code }
{
    if code == 0 { None } else { Some(code - 1) }
}

impl Link {
    /// The thread.
    pub(crate) fn thread(self) -> u32
        ensures { result ≡ self.thread }
    {
        self.thread
    }

    /// The place before it.
    pub(crate) fn before(self) -> Option<u32>
        ensures { result ≡ place_in self.before }
    {
        place_in(self.before)
    }

    /// The place after it.
    pub(crate) fn after(self) -> Option<u32>
        ensures { result ≡ place_in self.after }
    {
        place_in(self.after)
    }
}

/// A link for each place; no page is touched beyond the highest place that was ever on a thread. A contract sees them as nodes whose
/// value is the thread.
#[derive(Drop)]
pub struct Links {
    links: Places<Link>,
}

impl Model for Links {
    ghost use Rattle.std.specs.Prelude.{ℕ, ◌<◌, ◌^◌, List, Option, length};
    ghost use Rattle.std.specs.Coded.{coded_list, coded_option, coded_ℕ};
    ghost use Rattle.chain_list.specs.NodeMap.{Node, node_code};

    ghost Value = { List (Option (Node ℕ)) };

    ghost coded = { coded_list (coded_option (node_code coded_ℕ)) };

    ghost use Rattle.chain_list.specs.threads.Nodes.{nodes_of};

    ghost view = { λ l. nodes_of l.links.items };

    // So that the code of each place fits.
    ghost invariant = { λ l. length l.links.items < 2 ^ 32 };
}

impl Links {
    /// Links of `len` places, with no neighbours.
    pub(crate) fn with_len(alloc: Global, len: usize) -> Result<Links, NoMemory>
        requires { len < 2 ^ 32 }
        ensures { IfOk result (λ l. l ≡ replicate len (Some (node 0 None None))) }
    {
        let none = Link {
            thread: 0,
            before: 0,
            after: 0,
        };
        let links = Places::open(alloc, none, len)?;
        Ok(Links { links })
    }

    /// The link of a place.
    pub(crate) fn at(&self, place: u32) -> Link
        requires { place < length self.now }
        ensures { get_or self.now place None ≡ node_of result }
    {
        self.links.at(place as usize)
    }

    /// Puts a place on a thread, with no neighbours.
    pub(crate) fn put(&mut self, place: u32, thread: u32)
        requires { place < length self.old }
        ensures { self.new ≡ slice_set self.old place (Some (node thread None None)) }
    {
        let link = Link {
            thread,
            before: 0,
            after: 0,
        };
        self.links.set(place as usize, link);
    }

    /// Puts a place on a thread, with its neighbours.
    pub(crate) fn put_between(
        &mut self,
        place: u32,
        thread: u32,
        before: Option<u32>,
        after: Option<u32>,
    )
        requires place { place < length self.old }
        requires before { IfSome before (λ p. p < length self.old) }
        requires after { IfSome after (λ p. p < length self.old) }
        ensures { self.new ≡ slice_set self.old place (Some (node thread before after)) }
    {
        let _links = &self.links;
        let before = code_of(before);
        let after = code_of(after);
        let link = Link {
            thread,
            before,
            after,
        };
        self.links.set(place as usize, link);
    }

    /// Sets which place comes after a place.
    pub(crate) fn set_after(&mut self, place: u32, to: Option<u32>)
        requires place { place < length self.old }
        requires to { IfSome to (λ p. p < length self.old) }
        ensures { self.new ≡ places_after (Some place) to self.old }
    {
        let _links = &self.links;
        let code = code_of(to);
        let mut link = self.links.at(place as usize);
        link.after = code;
        self.links.set(place as usize, link);
    }

    /// Sets which place comes before a place.
    pub(crate) fn set_before(&mut self, place: u32, to: Option<u32>)
        requires place { place < length self.old }
        requires to { IfSome to (λ p. p < length self.old) }
        ensures { self.new ≡ places_before (Some place) to self.old }
    {
        let _links = &self.links;
        let code = code_of(to);
        let mut link = self.links.at(place as usize);
        link.before = code;
        self.links.set(place as usize, link);
    }
}
