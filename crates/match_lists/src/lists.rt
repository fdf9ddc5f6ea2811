//! The two lists, each on linked nodes, and the table that tells where the entry of a slot is linked.
ghost use Rattle.std.specs.Prelude.{◌≡◌, ◌<◌, ◌≤◌, ◌+◌, ◌-◌, ◌*◌, ◌^◌, ◌++◌, ◌∷◌, [], ◌||◌, ◌↔◌, Some, None, false, IsSome, IsTrue, IfOk};
ghost use Rattle.std.specs.Prelude.{IfSome, get_or, option_copied};
ghost use Rattle.match_lists.specs.Slots.{where_linked, same_list};
ghost use Rattle.ni_model.specs.Append.{fresh};
ghost use Rattle.ni_model.specs.Arrive.{first_fit};
ghost use Rattle.ni_model.specs.Lists.{is_linked};
ghost use Rattle.ni_model.specs.Refusals.{entry_names_ct};
ghost use Rattle.match_lists.specs.Lists.{both, entries, with_entries, linked_count, candidates, has_slot, linked_as, named, entry_of};
ghost use Rattle.match_lists.specs.Lists.{running_of, with_running, without_entry, advanced_to, values};

use crate::match_list::MatchList;
use crate::walk::some_names;
use chain_list::{Chain, ChainKey, Places, Steps};
use ni_model::{Found, Linked};
use ptl_types::{Entry, Handle, Header, List, NoMemory};
use std::alloc::Global;
use std::marker::Model;
use std::sync::ledger::Ledger;

/// Where the entry of a slot is linked.
#[derive(Clone, Copy, Debug)]
pub struct LinkedAt {
    list: List,
    handle: Handle,
    key: ChainKey,
}

/// Where the entry of a handle is linked, by the table.
fn where_linked(table: &Places<Option<LinkedAt>>, handle: Handle) -> Option<LinkedAt>
    ensures { result ≡ where_linked handle (get_or table.now.items handle.slot None) }
{
    if handle.slot as usize >= table.len() {
        return None;
    }
    let linked_at = table.at(handle.slot as usize)?;
    if linked_at.handle.is(handle) {
        Some(linked_at)
    } else {
        None
    }
}

/// Whether both are the same list.
fn same_list(a: List, b: List) -> bool
    ensures { result ≡ same_list a b }
{
    a == b
}

/// The two lists of an index. Their value is the entries of each, in the order of appending, how many entries they have room
/// for together, below which number each handle's slot lies, and how many entries were appended. The bounds on nodes are of the
/// counter that a call is handed, where each node is counted whose entry, neighbours or look is read; a slot of the table that
/// tells where a handle's entry is linked is no node.
#[derive(Drop)]
pub struct Lists {
    priority: MatchList,
    overflow: MatchList,
    by_slot: Places<Option<LinkedAt>>,
    limit: u32,
    slots: u32,
}

impl Model for Lists {
    ghost use Rattle.match_lists.specs.Lists.{Both, both, values};
    ghost use Rattle.match_lists.specs.Fields.{IsLists};
    ghost use Rattle.std.specs.Prelude.{◌+◌};

    ghost Value = { Both };

    ghost view = { λ l. both (values l.priority.entries) (values l.overflow.entries) l.limit l.slots
        (l.priority.given + l.overflow.given) };

    ghost invariant = { λ l. IsLists l.priority l.overflow l.by_slot.items l.limit l.slots };
}

impl Lists {
    /// Two empty lists with room for `limit` entries together, whose handles have slots below `slots`. No later call has an
    /// answer for want of memory.
    pub fn open(alloc: Global, limit: u32, slots: u32) -> Result<Lists, NoMemory>
        ensures { IfOk result (λ l. l ≡ both [] [] limit slots 0) }
    {
        let by_slot = Places::open(alloc, None, slots as usize)?;
        let priority = MatchList::with_room(alloc, limit)?;
        let overflow = MatchList::with_room(alloc, limit)?;
        Ok(Lists {
            priority,
            overflow,
            by_slot,
            limit,
            slots,
        })
    }

    /// Links the entry at the end of one of the lists, with running offset 0. Counts at most three nodes; the links of two places
    /// on its thread are set beside that.
    pub fn append<L: Ledger>(
        &mut self,
        list: List,
        handle: Handle,
        entry: Entry,
        steps: &mut Steps<L>,
    )
        requires room { linked_count self.old < self.old.limit }
        requires slot { handle.slot < self.old.slots }
        requires free { has_slot handle.slot self.old ≡ false }
        requires keys { self.old.appended < 2 ^ 64 - 1 }
        ensures lists { self.new ≡ with_entries list (λ xs. xs ++ fresh handle entry ∷ []) (self.old.appended + 1) self.old }
        ensures steps { steps.new ≤ steps.old + 3 }
    {
        let linked = Linked {
            handle,
            running: 0,
            entry,
        };
        match list {
            List::Priority => {
                let key = self.priority.push_back(linked, steps);
                self.by_slot
                    .set(handle.slot as usize, Some(LinkedAt { list, handle, key }));
            }
            List::Overflow => {
                let key = self.overflow.push_back(linked, steps);
                self.by_slot
                    .set(handle.slot as usize, Some(LinkedAt { list, handle, key }));
            }
        }
    }

    /// Unlinks the entry of this handle and hands it back; `None` exactly where it isn't linked. Counts at most four nodes; the
    /// links of two places on its thread are set beside that.
    pub fn unlink<L: Ledger>(&mut self, handle: Handle, steps: &mut Steps<L>) -> Option<Entry>
        ensures entry { result ≡ entry_of (linked_as handle self.old) }
        ensures lists { self.new ≡ without_entry handle self.old }
        ensures steps { steps.new ≤ steps.old + 4 }
    {
        let (_priority, _overflow) = (self.priority.nodes(), self.overflow.nodes());
        let linked_at = where_linked(&self.by_slot, handle)?;
        match linked_at.list {
            List::Priority => {
                let Some(linked) = self.priority.unlink(linked_at.key, steps) else {
                    unreachable!()
                };
                self.by_slot.set(handle.slot as usize, None);
                Some(linked.entry)
            }
            List::Overflow => {
                let Some(linked) = self.overflow.unlink(linked_at.key, steps) else {
                    unreachable!()
                };
                self.by_slot.set(handle.slot as usize, None);
                Some(linked.entry)
            }
        }
    }

    /// The linked entry of a handle; `None` exactly where it isn't linked. Counts at most one node.
    fn linked_at<L: Ledger>(&self, handle: Handle, steps: &mut Steps<L>) -> Option<&Linked>
        ensures linked { option_copied result ≡ linked_as handle self.now }
        ensures steps { steps.new ≤ steps.old + 1 }
    {
        let (_priority, _overflow) = (self.priority.nodes(), self.overflow.nodes());
        let linked_at = where_linked(&self.by_slot, handle)?;
        match linked_at.list {
            List::Priority => self.priority.get(linked_at.key, steps),
            List::Overflow => self.overflow.get(linked_at.key, steps),
        }
    }

    /// The linked entry of a handle with its running offset; `None` exactly where it isn't linked. Counts at most one node.
    pub fn get<L: Ledger>(&self, handle: Handle, steps: &mut Steps<L>) -> Option<(&Entry, u64)>
        ensures entry { with_running result ≡ running_of (linked_as handle self.now) }
        ensures steps { steps.new ≤ steps.old + 1 }
    {
        match self.linked_at(handle, steps) {
            Some(linked) => Some((&linked.entry, linked.running)),
            None => None,
        }
    }

    /// Moves the running offset of a linked entry on, in bytes. Counts at most one node.
    pub fn advance<L: Ledger>(&mut self, handle: Handle, by: u64, steps: &mut Steps<L>)
        requires linked { IsSome (linked_as handle self.old) }
        requires fits { IfSome (linked_as handle self.old) (λ x. x.running + by < 2 ^ 64) }
        ensures lists { IfSome (linked_as handle self.old) (λ x. self.new ≡ advanced_to handle (x.running + by) self.old) }
        ensures steps { steps.new ≤ steps.old + 1 }
    {
        let (_priority, _overflow) = (self.priority.nodes(), self.overflow.nodes());
        let Some(linked_at) = where_linked(&self.by_slot, handle) else {
            unreachable!()
        };
        match linked_at.list {
            List::Priority => self.priority.advance(linked_at.key, by, steps),
            List::Overflow => self.overflow.advance(linked_at.key, by, steps),
        }
    }

    /// The entry that takes the message, with its list: the first of the priority list that fits, else, where `overflow` is
    /// true, the first of the overflow list that fits; `None` exactly where there is no such entry. Counts at most two nodes
    /// for each entry of the priority list whose match bits share the message's bucket, or that ignores some of them; and only
    /// where none of that list fits and `overflow` is true, as many for each such entry of the overflow list.
    pub fn find_entry<L: Ledger>(
        &self,
        header: &Header,
        overflow: bool,
        steps: &mut Steps<L>,
    ) -> Option<Found>
        ensures first { result ≡ first_fit header.now overflow self.now.priority self.now.overflow }
        ensures steps { steps.new ≤ steps.old + 2 * linked_count self.now }
        ensures at_most { steps.new ≤ steps.old + 2 * candidates header.now overflow self.now }
    {
        if let Some(linked) = self.priority.first_fit(header, steps) {
            return Some(Found {
                list: List::Priority,
                linked,
            });
        }
        if !overflow {
            return None;
        }
        match self.overflow.first_fit(header, steps) {
            Some(linked) => Some(Found {
                list: List::Overflow,
                linked,
            }),
            None => None,
        }
    }

    /// The list and the handle of the entry that takes the message, as `find_entry` chooses it.
    pub fn find<L: Ledger>(
        &self,
        header: &Header,
        overflow: bool,
        steps: &mut Steps<L>,
    ) -> Option<(List, Handle)>
        ensures first { result ≡ named (first_fit header.now overflow self.now.priority self.now.overflow) }
        ensures steps { steps.new ≤ steps.old + 2 * linked_count self.now }
        ensures at_most { steps.new ≤ steps.old + 2 * candidates header.now overflow self.now }
    {
        match self.find_entry(header, overflow, steps) {
            Some(found) => Some((found.list, found.linked.handle)),
            None => None,
        }
    }

    /// Whether no entry is linked in either list.
    pub fn is_empty(&self) -> bool
        ensures { IsTrue result ↔ ((self.now.priority ≡ []) × (self.now.overflow ≡ [])) }
    {
        self.priority.chain().first().is_none() && self.overflow.chain().first().is_none()
    }

    /// Whether the entry of this handle is linked in one of the lists. Counts no node.
    pub fn is_linked(&self, list: List, handle: Handle) -> bool
        ensures { result ≡ is_linked handle (entries list self.now) }
    {
        let (_priority, _overflow) = (self.priority.nodes(), self.overflow.nodes());
        match where_linked(&self.by_slot, handle) {
            Some(linked_at) => same_list(linked_at.list, list),
            None => false,
        }
    }

    /// Whether a linked entry names the counting event. Counts at most two nodes for each linked entry.
    pub fn names_ct<L: Ledger>(&self, ct: Handle, steps: &mut Steps<L>) -> bool
        ensures value { result ≡ (entry_names_ct ct self.now.priority || entry_names_ct ct self.now.overflow) }
        ensures steps { steps.new ≤ steps.old + 2 * linked_count self.now }
    {
        some_names(self.priority.chain(), ct, steps) || some_names(self.overflow.chain(), ct, steps)
    }

    /// The chain of one of the lists: its values are that list.
    pub fn chain(&self, list: List) -> &Chain<Linked>
        ensures { values result.now.entries ≡ entries list self.now }
    {
        match list {
            List::Priority => self.priority.chain(),
            List::Overflow => self.overflow.chain(),
        }
    }
}
