//! A portal table entry: whether an index is allocated there, its event queue and its two lists.

ghost use Rattle.std.specs.Prelude.{◌≡◌, ◌+◌, ◌++◌, ◌∷◌, [], ℕ, true, None, Some, All, IfOk, is_some, nat_lt, ◌||◌, slice_set};
ghost use Rattle.ptl_types.specs.Kinds.{is_put_or_atomic};
ghost use Rattle.ni_model.specs.Arrive.{choose, chosen, first_fit};
ghost use Rattle.ni_model.specs.Append.{fresh, linked_at};
ghost use Rattle.ni_model.specs.Calls.{unlinked_in, new_index};
ghost use Rattle.ni_model.specs.Lists.{queue_of, index_at, entries_in, is_linked};
ghost use Rattle.ni_model.specs.Refusals.{entry_names_ct};
ghost use Rattle.match_lists.specs.Lists.{with_entries, without_entry, linked_as};
ghost use Rattle.target_engine.specs.PortalTable.{index, seen, seen_ref, seen_in, linked_in, updated_lists, updated_in, AreEmpty, HasLists};
ghost use Rattle.target_engine.specs.PortalTable.{IsPortalEntry, IsUnused, MayAppend, MayLink};

use crate::measures::{delivered, is_over, is_put_or_atomic, running_after};
use chain_list::Steps;
use match_lists::Lists;
use ni_model::Found;
use ptl_types::{Entry, Handle, Header, List, NoMemory};
use std::alloc::Global;
use std::marker::Brand;
use std::sync::ledger::{Blank, Ledger};

/// A portal table entry. It has its two lists, with all their room, from the opening on.
#[derive(Drop)]
pub struct Index {
    /// Whether an index is allocated here. Where none is, the lists are empty.
    pub allocated: bool,
    /// Its event queue, if it has one.
    pub eq: Option<Handle>,
    /// Its priority list and its overflow list.
    pub lists: Lists,
}

// The lists count the nodes that a call visits. Each of these calls has a counter of its own.

/// The entry that takes the message; the overflow list is for puts and atomics alone.
fn find_entry<L: Ledger>(blank: Blank, lists: &Lists, header: &Header) -> Option<Found>
    requires name { blank.name ≡ L.name }
    requires parts { blank.parts ≡ L.parts }
    requires one { blank.parts ≡ 1 }
    ensures { result ≡ first_fit header.now (is_put_or_atomic header.now.kind) lists.now.priority lists.now.overflow }
{
    let mut steps = Steps::<L>::start(blank);
    lists.find_entry(header, is_put_or_atomic(header.kind), &mut steps)
}

/// Links an entry at the end of a list.
fn append<L: Ledger>(blank: Blank, lists: &mut Lists, list: List, handle: Handle, entry: Entry)
    requires name { blank.name ≡ L.name }
    requires parts { blank.parts ≡ L.parts }
    requires one { blank.parts ≡ 1 }
    requires may { MayAppend handle.slot lists.old }
    ensures { lists.new ≡ with_entries list (λ xs. xs ++ fresh handle entry ∷ []) (lists.old.appended + 1) lists.old }
{
    let mut steps = Steps::<L>::start(blank);
    lists.append(list, handle, entry, &mut steps);
}

/// Unlinks an entry from the list that holds it, if one does.
fn unlink<L: Ledger>(blank: Blank, lists: &mut Lists, me: Handle)
    requires name { blank.name ≡ L.name }
    requires parts { blank.parts ≡ L.parts }
    requires one { blank.parts ≡ 1 }
    ensures { lists.new ≡ without_entry me lists.old }
{
    let mut steps = Steps::<L>::start(blank);
    let _ = lists.unlink(me, &mut steps);
}

/// Whether an entry of one of the lists names the counting event.
fn names_ct<L: Ledger>(blank: Blank, lists: &Lists, ct: Handle) -> bool
    requires name { blank.name ≡ L.name }
    requires parts { blank.parts ≡ L.parts }
    requires one { blank.parts ≡ 1 }
    ensures { result ≡ (entry_names_ct ct lists.now.priority || entry_names_ct ct lists.now.overflow) }
{
    let mut steps = Steps::<L>::start(blank);
    lists.names_ct(ct, &mut steps)
}

/// What becomes of the entry that took the message: unlinked, advanced or left as it is.
fn update_entry<L: Ledger>(blank: Blank, lists: &mut Lists, found: &Found, header: &Header)
    requires name { blank.name ≡ L.name }
    requires parts { blank.parts ≡ L.parts }
    requires one { blank.parts ≡ 1 }
    requires there { linked_as found.now.linked.handle lists.old ≡ Some found.now.linked }
    ensures { lists.new ≡ updated_lists found.now header.now lists.old }
{
    let mut steps = Steps::<L>::start(blank);
    let me = found.linked.handle;
    if is_over(&found.linked, header) {
        let _ = lists.unlink(me, &mut steps);
    } else if found.linked.entry.manage_local {
        // Brings the bound of the new offset to the proof.
        let _to = running_after(&found.linked, header);
        lists.advance(me, delivered(&found.linked, header), &mut steps);
    }
}

impl Index {
    /// A portal table entry where no index is allocated, whose lists have room for `entries` entries with slots below `slots`.
    pub fn new(alloc: Global, entries: u32, slots: u32) -> Result<Index, NoMemory>
        ensures { IfOk result (IsUnused entries slots) }
    {
        Ok(Index {
            allocated: false,
            eq: None,
            lists: Lists::open(alloc, entries, slots)?,
        })
    }

    /// The entry that takes the message.
    pub fn choose(&self, header: &Header) -> Option<Found>
        ensures { result ≡ choose header.now (index self.now.eq self.now.lists) }
    {
        find_entry::<Brand>(Blank::new(1), &self.lists, header)
    }

    /// Whether one of its lists holds an entry.
    pub fn holds_entries(&self) -> bool
        ensures { result ≡ nat_lt 0 (entries_in (Some (index self.now.eq self.now.lists))) }
    {
        !self.lists.is_empty()
    }

    /// Whether an entry of one of its lists names the counting event.
    pub fn names_ct(&self, ct: Handle) -> bool
        ensures { result ≡ (entry_names_ct ct self.now.lists.priority || entry_names_ct ct self.now.lists.overflow) }
    {
        names_ct::<Brand>(Blank::new(1), &self.lists, ct)
    }

    /// Whether its overflow list holds the entry.
    pub fn is_in_overflow(&self, entry: Handle) -> bool
        ensures { result ≡ is_linked entry self.now.lists.overflow }
    {
        self.lists.is_linked(List::Overflow, entry)
    }

    /// An index with this event queue is allocated here.
    fn allocate(&mut self, eq: Option<Handle>)
        requires { AreEmpty self.old.lists }
        ensures after { seen self.new ≡ Some (new_index eq) }
        ensures kept { (most slots given : ℕ) → IsPortalEntry most slots given self.old → IsPortalEntry most slots given self.new }
    {
        self.allocated = true;
        self.eq = eq;
    }

    /// The index here is freed.
    fn free(&mut self)
        requires { AreEmpty self.old.lists }
        ensures after { seen self.new ≡ None }
        ensures kept { (most slots given : ℕ) → IsPortalEntry most slots given self.old → IsPortalEntry most slots given self.new }
    {
        self.allocated = false;
        self.eq = None;
    }

    /// Links an entry at the end of a list.
    fn link(&mut self, list: List, handle: Handle, entry: Entry)
        requires there { self.old.allocated ≡ true }
        requires may { MayAppend handle.slot self.old.lists }
        ensures after { seen self.new ≡ linked_at list (fresh handle entry) (seen self.old) }
        ensures kept { (most slots given : ℕ) → IsPortalEntry most slots given self.old → IsPortalEntry most slots (given + 1) self.new }
    {
        append::<Brand>(Blank::new(1), &mut self.lists, list, handle, entry);
    }

    /// Unlinks an entry from both lists.
    fn unlink(&mut self, me: Handle)
        ensures after { seen self.new ≡ unlinked_in me (seen self.old) }
        ensures kept { (most slots given : ℕ) → IsPortalEntry most slots given self.old → IsPortalEntry most slots given self.new }
    {
        unlink::<Brand>(Blank::new(1), &mut self.lists, me);
    }

    /// What becomes of the entry that took the message.
    fn update_entry(&mut self, found: &Found, header: &Header)
        requires { linked_in found.now.linked.handle (seen self.old) ≡ Some found.now.linked }
        ensures after { seen self.new ≡ updated_in found.now header.now (seen self.old) }
        ensures kept { (most slots given : ℕ) → IsPortalEntry most slots given self.old → IsPortalEntry most slots given self.new }
    {
        update_entry::<Brand>(Blank::new(1), &mut self.lists, found, header);
    }
}

/// The index of this number, where it is allocated.
pub fn portal_entry_at(indices: &[Index], pt: u32) -> Option<&Index>
    ensures { seen_ref result ≡ index_at pt (seen_in indices.now) }
{
    let at = pt as usize;
    if at < indices.len() && indices[at].allocated {
        Some(&indices[at])
    } else {
        None
    }
}

/// The entry that takes the message, with its list; `None` also where the index isn't allocated.
pub fn chosen_in(indices: &[Index], header: &Header) -> Option<Found>
    ensures { result ≡ chosen header.now (seen_in indices.now) }
{
    match portal_entry_at(indices, header.pt) {
        Some(portal_entry) => portal_entry.choose(header),
        None => None,
    }
}

/// The event queue of this index, if it has one.
pub fn queue_at(indices: &[Index], pt: u32) -> Option<Handle>
    ensures { result ≡ queue_of (index_at pt (seen_in indices.now)) }
{
    match portal_entry_at(indices, pt) {
        Some(portal_entry) => portal_entry.eq,
        None => None,
    }
}

/// Allocates an index with this event queue at a portal table entry without match entries.
pub fn allocate_at(indices: &mut [Index], pt: u32, eq: Option<Handle>)
    requires empty { entries_in (index_at pt (seen_in indices.old)) ≡ 0 }
    requires lists { All HasLists indices.old }
    ensures after { seen_in indices.new ≡ slice_set (seen_in indices.old) pt (Some (new_index eq)) }
    ensures kept { (most slots given : ℕ) → All (IsPortalEntry most slots given) indices.old →
        All (IsPortalEntry most slots given) indices.new }
{
    let at = pt as usize;
    if at < indices.len() {
        indices[at].allocate(eq);
    }
}

/// Frees the index at a portal table entry without match entries.
pub fn free_at(indices: &mut [Index], pt: u32)
    requires empty { entries_in (index_at pt (seen_in indices.old)) ≡ 0 }
    requires lists { All HasLists indices.old }
    ensures after { seen_in indices.new ≡ slice_set (seen_in indices.old) pt None }
    ensures kept { (most slots given : ℕ) → All (IsPortalEntry most slots given) indices.old →
        All (IsPortalEntry most slots given) indices.new }
{
    let at = pt as usize;
    if at < indices.len() {
        indices[at].free();
    }
}

/// What becomes of the entry that took the message, in its list.
pub fn update_entry_at(indices: &mut [Index], found: &Found, header: &Header)
    requires { linked_in found.now.linked.handle (index_at header.now.pt (seen_in indices.old)) ≡ Some found.now.linked }
    ensures after { seen_in indices.new ≡ slice_set (seen_in indices.old) header.now.pt
        (updated_in found.now header.now (index_at header.now.pt (seen_in indices.old))) }
    ensures kept { (most slots given : ℕ) → All (IsPortalEntry most slots given) indices.old →
        All (IsPortalEntry most slots given) indices.new }
{
    let at = header.pt as usize;
    if at < indices.len() {
        indices[at].update_entry(found, header);
    }
}

/// Links an entry at the end of a list of this index.
pub fn link_at(indices: &mut [Index], pt: u32, list: List, handle: Handle, entry: Entry)
    requires there { is_some (index_at pt (seen_in indices.old)) ≡ true }
    requires may { All (MayLink handle.slot) indices.old }
    ensures after { seen_in indices.new ≡ slice_set (seen_in indices.old) pt
        (linked_at list (fresh handle entry) (index_at pt (seen_in indices.old))) }
    ensures kept { (most slots given : ℕ) → All (IsPortalEntry most slots given) indices.old →
        All (IsPortalEntry most slots (given + 1)) indices.new }
{
    let at = pt as usize;
    if at < indices.len() {
        indices[at].link(list, handle, entry);
    }
}

/// Unlinks an entry from this index.
pub fn unlink_at(indices: &mut [Index], pt: u32, me: Handle)
    ensures after { seen_in indices.new ≡ slice_set (seen_in indices.old) pt (unlinked_in me (index_at pt (seen_in indices.old))) }
    ensures kept { (most slots given : ℕ) → All (IsPortalEntry most slots given) indices.old →
        All (IsPortalEntry most slots given) indices.new }
{
    let at = pt as usize;
    if at < indices.len() {
        indices[at].unlink(me);
    }
}
