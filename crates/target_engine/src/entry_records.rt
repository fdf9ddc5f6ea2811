//! The records of the match entries that are linked, or in whose memory unexpected headers lie.

ghost use Rattle.std.specs.Prelude.{◌≡◌, ◌<◌, ◌^◌};
ghost use Rattle.ni_model.specs.Tables.{lookup};
ghost use Rattle.target_engine.specs.PortalTable.{is_idle, recorded_anew, recorded_by, one_more, one_fewer, where_on, headers_in};
ghost use Rattle.target_engine.specs.PortalTable.{unlinked_records, records_after, linked_after};

use crate::measures::is_over;
use ni_model::Found;
use ni_objects::handles::{Store, where_set};
use ni_objects::users::Users;
use ptl_types::{Handle, Header};

/// A match entry that is linked, or in whose memory unexpected headers lie.
#[derive(Clone, Copy)]
pub struct EntryRecord {
    /// The portal table index that it was appended to.
    pub pt: u32,
    /// The counting event that it names.
    pub ct: Option<Handle>,
    /// Whether it is linked.
    pub linked: bool,
    /// How many headers lie in its memory.
    pub headers: u64,
}

/// The records of the entries, and what is counted over them: by slot the linked entries that name a counting event, and by
/// index the headers that wait.
#[derive(Drop)]
pub struct Records {
    /// The record of each entry that is linked, or in whose memory headers lie.
    pub by_entry: Store<EntryRecord>,
    /// How many linked entries name the counting event of each slot.
    pub cts: Users,
    /// How many headers wait at each index.
    pub waiting: Users,
}

impl EntryRecord {
    /// Whether nothing needs the record any more.
    fn is_idle(&self) -> bool
        ensures { result ≡ is_idle self.now }
    {
        !self.linked && self.headers == 0
    }
}

/// Puts the record of an entry in the place of its old one; it goes where nothing needs it.
fn record_anew(by_entry: &mut Store<EntryRecord>, entry: Handle, to: EntryRecord)
    ensures { by_entry.new ≡ recorded_anew entry to by_entry.old }
{
    if to.is_idle() {
        let _ = by_entry.remove(entry);
    } else if let Some(recorded) = by_entry.get_mut(entry) {
        *recorded = to;
    }
}

/// The record of the entry, where it is linked.
pub fn linked_record(by_entry: &Store<EntryRecord>, entry: Handle) -> Option<EntryRecord>
    ensures { result ≡ where_on (lookup entry by_entry.now.live) }
{
    match by_entry.get(entry) {
        Some(recorded) if recorded.linked => Some(*recorded),
        _ => None,
    }
}

/// How many headers lie in the entry's memory.
pub fn headers_of(by_entry: &Store<EntryRecord>, entry: Handle) -> u64
    ensures { result ≡ headers_in (lookup entry by_entry.now.live) }
{
    match by_entry.get(entry) {
        Some(recorded) => recorded.headers,
        None => 0,
    }
}

/// A header more lies in the entry's memory.
pub fn add_header(by_entry: &mut Store<EntryRecord>, entry: Handle)
    requires { headers_in (lookup entry by_entry.old.live) < 2 ^ 32 }
    ensures { by_entry.new ≡ recorded_by entry one_more by_entry.old }
{
    if let Some(recorded) = by_entry.get(entry).copied() {
        let headers = recorded.headers + 1;
        record_anew(
            by_entry,
            entry,
            EntryRecord {
                headers,
                ..recorded
            },
        );
    }
}

/// A header fewer lies there.
pub fn drop_header(by_entry: &mut Store<EntryRecord>, entry: Handle)
    ensures { by_entry.new ≡ recorded_by entry one_fewer by_entry.old }
{
    if let Some(recorded) = by_entry.get(entry).copied() {
        let headers = recorded.headers.saturating_sub(1);
        record_anew(
            by_entry,
            entry,
            EntryRecord {
                headers,
                ..recorded
            },
        );
    }
}

/// The entry isn't linked any more, and doesn't use the counting event that it names.
pub fn unlink_record(records: &mut Records, entry: Handle)
    ensures { records.new ≡ unlinked_records entry records.old }
{
    if let Some(recorded) = records.by_entry.get(entry).copied() {
        records.cts.remove(where_set(recorded.linked, recorded.ct));
        let linked = false;
        record_anew(
            &mut records.by_entry,
            entry,
            EntryRecord { linked, ..recorded },
        );
    }
}

/// An entry that a message unlinks is linked no longer, and one fewer is.
pub fn forget(records: &mut Records, linked: &mut u32, found: &Found, header: &Header)
    ensures records { records.new ≡ records_after found.now header.now records.old }
    ensures linked { linked.new ≡ linked_after found.now header.now linked.old }
{
    if is_over(&found.linked, header) {
        unlink_record(records, found.linked.handle);
        *linked = linked.saturating_sub(1);
    }
}
