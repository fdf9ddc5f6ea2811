//! Entries come and go in a table of four, which took all its memory when it was opened.

use crate::comparing::gives;
use crate::sides::{Side, over};
use crate::values::{ENTRY, LIMITS};
use ptl_types::{Appended, Handle, List, NiFault};
use std::process::Abort;

/// Links an entry at the end of a list of index 0, and answers its handle.
fn linked(rt: &impl Abort, side: &mut Side, list: List) -> Handle {
    match side.me_append(0, list, ENTRY) {
        Ok(Appended::Linked(me)) => me,
        _ => panic!(rt; "the entry isn't linked"),
    }
}

#[test]
fn four_entries_are_unlinked_and_linked_again_a_thousand_times(rt: HostRuntime) {
    let mut side = over(&rt, 0, LIMITS, &[0; 16]);
    gives!(rt; side.pt_alloc(0, None).is_ok(), true);
    let mut older = linked(&rt, &mut side, List::Priority);
    let mut old = linked(&rt, &mut side, List::Overflow);
    let mut young = linked(&rt, &mut side, List::Priority);
    let mut youngest = linked(&rt, &mut side, List::Overflow);
    for _ in 0..1000 {
        gives!(rt; side.me_append(0, List::Priority, ENTRY), Err(NiFault::NoSpace));
        gives!(rt; side.me_unlink(older), Ok(()));
        gives!(rt; side.me_unlink(older), Err(NiFault::Stale));
        older = old;
        old = young;
        young = youngest;
        youngest = linked(&rt, &mut side, List::Priority);
    }
    gives!(rt; older.stamp, 1000);
    gives!(rt; youngest.stamp, 1003);
    gives!(rt; side.pt_free(0), Err(NiFault::InUse));
}

#[test]
fn an_index_is_allocated_and_freed_a_thousand_times(rt: HostRuntime) {
    let mut side = over(&rt, 0, LIMITS, &[0; 16]);
    for _ in 0..1000 {
        gives!(rt; side.pt_alloc(1, None), Ok(()));
        let me = side.me_append(1, List::Overflow, ENTRY);
        gives!(rt; side.pt_free(1), Err(NiFault::InUse));
        if let Ok(Appended::Linked(me)) = me {
            gives!(rt; side.me_unlink(me), Ok(()));
        }
        gives!(rt; side.pt_free(1), Ok(()));
    }
}
