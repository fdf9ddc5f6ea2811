//! The unexpected headers that an entry takes as it is appended.

ghost use Rattle.std.specs.Prelude.{◌≡◌, [], None, length};
ghost use Rattle.ni_model.specs.Counts.{counted, successes};
ghost use Rattle.ni_model.specs.Headers.{unexpected_list, found_in, left_in};
ghost use Rattle.ni_model.specs.Events.{kind_taken};
ghost use Rattle.ni_model.specs.Append.{overflow_counter, each_counted, each_gone, counted_by, gone_events};
ghost use Rattle.target_engine.specs.PortalTable.{seen_in, AreRecorded, AreCounted, frees_at, without_header};
ghost use Rattle.target_engine.specs.Sides.{side};

use crate::appends::AppendArgs;
use crate::entry_records::Records;
use crate::gone::{frees, kind_taken, raise_gone};
use crate::index::Index;
use match_lists::unexpected::{Headers, finds};
use ni_model::IndexedHeader;
use ni_objects::counters::Counter;
use ni_objects::delivery::{count, successes};
use ni_objects::handles::{Store, where_set};
use ni_objects::queues::Queue;
use ptl_types::{Entry, Handle};

/// The counting event of an entry that counts the headers that it takes.
pub fn overflow_counter(entry: &Entry) -> Option<Handle>
    ensures { result ≡ overflow_counter entry.now }
{
    where_set(entry.count_overflow, entry.ct)
}

/// One header that an entry takes is counted, goes out of the record of the entry in which it lay, and is told.
pub fn take_header(
    indices: &[Index],
    records: &mut Records,
    cts: &mut Store<Counter>,
    eqs: &mut Store<Queue>,
    entry: &Entry,
    gone: &IndexedHeader,
)
    ensures counts { cts.new ≡ counted (overflow_counter entry.now) (successes 1) cts.old }
    ensures gone { records.new ≡ without_header gone.now records.old }
    ensures events { eqs.new ≡ gone_events (kind_taken gone.now.header.header.kind) entry.now.hidden (seen_in indices.now)
        (frees_at (seen_in indices.now) records.old.by_entry gone.now) gone.now eqs.old }
{
    count(cts, overflow_counter(entry), successes(1));
    let freed = frees(indices, records, gone);
    raise_gone(
        indices,
        eqs,
        kind_taken(gone.header.header.kind),
        &entry.hidden,
        gone,
        freed,
    );
}

/// A persistent entry takes all headers that it finds, oldest first, in one pass over the headers: those that it leaves move
/// down. Answers the counting event that rose.
pub fn take_found(
    indices: &[Index],
    records: &mut Records,
    headers: &mut Headers,
    cts: &mut Store<Counter>,
    eqs: &mut Store<Queue>,
    args: &AppendArgs,
) -> Option<Handle>
    requires recorded { AreRecorded (seen_in indices.now) headers.old.unexpected records.old.by_entry }
    requires counted { AreCounted headers.old.unexpected records.old }
    ensures recorded { AreRecorded (seen_in indices.now) (left_in args.now.pt args.now.entry headers.old.unexpected) records.new.by_entry }
    ensures users { AreCounted (left_in args.now.pt args.now.entry headers.old.unexpected) records.new }
    ensures long { length records.new.waiting ≡ length records.old.waiting }
    ensures given { records.new.by_entry.given ≡ records.old.by_entry.given }
    ensures limit { records.new.by_entry.limit ≡ records.old.by_entry.limit }
    ensures left { headers.new ≡ unexpected_list (left_in args.now.pt args.now.entry headers.old.unexpected) headers.old.limit }
    ensures counts { cts.new ≡ each_counted (overflow_counter args.now.entry) (found_in args.now.pt args.now.entry headers.old.unexpected)
        cts.old }
    ensures events { eqs.new ≡ each_gone args.now.entry.hidden (side 0 0 (seen_in indices.now) 0 (unexpected_list [] 0))
        (left_in args.now.pt args.now.entry headers.old.unexpected) (found_in args.now.pt args.now.entry headers.old.unexpected) eqs.old }
    ensures counted { result ≡ counted_by args.now.entry (found_in args.now.pt args.now.entry headers.old.unexpected) }
{
    let mut kept = 0;
    let mut counted = None;
    let waiting = headers.as_slice().len();
    for at in 0..waiting {
        let unexpected = headers.as_slice()[at];
        if finds(&unexpected, args.pt, &args.entry) {
            take_header(indices, records, cts, eqs, &args.entry, &unexpected);
            counted = overflow_counter(&args.entry);
        } else {
            headers.put_at(kept, unexpected);
            kept += 1;
        }
    }
    headers.truncate(kept);
    counted
}
