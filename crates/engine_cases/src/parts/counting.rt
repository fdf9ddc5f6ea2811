//! Each call once, at the ends of the range.

use crate::answers::gives;
use ni_objects::counters::{CountFull, Counter};
use ptl_types::Count;

fn of(success: u64, failure: u64) -> Count {
    Count { success, failure }
}

#[test]
fn a_counter_stops_where_its_sum_is_at_the_end(rt: HostRuntime) {
    let mut counter = Counter::new();
    gives!(rt; counter.count(), of(0, 0));
    gives!(rt; counter.inc(of(2, 1)), Ok(()));
    gives!(rt; counter.count(), of(2, 1));
    gives!(rt; counter.set(of(u64::MAX, 1)), Err(CountFull));
    gives!(rt; counter.set(of(u64::MAX - 1, 0)), Ok(()));
    gives!(rt; counter.inc(of(0, 2)), Err(CountFull));
    gives!(rt; counter.count(), of(u64::MAX - 1, 0));
    counter.bump(of(1, 1));
    gives!(rt; counter.count(), of(u64::MAX, 0));
    counter.bump(of(7, 7));
    gives!(rt; counter.count(), of(u64::MAX, 0));
    gives!(rt; counter.set(of(0, u64::MAX - 3)), Ok(()));
    counter.bump(of(2, 2));
    gives!(rt; counter.count(), of(2, u64::MAX - 2));
}
