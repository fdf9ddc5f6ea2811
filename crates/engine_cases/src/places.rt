//! Two threads over four places: what each lists, and where a place that was taken off stands when it is put on again.

use crate::answers::gives;
use chain_list::threads::Threads;
use std::alloc::Global;
use std::process::Abort;
use std::test::Fail;

/// 2 and 0 on the first thread, 3 on the second; without 2; 2 on the second.
fn two_threads(rt: &impl Abort, alloc: Global) -> Result<(), Fail> {
    let mut threads = Threads::open(alloc, 2, 4)?;
    gives!(rt; threads.first(0), None);
    threads.push_back(0, 2);
    threads.push_back(0, 0);
    threads.push_back(1, 3);
    gives!(rt; threads.first(0), Some(2));
    gives!(rt; threads.next(2), Some(0));
    gives!(rt; threads.next(0), None);
    threads.unlink(2);
    gives!(rt; threads.first(0), Some(0));
    threads.push_back(1, 2);
    gives!(rt; threads.first(1), Some(3));
    gives!(rt; threads.next(3), Some(2));
    gives!(rt; threads.next(2), None);
    Ok(())
}

#[test]
fn places_come_and_go(rt: HostRuntime) -> Result<(), Fail> {
    two_threads(&rt, rt.alloc())
}
