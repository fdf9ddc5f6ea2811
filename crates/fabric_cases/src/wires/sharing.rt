//! Calls that are counted, and what they gave.

ghost use Rattle.std.specs.Prelude.{◌<◌};

use crate::answers::gives;
use std::alloc::{Alloc, Global};
use std::process::Abort;
use std::sync::atomic::{AtomicU64, Ordering};
use std::thread::Threads;
use work_sharing::map_indices;

// Three times each index from `from` on, of so many indices, by so many threads: so many calls are made, and give these values. A place
// that is empty counts as 1.
fn thrice<R: Abort + Alloc<A = Global> + Threads + Sync>(
    rt: &R,
    threads: usize,
    count: usize,
    from: usize,
    calls: u64,
    want: &[u64],
)
    requires { 0 < threads }
{
    let made = &AtomicU64::new(0);
    let given = map_indices(
        rt,
        rt.alloc(),
        threads,
        count,
        &|index: usize| {
            let _ = made.fetch_add(1, Ordering::SeqCst);
            if index < from {
                None
            } else {
                Some((index as u64).wrapping_mul(3))
            }
        },
    );
    let mut values = Vec::new(rt.alloc());
    if let Ok(given) = given {
        for value in given {
            let _ = values.push(value.unwrap_or(1));
        }
    }
    gives!(rt; made.load(Ordering::SeqCst), calls);
    gives!(rt; values.as_slice(), want);
}

#[test]
fn each_index_is_called_once(rt: HostRuntime) {
    let mut want = Vec::new(rt.alloc());
    for i in 0..100u64 {
        let _ = want.push(3 * i);
    }
    thrice(&rt, 4, 100, 0, 100, want.as_slice());
}

#[test]
fn more_threads_than_indices(rt: HostRuntime) {
    thrice(&rt, 16, 3, 0, 3, &[0, 3, 6]);
}

#[test]
fn no_index_is_called(rt: HostRuntime) {
    thrice(&rt, 4, 0, 0, 0, &[]);
}

#[test]
fn a_thread_ends_where_a_call_gives_nothing(rt: HostRuntime) {
    thrice(&rt, 1, 5, 1, 1, &[1, 1, 1, 1, 1]);
}
