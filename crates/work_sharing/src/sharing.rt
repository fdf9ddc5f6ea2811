//! The calls, and how what they gave comes together.

ghost use Rattle.std.specs.Prelude.{ℕ, ◌≡◌, ◌<◌, All, IfOk, None, length};
ghost use Rattle.work_sharing.specs.Sharing.{AreGiven, AreShared};

use crate::ahead::reach_ahead;
use std::alloc::{AllocError, Global};
use std::sync::atomic::{AtomicU64, Ordering};
use std::thread;
use std::thread::Threads;

/// A thread reaches ahead for memory before its first call, and before each further one of so many.
const CALLS_AHEAD: usize = 8;

// Calls `f` at one index after the other, each the next that none has taken, and keeps what each call gave beside its index. It ends where
// there is no index left, or no memory.
fn take_some<X: Drop, F: Fn(usize) -> Option<X>>(
    alloc: Global,
    count: usize,
    next: &AtomicU64,
    f: &F,
) -> Vec<(usize, X)>
    requires { (i : ℕ) → i < count → F.pre f.now i }
    ensures { AreGiven F.Fn f.now count result.items }
{
    let mut list = Vec::new(alloc);
    for _ in 0..count {
        let index = next.fetch_add(1, Ordering::SeqCst);
        if index >= count as u64 {
            return list;
        }
        if list.len() % CALLS_AHEAD == 0 {
            reach_ahead(alloc);
        }
        let Some(value) = f(index as usize) else {
            return list;
        };
        let Ok(()) = list.push((index as usize, value)) else {
            return list;
        };
    }
    list
}

// Makes the calls, by a thread for each list, which becomes what that thread's calls gave.
fn fill_lists<R: Threads + Sync, X: Send + Drop, F: Fn(usize) -> Option<X> + Sync>(
    rt: &R,
    alloc: Global,
    count: usize,
    f: &F,
    lists: &mut [Vec<(usize, X)>],
)
    requires nonempty { 0 < length lists.old }
    requires accepts { (i : ℕ) → i < count → F.pre f.now i }
    ensures { All (λ l. AreGiven F.Fn f.now count l.items) lists.new }
{
    let next = &AtomicU64::new(0);
    let threads = lists.len();
    thread::for_each_mut(
        rt,
        lists,
        threads,
        &|_, list: &mut Vec<(usize, X)>|
            requires { (i : ℕ) → i < count → F.pre f.now i }
            ensures { AreGiven F.Fn f.entry.now count list.exit.now.items }
        {
            *list = take_some(alloc, count, next, f);
        },
    );
}

// Places at which nothing lies.
fn no_places<X: Drop>(alloc: Global, count: usize) -> Result<Vec<Option<X>>, AllocError>
    ensures count { IfOk result (λ v. length v.items ≡ count) }
    ensures none { IfOk result (λ v. All (λ o. o ≡ None) v.items) }
{
    let mut places = Vec::with_capacity(alloc, count)?;
    for _ in 0..count {
        places.push(None)?;
    }
    Ok(places)
}

// What the calls of one thread gave goes to its places.
fn place_list<X: Drop, F: Fn(usize) -> Option<X>>(
    f: &F,
    list: Vec<(usize, X)>,
    places: &mut [Option<X>],
)
    requires list { AreGiven F.Fn f.now (length places.old) list.items }
    requires places { AreShared F.Fn f.now places.old }
    ensures count { length places.new ≡ length places.old }
    ensures places { AreShared F.Fn f.now places.new }
{
    // What the calls give is what the clauses speak of.
    let _ = f;
    for (index, value) in list {
        places[index] = Some(value);
    }
}

// What all calls gave goes to its places.
fn place_all<X: Drop, F: Fn(usize) -> Option<X>>(
    f: &F,
    lists: Vec<Vec<(usize, X)>>,
    places: &mut [Option<X>],
)
    requires lists { All (λ l. AreGiven F.Fn f.now (length places.old) l.items) lists.items }
    requires places { AreShared F.Fn f.now places.old }
    ensures count { length places.new ≡ length places.old }
    ensures places { AreShared F.Fn f.now places.new }
{
    for list in lists {
        place_list(f, list, places);
    }
}

/// Calls `f` at the indices below `count`, each once at most, by so many threads at most and no more than indices, and gives what each call
/// gave at the place of its index. A thread ends where a call of its gives `None` or there is no memory to keep what one gave, so a place
/// may be empty; with memory to spare, and calls that all give something, none is. Where a thread can't be started, the call does its part
/// itself.
///
/// # Errors
///
/// There was no memory for the places. No call was made.
pub fn map_indices<R: Threads + Sync, X: Send + Drop, F: Fn(usize) -> Option<X> + Sync>(
    rt: &R,
    alloc: Global,
    threads: usize,
    count: usize,
    f: &F,
) -> Result<Vec<Option<X>>, AllocError>
    requires threads { 0 < threads }
    requires accepts { (i : ℕ) → i < count → F.pre f.now i }
    ensures count { IfOk result (λ v. length v.items ≡ count) }
    ensures each { IfOk result (λ v. AreShared F.Fn f.now v.items) }
{
    let mut places = no_places(alloc, count)?;
    let mut lists = Vec::new(alloc);
    lists.resize_with(threads.min(count).max(1), || Vec::new(alloc))?;
    fill_lists(rt, alloc, count, f, &mut lists);
    place_all(f, lists, &mut places);
    Ok(places)
}
