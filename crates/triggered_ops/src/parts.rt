//! How an operation comes on its list and off it, and to another place.

ghost use Rattle.std.specs.Prelude.{◌≡◌, ℕ, ◌<◌, ◌≤◌, ◌==◌, ◌+◌, ◌*◌, ◌^◌, true, false, not, nat_eq, if◌then◌else◌};
ghost use Rattle.std.specs.Prelude.{Some, None, IsSome, IfSome, IfNone, option_map, List, ◌++◌, ◌∷◌, [], length, filter};
ghost use Rattle.std.specs.List.{swap};
ghost use Rattle.chain_list.specs.threads.Threads.{thread as thread_at, is_on, is_threaded, AreApart};
ghost use Rattle.ptl_types.specs.Handles.{same_handle};
ghost use Rattle.triggered_ops.specs.declared.spots.Wait.{Wait};
ghost use Rattle.triggered_ops.specs.Operations.{action_of, waits_on};
ghost use Rattle.triggered_ops.specs.Layout.{spotted, emptied, packed, numbers_of, operations_in, op_at, wait_at, operation_for};
ghost use Rattle.triggered_ops.specs.Hung.{belongs, next_in, rest_after, threshold_of, Ascending, IsHung, IsGap, IsPacking, IsSame};
ghost use Rattle.triggered_ops.specs.Hung.{IsThinner, WaitsOn, IsLow, IsHigh};

use crate::lists::{belongs, home, waits_on};
use crate::spots::{Spots, Wait};
use chain_list::threads::Threads;
use ptl_types::Handle;

/// Takes an operation off its list and out of its place.
pub fn take_out<D>(spots: &mut Spots<D>, threads: &mut Threads, place: u32) -> Option<D>
    requires threaded { is_threaded place threads.old ≡ true }
    requires waits { IsSome (wait_at spots.old.spots place) }
    ensures hung { (stamps : List ℕ) → IsHung (wait_at spots.old.spots) threads.old stamps
        → IsHung (wait_at spots.new.spots) threads.new stamps }
    ensures places { threads.new.places ≡ threads.old.places }
    ensures value { result ≡ option_map action_of (op_at spots.old.spots place) }
    ensures rest { spots.new ≡ spotted (emptied place spots.old.spots) spots.old.room }
{
    threads.unlink(place);
    spots.take(place)
}

/// What comes after a place of a list, or the first.
fn next_on(threads: &Threads, thread: u32, after: Option<u32>) -> Option<u32>
    requires within { thread < length threads.now.threads }
    requires there { IfSome after (λ q. is_on q (thread_at thread threads.now) ≡ true) }
    ensures { result ≡ next_in after (thread_at thread threads.now) }
{
    match after {
        Some(place) => threads.next(place),
        None => threads.first(thread),
    }
}

/// What comes after a place of a list, or the first, if its threshold is no higher than this one.
fn further<D>(
    spots: &Spots<D>,
    threads: &Threads,
    thread: u32,
    after: Option<u32>,
    threshold: u64,
) -> Option<u32>
    requires within { thread < length threads.now.threads }
    requires waits { (q : ℕ) → is_on q (thread_at thread threads.now) ≡ true → IsSome (wait_at spots.now.spots q) }
    requires there { IfSome after (λ q. is_on q (thread_at thread threads.now) ≡ true) }
    ensures some { IfSome result (λ p. (next_in after (thread_at thread threads.now) ≡ Some p)
        × (threshold_of (wait_at spots.now.spots p) ≤ threshold)) }
    ensures none { IfNone result ((p : ℕ) → next_in after (thread_at thread threads.now) ≡ Some p
        → threshold < threshold_of (wait_at spots.now.spots p)) }
{
    match next_on(threads, thread, after) {
        Some(place) => {
            if spots.threshold(place) <= threshold {
                Some(place)
            } else {
                None
            }
        }
        None => None,
    }
}

/// The last place of a list whose threshold is no higher than this one, found from the first on.
fn walk<D>(spots: &Spots<D>, threads: &Threads, thread: u32, threshold: u64) -> Option<u32>
    requires within { thread < length threads.now.threads }
    requires waits { (q : ℕ) → is_on q (thread_at thread threads.now) ≡ true → IsSome (wait_at spots.now.spots q) }
    requires ordered { Ascending (wait_at spots.now.spots) (thread_at thread threads.now) }
    requires apart { AreApart (thread_at thread threads.now) }
    ensures { IsGap (wait_at spots.now.spots) threshold result (thread_at thread threads.now) }
{
    let mut after = None;
    while let Some(place) = further(spots, threads, thread, after, threshold) {
        after = Some(place);
    }
    after
}

/// Behind which place of a list an operation of this threshold stands: behind the last, if that is no higher, and else before the first
/// that is.
fn gap<D>(spots: &Spots<D>, threads: &Threads, thread: u32, threshold: u64) -> Option<u32>
    requires within { thread < length threads.now.threads }
    requires waits { (q : ℕ) → is_on q (thread_at thread threads.now) ≡ true → IsSome (wait_at spots.now.spots q) }
    requires ordered { Ascending (wait_at spots.now.spots) (thread_at thread threads.now) }
    ensures { IsGap (wait_at spots.now.spots) threshold result (thread_at thread threads.now) }
{
    let end = threads.last(thread);
    match end {
        None => None,
        Some(place) => {
            if spots.threshold(place) <= threshold {
                end
            } else {
                walk(spots, threads, thread, threshold)
            }
        }
    }
}

/// Hangs an operation on its list, at a place where none waits yet.
pub fn hang<D>(spots: &Spots<D>, threads: &mut Threads, stamps: &[u64], wait: Wait, place: u32)
    requires hung { IsHung (wait_at spots.now.spots) threads.old stamps.now }
    requires at_most { length stamps.now ≤ 2 ^ 27 }
    requires empty { wait_at spots.now.spots place ≡ None }
    requires within { place < threads.old.places }
    requires low { IsLow wait (wait_at spots.now.spots) }
    requires high { IsHigh wait (wait_at spots.now.spots) }
    ensures hung { IsHung (λ p. if nat_eq p place then Some wait else wait_at spots.now.spots p) threads.new stamps.now }
    ensures places { threads.new.places ≡ threads.old.places }
{
    let thread = home(stamps, wait.ct, wait.due);
    if belongs(stamps, wait.ct) {
        let after = gap(spots, threads, thread, wait.threshold);
        threads.insert(thread, after, place);
    } else {
        threads.push_back(thread, place);
    }
}

/// The place of an operation that waits on a counting event which has no lists. At most one step for each operation whose counting
/// event has none.
fn stray_on<D>(spots: &Spots<D>, threads: &Threads, stamps: &[u64], ct: Handle) -> Option<u32>
    requires hung { IsHung (wait_at spots.now.spots) threads.now stamps.now }
    requires at_most { length stamps.now ≤ 2 ^ 27 }
    requires belongs { belongs stamps.now ct ≡ false }
    ensures found { IfSome result (λ p. WaitsOn ct (wait_at spots.now.spots p)) }
    ensures none { IfNone result ((p : ℕ) → WaitsOn ct (wait_at spots.now.spots p) → ⊥) }
{
    let strays = 2 * stamps.len() as u32;
    if threads.last(strays).is_none() {
        return None;
    }
    let mut after = None;
    while let Some(place) = next_on(threads, strays, after) {
        if waits_on(spots, ct, place) {
            return Some(place);
        }
        after = Some(place);
    }
    None
}

/// The place of an operation that waits on a counting event; `None` exactly where none does. A constant number of steps where the
/// counting event has lists, and else at most one for each operation whose counting event has none.
pub fn first_on<D>(spots: &Spots<D>, threads: &Threads, stamps: &[u64], ct: Handle) -> Option<u32>
    requires hung { IsHung (wait_at spots.now.spots) threads.now stamps.now }
    requires at_most { length stamps.now ≤ 2 ^ 27 }
    ensures found { IfSome result (λ p. WaitsOn ct (wait_at spots.now.spots p)) }
    ensures none { IfNone result ((p : ℕ) → WaitsOn ct (wait_at spots.now.spots p) → ⊥) }
{
    if !belongs(stamps, ct) {
        return stray_on(spots, threads, stamps, ct);
    }
    match threads.first(home(stamps, ct, false)) {
        Some(place) => Some(place),
        None => threads.first(home(stamps, ct, true)),
    }
}

/// Moves an operation to an earlier place, where none waits.
fn carry<D>(spots: &mut Spots<D>, threads: &mut Threads, stamps: &[u64], from: u32, to: u32)
    requires hung { IsHung (wait_at spots.old.spots) threads.old stamps.now }
    requires at_most { length stamps.now ≤ 2 ^ 27 }
    requires order { to < from }
    requires full { IsSome (wait_at spots.old.spots from) }
    requires empty { wait_at spots.old.spots to ≡ None }
    requires within { length spots.old.spots ≤ threads.old.places }
    ensures hung { IsHung (wait_at spots.new.spots) threads.new stamps.now }
    ensures places { threads.new.places ≡ threads.old.places }
    ensures spots { spots.new ≡ spotted (swap spots.old.spots from to) spots.old.room }
{
    if let Some(wait) = spots.wait(from) {
        threads.insert(home(stamps, wait.ct, wait.due), Some(from), to);
        threads.unlink(from);
        spots.carry(from, to);
    }
}

/// Where an operation waits at a place, moves it to the first place that is to be used anew.
fn pack<D>(
    spots: &mut Spots<D>,
    threads: &mut Threads,
    stamps: &[u64],
    place: u32,
    kept: u32,
) -> u32
    requires packs { IsPacking spots.old threads.old stamps.now kept place }
    requires here { place < length spots.old.spots }
    requires fits { length spots.old.spots < 2 ^ 32 }
    ensures packs { IsPacking spots.new threads.new stamps.now result (place + 1) }
    ensures value { operations_in (packed result (place + 1) spots.new.spots) ≡ operations_in (packed kept place spots.old.spots) }
    ensures numbers { IsThinner (numbers_of (packed kept place spots.old.spots)) (numbers_of (packed result (place + 1) spots.new.spots)) }
    ensures long { length spots.new.spots ≡ length spots.old.spots }
    ensures room { spots.new.room ≡ spots.old.room }
    ensures places { threads.new.places ≡ threads.old.places }
{
    if spots.wait(place).is_none() {
        kept
    } else if kept < place {
        carry(spots, threads, stamps, place, kept);
        kept + 1
    } else {
        kept + 1
    }
}

/// Lays the operations at the first places, in their order, and gives the others free.
pub fn lay_anew<D: Drop>(spots: &mut Spots<D>, threads: &mut Threads, stamps: &[u64])
    requires hung { IsHung (wait_at spots.old.spots) threads.old stamps.now }
    requires at_most { length stamps.now ≤ 2 ^ 27 }
    requires within { length spots.old.spots ≤ threads.old.places }
    ensures hung { IsHung (wait_at spots.new.spots) threads.new stamps.now }
    ensures places { threads.new.places ≡ threads.old.places }
    ensures value { operations_in spots.new.spots ≡ operations_in spots.old.spots }
    ensures numbers { IsThinner (numbers_of spots.old.spots) (numbers_of spots.new.spots) }
    ensures room { spots.new.room ≡ spots.old.room }
    ensures full { length spots.new.spots ≡ length (operations_in spots.new.spots) }
{
    let mut kept = 0;
    for place in 0..spots.len() {
        kept = pack(spots, threads, stamps, place, kept);
    }
    spots.truncate(kept);
}

/// Gives the lists of a slot to a counting event, where they are empty and no operation is without lists.
pub fn adopt<D>(spots: &Spots<D>, threads: &Threads, stamps: &mut [u64], ct: Handle)
    requires hung { IsHung (wait_at spots.now.spots) threads.now stamps.old }
    requires at_most { length stamps.old ≤ 2 ^ 27 }
    ensures hung { IsHung (wait_at spots.now.spots) threads.now stamps.new }
{
    let slots = stamps.len() as u32;
    if ct.slot >= slots || stamps[ct.slot as usize] == ct.stamp {
        return;
    }
    if threads.first(2 * slots).is_none()
        && threads.first(2 * ct.slot).is_none()
        && threads.first(2 * ct.slot + 1).is_none()
    {
        stamps[ct.slot as usize] = ct.stamp;
    }
}

/// Makes room for a further operation where there is none.
pub fn make_room<D: Drop>(spots: &mut Spots<D>, threads: &mut Threads, stamps: &[u64])
    requires hung { IsHung (wait_at spots.old.spots) threads.old stamps.now }
    requires at_most { length stamps.now ≤ 2 ^ 27 }
    requires within { length spots.old.spots ≤ threads.old.places }
    requires room { length (operations_in spots.old.spots) < spots.old.room }
    ensures hung { IsHung (wait_at spots.new.spots) threads.new stamps.now }
    ensures places { threads.new.places ≡ threads.old.places }
    ensures value { operations_in spots.new.spots ≡ operations_in spots.old.spots }
    ensures numbers { IsThinner (numbers_of spots.old.spots) (numbers_of spots.new.spots) }
    ensures same { spots.new.room ≡ spots.old.room }
    ensures room { length spots.new.spots < spots.new.room }
{
    if spots.is_full() {
        lay_anew(spots, threads, stamps);
    }
}

/// Puts an operation in, at a further place.
pub fn put_in<D>(
    spots: &mut Spots<D>,
    threads: &mut Threads,
    stamps: &[u64],
    number: u32,
    action: D,
    wait: Wait,
)
    requires hung { IsHung (wait_at spots.old.spots) threads.old stamps.now }
    requires at_most { length stamps.now ≤ 2 ^ 27 }
    requires room { length spots.old.spots < spots.old.room }
    requires within { spots.old.room ≤ threads.old.places }
    requires low { IsLow wait (wait_at spots.old.spots) }
    requires high { IsHigh wait (wait_at spots.old.spots) }
    ensures hung { IsHung (wait_at spots.new.spots) threads.new stamps.now }
    ensures places { threads.new.places ≡ threads.old.places }
    ensures value { operations_in spots.new.spots ≡ operations_in spots.old.spots ++ operation_for number wait action ∷ [] }
    ensures numbers { numbers_of spots.new.spots ≡ numbers_of spots.old.spots ++ number ∷ [] }
    ensures same { spots.new.room ≡ spots.old.room }
{
    hang(spots, threads, stamps, wait, spots.len());
    spots.push(number, action, wait);
}

/// Takes the operations that wait on a counting event off their lists and out of their places.
pub fn drop_all<D: Drop>(spots: &mut Spots<D>, threads: &mut Threads, stamps: &[u64], ct: Handle)
    requires hung { IsHung (wait_at spots.old.spots) threads.old stamps.now }
    requires at_most { length stamps.now ≤ 2 ^ 27 }
    ensures hung { IsHung (wait_at spots.new.spots) threads.new stamps.now }
    ensures places { threads.new.places ≡ threads.old.places }
    ensures same { IsSame spots.old spots.new }
    ensures rest { operations_in spots.new.spots ≡ filter (λ p. not (waits_on ct p)) (operations_in spots.old.spots) }
{
    while let Some(place) = first_on(spots, threads, stamps, ct) {
        let _ = take_out(spots, threads, place);
    }
}
