//! The lists on which the operations hang. For each slot of the table of counting events there are two: of those that are due, and of
//! those that aren't, each in the order of the thresholds; they are of one counting event, whose stamp is kept by slot. One list more
//! has those whose counting event has no lists of its own: its slot is out of range, or has the lists of another stamp.

ghost use Rattle.std.specs.Prelude.{◌≡◌, ℕ, ◌<◌, ◌≤◌, ◌+◌, ◌*◌, ◌^◌, true, false, Some, None, IfSome, IfNone, length, if◌then◌else◌};
ghost use Rattle.chain_list.specs.threads.Threads.{thread as thread_at, first_place, last_place};
ghost use Rattle.ptl_types.specs.Handles.{same_handle};
ghost use Rattle.triggered_ops.specs.declared.spots.Wait.{Wait};
ghost use Rattle.triggered_ops.specs.Layout.{spotted, noted_due, wait_at};
ghost use Rattle.triggered_ops.specs.Hung.{belongs, home, threshold_of, IsHung, WaitsOn, EachOn};

use crate::spots::Spots;
use chain_list::threads::Threads;
use ptl_types::Handle;

/// Whether the lists of its slot are this counting event's.
pub fn belongs(stamps: &[u64], ct: Handle) -> bool
    ensures { result ≡ belongs stamps.now ct }
{
    match stamps.get(ct.slot as usize) {
        Some(stamp) => *stamp == ct.stamp,
        None => false,
    }
}

/// The list of those that are due comes first.
fn side(due: bool) -> u32
    ensures at_most { result ≤ 1 }
    ensures same { result ≡ (if due then 0 else 1) }
{
    if due { 0 } else { 1 }
}

/// The list of an operation.
pub fn home(stamps: &[u64], ct: Handle, due: bool) -> u32
    requires { length stamps.now ≤ 2 ^ 27 }
    ensures { result ≡ home stamps.now ct due }
{
    if belongs(stamps, ct) {
        2 * ct.slot + side(due)
    } else {
        2 * stamps.len() as u32
    }
}

/// The first of those that aren't due, where the sum has come to its threshold.
pub fn next_due<D>(
    spots: &Spots<D>,
    threads: &Threads,
    stamps: &[u64],
    ct: Handle,
    sum: u64,
) -> Option<u32>
    requires hung { IsHung (wait_at spots.now.spots) threads.now stamps.now }
    requires at_most { length stamps.now ≤ 2 ^ 27 }
    requires belongs { belongs stamps.now ct ≡ true }
    ensures first { IfSome result (λ p. first_place (thread_at (2 * ct.slot + 1) threads.now) ≡ Some p) }
    ensures some { IfSome result (λ p. threshold_of (wait_at spots.now.spots p) ≤ sum) }
    ensures none { IfNone result (EachOn ct (λ x. x.due ≡ false → sum < x.threshold) (wait_at spots.now.spots)) }
{
    match threads.first(home(stamps, ct, false)) {
        Some(place) => {
            if spots.threshold(place) <= sum {
                Some(place)
            } else {
                None
            }
        }
        None => None,
    }
}

/// The last of those that are due, where the sum isn't at its threshold.
pub fn next_undue<D>(
    spots: &Spots<D>,
    threads: &Threads,
    stamps: &[u64],
    ct: Handle,
    sum: u64,
) -> Option<u32>
    requires hung { IsHung (wait_at spots.now.spots) threads.now stamps.now }
    requires at_most { length stamps.now ≤ 2 ^ 27 }
    requires belongs { belongs stamps.now ct ≡ true }
    ensures last { IfSome result (λ p. last_place (thread_at (2 * ct.slot) threads.now) ≡ Some p) }
    ensures some { IfSome result (λ p. sum < threshold_of (wait_at spots.now.spots p)) }
    ensures none { IfNone result (EachOn ct (λ x. x.due ≡ true → x.threshold ≤ sum) (wait_at spots.now.spots)) }
{
    match threads.last(home(stamps, ct, true)) {
        Some(place) => {
            if spots.threshold(place) > sum {
                Some(place)
            } else {
                None
            }
        }
        None => None,
    }
}

/// The first of those that aren't due becomes the last of those that are.
pub fn make_due<D>(
    spots: &mut Spots<D>,
    threads: &mut Threads,
    stamps: &[u64],
    ct: Handle,
    place: u32,
)
    requires hung { IsHung (wait_at spots.old.spots) threads.old stamps.now }
    requires at_most { length stamps.now ≤ 2 ^ 27 }
    requires belongs { belongs stamps.now ct ≡ true }
    requires first { first_place (thread_at (2 * ct.slot + 1) threads.old) ≡ Some place }
    requires within { length spots.old.spots ≤ threads.old.places }
    ensures hung { IsHung (wait_at spots.new.spots) threads.new stamps.now }
    ensures spots { spots.new ≡ spotted (noted_due place true spots.old.spots) spots.old.room }
    ensures places { threads.new.places ≡ threads.old.places }
    ensures fewer { length (thread_at (2 * ct.slot + 1) threads.new) < length (thread_at (2 * ct.slot + 1) threads.old) }
{
    threads.unlink(place);
    threads.push_back(home(stamps, ct, true), place);
    spots.note_due(place, true);
}

/// The last of those that are due becomes the first of those that aren't.
pub fn make_undue<D>(
    spots: &mut Spots<D>,
    threads: &mut Threads,
    stamps: &[u64],
    ct: Handle,
    place: u32,
)
    requires hung { IsHung (wait_at spots.old.spots) threads.old stamps.now }
    requires at_most { length stamps.now ≤ 2 ^ 27 }
    requires belongs { belongs stamps.now ct ≡ true }
    requires last { last_place (thread_at (2 * ct.slot) threads.old) ≡ Some place }
    requires within { length spots.old.spots ≤ threads.old.places }
    ensures hung { IsHung (wait_at spots.new.spots) threads.new stamps.now }
    ensures spots { spots.new ≡ spotted (noted_due place false spots.old.spots) spots.old.room }
    ensures places { threads.new.places ≡ threads.old.places }
    ensures fewer { length (thread_at (2 * ct.slot) threads.new) < length (thread_at (2 * ct.slot) threads.old) }
{
    threads.unlink(place);
    threads.insert(home(stamps, ct, false), None, place);
    spots.note_due(place, false);
}

/// Whether an operation waits at a place, and on this counting event.
pub fn waits_on<D>(spots: &Spots<D>, ct: Handle, place: u32) -> bool
    ensures yes { result ≡ true → WaitsOn ct (wait_at spots.now.spots place) }
    ensures no { result ≡ false → WaitsOn ct (wait_at spots.now.spots place) → ⊥ }
{
    match spots.wait(place) {
        Some(wait) => wait.ct.is(ct),
        None => false,
    }
}
