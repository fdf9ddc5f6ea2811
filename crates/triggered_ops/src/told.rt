//! How those operations become due, or no longer are, that a counting event's change tells so. Its lists are in the order of the
//! thresholds: so the first of those that aren't due and the last of those that are decide.

ghost use Rattle.std.specs.Prelude.{◌≡◌, ℕ, ◌<◌, ◌≤◌, ◌+◌, ◌*◌, ◌^◌, true, false, map, nat_le, Some, length};
ghost use Rattle.chain_list.specs.threads.Threads.{thread as thread_at};
ghost use Rattle.ptl_types.specs.Handles.{same_handle};
ghost use Rattle.triggered_ops.specs.declared.spots.Wait.{Wait};
ghost use Rattle.triggered_ops.specs.Operations.{told_if, waits_on};
ghost use Rattle.triggered_ops.specs.Layout.{operations_in, wait_at};
ghost use Rattle.triggered_ops.specs.Hung.{belongs, IsHung, IsSame, EachOn, AreToldAlike};

use crate::lists::{belongs, make_due, make_undue, next_due, next_undue, waits_on};
use crate::spots::Spots;
use chain_list::threads::Threads;
use ptl_types::Handle;

/// Those with a threshold up to the sum are due.
fn raise<D>(spots: &mut Spots<D>, threads: &mut Threads, stamps: &[u64], ct: Handle, sum: u64)
    requires hung { IsHung (wait_at spots.old.spots) threads.old stamps.now }
    requires at_most { length stamps.now ≤ 2 ^ 27 }
    requires belongs { belongs stamps.now ct ≡ true }
    requires within { length spots.old.spots ≤ threads.old.places }
    ensures hung { IsHung (wait_at spots.new.spots) threads.new stamps.now }
    ensures places { threads.new.places ≡ threads.old.places }
    ensures same { IsSame spots.old spots.new }
    ensures told { AreToldAlike ct sum spots.old spots.new }
    ensures above { EachOn ct (λ x. x.due ≡ false → sum < x.threshold) (wait_at spots.new.spots) }
{
    while let Some(place) = next_due(spots, threads, stamps, ct, sum) {
        make_due(spots, threads, stamps, ct, place);
    }
}

/// Those with a threshold above it aren't.
fn lower<D>(spots: &mut Spots<D>, threads: &mut Threads, stamps: &[u64], ct: Handle, sum: u64)
    requires hung { IsHung (wait_at spots.old.spots) threads.old stamps.now }
    requires at_most { length stamps.now ≤ 2 ^ 27 }
    requires belongs { belongs stamps.now ct ≡ true }
    requires within { length spots.old.spots ≤ threads.old.places }
    requires above { EachOn ct (λ x. x.due ≡ false → sum < x.threshold) (wait_at spots.old.spots) }
    ensures hung { IsHung (wait_at spots.new.spots) threads.new stamps.now }
    ensures places { threads.new.places ≡ threads.old.places }
    ensures same { IsSame spots.old spots.new }
    ensures told { AreToldAlike ct sum spots.old spots.new }
    ensures due { EachOn ct (λ x. x.due ≡ nat_le x.threshold sum) (wait_at spots.new.spots) }
{
    while let Some(place) = next_undue(spots, threads, stamps, ct, sum) {
        make_undue(spots, threads, stamps, ct, place);
    }
}

/// Tells the operation at a place, if it waits on a counting event that has no lists.
fn tell_one<D>(
    spots: &mut Spots<D>,
    threads: &Threads,
    stamps: &[u64],
    ct: Handle,
    sum: u64,
    place: u32,
)
    requires hung { IsHung (wait_at spots.old.spots) threads.now stamps.now }
    requires belongs { belongs stamps.now ct ≡ false }
    ensures hung { IsHung (wait_at spots.new.spots) threads.now stamps.now }
    ensures same { IsSame spots.old spots.new }
    ensures told { AreToldAlike ct sum spots.old spots.new }
    ensures here { (x : Wait) → wait_at spots.new.spots place ≡ Some x → same_handle x.ct ct ≡ true
        → x.due ≡ nat_le x.threshold sum }
    ensures others { (p : ℕ) → (p ≡ place → ⊥) → wait_at spots.new.spots p ≡ wait_at spots.old.spots p }
{
    if waits_on(spots, ct, place) {
        let due = spots.threshold(place) <= sum;
        spots.note_due(place, due);
    }
}

/// Tells those that wait on a counting event that has no lists.
fn tell_strays<D>(spots: &mut Spots<D>, threads: &Threads, stamps: &[u64], ct: Handle, sum: u64)
    requires hung { IsHung (wait_at spots.old.spots) threads.now stamps.now }
    requires at_most { length stamps.now ≤ 2 ^ 27 }
    requires belongs { belongs stamps.now ct ≡ false }
    ensures hung { IsHung (wait_at spots.new.spots) threads.now stamps.now }
    ensures same { IsSame spots.old spots.new }
    ensures told { AreToldAlike ct sum spots.old spots.new }
    ensures due { EachOn ct (λ x. x.due ≡ nat_le x.threshold sum) (wait_at spots.new.spots) }
{
    if threads.first(2 * stamps.len() as u32).is_none() {
        return;
    }
    for place in 0..spots.len() {
        tell_one(spots, threads, stamps, ct, sum, place);
    }
}

/// Tells a sum to the operations that wait on a counting event.
pub fn tell<D>(spots: &mut Spots<D>, threads: &mut Threads, stamps: &[u64], ct: Handle, sum: u64)
    requires hung { IsHung (wait_at spots.old.spots) threads.old stamps.now }
    requires at_most { length stamps.now ≤ 2 ^ 27 }
    requires within { length spots.old.spots ≤ threads.old.places }
    ensures hung { IsHung (wait_at spots.new.spots) threads.new stamps.now }
    ensures places { threads.new.places ≡ threads.old.places }
    ensures same { IsSame spots.old spots.new }
    ensures told { operations_in spots.new.spots ≡ map (told_if (waits_on ct) sum) (operations_in spots.old.spots) }
    ensures due { EachOn ct (λ x. x.due ≡ nat_le x.threshold sum) (wait_at spots.new.spots) }
{
    if belongs(stamps, ct) {
        raise(spots, threads, stamps, ct, sum);
        lower(spots, threads, stamps, ct, sum);
    } else {
        tell_strays(spots, threads, stamps, ct, sum);
    }
}
