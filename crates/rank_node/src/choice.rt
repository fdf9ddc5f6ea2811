//! Which operations of a rank are ready and would find their lane open.

ghost use Rattle.std.specs.Prelude.{◌≡◌, ◌<◌, true, false, IsSome, Some, slice_get, slice_index_or, length, if◌then◌else◌};
ghost use Rattle.ni_model.specs.Ready.{is_ready, posted_at, ready_numbers_to, target_at};
ghost use Rattle.rank_node.specs.Gates.{goes_out, may_go, open_numbers};

use crate::gates::Gates;
use portals_ni::Nic;
use ptl_types::Rank;

/// Whether the message of a pending operation, if it has one, would find its lane open.
fn is_open(nic: &Nic, gates: &Gates, number: u32) -> bool
    requires { IsSome (posted_at number nic.now.pending) }
    ensures { result ≡ goes_out gates.now (target_at nic.now number) }
{
    match nic.lane_of(number) {
        Some(d) => !gates.is_closed(d),
        None => true,
    }
}

/// Whether an operation is ready and would find its lane open.
pub fn may_fire(nic: &Nic, gates: &Gates, number: u32) -> bool
    ensures { result ≡ may_go gates.now nic.now number }
{
    nic.is_ready(number) && is_open(nic, gates, number)
}

/// How many operations are ready whose message would find its lane to this rank closed.
fn held_up(nic: &Nic, gates: &Gates, d: Rank) -> u32
    ensures { result ≡ (if slice_index_or gates.now d false then length (ready_numbers_to d nic.now) else 0) }
{
    if gates.is_closed(d) {
        nic.ready_count_to(d)
    } else {
        0
    }
}

/// How many operations are ready and would find their lane open. Where a lane is closed it goes through the lanes of the rank.
pub fn open_count(nic: &Nic, gates: &Gates) -> u32
    ensures { result ≡ length (open_numbers gates.now nic.now) }
{
    let mut count = nic.ready_count();
    if !gates.any() {
        return count;
    }
    for d in 0..gates.len() {
        count -= held_up(nic, gates, d);
    }
    count
}

/// The number of the one at position `i` among these, by rising number, from 0. Where a lane is closed it goes through those that are
/// ready.
pub fn open_at(nic: &Nic, gates: &Gates, i: u32) -> u32
    requires { i < length (open_numbers gates.now nic.now) }
    ensures { slice_get (open_numbers gates.now nic.now) i ≡ Some result }
{
    if !gates.any() {
        return nic.ready_at(i);
    }
    let mut rest = i;
    for position in 0..nic.ready_count() {
        let number = nic.ready_at(position);
        if is_open(nic, gates, number) {
            if rest == 0 {
                return number;
            }
            rest -= 1;
        }
    }
    unreachable!()
}
