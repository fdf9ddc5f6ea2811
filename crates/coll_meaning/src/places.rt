//! The places of ranks among the members of a group.

ghost use Rattle.std.specs.Prelude.{◌≡◌, ◌≤◌, ◌<◌, ℕ, length, map, get_or, IfOk, MatchOption};
ghost use Rattle.number_lists.specs.Numbers.{from_to};
ghost use Rattle.coll_shape.specs.Meaning.{place_from};
ghost use Rattle.coll_shape.specs.WellFormed.{AreMembers};

use ptl_types::Rank;
use std::alloc::{AllocError, Global};

/// The place of a rank that isn't below the member at `next`, but above all members before it.
#[tactic(auto, using(crate::proofs::PlaceAt::place_next, crate::proofs::PlaceAt::place_none, crate::proofs::PlaceAt::place_beyond))]
fn place_here(group: &[Rank], next: u32, r: Rank) -> Option<u32>
    requires below { (i : ℕ) → i < next → get_or group.now i 0 < r }
    requires above { (i : ℕ) → next ≤ i → i < length group.now → r ≤ get_or group.now i 0 }
    requires rising { (i j : ℕ) → i < j → j < length group.now → get_or group.now i 0 < get_or group.now j 0 }
    ensures place { result ≡ place_from 0 group.now r }
    ensures others { MatchOption result ((i : ℕ) → next ≤ i → i < length group.now → r < get_or group.now i 0)
        (λ i. (i ≡ next) × (next < length group.now) × (get_or group.now next 0 ≡ r)) }
{
    match group.get(next as usize) {
        Some(member) => { if *member == r { Some(next) } else { None } }
        None => None,
    }
}

/// For each rank its place among the members, in one pass over both.
pub fn places_of(alloc: Global, ranks: u32, group: &[Rank]) -> Result<Vec<Option<u32>>, AllocError>
    requires { AreMembers ranks group.now }
    ensures { IfOk result (λ v. v.items ≡ map (place_from 0 group.now) (from_to 0 ranks)) }
{
    let mut places = Vec::with_capacity(alloc, ranks as usize)?;
    let mut next = 0u32;
    for r in 0..ranks {
        let place = place_here(group, next, r);
        if place.is_some() {
            next += 1;
        }
        places.push(place)?;
    }
    Ok(places)
}
