//! All messages arrive and all ready operations fire, in a fixed order.

ghost use Rattle.std.specs.Prelude.{◌≡◌, IfOk, OnOk};
ghost use Rattle.log_verdict.specs.Settling.{ArrivesAs, FiredOrRests, FiresAs, MovedOrRests, Settles, next_arrival, next_ready};

use crate::answering::takes;
use crate::scenes::Scene;
use log_seats::ready_number;
use ptl_types::{NoMemory, Rank};
use std::alloc::Global;

/// The number of the oldest message whose target is open, and its target.
fn next_arrival(scene: &Scene) -> Option<(u64, Rank)>
    ensures { result ≡ next_arrival scene.now.flights.messages scene.now }
{
    for (age, flight) in scene.flights.all() {
        let target = flight.message().header().target;
        if scene.is_open(target) {
            return Some((*age, target));
        }
    }
    None
}

/// A message arrives, and its answer is sent. One that is under way and whose target is open does.
fn arrive(alloc: Global, scene: &mut Scene, age: u64, target: Rank) -> Result<(), NoMemory>
    ensures { OnOk result (ArrivesAs age target scene.old scene.new) }
{
    let Some(mut seat) = scene.seats.take(u64::from(target)) else {
        return Err(NoMemory);
    };
    let Some(message) = scene.flights.take(age) else {
        return Err(NoMemory);
    };
    let after = seat.arrives(message);
    takes(alloc, scene, seat, after, None)?;
    Ok(())
}

/// The lowest rank that has a ready operation, and the number of the first there.
fn next_ready(scene: &Scene) -> Option<(Rank, u32)>
    ensures { result ≡ next_ready scene.now.seats }
{
    for (rank, kept) in scene.seats.iter() {
        let _ = rank;
        let seat = kept.seat();
        if let Some(number) = ready_number(&seat.nic, 0) {
            return Some((seat.nic.rank(), number));
        }
    }
    None
}

/// A ready operation of an open interface fires, and its message is sent.
fn fire(alloc: Global, scene: &mut Scene, rank: Rank, number: u32) -> Result<(), NoMemory>
    ensures { OnOk result (FiresAs rank number scene.old scene.new) }
{
    let Some(mut seat) = scene.seats.take(u64::from(rank)) else {
        return Err(NoMemory);
    };
    let after = seat.fire(number);
    takes(alloc, scene, seat, after, None)?;
    Ok(())
}

/// One operation fires; whether one was ready.
fn fire_next(alloc: Global, scene: &mut Scene) -> Result<bool, NoMemory>
    ensures { IfOk result (λ fired. FiredOrRests fired scene.old scene.new) }
{
    match next_ready(scene) {
        Some((rank, number)) => {
            fire(alloc, scene, rank, number)?;
            Ok(true)
        }
        None => Ok(false),
    }
}

/// One message arrives, or where none can, one ready operation fires; whether there was either.
fn step_once(alloc: Global, scene: &mut Scene) -> Result<bool, NoMemory>
    ensures { IfOk result (λ moved. MovedOrRests moved scene.old scene.new) }
{
    match next_arrival(scene) {
        Some(found) => {
            arrive(alloc, scene, found.0, found.1)?;
            Ok(true)
        }
        None => {
            let fired = fire_next(alloc, scene)?;
            Ok(fired)
        }
    }
}

/// Lets all messages arrive whose targets are open, in the order of their sending, and where none is left fires the ready operation of
/// the lowest rank and number, until there is neither.
pub(crate) fn settle(alloc: Global, scene: &mut Scene) -> Result<(), NoMemory>
    ensures { OnOk result (Settles scene.old scene.new) }
{
    'moves: for _ in 0..u64::MAX {
        let moved = step_once(alloc, scene)?;
        if !moved {
            return Ok(());
        }
    }
    Err(NoMemory)
}
