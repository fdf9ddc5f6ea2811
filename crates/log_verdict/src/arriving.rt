//! Messages that arrive.

ghost use Rattle.std.specs.Prelude.{◌≡◌, IfOk, option_copied};
ghost use Rattle.log_verdict.specs.Answering.{came};
ghost use Rattle.log_verdict.specs.Steps.{ArrivesAt, Delivers, DeliversAged, DeliversInTurn, StaysAt, is_elsewhere, older, oldest_like};
ghost use Rattle.log_verdict.specs.Steps.{other_than, too_early, word_at};

use crate::answering::{Step, answered, flawed, spaced};
use crate::scenes::Scene;
use guarded_ni::Misuse;
use log_answers::names::{Flight, Flights};
use log_seats::{misuse_word, told};
use log_words::{Flaw, Rest, Word};
use ptl_types::{NoMemory, Rank};
use std::alloc::Global;

/// The word of a message, `?` where it has none.
fn word_at(scene: &Scene, age: u64) -> &[u8]
    ensures { result.now ≡ word_at age scene.now }
{
    match scene.flights.at(age) {
        Some(flight) => match flight.word() {
            Some(word) => word,
            None => b"?",
        },
        None => b"?",
    }
}

/// Whether a message under way is for another rank.
fn is_elsewhere(flight: Option<&Flight>, rank: Rank) -> bool
    ensures { result ≡ is_elsewhere rank (option_copied flight.entry) }
{
    match flight {
        Some(flight) => flight.message().header().target != rank,
        None => false,
    }
}

/// This, where it isn't the number.
fn other_than(age: u64, first: Option<u64>) -> Option<u64>
    ensures { result ≡ other_than age first }
{
    match first {
        Some(first) => { if first == age { None } else { Some(first) } }
        None => None,
    }
}

/// The oldest message of the lane of a message.
fn oldest_like(flight: Option<&Flight>, flights: &Flights) -> Option<u64>
    ensures { result ≡ oldest_like (option_copied flight.entry) flights.now }
{
    match flight {
        Some(flight) => flights.oldest(flight.message().header()),
        None => None,
    }
}

/// The older message of the same lane that is to arrive first, where lanes are in order and there is one.
fn older(scene: &Scene, rank: Rank, age: u64) -> Option<u64>
    ensures { result ≡ older rank age scene.now }
{
    if scene.any_order || is_elsewhere(scene.flights.at(age), rank) {
        None
    } else {
        other_than(age, oldest_like(scene.flights.at(age), &scene.flights))
    }
}

/// A message that comes before its turn: an older one of its lane is owed.
fn too_early(alloc: Global, scene: &Scene, message: &Word, first: u64) -> Result<Step, NoMemory>
    ensures { IfOk result (λ step. came scene.now step ≡ too_early message.now first scene.now) }
{
    let said = spaced(alloc, message.text())?;
    let owed = spaced(alloc, word_at(scene, first))?;
    Ok(Step::Differs(message.column(), said, owed))
}

/// The message of a number arrives at an open interface that it is for.
fn arrives_at(
    alloc: Global,
    scene: &mut Scene,
    rank: Rank,
    age: u64,
    said: Option<Rest>,
) -> Result<Step, NoMemory>
    ensures { IfOk result (λ step. ArrivesAt age rank said.entry scene.old (came scene.new step)) }
{
    let Some(mut seat) = scene.seats.take(u64::from(rank)) else {
        return Err(NoMemory);
    };
    let Some(message) = scene.flights.take(age) else {
        return Err(NoMemory);
    };
    let after = seat.arrives(message);
    let step = answered(alloc, scene, seat, said, after)?;
    Ok(step)
}

/// A message is said to arrive at an open interface that it isn't for.
fn stays(alloc: Global, scene: &mut Scene, rank: Rank, said: Option<Rest>) -> Result<Step, NoMemory>
    ensures { IfOk result (λ step. StaysAt rank said.entry scene.old (came scene.new step)) }
{
    let Some(seat) = scene.seats.take(u64::from(rank)) else {
        return Err(NoMemory);
    };
    let after = told(misuse_word(Misuse::Elsewhere));
    let step = answered(alloc, scene, seat, said, after)?;
    Ok(step)
}

/// The message of a number arrives, in its turn.
fn deliver_in_turn(
    alloc: Global,
    scene: &mut Scene,
    rank: Rank,
    age: u64,
    said: Option<Rest>,
) -> Result<Step, NoMemory>
    ensures { IfOk result (λ step. DeliversInTurn age rank said.entry scene.old (came scene.new step)) }
{
    let elsewhere = is_elsewhere(scene.flights.at(age), rank);
    if elsewhere {
        let step = stays(alloc, scene, rank, said)?;
        Ok(step)
    } else {
        let step = arrives_at(alloc, scene, rank, age, said)?;
        Ok(step)
    }
}

/// The message of a number arrives.
fn deliver_aged(
    alloc: Global,
    scene: &mut Scene,
    rank: Rank,
    age: u64,
    message: &Word,
    said: Option<Rest>,
) -> Result<Step, NoMemory>
    ensures { IfOk result (λ step. DeliversAged age message.now rank said.entry scene.old (came scene.new step)) }
{
    match older(scene, rank, age) {
        Some(first) => {
            let step = too_early(alloc, scene, message, first)?;
            Ok(step)
        }
        None => {
            let step = deliver_in_turn(alloc, scene, rank, age, said)?;
            Ok(step)
        }
    }
}

/// A message arrives.
pub(crate) fn deliver(
    alloc: Global,
    scene: &mut Scene,
    rank: Rank,
    message: &Word,
    said: Option<Rest>,
) -> Result<Step, NoMemory>
    ensures { IfOk result (λ step. Delivers message.now rank said.entry scene.old (came scene.new step)) }
{
    match scene.flights.age(message.text()) {
        Some(age) => {
            let step = deliver_aged(alloc, scene, rank, age, message, said)?;
            Ok(step)
        }
        None => Ok(flawed(message.column(), Flaw::UnknownMessage)),
    }
}
