//! The calls of triggered operations that wait.

ghost use Rattle.std.specs.Prelude.{◌≡◌, Some, slice_get};
ghost use Rattle.log_seats.specs.Answers.{Ends, fires_at, is_ready_at, lane_owed, message_owed, rank_owed, ready_at_owed, ready_owed, yes};
ghost use Rattle.log_seats.specs.Seats.{operation_of};
ghost use Rattle.ni_model.specs.Ready.{ready_numbers};

use crate::after::{After, misuse_word, told, word, yes};
use crate::seats::Seat;
use guarded_ni::Misuse;
use log_answers::Owed;
use log_words::Word;
use portals_ni::Nic;
use ptl_types::{Message, Rank};

/// The message of a firing, where there is one.
fn fired(made: Option<Message>) -> After
    ensures { result ≡ record { owed = message_owed made; sent = made } }
{
    match made {
        Some(message) => After {
            owed: Owed::Message,
            sent: Some(message),
        },
        None => told(word(b"none")),
    }
}

/// Fires the operation of a number.
pub fn fire_number(seat: &mut Seat, number: u32) -> After
    ensures { Ends seat.new result (fires_at (Some number) seat.old) }
{
    match guarded_ni::fire(&mut seat.nic, number) {
        Ok(made) => {
            seat.operations.remove(number);
            fired(made)
        }
        Err(misuse) => told(misuse_word(misuse)),
    }
}

/// Fires an operation.
pub(crate) fn fire(seat: &mut Seat, said: &Word) -> After
    ensures { Ends seat.new result (fires_at (operation_of seat.old said.now) seat.old) }
{
    match seat.operation(said) {
        Some(number) => fire_number(seat, number),
        None => told(misuse_word(Misuse::NotReady)),
    }
}

/// A rank, where there is one.
fn rank_owed(rank: Option<Rank>) -> Owed
    ensures { result ≡ rank_owed rank }
{
    match rank {
        Some(rank) => Owed::Amount(u64::from(rank)),
        None => word(b"none"),
    }
}

/// The rank that an operation's message is for.
pub(crate) fn lane_of(seat: &Seat, said: &Word) -> Owed
    ensures { result ≡ lane_owed seat.now.nic (operation_of seat.now said.now) }
{
    match seat.operation(said) {
        Some(number) => rank_owed(seat.nic.lane_of(number)),
        None => word(b"none"),
    }
}

/// The number of the operation that is ready at a place, where there is one.
pub fn ready_number(nic: &Nic, place: u32) -> Option<u32>
    ensures { result ≡ slice_get (ready_numbers nic.now) place }
{
    if place < nic.ready_count() {
        Some(nic.ready_at(place))
    } else {
        None
    }
}

/// The operation that is ready at a place.
pub(crate) fn ready_at(seat: &Seat, place: u32) -> Owed
    ensures { result ≡ ready_at_owed (slice_get (ready_numbers seat.now.nic) place) }
{
    match ready_number(&seat.nic, place) {
        Some(number) => Owed::Operation(number),
        None => misuse_word(Misuse::NotReady),
    }
}

/// What is ready.
pub(crate) fn ready(seat: &Seat) -> Owed
    ensures { result ≡ ready_owed (ready_numbers seat.now.nic) }
{
    if seat.nic.ready_count() > 0 {
        Owed::Ready
    } else {
        word(b"none")
    }
}

/// Whether an operation is ready.
pub(crate) fn is_ready(seat: &Seat, said: &Word) -> Owed
    ensures { result ≡ yes (is_ready_at seat.now.nic (operation_of seat.now said.now)) }
{
    match seat.operation(said) {
        Some(number) => yes(seat.nic.is_ready(number)),
        None => yes(false),
    }
}
