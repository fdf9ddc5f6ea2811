//! The answers that are owed, written out where a log has none.

ghost use Rattle.std.specs.Prelude.{◌≡◌, ◌++◌, [], IfOk, OnOk, Some};
ghost use Rattle.std.specs.Option.{option_copied};
ghost use Rattle.log_answers.specs.Printing.{owed_text};
ghost use Rattle.log_verdict.specs.Answering.{before_name, chosen_name, filled_text, letter_of, numbered, word_if};
ghost use Rattle.log_verdict.specs.Scenes.{known_at};

use crate::printed::Printed;
use crate::scenes::{Around, Scene};
use itoa::Buffer;
use log_answers::names::{Flights, Postings};
use log_answers::{Owed, Sort, push_owed};
use log_seats::{Seat, ready_number};
use ptl_types::NoMemory;
use std::alloc::Global;

/// A letter and a number.
fn numbered(alloc: Global, letter: u8, number: u64) -> Result<Option<Printed>, NoMemory>
    ensures { IfOk result (λ name. name ≡ Some (numbered letter number)) }
{
    let mut buffer = Buffer::new();
    let mut name = Vec::new(alloc);
    name.push(letter)?;
    name.extend_from_slice(buffer.format(number).as_bytes())?;
    Ok(Some(Printed::of(name)))
}

/// The letter of a sort of things.
fn letter_of(sort: Sort) -> u8
    ensures { result ≡ letter_of sort }
{
    match sort {
        Sort::Counter => b'c',
        Sort::Queue => b'q',
        Sort::Descriptor => b'd',
        Sort::Entry => b'm',
    }
}

/// The word of an operation that waits, where there is one.
fn word_if(
    alloc: Global,
    number: Option<u32>,
    operations: &Postings,
) -> Result<Option<Printed>, NoMemory>
    ensures { IfOk result (λ name. name ≡ word_if number operations.now) }
{
    let Some(number) = number else {
        return Ok(None);
    };
    match operations.word(number) {
        Some(word) => {
            let name = word.to_vec(alloc)?;
            Ok(Some(Printed::of(name)))
        }
        None => Ok(None),
    }
}

/// The name that is chosen in an answer, where a device may choose: a new thing is called by its sort and how many of them its interface
/// made before, a message by how many were sent before, and of the ready operations the first is told.
pub(crate) fn chosen_name(
    alloc: Global,
    flights: &Flights,
    seat: &Seat,
    owed: &Owed,
) -> Result<Option<Printed>, NoMemory>
    ensures { IfOk result (λ name. name ≡ chosen_name flights.now seat.now owed.now) }
{
    match owed {
        Owed::New(sort, handle) => numbered(alloc, letter_of(*sort), handle.stamp),
        Owed::Linked(handle) => numbered(alloc, b'm', handle.stamp),
        Owed::Message => numbered(alloc, b'w', flights.sent()),
        Owed::Delivered(_, answers) => {
            if *answers {
                numbered(alloc, b'w', flights.sent())
            } else {
                Ok(None)
            }
        }
        Owed::Ready => word_if(alloc, ready_number(&seat.nic, 0), &seat.operations),
        _ => Ok(None),
    }
}

/// Adds what is owed before a name.
fn push_before(out: &mut Vec<u8>, owed: &Owed, around: &Around) -> Result<(), NoMemory>
    ensures { OnOk result (out.new.items ≡ out.old.items
        ++ before_name (known_at (option_copied around.now.seat) around.now.bytes.now around.now.others.now) owed.now) }
{
    match owed {
        Owed::Linked(_) => {
            out.extend_from_slice(b" linked")?;
            Ok(())
        }
        Owed::Delivered(outcome, _) => {
            push_owed(out, &Owed::Delivered(*outcome, false), around)?;
            Ok(())
        }
        _ => Ok(()),
    }
}

/// What is owed as text, each word behind a space; a name that is chosen is the last word.
#[tactic(auto, unfolding(crate::specs::Answering::filled_text))]
pub(crate) fn filled_text(
    alloc: Global,
    scene: &Scene,
    seat: &Seat,
    owed: &Owed,
    name: Option<&[u8]>,
) -> Result<Printed, NoMemory>
    ensures { IfOk result (λ p. p ≡ filled_text (known_at (Some seat.now) [] scene.now) owed.now (option_copied name.entry)) }
{
    let around = Around {
        others: scene,
        seat: Some(seat),
        bytes: b"",
    };
    let mut text = Vec::new(alloc);
    match name {
        Some(name) => {
            push_before(&mut text, owed, &around)?;
            text.push(b' ')?;
            text.extend_from_slice(name)?;
            Ok(Printed::of(text))
        }
        None => {
            push_owed(&mut text, owed, &around)?;
            Ok(Printed::of(text))
        }
    }
}
