//! Interfaces behind pointers.

ghost use Rattle.std.specs.Prelude.{◌≡◌, IfOk, OnOk, Some};
ghost use Rattle.std.specs.Option.{option_copied};
ghost use Rattle.log_seats.specs.Answers.{Answers, Ends, arrived, fires_at, left};
ghost use Rattle.log_seats.specs.Seats.{with_thing};

use log_answers::Sort;
use log_lines::Call;
use log_seats::{After, Seat, answer, arrives, fire_number};
use ptl_types::{Handle, Message, NoMemory};
use std::alloc::Global;
use std::marker::Model;

/// An open interface behind a pointer: it is large, and is taken out of a scene and put back at each call.
#[derive(Drop)]
pub(crate) struct Kept {
    seat: Box<Seat>,
}

impl Model for Kept {
    ghost use Rattle.log_seats.specs.declared.seats.Seat.{Seat};

    ghost Value = { Seat };

    ghost view = { λ k. k.seat.value };
}

impl Kept {
    /// This interface.
    pub(crate) fn of(alloc: Global, seat: Seat) -> Result<Kept, NoMemory>
        ensures { IfOk result (λ k. k ≡ seat) }
    {
        match Box::new(alloc, seat) {
            Ok(seat) => Ok(Kept { seat }),
            Err(_) => Err(NoMemory),
        }
    }

    /// The interface.
    pub(crate) fn seat(&self) -> &Seat
        ensures { result.now ≡ self.now }
    {
        &self.seat
    }

    /// Makes a call of it.
    pub(crate) fn answer(&mut self, alloc: Global, call: &Call) -> Result<After, NoMemory>
        ensures { IfOk result (λ a. Answers call.now self.old (left self.new a)) }
    {
        answer(alloc, &mut self.seat, call)
    }

    /// A message arrives at it.
    pub(crate) fn arrives(&mut self, message: Message) -> After
        ensures { Ends self.new result (arrived message self.old) }
    {
        arrives(&mut self.seat, message)
    }

    /// The operation of a number fires.
    pub(crate) fn fire(&mut self, number: u32) -> After
        ensures { Ends self.new result (fires_at (Some number) self.old) }
    {
        fire_number(&mut self.seat, number)
    }

    /// A new thing, with its word where it has one.
    pub(crate) fn bind(
        &mut self,
        alloc: Global,
        sort: Sort,
        handle: Handle,
        word: Option<&[u8]>,
    ) -> Result<(), NoMemory>
        ensures { OnOk result (self.new ≡ with_thing sort handle (option_copied word.entry) self.old) }
    {
        self.seat.bind(alloc, sort, handle, word)
    }
}
