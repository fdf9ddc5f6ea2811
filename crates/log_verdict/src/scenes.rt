//! What stands after some lines of a log: the open interfaces, what words name there, and the messages under way.

ghost use Rattle.std.specs.Prelude.{◌≡◌, is_some};
ghost use Rattle.std.specs.Option.{option_copied};
ghost use Rattle.log_verdict.specs.Scenes.{descriptor_word_at, known_at, no_interfaces, part_of, seat_at, seat_of};

use crate::kept::Kept;
use log_answers::names::{ByNumber, Flights};
use log_answers::{Knows, Sort};
use log_seats::Seat;
use ptl_types::{Handle, Rank};
use std::alloc::Global;

/// The interfaces of a log by their ranks, and the messages between them.
#[derive(Drop)]
pub struct Scene {
    pub(crate) ranks: u32,
    pub(crate) any_order: bool,
    pub(crate) seats: ByNumber<Kept>,
    pub(crate) flights: Flights,
}

impl Scene {
    /// No interface is open yet.
    pub(crate) fn new(alloc: Global, ranks: u32, any_order: bool) -> Scene
        ensures { result ≡ no_interfaces ranks any_order }
    {
        Scene {
            ranks,
            any_order,
            seats: ByNumber::new(alloc),
            flights: Flights::new(alloc),
        }
    }

    /// The interface of a rank, where it is open.
    pub(crate) fn seat(&self, rank: Rank) -> Option<&Seat>
        ensures { option_copied result ≡ seat_at rank self.now }
    {
        match self.seats.get(u64::from(rank)) {
            Some(kept) => Some(kept.seat()),
            None => None,
        }
    }

    /// Whether the interface of a rank is open.
    pub(crate) fn is_open(&self, rank: Rank) -> bool
        ensures { result ≡ is_some (seat_at rank self.now) }
    {
        match self.seat(rank) {
            Some(_) => true,
            None => false,
        }
    }
}

/// What an answer of a rank's interface is compared with, beside what is owed: that interface and the others; of no rank, what is told of
/// a message with these bytes.
#[derive(Drop)]
pub(crate) struct Around<'a> {
    pub(crate) others: &'a Scene,
    pub(crate) seat: Option<&'a Seat>,
    pub(crate) bytes: &'a [u8],
}

/// A part of a region.
fn part_of(seat: &Seat, start: u64, length: u64) -> &[u8]
    ensures { result.now ≡ part_of seat.now start length }
{
    let memory = seat.nic.memory();
    if start >= memory.len() as u64 {
        return b"";
    }
    let rest = &memory[start as usize..];
    if length >= rest.len() as u64 {
        return rest;
    }
    &rest[..length as usize]
}

/// The interface of a rank, which is this one or one of the others.
fn seat_of<'b>(seat: Option<&'b Seat>, others: &'b Scene, rank: Rank) -> Option<&'b Seat>
    ensures { option_copied result ≡ seat_of (option_copied seat.entry) others.now rank }
{
    match seat {
        Some(seat) => {
            if seat.nic.rank() == rank {
                Some(seat)
            } else {
                others.seat(rank)
            }
        }
        None => others.seat(rank),
    }
}

/// The word of a descriptor of an interface.
fn descriptor_of(seat: Option<&Seat>, md: Handle) -> Option<&[u8]>
    ensures { option_copied result ≡ descriptor_word_at (option_copied seat.entry) md }
{
    match seat {
        Some(seat) => seat.descriptors.word(md),
        None => None,
    }
}

impl<'a> Knows for Around<'a> {
    ghost known = { λ a. known_at (option_copied a.seat) a.bytes.now a.others.now };

    fn is_free(&self, sort: Sort, word: &[u8]) -> bool {
        match self.seat {
            Some(seat) => seat.is_free(sort, word),
            None => false,
        }
    }

    fn is_ready(&self, word: &[u8]) -> bool {
        let Some(seat) = self.seat else {
            return false;
        };
        match seat.operations.number(word) {
            Some(number) => seat.nic.is_ready(number),
            None => false,
        }
    }

    fn descriptor_word(&self, rank: Rank, md: Handle) -> Option<&[u8]> {
        descriptor_of(seat_of(self.seat, self.others, rank), md)
    }

    fn entry_word(&self, entry: Handle) -> Option<&[u8]> {
        match self.seat {
            Some(seat) => seat.entries.word(entry),
            None => None,
        }
    }

    fn operation_word(&self, number: u32) -> Option<&[u8]> {
        match self.seat {
            Some(seat) => seat.operations.word(number),
            None => None,
        }
    }

    fn part(&self, start: u64, length: u64) -> &[u8] {
        match self.seat {
            Some(seat) => part_of(seat, start, length),
            None => b"",
        }
    }

    fn message(&self) -> &[u8] {
        self.bytes
    }
}
