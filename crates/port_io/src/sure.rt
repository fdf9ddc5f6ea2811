//! A source and a sink in memory that never fail.

ghost use Rattle.std.specs.Prelude.{◌≡◌, ◌+◌, ◌<◌, ◌≤◌, IfOk, IsOk, [], length, take, drop, min};
ghost use Rattle.ptl_types.specs.Handles.{one_more};
ghost use Rattle.port_io.specs.Ends.{Appends};
ghost use Rattle.port_io.specs.Memory.{jar_after, taken_in};

use crate::ends::{Failed, Sink, Source};
use ptl_types::{Bytes, NoMemory};
use std::alloc::Global;
use std::marker::Model;

/// Bytes to read. No read fails, and each takes all that it can. It means the bytes that are left.
#[derive(Drop)]
pub struct SureSource {
    bytes: Bytes,
    place: usize,
}

impl Model for SureSource {
    ghost use Rattle.std.specs.Prelude.{◌≤◌, List, ℕ, length, drop};

    ghost Value = { List ℕ };

    ghost view = { λ s. drop s.place s.bytes.list };

    ghost invariant = { λ s. s.place ≤ length s.bytes.list };
}

impl SureSource {
    /// A source of these bytes. It takes no memory.
    pub fn new(bytes: Bytes) -> SureSource
        ensures { result ≡ bytes.list }
    {
        SureSource { bytes, place: 0 }
    }
}

impl Source for SureSource {
    ghost use Rattle.std.specs.Prelude.{Some};

    ghost inflow = { λ left. record { left = Some left; faults = 0 } };

    fn read(&mut self, into: &mut [u8]) -> Result<usize, Failed>
        ensures exact { result ≡ Ok (min (length into.old) (length self.old)) }
        ensures after { IfOk result (λ n. self.new ≡ drop n self.old) }
        ensures bytes { IfOk result (λ n. take n into.new ≡ take n self.old) }
        ensures end { IfOk result (λ n. 0 < length into.old → n ≡ 0 → self.old ≡ []) }
    {
        let rest = &self.bytes.as_slice()[self.place..];
        let count = into.len().min(rest.len());
        into[..count].copy_from_slice(&rest[..count]);
        self.place += count;
        Ok(count)
    }
}

/// A sink that never fails. It keeps the first bytes, as many as it has room for, and counts the rest; it tells what it
/// took as long as that fits the room.
#[derive(Drop)]
pub struct SureSink {
    kept: Vec<u8>,
    room: u64,
    more: u64,
    finishes: u64,
}

impl Model for SureSink {
    ghost use Rattle.std.specs.Prelude.{◌≤◌, vec_len, vec_capacity};
    ghost use Rattle.port_io.specs.Memory.{Jar};

    ghost Value = { Jar };

    ghost view = { λ s. record { kept = s.kept.items; room = s.room; more = s.more; finishes = s.finishes } };

    ghost invariant = { λ s. (vec_len s.kept ≤ s.room) × (s.room ≤ vec_capacity s.kept) };
}

impl SureSink {
    /// A sink with room for so many bytes, reserved at once.
    pub fn with_room(alloc: Global, room: u64) -> Result<SureSink, NoMemory>
        ensures { IfOk result (λ sink. sink ≡ record { kept = []; room = room; more = 0; finishes = 0 }) }
    {
        match Vec::with_capacity(alloc, room as usize) {
            Ok(kept) => Ok(SureSink {
                kept,
                room,
                more: 0,
                finishes: 0,
            }),
            Err(_) => Err(NoMemory),
        }
    }

    /// The bytes that it kept, in order.
    pub fn as_slice(&self) -> &[u8]
        ensures { result.now ≡ self.now.kept }
    {
        self.kept.as_slice()
    }

    /// How many bytes it took beside those that it kept.
    pub fn more(&self) -> u64
        ensures { result ≡ self.now.more }
    {
        self.more
    }

    /// How often it was finished.
    pub fn finishes(&self) -> u64
        ensures { result ≡ self.now.finishes }
    {
        self.finishes
    }
}

impl Sink for SureSink {
    ghost use Rattle.port_io.specs.Memory.{outflow_of_jar};

    ghost outflow = { outflow_of_jar };

    fn write(&mut self, piece: &[u8]) -> Result<usize, Failed>
        ensures exact { result ≡ Ok (length piece.now) }
        ensures after { self.new ≡ jar_after self.old piece.now }
        ensures appended { IfOk result (λ n. Appends (taken_in self.old) (taken_in self.new) (take n piece.now)) }
    {
        let free = (self.room - self.kept.len() as u64) as usize;
        let (fitting, others) = piece.split_at(piece.len().min(free));
        let _ = self.kept.extend_from_slice(fitting);
        self.more = self.more.saturating_add(others.len() as u64);
        Ok(piece.len())
    }

    fn finish(&mut self) -> Result<(), Failed>
        ensures exact { IsOk result }
        ensures after { self.new ≡ record self.old { finishes = one_more self.old.finishes } }
    {
        self.finishes = self.finishes.saturating_add(1);
        Ok(())
    }
}
