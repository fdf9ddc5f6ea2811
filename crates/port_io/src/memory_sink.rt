//! A sink in memory that takes and fails by a script.

ghost use Rattle.std.specs.Prelude.{◌≡◌, ◌<◌, ◌≤◌, ◌↔◌, IfOk, OnOk, OnErr, IsErr, [], length};
ghost use Rattle.ptl_types.specs.Handles.{one_more};
ghost use Rattle.port_io.specs.Counts.{Rose};
ghost use Rattle.port_io.specs.Turns.{passing};
ghost use Rattle.port_io.specs.Memory.{count_or_failed, accepted, tray_after, finished_tray};

use crate::ends::{Failed, Sink};
use crate::turns::IoTurns;
use ptl_types::NoMemory;
use std::alloc::Global;
use std::marker::Model;

/// A buffer of a fixed room, where each call uses up one turn of a script. A turn that fails, and a write whose bytes
/// would pass the room, raise the count of faults and take nothing. After the last turn each call takes all that it can.
#[derive(Drop)]
pub struct MemorySink {
    taken: Vec<u8>,
    room: u64,
    turns: IoTurns,
    faults: u64,
    finishes: u64,
}

impl Model for MemorySink {
    ghost use Rattle.std.specs.Prelude.{◌≤◌, vec_len, vec_capacity};
    ghost use Rattle.port_io.specs.Memory.{Tray};

    ghost Value = { Tray };

    ghost view = { λ s. record { taken = s.taken.items; room = s.room; turns = s.turns; faults = s.faults; finishes = s.finishes } };

    ghost invariant = { λ s. (vec_len s.taken ≤ s.room) × (s.room ≤ vec_capacity s.taken) };
}

impl MemorySink {
    /// A sink with no room that follows these turns. It takes no memory.
    pub fn new(alloc: Global, turns: IoTurns) -> MemorySink
        ensures { result ≡ record { taken = []; room = 0; turns = turns; faults = 0; finishes = 0 } }
    {
        MemorySink {
            taken: Vec::new(alloc),
            room: 0,
            turns,
            faults: 0,
            finishes: 0,
        }
    }

    /// A sink with room for so many bytes, reserved at once, that follows these turns. Its counts begin at 0.
    pub fn with_room(alloc: Global, turns: IoTurns, room: u64) -> Result<MemorySink, NoMemory>
        ensures { IfOk result (λ sink. sink ≡ record { taken = []; room = room; turns = turns; faults = 0; finishes = 0 }) }
    {
        match Vec::with_capacity(alloc, room as usize) {
            Ok(taken) => Ok(MemorySink {
                taken,
                room,
                turns,
                faults: 0,
                finishes: 0,
            }),
            Err(_) => Err(NoMemory),
        }
    }

    /// The bytes that it took, in order.
    pub fn as_slice(&self) -> &[u8]
        ensures { result.now ≡ self.now.taken }
    {
        self.taken.as_slice()
    }

    /// How often it was finished.
    pub fn finishes(&self) -> u64
        ensures { result ≡ self.now.finishes }
    {
        self.finishes
    }

    /// How many of its calls failed.
    pub fn faults(&self) -> u64
        ensures { result ≡ self.now.faults }
    {
        self.faults
    }
}

impl Sink for MemorySink {
    ghost use Rattle.port_io.specs.Memory.{outflow_of};

    ghost outflow = { outflow_of };

    fn write(&mut self, piece: &[u8]) -> Result<usize, Failed>
        ensures exact { result ≡ count_or_failed (accepted self.old (length piece.now)) }
        ensures after { self.new ≡ tray_after self.old piece.now (accepted self.old (length piece.now)) }
        ensures within { IfOk result (λ n. n ≤ length piece.now) }
        ensures some { IfOk result (λ n. 0 < length piece.now → 0 < n) }
        ensures failed { OnErr result (Rose self.old.faults self.new.faults) }
        ensures faults { self.old.faults ≤ self.new.faults }
    {
        let free = self.room - self.taken.len() as u64;
        let passing = self.turns.pass(piece.len());
        let Some(count) = passing.filter(|n| *n as u64 <= free) else {
            self.faults = self.faults.saturating_add(1);
            return Err(Failed);
        };
        let _ = self.taken.extend_from_slice(&piece[..count]);
        Ok(count)
    }

    fn finish(&mut self) -> Result<(), Failed>
        ensures exact { IsErr result ↔ (passing self.old.turns 1 ≡ None) }
        ensures after { self.new ≡ finished_tray self.old (passing self.old.turns 1) }
        ensures finished { OnOk result (self.new.finishes ≡ one_more self.old.finishes) }
        ensures unfinished { OnErr result (self.new.finishes ≡ self.old.finishes) }
        ensures failed { OnErr result (Rose self.old.faults self.new.faults) }
        ensures faults { self.old.faults ≤ self.new.faults }
    {
        if self.turns.pass(1).is_none() {
            self.faults = self.faults.saturating_add(1);
            return Err(Failed);
        }
        self.finishes = self.finishes.saturating_add(1);
        Ok(())
    }
}
