//! A source in memory that takes and fails by a script.

ghost use Rattle.std.specs.Prelude.{◌≡◌, ◌<◌, ◌≤◌, IfOk, OnErr, [], length, take, min};
ghost use Rattle.port_io.specs.Counts.{Rose};
ghost use Rattle.port_io.specs.Turns.{passing};
ghost use Rattle.port_io.specs.Memory.{count_or_failed, feed_after};

use crate::ends::{Failed, Source};
use crate::turns::IoTurns;
use ptl_types::Bytes;
use std::marker::Model;

/// Bytes to read, where each call uses up one turn of a script. A turn that fails raises the count of faults and takes
/// nothing. After the last turn each call takes all that it can.
#[derive(Drop)]
pub struct MemorySource {
    bytes: Bytes,
    place: usize,
    turns: IoTurns,
    faults: u64,
}

impl Model for MemorySource {
    ghost use Rattle.std.specs.Prelude.{◌≤◌, length, drop};
    ghost use Rattle.port_io.specs.Memory.{Feed};

    ghost Value = { Feed };

    ghost view = { λ s. record { left = drop s.place s.bytes.list; turns = s.turns; faults = s.faults } };

    ghost invariant = { λ s. s.place ≤ length s.bytes.list };
}

impl MemorySource {
    /// A source of these bytes that follows these turns. Its count of faults begins at 0.
    pub fn new(bytes: Bytes, turns: IoTurns) -> MemorySource
        ensures { result ≡ record { left = bytes.list; turns = turns; faults = 0 } }
    {
        MemorySource {
            bytes,
            place: 0,
            turns,
            faults: 0,
        }
    }
}

impl Source for MemorySource {
    ghost use Rattle.port_io.specs.Memory.{inflow_of};

    ghost inflow = { inflow_of };

    fn read(&mut self, into: &mut [u8]) -> Result<usize, Failed>
        ensures exact { result ≡ count_or_failed (passing self.old.turns (min (length into.old) (length self.old.left))) }
        ensures after { self.new ≡ feed_after self.old (passing self.old.turns (min (length into.old) (length self.old.left))) }
        ensures bytes { IfOk result (λ n. take n into.new ≡ take n self.old.left) }
        ensures within { IfOk result (λ n. n ≤ length into.old) }
        ensures end { IfOk result (λ n. 0 < length into.old → n ≡ 0 → self.old.left ≡ []) }
        ensures failed { OnErr result (Rose self.old.faults self.new.faults) }
        ensures faults { self.old.faults ≤ self.new.faults }
    {
        let rest = &self.bytes.as_slice()[self.place..];
        let most = into.len().min(rest.len());
        let Some(count) = self.turns.pass(most) else {
            self.faults = self.faults.saturating_add(1);
            return Err(Failed);
        };
        into[..count].copy_from_slice(&rest[..count]);
        self.place += count;
        Ok(count)
    }
}
