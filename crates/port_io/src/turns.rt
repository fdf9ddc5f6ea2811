//! Scripts for the sources and sinks in memory.

ghost use Rattle.std.specs.Prelude.{◌≡◌, ◌<◌, ◌≤◌, [], ◌∷◌, ◌++◌, drop, OnOk, OnErr, IfSome};
ghost use Rattle.port_io.specs.Turns.{IsTurn, passing};

use ptl_types::NoMemory;
use std::alloc::Global;
use std::collections::VecDeque;
use std::marker::Model;

/// What one call of a source or a sink in memory does.
#[derive(Clone, Copy, Debug, PartialEq, Eq)]
pub enum IoTurn {
    /// The call takes at most this many bytes, which is at least 1.
    Take(u64),
    /// The call fails.
    Fail,
}

/// The turns of the calls to come, the next one first. Once they are used up, each call takes all that it can.
#[derive(Drop)]
pub struct IoTurns {
    turns: VecDeque<IoTurn>,
}

impl Model for IoTurns {
    ghost use Rattle.std.specs.Prelude.{List};
    ghost use Rattle.port_io.specs.declared.turns.IoTurn.{IoTurn};
    ghost use Rattle.port_io.specs.Turns.{AreTurns};

    ghost Value = { List IoTurn };

    ghost view = { λ t. t.turns.items };

    ghost invariant = { λ t. AreTurns t.turns.items };
}

impl IoTurns {
    /// No turns. It takes no memory.
    pub fn new(alloc: Global) -> IoTurns
        ensures { result ≡ [] }
    {
        IoTurns {
            turns: VecDeque::new(alloc),
        }
    }

    /// Adds a turn at the end. Running out of memory changes nothing.
    pub fn add(&mut self, turn: IoTurn) -> Result<(), NoMemory>
        requires { IsTurn turn }
        ensures ok { OnOk result (self.new ≡ self.old ++ turn ∷ []) }
        ensures err { OnErr result (self.new ≡ self.old) }
    {
        match self.turns.push_back(turn) {
            Ok(()) => Ok(()),
            Err(_) => Err(NoMemory),
        }
    }

    /// Uses up the next turn. Of so many bytes it answers how many the turn lets through, None where the call fails.
    pub(crate) fn pass(&mut self, bytes: usize) -> Option<usize>
        ensures passing { result ≡ passing self.old bytes }
        ensures rest { self.new ≡ drop 1 self.old }
        ensures within { IfSome result (λ n. n ≤ bytes) }
        ensures some { IfSome result (λ n. 0 < bytes → 0 < n) }
    {
        match self.turns.pop_front() {
            None => Some(bytes),
            Some(IoTurn::Take(most)) => Some(bytes.min(most as usize)),
            Some(IoTurn::Fail) => None,
        }
    }
}
