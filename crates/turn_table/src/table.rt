//! The table, its hands and its turns.

use crate::views::{HandView, Past};
use atomic_table::{Seat, Table, TableRule};
use std::alloc::Global;
use std::marker::Model;
use std::snapshot::Snapshot;

/// The rule of the table: where each value is, what each hand saw, and whose each place of a past is.
pub struct TurnRule;

impl<T: Past> TableRule<Option<T>, HandView<T>, Snapshot<Vec<T>>> for TurnRule {
    ghost use Rattle.turn_table.specs.Views.{first_view};
    ghost use Rattle.turn_table.specs.Rules.{KeepsTurns};

    ghost holds = { λ key. KeepsTurns T.past T.name key.value.items };

    ghost first = { λ key. first_view key.value.items };
}

/// A table of slots whose values are taken in turns. Threads share it by reference, and each has a hand of its own.
///
/// It stands for its own identity and for the values that it was opened with, in the order of the slots.
#[derive(Drop)]
pub struct Turns<T: Past> {
    pub(crate) table: Table<Option<T>, HandView<T>, Snapshot<Vec<T>>, TurnRule, Global>,
}

impl<T: Past> Model for Turns<T> {
    ghost use Rattle.std.specs.Prelude.{◌<◌};
    ghost use Rattle.turn_table.specs.States.{TableState, IsSized};

    ghost Value = { TableState T };

    ghost view = { λ t. record { table = t.table.shared.table_id; start = t.table.shared.key.value.items } };

    ghost invariant = { λ t. IsSized t.table.shared.table_id.words t.table.shared.table_id.slots t.table.shared.key.value.items };
}

/// What one user of the table has: the right to take turns, one at a time.
///
/// It stands for its table and for what it knows: its parts, the turn that it has, and for each slot its last turn there, the
/// places in the past that it added, and how many of its tries found the slot out.
#[derive(Drop)]
pub struct TurnHand<T: Past> {
    pub(crate) seat: Seat<Option<T>, HandView<T>>,
    // Room for all values, at the closing.
    pub(crate) room: Vec<T>,
    // For each slot how many places it added, and how long the past was at the end of its last turn.
    pub(crate) made: Vec<u64>,
    pub(crate) seen: Vec<u64>,
    // How long the past was that it took last.
    pub(crate) found: u64,
}

impl<T: Past> Model for TurnHand<T> {
    ghost use Rattle.std.specs.Prelude.{vec_capacity};
    ghost use Rattle.turn_table.specs.States.{HandState, HandKeeps};

    ghost Value = { HandState T };

    ghost view = { λ h. record { table = h.seat.table_id; knows = h.seat.me.0 } };

    ghost invariant = { λ h. HandKeeps T.past h.seat.table_id.slots h.seat.me h.room.items (vec_capacity h.room) h.made.items h.seen.items
        h.found };
}

/// A value that is out. It can't be let go: it must be given back.
pub struct Turn<T> {
    /// The slot that it is of.
    pub slot: u32,
    /// The value.
    pub value: T,
}
