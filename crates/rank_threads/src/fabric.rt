//! A fabric: all ranks of a job in a table of turns, and the wires between them.

use pair_wires::Wire;
use rank_node::Node;
use rank_slots::{Gate, Mail, TurnRank};
use schedule_compiler::Job;
use std::marker::Model;
use turn_table::{TurnHand, Turns};
use worlds::Frame;

/// What one worker has.
pub type Hand = TurnHand<TurnRank>;

/// All ranks of a job, in slots that workers take in turns, and the wires between them. Threads share it by reference.
///
/// It stands for the job, for the table of its ranks, and for which wires there are.
#[derive(Drop)]
pub struct Fabric<G: Gate + Drop> {
    pub(crate) turns: Turns<TurnRank>,
    pub(crate) wires: Vec<Wire>,
    // Where messages are likely to lie.
    pub(crate) mail: Mail,
    pub(crate) gate: G,
    pub(crate) job: Job,
    pub(crate) ranks: u32,
    // The world that it ends as, without its nodes, and room for these.
    pub(crate) frame: Frame,
    pub(crate) room: Vec<Node>,
}

impl<G: Gate + Drop> Model for Fabric<G> {
    ghost use Rattle.std.specs.Prelude.{vec_capacity};
    ghost use Rattle.rank_threads.specs.Fabrics.{FabricKeeps, FabricState};

    ghost Value = { FabricState };

    ghost view = { λ f. record { job = f.job; turns = f.turns; wires = f.wires.items } };

    ghost invariant = { λ f. FabricKeeps f.job f.turns.start f.wires.items f.ranks f.frame f.room.items (vec_capacity f.room) };
}
