//! What a slot of the table holds.

ghost use Rattle.rank_slots.specs.Slots.{Tied};

use crate::hints::Hints;
use crate::ports::{InPort, OutPort};
use rank_node::Node;
use schedule_compiler::Job;

/// A rank's node and the ends of its wires. What is large stands behind a pointer, since a slot is moved at each turn.
#[derive(Drop)]
pub struct TurnRank {
    /// The job.
    pub job: Job,
    /// The rank's node.
    pub node: Box<Node>,
    /// The out ends of the lanes from the rank.
    pub outs: Vec<OutPort>,
    /// The in ends of the lanes to the rank.
    pub ins: Vec<InPort>,
    /// Where ends and messages are likely to be.
    pub hints: Box<Hints>,
    pub ghost tied: { Tied job.schedule.plan job.inputs node.value outs.items ins.items },
}
