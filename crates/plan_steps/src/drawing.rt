//! A plan that is drawn step by step.

use plan_core::{BufferCells, Frontier, Plan};

/// A plan, with the cell of each buffer at each rank and the exit of each rank. After a call that answers that there was no memory it is
/// of no use any more.
#[derive(Debug, Drop)]
pub struct Drawing {
    /// The cells and links.
    pub plan: Plan,
    /// The cells that hold the buffers.
    pub held: BufferCells,
    /// The cell at which each rank stands.
    pub exits: Frontier,
}
