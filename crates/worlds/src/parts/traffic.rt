//! What lies between the ranks of a world, and what is possible there.

use crate::parts::lanes::{LaneTable, Setting};
use count_tree::CountTree;

/// The lanes between the ranks, and the counts of the steps that are possible. All that a world keeps beside its ranks' own states.
#[derive(Drop)]
pub struct Traffic {
    /// What they are laid out for.
    pub setting: Setting,
    /// The lanes: by source, target, request before answer.
    pub lanes: LaneTable,
    /// How many starts are possible at each rank.
    pub starts: CountTree,
    /// How many deliveries are possible on each lane.
    pub deliveries: CountTree,
    /// How many firings are possible at each rank.
    pub firings: CountTree,
}
