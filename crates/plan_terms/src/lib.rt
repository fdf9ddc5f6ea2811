//! What the bytes of a plan's cells are computed from, for all inputs: two cells whose bytes are computed alike hold the same in the
//! end, whatever the inputs.
#![tactic(auto)]

mod evaluating;
mod folding;
mod next_cell;
mod places;
pub mod terms;

pub use evaluating::{CellPlaces, cell_places};
pub use places::Places;
