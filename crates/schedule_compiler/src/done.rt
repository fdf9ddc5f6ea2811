//! Where the done counter of each rank of a plan stands when all is done, counted in one pass over the cells and, where completion
//! waits for acknowledgements, one over the links: what the text of a plan says beside the plan, without what its ranks install.

mod counted;
mod counting;
mod shapes;

pub use counted::CountedPlan;
pub use shapes::counted_shape;
