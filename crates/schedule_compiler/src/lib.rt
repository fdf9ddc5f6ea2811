//! The compiler: from a plan, or from a shape by its plan, to its schedule, which says what each rank installs. It sees no values of
//! inputs; these come beside it in a job, and into the ranks' memory by `load`.
#![tactic(auto)]

mod compiling;
pub mod done;
mod job;
mod loading;
mod of_shape;
mod schedule;
pub mod shapes;

pub use crate::shapes::CompileFault;
pub use compiling::{compile, shape_job, shape_schedules};
pub use job::Job;
pub use loading::load;
pub use of_shape::ShapeJob;
pub use plan_tables::RankTable;
pub use schedule::{Place, Schedule};
