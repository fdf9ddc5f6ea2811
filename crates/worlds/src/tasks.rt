//! From a job to its ranks: what is compiled for a rank, with the memory that the job's inputs give it, and the rank's node with its
//! interface prepared.

mod installing;
mod own;
mod receipts;
mod tasks;

pub use installing::install;
pub use receipts::bytes_to;
pub use tasks::task_of;
