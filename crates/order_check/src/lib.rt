//! The check of given orders: of each rank's list what can be taken is taken, on a world of the job, and the verdict is read off.
#![tactic(auto)]

mod allowing;
mod judging;
mod taking;

pub use cuts::orders::Verdict;
pub use judging::check;
pub use order_lines::Orders;
pub use ptl_types::Cause;
