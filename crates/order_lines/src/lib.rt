//! Reading the input of a check: a description, and after it for each rank the line of its local steps.
#![tactic(auto)]

mod checking;
mod orders;
mod reading;

pub use checking::{LONGEST_CHECK, first_end, parse_check};
pub use orders::Orders;
