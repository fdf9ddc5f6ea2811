//! What a plan takes in time, under LogGP.
#![tactic(auto)]

mod costs;
mod events;
mod laws;
mod numbers;
mod pass;
mod path;
mod ranks;
mod spent;
mod state;
mod times;
mod traffic;

pub use costs::{CostFault, sound_plans_are_timed, times_of};
pub use laws::times_are_one;
pub use numbers::LogGp;
pub use path::{CriticalPath, critical_path};
pub use ranks::rank_times;
pub use spent::{Spent, link_costs};
pub use times::Times;
pub use traffic::{Traffic, traffic_of};
