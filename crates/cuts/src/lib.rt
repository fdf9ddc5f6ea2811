//! All ranks of a plan at once, as definitions and laws, no code: the machine of a plan, the interface that it is installed on, its start,
//! histories and their cuts, rest, lists of steps, and what is possible under a window.
#![tactic(auto)]

pub mod cells;
pub mod done;
pub mod ended;
pub mod histories;
pub mod interleavings;
pub mod machine;
pub mod orders;
pub mod rest;
pub mod start;
pub mod view;
pub mod windows;
