//! The ranks of a job, run by threads in turns.
#![tactic(auto)]

mod calls;
mod close;
mod fabric;
mod open;
mod probe;
mod rest;
mod steady;
mod workers;

pub use close::SpentWires;
pub use fabric::{Fabric, Hand};
pub use rank_slots::{Gate, OpenGate, StartAnswer, TurnRank};
pub use steady::run_steady;
pub use workers::{run_and_close, run_keeping, run_workers};
