//! A rank as the turns of a fabric hand it on: its node and the ends of its wires, and what is done with them in a turn.
#![tactic(auto)]

mod follow;
mod gate;
mod hints;
mod mail;
mod moves;
mod network;
mod notes;
mod once;
mod parked;
mod past;
mod ports;
mod posts;
mod soundness;
mod steps;
mod turn_rank;

pub use gate::{Gate, OpenGate, StartAnswer};
pub use hints::Hints;
pub use mail::Mail;
pub use moves::{pull_in, pull_out, put_in};
pub use network::Network;
pub use ports::{InPort, OutPort};
pub use soundness::recall_soundness;
pub use turn_rank::TurnRank;
