//! The objects of an interface but its match lists and triggered operations: counting events, event queues, memory descriptors, the
//! stores of their handles, how an event is raised and counted, and how often an object is in use.
#![tactic(auto)]

pub mod counters;
pub mod delivery;
pub mod descriptors;
pub mod handles;
pub mod queues;
pub mod users;
