//! The calls of one interface for C, over `guarded_ni`. `c/sinfreddy.h` declares them, and says of each what it does.
//!
//! A caller holds an `NiHandle` and hands a pointer to it to each call. Each call tests its own conditions, and answers a status
//! (`statuses`): 0, or why it wasn't made, and then the interface is as it was. What no call can test is that its pointers lead where
//! their types say, and that a handle is a call's own for as long as that call runs, was never copied, and holds what these calls put
//! there; the header says so.
#![tactic(auto)]

mod answers;
mod counting;
mod entries;
mod forms;
mod framing;
mod interfaces;
mod messages;
mod options;
mod queues;
mod reading;
mod starts;
mod statuses;
mod telling;
#[cfg(test)]
mod tests;
mod told;
mod triggers;
mod wires;
