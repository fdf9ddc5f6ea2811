//! Scripts over the whole interface, run through its public calls: one interface of rank 0 and one of rank 1, at the two
//! ends of a wire. What each call answers is what the profile says of it, worked out by hand: messages and their matching,
//! unexpected headers, operations and their answers, counting and triggered operations, every refusal that calls
//! can reach, but running out of memory, and every call once with ample memory.
//!
//! A script is a list of steps, and each step has a call and its answer (`steps`). `scene` plays it: it makes the calls,
//! compares the answers, and compares all that the interface tells before and after each call that is refused. `guarded` has the calls
//! of `guarded_ni` that test their conditions themselves, each rule once.
#![tactic(auto)]

#[cfg(test)]
mod answers;
#[cfg(test)]
mod asking;
#[cfg(test)]
mod busy;
#[cfg(test)]
mod calls;
#[cfg(test)]
mod comparing;
#[cfg(test)]
mod counting;
#[cfg(test)]
mod deeds;
#[cfg(test)]
mod ends;
#[cfg(test)]
mod example;
#[cfg(test)]
mod firing;
#[cfg(test)]
mod guarded;
#[cfg(test)]
mod hidden;
#[cfg(test)]
mod managed;
#[cfg(test)]
mod matching;
#[cfg(test)]
mod nodes;
#[cfg(test)]
mod operations;
#[cfg(test)]
mod overflow;
#[cfg(test)]
mod refused_entries;
#[cfg(test)]
mod refused_starts;
#[cfg(test)]
mod refused_tables;
#[cfg(test)]
mod refused_triggered;
#[cfg(test)]
mod relinking;
#[cfg(test)]
mod replies;
#[cfg(test)]
mod scene;
#[cfg(test)]
mod sides;
#[cfg(test)]
mod steps;
#[cfg(test)]
mod strays;
pub mod values;
#[cfg(test)]
mod waking;
