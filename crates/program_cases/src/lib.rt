//! Whole runs of the program by the top call: what each command writes of a text, faults of a source and a sink, texts and words
//! that are refused, choice texts, descriptions in JSON, and runs in which memory may run out; runs by workers on threads, with a
//! gate that watches their steps, and the orders of runs, which `sim` chooses and `trace` finds, with what `check` says of them and of
//! others.
#![tactic(auto)]

#[cfg(test)]
mod choices;
#[cfg(test)]
mod comparing;
#[cfg(test)]
mod faults;
#[cfg(test)]
mod gated;
#[cfg(test)]
mod json;
#[cfg(test)]
mod memory_walk;
#[cfg(test)]
mod notes;
#[cfg(test)]
mod orders;
#[cfg(test)]
mod pieces;
#[cfg(test)]
mod plans;
#[cfg(test)]
mod refused;
#[cfg(test)]
mod results;
#[cfg(test)]
mod runs;
#[cfg(test)]
mod steady;
#[cfg(test)]
mod texts;
#[cfg(test)]
mod verdicts;
#[cfg(test)]
mod words;
#[cfg(test)]
mod workers;
