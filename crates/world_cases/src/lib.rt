//! Runs of whole worlds, and what stands in them: the buffers of each rank under many orders and windows, strays, messages that
//! come before a rank's start, and the possible steps one after the other; frames; worlds of choices, and verdicts on orders. What is
//! expected comes from outside: worked out by hand, or by another program that knows the language alone.
#![tactic(auto)]

#[cfg(test)]
mod answers;
#[cfg(test)]
mod cases;
#[cfg(test)]
mod choices;
#[cfg(test)]
mod choosing;
#[cfg(test)]
mod early;
#[cfg(test)]
mod frames;
#[cfg(test)]
mod orders;
#[cfg(test)]
mod scene;
#[cfg(test)]
mod sizes;
#[cfg(test)]
mod stepping;
#[cfg(test)]
mod strays;
#[cfg(test)]
mod texts;
#[cfg(test)]
mod verdicts;
