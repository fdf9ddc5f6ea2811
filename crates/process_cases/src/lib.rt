//! A rank as a process: how it ends, what it writes and what it says, by its top call.
#![tactic(auto)]

#[cfg(test)]
mod ranks;
