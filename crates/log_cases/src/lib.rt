//! The logs of devices, held against values from outside: lines with what they say, answers with what was owed, names, small logs with
//! their verdicts, and the whole program.
#![tactic(auto)]

#[cfg(test)]
mod answers;
#[cfg(test)]
mod lines;
#[cfg(test)]
mod names;
#[cfg(test)]
mod programs;
#[cfg(test)]
mod verdicts;
