//! Tests of the parts of an interface, each part alone, and of the engines over them: what no clause says, that calls succeed with ample
//! memory, and their answers by hand. Here, so that those crates are proved once and not a second time with their tests.
#![tactic(auto)]

#[cfg(test)]
mod answers;
#[cfg(test)]
mod chains;
#[cfg(test)]
mod initiator;
#[cfg(test)]
mod lists;
#[cfg(test)]
mod parts;
#[cfg(test)]
mod pending;
#[cfg(test)]
mod places;
#[cfg(test)]
mod target;
