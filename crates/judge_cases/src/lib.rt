//! Tests of plans that are given as text: how they are read, the first flaw for each cause, what their cells hold, what is found of their
//! results for all inputs, and the answers; with values by hand. Here, so that their crates are proved once and not again with tests.
#![tactic(auto)]

#[cfg(test)]
mod agreement;
#[cfg(test)]
mod answers;
#[cfg(test)]
mod causes;
#[cfg(test)]
mod drawing;
#[cfg(test)]
mod entering;
#[cfg(test)]
mod evaluated;
#[cfg(test)]
mod general;
#[cfg(test)]
mod given;
#[cfg(test)]
mod mark_texts;
#[cfg(test)]
mod marks;
#[cfg(test)]
mod saying;
#[cfg(test)]
mod wide;
