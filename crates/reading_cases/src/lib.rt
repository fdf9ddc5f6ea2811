//! What no clause of the language's crates says: words, values and lines whose readings were found by hand; whole texts and whole JSON
//! values with their answers, from outside; texts with orders; notes of what is wrong; sources and sinks; pictures. Here, so that those
//! crates are proved once and not a second time with their tests.
#![tactic(auto)]

#[cfg(test)]
mod answers;
#[cfg(test)]
mod ends;
#[cfg(test)]
mod generated;
#[cfg(test)]
mod json;
#[cfg(test)]
mod json_places;
#[cfg(test)]
mod language;
#[cfg(test)]
mod note_lines;
#[cfg(test)]
mod notes;
#[cfg(test)]
mod orders;
#[cfg(test)]
mod pictures;
#[cfg(test)]
mod texts;
#[cfg(test)]
mod threads;
#[cfg(test)]
mod words;
