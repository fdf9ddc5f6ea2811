//! An interface behind a pointer, for callers who can hold no more than that.
//!
//! `NiHandle` is what such a caller holds: the address of an interface on the heap, or of nothing, and a mark that tells which. A call
//! takes the interface out of it (`take`), uses it, and puts it back (`of`).
#![tactic(auto)]

mod block;
mod handle;
mod hold;
mod holding;
#[cfg(test)]
mod tests;

pub use handle::NiHandle;
