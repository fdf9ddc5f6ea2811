//! The calls of an interface that have conditions, for callers who can't show them: each call here tests its conditions itself.
//!
//! A call whose arguments break a rule answers `CallFault::Misused` with the rule that is broken, the first in the order of
//! `Misuse`, and the interface is as it was. Otherwise it is the call of `portals_ni::Nic` of the same name, whose refusal comes as
//! `CallFault::Refused`. The other calls of a `Nic` have no conditions; anybody may make them as they are.
#![tactic(auto)]

mod calls;
mod faults;
mod starts;

pub use calls::{deliver, eq_alloc, fire, open, ready_at, write_memory};
pub use faults::{CallFault, Misuse};
pub use starts::{atomic, fetch_atomic, get, put, swap, triggered};
