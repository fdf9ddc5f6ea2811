//! Events in the order of time.

ghost use Rattle.std.specs.Prelude.{◌≡◌, [], IfOk, MatchOption};
ghost use Rattle.plan_costs.specs.Events.{Popped, Pushed};

use ptl_types::NoMemory;
use std::alloc::Global;
use std::collections::BTreeSet;
use std::marker::Model;

/// A link's next event: its sending, its receipt, or that it is counted where it stays on its rank. At the same time those of links
/// that stay come first, and then the lower link.
#[derive(Clone, Copy, Debug, PartialEq, Eq, PartialOrd, Ord)]
pub(crate) struct Event {
    /// In picoseconds.
    pub time: u64,
    /// Whether the link leads to another rank.
    pub between: bool,
    /// The number of the link.
    pub link: u32,
}

/// The events that are to come.
#[derive(Drop)]
pub(crate) struct Queue {
    events: BTreeSet<Event>,
}

impl Model for Queue {
    ghost use Rattle.std.specs.Prelude.{List};
    ghost use Rattle.plan_costs.specs.declared.events.Event.{Event};

    ghost Value = { List Event };

    ghost view = { λ q. q.events.keys };
}

impl Queue {
    /// No event.
    pub fn new(alloc: Global) -> Queue
        ensures { result ≡ [] }
    {
        Queue {
            events: BTreeSet::new(alloc),
        }
    }

    /// One more event.
    ///
    /// # Errors
    ///
    /// There was no memory for it.
    pub fn push(&mut self, event: Event) -> Result<(), NoMemory>
        ensures { IfOk result (λ u. Pushed self.old event self.new) }
    {
        let Ok(_) = self.events.insert(event) else {
            return Err(NoMemory);
        };
        Ok(())
    }

    /// The first event.
    pub fn pop(&mut self) -> Option<Event>
        ensures { MatchOption result (self.old ≡ []) (λ e. Popped self.old e self.new) }
    {
        let Some(event) = self.events.pop_first() else {
            return None;
        };
        Some(event)
    }
}
