//! The local steps of each rank, as they were given.

ghost use Rattle.std.specs.Prelude.{◌<◌, ◌≡◌, [], get_or, length};

use ptl_types::{LocalStep, Rank};
use std::marker::Model;

/// The local steps of one rank.
#[derive(Debug, Drop)]
pub(crate) struct Order {
    steps: Vec<LocalStep>,
}

impl Model for Order {
    ghost use Rattle.std.specs.Prelude.{List};
    ghost use Rattle.ptl_types.specs.declared.steps.LocalStep.{LocalStep};

    ghost Value = { List LocalStep };

    ghost view = { λ o. o.steps.items };
}

impl Order {
    /// These steps. It takes no memory.
    pub(crate) fn of(steps: Vec<LocalStep>) -> Order
        ensures { result ≡ steps.items }
    {
        Order { steps }
    }

    /// The steps, the first one first.
    fn as_slice(&self) -> &[LocalStep]
        ensures { result.now ≡ self.now }
    {
        self.steps.as_slice()
    }
}

/// Orders: for each rank, in the order of the ranks, its local steps.
#[derive(Debug, Drop)]
pub struct Orders {
    lists: Vec<Order>,
}

impl Model for Orders {
    ghost use Rattle.std.specs.Prelude.{List};
    ghost use Rattle.ptl_types.specs.declared.steps.LocalStep.{LocalStep};

    ghost Value = { List (List LocalStep) };

    ghost view = { λ o. o.lists.items };
}

impl Orders {
    /// These lists, that of rank 0 first. It takes no memory.
    pub(crate) fn of(lists: Vec<Order>) -> Orders
        ensures { result ≡ lists.items }
    {
        Orders { lists }
    }

    /// The steps of a rank, the first one first.
    pub fn steps(&self, r: Rank) -> &[LocalStep]
        requires rank { r < length self.now }
        ensures value { result.now ≡ get_or self.now r [] }
    {
        self.lists[r as usize].as_slice()
    }
}
