//! The times of a plan.

ghost use Rattle.std.specs.Prelude.{◌≡◌, ◌<◌, ◌^◌, get_or, length};

use std::marker::Model;

/// When each cell is reached, when each link is sent, and when its receipt begins, in picoseconds, if every host starts at 0.
#[derive(Debug, Drop)]
pub struct Times {
    cells: Vec<u64>,
    sent: Vec<u64>,
    received: Vec<u64>,
}

impl Model for Times {
    ghost use Rattle.plan_costs.specs.Times.{TimesOf};

    ghost Value = { TimesOf };

    ghost view = { λ t. record { cells = t.cells.items; sent = t.sent.items; received = t.received.items } };
}

impl Times {
    /// These.
    pub(crate) fn of(cells: Vec<u64>, sent: Vec<u64>, received: Vec<u64>) -> Times
        ensures { result ≡ record { cells = cells.items; sent = sent.items; received = received.items } }
    {
        Times {
            cells,
            sent,
            received,
        }
    }

    /// When a cell is reached.
    pub fn cell(&self, c: u32) -> u64
        requires { c < length self.now.cells }
        ensures { result ≡ get_or self.now.cells c 0 }
    {
        self.cells[c as usize]
    }

    /// When a link is sent: begins to be sent, where it leads to another rank.
    pub fn sent(&self, l: u32) -> u64
        requires { l < length self.now.sent }
        ensures { result ≡ get_or self.now.sent l 0 }
    {
        self.sent[l as usize]
    }

    /// When a link's receipt begins.
    pub fn received(&self, l: u32) -> u64
        requires { l < length self.now.received }
        ensures { result ≡ get_or self.now.received l 0 }
    {
        self.received[l as usize]
    }

    /// What holds of a cell's time, whatever is done with it.
    pub(crate) fn recall_cell(&self, c: u32)
        requires { c < length self.now.cells }
        ensures { get_or self.now.cells c 0 < 2 ^ 64 }
    {
        let _ = self.cell(c);
    }
}
