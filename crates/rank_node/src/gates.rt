//! Which of a rank's request lanes have no room now.

ghost use Rattle.std.specs.Prelude.{◌≡◌, ◌<◌, false, replicate, slice_index_or, slice_set, IfOk, length, nat_lt, count_by};

use ptl_types::{NoMemory, Rank};
use std::alloc::Global;
use std::marker::Model;

/// For each rank whether the request lane to it has no room now, and how many have none.
#[derive(Drop)]
pub struct Gates {
    closed: Vec<bool>,
    shut: usize,
}

impl Model for Gates {
    ghost use Rattle.std.specs.Prelude.{◌≡◌, ◌<◌, ◌^◌, List, Bool, count_by, length};

    ghost Value = { List Bool };

    ghost view = { λ g. g.closed.items };

    ghost invariant = { λ g. (g.shut ≡ count_by (λ b. b) g.closed.items) × (length g.closed.items < 2 ^ 32) };
}

impl Gates {
    /// All lanes are open.
    pub fn all_open(alloc: Global, ranks: u32) -> Result<Gates, NoMemory>
        ensures { IfOk result (λ g. g ≡ replicate ranks false) }
    {
        let mut closed = Vec::new(alloc);
        match closed.resize(ranks as usize, false) {
            Ok(()) => Ok(Gates { closed, shut: 0 }),
            Err(_) => Err(NoMemory),
        }
    }

    /// Notes whether the lane to a rank is closed.
    pub fn set(&mut self, d: Rank, closed: bool)
        requires { d < length self.old }
        ensures { self.new ≡ slice_set self.old d closed }
    {
        let was = self.closed[d as usize];
        if closed && !was {
            self.shut += 1;
        }
        if was && !closed {
            self.shut -= 1;
        }
        self.closed[d as usize] = closed;
    }

    /// How many lanes there are.
    pub fn len(&self) -> u32
        ensures { result ≡ length self.now }
    {
        self.closed.len() as u32
    }

    /// Whether any lane is closed.
    pub fn any(&self) -> bool
        ensures { result ≡ nat_lt 0 (count_by (λ b. b) self.now) }
    {
        self.shut > 0
    }

    /// Whether the lane to this rank is closed; past the last rank none is.
    pub fn is_closed(&self, d: Rank) -> bool
        ensures { result ≡ slice_index_or self.now d false }
    {
        (d as usize) < self.closed.len() && self.closed[d as usize]
    }
}
