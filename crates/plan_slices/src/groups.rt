//! Things in groups that are joined.

use std::alloc::{AllocError, Global};

/// Things by their numbers, in groups. Each leads to another of its group, or to itself: the one that stands for the group.
#[derive(Drop)]
pub(crate) struct Groups {
    up: Vec<u32>,
}

impl Groups {
    /// So many things, each by itself.
    pub(crate) fn of(alloc: Global, count: u32) -> Result<Groups, AllocError> {
        let mut up = Vec::with_capacity(alloc, count as usize)?;
        for thing in 0..count {
            up.push(thing)?;
        }
        Ok(Groups { up })
    }

    /// What a thing leads to.
    fn above(&self, thing: u32) -> u32 {
        match self.up.get(thing as usize) {
            Some(above) => *above,
            None => thing,
        }
    }

    /// Lets a thing lead to another. Where it stood for its group, this joins the groups of both.
    pub(crate) fn lead(&mut self, thing: u32, to: u32) {
        let at = thing as usize;
        if at < self.up.len() {
            self.up[at] = to;
        }
    }

    /// The thing that stands for the group of a thing. Things on the way lead further then.
    pub(crate) fn first(&mut self, thing: u32) -> u32 {
        let mut at = thing;
        for _ in 0..self.up.len() {
            let above = self.above(at);
            if above == at {
                return at;
            }
            let further = self.above(above);
            self.lead(at, further);
            at = further;
        }
        at
    }

    /// Whether two things lead to one, and so are of one group. They may be where they don't.
    pub(crate) fn are_near(&self, one: u32, other: u32) -> bool {
        self.above(one) == self.above(other)
    }
}
