//! What stands where, and what one local step does.

use crate::lanes::Lanes;
use crate::operations::{Operation, operations_of};
use crate::registers::{COUNTED, EARLY, Register, Registers, UNDER_WAY, WAITS};
use plan_core::{Link, LinkKind, Plan};
use ptl_types::{Lane, LocalStep, Rank};
use std::alloc::{AllocError, Global};

/// What a local step did.
#[derive(Clone, Copy, Debug, PartialEq, Eq)]
pub enum Deed {
    /// The rank started.
    Started,
    /// It fired an operation.
    Fired(Operation),
    /// The message of this link came, before the rank's start or after it.
    Came { link: u32, early: bool },
    /// The acknowledgement of this link's message came.
    Answered { link: u32 },
}

/// A register that changed.
#[derive(Clone, Copy, Debug)]
pub struct Change {
    pub register: Register,
    pub before: u64,
    pub after: u64,
}

/// The state of a plan's ranks and lanes, and all that changed so far.
#[derive(Drop)]
pub struct Scene<'a> {
    plan: &'a Plan,
    pub registers: Registers,
    /// The triggered operations of each rank.
    operations: Vec<Vec<Operation>>,
    requests: Lanes,
    answers: Lanes,
    /// For each rank the links whose messages came before its start.
    early: Vec<Vec<u32>>,
    values: Vec<u64>,
    pub changes: Vec<Change>,
}

/// The sizes of a plan.
pub fn registers_of(plan: &Plan) -> Registers {
    Registers {
        cells: u32::try_from(plan.cells().len()).unwrap_or(u32::MAX),
        links: u32::try_from(plan.links().len()).unwrap_or(u32::MAX),
        ranks: plan.ranks(),
    }
}

impl<'a> Scene<'a> {
    /// Nothing has happened yet.
    pub fn of(alloc: Global, plan: &'a Plan) -> Result<Scene<'a>, AllocError> {
        let registers = registers_of(plan);
        let mut early = Vec::new(alloc);
        for _ in 0..registers.ranks {
            early.push(Vec::new(alloc))?;
        }
        let mut values = Vec::new(alloc);
        for _ in 0..registers.count() {
            values.push(0u64)?;
        }
        Ok(Scene {
            plan,
            registers,
            operations: operations_of(alloc, plan)?,
            requests: Lanes::of(alloc, registers.ranks)?,
            answers: Lanes::of(alloc, registers.ranks)?,
            early,
            values,
            changes: Vec::new(alloc),
        })
    }

    /// What a register holds.
    pub fn value(&self, register: Register) -> u64 {
        let place = self.registers.place(register);
        self.values.get(place as usize).copied().unwrap_or(0)
    }

    /// Writes a register.
    fn write(&mut self, register: Register, after: u64) -> Result<(), AllocError> {
        let place = self.registers.place(register);
        if let Some(value) = self.values.get_mut(place as usize) {
            let before = *value;
            *value = after;
            self.changes.push(Change {
                register,
                before,
                after,
            })?;
        }
        Ok(())
    }

    /// Raises a register by one.
    fn raise(&mut self, register: Register) -> Result<(), AllocError> {
        let more = self.value(register).saturating_add(1);
        self.write(register, more)
    }

    /// The link of this number, and the rank of its target.
    fn link(&self, number: u32) -> Option<(Link, Rank)> {
        let link = self.plan.links().get(number as usize).copied()?;
        let target = self.plan.cells().get(link.target as usize)?;
        Some((link, target.rank))
    }

    /// Whether a cell has got all that it needs.
    fn is_reached(&self, cell: u32) -> bool {
        match self.plan.cells().get(cell as usize) {
            Some(found) => self.value(Register::Counter(cell)) >= found.needs,
            None => false,
        }
    }

    /// Counts the link at its target.
    fn count(&mut self, number: u32) -> Result<(), AllocError> {
        self.write(Register::Link(number), COUNTED)?;
        match self.link(number) {
            Some((link, _)) => self.raise(Register::Counter(link.target)),
            None => Ok(()),
        }
    }

    /// The link whose message came early to a rank as the one at this place.
    fn early_at(&self, rank: Rank, place: usize) -> Option<u32> {
        self.early.get(rank as usize)?.get(place).copied()
    }

    /// The host starts its interface: what came early is counted, and then the go cell.
    fn start(&mut self, rank: Rank) -> Result<Option<Deed>, AllocError> {
        if self.value(Register::Started(rank)) != 0 {
            return Ok(None);
        }
        self.write(Register::Started(rank), 1)?;
        for place in 0..self.plan.links().len() {
            let Some(link) = self.early_at(rank, place) else {
                break;
            };
            self.count(link)?;
        }
        self.raise(Register::Counter(rank))?;
        Ok(Some(Deed::Started))
    }

    /// An operation along a link.
    fn fire_link(&mut self, rank: Rank, number: u32) -> Result<bool, AllocError> {
        let Some((link, to)) = self.link(number) else {
            return Ok(false);
        };
        let is_fired = self.value(Register::Link(number)) != WAITS;
        if is_fired || !self.is_reached(link.source) || to >= self.registers.ranks {
            return Ok(false);
        }
        match link.kind {
            LinkKind::Bump => self.count(number)?,
            LinkKind::Put | LinkKind::Atomic => {
                self.write(Register::Link(number), UNDER_WAY)?;
                self.requests.send(rank, to, number)?;
            }
        }
        Ok(true)
    }

    /// The increment of the done counter by a cell.
    fn tell_done(&mut self, rank: Rank, cell: u32) -> Result<bool, AllocError> {
        if self.value(Register::Told(cell)) != 0 || !self.is_reached(cell) {
            return Ok(false);
        }
        self.write(Register::Told(cell), 1)?;
        self.raise(Register::Done(rank))?;
        Ok(true)
    }

    /// A triggered operation is fired.
    fn fire(&mut self, rank: Rank, number: u32) -> Result<Option<Deed>, AllocError> {
        let found = match self.operations.get(rank as usize) {
            Some(list) => list.get(number as usize).copied(),
            None => None,
        };
        let Some(operation) = found else {
            return Ok(None);
        };
        let fired = match operation {
            Operation::Link(link) => self.fire_link(rank, link)?,
            Operation::Done(cell) => self.tell_done(rank, cell)?,
        };
        Ok(if fired {
            Some(Deed::Fired(operation))
        } else {
            None
        })
    }

    /// The first message from a rank is received.
    fn receive(&mut self, rank: Rank, source: Rank) -> Result<Option<Deed>, AllocError> {
        let Some(link) = self.requests.take(source, rank) else {
            return Ok(None);
        };
        let early = self.value(Register::Started(rank)) == 0;
        if early {
            self.write(Register::Link(link), EARLY)?;
            if let Some(list) = self.early.get_mut(rank as usize) {
                list.push(link)?;
            }
        } else {
            self.count(link)?;
        }
        if self.plan.remote() {
            self.write(Register::Answer(link), 1)?;
            self.answers.send(rank, source, link)?;
        }
        Ok(Some(Deed::Came { link, early }))
    }

    /// The first acknowledgement from a rank is received.
    fn receive_answer(&mut self, rank: Rank, source: Rank) -> Result<Option<Deed>, AllocError> {
        let Some(link) = self.answers.take(source, rank) else {
            return Ok(None);
        };
        self.write(Register::Answer(link), 2)?;
        self.raise(Register::Done(rank))?;
        Ok(Some(Deed::Answered { link }))
    }

    /// Makes a local step of a rank. `None`: it can't be made now, and nothing changed.
    pub fn make(&mut self, rank: Rank, step: LocalStep) -> Result<Option<Deed>, AllocError> {
        match step {
            LocalStep::Start => self.start(rank),
            LocalStep::Fire { number } => self.fire(rank, number),
            LocalStep::Receive {
                source,
                lane: Lane::Request,
            } => self.receive(rank, source),
            LocalStep::Receive { source, .. } => self.receive_answer(rank, source),
        }
    }
}
