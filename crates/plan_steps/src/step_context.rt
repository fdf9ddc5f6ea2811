//! What a step begins with.

ghost use Rattle.std.specs.Prelude.{ℕ, get_or, ◌≡◌, ◌≤◌, ◌<◌, ◌^◌, ◌*◌, IfOk, length};
ghost use Rattle.coll_shape.specs.WellFormed.{AreMembers, IsNumber};
ghost use Rattle.plan_steps.specs.Beginning.{site_of};
ghost use Rattle.plan_steps.specs.StepContext.{IsSite, count, entry, exit_at, further, holding_part, in_row, rank_at, source_at};
ghost use Rattle.plan_steps.specs.StepContext.{summing_part};

use crate::beginning::{exits_of, holding_of, read_data, sources_of};
use crate::drawing::Drawing;
use coll_shape::Shape;
use plan_core::Part;
use ptl_types::{AtomicOp, ElemType, NoMemory, Rank};
use std::alloc::Global;
use std::marker::Model;

/// What a step begins with, by the places of its members: their ranks, the exits of the steps before, the cells that hold
/// the buffer that it reads, and the number of its own first cell.
#[derive(Debug, Drop)]
pub struct StepContext {
    members: Vec<Rank>,
    first: u32,
    exits: Vec<u32>,
    sources: Vec<u32>,
    ty: ElemType,
    length: u64,
    holding: Vec<u32>,
}

impl Model for StepContext {
    ghost use Rattle.plan_steps.specs.StepContext.{IsSite, StepContext};

    ghost Value = { StepContext };

    ghost view = { λ s. record {
      members = s.members.items;
      first = s.first;
      exits = s.exits.items;
      sources = s.sources.items;
      ty =
          s.ty;
      length = s.length;
      holding = s.holding.items;
    } };

    ghost invariant = { λ s. IsSite (record {
      members = s.members.items;
      first = s.first;
      exits = s.exits.items;
      sources =
          s.sources.items;
      ty = s.ty;
      length = s.length;
      holding = s.holding.items;
    }) };
}

impl StepContext {
    /// What a step on these members begins with, that reads this buffer.
    ///
    /// # Errors
    ///
    /// There was no memory for the lists by place.
    pub fn of(
        alloc: Global,
        shape: &Shape,
        drawing: &Drawing,
        read: Option<u32>,
        members: &[Rank],
    ) -> Result<StepContext, NoMemory>
        requires members { AreMembers shape.now.ranks members.now }
        requires read { IsNumber shape.now read }
        requires exits { length drawing.now.exits ≡ shape.now.ranks }
        requires ranks { drawing.now.held.ranks ≡ shape.now.ranks }
        requires buffers { drawing.now.held.buffers ≡ length shape.now.buffers }
        requires cells { length drawing.now.plan.cells < 2 ^ 24 }
        ensures { IfOk result (λ site. site ≡ site_of shape.now drawing.now.plan drawing.now.held drawing.now.exits read members.now) }
    {
        let (ty, length) = read_data(shape, read);
        Ok(StepContext {
            members: Vec::from_slice(alloc, members)?,
            first: drawing.plan.cells().len() as u32,
            exits: exits_of(alloc, &drawing.exits, members)?,
            sources: sources_of(alloc, &drawing.held, read, members)?,
            ty,
            length,
            holding: holding_of(alloc, shape, read, members)?,
        })
    }

    /// How many members there are: from 1 to 256.
    pub fn count(&self) -> u32
        ensures value { result ≡ count self.now }
        ensures some { 1 ≤ result }
        ensures at_most { result ≤ 256 }
    {
        self.members.len() as u32
    }

    /// Tells in a proof how many members there may be; it does nothing.
    pub fn recall_members(&self)
        ensures some { 1 ≤ count self.now }
        ensures at_most { count self.now ≤ 256 }
    {
        let _ = self.members.len();
    }

    /// The bytes of a list of the buffer that is read.
    pub fn length(&self) -> u64
        ensures value { result ≡ self.now.length }
        ensures most { result ≤ 2 ^ 27 }
    {
        let _ = self.members.len();
        self.length
    }

    /// The rank of a place.
    pub fn rank(&self, place: u32) -> Rank
        requires { place < count self.now }
        ensures { result ≡ rank_at self.now place }
    {
        self.members[place as usize]
    }

    /// The exit at a place before the step.
    pub fn exit(&self, place: u32) -> u32
        requires { place < count self.now }
        ensures { result ≡ exit_at self.now place }
    {
        self.exits[place as usize]
    }

    /// The cell that holds the buffer at a place.
    pub fn source(&self, place: u32) -> u32
        requires { place < count self.now }
        ensures { result ≡ source_at self.now place }
    {
        self.sources[place as usize]
    }

    /// The places of the members that hold the buffer, rising.
    pub fn holders(&self) -> &[u32]
        ensures value { result.now ≡ self.now.holding }
        ensures at_most { length result.now ≤ count self.now }
        ensures low { (i : ℕ) → i < length result.now → get_or result.now i 0 < count self.now }
    {
        let _ = self.members.len();
        self.holding.as_slice()
    }

    /// The cell at a place of a row, counted from the entries, which are row 0.
    pub fn in_row(&self, row: u32, place: u32) -> u32
        requires row { row ≤ 1024 }
        requires place { place ≤ 1024 }
        ensures value { result ≡ in_row self.now row place }
        ensures at_most { result < 2 ^ 25 }
    {
        self.first + (row * self.members.len() as u32 + place)
    }

    /// The entry of a place.
    pub fn entry(&self, place: u32) -> u32
        requires { place ≤ 1024 }
        ensures value { result ≡ entry self.now place }
        ensures at_most { result < 2 ^ 25 }
    {
        let _ = self.members.len();
        self.first + place
    }

    /// A cell after the entries.
    pub fn further(&self, j: u32) -> u32
        requires { j ≤ 262144 }
        ensures value { result ≡ further self.now j }
        ensures at_most { result < 2 ^ 25 }
    {
        self.first + (self.members.len() as u32 + j)
    }

    /// A cell of the buffer's type with so many bytes, at a place.
    pub fn holding(&self, length: u64, place: u32) -> Part
        requires { place < count self.now }
        ensures { result ≡ holding_part self.now length (rank_at self.now place) }
    {
        Part {
            rank: self.members[place as usize],
            ty: self.ty,
            op: None,
            length,
        }
    }

    /// A cell that combines lists of the buffer, at a place.
    pub fn summing(&self, op: AtomicOp, place: u32) -> Part
        requires { place < count self.now }
        ensures { result ≡ summing_part self.now op (rank_at self.now place) }
    {
        Part {
            rank: self.members[place as usize],
            ty: self.ty,
            op: Some(op),
            length: self.length,
        }
    }
}
