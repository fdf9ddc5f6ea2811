//! A description without the values of its inputs.

ghost use Rattle.std.specs.Prelude.{◌≡◌, ◌<◌, length, IfOk, get_or, None};
ghost use Rattle.number_lists.specs.Numbers.{from_to};
ghost use Rattle.coll_shape.specs.Outline.{group_at, members_of};
ghost use Rattle.coll_shape.specs.Said.{said};
ghost use Rattle.coll_shape.specs.WellFormed.{IsWellFormed};

use crate::lists::RankList;
use crate::types::{Buffer, CollStep, Group, Version};
use ptl_types::{NoMemory, Rank};
use std::alloc::{AllocError, Global};
use std::marker::Model;

/// The number of the group that a step names. `None`: it names none, or there is no such step.
fn number_at(on: &[Option<u32>], step: u32) -> Option<u32>
    ensures { result ≡ get_or on.now step None }
{
    match on.get(step as usize) {
        Some(group) => *group,
        None => None,
    }
}

/// The members of a group by its number; without one, everyone.
pub fn members_of<'a>(everyone: &'a [Rank], groups: &'a [Group], on: Option<u32>) -> &'a [Rank]
    ensures { result.now ≡ members_of everyone.now groups.now on }
{
    match on {
        None => everyone,
        Some(i) => match groups.get(i as usize) {
            Some(group) => group.members.as_slice(),
            None => &[],
        },
    }
}

/// What a shape is made of.
#[derive(Debug, Drop)]
pub struct Parts {
    /// The version of the language.
    pub version: Version,
    /// How many ranks the job has.
    pub ranks: u32,
    /// Whether completion also waits for every acknowledgement (`complete remote`).
    pub remote: bool,
    /// The groups that are named, in the order of their lines.
    pub groups: Vec<Group>,
    /// The buffers in the order in which the text names them, the inputs first.
    pub buffers: Vec<Buffer>,
    /// How many of the buffers are inputs.
    pub inputs: u32,
    /// The steps in order.
    pub steps: Vec<CollStep>,
    /// For each step the number of the group that it names.
    pub on: Vec<Option<u32>>,
    /// The numbers of the buffers that are printed, in order.
    pub prints: Vec<u32>,
}

/// A description without the values of its inputs. It keeps that it is well formed.
#[derive(Debug)]
pub struct Shape {
    parts: Parts,
    /// All ranks, the members of a step that names no group.
    everyone: RankList,
}

impl Model for Shape {
    ghost use Rattle.std.specs.Prelude.{◌≡◌};
    ghost use Rattle.number_lists.specs.Numbers.{from_to};
    ghost use Rattle.coll_shape.specs.Outline.{Outline};
    ghost use Rattle.coll_shape.specs.Said.{said};
    ghost use Rattle.coll_shape.specs.WellFormed.{IsWellFormed};

    ghost Value = { Outline };

    ghost view = { λ s. said s.parts };

    ghost invariant = { λ s. ∥ IsWellFormed (said s.parts) × (s.everyone ≡ from_to 0 s.parts.ranks) ∥₁ };
}

// Written out, so that letting one go is one call: docs/DECISIONS.md, "Large types have a drop of their own".
impl Drop for Shape {
    fn drop(self) {
        let Shape {
            parts: _,
            everyone: _,
        } = self;
    }
}

/// Copies of these buffers.
fn copied_buffers(alloc: Global, buffers: &[Buffer]) -> Result<Vec<Buffer>, AllocError>
    ensures { IfOk result (λ copies. copies.items ≡ buffers.now) }
{
    let mut copies = Vec::new(alloc);
    for buffer in buffers {
        copies.push(buffer.copied(alloc)?)?;
    }
    Ok(copies)
}

/// Copies of these groups.
fn copied_groups(alloc: Global, groups: &[Group]) -> Result<Vec<Group>, AllocError>
    ensures { IfOk result (λ copies. copies.items ≡ groups.now) }
{
    let mut copies = Vec::new(alloc);
    for group in groups {
        copies.push(group.copied(alloc)?)?;
    }
    Ok(copies)
}

impl Parts {
    /// The same parts again.
    fn copied(&self, alloc: Global) -> Result<Parts, AllocError>
        ensures { IfOk result (λ parts. said parts ≡ said self.now) }
    {
        Ok(Parts {
            version: self.version,
            ranks: self.ranks,
            remote: self.remote,
            groups: copied_groups(alloc, self.groups.as_slice())?,
            buffers: copied_buffers(alloc, self.buffers.as_slice())?,
            inputs: self.inputs,
            steps: Vec::from_slice(alloc, self.steps.as_slice())?,
            on: Vec::from_slice(alloc, self.on.as_slice())?,
            prints: Vec::from_slice(alloc, self.prints.as_slice())?,
        })
    }
}

impl Shape {
    /// The shape of these parts, with the list of all ranks. It takes no memory.
    pub fn of(parts: Parts, everyone: RankList) -> Shape
        requires formed { IsWellFormed (said parts) }
        requires everyone { everyone ≡ from_to 0 parts.ranks }
        ensures { result ≡ said parts }
    {
        Shape { parts, everyone }
    }

    /// The same shape again.
    ///
    /// # Errors
    ///
    /// There was no memory for it.
    pub fn copied(&self, alloc: Global) -> Result<Shape, NoMemory>
        ensures { IfOk result (λ shape. shape ≡ self.now) }
    {
        let Ok(parts) = self.parts.copied(alloc) else {
            return Err(NoMemory);
        };
        let Ok(everyone) = RankList::copied(alloc, self.everyone.as_slice()) else {
            return Err(NoMemory);
        };
        Ok(Shape { parts, everyone })
    }

    /// The version of the language in which it is written.
    pub fn version(&self) -> Version
        ensures value { result ≡ self.now.version }
    {
        self.parts.version
    }

    /// Every shape is well formed: a call that does nothing, for whoever needs it in a proof.
    pub fn recall_form(&self)
        ensures shape { IsWellFormed self.now }
    {
        let _ = &self.parts;
    }

    /// How many ranks the job has.
    pub fn ranks(&self) -> u32
        ensures value { result ≡ self.now.ranks }
    {
        self.parts.ranks
    }

    /// Whether completion also waits for every acknowledgement (`complete remote`).
    pub fn remote(&self) -> bool
        ensures value { result ≡ self.now.remote }
    {
        self.parts.remote
    }

    /// The groups that are named.
    pub fn groups(&self) -> &[Group]
        ensures value { result.now ≡ self.now.groups }
    {
        self.parts.groups.as_slice()
    }

    /// How many groups are named.
    pub fn group_count(&self) -> u32
        ensures value { result ≡ length self.now.groups }
    {
        self.parts.groups.len() as u32
    }

    /// The buffers in the order in which the text names them, the inputs first.
    pub fn buffers(&self) -> &[Buffer]
        ensures value { result.now ≡ self.now.buffers }
    {
        self.parts.buffers.as_slice()
    }

    /// How many of the buffers are inputs.
    pub fn input_count(&self) -> u32
        ensures value { result ≡ self.now.inputs }
    {
        self.parts.inputs
    }

    /// The steps in order.
    pub fn steps(&self) -> &[CollStep]
        ensures value { result.now ≡ self.now.steps }
    {
        self.parts.steps.as_slice()
    }

    /// For each step the number of the group that it names. `None`: it is a step of all ranks.
    pub fn on(&self) -> &[Option<u32>]
        ensures value { result.now ≡ self.now.on }
    {
        self.parts.on.as_slice()
    }

    /// The members of a step, rising ranks.
    pub fn group(&self, step: u32) -> &[Rank]
        requires { step < length self.now.steps }
        ensures value { result.now ≡ group_at self.now step }
    {
        let on = number_at(self.parts.on.as_slice(), step);
        members_of(self.everyone.as_slice(), self.parts.groups.as_slice(), on)
    }

    /// The numbers of the buffers that are printed, in order.
    pub fn prints(&self) -> &[u32]
        ensures value { result.now ≡ self.now.prints }
    {
        self.parts.prints.as_slice()
    }
}
