//! The places of a cell's bytes, and what a link that is a put does to them.

ghost use Rattle.std.specs.Prelude.{◌≡◌, ◌<◌, ◌≤◌, ◌+◌, ◌++◌, [], ℕ, true, length, get_or, map, IfOk, OnOk};
ghost use Rattle.number_lists.specs.Numbers.{from_to};
ghost use Rattle.ptl_types.specs.Elements.{part, written};
ghost use Rattle.plan_core.specs.declared.Cell.{Cell};
ghost use Rattle.plan_core.specs.Values.{land_as};
ghost use Rattle.plan_terms.specs.terms.Terms.{IsSolution, Keeps, Lists, input_at};
ghost use Rattle.plan_terms.specs.Cells.{AreZeros};

use crate::terms::{Making, TermFault, Terms};
use plan_core::{Link, LinkKind};
use ptl_types::{AtomicOp, ElemType};
use std::alloc::{AllocError, Global};
use std::marker::Model;

/// The places of a cell's bytes, one a byte.
#[derive(Drop)]
pub struct Places {
    pub(crate) list: Vec<u32>,
}

impl Model for Places {
    ghost use Rattle.std.specs.Prelude.{List, ℕ};

    ghost Value = { List ℕ };

    ghost view = { λ p. p.list.items };
}

impl Places {
    /// The places.
    pub fn as_slice(&self) -> &[u32]
        ensures { result.now ≡ self.now }
    {
        self.list.as_slice()
    }
}

/// Adds so many places that follow one another.
#[tactic(auto, using(crate::proofs::terms::Runs::run_more))]
pub(crate) fn push_run(places: &mut Vec<u32>, first: u32, count: u32) -> Result<(), TermFault>
    ensures { OnOk result (places.new.items ≡ places.old.items ++ from_to first count) }
{
    if u64::from(first) + u64::from(count) > u64::from(u32::MAX) {
        return Err(TermFault::TooMany);
    }
    for k in 0..count {
        places.push(first + k)?;
    }
    Ok(())
}

/// Whether what a link carries stands in its source, which is one of the cells before its target.
pub(crate) fn is_within(link: &Link, before: &[Places]) -> bool
    ensures source { result ≡ true → link.now.source < length before.now }
    ensures within { result ≡ true → link.now.source_offset + link.now.length ≤ length (get_or before.now link.now.source []) }
{
    if link.source as usize >= before.len() {
        return false;
    }
    let bytes = before[link.source as usize].as_slice().len() as u64;
    link.source_offset <= bytes && link.length <= bytes - link.source_offset
}

/// The places that a link carries out of its source.
pub(crate) fn carried<'a>(link: &Link, before: &'a [Places]) -> &'a [u32]
    requires source { link.now.source < length before.now }
    requires within { link.now.source_offset + link.now.length ≤ length (get_or before.now link.now.source []) }
    ensures { result.now ≡ part link.now.source_offset link.now.length (get_or before.now link.now.source []) }
{
    let from = link.source_offset as usize;
    &before[link.source as usize].as_slice()[from..from + link.length as usize]
}

/// Writes a list over the part from `at` on, if it lies within.
fn write(places: &mut [u32], at: u64, list: &[u32]) -> Result<(), TermFault>
    ensures { OnOk result (places.new ≡ written at list.now places.old) }
{
    let room = places.len() as u64;
    if at > room || list.len() as u64 > room - at {
        return Err(TermFault::Unfit);
    }
    let from = at as usize;
    places[from..from + list.len()].copy_from_slice(list);
    Ok(())
}

/// What a link that is no atomic does to the places of its target.
pub(crate) fn land(places: &mut [u32], link: &Link, before: &[Places]) -> Result<(), TermFault>
    ensures { OnOk result ((V : ℕ → ℕ) (k : Cell) → map V places.new ≡ land_as link.now.kind k link.now.target_offset
        (map V (part link.now.source_offset link.now.length (get_or before.now link.now.source []))) (map V places.old)) }
{
    match link.kind {
        LinkKind::Put => {
            if is_within(link, before) {
                write(places, link.target_offset, carried(link, before))
            } else {
                Err(TermFault::Unfit)
            }
        }
        LinkKind::Atomic => Err(TermFault::Unfit),
        LinkKind::Bump => Ok(()),
    }
}

/// A place of a byte that is zero.
fn zero(terms: &mut Terms, alloc: Global) -> Result<u32, TermFault>
    ensures keeps { Keeps terms.old terms.new }
    ensures is { IfOk result (λ s. (inputs : Lists) (V : ℕ → ℕ) → IsSolution terms.new inputs V → V s ≡ 0) }
{
    terms.place_of(alloc, Making::Fold(AtomicOp::Sum, ElemType::U8), &[])
}

/// Places of so many bytes that are zero.
pub(crate) fn zeros(terms: &mut Terms, alloc: Global, count: u64) -> Result<Vec<u32>, TermFault>
    ensures keeps { Keeps terms.old terms.new }
    ensures are { IfOk result (λ v. AreZeros terms.new v.items count) }
{
    let place = zero(terms, alloc)?;
    Ok(vec![in alloc; place; count as usize]?)
}

/// The places of an input cell's list of so many bytes.
pub(crate) fn input(
    terms: &Terms,
    alloc: Global,
    cell: u32,
    bytes: u64,
) -> Result<Vec<u32>, TermFault>
    ensures { IfOk result (λ v. (inputs : Lists) (V : ℕ → ℕ) → IsSolution terms.now inputs V
        → length (input_at terms.now.ranks inputs cell) ≡ bytes → map V v.items ≡ input_at terms.now.ranks inputs cell) }
{
    let first = u64::from(cell) * u64::from(terms.stride());
    if cell >= terms.cells() || bytes > u64::from(terms.stride()) || first > u64::from(u32::MAX) {
        return Err(TermFault::TooMany);
    }
    let mut places = Vec::with_capacity(alloc, bytes as usize)?;
    push_run(&mut places, first as u32, bytes as u32)?;
    Ok(places)
}
