//! Binomial trees of the places.

ghost use Rattle.std.specs.Prelude.{◌≡◌, ◌<◌, ◌≤◌, ◌+◌, ◌^◌, ◌==◌, ◌++◌, ◌∷◌, [], IfOk, map, if◌then◌else◌};
ghost use Rattle.plan_core.specs.Draw.{HasRoom, add};
ghost use Rattle.plan_steps.specs.StepContext.{atomic, count};
ghost use Rattle.plan_steps.specs.Trees.{cleared, down_cell, parent, turned, unturned, up_at, up_cell, up_number, up_sources};

use crate::incoming::{atomic, bump, put_whole};
use crate::row::Rows;
use crate::step_context::StepContext;
use plan_core::{Incoming, Plan};
use ptl_types::{AtomicOp, NoMemory};
use std::alloc::{AllocError, Global};

/// The place of v.
pub(crate) fn turned(site: &StepContext, root: u32, v: u32) -> u32
    requires root { root < count site.now }
    requires v { v < count site.now }
    ensures value { result ≡ turned site.now root v }
    ensures place { result < count site.now }
{
    let count = site.count();
    (root + v) % count
}

/// The v of a place.
pub(crate) fn unturned(site: &StepContext, root: u32, place: u32) -> u32
    requires root { root < count site.now }
    requires place { place < count site.now }
    ensures value { result ≡ unturned site.now root place }
    ensures place { result < count site.now }
{
    let count = site.count();
    (place + (count - root)) % count
}

/// A number below 2 to the power of `bits` without its highest set bit.
fn cleared(bits: u32, v: u32) -> u32
    requires { bits ≤ 8 }
    ensures value { result ≡ cleared bits v }
    ensures most { result ≤ v }
{
    if bits == 0 {
        return 0;
    }
    let power = 2u32.pow(bits - 1);
    if power <= v {
        v - power
    } else {
        cleared(bits - 1, v)
    }
}

/// The parent of v in the tree.
#[tactic(auto, unfolding(crate::specs::Trees::parent))]
fn parent(v: u32) -> u32
    ensures value { result ≡ parent v }
    ensures most { result ≤ v }
{
    cleared(8, v)
}

/// The way down a tree.
#[derive(Clone, Copy)]
pub(crate) struct Down {
    /// The place of the tree's root.
    pub(crate) root: u32,
    /// The number of the root's cell, after which those of the other v stand.
    pub(crate) base: u32,
    /// The number of the cell that the root's copies.
    pub(crate) top: u32,
}

/// A cell of the way down, which copies its parent's, or the cell at the top at the root. Another than the root's waits for the cell
/// `below`, too.
pub(crate) fn draw_down_cell(
    plan: &mut Plan,
    site: &StepContext,
    down: Down,
    below: u32,
    v: u32,
) -> Result<(), NoMemory>
    requires root { down.root < count site.now }
    requires v { v < count site.now }
    requires base { down.base ≤ 2 ^ 31 }
    requires room { HasRoom plan.old (down_cell site.now down.root down.base down.top below v ∷ []) }
    ensures { IfOk result (λ u. plan.new ≡ add plan.old (down_cell site.now down.root down.base down.top below v)) }
{
    site.recall_members();
    let part = site.holding(site.length(), turned(site, down.root, v));
    if v == 0 {
        plan.draw(part, &[put_whole(site.length(), down.top)])
    } else {
        let copy = put_whole(site.length(), down.base + parent(v));
        plan.draw(part, &[bump(below), copy])
    }
}

/// The cell of v on the way up.
pub(crate) fn up_number(site: &StepContext, v: u32) -> u32
    requires { v < count site.now }
    ensures { result ≡ up_number site.now v }
{
    let count = site.count();
    site.further(count - 1 - v)
}

/// What a child of v has, if w is one.
fn push_child(
    links: &mut Vec<Incoming>,
    site: &StepContext,
    v: u32,
    w: u32,
) -> Result<(), AllocError>
    requires { w < count site.now }
    ensures { IfOk result (λ u. links.new.items ≡ links.old.items ++
        (if parent w == v then atomic site.now.length (up_number site.now w) ∷ [] else [])) }
{
    if parent(w) == v {
        links.push(atomic(site.length(), up_number(site, w)))?;
    }
    Ok(())
}

/// What is combined in the cell of v: the list at its place, and what its children have.
fn up_links(
    alloc: Global,
    site: &StepContext,
    root: u32,
    v: u32,
) -> Result<Vec<Incoming>, AllocError>
    requires root { root < count site.now }
    requires v { v < count site.now }
    ensures { IfOk result (λ links. links.items ≡ map (atomic site.now.length) (up_sources site.now root v)) }
{
    let count = site.count();
    let mut links = Vec::new(alloc);
    links.push(atomic(site.length(), site.entry(turned(site, root, v))))?;
    for w in v + 1..count {
        push_child(&mut links, site, v, w)?;
    }
    Ok(links)
}

/// The cell of v on the way up.
fn draw_up_cell(
    alloc: Global,
    plan: &mut Plan,
    site: &StepContext,
    root: u32,
    op: AtomicOp,
    v: u32,
) -> Result<(), NoMemory>
    requires root { root < count site.now }
    requires v { v < count site.now }
    requires room { HasRoom plan.old (up_cell site.now root op v ∷ []) }
    ensures { IfOk result (λ u. plan.new ≡ add plan.old (up_cell site.now root op v)) }
{
    let part = site.summing(op, turned(site, root, v));
    match up_links(alloc, site, root, v) {
        Ok(links) => plan.draw(part, links.as_slice()),
        Err(_) => Err(NoMemory),
    }
}

/// The way up: the cells of the places, the root's last.
#[derive(Drop)]
pub(crate) struct Up {
    pub(crate) alloc: Global,
    pub(crate) root: u32,
    pub(crate) op: AtomicOp,
}

impl Rows for Up {
    ghost fits = { λ up s k. up.root < count s };

    ghost cell = { λ up s k. up_at s up.root up.op };

    fn draw(
        &self,
        plan: &mut Plan,
        site: &StepContext,
        _number: u32,
        place: u32,
    ) -> Result<(), NoMemory> {
        let count = site.count();
        draw_up_cell(
            self.alloc,
            plan,
            site,
            self.root,
            self.op,
            count - 1 - place,
        )
    }
}
