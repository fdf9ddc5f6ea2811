//! The steps of a plan: what one begins with, its cells and links, and where it leaves its members. Each collective has a module; here,
//! with a line for each, stand the step that is added and its size.
#![tactic(auto)]

ghost use Rattle.std.specs.Prelude.{◌≡◌, ◌≤◌, ◌+◌, ◌*◌, ◌^◌, ◌-◌, IfOk, sum_by};
ghost use Rattle.coll_shape.specs.declared.limits.TheConstants.{MOST_ELEMENTS, MOST_RANKS};
ghost use Rattle.plan_core.specs.Draw.{HasRoom};
ghost use Rattle.plan_core.specs.Plan.{from_to};
ghost use Rattle.plan_steps.specs.Collectives.{cells_of, step_bytes, step_links};
ghost use Rattle.plan_steps.specs.Drawing.{IsBegun, drawn_step, site};
ghost use Rattle.plan_steps.specs.Rounds.{rounds};

pub mod allgather;
pub mod allreduce;
pub mod alltoall;
pub mod barrier;
mod beginning;
pub mod broadcast;
mod collective;
mod doubling;
mod drawing;
mod ends;
pub mod exscan;
mod first_cells;
pub mod gather;
pub mod gatherv;
mod incoming;
pub mod reduce;
pub mod reducescatter;
mod row;
pub mod scan;
pub mod scatter;
mod step_context;
mod tree;
mod wide;

use allgather::Allgather;
use allreduce::Allreduce;
use alltoall::Alltoall;
use barrier::Barrier;
use broadcast::Broadcast;
use coll_shape::{CollStep, Shape};
use collective::add_as;
pub use doubling::rounds;
pub use drawing::Drawing;
pub use ends::StepExit;
use exscan::Exscan;
use gather::Gather;
use gatherv::Gatherv;
pub use incoming::bump;
use ptl_types::{NoMemory, Rank};
use reduce::Reduce;
use reducescatter::Reducescatter;
use scan::Scan;
use scatter::Scatter;
use std::alloc::Global;

/// Adds a step of the shape to a drawing: its cells with their links, after those that are there. The members' exits become the step's,
/// and the cells that hold the new buffer are kept.
///
/// # Errors
///
/// There was no memory.
pub fn add_step(
    alloc: Global,
    drawing: &mut Drawing,
    step: &CollStep,
    members: &[Rank],
    shape: &Shape,
) -> Result<(), NoMemory>
    requires begun { IsBegun shape.now drawing.old step.now members.now }
    requires room { HasRoom drawing.old.plan (cells_of (site shape.now drawing.old step.now members.now) step.now) }
    ensures { IfOk result (λ u. drawing.new ≡ drawn_step shape.now drawing.old step.now members.now) }
{
    match *step {
        CollStep::Barrier => add_as(alloc, drawing, &Barrier, step, members, shape),
        CollStep::Broadcast { root, .. } => {
            add_as(alloc, drawing, &Broadcast { root }, step, members, shape)
        }
        CollStep::Reduce { root, op, .. } => {
            add_as(alloc, drawing, &Reduce { root, op }, step, members, shape)
        }
        CollStep::Allreduce { op, .. } => {
            add_as(alloc, drawing, &Allreduce { op }, step, members, shape)
        }
        CollStep::Gather { root, .. } => {
            add_as(alloc, drawing, &Gather { root }, step, members, shape)
        }
        CollStep::Allgather { .. } => add_as(alloc, drawing, &Allgather, step, members, shape),
        CollStep::Alltoall { .. } => add_as(alloc, drawing, &Alltoall, step, members, shape),
        CollStep::Scan { op, .. } => add_as(alloc, drawing, &Scan { op }, step, members, shape),
        CollStep::Scatter { root, .. } => {
            add_as(alloc, drawing, &Scatter { root }, step, members, shape)
        }
        CollStep::Reducescatter { op, .. } => {
            add_as(alloc, drawing, &Reducescatter { op }, step, members, shape)
        }
        CollStep::Exscan { op, .. } => add_as(alloc, drawing, &Exscan { op }, step, members, shape),
        CollStep::Gatherv { root, .. } => {
            add_as(alloc, drawing, &Gatherv { root }, step, members, shape)
        }
    }
}

/// The links of the rounds of a scan on m members after its first row.
fn round_links(m: u32) -> u64
    requires { m ≤ MOST_RANKS }
    ensures value { result ≡ sum_by (λ k. m + (m - 2 ^ k)) (from_to 0 (rounds m)) }
    ensures at_most { result ≤ 4096 }
{
    let mut links = 0u64;
    for k in 0..rounds(m) {
        links += u64::from(m) + u64::from(m.saturating_sub(2u32.pow(k)));
    }
    links
}

/// The links that a step on m members adds, of which h hold the buffer that it reads.
pub fn step_links(step: &CollStep, m: u32, h: u32) -> u64
    requires nonempty { 1 ≤ m }
    requires at_most { m ≤ MOST_RANKS }
    requires held { h ≤ m }
    ensures value { result ≡ step_links step.now m h }
    ensures at_most { result ≤ 2 ^ 18 }
{
    let m64 = u64::from(m);
    let h = u64::from(h);
    match step {
        CollStep::Barrier => m64 + 2 * (u64::from(rounds(m)) * m64),
        CollStep::Broadcast { .. } => m64 + 1 + (1 + 2 * (m64 - 1)),
        CollStep::Reduce { .. } => 2 * m64 + (m64 + (m64 - 1)),
        CollStep::Allreduce { .. } => 2 * m64 + (m64 + (m64 - 1)) + (1 + 2 * (m64 - 1)),
        CollStep::Gather { .. } => 3 * m64,
        CollStep::Allgather { .. } => 2 * m64 + 2 * (m64 * m64),
        CollStep::Alltoall { .. } => 2 * m64 + m64 * m64,
        CollStep::Scan { .. } => 2 * m64 + m64 + round_links(m),
        CollStep::Scatter { .. } => m64 + 1 + (m64 + (m64 - 1)),
        CollStep::Reducescatter { .. } => 2 * m64 + (m64 + (m64 - 1)) + (m64 + (m64 - 1)),
        CollStep::Exscan { .. } => 2 * m64 + m64 + round_links(m) + 2 * (m64 - 1),
        CollStep::Gatherv { .. } => m64 + h + 1 + h,
    }
}

/// The bytes of the cells that a step on m members adds, of which h hold the buffer that it reads, a list of n bytes.
pub fn step_bytes(step: &CollStep, m: u32, h: u32, n: u64) -> u64
    requires nonempty { 1 ≤ m }
    requires at_most { m ≤ MOST_RANKS }
    requires held { h ≤ m }
    requires short { n ≤ 8 * MOST_ELEMENTS }
    ensures value { result ≡ step_bytes step.now m h n }
    ensures at_most { result ≤ 2 ^ 45 }
{
    let k = u64::from(rounds(m));
    let m = u64::from(m);
    let h = u64::from(h);
    match step {
        CollStep::Barrier => 0,
        CollStep::Broadcast { .. } => n + m * n,
        CollStep::Reduce { .. } => 2 * (m * n),
        CollStep::Allreduce { .. } => 3 * (m * n),
        CollStep::Gather { .. } => 2 * (m * n),
        CollStep::Allgather { .. } => m * n + 2 * (m * (m * n)),
        CollStep::Alltoall { .. } => 2 * (m * n),
        CollStep::Scan { .. } => m * n + (k + 1) * (m * n),
        CollStep::Scatter { .. } => n + m * (n / m),
        CollStep::Reducescatter { .. } => 2 * (m * n) + m * (n / m),
        CollStep::Exscan { .. } => m * n + (k + 1) * (m * n) + (m - 1) * n,
        CollStep::Gatherv { .. } => 2 * (h * n),
    }
}
