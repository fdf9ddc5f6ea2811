//! The cells of each rank, and the messages that it sends.

ghost use Rattle.std.specs.Prelude.{◌≡◌, ◌<◌, ◌+◌, ◌^◌, IfOk, get_or, length, nat_lt, set, if◌then◌else◌};
ghost use Rattle.plan_tables.specs.Tables.{IsTabled, rank_of};
ghost use Rattle.schedule_compiler.specs.done.Counts.{own_counts, sent_counts, sent_key};

use plan_core::{LinkKind, Plan};
use plan_tables::Tallies;
use ptl_types::{NoMemory, Rank};
use std::alloc::Global;

/// The rank of a cell.
fn rank_of(plan: &Plan, c: u32) -> Rank
    requires tabled { IsTabled plan.now }
    requires cell { c < length plan.now.cells }
    ensures value { result ≡ rank_of plan.now c }
    ensures rank { result < plan.now.ranks }
{
    plan.cells()[c as usize].rank
}

/// Where a link is counted: at the rank that fires it, and past the end where it is no message.
fn sender_of(plan: &Plan, l: u32) -> usize
    requires tabled { IsTabled plan.now }
    requires link { l < length plan.now.links }
    ensures { result ≡ sent_key plan.now l }
{
    let link = &plan.links()[l as usize];
    match link.kind {
        LinkKind::Bump => plan.ranks() as usize,
        _ => rank_of(plan, link.source) as usize,
    }
}

/// One more of a key, where the table has it.
fn count(table: &mut Tallies, key: usize)
    requires { get_or table.old key 0 + 1 < 2 ^ 64 }
    ensures { table.new ≡ (if nat_lt key (length table.old) then set table.old key (get_or table.old key 0 + 1) else table.old) }
{
    if key < table.len() {
        table.add(key, 1);
    }
}

/// How many cells each rank has.
///
/// # Errors
///
/// There was no memory for the numbers.
pub(crate) fn count_cells(alloc: Global, plan: &Plan) -> Result<Tallies, NoMemory>
    requires { IsTabled plan.now }
    ensures { IfOk result (λ counts. counts ≡ own_counts plan.now) }
{
    let mut counts = Tallies::open(alloc, plan.ranks())?;
    for c in 0..plan.cells().len() as u32 {
        let key = rank_of(plan, c) as usize;
        count(&mut counts, key);
    }
    Ok(counts)
}

/// How many messages each rank sends.
///
/// # Errors
///
/// There was no memory for the numbers.
pub(crate) fn count_messages(alloc: Global, plan: &Plan) -> Result<Tallies, NoMemory>
    requires { IsTabled plan.now }
    ensures { IfOk result (λ counts. counts ≡ sent_counts plan.now) }
{
    let mut counts = Tallies::open(alloc, plan.ranks())?;
    for l in 0..plan.links().len() as u32 {
        let key = sender_of(plan, l);
        count(&mut counts, key);
    }
    Ok(counts)
}
