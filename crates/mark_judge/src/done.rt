//! The lines that say where done counters stand.

ghost use Rattle.std.specs.Prelude.{◌≡◌, ◌<◌, ◌+◌, ◌^◌, if◌then◌else◌, true, IfOk, get_or, length, map, set};
ghost use Rattle.number_lists.specs.Numbers.{from_to};
ghost use Rattle.mark_judge.specs.Judged.{done_flaw};
ghost use Rattle.plan_core.specs.Plan.{link, own};
ghost use Rattle.plan_core.specs.calls.RankOps.{done_threshold, is_message, sends_of};
ghost use Rattle.plan_judge.specs.Causes.{first_found};
ghost use Rattle.plan_tables.specs.Tables.{IsTabled, all_ranks, from_rank, rank_of};

use crate::flaw::MarkFlaw;
use plan_core::reading::{cell_at, cell_count, link_at, link_count};
use plan_core::{LinkKind, Plan};
use plan_tables::Tallies;
use ptl_types::{NoMemory, Rank};
use std::alloc::Global;

/// Counts a cell at its rank.
fn count_cell(cells: &mut Tallies, plan: &Plan, c: u32)
    requires cell { c < length plan.now.cells }
    requires rank { rank_of plan.now c < length cells.old }
    requires fits { get_or cells.old (rank_of plan.now c) 0 + 1 < 2 ^ 64 }
    ensures { cells.new ≡ set cells.old (rank_of plan.now c) (get_or cells.old (rank_of plan.now c) 0 + 1) }
{
    cells.add(cell_at(plan, c).rank as usize, 1);
}

/// How many cells each rank has.
///
/// # Errors
///
/// There was no memory for the list.
fn cells_of_ranks(alloc: Global, plan: &Plan) -> Result<Tallies, NoMemory>
    requires { IsTabled plan.now }
    ensures { IfOk result (λ t. t ≡ map (λ r. length (own plan.now r)) (all_ranks plan.now)) }
{
    let mut cells = Tallies::open(alloc, plan.ranks())?;
    for c in 0..cell_count(plan) {
        count_cell(&mut cells, plan, c);
    }
    Ok(cells)
}

/// How many messages a link sends.
fn messages_of(plan: &Plan, l: u32) -> u64
    requires { l < length plan.now.links }
    ensures value { result ≡ (if is_message plan.now l then 1 else 0) }
    ensures at_most { result < 2 }
{
    match link_at(plan, l).kind {
        LinkKind::Bump => 0,
        LinkKind::Put | LinkKind::Atomic => 1,
    }
}

/// Counts a link at the rank of its source, if it sends a message.
fn count_message(sent: &mut Tallies, plan: &Plan, l: u32)
    requires link { l < length plan.now.links }
    requires source { (link plan.now l).source < length plan.now.cells }
    requires rank { from_rank plan.now l < length sent.old }
    requires fits { get_or sent.old (from_rank plan.now l) 0 + 1 < 2 ^ 64 }
    ensures { sent.new ≡ set sent.old (from_rank plan.now l)
        (get_or sent.old (from_rank plan.now l) 0 + (if is_message plan.now l then 1 else 0)) }
{
    let source = link_at(plan, l).source;
    sent.add(cell_at(plan, source).rank as usize, messages_of(plan, l));
}

/// How many messages each rank sends.
///
/// # Errors
///
/// There was no memory for the list.
fn messages_of_ranks(alloc: Global, plan: &Plan) -> Result<Tallies, NoMemory>
    requires { IsTabled plan.now }
    ensures { IfOk result (λ t. t ≡ map (sends_of plan.now) (all_ranks plan.now)) }
{
    let mut sent = Tallies::open(alloc, plan.ranks())?;
    for l in 0..link_count(plan) {
        count_message(&mut sent, plan, l);
    }
    Ok(sent)
}

/// Where the done counter of a rank stands when all is done.
fn counter(plan: &Plan, cells: &Tallies, sent: &Tallies, rank: Rank) -> u128
    requires cells { cells.now ≡ map (λ r. length (own plan.now r)) (all_ranks plan.now) }
    requires sent { sent.now ≡ map (λ r. if plan.now.remote then sends_of plan.now r else 0) (all_ranks plan.now) }
    requires rank { rank < plan.now.ranks }
    ensures { result ≡ done_threshold plan.now rank }
{
    u128::from(cells.at(rank as usize)) + u128::from(sent.at(rank as usize))
}

/// The line of a rank, where its done counter stands elsewhere when the rank is done.
fn done_flaw(
    plan: &Plan,
    cells: &Tallies,
    sent: &Tallies,
    done: &[u64],
    rank: Rank,
) -> Option<MarkFlaw>
    requires cells { cells.now ≡ map (λ r. length (own plan.now r)) (all_ranks plan.now) }
    requires sent { sent.now ≡ map (λ r. if plan.now.remote then sends_of plan.now r else 0) (all_ranks plan.now) }
    requires rank { rank < plan.now.ranks }
    ensures { result ≡ done_flaw plan.now done.now rank }
{
    let said = done.get(rank as usize).copied().unwrap_or(0);
    if u128::from(said) == counter(plan, cells, sent, rank) {
        None
    } else {
        Some(MarkFlaw::BadDone { rank })
    }
}

/// How many messages each rank sends that its done counter counts: those of a plan that asks for acknowledgements.
///
/// # Errors
///
/// There was no memory for the list.
fn counted_messages(alloc: Global, plan: &Plan) -> Result<Tallies, NoMemory>
    requires { IsTabled plan.now }
    ensures { IfOk result (λ t. t ≡ map (λ r. if plan.now.remote then sends_of plan.now r else 0) (all_ranks plan.now)) }
{
    if plan.remote() {
        messages_of_ranks(alloc, plan)
    } else {
        Tallies::open(alloc, plan.ranks())
    }
}

/// The first rank whose line says another number than where its done counter stands when the rank is done.
///
/// # Errors
///
/// There was no memory for the counts of all ranks.
pub(crate) fn first_done_flaw(
    alloc: Global,
    plan: &Plan,
    done: &[u64],
) -> Result<Option<MarkFlaw>, NoMemory>
    requires { IsTabled plan.now }
    ensures { IfOk result (λ flaw. flaw ≡ first_found (done_flaw plan.now done.now) (from_to 0 plan.now.ranks)) }
{
    let cells = cells_of_ranks(alloc, plan)?;
    let sent = counted_messages(alloc, plan)?;
    for rank in 0..plan.ranks() {
        let flaw = done_flaw(plan, &cells, &sent, done, rank);
        if flaw.is_some() {
            return Ok(flaw);
        }
    }
    Ok(None)
}
