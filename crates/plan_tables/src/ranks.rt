//! What each rank of a plan installs.

ghost use Rattle.std.specs.Prelude.{ℕ, ◌≡◌, ◌<◌, ◌≤◌, ◌+◌, ◌*◌, [], IfOk, count_by, get_or, length, max, if◌then◌else◌};
ghost use Rattle.plan_core.specs.Plan.{own as own_of, out_links};
ghost use Rattle.plan_core.specs.calls.RankOps.{done_threshold, is_message};
ghost use Rattle.plan_core.specs.calls.Areas.{areas_length, classes, longest as longest_of, region_length};
ghost use Rattle.plan_core.specs.calls.Calls.{late_calls, prepare_calls};
ghost use Rattle.plan_core.specs.calls.Limits.{limits_for};
ghost use Rattle.plan_tables.specs.Tables.{IsTabled};
ghost use Rattle.plan_tables.specs.Installed.{installed};
ghost use Rattle.plan_tables.specs.Ranks.{IsIndex};

use crate::appended::{
    add_append_calls, add_area_calls, add_counter_calls, add_done_calls, add_link_calls,
};
use crate::calls::push_call;
use crate::index::Index;
use plan_core::reading::link_at;
use plan_core::{LinkKind, Plan};
use ptl_types::{Call, Limits, NoMemory, Rank};
use std::alloc::Global;
use std::marker::Model;

/// What one rank of a plan installs.
#[derive(Debug, Drop)]
pub struct RankTable {
    cells: Vec<u32>,
    calls: Vec<Call>,
    late: Vec<Call>,
    limits: Limits,
    done: u64,
    region: u64,
    longest: u64,
}

impl Model for RankTable {
    ghost use Rattle.plan_tables.specs.Installed.{Installed};

    ghost Value = { Installed };

    ghost view = { λ t. record {
      cells = t.cells.items;
      calls = t.calls.items;
      late = t.late.items;
      limits = t.limits;
      done =
          t.done;
      region = t.region;
      longest = t.longest;
    } };
}

/// Whether a link sends a message.
fn is_message(plan: &Plan, l: u32) -> bool
    requires { l < length plan.now.links }
    ensures { result ≡ is_message plan.now l }
{
    !matches!(link_at(plan, l).kind, LinkKind::Bump)
}

/// 1 for a message, else 0.
fn one_message(plan: &Plan, l: u32) -> u64
    requires { l < length plan.now.links }
    ensures value { result ≡ (if is_message plan.now l then 1 else 0) }
    ensures at_most { result ≤ 1 }
{
    if is_message(plan, l) { 1 } else { 0 }
}

/// How many of these links send messages.
fn count_messages(plan: &Plan, links: &[u32]) -> u64
    requires links { (i : ℕ) → i < length links.now → get_or links.now i 0 < length plan.now.links }
    ensures value { result ≡ count_by (is_message plan.now) links.now }
    ensures at_most { result ≤ length links.now }
{
    let mut count = 0u64;
    for l in links {
        count += one_message(plan, *l);
    }
    count
}

/// The greater of two lengths.
fn longer(a: u64, b: u64) -> u64
    ensures { result ≡ max a b }
{
    if a < b { b } else { a }
}

/// The longest of these links, in bytes.
fn longest(plan: &Plan, links: &[u32]) -> u64
    requires { (i : ℕ) → i < length links.now → get_or links.now i 0 < length plan.now.links }
    ensures { result ≡ longest_of plan.now links.now }
{
    let mut most = 0u64;
    for l in links {
        most = longer(most, link_at(plan, *l).length);
    }
    most
}

/// No calls, and room for so many.
fn room_for(alloc: Global, calls: usize) -> Result<Vec<Call>, NoMemory>
    ensures { IfOk result (λ v. v.items ≡ []) }
{
    match Vec::with_capacity(alloc, calls) {
        Ok(list) => Ok(list),
        Err(_) => Err(NoMemory),
    }
}

/// The calls that prepare a rank, and the bytes of its region.
fn prepare(alloc: Global, plan: &Plan, index: &Index, r: Rank) -> Result<(Vec<Call>, u64), NoMemory>
    requires tabled { IsTabled plan.now }
    requires index { IsIndex plan.now index.now }
    requires rank { r < plan.now.ranks }
    ensures calls { IfOk result (λ made. made.0.items ≡ prepare_calls plan.now r) }
    ensures end { IfOk result (λ made. made.1 ≡ region_length plan.now r + areas_length plan.now r) }
{
    let own = index.own_at(plan, r);
    let out = index.out_at(plan, r);
    let after_cells = index.after_cells(plan, r);
    // Room for an area of each of the 81 classes, the three calls that every rank makes, two for each cell and one for each link.
    let mut calls = room_for(alloc, 84 + 2 * own.len() + out.len())?;
    push_call(&mut calls, Call::PtAlloc)?;
    let length = add_area_calls(&mut calls, plan, &index.areas, r, after_cells)?;
    push_call(&mut calls, Call::CtDone)?;
    add_counter_calls(&mut calls, own)?;
    let remote = plan.remote();
    push_call(&mut calls, Call::MdBind { length, remote })?;
    add_link_calls(&mut calls, plan, &index.starts, out)?;
    add_done_calls(&mut calls, plan, own)?;
    Ok((calls, length))
}

/// The calls of a rank's start.
fn start(alloc: Global, plan: &Plan, index: &Index, r: Rank) -> Result<Vec<Call>, NoMemory>
    requires tabled { IsTabled plan.now }
    requires index { IsIndex plan.now index.now }
    requires rank { r < plan.now.ranks }
    ensures { IfOk result (λ calls. calls.items ≡ late_calls plan.now r) }
{
    let own = index.own_at(plan, r);
    let mut calls = room_for(alloc, own.len())?;
    add_append_calls(&mut calls, plan, &index.starts, r, own)?;
    Ok(calls)
}

/// How many of the calls that prepare a rank append areas: all but those that its cells and links need, and three.
fn area_count(plan: &Plan, r: Rank, calls: &[Call], own: &[u32], out: &[u32]) -> u32
    requires calls { calls.now ≡ prepare_calls plan.now r }
    requires own { own.now ≡ own_of plan.now r }
    requires out { out.now ≡ out_links plan.now r }
    ensures value { result ≡ length (classes plan.now r) }
    ensures at_most { result ≤ 81 }
{
    let _ = (plan.ranks(), r);
    (calls.len() - 3 - 2 * own.len() - out.len()) as u32
}

/// The limits of a rank's interface, of which so many entries are areas'.
fn limits(plan: &Plan, index: &Index, r: Rank, areas: u32) -> Limits
    requires tabled { IsTabled plan.now }
    requires index { IsIndex plan.now index.now }
    requires rank { r < plan.now.ranks }
    requires areas { areas ≡ length (classes plan.now r) }
    requires at_most { areas ≤ 81 }
    ensures { result ≡ limits_for plan.now r }
{
    let own = index.own_at(plan, r).len() as u32;
    let out = index.out_at(plan, r);
    let most = longest(plan, out);
    Limits {
        entries: areas + own,
        unexpected: index.into_at(plan, r).len() as u32,
        mds: 1,
        cts: own + 1,
        eqs: 0,
        pts: 1,
        triggered: out.len() as u32 + own,
        msg: most,
        atomic: most,
        fetch_atomic: 0,
    }
}

/// Where the done counter of a rank stands when all is done.
pub(crate) fn done(plan: &Plan, index: &Index, r: Rank) -> u64
    requires tabled { IsTabled plan.now }
    requires index { IsIndex plan.now index.now }
    requires rank { r < plan.now.ranks }
    ensures { result ≡ done_threshold plan.now r }
{
    let own = index.own_at(plan, r).len() as u64;
    if plan.remote() {
        own + count_messages(plan, index.out_at(plan, r))
    } else {
        own
    }
}

/// What a rank installs.
pub(crate) fn rank_table(
    alloc: Global,
    plan: &Plan,
    index: &Index,
    r: Rank,
) -> Result<RankTable, NoMemory>
    requires tabled { IsTabled plan.now }
    requires index { IsIndex plan.now index.now }
    requires rank { r < plan.now.ranks }
    ensures { IfOk result (λ t. t ≡ installed plan.now r) }
{
    let own = index.own_at(plan, r);
    let out = index.out_at(plan, r);
    let (calls, region) = prepare(alloc, plan, index, r)?;
    let late = start(alloc, plan, index, r)?;
    let areas = area_count(plan, r, calls.as_slice(), own, out);
    let limits = limits(plan, index, r, areas);
    let done = done(plan, index, r);
    let longest = longest(plan, index.into_at(plan, r));
    match Vec::from_slice(alloc, own) {
        Ok(cells) => Ok(RankTable {
            cells,
            calls,
            late,
            limits,
            done,
            region,
            longest,
        }),
        Err(_) => Err(NoMemory),
    }
}

impl RankTable {
    /// The numbers of the rank's own cells, rising.
    pub fn cells(&self) -> &[u32]
        ensures { result.now ≡ self.now.cells }
    {
        self.cells.as_slice()
    }

    /// The calls that prepare its interface, in order.
    pub fn calls(&self) -> &[Call]
        ensures { result.now ≡ self.now.calls }
    {
        self.calls.as_slice()
    }

    /// The calls of its start, in order.
    pub fn late(&self) -> &[Call]
        ensures { result.now ≡ self.now.late }
    {
        self.late.as_slice()
    }

    /// The limits of its interface.
    pub fn limits(&self) -> &Limits
        ensures { result.now ≡ self.now.limits }
    {
        &self.limits
    }

    /// Where its done counter stands when all is done.
    pub fn done(&self) -> u64
        ensures { result ≡ self.now.done }
    {
        self.done
    }

    /// The bytes of its region: its cells, and after them its areas.
    pub fn region(&self) -> u64
        ensures { result ≡ self.now.region }
    {
        self.region
    }

    /// The bytes of the longest message that comes to it.
    pub fn longest(&self) -> u64
        ensures { result ≡ self.now.longest }
    {
        self.longest
    }

    /// The numbers of the rank's own cells, and the calls that prepare its interface, in order.
    pub fn into_lists(self) -> (Vec<u32>, Vec<Call>)
        ensures cells { result.0.items ≡ self.cells }
        ensures calls { result.1.items ≡ self.calls }
    {
        (self.cells, self.calls)
    }
}
