//! What is known of the times so far.

ghost use Rattle.std.specs.Prelude.{◌≡◌, ◌<◌, ◌≤◌, ◌+◌, ◌^◌, ◌↔◌, IfOk, IsTrue, get_or, length, map, max, replicate};
ghost use Rattle.plan_core.specs.Plan.{all_cells};
ghost use Rattle.plan_costs.specs.State.{HaveSizes, after_count, after_receive, after_send, after_stay, awaited_first, awaited_of};
ghost use Rattle.plan_costs.specs.State.{cell_time, first, stage_of};
ghost use Rattle.plan_costs.specs.Times.{IsTimed};

use crate::times::Times;
use plan_core::Plan;
use plan_core::reading::{cell_at, cell_count, link_count};
use ptl_types::{NoMemory, Rank};
use std::alloc::{AllocError, Global};
use std::marker::Model;

/// Where a link stands.
#[derive(Clone, Copy, Debug)]
pub(crate) enum Stage {
    /// Not sent yet.
    Waiting,
    /// Sent, on its way.
    Sent,
    /// Counted at its target.
    Counted,
}

/// The times so far, where each link stands, how many links each cell still awaits, and when the ports of each rank are free. Times are
/// in picoseconds.
#[derive(Debug, Drop)]
pub(crate) struct State {
    // By cell.
    cells: Vec<u64>,
    // By link.
    sent: Vec<u64>,
    // By link.
    received: Vec<u64>,
    // By link.
    stages: Vec<Stage>,
    // By cell.
    awaited: Vec<u64>,
    // By rank.
    senders: Vec<u64>,
    // By rank.
    receivers: Vec<u64>,
}

impl Model for State {
    ghost use Rattle.plan_costs.specs.State.{StateOf};

    ghost Value = { StateOf };

    ghost view = { λ s. record {
      times = record { cells = s.cells.items; sent = s.sent.items; received = s.received.items };
      stages = s.stages.items;
      awaited = s.awaited.items;
      senders = s.senders.items;
      receivers = s.receivers.items;
    } };
}

/// So many times of 0.
pub(crate) fn zeros(alloc: Global, count: usize) -> Result<Vec<u64>, AllocError>
    ensures { IfOk result (λ times. times.items ≡ replicate count 0) }
{
    let mut times = Vec::new(alloc);
    times.resize(count, 0)?;
    Ok(times)
}

/// So many links that aren't sent.
fn waiting(alloc: Global, count: usize) -> Result<Vec<Stage>, AllocError>
    ensures { IfOk result (λ stages. stages.items ≡ replicate count Stage.Waiting) }
{
    let mut stages = Vec::new(alloc);
    stages.resize(count, Stage::Waiting)?;
    Ok(stages)
}

/// How many links a cell awaits: a go cell waits for its host alone.
fn awaited_by(plan: &Plan, c: u32) -> u64
    requires { c < length plan.now.cells }
    ensures { result ≡ awaited_first plan.now c }
{
    if c < plan.ranks() {
        0
    } else {
        cell_at(plan, c).needs
    }
}

/// How many links each cell awaits.
fn all_awaited(alloc: Global, plan: &Plan) -> Result<Vec<u64>, AllocError>
    requires { IsTimed plan.now }
    ensures { IfOk result (λ awaited. awaited.items ≡ map (awaited_first plan.now) (all_cells plan.now)) }
{
    let mut awaited = Vec::with_capacity(alloc, cell_count(plan) as usize)?;
    for c in 0..cell_count(plan) {
        awaited.push(awaited_by(plan, c))?;
    }
    Ok(awaited)
}

/// The beginning, in which nothing is sent.
fn begin(alloc: Global, plan: &Plan) -> Result<State, AllocError>
    requires { IsTimed plan.now }
    ensures { IfOk result (λ s. s ≡ first plan.now) }
{
    let links = link_count(plan) as usize;
    let ranks = plan.ranks() as usize;
    Ok(State {
        cells: zeros(alloc, cell_count(plan) as usize)?,
        sent: zeros(alloc, links)?,
        received: zeros(alloc, links)?,
        stages: waiting(alloc, links)?,
        awaited: all_awaited(alloc, plan)?,
        senders: zeros(alloc, ranks)?,
        receivers: zeros(alloc, ranks)?,
    })
}

impl State {
    /// The beginning, in which nothing is sent.
    ///
    /// # Errors
    ///
    /// There was no memory for it.
    pub fn open(alloc: Global, plan: &Plan) -> Result<State, NoMemory>
        requires { IsTimed plan.now }
        ensures { IfOk result (λ s. s ≡ first plan.now) }
    {
        match begin(alloc, plan) {
            Ok(state) => Ok(state),
            Err(_) => Err(NoMemory),
        }
    }

    /// Where a link stands.
    pub fn stage(&self, l: u32) -> Stage
        requires { l < length self.now.stages }
        ensures { result ≡ stage_of self.now l }
    {
        self.stages[l as usize]
    }

    /// When a cell is reached, as far as its links are counted.
    pub fn cell(&self, c: u32) -> u64
        requires { c < length self.now.times.cells }
        ensures { result ≡ cell_time self.now c }
    {
        self.cells[c as usize]
    }

    /// Whether all links of a cell are counted.
    pub fn is_reached(&self, c: u32) -> bool
        requires { c < length self.now.awaited }
        ensures { IsTrue result ↔ (awaited_of self.now c ≡ 0) }
    {
        self.awaited[c as usize] == 0
    }

    /// Sends a message that is ready at this time by the port of its rank, which it keeps for so long. It answers when.
    pub fn send(&mut self, l: u32, rank: Rank, ready: u64, busy: u64) -> u64
        requires stages { l < length self.old.stages }
        requires sent { l < length self.old.times.sent }
        requires rank { rank < length self.old.senders }
        requires fits { max ready (get_or self.old.senders rank 0) + busy < 2 ^ 64 }
        ensures at { result ≡ max ready (get_or self.old.senders rank 0) }
        ensures after { self.new ≡ after_send self.old l rank result busy }
    {
        let at = ready.max(self.senders[rank as usize]);
        self.sent[l as usize] = at;
        self.stages[l as usize] = Stage::Sent;
        self.senders[rank as usize] = at + busy;
        at
    }

    /// Begins the receipt of a message that is there at this time, by the port of its rank, which it keeps for so long. It answers when.
    pub fn receive(&mut self, l: u32, rank: Rank, arrival: u64, busy: u64) -> u64
        requires stages { l < length self.old.stages }
        requires received { l < length self.old.times.received }
        requires rank { rank < length self.old.receivers }
        requires fits { max arrival (get_or self.old.receivers rank 0) + busy < 2 ^ 64 }
        ensures at { result ≡ max arrival (get_or self.old.receivers rank 0) }
        ensures after { self.new ≡ after_receive self.old l rank result busy }
    {
        let at = arrival.max(self.receivers[rank as usize]);
        self.received[l as usize] = at;
        self.stages[l as usize] = Stage::Counted;
        self.receivers[rank as usize] = at + busy;
        at
    }

    /// A link that stays on its rank takes no time.
    pub fn stay(&mut self, l: u32, at: u64)
        requires stages { l < length self.old.stages }
        requires sent { l < length self.old.times.sent }
        requires received { l < length self.old.times.received }
        ensures { self.new ≡ after_stay self.old l at }
    {
        self.sent[l as usize] = at;
        self.received[l as usize] = at;
        self.stages[l as usize] = Stage::Counted;
    }

    /// Counts a link at its target.
    pub fn count(&mut self, c: u32, at: u64)
        requires cells { c < length self.old.times.cells }
        requires awaited { c < length self.old.awaited }
        requires some { 1 ≤ awaited_of self.old c }
        ensures { self.new ≡ after_count self.old c at }
    {
        let place = c as usize;
        self.cells[place] = self.cells[place].max(at);
        self.awaited[place] -= 1;
    }

    /// The times.
    pub fn into_times(self) -> Times
        ensures { result ≡ self.times }
    {
        let State {
            cells,
            sent,
            received,
            stages: _,
            awaited: _,
            senders: _,
            receivers: _,
        } = self;
        Times::of(cells, sent, received)
    }
}
