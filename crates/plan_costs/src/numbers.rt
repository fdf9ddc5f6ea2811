//! The numbers of LogGP, and how long a link's message takes by them.

ghost use Rattle.std.specs.Prelude.{◌≡◌, ◌<◌, ◌≤◌, ◌+◌, ◌*◌, ◌^◌, false, IsTrue, SomeIff, length};
ghost use Rattle.plan_core.specs.Plan.{link};
ghost use Rattle.plan_tables.specs.Tables.{from_rank, to_rank};
ghost use Rattle.plan_costs.specs.Times.{IsTimed, alone, handling, in_turn, numbers_of, receiving, sending, stays, travel};

use plan_core::reading::{cell_at, link_at, link_count};
use plan_core::{LinkKind, Plan};
use ptl_types::Rank;

/// What a message costs, in picoseconds; `byte_gap` and `byte_work` are picoseconds a byte.
#[derive(Clone, Copy, Debug, PartialEq, Eq)]
pub struct LogGp {
    /// L: from one network interface to the other.
    pub latency: u64,
    /// o: an interface's work for a message, at each end. At least 1.
    pub overhead: u64,
    /// g: from one message of a port to its next, at least.
    pub gap: u64,
    /// G: for each byte of a message after the first.
    pub byte_gap: u64,
    /// O: for each byte that is combined at its target.
    pub byte_work: u64,
}

impl LogGp {
    /// L, o and g in nanoseconds, G and O in picoseconds a byte. None where o is 0, and only there.
    pub fn of(latency: u32, overhead: u32, gap: u32, byte_gap: u32, byte_work: u32) -> Option<LogGp>
        ensures { SomeIff result (1 ≤ overhead) (numbers_of latency overhead gap byte_gap byte_work) }
    {
        if overhead == 0 {
            return None;
        }
        Some(LogGp {
            latency: latency as u64 * 1000,
            overhead: overhead as u64 * 1000,
            gap: gap as u64 * 1000,
            byte_gap: byte_gap as u64,
            byte_work: byte_work as u64,
        })
    }
}

/// The rank that fires a link.
pub(crate) fn from_rank(plan: &Plan, l: u32) -> Rank
    requires timed { IsTimed plan.now }
    requires link { l < length plan.now.links }
    ensures value { result ≡ from_rank plan.now l }
    ensures rank { result < plan.now.ranks }
{
    cell_at(plan, link_at(plan, l).source).rank
}

/// The rank that a link comes to.
pub(crate) fn to_rank(plan: &Plan, l: u32) -> Rank
    requires timed { IsTimed plan.now }
    requires link { l < length plan.now.links }
    ensures value { result ≡ to_rank plan.now l }
    ensures rank { result < plan.now.ranks }
{
    cell_at(plan, link_at(plan, l).target).rank
}

/// Whether a link stays on its rank.
pub(crate) fn stays(plan: &Plan, l: u32) -> bool
    requires timed { IsTimed plan.now }
    requires link { l < length plan.now.links }
    ensures { result ≡ stays plan.now l }
{
    from_rank(plan, l) == to_rank(plan, l)
}

/// How long a message takes at its ports and between them, in picoseconds.
#[derive(Clone, Copy, Debug)]
pub(crate) struct Spans {
    /// The sending port has it.
    pub sending: u64,
    /// From the begin of its sending until it has arrived.
    pub travel: u64,
    /// From the begin of its receipt until it is counted.
    pub handling: u64,
    /// The receiving port has it.
    pub receiving: u64,
}

/// How long a message takes.
pub(crate) fn spans_of(numbers: &LogGp, plan: &Plan, l: u32) -> Spans
    requires timed { IsTimed plan.now }
    requires link { l < length plan.now.links }
    requires between { stays plan.now l ≡ false }
    requires fits { alone numbers.now plan.now l < 2 ^ 64 }
    ensures sending { result.sending ≡ sending numbers.now plan.now l }
    ensures travel { result.travel ≡ travel numbers.now plan.now l }
    ensures handling { result.handling ≡ handling numbers.now plan.now l }
    ensures receiving { result.receiving ≡ receiving numbers.now plan.now l }
{
    let link = link_at(plan, l);
    let wire = link.length.saturating_sub(1) * numbers.byte_gap;
    let work = match link.kind {
        LinkKind::Atomic => link.length * numbers.byte_work,
        _ => 0,
    };
    let handling = numbers.overhead + work;
    Spans {
        sending: numbers.overhead.max(numbers.gap) + wire,
        travel: numbers.overhead + wire + numbers.latency,
        handling,
        receiving: handling.max(numbers.gap + wire),
    }
}

/// How long a message takes by itself, where 64 bits hold it.
fn alone(numbers: &LogGp, plan: &Plan, l: u32) -> Option<u64>
    requires timed { IsTimed plan.now }
    requires link { l < length plan.now.links }
    ensures { SomeIff result (alone numbers.now plan.now l < 2 ^ 64) (alone numbers.now plan.now l) }
{
    if stays(plan, l) {
        return Some(0);
    }
    let link = link_at(plan, l);
    let wire = link.length.saturating_sub(1).checked_mul(numbers.byte_gap)?;
    let work = match link.kind {
        LinkKind::Atomic => link.length.checked_mul(numbers.byte_work)?,
        _ => 0,
    };
    let sending = numbers.overhead.max(numbers.gap).checked_add(wire)?;
    let handling = numbers.overhead.checked_add(work)?;
    let receiving = handling.max(numbers.gap.checked_add(wire)?);
    sending.checked_add(numbers.latency)?.checked_add(receiving)
}

/// How long all messages take one after the other, where 64 bits hold it.
pub(crate) fn in_turn(numbers: &LogGp, plan: &Plan) -> Option<u64>
    requires { IsTimed plan.now }
    ensures { SomeIff result (in_turn numbers.now plan.now < 2 ^ 64) (in_turn numbers.now plan.now) }
{
    let mut sum: u64 = 0;
    for l in 0..link_count(plan) {
        sum = sum.checked_add(alone(numbers, plan, l)?)?;
    }
    Some(sum)
}
