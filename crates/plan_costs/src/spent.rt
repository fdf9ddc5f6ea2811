//! What a link takes of the time.

ghost use Rattle.std.specs.Prelude.{◌≡◌, ◌<◌, ◌+◌, ◌^◌, false, length};
ghost use Rattle.plan_costs.specs.Path.{IsCosted, nothing, plus, spent_between, spent_by, whole};
ghost use Rattle.plan_costs.specs.Times.{counted, ready, stays};

use crate::numbers::{LogGp, spans_of, stays};
use crate::times::Times;
use plan_core::Plan;
use plan_core::reading::link_at;

/// What a link, or several, take from the time at which a source is reached until a message is counted, in picoseconds.
#[derive(Clone, Copy, Debug, PartialEq, Eq)]
pub struct Spent {
    /// A message waits for its sending port.
    pub queued: u64,
    /// o, at both ends.
    pub overhead: u64,
    /// G, for each byte after the first.
    pub wire: u64,
    /// L.
    pub latency: u64,
    /// A message that has arrived waits for its receiving port.
    pub held: u64,
    /// O, for each byte that is combined.
    pub work: u64,
}

/// No time.
pub(crate) fn nothing() -> Spent
    ensures { result ≡ nothing }
{
    Spent {
        queued: 0,
        overhead: 0,
        wire: 0,
        latency: 0,
        held: 0,
        work: 0,
    }
}

/// Both together.
pub(crate) fn plus(a: Spent, b: Spent) -> Spent
    requires { whole a + whole b < 2 ^ 64 }
    ensures { result ≡ plus a b }
{
    Spent {
        queued: a.queued + b.queued,
        overhead: a.overhead + b.overhead,
        wire: a.wire + b.wire,
        latency: a.latency + b.latency,
        held: a.held + b.held,
        work: a.work + b.work,
    }
}

/// A plan, and its times by these numbers.
#[derive(Clone, Copy, Debug)]
pub(crate) struct Timed<'a> {
    pub plan: &'a Plan,
    pub numbers: &'a LogGp,
    pub times: &'a Times,
}

/// What a message takes.
fn spent_between(timed: &Timed, l: u32) -> Spent
    requires costed { IsCosted timed.now.numbers.now timed.now.plan.now timed.now.times.now }
    requires link { l < length timed.now.plan.now.links }
    requires between { stays timed.now.plan.now l ≡ false }
    ensures { result ≡ spent_between timed.now.numbers.now timed.now.plan.now timed.now.times.now l }
{
    let (numbers, times) = (timed.numbers, timed.times);
    let spans = spans_of(numbers, timed.plan, l);
    let ready = times.cell(link_at(timed.plan, l).source);
    let sent = times.sent(l);
    Spent {
        queued: sent - ready,
        overhead: numbers.overhead + numbers.overhead,
        wire: spans.travel - numbers.overhead - numbers.latency,
        latency: numbers.latency,
        held: times.received(l) - (sent + spans.travel),
        work: spans.handling - numbers.overhead,
    }
}

/// What a link takes.
pub(crate) fn spent_by(timed: &Timed, l: u32) -> Spent
    requires costed { IsCosted timed.now.numbers.now timed.now.plan.now timed.now.times.now }
    requires link { l < length timed.now.plan.now.links }
    ensures value { result ≡ spent_by timed.now.numbers.now timed.now.plan.now timed.now.times.now l }
    ensures whole { whole result + ready timed.now.plan.now timed.now.times.now l
        ≡ counted timed.now.numbers.now timed.now.plan.now timed.now.times.now l }
{
    if stays(timed.plan, l) {
        nothing()
    } else {
        spent_between(timed, l)
    }
}

/// When a link is counted at its target.
pub(crate) fn counted(timed: &Timed, l: u32) -> u64
    requires costed { IsCosted timed.now.numbers.now timed.now.plan.now timed.now.times.now }
    requires link { l < length timed.now.plan.now.links }
    ensures { result ≡ counted timed.now.numbers.now timed.now.plan.now timed.now.times.now l }
{
    let received = timed.times.received(l);
    if stays(timed.plan, l) {
        return received;
    }
    timed.times.recall_cell(link_at(timed.plan, l).target);
    received + spans_of(timed.numbers, timed.plan, l).handling
}

/// What a link takes from the time at which its source is reached until it is counted at its target.
pub fn link_costs(plan: &Plan, numbers: &LogGp, times: &Times, l: u32) -> Spent
    requires costed { IsCosted numbers.now plan.now times.now }
    requires link { l < length plan.now.links }
    ensures { result ≡ spent_by numbers.now plan.now times.now l }
{
    let timed = Timed {
        plan,
        numbers,
        times,
    };
    spent_by(&timed, l)
}
