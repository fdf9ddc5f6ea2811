//! What waves of two ranks answer that send requests to each other.

ghost use Rattle.std.specs.Prelude.{true, ◌≡◌, IfOk};
ghost use Rattle.rest_probe.specs.Waves.{AllThere};

use crate::answers::WaveAnswer;
use crate::notes::{Counts, LaneCount, ProbeNote, RankNote};
use crate::partners::Partners;
use crate::waves::Wave;
use ptl_types::{Lane, NoMemory, Rank};
use std::alloc::Global;
use std::test::*;

/// What is noted of a rank: whether it has started, an operation that is ready, and how many requests it sent and received.
#[derive(Clone, Copy)]
struct Case {
    started: bool,
    ready: Option<u32>,
    sent: u64,
    got: u64,
}

const UNSTARTED: Case = Case {
    started: false,
    ready: Some(4),
    sent: 1,
    got: 0,
};

const READY: Case = Case {
    started: true,
    ready: Some(7),
    sent: 9,
    got: 9,
};

fn at_rest(sent: u64, got: u64) -> Case {
    Case {
        started: true,
        ready: None,
        sent,
        got,
    }
}

fn one_lane(alloc: Global, rank: Rank, number: u64) -> Result<Counts, NoMemory> {
    let mut items = Vec::new(alloc);
    items.push(LaneCount {
        rank,
        lane: Lane::Request,
        number,
    })?;
    Ok(Counts::of(items))
}

fn noted(alloc: Global, other: Rank, case: Case) -> Result<RankNote, NoMemory>
    ensures { IfOk result (λ x. x.there ≡ true) }
{
    let sent = one_lane(alloc, other, case.sent)?;
    let got = one_lane(alloc, other, case.got)?;
    Ok(RankNote {
        there: true,
        note: ProbeNote {
            started: case.started,
            ready: case.ready,
            sent,
            got,
        },
    })
}

fn wave_of(alloc: Global, first: Case, second: Case) -> Result<Wave, NoMemory>
    ensures { IfOk result (λ w. AllThere w) }
{
    let mut ranks = Vec::new(alloc);
    ranks.push(noted(alloc, 1, first)?)?;
    ranks.push(noted(alloc, 0, second)?)?;
    let partners = Partners::of(alloc, &ranks)?;
    Ok(Wave { ranks, partners })
}

#[test]
fn waves_answer_the_lowest_cause(rt: HostRuntime) -> Result<(), Fail> {
    let alloc = rt.alloc();
    for (first, second, answer) in [
        (at_rest(2, 3), at_rest(3, 2), WaveAnswer::Rest),
        (UNSTARTED, UNSTARTED, WaveAnswer::NotStarted(0)),
        (READY, UNSTARTED, WaveAnswer::NotStarted(1)),
        (READY, READY, WaveAnswer::Ready { rank: 0, number: 7 }),
        (
            at_rest(1, 0),
            READY,
            WaveAnswer::Ready { rank: 1, number: 7 },
        ),
        (
            at_rest(2, 3),
            at_rest(4, 1),
            WaveAnswer::Between {
                source: 0,
                target: 1,
                lane: Lane::Request,
                sent: 2,
                got: 1,
            },
        ),
        (
            at_rest(2, 3),
            at_rest(4, 2),
            WaveAnswer::Between {
                source: 1,
                target: 0,
                lane: Lane::Request,
                sent: 4,
                got: 3,
            },
        ),
    ] {
        let wave = wave_of(alloc, first, second)?;
        assert_eq!(rt; wave.answer(), answer);
    }
    Ok(())
}
