//! The steps of a choice world over its seats and the traffic between them, each with the counts of what is enabled made anew after it.

ghost use Rattle.std.specs.Prelude.{List, ◌≡◌, ◌<◌, ◌≤◌, ◌*◌, ◌∷◌, length, slice_set};
ghost use Rattle.ptl_types.specs.Messages.{Sent};
ghost use Rattle.cuts.specs.histories.History.Local.{Fire as Fired};
ghost use Rattle.cuts.specs.declared.orders.Step.TheVariants.{Deliver, Fire, Start};
ghost use Rattle.cuts.specs.windows.Places.{lane_place};
ghost use Rattle.worlds.specs.parts.Layout.{lane_at};
ghost use Rattle.worlds.specs.parts.Marks.{out_with, receiver};
ghost use Rattle.plan_choice.specs.ranks.Seats.{fired_seat, started_seat};
ghost use Rattle.plan_choice.specs.Acts.{AreSized, IsFirst, IsMade, IsStepped, MayFire, MayMake, MayReceive, MayStart};
ghost use Rattle.plan_choice.specs.Acts.{firing_count, firing_mark, made_at, marked, seat_at, start_count, start_mark};

use crate::ranks::ChoiceRank;
use count_tree::{CountTree, Counted};
use cuts::orders::Step;
use ptl_types::{Lane, Rank};
use worlds::parts::lanes::LaneTable;
use worlds::parts::marks::mark_pair;
use worlds::parts::traffic::Traffic;

/// Counts the start of a rank: one, where there was none.
pub(crate) struct Starts;

impl Counted<ChoiceRank> for Starts {
    ghost count = { start_count };

    fn count(seat: &ChoiceRank) -> u32 {
        if seat.started() { 0 } else { 1 }
    }
}

/// Counts the firings of a rank: what is ready.
pub(crate) struct Firings;

impl Counted<ChoiceRank> for Firings {
    ghost count = { firing_count };

    fn count(seat: &ChoiceRank) -> u32 {
        seat.ready()
    }
}

/// Counts the start of a rank.
fn mark_start(starts: &mut CountTree, seats: &[ChoiceRank], r: Rank)
    requires counted { r < length starts.old }
    requires rank { r < length seats.now }
    ensures { starts.new ≡ start_mark seats.now r starts.old }
{
    starts.set(r as usize, Starts::count(&seats[r as usize]));
}

/// Counts the firings of a rank.
fn mark_firings(firings: &mut CountTree, seats: &[ChoiceRank], r: Rank)
    requires counted { r < length firings.old }
    requires rank { r < length seats.now }
    ensures { firings.new ≡ firing_mark seats.now r firings.old }
{
    firings.set(r as usize, Firings::count(&seats[r as usize]));
}

/// Counts anew what two ranks and the lanes between them have.
fn refresh(seats: &[ChoiceRank], traffic: &mut Traffic, s: Rank, d: Rank)
    requires sized { AreSized seats.now traffic.old }
    requires source { s < traffic.old.setting.ranks }
    requires destination { d < traffic.old.setting.ranks }
    ensures { traffic.new ≡ marked seats.now s d traffic.old }
{
    let setting = traffic.setting;
    mark_start(&mut traffic.starts, seats, s);
    mark_start(&mut traffic.starts, seats, d);
    mark_firings(&mut traffic.firings, seats, s);
    mark_firings(&mut traffic.firings, seats, d);
    mark_pair(&mut traffic.deliveries, &traffic.lanes, setting, s, d);
    mark_pair(&mut traffic.deliveries, &traffic.lanes, setting, d, s);
}

/// The host of a rank starts it.
fn start(seats: &mut [ChoiceRank], r: Rank)
    requires rank { r < length seats.old }
    requires may { MayStart (seat_at seats.old r) }
    ensures { seats.new ≡ slice_set seats.old r (started_seat (seat_at seats.old r)) }
{
    seats[r as usize].start();
}

/// An operation of a rank is fired, and its message goes out; answers for whom it is.
fn fire(seats: &mut [ChoiceRank], lanes: &mut LaneTable, ranks: u32, r: Rank, number: u32) -> Rank
    requires at_most { ranks ≤ 256 }
    requires seats { length seats.old ≡ ranks }
    requires lanes { length lanes.old ≡ 2 * (ranks * ranks) }
    requires rank { r < ranks }
    requires may { MayFire ranks seats.old lanes.old r number }
    ensures seats { seats.new ≡ slice_set seats.old r (fired_seat number (seat_at seats.old r)) }
    ensures lanes { lanes.new ≡ out_with ranks r (made_at seats.old r (Fired number)) lanes.old }
    ensures size { length lanes.new ≡ length lanes.old }
    ensures for_whom { result ≡ receiver r (made_at seats.old r (Fired number)) }
    ensures destination { result < ranks }
{
    let made = seats[r as usize].fire(number);
    lanes.send_out(ranks, r, made)
}

/// The first message of a lane is received, and its answer goes out.
fn deliver(
    seats: &mut [ChoiceRank],
    lanes: &mut LaneTable,
    ranks: u32,
    s: Rank,
    d: Rank,
    lane: Lane,
)
    requires at_most { ranks ≤ 256 }
    requires seats { length seats.old ≡ ranks }
    requires lanes { length lanes.old ≡ 2 * (ranks * ranks) }
    requires source { s < ranks }
    requires destination { d < ranks }
    requires nonempty { 0 < length (lane_at lanes.old (lane_place ranks s d lane)).messages }
    requires may { (m : Sent) (rest : List Sent) → IsFirst ranks lanes.old s d lane m rest →
        MayReceive ranks seats.old lanes.old s d lane m }
    ensures made { IsMade ranks seats.old lanes.old (Deliver s d lane) seats.new lanes.new s d }
    ensures size { length lanes.new ≡ length lanes.old }
{
    let message = lanes.take(ranks, s, d, lane);
    let made = seats[d as usize].receive(s, lane, message);
    let _ = lanes.send_out(ranks, d, made);
}

/// Makes a step that finds what it needs, and answers between which ranks something changed.
fn act(seats: &mut [ChoiceRank], lanes: &mut LaneTable, ranks: u32, step: Step) -> (Rank, Rank)
    requires at_most { ranks ≤ 256 }
    requires seats { length seats.old ≡ ranks }
    requires lanes { length lanes.old ≡ 2 * (ranks * ranks) }
    requires may { MayMake ranks seats.old lanes.old step }
    ensures made { IsMade ranks seats.old lanes.old step seats.new lanes.new result.0 result.1 }
    ensures size { length lanes.new ≡ length lanes.old }
    ensures source { result.0 < ranks }
    ensures destination { result.1 < ranks }
{
    match step {
        Step::Start(r) => {
            start(seats, r);
            (r, r)
        }
        Step::Deliver(s, d, lane) => {
            deliver(seats, lanes, ranks, s, d, lane);
            (s, d)
        }
        Step::Fire(r, number) => (r, fire(seats, lanes, ranks, r, number)),
    }
}

/// Makes a step that finds what it needs. Its message, if any, goes to the end of its lane, and what it changed is counted anew.
pub(crate) fn make(seats: &mut [ChoiceRank], traffic: &mut Traffic, step: Step)
    requires sized { AreSized seats.old traffic.old }
    requires may { MayMake traffic.old.setting.ranks seats.old traffic.old.lanes step }
    ensures { IsStepped seats.old traffic.old step seats.new traffic.new }
{
    let (s, d) = act(seats, &mut traffic.lanes, traffic.setting.ranks, step);
    refresh(seats, traffic, s, d);
}
