//! From a place to a delivery, and to a part of a memory.

ghost use Rattle.std.specs.Prelude.{◌≡◌, ◌<◌, ◌≤◌, ◌*◌, ◌+◌, length};
ghost use Rattle.ptl_types.specs.Elements.{part};
ghost use Rattle.cuts.specs.declared.orders.Step.TheVariants.{Deliver};
ghost use Rattle.cuts.specs.windows.Places.{destination_at, kind_at, source_at};

use cuts::orders::Step;
use ptl_types::Lane;
use schedule_compiler::Place;

/// The delivery of the lane at a place.
pub fn delivery_at(ranks: u32, place: usize) -> Step
    requires at_most { ranks ≤ 256 }
    requires within { place < 2 * (ranks * ranks) }
    ensures { result ≡ Deliver (source_at ranks place) (destination_at ranks place) (kind_at place) }
{
    let pair = place / 2;
    let s = (pair / ranks as usize) as u32;
    let d = (pair % ranks as usize) as u32;
    let lane = if place % 2 == 0 {
        Lane::Request
    } else {
        Lane::Answer
    };
    Step::Deliver(s, d, lane)
}

/// The part of a memory where a cell lies.
pub fn part_of<'a>(memory: &'a [u8], place: Place) -> &'a [u8]
    requires { place.start + place.length ≤ length memory.now }
    ensures { result.now ≡ part place.start place.length memory.now }
{
    let end = place.start + place.length;
    &memory[place.start as usize..end as usize]
}
