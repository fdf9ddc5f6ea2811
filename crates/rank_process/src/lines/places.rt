//! Where a rank's lists lie.

ghost use Rattle.std.specs.Prelude.{◌≡◌, ◌<◌, IfOk};
ghost use Rattle.ptl_types.specs.Elements.{part};
ghost use Rattle.rank_process.specs.lines.Places.{place_held, places_in};

use ptl_types::{NoMemory, Rank};
use schedule_compiler::{Place, Schedule};
use std::alloc::Global;

/// Where a rank's list of a buffer lies, if anywhere.
fn place_at(schedule: &Schedule, buffer: u32, me: Rank) -> Option<Place>
    requires buffer { buffer < schedule.now.held.buffers }
    requires rank { me < schedule.now.plan.ranks }
    ensures { result ≡ place_held schedule.now me buffer }
{
    match schedule.result(buffer, me) {
        Some(cell) => Some(schedule.place(cell)),
        None => None,
    }
}

/// Where a rank's list of each buffer lies.
pub(crate) fn places_of(
    alloc: Global,
    schedule: &Schedule,
    me: Rank,
) -> Result<Vec<Option<Place>>, NoMemory>
    requires { me < schedule.now.plan.ranks }
    ensures { IfOk result (λ places. places.items ≡ places_in schedule.now me) }
{
    let buffers = schedule.buffers();
    let mut places = Vec::with_capacity(alloc, buffers as usize)?;
    for buffer in 0..buffers {
        places.push(place_at(schedule, buffer, me))?;
    }
    Ok(places)
}

/// The part of a memory where a cell lies, as far as the memory goes.
pub(crate) fn part_of<'a>(memory: &'a [u8], place: Place) -> &'a [u8]
    ensures { result.now ≡ part place.start place.length memory.now }
{
    let start = (place.start as usize).min(memory.len());
    let (_, rest) = memory.split_at(start);
    let length = (place.length as usize).min(rest.len());
    let (part, _) = rest.split_at(length);
    part
}
