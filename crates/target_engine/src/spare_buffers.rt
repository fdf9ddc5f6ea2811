//! The rooms of messages that are of no further use.

ghost use Rattle.std.specs.Prelude.{◌≤◌};

use ptl_types::{Bytes, NoMemory};
use std::alloc::Global;
use std::mem;

/// Where the rooms of delivered messages go that are of no further use: there is place for so many, and what finds none is given back at
/// once. The room of a message was mostly taken by another thread, and to give it back while that thread works makes both wait. A message
/// that is sent may use such a room in place of its own, whose memory nobody has touched yet. Which rooms lie here no clause says.
#[derive(Drop)]
pub struct SpareBuffers {
    rooms: Option<Vec<Bytes>>,
    // The first so many of them were exchanged for others, and not used.
    unused: usize,
}

impl SpareBuffers {
    /// No place: each room is given back at once.
    pub fn none() -> SpareBuffers {
        SpareBuffers {
            rooms: None,
            unused: 0,
        }
    }

    /// Places for so many rooms, which are given back when this is let go.
    ///
    /// # Errors
    ///
    /// There was no memory for the places.
    pub fn with_capacity(alloc: Global, places: u64) -> Result<SpareBuffers, NoMemory> {
        let rooms = Vec::with_capacity(alloc, places as usize)?;
        Ok(SpareBuffers {
            rooms: Some(rooms),
            unused: 0,
        })
    }

    /// Keeps a room, if there is place for it.
    pub(crate) fn keep(&mut self, room: Bytes) {
        if let Some(rooms) = &mut self.rooms
            && rooms.len() < rooms.capacity()
        {
            let _ = rooms.push(room);
        }
    }

    /// A room for as many bytes at least as this one has: that of the message delivered last, if it is as large, and this one stays here
    /// in its place; else this one.
    pub fn exchange(&mut self, room: Bytes) -> Bytes
        ensures { room.room ≤ result.room }
    {
        let Some(rooms) = &mut self.rooms else {
            return room;
        };
        if room.room() == 0 || rooms.len() <= self.unused {
            return room;
        }
        let last = rooms.len() - 1;
        if rooms[last].room() < room.room() {
            return room;
        }
        rooms.swap(self.unused, last);
        let used = mem::replace(&mut rooms[self.unused], room);
        self.unused += 1;
        used
    }
}
