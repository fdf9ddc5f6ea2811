//! Bytes with room.

ghost use Rattle.std.specs.Prelude.{◌≡◌, ◌≤◌, [], IfOk, length};
ghost use Rattle.ptl_types.specs.Filled.{filled};

use crate::NoMemory;
use std::alloc::Global;
use std::marker::Model;

/// A list of bytes, and the room that it has: filling it within its room takes no memory.
#[derive(Debug, Drop)]
pub struct Bytes {
    items: Vec<u8>,
    room: u64,
}

impl Model for Bytes {
    ghost use Rattle.std.specs.Prelude.{◌≤◌, vec_capacity, vec_len};
    ghost use Rattle.ptl_types.specs.Filled.{Filled, filled};

    ghost Value = { Filled };

    ghost view = { λ b. filled b.items.items b.room };

    ghost invariant = { λ b. (vec_len b.items ≤ b.room) × (b.room ≤ vec_capacity b.items) };
}

impl Bytes {
    /// No bytes and no room. It takes no memory.
    pub fn empty(alloc: Global) -> Bytes
        ensures { result ≡ filled [] 0 }
    {
        Bytes {
            items: Vec::new(alloc),
            room: 0,
        }
    }

    /// No bytes, and room for exactly as many as are asked for.
    pub fn with_room(alloc: Global, room: u64) -> Result<Bytes, NoMemory>
        ensures { IfOk result (λ b. b ≡ filled [] room) }
    {
        let items = Vec::with_capacity(alloc, room as usize)?;
        Ok(Bytes { items, room })
    }

    /// A copy of the list, with no room beside it.
    pub fn of(alloc: Global, list: &[u8]) -> Result<Bytes, NoMemory>
        ensures { IfOk result (λ b. b ≡ filled list.now (length list.now)) }
    {
        let mut bytes = Bytes::with_room(alloc, list.len() as u64)?;
        bytes.fill(list);
        Ok(bytes)
    }

    /// The bytes of a vector, with no room beside them. It takes no memory.
    pub fn from_vec(items: Vec<u8>) -> Bytes
        ensures { result ≡ filled items.items (length items.items) }
    {
        let room = items.len() as u64;
        Bytes { items, room }
    }

    /// The bytes as a vector. It takes no memory.
    pub fn into_vec(self) -> Vec<u8>
        ensures { result.items ≡ self.list }
    {
        self.items
    }

    /// All bytes, in order.
    pub fn as_slice(&self) -> &[u8]
        ensures { result.now ≡ self.now.list }
    {
        self.items.as_slice()
    }

    /// How many bytes there are.
    pub fn len(&self) -> u64
        ensures { result ≡ length self.now.list }
    {
        self.items.len() as u64
    }

    /// How many bytes it holds at most without taking memory.
    pub fn room(&self) -> u64
        ensures room { result ≡ self.now.room }
        ensures fits { length self.now.list ≤ result }
    {
        let _ = self.items.len();
        self.room
    }

    /// Takes the list in place of what it held. The room stays.
    pub fn fill(&mut self, list: &[u8])
        requires { length list.now ≤ self.old.room }
        ensures { self.new ≡ filled list.now self.old.room }
    {
        self.items.clear();
        let _ = self.items.extend_from_slice(list);
    }

    /// Drops the bytes, and keeps the room.
    pub fn clear(&mut self)
        ensures { self.new ≡ filled [] self.old.room }
    {
        self.items.clear();
    }
}
