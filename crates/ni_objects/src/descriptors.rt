//! The one region of bytes of an interface, of which memory descriptors and match entries name parts.

ghost use Rattle.std.specs.Prelude.{◌≡◌, ◌≤◌, ◌+◌, ◌↔◌, IsTrue, length, length as length'};
ghost use Rattle.ptl_types.specs.Elements.{part, written};
ghost use Rattle.ptl_types.specs.Filled.{filled};

use ptl_types::Bytes;
use std::marker::Model;

/// A region. Its value is the list of its bytes, whose length never changes.
#[derive(Debug, Drop)]
pub struct Region {
    bytes: Vec<u8>,
}

impl Model for Region {
    ghost use Rattle.std.specs.Prelude.{ℕ, List};

    ghost Value = { List ℕ };

    ghost view = { λ r. r.bytes.items };
}

impl Region {
    /// The region of these bytes. It takes no memory.
    pub fn new(bytes: Bytes) -> Region
        ensures { result ≡ bytes.list }
    {
        Region {
            bytes: bytes.into_vec(),
        }
    }

    /// All its bytes.
    pub fn as_slice(&self) -> &[u8]
        ensures { result.now ≡ self.now }
    {
        self.bytes.as_slice()
    }

    /// How many bytes it has.
    pub fn len(&self) -> u64
        ensures { result ≡ length self.now }
    {
        self.bytes.len() as u64
    }

    /// Whether the part of `length` bytes from `start` on lies in the region, also where their sum passes 2^64.
    pub fn fits(&self, start: u64, length: u64) -> bool
        ensures { IsTrue result ↔ (start + length ≤ length' self.now) }
    {
        let room = self.bytes.len() as u64;
        start <= room && length <= room - start
    }

    /// Copies the part of `length` bytes from `start` on over what `into` held.
    pub fn read_into(&self, start: u64, into: &mut Bytes, length: u64)
        requires fits { start + length ≤ length' self.now }
        requires room { length ≤ into.old.room }
        ensures { into.new ≡ filled (part start length self.now) into.old.room }
    {
        let from = start as usize;
        into.fill(&self.bytes[from..from + length as usize]);
    }

    /// Overwrites the part from `start` on with the list. Nothing else changes.
    pub fn write(&mut self, start: u64, list: &[u8])
        requires { start + length list.now ≤ length self.old }
        ensures { self.new ≡ written start list.now self.old }
    {
        let from = start as usize;
        self.bytes[from..from + list.len()].copy_from_slice(list);
    }

    /// Exchanges the part from `start` on with the list. Nothing else of the region changes.
    pub fn exchange(&mut self, start: u64, list: &mut [u8])
        requires { start + length list.old ≤ length self.old }
        ensures region { self.new ≡ written start list.old self.old }
        ensures list { list.new ≡ part start (length list.old) self.old }
    {
        let from = start as usize;
        let size = list.len();
        self.bytes[from..from + size].swap_with_slice(list);
    }
}
