//! Names and lists of ranks, which contracts see as lists.

ghost use Rattle.std.specs.Prelude.{◌≡◌, List, ℕ, IfOk};

use ptl_types::Rank;
use std::alloc::{AllocError, Global};
use std::marker::Model;

/// The bytes of the name of a buffer or a group. A shape keeps that its names are names of the language: 1 to 16 bytes of
/// `a` to `z`, `0` to `9` and `_`, the first a letter.
#[derive(Debug, Drop)]
pub struct Name {
    bytes: Vec<u8>,
}

impl Model for Name {
    ghost Value = { List ℕ };

    ghost view = { λ n. n.bytes.items };
}

impl Name {
    /// A copy of the bytes.
    pub fn copied(alloc: Global, bytes: &[u8]) -> Result<Name, AllocError>
        ensures { IfOk result (λ n. n ≡ bytes.now) }
    {
        Ok(Name {
            bytes: Vec::from_slice(alloc, bytes)?,
        })
    }

    /// The bytes of the name.
    pub fn as_slice(&self) -> &[u8]
        ensures value { result.now ≡ self.now }
    {
        self.bytes.as_slice()
    }
}

/// Ranks: the members of a group, or the ranks that hold a buffer. In a shape they rise.
#[derive(Debug, Drop)]
pub struct RankList {
    ranks: Vec<Rank>,
}

impl Model for RankList {
    ghost Value = { List ℕ };

    ghost view = { λ l. l.ranks.items };
}

/// The ranks that hold a buffer, rising. Every other rank has the empty list.
pub type Holders = RankList;

impl RankList {
    /// These ranks. It takes no memory.
    pub fn of(ranks: Vec<Rank>) -> RankList
        ensures made { result ≡ ranks.items }
    {
        RankList { ranks }
    }

    /// A copy of the ranks.
    pub fn copied(alloc: Global, ranks: &[Rank]) -> Result<RankList, AllocError>
        ensures { IfOk result (λ l. l ≡ ranks.now) }
    {
        Ok(RankList {
            ranks: Vec::from_slice(alloc, ranks)?,
        })
    }

    /// The ranks.
    pub fn as_slice(&self) -> &[Rank]
        ensures value { result.now ≡ self.now }
    {
        self.ranks.as_slice()
    }
}
