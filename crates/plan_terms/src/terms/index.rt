//! Where terms that were made are looked up.

use crate::terms::fault::TermFault;
use crate::terms::term::{Making, Member};
use ptl_types::{AtomicOp, ElemType};
use std::alloc::{AllocError, Global};

/// How many lists of terms there are at first.
const FIRST_LISTS: usize = 4_096;

/// No term has this number.
const NO_TERM: u32 = u32::MAX;

/// Spreads the bits of a hash.
const FACTOR: u64 = 0x9E37_79B9_7F4A_7C15;

/// A term in the list of its hash: the hash, and the term before it in that list.
#[derive(Clone, Copy)]
struct Listed {
    hash: u32,
    earlier: u32,
}

/// For each list the last term in it, and for each term what its list has of it. A term is in the list of its hash by the number of
/// lists, which grows with the number of terms. It finds terms fast; that they are the right ones is for its users to see.
#[derive(Drop)]
pub(crate) struct TermIndex {
    last: Vec<u32>,
    terms: Vec<Listed>,
}

/// The hash with one number more.
fn mixed(hash: u64, number: u64) -> u64 {
    let mixed = (hash ^ number).wrapping_mul(FACTOR);
    mixed ^ (mixed >> 32)
}

/// A number for each operation.
fn number_of(op: AtomicOp) -> u64 {
    match op {
        AtomicOp::Min => 1,
        AtomicOp::Max => 2,
        AtomicOp::Sum => 3,
        AtomicOp::Prod => 4,
        AtomicOp::Lor => 5,
        AtomicOp::Land => 6,
        AtomicOp::Bor => 7,
        AtomicOp::Band => 8,
        AtomicOp::Lxor => 9,
        AtomicOp::Bxor => 10,
    }
}

/// The hash of how a term is made.
fn making_hash(making: Making) -> u64 {
    match making {
        Making::Bytes => 0,
        Making::Fold(op, ty) => mixed(number_of(op), ty.size()),
    }
}

/// The hash of a term.
pub(crate) fn hash_of(making: Making, members: &[Member]) -> u32 {
    let mut hash = making_hash(making);
    for member in members {
        let times = member.times.wrapping_mul(FACTOR);
        hash = mixed(hash, u64::from(member.word) ^ times);
    }
    (hash % 4_294_967_296) as u32
}

/// The list of a hash, of so many lists.
fn list_of(hash: u32, lists: usize) -> usize {
    if lists == 0 { 0 } else { hash as usize % lists }
}

/// So many lists without a term.
fn no_lists(alloc: Global, count: usize) -> Result<Vec<u32>, AllocError> {
    vec![in alloc; NO_TERM; count]
}

/// Puts a term into the list of its hash.
fn enlist(last: &mut [u32], listed: &mut Listed, term: u32) {
    let list = list_of(listed.hash, last.len());
    if list < last.len() {
        listed.earlier = last[list];
        last[list] = term;
    }
}

impl TermIndex {
    /// No terms.
    pub(crate) fn open(alloc: Global) -> Result<TermIndex, AllocError> {
        Ok(TermIndex {
            last: no_lists(alloc, FIRST_LISTS)?,
            terms: Vec::new(alloc),
        })
    }

    /// The last term in the list of a hash.
    pub(crate) fn last(&self, hash: u32) -> u32 {
        match self.last.get(list_of(hash, self.last.len())) {
            Some(term) => *term,
            None => NO_TERM,
        }
    }

    /// Whether a term has this hash.
    pub(crate) fn has_hash(&self, term: u32, hash: u32) -> bool {
        match self.terms.get(term as usize) {
            Some(listed) => listed.hash == hash,
            None => false,
        }
    }

    /// The term before a term in its list.
    pub(crate) fn earlier(&self, term: u32) -> u32 {
        match self.terms.get(term as usize) {
            Some(listed) => listed.earlier,
            None => NO_TERM,
        }
    }

    /// Puts all terms into so many lists.
    fn spread(&mut self, alloc: Global, lists: usize) -> Result<(), AllocError> {
        let mut last = no_lists(alloc, lists)?;
        let mut term = 0u32;
        for listed in self.terms.iter_mut() {
            enlist(&mut last, listed, term);
            term = term.wrapping_add(1);
        }
        self.last = last;
        Ok(())
    }

    /// Where there are more than twice as many terms as lists, makes four times as many lists.
    fn grow(&mut self, alloc: Global) -> Result<(), AllocError> {
        let lists = self.last.len();
        if self.terms.len() / 2 > lists {
            self.spread(alloc, lists.saturating_mul(4))?;
        }
        Ok(())
    }

    /// The next term has this hash.
    pub(crate) fn add(&mut self, alloc: Global, hash: u32, term: u32) -> Result<(), TermFault> {
        self.grow(alloc)?;
        let mut listed = Listed {
            hash,
            earlier: NO_TERM,
        };
        enlist(&mut self.last, &mut listed, term);
        self.terms.push(listed)?;
        Ok(())
    }
}
