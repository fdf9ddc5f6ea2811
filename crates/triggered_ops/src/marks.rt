//! Places of which some are marked: how many are marked, and the i-th of them, without a walk over the others.

ghost use Rattle.std.specs.Prelude.{ℕ, ◌≡◌, ◌==◌, ◌<◌, ◌≤◌, ◌+◌, ◌-◌, ◌*◌, ◌/◌, ◌%◌, ◌^◌, length, sum, take, replicate, slice_set};
ghost use Rattle.std.specs.Prelude.{slice_index_or, IfOk, if◌then◌else◌};
ghost use Rattle.triggered_ops.specs.marks.Bits.{bits, rounded};

use count_tree::CountTree;
use ptl_types::NoMemory;
use std::alloc::Global;
use std::marker::Model;

/// A mark for each place, 1 where the place is marked and else 0. Its value is the list of the marks.
///
/// The marks are words of 64 bits, with a tree of how many each word has. With n places `total` takes a constant number of steps, and
/// `mark` and `find` the order of log n.
#[derive(Drop)]
pub struct Marks {
    words: Vec<u64>,
    counts: CountTree,
}

impl Model for Marks {
    ghost use Rattle.std.specs.Prelude.{List, ℕ};
    ghost use Rattle.triggered_ops.specs.marks.Bits.{marks_of, IsMarks};

    ghost Value = { List ℕ };

    ghost view = { λ m. marks_of 64 m.words.items };

    ghost invariant = { λ m. IsMarks m.words.items m.counts };
}

fn power(bit: u32) -> u64
    requires { bit < 64 }
    ensures { result ≡ 2 ^ bit }
{
    1u64 << bit
}

/// Whether a bit of a word is set.
fn is_set(word: u64, bit: u32) -> bool
    requires { bit < 64 }
    ensures { result ≡ (word / 2 ^ bit % 2 == 1) }
{
    (word >> bit) % 2 == 1
}

/// The word with a bit set.
fn with_bit(word: u64, bit: u32) -> u64
    requires { bit < 64 }
    ensures { bits 64 result ≡ slice_set (bits 64 word) bit 1 }
{
    if is_set(word, bit) {
        word
    } else {
        word + power(bit)
    }
}

/// The word with a bit unset.
fn without_bit(word: u64, bit: u32) -> u64
    requires { bit < 64 }
    ensures { bits 64 result ≡ slice_set (bits 64 word) bit 0 }
{
    if is_set(word, bit) {
        word - power(bit)
    } else {
        word
    }
}

fn put_bit(word: u64, bit: u32, on: bool) -> u64
    requires { bit < 64 }
    ensures { bits 64 result ≡ slice_set (bits 64 word) bit (if on then 1 else 0) }
{
    if on {
        with_bit(word, bit)
    } else {
        without_bit(word, bit)
    }
}

/// How many bits are set.
fn count_of(word: u64) -> u32
    ensures { result ≡ sum (bits 64 word) }
{
    word.count_ones()
}

/// How many bits may be passed at once: one that is set, or all that aren't up to one that is.
fn step_of(word: u64) -> u32
    ensures more { 1 ≤ result }
    ensures passed { sum (bits result word) ≡ word % 2 }
{
    if word % 2 == 1 {
        1
    } else {
        word.trailing_zeros()
    }
}

/// The bit at which the set bit number `i` of a word stands, from 0.
fn bit_at(word: u64, i: u64) -> u32
    requires { i < sum (bits 64 word) }
    ensures within { result < 64 }
    ensures before { sum (take result (bits 64 word)) ≡ i }
    ensures here { slice_index_or (bits 64 word) result 0 ≡ 1 }
{
    let mut rest = word;
    let mut left = i;
    let mut bit = 0;
    while rest % 2 <= left {
        let step = step_of(rest);
        left -= rest % 2;
        rest >>= step;
        bit += step;
    }
    bit
}

impl Marks {
    /// No place is marked. There is a mark for each of so many places, and for those that fill up the last word. Later calls take
    /// no memory.
    pub fn open(alloc: Global, places: u32) -> Result<Marks, NoMemory>
        requires { places ≤ 2 ^ 28 }
        ensures { IfOk result (λ m. m ≡ replicate (rounded places) 0) }
    {
        let words = (places + 63) / 64;
        let counts = CountTree::open(alloc, words)?;
        match Vec::from_elem(alloc, 0u64, words as usize) {
            Ok(words) => Ok(Marks { words, counts }),
            Err(_) => Err(NoMemory),
        }
    }

    /// How many places are marked.
    pub fn total(&self) -> u64
        ensures { result ≡ sum self.now }
    {
        self.counts.total()
    }

    /// Marks a place, or takes its mark away.
    pub fn mark(&mut self, place: usize, on: bool)
        requires { place < length self.old }
        ensures { self.new ≡ slice_set self.old place (if on then 1 else 0) }
    {
        let word = place / 64;
        let next = put_bit(self.words[word], (place % 64) as u32, on);
        self.words[word] = next;
        self.counts.set(word, count_of(next));
    }

    /// The place of the mark number `i`, from 0.
    pub fn find(&self, i: u64) -> usize
        requires { i < sum self.now }
        ensures within { result < length self.now }
        ensures before { sum (take result self.now) ≡ i }
        ensures here { slice_index_or self.now result 0 ≡ 1 }
    {
        let (word, rest) = self.counts.find(i);
        word * 64 + bit_at(self.words[word], rest) as usize
    }
}
