//! What a value stands for, and what a hand knows. No value of these types but those with a past is made.

ghost use Rattle.std.specs.Prelude.{◌≡◌, List, length};

use std::collections::LinkedList;

/// A value with a name, a past and a note.
///
/// No turn changes the name, and the past only grows. The note says what else a hand remembers of a turn, in any terms that
/// suit the value: it may change freely.
pub trait Past {
    /// What a name is.
    ghost Name: { Type 0 };

    /// What a past is a list of.
    ghost Item: { Type 0 };

    /// What a note is.
    ghost Note: { Type 0 };

    ghost name: { Self → Name };

    ghost past: { Self → List Item };

    ghost note: { Self → Note };

    /// How long the past is.
    fn past_len(&self) -> u64
        ensures { result ≡ length (past self.now) };
}

/// A turn that a hand has: the slot, and the value as it was taken.
pub struct OpenTurn<T> {
    /// The slot's number.
    pub slot: u64,
    /// The value, as it was taken.
    pub value: T,
}

/// A turn that is over: the value as it was taken, and as it was given back.
pub struct EndedTurn<T> {
    /// The value, as it was taken.
    pub taken: T,
    /// The value, as it was given back.
    pub given: T,
}

/// What a hand knows of a slot.
pub struct SlotView<T> {
    /// How many of its tries found the slot out.
    pub busy: u64,
    /// Its last turn there; for hands that were joined, the last turn of each.
    pub seen: LinkedList<EndedTurn<T>>,
    /// The places in the slot's past that it added.
    pub places: LinkedList<u64>,
}

/// What a hand knows. The values that the table was opened with stand in it for their names.
pub struct HandView<T> {
    /// How many of the table's 2^32 parts it has: a hand that has them all is the only one.
    pub parts: u64,
    /// The turn that it has.
    pub turn: Option<OpenTurn<T>>,
    /// What it knows of each slot, in order.
    pub slots: LinkedList<SlotView<T>>,
    /// What the table was opened with, in order.
    pub start: LinkedList<T>,
}
