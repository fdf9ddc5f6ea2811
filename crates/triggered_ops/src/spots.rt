//! The operations at their places, in the order in which they were posted, so that their numbers rise.

ghost use Rattle.std.specs.Prelude.{◌≡◌, ℕ, ◌<◌, ◌≤◌, ◌^◌, nat_le, None, Some, true, false, IfOk, IfSome, IfNone, IsSome, is_some};
ghost use Rattle.std.specs.Prelude.{option_map};
ghost use Rattle.std.specs.Prelude.{◌++◌, ◌∷◌, [], AllPairs, length, take, map, filter, find, slice_get, slice_index_or};
ghost use Rattle.std.specs.List.{swap};
ghost use Rattle.triggered_ops.specs.Operations.{shown, numbered, action_of, is_due, is_due_op, is_number};
ghost use Rattle.triggered_ops.specs.Hung.{threshold_of};
ghost use Rattle.triggered_ops.specs.Layout.{spotted, no_spots, numbers_of, operations_in, op_at, op_of, wait_of, wait_at, noted_due};
ghost use Rattle.triggered_ops.specs.Layout.{emptied};
ghost use Rattle.triggered_ops.specs.Layout.{spot_for, AreGone, StandsAt, AreBelow, AreFrom};

use crate::marks::Marks;
use ptl_types::{Handle, NoMemory};
use std::alloc::Global;
use std::marker::Model;

/// What an operation waits for, and whether that has come, as far as its counting event was last told.
#[derive(Clone, Copy, Debug)]
pub struct Wait {
    /// The counting event that it waits on.
    pub ct: Handle,
    /// The sum from which on it is due.
    pub threshold: u64,
    /// Whether it is.
    pub due: bool,
}

/// A place, with an operation until that is taken out.
#[derive(Drop)]
pub struct Spot<D> {
    number: u32,
    slot: u32,
    stamp: u64,
    threshold: u64,
    due: bool,
    action: Option<D>,
}

/// The places so far and room for more, and a mark at each whose operation is due.
#[derive(Drop)]
pub struct Spots<D> {
    spots: Vec<Spot<D>>,
    marks: Marks,
    waiting: u32,
    room: usize,
}

impl<D> Model for Spots<D> {
    ghost use Rattle.std.specs.Prelude.{vec_capacity};
    ghost use Rattle.triggered_ops.specs.Layout.{Spotted, spotted, IsSpotted};
    ghost use Rattle.triggered_ops.specs.Codes.{spotted_code};

    ghost Value = { Spotted D };

    ghost coded = { spotted_code D.code };

    ghost view = { λ s. spotted s.spots.items s.room };

    ghost invariant = { λ s. IsSpotted s.spots.items s.marks s.waiting s.room (vec_capacity s.spots) };
}

/// What the operation there waits for.
fn wait_of<D>(spot: &Spot<D>) -> Option<Wait>
    ensures { result ≡ wait_of spot.now }
{
    match &spot.action {
        Some(_) => Some(Wait {
            ct: Handle {
                slot: spot.slot,
                stamp: spot.stamp,
            },
            threshold: spot.threshold,
            due: spot.due,
        }),
        None => None,
    }
}

/// The number that stands at a place.
fn number_at<D>(spots: &[Spot<D>], place: u32) -> u32
    requires { place < length spots.now }
    ensures { result ≡ slice_index_or (numbers_of spots.now) place 0 }
{
    spots[place as usize].number
}

/// The first place whose number is at least this one.
fn lower_bound<D>(spots: &[Spot<D>], number: u32) -> u32
    requires rising { AllPairs (λ a b. a < b) (numbers_of spots.now) }
    requires at_most { length spots.now ≤ 2 ^ 28 }
    ensures within { result ≤ length spots.now }
    ensures below { AreBelow number spots.now result }
    ensures above { AreFrom number spots.now result }
{
    let mut low = 0;
    let mut high = spots.len() as u32;
    while low < high {
        let middle = low + (high - low) / 2;
        if number_at(spots, middle) < number {
            low = middle + 1;
        } else {
            high = middle;
        }
    }
    low
}

/// Whether the number stands at a place.
fn stands_at<D>(spots: &[Spot<D>], place: u32, number: u32) -> bool
    ensures yes { result ≡ true → StandsAt number spots.now place }
    ensures no { result ≡ false → place < length spots.now → slice_index_or (numbers_of spots.now) place 0 ≡ number → ⊥ }
{
    if (place as usize) < spots.len() {
        number_at(spots, place) == number
    } else {
        false
    }
}

/// Where the number stands if none is missing between it and the first.
fn guess<D>(spots: &[Spot<D>], number: u32) -> u32 {
    match spots.first() {
        Some(spot) => number.saturating_sub(spot.number),
        None => 0,
    }
}

/// The place of this number, whether an operation waits there or not.
fn place_of<D>(spots: &[Spot<D>], number: u32) -> Option<u32>
    requires rising { AllPairs (λ a b. a < b) (numbers_of spots.now) }
    requires at_most { length spots.now ≤ 2 ^ 28 }
    ensures found { IfSome result (λ p. StandsAt number spots.now p) }
    ensures none { IfNone result (find (is_number number) (operations_in spots.now) ≡ None) }
{
    let near = guess(spots, number);
    if stands_at(spots, near, number) {
        return Some(near);
    }
    let place = lower_bound(spots, number);
    if stands_at(spots, place, number) {
        Some(place)
    } else {
        None
    }
}

/// What is shown of the operation at a place.
fn shown_of<D>(spot: &Spot<D>) -> Option<(&D, Handle, u64)>
    ensures found { IfSome result (λ p. option_map shown (op_of spot.now) ≡ Some (p.0.now, p.1, p.2)) }
    ensures none { IfNone result (op_of spot.now ≡ None) }
{
    let ct = Handle {
        slot: spot.slot,
        stamp: spot.stamp,
    };
    match &spot.action {
        Some(action) => Some((action, ct, spot.threshold)),
        None => None,
    }
}

/// Whether an operation waits at a place and is due.
fn is_due_in<D>(spot: &Spot<D>) -> bool
    ensures { result ≡ is_due_op (op_of spot.now) }
{
    match &spot.action {
        Some(_) => spot.due,
        None => false,
    }
}

impl<D> Spots<D> {
    /// How many places there are.
    pub fn len(&self) -> u32
        ensures len { result ≡ length self.now.spots }
        ensures fits { length self.now.spots ≤ self.now.room }
        ensures at_most { self.now.room ≤ 2 ^ 28 }
    {
        let _room = self.room;
        self.spots.len() as u32
    }

    /// How many operations wait.
    pub fn waiting(&self) -> u32
        ensures { result ≡ length (operations_in self.now.spots) }
    {
        self.waiting
    }

    /// Whether there is no room for a further place.
    pub fn is_full(&self) -> bool
        ensures { result ≡ nat_le self.now.room (length self.now.spots) }
    {
        self.room <= self.spots.len()
    }

    /// The number that stands at a place.
    pub fn number(&self, place: u32) -> u32
        requires { place < length self.now.spots }
        ensures { result ≡ slice_index_or (numbers_of self.now.spots) place 0 }
    {
        number_at(&self.spots, place)
    }

    /// What the operation at a place waits for; `None` exactly where none waits there.
    pub fn wait(&self, place: u32) -> Option<Wait>
        ensures { result ≡ wait_at self.now.spots place }
    {
        if (place as usize) < self.spots.len() {
            wait_of(&self.spots[place as usize])
        } else {
            None
        }
    }

    /// Whether an operation waits at a place.
    pub fn waits(&self, place: u32) -> bool
        ensures { result ≡ is_some (wait_at self.now.spots place) }
    {
        self.wait(place).is_some()
    }

    /// The threshold of the operation at a place.
    pub fn threshold(&self, place: u32) -> u64
        requires { IsSome (wait_at self.now.spots place) }
        ensures { result ≡ threshold_of (wait_at self.now.spots place) }
    {
        self.spots[place as usize].threshold
    }

    /// Whether an operation waits at a place and is due.
    pub fn is_due(&self, place: u32) -> bool
        ensures { result ≡ is_due_op (op_at self.now.spots place) }
    {
        if (place as usize) < self.spots.len() {
            is_due_in(&self.spots[place as usize])
        } else {
            false
        }
    }

    /// The action, the counting event and the threshold of the operation at a place; `None` exactly where none waits there.
    pub fn get(&self, place: u32) -> Option<(&D, Handle, u64)>
        ensures found { IfSome result (λ p. option_map shown (op_at self.now.spots place) ≡ Some (p.0.now, p.1, p.2)) }
        ensures none { IfNone result (op_at self.now.spots place ≡ None) }
    {
        if (place as usize) < self.spots.len() {
            shown_of(&self.spots[place as usize])
        } else {
            None
        }
    }

    /// The same after the number; `None` exactly where none waits there.
    pub fn numbered(&self, place: u32) -> Option<(u32, &D, Handle, u64)>
        ensures found { IfSome result (λ p. option_map numbered (op_at self.now.spots place) ≡ Some (p.0, p.1.now, p.2, p.3)) }
        ensures none { IfNone result (op_at self.now.spots place ≡ None) }
    {
        match self.get(place) {
            Some((action, ct, threshold)) => Some((self.number(place), action, ct, threshold)),
            None => None,
        }
    }

    /// The place of the operation of this number; `None` exactly where it doesn't wait.
    pub fn waiting_at(&self, number: u32) -> Option<u32>
        requires { AllPairs (λ a b. a < b) (numbers_of self.now.spots) }
        ensures found { IfSome result (λ p. StandsAt number self.now.spots p) }
        ensures waits { IfSome result (λ p. IsSome (wait_at self.now.spots p)) }
        ensures none { IfNone result (find (is_number number) (operations_in self.now.spots) ≡ None) }
    {
        match self.place_of(number) {
            Some(place) => { if self.waits(place) { Some(place) } else { None } }
            None => None,
        }
    }

    /// The place of this number, whether an operation waits there or not.
    pub fn place_of(&self, number: u32) -> Option<u32>
        requires { AllPairs (λ a b. a < b) (numbers_of self.now.spots) }
        ensures found { IfSome result (λ p. StandsAt number self.now.spots p) }
        ensures none { IfNone result (find (is_number number) (operations_in self.now.spots) ≡ None) }
    {
        place_of(&self.spots, number)
    }

    /// The first place whose number is at least this one.
    pub fn place_from(&self, number: u32) -> u32
        requires { AllPairs (λ a b. a < b) (numbers_of self.now.spots) }
        ensures within { result ≤ length self.now.spots }
        ensures below { AreBelow number self.now.spots result }
        ensures above { AreFrom number self.now.spots result }
    {
        lower_bound(&self.spots, number)
    }

    /// Notes whether the operation at a place is due.
    pub fn note_due(&mut self, place: u32, due: bool)
        requires { IsSome (wait_at self.old.spots place) }
        ensures { self.new ≡ spotted (noted_due place due self.old.spots) self.old.room }
    {
        self.spots[place as usize].due = due;
        self.marks.mark(place as usize, due);
    }

    /// Puts an operation at a further place.
    pub fn push(&mut self, number: u32, action: D, wait: Wait)
        requires { length self.old.spots < self.old.room }
        ensures { self.new ≡ spotted (self.old.spots ++ spot_for number wait action ∷ []) self.old.room }
    {
        let place = self.spots.len();
        self.spots.push_reserved(Spot {
            number,
            slot: wait.ct.slot,
            stamp: wait.ct.stamp,
            threshold: wait.threshold,
            due: wait.due,
            action: Some(action),
        });
        self.marks.mark(place, wait.due);
        self.waiting += 1;
    }

    /// Takes the operation at a place out.
    pub fn take(&mut self, place: u32) -> Option<D>
        requires { IsSome (wait_at self.old.spots place) }
        ensures value { result ≡ option_map action_of (op_at self.old.spots place) }
        ensures rest { self.new ≡ spotted (emptied place self.old.spots) self.old.room }
    {
        self.marks.mark(place as usize, false);
        self.waiting -= 1;
        self.spots[place as usize].action.take()
    }

    /// Moves the operation at a place to an earlier one, where none waits.
    pub fn carry(&mut self, from: u32, to: u32)
        requires order { to < from }
        requires full { IsSome (wait_at self.old.spots from) }
        requires empty { wait_at self.old.spots to ≡ None }
        ensures { self.new ≡ spotted (swap self.old.spots from to) self.old.room }
    {
        let due = self.spots[from as usize].due;
        self.spots.swap(from as usize, to as usize);
        self.marks.mark(from as usize, false);
        self.marks.mark(to as usize, due);
    }

    /// How many are due.
    pub fn due(&self) -> u64
        ensures { result ≡ length (filter is_due (operations_in self.now.spots)) }
    {
        self.marks.total()
    }

    /// The number of the due one at position `i` among them, from 0.
    pub fn due_at(&self, i: u64) -> u32
        requires { i < length (filter is_due (operations_in self.now.spots)) }
        ensures { slice_get (map (λ p. p.number) (filter is_due (operations_in self.now.spots))) i ≡ Some result }
    {
        let place = self.marks.find(i) as u32;
        number_at(&self.spots, place)
    }
}

impl<D: Drop> Spots<D> {
    /// None, with room for so many. No later call takes memory.
    pub fn open(alloc: Global, room: u32) -> Result<Spots<D>, NoMemory>
        requires { room ≤ 2 ^ 28 }
        ensures { IfOk result (λ s. s ≡ no_spots room) }
    {
        let marks = Marks::open(alloc, room)?;
        let spots = Vec::with_capacity(alloc, room as usize)?;
        Ok(Spots {
            spots,
            marks,
            waiting: 0,
            room: room as usize,
        })
    }

    /// Gives the places from one on up, where no operation waits.
    pub fn truncate(&mut self, len: u32)
        requires { AreGone len self.old.spots }
        ensures { self.new ≡ spotted (take len self.old.spots) self.old.room }
    {
        self.spots.truncate(len as usize);
    }
}

/// The first place from one on at which an operation waits.
pub fn waiting_from<D>(spots: &Spots<D>, from: u32) -> Option<u32>
    ensures some { IfSome result (λ q. (from ≤ q) × IsSome (wait_at spots.now.spots q)) }
    ensures before { IfSome result (λ q. (k : ℕ) → from ≤ k → k < q → wait_at spots.now.spots k ≡ None) }
    ensures none { IfNone result (AreGone from spots.now.spots) }
{
    for place in from..spots.len() {
        if spots.waits(place) {
            return Some(place);
        }
    }
    None
}

/// The place of the operation at position `i`, from 0.
pub fn place_at<D>(spots: &Spots<D>, i: u32) -> Option<u32>
    ensures some { IfSome result (λ q. slice_get (operations_in spots.now.spots) i ≡ op_at spots.now.spots q) }
    ensures here { IfSome result (λ q. IsSome (wait_at spots.now.spots q)) }
    ensures none { IfNone result (length (operations_in spots.now.spots) ≤ i) }
{
    let mut left = i;
    for place in 0..spots.len() {
        if spots.waits(place) {
            if left == 0 {
                return Some(place);
            }
            left -= 1;
        }
    }
    None
}
