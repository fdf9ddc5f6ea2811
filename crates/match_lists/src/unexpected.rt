//! The unexpected headers of an interface, in the order of arrival (Portals 4.3, unexpected messages).

ghost use Rattle.std.specs.Prelude.{◌≡◌, ◌<◌, ◌≤◌, ◌+◌, ◌++◌, ◌∷◌, [], IfOk, vec_capacity, vec_len, drop, take, slice_set, IfNone, IfSome};
ghost use Rattle.std.specs.Prelude.{Some, None, slice_index_or, remove, length, option_copied};
ghost use Rattle.ni_model.specs.declared.IndexedHeader.{IndexedHeader};
ghost use Rattle.ni_model.specs.Headers.{unexpected_list, allows, finds, oldest, without_oldest, names_entry, no_room};
ghost use Rattle.match_lists.specs.unexpected.Places.{header_at};

use ni_model::IndexedHeader;
use ptl_types::{Entry, Handle, MessageKind, NoMemory, UnexpectedHeader, matches};
use std::alloc::Global;
use std::marker::Model;

/// Whether the entry allows an operation of this kind: a put or an atomic needs `allow_put`, a get `allow_get`, and a
/// fetch-atomic or a swap both.
pub fn allows(entry: &Entry, kind: MessageKind) -> bool
    ensures { result ≡ allows entry.now kind }
{
    match kind {
        MessageKind::Put | MessageKind::Atomic => entry.allow_put,
        MessageKind::Get => entry.allow_get,
        _ => entry.allow_put && entry.allow_get,
    }
}

/// Whether the header is one of this index that the entry matches and allows. Lengths aren't looked at.
pub fn finds(unexpected: &IndexedHeader, pt: u32, entry: &Entry) -> bool
    ensures { result ≡ finds pt entry.now unexpected.now }
{
    unexpected.pt == pt
        && matches(entry, &unexpected.header.header)
        && allows(entry, unexpected.header.header.kind)
}

/// The position of the oldest header that the entry finds, counted from the oldest of all.
fn position_of(unexpected: &[IndexedHeader], pt: u32, entry: &Entry) -> Option<usize>
    ensures none { IfNone result ((oldest pt entry.now unexpected.now ≡ None) ×
        (without_oldest pt entry.now unexpected.now ≡ unexpected.now)) }
    ensures within { IfSome result (λ i. i < length unexpected.now) }
    ensures some { IfSome result (λ i. (d : IndexedHeader) →
        (oldest pt entry.now unexpected.now ≡ Some (slice_index_or unexpected.now i d)) ×
        (without_oldest pt entry.now unexpected.now ≡ remove unexpected.now i)) }
{
    for (i, x) in unexpected.iter().enumerate() {
        if finds(x, pt, entry) {
            return Some(i);
        }
    }
    None
}

/// The oldest header that the entry finds.
fn first_found(unexpected: &[IndexedHeader], pt: u32, entry: &Entry) -> Option<IndexedHeader>
    ensures { result ≡ oldest pt entry.now unexpected.now }
{
    for x in unexpected {
        if finds(x, pt, entry) {
            return Some(*x);
        }
    }
    None
}

/// Whether the bytes of a header lie in the memory of this entry.
fn some_lies_in(unexpected: &[IndexedHeader], entry: Handle) -> bool
    ensures { result ≡ names_entry entry unexpected.now }
{
    for x in unexpected {
        if x.header.entry.is(entry) {
            return true;
        }
    }
    false
}

/// Header number i of an index, from 0.
fn number_of(unexpected: &[IndexedHeader], pt: u32, i: u32) -> Option<&UnexpectedHeader>
    ensures { option_copied result ≡ header_at pt i unexpected.now }
{
    let mut left = i;
    for x in unexpected {
        if x.pt == pt {
            if left == 0 {
                return Some(&x.header);
            }
            left -= 1;
        }
    }
    None
}

/// Takes the header at a position after the first `gone` ones out: the older of them move up by one place.
fn take_after(unexpected: &mut [IndexedHeader], gone: usize, at: usize) -> IndexedHeader
    requires { gone + at < length unexpected.old }
    ensures taken { (d : IndexedHeader) → result ≡ slice_index_or (drop gone unexpected.old) at d }
    ensures rest { drop (gone + 1) unexpected.new ≡ remove (drop gone unexpected.old) at }
    ensures len { length unexpected.new ≡ length unexpected.old }
{
    let position = gone + at;
    let taken = unexpected[position];
    unexpected[gone..position + 1].rotate_right(1);
    taken
}

/// Gives the places before the first header free.
fn drop_gone(unexpected: &mut Vec<IndexedHeader>, gone: usize)
    requires { gone ≤ vec_len unexpected.old }
    ensures left { unexpected.new.items ≡ drop gone unexpected.old.items }
    ensures room { vec_capacity unexpected.new ≡ vec_capacity unexpected.old }
{
    let left = unexpected.len() - gone;
    unexpected.rotate_left(gone);
    unexpected.truncate(left);
}

/// The headers of all portal table indices of an interface. Their value is the headers, oldest first, and how many there
/// may be.
///
/// The headers stand after places of some that are gone, so that one is taken without moving the younger ones: in as many
/// steps as older ones were looked at. The places are given free in one pass, after as many headers as the limit at
/// least, and at once where no header is left.
#[derive(Drop)]
pub struct Headers {
    unexpected: Vec<IndexedHeader>,
    gone: usize,
    limit: u32,
}

impl Model for Headers {
    ghost use Rattle.std.specs.Prelude.{◌≤◌, ◌*◌, drop, vec_capacity, vec_len};
    ghost use Rattle.ni_model.specs.Headers.{UnexpectedList, unexpected_list};

    ghost Value = { UnexpectedList };

    ghost view = { λ h. unexpected_list (drop h.gone h.unexpected.items) h.limit };

    ghost invariant = { λ h. (h.gone ≤ vec_len h.unexpected) × (2 * h.limit ≤ vec_capacity h.unexpected) };
}

impl Headers {
    /// No headers, with the room of the limit. No later call takes memory.
    pub fn open(alloc: Global, limit: u32) -> Result<Headers, NoMemory>
        ensures { IfOk result (λ h. h ≡ unexpected_list [] limit) }
    {
        let unexpected = Vec::with_capacity(alloc, 2 * limit as usize)?;
        Ok(Headers {
            unexpected,
            gone: 0,
            limit,
        })
    }

    /// Whether as many headers wait as the limit allows.
    pub fn is_full(&self) -> bool
        ensures { result ≡ no_room self.now }
    {
        self.limit as usize <= self.unexpected.len() - self.gone
    }

    /// Adds a header, the youngest.
    pub fn add(&mut self, unexpected: IndexedHeader)
        requires { length self.old.unexpected < self.old.limit }
        ensures { self.new ≡ unexpected_list (self.old.unexpected ++ unexpected ∷ []) self.old.limit }
    {
        if self.unexpected.len() >= 2 * self.limit as usize {
            drop_gone(&mut self.unexpected, self.gone);
            self.gone = 0;
        }
        self.unexpected.push_reserved(unexpected);
    }

    /// Gives all places free where no header is left, so that few of them are written where few headers wait at a time.
    fn begin_again(&mut self)
        ensures { self.new ≡ self.old }
    {
        if self.gone == self.unexpected.len() {
            self.unexpected.truncate(0);
            self.gone = 0;
        }
    }

    /// Takes out the oldest header of this index that the entry matches and allows; `None` exactly where there is none.
    /// Lengths aren't looked at.
    pub fn take_oldest(&mut self, pt: u32, entry: &Entry) -> Option<IndexedHeader>
        ensures oldest { result ≡ oldest pt entry.now self.old.unexpected }
        ensures rest { self.new ≡ unexpected_list (without_oldest pt entry.now self.old.unexpected) self.old.limit }
        ensures none { IfNone result (self.new ≡ self.old) }
    {
        let at = position_of(self.as_slice(), pt, entry)?;
        let taken = take_after(&mut self.unexpected, self.gone, at);
        self.gone += 1;
        self.begin_again();
        Some(taken)
    }

    /// The oldest header of this index that the entry matches and allows, which stays.
    pub fn search(&self, pt: u32, entry: &Entry) -> Option<IndexedHeader>
        ensures { result ≡ oldest pt entry.now self.now.unexpected }
    {
        first_found(self.as_slice(), pt, entry)
    }

    /// All headers, oldest first.
    pub fn as_slice(&self) -> &[IndexedHeader]
        ensures { result.now ≡ self.now.unexpected }
    {
        &self.unexpected[self.gone..]
    }

    /// Puts a header at a position, counted from the oldest, over the one that stands there.
    pub fn put_at(&mut self, position: usize, unexpected: IndexedHeader)
        requires { position < length self.old.unexpected }
        ensures { self.new ≡ unexpected_list (slice_set self.old.unexpected position unexpected) self.old.limit }
    {
        let at = self.gone + position;
        self.unexpected[at] = unexpected;
    }

    /// Keeps the oldest `len` headers, and lets the others go.
    pub fn truncate(&mut self, len: usize)
        requires { len ≤ length self.old.unexpected }
        ensures { self.new ≡ unexpected_list (take len self.old.unexpected) self.old.limit }
    {
        let end = self.gone + len;
        self.unexpected.truncate(end);
    }

    /// Whether the bytes of a header lie in this entry's memory.
    pub fn names(&self, entry: Handle) -> bool
        ensures { result ≡ names_entry entry self.now.unexpected }
    {
        some_lies_in(self.as_slice(), entry)
    }

    /// Header number i of an index in the order of arrival, from 0; `None` exactly where the index has no more than i.
    pub fn at(&self, pt: u32, i: u32) -> Option<&UnexpectedHeader>
        ensures { option_copied result ≡ header_at pt i self.now.unexpected }
    {
        number_of(self.as_slice(), pt, i)
    }
}
