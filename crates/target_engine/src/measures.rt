//! How much of a message an entry takes, where, and what becomes of the entry.

ghost use Rattle.std.specs.Prelude.{◌≡◌, ◌+◌, ◌<◌, ◌^◌, ◌%◌, true};
ghost use Rattle.ptl_types.specs.Kinds.{is_put_or_atomic, has_elements};
ghost use Rattle.ni_model.specs.Arrive.{whole, delivered, place, running_after, is_over};

use match_lists::{offset_in, space_in};
use ni_model::Linked;
use ptl_types::{ElemType, Header, MessageKind};
use std::cmp;

/// The operations that may go to the overflow list.
pub fn is_put_or_atomic(kind: MessageKind) -> bool
    ensures { result ≡ is_put_or_atomic kind }
{
    matches!(kind, MessageKind::Put | MessageKind::Atomic)
}

/// The operations on elements.
pub fn has_elements(kind: MessageKind) -> bool
    ensures { result ≡ has_elements kind }
{
    matches!(
        kind,
        MessageKind::Atomic | MessageKind::FetchAtomic | MessageKind::Swap
    )
}

/// The bytes of whole elements, for the operations on elements.
fn whole(kind: MessageKind, ty: ElemType, n: u64) -> u64
    ensures { result ≡ whole kind ty n }
{
    if has_elements(kind) {
        n - n % ty.size()
    } else {
        n
    }
}

/// How many bytes of the message are delivered.
pub fn delivered(linked: &Linked, header: &Header) -> u64
    ensures { result ≡ delivered linked.now header.now }
{
    whole(
        header.kind,
        header.ty,
        cmp::min(header.length, space_in(linked, header)),
    )
}

/// Where the first of them goes, in bytes of the region: the entry's start and the offset in the entry. 0 where none is delivered.
pub fn first_byte(linked: &Linked, header: &Header) -> u64
    requires { linked.now.entry.start + linked.now.entry.length < 2 ^ 64 }
    ensures { result ≡ place linked.now header.now }
{
    if delivered(linked, header) == 0 {
        0
    } else {
        linked.entry.start + offset_in(linked, header)
    }
}

/// The running offset after the message.
pub fn running_after(linked: &Linked, header: &Header) -> u64
    requires { linked.now.entry.manage_local ≡ true }
    ensures { result ≡ running_after linked.now header.now }
{
    // Brings the bound of the length to the proof.
    let _length = linked.entry.length;
    linked.running + delivered(linked, header)
}

/// Whether the message unlinks the entry.
pub fn is_over(linked: &Linked, header: &Header) -> bool
    ensures { result ≡ is_over linked.now header.now }
{
    linked.entry.use_once
        || linked.entry.manage_local
            && linked
                .entry
                .length
                .saturating_sub(running_after(linked, header))
                < linked.entry.min_free
}
