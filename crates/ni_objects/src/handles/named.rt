//! Handles that may be absent: an absent one names nothing.

ghost use Rattle.std.specs.Prelude.{◌≡◌};
ghost use Rattle.ni_model.specs.Tables.{where_set, is_live_or_none, names};

use crate::handles::Store;
use ptl_types::Handle;

/// The handle, where the flag is set: the counting event of an entry or a descriptor, where it counts events of one kind.
pub fn where_set(flag: bool, handle: Option<Handle>) -> Option<Handle>
    ensures value { result ≡ where_set flag handle }
{
    if flag { handle } else { None }
}

/// Whether the thing that is named, if any, is live. An absent handle names nothing, and nothing is missing then.
pub fn is_live_or_none<T>(things: &Store<T>, handle: Option<Handle>) -> bool
    ensures value { result ≡ is_live_or_none handle things.now }
{
    match handle {
        Some(h) => things.is_live(h),
        None => true,
    }
}

/// Whether the handle is the one that is named, if any.
pub fn names(named: Option<Handle>, handle: Handle) -> bool
    ensures value { result ≡ names named handle }
{
    match named {
        Some(h) => h.is(handle),
        None => false,
    }
}
