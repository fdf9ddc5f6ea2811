//! Whether the descriptors of an action are live and hold the parts that it names.

ghost use Rattle.std.specs.Prelude.{◌≡◌};
ghost use Rattle.ni_model.specs.Tables.{is_live};
ghost use Rattle.ni_model.specs.Refusals.{holds_part, put_fits, get_fits, action_is_live, action_fits};

use crate::answers::bound_of;
use ni_model::Bound;
use ni_objects::handles::Store;
use ptl_types::{GetArgs, Handle, PutArgs, TriggeredOp};

/// Whether the descriptor is live.
pub fn is_live(mds: &Store<Bound>, md: Handle) -> bool
    ensures { result ≡ is_live md mds.now }
{
    bound_of(mds, Some(md)).is_some()
}

/// Whether `n` bytes from `at` on lie in a live descriptor.
fn holds_part(bound: Option<Bound>, at: u64, n: u64) -> bool
    ensures { result ≡ holds_part bound at n }
{
    match bound {
        Some(bound) => match at.checked_add(n) {
            Some(end) => end <= bound.md.length,
            None => false,
        },
        None => false,
    }
}

/// Whether the bytes to be sent lie in their descriptor.
fn put_fits(mds: &Store<Bound>, args: &PutArgs) -> bool
    ensures { result ≡ put_fits args.now mds.now }
{
    holds_part(bound_of(mds, Some(args.md)), args.local_offset, args.length)
}

/// Whether the bytes that a reply brings lie in their descriptor.
fn get_fits(mds: &Store<Bound>, args: &GetArgs) -> bool
    ensures { result ≡ get_fits args.now mds.now }
{
    holds_part(bound_of(mds, Some(args.md)), args.local_offset, args.length)
}

/// Whether the descriptors that an action names are live.
pub fn action_is_live(mds: &Store<Bound>, action: &TriggeredOp) -> bool
    ensures { result ≡ action_is_live action.now mds.now }
{
    match action {
        TriggeredOp::Put(args) => is_live(mds, args.md),
        TriggeredOp::Get(args) => is_live(mds, args.md),
        TriggeredOp::Atomic(args, _, _) => is_live(mds, args.md),
        TriggeredOp::FetchAtomic(back, args, _, _) => is_live(mds, back.md)
            && is_live(mds, args.md),
        TriggeredOp::Swap(back, args, _, _, _) => is_live(mds, back.md) && is_live(mds, args.md),
        _ => true,
    }
}

/// Whether the parts that an action names lie in their descriptors.
pub fn action_fits(mds: &Store<Bound>, action: &TriggeredOp) -> bool
    ensures { result ≡ action_fits action.now mds.now }
{
    match action {
        TriggeredOp::Put(args) => put_fits(mds, args),
        TriggeredOp::Get(args) => get_fits(mds, args),
        TriggeredOp::Atomic(args, _, _) => put_fits(mds, args),
        TriggeredOp::FetchAtomic(back, args, _, _) => get_fits(mds, back) && put_fits(mds, args),
        TriggeredOp::Swap(back, args, _, _, _) => get_fits(mds, back) && put_fits(mds, args),
        _ => true,
    }
}
