//! What a pending operation waits with, and how it learns how far its counting event is.

ghost use Rattle.std.specs.Prelude.{◌≡◌};
ghost use Rattle.ni_model.specs.Tables.{lookup};
ghost use Rattle.portals_ni.specs.Pendings.{told_by, sum_at};

use crate::triggers::Triggers;
use ni_objects::counters::Counter;
use ni_objects::handles::Store;
use ptl_types::{Bytes, Handle, TriggeredOp};

/// A triggered operation's action, and the room for its bytes.
#[derive(Drop)]
pub struct PostedOp {
    /// What is done when it fires.
    pub action: TriggeredOp,
    /// The room that its message will use.
    pub room: Bytes,
}

/// Tells how far a counting event is to the operations that wait on it.
pub fn tell(pending: &mut Triggers, cts: &Store<Counter>, ct: Option<Handle>)
    ensures { pending.new ≡ told_by ct cts.now pending.old }
{
    if let Some(h) = ct {
        if let Some(counter) = cts.get(h) {
            let count = counter.count();
            pending.reached(h, count.success + count.failure);
        }
    }
}

/// How far a counting event is, success and failure together; 0 where it isn't live.
pub fn sum_of(cts: &Store<Counter>, ct: Handle) -> u64
    ensures { result ≡ sum_at (lookup ct cts.now.live) }
{
    match cts.get(ct) {
        Some(counter) => {
            let count = counter.count();
            count.success + count.failure
        }
        None => 0,
    }
}
