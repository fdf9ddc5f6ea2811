//! What such a caller holds.

ghost use Rattle.std.specs.Prelude.{◌≡◌, is_some};

use crate::hold::Hold;

/// An interface on the heap, or none. The caller holds this, makes no copy of it, and hands a pointer to it to each call.
#[repr(C)]
#[derive(Drop)]
pub struct NiHandle {
    pub(crate) hold: Hold,
    pub(crate) live: bool,
    ghost marked: { live ≡ is_some hold.nic },
}
