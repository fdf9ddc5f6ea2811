//! What a handle holds.

ghost use Rattle.std.specs.Prelude.{◌≡◌, None, Some, is_some};
ghost use Rattle.nic_handles.specs.Holding.{held, in_box};

use crate::block::Block;
use crate::handle::NiHandle;
use crate::hold::Hold;
use portals_ni::Nic;
use std::alloc::Global;
use std::mem::replace;

impl NiHandle {
    /// A handle of none.
    pub fn none() -> NiHandle
        ensures { held result ≡ None }
    {
        NiHandle {
            hold: Hold::none(),
            live: false,
        }
    }

    /// The handle of this interface.
    pub fn of(nic: Box<Nic>) -> NiHandle
        ensures { held result ≡ Some nic.value }
    {
        NiHandle {
            hold: Hold::wrap(Block::of(nic)),
            live: true,
        }
    }

    /// Whether there is an interface.
    pub fn is_open(&self) -> bool
        ensures { result ≡ is_some (held self.now) }
    {
        self.live
    }

    /// The interface in its box, where there is one. The handle holds none afterwards. The allocator is the one of each such box, since
    /// there is but one of its type.
    pub fn take(&mut self, alloc: Global) -> Option<Box<Nic>>
        ensures value { in_box result ≡ held self.old }
        ensures none { held self.new ≡ None }
    {
        let NiHandle { hold, live } = replace(self, NiHandle::none());
        if live {
            Some(hold.unwrap().whole(alloc))
        } else {
            None
        }
    }
}
