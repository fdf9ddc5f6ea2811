//! The address of an interface, for callers who may see no more than that.

ghost use Rattle.std.specs.Prelude.{◌≡◌, IsSome, None, Option, Some};
ghost use Rattle.ni_model.specs.State.{State};

use crate::block::Block;
use portals_ni::Nic;
use std::alloc::Global;
use std::marker::{Model, PhantomData};
use std::ptr::null_mut;

/// What such a caller sees of an interface: nothing.
#[repr(C)]
pub struct Opaque {
    token: u8,
}

/// The address of an interface on the heap, or that of nothing.
#[repr(C)]
#[derive(Drop)]
pub struct Hold {
    at: *mut Opaque,
    pub(crate) ghost nic: { Option State },
}

impl Model for Hold {
    ghost use Rattle.nic_handles.specs.Owning.{behind};

    ghost also_owns = { λ h. behind h.nic h.at };
}

impl Hold {
    /// Of nothing.
    pub(crate) fn none() -> Hold
        ensures { result.nic ≡ None }
    {
        Hold { at: null_mut() }
    }

    /// Of the interface in this block.
    pub(crate) fn wrap(block: Block<Nic, Global>) -> Hold
        ensures { result.nic ≡ Some block.value }
    {
        let Block { at, from: _ } = block;
        Hold {
            at: at as *mut Opaque,
        }
    }

    /// The block of the interface.
    pub(crate) fn unwrap(self) -> Block<Nic, Global>
        requires { IsSome self.nic }
        ensures { Some result.value ≡ self.nic }
    {
        Block {
            at: self.at as *mut Nic,
            from: PhantomData,
        }
    }
}
