//! A boxed value as the address of its block.

ghost use Rattle.std.specs.Prelude.{◌≡◌};
ghost use Rattle.std.specs.Box.Ownership.{box_owns};

use std::alloc::Allocator;
use std::marker::{Model, PhantomData};

/// The block of a box, with the value in it and the right to give it back. Nothing gives it back but the box that it becomes again.
pub(crate) struct Block<T, A: Allocator> {
    pub(crate) at: *mut T,
    pub(crate) from: PhantomData<A>,
    pub(crate) ghost value: { T },
    pub(crate) ghost giver: { A },
}

impl<T, A: Allocator> Model for Block<T, A> {
    ghost also_owns = { λ b. box_owns (A.dealloc_token b.giver) T.row b.at b.value };
}

impl<T: Drop, A: Allocator> Block<T, A> {
    /// The block of this box.
    pub(crate) fn of(whole: Box<T, A>) -> Block<T, A>
        ensures { result.value ≡ whole.value }
    {
        Block {
            at: Box::into_raw(whole),
            from: PhantomData,
        }
    }

    /// The box of this block, with the allocator that it came from.
    pub(crate) fn whole(self, alloc: A) -> Box<T, A>
        requires { alloc ≡ self.giver }
        ensures { result.value ≡ self.value }
    {
        let Block { at, from: _ } = self;
        unsafe { Box::from_raw(alloc, at) }
    }
}
