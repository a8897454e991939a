//! The two parts of a box whose pointer is stored in a handle.

ghost use Rattle.std.specs.Prelude.{◌≡◌};
ghost use Rattle.std_alloc.specs.Box.Ownership.{box_owns};

use std::alloc::Allocator;
use std::marker::Model;

/// The parts of a box: the pointer to its value, and the allocator that its
/// memory came from.
///
/// The parts cannot be dropped. They can only be turned back into a box or put
/// into a handle.
pub struct Parts<T, A: Allocator> {
    pub(crate) at: *mut T,
    pub(crate) alloc: A,
    pub ghost value: { T },
}

impl<T, A: Allocator> Model for Parts<T, A> {
    ghost also_owns = { λ parts. box_owns (A.dealloc_token parts.alloc) T.row parts.at parts.value };
}

impl<T, A: Allocator> Parts<T, A> {
    /// Splits a box into its parts.
    pub(crate) fn of(whole: Box<T, A>) -> Parts<T, A>
    where
        T: Drop,
        ensures { result.value ≡ whole.value }
    {
        let (at, alloc) = Box::into_raw_with_allocator(whole);
        Parts { at, alloc }
    }

    /// Turns the parts back into a box.
    pub(crate) fn into_box(self) -> Box<T, A>
        ensures { result.value ≡ self.value }
    {
        let Parts { at, alloc } = self;
        unsafe { Box::from_raw(alloc, at) }
    }
}
