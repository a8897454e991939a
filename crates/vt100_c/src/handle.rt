//! The handle through which C refers to an object.

ghost use Rattle.std.specs.Prelude.{◌≡◌, IsSome, is_some, Option, Some, None};
ghost use Rattle.vt100_c.specs.Held.{held_at};
ghost use Rattle.vt100_c.specs.declared.object.Object.{Object as ObjectValue};

use crate::object::Object;
use crate::parts::Parts;
use std::alloc::Global;
use std::marker::Model;
use std::ptr::null_mut;

/// A handle: a pointer to an object, or null if the handle is empty.
#[repr(C)]
#[derive(Drop)]
pub struct Handle {
    at: *mut u8,
    pub ghost held: { Option ObjectValue },
}

impl Model for Handle {
    ghost also_owns = { λ handle. held_at handle.at handle.held };
}

// An object may be sent to another thread, so its handle may be, too.
unsafe impl Send for Handle {}

impl Handle {
    /// Returns whether the handle holds an object.
    pub(crate) fn is_full(&mut self) -> bool
        ensures { (self.new ≡ self.old) × (result ≡ is_some self.old.held) }
    {
        !self.at.is_null()
    }

    /// Takes the object out of the handle. The handle is then empty until the
    /// object is put back.
    pub(crate) fn take_out(&mut self, alloc: Global) -> Box<Object>
        requires { IsSome self.old.held }
        ensures { (self.old.held ≡ Some result.value) × (self.new.held ≡ None) }
    {
        self.take(alloc).into_box()
    }

    /// Puts an object into the handle. The handle must be empty; otherwise the
    /// object that it held would be leaked.
    pub(crate) fn put_back(&mut self, object: Box<Object>)
        ensures { self.new.held ≡ Some object.value }
    {
        self.put(Parts::of(object));
    }

    /// Takes the object's box out of the handle, split into its parts (the pointer and the
    /// allocator). The handle is then empty.
    fn take(&mut self, alloc: Global) -> Parts<Object, Global>
        requires { IsSome self.old.held }
        ensures { (self.old.held ≡ Some result.value) × (self.new.held ≡ None) }
    {
        let at = self.at as *mut Object;
        self.at = null_mut();
        Parts { at, alloc }
    }

    /// Puts an object's box, given by its parts (the pointer and the allocator), into the handle.
    fn put(&mut self, parts: Parts<Object, Global>)
        ensures { self.new.held ≡ Some parts.value }
    {
        let Parts { at, alloc: _ } = parts;
        self.at = at as *mut u8;
    }
}
