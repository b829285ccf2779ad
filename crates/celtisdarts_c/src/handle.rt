//! Slots as pointers.

ghost use Rattle.std.specs.Prelude.{◌≡◌};
ghost use Rattle.celtisdarts_c.specs.Handles.{SlotValue, slot_coded, slot_behind};

use crate::parts::Parts;
use crate::slot::Slot;
use std::alloc::Global;
use std::marker::Model;
use std::mem;

/// A pointer to a slot that it owns.
#[repr(C)]
pub struct Handle {
    at: *mut u8,
    alloc: Global,
    pub ghost value: { SlotValue } by { slot_coded },
}

impl Model for Handle {
    ghost also_owns = { λ h. slot_behind h.alloc h.at h.value };
}

impl Handle {
    fn of_parts(parts: Parts<Slot, Global>) -> Handle
        ensures { result.value ≡ parts.value }
    {
        let Parts { ptr, alloc } = parts;
        Handle {
            at: ptr as *mut u8,
            alloc,
        }
    }

    /// A box as its handle.
    pub fn of(boxed: Box<Slot>) -> Handle
        ensures { result.value ≡ boxed.value }
    {
        Handle::of_parts(Parts::of(boxed))
    }

    /// Replaces the box, and returns the old one.
    pub fn replace(&mut self, boxed: Box<Slot>) -> Box<Slot>
        ensures new { self.new.value ≡ boxed.value }
        ensures old { result.value ≡ self.old.value }
    {
        mem::replace(self, Handle::of(boxed)).into_box()
    }

    fn into_parts(self) -> Parts<Slot, Global>
        ensures { result.value ≡ self.value }
    {
        let Handle { at, alloc } = self;
        Parts {
            ptr: at as *mut Slot,
            alloc,
        }
    }

    /// The slot in its box.
    pub fn into_box(self) -> Box<Slot>
        ensures { result.value ≡ self.value }
    {
        self.into_parts().into_box()
    }
}

/// Writes the pointer of a box.
pub fn put(boxed: Box<Slot>, at: &mut *mut u8) {
    *at = Box::into_raw(boxed) as *mut u8;
}
