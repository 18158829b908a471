//! A value on the heap by its pointer and its allocator, so that a handle that C keeps can hold the pointer: a box taken apart, or a block that
//! a value was put into. And a block that is kept for the next value.

ghost use Rattle.std.specs.Prelude.{◌≡◌};
ghost use Rattle.std_alloc.specs.Box.Ownership.{box_owns};

use std::alloc::Allocator;
use std::marker::Model;
use std_alloc::room::Vacant;

mod handle;
mod spare;

pub use handle::{CHandle, Handle};
pub use spare::Spare;

/// A value on the heap by its pointer. It owns what a box of it would own, and can't be dropped: `into_box` makes a box of it, and `take` gives
/// the value and its block.
pub struct Held<T, A: Allocator> {
    pub at: *mut T,
    pub alloc: A,
    pub ghost value: { T },
}

impl<T, A: Allocator> Model for Held<T, A> {
    ghost also_owns = { λ h. box_owns (A.dealloc_token h.alloc) T.row h.at h.value };
}

impl<T, A: Allocator> Held<T, A> {
    /// Puts a value into a block. It serves a value that can't be dropped, too.
    pub fn fill(room: Vacant<T, A>, value: T) -> Held<T, A>
        ensures { result.value ≡ value }
    {
        let Vacant { ptr, alloc } = room;
        unsafe {
            ptr.write(value);
        }
        Held { at: ptr, alloc }
    }

    /// Takes the value out. Its block is left.
    pub fn take(self) -> (T, Vacant<T, A>)
        ensures { result.0 ≡ self.value }
    {
        let Held { at, alloc } = self;
        let value = unsafe { at.read() };
        (value, Vacant { ptr: at, alloc })
    }
}

impl<T: Drop, A: Allocator> Held<T, A> {
    /// Takes the box apart.
    pub fn of(value: Box<T, A>) -> Held<T, A>
        ensures { result.value ≡ value.value }
    {
        let (at, alloc) = Box::into_raw_with_allocator(value);
        Held { at, alloc }
    }

    /// The box again.
    pub fn into_box(self) -> Box<T, A>
        ensures { result.value ≡ self.value }
    {
        let Held { at, alloc } = self;
        unsafe { Box::from_raw(alloc, at) }
    }
}
