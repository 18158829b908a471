//! A block that is kept for the next value.

ghost use Rattle.std.specs.Prelude.{◌≡◌, Bool, true, false, IfErr};

use std::alloc::{AllocError, Global};
use std::marker::{Model, Send};
use std_alloc::room::Vacant;

/// At most one block of the heap in which a value can stand, and none does. To a contract it is whether there is one.
pub struct Spare<T> {
    room: Option<Vacant<T, Global>>,
}

impl<T> Model for Spare<T> {
    ghost use Rattle.std.specs.Prelude.{Bool, is_some};

    ghost Value = { Bool };

    ghost view = { λ s. is_some s.room };
}

impl<T> Spare<T> {
    /// Of no block.
    pub fn empty() -> Spare<T>
        ensures { result ≡ false }
    {
        Spare { room: None }
    }

    /// The block that was kept, or a new one where none was. Refused only where none was and there is no memory.
    pub fn take(&mut self, alloc: Global) -> Result<Vacant<T, Global>, AllocError>
        ensures after { self.new ≡ false }
        ensures refused { IfErr result (λ _. self.old ≡ false) }
    {
        if let Some(room) = self.room.take() {
            return Ok(room);
        }
        match Vacant::take(alloc) {
            Ok(room) => Ok(room),
            Err(_) => Err(AllocError),
        }
    }

    /// The block that was kept, if one was.
    pub fn take_kept(&mut self) -> Option<Vacant<T, Global>>
        ensures after { self.new ≡ false }
    {
        self.room.take()
    }

    /// Keeps the block. One that was kept already is freed.
    pub fn keep(&mut self, room: Vacant<T, Global>)
        ensures { self.new ≡ true }
    {
        if let Some(other) = self.room.replace(room) {
            other.free();
        }
    }
}

impl<T> Drop for Spare<T> {
    fn drop(self) {
        let Spare { room } = self;
        if let Some(room) = room {
            room.free();
        }
    }
}

// A block that holds nothing may be freed on any thread.
unsafe impl<T> Send for Spare<T> {}
