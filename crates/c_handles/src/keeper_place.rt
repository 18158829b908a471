//! The keeper's handle of C's own, at a pointer or nowhere.

ghost use Rattle.std.specs.Prelude.{◌≡◌, Option, Some};
ghost use Rattle.c_handles.specs.declared.handle.KeeperHandle.{KeeperHandle};

use crate::answer::KeeperAnswer;
use crate::handle::KeeperHandle;
use std::marker::Model;

/// A handle of the keeper of C's, at a pointer or nowhere.
#[repr(C)]
pub struct KeeperPlace {
    pub at: *mut u8,
    pub ghost value: { Option KeeperHandle },
}

impl Model for KeeperPlace {
    ghost use Rattle.c_handles.specs.Lent.{lends_keeper};

    ghost also_owns = { λ p. lends_keeper p.at p.value };
}

impl KeeperPlace {
    ghost use Rattle.std.specs.Borrow.{LendsIf, sem};
    ghost use Rattle.c_handles.specs.Heap.{IsLent};
    ghost use Rattle.c_handles.specs.Places.{filled_keeper, keeper_place, keeper_row};

    /// The handle, if there is one, in its place: a call works on it there.
    pub fn handle_mut(&mut self) -> Option<&mut KeeperHandle>
        ensures* writes_back { sem 𝓛 (LendsIf keeper_place keeper_row self.entry result (filled_keeper self.old) self.old) }
        ensures value { IsLent self.old.value result }
    {
        let at = self.at;
        if at.is_null() {
            return None;
        }
        Some(unsafe { &mut *(at as *mut KeeperHandle) })
    }

    /// Gives it back with a call's number.
    pub fn answer(self, number: u32) -> KeeperAnswer
        ensures { result ≡ record { number = number; place = self } }
    {
        let KeeperPlace { at: _ } = self;
        KeeperAnswer { number }
    }
}
