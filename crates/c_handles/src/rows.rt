//! Rows of CPUs' handles of C's own: a pointer, whose length is passed beside it. At null there is none.

ghost use Rattle.std.specs.Prelude.{◌≡◌, List, Option, Some};
ghost use Rattle.c_handles.specs.Heap.{IsThere, is_nothing};
ghost use Rattle.c_handles.specs.declared.handle.CpuHandle.{CpuHandle};

use crate::handle::CpuHandle;
use std::marker::Model;
use std::slice::from_raw_parts_mut;

/// Handles of CPUs of C's, at a pointer or nowhere.
#[repr(C)]
pub struct CpusPlace {
    pub at: *mut u8,
    pub ghost value: { Option (List CpuHandle) },
}

impl Model for CpusPlace {
    ghost use Rattle.c_handles.specs.Lent.{lends_cpus};

    ghost also_owns = { λ p. lends_cpus p.at p.value };
}

impl CpusPlace {
    ghost use Rattle.std.specs.Borrow.{Array, Lends, sem};
    ghost use Rattle.c_handles.specs.Places.{cpu_row, cpus_place, filled_cpus};

    /// Whether there is none.
    pub fn is_null(&mut self) -> bool
        ensures { (self.new ≡ self.old) × (result ≡ is_nothing self.old.value) }
    {
        let at = self.at;
        at.is_null()
    }

    /// It, in its place: a call works on it there. Condition: there is one, as long as that.
    pub fn row_mut(&mut self, length: usize) -> &mut [CpuHandle]
        requires { IsThere self.old.value length }
        ensures* writes_back { sem 𝓛 (Lends cpus_place (Array cpu_row 0) self.entry result (filled_cpus self.old)) }
        ensures value { self.old.value ≡ Some result.now }
    {
        let at = self.at;
        unsafe { from_raw_parts_mut(at as *mut CpuHandle, length) }
    }
}
