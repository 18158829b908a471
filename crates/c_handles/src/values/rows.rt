//! Rows of C's own that a call writes to: a pointer, whose length is passed beside it. At null there is none.

ghost use Rattle.std.specs.Prelude.{◌≡◌, List, Option, Some, ℕ};
ghost use Rattle.c_handles.specs.Heap.{IsThere, is_nothing};
ghost use Rattle.c_handles.specs.declared.values.plain.CBalance.{CBalance};
ghost use Rattle.c_handles.specs.declared.values.plain.CEntry.{CEntry};

use crate::values::answer::TextAnswer;
use crate::values::plain::{CBalance, CEntry};
use std::marker::Model;
use std::slice::from_raw_parts_mut;

/// Room for a text of C's, at a pointer or nowhere.
#[repr(C)]
pub struct TextPlace {
    pub at: *mut u8,
    pub ghost value: { Option (List ℕ) },
}

impl Model for TextPlace {
    ghost use Rattle.c_handles.specs.values.Lent.{lends_text};

    ghost also_owns = { λ p. lends_text p.at p.value };
}

impl TextPlace {
    ghost use Rattle.std.specs.Borrow.{Array, Lends, sem, u8};
    ghost use Rattle.c_handles.specs.values.Places.{filled_text, text_place};

    /// Whether there is none.
    pub fn is_null(&mut self) -> bool
        ensures { (self.new ≡ self.old) × (result ≡ is_nothing self.old.value) }
    {
        let at = self.at;
        at.is_null()
    }

    /// It, in its place: a call works on it there. Condition: there is one, as long as that.
    pub fn row_mut(&mut self, length: usize) -> &mut [u8]
        requires { IsThere self.old.value length }
        ensures* writes_back { sem 𝓛 (Lends text_place (Array u8 0) self.entry result (filled_text self.old)) }
        ensures value { self.old.value ≡ Some result.now }
    {
        let at = self.at;
        unsafe { from_raw_parts_mut(at as *mut u8, length) }
    }

    /// Gives it back with a call's number.
    pub fn answer(self, number: u32) -> TextAnswer
        ensures { result ≡ record { number = number; place = self } }
    {
        let TextPlace { at: _ } = self;
        TextAnswer { number }
    }
}

/// Entries of C's, at a pointer or nowhere.
#[repr(C)]
pub struct EntriesPlace {
    pub at: *mut u8,
    pub ghost value: { Option (List CEntry) },
}

impl Model for EntriesPlace {
    ghost use Rattle.c_handles.specs.values.Lent.{lends_entries};

    ghost also_owns = { λ p. lends_entries p.at p.value };
}

impl EntriesPlace {
    ghost use Rattle.std.specs.Borrow.{Array, Lends, sem};
    ghost use Rattle.c_handles.specs.values.Places.{entries_place, entry_row, filled_entries};

    /// Whether there is none.
    pub fn is_null(&mut self) -> bool
        ensures { (self.new ≡ self.old) × (result ≡ is_nothing self.old.value) }
    {
        let at = self.at;
        at.is_null()
    }

    /// It, in its place: a call works on it there. Condition: there is one, as long as that.
    pub fn row_mut(&mut self, length: usize) -> &mut [CEntry]
        requires { IsThere self.old.value length }
        ensures* writes_back { sem 𝓛 (Lends entries_place (Array entry_row 0) self.entry result (filled_entries self.old)) }
        ensures value { self.old.value ≡ Some result.now }
    {
        let at = self.at;
        unsafe { from_raw_parts_mut(at as *mut CEntry, length) }
    }
}

/// Balances of C's, at a pointer or nowhere.
#[repr(C)]
pub struct BalancesPlace {
    pub at: *mut u8,
    pub ghost value: { Option (List CBalance) },
}

impl Model for BalancesPlace {
    ghost use Rattle.c_handles.specs.values.Lent.{lends_balances};

    ghost also_owns = { λ p. lends_balances p.at p.value };
}

impl BalancesPlace {
    ghost use Rattle.std.specs.Borrow.{Array, Lends, sem};
    ghost use Rattle.c_handles.specs.values.Places.{balance_row, balances_place, filled_balances};

    /// Whether there is none.
    pub fn is_null(&mut self) -> bool
        ensures { (self.new ≡ self.old) × (result ≡ is_nothing self.old.value) }
    {
        let at = self.at;
        at.is_null()
    }

    /// It, in its place: a call works on it there. Condition: there is one, as long as that.
    pub fn row_mut(&mut self, length: usize) -> &mut [CBalance]
        requires { IsThere self.old.value length }
        ensures* writes_back { sem 𝓛 (Lends balances_place (Array balance_row 0) self.entry result (filled_balances self.old)) }
        ensures value { self.old.value ≡ Some result.now }
    {
        let at = self.at;
        unsafe { from_raw_parts_mut(at as *mut CBalance, length) }
    }
}
