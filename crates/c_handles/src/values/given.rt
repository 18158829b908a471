//! What C gives a call to read, at a pointer of its own, or nowhere. It needs no more than a share of it, so several threads may read one.

ghost use Rattle.std.specs.Prelude.{◌≡◌, List, Option, ℕ};
ghost use Rattle.c_handles.specs.declared.values.plain.CEntry.{CEntry};
ghost use Rattle.c_handles.specs.declared.values.plain.CName.{CName};
ghost use Rattle.c_handles.specs.declared.values.plain.CSettings.{CSettings};
ghost use base.Fml.{Share};
ghost use base.SetCodes.{coded_share};

use crate::values::answer::{GivenEntryAnswer, GivenNameAnswer, OpenAnswer};
use crate::values::plain::{CEntry, CName, CSettings};
use std::marker::Model;

/// A name of C's to read, at a pointer or nowhere.
#[repr(C)]
pub struct GivenName {
    pub at: *mut u8,
    pub ghost share: { Share } by { coded_share },
    pub ghost name: { Option CName },
}

impl Model for GivenName {
    ghost use Rattle.c_handles.specs.values.Lent.{gives_name};

    ghost also_owns = { λ g. gives_name g.share g.at g.name };
}

impl GivenName {
    /// The name, if there is one.
    pub fn name(&mut self) -> Option<CName>
        ensures { (self.new ≡ self.old) × (result ≡ self.old.name) }
    {
        let at = self.at;
        if at.is_null() {
            return None;
        }
        let name = unsafe { *(at as *mut CName) };
        Some(name)
    }

    /// Gives it back with a call's number.
    pub fn answer(self, number: u32) -> GivenNameAnswer
        ensures { result ≡ record { number = number; name = self } }
    {
        let GivenName { at: _ } = self;
        GivenNameAnswer { number }
    }
}

/// An entry of C's to read, at a pointer or nowhere.
#[repr(C)]
pub struct GivenEntry {
    at: *mut u8,
    pub ghost share: { Share } by { coded_share },
    pub ghost entry: { Option CEntry },
}

impl Model for GivenEntry {
    ghost use Rattle.c_handles.specs.values.Lent.{gives_entry};

    ghost also_owns = { λ g. gives_entry g.share g.at g.entry };
}

impl GivenEntry {
    /// The entry, if there is one.
    pub fn entry(&mut self) -> Option<CEntry>
        ensures { (self.new ≡ self.old) × (result ≡ self.old.entry) }
    {
        let at = self.at;
        if at.is_null() {
            return None;
        }
        let entry = unsafe { *(at as *mut CEntry) };
        Some(entry)
    }

    /// Gives it back with a call's number.
    pub fn answer(self, number: u32) -> GivenEntryAnswer
        ensures { result ≡ record { number = number; entry = self } }
    {
        let GivenEntry { at: _ } = self;
        GivenEntryAnswer { number }
    }
}

/// Bytes of C's to read, at a pointer, whose length is passed beside it, or nowhere.
#[repr(C)]
pub struct GivenBytes {
    pub at: *mut u8,
    pub ghost share: { Share } by { coded_share },
    pub ghost bytes: { Option (List ℕ) },
}

impl Model for GivenBytes {
    ghost use Rattle.c_handles.specs.values.Lent.{gives_bytes};

    ghost also_owns = { λ g. gives_bytes g.share g.at g.bytes };
}

impl GivenBytes {
    ghost use Rattle.c_handles.specs.Heap.{IsWithin, is_nothing, number_at};

    /// Whether there are none.
    pub fn is_null(&mut self) -> bool
        ensures { (self.new ≡ self.old) × (result ≡ is_nothing self.old.bytes) }
    {
        let at = self.at;
        at.is_null()
    }

    /// The byte at this place. Condition: there is one.
    pub fn byte(&mut self, place: usize) -> u8
        requires { IsWithin self.old.bytes place }
        ensures { (self.new ≡ self.old) × (result ≡ number_at self.old.bytes place) }
    {
        let at = self.at;
        unsafe { *at.add(place) }
    }
}

/// Settings of C's to read, at a pointer or nowhere.
#[repr(C)]
pub struct GivenSettings {
    at: *mut u8,
    pub ghost share: { Share } by { coded_share },
    pub ghost settings: { Option CSettings },
}

impl Model for GivenSettings {
    ghost use Rattle.c_handles.specs.values.Lent.{gives_settings};

    ghost also_owns = { λ g. gives_settings g.share g.at g.settings };
}

impl GivenSettings {
    /// The settings, if there are any.
    pub fn settings(&mut self) -> Option<CSettings>
        ensures { (self.new ≡ self.old) × (result ≡ self.old.settings) }
    {
        let at = self.at;
        if at.is_null() {
            return None;
        }
        let settings = unsafe { *(at as *mut CSettings) };
        Some(settings)
    }

    /// Gives them back with a call's number.
    pub fn answer(self, number: u32) -> OpenAnswer
        ensures { result ≡ record { number = number; settings = self } }
    {
        let GivenSettings { at: _ } = self;
        OpenAnswer { number }
    }
}
