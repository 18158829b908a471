//! Places of C's own that a call writes what it finds to, if they aren't null. C passes a pointer: a struct of one crosses as it does.

ghost use Rattle.std.specs.Prelude.{◌≡◌, Bool, Option, is_none, ℕ};
ghost use Rattle.c_handles.specs.declared.values.plain.CEntry.{CEntry};
ghost use Rattle.c_handles.specs.declared.values.plain.CName.{CName};
ghost use Rattle.c_handles.specs.declared.values.plain.CSettings.{CSettings};
ghost use Rattle.c_handles.specs.declared.values.plain.CStage.{CStage};
ghost use Rattle.c_handles.specs.declared.values.wait.CWait.{CWait};

use crate::values::answer::{
    EntryAnswer, FlagAnswer, NameAnswer, NumberAnswer, SettingsAnswer, StageAnswer, WaitAnswer,
};
use crate::values::plain::{CEntry, CName, CSettings, CStage};
use crate::values::wait::CWait;
use std::marker::Model;

/// A truth value of C's, at a pointer or nowhere.
#[repr(C)]
pub struct FlagPlace {
    at: *mut u8,
    pub ghost value: { Option Bool },
}

impl Model for FlagPlace {
    ghost use Rattle.c_handles.specs.values.Lent.{lends_flag};

    ghost also_owns = { λ p. lends_flag p.at p.value };
}

impl FlagPlace {
    ghost use Rattle.std.specs.Borrow.{LendsIf, bool, sem};
    ghost use Rattle.c_handles.specs.Heap.{IsLent};
    ghost use Rattle.c_handles.specs.values.Places.{filled_flag, flag_place, put};

    fn value_mut(&mut self) -> Option<&mut bool>
        ensures* writes_back { sem 𝓛 (LendsIf flag_place bool self.entry result (filled_flag self.old) self.old) }
        ensures value { IsLent self.old.value result }
    {
        let at = self.at;
        if at.is_null() {
            return None;
        }
        Some(unsafe { &mut *(at as *mut bool) })
    }

    /// Writes it there.
    pub fn put(&mut self, flag: bool)
        ensures same { self.new.at ≡ self.old.at }
        ensures value { self.new.value ≡ put self.old.value flag }
    {
        if let Some(place) = self.value_mut() {
            *place = flag;
        }
    }

    /// Gives it back with a call's number.
    pub fn answer(self, number: u32) -> FlagAnswer
        ensures { result ≡ record { number = number; place = self } }
    {
        let FlagPlace { at: _ } = self;
        FlagAnswer { number }
    }
}

/// A number of C's, at a pointer or nowhere.
#[repr(C)]
pub struct NumberPlace {
    at: *mut u8,
    pub ghost value: { Option ℕ },
}

impl Model for NumberPlace {
    ghost use Rattle.c_handles.specs.values.Lent.{lends_number};

    ghost also_owns = { λ p. lends_number p.at p.value };
}

impl NumberPlace {
    ghost use Rattle.std.specs.Borrow.{LendsIf, sem, u64};
    ghost use Rattle.c_handles.specs.Heap.{IsLent};
    ghost use Rattle.c_handles.specs.values.Places.{filled_number, number_place, put};

    fn value_mut(&mut self) -> Option<&mut u64>
        ensures* writes_back { sem 𝓛 (LendsIf number_place u64 self.entry result (filled_number self.old) self.old) }
        ensures value { IsLent self.old.value result }
    {
        let at = self.at;
        if at.is_null() {
            return None;
        }
        Some(unsafe { &mut *(at as *mut u64) })
    }

    /// Writes it there.
    pub fn put(&mut self, number: u64)
        ensures same { self.new.at ≡ self.old.at }
        ensures value { self.new.value ≡ put self.old.value number }
    {
        if let Some(place) = self.value_mut() {
            *place = number;
        }
    }

    /// Gives it back with a call's number.
    pub fn answer(self, number: u32) -> NumberAnswer
        ensures { result ≡ record { number = number; place = self } }
    {
        let NumberPlace { at: _ } = self;
        NumberAnswer { number }
    }
}

/// An entry of C's, at a pointer or nowhere.
#[repr(C)]
pub struct EntryPlace {
    pub at: *mut u8,
    pub ghost value: { Option CEntry },
}

impl Model for EntryPlace {
    ghost use Rattle.c_handles.specs.values.Lent.{lends_entry};

    ghost also_owns = { λ p. lends_entry p.at p.value };
}

impl EntryPlace {
    ghost use Rattle.std.specs.Borrow.{LendsIf, sem};
    ghost use Rattle.c_handles.specs.Heap.{IsLent};
    ghost use Rattle.c_handles.specs.values.Places.{entry_place, entry_row, filled_entry, put};

    fn value_mut(&mut self) -> Option<&mut CEntry>
        ensures* writes_back { sem 𝓛 (LendsIf entry_place entry_row self.entry result (filled_entry self.old) self.old) }
        ensures value { IsLent self.old.value result }
    {
        let at = self.at;
        if at.is_null() {
            return None;
        }
        Some(unsafe { &mut *(at as *mut CEntry) })
    }

    /// Whether there is none.
    pub fn is_null(&mut self) -> bool
        ensures { (self.new ≡ self.old) × (result ≡ is_none self.old.value) }
    {
        match self.value_mut() {
            None => true,
            Some(_) => false,
        }
    }

    /// Writes it there.
    pub fn put(&mut self, entry: CEntry)
        ensures same { self.new.at ≡ self.old.at }
        ensures value { self.new.value ≡ put self.old.value entry }
    {
        if let Some(place) = self.value_mut() {
            *place = entry;
        }
    }

    /// Gives it back with a call's number.
    pub fn answer(self, number: u32) -> EntryAnswer
        ensures { result ≡ record { number = number; place = self } }
    {
        let EntryPlace { at: _ } = self;
        EntryAnswer { number }
    }
}

/// Settings of C's, at a pointer or nowhere.
#[repr(C)]
pub struct SettingsPlace {
    at: *mut u8,
    pub ghost value: { Option CSettings },
}

impl Model for SettingsPlace {
    ghost use Rattle.c_handles.specs.values.Lent.{lends_settings};

    ghost also_owns = { λ p. lends_settings p.at p.value };
}

impl SettingsPlace {
    ghost use Rattle.std.specs.Borrow.{LendsIf, sem};
    ghost use Rattle.c_handles.specs.Heap.{IsLent};
    ghost use Rattle.c_handles.specs.values.Places.{filled_settings, settings_place, settings_row, put};

    fn value_mut(&mut self) -> Option<&mut CSettings>
        ensures* writes_back { sem 𝓛 (LendsIf settings_place settings_row self.entry result (filled_settings self.old) self.old) }
        ensures value { IsLent self.old.value result }
    {
        let at = self.at;
        if at.is_null() {
            return None;
        }
        Some(unsafe { &mut *(at as *mut CSettings) })
    }

    /// Writes them there.
    pub fn put(&mut self, settings: CSettings)
        ensures same { self.new.at ≡ self.old.at }
        ensures value { self.new.value ≡ put self.old.value settings }
    {
        if let Some(place) = self.value_mut() {
            *place = settings;
        }
    }

    /// Gives it back with a call's number.
    pub fn answer(self, number: u32) -> SettingsAnswer
        ensures { result ≡ record { number = number; place = self } }
    {
        let SettingsPlace { at: _ } = self;
        SettingsAnswer { number }
    }
}

/// A stage of C's, at a pointer or nowhere.
#[repr(C)]
pub struct StagePlace {
    at: *mut u8,
    pub ghost value: { Option CStage },
}

impl Model for StagePlace {
    ghost use Rattle.c_handles.specs.values.Lent.{lends_stage};

    ghost also_owns = { λ p. lends_stage p.at p.value };
}

impl StagePlace {
    ghost use Rattle.std.specs.Borrow.{LendsIf, sem};
    ghost use Rattle.c_handles.specs.Heap.{IsLent};
    ghost use Rattle.c_handles.specs.values.Places.{filled_stage, stage_place, stage_row, put};

    fn value_mut(&mut self) -> Option<&mut CStage>
        ensures* writes_back { sem 𝓛 (LendsIf stage_place stage_row self.entry result (filled_stage self.old) self.old) }
        ensures value { IsLent self.old.value result }
    {
        let at = self.at;
        if at.is_null() {
            return None;
        }
        Some(unsafe { &mut *(at as *mut CStage) })
    }

    /// Writes it there.
    pub fn put(&mut self, stage: CStage)
        ensures same { self.new.at ≡ self.old.at }
        ensures value { self.new.value ≡ put self.old.value stage }
    {
        if let Some(place) = self.value_mut() {
            *place = stage;
        }
    }

    /// Gives it back with a call's number.
    pub fn answer(self, number: u32) -> StageAnswer
        ensures { result ≡ record { number = number; place = self } }
    {
        let StagePlace { at: _ } = self;
        StageAnswer { number }
    }
}

/// A name of C's, at a pointer or nowhere.
#[repr(C)]
pub struct NamePlace {
    pub at: *mut u8,
    pub ghost value: { Option CName },
}

impl Model for NamePlace {
    ghost use Rattle.c_handles.specs.values.Lent.{lends_name};

    ghost also_owns = { λ p. lends_name p.at p.value };
}

impl NamePlace {
    ghost use Rattle.std.specs.Borrow.{LendsIf, sem};
    ghost use Rattle.c_handles.specs.Heap.{IsLent};
    ghost use Rattle.c_handles.specs.values.Places.{filled_name, name_place, name_row, put};

    fn value_mut(&mut self) -> Option<&mut CName>
        ensures* writes_back { sem 𝓛 (LendsIf name_place name_row self.entry result (filled_name self.old) self.old) }
        ensures value { IsLent self.old.value result }
    {
        let at = self.at;
        if at.is_null() {
            return None;
        }
        Some(unsafe { &mut *(at as *mut CName) })
    }

    /// Whether there is none.
    pub fn is_null(&mut self) -> bool
        ensures { (self.new ≡ self.old) × (result ≡ is_none self.old.value) }
    {
        match self.value_mut() {
            None => true,
            Some(_) => false,
        }
    }

    /// Writes it there.
    pub fn put(&mut self, name: CName)
        ensures same { self.new.at ≡ self.old.at }
        ensures value { self.new.value ≡ put self.old.value name }
    {
        if let Some(place) = self.value_mut() {
            *place = name;
        }
    }

    /// Gives it back with a call's number.
    pub fn answer(self, number: u32) -> NameAnswer
        ensures { result ≡ record { number = number; place = self } }
    {
        let NamePlace { at: _ } = self;
        NameAnswer { number }
    }
}

/// A wait of C's, at a pointer or nowhere.
#[repr(C)]
pub struct WaitPlace {
    pub at: *mut u8,
    pub ghost value: { Option CWait },
}

impl Model for WaitPlace {
    ghost use Rattle.c_handles.specs.values.Lent.{lends_wait};

    ghost also_owns = { λ p. lends_wait p.at p.value };
}

impl WaitPlace {
    ghost use Rattle.std.specs.Borrow.{LendsIf, sem};
    ghost use Rattle.c_handles.specs.Heap.{IsLent};
    ghost use Rattle.c_handles.specs.values.Places.{filled_wait, wait_place, wait_row};

    /// The wait, if there is one, in its place: a call works on it there.
    pub fn value_mut(&mut self) -> Option<&mut CWait>
        ensures* writes_back { sem 𝓛 (LendsIf wait_place wait_row self.entry result (filled_wait self.old) self.old) }
        ensures value { IsLent self.old.value result }
    {
        let at = self.at;
        if at.is_null() {
            return None;
        }
        Some(unsafe { &mut *(at as *mut CWait) })
    }

    /// Gives it back with a call's number.
    pub fn answer(self, number: u32) -> WaitAnswer
        ensures { result ≡ record { number = number; place = self } }
    {
        let WaitPlace { at: _ } = self;
        WaitAnswer { number }
    }
}
