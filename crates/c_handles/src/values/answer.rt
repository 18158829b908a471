//! What a call returns that writes to a place of C's: its number, and the place, which goes back to C. C gets a number: a struct of one
//! number crosses as the number does.

ghost use Rattle.std.specs.Prelude.{◌≡◌};
ghost use Rattle.c_handles.specs.contracts.values.given.GivenName.{the_row};
ghost use Rattle.c_handles.specs.contracts.values.given.GivenBytes.{the_row as bytes_row};
ghost use Rattle.c_handles.specs.contracts.values.given.GivenEntry.{the_row as entry_row};
ghost use Rattle.c_handles.specs.contracts.values.given.GivenSettings.{the_row as settings_row};
ghost use Rattle.c_handles.specs.declared.values.given.GivenName.{GivenName};
ghost use Rattle.c_handles.specs.declared.values.given.GivenBytes.{GivenBytes};
ghost use Rattle.c_handles.specs.declared.values.given.GivenEntry.{GivenEntry};
ghost use Rattle.c_handles.specs.declared.values.given.GivenSettings.{GivenSettings};
ghost use Rattle.c_handles.specs.declared.values.place.EntryPlace.{EntryPlace};
ghost use Rattle.c_handles.specs.declared.values.place.FlagPlace.{FlagPlace};
ghost use Rattle.c_handles.specs.declared.values.place.NamePlace.{NamePlace};
ghost use Rattle.c_handles.specs.declared.values.place.NumberPlace.{NumberPlace};
ghost use Rattle.c_handles.specs.declared.values.place.SettingsPlace.{SettingsPlace};
ghost use Rattle.c_handles.specs.declared.values.place.StagePlace.{StagePlace};
ghost use Rattle.c_handles.specs.declared.values.place.WaitPlace.{WaitPlace};
ghost use Rattle.c_handles.specs.declared.values.rows.BalancesPlace.{BalancesPlace};
ghost use Rattle.c_handles.specs.declared.values.rows.EntriesPlace.{EntriesPlace};
ghost use Rattle.c_handles.specs.declared.values.rows.TextPlace.{TextPlace};

use crate::values::given::{GivenBytes, GivenName};
use crate::values::place::{EntryPlace, WaitPlace};
use crate::values::rows::{BalancesPlace, EntriesPlace};
use std::marker::Model;

/// A call's number, and the place again.
#[repr(C)]
pub struct FlagAnswer {
    pub number: u32,
    pub ghost place: { FlagPlace },
}

impl Model for FlagAnswer {
    ghost use Rattle.c_handles.specs.values.Lent.{lends_flag};

    ghost also_owns = { λ a. lends_flag a.place.at a.place.value };
}

/// A call's number, and the place again.
#[repr(C)]
pub struct NumberAnswer {
    pub number: u32,
    pub ghost place: { NumberPlace },
}

impl Model for NumberAnswer {
    ghost use Rattle.c_handles.specs.values.Lent.{lends_number};

    ghost also_owns = { λ a. lends_number a.place.at a.place.value };
}

/// A call's number, and the place again.
#[repr(C)]
pub struct EntryAnswer {
    pub number: u32,
    pub ghost place: { EntryPlace },
}

impl Model for EntryAnswer {
    ghost use Rattle.c_handles.specs.values.Lent.{lends_entry};

    ghost also_owns = { λ a. lends_entry a.place.at a.place.value };
}

/// A call's number, and the place again.
#[repr(C)]
pub struct NameAnswer {
    pub number: u32,
    pub ghost place: { NamePlace },
}

impl Model for NameAnswer {
    ghost use Rattle.c_handles.specs.values.Lent.{lends_name};

    ghost also_owns = { λ a. lends_name a.place.at a.place.value };
}

/// A call's number, and the name that was given.
#[repr(C)]
pub struct GivenNameAnswer {
    pub number: u32,
    pub ghost name: { GivenName } by { the_row.coded },
}

impl Model for GivenNameAnswer {
    ghost use Rattle.c_handles.specs.values.Lent.{gives_name};

    ghost also_owns = { λ a. gives_name a.name.share a.name.at a.name.name };
}

/// A call's number, and the entry that was given.
#[repr(C)]
pub struct GivenEntryAnswer {
    pub number: u32,
    pub ghost entry: { GivenEntry } by { entry_row.coded },
}

impl Model for GivenEntryAnswer {
    ghost use Rattle.c_handles.specs.values.Lent.{gives_entry};

    ghost also_owns = { λ a. gives_entry a.entry.share a.entry.at a.entry.entry };
}

/// A call's number, the place of a number again, and the name that was given.
#[repr(C)]
pub struct IdAnswer {
    pub number: u32,
    pub ghost place: { NumberPlace },
    pub ghost name: { GivenName } by { the_row.coded },
}

impl Model for IdAnswer {
    ghost use base.Fml.{fsep};
    ghost use Rattle.c_handles.specs.values.Lent.{gives_name, lends_number};

    ghost also_owns = { λ a. fsep (lends_number a.place.at a.place.value) (gives_name a.name.share a.name.at a.name.name) };
}

/// A call's number, the place again, and the name that was given.
#[repr(C)]
pub struct NamedAnswer {
    pub number: u32,
    pub ghost place: { EntryPlace },
    pub ghost name: { GivenName } by { the_row.coded },
}

impl Model for NamedAnswer {
    ghost use base.Fml.{fsep};
    ghost use Rattle.c_handles.specs.values.Lent.{gives_name, lends_entry};

    ghost also_owns = { λ a. fsep (lends_entry a.place.at a.place.value) (gives_name a.name.share a.name.at a.name.name) };
}

/// A call's number, the place again, and the two names that were given: of an interface, and of its driver.
#[repr(C)]
pub struct IfaceAnswer {
    pub number: u32,
    pub ghost place: { EntryPlace },
    pub ghost name: { GivenName } by { the_row.coded },
    pub ghost driver: { GivenName } by { the_row.coded },
}

impl Model for IfaceAnswer {
    ghost use base.Fml.{fsep};
    ghost use Rattle.c_handles.specs.values.Lent.{gives_name, lends_entry};

    ghost also_owns = { λ a. fsep (fsep (lends_entry a.place.at a.place.value) (gives_name a.name.share a.name.at a.name.name)) (gives_name a.driver.share a.driver.at a.driver.name) };
}

/// A call's number, the places of the new entry and of the old one again, and the name that was given.
#[repr(C)]
pub struct ReplaceAnswer {
    pub number: u32,
    pub ghost place: { EntryPlace },
    pub ghost name: { GivenName } by { the_row.coded },
    pub ghost gone: { EntryPlace },
}

impl Model for ReplaceAnswer {
    ghost use base.Fml.{fsep};
    ghost use Rattle.c_handles.specs.values.Lent.{gives_name, lends_entry};

    ghost also_owns = { λ a. fsep (fsep (lends_entry a.place.at a.place.value) (gives_name a.name.share a.name.at a.name.name)) (lends_entry a.gone.at a.gone.value) };
}

/// The same with two names: of an interface, and of its driver.
#[repr(C)]
pub struct ReplaceIfaceAnswer {
    pub number: u32,
    pub ghost place: { EntryPlace },
    pub ghost name: { GivenName } by { the_row.coded },
    pub ghost gone: { EntryPlace },
    pub ghost driver: { GivenName } by { the_row.coded },
}

impl Model for ReplaceIfaceAnswer {
    ghost use base.Fml.{fsep};
    ghost use Rattle.c_handles.specs.values.Lent.{gives_name, lends_entry};

    ghost also_owns = { λ a. fsep (fsep (fsep (lends_entry a.place.at a.place.value) (gives_name a.name.share a.name.at a.name.name)) (lends_entry a.gone.at a.gone.value))
        (gives_name a.driver.share a.driver.at a.driver.name) };
}

/// A call's number, and the place again.
#[repr(C)]
pub struct SettingsAnswer {
    pub number: u32,
    pub ghost place: { SettingsPlace },
}

impl Model for SettingsAnswer {
    ghost use Rattle.c_handles.specs.values.Lent.{lends_settings};

    ghost also_owns = { λ a. lends_settings a.place.at a.place.value };
}

/// A call's number, and the place again.
#[repr(C)]
pub struct StageAnswer {
    pub number: u32,
    pub ghost place: { StagePlace },
}

impl Model for StageAnswer {
    ghost use Rattle.c_handles.specs.values.Lent.{lends_stage};

    ghost also_owns = { λ a. lends_stage a.place.at a.place.value };
}

/// A call's number, the place of a name again, and the bytes that were given.
#[repr(C)]
pub struct BytesAnswer {
    pub number: u32,
    pub ghost place: { NamePlace },
    pub ghost bytes: { GivenBytes } by { bytes_row.coded },
}

impl Model for BytesAnswer {
    ghost use base.Fml.{fsep};
    ghost use Rattle.c_handles.specs.values.Lent.{gives_bytes, lends_name};

    ghost also_owns = { λ a. fsep (lends_name a.place.at a.place.value) (gives_bytes a.bytes.share a.bytes.at a.bytes.bytes) };
}

/// A call's number, and the place of a wait again.
#[repr(C)]
pub struct WaitAnswer {
    pub number: u32,
    pub ghost place: { WaitPlace },
}

impl Model for WaitAnswer {
    ghost use Rattle.c_handles.specs.values.Lent.{lends_wait};

    ghost also_owns = { λ a. lends_wait a.place.at a.place.value };
}

/// A call's number, the place of a number again, and that of a wait.
#[repr(C)]
pub struct TurnAnswer {
    pub number: u32,
    pub ghost place: { NumberPlace },
    pub ghost wait: { WaitPlace },
}

impl Model for TurnAnswer {
    ghost use base.Fml.{fsep};
    ghost use Rattle.c_handles.specs.values.Lent.{lends_number, lends_wait};

    ghost also_owns = { λ a. fsep (lends_number a.place.at a.place.value) (lends_wait a.wait.at a.wait.value) };
}

/// A call's number, and the settings that were given.
#[repr(C)]
pub struct OpenAnswer {
    pub number: u32,
    pub ghost settings: { GivenSettings } by { settings_row.coded },
}

impl Model for OpenAnswer {
    ghost use Rattle.c_handles.specs.values.Lent.{gives_settings};

    ghost also_owns = { λ a. gives_settings a.settings.share a.settings.at a.settings.settings };
}

/// A call's number, the place of a text again, and the name that was given.
#[repr(C)]
pub struct FormatAnswer {
    pub number: u32,
    pub ghost place: { TextPlace },
    pub ghost name: { GivenName } by { the_row.coded },
}

impl Model for FormatAnswer {
    ghost use base.Fml.{fsep};
    ghost use Rattle.c_handles.specs.values.Lent.{gives_name, lends_text};

    ghost also_owns = { λ a. fsep (lends_text a.place.at a.place.value) (gives_name a.name.share a.name.at a.name.name) };
}

/// A call's number, and the place of a text again.
#[repr(C)]
pub struct TextAnswer {
    pub number: u32,
    pub ghost place: { TextPlace },
}

impl Model for TextAnswer {
    ghost use Rattle.c_handles.specs.values.Lent.{lends_text};

    ghost also_owns = { λ a. lends_text a.place.at a.place.value };
}

/// A call's number, the place of a number again, and that of entries.
#[repr(C)]
pub struct WalkAnswer {
    pub number: u32,
    pub ghost place: { NumberPlace },
    pub ghost row: { EntriesPlace },
}

impl Model for WalkAnswer {
    ghost use base.Fml.{fsep};
    ghost use Rattle.c_handles.specs.values.Lent.{lends_entries, lends_number};

    ghost also_owns = { λ a. fsep (lends_number a.place.at a.place.value) (lends_entries a.row.at a.row.value) };
}

/// A call's number, the place of a number again, and that of balances.
#[repr(C)]
pub struct ListAnswer {
    pub number: u32,
    pub ghost place: { NumberPlace },
    pub ghost list: { BalancesPlace },
}

impl Model for ListAnswer {
    ghost use base.Fml.{fsep};
    ghost use Rattle.c_handles.specs.values.Lent.{lends_balances, lends_number};

    ghost also_owns = { λ a. fsep (lends_number a.place.at a.place.value) (lends_balances a.list.at a.list.value) };
}

impl EntryAnswer {
    /// Gives a name back, too.
    pub fn with_name(self, name: GivenName) -> NamedAnswer
        ensures { result ≡ record { number = self.number; place = self.place; name = name } }
    {
        let EntryAnswer { number } = self;
        let GivenName { at: _ } = name;
        NamedAnswer { number }
    }
}

impl NumberAnswer {
    /// Gives a name back, too.
    pub fn with_given(self, name: GivenName) -> IdAnswer
        ensures { result ≡ record { number = self.number; place = self.place; name = name } }
    {
        let NumberAnswer { number } = self;
        let GivenName { at: _ } = name;
        IdAnswer { number }
    }

    /// Gives a wait's place back, too.
    pub fn with_wait(self, wait: WaitPlace) -> TurnAnswer
        ensures { result ≡ record { number = self.number; place = self.place; wait = wait } }
    {
        let NumberAnswer { number } = self;
        let WaitPlace { at: _ } = wait;
        TurnAnswer { number }
    }

    /// Gives a place of entries back, too.
    pub fn with_row(self, row: EntriesPlace) -> WalkAnswer
        ensures { result ≡ record { number = self.number; place = self.place; row = row } }
    {
        let NumberAnswer { number } = self;
        let EntriesPlace { at: _ } = row;
        WalkAnswer { number }
    }

    /// Gives a place of balances back, too.
    pub fn with_list(self, list: BalancesPlace) -> ListAnswer
        ensures { result ≡ record { number = self.number; place = self.place; list = list } }
    {
        let NumberAnswer { number } = self;
        let BalancesPlace { at: _ } = list;
        ListAnswer { number }
    }
}

impl NameAnswer {
    /// Gives bytes back, too.
    pub fn with_bytes(self, bytes: GivenBytes) -> BytesAnswer
        ensures { result ≡ record { number = self.number; place = self.place; bytes = bytes } }
    {
        let NameAnswer { number } = self;
        let GivenBytes { at: _ } = bytes;
        BytesAnswer { number }
    }
}

impl TextAnswer {
    /// Gives a name back, too.
    pub fn with_name(self, name: GivenName) -> FormatAnswer
        ensures { result ≡ record { number = self.number; place = self.place; name = name } }
    {
        let TextAnswer { number } = self;
        let GivenName { at: _ } = name;
        FormatAnswer { number }
    }
}

impl NamedAnswer {
    /// Gives the driver's name back, too.
    pub fn with_driver(self, driver: GivenName) -> IfaceAnswer
        ensures { result ≡ record { number = self.number; place = self.place; name = self.name; driver = driver } }
    {
        let NamedAnswer { number } = self;
        let GivenName { at: _ } = driver;
        IfaceAnswer { number }
    }

    /// Gives the old entry's place back, too.
    pub fn with_gone(self, gone: EntryPlace) -> ReplaceAnswer
        ensures { result ≡ record { number = self.number; place = self.place; name = self.name; gone = gone } }
    {
        let NamedAnswer { number } = self;
        let EntryPlace { at: _ } = gone;
        ReplaceAnswer { number }
    }
}

impl ReplaceAnswer {
    /// Gives the driver's name back, too.
    pub fn with_driver(self, driver: GivenName) -> ReplaceIfaceAnswer
        ensures { result ≡ record { number = self.number; place = self.place; name = self.name; gone = self.gone; driver = driver } }
    {
        let ReplaceAnswer { number } = self;
        let GivenName { at: _ } = driver;
        ReplaceIfaceAnswer { number }
    }
}
