//! The state of a slot, and tests of one slot by it.

ghost use Rattle.std.specs.Prelude.{◌≡◌};
ghost use Rattle.registry_values.specs.Slots.{are_words_of, is_retired_as, is_available, key_of, retired_number, has_number, is_live, is_live_as, same_key};

use crate::entry::{Entry, Kind, kind_word};
use crate::name::Name;

/// The state of a slot.
#[derive(Clone, Copy, Debug, PartialEq, Eq)]
pub enum Slot {
    /// Nothing: it may be given.
    Vacant,
    /// An entry that the list shows.
    Live(Entry),
    /// An entry that was unlinked, and whose slot isn't free yet.
    Retired(Entry),
}

/// What a lookup asks for.
#[derive(Clone, Copy, Debug, PartialEq, Eq)]
pub struct Key {
    /// Interface or driver.
    pub kind: Kind,
    /// The name.
    pub name: Name,
}

/// What the entry is looked up by.
pub fn key_of(entry: &Entry) -> Key
    ensures { result ≡ key_of entry.now }
{
    Key {
        kind: entry.rec.kind,
        name: entry.rec.name,
    }
}

/// Whether these words of a record are those of the kind and the name that are sought.
pub fn are_words_of(key: Key, kind: u64, high: u64, low: u64) -> bool
    ensures { result ≡ are_words_of key kind high low }
{
    let (key_high, key_low) = key.name.words();
    kind == kind_word(key.kind) && high == key_high && low == key_low
}

/// Whether the slot's entry is live.
pub fn is_live(slot: &Slot) -> bool
    ensures { result ≡ is_live slot.now }
{
    matches!(slot, Slot::Live(_))
}

/// Whether the slot's entry is live, with this kind and name.
pub fn is_live_as(key: Key, slot: &Slot) -> bool
    ensures { result ≡ is_live_as key slot.now }
{
    match slot {
        Slot::Live(entry) => same_key(key_of(entry), key),
        Slot::Vacant | Slot::Retired(_) => false,
    }
}

fn same_key(a: Key, b: Key) -> bool
    ensures { result ≡ same_key a b }
{
    a.kind == b.kind && a.name == b.name
}

/// Whether the slot's entry, live or retired, has this number.
pub fn has_number(number: u64, slot: &Slot) -> bool
    ensures { result ≡ has_number number slot.now }
{
    match slot {
        Slot::Vacant => false,
        Slot::Live(entry) | Slot::Retired(entry) => entry.number == number,
    }
}

/// Whether the slot's entry is retired, with this number.
pub fn is_retired_as(number: u64, slot: &Slot) -> bool
    ensures { result ≡ is_retired_as number slot.now }
{
    match slot {
        Slot::Vacant | Slot::Live(_) => false,
        Slot::Retired(entry) => entry.number == number,
    }
}

/// The number of the slot's entry, if it is retired.
pub fn retired_number(slot: Slot) -> Option<u64>
    ensures { result ≡ retired_number slot }
{
    match slot {
        Slot::Vacant | Slot::Live(_) => None,
        Slot::Retired(entry) => Some(entry.number),
    }
}

/// Whether an attach may take the slot: it is vacant, and keeps no reference to a driver.
pub fn is_available(slot: &Slot, kept: Option<u64>) -> bool
    ensures { result ≡ is_available (slot.now, kept) }
{
    matches!(slot, Slot::Vacant) && kept.is_none()
}
