//! What a registry keeps: records, entries, and the changes of its history.

ghost use Rattle.std.specs.Prelude.{◌≡◌};
ghost use Rattle.registry_values.specs.Slots.{is_iface, kind_word};
ghost use Rattle.registry_values.specs.declared.entry.Record.{Record};

use crate::name::Name;

/// What an entry is: a network interface or a device driver.
#[derive(Clone, Copy, Debug, PartialEq, Eq)]
pub enum Kind {
    /// A network interface.
    Iface,
    /// A device driver.
    Driver,
}

/// What an entry says: its kind, its name and a value that the registry only hands on.
#[derive(Clone, Copy, Debug, PartialEq, Eq)]
pub struct Record {
    /// Interface or driver.
    pub kind: Kind,
    /// Unique among the live entries of its kind.
    pub name: Name,
    /// Any number; the registry doesn't look at it.
    pub value: u64,
}

/// An entry of the registry, the target of psref(9). Two entries are the same if their numbers are.
#[derive(Clone, Copy, Debug, PartialEq, Eq)]
pub struct Entry {
    /// The position, from 1, of its attach in the history.
    pub number: u64,
    /// The slot, from 0, that it was attached in.
    pub slot: u8,
    /// What it says.
    pub rec: Record,
}

/// One change of the registry; all changes in their order are its history.
#[derive(Clone, Copy, Debug, PartialEq, Eq)]
pub enum Change {
    /// The entry was linked.
    Attach(Entry),
    /// The entry with this number was unlinked.
    Detach(u64),
    /// The entry with this number was unlinked, and by the same step this entry was linked in its place. The second number is the rank of
    /// both: the number of the first entry that stood in this place of the list.
    Replace(u64, u64, Entry),
}

/// Whether the kind is that of an interface.
pub fn is_iface(kind: Kind) -> bool
    ensures { result ≡ is_iface kind }
{
    kind == Kind::Iface
}

/// The word of a kind: 1 for an interface, 2 for a driver.
pub fn kind_word(kind: Kind) -> u64
    ensures { result ≡ kind_word kind }
{
    match kind {
        Kind::Iface => 1,
        Kind::Driver => 2,
    }
}

/// The record whose four words are these, as a slot has them: the kind's word (`kind_word`), the name's two, the value.
pub fn record_from(kind: u64, high: u64, low: u64, value: u64) -> Record
    ensures { (r : Record) → kind ≡ kind_word r.kind → high ≡ r.name.high → low ≡ r.name.low → value ≡ r.value → result ≡ r }
{
    let kind = if kind == 1 { Kind::Iface } else { Kind::Driver };
    let name = Name::of_words(high, low);
    Record { kind, name, value }
}
