//! What the core's state is made of, beside plain words.

use registry_values::{Entry, Key};

/// The record words of a slot.
#[derive(Clone, Copy, Debug, PartialEq, Eq)]
pub struct RecordWords {
    /// Word 0, the entry's number.
    pub number: u64,
    /// Word 1, 1 for an interface and 2 for a driver.
    pub kind: u64,
    /// Word 2, the first word of the name.
    pub high: u64,
    /// Word 3, the second word of the name.
    pub low: u64,
    /// Word 4, the value.
    pub value: u64,
}

/// Where a search stands, with the words that it has loaded of that slot.
#[derive(Clone, Copy, Debug, PartialEq, Eq)]
pub enum SearchPlace {
    /// It is to load the head of the list.
    AtHead,
    /// It is to load the link of this slot.
    AtNext(u8),
    /// It is to load word 0 of this slot.
    AtNumber(u8),
    /// It is to load word 1; then the number.
    AtKind(u8, u64),
    /// It is to load word 2; then the number and the kind's word.
    AtHigh(u8, u64, u64),
    /// It is to load word 3; then the number, the kind's word and the name's first.
    AtLow(u8, u64, u64, u64),
    /// Kind and name are those sought, and it is to load word 4; then the number.
    AtValue(u8, u64),
}

/// A search under way.
#[derive(Clone, Copy, Debug, PartialEq, Eq)]
pub struct Search {
    /// What it seeks.
    pub key: Key,
    /// The length of the CPU's pass as it began.
    pub start: u64,
    /// Where it stands.
    pub place: SearchPlace,
}

/// What a search does with a record word that it has loaded.
#[derive(Clone, Copy, Debug, PartialEq, Eq)]
pub enum Loaded {
    /// It goes on at this place; this was the word.
    On(SearchPlace, u64),
    /// It is over: this entry was found.
    Over(Entry),
}

/// What a CPU is about to do: a local reference to split off or to give back, or a passive word that it has counted up to get a reference.
#[derive(Clone, Copy, Debug, PartialEq, Eq)]
pub enum Hand {
    /// None.
    Empty,
    /// One to this number was counted and has no seat yet.
    Taking(u64),
    /// One to this number, with this id, was joined and is still counted.
    Giving(u64, u64),
    /// The same, and the CPU's word was found collected.
    Back(u64, u64),
    /// The CPU's passive word of this slot was counted up for the entry with this number (slot, number), and is no reference yet.
    Trying(u8, u64),
}

/// The place of a local reference, by its id.
#[derive(Clone, Copy, Debug, PartialEq, Eq)]
pub enum LocalPlace {
    /// No reference has this id.
    Free,
    /// A live reference to this number.
    Standing(u64),
    /// The reference is in the hand of this CPU.
    Lifted(u8),
}

/// What the keeper must do next.
#[derive(Clone, Copy, Debug, PartialEq, Eq)]
pub enum Due {
    /// Nothing: it is at rest.
    Rest,
    /// Take the snapshot of this CPU for this slot (slot, CPU).
    Snapshots(u8, u8),
    /// Add what was collected to this slot's total (slot, old word).
    Adding(u8, u64),
    /// Subtract a joined reference from this slot's total.
    Subtracting(u8),
}
