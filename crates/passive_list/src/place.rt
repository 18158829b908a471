//! What a CPU keeps of entries: of the slots a count for the entry that it met there last, and of the entry that it found last what
//! references to it are made of.

use registry_values::Kind;

/// A count, and the number of the entry that it is for; where the number is 0 it is for no entry, and the count has no meaning.
#[derive(Clone, Copy, Debug, PartialEq, Eq)]
pub struct NumberedCount {
    /// From 1; 0 for no entry.
    pub number: u64,
    /// Passive references to it, or the net count of local ones over the bias.
    pub count: u64,
}

impl NumberedCount {
    /// Of no entry.
    pub const NONE: NumberedCount = NumberedCount {
        number: 0,
        count: 0,
    };
}

/// The last found entry; where the number is 0 there is none, and the rest has no meaning. It is kept without its record, since each section
/// stores and clears it: each store there is paid for, by the atomic operation that ends the section.
#[derive(Clone, Copy, Debug, PartialEq, Eq)]
pub struct Found {
    /// From 1; 0 for no entry.
    pub number: u64,
    /// From 0.
    pub slot: u8,
    pub kind: Kind,
}

impl Found {
    /// No entry.
    pub const NONE: Found = Found {
        number: 0,
        slot: 0,
        kind: Kind::Driver,
    };
}
