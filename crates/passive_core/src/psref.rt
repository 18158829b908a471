//! Passive references of the core.

/// A passive reference of psref(9): that a CPU holds one to an entry. Copying the value acquires nothing; whether the CPU
/// still holds a reference is what `Core::held` tells.
#[derive(Clone, Copy, Debug, PartialEq, Eq)]
pub struct CorePsref {
    /// The CPU, from 0, that it was acquired on, and on which it is released.
    pub cpu: u8,
    /// The number, from 1, of the entry that it is to.
    pub number: u64,
}
