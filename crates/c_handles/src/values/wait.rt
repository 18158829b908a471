//! A wait for open sections, as C keeps it between two turns.

use registry_values::{MOST_CPUS, MOST_SLOTS};

/// A wait for open sections, between two turns of it.
#[repr(C)]
#[derive(Drop)]
pub struct CWait {
    pub snapshots: [u64; MOST_CPUS],
    /// By slots: the number of the entry that was retired as the wait began, or 0.
    pub retired: [u64; MOST_SLOTS],
    /// The number of its CPU plus 1, or 0 where it was never begun.
    pub begun: u64,
    pub seen: [bool; MOST_CPUS],
}
