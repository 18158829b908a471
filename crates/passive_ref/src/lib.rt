//! Passive references: psref(9) over virtual CPUs.
//!
//! A passive reference holds an entry beyond the section that found it. A CPU acquires one inside a section, to the entry that it found
//! last, by one step on a word of its own. From then on the entry keeps its slot: its record is read outside any section, and a second
//! reference is copied from the first. Each is released on the CPU that acquired it.
//!
//! The keeper waits for them after the entry is retired and all CPUs have passed: no section may acquire another then. A load of each CPU's
//! word shows whether it has any left. Once all CPUs are clear, no passive reference prevents reuse.
#![tactic(auto)]

mod acquiring;
mod getting;
mod holding;
mod looking;
mod psref;
mod reading;

pub use acquiring::{
    acquire, acquire_entry, acquire_last, acquire_on, copy, copy_on, release, release_at,
    release_on,
};
pub use getting::{get_by_memory, get_on};
pub use holding::{held, held_on};
pub use looking::look_passive;
pub use psref::Psref;
pub use reading::{read, read_on};
