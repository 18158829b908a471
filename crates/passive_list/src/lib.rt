//! Read sections, lookups, and the keeper: pserialize(9) over virtual CPUs.
//!
//! A reader's code runs on a `Cpu`, which the thread that runs it owns. It enters a section, finds entries, and exits; in the section
//! no entry that it may have found loses its slot. The writer holds the `Keeper`: it publishes an entry, retires it, and looks at each
//! CPU until all sections that may hold the entry have ended.
//!
//! The crates of passive and local references step with the seats of both, and write the plain data beside them.
#![tactic(auto)]

mod cpu;
mod from_outside;
mod grace;
mod keeper;
mod last_found;
mod links;
mod lookup;
mod memory;
mod notes;
mod place;
mod plain_cpu;
mod publishing;
mod remembering;
mod replacing;
mod retiring;
mod sections;
mod shown;
mod vacating;
mod walks;

pub use cpu::Cpu;
pub use from_outside::find_from_outside;
pub use grace::{glance, look, snapshot};
pub use keeper::{Keeper, KeeperRows, KeptSlot, SlotState, mark_place};
pub use last_found::{is_found_last, is_open_last};
pub use lookup::{Seen, entry_of, find, find_on};
pub use memory::{Hint, Memo, Memory};
pub use notes::{Note, hear, hear_keeper, hear_on, tell, tell_keeper, tell_on};
pub use place::{Found, NumberedCount};
pub use plain_cpu::{CpuRows, PlainCpu};
pub use publishing::{publish, publish_entry};
pub use remembering::{
    find_and_remember, find_anew, find_by_memory, find_inside_on, recall_head_on,
    recall_remembered, recall_remembered_by, recall_word, refind_on, refind_remembered,
    refind_remembered_by, remembered,
};
pub use replacing::{replace, replace_entry, take_place};
pub use retiring::retire;
pub use sections::{enter, enter_on, exit, exit_on, may_begin_on};
pub use vacating::vacate;
pub use walks::{WritesEntry, walk, walk_on};
