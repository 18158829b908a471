//! Local references, which travel between threads: localcount(9) over virtual CPUs.
//!
//! A CPU inside a section counts a reference to the entry that it found last, by one addition to its own count word. From there on the
//! reference is a value with a seat of its own: it may go to another thread and read the entry's record there, and while it lives the
//! entry keeps its slot. It must be spent. Any CPU releases it by one compare-exchange of its own count word, so one CPU's count says
//! nothing alone; only their sum does. Where the keeper has collected that word, for a drain, the reference comes back to the caller,
//! to be released under the interlock.
#![tactic(auto)]

mod collecting;
mod counting;
mod freeing;
mod giving_up;
mod keeping;
mod local_ref;
mod plain_ref;
mod replacing;

pub use collecting::{collect, collected, total};
pub use counting::{
    acquire_entry_local, acquire_last_local, acquire_local, acquire_local_on, net_count,
    try_release, try_release_on, why_not_acquired_local,
};
pub use freeing::free_iface;
pub use giving_up::release_under;
pub use keeping::publish_iface;
pub use local_ref::LocalRef;
pub use plain_ref::PlainRef;
pub use replacing::replace_iface;
