//! A registry of network interfaces and device drivers behind one interlock.
//!
//! - Lookups and references need only the words (`Registry::words`), and never wait.
//! - Attaching, detaching and the work on retired entries take the interlock, a lock around the keeper. `destroy` makes several turns of
//!   that work, and releases the interlock between them.
//! - Each such call has a lent form, `attach_in` and its like, for a caller that holds the keeper. Only a lent form says what a call did to
//!   the keeper: no contract can name the value of a lock. Through the lock the share of a ledger tells which change a call made; each CPU
//!   has one.
#![tactic(auto)]

mod advancing;
mod attaching;
mod auditing;
mod blank;
mod closing;
mod destroying;
mod exchange;
mod first_fit;
mod getting_local;
mod glancing;
mod interlock;
mod law;
mod looking_up;
mod performing;
mod registry;
mod releasing;
mod replacing;
mod with_driver;

pub use advancing::advance_in;
pub use attaching::{attach_iface_by_name_in, attach_iface_in, attach_in, detach_in};
pub use auditing::{
    ReachesCpu, WritesBalance, are_all, audit_in, count_entries, gather, local_on, write_balances,
};
pub use blank::Blank;
pub use destroying::advance_for;
pub use first_fit::room_in;
pub use getting_local::{get_local, get_local_or};
pub use glancing::{begin, glance_at_all, pass_all};
pub use law::{exact_audit, free_interlock, weights_law};
pub use looking_up::{
    enter_find_fast, enter_find_nested, enter_find_slow, find_by, find_slow, get_fast, get_slow,
    look_up_anew, look_up_by, look_up_nested,
};
pub use registry::Registry;
pub use releasing::release_for;
pub use replacing::{replace_iface_by_name_in, replace_iface_in, replace_in};
