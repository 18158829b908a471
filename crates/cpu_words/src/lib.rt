//! The words of a registry as a table of atomic words, under one rule. Each step keeps the rule. Under it, the words and the views of all
//! seats show a state of the core. A list of events leads to it, and each seat's log is its part of that list.
//!
//! `Words::new` makes the words and the seats: the keeper's, and one for each CPU. The owner of a seat makes its steps (`steps`). Each is
//! an event of the protocol, and at most one atomic operation. Seats move between threads; no step waits.
//!
//! A local reference's seat is split from its CPU's, and spent when it is counted down or kept. A note's is split from any seat that tells.
#![tactic(auto)]

mod closing;
mod headline;
mod law;
mod layout;
mod open;
mod operations;
mod seat;
pub mod steps;
mod view;

pub use closing::LastWords;
pub use headline::{ended_run, honest_marks, running_headline};
pub use law::{Domain, RegistryRule, Words};
pub use layout::{Row, layout_law};
pub use seat::{CpuSeat, KeeperSeat, NoteSeat, ReferenceSeat, Seat, SeatView};
pub use view::{
    CpuView, EndedSeat, InHand, KeeperView, LogItem, Logged, Looked, ReferenceView, Teller, View,
};
