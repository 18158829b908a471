//! Runs scripts over a running registry: its CPUs carry the commands out, and what labels still hold at the end is released.
//!
//! A `LiveSession` borrows the registry and all its CPUs, and owns the references that labels name. A command runs on the CPU that its line
//! names, by the calls of `name_registry` and the layers below it. At the end of the script, and after a fault, it releases the local
//! references, and then the passive ones. A section that a script left open stays open.
#![tactic(auto)]

mod calls;
mod run;
mod session;

pub use run::{run_live, run_live_on};
