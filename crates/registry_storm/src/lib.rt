//! Storms: workers on all CPUs of a registry, each on a thread of its own.
//!
//! A storm opens a registry of its own and attaches one driver. Each worker owns its CPU and makes its turns: lookups in a section, a
//! passive and a local reference, and an exchange of local references with the other workers through baskets. CPU 0's worker also attaches
//! and detaches an interface on the driver. When all have ended, the baskets are emptied, everything is detached and freed, and an audit
//! says what is held.
#![tactic(auto)]

mod baskets;
mod calls;
mod churn;
mod closing;
mod plan;
mod storms;
mod sum;
mod worker;
mod workers;

pub use storms::{StormRun, storm, storm_run};
pub use sum::{StormDeeds, StormSum};
pub use worker::{Gate, OpenGate};
