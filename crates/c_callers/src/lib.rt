//! Calls that only C makes, made in Rattle. It is proved that they meet what these calls, and the law of waits, ask of C's caller. They are a crate of their
//! own so that `c_calls` is proved once. The programs of `c/tests` run such calls.
#![tactic(auto)]

pub mod holding;
pub mod references;
pub mod waiting;
