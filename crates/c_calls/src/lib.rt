//! The calls of the running registry for C: on the bodies that C's handles point to, and through the handles.
#![tactic(auto)]

pub mod arguments;
pub mod audit;
pub mod changes;
pub mod locals;
pub mod lookups;
pub mod opening;
pub mod references;
pub mod sections;
pub mod turns;
pub mod walks;

pub use turns::waits_law;
