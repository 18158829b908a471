//! Tests of the pure machine by the public calls of `passive_core`, and of the plain values below it. They are a crate of their own so that the
//! machine is proved once, and beside its must-fail edits.
#![tactic(auto)]

#[cfg(test)]
mod tests;
