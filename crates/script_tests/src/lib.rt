//! Tests of scripts and storms by the public calls of `registry_script`. They are a crate of their own so that they are proved beside its
//! must-fail edits, and not before them.
#![tactic(auto)]

#[cfg(test)]
mod tests;
