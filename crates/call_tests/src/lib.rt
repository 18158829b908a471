//! Tests of the calls on the words and on a registry, by the public calls of `cpu_words`, `passive_list`, `passive_ref`, `local_count` and
//! `name_registry`. They are a crate of their own so that those are proved once each.
#![tactic(auto)]

#[cfg(test)]
mod tests;
