//! Tests of what no contract says: rows of single events, values, and running out of memory.
//!
//! The rows of commands are scripts, which `script_tests` runs over a core too.

mod bench;
mod data;
mod event_rows;
mod give;
mod memory_tests;
mod recall_rows;
mod replace_rows;
mod try_rows;
mod values;
