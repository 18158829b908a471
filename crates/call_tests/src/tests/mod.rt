//! Tests of what no contract says: worked rows on the bare words and on a registry, calls on threads, and running out of memory. Rows that
//! a script can say are the program's (`rows.py` of `registry_run`).

mod answers;
mod bench;
mod keepers;
mod memory_tests;
mod readers;
mod registry_rows;
mod remembered;
mod replace_rows;
mod table;
mod threads;
mod turns;
mod word_rows;
