//! What an audit says of an entry, and what its count words say.

ghost use Rattle.std.specs.Prelude.{◌≡◌, ◌<◌, ◌≤◌, ◌*◌, ◌^◌, ◌≤ℤ◌, ℕ, neg_ℤ, pos, length, slice_index_or};
ghost use Rattle.registry_values.specs.Answers.{less_bias, local_of, sum_of};

use crate::limits::{BIAS, MOST_CPUS};

/// The local references held to a live or retired entry (localcount(9)), as the counts say it.
#[derive(Debug, Drop, PartialEq)]
pub struct Balance {
    /// The entry's number, from 1.
    pub number: u64,
    /// Its slot, from 0.
    pub slot: u8,
    /// How many local references to it are held: the sum of `locals` and `total`.
    pub held: i64,
    /// Of each CPU its own net count; 0 where the count was collected into the total. It may be negative.
    pub locals: Vec<i64>,
    /// What was collected, less what was given up under the interlock. It may be negative.
    pub total: i64,
}

/// What a count word or a total says: how far it is above the bias, or below.
/// Condition: the word is below 2^60.
pub fn less_bias(word: u64) -> i64
    requires { word < 2 ^ 60 }
    ensures { result ≡ less_bias word }
{
    word as i64 - BIAS as i64
}

/// The net count that a count word says; a collected one says nothing.
/// Condition: the word is below 2^60.
pub fn local_of(word: u64) -> i64
    requires { word < 2 ^ 60 }
    ensures { result ≡ local_of word }
{
    if word == 0 { 0 } else { less_bias(word) }
}

/// The sum of the net counts of an entry's CPUs.
/// Condition: they are at most `MOST_CPUS`, each from -2^50 to 2^50.
pub fn sum(numbers: &[i64]) -> i64
    requires few { length numbers.now ≤ MOST_CPUS }
    requires low { (k : ℕ) → k < length numbers.now → neg_ℤ (pos (2 ^ 50)) ≤ℤ slice_index_or numbers.now k (pos 0) }
    requires high { (k : ℕ) → k < length numbers.now → slice_index_or numbers.now k (pos 0) ≤ℤ pos (2 ^ 50) }
    ensures value { result ≡ sum_of numbers.now }
    ensures least { neg_ℤ (pos (MOST_CPUS * 2 ^ 50)) ≤ℤ result }
    ensures most { result ≤ℤ pos (MOST_CPUS * 2 ^ 50) }
{
    let mut sum = 0;
    for number in numbers {
        sum += *number;
    }
    sum
}
