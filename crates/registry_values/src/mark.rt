//! The marks that a keeper has of the CPUs for a retired entry: what a step tells of one, and what is so of all CPUs. And which CPUs were seen
//! out of a section, for a wait that is for no entry.

ghost use Rattle.std.specs.Prelude.{◌≡◌, ◌≤◌, false, not, slice_index_or};
ghost use Rattle.registry_values.specs.Slots.{least_below, mark_after_look, mark_after_passive_look, mark_after_collect, is_out, has_changed, have_passed, are_clear, are_collected, is_some_collected};

use crate::limits::MOST_CPUS;

/// What is known of one CPU and a retired entry.
#[derive(Clone, Copy, Debug, PartialEq, Eq)]
pub struct Mark {
    /// The CPU's section word as it was after the unlinking.
    pub snapshot: Option<u64>,
    /// No section of the CPU may hold the entry any more.
    pub passed: bool,
    /// The CPU has no passive reference to it any more.
    pub clear: bool,
    /// The CPU's count word for it was swapped for 0.
    pub collected: bool,
}

/// No snapshot, and nothing known.
pub const NO_MARK: Mark = Mark {
    snapshot: None,
    passed: false,
    clear: false,
    collected: false,
};

/// The mark after a look at this section word (pserialize(9)): the CPU has passed where the word is even or differs from the snapshot,
/// or where it had passed before.
pub fn looked(mark: Mark, word: u64) -> Mark
    ensures { result ≡ mark_after_look mark word }
{
    Mark {
        passed: mark.passed || word % 2 == 0 || has_changed(mark.snapshot, word),
        ..mark
    }
}

fn has_changed(snapshot: Option<u64>, word: u64) -> bool
    ensures { result ≡ has_changed snapshot word }
{
    match snapshot {
        Some(seen) => seen != word,
        None => false,
    }
}

/// The mark after a look at this passive word (psref(9)): the CPU is clear where the word is 0. That it is clear stays.
pub fn cleared(mark: Mark, word: u64) -> Mark
    ensures { result ≡ mark_after_passive_look mark word }
{
    Mark {
        clear: mark.clear || word == 0,
        ..mark
    }
}

/// The mark once the CPU's count word was collected (localcount(9)).
pub fn collected(mark: Mark) -> Mark
    ensures { result ≡ mark_after_collect mark }
{
    Mark {
        collected: true,
        ..mark
    }
}

/// Whether the first `cpus` CPUs of a row of marks have all passed.
pub fn have_passed(cpus: u8, row: &[Mark]) -> bool
    ensures { result ≡ have_passed cpus row.now }
{
    row.iter().take(cpus as usize).all(|mark| mark.passed)
}

/// Whether the first `cpus` CPUs of a row of marks are all clear.
pub fn are_clear(cpus: u8, row: &[Mark]) -> bool
    ensures { result ≡ are_clear cpus row.now }
{
    row.iter().take(cpus as usize).all(|mark| mark.clear)
}

/// Whether the count words of the first `cpus` CPUs of a row of marks were all collected.
pub fn are_collected(cpus: u8, row: &[Mark]) -> bool
    ensures { result ≡ are_collected cpus row.now }
{
    row.iter().take(cpus as usize).all(|mark| mark.collected)
}

/// Whether one of them was collected.
pub fn is_some_collected(cpus: u8, row: &[Mark]) -> bool
    ensures { result ≡ is_some_collected cpus row.now }
{
    row.iter().take(cpus as usize).any(|mark| mark.collected)
}

/// The lowest-numbered CPU, below `cpus`, that wasn't seen.
pub fn first_unseen(cpus: u8, seen: &[bool; MOST_CPUS]) -> Option<u8>
    requires { cpus ≤ MOST_CPUS }
    ensures { result ≡ least_below (λ c. not (slice_index_or seen.now c false)) cpus }
{
    for c in 0..cpus {
        if !seen[c as usize] {
            return Some(c);
        }
    }
    None
}

/// Whether the section word shows its CPU out of the section of the snapshot (pserialize(9)).
pub fn is_out(snapshot: u64, word: u64) -> bool
    ensures { result ≡ is_out snapshot word }
{
    word % 2 == 0 || snapshot != word
}
