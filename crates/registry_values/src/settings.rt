//! How large a registry is, and how far its counts may go.

ghost use Rattle.std.specs.Prelude.{◌≡◌, ◌↔◌, IsOk, IfErr, IsTrue};
ghost use Rattle.registry_values.specs.Limits.{is_within, are_sizes_within, are_limits_within, are_fit, are_usual};

use crate::limits::{
    MOST_CHANGES, MOST_COUNT, MOST_CPUS, MOST_SECTIONS, MOST_SLOTS, USUAL_CHANGES, USUAL_COUNT,
    USUAL_CPUS, USUAL_SECTIONS, USUAL_SLOTS,
};
use crate::refusal::Refusal;

/// How large a registry is, and how far its counts may go. `check` and `check_fit` say whether they can be used.
#[derive(Clone, Copy, Debug, PartialEq, Eq)]
pub struct Settings {
    /// How many CPUs it has, 1 to `MOST_CPUS`.
    pub cpus: u8,
    /// How many entries it holds at a time, live and retired ones together, 1 to `MOST_SLOTS`.
    pub slots: u8,
    /// How many changes its history has room for, 1 to `MOST_CHANGES`.
    pub change_limit: u64,
    /// How many outermost sections each CPU may begin, 1 to `MOST_SECTIONS`.
    pub section_limit: u64,
    /// How many passive references each CPU may have to an entry, 1 to `MOST_COUNT`.
    pub passive_limit: u64,
    /// How far each CPU's own net count of local references to an entry may go, 1 to `MOST_COUNT`.
    pub count_limit: u64,
}

impl Settings {
    /// Whether each setting is in its usual range: those of a registry of a Rattle program, and of a script.
    /// Refused: `BadSettings`, where one isn't.
    pub fn check(&self) -> Result<(), Refusal>
        ensures ok { IsOk result ↔ IsTrue (are_usual self.now) }
        ensures err { IfErr result (λ refusal. refusal ≡ Refusal.BadSettings) }
    {
        let sizes = self.are_sizes_within(USUAL_CPUS, USUAL_SLOTS, USUAL_CHANGES);
        checked(sizes && self.are_limits_within(USUAL_SECTIONS, USUAL_COUNT))
    }

    /// Whether each setting is within the capacity: what a registry of C may have. Refused: `BadSettings`, where one isn't.
    pub fn check_fit(&self) -> Result<(), Refusal>
        ensures ok { IsOk result ↔ IsTrue (are_fit self.now) }
        ensures err { IfErr result (λ refusal. refusal ≡ Refusal.BadSettings) }
    {
        let sizes = self.are_sizes_within(MOST_CPUS, MOST_SLOTS, MOST_CHANGES);
        checked(sizes && self.are_limits_within(MOST_SECTIONS, MOST_COUNT))
    }

    fn are_sizes_within(&self, cpus: usize, slots: usize, changes: u64) -> bool
        ensures { result ≡ are_sizes_within cpus slots changes self.now }
    {
        is_within(1, cpus as u64, u64::from(self.cpus))
            && is_within(1, slots as u64, u64::from(self.slots))
            && is_within(1, changes, self.change_limit)
    }

    fn are_limits_within(&self, sections: u64, count: u64) -> bool
        ensures { result ≡ are_limits_within sections count self.now }
    {
        is_within(1, sections, self.section_limit)
            && is_within(1, count, self.passive_limit)
            && is_within(1, count, self.count_limit)
    }
}

/// Refused: `BadSettings`, where they aren't right.
fn checked(right: bool) -> Result<(), Refusal>
    ensures ok { IsOk result ↔ IsTrue right }
    ensures err { IfErr result (λ refusal. refusal ≡ Refusal.BadSettings) }
{
    if right {
        Ok(())
    } else {
        Err(Refusal::BadSettings)
    }
}

/// Whether a number is in a range, both ends included.
fn is_within(least: u64, most: u64, number: u64) -> bool
    ensures { result ≡ is_within least most number }
{
    least <= number && number <= most
}
