//! What the keeper has, for whoever only reads it: also of the CPUs for a retired entry, by tests for the conditions of looks, of a drain and
//! of its end.

ghost use Rattle.std.specs.Prelude.{◌≡◌, List, ◌<◌, slice_index_or, take, []};
ghost use Rattle.passive_list.specs.declared.keeper.KeptSlot.{KeptSlot};
ghost use Rattle.passive_list.specs.Keepers.{HasRows};
ghost use Rattle.registry_values.specs.Common.{have_passed, are_clear, are_collected};
ghost use Rattle.protocol.specs.Common.{mark_at};

use crate::keeper::{Keeper, KeptSlot, mark_place};
use registry_values::{Mark, Settings, are_clear, are_collected, have_passed};

impl Keeper {
    /// What the table was made for. `own` is what every keeper keeps of itself: it is at rest, some state shows its view, and the settings are fit.
    #[tactic(auto, using(crate::proofs::Rows::has_rows))]
    pub fn settings(&self) -> Settings
        ensures value { result ≡ self.now.words.settings }
        ensures own { (rows : List KeptSlot) × HasRows self.now rows }
    {
        self.settings
    }

    /// What it has of each slot, from 0: it agrees with what its seat knows.
    #[tactic(auto, using(crate::proofs::Rows::has_rows))]
    pub fn rows(&self) -> &[KeptSlot]
        ensures { HasRows self.now result.now }
    {
        &self.rows
    }
}

impl Keeper {
    /// The mark of a CPU for the retired entry in `slot`; for another slot it says nothing.
    /// Condition: the slot and the CPU are of the table.
    pub fn mark(&self, slot: u8, cpu: u8) -> Mark
        requires { (slot < self.now.words.settings.slots) × (cpu < self.now.words.settings.cpus) }
        ensures { result ≡ mark_at self.now.keeper.view.marks slot cpu }
    {
        self.marks[mark_place(self.settings.cpus, slot, cpu)]
    }

    /// Whether all CPUs have passed for the entry in `slot` (pserialize(9)): no section may hold it any more.
    /// Condition: the slot is one of the table's.
    pub fn have_passed(&self, slot: u8) -> bool
        requires { slot < self.now.words.settings.slots }
        ensures { result ≡ have_passed self.now.words.settings.cpus (slice_index_or self.now.keeper.view.marks slot []) }
    {
        have_passed(self.settings.cpus, self.marks_of(slot))
    }

    /// Whether all CPUs are clear for the entry in `slot` (psref(9)): none has a passive reference to it any more.
    /// Condition: the slot is one of the table's.
    pub fn are_clear(&self, slot: u8) -> bool
        requires { slot < self.now.words.settings.slots }
        ensures { result ≡ are_clear self.now.words.settings.cpus (slice_index_or self.now.keeper.view.marks slot []) }
    {
        are_clear(self.settings.cpus, self.marks_of(slot))
    }

    /// Whether the count words of all CPUs for the entry in `slot` were collected (localcount(9)).
    /// Condition: the slot is one of the table's.
    pub fn are_collected(&self, slot: u8) -> bool
        requires { slot < self.now.words.settings.slots }
        ensures { result ≡ are_collected self.now.words.settings.cpus (slice_index_or self.now.keeper.view.marks slot []) }
    {
        are_collected(self.settings.cpus, self.marks_of(slot))
    }

    /// The slot's marks, and all that lie behind them.
    /// Condition: the slot is one of the table's.
    pub(crate) fn marks_of(&self, slot: u8) -> &[Mark]
        requires { slot < self.now.words.settings.slots }
        ensures { take self.now.words.settings.cpus result.now ≡ take self.now.words.settings.cpus (slice_index_or self.now.keeper.view.marks slot []) }
    {
        &self.marks[mark_place(self.settings.cpus, slot, 0)..]
    }
}
