//! The end of a drain: the slot of a retired entry is vacant again.

ghost use Rattle.std.specs.Prelude.{◌≡◌, ◌↔◌, ◌<◌, IsTrue, None};
ghost use Rattle.protocol.specs.Common.{kept_at};
ghost use Rattle.cpu_words.specs.Common.{AreWordsOf};
ghost use Rattle.passive_list.specs.Draining.{HasVacated, IsDrainedOn, is_drained_row};

use crate::keeper::{Keeper, KeptSlot, SlotState};
use cpu_words::{Words, steps};
use registry_values::{BIAS, Mark, are_clear, are_collected, have_passed};

impl Keeper {
    /// Whether the entry in `slot` is retired and drained: all CPUs have passed, are clear and collected, and the total counts no local
    /// reference.
    /// Condition: the slot is one of the table's.
    pub fn is_drained(&self, slot: u8) -> bool
        requires { slot < self.now.words.settings.slots }
        ensures { IsTrue result ↔ IsDrainedOn self.now.keeper slot }
    {
        is_drained_row(
            self.settings.cpus,
            &self.rows[slot as usize],
            self.marks_of(slot),
        )
    }
}

/// Makes the slot of a drained entry vacant: the event Vacate, and a load that lets the keeper hear.
/// Condition: the slot is drained (`Keeper::is_drained`), and keeps nothing (`Keeper::keeps`).
pub fn vacate(words: &Words, keeper: &mut Keeper, slot: u8)
    requires words { AreWordsOf words.now keeper.old.words.table keeper.old.words.settings }
    requires drained { IsDrainedOn keeper.old.keeper slot }
    requires keeps { kept_at keeper.old.keeper.view.keeps slot ≡ None }
    ensures change { HasVacated keeper.old.keeper slot keeper.new.keeper }
    ensures words { keeper.new.words ≡ keeper.old.words }
{
    steps::vacate(words, &mut keeper.seat, slot);
    keeper.rows[slot as usize].state = SlotState::Vacant;
}

fn is_drained_row(cpus: u8, row: &KeptSlot, marks: &[Mark]) -> bool
    ensures { result ≡ is_drained_row cpus row.now marks.now }
{
    matches!(row.state, SlotState::Retired(_))
        && have_passed(cpus, marks)
        && are_clear(cpus, marks)
        && are_collected(cpus, marks)
        && row.total_or_bias() == BIAS
}
