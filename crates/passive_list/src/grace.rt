//! The keeper looks at the section words of the CPUs (pserialize(9)), a load each.

ghost use Rattle.std.specs.Prelude.{◌≡◌, ◌<◌, ◌++◌, ℕ, Some, None};
ghost use Rattle.passive_list.specs.Types.{Entry, Look, Snapshot, Word, Retired};
ghost use Rattle.registry_values.specs.Common.{slot_at};
ghost use Rattle.protocol.specs.Common.{mark_at};
ghost use Rattle.cpu_words.specs.Common.{AreWordsOf, HasLooked, keeper_after_look, did, Makes};
ghost use Rattle.cpu_words.specs.declared.view.View.TheVariants.{Keeper as OfKeeper};

use crate::keeper::{Keeper, mark_place};
use cpu_words::{Words, steps};
use registry_values::looked;

/// Looks at the section word of a CPU for the retired entry in `slot`. True where the CPU has passed, by an earlier look or by this one:
/// its word is even, or differs from its snapshot, so no section of it may hold the entry any more. It is counted as a look.
/// Condition: the slot's entry is retired, and the CPU is one of the table's.
pub fn look(words: &Words, keeper: &mut Keeper, slot: u8, cpu: u8) -> bool
    requires words { AreWordsOf words.now keeper.old.words.table keeper.old.words.settings }
    requires cpu { cpu < keeper.old.words.settings.cpus }
    requires retired { (e : Entry) × (slot_at keeper.old.keeper.slots slot ≡ Retired e) }
    ensures passed { result ≡ (mark_at keeper.new.keeper.view.marks slot cpu).passed }
    ensures change { (w : ℕ) × HasLooked keeper.old.keeper.view (Look (Some slot) cpu) (Word w) slot cpu w keeper.new.keeper.view
        × Makes (Look (Some slot) cpu) (Word w) (OfKeeper keeper.old.keeper.view) (OfKeeper keeper.new.keeper.view)
        × (keeper.new.keeper.log ≡ keeper.old.keeper.log ++ did (Look (Some slot) cpu) (Word w)) }
    ensures slots { keeper.new.keeper.slots ≡ keeper.old.keeper.slots }
    ensures words { keeper.new.words ≡ keeper.old.words }
{
    let word = steps::look(words, &mut keeper.seat, slot, cpu);
    let at = mark_place(keeper.settings.cpus, slot, cpu);
    let mark = looked(keeper.marks[at], word);
    keeper.marks[at] = mark;
    mark.passed
}

/// Takes a snapshot of a CPU's section word for no entry: the word now, even outside a section and odd inside. It is counted as a look.
/// Condition: the CPU is one of the table's.
pub fn snapshot(words: &Words, keeper: &mut Keeper, cpu: u8) -> u64
    requires words { AreWordsOf words.now keeper.old.words.table keeper.old.words.settings }
    requires cpu { cpu < keeper.old.words.settings.cpus }
    ensures event { Makes (Snapshot None cpu) (Word result) (OfKeeper keeper.old.keeper.view) (OfKeeper keeper.new.keeper.view) }
    ensures change { keeper.new.keeper.view ≡ keeper_after_look keeper.old.keeper.view (Snapshot None cpu) (Word result) }
    ensures slots { keeper.new.keeper.slots ≡ keeper.old.keeper.slots }
    ensures log { keeper.new.keeper.log ≡ keeper.old.keeper.log ++ did (Snapshot None cpu) (Word result) }
    ensures words { keeper.new.words ≡ keeper.old.words }
{
    steps::snapshot_now(words, &mut keeper.seat, cpu)
}

/// Looks at a CPU's section word for no entry: the word now, which the caller compares with what `snapshot` answered. It is counted as a
/// look.
/// Condition: the CPU is one of the table's.
pub fn glance(words: &Words, keeper: &mut Keeper, cpu: u8) -> u64
    requires words { AreWordsOf words.now keeper.old.words.table keeper.old.words.settings }
    requires cpu { cpu < keeper.old.words.settings.cpus }
    ensures event { Makes (Look None cpu) (Word result) (OfKeeper keeper.old.keeper.view) (OfKeeper keeper.new.keeper.view) }
    ensures change { keeper.new.keeper.view ≡ keeper_after_look keeper.old.keeper.view (Look None cpu) (Word result) }
    ensures slots { keeper.new.keeper.slots ≡ keeper.old.keeper.slots }
    ensures log { keeper.new.keeper.log ≡ keeper.old.keeper.log ++ did (Look None cpu) (Word result) }
    ensures words { keeper.new.words ≡ keeper.old.words }
{
    steps::look_now(words, &mut keeper.seat, cpu)
}
