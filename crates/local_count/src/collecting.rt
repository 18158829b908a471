//! Collecting (localcount(9)): the count words of a retired entry are added to its slot's total, CPU by CPU.

ghost use Rattle.std.specs.Prelude.{◌≡◌, ◌<◌, ◌+◌, slice_index_or, [], true, false};
ghost use Rattle.passive_list.specs.Types.{Entry, Retired};
ghost use Rattle.registry_values.specs.Common.{have_passed, are_clear, are_collected, bias, slot_at};
ghost use Rattle.protocol.specs.Common.{mark_at, total_at};
ghost use Rattle.cpu_words.specs.Common.{AreWordsOf};
ghost use Rattle.local_count.specs.Draining.{HasCollectedInto, AreHeld};

use cpu_words::{Words, steps};
use passive_list::{Keeper, mark_place};
use registry_values::{BIAS, collected as collected_mark};

/// Collects the count word of a CPU for the retired entry in `slot`: the word becomes 0, and its net count is added to the slot's total.
/// From now on a release on that CPU comes back (`try_release`).
/// Condition: the slot's entry is retired, all CPUs have passed and are clear for it (`Keeper::have_passed`, `Keeper::are_clear`), and
/// this CPU's word isn't collected yet (`collected`).
pub fn collect(words: &Words, keeper: &mut Keeper, slot: u8, cpu: u8)
    requires words { AreWordsOf words.now keeper.old.words.table keeper.old.words.settings }
    requires cpu { cpu < keeper.old.words.settings.cpus }
    requires retired { (e : Entry) × (slot_at keeper.old.keeper.slots slot ≡ Retired e) }
    requires passed { have_passed keeper.old.words.settings.cpus (slice_index_or keeper.old.keeper.view.marks slot []) ≡ true }
    requires clear { are_clear keeper.old.words.settings.cpus (slice_index_or keeper.old.keeper.view.marks slot []) ≡ true }
    requires uncollected { (mark_at keeper.old.keeper.view.marks slot cpu).collected ≡ false }
    ensures change { HasCollectedInto keeper.old.keeper slot cpu keeper.new.keeper }
    ensures words { keeper.new.words ≡ keeper.old.words }
{
    let word = steps::collect(words, &mut keeper.seat, slot, cpu);
    let total = keeper.rows[slot as usize].total_or_bias() + word - BIAS;
    steps::total_add(words, &mut keeper.seat, slot, total);
    keeper.rows[slot as usize].total = Some(total);
    let at = mark_place(keeper.settings.cpus, slot, cpu);
    keeper.marks[at] = collected_mark(keeper.marks[at]);
}

/// Whether the keeper has collected the count word of a CPU for the retired entry in `slot`.
/// Condition: the slot and the CPU are of the table.
pub fn collected(keeper: &Keeper, slot: u8, cpu: u8) -> bool
    requires { (slot < keeper.now.words.settings.slots) × (cpu < keeper.now.words.settings.cpus) }
    ensures { result ≡ (mark_at keeper.now.keeper.view.marks slot cpu).collected }
{
    keeper.mark(slot, cpu).collected
}

/// How many local references to the retired entry in `slot` are held: its slot's balance, once all count words are in its total. It takes
/// no step: the keeper alone writes totals.
/// Condition: the slot's entry is retired, and all CPUs have passed, are clear and collected for it (`Keeper::have_passed`,
/// `Keeper::are_clear`, `Keeper::are_collected`).
pub fn total(words: &Words, keeper: &mut Keeper, slot: u8) -> u64
    requires words { AreWordsOf words.now keeper.old.words.table keeper.old.words.settings }
    requires retired { (e : Entry) × (slot_at keeper.old.keeper.slots slot ≡ Retired e) }
    requires passed { have_passed keeper.old.words.settings.cpus (slice_index_or keeper.old.keeper.view.marks slot []) ≡ true }
    requires clear { are_clear keeper.old.words.settings.cpus (slice_index_or keeper.old.keeper.view.marks slot []) ≡ true }
    requires collected { are_collected keeper.old.words.settings.cpus (slice_index_or keeper.old.keeper.view.marks slot []) ≡ true }
    ensures value { result + bias ≡ total_at keeper.old.keeper.view.totals slot }
    ensures held { AreHeld keeper.old.keeper.view slot result }
    ensures same { keeper.new ≡ keeper.old }
{
    // The contract alone speaks of the words.
    let _words = words;
    keeper.rows[slot as usize].total_or_bias() - BIAS
}
