//! The parts of a `perform`, for a caller that holds the keeper: snapshots, glances, and at the end looks for what was retired. In each hold
//! of the interlock the keeper hears first what the caller's CPU knows, and at the end the CPU hears what the keeper did.

ghost use Rattle.std.specs.Prelude.{◌≡◌, ◌<◌, ◌≤◌, ℕ};
ghost use Rattle.std.specs.Option.{unwrap_or};
ghost use Rattle.registry_values.specs.Common.{retired_number, slot_at};
ghost use Rattle.cpu_words.specs.Common.{AreWordsOf};
ghost use Rattle.name_registry.specs.Performing.{GlancesBelow, GlancesOnce, HasBegun, HasGlanced, HasPassedAll, PassesBelow, PassesEntry, SnapshotsBelow, looking, word_of};
ghost use Rattle.name_registry.specs.Locking.{KeepsWords};

use crate::advancing::look_at_all;
use crate::exchange::{hear_cpu, show_cpu};
use cpu_words::Words;
use passive_list::{Keeper, PlainCpu, glance, snapshot};
use registry_values::{MOST_CPUS, MOST_SLOTS, first_unseen, is_out, is_retired_as, retired_number};

/// Begins a wait until each section that is open now has ended. Writes the section word of each CPU, and of each slot the number of its
/// retired entry, or 0, which no entry has. The waiting is by `glance_at_all`, and its end by `pass_all`, with the same rows.
#[tactic(auto, using(crate::proofs::Passed::made_hold))]
pub fn begin(
    words: &Words,
    keeper: &mut Keeper,
    cpu: &mut PlainCpu,
    snapshots: &mut [u64; MOST_CPUS],
    retired: &mut [u64; MOST_SLOTS],
)
    requires words { AreWordsOf words.now keeper.old.words.table keeper.old.words.settings }
    requires cpu { AreWordsOf words.now cpu.old.words.table cpu.old.words.settings }
    ensures begun { HasBegun keeper.old.words.settings keeper.old.keeper cpu.old.cpu snapshots.new retired.new keeper.new.keeper cpu.new.cpu }
    ensures words { KeepsWords keeper.old cpu.old keeper.new cpu.new }
{
    write_retired(keeper, retired);
    hear_cpu(words, keeper, cpu);
    snapshot_all(words, keeper, snapshots);
    show_cpu(words, keeper, cpu);
}

/// One snapshot of each CPU, CPU 0 first, and zeros past the last.
fn snapshot_all(words: &Words, keeper: &mut Keeper, snapshots: &mut [u64; MOST_CPUS])
    requires words { AreWordsOf words.now keeper.old.words.table keeper.old.words.settings }
    ensures looks { SnapshotsBelow snapshots.new words.now.settings.cpus (looking keeper.old.keeper) (looking keeper.new.keeper) }
    ensures slots { keeper.new.keeper.slots ≡ keeper.old.keeper.slots }
    ensures words { keeper.new.words ≡ keeper.old.words }
{
    *snapshots = [0; MOST_CPUS];
    for cpu in 0..keeper.settings().cpus {
        snapshots[cpu as usize] = snapshot(words, keeper, cpu);
    }
}

/// The number of each retired entry in the place of its slot, and 0 in the others.
fn write_retired(keeper: &Keeper, retired: &mut [u64; MOST_SLOTS])
    ensures { (t : ℕ) → t < MOST_SLOTS → word_of retired.new t ≡ unwrap_or (retired_number (slot_at keeper.now.keeper.slots t)) 0 }
{
    *retired = [0; MOST_SLOTS];
    for slot in 0..keeper.settings().slots {
        retired[slot as usize] = retired_number(keeper.slot(slot)).unwrap_or(0);
    }
}

/// One turn of such a wait: a glance at each CPU that wasn't seen out of the section of its snapshot yet. Returns the lowest-numbered CPU
/// that still wasn't seen. It takes no memory.
#[tactic(auto, using(crate::proofs::Passed::made_hold))]
pub fn glance_at_all(
    words: &Words,
    keeper: &mut Keeper,
    cpu: &mut PlainCpu,
    snapshots: &[u64; MOST_CPUS],
    seen: &mut [bool; MOST_CPUS],
) -> Option<u8>
    requires words { AreWordsOf words.now keeper.old.words.table keeper.old.words.settings }
    requires cpu { AreWordsOf words.now cpu.old.words.table cpu.old.words.settings }
    ensures glanced { HasGlanced keeper.old.words.settings snapshots.now keeper.old.keeper cpu.old.cpu seen.old result seen.new keeper.new.keeper cpu.new.cpu }
    ensures words { KeepsWords keeper.old cpu.old keeper.new cpu.new }
{
    hear_cpu(words, keeper, cpu);
    glance_at_cpus(words, keeper, snapshots, seen);
    show_cpu(words, keeper, cpu);
    first_unseen(words.settings().cpus, seen)
}

/// A glance at each CPU that wasn't seen yet, CPU 0 first.
fn glance_at_cpus(
    words: &Words,
    keeper: &mut Keeper,
    snapshots: &[u64; MOST_CPUS],
    seen: &mut [bool; MOST_CPUS],
)
    requires words { AreWordsOf words.now keeper.old.words.table keeper.old.words.settings }
    ensures looks { GlancesBelow snapshots.now seen.old seen.new words.now.settings.cpus (looking keeper.old.keeper) (looking keeper.new.keeper) }
    ensures slots { keeper.new.keeper.slots ≡ keeper.old.keeper.slots }
    ensures words { keeper.new.words ≡ keeper.old.words }
{
    for cpu in 0..keeper.settings().cpus {
        let at = cpu as usize;
        seen[at] = glances(words, keeper, cpu, snapshots[at], seen[at]);
    }
}

/// Whether the CPU was seen out of the section of its snapshot, before or by a glance at it now.
fn glances(words: &Words, keeper: &mut Keeper, cpu: u8, snapshot: u64, seen: bool) -> bool
    requires words { AreWordsOf words.now keeper.old.words.table keeper.old.words.settings }
    requires cpu { cpu < words.now.settings.cpus }
    ensures looks { GlancesOnce snapshot cpu seen (looking keeper.old.keeper) result (looking keeper.new.keeper) }
    ensures slots { keeper.new.keeper.slots ≡ keeper.old.keeper.slots }
    ensures words { keeper.new.words ≡ keeper.old.words }
{
    if seen {
        return true;
    }
    is_out(snapshot, glance(words, keeper, cpu))
}

/// The end of such a wait, once all CPUs were seen: looks at each CPU for the retired entries with these numbers, one by slot. A slot whose
/// entry was freed since is left out, and so is one with the number 0. The keeper hears once more after its looks, so that it finds in its log what they told, and tells the CPU that
/// log. It takes no memory.
pub fn pass_all(words: &Words, keeper: &mut Keeper, cpu: &mut PlainCpu, retired: &[u64; MOST_SLOTS])
    requires words { AreWordsOf words.now keeper.old.words.table keeper.old.words.settings }
    requires cpu { AreWordsOf words.now cpu.old.words.table cpu.old.words.settings }
    ensures passed { HasPassedAll keeper.old.words.settings keeper.old.keeper cpu.old.cpu retired.now keeper.new.keeper cpu.new.cpu }
    ensures words { KeepsWords keeper.old cpu.old keeper.new cpu.new }
{
    hear_cpu(words, keeper, cpu);
    pass_entries(words, keeper, retired);
    hear_cpu(words, keeper, cpu);
    show_cpu(words, keeper, cpu);
}

/// The passes, up to the last slot of the table.
fn pass_entries(words: &Words, keeper: &mut Keeper, retired: &[u64; MOST_SLOTS])
    requires words { AreWordsOf words.now keeper.old.words.table keeper.old.words.settings }
    ensures passes { PassesBelow words.now.settings retired.now MOST_SLOTS keeper.old.keeper keeper.new.keeper }
    ensures words { keeper.new.words ≡ keeper.old.words }
{
    for slot in 0..keeper.settings().slots {
        pass_entry(words, keeper, slot, retired[slot as usize]);
    }
}

/// Looks at each CPU for the entry with this number, where it is still retired in its slot, up to the first CPU that doesn't pass.
fn pass_entry(words: &Words, keeper: &mut Keeper, slot: u8, number: u64)
    requires words { AreWordsOf words.now keeper.old.words.table keeper.old.words.settings }
    requires place { slot < MOST_SLOTS }
    ensures passes { PassesEntry words.now.settings keeper.old.keeper slot number keeper.new.keeper }
    ensures words { keeper.new.words ≡ keeper.old.words }
{
    if is_retired_as(number, &keeper.slot(slot)) {
        look_at_all(words, keeper, slot);
    }
}
