//! The keeper looks at the passive words of the CPUs for a retired entry (psref(9)), a load each.

ghost use Rattle.std.specs.Prelude.{◌≡◌, ◌<◌, ◌++◌, ℕ, slice_index_or, [], true};
ghost use Rattle.passive_list.specs.Types.{Entry, Word, Retired, PassiveLook};
ghost use Rattle.registry_values.specs.Common.{slot_at, have_passed};
ghost use Rattle.protocol.specs.Common.{mark_at};
ghost use Rattle.cpu_words.specs.Common.{AreWordsOf, did, Makes, HasLookedPassive};
ghost use Rattle.cpu_words.specs.declared.view.View.TheVariants.{Keeper as OfKeeper};

use cpu_words::{Words, steps};
use passive_list::{Keeper, mark_place};
use registry_values::cleared;

/// Looks at the passive word of a CPU for the retired entry in `slot`. True where the CPU has no passive reference to it left, by an
/// earlier look or by this one: its word is 0, and no section may acquire one any more. It is counted as a look.
/// Condition: the slot's entry is retired, the CPU is one of the table's, and all CPUs have passed (`Keeper::have_passed`).
pub fn look_passive(words: &Words, keeper: &mut Keeper, slot: u8, cpu: u8) -> bool
    requires words { AreWordsOf words.now keeper.old.words.table keeper.old.words.settings }
    requires cpu { cpu < keeper.old.words.settings.cpus }
    requires retired { (e : Entry) × (slot_at keeper.old.keeper.slots slot ≡ Retired e) }
    requires passed { have_passed keeper.old.words.settings.cpus (slice_index_or keeper.old.keeper.view.marks slot []) ≡ true }
    ensures clear { result ≡ (mark_at keeper.new.keeper.view.marks slot cpu).clear }
    ensures change { (w : ℕ) × HasLookedPassive keeper.old.keeper.view slot cpu w keeper.new.keeper.view
        × Makes (PassiveLook slot cpu) (Word w) (OfKeeper keeper.old.keeper.view) (OfKeeper keeper.new.keeper.view)
        × (keeper.new.keeper.log ≡ keeper.old.keeper.log ++ did (PassiveLook slot cpu) (Word w)) }
    ensures slots { keeper.new.keeper.slots ≡ keeper.old.keeper.slots }
    ensures words { keeper.new.words ≡ keeper.old.words }
{
    let word = steps::passive_look(words, &mut keeper.seat, slot, cpu);
    let at = mark_place(keeper.settings.cpus, slot, cpu);
    let mark = cleared(keeper.marks[at], word);
    keeper.marks[at] = mark;
    mark.clear
}
