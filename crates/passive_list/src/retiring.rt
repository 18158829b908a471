//! An entry is retired: it is hidden, then unlinked, and the section word of each CPU is taken as its snapshot.

ghost use Rattle.std.specs.Prelude.{◌≡◌, ◌≤◌, ◌+◌, ◌*◌, List, length};
ghost use Rattle.passive_list.specs.Types.{Entry, Live, Mark, Snapshots};
ghost use Rattle.registry_values.specs.Common.{slot_at};
ghost use Rattle.cpu_words.specs.Common.{AreWordsOf, IsShown};
ghost use Rattle.passive_list.specs.Publishing.{HasDetached, LogsDetach, LogsSnapshots, with_snapshots, AreSnapshots, AreFresh, AreWritten};

use crate::keeper::{Keeper, SlotState, mark_place};
use crate::links::{link_below, slot_above};
use cpu_words::{KeeperSeat, Words, steps};
use registry_values::{Entry, MOST_CPUS, Mark, NO_MARK};

/// Retires the live entry in `slot`: from now on lookups that begin don't find it, and the history ends with its detach. A section that may
/// hold it is one that is open at a snapshot. Returns the entry.
/// Condition: the slot's entry is live.
pub fn retire(words: &Words, keeper: &mut Keeper, slot: u8) -> Entry
    requires words { AreWordsOf words.now keeper.old.words.table keeper.old.words.settings }
    requires live { (e : Entry) × (slot_at keeper.old.keeper.slots slot ≡ Live e) }
    ensures entry { slot_at keeper.old.keeper.slots slot ≡ Live result }
    ensures change { HasDetached keeper.old.keeper slot result keeper.new.keeper }
    ensures log { LogsDetach keeper.old.keeper.view.settings.cpus slot keeper.old.keeper.log keeper.new.keeper.log }
    ensures words { keeper.new.words ≡ keeper.old.words }
{
    let SlotState::Live(entry) = keeper.rows[slot as usize].state else {
        unreachable!()
    };
    steps::hide(words, &mut keeper.seat, slot);
    let slots = keeper.settings.slots;
    let cpus = keeper.settings.cpus;
    let rank = keeper.rows[slot as usize].rank;
    let before = slot_above(&keeper.rows, slots, rank);
    let link = link_below(&keeper.rows, slots, rank);
    steps::unpublish(words, &mut keeper.seat, slot, before, link);
    snapshots(words, &mut keeper.seat, slot, cpus, &mut keeper.marks);
    keeper.rows[slot as usize].state = SlotState::Retired(entry);
    keeper.changes += 1;
    entry
}

/// Takes the snapshots of all CPUs, CPU 0 first, into the slot's marks. All other marks stay.
#[tactic(auto, using(crate::proofs::Marks::none_written, crate::proofs::Marks::none_taken, crate::proofs::Marks::taking_first))]
pub(crate) fn snapshots(
    words: &Words,
    seat: &mut KeeperSeat,
    slot: u8,
    cpus: u8,
    marks: &mut [Mark],
)
    requires table { seat.old.table ≡ words.now.table }
    requires due { seat.old.view.due ≡ Snapshots slot 0 }
    requires fresh { AreFresh seat.old.view slot }
    requires is_shown { IsShown seat.old.view }
    requires fit { (cpus ≡ seat.old.view.settings.cpus) × (1 ≤ cpus) × (cpus ≤ MOST_CPUS) × (cpus ≤ words.now.settings.cpus) }
    requires room { slot * cpus + cpus ≤ length marks.old }
    ensures table { seat.new.table ≡ seat.old.table }
    ensures taken { (row : List Mark) × AreSnapshots cpus row × (seat.new.view ≡ with_snapshots seat.old.view slot row) × AreWritten (slot * cpus) cpus row marks.old marks.new }
    ensures log { LogsSnapshots slot cpus seat.old.log seat.new.log }
    ensures is_shown { IsShown seat.new.view }
{
    for c in 0..cpus {
        let word = steps::snapshot(words, seat, slot, c);
        marks[mark_place(cpus, slot, c)] = Mark {
            snapshot: Some(word),
            ..NO_MARK
        };
    }
}
