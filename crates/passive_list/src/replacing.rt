//! An entry takes the place of a live one with the same kind and name: its words are stored, the old one is hidden, one store to the link
//! that leads to the old one makes it lead to the new one, the snapshots are taken, and the new one is shown. So no lookup finds neither.

ghost use Rattle.std.specs.Prelude.{◌≡◌, ℕ, ◌<◌, ◌≤◌, ◌+◌, ◌*◌, suc, Some, IsTrue, length};
ghost use Rattle.passive_list.specs.Types.{Entry, Live, Vacant};
ghost use Rattle.registry_values.specs.Common.{live_count, slot_at};
ghost use Rattle.protocol.specs.Common.{keeps_rightly, kept_at};
ghost use Rattle.cpu_words.specs.Common.{AreWordsOf, IsAttachedKeeping};
ghost use Rattle.passive_list.specs.Publishing.{AreWritten};
ghost use Rattle.passive_list.specs.Replacing.{MayReplace, HasReplaced, HasReplacedIn, LogsReplace, rows_replaced};

use crate::keeper::{Keeper, KeptSlot, SlotState};
use crate::links::{link_below, slot_above};
use crate::publishing::prepare;
use crate::retiring::snapshots;
use cpu_words::{KeeperSeat, Words, steps};
use registry_values::{Entry, Mark, Record};

/// Puts an entry with the same kind and name and another value, in `slot`, into the place of the live entry in `old`. From now on lookups
/// find that one, and the history ends with this one change. A lookup that runs meanwhile finds the one or the other. The old entry is
/// retired: a section that may hold it is one that is open at a snapshot. Returns both, the old one first.
///
/// Conditions:
///
/// - the entry in `old` is live;
/// - the slot is one of the table's and vacant, and keeps a reference exactly if that entry is an interface;
/// - the history has room for this change and for the detach of each live entry, the new one too.
pub fn replace(words: &Words, keeper: &mut Keeper, old: u8, slot: u8, value: u64) -> (Entry, Entry)
    requires words { AreWordsOf words.now keeper.old.words.table keeper.old.words.settings }
    requires live { (f : Entry) × (slot_at keeper.old.keeper.slots old ≡ Live f) × IsTrue (keeps_rightly (kept_at keeper.old.keeper.view.keeps slot) f.rec.kind) }
    requires vacant { (slot < keeper.old.words.settings.slots) × (slot_at keeper.old.keeper.slots slot ≡ Vacant) }
    requires room { length keeper.old.keeper.view.history + live_count keeper.old.keeper.slots + 2 ≤ keeper.old.words.settings.change_limit }
    ensures old { slot_at keeper.old.keeper.slots old ≡ Live result.0 }
    ensures new { result.1 ≡ record { number = suc (length keeper.old.keeper.view.history); slot = slot; rec = record result.0.rec { value = value } } }
    ensures change { HasReplacedIn keeper.old.keeper old result.0 result.1 keeper.new.keeper }
    ensures log { LogsReplace keeper.old.keeper.view old result.1 keeper.old.keeper.log keeper.new.keeper.log }
    ensures words { keeper.new.words ≡ keeper.old.words }
{
    let SlotState::Live(entry) = keeper.rows[old as usize].state else {
        unreachable!()
    };
    let made = Entry {
        number: keeper.changes + 1,
        slot,
        rec: Record { value, ..entry.rec },
    };
    replace_entry(
        words,
        &mut keeper.seat,
        &keeper.rows,
        &mut keeper.marks,
        old,
        &made,
    );
    take_place(&mut keeper.rows, old, entry, made);
    keeper.changes += 1;
    (entry, made)
}

/// Puts the entry into the place of the live one in `old` by the keeper's seat alone, when the rows say already what is in each slot, and
/// writes the old one's marks.
/// Condition: that of `replace`, of the seat and the rows; the entry's number is how many changes there are then.
pub fn replace_entry(
    words: &Words,
    seat: &mut KeeperSeat,
    rows: &[KeptSlot],
    marks: &mut [Mark],
    old: u8,
    entry: &Entry,
)
    requires table { seat.old.table ≡ words.now.table }
    requires may { MayReplace words.now.settings seat.old.view rows.now old entry.now }
    requires room { old * words.now.settings.cpus + words.now.settings.cpus ≤ length marks.old }
    ensures table { seat.new.table ≡ seat.old.table }
    ensures change { (f : Entry) × (slot_at seat.old.view.slots old ≡ Live f) × (has : HasReplaced seat.old.view old f entry.now seat.new.view)
        × AreWritten (old * words.now.settings.cpus) words.now.settings.cpus has.marks marks.old marks.new }
    ensures log { LogsReplace seat.old.view old entry.now seat.old.log seat.new.log }
    ensures attached { (d : ℕ) → kept_at seat.old.view.keeps entry.now.slot ≡ Some d → IsAttachedKeeping entry.now.slot entry.now.number d seat.new.log }
{
    let settings = words.settings();
    let rank = rows[old as usize].rank;
    let before = slot_above(rows, settings.slots, rank);
    let link = link_below(rows, settings.slots, rank);
    prepare(words, seat, entry, settings.cpus, link);
    steps::hide(words, seat, old);
    steps::republish(words, seat, entry.slot, old, before);
    snapshots(words, seat, old, settings.cpus, marks);
    steps::show(words, seat, entry.slot, entry.number);
}

/// The rows, as the new entry stands in the old one's place.
pub fn take_place(rows: &mut [KeptSlot], old: u8, entry: Entry, made: Entry)
    requires old { old < length rows.old }
    requires new { made.slot < length rows.old }
    ensures { rows.new ≡ rows_replaced rows.old old entry made }
{
    let rank = rows[old as usize].rank;
    rows[made.slot as usize].make_live(made, rank);
    rows[old as usize].state = SlotState::Retired(entry);
}
