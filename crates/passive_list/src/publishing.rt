//! An entry is published: all words of its slot are stored, and then the head, so that searches find it. Then it is shown.

ghost use Rattle.std.specs.Prelude.{◌≡◌, ℕ, ◌<◌, ◌≤◌, ◌+◌, suc, Some, IsTrue, false, length};
ghost use Rattle.passive_list.specs.Types.{Vacant};
ghost use Rattle.registry_values.specs.Common.{key_of_record, is_taken, live_count, slot_at, is_key};
ghost use Rattle.protocol.specs.Common.{keeps_rightly, words_of, kept_at};
ghost use Rattle.cpu_words.specs.Common.{IsAttachedKeeping, AreWordsOf, MayWrite};
ghost use Rattle.passive_list.specs.Keepers.{AreSized};
ghost use Rattle.passive_list.specs.Publishing.{MayAttach, HasEntry, HasAttached, LogsAttach, logged_counts, logged_row, logged_stores, with_row, with_counts, keeper_after_stores};

use crate::keeper::{Keeper, KeptSlot};
use crate::links::link_below;
use cpu_words::{KeeperSeat, Words, steps};
use registry_values::{BIAS, Entry, MOST_CPUS, Record, kind_word};

/// Publishes an entry in `slot`: from now on lookups find it, and the history ends with its attach. Its number is how many changes there
/// are then. Returns the entry.
///
/// Conditions:
///
/// - the slot is one of the table's and vacant, and keeps a reference exactly if the kind is Iface;
/// - the name's words aren't both 0, and no live entry has this kind and name;
/// - the history has room for this change and for the detach of each live entry, the new one too.
pub fn publish(words: &Words, keeper: &mut Keeper, slot: u8, rec: Record) -> Entry
    requires words { AreWordsOf words.now keeper.old.words.table keeper.old.words.settings }
    requires vacant { (slot < keeper.old.words.settings.slots) × (slot_at keeper.old.keeper.slots slot ≡ Vacant) }
    requires keeps { IsTrue (keeps_rightly (kept_at keeper.old.keeper.view.keeps slot) rec.kind) }
    requires name { IsTrue (is_key rec.name) }
    requires free { is_taken (key_of_record rec) keeper.old.keeper.slots ≡ false }
    requires room { length keeper.old.keeper.view.history + live_count keeper.old.keeper.slots + 2 ≤ keeper.old.words.settings.change_limit }
    ensures entry { result ≡ record { number = suc (length keeper.old.keeper.view.history); slot = slot; rec = rec } }
    ensures change { HasAttached keeper.old.keeper result keeper.new.keeper }
    ensures log { LogsAttach keeper.old.keeper.view result keeper.old.keeper.log keeper.new.keeper.log }
    ensures words { keeper.new.words ≡ keeper.old.words }
{
    let entry = Entry {
        number: keeper.changes + 1,
        slot,
        rec,
    };
    publish_entry(words, &mut keeper.seat, &keeper.rows, &entry);
    keeper.rows[slot as usize].make_live(entry, entry.number);
    keeper.changes += 1;
    entry
}

/// Publishes the entry by the keeper's seat alone, as `publish` does, when the rows say already what is in each slot: for calls that have
/// made another step with the seat.
/// Condition: that of `publish`, of the seat and the rows; the entry's number is how many changes there are then.
#[tactic(auto, using(protocol::proofs::Cells::slot_here, crate::proofs::Attached::may_publish, crate::proofs::Attached::published_is, crate::proofs::Attached::leads_in))]
pub fn publish_entry(words: &Words, seat: &mut KeeperSeat, rows: &[KeptSlot], entry: &Entry)
    requires table { seat.old.table ≡ words.now.table }
    requires may { MayAttach words.now.settings seat.old.view rows.now entry.now }
    ensures table { seat.new.table ≡ seat.old.table }
    ensures change { HasEntry seat.old.view entry.now seat.new.view }
    ensures log { LogsAttach seat.old.view entry.now seat.old.log seat.new.log }
    ensures attached { (d : ℕ) → kept_at seat.old.view.keeps entry.now.slot ≡ Some d → IsAttachedKeeping entry.now.slot entry.now.number d seat.new.log }
{
    let settings = words.settings();
    let link = link_below(rows, settings.slots, entry.number);
    prepare(words, seat, entry, settings.cpus, link);
    steps::publish(words, seat, entry.slot);
    steps::show(words, seat, entry.slot, entry.number);
}

/// Stores all words of the entry's slot: its record, its counts and its link.
#[tactic(auto, using(crate::proofs::Preparing::row_may, crate::proofs::Preparing::row_settings, crate::proofs::Preparing::sized_after, crate::proofs::Preparing::counts_may, crate::proofs::Preparing::prepared_from))]
pub(crate) fn prepare(words: &Words, seat: &mut KeeperSeat, entry: &Entry, cpus: u8, link: u64)
    requires table { seat.old.table ≡ words.now.table }
    requires may { MayWrite seat.old.view entry.now.slot }
    requires sized { AreSized seat.old.view.settings.slots seat.old.view }
    requires place { entry.now.slot < words.now.settings.slots }
    requires fit { (cpus ≤ words.now.settings.cpus) × (cpus ≡ seat.old.view.settings.cpus) × (cpus ≤ MOST_CPUS) }
    requires link { link ≤ seat.old.view.settings.slots }
    ensures table { seat.new.table ≡ seat.old.table }
    ensures prepared { seat.new.view ≡ keeper_after_stores seat.old.view entry.now link }
    ensures log { seat.new.log ≡ logged_stores cpus entry.now link seat.old.log }
{
    store_row(words, seat, entry);
    store_counts(words, seat, entry.slot, cpus);
    steps::store_next(words, seat, entry.slot, link);
}

fn store_row(words: &Words, seat: &mut KeeperSeat, entry: &Entry)
    requires table { seat.old.table ≡ words.now.table }
    requires may { MayWrite seat.old.view entry.now.slot }
    requires place { entry.now.slot < words.now.settings.slots }
    ensures table { seat.new.table ≡ seat.old.table }
    ensures row { seat.new.view ≡ with_row seat.old.view entry.now.slot (words_of entry.now) }
    ensures log { seat.new.log ≡ logged_row entry.now seat.old.log }
{
    let t = entry.slot;
    let (high, low) = entry.rec.name.words();
    steps::store_record(words, seat, t, 0, entry.number);
    steps::store_record(words, seat, t, 1, kind_word(entry.rec.kind));
    steps::store_record(words, seat, t, 2, high);
    steps::store_record(words, seat, t, 3, low);
    steps::store_record(words, seat, t, 4, entry.rec.value);
}

/// Stores the slot's count words of all CPUs: no reference.
fn store_counts(words: &Words, seat: &mut KeeperSeat, slot: u8, cpus: u8)
    requires table { seat.old.table ≡ words.now.table }
    requires may { MayWrite seat.old.view slot }
    requires sized { AreSized seat.old.view.settings.slots seat.old.view }
    requires place { slot < words.now.settings.slots }
    requires fit { (cpus ≤ words.now.settings.cpus) × (cpus ≡ seat.old.view.settings.cpus) × (cpus ≤ MOST_CPUS) }
    ensures table { seat.new.table ≡ seat.old.table }
    ensures counts { seat.new.view ≡ with_counts seat.old.view slot cpus }
    ensures log { seat.new.log ≡ logged_counts slot cpus seat.old.log }
{
    for c in 0..cpus {
        steps::store_count(words, seat, slot, c, BIAS);
    }
}
