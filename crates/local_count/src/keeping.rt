//! An interface is published with the local reference that its slot keeps to its driver.

ghost use Rattle.std.specs.Prelude.{◌≡◌, ◌<◌, ◌≤◌, ◌+◌, ◌++◌, suc, IsTrue, false, length, None};
ghost use Rattle.passive_list.specs.Types.{Iface, Driver, Keep, Done, Vacant};
ghost use Rattle.registry_values.specs.Common.{key_of_record, is_taken, live_count, slot_at, is_key};
ghost use Rattle.protocol.specs.Common.{kept_at};
ghost use Rattle.cpu_words.specs.Common.{AreWordsOf, did};
ghost use Rattle.passive_list.specs.Common.{LogsAttach};
ghost use Rattle.local_count.specs.Draining.{HasAttachedKeeping};

use crate::plain_ref::PlainRef;
use cpu_words::{Words, steps};
use passive_list::{Keeper, publish_entry};
use registry_values::{Entry, Record};

/// Publishes an interface in `slot`, which keeps the reference to its driver from now on. It does what `publish` does, and spends the
/// reference before the first word is stored. Returns the entry.
///
/// Conditions:
///
/// - the slot is one of the table's and vacant, and keeps nothing (`Keeper::keeps`);
/// - the record's kind is Iface, its name's words aren't both 0, and no live entry has this kind and name;
/// - the reference is of the keeper's table, to a driver, live or retired;
/// - the history has room for this change and for the detach of each live entry, the new one too.
pub fn publish_iface(
    words: &Words,
    keeper: &mut Keeper,
    slot: u8,
    rec: Record,
    reference: PlainRef,
) -> Entry
    requires words { AreWordsOf words.now keeper.old.words.table keeper.old.words.settings }
    requires reference { reference.table ≡ keeper.old.words.table }
    requires vacant { (slot < keeper.old.words.settings.slots) × (slot_at keeper.old.keeper.slots slot ≡ Vacant) }
    requires nothing { kept_at keeper.old.keeper.view.keeps slot ≡ None }
    requires kind { rec.kind ≡ Iface }
    requires driver { reference.reference.entry.rec.kind ≡ Driver }
    requires name { IsTrue (is_key rec.name) }
    requires free { is_taken (key_of_record rec) keeper.old.keeper.slots ≡ false }
    requires room { length keeper.old.keeper.view.history + live_count keeper.old.keeper.slots + 2 ≤ keeper.old.words.settings.change_limit }
    ensures entry { result ≡ record { number = suc (length keeper.old.keeper.view.history); slot = slot; rec = rec } }
    ensures change { HasAttachedKeeping keeper.old.keeper reference.reference result keeper.new.keeper }
    ensures log { LogsAttach keeper.old.keeper.view result (keeper.old.keeper.log ++ did (Keep slot reference.reference.entry.number) Done) keeper.new.keeper.log }
    ensures words { keeper.new.words ≡ keeper.old.words }
{
    let PlainRef {
        seat,
        number,
        slot: _,
        kind: _,
    } = reference;
    let entry = Entry {
        number: keeper.changes + 1,
        slot,
        rec,
    };
    steps::keep(words, &mut keeper.seat, slot, seat);
    keeper.rows[slot as usize].keeps = Some(number);
    publish_entry(words, &mut keeper.seat, &keeper.rows, &entry);
    keeper.rows[slot as usize].make_live(entry, entry.number);
    keeper.changes += 1;
    entry
}
