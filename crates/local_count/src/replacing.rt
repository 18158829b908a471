//! An interface takes the place of a live one, with the local reference that its slot keeps to its driver.

ghost use Rattle.std.specs.Prelude.{◌≡◌, ◌<◌, ◌≤◌, ◌+◌, ◌++◌, suc, length, None};
ghost use Rattle.passive_list.specs.Types.{Entry, Iface, Driver, Keep, Done, Vacant, Live};
ghost use Rattle.registry_values.specs.Common.{live_count, slot_at};
ghost use Rattle.protocol.specs.Common.{kept_at};
ghost use Rattle.cpu_words.specs.Common.{AreWordsOf, did};
ghost use Rattle.passive_list.specs.Common.{LogsReplace};
ghost use Rattle.local_count.specs.Draining.{HasReplacedKeeping};

use crate::plain_ref::PlainRef;
use cpu_words::{Words, steps};
use passive_list::{Keeper, SlotState, replace_entry, take_place};
use registry_values::{Entry, Record};

/// Puts an interface into the place of the live one in `old`, and `slot` keeps the reference to its driver from now on. It does what `replace`
/// does, and spends the reference before the first word is stored. The old interface's slot keeps its driver until it is freed.
///
/// Conditions:
///
/// - the entry in `old` is live, and an interface;
/// - the slot is one of the table's and vacant, and keeps nothing (`Keeper::keeps`);
/// - the reference is of the keeper's table, to a driver, live or retired;
/// - the history has room for this change and for the detach of each live entry, the new one too.
pub fn replace_iface(
    words: &Words,
    keeper: &mut Keeper,
    old: u8,
    slot: u8,
    value: u64,
    reference: PlainRef,
) -> (Entry, Entry)
    requires words { AreWordsOf words.now keeper.old.words.table keeper.old.words.settings }
    requires reference { reference.table ≡ keeper.old.words.table }
    requires live { (f : Entry) × (slot_at keeper.old.keeper.slots old ≡ Live f) × (f.rec.kind ≡ Iface) }
    requires vacant { (slot < keeper.old.words.settings.slots) × (slot_at keeper.old.keeper.slots slot ≡ Vacant) }
    requires nothing { kept_at keeper.old.keeper.view.keeps slot ≡ None }
    requires driver { reference.reference.entry.rec.kind ≡ Driver }
    requires room { length keeper.old.keeper.view.history + live_count keeper.old.keeper.slots + 2 ≤ keeper.old.words.settings.change_limit }
    ensures old { slot_at keeper.old.keeper.slots old ≡ Live result.0 }
    ensures new { result.1 ≡ record { number = suc (length keeper.old.keeper.view.history); slot = slot; rec = record result.0.rec { value = value } } }
    ensures change { HasReplacedKeeping keeper.old.keeper reference.reference old result.0 result.1 keeper.new.keeper }
    ensures log { LogsReplace keeper.old.keeper.view old result.1 (keeper.old.keeper.log ++ did (Keep slot reference.reference.entry.number) Done) keeper.new.keeper.log }
    ensures words { keeper.new.words ≡ keeper.old.words }
{
    let SlotState::Live(entry) = keeper.rows[old as usize].state else {
        unreachable!()
    };
    let PlainRef {
        seat,
        number,
        slot: _,
        kind: _,
    } = reference;
    let made = Entry {
        number: keeper.changes + 1,
        slot,
        rec: Record { value, ..entry.rec },
    };
    steps::keep(words, &mut keeper.seat, slot, seat);
    keeper.rows[slot as usize].keeps = Some(number);
    replace_entry(
        words,
        &mut keeper.seat,
        &keeper.rows,
        &mut keeper.marks,
        old,
        &made,
    );
    take_place(&mut keeper.rows, old, entry, made);
    keeper.changes += 1;
    (entry, made)
}
