//! A retired and drained interface is freed: it gives the reference to its driver up.

ghost use Rattle.std.specs.Prelude.{◌≡◌};
ghost use Rattle.cpu_words.specs.Common.{AreWordsOf};
ghost use Rattle.passive_list.specs.Common.{IsDrainedOn};
ghost use Rattle.passive_list.specs.Types.{Entry, Iface, Retired};
ghost use Rattle.registry_values.specs.Common.{slot_at};
ghost use Rattle.local_count.specs.Draining.{HasFreed, kept_slot, place_of};

use cpu_words::{Words, steps};
use passive_list::{Keeper, KeptSlot, SlotState};
use registry_values::has_number;

/// Frees the slot of a retired and drained interface: the reference to its driver is given up in the same step.
/// Condition: the slot is drained (`Keeper::is_drained`), and its entry is an interface.
pub fn free_iface(words: &Words, keeper: &mut Keeper, slot: u8)
    requires words { AreWordsOf words.now keeper.old.words.table keeper.old.words.settings }
    requires drained { IsDrainedOn keeper.old.keeper slot }
    requires iface { (e : Entry) × (slot_at keeper.old.keeper.slots slot ≡ Retired e) × (e.rec.kind ≡ Iface) }
    ensures change { HasFreed keeper.old.keeper slot keeper.new.keeper }
    ensures words { keeper.new.words ≡ keeper.old.words }
{
    let row = keeper.rows[slot as usize];
    let Some(driver_slot) = kept_slot(row.keeps, &keeper.rows) else {
        unreachable!()
    };
    steps::kept_sub(words, &mut keeper.seat, slot, driver_slot as u8);
    let total = keeper.rows[driver_slot].total_or_bias() - 1;
    keeper.rows[driver_slot].total = Some(total);
    keeper.rows[slot as usize] = KeptSlot {
        state: SlotState::Vacant,
        keeps: None,
        ..row
    };
}

/// The slot whose live or retired entry has the number kept.
fn kept_slot(keeps: Option<u64>, rows: &[KeptSlot]) -> Option<usize>
    ensures { result ≡ kept_slot keeps rows.now }
{
    match keeps {
        None => None,
        Some(number) => place_of(number, rows),
    }
}

/// The slot whose live or retired entry has this number.
fn place_of(number: u64, rows: &[KeptSlot]) -> Option<usize>
    ensures { result ≡ place_of number rows.now }
{
    rows.iter().position(|row| has_number(number, &row.state))
}
