//! The entry that an attach makes, by the keeper's rows.

ghost use Rattle.std.specs.Prelude.{◌≡◌, ◌<◌, ◌≤◌, IfOk, IfSome, length, take, position};
ghost use Rattle.std.specs.List.{list_any};
ghost use Rattle.registry_values.specs.Common.{key_of_record, is_taken, live_count};
ghost use Rattle.passive_list.specs.Common.{states_of};
ghost use Rattle.name_registry.specs.Changes.{given_entry, first_fit, room_answer, room_of, slot_answer};
ghost use Rattle.name_registry.specs.Locking.{is_live_row, is_available_row};

use passive_list::{Keeper, KeptSlot};
use registry_values::{
    Entry, Key, Record, Refusal, Room, given_entry, has_room, is_available, is_live, is_live_as,
};

/// The entry that an attach of the record makes. Refused, in this order: `NameTaken`, `NoSlot`, `HistoryFull`.
pub(crate) fn entry_for(keeper: &Keeper, rec: Record) -> Result<Entry, Refusal>
    ensures value { result ≡ given_entry keeper.now.words.settings keeper.now.keeper rec }
    ensures within { IfOk result (λ entry. entry.slot < keeper.now.words.settings.slots) }
{
    given_entry(rec, is_taken(keeper, rec), first_fit(keeper), room(keeper))
}

/// Whether an attach has room, if no live entry has its kind and name. Refused, in this order: `NoSlot`, `HistoryFull`.
pub fn room_in(keeper: &Keeper) -> Result<(), Refusal>
    ensures { result ≡ room_answer keeper.now.words.settings keeper.now.keeper }
{
    match slot_for(keeper) {
        Ok(_) => Ok(()),
        Err(refusal) => Err(refusal),
    }
}

/// The slot of a new entry, if it has room. Refused, in this order: `NoSlot`, `HistoryFull`.
pub(crate) fn slot_for(keeper: &Keeper) -> Result<u8, Refusal>
    ensures value { result ≡ slot_answer keeper.now.words.settings keeper.now.keeper }
    ensures within { IfOk result (λ t. t < keeper.now.words.settings.slots) }
{
    let Some(slot) = first_fit(keeper) else {
        return Err(Refusal::NoSlot);
    };
    if !has_room(room(keeper)) {
        return Err(Refusal::HistoryFull);
    }
    Ok(slot)
}

/// Whether a live entry has the record's kind and name.
#[tactic(auto, using(passive_list::proofs::Rows::taken_in_rows))]
fn is_taken(keeper: &Keeper, rec: Record) -> bool
    ensures { result ≡ is_taken (key_of_record rec) keeper.now.keeper.slots }
{
    let key = Key {
        kind: rec.kind,
        name: rec.name,
    };
    is_live_in(keeper.rows(), key)
}

fn is_live_in(rows: &[KeptSlot], key: Key) -> bool
    ensures { result ≡ list_any (is_live_row key) rows.now }
{
    rows.iter().any(|row| is_live_as(key, &row.state))
}

/// The lowest-numbered slot that is vacant and keeps nothing.
fn first_fit(keeper: &Keeper) -> Option<u8>
    ensures value { result ≡ first_fit keeper.now.keeper }
    ensures within { IfSome result (λ t. t < keeper.now.words.settings.slots) }
{
    match first_fit_place(keeper.rows(), keeper.settings().slots) {
        Some(slot) => Some(slot as u8),
        None => None,
    }
}

fn first_fit_place(rows: &[KeptSlot], slots: u8) -> Option<usize>
    ensures value { result ≡ position is_available_row (take slots rows.now) }
    ensures within { IfSome result (λ t. t < slots) }
{
    rows.iter()
        .take(slots as usize)
        .position(|row| is_available(&row.state, row.keeps))
}

/// What an attach asks of the history.
fn room(keeper: &Keeper) -> Room
    ensures { result ≡ room_of keeper.now.words.settings keeper.now.keeper }
{
    Room {
        changes: keeper.changes(),
        live: live_count(keeper.rows()) as u8,
        limit: keeper.settings().change_limit,
    }
}

fn live_count(rows: &[KeptSlot]) -> usize
    ensures value { result ≡ live_count (states_of rows.now) }
    ensures within { result ≤ length rows.now }
{
    rows.iter().filter(|row| is_live(&row.state)).count()
}
