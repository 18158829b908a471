//! The words of a slot that the keeper's seat stores before it links an entry: StoreSlot and StoreNext, a store each.

ghost use Rattle.std.specs.Prelude.{◌≡◌, ◌<◌, ◌≤◌, ◌+◌};
ghost use Rattle.cpu_words.specs.Types.{StoreSlot, StoreNext, Done};
ghost use Rattle.cpu_words.specs.declared.view.View.TheVariants.{Keeper};
ghost use Rattle.cpu_words.specs.Steps.{SeatMakes};
ghost use Rattle.cpu_words.specs.Draining.{MayWrite};
ghost use Rattle.cpu_words.specs.Publishing.{HasRecordWord, HasCountWord, HasLink};

use crate::law::Words;
use crate::layout::{count_place, next_place, record_place};
use crate::operations::hearing;
use crate::seat::KeeperSeat;
use protocol::Event;
use registry_values::MOST_CPUS;
use std::marker::Brand;

/// Stores record word `k` (0 number, 1 kind, 2 and 3 the name, 4 value) of `slot`.
/// Condition: the keeper is at rest, and the slot is vacant.
pub fn store_record(words: &Words, keeper: &mut KeeperSeat, slot: u8, k: u8, value: u64)
    requires table { keeper.old.table ≡ words.now.table }
    requires place { (slot < words.now.settings.slots) × (k < 5) }
    requires may { MayWrite keeper.old.view slot }
    ensures step { SeatMakes Keeper (StoreSlot slot k value) Done keeper.old keeper.new }
    ensures change { HasRecordWord keeper.old.view slot k value keeper.new.view }
{
    let place = record_place(slot as usize, k);
    let event = Event::StoreSlot(slot, k, value);
    hearing::store::<Brand>(words, keeper, place, value, event);
}

/// Stores the count word of CPU `cpu` for `slot`. Condition: as for `store_record`.
pub fn store_count(words: &Words, keeper: &mut KeeperSeat, slot: u8, cpu: u8, value: u64)
    requires table { keeper.old.table ≡ words.now.table }
    requires place { (slot < words.now.settings.slots) × (cpu < keeper.old.view.settings.cpus) × (cpu < words.now.settings.cpus) × (cpu < MOST_CPUS) }
    requires may { MayWrite keeper.old.view slot }
    ensures step { SeatMakes Keeper (StoreSlot slot (5 + cpu) value) Done keeper.old keeper.new }
    ensures change { HasCountWord keeper.old.view slot cpu value keeper.new.view }
{
    let place = count_place(words, cpu, slot);
    let event = Event::StoreSlot(slot, 5 + cpu, value);
    hearing::store::<Brand>(words, keeper, place, value, event);
}

/// Stores the link of `slot`: 0 for the end, else a slot plus 1. Condition: as for `store_record`, and the link is to a slot of the table.
pub fn store_next(words: &Words, keeper: &mut KeeperSeat, slot: u8, link: u64)
    requires table { keeper.old.table ≡ words.now.table }
    requires place { slot < words.now.settings.slots }
    requires link { link ≤ keeper.old.view.settings.slots }
    requires may { MayWrite keeper.old.view slot }
    ensures step { SeatMakes Keeper (StoreNext slot link) Done keeper.old keeper.new }
    ensures change { HasLink keeper.old.view slot link keeper.new.view }
{
    let place = next_place(slot);
    hearing::store::<Brand>(words, keeper, place, link, Event::StoreNext(slot, link));
}
