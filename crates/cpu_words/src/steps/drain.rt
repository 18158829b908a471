//! Draining (psref(9), localcount(9)) by the keeper's seat: the passive words of all CPUs are seen to be 0, their count words are collected
//! into the total, and references found collected are given up by the total.

ghost use Rattle.std.specs.Prelude.{◌≡◌, ◌<◌, ℕ};
ghost use Rattle.cpu_words.specs.Types.{Entry, Retired, PassiveLook, Collect, TotalAdd, TotalSub, JoinKeeper, KeptSub, Done, Word};
ghost use Rattle.registry_values.specs.Common.{slot_at};
ghost use Rattle.cpu_words.specs.declared.view.View.TheVariants.{Keeper, Reference};
ghost use Rattle.cpu_words.specs.KeeperLog.{IsFreedFrom};
ghost use Rattle.cpu_words.specs.Rule.{did};
ghost use Rattle.cpu_words.specs.Steps.{JoinsBy, SeatMakes, SeatRegroups};
ghost use Rattle.cpu_words.specs.Draining.{MayPassiveLook, HasLookedPassive, MayCollect, HasCollected, MayTotalAdd, HasAdded, MayTotalSub, HasSubtracted, MayJoinKeeper, keeper_after_join, MayKeptSub, HasKeptSub};

use crate::law::Words;
use crate::layout::{count_place, passive_place, total_place};
use crate::operations::given_up::GivenUp;
use crate::operations::{by_seat, hearing};
use crate::seat::{KeeperSeat, MustJoin, ReferenceSeat};
use protocol::Event;
use std::marker::Brand;

/// Looks at the passive word of CPU `cpu` for the retired entry in `slot`: the CPU is clear if the word is 0. Returns the word, and is
/// counted as a look.
/// Condition: the keeper is at rest, the slot's entry is retired, the CPU is one of the table's, and all CPUs have passed for the slot.
pub fn passive_look(words: &Words, keeper: &mut KeeperSeat, slot: u8, cpu: u8) -> u64
    requires table { keeper.old.table ≡ words.now.table }
    requires place { (cpu < words.now.settings.cpus) × (slot < words.now.settings.slots) }
    requires may { MayPassiveLook keeper.old.view slot cpu }
    ensures step { SeatMakes Keeper (PassiveLook slot cpu) (Word result) keeper.old keeper.new }
    ensures change { HasLookedPassive keeper.old.view slot cpu result keeper.new.view }
{
    by_seat::load::<_, Brand>(
        words,
        keeper,
        passive_place(words, cpu, slot),
        Event::PassiveLook(slot, cpu),
    )
}

/// Collects the count word of CPU `cpu` for the retired entry in `slot`: the word becomes 0, and what it was is to be added to the slot's
/// total. Returns what the word was.
/// Condition: the keeper is at rest, the slot's entry is retired, and the CPU is one of the table's. All CPUs have passed and are clear for
/// the slot, and this CPU's word isn't collected yet.
pub fn collect(words: &Words, keeper: &mut KeeperSeat, slot: u8, cpu: u8) -> u64
    requires table { keeper.old.table ≡ words.now.table }
    requires place { (cpu < words.now.settings.cpus) × (slot < words.now.settings.slots) }
    requires may { MayCollect keeper.old.view slot cpu }
    ensures step { SeatMakes Keeper (Collect slot cpu) (Word result) keeper.old keeper.new }
    ensures change { HasCollected keeper.old.view slot cpu result keeper.new.view }
{
    by_seat::swap::<_, Brand>(
        words,
        keeper,
        count_place(words, cpu, slot),
        0,
        Event::Collect(slot, cpu),
    )
}

/// Adds a collected count word to the total of `slot`: stores `total`, which is the total as the keeper knows it, with the word and less its
/// bias.
/// Condition: the keeper has collected the word, and has not added it yet.
pub fn total_add(words: &Words, keeper: &mut KeeperSeat, slot: u8, total: u64)
    requires table { keeper.old.table ≡ words.now.table }
    requires place { slot < words.now.settings.slots }
    requires may { (old : ℕ) × MayTotalAdd keeper.old.view slot old total }
    ensures step { SeatMakes Keeper (TotalAdd slot) Done keeper.old keeper.new }
    ensures change { HasAdded keeper.old.view slot total keeper.new.view }
{
    hearing::store::<Brand>(
        words,
        keeper,
        total_place(slot),
        total,
        Event::TotalAdd(slot),
    );
}

/// Subtracts the local reference that was given up from the total of `slot`. It isn't counted again: `join_keeper` counted it as given up.
/// Condition: the keeper has taken in a reference to the slot's entry, and has not subtracted it yet.
pub fn total_sub(words: &Words, keeper: &mut KeeperSeat, slot: u8)
    requires table { keeper.old.table ≡ words.now.table }
    requires place { slot < words.now.settings.slots }
    requires may { MayTotalSub keeper.old.view slot }
    ensures step { SeatMakes Keeper (TotalSub slot) Done keeper.old keeper.new }
    ensures change { HasSubtracted keeper.old.view slot keeper.new.view }
{
    hearing::subtract::<Brand>(words, keeper, total_place(slot), 1, Event::TotalSub(slot));
}

/// Gives a local reference up by taking it in: its seat is spent, it counts as given up, by its entry's number, from here on, and it is
/// to be subtracted from the total of its entry's slot.
/// Condition: the keeper is at rest, and a count word was collected for the reference's entry: a release of the reference found it so, or
/// the keeper has collected one.
pub fn join_keeper(words: &Words, keeper: &mut KeeperSeat, reference: ReferenceSeat)
    requires table { (keeper.old.table ≡ words.now.table) × (reference.table ≡ words.now.table) }
    requires may { MayJoinKeeper keeper.old.view reference.view }
    ensures step { SeatRegroups (did (JoinKeeper reference.view.entry.number) Done) keeper.old keeper.new }
    ensures event { JoinsBy JoinKeeper (Keeper keeper.old.view) (Reference reference.view) (Keeper keeper.new.view) }
    ensures change { keeper.new.view ≡ keeper_after_join keeper.old.view reference.view }
{
    let ReferenceSeat {
        token,
        end: MustJoin,
    } = reference;
    words
        .table
        .shared
        .join_seat::<GivenUp>(&mut keeper.token, token);
}

/// The retired interface in `slot` gives up the reference to the driver that it keeps: the total of the driver's slot, `driver_slot`, is one
/// less, and the interface's slot is vacant and keeps nothing. The keeper hears that the entry, which its log has as detached from the slot, has
/// gone from there (`freed`).
/// Condition: the slot is drained, its entry is an interface, and the driver that it keeps is in `driver_slot`.
#[tactic(auto, using(crate::proofs::by_keeper::Vacating::kept_sub_change, crate::proofs::logs::Known::freed_by))]
pub fn kept_sub(words: &Words, keeper: &mut KeeperSeat, slot: u8, driver_slot: u8)
    requires table { keeper.old.table ≡ words.now.table }
    requires place { driver_slot < words.now.settings.slots }
    requires may { MayKeptSub keeper.old.view slot driver_slot }
    ensures step { SeatMakes Keeper (KeptSub slot) Done keeper.old keeper.new }
    ensures change { HasKeptSub keeper.old.view slot driver_slot keeper.new.view }
    ensures freed { (e : Entry) → slot_at keeper.old.view.slots slot ≡ Retired e → IsFreedFrom slot e.number keeper.new.log }
{
    hearing::subtract::<Brand>(
        words,
        keeper,
        total_place(driver_slot),
        1,
        Event::KeptSub(slot),
    );
}
