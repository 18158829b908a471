//! The work on a retired entry, for a caller that holds the keeper: one turn, up to the first obstacle.

ghost use Rattle.std.specs.Prelude.{◌≡◌, ◌≢◌, ◌<◌, IfOk, IfSome, None, position, true, false};
ghost use Rattle.name_registry.specs.Types.{Entry, Retired};
ghost use Rattle.registry_values.specs.Common.{retired_slot, slot_at};
ghost use Rattle.protocol.specs.Common.{mark_at};
ghost use Rattle.cpu_words.specs.Common.{AreWordsOf};
ghost use Rattle.passive_list.specs.Common.{IsDrainedOn, GoesOnBy};
ghost use Rattle.name_registry.specs.Destroying.{HasAdvanced, IsGoneIfFreed, Meets, MeetsGrace, MeetsPassive, HasLookedFor, HasWorkedFor, IsLook, LooksBelow, LooksUnless, MayWork, SeesSection, SeesPassive, Settles, HasEnded, PassedBelow, ClearBelow, CollectedBelow, is_retired_row, looked_at};
ghost use Rattle.name_registry.specs.Locking.{IsStageOf};

use cpu_words::Words;
use local_count::{collect, collected, free_iface, total};
use passive_list::{Keeper, KeptSlot, look, vacate};
use passive_ref::look_passive;
use registry_values::{Refusal, Stage, is_retired_as, settled};

/// Makes one turn of the work on the retired entry `number`, up to the first obstacle, lowest-numbered CPU first. Returns what it met:
///
/// - `Grace`: the CPU's section that was open as the detach took its snapshot is still open (pserialize(9)).
/// - `Passive`: the CPU has a passive reference to the entry (psref(9)), or tries to get one in its slot.
/// - `Local`: so many local references to it are left, at least 1 (localcount(9)). All count words are collected then.
/// - `Freed`: nothing; the slot, from 0, is vacant now.
///
/// After `Freed` nothing holds the entry, now or later, by the keeper's log (`gone`) and the law `running_headline` (`freed`). Nothing is proved of
/// memory that its value points to.
///
/// Refused: `NotRetired` if no slot has the retired entry `number`; nothing has changed then.
pub fn advance_in(words: &Words, keeper: &mut Keeper, number: u64) -> Result<Stage, Refusal>
    requires words { AreWordsOf words.now keeper.old.words.table keeper.old.words.settings }
    ensures answer { HasAdvanced keeper.old.keeper number result keeper.new.keeper }
    ensures stage { IfOk result (λ stage. IsStageOf keeper.old.words.settings stage) }
    ensures gone { IsGoneIfFreed number result keeper.new.keeper.log }
    ensures words { keeper.new.words ≡ keeper.old.words }
{
    let Some(slot) = retired_place(keeper, number) else {
        return Err(Refusal::NotRetired);
    };
    Ok(advance_slot(words, keeper, slot))
}

/// The slot of the retired entry with this number.
fn retired_place(keeper: &Keeper, number: u64) -> Option<u8>
    ensures value { result ≡ retired_slot keeper.now.keeper.slots number }
    ensures works { IfSome result (λ t. MayWork keeper.now.words.settings keeper.now.keeper t) }
{
    match place_retired_as(keeper.rows(), number) {
        Some(slot) => Some(slot as u8),
        None => None,
    }
}

fn place_retired_as(rows: &[KeptSlot], number: u64) -> Option<usize>
    ensures { result ≡ position (is_retired_row number) rows.now }
{
    rows.iter()
        .position(|row| is_retired_as(number, &row.state))
}

/// The work on the slot's retired entry, up to the first obstacle.
fn advance_slot(words: &Words, keeper: &mut Keeper, slot: u8) -> Stage
    requires words { AreWordsOf words.now keeper.old.words.table keeper.old.words.settings }
    requires works { MayWork words.now.settings keeper.old.keeper slot }
    ensures meets { Meets keeper.old.keeper slot result keeper.new.keeper }
    ensures words { keeper.new.words ≡ keeper.old.words }
{
    if let Some(cpu) = look_at_all(words, keeper, slot) {
        return Stage::Grace(cpu);
    }
    if let Some(cpu) = look_at_passive(words, keeper, slot) {
        return Stage::Passive(cpu);
    }
    collect_all(words, keeper, slot);
    settle(words, keeper, slot)
}

/// Looks once at the section word of each CPU that hasn't passed for the slot's retired entry, up to the first that doesn't pass, and returns that
/// CPU. The keeper's log goes on by these looks alone.
pub(crate) fn look_at_all(words: &Words, keeper: &mut Keeper, slot: u8) -> Option<u8>
    requires words { AreWordsOf words.now keeper.old.words.table keeper.old.words.settings }
    requires retired { (e : Entry) × (slot_at keeper.old.keeper.slots slot ≡ Retired e) }
    ensures met { IfSome result (λ c. MeetsGrace keeper.old.keeper slot c keeper.new.keeper) }
    ensures passed { result ≡ None → PassedBelow keeper.new.keeper.view slot words.now.settings.cpus }
    ensures leaves { HasLookedFor keeper.old.keeper slot keeper.new.keeper }
    ensures looks { LooksBelow (looked_at words.now.settings.cpus result) keeper.old.keeper slot keeper.new.keeper }
    ensures log { GoesOnBy (IsLook slot) keeper.old.keeper.log keeper.new.keeper.log }
    ensures words { keeper.new.words ≡ keeper.old.words }
{
    for cpu in 0..keeper.settings().cpus {
        if !passes(words, keeper, slot, cpu) {
            return Some(cpu);
        }
    }
    None
}

/// Whether the CPU has passed, by an earlier look or by this one.
fn passes(words: &Words, keeper: &mut Keeper, slot: u8, cpu: u8) -> bool
    requires words { AreWordsOf words.now keeper.old.words.table keeper.old.words.settings }
    requires works { MayWork words.now.settings keeper.old.keeper slot }
    requires cpu { cpu < words.now.settings.cpus }
    ensures passed { result ≡ (mark_at keeper.new.keeper.view.marks slot cpu).passed }
    ensures sees { result ≡ false → SeesSection keeper.old.keeper slot cpu keeper.new.keeper }
    ensures leaves { HasLookedFor keeper.old.keeper slot keeper.new.keeper }
    ensures looks { LooksUnless (mark_at keeper.old.keeper.view.marks slot cpu).passed keeper.old.keeper slot cpu keeper.new.keeper }
    ensures words { keeper.new.words ≡ keeper.old.words }
{
    if keeper.mark(slot, cpu).passed {
        return true;
    }
    look(words, keeper, slot, cpu)
}

/// Looks at the passive word of each CPU that isn't clear for the slot's retired entry, up to the first that doesn't become clear: it is
/// the answer.
fn look_at_passive(words: &Words, keeper: &mut Keeper, slot: u8) -> Option<u8>
    requires words { AreWordsOf words.now keeper.old.words.table keeper.old.words.settings }
    requires works { MayWork words.now.settings keeper.old.keeper slot }
    requires passed { PassedBelow keeper.old.keeper.view slot words.now.settings.cpus }
    ensures met { IfSome result (λ c. MeetsPassive keeper.old.keeper slot c keeper.new.keeper) }
    ensures clear { result ≡ None → ClearBelow keeper.new.keeper.view slot words.now.settings.cpus }
    ensures leaves { HasLookedFor keeper.old.keeper slot keeper.new.keeper }
    ensures words { keeper.new.words ≡ keeper.old.words }
{
    for cpu in 0..keeper.settings().cpus {
        if !clears(words, keeper, slot, cpu) {
            return Some(cpu);
        }
    }
    None
}

/// Whether the CPU is clear, by an earlier look or by this one.
#[tactic(auto, using(crate::proofs::Worked::sees_passive, crate::proofs::Worked::looked_none, crate::proofs::Worked::all_passed))]
fn clears(words: &Words, keeper: &mut Keeper, slot: u8, cpu: u8) -> bool
    requires words { AreWordsOf words.now keeper.old.words.table keeper.old.words.settings }
    requires works { MayWork words.now.settings keeper.old.keeper slot }
    requires passed { PassedBelow keeper.old.keeper.view slot words.now.settings.cpus }
    requires cpu { cpu < words.now.settings.cpus }
    ensures clear { result ≡ (mark_at keeper.new.keeper.view.marks slot cpu).clear }
    ensures sees { result ≡ false → SeesPassive keeper.old.keeper slot cpu keeper.new.keeper }
    ensures leaves { HasLookedFor keeper.old.keeper slot keeper.new.keeper }
    ensures words { keeper.new.words ≡ keeper.old.words }
{
    if keeper.mark(slot, cpu).clear {
        return true;
    }
    look_passive(words, keeper, slot, cpu)
}

/// Collects the count words of all CPUs for the slot's retired entry that aren't collected yet.
fn collect_all(words: &Words, keeper: &mut Keeper, slot: u8)
    requires words { AreWordsOf words.now keeper.old.words.table keeper.old.words.settings }
    requires works { MayWork words.now.settings keeper.old.keeper slot }
    requires passed { PassedBelow keeper.old.keeper.view slot words.now.settings.cpus }
    requires clear { ClearBelow keeper.old.keeper.view slot words.now.settings.cpus }
    ensures collected { CollectedBelow keeper.new.keeper.view slot words.now.settings.cpus }
    ensures leaves { HasWorkedFor keeper.old.keeper slot keeper.new.keeper }
    ensures words { keeper.new.words ≡ keeper.old.words }
{
    for cpu in 0..keeper.settings().cpus {
        collect_one(words, keeper, slot, cpu);
    }
}

/// Collects the count word of the CPU, if that isn't done yet.
#[tactic(auto, using(crate::proofs::Worked::worked_none, crate::proofs::Worked::collection_marks, crate::proofs::Worked::all_passed, crate::proofs::Worked::all_clear))]
fn collect_one(words: &Words, keeper: &mut Keeper, slot: u8, cpu: u8)
    requires words { AreWordsOf words.now keeper.old.words.table keeper.old.words.settings }
    requires works { MayWork words.now.settings keeper.old.keeper slot }
    requires passed { PassedBelow keeper.old.keeper.view slot words.now.settings.cpus }
    requires clear { ClearBelow keeper.old.keeper.view slot words.now.settings.cpus }
    requires cpu { cpu < words.now.settings.cpus }
    ensures collected { (mark_at keeper.new.keeper.view.marks slot cpu).collected ≡ true }
    ensures leaves { HasWorkedFor keeper.old.keeper slot keeper.new.keeper }
    ensures words { keeper.new.words ≡ keeper.old.words }
{
    if collected(keeper, slot, cpu) {
        return;
    }
    collect(words, keeper, slot, cpu);
}

/// Frees the slot, whose count words are all collected, where no local reference to its entry is held.
#[tactic(auto, using(passive_list::proofs::Rows::keeper_is, crate::proofs::Worked::all_passed, crate::proofs::Worked::all_clear, crate::proofs::Worked::all_collected, crate::proofs::Worked::is_drained, crate::proofs::Worked::settled_held, crate::proofs::Worked::settled_free))]
fn settle(words: &Words, keeper: &mut Keeper, slot: u8) -> Stage
    requires words { AreWordsOf words.now keeper.old.words.table keeper.old.words.settings }
    requires works { MayWork words.now.settings keeper.old.keeper slot }
    requires passed { PassedBelow keeper.old.keeper.view slot words.now.settings.cpus }
    requires clear { ClearBelow keeper.old.keeper.view slot words.now.settings.cpus }
    requires collected { CollectedBelow keeper.old.keeper.view slot words.now.settings.cpus }
    ensures settles { Settles keeper.old.keeper slot result keeper.new.keeper }
    ensures words { keeper.new.words ≡ keeper.old.words }
{
    let held = total(words, keeper, slot);
    let stage = settled(held, slot);
    if held != 0 {
        return stage;
    }
    free(words, keeper, slot);
    stage
}

/// Makes the drained slot vacant; where it keeps a reference to a driver, that is given up. The keeper hears as it does so, so by its log the
/// entry is gone from there.
fn free(words: &Words, keeper: &mut Keeper, slot: u8)
    requires words { AreWordsOf words.now keeper.old.words.table keeper.old.words.settings }
    requires works { MayWork words.now.settings keeper.old.keeper slot }
    requires drained { IsDrainedOn keeper.old.keeper slot }
    ensures ended { HasEnded keeper.old.keeper slot keeper.new.keeper }
    ensures words { keeper.new.words ≡ keeper.old.words }
{
    if keeper.keeps(slot).is_some() {
        free_iface(words, keeper, slot);
        return;
    }
    vacate(words, keeper, slot);
}
