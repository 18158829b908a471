//! Passive references (psref(9)): acquired, copied and released on one CPU, by one step each on a word of its own.

ghost use Rattle.std.specs.Prelude.{◌≡◌, ◌≢◌, ◌<◌, IfErr, IfSome, IsTrue, None, Ok, false};
ghost use Rattle.registry_values.specs.Common.{Answers};
ghost use Rattle.cpu_words.specs.Common.{AreWordsOf, key_with, references_to};
ghost use Rattle.passive_list.specs.Common.{IsFoundLast};
ghost use Rattle.passive_ref.specs.{AcquiresEntry, AcquiresLast, AcquiresSought, CopiesOwn, MayRefer, IsHeldAt, IsAcquired, IsCopied, IsAdded, HasOneLess, GivesBack, why_full, why_unusable, why_not_acquired, why_not_copied};

use crate::holding::{count_of, counts_at, slot_of, usable_slot};
use crate::psref::Psref;
use cpu_words::{Domain, Words, steps};
use passive_list::{Cpu, NumberedCount, PlainCpu, find_inside_on, is_found_last, is_open_last};
use registry_values::{Kind, Name, Refusal, why_full};

/// Acquires a passive reference to this CPU's last found entry (psref(9)). It outlives the section, and the entry keeps its slot until it
/// is released.
/// Refused, in this order, and nothing has changed: `NothingFound` if this CPU has no last found entry; `PassiveFull` if it has
/// `passive_limit` references to that entry.
#[inline(always)]
pub fn acquire<D: Domain>(words: &Words, cpu: &mut Cpu<D>) -> Result<Psref, Refusal>
    requires words { AreWordsOf words.now D.table D.settings }
    ensures answer { Answers (why_not_acquired cpu.old.view cpu.old.view.found) (IsAcquired cpu.old cpu.new) result }
    ensures refused { IfErr result (λ _. cpu.new ≡ cpu.old) }
{
    acquire_on(words, &mut cpu.plain)
}

/// `acquire` on a CPU that names its own table. Condition: the words are its table's.
#[inline(always)]
pub fn acquire_on(words: &Words, cpu: &mut PlainCpu) -> Result<Psref, Refusal>
    requires words { AreWordsOf words.now cpu.old.words.table cpu.old.words.settings }
    ensures answer { Answers (why_not_acquired cpu.old.cpu.view cpu.old.cpu.view.found) (IsAcquired cpu.old.cpu cpu.new.cpu) result }
    ensures refused { IfErr result (λ _. cpu.new ≡ cpu.old) }
    ensures words { cpu.new.words ≡ cpu.old.words }
{
    let found = cpu.found;
    if found.number == 0 {
        return Err(Refusal::NothingFound);
    }
    add(words, cpu, found.slot, found.number)
}

/// The fast path of `acquire_entry`: acquires a passive reference to the last found entry, if that has this number and the CPU may have one more.
/// Its fields stay in registers, since there is no refusal beside them. `None` says nothing, and the CPU is as before: `acquire_entry` follows.
/// Condition: the words are the CPU's table's.
#[inline(always)]
pub fn acquire_last(words: &Words, cpu: &mut PlainCpu, number: u64) -> Option<Psref>
    requires words { AreWordsOf words.now cpu.old.words.table cpu.old.words.settings }
    ensures acquired { IfSome result (λ p. AcquiresLast number cpu.old.cpu cpu.new.cpu (Ok p)) }
    ensures inside { IfSome result (λ _. cpu.old.cpu.view.begin ≢ None) }
    ensures none { result ≡ None → cpu.new.cpu ≡ cpu.old.cpu }
    ensures words { cpu.new.words ≡ cpu.old.words }
{
    if number == 0 {
        return None;
    }
    if !is_open_last(cpu, number) {
        return None;
    }
    match acquire_on(words, cpu) {
        Ok(psref) => Some(psref),
        Err(_) => None,
    }
}

/// Acquires a passive reference to the entry with that number, and to no other entry: to the last found entry, if it is that one; by the CPU's own
/// reference to it, if the place of the slot `hint` counts one; else by a lookup of the kind and the name, if that finds it, or if the CPU has a
/// reference to it all the same.
/// Conditions: the words are the CPU's table's; inside.
/// Refused: `NotFound` if the entry is none of these; `PassiveFull` if the CPU has `passive_limit` references to it. Nothing is acquired then.
pub fn acquire_entry(
    words: &Words,
    cpu: &mut PlainCpu,
    number: u64,
    hint: u8,
    kind: Kind,
    name: Name,
) -> Result<Psref, Refusal>
    requires words { AreWordsOf words.now cpu.old.words.table cpu.old.words.settings }
    requires inside { cpu.old.cpu.view.begin ≢ None }
    ensures acquired { AcquiresEntry number (key_with kind name) cpu.old.cpu cpu.new.cpu result }
    ensures words { cpu.new.words ≡ cpu.old.words }
{
    if is_found_last(cpu, number) {
        return acquire_on(words, cpu);
    }
    if counts_at(cpu, hint, number) {
        return copy_at(words, cpu, hint, number);
    }
    acquire_sought(words, cpu, number, kind, name)
}

/// What `acquire_entry` does by a lookup. Conditions: inside; the entry isn't the last found one.
#[inline(never)]
fn acquire_sought(
    words: &Words,
    cpu: &mut PlainCpu,
    number: u64,
    kind: Kind,
    name: Name,
) -> Result<Psref, Refusal>
    requires words { AreWordsOf words.now cpu.old.words.table cpu.old.words.settings }
    requires inside { cpu.old.cpu.view.begin ≢ None }
    requires other { IsFoundLast cpu.old.cpu.view number → ⊥ }
    ensures sought { AcquiresSought number (key_with kind name) cpu.old.cpu cpu.new.cpu result }
    ensures words { cpu.new.words ≡ cpu.old.words }
{
    find_inside_on(words, cpu, kind, name);
    if is_found_last(cpu, number) {
        return acquire_on(words, cpu);
    }
    match slot_of(cpu, number) {
        Some(slot) => copy_at(words, cpu, slot, number),
        None => Err(Refusal::NotFound),
    }
}

/// Acquires one more reference to an entry of that slot that the CPU refers to.
#[inline(always)]
#[tactic(auto, using(crate::proofs::Changing::copied, crate::proofs::Changing::held_some))]
fn copy_at(words: &Words, cpu: &mut PlainCpu, slot: u8, number: u64) -> Result<Psref, Refusal>
    requires words { AreWordsOf words.now cpu.old.words.table cpu.old.words.settings }
    requires held { IsHeldAt cpu.old.cpu.view slot number }
    ensures copied { CopiesOwn number cpu.old.cpu cpu.new.cpu result }
    ensures words { cpu.new.words ≡ cpu.old.words }
{
    add(words, cpu, slot, number)
}

/// Acquires a second reference on the first one's CPU, to the same entry; each is released by itself (psref(9)). It needs no section.
/// Refused, in this order, and nothing has changed: `WrongCpu` if the reference names another CPU; `NotHeld` if this CPU holds no passive
/// reference to that number; `PassiveFull` if it has `passive_limit` of them.
pub fn copy<D: Domain>(words: &Words, cpu: &mut Cpu<D>, psref: &Psref) -> Result<Psref, Refusal>
    requires words { AreWordsOf words.now D.table D.settings }
    ensures answer { Answers (why_not_copied cpu.old.view psref.now.number (why_unusable cpu.old.view psref.now)) (IsCopied psref.now.number cpu.old cpu.new) result }
    ensures refused { IfErr result (λ _. cpu.new ≡ cpu.old) }
{
    copy_on(words, &mut cpu.plain, psref)
}

/// `copy` on a CPU that names its own table. Condition: the words are its table's.
pub fn copy_on(words: &Words, cpu: &mut PlainCpu, psref: &Psref) -> Result<Psref, Refusal>
    requires words { AreWordsOf words.now cpu.old.words.table cpu.old.words.settings }
    ensures answer { Answers (why_not_copied cpu.old.cpu.view psref.now.number (why_unusable cpu.old.cpu.view psref.now)) (IsCopied psref.now.number cpu.old.cpu cpu.new.cpu) result }
    ensures refused { IfErr result (λ _. cpu.new ≡ cpu.old) }
    ensures words { cpu.new.words ≡ cpu.old.words }
{
    let slot = usable_slot(cpu, psref)?;
    add(words, cpu, slot, psref.number)
}

/// Releases a passive reference, on the CPU that it was acquired on (psref(9)). It needs no section.
/// Refused, in this order, and nothing has changed: `WrongCpu` if the reference names another CPU; `NotHeld` if this CPU holds no passive
/// reference to that number. The reference comes back with the refusal.
#[inline(always)]
pub fn release<D: Domain>(
    words: &Words,
    cpu: &mut Cpu<D>,
    psref: Psref,
) -> Result<(), (Refusal, Psref)>
    requires words { AreWordsOf words.now D.table D.settings }
    ensures answer { GivesBack (why_unusable cpu.old.view psref) psref (λ _. HasOneLess psref.number cpu.old cpu.new) result }
    ensures refused { IfErr result (λ _. cpu.new ≡ cpu.old) }
{
    release_on(words, &mut cpu.plain, psref)
}

/// `release` on a CPU that names its own table. Condition: the words are its table's.
#[inline(always)]
pub fn release_on(words: &Words, cpu: &mut PlainCpu, psref: Psref) -> Result<(), (Refusal, Psref)>
    requires words { AreWordsOf words.now cpu.old.words.table cpu.old.words.settings }
    ensures answer { GivesBack (why_unusable cpu.old.cpu.view psref) psref (λ _. HasOneLess psref.number cpu.old.cpu cpu.new.cpu) result }
    ensures refused { IfErr result (λ _. cpu.new ≡ cpu.old) }
    ensures words { cpu.new.words ≡ cpu.old.words }
{
    match usable_slot(cpu, &psref) {
        Ok(slot) => {
            subtract(words, cpu, slot, psref.number);
            psref.forget();
            Ok(())
        }
        Err(refusal) => Err((refusal, psref)),
    }
}

/// Releases a reference to that number if the slot `hint` has the entry that it is to, and returns whether it did. `false` says nothing, and nothing
/// has changed. Condition: the words are the CPU's table's.
#[inline(always)]
#[tactic(auto, using(crate::proofs::Changing::held_begun))]
pub fn release_at(words: &Words, cpu: &mut PlainCpu, hint: u8, number: u64) -> bool
    requires words { AreWordsOf words.now cpu.old.words.table cpu.old.words.settings }
    ensures released { IsTrue result → (0 < references_to number cpu.old.cpu.view.references) × HasOneLess number cpu.old.cpu cpu.new.cpu }
    ensures begun { IsTrue result → 0 < number }
    ensures refused { result ≡ false → cpu.new ≡ cpu.old }
    ensures words { cpu.new.words ≡ cpu.old.words }
{
    if counts_at(cpu, hint, number) {
        subtract(words, cpu, hint, number);
        return true;
    }
    false
}

/// Adds one reference to an entry that this CPU found last or refers to, unless it has as many as it may.
#[inline(always)]
#[tactic(auto, using(crate::proofs::Changing::within))]
fn add(words: &Words, cpu: &mut PlainCpu, slot: u8, number: u64) -> Result<Psref, Refusal>
    requires words { AreWordsOf words.now cpu.old.words.table cpu.old.words.settings }
    requires known { MayRefer cpu.old.cpu.view slot number }
    ensures answer { Answers (why_full cpu.old.cpu.view number) (IsAdded slot number cpu.old.cpu cpu.new.cpu) result }
    ensures refused { IfErr result (λ _. cpu.new ≡ cpu.old) }
    ensures words { cpu.new.words ≡ cpu.old.words }
{
    let count = count_of(cpu, slot, number);
    if let Some(refusal) = why_full(count, words.settings().passive_limit) {
        return Err(refusal);
    }
    steps::passive_add(words, &mut cpu.seat, cpu.row, slot, number);
    cpu.passive[slot as usize] = NumberedCount {
        number,
        count: count + 1,
    };
    Ok(Psref {
        cpu: cpu.row.cpu,
        hint: slot,
        number,
    })
}

/// Takes away one reference, of those that this CPU has to the entry.
#[inline(always)]
fn subtract(words: &Words, cpu: &mut PlainCpu, slot: u8, number: u64)
    requires words { AreWordsOf words.now cpu.old.words.table cpu.old.words.settings }
    requires held { IsHeldAt cpu.old.cpu.view slot number }
    ensures less { HasOneLess number cpu.old.cpu cpu.new.cpu }
    ensures words { cpu.new.words ≡ cpu.old.words }
{
    steps::passive_sub(words, &mut cpu.seat, cpu.row, slot, number);
    cpu.passive[slot as usize].count -= 1;
}
