//! What a CPU holds: found in its own plain data, with no step.

ghost use Rattle.std.specs.Prelude.{◌≡◌, ◌↔◌, ◌<◌, IsTrue, IfSome, position, length, None};
ghost use Rattle.cpu_words.specs.Common.{references_to};
ghost use Rattle.registry_values.specs.Common.{Answers};
ghost use Rattle.passive_ref.specs.{IsHeldAt, MayRefer, counts_for, why_unusable};

use crate::psref::Psref;
use cpu_words::Domain;
use passive_list::{Cpu, NumberedCount, PlainCpu};
use registry_values::{Refusal, why_unusable};

/// Whether this CPU holds a passive reference to that number, whichever CPU the reference names (psref(9)).
pub fn held<D: Domain>(cpu: &Cpu<D>, psref: &Psref) -> bool
    ensures { IsTrue result ↔ 0 < references_to psref.now.number cpu.now.view.references }
{
    held_on(&cpu.plain, psref.number())
}

/// Whether a CPU that names its own table holds a passive reference to that number.
pub fn held_on(cpu: &PlainCpu, number: u64) -> bool
    ensures { IsTrue result ↔ 0 < references_to number cpu.now.cpu.view.references }
{
    match slot_of(cpu, number) {
        Some(_) => true,
        None => false,
    }
}

/// The slot of the entry that the reference is to, or why this CPU may not use it.
#[inline(always)]
pub(crate) fn usable_slot(cpu: &PlainCpu, psref: &Psref) -> Result<u8, Refusal>
    ensures { Answers (why_unusable cpu.now.cpu.view psref.now) (λ t. IsHeldAt cpu.now.cpu.view t psref.now.number) result }
{
    let held = slot_by(cpu, psref.hint, psref.number);
    match (why_unusable(psref.cpu == cpu.row.cpu, held.is_some()), held) {
        (None, Some(slot)) => Ok(slot),
        (Some(refusal), _) => Err(refusal),
        (None, None) => unreachable!(),
    }
}

/// The same as `slot_of`; where the hint is that slot, it needs no search.
#[inline(always)]
fn slot_by(cpu: &PlainCpu, hint: u8, number: u64) -> Option<u8>
    ensures some { IfSome result (λ t. IsHeldAt cpu.now.cpu.view t number) }
    ensures none { result ≡ None → references_to number cpu.now.cpu.view.references ≡ 0 }
{
    if counts_at(cpu, hint, number) {
        return Some(hint);
    }
    slot_of(cpu, number)
}

/// Whether there is a place of that slot, and it counts for that number.
#[inline(always)]
#[tactic(auto, using(passive_list::proofs::Agreeing::place_is, crate::proofs::Changing::held_at))]
pub(crate) fn counts_at(cpu: &PlainCpu, slot: u8, number: u64) -> bool
    ensures { IsTrue result → IsHeldAt cpu.now.cpu.view slot number }
{
    if usize::from(slot) >= cpu.passive.len() {
        return false;
    }
    let place = cpu.passive[slot as usize];
    if place.number == number {
        return place.count > 0;
    }
    false
}

/// The slot of the entry with that number, where this CPU refers to it.
#[inline(never)]
pub(crate) fn slot_of(cpu: &PlainCpu, number: u64) -> Option<u8>
    ensures some { IfSome result (λ t. IsHeldAt cpu.now.cpu.view t number) }
    ensures none { result ≡ None → references_to number cpu.now.cpu.view.references ≡ 0 }
{
    match place_for(number, cpu.passive.as_slice()) {
        Some(slot) => Some(slot as u8),
        None => None,
    }
}

/// The first place that counts for that number.
fn place_for(number: u64, places: &[NumberedCount]) -> Option<usize>
    ensures value { result ≡ position (counts_for number) places.now }
    ensures within { IfSome result (λ t. t < length places.now) }
{
    places
        .iter()
        .position(|place| place.number == number && place.count > 0)
}

/// How many references this CPU has to an entry that it found last or refers to.
#[inline(always)]
pub(crate) fn count_of(cpu: &PlainCpu, slot: u8, number: u64) -> u64
    requires { MayRefer cpu.now.cpu.view slot number }
    ensures { result ≡ references_to number cpu.now.cpu.view.references }
{
    let place = cpu.passive[slot as usize];
    if place.number == number {
        place.count
    } else {
        0
    }
}
