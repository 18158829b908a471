//! A get by memory: a passive reference (psref(9)) without a section, to an entry that the CPU has seen, for an addition to a word of the CPU's
//! own and one load of the slot's live word. If that is the entry's number, the addition is a reference. Else it is taken back, and the caller
//! goes the usual way, by a section.

ghost use Rattle.std.specs.Prelude.{◌≡◌, ◌+◌, ◌^◌, ◌<◌, IfSome, Some, length};
ghost use Rattle.protocol.specs.Common.{IsLookup, entry_with};
ghost use Rattle.cpu_words.specs.Common.{AreWordsOf, IsRowOf, IsShownCpu, MayTry, key_with};
ghost use Rattle.passive_list.specs.Common.{HasSeen as HasSeenOf};
ghost use Rattle.passive_ref.specs.{counted_for, HasGotByMemory, HasGotOn, HasSeen, HasTriedOnSeat};

use crate::psref::Psref;
use cpu_words::{CpuSeat, Row, Words, steps};
use passive_list::{NumberedCount, PlainCpu, Seen, remembered};
use registry_values::{Kind, MOST_SLOTS, Name};

/// Acquires a passive reference to the entry with `number`, which this CPU has seen in `slot`, inside a section or outside, if it is live: at
/// the load it is the registry's answer at that very point of the history.
///
/// `None` says nothing, and nothing is held: the entry isn't live or its keeper hides it, or the CPU has `passive_limit` references to an entry
/// of that slot.
/// Conditions: the words are the CPU's table's; the entry is in the CPU's pass.
/// It is inlined with what it calls: a result in memory would be copied after the addition.
#[inline(always)]
pub fn get_on(words: &Words, cpu: &mut PlainCpu, slot: u8, number: u64) -> Option<Psref>
    requires words { AreWordsOf words.now cpu.old.words.table cpu.old.words.settings }
    requires slot { slot < MOST_SLOTS }
    requires seen { HasSeen cpu.old.cpu.view slot number }
    ensures got { HasGotOn slot number cpu.old.cpu cpu.new.cpu result }
    ensures own { IfSome result (λ psref. psref.cpu ≡ cpu.old.cpu.view.id) }
    ensures words { cpu.new.words ≡ cpu.old.words }
{
    if cpu.passive[slot as usize].count >= words.settings().passive_limit {
        return None;
    }
    let done = try_on_seat(words, &mut cpu.seat, cpu.row, slot, number);
    if done {
        count_one(&mut cpu.passive[slot as usize], number);
        return Some(Psref {
            cpu: cpu.row.cpu,
            hint: slot,
            number,
        });
    }
    None
}

/// Acquires a passive reference to the entry that the CPU remembers with this kind and name, if it is live (`get_on`). Returns the entry's words,
/// too. Conditions: the words are the CPU's table's.
#[inline(always)]
pub fn get_by_memory(
    words: &Words,
    cpu: &mut PlainCpu,
    kind: Kind,
    name: Name,
) -> Option<(Seen, Psref)>
    requires words { AreWordsOf words.now cpu.old.words.table cpu.old.words.settings }
    ensures got { HasGotByMemory (key_with kind name) cpu.old.cpu cpu.new.cpu result }
    ensures slot { IfSome result (λ got. got.0.slot < MOST_SLOTS) }
    ensures own { IfSome result (λ got. got.1.cpu ≡ cpu.old.cpu.view.id) }
    ensures words { cpu.new.words ≡ cpu.old.words }
{
    let seen = remembered(cpu, kind, name)?;
    let psref = get_seen(words, cpu, kind, name, seen)?;
    Some((seen, psref))
}

/// `get_on` of an entry with this kind and name that the CPU has seen.
#[inline(always)]
fn get_seen(words: &Words, cpu: &mut PlainCpu, kind: Kind, name: Name, seen: Seen) -> Option<Psref>
    requires words { AreWordsOf words.now cpu.old.words.table cpu.old.words.settings }
    requires seen { HasSeenOf cpu.old (key_with kind name) seen }
    ensures got { HasGotOn seen.slot seen.number cpu.old.cpu cpu.new.cpu result }
    ensures own { IfSome result (λ psref. psref.cpu ≡ cpu.old.cpu.view.id) }
    ensures answered { IfSome result (λ _. IsLookup cpu.new.cpu.view.pass (length cpu.new.cpu.view.pass) (key_with kind name) (Some (entry_with (key_with kind name) seen.slot seen.number seen.value))) }
    ensures words { cpu.new.words ≡ cpu.old.words }
{
    // The contract alone speaks of the key. Reading the number opens what the CPU says of itself: its table's settings are its view's.
    let _key = (kind, name, cpu.row.cpu);
    get_on(words, cpu, seen.slot as u8, seen.number)
}

/// Counts up, loads the slot's live word, and counts down again if it isn't `number`.
#[inline(always)]
#[tactic(auto, using(cpu_words::proofs::seats::Seating::step_is_shown, crate::proofs::Gets::late_id, crate::proofs::Gets::may_end, crate::proofs::Gets::may_take_back, crate::proofs::Gets::tried_id))]
fn try_on_seat(words: &Words, seat: &mut CpuSeat, row: Row, slot: u8, number: u64) -> bool
    requires table { seat.old.table ≡ words.now.table }
    requires cpu { (row.cpu < words.now.settings.cpus) × (seat.old.view.id ≡ row.cpu) }
    requires row { IsRowOf words.now.settings.slots row }
    requires slot { slot < words.now.settings.slots }
    requires may { MayTry seat.old.view slot number }
    ensures table { seat.new.table ≡ seat.old.table }
    ensures tried { HasTriedOnSeat slot number seat.old.view seat.new.view seat.old.log seat.new.log result }
    ensures is_shown { IsShownCpu seat.new.view }
    ensures known_log { seat.new.known_log ≡ seat.old.known_log }
{
    steps::begin_try(words, seat, row, slot, number);
    let live = steps::end_try(words, seat, row.cpu, slot, number);
    if live == number {
        return true;
    }
    steps::take_back(words, seat, row, slot);
    false
}

/// Counts one more reference to the entry with that number in the place of its slot.
#[inline(always)]
fn count_one(place: &mut NumberedCount, number: u64)
    requires room { place.old.count + 1 < 2 ^ 64 }
    ensures { place.new ≡ record { number = number; count = counted_for number place.old + 1 } }
{
    if place.number == number {
        place.count += 1;
        return;
    }
    place.number = number;
    place.count = 1;
}
