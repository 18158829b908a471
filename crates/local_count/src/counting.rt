//! Acquiring and releasing a local reference by a CPU's own count (localcount(9)).

ghost use Rattle.std.specs.Prelude.{◌≡◌, ◌≢◌, ◌<◌, IfOk, IfSome, IsTrue, IfErr, None, Ok};
ghost use Rattle.local_count.specs.{net_by, AcquiresEntryLocal, AcquiresLastLocal, AcquiresSoughtLocal, AnswersAcquireLocal, why_not_acquired_local, HasReleased, HasComeBack};
ghost use Rattle.passive_list.specs.Common.{IsFoundLast};
ghost use Rattle.registry_values.specs.Common.{are_fit};
ghost use Rattle.cpu_words.specs.Common.{AreWordsOf, key_with};

use crate::local_ref::LocalRef;
use crate::plain_ref::PlainRef;
use cpu_words::{Domain, Words, steps};
use passive_list::{Cpu, NumberedCount, PlainCpu, find_inside_on, is_found_last, is_open_last};
use registry_values::{BIAS, Kind, Name, Refusal, why_uncounted};
use std::marker::PhantomData;

/// The net count for `number` that the place of its slot says, over the bias: none where another number was met there last.
pub fn net_count(place: NumberedCount, number: u64) -> u64
    ensures { result ≡ net_by place number }
{
    if place.number == number {
        place.count
    } else {
        BIAS
    }
}

/// Makes the place that of `number`, with that count. It stores the number only if the place has another one: the next atomic operation
/// waits for each store before it.
pub(crate) fn set_net(place: &mut NumberedCount, number: u64, count: u64)
    ensures { place.new ≡ record { number = number; count = count } }
{
    if place.number != number {
        place.number = number;
    }
    place.count = count;
}

/// Acquires a local reference to the CPU's last found entry: the CPU's own net count for it grows by one.
/// Refused: `NothingFound` if this CPU has no last found entry, then `LocalFull` if its own net count for that entry is `count_limit`.
/// Nothing changes then.
pub fn acquire_local<D: Domain>(words: &Words, cpu: &mut Cpu<D>) -> Result<LocalRef<D>, Refusal>
    requires words { AreWordsOf words.now D.table D.settings }
    ensures { AnswersAcquireLocal cpu.old cpu.new result (λ v. v) }
{
    let plain = acquire_local_on(words, &mut cpu.plain)?;
    Ok(LocalRef {
        plain,
        domain: PhantomData,
    })
}

/// `acquire_local` on a CPU that names its own table. Condition: the words are its table's.
#[inline(always)]
pub fn acquire_local_on(words: &Words, cpu: &mut PlainCpu) -> Result<PlainRef, Refusal>
    requires words { AreWordsOf words.now cpu.old.words.table cpu.old.words.settings }
    ensures acquired { AnswersAcquireLocal cpu.old.cpu cpu.new.cpu result (λ v. v.reference) }
    ensures table { IfOk result (λ v. v.table ≡ cpu.old.words.table) }
    ensures slot { IfOk result (λ v. v.reference.entry.slot < cpu.old.words.settings.slots) }
    ensures fit { IsTrue (are_fit cpu.old.words.settings) }
    ensures words { cpu.new.words ≡ cpu.old.words }
{
    if let Some(refusal) = why_not_acquired_local(words, cpu) {
        return Err(refusal);
    }
    let found = cpu.found;
    let word = steps::count_add(words, &mut cpu.seat, cpu.row, found.slot, found.number);
    let seat = steps::split_ref(words, &mut cpu.seat, cpu.row.cpu);
    set_net(&mut cpu.net[found.slot as usize], found.number, word + 1);
    Ok(PlainRef {
        seat,
        number: found.number,
        slot: found.slot,
        kind: found.kind,
    })
}

/// The fast path of `acquire_entry_local`: acquires a local reference to the last found entry, if that has this number and one may be counted. Its
/// fields stay in registers, since there is no refusal beside them. `None` says nothing, and the CPU is as before: `acquire_entry_local` follows.
/// Condition: the words are the CPU's table's.
#[inline(always)]
pub fn acquire_last_local(words: &Words, cpu: &mut PlainCpu, number: u64) -> Option<PlainRef>
    requires words { AreWordsOf words.now cpu.old.words.table cpu.old.words.settings }
    ensures acquired { IfSome result (λ v. AcquiresLastLocal number cpu.old.cpu cpu.new.cpu (Ok v) (λ v. v.reference)) }
    ensures none { result ≡ None → cpu.new.cpu ≡ cpu.old.cpu }
    ensures inside { IfSome result (λ _. cpu.old.cpu.view.begin ≢ None) }
    ensures table { IfSome result (λ v. v.table ≡ cpu.old.words.table) }
    ensures slot { IfSome result (λ v. v.reference.entry.slot < cpu.old.words.settings.slots) }
    ensures words { cpu.new.words ≡ cpu.old.words }
{
    if number == 0 {
        return None;
    }
    if !is_open_last(cpu, number) {
        return None;
    }
    match acquire_local_on(words, cpu) {
        Ok(reference) => Some(reference),
        Err(_) => None,
    }
}

/// Acquires a local reference to the entry with that number, and to no other one: to the last found entry, if it is that one; else by a
/// lookup of the kind and the name, if that finds it.
/// Conditions: the words are the CPU's table's; inside.
/// Refused: `NotFound` if the entry is neither; `LocalFull` if the CPU's own net count for it is `count_limit`. Nothing is acquired then.
pub fn acquire_entry_local(
    words: &Words,
    cpu: &mut PlainCpu,
    number: u64,
    kind: Kind,
    name: Name,
) -> Result<PlainRef, Refusal>
    requires words { AreWordsOf words.now cpu.old.words.table cpu.old.words.settings }
    requires inside { cpu.old.cpu.view.begin ≢ None }
    ensures acquired { AcquiresEntryLocal number (key_with kind name) cpu.old.cpu cpu.new.cpu result (λ v. v.reference) }
    ensures table { IfOk result (λ v. v.table ≡ cpu.old.words.table) }
    ensures slot { IfOk result (λ v. v.reference.entry.slot < cpu.old.words.settings.slots) }
    ensures words { cpu.new.words ≡ cpu.old.words }
{
    if is_found_last(cpu, number) {
        return acquire_local_on(words, cpu);
    }
    acquire_sought(words, cpu, number, kind, name)
}

/// What `acquire_entry_local` does with an entry that isn't the last found one. Condition: inside.
#[inline(never)]
fn acquire_sought(
    words: &Words,
    cpu: &mut PlainCpu,
    number: u64,
    kind: Kind,
    name: Name,
) -> Result<PlainRef, Refusal>
    requires words { AreWordsOf words.now cpu.old.words.table cpu.old.words.settings }
    requires inside { cpu.old.cpu.view.begin ≢ None }
    requires other { IsFoundLast cpu.old.cpu.view number → ⊥ }
    ensures sought { AcquiresSoughtLocal number (key_with kind name) cpu.old.cpu cpu.new.cpu result (λ v. v.reference) }
    ensures table { IfOk result (λ v. v.table ≡ cpu.old.words.table) }
    ensures slot { IfOk result (λ v. v.reference.entry.slot < cpu.old.words.settings.slots) }
    ensures words { cpu.new.words ≡ cpu.old.words }
{
    find_inside_on(words, cpu, kind, name);
    if is_found_last(cpu, number) {
        return acquire_local_on(words, cpu);
    }
    Err(Refusal::NotFound)
}

/// Why a CPU that names its own table may not acquire a local reference now, as `acquire_local` has it. Condition: the words are its table's.
#[inline(always)]
pub fn why_not_acquired_local(words: &Words, cpu: &PlainCpu) -> Option<Refusal>
    requires words { AreWordsOf words.now cpu.now.words.table cpu.now.words.settings }
    ensures { result ≡ why_not_acquired_local cpu.now.cpu.view cpu.now.cpu.view.found }
{
    let found = cpu.found;
    if found.number == 0 {
        return Some(Refusal::NothingFound);
    }
    let count = net_count(cpu.net[found.slot as usize], found.number);
    why_uncounted(count, BIAS + words.settings().count_limit)
}

/// Releases a local reference on this CPU, which needn't be the one that acquired it: this CPU's net count for the entry goes down by one,
/// and may be negative. The reference comes back only if the keeper had collected this CPU's count word for its slot. It shows that then,
/// and the CPU is as it was, except its log.
pub fn try_release<D: Domain>(
    words: &Words,
    cpu: &mut Cpu<D>,
    reference: LocalRef<D>,
) -> Result<(), LocalRef<D>>
    requires words { AreWordsOf words.now D.table D.settings }
    ensures ok { IfOk result (λ _. HasReleased cpu.old reference cpu.new) }
    ensures back { IfErr result (λ v. HasComeBack cpu.old reference cpu.new v) }
{
    let LocalRef { plain, domain } = reference;
    match try_release_on(words, &mut cpu.plain, plain) {
        Ok(()) => Ok(()),
        Err(plain) => Err(LocalRef { plain, domain }),
    }
}

/// `try_release` on a CPU that names its own table. Conditions: the words and the reference are of its table, and so is the slot of the reference's
/// entry.
pub fn try_release_on(
    words: &Words,
    cpu: &mut PlainCpu,
    reference: PlainRef,
) -> Result<(), PlainRef>
    requires words { AreWordsOf words.now cpu.old.words.table cpu.old.words.settings }
    requires reference { (reference.table ≡ cpu.old.words.table) × (reference.reference.entry.slot < cpu.old.words.settings.slots) }
    ensures ok { IfOk result (λ _. HasReleased cpu.old.cpu reference.reference cpu.new.cpu) }
    ensures back { IfErr result (λ v. HasComeBack cpu.old.cpu reference.reference cpu.new.cpu v.reference) }
    ensures table { IfErr result (λ v. v.table ≡ reference.table) }
    ensures words { cpu.new.words ≡ cpu.old.words }
{
    let PlainRef {
        seat,
        number,
        slot,
        kind,
    } = reference;
    let count = net_count(cpu.net[slot as usize], number);
    steps::join_ref(words, &mut cpu.seat, cpu.row.cpu, seat);
    let word = steps::count_down(words, &mut cpu.seat, cpu.row, slot, number, count);
    if word != count {
        let seat = steps::split_back(words, &mut cpu.seat, cpu.row.cpu);
        return Err(PlainRef {
            seat,
            number,
            slot,
            kind,
        });
    }
    set_net(&mut cpu.net[slot as usize], number, count - 1);
    Ok(())
}
