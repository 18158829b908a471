//! Passive references, through a CPU's handle. C has a reference as a value: its entry, and the number of its CPU. The CPU judges it by its own
//! counts, and the slot is where it looks first. So nothing that C has written there is trusted.

ghost use Rattle.std.specs.Prelude.{◌≡◌, ◌≢◌, IfErr, IfOk, IsTrue, None, false};
ghost use Rattle.registry_values.specs.Common.{Answers};
ghost use Rattle.passive_ref.specs.{HasOneLess, why_unusable};
ghost use Rattle.c_handles.specs.declared.values.plain.TheConstants.{DONE};
ghost use Rattle.protocol.specs.Common.{entry_with};
ghost use Rattle.cpu_words.specs.Common.{key_with};
ghost use Rattle.passive_list.specs.Common.{OnPlainCpu};
ghost use Rattle.name_registry.specs.LookingUp.{HasNotGot, got_of};
ghost use Rattle.c_handles.specs.values.Texts.{entry_again, entry_out, number_of};
ghost use Rattle.c_calls.specs.Calls.{Through};
ghost use Rattle.c_calls.specs.References.{Acquires, AcquiresInside, GetsFor, GetsInto, Copies, CopiesHeld, HoldsSay, Releases, ReleasesHeld, psref_of};

use crate::arguments::asked;
use crate::lookups::seen_out;
use c_handles::CpuBody;
use c_handles::handle::CpuHandle;
use c_handles::heap::CHandle;
use c_handles::values::answer::{FlagAnswer, GivenEntryAnswer, GivenNameAnswer};
use c_handles::values::given::{GivenEntry, GivenName};
use c_handles::values::place::FlagPlace;
use c_handles::values::plain::{
    CEntry, CPassive, DONE, EMPTY_HANDLE, FULL_HANDLE, NULL, OUTSIDE, entry_again, kind_given,
    no_passive, passive_again, refused,
};
use name_registry::{get_fast, get_slow};
use passive_list::Seen;
use passive_ref::{Psref, acquire_entry, acquire_last, copy_on, held_on, release_at, release_on};
use registry_values::{Key, Kind, Name, Refusal};

/// `kupaldiz_get` of the header.
pub fn get(
    cpu: &mut CpuHandle,
    kind: u32,
    mut name: GivenName,
    reference: &mut CPassive,
) -> GivenNameAnswer
    ensures given { result.name ≡ name }
    ensures call { Through cpu.old.body cpu.new.body result.number (reference.new ≡ reference.old)
        (λ a b. GetsInto kind name.name a b result.number reference.old reference.new) }
{
    let Some(body) = cpu.body_mut() else {
        return name.answer(EMPTY_HANDLE);
    };
    if reference.entry.number != 0 {
        return name.answer(FULL_HANDLE);
    }
    let key = match asked(kind, name.name()) {
        Ok(key) => key,
        Err(number) => return name.answer(number),
    };
    if let Some(got) = get_fast(&body.words, &mut body.cpu, key) {
        let number = put_psref(got, key, reference);
        return name.answer(number);
    }
    let number = get_rest(body, key.kind, key.name, reference);
    name.answer(number)
}

/// What a get does that its fast path didn't answer; `a` is the CPU before that. It stands apart, so that the fast path saves
/// no register for it.
#[inline(never)]
fn get_rest(cpu: &mut CpuBody, kind: Kind, name: Name, reference: &mut CPassive) -> u32
    ensures { (a : OnPlainCpu) → a.words ≡ cpu.old.words → HasNotGot (key_with kind name) a.cpu cpu.old.cpu
        → GetsFor (key_with kind name) a cpu.new result reference.old reference.new }
{
    let key = Key { kind, name };
    let id = cpu.cpu.id();
    let got = get_slow(&cpu.words, &mut cpu.cpu, key);
    put_got(got, key, id, reference)
}

/// Writes the reference of this CPU that a get gave, and returns the number of its result.
#[inline(always)]
fn put_got(got: Result<(Seen, Psref), Refusal>, key: Key, id: u8, reference: &mut CPassive) -> u32
    ensures number { result ≡ number_of (got_of key got) }
    ensures refused { IfErr (got_of key got) (λ _. reference.new ≡ reference.old) }
    ensures writes { IfOk (got_of key got) (λ g. reference.new ≡ record { entry = entry_out g.0; cpu = id }) }
{
    let (seen, psref) = match got {
        Ok(got) => got,
        Err(refusal) => return refused(refusal),
    };
    psref.forget();
    *reference = CPassive {
        entry: seen_out(key, seen),
        cpu: u64::from(id),
    };
    DONE
}

/// Writes that reference, and returns `DONE`.
#[inline(always)]
fn put_psref(got: (Seen, Psref), key: Key, reference: &mut CPassive) -> u32
    ensures number { result ≡ DONE }
    ensures writes { reference.new ≡ record { entry = entry_out (entry_with key got.0.slot got.0.number got.0.value); cpu = got.1.cpu } }
{
    let (seen, psref) = got;
    *reference = CPassive {
        entry: seen_out(key, seen),
        cpu: u64::from(psref.cpu()),
    };
    psref.forget();
    DONE
}

/// `kupaldiz_acquire` of the header.
pub fn acquire(
    cpu: &mut CpuHandle,
    mut entry: GivenEntry,
    reference: &mut CPassive,
) -> GivenEntryAnswer
    ensures given { result.entry ≡ entry }
    ensures call { Through cpu.old.body cpu.new.body result.number (reference.new ≡ reference.old)
        (λ a b. Acquires entry.entry a b result.number reference.old reference.new) }
{
    let Some(body) = cpu.body_mut() else {
        return entry.answer(EMPTY_HANDLE);
    };
    if acquire_fast(body, entry.entry(), reference) {
        return entry.answer(DONE);
    }
    acquire_rest(body, entry, reference)
}

/// The fast path of an acquire: of the last found entry, if nothing speaks against it. `false` says nothing, and nothing has changed.
#[inline(always)]
fn acquire_fast(cpu: &mut CpuBody, given: Option<CEntry>, reference: &mut CPassive) -> bool
    ensures done { IsTrue result → Acquires given cpu.old cpu.new DONE reference.old reference.new }
    ensures none { result ≡ false → (cpu.new ≡ cpu.old) × (reference.new ≡ reference.old) }
{
    let Some(entry) = given else {
        return false;
    };
    if reference.entry.number != 0 {
        return false;
    }
    let Ok(_key) = asked(kind_given(&entry), Some(entry.name)) else {
        return false;
    };
    let Some(psref) = acquire_last(&cpu.words, &mut cpu.cpu, entry.number) else {
        return false;
    };
    *reference = CPassive {
        entry: entry_again(&entry),
        cpu: u64::from(psref.cpu()),
    };
    psref.forget();
    true
}

/// What an acquire does that its fast path didn't. It stands apart, so that the fast path saves no register for it.
#[inline(never)]
fn acquire_rest(
    cpu: &mut CpuBody,
    mut entry: GivenEntry,
    reference: &mut CPassive,
) -> GivenEntryAnswer
    ensures given { result.entry ≡ entry }
    ensures call { Acquires entry.entry cpu.old cpu.new result.number reference.old reference.new }
{
    let answer = acquire_given(cpu, entry.entry(), reference);
    entry.answer(answer)
}

/// Acquires a reference to the entry that was given, if one was, in a section.
#[tactic(auto, using(crate::proofs::Asked::asks_bad, crate::proofs::Asked::asks_good))]
fn acquire_given(cpu: &mut CpuBody, given: Option<CEntry>, reference: &mut CPassive) -> u32
    ensures { Acquires given cpu.old cpu.new result reference.old reference.new }
{
    if reference.entry.number != 0 {
        return FULL_HANDLE;
    }
    let Some(entry) = given else {
        return NULL;
    };
    let key = match asked(kind_given(&entry), Some(entry.name)) {
        Ok(key) => key,
        Err(number) => return number,
    };
    if !cpu.cpu.inside() {
        return OUTSIDE;
    }
    acquire_inside(cpu, key, entry, reference)
}

/// Acquires a reference to an entry with that key. Condition: inside.
fn acquire_inside(cpu: &mut CpuBody, key: Key, entry: CEntry, reference: &mut CPassive) -> u32
    requires inside { cpu.old.cpu.view.begin ≢ None }
    ensures { AcquiresInside entry key cpu.old cpu.new result reference.old reference.new }
{
    let id = cpu.cpu.id();
    let slot = (entry.slot % 256) as u8;
    let (kind, name) = (key.kind, key.name);
    let made = acquire_entry(&cpu.words, &mut cpu.cpu, entry.number, slot, kind, name);
    put_acquired(made, entry, id, reference)
}

/// Writes the reference of this CPU that an acquire gave, with the entry that C gave, and returns the number of its result.
#[inline(always)]
fn put_acquired(
    made: Result<Psref, Refusal>,
    entry: CEntry,
    id: u8,
    reference: &mut CPassive,
) -> u32
    ensures number { result ≡ number_of made }
    ensures refused { IfErr made (λ _. reference.new ≡ reference.old) }
    ensures writes { IfOk made (λ _. reference.new ≡ record { entry = entry_again entry; cpu = id }) }
{
    let psref = match made {
        Ok(psref) => psref,
        Err(refusal) => return refused(refusal),
    };
    psref.forget();
    *reference = CPassive {
        entry: entry_again(&entry),
        cpu: u64::from(id),
    };
    DONE
}

/// `kupaldiz_copy` of the header.
pub fn copy(cpu: &mut CpuHandle, from: &CPassive, copy: &mut CPassive) -> u32
    ensures { Through cpu.old.body cpu.new.body result (copy.new ≡ copy.old)
        (λ a b. Copies from.now a b result copy.old copy.new) }
{
    let Some(body) = cpu.body_mut() else {
        return EMPTY_HANDLE;
    };
    if from.entry.number == 0 {
        return EMPTY_HANDLE;
    }
    if copy.entry.number != 0 {
        return FULL_HANDLE;
    }
    copy_held(body, from, copy)
}

/// Acquires one more reference to the entry of one.
fn copy_held(cpu: &mut CpuBody, from: &CPassive, copy: &mut CPassive) -> u32
    ensures { CopiesHeld from.now cpu.old cpu.new result copy.old copy.new }
{
    if from.cpu != u64::from(cpu.cpu.id()) {
        return refused(Refusal::WrongCpu);
    }
    let own = own(cpu, from);
    let made = copy_on(&cpu.words, &mut cpu.cpu, &own);
    own.forget();
    match made {
        Ok(second) => {
            second.forget();
            *copy = passive_again(from);
            DONE
        }
        Err(refusal) => refused(refusal),
    }
}

/// `kupaldiz_release` of the header.
pub fn release(cpu: &mut CpuHandle, reference: &mut CPassive) -> u32
    ensures { Through cpu.old.body cpu.new.body result (reference.new ≡ reference.old)
        (λ a b. Releases reference.old a b result reference.new) }
{
    let Some(body) = cpu.body_mut() else {
        return EMPTY_HANDLE;
    };
    if release_fast(body, reference) {
        return DONE;
    }
    release_rest(body, reference)
}

/// The fast path of a release: by its slot. `false` says nothing, and nothing has changed.
#[inline(always)]
#[tactic(auto, using(crate::proofs::Passives::released_here))]
fn release_fast(cpu: &mut CpuBody, reference: &mut CPassive) -> bool
    ensures done { IsTrue result → Releases reference.old cpu.old cpu.new DONE reference.new }
    ensures none { result ≡ false → (cpu.new ≡ cpu.old) × (reference.new ≡ reference.old) }
{
    let own = u64::from(cpu.cpu.id());
    if reference.cpu != own {
        return false;
    }
    let slot = (reference.entry.slot % 256) as u8;
    if release_at(&cpu.words, &mut cpu.cpu, slot, reference.entry.number) {
        *reference = no_passive();
        return true;
    }
    false
}

/// What a release does that its fast path didn't. It stands apart, so that the fast path saves no register for it.
#[inline(never)]
fn release_rest(cpu: &mut CpuBody, reference: &mut CPassive) -> u32
    ensures { Releases reference.old cpu.old cpu.new result reference.new }
{
    if reference.entry.number == 0 {
        return EMPTY_HANDLE;
    }
    release_held(cpu, reference)
}

/// Releases a reference whose slot is sought, if it is this CPU's.
fn release_held(cpu: &mut CpuBody, reference: &mut CPassive) -> u32
    ensures { ReleasesHeld reference.old cpu.old cpu.new result reference.new }
{
    if reference.cpu != u64::from(cpu.cpu.id()) {
        return refused(Refusal::WrongCpu);
    }
    release_sought(cpu, reference)
}

/// The same. Condition: it is.
fn release_sought(cpu: &mut CpuBody, reference: &mut CPassive) -> u32
    requires own { reference.old.cpu ≡ cpu.old.cpu.view.id }
    ensures { ReleasesHeld reference.old cpu.old cpu.new result reference.new }
{
    let own = own(cpu, reference);
    match release_own(cpu, own) {
        Ok(()) => {
            *reference = no_passive();
            DONE
        }
        Err(refusal) => refused(refusal),
    }
}

/// Releases this CPU's own reference.
/// Refused: `WrongCpu`, `NotHeld`.
fn release_own(cpu: &mut CpuBody, own: Psref) -> Result<(), Refusal>
    ensures answer { Answers (why_unusable cpu.old.cpu.view own) (λ _. HasOneLess own.number cpu.old.cpu cpu.new.cpu) result }
    ensures refused { IfErr result (λ _. cpu.new ≡ cpu.old) }
    ensures words { cpu.new.words ≡ cpu.old.words }
{
    match release_on(&cpu.words, &mut cpu.cpu, own) {
        Ok(()) => Ok(()),
        Err((refusal, back)) => {
            back.forget();
            Err(refusal)
        }
    }
}

/// The reference as its CPU judges it. Condition: it is this CPU.
#[inline(always)]
fn own(cpu: &CpuBody, reference: &CPassive) -> Psref
    requires { reference.now.cpu ≡ cpu.now.cpu.view.id }
    ensures { result ≡ psref_of reference.now }
{
    let slot = (reference.entry.slot % 256) as u8;
    Psref::at(cpu.cpu.id(), reference.entry.number, slot)
}

/// `kupaldiz_held` of the header.
pub fn held(cpu: &mut CpuHandle, number: u64, mut held: FlagPlace) -> FlagAnswer
    ensures place { result.place.at ≡ held.at }
    ensures call { Through cpu.old.body cpu.new.body result.number (result.place.value ≡ held.value)
        (λ a b. (result.number ≡ DONE) × (b ≡ a) × HoldsSay number a held.value result.place.value) }
{
    let Some(body) = cpu.body_mut() else {
        return held.answer(EMPTY_HANDLE);
    };
    held.put(held_on(&body.cpu, number));
    held.answer(DONE)
}
