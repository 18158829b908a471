//! Local references, through the handles of a CPU and the keeper. C has a reference as a value: its entry, and a pointer to its block.

ghost use Rattle.std.specs.Prelude.{◌≡◌, ◌≢◌, ◌<◌, IsTrue, Some, None, true, false, length};
ghost use Rattle.cpu_words.specs.Common.{IsFoundCollected};
ghost use Rattle.local_count.specs.Draining.{HasGivenUp};
ghost use Rattle.c_handles.specs.Bodies.{IsReferenceOf, OnLocal, OnLocalBody};
ghost use Rattle.c_handles.specs.Heap.{IsLong};
ghost use Rattle.c_handles.specs.declared.values.plain.TheConstants.{DONE};
ghost use Rattle.c_handles.specs.OnHandle.{held_by};
ghost use Rattle.c_calls.specs.Calls.{AreOfOne, IsOfCpu, IsOfKeeper, Through};
ghost use Rattle.c_calls.specs.LocalCalls.{are_collected_for, AcquiresLocal, AcquiresLocalInside, AreOfOneRow, GetsLocalFor, GetsLocalNamed, IsUncollected, LocalCopies, LocalForgets, LocalGivesUp, LocalReleases, ReleasesLocked, ReleasesOn, ReleasesUnder, ThroughAll, ThroughLocal, cpu_in};

use crate::arguments::asked;
use crate::lookups::seen_out;
use c_handles::answer::CpusAnswer;
use c_handles::handle::{CpuHandle, KeeperHandle};
use c_handles::heap::CHandle;
use c_handles::local_handle::LocalHandle;
use c_handles::rows::CpusPlace;
use c_handles::taken::LocalTaken;
use c_handles::values::answer::{GivenEntryAnswer, GivenNameAnswer};
use c_handles::values::given::{GivenEntry, GivenName};
use c_handles::values::plain::{
    CEntry, COLLECTED, DONE, EMPTY_HANDLE, FULL_HANDLE, NOT_COLLECTED, NULL, OUTSIDE, kind_given,
    refused,
};
use c_handles::{CpuBody, KeeperBody, LocalBody};
use cpu_words::Words;
use local_count::{
    PlainRef, acquire_entry_local, acquire_last_local, release_under, try_release_on,
};
use name_registry::get_local_or;
use passive_list::Keeper;
use registry_values::{Key, MOST_SLOTS, Refusal, is_retired_as};
use std::alloc::Global;
use std_alloc::room::Vacant;

/// `kupaldiz_get_local` of the header.
pub fn get_local(
    alloc: Global,
    cpu: &mut CpuHandle,
    kind: u32,
    mut name: GivenName,
    local: &mut LocalHandle,
) -> GivenNameAnswer
    ensures given { result.name ≡ name }
    ensures call { Through cpu.old.body cpu.new.body result.number (held_by local.new ≡ held_by local.old)
        (λ a b. GetsLocalNamed kind name.name a b result.number (held_by local.old) (held_by local.new)) }
{
    let Some(body) = cpu.body_mut() else {
        return name.answer(EMPTY_HANDLE);
    };
    if !local.is_empty() {
        return name.answer(FULL_HANDLE);
    }
    let key = match asked(kind, name.name()) {
        Ok(key) => key,
        Err(number) => return name.answer(number),
    };
    let number = get_asked(alloc, body, key, local);
    name.answer(number)
}

/// Acquires a reference to the entry with that key. A block that isn't needed then is kept. Condition: the handle is empty.
fn get_asked(alloc: Global, cpu: &mut CpuBody, key: Key, local: &mut LocalHandle) -> u32
    requires empty { held_by local.old ≡ None }
    ensures { GetsLocalFor key cpu.old cpu.new result (held_by local.old) (held_by local.new) }
{
    let Ok(room) = cpu.take_room(alloc) else {
        return refused(Refusal::NoMemory);
    };
    let mut why = Refusal::NotFound;
    match get_local_or(&cpu.words, &mut cpu.cpu, key, &mut why) {
        Some((seen, reference)) => {
            local.give(seen_out(key, seen), LocalBody::of(reference, 0), room);
            DONE
        }
        None => {
            cpu.keep_room(room);
            refused(why)
        }
    }
}

/// `kupaldiz_acquire_local` of the header.
pub fn acquire_local(
    alloc: Global,
    cpu: &mut CpuHandle,
    mut entry: GivenEntry,
    local: &mut LocalHandle,
) -> GivenEntryAnswer
    ensures given { result.entry ≡ entry }
    ensures call { Through cpu.old.body cpu.new.body result.number (held_by local.new ≡ held_by local.old)
        (λ a b. AcquiresLocal entry.entry a b result.number (held_by local.old) (held_by local.new)) }
{
    let Some(body) = cpu.body_mut() else {
        return entry.answer(EMPTY_HANDLE);
    };
    if acquire_fast(body, entry.entry(), local) {
        return entry.answer(DONE);
    }
    acquire_rest(alloc, body, entry, local)
}

/// The fast path of an acquire: of the last found entry, in the block that the CPU keeps, if nothing speaks against it. `false` says nothing, and
/// nothing has changed.
#[inline(always)]
fn acquire_fast(cpu: &mut CpuBody, given: Option<CEntry>, local: &mut LocalHandle) -> bool
    ensures done { IsTrue result → AcquiresLocal given cpu.old cpu.new DONE (held_by local.old) (held_by local.new) }
    ensures none { result ≡ false → (cpu.new ≡ cpu.old) × (held_by local.new ≡ held_by local.old) }
{
    let Some(entry) = given else {
        return false;
    };
    if !local.is_empty() {
        return false;
    }
    let Ok(_key) = asked(kind_given(&entry), Some(entry.name)) else {
        return false;
    };
    let Some(room) = cpu.take_kept() else {
        return false;
    };
    match acquire_last_local(&cpu.words, &mut cpu.cpu, entry.number) {
        Some(reference) => {
            give_acquired(&cpu.words, reference, room, local);
            true
        }
        None => {
            cpu.keep_room(room);
            false
        }
    }
}

/// What an acquire does that its fast path didn't. It stands apart, so that the fast path saves no register for it.
#[inline(never)]
fn acquire_rest(
    alloc: Global,
    cpu: &mut CpuBody,
    mut entry: GivenEntry,
    local: &mut LocalHandle,
) -> GivenEntryAnswer
    ensures given { result.entry ≡ entry }
    ensures call { AcquiresLocal entry.entry cpu.old cpu.new result.number (held_by local.old) (held_by local.new) }
{
    let answer = acquire_given(alloc, cpu, entry.entry(), local);
    entry.answer(answer)
}

/// Acquires a reference to the entry that was given, if one was, in a section. A block that isn't needed then is kept.
#[tactic(auto, using(crate::proofs::Asked::asks_bad, crate::proofs::Asked::asks_good))]
fn acquire_given(
    alloc: Global,
    cpu: &mut CpuBody,
    given: Option<CEntry>,
    local: &mut LocalHandle,
) -> u32
    ensures { AcquiresLocal given cpu.old cpu.new result (held_by local.old) (held_by local.new) }
{
    if !local.is_empty() {
        return FULL_HANDLE;
    }
    let Some(entry) = given else {
        return NULL;
    };
    let key = match asked(kind_given(&entry), Some(entry.name)) {
        Ok(key) => key,
        Err(number) => return number,
    };
    if !cpu.cpu.inside() {
        return OUTSIDE;
    }
    let Ok(room) = cpu.take_room(alloc) else {
        return refused(Refusal::NoMemory);
    };
    acquire_inside(cpu, key, entry.number, room, local)
}

/// Acquires a reference to an entry with that key, in that block. Conditions: inside; the handle is empty.
fn acquire_inside(
    cpu: &mut CpuBody,
    key: Key,
    number: u64,
    room: Vacant<LocalBody, Global>,
    local: &mut LocalHandle,
) -> u32
    requires inside { cpu.old.cpu.view.begin ≢ None }
    requires empty { held_by local.old ≡ None }
    ensures { AcquiresLocalInside number key cpu.old cpu.new result (held_by local.new) }
{
    match acquire_entry_local(&cpu.words, &mut cpu.cpu, number, key.kind, key.name) {
        Ok(reference) => {
            give_acquired(&cpu.words, reference, room, local);
            DONE
        }
        Err(refusal) => {
            cpu.keep_room(room);
            refused(refusal)
        }
    }
}

/// Puts a new reference and its entry into the handle, in that block. Condition: the handle is empty.
#[inline(always)]
fn give_acquired(
    words: &Words,
    reference: PlainRef,
    room: Vacant<LocalBody, Global>,
    local: &mut LocalHandle,
)
    requires words { (words.now.table ≡ reference.table) × (reference.reference.entry.slot < words.now.settings.slots) }
    requires fresh { reference.reference.collected ≡ None }
    requires empty { held_by local.old ≡ None }
    ensures { (v : OnLocalBody) × (v.table ≡ reference.table) × (v.reference ≡ reference.reference) × (held_by local.new ≡ Some (record { held = v; copied = false })) }
{
    let mut body = LocalBody::of(reference, 0);
    let entry = body.entry(words);
    local.give(entry, body, room);
}

/// `kupaldiz_copy_local` of the header.
pub fn copy_local(alloc: Global, from: &mut LocalHandle, copy: &mut LocalHandle) -> u32
    ensures { LocalCopies (held_by from.old) (held_by from.new) (held_by copy.old) (held_by copy.new) result }
{
    if from.is_empty() {
        return EMPTY_HANDLE;
    }
    if !copy.is_empty() {
        return FULL_HANDLE;
    }
    if from.copy(alloc, copy) {
        DONE
    } else {
        refused(Refusal::NoMemory)
    }
}

/// `kupaldiz_try_release_local` of the header.
pub fn try_release_local(alloc: Global, cpu: &mut CpuHandle, local: &mut LocalHandle) -> u32
    requires { IsOfCpu cpu.old.body (held_by local.old) }
    ensures { ThroughLocal cpu.old.body cpu.new.body (held_by local.old) (held_by local.new) result (λ a v b l. LocalReleases a v b result l) }
{
    let Some(body) = cpu.body_mut() else {
        return EMPTY_HANDLE;
    };
    if let Some((reference, room)) = local.take_own(alloc) {
        return release_own(body, reference, room, local);
    }
    release_rest(alloc, cpu, local)
}

/// Releases a reference that had this block of its own. Conditions: the handle is empty; both are of one registry.
#[inline(always)]
fn release_own(
    cpu: &mut CpuBody,
    reference: LocalBody,
    room: Vacant<LocalBody, Global>,
    local: &mut LocalHandle,
) -> u32
    requires empty { held_by local.old ≡ None }
    requires own { IsReferenceOf cpu.old.words reference }
    ensures { (v : OnLocal) → reference ≡ v.held → LocalReleases cpu.old v cpu.new result (held_by local.new) }
{
    match release_local(cpu, reference) {
        None => {
            cpu.keep_room(room);
            DONE
        }
        Some(mut back) => {
            let entry = back.entry(&cpu.words);
            local.give(entry, back, room);
            COLLECTED
        }
    }
}

/// Releases what is behind a handle, however it has it. It stands apart, so that a release of a reference that was never copied saves no register
/// for it.
#[inline(never)]
fn release_rest(alloc: Global, cpu: &mut CpuHandle, local: &mut LocalHandle) -> u32
    requires { IsOfCpu cpu.old.body (held_by local.old) }
    ensures { ThroughLocal cpu.old.body cpu.new.body (held_by local.old) (held_by local.new) result (λ a v b l. LocalReleases a v b result l) }
{
    let Some(body) = cpu.body_mut() else {
        return EMPTY_HANDLE;
    };
    match local.take(alloc) {
        LocalTaken::Nothing => EMPTY_HANDLE,
        LocalTaken::Share => DONE,
        LocalTaken::Reference(reference, room) => release_own(body, reference, room, local),
    }
}

/// Releases the reference on this CPU. It comes back where the keeper had collected the CPU's
/// count.
/// Condition: both are of one registry.
fn release_local(cpu: &mut CpuBody, local: LocalBody) -> Option<LocalBody>
    requires { IsReferenceOf cpu.old.words local }
    ensures { ReleasesOn cpu.old local cpu.new result }
{
    let reference = local.into_reference();
    match try_release_on(&cpu.words, &mut cpu.cpu, reference) {
        Ok(()) => None,
        Err(reference) => Some(LocalBody::of(reference, 1)),
    }
}

/// `kupaldiz_release_local_locked` of the header. The place is of one CPU's handle, or null.
pub fn release_local_locked(
    alloc: Global,
    keeper: &mut KeeperHandle,
    mut cpu: CpusPlace,
    local: &mut LocalHandle,
) -> CpusAnswer
    requires one { IsLong cpu.value 1 }
    requires same { AreOfOneRow keeper.old.body cpu.value }
    requires local { IsOfKeeper keeper.old.body (held_by local.old) }
    ensures place { result.cpus.at ≡ cpu.at }
    ensures call { ReleasesLocked keeper.old.body keeper.new.body cpu.value result.cpus.value (held_by local.old) (held_by local.new) result.number }
{
    let answer = release_at(alloc, keeper, &mut cpu, local);
    CpusAnswer::of(cpu, answer)
}

/// Releases the reference under the interlock, on the CPU at the place, if there is one. Condition: all are of one registry.
fn release_at(
    alloc: Global,
    keeper: &mut KeeperHandle,
    cpu: &mut CpusPlace,
    local: &mut LocalHandle,
) -> u32
    requires one { IsLong cpu.old.value 1 }
    requires same { AreOfOneRow keeper.old.body cpu.old.value }
    requires local { IsOfKeeper keeper.old.body (held_by local.old) }
    ensures place { cpu.new.at ≡ cpu.old.at }
    ensures call { ReleasesLocked keeper.old.body keeper.new.body cpu.old.value cpu.new.value (held_by local.old) (held_by local.new) result }
{
    if !cpu.is_null() {
        return release_in_row(alloc, keeper, cpu.row_mut(1), local);
    }
    give_up_local(alloc, keeper, local)
}

/// Releases the reference under the interlock, on the CPU of the one handle in the row. Conditions: the row has one; all are of one registry.
fn release_in_row(
    alloc: Global,
    keeper: &mut KeeperHandle,
    cpus: &mut [CpuHandle],
    local: &mut LocalHandle,
) -> u32
    requires one { length cpus.old ≡ 1 }
    requires same { AreOfOne keeper.old.body (cpu_in cpus.old) }
    requires local { IsOfKeeper keeper.old.body (held_by local.old) }
    ensures one { length cpus.new ≡ 1 }
    ensures call { ThroughAll keeper.old.body keeper.new.body (cpu_in cpus.old) (cpu_in cpus.new) (held_by local.old) (held_by local.new) result }
{
    release_under_lock(alloc, keeper, &mut cpus[0], local)
}

/// Releases the reference under the interlock, on a CPU. Condition: all are of one registry.
fn release_under_lock(
    alloc: Global,
    keeper: &mut KeeperHandle,
    cpu: &mut CpuHandle,
    local: &mut LocalHandle,
) -> u32
    requires same { AreOfOne keeper.old.body cpu.old.body }
    requires local { IsOfKeeper keeper.old.body (held_by local.old) }
    ensures { ThroughAll keeper.old.body keeper.new.body cpu.old.body cpu.new.body (held_by local.old) (held_by local.new) result }
{
    let Some(k) = keeper.body_mut() else {
        return EMPTY_HANDLE;
    };
    let Some(body) = cpu.body_mut() else {
        return EMPTY_HANDLE;
    };
    match local.take(alloc) {
        LocalTaken::Nothing => EMPTY_HANDLE,
        LocalTaken::Share => DONE,
        LocalTaken::Reference(reference, room) => {
            release_both(k, body, reference);
            body.keep_room(room);
            DONE
        }
    }
}

/// Releases the reference on the CPU, or else, where the CPU's count was collected, by the keeper. Condition: all are of one registry.
fn release_both(keeper: &mut KeeperBody, cpu: &mut CpuBody, local: LocalBody)
    requires same { cpu.old.words ≡ keeper.old.words }
    requires local { IsReferenceOf keeper.old.words local }
    ensures { ReleasesUnder keeper.old cpu.old local keeper.new cpu.new }
{
    let reference = local.into_reference();
    if let Err(back) = try_release_on(&cpu.words, &mut cpu.cpu, reference) {
        release_under(&keeper.words, &mut keeper.keeper, back);
    }
}

/// Releases the reference under the interlock, without a CPU.
fn give_up_local(alloc: Global, keeper: &mut KeeperHandle, local: &mut LocalHandle) -> u32
    requires { IsOfKeeper keeper.old.body (held_by local.old) }
    ensures { ThroughLocal keeper.old.body keeper.new.body (held_by local.old) (held_by local.new) result (λ k v j l. LocalGivesUp k v j result l) }
{
    let Some(k) = keeper.body_mut() else {
        return EMPTY_HANDLE;
    };
    if local.is_empty() {
        return EMPTY_HANDLE;
    }
    if !may_give_up(k, local) {
        return NOT_COLLECTED;
    }
    match local.take(alloc) {
        LocalTaken::Nothing => EMPTY_HANDLE,
        LocalTaken::Share => DONE,
        LocalTaken::Reference(reference, room) => {
            spend(k, reference);
            room.free();
            DONE
        }
    }
}

/// Whether a count of the reference's entry was collected: a release came back, or the keeper knows it. Condition: there is one.
fn may_give_up(keeper: &KeeperBody, local: &mut LocalHandle) -> bool
    requires { (v : OnLocal) × (held_by local.old ≡ Some v) }
    ensures same { held_by local.new ≡ held_by local.old }
    ensures collected { result ≡ true → (v : OnLocal) × (held_by local.old ≡ Some v) × IsFoundCollected keeper.now.keeper.slots keeper.now.keeper.view.marks v.held.reference }
    ensures none { result ≡ false → (v : OnLocal) → held_by local.old ≡ Some v → IsUncollected keeper.now v }
{
    if local.is_back() {
        return true;
    }
    are_collected(&keeper.keeper, local.slot(), local.number())
}

/// Releases the reference. Conditions: both are of one registry; a count of its entry was collected.
fn spend(keeper: &mut KeeperBody, local: LocalBody)
    requires same { IsReferenceOf keeper.old.words local }
    requires collected { IsFoundCollected keeper.old.keeper.slots keeper.old.keeper.view.marks local.reference }
    ensures words { keeper.new.words ≡ keeper.old.words }
    ensures done { HasGivenUp keeper.old.keeper local.reference keeper.new.keeper }
{
    release_under(&keeper.words, &mut keeper.keeper, local.into_reference());
}

/// Whether the entry with this number is retired in the slot, and the count of some CPU was collected for it.
#[tactic(auto, using(passive_list::proofs::Rows::retired_in, crate::proofs::Collected::none_below, crate::proofs::Collected::retired_of, crate::proofs::Collected::some_now, crate::proofs::Collected::some_stays))]
fn are_collected(keeper: &Keeper, slot: u8, number: u64) -> bool
    requires { slot < MOST_SLOTS }
    ensures { result ≡ are_collected_for keeper.now.keeper slot number keeper.now.words.settings.cpus }
{
    let cpus = keeper.settings().cpus;
    if !is_retired_as(number, &keeper.slot(slot)) {
        return false;
    }
    for cpu in 0..cpus {
        if keeper.mark(slot, cpu).collected {
            return true;
        }
    }
    false
}

/// `kupaldiz_forget_local` of the header.
pub fn forget_local(alloc: Global, local: &mut LocalHandle) -> u32
    ensures { LocalForgets (held_by local.old) (held_by local.new) result }
{
    if local.forget(alloc) {
        DONE
    } else {
        EMPTY_HANDLE
    }
}
