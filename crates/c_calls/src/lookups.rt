//! Lookups through a CPU's handle. Each judges the arguments, makes the registry's call, and writes the entry that was found.
//!
//! C's place is written last: a store before the addition that ends the section would have to be done before it.

ghost use Rattle.std.specs.Prelude.{◌≡◌, ◌≢◌, ◌<◌, IfSome, None, Option, Some};
ghost use Rattle.protocol.specs.Common.{entry_with};
ghost use Rattle.cpu_words.specs.Common.{key_with};
ghost use Rattle.passive_list.specs.Common.{HasRecalledByMemory, OnPlainCpu, entry_seen};
ghost use Rattle.name_registry.specs.LookingUp.{FindsFast, HasEnteredInVain, HasMissed, LooksFast, found_or, looked_up};
ghost use Rattle.c_handles.specs.values.Texts.{entry_out, number_of};
ghost use Rattle.c_calls.specs.Calls.{Asks, EntersAndFindsFor, FindsFor, FindsInsideFor, IsFastFor, LooksUpFor, Puts, Through, asked as asked_for, entry_by as entry_found, outside_or};

use crate::arguments::asked;
use c_handles::CpuBody;
use c_handles::handle::CpuHandle;
use c_handles::heap::CHandle;
use c_handles::values::answer::{EntryAnswer, NamedAnswer};
use c_handles::values::given::GivenName;
use c_handles::values::place::EntryPlace;
use c_handles::values::plain::{
    CEntry, CName, DONE, EMPTY_HANDLE, NULL, OUTSIDE, name_out, refused,
};
use name_registry::{
    enter_find_fast, enter_find_nested, enter_find_slow, find_by, find_slow, look_up_anew,
    look_up_by, look_up_nested,
};
use passive_list::{Seen, may_begin_on};
use registry_values::{Key, Kind, MOST_SLOTS, Name, Refusal, kind_word};

/// `kupaldiz_look_up` of the header.
pub fn look_up(
    cpu: &mut CpuHandle,
    kind: u32,
    mut name: GivenName,
    found: EntryPlace,
) -> NamedAnswer
    ensures places { (result.name ≡ name) × (result.place.at ≡ found.at) }
    ensures call { Through cpu.old.body cpu.new.body result.number (result.place.value ≡ found.value)
        (λ a b. Asks kind name.name result.number ((b ≡ a) × (result.place.value ≡ found.value))
        (λ key. LooksUpFor key a b result.number found.value result.place.value)) }
{
    let Some(body) = cpu.body_mut() else {
        return found.answer(EMPTY_HANDLE).with_name(name);
    };
    let Some(given) = name.name() else {
        return found.answer(NULL).with_name(name);
    };
    look_up_given(body, kind, given, found).with_name(name)
}

/// The same by C's words.
#[inline(always)]
fn look_up_given(cpu: &mut CpuBody, kind: u32, given: CName, mut found: EntryPlace) -> EntryAnswer
    ensures place { result.place.at ≡ found.at }
    ensures call { Asks kind (Some given) result.number ((cpu.new ≡ cpu.old) × (result.place.value ≡ found.value))
        (λ key. LooksUpFor key cpu.old cpu.new result.number found.value result.place.value) }
{
    if let Some(seen) = look_up_remembered(cpu, kind, given) {
        found.put(entry_by(kind, given, seen));
        return found.answer(DONE);
    }
    look_up_rest(cpu, kind, given, found)
}

/// The fast path of a lookup: the entry that the CPU remembers by C's words, if one load says that
/// it is live. A row with these words proves that they are a key's, so nothing else judges them.
/// `None` says nothing: `look_up_rest` follows.
#[inline(always)]
#[tactic(auto, using(crate::proofs::Asked::fast_by, crate::proofs::Asked::unnamed))]
fn look_up_remembered(cpu: &mut CpuBody, kind: u32, given: CName) -> Option<Seen>
    ensures looks { IsFastFor LooksFast kind given cpu.old cpu.new result }
    ensures slot { IfSome result (λ seen. seen.slot < MOST_SLOTS) }
    ensures words { cpu.new.words ≡ cpu.old.words }
{
    let name = Name::from_key_words(given.high, given.low)?;
    look_up_by(&cpu.words, &mut cpu.cpu, u64::from(kind), name)
}

/// What a lookup does that its fast path didn't answer; `a` is the CPU before that. It judges the
/// kind and the name. It stands apart, so that the fast path saves no register for it.
#[inline(never)]
fn look_up_rest(cpu: &mut CpuBody, kind: u32, given: CName, found: EntryPlace) -> EntryAnswer
    ensures place { result.place.at ≡ found.at }
    ensures call { (a : OnPlainCpu) → IsFastFor LooksFast kind given a cpu.old None
        → Asks kind (Some given) result.number ((cpu.new ≡ a) × (result.place.value ≡ found.value))
        (λ key. LooksUpFor key a cpu.new result.number found.value result.place.value) }
{
    match asked(kind, Some(given)) {
        Ok(key) => look_up_key(cpu, key, found),
        Err(number) => found.answer(number),
    }
}

/// The same of a key.
#[inline(always)]
fn look_up_key(cpu: &mut CpuBody, key: Key, mut found: EntryPlace) -> EntryAnswer
    ensures place { result.place.at ≡ found.at }
    ensures call { (a : OnPlainCpu) → a.words ≡ cpu.old.words → HasMissed key a.cpu cpu.old.cpu
        → LooksUpFor key a cpu.new result.number found.value result.place.value }
{
    if may_begin_on(&cpu.words, &cpu.cpu) {
        let seen = look_up_anew(&cpu.words, &mut cpu.cpu, key);
        let number = put_seen(seen, key, &mut found);
        return found.answer(number);
    }
    let looked = look_up_nested(&cpu.words, &mut cpu.cpu, key);
    let number = put_looked(looked, key, &mut found);
    found.answer(number)
}

/// `kupaldiz_find` of the header.
pub fn find(cpu: &mut CpuHandle, kind: u32, mut name: GivenName, found: EntryPlace) -> NamedAnswer
    ensures places { (result.name ≡ name) × (result.place.at ≡ found.at) }
    ensures call { Through cpu.old.body cpu.new.body result.number (result.place.value ≡ found.value)
        (λ a b. Asks kind name.name result.number ((b ≡ a) × (result.place.value ≡ found.value))
        (λ key. FindsFor key a b result.number found.value result.place.value)) }
{
    let Some(body) = cpu.body_mut() else {
        return found.answer(EMPTY_HANDLE).with_name(name);
    };
    let Some(given) = name.name() else {
        return found.answer(NULL).with_name(name);
    };
    find_given(body, kind, given, found).with_name(name)
}

/// The same by C's words.
#[inline(always)]
fn find_given(cpu: &mut CpuBody, kind: u32, given: CName, mut found: EntryPlace) -> EntryAnswer
    ensures place { result.place.at ≡ found.at }
    ensures call { Asks kind (Some given) result.number ((cpu.new ≡ cpu.old) × (result.place.value ≡ found.value))
        (λ key. FindsFor key cpu.old cpu.new result.number found.value result.place.value) }
{
    if !cpu.cpu.inside() {
        let number = why_not_found(kind, given);
        return found.answer(number);
    }
    if let Some(seen) = find_remembered(cpu, kind, given) {
        found.put(entry_by(kind, given, seen));
        return found.answer(DONE);
    }
    find_rest(cpu, kind, given, found)
}

/// Why a find outside any section is refused.
#[inline(never)]
fn why_not_found(kind: u32, given: CName) -> u32
    ensures { result ≡ outside_or (asked_for kind (Some given)) }
{
    match asked(kind, Some(given)) {
        Ok(_) => OUTSIDE,
        Err(number) => number,
    }
}

/// The fast path of a find, as `look_up_remembered`: `find_rest` follows. Condition: inside.
#[inline(always)]
#[tactic(auto, using(crate::proofs::Asked::fast_by, crate::proofs::Asked::unnamed))]
fn find_remembered(cpu: &mut CpuBody, kind: u32, given: CName) -> Option<Seen>
    requires inside { cpu.old.cpu.view.begin ≢ None }
    ensures looks { IsFastFor FindsFast kind given cpu.old cpu.new result }
    ensures slot { IfSome result (λ seen. seen.slot < MOST_SLOTS) }
    ensures words { cpu.new.words ≡ cpu.old.words }
{
    let name = Name::from_key_words(given.high, given.low)?;
    find_by(&cpu.words, &mut cpu.cpu, u64::from(kind), name)
}

/// What a find does that its fast path didn't answer; `a` is the CPU before that. It judges the
/// kind and the name. It stands apart, as `look_up_rest`.
#[inline(never)]
fn find_rest(cpu: &mut CpuBody, kind: u32, given: CName, found: EntryPlace) -> EntryAnswer
    requires inside { cpu.old.cpu.view.begin ≢ None }
    ensures place { result.place.at ≡ found.at }
    ensures call { (a : OnPlainCpu) → IsFastFor FindsFast kind given a cpu.old None
        → Asks kind (Some given) result.number ((cpu.new ≡ a) × (result.place.value ≡ found.value))
        (λ key. FindsInsideFor key a cpu.new result.number found.value result.place.value) }
{
    match asked(kind, Some(given)) {
        Ok(key) => find_key(cpu, key, found),
        Err(number) => found.answer(number),
    }
}

/// The same of a key.
#[inline(always)]
fn find_key(cpu: &mut CpuBody, key: Key, mut found: EntryPlace) -> EntryAnswer
    requires inside { cpu.old.cpu.view.begin ≢ None }
    ensures place { result.place.at ≡ found.at }
    ensures call { (a : OnPlainCpu) → a.words ≡ cpu.old.words → HasRecalledByMemory key a.cpu cpu.old.cpu None
        → FindsInsideFor key a cpu.new result.number found.value result.place.value }
{
    let seen = find_slow(&cpu.words, &mut cpu.cpu, key);
    let number = put_seen(seen, key, &mut found);
    found.answer(number)
}

/// `kupaldiz_enter_find` of the header.
pub fn enter_find(
    cpu: &mut CpuHandle,
    kind: u32,
    mut name: GivenName,
    found: EntryPlace,
) -> NamedAnswer
    ensures places { (result.name ≡ name) × (result.place.at ≡ found.at) }
    ensures call { Through cpu.old.body cpu.new.body result.number (result.place.value ≡ found.value)
        (λ a b. Asks kind name.name result.number ((b ≡ a) × (result.place.value ≡ found.value))
        (λ key. EntersAndFindsFor key a b result.number found.value result.place.value)) }
{
    let Some(body) = cpu.body_mut() else {
        return found.answer(EMPTY_HANDLE).with_name(name);
    };
    let key = match asked(kind, name.name()) {
        Ok(key) => key,
        Err(number) => return found.answer(number).with_name(name),
    };
    enter_find_key(body, key, found).with_name(name)
}

/// The same by the key.
#[inline(always)]
fn enter_find_key(cpu: &mut CpuBody, key: Key, mut found: EntryPlace) -> EntryAnswer
    ensures place { result.place.at ≡ found.at }
    ensures call { EntersAndFindsFor key cpu.old cpu.new result.number found.value result.place.value }
{
    if !may_begin_on(&cpu.words, &cpu.cpu) {
        return enter_find_deeper(cpu, key.kind, key.name, found);
    }
    if let Some(seen) = enter_find_fast(&cpu.words, &mut cpu.cpu, key) {
        let number = put_seen(Some(seen), key, &mut found);
        return found.answer(number);
    }
    enter_find_rest(cpu, key.kind, key.name, found)
}

/// What an enter with a find does that its fast path didn't answer; `a` is the CPU before that. It
/// stands apart, as `look_up_rest`.
#[inline(never)]
fn enter_find_rest(cpu: &mut CpuBody, kind: Kind, name: Name, mut found: EntryPlace) -> EntryAnswer
    requires inside { cpu.old.cpu.view.begin ≢ None }
    ensures place { result.place.at ≡ found.at }
    ensures call { (a : OnPlainCpu) → a.words ≡ cpu.old.words → HasEnteredInVain (key_with kind name) a.cpu cpu.old.cpu
        → EntersAndFindsFor (key_with kind name) a cpu.new result.number found.value result.place.value }
{
    let key = Key { kind, name };
    let seen = enter_find_slow(&cpu.words, &mut cpu.cpu, key);
    let number = put_seen(seen, key, &mut found);
    found.answer(number)
}

/// An enter with a find of a CPU that may begin no section. It stands apart, too.
#[inline(never)]
fn enter_find_deeper(
    cpu: &mut CpuBody,
    kind: Kind,
    name: Name,
    mut found: EntryPlace,
) -> EntryAnswer
    ensures place { result.place.at ≡ found.at }
    ensures call { EntersAndFindsFor (key_with kind name) cpu.old cpu.new result.number found.value result.place.value }
{
    let key = Key { kind, name };
    let looked = enter_find_nested(&cpu.words, &mut cpu.cpu, key);
    let number = put_looked(looked, key, &mut found);
    found.answer(number)
}

/// Writes the entry that a lookup found, and returns the number of its result.
#[inline(always)]
fn put_looked(looked: Result<Option<Seen>, Refusal>, key: Key, found: &mut EntryPlace) -> u32
    ensures place { found.new.at ≡ found.old.at }
    ensures number { result ≡ number_of (looked_up key looked) }
    ensures written { Puts entry_out (looked_up key looked) found.old.value found.new.value }
{
    match looked {
        Ok(seen) => put_seen(seen, key, found),
        Err(refusal) => refused(refusal),
    }
}

/// The same where the lookup was not refused.
#[inline(always)]
fn put_seen(seen: Option<Seen>, key: Key, found: &mut EntryPlace) -> u32
    ensures place { found.new.at ≡ found.old.at }
    ensures number { result ≡ number_of (found_or (entry_seen key seen)) }
    ensures written { Puts entry_out (found_or (entry_seen key seen)) found.old.value found.new.value }
{
    match seen {
        Some(seen) => {
            let entry = seen_out(key, seen);
            found.put(entry);
            DONE
        }
        None => refused(Refusal::NotFound),
    }
}

/// The entry that was found, by C's words of its kind and its name.
#[inline(always)]
fn entry_by(kind: u32, given: CName, seen: Seen) -> CEntry
    ensures { result ≡ entry_found kind given seen }
{
    CEntry {
        number: seen.number,
        slot: seen.slot,
        kind: u64::from(kind),
        name: given,
        value: seen.value,
    }
}

/// The entry with this key and these words, to C.
#[inline(always)]
pub fn seen_out(key: Key, seen: Seen) -> CEntry
    ensures { result ≡ entry_out (entry_with key seen.slot seen.number seen.value) }
{
    CEntry {
        number: seen.number,
        slot: seen.slot,
        kind: kind_word(key.kind),
        name: name_out(key.name),
        value: seen.value,
    }
}
