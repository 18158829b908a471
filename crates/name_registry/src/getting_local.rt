//! A local reference by name (localcount(9)): a lookup, and a count for what it found, in one section.

ghost use Rattle.std.specs.Prelude.{◌≡◌, ◌≢◌, ◌<◌, IfOk, IfSome, IsTrue, None};
ghost use Rattle.registry_values.specs.Common.{are_fit};
ghost use Rattle.protocol.specs.Common.{entry_with};
ghost use Rattle.cpu_words.specs.Common.{AreWordsOf, key_with};
ghost use Rattle.name_registry.specs.GettingLocal.{FindsAndCounts, GetsLocal, answer_of, got_of, got_with};

use crate::registry::Registry;
use cpu_words::{Domain, Words};
use local_count::{LocalRef, PlainRef, acquire_local_on};
use passive_list::{Cpu, PlainCpu, Seen, enter_on, exit_on, find_inside_on};
use registry_values::{Entry, Key, Kind, MOST_SLOTS, Name, Record, Refusal};
use std::marker::PhantomData;

impl<D: Domain> Registry<D> {
    /// Looks an entry up, and acquires a local reference to it (localcount(9)): in the open section, else in one of its own. The entry keeps its
    /// slot until the reference is released.
    /// Refused: `SectionsSpent` outside a section, and nothing has changed; `NotFound`; `LocalFull`. Nothing is acquired then.
    pub fn get_local(
        &self,
        cpu: &mut Cpu<D>,
        kind: Kind,
        name: &Name,
    ) -> Result<(Entry, LocalRef<D>), Refusal>
        ensures got { GetsLocal (key_with kind name.now) cpu.old cpu.new (got_with result) }
        ensures entry { IfOk result (λ got. got.0 ≡ got.1.entry) }
    {
        let key = Key { kind, name: *name };
        match get_local(&self.words, &mut cpu.plain, key) {
            Ok((seen, plain)) => {
                let entry = entry_of(seen, key);
                let domain = PhantomData;
                Ok((entry, LocalRef { plain, domain }))
            }
            Err(refusal) => Err(refusal),
        }
    }
}

/// `Registry::get_local` on a CPU that names its own table. Returns the entry's words with the reference. Condition: the words are its table's.
pub fn get_local(words: &Words, cpu: &mut PlainCpu, key: Key) -> Result<(Seen, PlainRef), Refusal>
    requires words { AreWordsOf words.now cpu.old.words.table cpu.old.words.settings }
    ensures got { GetsLocal key cpu.old.cpu cpu.new.cpu (got_of result) }
    ensures entry { IfOk result (λ got. (got.0.slot < MOST_SLOTS) × (entry_with key got.0.slot got.0.number got.0.value ≡ got.1.reference.entry)) }
    ensures table { IfOk result (λ got. got.1.table ≡ cpu.old.words.table) }
    ensures slot { IfOk result (λ got. got.1.reference.entry.slot < cpu.old.words.settings.slots) }
    ensures fit { IfOk result (λ _. IsTrue (are_fit cpu.old.words.settings)) }
    ensures words { cpu.new.words ≡ cpu.old.words }
{
    let mut why = Refusal::NotFound;
    match get_local_or(words, cpu, key, &mut why) {
        Some(got) => Ok(got),
        None => Err(why),
    }
}

/// `get_local`, which writes the refusal to `why`: so none lies over the reference's words, and they stay in registers.
#[inline(always)]
#[tactic(auto, using(crate::proofs::Counting::gets_inside, crate::proofs::Counting::gets_outside, crate::proofs::Counting::gets_refused))]
pub fn get_local_or(
    words: &Words,
    cpu: &mut PlainCpu,
    key: Key,
    why: &mut Refusal,
) -> Option<(Seen, PlainRef)>
    requires words { AreWordsOf words.now cpu.old.words.table cpu.old.words.settings }
    ensures got { GetsLocal key cpu.old.cpu cpu.new.cpu (got_of (answer_of result why.new)) }
    ensures entry { IfSome result (λ got. (got.0.slot < MOST_SLOTS) × (entry_with key got.0.slot got.0.number got.0.value ≡ got.1.reference.entry)) }
    ensures table { IfSome result (λ got. got.1.table ≡ cpu.old.words.table) }
    ensures slot { IfSome result (λ got. got.1.reference.entry.slot < cpu.old.words.settings.slots) }
    ensures fit { IfSome result (λ _. IsTrue (are_fit cpu.old.words.settings)) }
    ensures words { cpu.new.words ≡ cpu.old.words }
{
    if cpu.inside() {
        return find_and_count(words, cpu, key, why);
    }
    match enter_on(words, cpu) {
        Ok(()) => {
            let got = find_and_count(words, cpu, key, why);
            exit_on(words, cpu);
            got
        }
        Err(refusal) => {
            *why = refusal;
            None
        }
    }
}

/// Looks an entry up in the open section, and acquires a local reference to it.
#[inline(always)]
#[tactic(auto, using(crate::proofs::Counting::counts_none, crate::proofs::Driver::acquired_is, crate::proofs::Driver::begin_stays, crate::proofs::Driver::found_is))]
fn find_and_count(
    words: &Words,
    cpu: &mut PlainCpu,
    key: Key,
    why: &mut Refusal,
) -> Option<(Seen, PlainRef)>
    requires words { AreWordsOf words.now cpu.old.words.table cpu.old.words.settings }
    requires inside { cpu.old.cpu.view.begin ≢ None }
    ensures got { FindsAndCounts key cpu.old.cpu cpu.new.cpu (got_of (answer_of result why.new)) }
    ensures entry { IfSome result (λ got. (got.0.slot < MOST_SLOTS) × (entry_with key got.0.slot got.0.number got.0.value ≡ got.1.reference.entry)) }
    ensures table { IfSome result (λ got. got.1.table ≡ cpu.old.words.table) }
    ensures slot { IfSome result (λ got. got.1.reference.entry.slot < cpu.old.words.settings.slots) }
    ensures fit { IfSome result (λ _. IsTrue (are_fit cpu.old.words.settings)) }
    ensures inside { cpu.new.cpu.view.begin ≢ None }
    ensures words { cpu.new.words ≡ cpu.old.words }
{
    let Some(seen) = find_inside_on(words, cpu, key.kind, key.name) else {
        *why = Refusal::NotFound;
        return None;
    };
    match acquire_local_on(words, cpu) {
        Ok(plain) => Some((seen, plain)),
        Err(refusal) => {
            *why = refusal;
            None
        }
    }
}

/// The entry of these words.
fn entry_of(seen: Seen, key: Key) -> Entry
    requires { seen.slot < MOST_SLOTS }
    ensures { result ≡ entry_with key seen.slot seen.number seen.value }
{
    let rec = Record {
        kind: key.kind,
        name: key.name,
        value: seen.value,
    };
    Entry {
        number: seen.number,
        slot: seen.slot as u8,
        rec,
    }
}
