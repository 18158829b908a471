//! Tests on two threads: what one publishes, the other finds; and a local reference goes from one to the other.

ghost use Rattle.std.specs.Prelude.{◌≡◌, IsTrue};
ghost use Rattle.registry_values.specs.Common.{is_key};
ghost use Rattle.registry_values.specs.declared.limits.TheConstants.{MOST_CPUS};
ghost use Rattle.cpu_words.specs.Common.{AreWordsOf};

use super::answers::{WM, record};
use super::keepers::{looked, passive_look, published, retired};
use super::readers::exited;
use super::table::{Seats, Test, on_table};
use cpu_words::{Domain, Words};
use local_count::{LocalRef, acquire_local, collect, collected, total, try_release};
use passive_list::{Cpu, Keeper, SlotState, enter, find};
use registry_values::{Kind, Name, Record, Refusal, USUAL_SECTIONS};
use std::alloc::Global;
use std::process::Abort;
use std::sync::atomic::{AtomicBool, Ordering};
use std::test::*;
use std::thread::{Threads, join, yield_now};

/// After so many turns a side gives up, and the test fails.
const TURNS: u32 = 1_000_000_000;

/// The number of the driver that a lookup finds, in the open section.
fn number_found<D: Domain>(words: &Words, cpu: &mut Cpu<D>, name: &Name) -> Option<u64>
    requires words { AreWordsOf words.now D.table D.settings }
{
    if !cpu.inside() {
        return None;
    }
    match find(words, cpu, Kind::Driver, name) {
        Some(entry) => Some(entry.number),
        None => None,
    }
}

#[test]
fn a_lookup_finds_what_another_thread_publishes(rt: HostRuntime) {
    on_table(&rt, rt.alloc(), USUAL_SECTIONS, Test::OneLookup);
}

pub(crate) fn one_lookup<D: Domain + Send, R: Threads + Abort + Sync>(rt: &R, seats: Seats<D>) {
    let Seats {
        words,
        keeper,
        first,
        ..
    } = seats;
    let driver = record(rt, WM);
    let (words, missed) = (&words, &AtomicBool::new(false));
    let (found, published) = join(
        rt,
        move || -> Option<u64>
            requires words { AreWordsOf words.now D.table D.settings }
        { find_at_last(rt, words, first, &driver.name, missed) },
        move || -> Option<u64>
            requires words { AreWordsOf words.now keeper.words.table keeper.words.settings }
            requires driver { IsTrue (is_key driver.name) }
        { publish_once_missed(rt, words, keeper, driver, missed) },
    );
    assert!(rt; published == Some(1));
    assert!(rt; found == Some(1));
}

/// Looks the driver up, in a section each time, until it is found. It sets the flag where it isn't, and returns the number found.
fn find_at_last<D: Domain, R: Abort>(
    rt: &R,
    words: &Words,
    mut cpu: Cpu<D>,
    name: &Name,
    missed: &AtomicBool,
) -> Option<u64>
    requires words { AreWordsOf words.now D.table D.settings }
{
    for _ in 0..TURNS {
        let found = find_in_section(rt, words, &mut cpu, name).ok()?;
        if found.is_some() {
            return found;
        }
        missed.store(true, Ordering::SeqCst);
    }
    None
}

/// Enters, looks the driver up, and exits.
fn find_in_section<D: Domain, R: Abort>(
    rt: &R,
    words: &Words,
    cpu: &mut Cpu<D>,
    name: &Name,
) -> Result<Option<u64>, Refusal>
    requires words { AreWordsOf words.now D.table D.settings }
{
    enter(words, cpu)?;
    let found = number_found(words, cpu, name);
    exited(rt, words, cpu);
    Ok(found)
}

/// Waits until the flag is set, and then publishes the driver. Returns its number.
fn publish_once_missed<R: Abort>(
    rt: &R,
    words: &Words,
    mut keeper: Keeper,
    driver: Record,
    missed: &AtomicBool,
) -> Option<u64>
    requires words { AreWordsOf words.now keeper.words.table keeper.words.settings }
    requires driver { IsTrue (is_key driver.name) }
{
    if !was_set(missed) {
        return None;
    }
    Some(published(rt, words, &mut keeper, driver).number)
}

/// Waits until the flag is set: false where it gave up.
fn was_set(flag: &AtomicBool) -> bool {
    for _ in 0..TURNS {
        if flag.load(Ordering::SeqCst) {
            return true;
        }
        yield_now();
    }
    false
}

#[test]
fn a_reference_is_released_on_another_thread(rt: HostRuntime) {
    on_table(&rt, rt.alloc(), 1, Test::OneReference);
}

/// CPU 0 acquires the reference, and another thread reads and releases it on CPU 1. Then nobody holds the entry.
pub(crate) fn one_reference<D: Domain + Send, R: Threads + Abort + Sync>(rt: &R, seats: Seats<D>) {
    let Seats {
        words,
        mut keeper,
        mut first,
        second,
    } = seats;
    let driver = record(rt, WM);
    let words = &words;
    published(rt, words, &mut keeper, driver);
    let mut held = acquired(rt, words, &mut first, &driver.name);
    let lent = &mut held;
    let (read, _) = join(
        rt,
        move || -> Option<(u64, Kind, Record)>
            requires words { AreWordsOf words.now D.table D.settings }
        { read_and_release(rt, words, second, lent) },
        || (),
    );
    let None = held else {
        panic!(rt; "the reference was not taken")
    };
    assert!(rt; read == Some((1, Kind::Driver, driver)));
    retired(rt, words, &mut keeper);
    assert!(rt; total_once_drained(rt, words, &mut keeper) == 0);
}

/// Finds the driver in a section, and acquires a local reference to it.
fn acquired<D: Domain, R: Abort>(
    rt: &R,
    words: &Words,
    cpu: &mut Cpu<D>,
    name: &Name,
) -> Option<LocalRef<D>>
    requires words { AreWordsOf words.now D.table D.settings }
{
    enter(words, cpu).ok()?;
    if !cpu.inside() {
        return None;
    }
    find(words, cpu, Kind::Driver, name);
    let reference = acquire_local(words, cpu).ok();
    exited(rt, words, cpu);
    reference
}

/// Takes the reference, reads it, and releases it on this CPU. Returns the number, the kind and the record that it read.
fn read_and_release<D: Domain, R: Abort>(
    rt: &R,
    words: &Words,
    mut cpu: Cpu<D>,
    held: &mut Option<LocalRef<D>>,
) -> Option<(u64, Kind, Record)>
    requires words { AreWordsOf words.now D.table D.settings }
{
    let mut reference = held.take()?;
    let (number, kind) = (reference.number(), reference.kind());
    let rec = reference.record(words);
    match try_release(words, &mut cpu, reference) {
        Ok(()) => Some((number, kind, rec)),
        Err(_back) => panic!(rt; "the reference came back"),
    }
}

/// Drains the retired driver as far as looks and collections go. Returns how many local references to it are held.
fn total_once_drained<R: Abort>(rt: &R, words: &Words, keeper: &mut Keeper) -> u64
    requires words { AreWordsOf words.now keeper.old.words.table keeper.old.words.settings }
    ensures words { keeper.new.words ≡ keeper.old.words }
{
    assert!(rt; looked(rt, words, keeper, 0));
    assert!(rt; looked(rt, words, keeper, 1));
    assert!(rt; passive_look(rt, words, keeper, 0));
    assert!(rt; passive_look(rt, words, keeper, 1));
    collect_once_clear(rt, words, keeper, 0);
    collect_once_clear(rt, words, keeper, 1);
    assert!(rt; 0 < keeper.settings().slots);
    assert!(rt; matches!(keeper.slot(0), SlotState::Retired(_)));
    assert!(rt; keeper.have_passed(0) && keeper.are_clear(0) && keeper.are_collected(0));
    total(words, keeper, 0)
}

/// Collects the CPU's count word for the retired driver.
fn collect_once_clear<R: Abort>(rt: &R, words: &Words, keeper: &mut Keeper, cpu: u8)
    requires words { AreWordsOf words.now keeper.old.words.table keeper.old.words.settings }
    ensures words { keeper.new.words ≡ keeper.old.words }
{
    assert!(rt; cpu < keeper.settings().cpus);
    assert!(rt; 0 < keeper.settings().slots);
    assert!(rt; matches!(keeper.slot(0), SlotState::Retired(_)));
    assert!(rt; keeper.have_passed(0) && keeper.are_clear(0) && !collected(keeper, 0, cpu));
    collect(words, keeper, 0, cpu);
}
