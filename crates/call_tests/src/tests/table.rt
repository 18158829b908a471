//! What rows on the bare words begin with, a new table of two CPUs and two slots, before it is named and after.

ghost use Rattle.std.specs.Prelude.{◌≡◌, ◌<◌, IsTrue};
ghost use Rattle.registry_values.specs.Common.{are_fit};
ghost use Rattle.cpu_words.specs.Common.{AreWordsOf, keeper_with, new_cpu};
ghost use Rattle.registry_values.specs.declared.limits.TheConstants.{MOST_CPUS};

use super::answers::Answer;
use super::keepers::{Writer, by_keeper};
use super::readers::{Held, Reader, by_reader};
use super::threads::{one_lookup, one_reference};
use super::word_rows::{Row, follow};
use cpu_words::{CpuSeat, Domain, KeeperSeat, Words};
use passive_list::{Cpu, CpuRows, Keeper, KeeperRows};
use registry_values::{MOST_CPUS, Settings};
use std::alloc::Global;
use std::marker::Brand;
use std::process::Abort;
use std::sync::ledger;
use std::test::Fail;
use std::thread::Threads;

/// A new table, before it is named.
#[derive(Drop)]
struct Table {
    words: Words,
    keeper: KeeperSeat,
    first: CpuSeat,
    second: CpuSeat,
    changes: ledger::Blank,
    ghost fit: { IsTrue (are_fit words.settings) },
    ghost sizes: { (words.settings.cpus ≡ 2) × (words.settings.slots ≡ 2) },
    ghost with_keeper: { (keeper.table ≡ words.table) × (keeper.view ≡ keeper_with words.settings words.settings.cpus) },
    ghost with_first: { (first.table ≡ words.table) × (first.view ≡ new_cpu words.settings 0) },
    ghost with_second: { (second.table ≡ words.table) × (second.view ≡ new_cpu words.settings 1) },
    ghost parts: { changes.parts ≡ MOST_CPUS },
}

/// A table in which each CPU may begin so many sections, and have two passive references and one local reference to an entry.
fn opened(alloc: Global, section_limit: u64) -> Result<Table, Fail> {
    let settings = Settings {
        cpus: 2,
        slots: 2,
        change_limit: 1000,
        section_limit,
        passive_limit: 2,
        count_limit: 1,
    };
    let (words, keeper, mut seats) = Words::new(alloc, settings)?;
    match (seats.pop(), seats.pop()) {
        (Some(second), Some(first)) => Ok(Table {
            words,
            keeper,
            first,
            second,
            changes: ledger::Blank::new(MOST_CPUS as u64),
        }),
        _ => Err(Fail::from("two seats")),
    }
}

/// A table that D names: its words, its keeper and its two CPUs.
#[derive(Drop)]
pub(crate) struct Seats<D: Domain> {
    pub(crate) words: Words,
    pub(crate) keeper: Keeper,
    pub(crate) first: Cpu<D>,
    pub(crate) second: Cpu<D>,
    ghost named: { AreWordsOf words D.table D.settings },
    ghost kept: { AreWordsOf keeper.words D.table D.settings },
}

/// A test on a table of its own.
#[derive(Clone, Copy)]
pub(crate) enum Test<'a> {
    OneLookup,
    OneReference,
    Follow(&'a Row),
}

/// Runs the test on a table in which each CPU may begin so many sections.
pub(crate) fn on_table<R: Threads + Abort + Sync>(
    rt: &R,
    alloc: Global,
    section_limit: u64,
    test: Test,
) {
    match opened(alloc, section_limit) {
        Ok(table) => on_named::<Brand, R>(rt, alloc, table, test),
        Err(_) => panic!(rt; "a table"),
    }
}

/// The same, where D names the table.
fn on_named<D: Domain + Send, R: Threads + Abort + Sync>(
    rt: &R,
    alloc: Global,
    table: Table,
    test: Test,
)
    requires words { AreWordsOf table.words D.table D.settings }
    requires ledger { (table.changes.name ≡ D.name) × (D.parts ≡ MOST_CPUS) }
{
    let seats = Seats::<D>::of(rt, alloc, table);
    match test {
        Test::OneLookup => one_lookup(rt, seats),
        Test::OneReference => one_reference(rt, seats),
        Test::Follow(row) => follow(rt, seats, row),
    }
}

/// The CPU with this number, from its seat in a new table that D names.
fn cpu_of<D: Domain, R: Abort>(
    rt: &R,
    alloc: Global,
    seat: CpuSeat,
    id: u8,
    slots: u8,
    share: ledger::Share<D>,
) -> Cpu<D>
    requires fit { IsTrue (are_fit D.settings) × (id < D.settings.cpus) × (slots ≡ D.settings.slots) }
    requires seat { (seat.table ≡ D.table) × (seat.view ≡ new_cpu D.settings id) }
    requires part { share.parts ≡ 1 }
{
    let Ok(rows) = CpuRows::new(alloc, slots) else {
        panic!(rt; "rows");
    };
    match Cpu::of_seat(alloc, seat, id, rows, share) {
        Ok(cpu) => cpu,
        Err(_) => panic!(rt; "a CPU"),
    }
}

impl<D: Domain> Seats<D> {
    fn of<R: Abort>(rt: &R, alloc: Global, table: Table) -> Seats<D>
        requires words { AreWordsOf table.words D.table D.settings }
        requires ledger { (table.changes.name ≡ D.name) × (D.parts ≡ MOST_CPUS) }
    {
        let settings = table.words.settings();
        let Ok(rows) = KeeperRows::new(alloc, settings) else {
            panic!(rt; "rows");
        };
        let Table {
            words,
            keeper,
            first,
            second,
            changes,
        } = table;
        let (_book, mut shares) = changes.open::<D>();
        let (one, other) = (shares.split_off(1, 0), shares.split_off(1, 0));
        Seats {
            words,
            keeper: Keeper::of_seat(keeper, settings, rows),
            first: cpu_of(rt, alloc, first, 0, settings.slots, one),
            second: cpu_of(rt, alloc, second, 1, settings.slots, other),
        }
    }

    /// Checks that each step returns what the row says.
    pub(crate) fn follow<R: Abort>(
        &mut self,
        rt: &R,
        refs: &mut Held<D>,
        name: &str,
        steps: &[(Step, Answer)],
    ) {
        for (n, (step, answer)) in steps.iter().enumerate() {
            assert!(rt;
                self.take(rt, refs, *step) == *answer,
                "at {name}, step {n}"
            );
        }
    }

    fn take<R: Abort>(&mut self, rt: &R, refs: &mut Held<D>, step: Step) -> Answer {
        let words = &self.words;
        match step {
            Step::First(call) => by_reader(rt, words, &mut self.first, refs, call),
            Step::Second(call) => by_reader(rt, words, &mut self.second, refs, call),
            Step::Keeper(call) => by_keeper(rt, words, &mut self.keeper, call),
        }
    }
}

/// A call on the words by CPU 0, by CPU 1 or by the keeper.
#[derive(Clone, Copy)]
pub(crate) enum Step {
    First(Reader),
    Second(Reader),
    Keeper(Writer),
}
