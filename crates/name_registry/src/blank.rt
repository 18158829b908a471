//! The words and seats of a registry that isn't named yet.

ghost use Rattle.std.specs.Prelude.{◌≡◌, ◌↔◌, ◌≤◌, [], IfOk, IfErr, IsErrOf, IsTrue, false, vec_len, vec_capacity};
ghost use Rattle.registry_values.specs.Common.{are_fit, are_usual, IsRefusalOfNew};
ghost use Rattle.name_registry.specs.Types.{NoMemory};
ghost use Rattle.cpu_words.specs.Common.{AreSeats, keeper_with};
ghost use Rattle.name_registry.specs.Opening.{IsBlankOf, AreNewCpus, AreOpened, boxed};

use crate::interlock::Interlock;
use crate::registry::Registry;
use cpu_words::{CpuSeat, Domain, KeeperSeat, Words};
use passive_list::{Cpu, CpuRows, Keeper, KeeperRows, PlainCpu};
use registry_values::{Refusal, Settings};
use std::alloc::{AllocError, Global};
use std::marker::Model;
use std::sync::ledger::Share;
use std::sync::{Mutex, ledger};

/// A registry before it is named: its words, and its seats. A caller hands it to a function over `D: Domain`, called with `Brand`, so that D
/// names its table there, and opens it. It has the CPUs already, since they take memory. To a contract it is which table it is, its settings, and the ledger of its changes.
#[derive(Drop)]
pub struct Blank {
    words: Words,
    keeper: KeeperSeat,
    cpus: Vec<Box<PlainCpu>>,
    changes: ledger::Blank,
}

impl Model for Blank {
    ghost use Rattle.std.specs.Prelude.{◌≡◌};
    ghost use Rattle.name_registry.specs.Opening.{IsBlank, OnBlank, boxed};

    ghost Value = { OnBlank };

    ghost view = { λ b. record { table = b.words.table; settings = b.words.settings; changes = b.changes.name } };

    ghost invariant = { λ b. IsBlank b.words b.keeper (boxed b.cpus.items) × (b.changes.parts ≡ b.words.settings.cpus) };
}

impl Blank {
    /// The words of a registry with these settings: nothing is attached, and all its CPUs are outside.
    /// Refused: `BadSettings` if `Settings::check` refuses them, and `NoMemory`.
    pub fn new(alloc: Global, settings: Settings) -> Result<Blank, Refusal>
        ensures ok { IfOk result (λ blank. blank.settings ≡ settings) }
        ensures bad { IsErrOf result Refusal.BadSettings ↔ are_usual settings ≡ false }
        ensures err { IfErr result IsRefusalOfNew }
    {
        let (words, keeper, seats) = Words::new(alloc, settings)?;
        blank_of(alloc, words, keeper, seats)
    }

    /// The same for any settings within the capacity, as those of a registry of C.
    /// Refused: `BadSettings` if `Settings::check_fit` refuses them, and `NoMemory`.
    pub fn fit(alloc: Global, settings: Settings) -> Result<Blank, Refusal>
        ensures ok { IfOk result (λ blank. blank.settings ≡ settings) }
        ensures bad { IsErrOf result Refusal.BadSettings ↔ are_fit settings ≡ false }
        ensures err { IfErr result IsRefusalOfNew }
    {
        settings.check_fit()?;
        let Ok((words, keeper, seats)) = Words::opening(alloc, settings) else {
            return Err(Refusal::NoMemory);
        };
        blank_of(alloc, words, keeper, seats)
    }

    /// The registry, and its CPUs, CPU 0 first. Condition: D names the blank's table, settings and ledger.
    /// Refused: `NoMemory`. The blank comes back then, as it was.
    pub fn open<D: Domain>(
        self,
        alloc: Global,
    ) -> Result<(Registry<D>, Vec<Cpu<D>>), (Refusal, Blank)>
        requires { IsBlankOf self D.table D.settings D.name D.parts }
        ensures cpus { IfOk result (λ made. AreNewCpus D.settings D.settings.cpus made.1.items) }
        ensures back { IfErr result (λ back. (back.0 ≡ Refusal.NoMemory) × (back.1 ≡ self)) }
    {
        let Ok(mut cpus) = Vec::with_capacity(alloc, self.cpus.len()) else {
            return Err((Refusal::NoMemory, self));
        };
        let Ok(rows) = KeeperRows::new(alloc, self.words.settings()) else {
            return Err((Refusal::NoMemory, self));
        };
        let Blank {
            words,
            keeper,
            cpus: plain,
            changes,
        } = self;
        let (book, shares) = changes.open::<D>();
        let keeper = Keeper::of_seat(keeper, words.settings(), rows);
        name_cpus(plain, &mut cpus, shares);
        let interlock = Mutex::new(Interlock { keeper, book });
        Ok((Registry { words, interlock }, cpus))
    }
}

/// A blank of new words and their seats. Refused: `NoMemory`.
fn blank_of(
    alloc: Global,
    words: Words,
    keeper: KeeperSeat,
    seats: Vec<CpuSeat>,
) -> Result<Blank, Refusal>
    requires fit { IsTrue (are_fit words.settings) }
    requires keeper { (keeper.table ≡ words.table) × (keeper.view ≡ keeper_with words.settings words.settings.cpus) }
    requires seats { AreSeats words.table words.settings words.settings.cpus seats.items }
    ensures ok { IfOk result (λ blank. blank.settings ≡ words.settings) }
    ensures err { IfErr result (λ refusal. refusal ≡ Refusal.NoMemory) }
{
    let Ok(cpus) = cpus_of(alloc, &words, seats) else {
        return Err(Refusal::NoMemory);
    };
    let settings = words.settings();
    Ok(Blank {
        words,
        keeper,
        cpus,
        changes: ledger::Blank::new(u64::from(settings.cpus)),
    })
}

/// The CPUs of the seats of these words, each in a block of its own, CPU 0 first.
fn cpus_of(
    alloc: Global,
    words: &Words,
    seats: Vec<CpuSeat>,
) -> Result<Vec<Box<PlainCpu>>, AllocError>
    requires fit { IsTrue (are_fit words.now.settings) }
    requires seats { AreSeats words.now.table words.now.settings words.now.settings.cpus seats.items }
    ensures { IfOk result (λ cpus. AreOpened words.now words.now.settings.cpus (boxed cpus.items)) }
{
    let mut cpus = Vec::new(alloc);
    for seat in seats {
        let id = cpus.len() as u8;
        let rows = CpuRows::new(alloc, words.settings().slots)?;
        cpus.push(Box::new(alloc, PlainCpu::of_seat(seat, id, rows))?)?;
    }
    Ok(cpus)
}

/// Gives each CPU its table's name and a part of the ledger, CPU 0 first. The list has room for them.
fn name_cpus<D: Domain>(plain: Vec<Box<PlainCpu>>, cpus: &mut Vec<Cpu<D>>, mut shares: Share<D>)
    requires fit { IsTrue (are_fit D.settings) }
    requires plain { AreOpened (record { table = D.table; settings = D.settings }) D.settings.cpus (boxed plain.items) }
    requires room { (cpus.old.items ≡ []) × (vec_len cpus.old ≡ 0) × (D.settings.cpus ≤ vec_capacity cpus.old) }
    requires parts { (shares.parts ≡ D.settings.cpus) × (shares.amount ≡ 0) }
    ensures { AreNewCpus D.settings D.settings.cpus cpus.new.items }
{
    for cpu in plain {
        let share = shares.split_off(1, 0);
        cpus.push_reserved(Cpu::of(cpu, share));
    }
}
