//! The pure machine.

mod commands;
mod drain;
mod list;
mod local;
mod passive;
mod reading;
mod recalls;
mod run;
mod sameness;
mod search;
mod sections;
mod tries;

ghost use Rattle.std.specs.Prelude.{◌≡◌, ◌↔◌, ◌++◌, ◌∷◌, ◌<◌, ◌≤◌, [], IfOk, IfErr, IsErrOf, IsTrue, OnErr, OnOk, false, replicate, vec_capacity, vec_len};
ghost use Rattle.registry_values.specs.Common.{are_fit, are_usual, IsRefusalOfNew};
ghost use Rattle.protocol.specs.Common.{opening};
ghost use Rattle.passive_core.specs.Commands.{IsQuiet};

use protocol::{Due, Hand, LocalPlace, RecordWords, Search, StepFault};
use registry_values::{BIAS, Change, Entry, MOST_CPUS, Mark, NO_MARK, Refusal, Settings, Slot};
pub use run::run_events;
use std::alloc::{AllocError, Global};
use std::marker::Model;

/// The words of no entry.
const NO_WORDS: RecordWords = RecordWords {
    number: 0,
    kind: 0,
    high: 0,
    low: 0,
    value: 0,
};

/// The machine: the shared words, and the plain state of each CPU and of the keeper.
#[derive(Drop)]
pub struct Core {
    settings: Settings,
    section: Vec<u64>,
    head: u64,
    next: Vec<u64>,
    rows: Vec<RecordWords>,
    passive: Vec<[u64; MOST_CPUS]>,
    counts: Vec<[u64; MOST_CPUS]>,
    totals: Vec<u64>,
    lives: Vec<u64>,
    history: Vec<Change>,
    seated: u8,
    begins: Vec<Option<u64>>,
    depths: Vec<u8>,
    seen: Vec<u64>,
    searches: Vec<Option<Search>>,
    found: Vec<Option<Entry>>,
    hands: Vec<Hand>,
    nets: Vec<[u64; MOST_CPUS]>,
    slots: Vec<Slot>,
    marks: Vec<[Mark; MOST_CPUS]>,
    keeps: Vec<Option<u64>>,
    due: Due,
    locals: Vec<LocalPlace>,
}

impl Model for Core {
    ghost use Rattle.protocol.specs.Common.{State};

    ghost Value = { State };

    ghost use Rattle.passive_core.specs.Commands.{state_shown};
    ghost use Rattle.protocol.specs.Common.{Holds};

    ghost view = { state_shown };

    ghost invariant = { λ a. Holds (state_shown a) };
}

impl Core {
    /// A core with these settings: no history, all slots vacant, all words 0 but the totals, and no CPU seated.
    /// Refused: `BadSettings` if `Settings::check` refuses them, and `NoMemory`.
    #[tactic(auto, using(registry_values::proofs::Fit::usual_fits))]
    pub fn new(alloc: Global, settings: Settings) -> Result<Core, Refusal>
        ensures ok { IfOk result (λ core. IsTrue (are_fit settings) × (core ≡ opening settings)) }
        ensures quiet { IfOk result (λ core. IsQuiet core) }
        ensures bad { IsErrOf result Refusal.BadSettings ↔ are_usual settings ≡ false }
        ensures err { IfErr result IsRefusalOfNew }
    {
        settings.check()?;
        match Core::opening(alloc, settings) {
            Ok(core) => Ok(core),
            Err(_) => Err(Refusal::NoMemory),
        }
    }

    fn opening(alloc: Global, settings: Settings) -> Result<Core, AllocError>
        requires { IsTrue (are_fit settings) }
        ensures value { IfOk result (λ core. core ≡ opening settings) }
        ensures quiet { IfOk result (λ core. IsQuiet core) }
    {
        let cpus = settings.cpus as usize;
        let slots = settings.slots as usize;
        Ok(Core {
            settings,
            section: repeated(alloc, 0, cpus)?,
            head: 0,
            next: repeated(alloc, 0, slots)?,
            rows: repeated(alloc, NO_WORDS, slots)?,
            passive: repeated(alloc, [0; MOST_CPUS], slots)?,
            counts: repeated(alloc, [0; MOST_CPUS], slots)?,
            totals: repeated(alloc, BIAS, slots)?,
            lives: repeated(alloc, 0, slots)?,
            history: Vec::new(alloc),
            seated: 0,
            begins: repeated(alloc, None, cpus)?,
            depths: repeated(alloc, 0, cpus)?,
            seen: repeated(alloc, 0, cpus)?,
            searches: repeated(alloc, None, cpus)?,
            found: repeated(alloc, None, cpus)?,
            hands: repeated(alloc, Hand::Empty, cpus)?,
            nets: repeated(alloc, [0; MOST_CPUS], slots)?,
            slots: repeated(alloc, Slot::Vacant, slots)?,
            marks: repeated(alloc, [NO_MARK; MOST_CPUS], slots)?,
            keeps: repeated(alloc, None, slots)?,
            due: Due::Rest,
            locals: Vec::new(alloc),
        })
    }
}

/// A list of so many equal items.
fn repeated<T: Copy + Drop>(alloc: Global, item: T, count: usize) -> Result<Vec<T>, AllocError>
    ensures { IfOk result (λ list. list.items ≡ replicate count item) }
{
    let mut list = Vec::new(alloc);
    for _ in 0..count {
        list.push(item)?;
    }
    Ok(list)
}

/// Adds an item at the end of a list. Refused: `NoMemory`; the list is then as it was.
fn grow<T: Drop>(list: &mut Vec<T>, item: T) -> Result<(), StepFault>
    ensures ok { OnOk result (list.new.items ≡ list.old.items ++ item ∷ []) }
    ensures err { OnErr result (list.new.items ≡ list.old.items) }
    ensures fault { IfErr result (λ fault. fault ≡ StepFault.NoMemory) }
{
    match list.push(item) {
        Ok(()) => Ok(()),
        Err(_) => Err(StepFault::NoMemory),
    }
}

/// Makes room for one more item at the end of a list. Refused: `NoMemory`, and only where there is no room.
fn make_room<T: Drop>(list: &mut Vec<T>) -> Result<(), Refusal>
    ensures same { list.new.items ≡ list.old.items }
    ensures room { OnOk result (vec_len list.new < vec_capacity list.new) }
    ensures full { OnErr result (vec_capacity list.old ≤ vec_len list.old) }
    ensures refusal { IfErr result (λ refusal. refusal ≡ Refusal.NoMemory) }
{
    match list.reserve(1) {
        Ok(()) => Ok(()),
        Err(_) => Err(Refusal::NoMemory),
    }
}
