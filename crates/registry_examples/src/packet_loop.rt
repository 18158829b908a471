//! A packet loop: four CPUs look up the interface of each packet, thirty-two packets to a section, while a fifth pulls the interface out
//! and plugs it in again. At the end the driver goes, and the registry is closed. What its last words say of the driver, and how often a
//! slot was freed, is proved by what holds of every run that has ended.

ghost use Rattle.std.specs.Prelude.{◌≡◌, ◌≢◌, ◌<◌, ◌≤◌, ◌+◌, ◌*◌, ℕ, IfOk, IsTrue, None, length, slice_index};
ghost use mathlib.Core.List.{IsPrefix};
ghost use Rattle.std.specs.Thread.{IsSync};
ghost use Rattle.cpu_words.specs.Common.{IsFreedFrom, index, live_of};
ghost use Rattle.registry_values.specs.Common.{is_key};
ghost use Rattle.name_registry.specs.Common.{IsBlankOf, made_by};
ghost use Rattle.registry_examples.specs.{Accounts, HasFreed, MakesAtMost, MakesNone, answered_by, answered_in, answers_in, counted_in, frees_in, made_in, total_of};

use crate::failure::Failure;
use cpu_words::{Domain, LastWords};
use local_count::{LocalRef, acquire_local};
use name_registry::{Blank, Registry};
use passive_list::{Cpu, enter, exit, find};
use passive_ref::{Psref, acquire, read, release};
use registry_values::{Entry, Kind, Name, Record, Refusal, Settings};
use std::alloc::{AllocError, Global};
use std::marker::Brand;
use std::sync::Wait;
use std::sync::atomic::AtomicU64;
use std::sync::atomic::Ordering::SeqCst;
use std::thread::{Threads, join, map_vec, yield_now};

/// How many CPUs carry packets: CPU 0 to 3. CPU 4 changes the registry.
const CARRIERS: u8 = 4;
/// How many batches each of them carries, and how many packets a batch has.
const BATCHES: u64 = 256;

const BATCH: u64 = 32;
/// How often the interface is plugged in, with the values 1, 2, .. 8, and how many batches are carried before it is pulled out again.
pub const PLUGS: u64 = 8;

const BATCHES_A_PLUG: u64 = 96;
/// After so many turns CPU 4 waits no longer for batches.
const PATIENCE: u32 = 100_000_000;

/// What the loop did.
#[derive(Clone, Copy)]
pub struct PacketSum {
    /// The packets that were carried.
    pub packets: u64,
    /// The packets that were counted, each for one interface or for none.
    pub counted: u64,
    /// How often the interface was pulled out and its slot freed.
    pub freed: u64,
}

/// What all CPUs share. A `Registry` is shared by reference; each thread has the `Cpu` that it runs on.
#[derive(Drop)]
struct Bus<'a, D: Domain> {
    registry: &'a Registry<D>,
    driver: Name,
    iface: Name,
    /// How many batches were carried. CPU 4 paces itself by it.
    carried: AtomicU64,
    ghost keys: { IsTrue (is_key driver) × IsTrue (is_key iface) },
}

/// How many packets were carried for each value of the interface. Place 0 counts those without an interface.
#[derive(Clone, Copy)]
struct Tally([u64; 9]);

/// What a carrier has counted, with its CPU.
type Carried<D> = Result<(Tally, Cpu<D>), Failure>;

/// Runs the loop on a registry of its own. Returns what it did, and the last words of the registry: they are those of a run in which a slot
/// was freed as often as the sum says, and the driver's once, and in which a search was answered for each packet that was counted.
pub fn run_packet_loop<R: Threads + Wait + Sync>(
    rt: &R,
    alloc: Global,
) -> Result<(PacketSum, LastWords), Failure>
    ensures ran { IfOk result (λ ran. HasFreed ran.1.settings ran.1.words (ran.0.freed + 1) ran.0.counted) }
{
    let settings = Settings {
        cpus: CARRIERS + 1,
        slots: 2,
        change_limit: 1_000,
        section_limit: 1_000_000,
        passive_limit: 1,
        count_limit: PLUGS,
    };
    let blank = Blank::new(alloc, settings)?;
    run_on::<Brand, R>(rt, alloc, blank)
}

/// The same, on this registry. D names it, so that its CPUs and references can't be taken for another's.
#[tactic(auto, using(crate::proofs::Frees::freed_besides, crate::proofs::Accounted::new_made))]
fn run_on<D: Domain + Send + Sync, R: Threads + Wait + Sync>(
    rt: &R,
    alloc: Global,
    blank: Blank,
) -> Result<(PacketSum, LastWords), Failure>
    requires table { IsBlankOf blank D.table D.settings D.name D.parts }
    ensures ran { IfOk result (λ ran. HasFreed ran.1.settings ran.1.words (ran.0.freed + 1) ran.0.counted) }
{
    let Ok((registry, mut cpus)) = blank.open::<D>(alloc) else {
        return Err(Failure::Memory(AllocError));
    };
    let Some(cpu) = cpus.pop() else {
        return Err(Failure::Wrong("a registry without CPUs"));
    };
    let (sum, mut cpu, carriers) = run_bus(rt, alloc, &registry, cpu, cpus)?;
    let driver = unload_driver(rt, &registry, &mut cpu)?;
    Ok((sum, close(registry, cpu, carriers, driver)?))
}

/// With the driver loaded, the loop itself. All threads have ended at the end. Returns all CPUs too: first the one that knows of each free.
fn run_bus<D: Domain + Send + Sync, R: Threads + Wait + Sync>(
    rt: &R,
    alloc: Global,
    registry: &Registry<D>,
    mut cpu: Cpu<D>,
    carriers: Vec<Cpu<D>>,
) -> Result<(PacketSum, Cpu<D>, Vec<Cpu<D>>), Failure>
    ensures freed { IfOk result (λ ran. ran.0.freed ≤ frees_in ran.1.known_log) }
    ensures made { IfOk result (λ ran. MakesAtMost (2 * ran.0.freed + 1) cpu ran.1) }
    ensures all { IfOk result (λ ran. length ran.2.items ≡ length carriers.items) }
    ensures others { IfOk result (λ ran. made_by ran.2.items ≤ made_by carriers.items) }
    ensures counted { IfOk result (λ ran. ran.0.counted ≤ answered_by ran.2.items) }
{
    let bus = Bus::new(registry)?;
    bus.load_driver(rt, &mut cpu)?;
    carry_and_plug(rt, alloc, &bus, cpu, carriers)
}

/// Detaches the driver and destroys it. Returns its entry: it had that slot.
#[tactic(auto, using(crate::proofs::Frees::detached_destroyed))]
fn unload_driver<D: Domain, R: Wait>(
    rt: &R,
    registry: &Registry<D>,
    cpu: &mut Cpu<D>,
) -> Result<(u8, u64), Failure>
    ensures slot { IfOk result (λ gone. gone.0 < D.settings.slots) }
    ensures gone { IfOk result (λ gone. IsFreedFrom gone.0 gone.1 cpu.new.known_log) }
    ensures freed { IfOk result (λ _. frees_in cpu.old.known_log < frees_in cpu.new.known_log) }
    ensures made { IfOk result (λ _. MakesAtMost 1 cpu.old cpu.new) }
{
    let driver = registry.detach(rt, cpu, Kind::Driver, &Name::parse(b"wm")?)?;
    let slot = registry.destroy(rt, cpu, driver.number, u32::MAX)?;
    Ok((slot, driver.number))
}

/// Ends the registry with all its CPUs, and returns its last words. One list of events of all threads led to them, on any schedule: what each CPU
/// did is in it. So the live word of the driver's slot isn't the driver's number, and no slot was freed while any CPU held its entry. If the other
/// CPUs changed nothing, and the CPU knows of a free for each two changes that its calls made, a slot was freed as often as that. Each search that
/// was answered by the carriers' logs is in the list.
fn close<D: Domain>(
    registry: Registry<D>,
    cpu: Cpu<D>,
    mut carriers: Vec<Cpu<D>>,
    driver: (u8, u64),
) -> Result<LastWords, Failure>
    requires all { length carriers.items + 1 ≡ D.parts }
    requires others { made_by carriers.items ≡ 0 }
    requires slot { driver.0 < D.settings.slots }
    requires gone { IsFreedFrom driver.0 driver.1 cpu.known_log }
    ensures gone { IfOk result (λ last. slice_index last.words (index last.settings (live_of driver.0)) ≢ driver.1) }
    ensures ran { IfOk result (λ last. (n packets : ℕ) → Accounts (2 * n) cpu → n ≤ frees_in cpu.known_log → packets ≤ answered_by carriers.items → HasFreed last.settings last.words n packets) }
{
    // The contract alone speaks of the driver.
    let _driver = driver;
    let Ok(()) = carriers.push(cpu) else {
        return Err(Failure::Memory(AllocError));
    };
    Ok(registry.close_all(carriers))
}

/// All at once: this CPU plugs the interface in and out, and each of the others carries packets on a thread of its own.
fn carry_and_plug<D: Domain + Send + Sync, R: Threads + Wait + Sync>(
    rt: &R,
    alloc: Global,
    bus: &Bus<D>,
    cpu: Cpu<D>,
    carriers: Vec<Cpu<D>>,
) -> Result<(PacketSum, Cpu<D>, Vec<Cpu<D>>), Failure>
    ensures freed { IfOk result (λ ran. ran.0.freed ≤ frees_in ran.1.known_log) }
    ensures made { IfOk result (λ ran. MakesAtMost (2 * ran.0.freed) cpu ran.1) }
    ensures all { IfOk result (λ ran. length ran.2.items ≡ length carriers.items) }
    ensures others { IfOk result (λ ran. made_by ran.2.items ≤ made_by carriers.items) }
    ensures counted { IfOk result (λ ran. ran.0.counted ≤ answered_by ran.2.items) }
{
    let (plugged, carried) = join(
        rt,
        || bus.plug_all(rt, cpu),
        || -> Result<Vec<Carried<D>>, AllocError>
            requires { IsSync R.row }
            ensures all { IfOk result (λ back. length back.items ≡ length carriers.items) }
            ensures made { IfOk result (λ back. made_in back.items ≤ made_by carriers.items) }
            ensures counted { IfOk result (λ back. counted_in back.items ≤ answered_in back.items) }
        { carry_on_all(rt, bus, carriers) },
    );
    let (freed, cpu) = plugged?;
    let (counted, carriers) = all_counted(alloc, carried?)?;
    let sum = PacketSum {
        packets: u64::from(CARRIERS) * BATCHES * BATCH,
        counted,
        freed,
    };
    Ok((sum, cpu, carriers))
}

/// Each carrier on a thread of its own. Returns what each one has counted, in their order, with its CPU.
fn carry_on_all<D: Domain + Send + Sync, R: Threads + Sync>(
    rt: &R,
    bus: &Bus<D>,
    carriers: Vec<Cpu<D>>,
) -> Result<Vec<Carried<D>>, AllocError>
    ensures all { IfOk result (λ back. length back.items ≡ length carriers.items) }
    ensures made { IfOk result (λ back. made_in back.items ≤ made_by carriers.items) }
    ensures counted { IfOk result (λ back. counted_in back.items ≤ answered_in back.items) }
{
    map_vec(
        rt,
        carriers,
        &|carrier: Cpu<D>| -> Carried<D>
            ensures { IfOk result (λ back. (back.1.made ≡ carrier.made) × (total_of back.0 ≤ answers_in back.1.log)) }
        { bus.carry_all(carrier) },
    )
}

/// The packets that all carriers have counted, and their CPUs.
#[tactic(auto, using(crate::proofs::Accounted::counted_more))]
fn all_counted<D: Domain>(
    alloc: Global,
    carried: Vec<Carried<D>>,
) -> Result<(u64, Vec<Cpu<D>>), Failure>
    ensures all { IfOk result (λ all. length all.1.items ≡ length carried.items) }
    ensures made { IfOk result (λ all. made_by all.1.items ≡ made_in carried.items) }
    ensures counted { IfOk result (λ all. all.0 ≤ counted_in carried.items) }
    ensures answered { IfOk result (λ all. answered_by all.1.items ≡ answered_in carried.items) }
{
    let mut counted = 0u64;
    let mut cpus = Vec::new(alloc);
    for one in carried {
        let (tally, cpu) = one?;
        counted = counted.saturating_add(tally.total());
        let Ok(()) = cpus.push(cpu) else {
            return Err(Failure::Memory(AllocError));
        };
    }
    Ok((counted, cpus))
}

impl<'a, D: Domain> Bus<'a, D> {
    /// The driver is `wm`, and its interface `wm0`.
    fn new(registry: &'a Registry<D>) -> Result<Bus<'a, D>, Failure> {
        Ok(Bus {
            registry,
            driver: Name::parse(b"wm")?,
            iface: Name::parse(b"wm0")?,
            carried: AtomicU64::new(0),
        })
    }

    /// All batches of a CPU, which comes back.
    fn carry_all(&self, mut cpu: Cpu<D>) -> Carried<D>
        ensures made { IfOk result (λ back. back.1.made ≡ cpu.made) }
        ensures counted { IfOk result (λ back. total_of back.0 ≤ answers_in back.1.log) }
    {
        let mut tally = Tally([0; 9]);
        for _ in 0..BATCHES {
            self.carry_batch(&mut cpu, &mut tally)?;
            self.carried.fetch_add(1, SeqCst);
        }
        Ok((tally, cpu))
    }

    /// One batch: one section with thirty-two lookups in it. The last packet has to wait, so it takes a passive reference along.
    #[tactic(auto, using(crate::proofs::Accounted::enter_made, crate::proofs::Accounted::acquire_made, crate::proofs::Searched::enter_answers, crate::proofs::Searched::acquire_answers, crate::proofs::Searched::exit_answers))]
    fn carry_batch(&self, cpu: &mut Cpu<D>, tally: &mut Tally) -> Result<(), Failure>
        ensures made { IfOk result (λ _. cpu.new.made ≡ cpu.old.made) }
        ensures counted { IfOk result (λ _. total_of tally.new + answers_in cpu.old.log ≤ total_of tally.old + answers_in cpu.new.log) }
    {
        let words = self.registry.words();
        enter(words, cpu)?;
        let last = self.look_up_all(cpu, tally);
        // While the section is open the last found entry can't go, so a reference to it can be acquired.
        let acquired = acquire(words, cpu);
        exit(words, cpu);
        match acquired {
            Ok(psref) => self.send_late(cpu, psref, last),
            Err(Refusal::NothingFound) => Ok(()),
            Err(refusal) => Err(Failure::Refused(refusal)),
        }
    }

    /// Looks up the interface of each packet of a batch, and counts it. Returns what the last one found.
    fn look_up_all(&self, cpu: &mut Cpu<D>, tally: &mut Tally) -> Option<Entry>
        requires inside { cpu.old.view.begin ≢ None }
        ensures inside { cpu.new.view.begin ≢ None }
        ensures made { cpu.new.made ≡ cpu.old.made }
        ensures counted { total_of tally.new + answers_in cpu.old.log ≤ total_of tally.old + answers_in cpu.new.log }
    {
        let mut last = None;
        for _ in 0..BATCH {
            last = find(self.registry.words(), cpu, Kind::Iface, &self.iface);
            tally.count(last);
        }
        last
    }

    /// A packet that had to wait outside of any section: by now the interface may be pulled out, but its record is still there, since the
    /// reference holds it. The reference goes back to the CPU that acquired it.
    #[tactic(auto, using(crate::proofs::Accounted::read_made, crate::proofs::Accounted::release_made, crate::proofs::Searched::read_answers, crate::proofs::Searched::release_answers))]
    fn send_late(&self, cpu: &mut Cpu<D>, psref: Psref, found: Option<Entry>) -> Result<(), Failure>
        ensures made { IfOk result (λ _. cpu.new.made ≡ cpu.old.made) }
        ensures log { IfOk result (λ _. answers_in cpu.old.log ≤ answers_in cpu.new.log) }
    {
        yield_now();
        let words = self.registry.words();
        let rec = read(words, cpu, &psref);
        if let Err((refusal, psref)) = release(words, cpu, psref) {
            psref.forget();
            return Err(Failure::Refused(refusal));
        }
        let rec = rec?;
        match found {
            Some(entry) if entry.rec == rec => Ok(()),
            _ => Err(Failure::Wrong("a record changed under its reference")),
        }
    }

    /// Attaches the driver.
    fn load_driver<R: Wait>(&self, rt: &R, cpu: &mut Cpu<D>) -> Result<(), Failure>
        ensures made { IfOk result (λ _. MakesAtMost 1 cpu.old cpu.new) }
    {
        let rec = Record {
            kind: Kind::Driver,
            name: self.driver,
            value: 0,
        };
        self.registry.attach(rt, cpu, rec)?;
        Ok(())
    }

    /// Attaches the interface and detaches it, again and again. Returns how often its slot was freed, and the CPU, which knows of each time.
    #[tactic(auto, using(crate::proofs::Accounted::makes_zero))]
    fn plug_all<R: Wait>(&self, rt: &R, mut cpu: Cpu<D>) -> Result<(u64, Cpu<D>), Failure>
        ensures freed { IfOk result (λ freed. freed.0 ≤ frees_in freed.1.known_log) }
        ensures made { IfOk result (λ freed. MakesAtMost (2 * freed.0) cpu freed.1) }
    {
        for plug in 0..PLUGS {
            self.plug_in(rt, &mut cpu, plug + 1)?;
            self.wait_for_batches((plug + 1) * BATCHES_A_PLUG);
            self.pull_out(rt, &mut cpu)?;
        }
        Ok((PLUGS, cpu))
    }

    /// Attaches the interface. Its slot keeps a reference to the driver, which can't go before it.
    fn plug_in<R: Wait>(&self, rt: &R, cpu: &mut Cpu<D>, value: u64) -> Result<(), Failure>
        ensures known { IfOk result (λ _. IsPrefix cpu.old.known_log cpu.new.known_log) }
        ensures made { IfOk result (λ _. MakesAtMost 1 cpu.old cpu.new) }
    {
        let driver = self.take_driver(cpu)?;
        let rec = Record {
            kind: Kind::Iface,
            name: self.iface,
            value,
        };
        match self.registry.attach_iface(rt, cpu, rec, driver) {
            Ok(_entry) => Ok(()),
            Err((refusal, driver)) => {
                self.registry.release_local(rt, cpu, driver);
                Err(Failure::Refused(refusal))
            }
        }
    }

    /// Acquires a local reference to the driver, in a section of its own.
    fn take_driver(&self, cpu: &mut Cpu<D>) -> Result<LocalRef<D>, Failure>
        ensures known { IfOk result (λ _. cpu.new.known_log ≡ cpu.old.known_log) }
        ensures none { IfOk result (λ _. MakesNone cpu.old cpu.new) }
    {
        let words = self.registry.words();
        enter(words, cpu)?;
        find(words, cpu, Kind::Driver, &self.driver);
        let driver = acquire_local(words, cpu);
        exit(words, cpu);
        Ok(driver?)
    }

    /// Detaches the interface, and waits until nobody holds it: the sections that were open, and the passive references.
    #[tactic(auto, using(crate::proofs::Frees::detached_destroyed))]
    fn pull_out<R: Wait>(&self, rt: &R, cpu: &mut Cpu<D>) -> Result<(), Failure>
        ensures freed { IfOk result (λ _. frees_in cpu.old.known_log < frees_in cpu.new.known_log) }
        ensures made { IfOk result (λ _. MakesAtMost 1 cpu.old cpu.new) }
    {
        let entry = self.registry.detach(rt, cpu, Kind::Iface, &self.iface)?;
        self.registry.destroy(rt, cpu, entry.number, u32::MAX)?;
        Ok(())
    }

    /// Waits until so many batches were carried.
    fn wait_for_batches(&self, batches: u64) {
        for _ in 0..PATIENCE {
            if self.carried.load(SeqCst) >= batches {
                return;
            }
            yield_now();
        }
    }
}

impl Tally {
    /// Counts a packet for what its lookup found.
    #[tactic(auto, using(crate::proofs::Searched::total_set))]
    fn count(&mut self, found: Option<Entry>)
        ensures { total_of self.new ≤ total_of self.old + 1 }
    {
        let place = match found {
            Some(entry) => entry.rec.value as usize,
            None => 0,
        };
        if place < self.0.len() {
            self.0[place] = self.0[place].saturating_add(1);
        }
    }

    /// The packets that were counted.
    #[tactic(auto, using(crate::proofs::Searched::total_next, crate::proofs::Searched::total_first))]
    fn total(&self) -> u64
        ensures { result ≤ total_of self.now }
    {
        let mut total = 0u64;
        for count in self.0 {
            total = total.saturating_add(count);
        }
        total
    }
}
