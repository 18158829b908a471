//! A storm: workers on all CPUs look up, refer and release at once, while one of them attaches and detaches an interface.

ghost use Rattle.std.specs.Prelude.{◌≡◌, ◌+◌, ◌*◌, ◌≤◌, IfOk, IfErr, length, vec_len};
ghost use Rattle.name_registry.specs.Common.{AreNewCpus, IsBlankOf};
ghost use Rattle.registry_storm.specs.{IsOfStorm, IsSumOf, settings_of};

use crate::baskets::Baskets;
use crate::calls::attach_driver;
use crate::closing::{close_driver, close_ifaces, held_of_driver};
use crate::plan::{DRIVER_VALUE, Plan, settings_of};
use crate::sum::{Counts, StormDeeds, StormSum};
use crate::worker::{Done, Gate, Shared};
use crate::workers::work_all;
use cpu_words::Domain;
use name_registry::{Blank, Registry};
use passive_list::Cpu;
use registry_language::RunFault;
use registry_values::USUAL_CPUS;
use std::alloc::Global;
use std::marker::Brand;
use std::sync::Wait;
use std::thread::Threads;

/// What a storm counts, and what was done in it.
#[derive(Clone, Copy, Debug, PartialEq, Eq)]
pub struct StormRun {
    /// The sum that a storm tells.
    pub sum: StormSum,
    /// What was done beside.
    pub deeds: StormDeeds,
}

/// Runs a storm over a registry of its own: one driver, `drv`, and one worker a CPU, all at once. In each turn a worker
///
/// 1. enters, passes the gate, looks up the interface `wm0` and the driver, and acquires both references to the driver;
/// 2. exits, and reads by both;
/// 3. releases the passive one, and exchanges the local one with what is in the next CPU's basket;
/// 4. releases what it got and what is in its basket.
///
/// CPU 0 also attaches or detaches the interface, and works on detached ones. In the end all is released and destroyed.
///
/// Condition: 1 to `USUAL_CPUS` CPUs, and 1 to 100,000 turns.
/// Refused: `Memory`; `NoThread` if a worker couldn't be started.
pub fn storm<R: Threads + Wait + Sync, G: Gate + Sync>(
    rt: &R,
    alloc: Global,
    cpus: u8,
    turns: u32,
    gate: &G,
) -> Result<StormSum, RunFault>
    requires cpus { (1 ≤ cpus) × (cpus ≤ USUAL_CPUS) }
    requires turns { (1 ≤ turns) × (turns ≤ 100000) }
    ensures ok { IfOk result (λ sum. IsSumOf cpus turns sum) }
    ensures err { IfErr result IsOfStorm }
{
    let run = storm_run(rt, alloc, cpus, turns, DRIVER_VALUE, gate)?;
    Ok(run.sum)
}

/// A storm as `storm` makes it, whose driver is attached with this value; what was done in it is told too. Workers expect 7. With another
/// value each answer about the driver is wrong: three in each turn of each worker, one before each attach of the interface, and two of
/// CPU 0 about the driver's own attach and detach. So a bench sees that a storm tells what goes wrong.
/// Condition and refusals: as of `storm`.
pub fn storm_run<R: Threads + Wait + Sync, G: Gate + Sync>(
    rt: &R,
    alloc: Global,
    cpus: u8,
    turns: u32,
    value: u64,
    gate: &G,
) -> Result<StormRun, RunFault>
    requires cpus { (1 ≤ cpus) × (cpus ≤ USUAL_CPUS) }
    requires turns { (1 ≤ turns) × (turns ≤ 100000) }
    ensures ok { IfOk result (λ run. IsSumOf cpus turns run.sum) }
    ensures err { IfErr result IsOfStorm }
{
    match Blank::new(alloc, settings_of(cpus)) {
        Ok(blank) => storm_on::<Brand, R, G>(rt, alloc, blank, Plan::new(cpus, turns), value, gate),
        Err(_) => Err(RunFault::Memory),
    }
}

/// A storm over the registry that is made of the blank.
fn storm_on<D: Domain + Send + Sync, R: Threads + Wait + Sync, G: Gate + Sync>(
    rt: &R,
    alloc: Global,
    blank: Blank,
    plan: Plan,
    value: u64,
    gate: &G,
) -> Result<StormRun, RunFault>
    requires named { IsBlankOf blank D.table D.settings D.name D.parts }
    requires settings { D.settings ≡ settings_of plan.cpus }
    ensures ok { IfOk result (λ run. IsSumOf plan.cpus plan.turns run.sum) }
    ensures err { IfErr result IsOfStorm }
{
    let Ok((registry, mut cpus)) = blank.open::<D>(alloc) else {
        return Err(RunFault::Memory);
    };
    let mut first = take_first(plan, &mut cpus);
    let mut counts = Counts::NONE;
    attach_driver(rt, &registry, plan, value, &mut first, &mut counts);
    let mut done = blow(rt, alloc, &registry, plan, gate, &mut first, &mut cpus)?;
    done.counts.add(counts);
    close_ifaces(rt, &registry, &mut first, done.churn, &mut done.counts);
    if cpus.insert(0, first).is_err() {
        return Err(RunFault::Memory);
    }
    finish(rt, alloc, &registry, plan, &mut cpus, done.counts)
}

/// Takes CPU 0 out of the CPUs of a new registry.
fn take_first<D: Domain>(plan: Plan, cpus: &mut Vec<Cpu<D>>) -> Cpu<D>
    requires settings { D.settings ≡ settings_of plan.cpus }
    requires new { AreNewCpus D.settings D.settings.cpus cpus.old.items }
    ensures others { vec_len cpus.new + 1 ≡ plan.cpus }
{
    // Reading it opens what its type keeps: a storm has a CPU 0.
    let _plan = plan;
    cpus.remove(0)
}

/// All turns of all workers; then what is left in the baskets is released on CPU 0.
fn blow<D: Domain + Send + Sync, R: Threads + Wait + Sync, G: Gate + Sync>(
    rt: &R,
    alloc: Global,
    registry: &Registry<D>,
    plan: Plan,
    gate: &G,
    first: &mut Cpu<D>,
    others: &mut [Cpu<D>],
) -> Result<Done, RunFault>
    requires { length others.old + 1 ≡ plan.cpus }
    ensures ok { IfOk result (λ done. done.counts.lookups ≡ 2 * plan.turns * plan.cpus) }
    ensures err { IfErr result IsOfStorm }
{
    let baskets = Baskets::new(alloc)?;
    let shared = Shared {
        registry,
        baskets: &baskets,
        gate,
        plan,
    };
    let mut left = Counts::NONE;
    let ended = work_all(rt, alloc, &shared, first, others);
    baskets.empty(rt, registry, first, &mut left);
    let mut done = ended?;
    done.counts.add(left);
    Ok(done)
}

/// The audit at the end, and the end of the driver.
fn finish<D: Domain, R: Wait>(
    rt: &R,
    alloc: Global,
    registry: &Registry<D>,
    plan: Plan,
    cpus: &mut [Cpu<D>],
    counts: Counts,
) -> Result<StormRun, RunFault>
    requires { counts.lookups ≡ 2 * plan.turns * plan.cpus }
    ensures ok { IfOk result (λ run. IsSumOf plan.cpus plan.turns run.sum) }
    ensures err { IfErr result IsOfStorm }
{
    let mut counts = counts;
    let held = held_of_driver(rt, alloc, registry, cpus, &mut counts)?;
    match cpus.first_mut() {
        Some(cpu) => close_driver(rt, registry, plan, cpu, &mut counts),
        None => counts.judge(false),
    }
    let sum = StormSum {
        cpus: plan.cpus,
        turns: plan.turns,
        lookups: counts.lookups,
        references: counts.references,
        wrong: counts.wrong,
        held,
    };
    Ok(StormRun {
        sum,
        deeds: counts.deeds,
    })
}
