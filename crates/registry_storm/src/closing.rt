//! The end of a storm: what is left of it is taken away on CPU 0. And whether an answer is right, of what was asked and answered alone: what is asked
//! about the driver and the interface found is in `Plan`.

ghost use Rattle.std.specs.Prelude.{◌≡◌, IfErr, IfOk, ◌↔◌, IsTrue, Ok};
ghost use Rattle.name_registry.specs.Common.{AreAllCpus, IsAuditBy};
ghost use Rattle.registry_storm.specs.{GoesOn, IsDriverAlone, IsHeld, IsJudged, held_first, IsAttachOf, IsTurnOf};

use crate::calls::detach;
use crate::churn::{Churn, destroy_one};
use crate::plan::Plan;
use crate::sum::Counts;
use cpu_words::Domain;
use name_registry::Registry;
use passive_list::Cpu;
use registry_language::RunFault;
use registry_values::{Balance, Entry, Refusal, Stage};
use std::alloc::Global;
use std::sync::Wait;

/// Detaches and destroys the interfaces that are left.
pub fn close_ifaces<D: Domain, R: Wait>(
    rt: &R,
    registry: &Registry<D>,
    cpu: &mut Cpu<D>,
    churn: Churn,
    counts: &mut Counts,
)
    ensures { GoesOn counts.old counts.new }
{
    let mut churn = churn;
    if let Some(entry) = churn.live {
        churn.detach(rt, registry, cpu, entry, counts);
    }
    churn.destroy_all(rt, registry, cpu, counts);
}

/// How many local references to the driver are held, by an audit. Right: it tells of the driver alone. Refused: `Memory`.
pub fn held_of_driver<D: Domain, R: Wait>(
    rt: &R,
    alloc: Global,
    registry: &Registry<D>,
    cpus: &mut [Cpu<D>],
    counts: &mut Counts,
) -> Result<i64, RunFault>
    ensures memory { IfErr result (λ fault. fault ≡ RunFault.Memory) }
    ensures held { AreAllCpus D.settings.cpus cpus.old → IfOk result (IsHeld (IsAuditBy D.settings cpus.old cpus.new) counts.old counts.new) }
    ensures counted { GoesOn counts.old counts.new }
{
    match registry.audit(rt, alloc, cpus) {
        Ok(balances) => Ok(held_in(&balances, counts)),
        Err(Refusal::NoMemory) => Err(RunFault::Memory),
        Err(_) => {
            counts.judge(false);
            Ok(0)
        }
    }
}

/// The local references held to the only entry, which is the driver.
fn held_in(balances: &[Balance], counts: &mut Counts) -> i64
    ensures held { result ≡ held_first balances.now }
    ensures judged { IsJudged (IsDriverAlone balances.now) counts.old counts.new }
{
    counts.judge(is_driver_alone(balances));
    match balances.first() {
        Some(balance) => balance.held,
        None => 0,
    }
}

/// Detaches and destroys the driver.
pub fn close_driver<D: Domain, R: Wait>(
    rt: &R,
    registry: &Registry<D>,
    plan: Plan,
    cpu: &mut Cpu<D>,
    counts: &mut Counts,
)
    ensures { GoesOn counts.old counts.new }
{
    detach(rt, registry, cpu, plan.driver_entry(), counts).ok();
    destroy_one(rt, registry, cpu, 1, 0, counts);
}

/// Whether an attach of the interface was answered as it may be: it is attached, or no slot is vacant.
pub fn is_attach(answer: Result<Entry, Refusal>) -> bool
    ensures { IsTrue result ↔ IsAttachOf answer }
{
    match answer {
        Ok(_) => true,
        Err(refusal) => refusal == Refusal::NoSlot,
    }
}

/// Whether a detach answered this entry.
pub fn is_detached(answer: Result<Entry, Refusal>, entry: Entry) -> bool
    ensures { IsTrue result ↔ (answer ≡ Ok entry) }
{
    answer == Ok(entry)
}

/// Whether a turn of the work on the interface that was retired in the slot was answered as it may be. Nobody refers to it, so it waits for
/// sections alone.
pub fn is_turn(answer: Result<Stage, Refusal>, slot: u8) -> bool
    ensures { IsTrue result ↔ IsTurnOf slot answer }
{
    match answer {
        Ok(Stage::Grace(_)) => true,
        Ok(Stage::Freed(freed)) => freed == slot,
        Ok(Stage::Passive(_) | Stage::Local(_)) | Err(_) => false,
    }
}

/// Whether a destroy freed this slot.
pub fn is_destroyed(answer: Result<u8, Refusal>, slot: u8) -> bool
    ensures { IsTrue result ↔ (answer ≡ Ok slot) }
{
    answer == Ok(slot)
}

/// Whether an audit told of the driver, and of nothing else.
pub fn is_driver_alone(balances: &[Balance]) -> bool
    ensures { IsTrue result ↔ IsDriverAlone balances.now }
{
    match balances {
        [balance] => balance.number == 1,
        _ => false,
    }
}
