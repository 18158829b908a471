//! Waits for open sections as C makes them, by the bodies of its calls: begun, left alone between their turns, and done. The law of such waits
//! (`waits_law`) has a hypothesis, `IsWaitedFor`. The contracts here say that it holds of these waits.

ghost use Rattle.std.specs.Prelude.{◌≡◌, ◌≢◌, ◌+◌, [], ◌∷◌, Ok, Err, Some, None, false, IfOk, IsTrue};
ghost use Rattle.registry_values.specs.Common.{is_key, number_of_refusal};
ghost use Rattle.c_calls.specs.Types.{WrongCpu};
ghost use Rattle.cpu_words.specs.Common.{Named};
ghost use Rattle.passive_list.specs.Common.{OnPlainCpu};
ghost use Rattle.name_registry.specs.Common.{HasSeenAllOut, HaveAllEnded, KeepsWords, is_inside};
ghost use Rattle.c_calls.specs.Audits.{AreAllOf};
ghost use Rattle.c_calls.specs.Opening.{boxed, opened_cpu, opened_down};
ghost use Rattle.c_calls.specs.Turns.{IsUnderWay, IsWaitedFor};
ghost use Rattle.c_callers.specs.{IsOn};

use c_calls::opening::open;
use c_calls::turns::{self, begin_wait};
use c_calls::waits_law;
use c_handles::values::wait::CWait;
use c_handles::{CpuBody, KeeperBody};
use name_registry::{attach_in, detach_in};
use passive_list::{enter_on, exit_on};
use registry_values::{Entry, MOST_CPUS, MOST_SLOTS, Record, Refusal, Settings};
use std::alloc::Global;

/// What C's handles point to once a registry with three CPUs is opened.
#[derive(Drop)]
pub struct Bodies {
    pub keeper: KeeperBody,
    pub first: CpuBody,
    pub second: CpuBody,
    pub third: CpuBody,
}

/// Opens a registry. Its CPUs are new, and all handles are of one registry (`all`): what the other calls, and an audit, ask for.
pub fn opened(alloc: Global) -> Result<Bodies, Refusal>
    ensures first { IfOk result (λ it. it.first ≡ opened_cpu it.keeper.words 0) }
    ensures second { IfOk result (λ it. it.second ≡ opened_cpu it.keeper.words 1) }
    ensures third { IfOk result (λ it. it.third ≡ opened_cpu it.keeper.words 2) }
    ensures all { IfOk result (λ it. AreAllOf (Some it.keeper) (Some it.first ∷ Some it.second ∷ Some it.third ∷ [])) }
{
    let settings = Settings {
        cpus: 3,
        slots: 2,
        change_limit: 20,
        section_limit: 10,
        passive_limit: 10,
        count_limit: 10,
    };
    settings.check_fit()?;
    let (keeper, cpus) = open(alloc, settings)?;
    bodies_of(Box::into_inner(keeper), cpus)
}

/// The keeper and its three CPUs, the last one first.
fn bodies_of(keeper: KeeperBody, mut cpus: Vec<Box<CpuBody, Global>>) -> Result<Bodies, Refusal>
    requires { boxed cpus.items ≡ opened_down keeper.words 3 3 }
    ensures first { IfOk result (λ it. it.first ≡ opened_cpu it.keeper.words 0) }
    ensures second { IfOk result (λ it. it.second ≡ opened_cpu it.keeper.words 1) }
    ensures third { IfOk result (λ it. it.third ≡ opened_cpu it.keeper.words 2) }
    ensures all { IfOk result (λ it. AreAllOf (Some it.keeper) (Some it.first ∷ Some it.second ∷ Some it.third ∷ [])) }
{
    match (cpus.pop(), cpus.pop(), cpus.pop()) {
        (Some(first), Some(second), Some(third)) => Ok(Bodies {
            keeper,
            first: Box::into_inner(first),
            second: Box::into_inner(second),
            third: Box::into_inner(third),
        }),
        _ => Err(Refusal::MissingCpu),
    }
}

/// A wait that was never begun.
pub fn unbegun() -> CWait {
    CWait {
        snapshots: [0; MOST_CPUS],
        retired: [0; MOST_SLOTS],
        begun: 0,
        seen: [false; MOST_CPUS],
    }
}

/// Begins a wait: the body of `kupaldiz_perform_begin`. Conditions: both are of one registry; the CPU is outside.
pub fn begin(keeper: &mut KeeperBody, cpu: &mut CpuBody, wait: &mut CWait)
    requires same { cpu.old.words ≡ keeper.old.words }
    requires outside { is_inside cpu.old.cpu ≡ false }
    ensures begun { IsUnderWay keeper.old.words cpu.old cpu.new wait.new }
    ensures its { wait.new.begun ≡ cpu.old.cpu.view.id + 1 }
    ensures on { IsOn cpu.old.cpu cpu.new.cpu }
    ensures words { KeepsWords keeper.old cpu.old keeper.new cpu.new }
{
    let _done = begin_wait(keeper, cpu, wait);
}

/// One turn of a wait by its CPU: the body of `kupaldiz_perform_turn`. Returns the CPU that it tells, if any, or what refuses it.
/// Condition: both are of one registry.
///
/// `goes_on` and `done`: the CPU x began the wait, and it is as its last call left it and the CPU m, which is this one, after any calls. Then it is under
/// way still. If the turn is done, the wait is as the law asks.
pub fn turn(keeper: &mut KeeperBody, cpu: &mut CpuBody, wait: &mut CWait) -> Result<Option<u8>, u32>
    requires same { cpu.old.words ≡ keeper.old.words }
    ensures goes_on { (words : Named) (x m : OnPlainCpu) → keeper.old.words ≡ words → IsUnderWay words x m wait.old → IsOn m.cpu cpu.old.cpu
        → IsUnderWay words x cpu.new wait.new }
    ensures done { (words : Named) (x m : OnPlainCpu) → keeper.old.words ≡ words → IsUnderWay words x m wait.old → IsOn m.cpu cpu.old.cpu → result ≡ Ok None
        → IsWaitedFor words x cpu.new }
    ensures other { wait.old.begun ≢ 0 → wait.old.begun ≢ cpu.old.cpu.view.id + 1
        → (result ≡ Err (number_of_refusal WrongCpu)) × (keeper.new ≡ keeper.old) × (cpu.new ≡ cpu.old) × (wait.new ≡ wait.old) }
    ensures its { wait.new.begun ≡ wait.old.begun }
    ensures on { IsOn cpu.old.cpu cpu.new.cpu }
    ensures words { KeepsWords keeper.old cpu.old keeper.new cpu.new }
{
    turns::turn(keeper, cpu, wait)
}

/// The CPU leaves its section, or one nesting of it, if it is inside.
pub(crate) fn leave(cpu: &mut CpuBody) {
    if cpu.cpu.inside() {
        exit_on(&cpu.words, &mut cpu.cpu);
    }
}

/// A wait of two turns; the reader leaves its section in between. Returns what each turn returned.
/// Conditions: keeper and CPU are of one registry; the CPU is outside.
///
/// If the second was done, the law's hypothesis holds (`met`), and so does what the law concludes (`seen`, `ended`).
pub fn wait_for(
    keeper: &mut KeeperBody,
    cpu: &mut CpuBody,
    reader: &mut CpuBody,
) -> (Result<Option<u8>, u32>, Result<Option<u8>, u32>)
    requires same { cpu.old.words ≡ keeper.old.words }
    requires outside { is_inside cpu.old.cpu ≡ false }
    ensures met { result.1 ≡ Ok None → IsWaitedFor keeper.old.words cpu.old cpu.new }
    ensures seen { result.1 ≡ Ok None → HasSeenAllOut keeper.old.words.settings.cpus cpu.old.cpu cpu.new.cpu }
    ensures ended { result.1 ≡ Ok None → HaveAllEnded keeper.old.words.settings cpu.old.cpu cpu.new.cpu }
    ensures on { IsOn cpu.old.cpu cpu.new.cpu }
    ensures words { KeepsWords keeper.old cpu.old keeper.new cpu.new }
{
    waits_law();
    let mut wait = unbegun();
    begin(keeper, cpu, &mut wait);
    let first = turn(keeper, cpu, &mut wait);
    leave(reader);
    let second = turn(keeper, cpu, &mut wait);
    (first, second)
}

/// The keeper attaches a driver for the CPU, and detaches it. Conditions: both are of one registry; the name's words aren't both 0.
fn change(keeper: &mut KeeperBody, cpu: &mut CpuBody, rec: Record) -> Result<Entry, Refusal>
    requires same { cpu.old.words ≡ keeper.old.words }
    requires name { IsTrue (is_key rec.name) }
    ensures on { IsOn cpu.old.cpu cpu.new.cpu }
    ensures words { KeepsWords keeper.old cpu.old keeper.new cpu.new }
{
    attach_in(&keeper.words, &mut keeper.keeper, &mut cpu.cpu, rec)?;
    detach_in(
        &keeper.words,
        &mut keeper.keeper,
        &mut cpu.cpu,
        rec.kind,
        &rec.name,
    )
}

/// A wait that is left alone after its first turn. Before its last turn the keeper makes two changes, the CPU makes another wait, and the reader
/// leaves its section and begins another one. Returns what the first turn returned, the last one of the other wait, and the last one.
/// Conditions: as for `wait_for`; the name's words aren't both 0. `met` is the law's hypothesis, of the wait that was left alone.
pub fn leave_alone(
    keeper: &mut KeeperBody,
    cpu: &mut CpuBody,
    reader: &mut CpuBody,
    rec: Record,
) -> Result<
    (
        Result<Option<u8>, u32>,
        Result<Option<u8>, u32>,
        Result<Option<u8>, u32>,
    ),
    Refusal,
>
    requires same { cpu.old.words ≡ keeper.old.words }
    requires outside { is_inside cpu.old.cpu ≡ false }
    requires name { IsTrue (is_key rec.name) }
    ensures met { IfOk result (λ told. told.2 ≡ Ok None → IsWaitedFor keeper.old.words cpu.old cpu.new) }
{
    let mut wait = unbegun();
    begin(keeper, cpu, &mut wait);
    let first = turn(keeper, cpu, &mut wait);
    change(keeper, cpu, rec)?;
    let other = wait_for(keeper, cpu, reader);
    enter_on(&reader.words, &mut reader.cpu)?;
    let last = turn(keeper, cpu, &mut wait);
    Ok((first, other.1, last))
}

/// A wait, where another CPU tries a turn: that is refused (`refused`), and nothing changes. The wait goes on where it was. Returns what the
/// three turns returned.
/// Conditions: the keeper and both CPUs are of one registry; the CPU is outside. `met` is the law's hypothesis.
pub fn other_turns(
    keeper: &mut KeeperBody,
    cpu: &mut CpuBody,
    other: &mut CpuBody,
    reader: &mut CpuBody,
) -> (
    Result<Option<u8>, u32>,
    Result<Option<u8>, u32>,
    Result<Option<u8>, u32>,
)
    requires same { cpu.old.words ≡ keeper.old.words }
    requires other { other.old.words ≡ keeper.old.words }
    requires outside { is_inside cpu.old.cpu ≡ false }
    requires differ { other.old.cpu.view.id ≢ cpu.old.cpu.view.id }
    ensures refused { result.1 ≡ Err (number_of_refusal WrongCpu) }
    ensures unchanged { other.new ≡ other.old }
    ensures met { result.2 ≡ Ok None → IsWaitedFor keeper.old.words cpu.old cpu.new }
{
    let mut wait = unbegun();
    begin(keeper, cpu, &mut wait);
    let first = turn(keeper, cpu, &mut wait);
    leave(reader);
    let refused = turn(keeper, other, &mut wait);
    let last = turn(keeper, cpu, &mut wait);
    (first, refused, last)
}

/// From the opening on: CPU 1 enters a section, and CPU 0 waits for it, while CPU 1 leaves. Returns what both turns returned. If the second was
/// done, the law's hypothesis holds of CPU 0 as it was opened.
pub fn waited(
    alloc: Global,
) -> Result<(Bodies, (Result<Option<u8>, u32>, Result<Option<u8>, u32>)), Refusal>
    ensures { IfOk result (λ made. made.1.1 ≡ Ok None → IsWaitedFor made.0.keeper.words (opened_cpu made.0.keeper.words 0) made.0.first) }
{
    let mut all = opened(alloc)?;
    let second = &mut all.second;
    enter_on(&second.words, &mut second.cpu)?;
    let told = wait_for(&mut all.keeper, &mut all.first, &mut all.second);
    Ok((all, told))
}
