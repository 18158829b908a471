//! The work that C does in turns: destroying a retired entry, and waiting for open sections. A wait's rows are where C keeps the wait.

ghost use Rattle.std.specs.Prelude.{◌≡◌};
ghost use Rattle.registry_values.specs.Common.{destroy_result};
ghost use Rattle.c_handles.specs.values.Texts.{number_of};
ghost use Rattle.c_calls.specs.Calls.{AreOfOne, Through};
ghost use Rattle.c_calls.specs.Turns.{Advances, Begins, DestroyAnswers, PerformAnswers, PerformCalls, PerformsAt, SectionsEnd, TurnAnswers, TurnCalls, Turns, TurnsAt, WaitsEnd, WaitsStay, WritesTold, why_refused};

use c_handles::handle::{CpuHandle, KeeperHandle};
use c_handles::heap::CHandle;
use c_handles::values::answer::{StageAnswer, TurnAnswer, WaitAnswer};
use c_handles::values::place::{NumberPlace, StagePlace, WaitPlace};
use c_handles::values::plain::{DONE, EMPTY_HANDLE, NOT_BEGUN, NULL, refused, stage_out};
use c_handles::values::wait::CWait;
use c_handles::{CpuBody, KeeperBody};
use name_registry::{advance_in, begin, glance_at_all, pass_all};
use registry_values::{MOST_CPUS, Refusal, Stage, destroyed};

/// `kupaldiz_destroy` of the header. `done` of `DestroyAnswers`: an entry that was destroyed is gone, now and later.
pub fn destroy(keeper: &mut KeeperHandle, number: u64, mut met: StagePlace) -> StageAnswer
    ensures place { result.place.at ≡ met.at }
    ensures call { Through keeper.old.body keeper.new.body result.number (result.place.value ≡ met.value)
        (λ k l. DestroyAnswers number k l result.number met.value result.place.value) }
{
    let Some(body) = keeper.body_mut() else {
        return met.answer(EMPTY_HANDLE);
    };
    let answer = destroy_into(body, number, &mut met);
    met.answer(answer)
}

#[tactic(auto, using(crate::proofs::Turned::destroyed_by))]
fn destroy_into(keeper: &mut KeeperBody, number: u64, met: &mut StagePlace) -> u32
    ensures place { met.new.at ≡ met.old.at }
    ensures call { DestroyAnswers number keeper.old keeper.new result met.old.value met.new.value }
{
    match advance(keeper, number) {
        Ok(stage) => {
            met.put(stage_out(stage));
            destroyed_number(stage)
        }
        Err(refusal) => refused(refusal),
    }
}

/// One turn of the work on a retired entry.
fn advance(keeper: &mut KeeperBody, number: u64) -> Result<Stage, Refusal>
    ensures { Advances number keeper.old keeper.new result }
{
    advance_in(&keeper.words, &mut keeper.keeper, number)
}

/// The number for a destroy, from its last stage.
fn destroyed_number(stage: Stage) -> u32
    ensures { result ≡ number_of (destroy_result stage) }
{
    match destroyed(stage) {
        Ok(_) => DONE,
        Err(refusal) => refused(refusal),
    }
}

/// `kupaldiz_perform_begin` of the header.
pub fn perform_begin(
    keeper: &mut KeeperHandle,
    cpu: &mut CpuHandle,
    mut wait: WaitPlace,
) -> WaitAnswer
    requires { AreOfOne keeper.old.body cpu.old.body }
    ensures place { result.place.at ≡ wait.at }
    ensures call { PerformCalls keeper.old.body cpu.old.body keeper.new.body cpu.new.body result.number wait.value result.place.value }
{
    let Some(k) = keeper.body_mut() else {
        return wait.answer(EMPTY_HANDLE);
    };
    let Some(c) = cpu.body_mut() else {
        return wait.answer(EMPTY_HANDLE);
    };
    let answer = begin_at(k, c, &mut wait);
    wait.answer(answer)
}

fn begin_at(keeper: &mut KeeperBody, cpu: &mut CpuBody, wait: &mut WaitPlace) -> u32
    requires same { cpu.old.words ≡ keeper.old.words }
    ensures place { wait.new.at ≡ wait.old.at }
    ensures call { PerformsAt keeper.old cpu.old keeper.new cpu.new result wait.old.value wait.new.value }
{
    match wait.value_mut() {
        None => NULL,
        Some(wait) => begin_wait(keeper, cpu, wait),
    }
}

/// `kupaldiz_perform_begin` on the bodies. Condition: both are of one registry.
pub fn begin_wait(keeper: &mut KeeperBody, cpu: &mut CpuBody, wait: &mut CWait) -> u32
    requires same { cpu.old.words ≡ keeper.old.words }
    ensures { PerformAnswers keeper.old cpu.old keeper.new cpu.new result wait.old wait.new }
{
    if cpu.is_inside() {
        return refused(Refusal::Inside);
    }
    write_wait(keeper, cpu, wait);
    DONE
}

fn write_wait(keeper: &mut KeeperBody, cpu: &mut CpuBody, wait: &mut CWait)
    requires same { cpu.old.words ≡ keeper.old.words }
    ensures { Begins keeper.old cpu.old keeper.new cpu.new wait.new }
{
    let KeeperBody { words, keeper } = keeper;
    wait.begun = u64::from(cpu.cpu.id()) + 1;
    wait.seen = [false; MOST_CPUS];
    begin(
        words,
        keeper,
        &mut cpu.cpu,
        &mut wait.snapshots,
        &mut wait.retired,
    );
}

/// `kupaldiz_perform_turn` of the header.
pub fn perform_turn(
    keeper: &mut KeeperHandle,
    cpu: &mut CpuHandle,
    mut wait: WaitPlace,
    mut waited: NumberPlace,
) -> TurnAnswer
    requires { AreOfOne keeper.old.body cpu.old.body }
    ensures places { (result.wait.at ≡ wait.at) × (result.place.at ≡ waited.at) }
    ensures call { TurnCalls keeper.old.body cpu.old.body keeper.new.body cpu.new.body result.number wait.value result.wait.value waited.value result.place.value }
{
    let Some(k) = keeper.body_mut() else {
        return waited.answer(EMPTY_HANDLE).with_wait(wait);
    };
    let Some(c) = cpu.body_mut() else {
        return waited.answer(EMPTY_HANDLE).with_wait(wait);
    };
    let answer = turn_at(k, c, &mut wait, &mut waited);
    waited.answer(answer).with_wait(wait)
}

fn turn_at(
    keeper: &mut KeeperBody,
    cpu: &mut CpuBody,
    wait: &mut WaitPlace,
    waited: &mut NumberPlace,
) -> u32
    requires same { cpu.old.words ≡ keeper.old.words }
    ensures places { (wait.new.at ≡ wait.old.at) × (waited.new.at ≡ waited.old.at) }
    ensures call { TurnsAt keeper.old cpu.old keeper.new cpu.new result wait.old.value wait.new.value waited.old.value waited.new.value }
{
    match wait.value_mut() {
        None => NULL,
        Some(wait) => told(turn(keeper, cpu, wait), waited),
    }
}

/// The number for a turn. The CPU that it told is written.
fn told(turned: Result<Option<u8>, u32>, waited: &mut NumberPlace) -> u32
    ensures place { waited.new.at ≡ waited.old.at }
    ensures writes { WritesTold turned result waited.old.value waited.new.value }
{
    match turned {
        Ok(None) => DONE,
        Ok(Some(cpu)) => {
            waited.put(u64::from(cpu));
            refused(Refusal::Waiting(cpu))
        }
        Err(number) => number,
    }
}

/// `kupaldiz_perform_turn` on the bodies: the lowest-numbered CPU that wasn't seen out of its section, if any, or the number of what is
/// refused. Condition: both are of one registry.
pub fn turn(keeper: &mut KeeperBody, cpu: &mut CpuBody, wait: &mut CWait) -> Result<Option<u8>, u32>
    requires same { cpu.old.words ≡ keeper.old.words }
    ensures { TurnAnswers keeper.old cpu.old keeper.new cpu.new result wait.old wait.new }
{
    match why_refused(wait, cpu) {
        Some(number) => Err(number),
        None => Ok(turn_outside(keeper, cpu, wait)),
    }
}

/// Why a turn of the wait by this CPU is refused, if it is.
fn why_refused(wait: &CWait, cpu: &CpuBody) -> Option<u32>
    ensures { result ≡ why_refused wait.now cpu.now.cpu }
{
    if wait.begun == 0 {
        Some(NOT_BEGUN)
    } else if wait.begun == u64::from(cpu.cpu.id()) + 1 {
        if cpu.is_inside() {
            Some(refused(Refusal::Inside))
        } else {
            None
        }
    } else {
        Some(refused(Refusal::WrongCpu))
    }
}

/// One turn of a wait. The keeper and the CPU tell each other what they know, and once more as what was retired passes.
#[tactic(auto, using(crate::proofs::Turned::finishes_passed, crate::proofs::Turned::finishes_waiting))]
fn turn_outside(keeper: &mut KeeperBody, cpu: &mut CpuBody, wait: &mut CWait) -> Option<u8>
    requires same { cpu.old.words ≡ keeper.old.words }
    ensures { Turns keeper.old cpu.old keeper.new cpu.new result wait.old wait.new }
{
    let KeeperBody { words, keeper } = keeper;
    let cpu = &mut cpu.cpu;
    let told = glance_at_all(words, keeper, cpu, &wait.snapshots, &mut wait.seen);
    if told.is_none() {
        pass_all(words, keeper, cpu, &wait.retired);
    }
    told
}

/// Theorem, no effect at run time: what a wait from C means, whatever happens to the registry meanwhile.
///
/// Hypotheses:
///
/// - `kupaldiz_perform_begin` began the wait, and turns of `kupaldiz_perform_turn` got it exactly as the call before had left it;
/// - the turns were made by CPUs of the same registry, and the last turn returned `KUPALDIZ_DONE`;
/// - a CPU that a turn got was the CPU of its number, after any calls (`IsAfter`).
///
/// Conclusions, in what the wait's CPU knows then:
///
/// 1. each section that was open as `kupaldiz_perform_begin` was called has ended (`waited`, `ended`);
/// 2. each entry that had been detached by then has passed on each CPU, unless its slot was reused (`waited`).
///
/// That is the Ok of `Registry::perform`. A wait that was begun stays its CPU's (`begun`): no turn of that CPU is refused as one of a wait
/// that wasn't begun, or of another CPU's.
#[tactic(auto, using(crate::proofs::Waits::waits_end, crate::proofs::Waits::waits_stay))]
pub fn waits_law()
    ensures waited { WaitsEnd }
    ensures ended { SectionsEnd }
    ensures begun { WaitsStay }
{}
