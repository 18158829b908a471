//! The work that takes turns: destroying a retired entry, and waiting for open sections.

ghost use Rattle.std.specs.Prelude.{◌≡◌};
ghost use Rattle.c_calls.specs.Calls.{AreOfOne, Through};
ghost use Rattle.c_calls.specs.Turns.{DestroyAnswers, EndsSections, PerformCalls, TurnCalls};

use c_calls::turns;
use c_handles::handle::{CpuHandle, KeeperHandle};
use c_handles::values::answer::{StageAnswer, TurnAnswer, WaitAnswer};
use c_handles::values::place::{NumberPlace, StagePlace, WaitPlace};

/// `kupaldiz_destroy` of the header. `done` of `DestroyAnswers`: an entry that was destroyed is gone, now and later.
#[unsafe(no_mangle)]
pub extern "C" fn kupaldiz_destroy(
    keeper: &mut KeeperHandle,
    number: u64,
    met: StagePlace,
) -> StageAnswer
    ensures place { result.place.at ≡ met.at }
    ensures call { Through keeper.old.body keeper.new.body result.number (result.place.value ≡ met.value)
        (λ k l. DestroyAnswers number k l result.number met.value result.place.value) }
{
    turns::destroy(keeper, number, met)
}

/// `kupaldiz_perform_begin` of the header.
#[unsafe(no_mangle)]
pub extern "C" fn kupaldiz_perform_begin(
    keeper: &mut KeeperHandle,
    cpu: &mut CpuHandle,
    wait: WaitPlace,
) -> WaitAnswer
    requires { AreOfOne keeper.old.body cpu.old.body }
    ensures place { result.place.at ≡ wait.at }
    ensures call { PerformCalls keeper.old.body cpu.old.body keeper.new.body cpu.new.body result.number wait.value result.place.value }
{
    turns::perform_begin(keeper, cpu, wait)
}

/// `kupaldiz_perform_turn` of the header. `ended`: once it is done, each section has had its exit that was open as the wait began.
#[unsafe(no_mangle)]
pub extern "C" fn kupaldiz_perform_turn(
    keeper: &mut KeeperHandle,
    cpu: &mut CpuHandle,
    wait: WaitPlace,
    waited: NumberPlace,
) -> TurnAnswer
    requires { AreOfOne keeper.old.body cpu.old.body }
    ensures places { (result.wait.at ≡ wait.at) × (result.place.at ≡ waited.at) }
    ensures call { TurnCalls keeper.old.body cpu.old.body keeper.new.body cpu.new.body result.number wait.value result.wait.value waited.value result.place.value }
    ensures ended { EndsSections keeper.old.body cpu.old.body cpu.new.body result.number wait.value }
{
    turns::perform_turn(keeper, cpu, wait, waited)
}
