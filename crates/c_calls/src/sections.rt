//! The sections of a CPU, through its handle.

ghost use Rattle.std.specs.Prelude.{◌≡◌};
ghost use Rattle.c_handles.specs.declared.values.plain.TheConstants.{DONE};
ghost use Rattle.c_handles.specs.values.Places.{put};
ghost use Rattle.c_calls.specs.Calls.{Enters, Exits, Through};

use c_handles::handle::CpuHandle;
use c_handles::heap::CHandle;
use c_handles::values::answer::NumberAnswer;
use c_handles::values::place::NumberPlace;
use c_handles::values::plain::{DONE, EMPTY_HANDLE, OUTSIDE, answered};
use passive_list::{enter_on, exit_on};

/// `kupaldiz_enter` of the header.
pub fn enter(cpu: &mut CpuHandle) -> u32
    ensures { Through cpu.old.body cpu.new.body result (Unit {0}) (λ a b. Enters a b result) }
{
    let Some(body) = cpu.body_mut() else {
        return EMPTY_HANDLE;
    };
    answered(enter_on(&body.words, &mut body.cpu))
}

/// `kupaldiz_exit` of the header.
pub fn exit(cpu: &mut CpuHandle) -> u32
    ensures { Through cpu.old.body cpu.new.body result (Unit {0}) (λ a b. Exits a b result) }
{
    let Some(body) = cpu.body_mut() else {
        return EMPTY_HANDLE;
    };
    if !body.cpu.inside() {
        return OUTSIDE;
    }
    exit_on(&body.words, &mut body.cpu);
    DONE
}

/// `kupaldiz_depth` of the header.
pub fn depth(cpu: &mut CpuHandle, mut depth: NumberPlace) -> NumberAnswer
    ensures place { result.place.at ≡ depth.at }
    ensures call { Through cpu.old.body cpu.new.body result.number (result.place.value ≡ depth.value)
        (λ a b. (result.number ≡ DONE) × (b ≡ a) × (result.place.value ≡ put depth.value a.cpu.depth)) }
{
    let Some(body) = cpu.body_mut() else {
        return depth.answer(EMPTY_HANDLE);
    };
    depth.put(u64::from(body.cpu.depth()));
    depth.answer(DONE)
}
