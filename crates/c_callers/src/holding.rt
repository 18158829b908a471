//! A local reference as C holds it, through the handles. Its calls have the condition that it is of the other handle's registry (`IsOfCpu`,
//! `IsOfKeeper`): here it is met.

ghost use Rattle.std.specs.Prelude.{◌≡◌, None};
ghost use Rattle.c_handles.specs.OnHandle.{held_by};

use c_calls::{locals, sections};
use c_handles::answer::CpusAnswer;
use c_handles::handle::{CpuHandle, KeeperHandle};
use c_handles::heap::{CHandle, Handle, Held};
use c_handles::local_handle::LocalHandle;
use c_handles::rows::CpusPlace;
use c_handles::values::answer::GivenEntryAnswer;
use c_handles::values::given::GivenEntry;
use c_handles::{CpuBody, KeeperBody};
use std::alloc::Global;

/// The CPU acquires a local reference to the entry, and leaves its section. The keeper is asked to release it without a CPU: it can't, as no
/// count was collected. So the CPU releases it. Returns what `kupaldiz_acquire_local`, `kupaldiz_exit`, `kupaldiz_release_local_locked` and
/// `kupaldiz_try_release_local` return.
/// Conditions: both are of one registry; `nothing` is null; the reference is empty.
pub fn hold(
    alloc: Global,
    keeper: Box<KeeperBody, Global>,
    cpu: Box<CpuBody, Global>,
    entry: GivenEntry,
    nothing: CpusPlace,
    local: &mut LocalHandle,
) -> (GivenEntryAnswer, u32, CpusAnswer, u32)
    requires same { cpu.value.words ≡ keeper.value.words }
    requires nothing { nothing.value ≡ None }
    requires empty { held_by local.old ≡ None }
    ensures { held_by local.new ≡ None }
{
    let mut keeper = KeeperHandle::of_handle(Handle::of(Held::of(keeper)));
    let mut cpu = CpuHandle::of_handle(Handle::of(Held::of(cpu)));
    let acquired = locals::acquire_local(alloc, &mut cpu, entry, local);
    let exited = sections::exit(&mut cpu);
    let given_up = locals::release_local_locked(alloc, &mut keeper, nothing, local);
    let released = locals::try_release_local(alloc, &mut cpu, local);
    locals::forget_local(alloc, local);
    let _cpu = cpu.take_box(alloc);
    cpu.into_handle().end();
    let _keeper = keeper.take_box(alloc);
    keeper.into_handle().end();
    (acquired, exited, given_up, released)
}
