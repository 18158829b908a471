//! The calls of local references.

ghost use Rattle.std.specs.Prelude.{◌≡◌};
ghost use Rattle.c_handles.specs.Heap.{IsLong};
ghost use Rattle.c_handles.specs.OnHandle.{held_by};
ghost use Rattle.c_calls.specs.Calls.{IsOfCpu, IsOfKeeper, Through};
ghost use Rattle.c_calls.specs.LocalCalls.{AcquiresLocal, AreOfOneRow, GetsLocalNamed, LocalCopies, LocalForgets, LocalReleases, ReleasesLocked, ThroughLocal};

use c_calls::locals;
use c_handles::answer::CpusAnswer;
use c_handles::handle::{CpuHandle, KeeperHandle};
use c_handles::local_handle::LocalHandle;
use c_handles::rows::CpusPlace;
use c_handles::values::answer::{GivenEntryAnswer, GivenNameAnswer};
use c_handles::values::given::{GivenEntry, GivenName};
use std::alloc::Global;

/// `kupaldiz_get_local` of the header.
#[unsafe(no_mangle)]
pub extern "C" fn kupaldiz_get_local(
    alloc: Global,
    cpu: &mut CpuHandle,
    kind: u32,
    name: GivenName,
    local: &mut LocalHandle,
) -> GivenNameAnswer
    ensures given { result.name ≡ name }
    ensures call { Through cpu.old.body cpu.new.body result.number (held_by local.new ≡ held_by local.old)
        (λ a b. GetsLocalNamed kind name.name a b result.number (held_by local.old) (held_by local.new)) }
{
    locals::get_local(alloc, cpu, kind, name, local)
}

/// `kupaldiz_acquire_local` of the header.
#[unsafe(no_mangle)]
pub extern "C" fn kupaldiz_acquire_local(
    alloc: Global,
    cpu: &mut CpuHandle,
    entry: GivenEntry,
    local: &mut LocalHandle,
) -> GivenEntryAnswer
    ensures given { result.entry ≡ entry }
    ensures call { Through cpu.old.body cpu.new.body result.number (held_by local.new ≡ held_by local.old)
        (λ a b. AcquiresLocal entry.entry a b result.number (held_by local.old) (held_by local.new)) }
{
    locals::acquire_local(alloc, cpu, entry, local)
}

/// `kupaldiz_copy_local` of the header.
#[unsafe(no_mangle)]
pub extern "C" fn kupaldiz_copy_local(
    alloc: Global,
    from: &mut LocalHandle,
    copy: &mut LocalHandle,
) -> u32
    ensures { LocalCopies (held_by from.old) (held_by from.new) (held_by copy.old) (held_by copy.new) result }
{
    locals::copy_local(alloc, from, copy)
}

/// `kupaldiz_release_local_locked` of the header. The place is of one CPU's handle, or null.
#[unsafe(no_mangle)]
pub extern "C" fn kupaldiz_release_local_locked(
    alloc: Global,
    keeper: &mut KeeperHandle,
    cpu: CpusPlace,
    local: &mut LocalHandle,
) -> CpusAnswer
    requires one { IsLong cpu.value 1 }
    requires same { AreOfOneRow keeper.old.body cpu.value }
    requires local { IsOfKeeper keeper.old.body (held_by local.old) }
    ensures place { result.cpus.at ≡ cpu.at }
    ensures call { ReleasesLocked keeper.old.body keeper.new.body cpu.value result.cpus.value (held_by local.old) (held_by local.new) result.number }
{
    locals::release_local_locked(alloc, keeper, cpu, local)
}

/// `kupaldiz_try_release_local` of the header.
#[unsafe(no_mangle)]
pub extern "C" fn kupaldiz_try_release_local(
    alloc: Global,
    cpu: &mut CpuHandle,
    local: &mut LocalHandle,
) -> u32
    requires { IsOfCpu cpu.old.body (held_by local.old) }
    ensures { ThroughLocal cpu.old.body cpu.new.body (held_by local.old) (held_by local.new) result (λ a v b l. LocalReleases a v b result l) }
{
    locals::try_release_local(alloc, cpu, local)
}

/// `kupaldiz_forget_local` of the header.
#[unsafe(no_mangle)]
pub extern "C" fn kupaldiz_forget_local(alloc: Global, local: &mut LocalHandle) -> u32
    ensures { LocalForgets (held_by local.old) (held_by local.new) result }
{
    locals::forget_local(alloc, local)
}
