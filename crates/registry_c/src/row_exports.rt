//! The calls that take a row of C's with its length beside it.

ghost use Rattle.std.specs.Prelude.{◌≡◌};
ghost use Rattle.c_handles.specs.Heap.{IsLong};
ghost use Rattle.c_calls.specs.Opening.{ClosesRow, OpensInto, bodies_of};
ghost use Rattle.c_calls.specs.Calls.{Through, WalksBy};
ghost use Rattle.c_calls.specs.Audits.{AreAllOf, AuditsRows};
ghost use Rattle.c_handles.specs.values.Places.{row_in};

use c_calls::{audit, opening, walks};
use c_handles::answer::{AuditAnswer, ClosedAnswer, OpenedAnswer};
use c_handles::handle::{CpuHandle, KeeperHandle};
use c_handles::keeper_place::KeeperPlace;
use c_handles::rows::CpusPlace;
use c_handles::values::answer::WalkAnswer;
use c_handles::values::given::GivenSettings;
use c_handles::values::place::NumberPlace;
use c_handles::values::rows::{BalancesPlace, EntriesPlace};
use std::alloc::Global;

/// `kupaldiz_open` of the header.
#[unsafe(no_mangle)]
pub extern "C" fn kupaldiz_open(
    alloc: Global,
    settings: GivenSettings,
    keeper: &mut KeeperHandle,
    cpus: CpusPlace,
    count: usize,
) -> OpenedAnswer
    requires count { IsLong cpus.value count }
    ensures given { result.settings ≡ settings }
    ensures place { result.cpus.at ≡ cpus.at }
    ensures call { OpensInto settings.settings keeper.old.body keeper.new.body count cpus.value result.cpus.value result.number }
{
    opening::open_registry(alloc, settings, keeper, cpus, count)
}

/// `kupaldiz_close` of the header.
#[unsafe(no_mangle)]
pub extern "C" fn kupaldiz_close(
    alloc: Global,
    keeper: KeeperPlace,
    cpus: CpusPlace,
    count: usize,
) -> ClosedAnswer
    requires count { IsLong cpus.value count }
    ensures places { (result.keeper.at ≡ keeper.at) × (result.cpus.at ≡ cpus.at) }
    ensures call { ClosesRow keeper.value result.keeper.value count cpus.value result.cpus.value result.number }
{
    opening::close(alloc, keeper, cpus, count)
}

/// `kupaldiz_walk` of the header.
#[unsafe(no_mangle)]
pub extern "C" fn kupaldiz_walk(
    cpu: &mut CpuHandle,
    row: EntriesPlace,
    room: usize,
    count: NumberPlace,
) -> WalkAnswer
    requires room { IsLong row.value room }
    ensures places { (result.row.at ≡ row.at) × (result.place.at ≡ count.at) }
    ensures call { Through cpu.old.body cpu.new.body result.number ((result.row.value ≡ row.value) × (result.place.value ≡ count.value))
        (λ a b. WalksBy a b result.number room row.value result.row.value count.value result.place.value) }
{
    walks::walk_entries(cpu, row, room, count)
}

/// `kupaldiz_audit` of the header.
#[unsafe(no_mangle)]
pub extern "C" fn kupaldiz_audit(
    keeper: &mut KeeperHandle,
    cpus: CpusPlace,
    count: usize,
    list: BalancesPlace,
    room: usize,
    length: NumberPlace,
) -> AuditAnswer
    requires count { IsLong cpus.value count }
    requires room { IsLong list.value room }
    requires words { AreAllOf keeper.old.body (bodies_of (row_in cpus.value)) }
    ensures places { (result.cpus.at ≡ cpus.at) × (result.list.at ≡ list.at) × (result.place.at ≡ length.at) }
    ensures call { Through keeper.old.body keeper.new.body result.number ((result.cpus.value ≡ cpus.value) × (result.list.value ≡ list.value) × (result.place.value ≡ length.value))
        (λ a b. AuditsRows a b result.number count cpus.value result.cpus.value room list.value result.list.value length.value result.place.value) }
{
    audit::audit_registry(keeper, cpus, count, list, room, length)
}
