//! The calls of one CPU.

ghost use Rattle.std.specs.Prelude.{◌≡◌};
ghost use Rattle.c_handles.specs.declared.values.plain.TheConstants.{DONE};
ghost use Rattle.c_handles.specs.values.Places.{put};
ghost use Rattle.c_calls.specs.Calls.{Enters, Exits, Through};
ghost use Rattle.c_calls.specs.References.{Acquires, Copies, GetsInto, HoldsSay, Releases};

use c_calls::{references, sections};
use c_handles::handle::CpuHandle;
use c_handles::values::answer::{FlagAnswer, GivenEntryAnswer, GivenNameAnswer, NumberAnswer};
use c_handles::values::given::{GivenEntry, GivenName};
use c_handles::values::place::{FlagPlace, NumberPlace};
use c_handles::values::plain::CPassive;

/// `kupaldiz_enter` of the header.
#[unsafe(no_mangle)]
pub extern "C" fn kupaldiz_enter(cpu: &mut CpuHandle) -> u32
    ensures { Through cpu.old.body cpu.new.body result (Unit {0}) (λ a b. Enters a b result) }
{
    sections::enter(cpu)
}

/// `kupaldiz_exit` of the header.
#[unsafe(no_mangle)]
pub extern "C" fn kupaldiz_exit(cpu: &mut CpuHandle) -> u32
    ensures { Through cpu.old.body cpu.new.body result (Unit {0}) (λ a b. Exits a b result) }
{
    sections::exit(cpu)
}

/// `kupaldiz_depth` of the header.
#[unsafe(no_mangle)]
pub extern "C" fn kupaldiz_depth(cpu: &mut CpuHandle, depth: NumberPlace) -> NumberAnswer
    ensures place { result.place.at ≡ depth.at }
    ensures call { Through cpu.old.body cpu.new.body result.number (result.place.value ≡ depth.value)
        (λ a b. (result.number ≡ DONE) × (b ≡ a) × (result.place.value ≡ put depth.value a.cpu.depth)) }
{
    sections::depth(cpu, depth)
}

/// `kupaldiz_get` of the header.
#[unsafe(no_mangle)]
pub extern "C" fn kupaldiz_get(
    cpu: &mut CpuHandle,
    kind: u32,
    name: GivenName,
    reference: &mut CPassive,
) -> GivenNameAnswer
    ensures given { result.name ≡ name }
    ensures call { Through cpu.old.body cpu.new.body result.number (reference.new ≡ reference.old)
        (λ a b. GetsInto kind name.name a b result.number reference.old reference.new) }
{
    references::get(cpu, kind, name, reference)
}

/// `kupaldiz_acquire` of the header.
#[unsafe(no_mangle)]
pub extern "C" fn kupaldiz_acquire(
    cpu: &mut CpuHandle,
    entry: GivenEntry,
    reference: &mut CPassive,
) -> GivenEntryAnswer
    ensures given { result.entry ≡ entry }
    ensures call { Through cpu.old.body cpu.new.body result.number (reference.new ≡ reference.old)
        (λ a b. Acquires entry.entry a b result.number reference.old reference.new) }
{
    references::acquire(cpu, entry, reference)
}

/// `kupaldiz_copy` of the header.
#[unsafe(no_mangle)]
pub extern "C" fn kupaldiz_copy(cpu: &mut CpuHandle, from: &CPassive, copy: &mut CPassive) -> u32
    ensures { Through cpu.old.body cpu.new.body result (copy.new ≡ copy.old)
        (λ a b. Copies from.now a b result copy.old copy.new) }
{
    references::copy(cpu, from, copy)
}

/// `kupaldiz_release` of the header.
#[unsafe(no_mangle)]
pub extern "C" fn kupaldiz_release(cpu: &mut CpuHandle, reference: &mut CPassive) -> u32
    ensures { Through cpu.old.body cpu.new.body result (reference.new ≡ reference.old)
        (λ a b. Releases reference.old a b result reference.new) }
{
    references::release(cpu, reference)
}

/// `kupaldiz_held` of the header.
#[unsafe(no_mangle)]
pub extern "C" fn kupaldiz_held(cpu: &mut CpuHandle, number: u64, held: FlagPlace) -> FlagAnswer
    ensures place { result.place.at ≡ held.at }
    ensures call { Through cpu.old.body cpu.new.body result.number (result.place.value ≡ held.value)
        (λ a b. (result.number ≡ DONE) × (b ≡ a) × HoldsSay number a held.value result.place.value) }
{
    references::held(cpu, number, held)
}
