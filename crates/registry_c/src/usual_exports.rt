//! Lookups.

ghost use Rattle.std.specs.Prelude.{◌≡◌};
ghost use Rattle.c_calls.specs.Calls.{Asks, EntersAndFindsFor, FindsFor, LooksUpFor, Through};

use c_calls::lookups;
use c_handles::handle::CpuHandle;
use c_handles::values::answer::NamedAnswer;
use c_handles::values::given::GivenName;
use c_handles::values::place::EntryPlace;

/// `kupaldiz_look_up` of the header.
#[unsafe(no_mangle)]
pub extern "C" fn kupaldiz_look_up(
    cpu: &mut CpuHandle,
    kind: u32,
    name: GivenName,
    found: EntryPlace,
) -> NamedAnswer
    ensures places { (result.name ≡ name) × (result.place.at ≡ found.at) }
    ensures call { Through cpu.old.body cpu.new.body result.number (result.place.value ≡ found.value)
        (λ a b. Asks kind name.name result.number ((b ≡ a) × (result.place.value ≡ found.value))
        (λ key. LooksUpFor key a b result.number found.value result.place.value)) }
{
    lookups::look_up(cpu, kind, name, found)
}

/// `kupaldiz_find` of the header.
#[unsafe(no_mangle)]
pub extern "C" fn kupaldiz_find(
    cpu: &mut CpuHandle,
    kind: u32,
    name: GivenName,
    found: EntryPlace,
) -> NamedAnswer
    ensures places { (result.name ≡ name) × (result.place.at ≡ found.at) }
    ensures call { Through cpu.old.body cpu.new.body result.number (result.place.value ≡ found.value)
        (λ a b. Asks kind name.name result.number ((b ≡ a) × (result.place.value ≡ found.value))
        (λ key. FindsFor key a b result.number found.value result.place.value)) }
{
    lookups::find(cpu, kind, name, found)
}

/// `kupaldiz_enter_find` of the header.
#[unsafe(no_mangle)]
pub extern "C" fn kupaldiz_enter_find(
    cpu: &mut CpuHandle,
    kind: u32,
    name: GivenName,
    found: EntryPlace,
) -> NamedAnswer
    ensures places { (result.name ≡ name) × (result.place.at ≡ found.at) }
    ensures call { Through cpu.old.body cpu.new.body result.number (result.place.value ≡ found.value)
        (λ a b. Asks kind name.name result.number ((b ≡ a) × (result.place.value ≡ found.value))
        (λ key. EntersAndFindsFor key a b result.number found.value result.place.value)) }
{
    lookups::enter_find(cpu, kind, name, found)
}
