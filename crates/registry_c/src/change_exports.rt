//! The changes of whoever holds the keeper.

ghost use Rattle.std.specs.Prelude.{◌≡◌};
ghost use Rattle.name_registry.specs.Common.{room_answer};
ghost use Rattle.c_calls.specs.Calls.{AreOfOne, Through, ThroughBoth};
ghost use Rattle.c_calls.specs.Changes.{AttachCalls, AttachIfaceCalls, DetachCalls, ReplaceCalls, ReplaceIfaceCalls};
ghost use Rattle.c_handles.specs.declared.values.plain.TheConstants.{DONE};
ghost use Rattle.c_handles.specs.values.Places.{put};
ghost use Rattle.c_handles.specs.values.Texts.{number_of, settings_out};

use c_calls::changes;
use c_handles::handle::{CpuHandle, KeeperHandle};
use c_handles::values::answer::{
    IfaceAnswer, NamedAnswer, ReplaceAnswer, ReplaceIfaceAnswer, SettingsAnswer,
};
use c_handles::values::given::GivenName;
use c_handles::values::place::{EntryPlace, SettingsPlace};

/// `kupaldiz_settings_of` of the header.
#[unsafe(no_mangle)]
pub extern "C" fn kupaldiz_settings_of(
    keeper: &mut KeeperHandle,
    settings: SettingsPlace,
) -> SettingsAnswer
    ensures place { result.place.at ≡ settings.at }
    ensures call { Through keeper.old.body keeper.new.body result.number (result.place.value ≡ settings.value)
        (λ k l. (result.number ≡ DONE) × (l ≡ k) × (result.place.value ≡ put settings.value (settings_out k.words.settings))) }
{
    changes::settings_of(keeper, settings)
}

/// `kupaldiz_room` of the header.
#[unsafe(no_mangle)]
pub extern "C" fn kupaldiz_room(keeper: &mut KeeperHandle) -> u32
    ensures { Through keeper.old.body keeper.new.body result (Unit {0})
        (λ k l. (result ≡ number_of (room_answer k.words.settings k.keeper)) × (l ≡ k)) }
{
    changes::room(keeper)
}

/// `kupaldiz_attach` of the header.
#[unsafe(no_mangle)]
pub extern "C" fn kupaldiz_attach(
    keeper: &mut KeeperHandle,
    cpu: &mut CpuHandle,
    name: GivenName,
    value: u64,
    made: EntryPlace,
) -> NamedAnswer
    requires { AreOfOne keeper.old.body cpu.old.body }
    ensures places { (result.name ≡ name) × (result.place.at ≡ made.at) }
    ensures call { ThroughBoth keeper.old.body keeper.new.body cpu.old.body cpu.new.body result.number (result.place.value ≡ made.value)
        (λ k c l d. AttachCalls name.name value k c l d result.number made.value result.place.value) }
{
    changes::attach(keeper, cpu, name, value, made)
}

/// `kupaldiz_attach_iface` of the header.
#[unsafe(no_mangle)]
pub extern "C" fn kupaldiz_attach_iface(
    keeper: &mut KeeperHandle,
    cpu: &mut CpuHandle,
    driver: GivenName,
    name: GivenName,
    value: u64,
    made: EntryPlace,
) -> IfaceAnswer
    requires { AreOfOne keeper.old.body cpu.old.body }
    ensures places { (result.driver ≡ driver) × (result.name ≡ name) × (result.place.at ≡ made.at) }
    ensures call { ThroughBoth keeper.old.body keeper.new.body cpu.old.body cpu.new.body result.number (result.place.value ≡ made.value)
        (λ k c l d. AttachIfaceCalls driver.name name.name value k c l d result.number made.value result.place.value) }
{
    changes::attach_iface(keeper, cpu, driver, name, value, made)
}

/// `kupaldiz_replace` of the header.
#[unsafe(no_mangle)]
pub extern "C" fn kupaldiz_replace(
    keeper: &mut KeeperHandle,
    cpu: &mut CpuHandle,
    name: GivenName,
    value: u64,
    gone: EntryPlace,
    made: EntryPlace,
) -> ReplaceAnswer
    requires { AreOfOne keeper.old.body cpu.old.body }
    ensures places { (result.name ≡ name) × (result.gone.at ≡ gone.at) × (result.place.at ≡ made.at) }
    ensures call { ThroughBoth keeper.old.body keeper.new.body cpu.old.body cpu.new.body result.number ((result.gone.value ≡ gone.value) × (result.place.value ≡ made.value))
        (λ k c l d. ReplaceCalls name.name value k c l d result.number gone.value result.gone.value made.value result.place.value) }
{
    changes::replace(keeper, cpu, name, value, gone, made)
}

/// `kupaldiz_replace_iface` of the header.
#[unsafe(no_mangle)]
pub extern "C" fn kupaldiz_replace_iface(
    keeper: &mut KeeperHandle,
    cpu: &mut CpuHandle,
    driver: GivenName,
    name: GivenName,
    value: u64,
    gone: EntryPlace,
    made: EntryPlace,
) -> ReplaceIfaceAnswer
    requires { AreOfOne keeper.old.body cpu.old.body }
    ensures given { (result.driver ≡ driver) × (result.name ≡ name) }
    ensures places { (result.gone.at ≡ gone.at) × (result.place.at ≡ made.at) }
    ensures call { ThroughBoth keeper.old.body keeper.new.body cpu.old.body cpu.new.body result.number ((result.gone.value ≡ gone.value) × (result.place.value ≡ made.value))
        (λ k c l d. ReplaceIfaceCalls driver.name name.name value k c l d result.number gone.value result.gone.value made.value result.place.value) }
{
    changes::replace_iface(keeper, cpu, driver, name, value, gone, made)
}

/// `kupaldiz_detach` of the header.
#[unsafe(no_mangle)]
pub extern "C" fn kupaldiz_detach(
    keeper: &mut KeeperHandle,
    cpu: &mut CpuHandle,
    kind: u32,
    name: GivenName,
    gone: EntryPlace,
) -> NamedAnswer
    requires { AreOfOne keeper.old.body cpu.old.body }
    ensures places { (result.name ≡ name) × (result.place.at ≡ gone.at) }
    ensures call { ThroughBoth keeper.old.body keeper.new.body cpu.old.body cpu.new.body result.number (result.place.value ≡ gone.value)
        (λ k c l d. DetachCalls kind name.name k c l d result.number gone.value result.place.value) }
{
    changes::detach(keeper, cpu, kind, name, gone)
}
