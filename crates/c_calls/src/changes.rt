//! The changes of whoever holds the keeper, for C: attaches, replacements, detaches, and whether there is room for one.

ghost use Rattle.std.specs.Prelude.{◌≡◌, IfOk, IsTrue};
ghost use Rattle.registry_values.specs.Common.{is_key};
ghost use Rattle.name_registry.specs.Common.{room_answer};
ghost use Rattle.c_handles.specs.values.Places.{put};
ghost use Rattle.c_handles.specs.values.Texts.{entry_out, number_of, settings_out};
ghost use Rattle.c_calls.specs.Calls.{AreOfOne, Puts, Through, ThroughBoth};
ghost use Rattle.c_calls.specs.Changes.{AttachCalls, AttachIfaceCalls, DetachCalls, PutsBoth, ReplaceCalls, ReplaceIfaceCalls, asked_both, beside};

use crate::arguments::asked;
use c_handles::handle::{CpuHandle, KeeperHandle};
use c_handles::heap::CHandle;
use c_handles::values::answer::{
    IfaceAnswer, NamedAnswer, ReplaceAnswer, ReplaceIfaceAnswer, SettingsAnswer,
};
use c_handles::values::given::GivenName;
use c_handles::values::place::{EntryPlace, SettingsPlace};
use c_handles::values::plain::{
    BAD_NAME, CName, DONE, EMPTY_HANDLE, NULL, answered, entry_out, refused, settings_out,
};
use name_registry::{
    attach_iface_by_name_in, attach_in, detach_in, replace_iface_by_name_in, replace_in, room_in,
};
use registry_values::{Entry, Name, Record, Refusal};

/// The word of a driver's kind.
const DRIVER: u32 = 2;

/// `kupaldiz_settings_of` of the header.
pub fn settings_of(keeper: &mut KeeperHandle, mut settings: SettingsPlace) -> SettingsAnswer
    ensures place { result.place.at ≡ settings.at }
    ensures call { Through keeper.old.body keeper.new.body result.number (result.place.value ≡ settings.value)
        (λ k l. (result.number ≡ DONE) × (l ≡ k) × (result.place.value ≡ put settings.value (settings_out k.words.settings))) }
{
    let Some(body) = keeper.body_mut() else {
        return settings.answer(EMPTY_HANDLE);
    };
    settings.put(settings_out(body.keeper.settings()));
    settings.answer(DONE)
}

/// `kupaldiz_room` of the header.
pub fn room(keeper: &mut KeeperHandle) -> u32
    ensures { Through keeper.old.body keeper.new.body result (Unit {0})
        (λ k l. (result ≡ number_of (room_answer k.words.settings k.keeper)) × (l ≡ k)) }
{
    let Some(body) = keeper.body_mut() else {
        return EMPTY_HANDLE;
    };
    answered(room_in(&body.keeper))
}

/// `kupaldiz_attach` of the header.
pub fn attach(
    keeper: &mut KeeperHandle,
    cpu: &mut CpuHandle,
    mut name: GivenName,
    value: u64,
    mut made: EntryPlace,
) -> NamedAnswer
    requires { AreOfOne keeper.old.body cpu.old.body }
    ensures places { (result.name ≡ name) × (result.place.at ≡ made.at) }
    ensures call { ThroughBoth keeper.old.body keeper.new.body cpu.old.body cpu.new.body result.number (result.place.value ≡ made.value)
        (λ k c l d. AttachCalls name.name value k c l d result.number made.value result.place.value) }
{
    let Some(k) = keeper.body_mut() else {
        return made.answer(EMPTY_HANDLE).with_name(name);
    };
    let Some(c) = cpu.body_mut() else {
        return made.answer(EMPTY_HANDLE).with_name(name);
    };
    let key = match asked(DRIVER, name.name()) {
        Ok(key) => key,
        Err(number) => return made.answer(number).with_name(name),
    };
    let rec = Record {
        kind: key.kind,
        name: key.name,
        value,
    };
    let answer = attach_in(&k.words, &mut k.keeper, &mut c.cpu, rec);
    let number = tell_entry(answer, &mut made);
    made.answer(number).with_name(name)
}

/// `kupaldiz_attach_iface` of the header.
pub fn attach_iface(
    keeper: &mut KeeperHandle,
    cpu: &mut CpuHandle,
    mut driver: GivenName,
    mut name: GivenName,
    value: u64,
    mut made: EntryPlace,
) -> IfaceAnswer
    requires { AreOfOne keeper.old.body cpu.old.body }
    ensures places { (result.driver ≡ driver) × (result.name ≡ name) × (result.place.at ≡ made.at) }
    ensures call { ThroughBoth keeper.old.body keeper.new.body cpu.old.body cpu.new.body result.number (result.place.value ≡ made.value)
        (λ k c l d. AttachIfaceCalls driver.name name.name value k c l d result.number made.value result.place.value) }
{
    let Some(k) = keeper.body_mut() else {
        return made
            .answer(EMPTY_HANDLE)
            .with_name(name)
            .with_driver(driver);
    };
    let Some(c) = cpu.body_mut() else {
        return made
            .answer(EMPTY_HANDLE)
            .with_name(name)
            .with_driver(driver);
    };
    let (d, n) = match asked_both(driver.name(), name.name()) {
        Ok(names) => names,
        Err(number) => return made.answer(number).with_name(name).with_driver(driver),
    };
    let answer = attach_iface_by_name_in(&k.words, &mut k.keeper, &mut c.cpu, &d, &n, value);
    let number = tell_entry(answer, &mut made);
    made.answer(number).with_name(name).with_driver(driver)
}

/// `kupaldiz_replace` of the header.
pub fn replace(
    keeper: &mut KeeperHandle,
    cpu: &mut CpuHandle,
    mut name: GivenName,
    value: u64,
    mut gone: EntryPlace,
    mut made: EntryPlace,
) -> ReplaceAnswer
    requires { AreOfOne keeper.old.body cpu.old.body }
    ensures places { (result.name ≡ name) × (result.gone.at ≡ gone.at) × (result.place.at ≡ made.at) }
    ensures call { ThroughBoth keeper.old.body keeper.new.body cpu.old.body cpu.new.body result.number ((result.gone.value ≡ gone.value) × (result.place.value ≡ made.value))
        (λ k c l d. ReplaceCalls name.name value k c l d result.number gone.value result.gone.value made.value result.place.value) }
{
    let Some(k) = keeper.body_mut() else {
        return made.answer(EMPTY_HANDLE).with_name(name).with_gone(gone);
    };
    let Some(c) = cpu.body_mut() else {
        return made.answer(EMPTY_HANDLE).with_name(name).with_gone(gone);
    };
    let key = match asked(DRIVER, beside(&mut gone, name.name())) {
        Ok(key) => key,
        Err(number) => return made.answer(number).with_name(name).with_gone(gone),
    };
    let answer = replace_in(&k.words, &mut k.keeper, &mut c.cpu, &key.name, value);
    let number = tell_both(answer, &mut gone, &mut made);
    made.answer(number).with_name(name).with_gone(gone)
}

/// `kupaldiz_replace_iface` of the header.
pub fn replace_iface(
    keeper: &mut KeeperHandle,
    cpu: &mut CpuHandle,
    mut driver: GivenName,
    mut name: GivenName,
    value: u64,
    mut gone: EntryPlace,
    mut made: EntryPlace,
) -> ReplaceIfaceAnswer
    requires { AreOfOne keeper.old.body cpu.old.body }
    ensures given { (result.driver ≡ driver) × (result.name ≡ name) }
    ensures places { (result.gone.at ≡ gone.at) × (result.place.at ≡ made.at) }
    ensures call { ThroughBoth keeper.old.body keeper.new.body cpu.old.body cpu.new.body result.number ((result.gone.value ≡ gone.value) × (result.place.value ≡ made.value))
        (λ k c l d. ReplaceIfaceCalls driver.name name.name value k c l d result.number gone.value result.gone.value made.value result.place.value) }
{
    let Some(k) = keeper.body_mut() else {
        let answer = made.answer(EMPTY_HANDLE).with_name(name);
        return answer.with_gone(gone).with_driver(driver);
    };
    let Some(c) = cpu.body_mut() else {
        let answer = made.answer(EMPTY_HANDLE).with_name(name);
        return answer.with_gone(gone).with_driver(driver);
    };
    let (d, n) = match asked_both(beside(&mut gone, driver.name()), name.name()) {
        Ok(names) => names,
        Err(number) => {
            let answer = made.answer(number).with_name(name);
            return answer.with_gone(gone).with_driver(driver);
        }
    };
    let answer = replace_iface_by_name_in(&k.words, &mut k.keeper, &mut c.cpu, &d, &n, value);
    let number = tell_both(answer, &mut gone, &mut made);
    let answer = made.answer(number).with_name(name);
    answer.with_gone(gone).with_driver(driver)
}

/// `kupaldiz_detach` of the header.
pub fn detach(
    keeper: &mut KeeperHandle,
    cpu: &mut CpuHandle,
    kind: u32,
    mut name: GivenName,
    mut gone: EntryPlace,
) -> NamedAnswer
    requires { AreOfOne keeper.old.body cpu.old.body }
    ensures places { (result.name ≡ name) × (result.place.at ≡ gone.at) }
    ensures call { ThroughBoth keeper.old.body keeper.new.body cpu.old.body cpu.new.body result.number (result.place.value ≡ gone.value)
        (λ k c l d. DetachCalls kind name.name k c l d result.number gone.value result.place.value) }
{
    let Some(k) = keeper.body_mut() else {
        return gone.answer(EMPTY_HANDLE).with_name(name);
    };
    let Some(c) = cpu.body_mut() else {
        return gone.answer(EMPTY_HANDLE).with_name(name);
    };
    let key = match asked(kind, beside(&mut gone, name.name())) {
        Ok(key) => key,
        Err(number) => return gone.answer(number).with_name(name),
    };
    let answer = detach_in(&k.words, &mut k.keeper, &mut c.cpu, key.kind, &key.name);
    let number = tell_entry(answer, &mut gone);
    gone.answer(number).with_name(name)
}

/// What is given beside a place that the call needs: nothing, if that is null.
fn beside(place: &mut EntryPlace, given: Option<CName>) -> Option<CName>
    ensures same { place.new ≡ place.old }
    ensures value { result ≡ beside place.old.value given }
{
    if place.is_null() {
        return None;
    }
    given
}

/// The names that a call asks for. Else the number of what is wrong with them, in this order: `NULL` if one isn't there, `BAD_NAME`.
fn asked_both(driver: Option<CName>, name: Option<CName>) -> Result<(Name, Name), u32>
    ensures value { result ≡ asked_both driver name }
    ensures key { IfOk result (λ names. IsTrue (is_key names.1)) }
{
    let Some(driver) = driver else {
        return Err(NULL);
    };
    let Some(name) = name else {
        return Err(NULL);
    };
    let Some(driver) = Name::from_key_words(driver.high, driver.low) else {
        return Err(BAD_NAME);
    };
    let Some(name) = Name::from_key_words(name.high, name.low) else {
        return Err(BAD_NAME);
    };
    Ok((driver, name))
}

/// The number of an answer. Its entry is written to the place.
fn tell_entry(answer: Result<Entry, Refusal>, place: &mut EntryPlace) -> u32
    ensures number { result ≡ number_of answer }
    ensures place { place.new.at ≡ place.old.at }
    ensures writes { Puts entry_out answer place.old.value place.new.value }
{
    match answer {
        Ok(entry) => {
            place.put(entry_out(entry));
            DONE
        }
        Err(refusal) => refused(refusal),
    }
}

/// The number of an answer. Its entries are written to the places.
fn tell_both(
    answer: Result<(Entry, Entry), Refusal>,
    gone: &mut EntryPlace,
    made: &mut EntryPlace,
) -> u32
    ensures number { result ≡ number_of answer }
    ensures places { (gone.new.at ≡ gone.old.at) × (made.new.at ≡ made.old.at) }
    ensures writes { PutsBoth answer gone.old.value gone.new.value made.old.value made.new.value }
{
    match answer {
        Ok((old, new)) => {
            gone.put(entry_out(old));
            made.put(entry_out(new));
            DONE
        }
        Err(refusal) => refused(refusal),
    }
}
