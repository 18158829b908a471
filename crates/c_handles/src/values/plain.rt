//! The plain structs that cross to C, and the numbers that a call returns.

ghost use Rattle.std.specs.Prelude.{◌≡◌, IfOk, IfErr, false};
ghost use Rattle.registry_values.specs.Common.{are_fit, number_of_refusal};
ghost use Rattle.c_handles.specs.values.Texts.{entry_again, entry_out, kind_given, kind_in, name_in, name_out, no_entry, no_passive, number_of, passive_again, settings_in, settings_out, stage_out};

use registry_values::{
    Entry, Kind, MOST_CPUS, MOST_SLOTS, Name, Refusal, Settings, Stage, kind_word,
};

/// Done. Numbers 1 to 19 are those of the refusals (`Refusal::number`).
pub const DONE: u32 = 0;
/// The CPU is outside any section.
pub const OUTSIDE: u32 = 64;
/// A handle is empty that must not be.
pub const EMPTY_HANDLE: u32 = 65;
/// A handle isn't empty that must be.
pub const FULL_HANDLE: u32 = 66;
/// Neither an interface nor a driver.
pub const BAD_KIND: u32 = 68;
/// Two words of 0, no bytes or zeros alone, or the name of no id.
pub const BAD_NAME: u32 = 69;
/// A name has at most 16 bytes.
pub const NAME_TOO_LONG: u32 = 71;
/// The keeper has collected this CPU's count.
pub const COLLECTED: u32 = 73;
/// The keeper has collected no count of this entry.
pub const NOT_COLLECTED: u32 = 74;
/// The list is too short for the answer.
pub const NO_ROOM: u32 = 75;
/// The wait was never begun.
pub const NOT_BEGUN: u32 = 76;
/// A pointer is null to something that the call needs.
pub const NULL: u32 = 77;

/// A name, by its two words.
#[repr(C)]
#[derive(Clone, Copy)]
pub struct CName {
    pub high: u64,
    pub low: u64,
}

/// Settings.
#[repr(C)]
#[derive(Clone, Copy)]
pub struct CSettings {
    pub cpus: u64,
    pub slots: u64,
    pub change_limit: u64,
    pub section_limit: u64,
    pub passive_limit: u64,
    pub count_limit: u64,
}

/// An entry.
#[repr(C)]
#[derive(Clone, Copy)]
pub struct CEntry {
    pub number: u64,
    pub slot: u64,
    pub kind: u64,
    pub name: CName,
    pub value: u64,
}

/// A passive reference: its entry, and the number of its CPU. It is empty exactly if its entry's number is 0.
#[repr(C)]
#[derive(Clone, Copy)]
pub struct CPassive {
    pub entry: CEntry,
    pub cpu: u64,
}

/// How far the destruction of an entry has come: 0 grace, 1 passive, 2 local, 3 freed, each with its CPU, count or slot.
#[repr(C)]
#[derive(Drop)]
pub struct CStage {
    pub stage: u64,
    pub what: u64,
}

/// What the counts say of the local references to a live or retired entry.
#[repr(C)]
#[derive(Drop)]
pub struct CBalance {
    pub number: u64,
    pub slot: u64,
    pub held: i64,
    pub locals: [i64; MOST_CPUS],
    pub total: i64,
}

/// The number of a refusal.
pub fn refused(refusal: Refusal) -> u32
    ensures { result ≡ number_of_refusal refusal }
{
    u32::from(refusal.number())
}

/// The number of a result that says only whether it was done.
pub fn answered(answer: Result<(), Refusal>) -> u32
    ensures { result ≡ number_of answer }
{
    match answer {
        Ok(()) => DONE,
        Err(refusal) => refused(refusal),
    }
}

/// The kind of a word: 1 an interface, 2 a driver. C's enum has the size of an `unsigned`.
pub fn kind_in(word: u32) -> Option<Kind>
    ensures { result ≡ kind_in word }
{
    if word == 2 {
        return Some(Kind::Driver);
    }
    if word == 1 {
        return Some(Kind::Iface);
    }
    None
}

/// The two words as a name, whether or not one has them.
pub fn name_in(name: &CName) -> Name
    ensures { result ≡ name_in name.now }
{
    Name::of_words(name.high, name.low)
}

/// The settings, where each fits its type. Refused: `BadSettings`; they don't fit a registry then, either.
pub fn settings_in(given: &CSettings) -> Result<Settings, Refusal>
    ensures ok { IfOk result (λ settings. settings ≡ settings_in given.now) }
    ensures err { IfErr result (λ refusal. (refusal ≡ Refusal.BadSettings) × (are_fit (settings_in given.now) ≡ false)) }
{
    if given.cpus > MOST_CPUS as u64 || given.slots > MOST_SLOTS as u64 {
        return Err(Refusal::BadSettings);
    }
    Ok(Settings {
        cpus: given.cpus as u8,
        slots: given.slots as u8,
        change_limit: given.change_limit,
        section_limit: given.section_limit,
        passive_limit: given.passive_limit,
        count_limit: given.count_limit,
    })
}

/// Settings, to C.
pub fn settings_out(settings: Settings) -> CSettings
    ensures { result ≡ settings_out settings }
{
    CSettings {
        cpus: u64::from(settings.cpus),
        slots: u64::from(settings.slots),
        change_limit: settings.change_limit,
        section_limit: settings.section_limit,
        passive_limit: settings.passive_limit,
        count_limit: settings.count_limit,
    }
}

/// A name, to C.
pub fn name_out(name: Name) -> CName
    ensures { result ≡ name_out name }
{
    let (high, low) = name.words();
    CName { high, low }
}

/// An entry, to C.
pub fn entry_out(entry: Entry) -> CEntry
    ensures { result ≡ entry_out entry }
{
    CEntry {
        number: entry.number,
        slot: u64::from(entry.slot),
        kind: kind_word(entry.rec.kind),
        name: name_out(entry.rec.name),
        value: entry.rec.value,
    }
}

/// C's number for the kind of an entry that C gives. It is the low half of its word: what is in the high half is padding to C.
pub fn kind_given(entry: &CEntry) -> u32
    ensures { result ≡ kind_given entry.now }
{
    (entry.kind % (1 << 32)) as u32
}

/// An entry that C gives, again to C, with nothing in the padding.
pub fn entry_again(entry: &CEntry) -> CEntry
    ensures { result ≡ entry_again entry.now }
{
    CEntry {
        number: entry.number,
        slot: entry.slot,
        kind: u64::from(kind_given(entry)),
        name: entry.name,
        value: entry.value,
    }
}

/// A reference that C gives, again to C.
pub fn passive_again(reference: &CPassive) -> CPassive
    ensures { result ≡ passive_again reference.now }
{
    CPassive {
        entry: entry_again(&reference.entry),
        cpu: reference.cpu,
    }
}

/// The entry that C's {0} is: none.
pub fn no_entry() -> CEntry
    ensures { result ≡ no_entry }
{
    CEntry {
        number: 0,
        slot: 0,
        kind: 0,
        name: CName { high: 0, low: 0 },
        value: 0,
    }
}

/// The reference that C's {0} is: of nothing.
pub fn no_passive() -> CPassive
    ensures { result ≡ no_passive }
{
    CPassive {
        entry: no_entry(),
        cpu: 0,
    }
}

/// A stage, to C.
pub fn stage_out(stage: Stage) -> CStage
    ensures { result ≡ stage_out stage }
{
    match stage {
        Stage::Grace(cpu) => CStage {
            stage: 0,
            what: u64::from(cpu),
        },
        Stage::Passive(cpu) => CStage {
            stage: 1,
            what: u64::from(cpu),
        },
        Stage::Local(held) => CStage {
            stage: 2,
            what: held,
        },
        Stage::Freed(slot) => CStage {
            stage: 3,
            what: u64::from(slot),
        },
    }
}
