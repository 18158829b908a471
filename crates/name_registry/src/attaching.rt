//! Attaching and detaching, for a caller that holds the keeper.

ghost use Rattle.std.specs.Prelude.{◌≡◌, IfOk, IfErr, IsTrue, Ok, Err, ◌<◌, IfSome, position, length};
ghost use Rattle.name_registry.specs.Types.{Iface};
ghost use Rattle.registry_values.specs.Common.{is_key, is_live_as};
ghost use Rattle.cpu_words.specs.Common.{AreWordsOf};
ghost use Rattle.name_registry.specs.Changes.{attach_answer, attach_iface_answer, HasAttachedFor, HasAttachedIfaceFor, IsDetachAnswer, IsLivePlace, HasDetachedFor};
ghost use Rattle.name_registry.specs.Locking.{KeepsWords, is_live_row};
ghost use Rattle.name_registry.specs.WithDriver.{AttachesByName};

use crate::exchange::{hear_cpu, show_cpu};
use crate::first_fit::entry_for;
use crate::with_driver::{as_needed, let_go, take_driver};
use cpu_words::Words;
use local_count::{PlainRef, publish_iface};
use passive_list::{Keeper, KeptSlot, PlainCpu, publish, retire};
use registry_values::{
    Entry, Key, Kind, Name, Record, Refusal, attach_answer, detach_answer, is_iface, is_live_as,
};

/// Attaches a driver: it gets the next number, from 1, and the lowest-numbered slot, from 0, that is vacant and keeps nothing. Lookups that
/// begin from now on find it until it is detached. The caller's CPU has seen its change. It frees no retired slot, and takes no memory.
/// Condition: the name's words aren't both 0, as `Name::parse` and `Name::from_key_bytes` give them.
///
/// Refused, in this order, and nothing has changed then:
///
/// - `Inside`: the CPU is inside a section;
/// - `NeedsDriver`: the record's kind is Iface;
/// - `NameTaken`: a live entry has this kind and name;
/// - `NoSlot`;
/// - `HistoryFull`: the history has no room for this attach and the detach of each live entry, the new one too.
pub fn attach_in(
    words: &Words,
    keeper: &mut Keeper,
    cpu: &mut PlainCpu,
    rec: Record,
) -> Result<Entry, Refusal>
    requires words { AreWordsOf words.now keeper.old.words.table keeper.old.words.settings }
    requires cpu { AreWordsOf words.now cpu.old.words.table cpu.old.words.settings }
    requires name { IsTrue (is_key rec.name) }
    ensures answer { result ≡ attach_answer keeper.old.words.settings keeper.old.keeper cpu.old.cpu rec }
    ensures ok { IfOk result (λ e. HasAttachedFor keeper.old.keeper cpu.old.cpu e keeper.new.keeper cpu.new.cpu) }
    ensures refused { IfErr result (λ _. (keeper.new ≡ keeper.old) × (cpu.new ≡ cpu.old)) }
    ensures words { KeepsWords keeper.old cpu.old keeper.new cpu.new }
{
    let given = entry_for(keeper, rec);
    let entry = attach_answer(cpu.inside(), is_iface(rec.kind), given)?;
    hear_cpu(words, keeper, cpu);
    let entry = publish(words, keeper, entry.slot, rec);
    show_cpu(words, keeper, cpu);
    Ok(entry)
}

/// Attaches an interface on the driver that the reference is to: its slot keeps the reference until it is freed. Else it is as `attach_in`.
/// Condition: the record's kind is Iface, and its name's words aren't both 0.
/// Refused, in this order, and nothing has changed then, and the reference comes back: `Inside` if the CPU is inside a section;
/// `NeedsDriver` if the reference is to an interface; `NameTaken`; `NoSlot`; `HistoryFull`.
pub fn attach_iface_in(
    words: &Words,
    keeper: &mut Keeper,
    cpu: &mut PlainCpu,
    rec: Record,
    reference: PlainRef,
) -> Result<Entry, (Refusal, PlainRef)>
    requires words { AreWordsOf words.now keeper.old.words.table keeper.old.words.settings }
    requires cpu { AreWordsOf words.now cpu.old.words.table cpu.old.words.settings }
    requires reference { reference.table ≡ keeper.old.words.table }
    requires kind { rec.kind ≡ Iface }
    requires name { IsTrue (is_key rec.name) }
    ensures answer { IfOk result (λ e. attach_iface_answer keeper.old.words.settings keeper.old.keeper cpu.old.cpu rec reference.reference ≡ Ok e) }
    ensures ok { IfOk result (λ e. HasAttachedIfaceFor keeper.old.keeper cpu.old.cpu reference.reference e keeper.new.keeper cpu.new.cpu) }
    ensures refused { IfErr result (λ back. (attach_iface_answer keeper.old.words.settings keeper.old.keeper cpu.old.cpu rec reference.reference ≡ Err back.0) × (back.1 ≡ reference)
        × (keeper.new ≡ keeper.old) × (cpu.new ≡ cpu.old)) }
    ensures words { KeepsWords keeper.old cpu.old keeper.new cpu.new }
{
    let given = entry_for(keeper, rec);
    let entry = match attach_answer(cpu.inside(), is_iface(reference.kind()), given) {
        Ok(entry) => entry,
        Err(refusal) => return Err((refusal, reference)),
    };
    hear_cpu(words, keeper, cpu);
    let entry = publish_iface(words, keeper, entry.slot, rec, reference);
    show_cpu(words, keeper, cpu);
    Ok(entry)
}

/// Attaches an interface on the live driver with the name `driver`, to which the CPU gets a local reference in a section of its own: the
/// interface's slot keeps that. Else it is as `attach_iface_in`. Condition: the name's words aren't both 0.
///
/// Refused, in this order: `Inside`; `SectionsSpent`; `NeedsDriver` if no live driver has that name; `LocalFull`; `NameTaken`; `NoSlot`;
/// `HistoryFull`. Nothing is attached then, and the reference is released.
#[tactic(auto, using(crate::proofs::Attached::inside_is, crate::proofs::Driver::in_section, crate::proofs::Driver::no_driver, crate::proofs::Driver::on_driver))]
pub fn attach_iface_by_name_in(
    words: &Words,
    keeper: &mut Keeper,
    cpu: &mut PlainCpu,
    driver: &Name,
    name: &Name,
    value: u64,
) -> Result<Entry, Refusal>
    requires words { AreWordsOf words.now keeper.old.words.table keeper.old.words.settings }
    requires cpu { AreWordsOf words.now cpu.old.words.table cpu.old.words.settings }
    requires name { IsTrue (is_key name.now) }
    ensures attaches { AttachesByName keeper.old.words.settings keeper.old.keeper cpu.old.cpu driver.now (record { kind = Iface; name = name.now; value = value }) keeper.new.keeper cpu.new.cpu result }
    ensures words { KeepsWords keeper.old cpu.old keeper.new cpu.new }
{
    if cpu.inside() {
        return Err(Refusal::Inside);
    }
    let rec = Record {
        kind: Kind::Iface,
        name: *name,
        value,
    };
    let reference = match take_driver(words, keeper, cpu, driver) {
        Ok(reference) => reference,
        Err(refusal) => return Err(as_needed(refusal)),
    };
    match attach_iface_in(words, keeper, cpu, rec, reference) {
        Ok(entry) => Ok(entry),
        Err((refusal, reference)) => {
            let_go(words, keeper, cpu, reference);
            Err(refusal)
        }
    }
}

/// Detaches the live entry with the kind and the name, and returns it. Lookups that begin from now on don't find it, and the caller's CPU
/// has seen its change. It is retired: `advance_in` works on it. It takes no memory.
/// Refused, in this order, and nothing has changed then: `Inside` if the CPU is inside a section; `NotFound` if no live entry has both.
#[tactic(auto, using(registry_values::proofs::Answers::handed_on, crate::proofs::Attached::inside_is, crate::proofs::Attached::place_is, crate::proofs::Attached::refused_rightly))]
pub fn detach_in(
    words: &Words,
    keeper: &mut Keeper,
    cpu: &mut PlainCpu,
    kind: Kind,
    name: &Name,
) -> Result<Entry, Refusal>
    requires words { AreWordsOf words.now keeper.old.words.table keeper.old.words.settings }
    requires cpu { AreWordsOf words.now cpu.old.words.table cpu.old.words.settings }
    ensures answer { IsDetachAnswer keeper.old.keeper cpu.old.cpu (record { kind = kind; name = name.now }) result }
    ensures ok { IfOk result (λ e. HasDetachedFor keeper.old.keeper cpu.old.cpu e keeper.new.keeper cpu.new.cpu) }
    ensures refused { IfErr result (λ _. (keeper.new ≡ keeper.old) × (cpu.new ≡ cpu.old)) }
    ensures words { KeepsWords keeper.old cpu.old keeper.new cpu.new }
{
    let key = Key { kind, name: *name };
    let slot = detach_answer(cpu.inside(), live_place(keeper, key))?;
    hear_cpu(words, keeper, cpu);
    let entry = retire(words, keeper, slot);
    show_cpu(words, keeper, cpu);
    Ok(entry)
}

/// The slot of the live entry with this kind and name, which a lookup gives now.
#[tactic(auto, using(crate::proofs::Worked::live_in_rows))]
pub(crate) fn live_place(keeper: &Keeper, key: Key) -> Option<u8>
    ensures value { result ≡ position (is_live_as key) keeper.now.keeper.slots }
    ensures lookup { IsLivePlace keeper.now.keeper key result }
    ensures within { IfSome result (λ t. t < length keeper.now.keeper.slots) }
{
    match place_live_as(keeper.rows(), key) {
        Some(slot) => Some(slot as u8),
        None => None,
    }
}

fn place_live_as(rows: &[KeptSlot], key: Key) -> Option<usize>
    ensures value { result ≡ position (is_live_row key) rows.now }
    ensures within { IfSome result (λ t. t < length rows.now) }
{
    rows.iter().position(|row| is_live_as(key, &row.state))
}
