//! Replacing, for a caller that holds the keeper: an entry takes the place of the live one with its kind and name.

ghost use Rattle.std.specs.Prelude.{◌≡◌, IfErr, IfOk, Some, Ok, false};
ghost use Rattle.name_registry.specs.Types.{Driver, Iface};
ghost use Rattle.registry_values.specs.Common.{is_iface};
ghost use Rattle.cpu_words.specs.Common.{AreWordsOf};
ghost use Rattle.name_registry.specs.Changes.{HasReplacedFor, HasReplacedIfaceFor, IsReplaceAnswer, IsReplaceRefusalOf, replace_answer};
ghost use Rattle.name_registry.specs.Locking.{KeepsWords};
ghost use Rattle.name_registry.specs.WithDriver.{ReplacesByName};

use crate::attaching::live_place;
use crate::exchange::{hear_cpu, show_cpu};
use crate::first_fit::slot_for;
use crate::with_driver::{as_needed, let_go, take_driver};
use cpu_words::Words;
use local_count::{PlainRef, replace_iface};
use passive_list::{Keeper, PlainCpu, replace};
use registry_values::{Entry, Key, Kind, Name, Refusal, is_iface};

/// Puts another driver in the place of the live one with this name: it gets the next number, the old one's kind and name, the value, and the
/// lowest-numbered slot that is vacant and keeps nothing. No lookup of the name finds nothing because of it: before this one change it finds
/// the old one, then the new one, until that is detached. The caller's CPU has seen the change. The old one is retired: `advance_in` works on
/// it. It frees no retired slot, and takes no memory. Returns both, the old one first.
///
/// Refused, in this order, and nothing has changed then:
///
/// - `Inside`: the CPU is inside a section;
/// - `NotFound`: no live driver has this name;
/// - `NoSlot`;
/// - `HistoryFull`: the history has no room for this change and the detach of each live entry, the new one too.
pub fn replace_in(
    words: &Words,
    keeper: &mut Keeper,
    cpu: &mut PlainCpu,
    name: &Name,
    value: u64,
) -> Result<(Entry, Entry), Refusal>
    requires words { AreWordsOf words.now keeper.old.words.table keeper.old.words.settings }
    requires cpu { AreWordsOf words.now cpu.old.words.table cpu.old.words.settings }
    ensures answer { IsReplaceAnswer keeper.old.words.settings keeper.old.keeper cpu.old.cpu false (record { kind = Driver; name = name.now }) value result }
    ensures ok { IfOk result (λ p. HasReplacedFor keeper.old.keeper cpu.old.cpu p.0 p.1 keeper.new.keeper cpu.new.cpu) }
    ensures refused { IfErr result (λ _. (keeper.new ≡ keeper.old) × (cpu.new ≡ cpu.old)) }
    ensures words { KeepsWords keeper.old cpu.old keeper.new cpu.new }
{
    let key = Key {
        kind: Kind::Driver,
        name: *name,
    };
    let place = live_place(keeper, key);
    let slots = match replace_answer(cpu.inside(), false, place, slot_for(keeper)) {
        Ok(slots) => slots,
        Err(refusal) => return Err(refusal),
    };
    hear_cpu(words, keeper, cpu);
    let entries = replace(words, keeper, slots.0, slots.1, value);
    show_cpu(words, keeper, cpu);
    Ok(entries)
}

/// Puts another interface, on the driver that the reference is to, in the place of the live one with this name: its slot keeps the reference
/// until it is freed, and the old one's slot keeps its own. Else it is as `replace_in`.
/// Refused, in this order, and nothing has changed then, and the reference comes back: `Inside` if the CPU is inside a section;
/// `NeedsDriver` if the reference is to an interface; `NotFound`; `NoSlot`; `HistoryFull`.
pub fn replace_iface_in(
    words: &Words,
    keeper: &mut Keeper,
    cpu: &mut PlainCpu,
    name: &Name,
    value: u64,
    reference: PlainRef,
) -> Result<(Entry, Entry), (Refusal, PlainRef)>
    requires words { AreWordsOf words.now keeper.old.words.table keeper.old.words.settings }
    requires cpu { AreWordsOf words.now cpu.old.words.table cpu.old.words.settings }
    requires reference { reference.table ≡ keeper.old.words.table }
    ensures answer { IfOk result (λ p. IsReplaceAnswer keeper.old.words.settings keeper.old.keeper cpu.old.cpu (is_iface reference.reference.entry.rec.kind) (record { kind = Iface; name = name.now }) value (Ok p)) }
    ensures ok { IfOk result (λ p. HasReplacedIfaceFor keeper.old.keeper cpu.old.cpu reference.reference p.0 p.1 keeper.new.keeper cpu.new.cpu) }
    ensures refused { IfErr result (λ back. IsReplaceRefusalOf keeper.old.words.settings keeper.old.keeper cpu.old.cpu (is_iface reference.reference.entry.rec.kind) (record { kind = Iface; name = name.now }) back.0
        × (back.1 ≡ reference) × (keeper.new ≡ keeper.old) × (cpu.new ≡ cpu.old)) }
    ensures words { KeepsWords keeper.old cpu.old keeper.new cpu.new }
{
    let key = Key {
        kind: Kind::Iface,
        name: *name,
    };
    let unfit = is_iface(reference.kind());
    let place = live_place(keeper, key);
    let slots = match replace_answer(cpu.inside(), unfit, place, slot_for(keeper)) {
        Ok(slots) => slots,
        Err(refusal) => return Err((refusal, reference)),
    };
    hear_cpu(words, keeper, cpu);
    let entries = replace_iface(words, keeper, slots.0, slots.1, value, reference);
    show_cpu(words, keeper, cpu);
    Ok(entries)
}

/// Puts another interface, on the live driver with the name `driver`, in the place of the live one with this name. The CPU gets a local reference to
/// the driver in a section of its own. Else it is as `replace_iface_in`.
///
/// Refused, in this order: `Inside`; `SectionsSpent`; `NeedsDriver` if no live driver has that name; `LocalFull`; `NotFound`; `NoSlot`;
/// `HistoryFull`. Nothing is replaced then, and the reference is released.
#[tactic(auto, using(crate::proofs::Attached::inside_is, crate::proofs::Driver::in_section, crate::proofs::Driver::no_driver, crate::proofs::Driver::on_driver))]
pub fn replace_iface_by_name_in(
    words: &Words,
    keeper: &mut Keeper,
    cpu: &mut PlainCpu,
    driver: &Name,
    name: &Name,
    value: u64,
) -> Result<(Entry, Entry), Refusal>
    requires words { AreWordsOf words.now keeper.old.words.table keeper.old.words.settings }
    requires cpu { AreWordsOf words.now cpu.old.words.table cpu.old.words.settings }
    ensures replaces { ReplacesByName keeper.old.words.settings keeper.old.keeper cpu.old.cpu driver.now name.now value keeper.new.keeper cpu.new.cpu result }
    ensures words { KeepsWords keeper.old cpu.old keeper.new cpu.new }
{
    if cpu.inside() {
        return Err(Refusal::Inside);
    }
    let reference = match take_driver(words, keeper, cpu, driver) {
        Ok(reference) => reference,
        Err(refusal) => return Err(as_needed(refusal)),
    };
    match replace_iface_in(words, keeper, cpu, name, value, reference) {
        Ok(entries) => Ok(entries),
        Err((refusal, reference)) => {
            let_go(words, keeper, cpu, reference);
            Err(refusal)
        }
    }
}

/// The slots of the old entry and of the new one, by where the live entry is, and by the slot for a new one.
/// Refused, in this order: `Inside`; `NeedsDriver` if the call is unfit; `NotFound`; as the new slot is.
fn replace_answer(
    inside: bool,
    unfit: bool,
    old: Option<u8>,
    slot: Result<u8, Refusal>,
) -> Result<(u8, u8), Refusal>
    ensures value { result ≡ replace_answer inside unfit old slot }
    ensures fit { IfOk result (λ p. (inside ≡ false) × (unfit ≡ false) × (old ≡ Some p.0) × (slot ≡ Ok p.1)) }
{
    if inside {
        return Err(Refusal::Inside);
    }
    if unfit {
        return Err(Refusal::NeedsDriver);
    }
    let Some(old) = old else {
        return Err(Refusal::NotFound);
    };
    match slot {
        Ok(slot) => Ok((old, slot)),
        Err(refusal) => Err(refusal),
    }
}
