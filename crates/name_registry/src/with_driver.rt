//! The driver of a new interface, by its name, for a caller that holds the keeper.

ghost use Rattle.std.specs.Prelude.{◌≡◌, ◌<◌, IfOk, IfErr, false};
ghost use Rattle.cpu_words.specs.Common.{AreWordsOf};
ghost use Rattle.name_registry.specs.Locking.{KeepsWords, is_inside};
ghost use Rattle.name_registry.specs.GettingLocal.{reference_of};
ghost use Rattle.name_registry.specs.WithDriver.{IsLetGoIn, TakesDriver, as_needed};

use crate::exchange::{hear_cpu, show_cpu};
use crate::getting_local::get_local;
use cpu_words::Words;
use local_count::{PlainRef, release_under, try_release_on};
use passive_list::{Keeper, PlainCpu};
use registry_values::{Key, Kind, Name, Refusal};

/// Gets a local reference to the live driver with this name: in a section of its own, once the CPU has heard the whole history. The keeper hears the CPU
/// then. So what the CPU found is live now. Condition: outside.
/// Refused: `SectionsSpent`; `NotFound`; `LocalFull`.
#[tactic(auto, using(crate::proofs::Driver::takes_driver))]
pub(crate) fn take_driver(
    words: &Words,
    keeper: &mut Keeper,
    cpu: &mut PlainCpu,
    driver: &Name,
) -> Result<PlainRef, Refusal>
    requires words { AreWordsOf words.now keeper.old.words.table keeper.old.words.settings }
    requires cpu { AreWordsOf words.now cpu.old.words.table cpu.old.words.settings }
    requires outside { is_inside cpu.old.cpu ≡ false }
    ensures takes { TakesDriver keeper.old.keeper cpu.old.cpu driver.now keeper.new.keeper cpu.new.cpu (reference_of result) }
    ensures table { IfOk result (λ v. (v.table ≡ keeper.old.words.table) × (v.reference.entry.slot < keeper.old.words.settings.slots)) }
    ensures words { KeepsWords keeper.old cpu.old keeper.new cpu.new }
{
    let key = Key {
        kind: Kind::Driver,
        name: *driver,
    };
    show_cpu(words, keeper, cpu);
    let got = get_local(words, cpu, key);
    hear_cpu(words, keeper, cpu);
    match got {
        Ok((_, reference)) => Ok(reference),
        Err(refusal) => Err(refusal),
    }
}

/// The refusal of a lookup of a driver.
pub(crate) fn as_needed(refusal: Refusal) -> Refusal
    ensures { result ≡ as_needed refusal }
{
    match refusal {
        Refusal::NotFound => Refusal::NeedsDriver,
        other => other,
    }
}

/// Releases a local reference for whoever holds the keeper: by the CPU's own count, or, if that was collected, under the interlock.
/// Condition: all are of one table.
pub(crate) fn let_go(words: &Words, keeper: &mut Keeper, cpu: &mut PlainCpu, reference: PlainRef)
    requires words { AreWordsOf words.now keeper.old.words.table keeper.old.words.settings }
    requires cpu { AreWordsOf words.now cpu.old.words.table cpu.old.words.settings }
    requires reference { (reference.table ≡ keeper.old.words.table) × (reference.reference.entry.slot < keeper.old.words.settings.slots) }
    ensures change { IsLetGoIn keeper.old.keeper cpu.old.cpu reference.reference keeper.new.keeper cpu.new.cpu }
    ensures words { KeepsWords keeper.old cpu.old keeper.new cpu.new }
{
    if let Err(back) = try_release_on(words, cpu, reference) {
        release_under(words, keeper, back);
    }
}
