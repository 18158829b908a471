//! Releasing a local reference, where that must succeed.

ghost use Rattle.std.specs.Prelude.{◌≡◌, ◌<◌};
ghost use Rattle.cpu_words.specs.Common.{AreWordsOf, IsFoundCollected};
ghost use Rattle.name_registry.specs.Locking.{KeepsWords, HasGivenUpFor, IsLetGo, IsLetGoAndHeard, KnowsGivenUp};

use crate::exchange::{hear_cpu, show_cpu};
use crate::registry::Registry;
use cpu_words::{Domain, Words};
use local_count::{LocalRef, PlainRef, release_under, try_release};
use passive_list::{Cpu, Keeper, PlainCpu};
use std::sync::Wait;

impl<D: Domain> Registry<D> {
    /// Releases a local reference (localcount(9)), and always succeeds. Any CPU may release it, also inside a section.
    ///
    /// It is released by this CPU's own count. Where a compare-exchange finds that count word collected, it is given up under the
    /// interlock: the CPU is as it was then, except its log, which has that exchange.
    pub fn release_local<R: Wait>(&self, rt: &R, cpu: &mut Cpu<D>, reference: LocalRef<D>)
        ensures { IsLetGo cpu.old reference cpu.new }
    {
        if let Err(back) = try_release(&self.words, cpu, reference) {
            let LocalRef { plain, domain: _ } = back;
            release_under(&self.words, &mut self.interlock.lock(rt).keeper, plain);
        }
    }

    /// `release_local` for a caller who is to know that the reference is gone. Where it comes back, the keeper hears first what this CPU knows and
    /// gives the reference up, and then the CPU hears what the keeper did: four loads beside those of the release. So the CPU knows by the keeper's log that
    /// one reference more to the entry was given up, and after all that it knew at the call (`KnowsGivenUp`). By its own count it is released just
    /// as by `release_local`. It always succeeds. Any CPU may release it, also inside a section.
    pub fn release_local_and_hear<R: Wait>(&self, rt: &R, cpu: &mut Cpu<D>, reference: LocalRef<D>)
        ensures { IsLetGoAndHeard cpu.old reference cpu.new }
    {
        match try_release(&self.words, cpu, reference) {
            Ok(()) => (),
            Err(back) => self.interlock.lock(rt).give_up(&self.words, cpu, back),
        }
    }
}

/// `release_under` for a caller with a CPU: the keeper hears first what the CPU knows, and the CPU hears at the end what the keeper did. So it
/// knows that the reference was given up after all that it knew (`known`).
/// Condition: as for `release_under`; the CPU is of the keeper's table.
pub fn release_for(words: &Words, keeper: &mut Keeper, cpu: &mut PlainCpu, reference: PlainRef)
    requires words { AreWordsOf words.now keeper.old.words.table keeper.old.words.settings }
    requires cpu { AreWordsOf words.now cpu.old.words.table cpu.old.words.settings }
    requires reference { (reference.table ≡ keeper.old.words.table) × (reference.reference.entry.slot < keeper.old.words.settings.slots) }
    requires collected { IsFoundCollected keeper.old.keeper.slots keeper.old.keeper.view.marks reference.reference }
    ensures change { HasGivenUpFor keeper.old.keeper cpu.old.cpu reference.reference keeper.new.keeper cpu.new.cpu }
    ensures known { KnowsGivenUp reference.reference.entry cpu.old.cpu cpu.new.cpu }
    ensures words { KeepsWords keeper.old cpu.old keeper.new cpu.new }
{
    hear_cpu(words, keeper, cpu);
    release_under(words, keeper, reference);
    show_cpu(words, keeper, cpu);
}
