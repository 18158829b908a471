//! The registry: the shared words, and a lock round the keeper.

ghost use Rattle.std.specs.Prelude.{◌≡◌, ◌↔◌, ◌⊎◌, ◌+ℤ◌, ◌≤◌, All, IfOk, IfErr, IsErrOf, IsTrue, false, length};
ghost use Rattle.registry_values.specs.Common.{sum_of, is_key, is_iface};
ghost use Rattle.name_registry.specs.Types.{Attach, Detach, Driver, Iface, MOST_CPUS};
ghost use Rattle.cpu_words.specs.Common.{IsAttachedKeeping, AreWordsOf};
ghost use Rattle.name_registry.specs.Auditing.{AreAllCpus, HaveHeardAndTold, HaveLearned, IsAuditBy, KnowTheSame};
ghost use Rattle.name_registry.specs.Changes.{AreReplaced, HasMade, HasMadeReplace};
ghost use Rattle.name_registry.specs.Locking.{MayAttach, IsAttachRefusal, IsDetachRefusedTo, IsReplaceRefusedTo, IsStageOf, is_inside, HasLearned, HasSeenAttach, HasSeenDetach, HasSeenReplace};

use crate::advancing::advance_in;
use crate::auditing::audit_in;
use crate::interlock::Interlock;
use cpu_words::{Domain, Words};
use local_count::LocalRef;
use passive_list::Cpu;
use registry_values::{Balance, Entry, Kind, Name, Record, Refusal, Stage};
use std::alloc::Global;
use std::sync::{Mutex, Wait};

/// A registry of network interfaces and device drivers, of the table that D names. It is shared by reference between threads; each thread
/// owns the `Cpu` that it runs on.
#[derive(Drop)]
pub struct Registry<D: Domain> {
    pub(crate) words: Words,
    pub(crate) interlock: Mutex<Interlock<D>>,
    ghost table: { words.table ≡ D.table },
    ghost settings: { words.settings ≡ D.settings },
    ghost few: { D.settings.cpus ≤ MOST_CPUS },
}

impl<D: Domain> Registry<D> {
    /// The shared words. Sections, lookups and references need them, and no call on them waits.
    pub fn words(&self) -> &Words
        ensures { AreWordsOf result.now D.table D.settings }
    {
        &self.words
    }

    /// Attaches a driver under the interlock, as `attach_in` does; the caller's CPU has seen its change then, and its share tells that this
    /// one was made, and no other.
    /// Condition: the name's words aren't both 0, as `Name::parse` and `Name::from_key_bytes` give them.
    /// Refused, in this order, and nothing has changed then: `Inside` if the CPU is inside a section; `NeedsDriver` if the record's kind is
    /// Iface; `NameTaken`; `NoSlot`; `HistoryFull`.
    pub fn attach<R: Wait>(&self, rt: &R, cpu: &mut Cpu<D>, rec: Record) -> Result<Entry, Refusal>
        requires name { IsTrue (is_key rec.name) }
        ensures may { IfOk result (λ _. MayAttach (is_inside cpu.old) (is_iface rec.kind)) }
        ensures ok { IfOk result (λ e. (e.rec ≡ rec) × HasLearned cpu.old cpu.new × HasSeenAttach cpu.old cpu.new e) }
        ensures made { IfOk result (λ e. HasMade cpu.old (Attach e) cpu.new) }
        ensures refused { IfErr result (λ refusal. IsAttachRefusal (is_inside cpu.old) (is_iface rec.kind) refusal × (cpu.new ≡ cpu.old)) }
    {
        self.interlock.lock(rt).attach(&self.words, cpu, rec)
    }

    /// Attaches an interface under the interlock, on the driver that the reference is to, as `attach_iface_in` does; the caller's CPU has
    /// seen its change then, and its share tells that this one was made, and no other.
    /// Condition: the record's kind is Iface, and its name's words aren't both 0.
    /// Refused, in this order, and nothing has changed then, and the reference comes back: `Inside` if the CPU is inside a section;
    /// `NeedsDriver` if the reference is to an interface; `NameTaken`; `NoSlot`; `HistoryFull`.
    pub fn attach_iface<R: Wait>(
        &self,
        rt: &R,
        cpu: &mut Cpu<D>,
        rec: Record,
        reference: LocalRef<D>,
    ) -> Result<Entry, (Refusal, LocalRef<D>)>
        requires kind { rec.kind ≡ Iface }
        requires name { IsTrue (is_key rec.name) }
        ensures may { IfOk result (λ _. MayAttach (is_inside cpu.old) (is_iface reference.entry.rec.kind)) }
        ensures ok { IfOk result (λ e. (e.rec ≡ rec) × HasLearned cpu.old cpu.new × HasSeenAttach cpu.old cpu.new e) }
        ensures made { IfOk result (λ e. HasMade cpu.old (Attach e) cpu.new) }
        ensures keeping { IfOk result (λ e. IsAttachedKeeping e.slot e.number reference.entry.number cpu.new.known_log) }
        ensures refused { IfErr result (λ back. IsAttachRefusal (is_inside cpu.old) (is_iface reference.entry.rec.kind) back.0 × (back.1 ≡ reference) × (cpu.new ≡ cpu.old)) }
    {
        let interlock = &mut self.interlock.lock(rt);
        interlock.attach_iface(&self.words, cpu, rec, reference)
    }

    /// Detaches the live entry with the kind and the name under the interlock, as `detach_in` does, and returns it. The caller's CPU has
    /// seen its change then, and its share tells that this change was made and no other.
    /// Refused, in this order, and nothing has changed then: `Inside` if the CPU is inside a section; `NotFound` if no live entry has both.
    pub fn detach<R: Wait>(
        &self,
        rt: &R,
        cpu: &mut Cpu<D>,
        kind: Kind,
        name: &Name,
    ) -> Result<Entry, Refusal>
        ensures may { IfOk result (λ _. is_inside cpu.old ≡ false) }
        ensures ok { IfOk result (λ e. (e.rec.kind ≡ kind) × (e.rec.name ≡ name.now) × HasLearned cpu.old cpu.new × HasSeenDetach cpu.old cpu.new e) }
        ensures made { IfOk result (λ e. HasMade cpu.old (Detach e.number) cpu.new) }
        ensures refused { IfErr result (λ refusal. IsDetachRefusedTo (is_inside cpu.old) refusal × (cpu.new ≡ cpu.old)) }
    {
        self.interlock.lock(rt).detach(&self.words, cpu, kind, name)
    }

    /// Puts another driver in the place of the live one with this name under the interlock, as `replace_in` does, and returns both, the old
    /// one first. No lookup of the name finds nothing because of it. The caller's CPU has seen the change then, and its share tells that this
    /// one was made, and no other. The old one is retired, and is to be destroyed.
    /// Refused, in this order, and nothing has changed then: `Inside` if the CPU is inside a section; `NotFound` if no live driver has the name;
    /// `NoSlot`; `HistoryFull`.
    pub fn replace<R: Wait>(
        &self,
        rt: &R,
        cpu: &mut Cpu<D>,
        name: &Name,
        value: u64,
    ) -> Result<(Entry, Entry), Refusal>
        ensures may { IfOk result (λ _. is_inside cpu.old ≡ false) }
        ensures ok { IfOk result (λ p. AreReplaced (record { kind = Driver; name = name.now }) value p × HasLearned cpu.old cpu.new × HasSeenReplace cpu.old cpu.new p.0 p.1) }
        ensures made { IfOk result (λ p. HasMadeReplace cpu.old p.0 p.1 cpu.new) }
        ensures refused { IfErr result (λ refusal. IsReplaceRefusedTo (is_inside cpu.old) false refusal × (cpu.new ≡ cpu.old)) }
    {
        let interlock = &mut self.interlock.lock(rt);
        interlock.replace(&self.words, cpu, name, value)
    }

    /// Puts another interface, on the driver that the reference is to, in the place of the live one with this name under the interlock, as
    /// `replace_iface_in` does. The old one's slot keeps its own driver. Else it is as `replace`.
    /// Refused, in this order, and nothing has changed then, and the reference comes back: `Inside` if the CPU is inside a section;
    /// `NeedsDriver` if the reference is to an interface; `NotFound`; `NoSlot`; `HistoryFull`.
    pub fn replace_iface<R: Wait>(
        &self,
        rt: &R,
        cpu: &mut Cpu<D>,
        name: &Name,
        value: u64,
        reference: LocalRef<D>,
    ) -> Result<(Entry, Entry), (Refusal, LocalRef<D>)>
        ensures may { IfOk result (λ _. MayAttach (is_inside cpu.old) (is_iface reference.entry.rec.kind)) }
        ensures ok { IfOk result (λ p. AreReplaced (record { kind = Iface; name = name.now }) value p × HasLearned cpu.old cpu.new × HasSeenReplace cpu.old cpu.new p.0 p.1) }
        ensures made { IfOk result (λ p. HasMadeReplace cpu.old p.0 p.1 cpu.new) }
        ensures keeping { IfOk result (λ p. IsAttachedKeeping p.1.slot p.1.number reference.entry.number cpu.new.known_log) }
        ensures refused { IfErr result (λ back. IsReplaceRefusedTo (is_inside cpu.old) (is_iface reference.entry.rec.kind) back.0 × (back.1 ≡ reference) × (cpu.new ≡ cpu.old)) }
    {
        let interlock = &mut self.interlock.lock(rt);
        interlock.replace_iface(&self.words, cpu, name, value, reference)
    }

    /// Makes one turn of the work on the retired entry `number` under the interlock, as `advance_in` does. It returns the first obstacle, or
    /// `Freed` with the slot that is vacant again.
    ///
    /// It has no CPU that could learn what the keeper did, so its contract says no more than which results there are. `destroy` with one turn makes
    /// the same turn for a CPU, whose contract says that nothing holds the entry after `Freed`.
    ///
    /// Refused: `NotRetired` if no slot has the retired entry `number`; nothing has changed then.
    pub fn advance<R: Wait>(&self, rt: &R, number: u64) -> Result<Stage, Refusal>
        ensures ok { IfOk result (λ stage. IsStageOf D.settings stage) }
        ensures refused { IfErr result (λ refusal. refusal ≡ Refusal.NotRetired) }
    {
        advance_in(&self.words, &mut self.interlock.lock(rt).keeper, number)
    }

    /// Audits the local references under the interlock (localcount(9)), as `audit_in` does. Returns a `Balance` for each live or retired slot,
    /// lowest first: each CPU's net count, or 0 if the keeper has collected it; the keeper's total; and `held`, their sum.
    ///
    /// - Ok (`tally`): `held` is what the CPUs acquired, less what they released, less what was given up. No entry is left out.
    /// - Ok or `NoMemory`: all CPUs know the same log and have the same history as their pass (`alike`). Each heard once and told once (`notes`).
    ///
    /// Refused, in this order:
    ///
    /// - `MissingCpu` if the slice isn't CPU 0, 1, .. of this registry in this order; the CPUs haven't changed then;
    /// - `NoMemory`.
    #[tactic(auto, using(crate::proofs::Gathered::know_the_same))]
    pub fn audit<R: Wait>(
        &self,
        rt: &R,
        alloc: Global,
        cpus: &mut [Cpu<D>],
    ) -> Result<Vec<Balance>, Refusal>
        ensures missing { IsErrOf result Refusal.MissingCpu ↔ (AreAllCpus D.settings.cpus cpus.old → ⊥) }
        ensures err { IfErr result (λ refusal. (refusal ≡ Refusal.MissingCpu) ⊎ (refusal ≡ Refusal.NoMemory)) }
        ensures sums { IfOk result (λ list. All (λ b. b.held ≡ sum_of b.locals.items +ℤ b.total) list.items) }
        ensures locals { IfOk result (λ list. All (λ b. length b.locals.items ≡ D.settings.cpus) list.items) }
        ensures tally { IfOk result (λ list. IsAuditBy D.settings cpus.old cpus.new list.items) }
        ensures cpus { HaveLearned cpus.old cpus.new }
        ensures notes { AreAllCpus D.settings.cpus cpus.old → HaveHeardAndTold cpus.old cpus.new }
        ensures alike { AreAllCpus D.settings.cpus cpus.old → KnowTheSame cpus.new }
        ensures unchanged { IsErrOf result Refusal.MissingCpu → cpus.new ≡ cpus.old }
    {
        let keeper = &mut self.interlock.lock(rt).keeper;
        audit_in(alloc, &self.words, keeper, cpus)
    }
}

/// The interlock as a thing of its own: what a call does in several holds of it is counted over this, since no contract names a lock's value. Each call through it takes the lock once, and lets it go again.
#[derive(Drop)]
pub(crate) struct Locked<'a, D: Domain> {
    pub(crate) registry: &'a Registry<D>,
}
