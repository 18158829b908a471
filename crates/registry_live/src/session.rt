//! A script's run over a running registry: its CPUs, and the references that labels name.

ghost use Rattle.std.specs.Prelude.{◌≡◌, ◌<◌, ◌∷◌, [], IfSome, List, None, replicate};
ghost use Rattle.passive_list.specs.Common.{OnCpu};
ghost use Rattle.name_registry.specs.Common.{AreAllCpus};
ghost use Rattle.registry_live.specs.{IsGivenBack, LetGo, LetsGo, EndedOnFirst, HaveReleased, AllOnlyRelease};

use crate::calls::{
    copied, count_one, fill, holds, leave, let_go, look_up, peek_at, plug_in, read_by, refer,
    uncount_one,
};
use cpu_words::Domain;
use local_count::LocalRef;
use name_registry::Registry;
use passive_list::{Cpu, enter};
use passive_ref::{Psref, release};
use registry_language::Label;
use registry_report::{Hitch, Reading, Session, as_answer};
use registry_values::{Balance, Entry, Kind, Name, Record, Stage};
use std::alloc::Global;
use std::sync::Wait;

/// Takes an array with a place for each label apart, and spends what is in each: it can't be dropped.
macro_rules! spend_each {
    ($places:expr, $place:ident => $spend:expr) => {
        spend_each!($places, $place => $spend; a b c d e f g h i j k l m n o p q r s t u v w x y z);
    };
    ($places:expr, $place:ident => $spend:expr; $($label:ident)+) => {
        let [$($label),+] = $places;
        $(
            let $place = $label;
            $spend;
        )+
    };
}

/// All CPUs of a running registry, and the references that labels name. `give_back` spends a value that is left over.
pub struct LiveSession<'a, D: Domain, R: Wait> {
    cpus: &'a mut [Cpu<D>],
    rt: &'a R,
    alloc: Global,
    registry: &'a Registry<D>,
    passives: [Option<Psref>; 26],
    locals: [Option<LocalRef<D>>; 26],
    ghost all: { AreAllCpus D.settings.cpus cpus.now },
}

impl<'a, D: Domain, R: Wait> LiveSession<'a, D, R> {
    /// A session in which no label names a reference.
    /// Condition: the slice is all CPUs of the registry, in order.
    pub fn new(
        rt: &'a R,
        alloc: Global,
        registry: &'a Registry<D>,
        cpus: &'a mut [Cpu<D>],
    ) -> LiveSession<'a, D, R>
        requires { AreAllCpus D.settings.cpus cpus.old }
        ensures same_reference { result.cpus.ghost_name ≡ cpus.entry.ghost_name }
        ensures cpus { result.cpus.now ≡ cpus.old }
        ensures passives { result.passives ≡ replicate 26 None }
        ensures locals { result.locals ≡ replicate 26 None }
    {
        LiveSession {
            cpus,
            rt,
            alloc,
            registry,
            passives: free_places(),
            locals: free_places(),
        }
    }

    /// Releases all references that labels name:
    ///
    /// - the local ones first, on CPU 0, label by label (`locals`);
    /// - then the passive ones, each on its own CPU, which then holds what no label named (`released`).
    ///
    /// Each local reference ends in one of two ways. CPU 0 releases it by its own count. Or a compare-exchange finds that count collected;
    /// then CPU 0 knows by the keeper's log that one reference more to the entry was given up, after all that CPU 0 knew before. `ended`
    /// counts both by entry, from the call to its return. Sections stay open.
    pub fn give_back(self)
        ensures all { AreAllCpus D.settings.cpus self.exit.0.now }
        ensures locals { (between : List OnCpu) × LetGo self.entry.cpus.now self.entry.locals between × AllOnlyRelease between self.exit.0.now }
        ensures ended { EndedOnFirst self.entry.cpus.now self.entry.locals self.exit.0.now }
        ensures released { HaveReleased self.entry.cpus.now self.entry.passives self.exit.0.now }
    {
        let LiveSession {
            cpus,
            rt,
            alloc: _,
            registry,
            passives,
            locals,
        } = self;
        release_locals(rt, registry, cpus, locals);
        release_passives(registry, cpus, passives);
    }
}

/// A place for each label, all of them free.
fn free_places<X>() -> [Option<X>; 26]
    ensures { result ≡ replicate 26 None }
{
    [
        None, None, None, None, None, None, None, None, None, None, None, None, None, None, None,
        None, None, None, None, None, None, None, None, None, None, None,
    ]
}

/// Releases the local references in these places, each on CPU 0, which knows how each ended.
fn release_locals<D: Domain, R: Wait>(
    rt: &R,
    registry: &Registry<D>,
    cpus: &mut [Cpu<D>],
    locals: [Option<LocalRef<D>>; 26],
)
    requires { AreAllCpus D.settings.cpus cpus.old }
    ensures all { AreAllCpus D.settings.cpus cpus.new }
    ensures locals { LetGo cpus.old locals cpus.new }
{
    spend_each!(locals, place => release_local(rt, registry, cpus, place));
}

/// Releases the local reference in a place, on CPU 0, which knows how it ended.
fn release_local<D: Domain, R: Wait>(
    rt: &R,
    registry: &Registry<D>,
    cpus: &mut [Cpu<D>],
    place: Option<LocalRef<D>>,
)
    requires { AreAllCpus D.settings.cpus cpus.old }
    ensures all { AreAllCpus D.settings.cpus cpus.new }
    ensures local { LetsGo cpus.old place cpus.new }
{
    if let Some(reference) = place {
        // Reading it opens what its type keeps: it is a reference of this registry, which so has a CPU 0.
        let _slot = reference.plain.slot;
        let cpu = &mut cpus[0];
        registry.release_local_and_hear(rt, cpu, reference);
    }
}

/// Releases the passive references in these places, each on its own CPU.
fn release_passives<D: Domain>(
    registry: &Registry<D>,
    cpus: &mut [Cpu<D>],
    passives: [Option<Psref>; 26],
)
    requires { AreAllCpus D.settings.cpus cpus.old }
    ensures all { AreAllCpus D.settings.cpus cpus.new }
    ensures released { HaveReleased cpus.old passives cpus.new }
    ensures only { AllOnlyRelease cpus.old cpus.new }
{
    spend_each!(passives, place => release_passive(registry, cpus, place));
}

/// Releases the passive reference in a place, on its own CPU. One of another registry is forgotten; no label names one.
fn release_passive<D: Domain>(registry: &Registry<D>, cpus: &mut [Cpu<D>], place: Option<Psref>)
    requires { AreAllCpus D.settings.cpus cpus.old }
    ensures all { AreAllCpus D.settings.cpus cpus.new }
    ensures released { IfSome place (IsGivenBack cpus.old cpus.new) }
    ensures labels { HaveReleased cpus.old (place ∷ []) cpus.new }
    ensures only { AllOnlyRelease cpus.old cpus.new }
{
    let Some(psref) = place else {
        return;
    };
    let at = psref.cpu() as usize;
    if at >= cpus.len() {
        psref.forget();
        return;
    }
    let cpu = &mut cpus[at];
    if let Err((_, back)) = release(registry.words(), cpu, psref) {
        back.forget();
    }
}

impl<'a, D: Domain, R: Wait> Session for LiveSession<'a, D, R> {
    ghost use Rattle.registry_live.specs.{DestroysBy, OnOne, PerformsBy, Lent, unlabelled};

    // which slice of CPUs the session has, and what each CPU holds that no label names
    ghost Kept = { Lent };

    ghost kept = { λ s. record { slice = s.cpus.ghost_name; unlabelled = unlabelled s.cpus.now s.passives } };

    ghost settings = { λ _. D.settings };

    // Others may use the registry too.
    ghost shows = { λ _ _. ⊥ };

    // The CPU makes the call once, with these turns, and the other CPUs are as they were.
    ghost destroys = { λ s c number turns answer t. OnOne s.cpus.now c (DestroysBy D.settings number turns answer) t.cpus.now };

    ghost performs = { λ s c turns answer t. OnOne s.cpus.now c (PerformsBy D.settings turns answer) t.cpus.now };

    #[tactic(auto, using(registry_values::proofs::Names::names_are_keys))]
    fn attach(&mut self, cpu: u8, rec: Record) -> Result<Entry, Hitch> {
        let (rt, registry) = (self.rt, self.registry);
        let cpus = &mut *self.cpus;
        let cpu = &mut cpus[cpu as usize];
        as_answer(registry.attach(rt, cpu, rec))
    }

    #[tactic(auto, using(registry_values::proofs::Names::names_are_keys))]
    fn plug(&mut self, cpu: u8, rec: Record, label: Label) -> Result<Entry, Hitch> {
        let (rt, registry) = (self.rt, self.registry);
        let cpus = &mut *self.cpus;
        let locals = &mut self.locals;
        let cpu = &mut cpus[cpu as usize];
        let place = &mut locals[label.place as usize];
        plug_in(rt, registry, cpu, rec, place)
    }

    fn detach(&mut self, cpu: u8, kind: Kind, name: Name) -> Result<Entry, Hitch> {
        let (rt, registry) = (self.rt, self.registry);
        let cpus = &mut *self.cpus;
        let cpu = &mut cpus[cpu as usize];
        as_answer(registry.detach(rt, cpu, kind, &name))
    }

    fn enter(&mut self, cpu: u8) -> Result<(), Hitch> {
        let registry = self.registry;
        let cpus = &mut *self.cpus;
        let cpu = &mut cpus[cpu as usize];
        as_answer(enter(registry.words(), cpu))
    }

    fn exit(&mut self, cpu: u8) -> Result<bool, Hitch> {
        let registry = self.registry;
        let cpus = &mut *self.cpus;
        let cpu = &mut cpus[cpu as usize];
        leave(registry.words(), cpu)
    }

    fn find(&mut self, cpu: u8, kind: Kind, name: Name) -> Result<Option<Entry>, Hitch> {
        let registry = self.registry;
        let cpus = &mut *self.cpus;
        let cpu = &mut cpus[cpu as usize];
        look_up(registry.words(), cpu, kind, &name)
    }

    fn reference(&mut self, cpu: u8, label: Label) -> Result<u64, Hitch> {
        let registry = self.registry;
        let cpus = &mut *self.cpus;
        let passives = &mut self.passives;
        let cpu = &mut cpus[cpu as usize];
        let place = &mut passives[label.place as usize];
        refer(registry.words(), cpu, place)
    }

    fn copy(&mut self, cpu: u8, source: Label, target: Label) -> Result<u64, Hitch> {
        let registry = self.registry;
        let cpus = &mut *self.cpus;
        let passives = &mut self.passives;
        let cpu = &mut cpus[cpu as usize];
        let taken = passives[target.place as usize].is_some();
        let second = copied(
            registry.words(),
            cpu,
            &passives[source.place as usize],
            taken,
        )?;
        let number = second.number();
        let place = &mut passives[target.place as usize];
        fill(place, second);
        Ok(number)
    }

    fn held(&self, cpu: u8, label: Label) -> Result<bool, Hitch> {
        let passives = &self.passives;
        let cpus = &*self.cpus;
        let cpu = &cpus[cpu as usize];
        let place = &passives[label.place as usize];
        holds(cpu, place)
    }

    fn read(&mut self, cpu: u8, label: Label) -> Result<Reading, Hitch> {
        let registry = self.registry;
        let cpus = &mut *self.cpus;
        let passives = &self.passives;
        let cpu = &mut cpus[cpu as usize];
        read_by(registry.words(), cpu, &passives[label.place as usize])
    }

    fn release(&mut self, cpu: u8, label: Label) -> Result<u64, Hitch> {
        let registry = self.registry;
        let cpus = &mut *self.cpus;
        let passives = &mut self.passives;
        let cpu = &mut cpus[cpu as usize];
        let place = &mut passives[label.place as usize];
        let_go(registry.words(), cpu, place)
    }

    fn count(&mut self, cpu: u8, label: Label) -> Result<u64, Hitch> {
        let registry = self.registry;
        let cpus = &mut *self.cpus;
        let locals = &mut self.locals;
        let cpu = &mut cpus[cpu as usize];
        let place = &mut locals[label.place as usize];
        count_one(registry.words(), cpu, place)
    }

    fn peek(&mut self, label: Label) -> Result<Reading, Hitch> {
        let registry = self.registry;
        let locals = &mut self.locals;
        let place = &mut locals[label.place as usize];
        peek_at(registry.words(), place)
    }

    fn uncount(&mut self, cpu: u8, label: Label) -> Result<u64, Hitch> {
        let (rt, registry) = (self.rt, self.registry);
        let cpus = &mut *self.cpus;
        let locals = &mut self.locals;
        let cpu = &mut cpus[cpu as usize];
        let place = &mut locals[label.place as usize];
        uncount_one(rt, registry, cpu, place)
    }

    fn advance(&mut self, number: u64) -> Result<Stage, Hitch> {
        as_answer(self.registry.advance(self.rt, number))
    }

    fn destroy(&mut self, cpu: u8, number: u64, turns: u32) -> Result<u8, Hitch> {
        let (rt, registry) = (self.rt, self.registry);
        let cpus = &mut *self.cpus;
        let cpu = &mut cpus[cpu as usize];
        as_answer(registry.destroy(rt, cpu, number, turns))
    }

    fn perform(&mut self, cpu: u8, turns: u32) -> Result<(), Hitch> {
        let (rt, registry) = (self.rt, self.registry);
        let cpus = &mut *self.cpus;
        let cpu = &mut cpus[cpu as usize];
        as_answer(registry.perform(rt, cpu, turns))
    }

    fn audit(&mut self) -> Result<Vec<Balance>, Hitch> {
        let (rt, alloc, registry) = (self.rt, self.alloc, self.registry);
        let cpus = &mut *self.cpus;
        as_answer(registry.audit(rt, alloc, cpus))
    }
}
