//! What rows on a registry begin with, a registry of three CPUs and their references, and what a row does with it.

ghost use Rattle.name_registry.specs.Common.{IsBlankOf};

use super::answers::{Answer, Wanted, come, done, entry, record, replaced};
use super::readers::{Held, Reader, by_reader};
use super::registry_rows::{changed, counted};
use super::remembered::full_by_memory;
use super::turns::{Row, together};
use cpu_words::Domain;
use name_registry::{Blank, Registry};
use passive_list::Cpu;
use registry_values::{Kind, Refusal, Settings, USUAL_SECTIONS};
use std::alloc::Global;
use std::marker::Brand;
use std::process::Abort;
use std::sync::Wait;
use std::thread::Threads;

/// The words of a registry of three CPUs with so many slots and room for so many changes, before it is named.
pub(crate) fn blank(alloc: Global, slots: u8, change_limit: u64) -> Result<Blank, Refusal> {
    let settings = Settings {
        cpus: 3,
        slots,
        change_limit,
        section_limit: USUAL_SECTIONS,
        passive_limit: 100,
        count_limit: 1000,
    };
    Blank::new(alloc, settings)
}

/// A test on a registry of its own.
#[derive(Clone, Copy)]
pub(crate) enum Test<'a> {
    Changed,
    Counted,
    Follow(&'a [(Step, Answer)]),
    FullByMemory,
    Together(&'a Row),
}

/// Runs the test on a registry with so many slots and room for so many changes.
pub(crate) fn on_bench<R: Threads + Wait + Abort + Sync>(
    rt: &R,
    alloc: Global,
    slots: u8,
    change_limit: u64,
    test: Test,
) {
    match blank(alloc, slots, change_limit) {
        Ok(blank) => on_named::<Brand, R>(rt, alloc, blank, test),
        Err(_) => panic!(rt; "a blank"),
    }
}

/// The same, where D names the registry.
fn on_named<D: Domain + Send + Sync, R: Threads + Wait + Abort + Sync>(
    rt: &R,
    alloc: Global,
    blank: Blank,
    test: Test,
)
    requires { IsBlankOf blank D.table D.settings D.name D.parts }
{
    let mut bench = Bench::<D>::open(rt, alloc, blank);
    match test {
        Test::Changed => changed(rt, alloc, &mut bench),
        Test::Counted => counted(rt, &mut bench),
        Test::Follow(steps) => bench.run(rt, "on a registry", steps),
        Test::FullByMemory => full_by_memory(rt, &mut bench),
        Test::Together(row) => together(rt, &mut bench, row),
    }
}

/// What the CPU with this number does: it calls the registry, or steps on the words.
#[derive(Clone, Copy)]
pub(crate) enum Step {
    By(u8, Call),
    /// It gets a passive reference, which the row holds.
    Gets(u8, Wanted),
    /// It releases the row's local reference.
    Uncounts(u8),
    /// It attaches this interface, on the driver of the row's local reference.
    Plugs(u8, Wanted),
    /// It puts this interface, on the driver of the row's local reference, in the place of the live one with its name.
    Replugs(u8, Wanted),
    Reads(u8, Reader),
}

/// A call on a registry by a CPU.
#[derive(Clone, Copy)]
pub(crate) enum Call {
    Attach(Wanted),
    Detach(Wanted),
    /// It puts this driver in the place of the live one with its name.
    Replace(Wanted),
    LookUp(Wanted),
    /// It waits for the open sections, for so many turns.
    Perform(u32),
    /// It destroys the retired entry with this number, in so many turns.
    Destroy(u64, u32),
    /// It makes one turn of the work on the retired entry with this number.
    Advance(u64),
}

/// A registry and its three CPUs.
#[derive(Drop)]
pub(crate) struct Bench<D: Domain> {
    pub(crate) registry: Registry<D>,
    pub(crate) cpus: Vec<Cpu<D>>,
}

impl<D: Domain> Bench<D> {
    pub(crate) fn open<R: Abort>(rt: &R, alloc: Global, blank: Blank) -> Bench<D>
        requires { IsBlankOf blank D.table D.settings D.name D.parts }
    {
        match blank.open::<D>(alloc) {
            Ok((registry, cpus)) => Bench { registry, cpus },
            Err(_) => panic!(rt; "an open registry"),
        }
    }

    /// Checks that each step returns what the row says, and that no reference is held at the end.
    pub(crate) fn run<R: Wait + Abort>(&mut self, rt: &R, name: &str, steps: &[(Step, Answer)]) {
        let mut refs = Held::nothing();
        self.follow(rt, &mut refs, name, steps);
        refs.end(rt);
    }

    /// Checks that each step returns what the row says.
    pub(crate) fn follow<R: Wait + Abort>(
        &mut self,
        rt: &R,
        refs: &mut Held<D>,
        name: &str,
        steps: &[(Step, Answer)],
    ) {
        for (n, (step, answer)) in steps.iter().enumerate() {
            assert!(rt;
                self.take(rt, refs, *step) == *answer,
                "at {name}, step {n}"
            );
        }
    }

    fn take<R: Wait + Abort>(&mut self, rt: &R, refs: &mut Held<D>, step: Step) -> Answer {
        let (Step::By(cpu, _)
        | Step::Gets(cpu, _)
        | Step::Uncounts(cpu)
        | Step::Plugs(cpu, _)
        | Step::Replugs(cpu, _)
        | Step::Reads(cpu, _)) = step;
        let Some(cpu) = self.cpus.get_mut(usize::from(cpu)) else {
            panic!(rt; "three CPUs");
        };
        match step {
            Step::By(_, call) => by_cpu(rt, &self.registry, cpu, call),
            Step::Gets(_, wanted) => gotten(rt, &self.registry, cpu, refs, wanted),
            Step::Uncounts(_) => {
                self.registry.release_local(rt, cpu, refs.take_local(rt));
                Answer::Done
            }
            Step::Plugs(_, wanted) => plugged(rt, &self.registry, cpu, refs, wanted),
            Step::Replugs(_, wanted) => replugged(rt, &self.registry, cpu, refs, wanted),
            Step::Reads(_, call) => by_reader(rt, self.registry.words(), cpu, refs, call),
        }
    }
}

/// Makes the call; its answer.
pub(crate) fn by_cpu<D: Domain, R: Wait + Abort>(
    rt: &R,
    registry: &Registry<D>,
    cpu: &mut Cpu<D>,
    call: Call,
) -> Answer {
    match call {
        Call::Attach(wanted) => {
            let rec = record(rt, wanted);
            entry(rt, registry.attach(rt, cpu, rec), rec)
        }
        Call::Detach(wanted) => {
            let rec = record(rt, wanted);
            entry(rt, registry.detach(rt, cpu, rec.kind, &rec.name), rec)
        }
        Call::Replace(wanted) => {
            assert!(rt; wanted.kind == Kind::Driver);
            let rec = record(rt, wanted);
            replaced(rt, registry.replace(rt, cpu, &rec.name, rec.value), rec)
        }
        Call::LookUp(wanted) => {
            let rec = record(rt, wanted);
            entry(rt, registry.look_up(cpu, rec.kind, &rec.name), rec)
        }
        Call::Perform(turns) => performed(rt, registry, cpu, turns),
        Call::Destroy(number, turns) => destroyed(rt, registry, cpu, number, turns),
        Call::Advance(number) => come(registry.advance(rt, number)),
    }
}

fn plugged<D: Domain, R: Wait + Abort>(
    rt: &R,
    registry: &Registry<D>,
    cpu: &mut Cpu<D>,
    refs: &mut Held<D>,
    wanted: Wanted,
) -> Answer {
    assert!(rt; wanted.kind == Kind::Iface);
    let rec = record(rt, wanted);
    match registry.attach_iface(rt, cpu, rec, refs.take_local(rt)) {
        Ok(made) => entry(rt, Ok(made), rec),
        Err((refusal, reference)) => {
            refs.keep_local(rt, reference);
            Answer::Refused(refusal)
        }
    }
}

fn replugged<D: Domain, R: Wait + Abort>(
    rt: &R,
    registry: &Registry<D>,
    cpu: &mut Cpu<D>,
    refs: &mut Held<D>,
    wanted: Wanted,
) -> Answer {
    assert!(rt; wanted.kind == Kind::Iface);
    let rec = record(rt, wanted);
    let driver = refs.take_local(rt);
    match registry.replace_iface(rt, cpu, &rec.name, rec.value, driver) {
        Ok(entries) => replaced(rt, Ok(entries), rec),
        Err((refusal, reference)) => {
            refs.keep_local(rt, reference);
            Answer::Refused(refusal)
        }
    }
}

fn gotten<D: Domain, R: Abort>(
    rt: &R,
    registry: &Registry<D>,
    cpu: &mut Cpu<D>,
    refs: &mut Held<D>,
    wanted: Wanted,
) -> Answer {
    let rec = record(rt, wanted);
    refs.keep_got(rt, registry.get(cpu, rec.kind, &rec.name), rec)
}

fn performed<D: Domain, R: Wait + Abort>(
    rt: &R,
    registry: &Registry<D>,
    cpu: &mut Cpu<D>,
    turns: u32,
) -> Answer {
    assert!(rt; 1 <= turns);
    done(registry.perform(rt, cpu, turns))
}

fn destroyed<D: Domain, R: Wait + Abort>(
    rt: &R,
    registry: &Registry<D>,
    cpu: &mut Cpu<D>,
    number: u64,
    turns: u32,
) -> Answer {
    assert!(rt; 1 <= turns);
    match registry.destroy(rt, cpu, number, turns) {
        Ok(slot) => Answer::Number(u64::from(slot)),
        Err(refusal) => Answer::Refused(refusal),
    }
}
