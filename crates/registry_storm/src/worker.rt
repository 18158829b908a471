//! A worker: its turns on its own CPU.

ghost use Rattle.std.specs.Prelude.{◌≡◌, ◌≢◌, ◌+◌, ◌*◌, ◌<◌, ◌≤◌, ◌^◌, None};
ghost use Rattle.registry_storm.specs.{GoesOn};

use crate::baskets::{Baskets, Laid, give_back};
use crate::calls::{
    acquire_counted, acquire_passive, begin, end, find_driver, find_iface, read_local,
    read_passive, release_passive,
};
use crate::churn::Churn;
use crate::plan::Plan;
use crate::sum::{Counts, count};
use cpu_words::Domain;
use local_count::LocalRef;
use name_registry::Registry;
use passive_list::Cpu;
use passive_ref::Psref;
use std::sync::Wait;

/// A gate that each worker of a storm passes once a turn, inside its section.
pub trait Gate {
    /// Passes the gate: `cpu` is the worker's CPU, from 0, and `turn` its turn, from 0. The worker stays inside its section until this
    /// returns.
    fn pass(&self, cpu: u8, turn: u32);
}

/// A gate that holds nobody.
#[derive(Clone, Copy, Debug, PartialEq, Eq)]
pub struct OpenGate;

impl Gate for OpenGate {
    fn pass(&self, _cpu: u8, _turn: u32) {}
}

/// What workers share: the registry, the baskets, what is to be done, and the gate.
#[derive(Drop)]
pub struct Shared<'a, D: Domain, G: Gate> {
    pub registry: &'a Registry<D>,
    /// Where workers leave local references to one another.
    pub baskets: &'a Baskets<D>,
    /// What each worker passes once a turn, inside its section.
    pub gate: &'a G,
    /// How many CPUs and turns there are, and what the entries are called.
    pub plan: Plan,
}

/// What a worker leaves.
#[derive(Clone, Copy)]
pub struct Done {
    /// What it counted.
    pub counts: Counts,
    /// What is left of the interface, which CPU 0 alone attaches.
    pub churn: Churn,
}

impl Done {
    /// Before the first turn.
    pub const NONE: Done = Done {
        counts: Counts::NONE,
        churn: Churn::NONE,
    };
}

/// The references to the driver that were acquired in a turn.
struct Held<D: Domain> {
    passive: Option<Psref>,
    local: Option<LocalRef<D>>,
}

impl<'a, D: Domain, G: Gate> Shared<'a, D, G> {
    /// All turns of the worker of a CPU.
    pub fn work<R: Wait>(&self, rt: &R, cpu: &mut Cpu<D>) -> Done
        ensures { result.counts.lookups ≡ 2 * self.now.plan.turns }
    {
        let mut done = Done::NONE;
        for turn in 0..self.plan.turns {
            self.churn(rt, cpu, turn, &mut done);
            self.make_turn(rt, cpu, turn, &mut done.counts);
        }
        done
    }

    /// What CPU 0 alone does in a turn.
    fn churn<R: Wait>(&self, rt: &R, cpu: &mut Cpu<D>, turn: u32, done: &mut Done)
        ensures { GoesOn done.old.counts done.new.counts }
    {
        if cpu.id() == 0 {
            let churn = &mut done.churn;
            churn.make_turn(rt, self.registry, self.plan, cpu, turn, &mut done.counts);
        }
    }

    /// One turn of the worker of a CPU.
    fn make_turn<R: Wait>(&self, rt: &R, cpu: &mut Cpu<D>, turn: u32, counts: &mut Counts)
        requires counted { counts.old.lookups ≡ 2 * turn }
        ensures counted { counts.new.lookups ≡ 2 * turn + 2 }
        ensures wrong { counts.old.wrong ≤ counts.new.wrong }
    {
        begin(self.registry, cpu, counts);
        if cpu.inside() {
            self.pass_gate(cpu, turn);
        }
        let held = self.refer(cpu, counts);
        end(self.registry, cpu);
        self.let_go(rt, cpu, held, counts);
    }

    /// Passes the gate. Condition: inside.
    fn pass_gate(&self, cpu: &Cpu<D>, turn: u32)
        requires { cpu.now.view.begin ≢ None }
    {
        self.gate.pass(cpu.id(), turn);
    }

    /// The lookups of a turn, and the references that are acquired after them.
    fn refer(&self, cpu: &mut Cpu<D>, counts: &mut Counts) -> Held<D>
        requires few { counts.old.lookups < 2 ^ 62 }
        ensures counted { counts.new.lookups ≡ counts.old.lookups + 2 }
        ensures wrong { counts.old.wrong ≤ counts.new.wrong }
    {
        self.look_up(cpu, counts);
        let passive = acquire_passive(self.registry, cpu, counts);
        let local = acquire_counted(self.registry, cpu, counts);
        Held { passive, local }
    }

    /// Looks the interface up, and then the driver.
    fn look_up(&self, cpu: &mut Cpu<D>, counts: &mut Counts)
        requires few { counts.old.lookups < 2 ^ 62 }
        ensures counted { counts.new.lookups ≡ counts.old.lookups + 2 }
        ensures wrong { counts.old.wrong ≤ counts.new.wrong }
    {
        let iface = find_iface(self.registry, self.plan, cpu, counts);
        counts.add_lookup();
        if iface.is_some() {
            count(&mut counts.deeds.found);
        }
        find_driver(self.registry, self.plan, cpu, counts);
        counts.add_lookup();
    }

    /// Reads both records, releases the passive reference, and exchanges the local one with what lies in the next CPU's basket, which is
    /// released here.
    fn let_go<R: Wait>(&self, rt: &R, cpu: &mut Cpu<D>, held: Held<D>, counts: &mut Counts)
        ensures { GoesOn counts.old counts.new }
    {
        let Held { passive, mut local } = held;
        self.read_both(cpu, &passive, &mut local, counts);
        if let Some(psref) = passive {
            release_passive(self.registry, cpu, psref, counts);
        }
        if let Some(reference) = local {
            self.pass_on(rt, cpu, reference, counts);
        }
    }

    /// Reads the driver's record by each reference that there is.
    fn read_both(
        &self,
        cpu: &mut Cpu<D>,
        passive: &Option<Psref>,
        local: &mut Option<LocalRef<D>>,
        counts: &mut Counts,
    )
        ensures { GoesOn counts.old counts.new }
    {
        if let Some(psref) = passive {
            read_passive(self.registry, self.plan, cpu, psref, counts).ok();
            count(&mut counts.deeds.read);
        }
        if let Some(reference) = local {
            read_local(self.registry, self.plan, reference, counts);
            count(&mut counts.deeds.read);
        }
    }

    /// Lays the local reference into the next CPU's basket, and takes what lies in this CPU's own. What was taken out of either is
    /// released here.
    fn pass_on<R: Wait>(
        &self,
        rt: &R,
        cpu: &mut Cpu<D>,
        reference: LocalRef<D>,
        counts: &mut Counts,
    )
        ensures { GoesOn counts.old counts.new }
    {
        let own = cpu.plain.row.cpu;
        let next = next_basket(own, self.plan.cpus);
        let laid = Laid { by: own, reference };
        let back = self.baskets.exchange(rt, next, laid);
        let handed = self.baskets.take(rt, own);
        self.take_in(rt, cpu, back, counts);
        self.take_in(rt, cpu, handed, counts);
    }

    /// Releases what was taken out of a basket.
    fn take_in<R: Wait>(
        &self,
        rt: &R,
        cpu: &mut Cpu<D>,
        taken: Option<Laid<D>>,
        counts: &mut Counts,
    )
        ensures { GoesOn counts.old counts.new }
    {
        if let Some(Laid { by, reference }) = taken {
            if by != cpu.id() {
                count(&mut counts.deeds.handed);
            }
            give_back(rt, self.registry, cpu, counts, reference);
        }
    }
}

/// The basket of the CPU after this one, and CPU 0's after the last.
fn next_basket(cpu: u8, cpus: u8) -> u8
    requires { 1 ≤ cpus }
    ensures next { cpu + 1 < cpus → result ≡ cpu + 1 }
    ensures first { cpus ≤ cpu + 1 → result ≡ 0 }
{
    if cpu < cpus - 1 { cpu + 1 } else { 0 }
}
