//! What CPU 0 does beside the other workers: it attaches and detaches an interface, and frees what it has detached.

ghost use Rattle.std.specs.Prelude.{◌<◌};
ghost use Rattle.registry_storm.specs.{GoesOn};

use crate::calls::{
    acquire_counted, advance, attach_iface, begin, destroy, detach, end, find_driver,
};
use crate::plan::{Plan, SLOTS};
use crate::sum::{Counts, count};
use cpu_words::Domain;
use local_count::LocalRef;
use name_registry::Registry;
use passive_list::Cpu;
use registry_values::{Entry, Stage};
use std::sync::Wait;

/// The interface while it is live, and what was retired.
#[derive(Clone, Copy)]
pub struct Churn {
    /// The interface, where it is attached now.
    pub live: Option<Entry>,
    /// For each slot the number of the interface that was retired in it and isn't known to be freed, 0 for none. A slot is reused only
    /// after that, so there is at most one.
    pub retired: [u64; 4],
}

impl Churn {
    /// Nothing was attached yet.
    pub const NONE: Churn = Churn {
        live: None,
        retired: [0; 4],
    };

    /// CPU 0's part of a turn that the other workers don't have: it attaches the interface, or detaches it where it is live, and then
    /// works on each interface that it has retired.
    pub fn make_turn<D: Domain, R: Wait>(
        &mut self,
        rt: &R,
        registry: &Registry<D>,
        plan: Plan,
        cpu: &mut Cpu<D>,
        turn: u32,
        counts: &mut Counts,
    )
        ensures { GoesOn counts.old counts.new }
    {
        match self.live {
            Some(entry) => self.detach(rt, registry, cpu, entry, counts),
            None => self.attach(rt, registry, plan, cpu, turn, counts),
        }
        self.advance_all(rt, registry, counts);
    }

    /// Attaches the interface on the driver. That no slot is vacant is no wrong answer.
    fn attach<D: Domain, R: Wait>(
        &mut self,
        rt: &R,
        registry: &Registry<D>,
        plan: Plan,
        cpu: &mut Cpu<D>,
        turn: u32,
        counts: &mut Counts,
    )
        ensures { GoesOn counts.old counts.new }
    {
        let Some(reference) = refer_to_driver(registry, plan, cpu, counts) else {
            return;
        };
        let answer = attach_iface(rt, registry, plan, cpu, turn, reference, counts);
        if let Ok(entry) = answer {
            self.live = Some(entry);
            count(&mut counts.deeds.attached);
        }
    }

    /// Detaches the interface, which is this entry.
    pub fn detach<D: Domain, R: Wait>(
        &mut self,
        rt: &R,
        registry: &Registry<D>,
        cpu: &mut Cpu<D>,
        entry: Entry,
        counts: &mut Counts,
    )
        ensures { GoesOn counts.old counts.new }
    {
        let Ok(entry) = detach(rt, registry, cpu, entry, counts) else {
            return;
        };
        self.live = None;
        match self.retired.get_mut(entry.slot as usize) {
            Some(place) => {
                counts.judge(*place == 0);
                *place = entry.number;
            }
            None => counts.judge(false),
        }
    }

    /// One turn of the work on each interface that was retired and not yet seen freed.
    fn advance_all<D: Domain, R: Wait>(
        &mut self,
        rt: &R,
        registry: &Registry<D>,
        counts: &mut Counts,
    )
        ensures { GoesOn counts.old counts.new }
    {
        for slot in 0..SLOTS {
            self.advance(rt, registry, slot, counts);
        }
    }

    /// One turn of the work on the interface that was retired in a slot, where there is one.
    fn advance<D: Domain, R: Wait>(
        &mut self,
        rt: &R,
        registry: &Registry<D>,
        slot: u8,
        counts: &mut Counts,
    )
        requires { slot < 4 }
        ensures { GoesOn counts.old counts.new }
    {
        let number = self.retired[slot as usize];
        if number == 0 {
            return;
        }
        if let Ok(Stage::Freed(_)) = advance(rt, registry, number, slot, counts) {
            count(&mut counts.deeds.freed);
            self.retired[slot as usize] = 0;
        }
    }

    /// Destroys on this CPU each interface that was retired and not yet seen freed, in one turn each.
    pub fn destroy_all<D: Domain, R: Wait>(
        &self,
        rt: &R,
        registry: &Registry<D>,
        cpu: &mut Cpu<D>,
        counts: &mut Counts,
    )
        ensures { GoesOn counts.old counts.new }
    {
        for slot in 0..SLOTS {
            let number = self.retired[slot as usize];
            if number != 0 {
                destroy_one(rt, registry, cpu, number, slot, counts);
            }
        }
    }
}

/// Destroys on this CPU, in one turn, the entry that was retired in the slot.
pub fn destroy_one<D: Domain, R: Wait>(
    rt: &R,
    registry: &Registry<D>,
    cpu: &mut Cpu<D>,
    number: u64,
    slot: u8,
    counts: &mut Counts,
)
    ensures { GoesOn counts.old counts.new }
{
    if destroy(rt, registry, cpu, number, slot, counts).is_ok() {
        count(&mut counts.deeds.freed);
    }
}

/// A local reference to the driver, acquired in a section of its own. These answers are no lookups and no references of a worker.
fn refer_to_driver<D: Domain>(
    registry: &Registry<D>,
    plan: Plan,
    cpu: &mut Cpu<D>,
    counts: &mut Counts,
) -> Option<LocalRef<D>>
    ensures { GoesOn counts.old counts.new }
{
    begin(registry, cpu, counts);
    find_driver(registry, plan, cpu, counts);
    let reference = acquire_counted(registry, cpu, counts);
    end(registry, cpu);
    reference
}
