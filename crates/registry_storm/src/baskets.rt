//! Baskets in which workers leave local references to one another.

ghost use Rattle.std.specs.Prelude.{◌≡◌, ◌<◌, vec_len};
ghost use Rattle.registry_values.specs.declared.limits.TheConstants.{MOST_CPUS};
ghost use Rattle.registry_storm.specs.{GoesOn};

use crate::sum::Counts;
use cpu_words::Domain;
use local_count::LocalRef;
use name_registry::Registry;
use passive_list::Cpu;
use registry_values::MOST_CPUS;
use std::alloc::{AllocError, Global};
use std::sync::{Mutex, Wait};

/// A local reference in a basket.
pub struct Laid<D: Domain> {
    /// The CPU, from 0, that laid it there.
    pub by: u8,
    /// To the driver.
    pub reference: LocalRef<D>,
}

/// A place for one local reference.
type Basket<D> = Mutex<Option<Laid<D>>>;

/// A place for each CPU that there may be, each under a lock of its own, which is held only to exchange what lies there. They can't be
/// dropped: what lies in them is spent by `empty`.
pub struct Baskets<D: Domain> {
    places: Vec<Basket<D>>,
    ghost all: { vec_len places ≡ MOST_CPUS },
}

impl<D: Domain> Baskets<D> {
    /// Nothing lies in them. Refused where there is no memory for them.
    pub fn new(alloc: Global) -> Result<Baskets<D>, AllocError> {
        let mut places = Vec::with_capacity(alloc, MOST_CPUS)?;
        for _ in 0..MOST_CPUS {
            places.push_reserved(Mutex::new(None));
        }
        Ok(Baskets { places })
    }

    /// Lays the reference into a place, from 0, and takes out what lay there.
    pub fn exchange<R: Wait>(&self, rt: &R, place: u8, laid: Laid<D>) -> Option<Laid<D>>
        requires { place < MOST_CPUS }
    {
        self.places[place as usize].lock(rt).replace(laid)
    }

    /// Takes out what lies in a place, from 0.
    pub fn take<R: Wait>(&self, rt: &R, place: u8) -> Option<Laid<D>>
        requires { place < MOST_CPUS }
    {
        self.places[place as usize].lock(rt).take()
    }

    /// Releases on this CPU what lies in them, and counts it.
    pub fn empty<R: Wait>(
        self,
        rt: &R,
        registry: &Registry<D>,
        cpu: &mut Cpu<D>,
        counts: &mut Counts,
    )
        ensures { GoesOn counts.old counts.new }
    {
        let Baskets { mut places } = self;
        while let Some(place) = places.pop() {
            empty_place(rt, registry, cpu, counts, place);
        }
        places.destroy_empty();
    }
}

fn empty_place<D: Domain, R: Wait>(
    rt: &R,
    registry: &Registry<D>,
    cpu: &mut Cpu<D>,
    counts: &mut Counts,
    place: Basket<D>,
)
    ensures { GoesOn counts.old counts.new }
{
    if let Some(Laid { by: _by, reference }) = place.into_inner() {
        give_back(rt, registry, cpu, counts, reference);
    }
}

/// Releases a local reference on this CPU, and counts it.
pub fn give_back<D: Domain, R: Wait>(
    rt: &R,
    registry: &Registry<D>,
    cpu: &mut Cpu<D>,
    counts: &mut Counts,
    reference: LocalRef<D>,
)
    ensures { GoesOn counts.old counts.new }
{
    registry.release_local(rt, cpu, reference);
    counts.add_reference();
}
