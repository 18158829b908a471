//! The calls of a storm, each with the judgement of its answer. A contract here says that exactly this answer was judged: none is passed
//! over, and none is judged instead.

ghost use Rattle.std.specs.Prelude.{◌≡◌, IsSome, IsTrue, Some, None, Ok};
ghost use Rattle.passive_ref.specs.{why_unusable};
ghost use Rattle.registry_storm.specs.{driver_entry, driver_record, IsAttachOf, IsIfaceOf, IsJudged, IsTurnOf};

use crate::closing::{is_attach, is_destroyed, is_detached, is_turn};
use crate::plan::Plan;
use crate::sum::Counts;
use cpu_words::Domain;
use local_count::{LocalRef, acquire_local};
use name_registry::Registry;
use passive_list::{Cpu, enter, exit, find};
use passive_ref::{Psref, acquire, read, release};
use registry_values::{Entry, Kind, Name, Record, Refusal, Stage};
use std::sync::Wait;

/// What a lookup finds. Where the section was refused it isn't made, and finds nothing.
fn looked_up<D: Domain>(
    registry: &Registry<D>,
    cpu: &mut Cpu<D>,
    kind: Kind,
    name: &Name,
) -> Option<Entry> {
    if cpu.inside() {
        find(registry.words(), cpu, kind, name)
    } else {
        None
    }
}

/// Begins a section, and returns whether it is begun. Right: it is.
pub fn begin<D: Domain>(registry: &Registry<D>, cpu: &mut Cpu<D>, counts: &mut Counts) -> bool
    ensures judged { IsJudged (IsTrue result) counts.old counts.new }
{
    let begun = enter(registry.words(), cpu).is_ok();
    counts.judge(begun);
    begun
}

/// Ends the section, unless it was refused.
pub(crate) fn end<D: Domain>(registry: &Registry<D>, cpu: &mut Cpu<D>) {
    if cpu.inside() {
        exit(registry.words(), cpu);
    }
}

/// Looks the driver up. Right: it is found.
pub fn find_driver<D: Domain>(
    registry: &Registry<D>,
    plan: Plan,
    cpu: &mut Cpu<D>,
    counts: &mut Counts,
) -> Option<Entry>
    ensures judged { IsJudged (result ≡ Some (driver_entry plan.driver)) counts.old counts.new }
{
    let found = looked_up(registry, cpu, Kind::Driver, &plan.driver);
    counts.judge(plan.is_driver(found));
    found
}

/// Looks the interface up. Right: there is none, or that of some turn.
pub fn find_iface<D: Domain>(
    registry: &Registry<D>,
    plan: Plan,
    cpu: &mut Cpu<D>,
    counts: &mut Counts,
) -> Option<Entry>
    ensures judged { IsJudged (IsIfaceOf plan.turns result) counts.old counts.new }
{
    let found = looked_up(registry, cpu, Kind::Iface, &plan.iface);
    counts.judge(plan.is_iface(found));
    found
}

/// Acquires a passive reference to what was found last. Right: there is one.
pub fn acquire_passive<D: Domain>(
    registry: &Registry<D>,
    cpu: &mut Cpu<D>,
    counts: &mut Counts,
) -> Option<Psref>
    ensures judged { IsJudged (IsSome result) counts.old counts.new }
{
    let passive = acquire(registry.words(), cpu).ok();
    counts.judge(passive.is_some());
    passive
}

/// Acquires a local reference to what was found last. Right: there is one.
pub fn acquire_counted<D: Domain>(
    registry: &Registry<D>,
    cpu: &mut Cpu<D>,
    counts: &mut Counts,
) -> Option<LocalRef<D>>
    ensures judged { IsJudged (IsSome result) counts.old counts.new }
{
    let local = acquire_local(registry.words(), cpu).ok();
    counts.judge(local.is_some());
    local
}

/// Reads by a passive reference. Right: it is to the driver, whose record it gives.
pub fn read_passive<D: Domain>(
    registry: &Registry<D>,
    plan: Plan,
    cpu: &mut Cpu<D>,
    psref: &Psref,
    counts: &mut Counts,
) -> Result<Record, Refusal>
    ensures judged { IsJudged ((psref.now.number ≡ 1) × (result ≡ Ok (driver_record plan.driver))) counts.old counts.new }
{
    let answer = read(registry.words(), cpu, psref);
    counts.judge(plan.is_read(psref.number(), answer));
    answer
}

/// Reads by a local reference. Right: it is to the driver, whose record it gives.
pub fn read_local<D: Domain>(
    registry: &Registry<D>,
    plan: Plan,
    reference: &mut LocalRef<D>,
    counts: &mut Counts,
)
    ensures judged { IsJudged ((reference.old.entry.number ≡ 1) × (reference.old.entry.rec ≡ driver_record plan.driver)) counts.old counts.new }
{
    let rec = reference.record(registry.words());
    counts.judge(plan.is_record(reference.number(), rec));
}

/// Releases a passive reference; one that comes back is forgotten. Right: it is released.
pub fn release_passive<D: Domain>(
    registry: &Registry<D>,
    cpu: &mut Cpu<D>,
    psref: Psref,
    counts: &mut Counts,
)
    ensures judged { IsJudged (why_unusable cpu.old.view psref ≡ None) counts.old counts.new }
{
    match release(registry.words(), cpu, psref) {
        Ok(()) => counts.judge(true),
        Err((_, back)) => {
            back.forget();
            counts.judge(false);
        }
    }
}

/// Attaches the driver, with this value. Right: it is the driver that workers expect.
pub fn attach_driver<D: Domain, R: Wait>(
    rt: &R,
    registry: &Registry<D>,
    plan: Plan,
    value: u64,
    cpu: &mut Cpu<D>,
    counts: &mut Counts,
) -> Option<Entry>
    ensures judged { IsJudged (result ≡ Some (driver_entry plan.driver)) counts.old counts.new }
{
    let driver = Record {
        value,
        ..plan.driver()
    };
    let attached = registry.attach(rt, cpu, driver).ok();
    counts.judge(plan.is_driver(attached));
    attached
}

/// Attaches the interface of a turn on the driver that the reference is to; a reference that comes back is released. Right: it is attached,
/// or no slot is vacant.
pub fn attach_iface<D: Domain, R: Wait>(
    rt: &R,
    registry: &Registry<D>,
    plan: Plan,
    cpu: &mut Cpu<D>,
    turn: u32,
    reference: LocalRef<D>,
    counts: &mut Counts,
) -> Result<Entry, Refusal>
    ensures judged { IsJudged (IsAttachOf result) counts.old counts.new }
{
    let answer = match registry.attach_iface(rt, cpu, plan.iface(turn), reference) {
        Ok(entry) => Ok(entry),
        Err((refusal, back)) => {
            registry.release_local(rt, cpu, back);
            Err(refusal)
        }
    };
    counts.judge(is_attach(answer));
    answer
}

/// Detaches what has this entry's kind and name. Right: it is this entry.
pub fn detach<D: Domain, R: Wait>(
    rt: &R,
    registry: &Registry<D>,
    cpu: &mut Cpu<D>,
    entry: Entry,
    counts: &mut Counts,
) -> Result<Entry, Refusal>
    ensures judged { IsJudged (result ≡ Ok entry) counts.old counts.new }
{
    let answer = registry.detach(rt, cpu, entry.rec.kind, &entry.rec.name);
    counts.judge(is_detached(answer, entry));
    answer
}

/// One turn of the work on the interface that was retired in the slot. Right: it waits for a section, or that slot is free.
pub fn advance<D: Domain, R: Wait>(
    rt: &R,
    registry: &Registry<D>,
    number: u64,
    slot: u8,
    counts: &mut Counts,
) -> Result<Stage, Refusal>
    ensures judged { IsJudged (IsTurnOf slot result) counts.old counts.new }
{
    let answer = registry.advance(rt, number);
    counts.judge(is_turn(answer, slot));
    answer
}

/// Destroys in one turn the entry that was retired in the slot. Right: that slot is free.
pub fn destroy<D: Domain, R: Wait>(
    rt: &R,
    registry: &Registry<D>,
    cpu: &mut Cpu<D>,
    number: u64,
    slot: u8,
    counts: &mut Counts,
) -> Result<u8, Refusal>
    ensures judged { IsJudged (result ≡ Ok slot) counts.old counts.new }
{
    let answer = registry.destroy(rt, cpu, number, 1);
    counts.judge(is_destroyed(answer, slot));
    answer
}
