//! What a core answers to one line of a row.

ghost use Rattle.std.specs.Prelude.{◌≡◌, ◌<◌, true};
ghost use Rattle.passive_core.specs.Common.{may_act};
ghost use Rattle.protocol.specs.Common.{at_rest};

use super::bench::{Answer, Ask, Told, record};
use passive_core::{Core, Entry, Event, Kind, Record, Refusal, Reply, StepFault};
use std::process::Abort;

/// Asks one thing; the conditions of a command are tested before it is given.
pub(super) fn give(rt: &impl Abort, core: &mut Core, c: u8, ask: Ask) -> Answer {
    match ask {
        Ask::Step(event) => step(core, event),
        Ask::Seek(rec) => step(core, Event::Seek(c, rec.kind, record(rt, rec).name)),
        _ => {
            assert!(rt; c < core.settings().cpus, "a CPU of the core");
            assert!(rt; core.at_rest() && core.idle(c), "CPU {c} may act");
            give_naming(rt, core, c, ask)
        }
    }
}

/// Makes one event, if it is allowed.
fn step(core: &mut Core, event: Event) -> Answer {
    match core.step(event) {
        Err(StepFault::NotAllowed) => Ok(Told::NotAllowed),
        Err(StepFault::NoMemory) => Err(Refusal::NoMemory),
        Ok(Reply::Done) => Ok(Told::Done),
        Ok(Reply::Word(word)) => Ok(Told::Word(word)),
        Ok(Reply::Found(entry)) => Ok(entry_told(entry)),
        Ok(Reply::Missed) => Ok(Told::Missed),
        Ok(Reply::Ref(id)) => Ok(Told::Ref(id)),
        Ok(Reply::Collected) => Ok(Told::Collected),
    }
}

/// A command that names an entry, or a mark.
fn give_naming(rt: &impl Abort, core: &mut Core, c: u8, ask: Ask) -> Answer
    requires known { c < core.old.settings.cpus }
    requires rest { at_rest core.old.due ≡ true }
    requires ready { may_act core.old c ≡ true }
{
    match ask {
        Ask::Attach(rec) => core.attach(c, record(rt, rec)).map(entry_told),
        Ask::Plug(rec, id) => {
            assert!(rt; core.live(id), "reference {id}");
            let rec = Record {
                kind: Kind::Iface,
                ..record(rt, rec)
            };
            core.attach_iface(c, rec, id).map(entry_told)
        }
        Ask::Detach(rec) => core
            .detach(c, rec.kind, &record(rt, rec).name)
            .map(entry_told),
        Ask::Find(rec) => {
            assert!(rt; core.inside(c), "CPU {c} is inside a section");
            let found = core.find(c, rec.kind, &record(rt, rec).name);
            Ok(found.map_or(Told::Missed, entry_told))
        }
        Ask::Mark(t) => {
            assert!(rt; t < core.settings().slots, "a slot of the core");
            Ok(Told::Mark(core.mark_at(t, c)))
        }
        _ => give_passive(rt, core, c, ask),
    }
}

/// A command on a section or on passive references.
fn give_passive(rt: &impl Abort, core: &mut Core, c: u8, ask: Ask) -> Answer
    requires known { c < core.old.settings.cpus }
    requires rest { at_rest core.old.due ≡ true }
    requires ready { may_act core.old c ≡ true }
{
    match ask {
        Ask::Enter => {
            core.enter(c)?;
            Ok(Told::Depth(core.depth(c)))
        }
        Ask::Exit => {
            assert!(rt; core.inside(c), "CPU {c} is inside a section");
            core.exit(c);
            Ok(Told::Depth(core.depth(c)))
        }
        Ask::Acquire => core.acquire(c).map(Told::Psref),
        Ask::Copy(psref) => core.copy(c, psref).map(Told::Psref),
        Ask::Held(psref) => Ok(Told::Is(core.held(c, psref))),
        Ask::Read(psref) => Ok(Told::Record(core.read(c, psref)?.value)),
        Ask::Release(psref) => {
            core.release(c, psref)?;
            Ok(Told::Done)
        }
        _ => give_counting(rt, core, c, ask),
    }
}

/// A command on local references, or of the keeper.
fn give_counting(rt: &impl Abort, core: &mut Core, c: u8, ask: Ask) -> Answer
    requires known { c < core.old.settings.cpus }
    requires rest { at_rest core.old.due ≡ true }
    requires ready { may_act core.old c ≡ true }
{
    match ask {
        Ask::Count => core.acquire_local(c).map(Told::Ref),
        Ask::Advance(number) => core.advance(number).map(Told::Stage),
        Ask::Destroy(number, turns) => {
            assert!(rt; turns >= 1, "turns of entry {number}");
            core.destroy(c, number, turns).map(Told::Slot)
        }
        Ask::Perform(turns) => {
            assert!(rt; turns >= 1, "turns of CPU {c}");
            core.perform(c, turns)?;
            Ok(Told::Done)
        }
        _ => audited(core),
    }
}

fn audited(core: &mut Core) -> Answer
    requires { at_rest core.old.due ≡ true }
{
    let list = core.audit()?;
    let held = list.first().map_or(0, |first| first.held);
    Ok(Told::Audit(list.len(), held))
}

fn entry_told(entry: Entry) -> Told {
    Told::Entry(entry.number, entry.slot, entry.rec.value)
}
