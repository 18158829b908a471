//! Out of memory: a refused call has changed nothing, and repeated it does what it would have done at first.
//!
//! With ample memory these tests compare answers only. `tools/refuse-memory.sh` refuses each of their allocations in turn; each refusal
//! that is met is noted on standard error.

use super::bench::{Ask, Line, Rec, Told, run};
use super::data::{ENTER, EXIT, USUAL, VGA, WM0, WM0_IFACE};
use super::give::give;
use passive_core::{
    BIAS, Core, Counted, Event, Kind, Name, RecordOf, Refusal, Reply, Settings, run_events,
};
use std::process::Abort;
use std::test::Fail;

const TTY: Rec = Rec {
    kind: Kind::Driver,
    text: b"tty",
    value: 9,
};

const DISK: Rec = Rec {
    kind: Kind::Driver,
    text: b"disk",
    value: 10,
};

const FOUR_SLOTS: Settings = Settings { slots: 4, ..USUAL };

/// Of four slots 0 and 2 have live drivers, 1 has a retired one, and 3 is vacant. The history is as long as its memory.
const STOCK: [Line; 4] = [
    (0, Ask::Attach(WM0), Ok(Told::Entry(1, 0, 1500))),
    (0, Ask::Attach(VGA), Ok(Told::Entry(2, 1, 8))),
    (1, Ask::Detach(VGA), Ok(Told::Entry(2, 1, 8))),
    (0, Ask::Attach(TTY), Ok(Told::Entry(4, 2, 9))),
];

/// CPU 0 finds the driver wm0 in its section, as entry 1 in slot 0.
const FIND: Line = (0, Ask::Find(WM0), Ok(Told::Entry(1, 0, 1500)));

const COUNT: Line = (0, Ask::Count, Ok(Told::Ref(0)));

fn note(rt: &impl Eprint, what: &str) -> Result<(), Fail> {
    eprintln!(rt; "refused memory: {what}")?;
    Ok(())
}

/// Asks these lines, up to the first that is refused.
fn give_all(rt: &impl Abort, core: &mut Core, lines: &[Line]) -> Result<(), Refusal> {
    for (k, (c, ask, wanted)) in lines.iter().enumerate() {
        let answer = give(rt, core, *c, *ask);
        if answer == Err(Refusal::NoMemory) {
            return Err(Refusal::NoMemory);
        }
        assert!(rt; answer == *wanted, "line {k}");
    }
    Ok(())
}

fn stocked(rt: &(impl Abort + AllocGlobal), more: &[Line]) -> Result<Core, Refusal> {
    let mut core = Core::new(rt.alloc(), FOUR_SLOTS)?;
    stock(rt, &mut core, more)?;
    Ok(core)
}

fn stock(rt: &impl Abort, core: &mut Core, more: &[Line]) -> Result<(), Refusal> {
    give_all(rt, core, &STOCK)?;
    assert!(rt; core.is_full(), "the next change grows the history");
    give_all(rt, core, more)
}

/// The core after these lines; where memory is refused, it is made once more.
fn prepared(rt: &(impl Abort + AllocGlobal + Eprint), more: &[Line]) -> Result<Core, Fail> {
    if let Ok(core) = stocked(rt, more) {
        return Ok(core);
    }
    note(rt, "setup")?;
    Ok(stocked(rt, more)?)
}

/// The core is as these lines leave it, and answers CPU 1 so.
fn stands(rt: &(impl Abort + AllocGlobal), core: &mut Core, more: &[Line]) -> Result<(), Fail> {
    let mut twin = stocked(rt, more)?;
    assert!(rt; core.is_same(&twin), "the refusal has changed nothing");
    let audit = give(rt, &mut twin, 1, Ask::Audit);
    let lines = [
        (1, Ask::Audit, audit),
        (1, Ask::Attach(WM0), Err(Refusal::NameTaken)),
        (1, Ask::Enter, Ok(Told::Depth(1))),
        (1, Ask::Find(WM0), Ok(Told::Entry(1, 0, 1500))),
        (1, Ask::Exit, Ok(Told::Depth(0))),
        (1, Ask::Audit, audit),
    ];
    run(rt, core, "after the refusal", &lines);
    Ok(())
}

/// The answer to the last line of a row, which may be refused memory once; a row's settings are those of the stock.
fn survives(
    rt: &(impl Abort + AllocGlobal + Eprint),
    name: &str,
    more: &[Line],
    line: Line,
) -> Result<(), Fail> {
    let mut core = prepared(rt, more)?;
    answers(rt, &mut core, name, more, line)
}

/// The core, which these lines have prepared, answers the line; again, if it was refused memory.
fn answers(
    rt: &(impl Abort + AllocGlobal + Eprint),
    core: &mut Core,
    name: &str,
    more: &[Line],
    line: Line,
) -> Result<(), Fail> {
    let (c, ask, wanted) = line;
    let mut answer = give(rt, core, c, ask);
    if answer == Err(Refusal::NoMemory) {
        note(rt, name)?;
        stands(rt, core, more)?;
        answer = give(rt, core, c, ask);
    }
    assert!(rt; answer == wanted, "{name}");
    Ok(())
}

/// A new core with the usual settings, where memory may be refused once.
fn new_core(rt: &(impl Abort + AllocGlobal + Eprint), name: &str) -> Result<Core, Fail> {
    match Core::new(rt.alloc(), USUAL) {
        Err(Refusal::NoMemory) => {
            note(rt, name)?;
            Ok(Core::new(rt.alloc(), USUAL)?)
        }
        answer => Ok(answer?),
    }
}

#[test]
fn new(rt: HostRuntime) -> Result<(), Fail> {
    let mut core = new_core(&rt, "Core::new")?;
    attached_and_found(&rt, &mut core)
}

fn attached_and_found(rt: &(impl Abort + Eprint), core: &mut Core) -> Result<(), Fail> {
    let (c, ask, wanted) = STOCK[0];
    let mut answer = give(rt, core, c, ask);
    if answer == Err(Refusal::NoMemory) {
        note(rt, "the first attach")?;
        answer = give(rt, core, c, ask);
    }
    assert!(rt; answer == wanted, "the first attach");
    run(rt, core, "new", &[ENTER, FIND]);
    Ok(())
}

/// The keeper's stores for slot 3: the driver disk, which is to be linked before slot 2.
const STORES: &[Line] = &[
    (0, Ask::Step(Event::StoreSlot(3, 0, 5)), Ok(Told::Done)),
    (0, Ask::Step(Event::StoreSlot(3, 1, 2)), Ok(Told::Done)),
    (
        0,
        Ask::Step(Event::StoreSlot(3, 2, 0x6469_736b_0000_0000)),
        Ok(Told::Done),
    ),
    (0, Ask::Step(Event::StoreSlot(3, 3, 0)), Ok(Told::Done)),
    (0, Ask::Step(Event::StoreSlot(3, 4, 10)), Ok(Told::Done)),
    (0, Ask::Step(Event::StoreSlot(3, 5, BIAS)), Ok(Told::Done)),
    (0, Ask::Step(Event::StoreSlot(3, 6, BIAS)), Ok(Told::Done)),
    (0, Ask::Step(Event::StoreNext(3, 3)), Ok(Told::Done)),
];

/// The stores for a driver that is to take the place of slot 0's.
const STORES_FOR_WM0: &[Line] = &[
    (0, Ask::Step(Event::StoreSlot(3, 0, 5)), Ok(Told::Done)),
    (0, Ask::Step(Event::StoreSlot(3, 1, 2)), Ok(Told::Done)),
    (
        0,
        Ask::Step(Event::StoreSlot(3, 2, 0x776d_3000_0000_0000)),
        Ok(Told::Done),
    ),
    (0, Ask::Step(Event::StoreSlot(3, 5, BIAS)), Ok(Told::Done)),
    (0, Ask::Step(Event::StoreSlot(3, 6, BIAS)), Ok(Told::Done)),
];

/// Calls that grow something: a name, the lines after those of the stock, and the line that may be refused memory.
const GROWING: &[(&str, &[Line], Line)] = &[
    (
        "step_publish",
        STORES,
        (0, Ask::Step(Event::Publish(3)), Ok(Told::Done)),
    ),
    (
        "step_unpublish",
        &[],
        (0, Ask::Step(Event::Unpublish(0)), Ok(Told::Done)),
    ),
    (
        "step_republish",
        STORES_FOR_WM0,
        (0, Ask::Step(Event::Republish(3, 0)), Ok(Told::Done)),
    ),
    (
        "step_split_ref",
        &[
            ENTER,
            FIND,
            (0, Ask::Step(Event::CountAdd(0)), Ok(Told::Word(BIAS))),
        ],
        (0, Ask::Step(Event::SplitRef(0)), Ok(Told::Ref(0))),
    ),
    (
        "attach",
        &[],
        (0, Ask::Attach(DISK), Ok(Told::Entry(5, 3, 10))),
    ),
    (
        "attach_iface",
        &[ENTER, FIND, COUNT, EXIT],
        (0, Ask::Plug(WM0_IFACE, 0), Ok(Told::Entry(5, 3, 1500))),
    ),
    (
        "detach",
        &[],
        (0, Ask::Detach(WM0), Ok(Told::Entry(1, 0, 1500))),
    ),
    ("acquire_local", &[ENTER, FIND], COUNT),
    (
        "audit",
        &[ENTER, FIND, COUNT, EXIT],
        (0, Ask::Audit, Ok(Told::Audit(3, 1))),
    ),
];

#[test]
fn growths(rt: HostRuntime) -> Result<(), Fail> {
    for (name, more, line) in GROWING {
        survives(&rt, name, more, *line)?;
    }
    Ok(())
}

/// The driver wm is attached in slot 0, found, counted and detached; the first vacate isn't allowed.
fn events() -> Result<[Event; 26], Fail> {
    let name = Name::parse(b"wm")?;
    let (high, low) = name.words();
    let load = Event::LoadRecord(RecordOf::Search(0));
    Ok([
        Event::Seat(0),
        Event::Seat(1),
        Event::Vacate(0),
        Event::StoreSlot(0, 0, 1),
        Event::StoreSlot(0, 1, 2),
        Event::StoreSlot(0, 2, high),
        Event::StoreSlot(0, 3, low),
        Event::StoreSlot(0, 4, 7),
        Event::StoreSlot(0, 5, BIAS),
        Event::StoreSlot(0, 6, BIAS),
        Event::StoreNext(0, 0),
        Event::Publish(0),
        Event::Enter(0),
        Event::Seek(0, Kind::Driver, name),
        Event::LoadLink(0),
        load,
        load,
        load,
        load,
        load,
        Event::CountAdd(0),
        Event::SplitRef(0),
        Event::Exit(0),
        Event::Unpublish(0),
        Event::Snapshot(Some(0), 0),
        Event::Snapshot(Some(0), 1),
    ])
}

/// All events are made, where memory is refused once too.
fn finished(
    rt: &(impl Abort + AllocGlobal + Eprint),
    core: &mut Core,
    events: &[Event],
) -> Result<Counted, Fail> {
    let done = match run_events(core, events) {
        Ok(counted) => return Ok(counted),
        Err(short) => short.done,
    };
    eprintln!(rt; "refused memory: event {done} of run_events")?;
    assert!(rt; done < events.len(), "an event of the list");
    assert!(rt;
        matches!(events[done], Event::Publish(_) | Event::SplitRef(_)),
        "an event that grows a list"
    );
    let before = made_as_well(rt, core, &events[..done])?;
    let after = run_events(core, &events[done..])?;
    Ok(Counted {
        taken: before.taken.saturating_add(after.taken),
        refused: before.refused.saturating_add(after.refused),
        last: after.last,
    })
}

/// What these events come to. They lead a new core where this one is.
fn made_as_well(
    rt: &(impl Abort + AllocGlobal),
    core: &Core,
    events: &[Event],
) -> Result<Counted, Fail> {
    let mut twin = Core::new(rt.alloc(), USUAL)?;
    led(rt, core, &mut twin, events)
}

/// What these events come to on the twin, which they lead where the core is.
fn led(rt: &impl Abort, core: &Core, twin: &mut Core, events: &[Event]) -> Result<Counted, Fail> {
    let counted = run_events(twin, events)?;
    assert!(rt; core.is_same(twin), "the events before it are made");
    Ok(counted)
}

#[test]
fn list_of_events(rt: HostRuntime) -> Result<(), Fail> {
    let mut core = new_core(&rt, "setup")?;
    let counted = finished(&rt, &mut core, &events()?)?;
    let expected = Counted {
        taken: 25,
        refused: 1,
        last: Some(Reply::Word(0)),
    };
    assert!(rt; counted == expected, "one event isn't allowed");
    Ok(())
}
