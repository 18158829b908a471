//! Worked rows of the three events of a passive reference without a section: `Try`, `Confirm` and `TakeBack`. No command makes them.

use super::bench::{Ask, Line, Row, Told, core_after, run_rows, same_after};
use super::data::{A, ATTACH_WM, ENTER, EXIT, USUAL, VGA, WM};
use super::recall_rows::{DETACH_WM, FREED, RECALL, SHOW};
use passive_core::{Counted, Event, Refusal, Reply, Settings, Stage, run_events};
use std::process::Abort;
use std::test::Fail;

/// CPU 0 counts its word of slot 0 up, to get a reference to entry 1; that is a reference now; it is counted down again.
const TRY: Ask = Ask::Step(Event::Try(0, 0, 1));

const CONFIRM: Ask = Ask::Step(Event::Confirm(0));

const TAKE_BACK: Ask = Ask::Step(Event::TakeBack(0));

/// CPU 0 is in the way of the destruction of wm.
const IN_THE_WAY: Line = (1, Ask::Advance(1), Ok(Told::Stage(Stage::Passive(0))));

const ROWS: [Row; 8] = [
    // Between the two events the CPU makes no other step that needs an idle CPU. What it confirms is a reference as any other.
    Row {
        name: "tried and confirmed",
        settings: USUAL,
        lines: &[
            ATTACH_WM,
            (0, TRY, Ok(Told::Word(0))),
            (0, TRY, Ok(Told::NotAllowed)),
            (0, Ask::Step(Event::PassiveAdd(0, 1)), Ok(Told::NotAllowed)),
            (0, Ask::Step(Event::PassiveSub(0, 1)), Ok(Told::NotAllowed)),
            (0, Ask::Step(Event::Enter(0)), Ok(Told::NotAllowed)),
            (0, Ask::Step(Event::Hear(Some(0))), Ok(Told::NotAllowed)),
            (0, CONFIRM, Ok(Told::Word(0))),
            (0, CONFIRM, Ok(Told::NotAllowed)),
            (0, TAKE_BACK, Ok(Told::NotAllowed)),
            (0, Ask::Held(A), Ok(Told::Is(true))),
            (0, Ask::Read(A), Ok(Told::Record(7))),
            (0, Ask::Copy(A), Ok(Told::Psref(A))),
            SHOW,
            (0, TRY, Ok(Told::Word(2))),
            (0, CONFIRM, Ok(Told::Word(1))),
            (0, Ask::Release(A), Ok(Told::Done)),
            (0, Ask::Release(A), Ok(Told::Done)),
            (0, Ask::Release(A), Ok(Told::Done)),
            (0, Ask::Release(A), Err(Refusal::NotHeld)),
        ],
    },
    // What is taken back was no reference. A load of a live word that isn't the number tried is a Recall.
    Row {
        name: "tried and taken back",
        settings: USUAL,
        lines: &[
            ATTACH_WM,
            (0, TRY, Ok(Told::Word(0))),
            (0, RECALL, Ok(Told::Word(0))),
            (0, TAKE_BACK, Ok(Told::Word(1))),
            (0, TAKE_BACK, Ok(Told::NotAllowed)),
            (0, Ask::Held(A), Ok(Told::Is(false))),
            (0, Ask::Read(A), Err(Refusal::NotHeld)),
            (0, Ask::Copy(A), Err(Refusal::NotHeld)),
            (0, Ask::Release(A), Err(Refusal::NotHeld)),
            (1, Ask::Perform(1), Ok(Told::Done)),
            DETACH_WM,
            FREED,
        ],
    },
    // What is detached isn't confirmed. The CPU is in the way until it takes its addition back.
    Row {
        name: "detached between",
        settings: USUAL,
        lines: &[
            ATTACH_WM,
            (0, TRY, Ok(Told::Word(0))),
            DETACH_WM,
            (0, CONFIRM, Ok(Told::NotAllowed)),
            (0, RECALL, Ok(Told::Word(0))),
            IN_THE_WAY,
            (
                1,
                Ask::Destroy(1, 2),
                Err(Refusal::StillHeld(Stage::Passive(0))),
            ),
            (1, Ask::Perform(1), Ok(Told::Done)),
            (0, TAKE_BACK, Ok(Told::Word(1))),
            FREED,
        ],
    },
    // A CPU that is clear gets no reference, and isn't in the way, though its word is 1. It is in the way of the next occupant.
    Row {
        name: "tried when clear",
        settings: USUAL,
        lines: &[
            ATTACH_WM,
            DETACH_WM,
            (0, Ask::Step(Event::Look(Some(0), 0)), Ok(Told::Word(0))),
            (0, Ask::Step(Event::Look(Some(0), 1)), Ok(Told::Word(0))),
            (0, Ask::Step(Event::PassiveLook(0, 0)), Ok(Told::Word(0))),
            (0, TRY, Ok(Told::Word(0))),
            (0, CONFIRM, Ok(Told::NotAllowed)),
            (0, Ask::Step(Event::PassiveLook(0, 0)), Ok(Told::Word(1))),
            FREED,
            (0, CONFIRM, Ok(Told::NotAllowed)),
            (1, Ask::Attach(VGA), Ok(Told::Entry(3, 0, 8))),
            (0, CONFIRM, Ok(Told::NotAllowed)),
            (1, Ask::Detach(VGA), Ok(Told::Entry(3, 0, 8))),
            (1, Ask::Advance(3), Ok(Told::Stage(Stage::Passive(0)))),
            (0, TAKE_BACK, Ok(Told::Word(1))),
            (1, Ask::Advance(3), Ok(Told::Stage(Stage::Freed(0)))),
        ],
    },
    // A CPU may try any slot, and any number whose attach it has seen; it confirms only what the slot has.
    Row {
        name: "not what the slot has",
        settings: USUAL,
        lines: &[
            (0, TRY, Ok(Told::NotAllowed)),
            ATTACH_WM,
            (0, Ask::Step(Event::Try(0, 2, 1)), Ok(Told::NotAllowed)),
            (0, Ask::Step(Event::Try(2, 0, 1)), Ok(Told::NotAllowed)),
            (0, Ask::Step(Event::Confirm(2)), Ok(Told::NotAllowed)),
            (0, Ask::Step(Event::TakeBack(2)), Ok(Told::NotAllowed)),
            (0, Ask::Step(Event::Try(0, 1, 1)), Ok(Told::Word(0))),
            (0, CONFIRM, Ok(Told::NotAllowed)),
            (0, TAKE_BACK, Ok(Told::Word(1))),
            (0, Ask::Step(Event::Try(0, 0, 2)), Ok(Told::NotAllowed)),
            (0, Ask::Step(Event::Try(0, 0, 0)), Ok(Told::Word(0))),
            (0, CONFIRM, Ok(Told::NotAllowed)),
            (0, TAKE_BACK, Ok(Told::Word(1))),
            (0, TRY, Ok(Told::Word(0))),
            (0, CONFIRM, Ok(Told::Word(0))),
        ],
    },
    // Inside a section it is allowed, but not while the CPU searches.
    Row {
        name: "inside a section",
        settings: USUAL,
        lines: &[
            ATTACH_WM,
            ENTER,
            (0, TRY, Ok(Told::Word(0))),
            (0, CONFIRM, Ok(Told::Word(0))),
            (0, Ask::Seek(WM), Ok(Told::Done)),
            (0, TRY, Ok(Told::NotAllowed)),
        ],
    },
    // Each CPU has its own word. What one is trying stops no other. CPU 1 tries wm once it has heard of it.
    Row {
        name: "two CPUs",
        settings: USUAL,
        lines: &[
            ATTACH_WM,
            (0, TRY, Ok(Told::Word(0))),
            (1, Ask::Step(Event::Try(1, 0, 1)), Ok(Told::NotAllowed)),
            (1, Ask::Step(Event::Hear(Some(1))), Ok(Told::Done)),
            (1, Ask::Step(Event::Try(1, 0, 1)), Ok(Told::Word(0))),
            (1, Ask::Step(Event::Confirm(1)), Ok(Told::Word(0))),
            (0, CONFIRM, Ok(Told::Word(0))),
            ENTER,
            EXIT,
            DETACH_WM,
            IN_THE_WAY,
            (0, Ask::Release(A), Ok(Told::Done)),
            (1, Ask::Advance(1), Ok(Told::Stage(Stage::Passive(1)))),
        ],
    },
    // No more than the settings allow.
    Row {
        name: "the limit of a word",
        settings: Settings {
            passive_limit: 1,
            ..USUAL
        },
        lines: &[
            ATTACH_WM,
            (0, TRY, Ok(Told::Word(0))),
            (0, CONFIRM, Ok(Told::Word(0))),
            (0, TRY, Ok(Told::NotAllowed)),
            (0, Ask::Release(A), Ok(Told::Done)),
            (0, TRY, Ok(Told::Word(0))),
        ],
    },
];

#[test]
fn rows_of_tries(rt: HostRuntime) -> Result<(), Fail> {
    run_rows(&rt, &ROWS)
}

/// A list of events has them as any other, and those of the live words.
#[test]
fn list_of_tries(rt: HostRuntime) -> Result<(), Fail> {
    let mut core = core_after(&rt, &[])?;
    let events = [
        Event::Show(0),
        Event::Try(0, 0, 0),
        Event::Confirm(0),
        Event::Recall(0, 0),
        Event::TakeBack(0),
        Event::Hide(0),
        Event::Try(0, 0, 1),
        Event::Show(0),
        Event::Confirm(0),
    ];
    let expected = Counted {
        taken: 8,
        refused: 1,
        last: Some(Reply::Word(1)),
    };
    assert!(rt;
        run_events(&mut core, &events)? == expected,
        "one isn't allowed"
    );
    Ok(())
}

const TRIED: Event = Event::Try(0, 0, 1);

const CONFIRMED: Event = Event::Confirm(0);

/// Whether CPU 0 holds a reference to wm after these events.
fn holds_after(rt: &(impl Abort + AllocGlobal), events: &[Event]) -> Result<bool, Fail> {
    let core = core_after(rt, events)?;
    assert!(rt; 0 < core.settings().cpus, "a CPU of the core");
    Ok(core.held(0, A))
}

/// What is tried is held from its Confirm on. Taken back, or released, it leaves the core as it was.
#[test]
fn held_once_confirmed(rt: HostRuntime) -> Result<(), Fail> {
    assert!(rt; !holds_after(&rt, &[])?, "nothing was tried");
    assert!(rt; !holds_after(&rt, &[TRIED])?, "nothing is confirmed");
    assert!(rt; holds_after(&rt, &[TRIED, CONFIRMED])?, "it is confirmed");
    assert!(rt;
        !holds_after(&rt, &[TRIED, Event::TakeBack(0)])?,
        "it is taken back"
    );
    assert!(rt;
        holds_after(&rt, &[TRIED, CONFIRMED, TRIED])?,
        "the first is confirmed"
    );
    assert!(rt;
        same_after(&rt, &[TRIED, Event::TakeBack(0)], &[])?,
        "taken back"
    );
    let released = [TRIED, CONFIRMED, Event::PassiveSub(0, 1)];
    assert!(rt; same_after(&rt, &released, &[])?, "released");
    Ok(())
}
