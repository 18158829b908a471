//! Worked rows, event by event: a search over a frozen link, marks that come in their order, and a collection that overtakes a release.

use super::bench::{Ask, Line, Row, Told, run, run_rows};
use super::data::{ATTACH_WM, ENTER, EXIT, FIND_WM, FIRST, SECOND, THIRD, USUAL, WM};
use passive_core::{
    BIAS, Core, Counted, Event, Mark, RecordOf, Refusal, Reply, Settings, Stage, run_events,
};
use std::test::Fail;

/// CPU 0's loads, by its search.
const LINK: Ask = Ask::Step(Event::LoadLink(0));

const WORD: Ask = Ask::Step(Event::LoadRecord(RecordOf::Search(0)));

const VALUE: Ask = Ask::Step(Event::LoadRecord(RecordOf::Compared(0)));

/// The mark of a CPU that was inside its first section as the entry was retired; nothing was seen of it since.
const INSIDE: Mark = Mark {
    snapshot: Some(1),
    passed: false,
    clear: false,
    collected: false,
};

/// Of one that had begun none.
const OUTSIDE: Mark = Mark {
    snapshot: Some(0),
    ..INSIDE
};

const ROWS: [Row; 6] = [
    // A search at an entry that is unlinked goes on over its link.
    Row {
        name: "frozen-link",
        settings: Settings { slots: 3, ..USUAL },
        lines: &[
            (0, Ask::Step(Event::Seat(0)), Ok(Told::Done)),
            (0, Ask::Step(Event::Seat(1)), Ok(Told::Done)),
            (1, Ask::Attach(FIRST), Ok(Told::Entry(1, 0, 10))),
            (1, Ask::Attach(SECOND), Ok(Told::Entry(2, 1, 11))),
            (1, Ask::Attach(THIRD), Ok(Told::Entry(3, 2, 12))),
            (0, Ask::Step(Event::Enter(0)), Ok(Told::Done)),
            (0, Ask::Seek(FIRST), Ok(Told::Done)),
            (0, LINK, Ok(Told::Word(3))),
            (0, WORD, Ok(Told::Word(3))),
            (0, WORD, Ok(Told::Word(2))),
            (0, WORD, Ok(Told::Word(0x776d_3200_0000_0000))),
            (0, WORD, Ok(Told::Word(0))),
            (0, LINK, Ok(Told::Word(2))),
            (0, WORD, Ok(Told::Word(2))),
            (0, WORD, Ok(Told::Word(2))),
            (1, Ask::Detach(SECOND), Ok(Told::Entry(2, 1, 11))),
            (1, Ask::Detach(FIRST), Ok(Told::Entry(1, 0, 10))),
            (1, Ask::Advance(2), Ok(Told::Stage(Stage::Grace(0)))),
            (1, Ask::Advance(1), Ok(Told::Stage(Stage::Grace(0)))),
            (0, WORD, Ok(Told::Word(0x776d_3100_0000_0000))),
            (0, WORD, Ok(Told::Word(0))),
            (0, LINK, Ok(Told::Word(1))),
            (0, WORD, Ok(Told::Word(1))),
            (0, WORD, Ok(Told::Word(2))),
            (0, WORD, Ok(Told::Word(0x776d_3000_0000_0000))),
            (0, WORD, Ok(Told::Word(0))),
            (0, WORD, Ok(Told::Entry(1, 0, 10))),
            (0, Ask::Step(Event::Exit(0)), Ok(Told::Done)),
            (1, Ask::Advance(2), Ok(Told::Stage(Stage::Freed(1)))),
            (1, Ask::Advance(1), Ok(Told::Stage(Stage::Freed(0)))),
        ],
    },
    // The value of an entry that isn't the one sought is loaded as the search is about to leave it, and nowhere else. The search stays there.
    Row {
        name: "a value gone by",
        settings: Settings { slots: 3, ..USUAL },
        lines: &[
            (0, Ask::Step(Event::Seat(0)), Ok(Told::Done)),
            (0, Ask::Step(Event::Seat(1)), Ok(Told::Done)),
            (1, Ask::Attach(FIRST), Ok(Told::Entry(1, 0, 10))),
            (1, Ask::Attach(SECOND), Ok(Told::Entry(2, 1, 11))),
            (0, Ask::Step(Event::Enter(0)), Ok(Told::Done)),
            (0, VALUE, Ok(Told::NotAllowed)),
            (0, Ask::Seek(FIRST), Ok(Told::Done)),
            (0, VALUE, Ok(Told::NotAllowed)),
            (0, LINK, Ok(Told::Word(2))),
            (0, VALUE, Ok(Told::NotAllowed)),
            (0, WORD, Ok(Told::Word(2))),
            (0, WORD, Ok(Told::Word(2))),
            (0, WORD, Ok(Told::Word(0x776d_3100_0000_0000))),
            (0, VALUE, Ok(Told::NotAllowed)),
            (0, WORD, Ok(Told::Word(0))),
            (0, VALUE, Ok(Told::Word(11))),
            (1, Ask::Detach(SECOND), Ok(Told::Entry(2, 1, 11))),
            (0, VALUE, Ok(Told::Word(11))),
            (0, LINK, Ok(Told::Word(1))),
            (0, WORD, Ok(Told::Word(1))),
            (0, WORD, Ok(Told::Word(2))),
            (0, WORD, Ok(Told::Word(0x776d_3000_0000_0000))),
            (0, WORD, Ok(Told::Word(0))),
            (0, VALUE, Ok(Told::NotAllowed)),
            (0, WORD, Ok(Told::Entry(1, 0, 10))),
        ],
    },
    // The snapshots are of the section words after the unlinking, and nothing is looked at before all have passed.
    Row {
        name: "order-of-marks",
        settings: USUAL,
        lines: &[
            ATTACH_WM,
            ENTER,
            FIND_WM,
            (1, Ask::Detach(WM), Ok(Told::Entry(1, 0, 7))),
            (0, Ask::Mark(0), Ok(Told::Mark(INSIDE))),
            (1, Ask::Mark(0), Ok(Told::Mark(OUTSIDE))),
            (0, Ask::Step(Event::PassiveLook(0, 0)), Ok(Told::NotAllowed)),
            (0, Ask::Step(Event::Collect(0, 0)), Ok(Told::NotAllowed)),
        ],
    },
    // What a perform sees counts for the entries that are retired.
    Row {
        name: "perform-and-destroy",
        settings: USUAL,
        lines: &[
            ATTACH_WM,
            (1, Ask::Enter, Ok(Told::Depth(1))),
            (0, Ask::Perform(3), Err(Refusal::Waiting(1))),
            (0, Ask::Detach(WM), Ok(Told::Entry(1, 0, 7))),
            (
                0,
                Ask::Destroy(1, 2),
                Err(Refusal::StillHeld(Stage::Grace(1))),
            ),
            (1, Ask::Exit, Ok(Told::Depth(0))),
            (0, Ask::Step(Event::PassiveLook(0, 0)), Ok(Told::NotAllowed)),
            (0, Ask::Perform(1), Ok(Told::Done)),
            (0, Ask::Step(Event::PassiveLook(0, 0)), Ok(Told::Word(0))),
            (0, Ask::Destroy(1, 1), Ok(Told::Slot(0))),
            (0, Ask::Destroy(1, 1), Err(Refusal::NotRetired)),
        ],
    },
    // A command seats the CPUs; an event of a CPU that has no seat isn't allowed.
    Row {
        name: "seats come with the first event",
        settings: USUAL,
        lines: &[
            (0, Ask::Advance(1), Err(Refusal::NotRetired)),
            (1, Ask::Destroy(1, 1), Err(Refusal::NotRetired)),
            (1, Ask::Step(Event::Enter(1)), Ok(Told::NotAllowed)),
            (1, Ask::Perform(1), Ok(Told::Done)),
            (1, Ask::Step(Event::Enter(1)), Ok(Told::Done)),
        ],
    },
    // The name "eth0.100" isn't lawful, and "eth0" is.
    Row {
        name: "only lawful names are published",
        settings: ONE,
        lines: &[
            (0, Ask::Step(Event::Seat(0)), Ok(Told::Done)),
            (0, Ask::Step(Event::StoreSlot(0, 0, 1)), Ok(Told::Done)),
            (0, Ask::Step(Event::StoreSlot(0, 1, 2)), Ok(Told::Done)),
            (
                0,
                Ask::Step(Event::StoreSlot(0, 2, 0x6574_6830_2e31_3030)),
                Ok(Told::Done),
            ),
            (0, Ask::Step(Event::StoreSlot(0, 5, BIAS)), Ok(Told::Done)),
            (0, Ask::Step(Event::Publish(0)), Ok(Told::NotAllowed)),
            (
                0,
                Ask::Step(Event::StoreSlot(0, 2, 0x6574_6830_0000_0000)),
                Ok(Told::Done),
            ),
            (0, Ask::Step(Event::Publish(0)), Ok(Told::Done)),
        ],
    },
];

#[test]
fn rows_of_events(rt: HostRuntime) -> Result<(), Fail> {
    run_rows(&rt, &ROWS)
}

/// The collection of the one count word comes between the joining of a reference and its release.
const RACE: [Event; 11] = [
    Event::Look(Some(0), 0),
    Event::PassiveLook(0, 0),
    Event::JoinRef(0, 0),
    Event::Collect(0, 0),
    Event::CountDown(0),
    Event::TotalAdd(0),
    Event::Vacate(0),
    Event::SplitBack(0),
    Event::JoinKeeper(0),
    Event::TotalSub(0),
    Event::Vacate(0),
];

/// What each event of the race is told.
const TOLD: [Told; 11] = [
    Told::Word(2),
    Told::Word(0),
    Told::Done,
    Told::Word(281_474_976_710_657),
    Told::Collected,
    Told::Done,
    Told::NotAllowed,
    Told::Ref(0),
    Told::Done,
    Told::Done,
    Told::Done,
];

/// One CPU and one slot.
const ONE: Settings = Settings {
    cpus: 1,
    slots: 1,
    ..USUAL
};

/// The CPU holds a local reference to the driver wm, which is retired.
const HELD: &[Line] = &[
    ATTACH_WM,
    ENTER,
    FIND_WM,
    (0, Ask::Count, Ok(Told::Ref(0))),
    EXIT,
    (0, Ask::Detach(WM), Ok(Told::Entry(1, 0, 7))),
];

#[test]
fn collect_race(rt: HostRuntime) -> Result<(), Fail> {
    let mut core = Core::new(rt.alloc(), ONE)?;
    run(&rt, &mut core, "collect-race", HELD);
    let counted = run_events(&mut core, &RACE)?;
    let expected = Counted {
        taken: 10,
        refused: 1,
        last: Some(Reply::Done),
    };
    assert!(rt;
        counted == expected,
        "ten events are made and one isn't allowed"
    );
    Ok(())
}

#[test]
fn collect_race_one_by_one(rt: HostRuntime) -> Result<(), Fail> {
    let mut core = Core::new(rt.alloc(), ONE)?;
    run(&rt, &mut core, "collect-race", HELD);
    for (event, told) in RACE.iter().zip(&TOLD) {
        let line = (0, Ask::Step(*event), Ok(*told));
        run(&rt, &mut core, "collect-race, one by one", &[line]);
    }
    Ok(())
}
