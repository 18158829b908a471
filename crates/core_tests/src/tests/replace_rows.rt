//! Worked rows of a `Republish`, which puts an entry in another's place in the list: where it is
//! allowed, and what lookups find then. No command makes it.

use super::bench::{Ask, Line, Told, run};
use super::data::{ATTACH_WM, ENTER, EXIT, FIND_WM, FIRST, SECOND, THIRD, USUAL, WM0_IFACE};
use passive_core::{BIAS, Core, Event, RecordOf, Settings, Stage, StepFault};
use std::process::Abort;
use std::test::Fail;

/// The first word of the names of the three drivers; the second is 0.
const FIRST_NAME: u64 = 0x776d_3000_0000_0000;

const SECOND_NAME: u64 = 0x776d_3100_0000_0000;

const THIRD_NAME: u64 = 0x776d_3200_0000_0000;

/// The drivers in slots 0, 1 and 2. The list begins with the third.
const LIST: &[Line] = &[
    (0, Ask::Attach(FIRST), Ok(Told::Entry(1, 0, 10))),
    (0, Ask::Attach(SECOND), Ok(Told::Entry(2, 1, 11))),
    (0, Ask::Attach(THIRD), Ok(Told::Entry(3, 2, 12))),
];

/// A core with this list, and two more slots.
fn listed(rt: &(impl Abort + AllocGlobal)) -> Result<Core, Fail> {
    let settings = Settings { slots: 5, ..USUAL };
    let mut core = Core::new(rt.alloc(), settings)?;
    run(rt, &mut core, "three drivers", LIST);
    Ok(core)
}

/// The keeper's stores of all words of a vacant slot, for a driver: its number, its name, its value, its link.
fn words(t: u8, number: u64, name: u64, value: u64, next: u64) -> [Event; 8] {
    [
        Event::StoreSlot(t, 0, number),
        Event::StoreSlot(t, 1, 2),
        Event::StoreSlot(t, 2, name),
        Event::StoreSlot(t, 3, 0),
        Event::StoreSlot(t, 4, value),
        Event::StoreSlot(t, 5, BIAS),
        Event::StoreSlot(t, 6, BIAS),
        Event::StoreNext(t, next),
    ]
}

/// The entry in slot t takes the place of the one in u, and the snapshots of that one are taken.
fn replacing(t: u8, u: u8) -> [Event; 3] {
    [
        Event::Republish(t, u),
        Event::Snapshot(Some(u), 0),
        Event::Snapshot(Some(u), 1),
    ]
}

fn unlinking(t: u8) -> [Event; 3] {
    [
        Event::Unpublish(t),
        Event::Snapshot(Some(t), 0),
        Event::Snapshot(Some(t), 1),
    ]
}

fn make(rt: &impl Abort, core: &mut Core, events: &[Event]) {
    for event in events {
        assert!(rt; core.step(*event).is_ok(), "an event that is allowed");
    }
}

/// The entry in slot t may not take the place of the one in u.
fn refuses(rt: &impl Abort, core: &mut Core, t: u8, u: u8) {
    assert!(rt;
        core.step(Event::Republish(t, u)) == Err(StepFault::NotAllowed),
        "slot {t} for slot {u}"
    );
}

#[test]
fn middle_is_replaced(rt: HostRuntime) -> Result<(), Fail> {
    let mut core = listed(&rt)?;
    make(&rt, &mut core, &words(3, 4, SECOND_NAME, 21, 1));
    make(&rt, &mut core, &replacing(3, 1));
    let all = [
        ENTER,
        (0, Ask::Find(FIRST), Ok(Told::Entry(1, 0, 10))),
        (0, Ask::Find(SECOND), Ok(Told::Entry(4, 3, 21))),
        (0, Ask::Find(THIRD), Ok(Told::Entry(3, 2, 12))),
        EXIT,
    ];
    run(&rt, &mut core, "the new one is found", &all);
    make(&rt, &mut core, &unlinking(2));
    let last = [
        ENTER,
        (0, Ask::Find(FIRST), Ok(Told::Entry(1, 0, 10))),
        (0, Ask::Find(SECOND), Ok(Told::Entry(4, 3, 21))),
        (0, Ask::Find(THIRD), Ok(Told::Missed)),
        EXIT,
    ];
    run(&rt, &mut core, "without the one before it", &last);
    make(&rt, &mut core, &unlinking(0));
    let alone = [
        ENTER,
        (0, Ask::Find(FIRST), Ok(Told::Missed)),
        (0, Ask::Find(SECOND), Ok(Told::Entry(4, 3, 21))),
        EXIT,
        (0, Ask::Advance(2), Ok(Told::Stage(Stage::Freed(1)))),
        (0, Ask::Detach(SECOND), Ok(Told::Entry(4, 3, 21))),
    ];
    run(&rt, &mut core, "without the one after it", &alone);
    Ok(())
}

#[test]
fn head_is_replaced(rt: HostRuntime) -> Result<(), Fail> {
    let mut core = listed(&rt)?;
    make(&rt, &mut core, &words(3, 4, THIRD_NAME, 22, 2));
    make(&rt, &mut core, &replacing(3, 2));
    assert!(rt; core.head() == 4, "the list begins with the new one");
    make(&rt, &mut core, &unlinking(1));
    let rest = [
        ENTER,
        (0, Ask::Find(FIRST), Ok(Told::Entry(1, 0, 10))),
        (0, Ask::Find(SECOND), Ok(Told::Missed)),
        (0, Ask::Find(THIRD), Ok(Told::Entry(4, 3, 22))),
        EXIT,
    ];
    run(&rt, &mut core, "without the one after it", &rest);
    make(&rt, &mut core, &unlinking(3));
    assert!(rt; core.head() == 1, "the list begins with the first one");
    Ok(())
}

#[test]
fn last_is_replaced(rt: HostRuntime) -> Result<(), Fail> {
    let mut core = listed(&rt)?;
    make(&rt, &mut core, &words(3, 4, FIRST_NAME, 20, 0));
    make(&rt, &mut core, &replacing(3, 0));
    make(&rt, &mut core, &unlinking(1));
    let rest = [
        ENTER,
        (0, Ask::Find(FIRST), Ok(Told::Entry(4, 3, 20))),
        (0, Ask::Find(SECOND), Ok(Told::Missed)),
        (0, Ask::Find(THIRD), Ok(Told::Entry(3, 2, 12))),
        EXIT,
    ];
    run(&rt, &mut core, "without the one before it", &rest);
    Ok(())
}

/// What spoils the words of an entry in slot 3 that is to take the place of wm1 in slot 1, and what mends them.
const SPOILT: [(Event, Event); 11] = [
    (Event::StoreSlot(3, 0, 3), Event::StoreSlot(3, 0, 4)),
    (Event::StoreSlot(3, 0, 5), Event::StoreSlot(3, 0, 4)),
    (Event::StoreSlot(3, 1, 0), Event::StoreSlot(3, 1, 2)),
    (Event::StoreSlot(3, 1, 1), Event::StoreSlot(3, 1, 2)),
    (
        Event::StoreSlot(3, 2, THIRD_NAME),
        Event::StoreSlot(3, 2, SECOND_NAME),
    ),
    (
        Event::StoreSlot(3, 2, 0),
        Event::StoreSlot(3, 2, SECOND_NAME),
    ),
    (Event::StoreSlot(3, 3, 1), Event::StoreSlot(3, 3, 0)),
    (Event::StoreSlot(3, 5, 0), Event::StoreSlot(3, 5, BIAS)),
    (
        Event::StoreSlot(3, 6, BIAS + 1),
        Event::StoreSlot(3, 6, BIAS),
    ),
    (Event::StoreNext(3, 2), Event::StoreNext(3, 1)),
    (Event::StoreNext(3, 3), Event::StoreNext(3, 1)),
];

#[test]
fn spoilt_words_replace_nothing(rt: HostRuntime) -> Result<(), Fail> {
    let mut core = listed(&rt)?;
    make(&rt, &mut core, &words(3, 4, SECOND_NAME, 21, 1));
    for (spoils, mends) in &SPOILT {
        make(&rt, &mut core, &[*spoils]);
        refuses(&rt, &mut core, 3, 1);
        make(&rt, &mut core, &[*mends]);
    }
    make(&rt, &mut core, &replacing(3, 1));
    Ok(())
}

/// The new entry's slot must be vacant, and the old one's live. All snapshots are taken before the next change.
#[test]
fn twice_in_one_place(rt: HostRuntime) -> Result<(), Fail> {
    let mut core = listed(&rt)?;
    make(&rt, &mut core, &words(3, 4, SECOND_NAME, 21, 1));
    make(&rt, &mut core, &words(4, 5, SECOND_NAME, 31, 1));
    for (t, u) in &[(0, 1), (1, 1), (2, 1), (5, 1), (3, 3), (3, 4), (3, 5)] {
        refuses(&rt, &mut core, *t, *u);
    }
    make(&rt, &mut core, &[Event::Republish(3, 1)]);
    refuses(&rt, &mut core, 4, 3);
    make(&rt, &mut core, &[Event::Snapshot(Some(1), 0)]);
    refuses(&rt, &mut core, 4, 3);
    make(&rt, &mut core, &[Event::Snapshot(Some(1), 1)]);
    refuses(&rt, &mut core, 4, 1);
    refuses(&rt, &mut core, 3, 1);
    make(&rt, &mut core, &replacing(4, 3));
    let lines = [
        ENTER,
        (0, Ask::Find(FIRST), Ok(Told::Entry(1, 0, 10))),
        (0, Ask::Find(SECOND), Ok(Told::Entry(5, 4, 31))),
        (0, Ask::Find(THIRD), Ok(Told::Entry(3, 2, 12))),
        EXIT,
    ];
    run(&rt, &mut core, "the last one is found", &lines);
    Ok(())
}

/// The history has room for two changes of each live entry. One of them is made: there is room for none more at a limit of 3, and
/// for one at 4.
#[test]
fn history_has_room(rt: HostRuntime) -> Result<(), Fail> {
    for (limit, fits) in &[(3, false), (4, true)] {
        let settings = Settings {
            change_limit: *limit,
            ..USUAL
        };
        let mut core = Core::new(rt.alloc(), settings)?;
        run(&rt, &mut core, "one driver", &[ATTACH_WM]);
        make(&rt, &mut core, &words(1, 2, 0x776d_0000_0000_0000, 8, 0));
        assert!(rt;
            core.step(Event::Republish(1, 0)).is_ok() == *fits,
            "a limit of {limit}"
        );
    }
    Ok(())
}

/// CPU 0 has two local references to the driver wm, and one of them is kept by the interface wm0, in slot 1.
const PLUGGED: &[Line] = &[
    ATTACH_WM,
    ENTER,
    FIND_WM,
    (0, Ask::Count, Ok(Told::Ref(0))),
    (0, Ask::Count, Ok(Told::Ref(1))),
    EXIT,
    (0, Ask::Plug(WM0_IFACE, 0), Ok(Told::Entry(2, 1, 1500))),
];

/// A new interface keeps a reference of its own, and a driver none.
#[test]
fn interface_keeps_its_own(rt: HostRuntime) -> Result<(), Fail> {
    let settings = Settings { slots: 3, ..USUAL };
    let mut core = Core::new(rt.alloc(), settings)?;
    run(&rt, &mut core, "an interface", PLUGGED);
    make(&rt, &mut core, &words(2, 3, FIRST_NAME, 1400, 1));
    make(&rt, &mut core, &[Event::StoreSlot(2, 1, 1)]);
    refuses(&rt, &mut core, 2, 1);
    make(&rt, &mut core, &[Event::Keep(2, 1)]);
    make(&rt, &mut core, &words(2, 3, 0x776d_0000_0000_0000, 8, 0));
    refuses(&rt, &mut core, 2, 0);
    make(&rt, &mut core, &words(2, 3, FIRST_NAME, 1400, 1));
    make(&rt, &mut core, &[Event::StoreSlot(2, 1, 1)]);
    make(&rt, &mut core, &replacing(2, 1));
    let lines = [
        ENTER,
        (0, Ask::Find(WM0_IFACE), Ok(Told::Entry(3, 2, 1400))),
        EXIT,
        (0, Ask::Advance(2), Ok(Told::Stage(Stage::Freed(1)))),
    ];
    run(&rt, &mut core, "the new one is found", &lines);
    Ok(())
}

/// CPU 0 looks for wm0, and has come to wm1, in slot 1.
const STANDING: &[Line] = &[
    (0, Ask::Step(Event::Enter(0)), Ok(Told::Done)),
    (0, Ask::Seek(FIRST), Ok(Told::Done)),
    (0, LINK, Ok(Told::Word(3))),
    (0, WORD, Ok(Told::Word(3))),
    (0, WORD, Ok(Told::Word(2))),
    (0, WORD, Ok(Told::Word(THIRD_NAME))),
    (0, WORD, Ok(Told::Word(0))),
    (0, LINK, Ok(Told::Word(2))),
    (0, WORD, Ok(Told::Word(2))),
    (0, WORD, Ok(Told::Word(2))),
    (0, WORD, Ok(Told::Word(SECOND_NAME))),
    (0, WORD, Ok(Told::Word(0))),
];

const LINK: Ask = Ask::Step(Event::LoadLink(0));

const WORD: Ask = Ask::Step(Event::LoadRecord(RecordOf::Search(0)));

/// The entry that a search has reached is replaced, and then the next one: the search goes on by the old one's link, and finds the old next one.
#[test]
fn search_on_a_replaced_entry(rt: HostRuntime) -> Result<(), Fail> {
    let mut core = listed(&rt)?;
    run(&rt, &mut core, "a search", STANDING);
    make(&rt, &mut core, &words(3, 4, SECOND_NAME, 21, 1));
    make(&rt, &mut core, &replacing(3, 1));
    make(&rt, &mut core, &words(4, 5, FIRST_NAME, 20, 0));
    make(&rt, &mut core, &replacing(4, 0));
    let goes_on = [
        (0, LINK, Ok(Told::Word(1))),
        (0, WORD, Ok(Told::Word(1))),
        (0, WORD, Ok(Told::Word(2))),
        (0, WORD, Ok(Told::Word(FIRST_NAME))),
        (0, WORD, Ok(Told::Word(0))),
        (0, WORD, Ok(Told::Entry(1, 0, 10))),
        (1, Ask::Advance(1), Ok(Told::Stage(Stage::Grace(0)))),
        (1, Ask::Advance(2), Ok(Told::Stage(Stage::Grace(0)))),
        (0, Ask::Find(FIRST), Ok(Told::Entry(5, 4, 20))),
        EXIT,
        (1, Ask::Advance(1), Ok(Told::Stage(Stage::Freed(0)))),
        (1, Ask::Advance(2), Ok(Told::Stage(Stage::Freed(1)))),
    ];
    run(&rt, &mut core, "over an old link", &goes_on);
    Ok(())
}

/// The next entry is replaced before the search loads the link to it: the search finds the new one.
#[test]
fn search_before_a_replaced_entry(rt: HostRuntime) -> Result<(), Fail> {
    let mut core = listed(&rt)?;
    run(&rt, &mut core, "a search", STANDING);
    make(&rt, &mut core, &words(3, 4, FIRST_NAME, 20, 0));
    make(&rt, &mut core, &replacing(3, 0));
    let goes_on = [
        (0, LINK, Ok(Told::Word(4))),
        (0, WORD, Ok(Told::Word(4))),
        (0, WORD, Ok(Told::Word(2))),
        (0, WORD, Ok(Told::Word(FIRST_NAME))),
        (0, WORD, Ok(Told::Word(0))),
        (0, WORD, Ok(Told::Entry(4, 3, 20))),
        EXIT,
    ];
    run(&rt, &mut core, "over a new link", &goes_on);
    Ok(())
}
