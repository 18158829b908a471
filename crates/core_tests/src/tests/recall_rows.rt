//! Worked rows of a slot's live word: the keeper's `Show` and `Hide`, and a CPU's `Recall`. No command makes them.

use super::bench::{Ask, Line, Row, Told, run_rows, same_after};
use super::data::{A, ATTACH_WM, ENTER, EXIT, FIND_WM, USUAL, VGA, WM};
use passive_core::{Event, Stage};
use std::test::Fail;

/// The live word of slot 0 is stored, and CPU 0 loads it.
pub(super) const SHOW: Line = (0, Ask::Step(Event::Show(0)), Ok(Told::Done));

const HIDE: Line = (0, Ask::Step(Event::Hide(0)), Ok(Told::Done));

pub(super) const RECALL: Ask = Ask::Step(Event::Recall(0, 0));

/// And those of slot 1.
const SHOW_1: Line = (0, Ask::Step(Event::Show(1)), Ok(Told::Done));

const RECALL_1: Ask = Ask::Step(Event::Recall(0, 1));

/// CPU 1 takes wm out, and its slot is given to vga.
pub(super) const DETACH_WM: Line = (1, Ask::Detach(WM), Ok(Told::Entry(1, 0, 7)));

pub(super) const FREED: Line = (1, Ask::Advance(1), Ok(Told::Stage(Stage::Freed(0))));

const VGA_THERE: Line = (1, Ask::Attach(VGA), Ok(Told::Entry(3, 0, 8)));

const ROWS: [Row; 6] = [
    // The word is 0 before the first Show. An entry that is hidden is live: a section finds it. There is no third slot and no third CPU.
    Row {
        name: "hidden and not detached",
        settings: USUAL,
        lines: &[
            (0, RECALL, Ok(Told::NotAllowed)),
            (0, Ask::Step(Event::Seat(0)), Ok(Told::Done)),
            (0, RECALL, Ok(Told::Word(0))),
            (0, Ask::Step(Event::Show(0)), Ok(Told::NotAllowed)),
            ATTACH_WM,
            (0, RECALL, Ok(Told::Word(0))),
            SHOW,
            (0, RECALL, Ok(Told::Word(1))),
            HIDE,
            (0, RECALL, Ok(Told::Word(0))),
            ENTER,
            FIND_WM,
            EXIT,
            (0, Ask::Step(Event::Hide(1)), Ok(Told::Done)),
            SHOW,
            (0, RECALL, Ok(Told::Word(1))),
            (0, RECALL_1, Ok(Told::Word(0))),
            (0, Ask::Step(Event::Show(2)), Ok(Told::NotAllowed)),
            (0, Ask::Step(Event::Hide(2)), Ok(Told::NotAllowed)),
            (0, Ask::Step(Event::Recall(0, 2)), Ok(Told::NotAllowed)),
            (0, Ask::Step(Event::Recall(2, 0)), Ok(Told::NotAllowed)),
        ],
    },
    // A CPU that remembers number 1 in slot 0 meets 0 there, and then the number of the slot's next entry.
    Row {
        name: "a slot given again",
        settings: USUAL,
        lines: &[
            ATTACH_WM,
            SHOW,
            HIDE,
            DETACH_WM,
            (0, Ask::Step(Event::Show(0)), Ok(Told::NotAllowed)),
            (0, RECALL, Ok(Told::Word(0))),
            FREED,
            VGA_THERE,
            (0, RECALL, Ok(Told::Word(0))),
            SHOW,
            (0, RECALL, Ok(Told::Word(3))),
        ],
    },
    // The name wm comes back in slot 1, as slot 0 isn't vacant.
    Row {
        name: "attached anew in another slot",
        settings: USUAL,
        lines: &[
            ATTACH_WM,
            SHOW,
            HIDE,
            DETACH_WM,
            (1, Ask::Attach(WM), Ok(Told::Entry(3, 1, 7))),
            SHOW_1,
            (0, RECALL, Ok(Told::Word(0))),
            (0, RECALL_1, Ok(Told::Word(3))),
        ],
    },
    // No live word is stored before a detach's snapshots are made.
    Row {
        name: "stored at rest",
        settings: USUAL,
        lines: &[
            ATTACH_WM,
            (1, Ask::Attach(VGA), Ok(Told::Entry(2, 1, 8))),
            SHOW,
            HIDE,
            (0, Ask::Step(Event::Unpublish(0)), Ok(Told::Done)),
            (0, Ask::Step(Event::Hide(0)), Ok(Told::NotAllowed)),
            (0, Ask::Step(Event::Show(1)), Ok(Told::NotAllowed)),
            (0, RECALL, Ok(Told::Word(0))),
            (0, Ask::Step(Event::Snapshot(Some(0), 0)), Ok(Told::Word(0))),
            (0, Ask::Step(Event::Snapshot(Some(0), 1)), Ok(Told::Word(0))),
            SHOW_1,
            (0, RECALL_1, Ok(Told::Word(2))),
        ],
    },
    // Commands store no live word. A detach leaves one that no CPU may recall.
    Row {
        name: "detached and not hidden",
        settings: USUAL,
        lines: &[
            ATTACH_WM,
            SHOW,
            DETACH_WM,
            (0, RECALL, Ok(Told::NotAllowed)),
            (0, RECALL_1, Ok(Told::Word(0))),
            FREED,
            (0, RECALL, Ok(Told::NotAllowed)),
            VGA_THERE,
            (0, RECALL, Ok(Told::NotAllowed)),
            HIDE,
            (0, RECALL, Ok(Told::Word(0))),
            SHOW,
            (0, RECALL, Ok(Told::Word(3))),
        ],
    },
    // Inside a section a Recall leaves the last found entry. A CPU that searches makes none; another CPU does.
    Row {
        name: "inside a section",
        settings: USUAL,
        lines: &[
            ATTACH_WM,
            SHOW,
            ENTER,
            FIND_WM,
            (0, RECALL, Ok(Told::Word(1))),
            (0, Ask::Acquire, Ok(Told::Psref(A))),
            (0, Ask::Seek(WM), Ok(Told::Done)),
            (0, RECALL, Ok(Told::NotAllowed)),
            (1, Ask::Step(Event::Recall(1, 0)), Ok(Told::Word(1))),
        ],
    },
];

#[test]
fn rows_of_live_words(rt: HostRuntime) -> Result<(), Fail> {
    run_rows(&rt, &ROWS)
}

/// A Recall leaves what the hearing of a note leaves: the CPU has seen the whole history.
#[test]
fn a_recall_sees_the_history(rt: HostRuntime) -> Result<(), Fail> {
    const HEARD: &[Event] = &[Event::Hear(Some(1))];
    assert!(rt; !same_after(&rt, &[], HEARD)?, "CPU 1 had seen nothing");
    assert!(rt; same_after(&rt, &[Event::Recall(1, 0)], HEARD)?, "a Recall");
    Ok(())
}
