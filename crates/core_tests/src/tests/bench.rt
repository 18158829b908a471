//! Rows of commands and of events with the replies that are expected, and what runs them.
//!
//! A row is plain data: a name is text in it, a passive reference its CPU and number, a local one its id.

ghost use Rattle.std.specs.Prelude.{IsTrue};
ghost use Rattle.registry_values.specs.Common.{is_lawful};

use super::data::{ATTACH_WM, USUAL};
use super::give::give;
use passive_core::{Core, CorePsref, Event, Kind, Mark, Name, Record, Refusal, Settings, Stage};
use std::process::Abort;
use std::test::Fail;

/// A record whose name is this text.
#[derive(Clone, Copy)]
pub(super) struct Rec {
    pub(super) kind: Kind,
    pub(super) text: &'static [u8],
    pub(super) value: u64,
}

/// The record, whose text is a name.
pub(super) fn record(rt: &impl Abort, rec: Rec) -> Record
    ensures { IsTrue (is_lawful result.name) }
{
    Record {
        kind: rec.kind,
        name: Name::parse(rec.text).expect(rt, "a name"),
        value: rec.value,
    }
}

/// What is asked of a core, without the CPU that it is asked on.
#[derive(Clone, Copy)]
pub(super) enum Ask {
    Attach(Rec),
    /// An interface, and the id of the reference to its driver.
    Plug(Rec, u64),
    Detach(Rec),
    Enter,
    Exit,
    Find(Rec),
    Acquire,
    Copy(CorePsref),
    Held(CorePsref),
    Read(CorePsref),
    Release(CorePsref),
    Count,
    Advance(u64),
    Destroy(u64, u32),
    Perform(u32),
    Audit,
    /// A single event.
    Step(Event),
    /// The CPU begins a search.
    Seek(Rec),
    /// What was noted of the CPU for the slot.
    Mark(u8),
}

/// What is answered where nothing is refused. An entry is its number, its slot and its value, a record its value.
#[derive(Clone, Copy, PartialEq, Eq)]
pub(super) enum Told {
    Done,
    Entry(u64, u8, u64),
    /// How deep the CPU's section is now.
    Depth(u8),
    Missed,
    Psref(CorePsref),
    Is(bool),
    Record(u64),
    Stage(Stage),
    Slot(u8),
    /// How many balances there are, and what the first says is held.
    Audit(usize, i64),
    NotAllowed,
    /// An event's reply, as `Reply` says.
    Word(u64),
    /// The id of a local reference.
    Ref(u64),
    Collected,
    Mark(Mark),
}

pub(super) type Answer = Result<Told, Refusal>;

/// A CPU, what it asks, and the answer to come.
pub(super) type Line = (u8, Ask, Answer);

/// A row of lines, which a core with these settings answers.
#[derive(Clone, Copy)]
pub(super) struct Row {
    pub(super) name: &'static str,
    pub(super) settings: Settings,
    pub(super) lines: &'static [Line],
}

/// Runs each row on a core of its own.
pub(super) fn run_rows(rt: &(impl Abort + AllocGlobal), rows: &[Row]) -> Result<(), Fail> {
    for row in rows {
        let mut core = Core::new(rt.alloc(), row.settings)?;
        run(rt, &mut core, row.name, row.lines);
    }
    Ok(())
}

/// Asks the lines of a row in turn, each from 0, and compares each answer.
pub(super) fn run(rt: &impl Abort, core: &mut Core, name: &str, lines: &[Line]) {
    for (k, (c, ask, answer)) in lines.iter().enumerate() {
        assert!(rt; give(rt, core, *c, *ask) == *answer, "{name}, line {k}");
    }
}

/// A core whose CPU 0 has attached the driver wm, and which has made these events since.
pub(super) fn core_after(rt: &(impl Abort + AllocGlobal), events: &[Event]) -> Result<Core, Fail> {
    let mut core = Core::new(rt.alloc(), USUAL)?;
    run(rt, &mut core, "one driver", &[ATTACH_WM]);
    for event in events {
        assert!(rt; core.step(*event).is_ok(), "an event that is allowed");
    }
    Ok(core)
}

/// Whether two such cores are the same after these events, and after those.
pub(super) fn same_after(
    rt: &(impl Abort + AllocGlobal),
    these: &[Event],
    those: &[Event],
) -> Result<bool, Fail> {
    let core = core_after(rt, these)?;
    Ok(core.is_same(&core_after(rt, those)?))
}
