//! Calls on the bare words: a new table's seats; and rows, each on a table of its own, of sections and passive references, up to what the looks answer.

use super::answers::Answer::{self, At, Done, Is, Looks, Names, Number, Refused};
use super::answers::DRIVER_WM0;
use super::keepers::Writer::{Look, LookPassive, Publish, Retire};
use super::readers::Held;
use super::readers::Reader::{
    Acquire, Copy, Ended, Enter, Exit, Find, Forget, Get, Holds, Read, Reference, Release,
};
use super::table::Step::{self, First, Keeper, Second};
use super::table::{Seats, Test, on_table};
use cpu_words::{Domain, Words};
use registry_values::{Refusal, Settings};
use std::alloc::Global;
use std::process::Abort;
use std::test::*;

/// Calls on a table of its own.
pub(crate) struct Row {
    name: &'static str,
    /// The calls, each with its answer.
    steps: &'static [(Step, Answer)],
}

const ROWS: [Row; 7] = [
    Row {
        name: "retire_under_section",
        steps: &[
            (Keeper(Publish(DRIVER_WM0)), At(1, 0)),
            (First(Enter), Done),
            (First(Find(DRIVER_WM0)), At(1, 0)),
            (Keeper(Retire(DRIVER_WM0)), At(1, 0)),
            (Keeper(Look), Looks(false, true)),
            (First(Exit), Done),
            (First(Enter), Done),
            (Keeper(Look), Looks(true, true)),
            (Keeper(LookPassive), Looks(true, true)),
        ],
    },
    Row {
        name: "passive_reference",
        steps: &[
            (Keeper(Publish(DRIVER_WM0)), At(1, 0)),
            (First(Enter), Done),
            (First(Find(DRIVER_WM0)), At(1, 0)),
            (First(Acquire), Done),
            (First(Exit), Done),
            (First(Reference), Names(0, 1)),
            (Keeper(Retire(DRIVER_WM0)), At(1, 0)),
            (Keeper(Look), Looks(true, true)),
            (Keeper(LookPassive), Looks(false, true)),
            (First(Read(DRIVER_WM0)), Done),
            (First(Release), Done),
            (Keeper(LookPassive), Looks(true, true)),
        ],
    },
    Row {
        name: "copied_reference",
        steps: &[
            (Keeper(Publish(DRIVER_WM0)), At(1, 0)),
            (First(Enter), Done),
            (First(Find(DRIVER_WM0)), At(1, 0)),
            (First(Acquire), Done),
            (First(Exit), Done),
            (First(Copy), Done),
            (Keeper(Retire(DRIVER_WM0)), At(1, 0)),
            (First(Release), Done),
            (Keeper(Look), Looks(true, true)),
            (Keeper(LookPassive), Looks(false, true)),
            (First(Release), Done),
            (Keeper(LookPassive), Looks(true, true)),
        ],
    },
    Row {
        name: "wrong_cpu",
        steps: &[
            (Keeper(Publish(DRIVER_WM0)), At(1, 0)),
            (First(Enter), Done),
            (First(Find(DRIVER_WM0)), At(1, 0)),
            (First(Acquire), Done),
            (First(Exit), Done),
            (Second(Read(DRIVER_WM0)), Refused(Refusal::WrongCpu)),
            (Second(Copy), Refused(Refusal::WrongCpu)),
            (Second(Release), Refused(Refusal::WrongCpu)),
            (First(Holds), Is(true)),
            (Second(Holds), Is(false)),
            (Keeper(Retire(DRIVER_WM0)), At(1, 0)),
            (Keeper(Look), Looks(true, true)),
            (Keeper(LookPassive), Looks(false, true)),
            (First(Release), Done),
            (Keeper(LookPassive), Looks(true, true)),
        ],
    },
    // The reference that was forgotten stays held.
    Row {
        name: "references_are_limited",
        steps: &[
            (Keeper(Publish(DRIVER_WM0)), At(1, 0)),
            (First(Enter), Done),
            (First(Acquire), Refused(Refusal::NothingFound)),
            (First(Find(DRIVER_WM0)), At(1, 0)),
            (First(Acquire), Done),
            (First(Forget), Done),
            (First(Acquire), Done),
            (First(Acquire), Refused(Refusal::PassiveFull)),
            (First(Copy), Refused(Refusal::PassiveFull)),
            (First(Exit), Done),
            (First(Release), Done),
            (Keeper(Retire(DRIVER_WM0)), At(1, 0)),
            (Keeper(Look), Looks(true, true)),
            (Keeper(LookPassive), Looks(false, true)),
        ],
    },
    // A reference that was got without a section holds its entry as any other does. What a get in vain counts up, it takes back.
    Row {
        name: "get_by_memory",
        steps: &[
            (First(Get(DRIVER_WM0)), Refused(Refusal::NotFound)),
            (Keeper(Publish(DRIVER_WM0)), At(1, 0)),
            (First(Get(DRIVER_WM0)), Done),
            (First(Release), Done),
            (First(Ended), Number(1)),
            (First(Get(DRIVER_WM0)), Done),
            (First(Ended), Number(1)),
            (First(Reference), Names(0, 1)),
            (First(Holds), Is(true)),
            (Second(Holds), Is(false)),
            (Keeper(Retire(DRIVER_WM0)), At(1, 0)),
            (Keeper(Look), Looks(true, true)),
            (Keeper(LookPassive), Looks(false, true)),
            (First(Read(DRIVER_WM0)), Done),
            (First(Release), Done),
            (First(Get(DRIVER_WM0)), Refused(Refusal::NotFound)),
            (Keeper(LookPassive), Looks(true, true)),
        ],
    },
    // One of three gets goes beyond the limit.
    Row {
        name: "gets_are_limited",
        steps: &[
            (Keeper(Publish(DRIVER_WM0)), At(1, 0)),
            (First(Get(DRIVER_WM0)), Done),
            (First(Copy), Done),
            (First(Forget), Done),
            (First(Release), Done),
            (First(Get(DRIVER_WM0)), Done),
            (First(Forget), Done),
            (First(Get(DRIVER_WM0)), Refused(Refusal::PassiveFull)),
            (Second(Get(DRIVER_WM0)), Done),
            (Second(Release), Done),
            (Keeper(Retire(DRIVER_WM0)), At(1, 0)),
            (Keeper(Look), Looks(true, true)),
            (Keeper(LookPassive), Looks(false, true)),
        ],
    },
];

#[test]
fn word_rows(rt: HostRuntime) {
    for row in &ROWS {
        on_table(&rt, rt.alloc(), 10, Test::Follow(row));
    }
}

pub(crate) fn follow<D: Domain, R: Abort>(rt: &R, mut seats: Seats<D>, row: &Row) {
    let mut refs = Held::nothing();
    seats.follow(rt, &mut refs, row.name, row.steps);
    refs.end(rt);
}

const LEAST: Settings = Settings {
    cpus: 1,
    slots: 1,
    change_limit: 1,
    section_limit: 1,
    passive_limit: 1,
    count_limit: 1,
};

/// How many seats new words of so many CPUs have.
fn seats_of(alloc: Global, cpus: u8) -> Result<usize, Refusal> {
    match Words::new(alloc, Settings { cpus, ..LEAST }) {
        Ok((_, _, seats)) => Ok(seats.len()),
        Err(refusal) => Err(refusal),
    }
}

#[test]
fn new_has_a_seat_for_each_cpu(rt: HostRuntime) {
    for cpus in [1, 3, 8] {
        assert!(rt; seats_of(rt.alloc(), cpus) == Ok(usize::from(cpus)));
    }
    assert!(rt; seats_of(rt.alloc(), 0) == Err(Refusal::BadSettings));
}
