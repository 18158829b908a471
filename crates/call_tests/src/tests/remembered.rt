//! Lookups and gets by memory: worked rows, and thirty-two entries.

ghost use Rattle.std.specs.Prelude.{◌<◌};
ghost use Rattle.call_tests.specs.declared.tests.remembered.TheConstants.{SLOTS};

use super::answers::Answer::{self, At, Done, Is, Names, Nothing, Number, Refused};
use super::answers::{DRIVER_WM0, VGA, WM, WM0, Wanted};
use super::bench::Call::{self, Attach, Destroy, Detach};
use super::bench::Step::{self, By, Gets, Reads};
use super::bench::{Bench, Test, on_bench};
use super::readers::Reader::{
    Acquire, Ended, Enter, Exit, Find, FindInside, LookUp, Read, Recall, Reference, Release,
};
use cpu_words::Domain;
use registry_values::{Kind, Refusal};
use std::process::Abort;
use std::sync::Wait;
use std::test::*;

const SLOTS: u8 = 32;

/// Two drivers whose names differ in their second words.
const ETHERNET1: Wanted = Wanted {
    kind: Kind::Driver,
    name: "ethernet1",
    value: 21,
};

const ETHERNET2: Wanted = Wanted {
    name: "ethernet2",
    value: 22,
    ..ETHERNET1
};

/// A CPU's first lookup of an entry ends a section, and so does the first one after that entry was detached. No other does.
const SECTIONS: &[(Step, Answer)] = &[
    (By(1, Attach(WM)), At(1, 0)),
    (Reads(0, LookUp(WM)), At(1, 0)),
    (Reads(0, Ended), Number(1)),
    (Reads(0, LookUp(WM)), At(1, 0)),
    (Reads(0, Ended), Number(1)),
    (Reads(2, LookUp(WM)), At(1, 0)),
    (Reads(2, Ended), Number(1)),
    (By(1, Attach(VGA)), At(2, 1)),
    (Reads(0, LookUp(VGA)), At(2, 1)),
    (Reads(0, Ended), Number(2)),
    (By(1, Detach(VGA)), At(2, 1)),
    (Reads(0, LookUp(WM)), At(1, 0)),
    (Reads(0, Ended), Number(2)),
    (Reads(0, LookUp(VGA)), Nothing),
    (Reads(0, Ended), Number(3)),
    (By(1, Attach(VGA)), At(4, 2)),
    (Reads(0, LookUp(VGA)), At(4, 2)),
    (Reads(0, Ended), Number(4)),
    (Reads(0, LookUp(VGA)), At(4, 2)),
    (Reads(0, LookUp(WM)), At(1, 0)),
    (Reads(0, Ended), Number(4)),
];

/// A slot that CPU 0 remembers gets another name, then the same one again. A name that it remembers goes to another slot.
const SLOTS_AGAIN: &[(Step, Answer)] = &[
    (By(1, Attach(WM)), At(1, 0)),
    (Reads(0, LookUp(WM)), At(1, 0)),
    (By(1, Detach(WM)), At(1, 0)),
    (By(1, Destroy(1, 9)), Number(0)),
    (By(1, Attach(VGA)), At(3, 0)),
    (Reads(0, LookUp(WM)), Nothing),
    (Reads(0, LookUp(VGA)), At(3, 0)),
    (By(1, Detach(VGA)), At(3, 0)),
    (By(1, Destroy(3, 9)), Number(0)),
    (By(1, Attach(VGA)), At(5, 0)),
    (Reads(0, LookUp(VGA)), At(5, 0)),
    (By(1, Detach(VGA)), At(5, 0)),
    (By(1, Attach(VGA)), At(7, 1)),
    (Reads(0, LookUp(VGA)), At(7, 1)),
    (By(1, Destroy(5, 9)), Number(0)),
    (By(1, Attach(WM)), At(8, 0)),
    (Reads(0, LookUp(VGA)), At(7, 1)),
    (Reads(0, LookUp(WM)), At(8, 0)),
    (Reads(0, Ended), Number(6)),
];

/// Kind and name must be those sought.
const KEYS: &[(Step, Answer)] = &[
    (By(1, Attach(DRIVER_WM0)), At(1, 0)),
    (Reads(0, LookUp(DRIVER_WM0)), At(1, 0)),
    (Reads(0, LookUp(WM0)), Nothing),
    (Reads(0, LookUp(DRIVER_WM0)), At(1, 0)),
    (By(1, Attach(ETHERNET1)), At(2, 1)),
    (Reads(0, LookUp(ETHERNET1)), At(2, 1)),
    (Reads(0, LookUp(ETHERNET2)), Nothing),
    (By(1, Attach(ETHERNET2)), At(3, 2)),
    (Reads(0, LookUp(ETHERNET2)), At(3, 2)),
    (Reads(0, LookUp(ETHERNET1)), At(2, 1)),
];

/// A recall compares the number. In a section it sees a detach at once, and isn't the section's last find.
const RECALLS: &[(Step, Answer)] = &[
    (By(1, Attach(WM)), At(1, 0)),
    (Reads(0, Recall(0, 1)), Is(true)),
    (Reads(0, Recall(0, 2)), Is(false)),
    (Reads(0, Recall(1, 1)), Is(false)),
    (Reads(0, Enter), Done),
    (Reads(0, Recall(0, 1)), Is(true)),
    (Reads(0, Acquire), Refused(Refusal::NothingFound)),
    (Reads(0, Find(WM)), At(1, 0)),
    (By(1, Detach(WM)), At(1, 0)),
    (Reads(0, Recall(0, 1)), Is(false)),
    (Reads(0, Acquire), Done),
    (Reads(0, Exit), Done),
    (Reads(0, Read(WM)), Done),
    (Reads(0, Release), Done),
    (By(1, Destroy(1, 9)), Number(0)),
    (By(1, Attach(VGA)), At(3, 0)),
    (Reads(0, Recall(0, 1)), Is(false)),
    (Reads(0, Recall(0, 3)), Is(true)),
];

/// CPU 0 misses a name without a section, if no entry is there, or if the newest one is that of the last miss.
const ABSENT: &[(Step, Answer)] = &[
    (Reads(0, LookUp(WM)), Nothing),
    (Reads(0, Ended), Number(0)),
    (By(1, Attach(VGA)), At(1, 0)),
    (Reads(0, LookUp(WM)), Nothing),
    (Reads(0, Ended), Number(1)),
    (Reads(0, LookUp(WM)), Nothing),
    (Reads(0, LookUp(WM0)), Nothing),
    (Reads(0, Ended), Number(2)),
    (By(1, Attach(WM)), At(2, 1)),
    (Reads(0, LookUp(WM0)), Nothing),
    (Reads(0, LookUp(WM)), At(2, 1)),
    (Reads(0, Ended), Number(4)),
    (By(1, Detach(WM)), At(2, 1)),
    (Reads(0, LookUp(WM)), Nothing),
    (Reads(0, Ended), Number(4)),
    (By(1, Detach(VGA)), At(1, 0)),
    (Reads(0, LookUp(VGA)), Nothing),
    (By(1, Destroy(1, 9)), Number(0)),
    (Reads(0, Ended), Number(4)),
    (By(1, Attach(WM)), At(5, 0)),
    (Reads(0, LookUp(WM)), At(5, 0)),
    (Reads(0, Ended), Number(5)),
];

/// The registry's own calls, outside a section and inside. Outside, a get and a lookup of one name share what the CPU remembers.
const CALLS: &[(Step, Answer)] = &[
    (Gets(0, WM), Refused(Refusal::NotFound)),
    (Reads(0, Ended), Number(0)),
    (By(1, Attach(WM)), At(1, 0)),
    (Gets(0, WM), Done),
    (Reads(0, Ended), Number(1)),
    (Reads(0, Reference), Names(0, 1)),
    (Reads(0, Release), Done),
    (By(0, Call::LookUp(WM)), At(1, 0)),
    (Gets(0, VGA), Refused(Refusal::NotFound)),
    (Reads(0, Ended), Number(2)),
    (By(0, Call::LookUp(VGA)), Refused(Refusal::NotFound)),
    (Gets(0, VGA), Refused(Refusal::NotFound)),
    (Reads(0, Ended), Number(2)),
    (Reads(0, Enter), Done),
    (Gets(0, WM), Done),
    (Reads(0, Release), Done),
    (By(0, Call::LookUp(VGA)), Refused(Refusal::NotFound)),
    (Reads(0, Acquire), Refused(Refusal::NothingFound)),
    (By(0, Call::LookUp(WM)), At(1, 0)),
    (Reads(0, Acquire), Done),
    (Reads(0, Release), Done),
    (Reads(0, FindInside(VGA)), Nothing),
    (Reads(0, Acquire), Refused(Refusal::NothingFound)),
    (Reads(0, FindInside(WM)), At(1, 0)),
    (By(1, Detach(WM)), At(1, 0)),
    (Reads(0, Acquire), Done),
    (Reads(0, FindInside(WM)), Nothing),
    (Reads(0, Exit), Done),
    (Reads(0, Read(WM)), Done),
    (Gets(0, WM), Refused(Refusal::NotFound)),
    (Reads(0, Release), Done),
    (By(1, Destroy(1, 9)), Number(0)),
    (Reads(0, Ended), Number(3)),
];

#[test]
fn rows_by_memory(rt: HostRuntime) {
    for steps in [SECTIONS, SLOTS_AGAIN, KEYS, RECALLS, ABSENT, CALLS] {
        on_bench(&rt, rt.alloc(), 4, 1000, Test::Follow(steps));
    }
}

#[test]
fn thirty_two_entries(rt: HostRuntime) {
    on_bench(&rt, rt.alloc(), SLOTS, 1000, Test::FullByMemory);
}

/// The names of the drivers, one for each slot.
const NAMES: [&str; SLOTS as usize] = [
    "aa", "ab", "ac", "ad", "ae", "af", "ag", "ah", "ba", "bb", "bc", "bd", "be", "bf", "bg", "bh",
    "ca", "cb", "cc", "cd", "ce", "cf", "cg", "ch", "da", "db", "dc", "dd", "de", "df", "dg", "dh",
];

/// The n-th driver, whose value is ten times its place.
fn nth(n: u8) -> Wanted
    requires { n < SLOTS }
{
    Wanted {
        kind: Kind::Driver,
        name: NAMES[usize::from(n)],
        value: 10 * u64::from(n),
    }
}

/// CPU 1 attaches thirty-two drivers. CPU 0 finds each in a section once, and remembers it then beside all others.
pub(crate) fn full_by_memory<D: Domain, R: Wait + Abort>(rt: &R, bench: &mut Bench<D>) {
    for n in 0..SLOTS {
        let answer = At(u64::from(n) + 1, n);
        bench.run(rt, "attached", &[(By(1, Attach(nth(n))), answer)]);
    }
    look_each_up(rt, bench);
    look_each_up(rt, bench);
}

/// Looks each entry up. The CPU has ended as many sections then as there are entries.
fn look_each_up<D: Domain, R: Wait + Abort>(rt: &R, bench: &mut Bench<D>) {
    for n in 0..SLOTS {
        let answer = At(u64::from(n) + 1, n);
        bench.run(rt, "looked up", &[(Reads(0, LookUp(nth(n))), answer)]);
    }
    let ended = Number(u64::from(SLOTS));
    bench.run(rt, "remembered", &[(Reads(0, Ended), ended)]);
}
