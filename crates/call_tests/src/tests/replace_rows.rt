//! Replacements through the lock: who finds what, who keeps what, and why they are refused.

use super::answers::Answer::{self, At, Come, Done, Refused, Replaced};
use super::answers::{DRIVER_WM1, VGA, WM, WM0, Wanted};
use super::bench::Call::{Advance, Attach, Detach, LookUp, Replace};
use super::bench::Step::{self, By, Gets, Plugs, Reads, Replugs, Uncounts};
use super::bench::{Test, on_bench};
use super::readers::Reader::{Count, Enter, Exit, Find, Read, Release};
use registry_values::{Refusal, Stage};
use std::test::*;

/// The driver `wm` once more, with another value.
const NEW_WM: Wanted = Wanted { value: 9, ..WM };

/// The interface `wm0` once more, with another value.
const NEW_WM0: Wanted = Wanted { value: 9000, ..WM0 };

/// CPU 1 keeps the old entry, which it reads by its reference, while CPU 2 finds the new one. The old one goes once it is let go.
const HELD: &[(Step, Answer)] = &[
    (By(0, Attach(WM)), At(1, 0)),
    (By(0, Attach(VGA)), At(2, 1)),
    (Gets(1, WM), Done),
    (By(0, Replace(NEW_WM)), Replaced(1, 3, 2)),
    (By(2, LookUp(NEW_WM)), At(3, 2)),
    (By(1, LookUp(NEW_WM)), At(3, 2)),
    (Reads(1, Read(WM)), Done),
    (By(0, Advance(1)), Come(Stage::Passive(1))),
    (Reads(1, Release), Done),
    (By(0, Advance(1)), Come(Stage::Freed(0))),
    (By(0, Replace(WM)), Replaced(3, 4, 0)),
    (By(2, LookUp(WM)), At(4, 0)),
    (By(0, Advance(3)), Come(Stage::Freed(2))),
    (By(1, Detach(WM)), At(4, 0)),
];

#[test]
fn a_replaced_entry_is_held(rt: HostRuntime) {
    on_bench(&rt, rt.alloc(), 3, 1000, Test::Follow(HELD));
}

/// A section that found the old entry keeps it; in that section the name leads to the new one.
const IN_A_SECTION: &[(Step, Answer)] = &[
    (By(0, Attach(WM)), At(1, 0)),
    (Reads(1, Enter), Done),
    (Reads(1, Find(WM)), At(1, 0)),
    (By(0, Replace(NEW_WM)), Replaced(1, 2, 1)),
    (By(0, Advance(1)), Come(Stage::Grace(1))),
    (Reads(1, Find(NEW_WM)), At(2, 1)),
    (Reads(1, Exit), Done),
    (By(0, Advance(1)), Come(Stage::Freed(0))),
];

#[test]
fn a_section_keeps_what_is_replaced(rt: HostRuntime) {
    on_bench(&rt, rt.alloc(), 2, 1000, Test::Follow(IN_A_SECTION));
}

/// In the order of its tests. A refused one changes nothing: the next number is still 2.
const REFUSED: &[(Step, Answer)] = &[
    (By(0, Replace(VGA)), Refused(Refusal::NotFound)),
    (By(0, Attach(WM)), At(1, 0)),
    (Reads(0, Enter), Done),
    (By(0, Replace(VGA)), Refused(Refusal::Inside)),
    (By(0, Replace(NEW_WM)), Refused(Refusal::Inside)),
    (Reads(0, Exit), Done),
    (By(0, Replace(DRIVER_WM1)), Refused(Refusal::NotFound)),
    (By(0, Replace(NEW_WM)), Refused(Refusal::NoSlot)),
    (By(0, LookUp(WM)), At(1, 0)),
    (By(0, Detach(WM)), At(1, 0)),
    (By(0, Replace(NEW_WM)), Refused(Refusal::NotFound)),
    (By(0, Advance(1)), Come(Stage::Freed(0))),
    (By(0, Attach(WM)), At(3, 0)),
];

#[test]
fn refused_replacements(rt: HostRuntime) {
    on_bench(&rt, rt.alloc(), 1, 1000, Test::Follow(REFUSED));
}

/// Two changes are left after the attach, one of them for its detach.
const FULL: &[(Step, Answer)] = &[
    (By(0, Attach(WM)), At(1, 0)),
    (By(0, Replace(NEW_WM)), Replaced(1, 2, 1)),
    (By(0, Replace(WM)), Refused(Refusal::NoSlot)),
    (By(0, Advance(1)), Come(Stage::Freed(0))),
    (By(0, Replace(WM)), Refused(Refusal::HistoryFull)),
    (By(0, LookUp(NEW_WM)), At(2, 1)),
    (By(0, Detach(NEW_WM)), At(2, 1)),
];

#[test]
fn a_replacement_in_a_full_history(rt: HostRuntime) {
    on_bench(&rt, rt.alloc(), 2, 4, Test::Follow(FULL));
}

/// The old interface keeps its driver until it is freed, and the new one keeps another; an interface is no driver of one.
const DRIVERS: &[(Step, Answer)] = &[
    (By(0, Attach(WM)), At(1, 0)),
    (By(0, Attach(VGA)), At(2, 1)),
    (Reads(0, Enter), Done),
    (Reads(0, Find(WM)), At(1, 0)),
    (Reads(0, Count), Done),
    (Reads(0, Exit), Done),
    (Replugs(0, WM0), Refused(Refusal::NotFound)),
    (Plugs(0, WM0), At(3, 2)),
    (Reads(0, Enter), Done),
    (Reads(0, Find(WM0)), At(3, 2)),
    (Reads(0, Count), Done),
    (Reads(0, Exit), Done),
    (Replugs(0, NEW_WM0), Refused(Refusal::NeedsDriver)),
    (Uncounts(0), Done),
    (Reads(0, Enter), Done),
    (Reads(0, Find(VGA)), At(2, 1)),
    (Reads(0, Count), Done),
    (Replugs(0, NEW_WM0), Refused(Refusal::Inside)),
    (Reads(0, Exit), Done),
    (Replugs(0, NEW_WM0), Replaced(3, 4, 3)),
    (By(1, LookUp(NEW_WM0)), At(4, 3)),
    (By(0, Detach(WM)), At(1, 0)),
    (By(0, Detach(VGA)), At(2, 1)),
    (By(0, Advance(1)), Come(Stage::Local(1))),
    (By(0, Advance(2)), Come(Stage::Local(1))),
    (By(0, Advance(3)), Come(Stage::Freed(2))),
    (By(0, Advance(1)), Come(Stage::Freed(0))),
    (By(0, Advance(2)), Come(Stage::Local(1))),
    (By(1, Detach(NEW_WM0)), At(4, 3)),
    (By(1, Advance(4)), Come(Stage::Freed(3))),
    (By(0, Advance(2)), Come(Stage::Freed(1))),
];

#[test]
fn a_replaced_interface_keeps_its_driver(rt: HostRuntime) {
    on_bench(&rt, rt.alloc(), 4, 1000, Test::Follow(DRIVERS));
}
