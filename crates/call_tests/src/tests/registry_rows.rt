//! Calls on a registry that no script can make: an audit without all CPUs, a long history, very many references, and one of another registry.

ghost use Rattle.name_registry.specs.Common.{IsBlankOf};

use super::answers::Answer::{self, At, Come, Done, Is, Names, Refused};
use super::answers::{VGA, WM};
use super::bench::Call::{Advance, Attach, Detach};
use super::bench::Step::{self, By, Gets, Reads, Uncounts};
use super::bench::{Bench, Test, blank, on_bench};
use super::readers::Held;
use super::readers::Reader::{Copy, Count, Enter, Exit, Find, Holds, Read, Reference, Release};
use cpu_words::Domain;
use name_registry::Blank;
use registry_values::{Refusal, Stage};
use std::alloc::Global;
use std::marker::Brand;
use std::process::Abort;
use std::sync::Wait;
use std::test::*;

/// So many changes there may be: more than 17 bits count, and as many as a run without a proof makes in half a minute.
const CHANGES: u64 = 204_000;

#[test]
fn registry_rows(rt: HostRuntime) {
    on_bench(&rt, rt.alloc(), 4, CHANGES, Test::Changed);
}

/// An audit that is given CPU 0 alone; and changes until the history is full.
pub(crate) fn changed<D: Domain, R: Wait + Abort>(rt: &R, alloc: Global, bench: &mut Bench<D>) {
    assert!(rt; 1 <= bench.cpus.len());
    let missing = bench.registry.audit(rt, alloc, &mut bench.cpus[..1]);
    assert!(rt; matches!(missing, Err(Refusal::MissingCpu)));
    for round in 0..CHANGES / 2 {
        change(rt, bench, 2 * round + 1);
    }
    let full = Refused(Refusal::HistoryFull);
    bench.run(rt, "full", &[(By(0, Attach(VGA)), full)]);
}

/// One CPU attaches the driver with this number in slot 0, another one detaches it, and it is freed.
fn change<D: Domain, R: Wait + Abort>(rt: &R, bench: &mut Bench<D>, number: u64) {
    let steps = [
        (By(0, Attach(VGA)), At(number, 0)),
        (By(1, Detach(VGA)), At(number, 0)),
        (By(0, Advance(number)), Come(Stage::Freed(0))),
    ];
    bench.run(rt, "a change", &steps);
}

/// So many local references are held at once.
const AT_ONCE: u64 = 300;

/// CPU 0 is inside, and has found the driver.
const FOUND: &[(Step, Answer)] = &[
    (By(0, Attach(WM)), At(1, 0)),
    (Reads(0, Enter), Done),
    (Reads(0, Find(WM)), At(1, 0)),
];

/// CPU 0 leaves, and CPU 1 retires the driver.
const HELD: &[(Step, Answer)] = &[
    (Reads(0, Exit), Done),
    (By(1, Detach(WM)), At(1, 0)),
    (By(1, Advance(1)), Come(Stage::Local(AT_ONCE))),
];

#[test]
fn many_references(rt: HostRuntime) {
    on_bench(&rt, rt.alloc(), 1, 1000, Test::Counted);
}

/// A driver with very many local references.
pub(crate) fn counted<D: Domain, R: Wait + Abort>(rt: &R, bench: &mut Bench<D>) {
    bench.run(rt, "found", FOUND);
    hold(rt, bench, AT_ONCE);
    bench.run(
        rt,
        "not held",
        &[(By(1, Advance(1)), Come(Stage::Freed(0)))],
    );
}

/// CPU 0 acquires so many local references, one in this call and the others in those within it, and CPU 2 releases them again. Once all are held the
/// driver is retired.
fn hold<D: Domain, R: Wait + Abort>(rt: &R, bench: &mut Bench<D>, left: u64) {
    let mut refs = Held::nothing();
    bench.follow(rt, &mut refs, "one more", &[(Reads(0, Count), Done)]);
    if left > 1 {
        hold(rt, bench, left - 1);
    } else {
        bench.run(rt, "held", HELD);
    }
    bench.follow(rt, &mut refs, "one less", &[(Uncounts(2), Done)]);
    refs.end(rt);
}

#[test]
fn bad_settings(rt: HostRuntime) {
    for slots in [0, 33] {
        assert!(rt; matches!(blank(rt.alloc(), slots, 1000), Err(Refusal::BadSettings)));
    }
}

/// CPU 0 attaches the driver.
const ATTACHED: &[(Step, Answer)] = &[(By(0, Attach(WM)), At(1, 0))];

/// CPU 0 attaches the driver, and gets a passive reference to it.
const GOT: &[(Step, Answer)] = &[(By(0, Attach(WM)), At(1, 0)), (Gets(0, WM), Done)];

/// CPU 0 of another registry, which holds nothing, is shown the reference, and hands it back.
const SHOWN: &[(Step, Answer)] = &[
    (Reads(0, Reference), Names(0, 1)),
    (Reads(0, Read(WM)), Refused(Refusal::NotHeld)),
    (Reads(0, Holds), Is(false)),
    (Reads(0, Copy), Refused(Refusal::NotHeld)),
    (Reads(0, Release), Refused(Refusal::NotHeld)),
    (Reads(0, Reference), Names(0, 1)),
];

/// Its own CPU reads and releases it.
const READ: &[(Step, Answer)] = &[(Reads(0, Read(WM)), Done), (Reads(0, Release), Done)];

#[test]
fn reference_of_another_registry(rt: HostRuntime) -> Result<(), Fail> {
    let (here, there) = (blank(rt.alloc(), 2, 1000)?, blank(rt.alloc(), 2, 1000)?);
    shown_elsewhere::<Brand, Brand, _>(&rt, rt.alloc(), here, there);
    Ok(())
}

fn shown_elsewhere<D: Domain, E: Domain, R: Wait + Abort>(
    rt: &R,
    alloc: Global,
    here: Blank,
    there: Blank,
)
    requires here { IsBlankOf here D.table D.settings D.name D.parts }
    requires there { IsBlankOf there E.table E.settings E.name E.parts }
{
    let mut here = Bench::<D>::open(rt, alloc, here);
    let mut there = Bench::<E>::open(rt, alloc, there);
    show(rt, &mut here, &mut there);
}

/// The reference goes from the one registry to the other, and back.
fn show<D: Domain, E: Domain, R: Wait + Abort>(rt: &R, here: &mut Bench<D>, there: &mut Bench<E>) {
    let (mut refs, mut others) = (Held::nothing(), Held::nothing());
    here.follow(rt, &mut refs, "attached", ATTACHED);
    there.follow(rt, &mut others, "got", GOT);
    others.hand_passive(rt, &mut refs);
    here.follow(rt, &mut refs, "shown elsewhere", SHOWN);
    refs.hand_passive(rt, &mut others);
    there.follow(rt, &mut others, "read", READ);
    refs.end(rt);
    others.end(rt);
}
