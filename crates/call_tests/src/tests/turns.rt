//! Calls in several turns, or made again and again, while another thread leaves its section and begins another one in the middle of them.

ghost use Rattle.std.specs.Thread.{IsSync};

use super::answers::Answer::{self, At, Come, Done, Nothing, Number, Refused};
use super::answers::{DRIVER_WM1, VGA, WM};
use super::bench::Call::{self, Advance, Attach, Destroy, Detach, Perform};
use super::bench::Step::{self, By, Reads};
use super::bench::{Bench, Test, by_cpu, on_bench};
use super::readers::Reader::Enter;
use super::readers::exited;
use cpu_words::Domain;
use name_registry::Registry;
use passive_list::{Cpu, enter};
use registry_values::{Refusal, Stage};
use std::alloc::Global;
use std::process::Abort;
use std::sync::Wait;
use std::sync::atomic::{AtomicBool, Ordering};
use std::test::*;
use std::thread::{Threads, join, yield_now};

/// More turns, or calls, than are made while the section is open.
const TURNS: u32 = 100_000_000;

/// How often CPU 1 lets others run before it leaves its section: long enough for the first turn.
const YIELDS: u32 = 2_000;

/// So often another thread takes the lock while a wait goes on.
const MEANWHILE: u32 = 250_000;

/// CPU 1 is inside as CPU 0 retires the entry 2, in slot 1.
const RETIRED: &[(Step, Answer)] = &[
    (By(0, Attach(WM)), At(1, 0)),
    (By(0, Attach(VGA)), At(2, 1)),
    (Reads(1, Enter), Done),
    (By(0, Detach(VGA)), At(2, 1)),
];

/// What CPU 0 does.
#[derive(Clone, Copy)]
enum First {
    /// It repeats this call until the entry 2 has lost its slot.
    Insist(Call),
    /// It performs while CPU 1 is inside, and once more as that leaves.
    PerformTwice,
}

/// What another thread does meanwhile.
#[derive(Clone, Copy)]
enum Other {
    /// CPU 1 ends its section and begins another one, which nobody waits for. Then it advances the entry 2, if it is to.
    ChangeSection(bool),
    /// CPU 2 makes this call so many times, and CPU 1 exits only then.
    CallAndLeave(u32, Call),
    /// CPU 1 enters a section, and leaves it once CPU 0 was refused.
    StayInside,
}

/// What two threads do with a registry of their own.
pub(crate) struct Row {
    name: &'static str,
    slots: u8,
    /// What comes before.
    steps: &'static [(Step, Answer)],
    first: First,
    other: Other,
    /// What CPU 0 answers, what the other thread does, and what an advance of the entry 2 does then.
    answers: (Answer, Answer, Answer),
}

/// A section that was open as the entry was retired ends in the middle of a call.
const SECTIONS: &[Row] = &[
    Row {
        name: "perform",
        slots: 2,
        steps: RETIRED,
        first: First::Insist(Perform(TURNS)),
        other: Other::ChangeSection(false),
        answers: (Done, Nothing, Come(Stage::Freed(1))),
    },
    Row {
        name: "destroy",
        slots: 2,
        steps: RETIRED,
        first: First::Insist(Destroy(2, TURNS)),
        other: Other::ChangeSection(false),
        answers: (Number(1), Nothing, Refused(Refusal::NotRetired)),
    },
    Row {
        name: "advance",
        slots: 2,
        steps: RETIRED,
        first: First::Insist(Advance(2)),
        other: Other::ChangeSection(false),
        answers: (Come(Stage::Freed(1)), Nothing, Refused(Refusal::NotRetired)),
    },
    Row {
        name: "attach",
        slots: 2,
        steps: RETIRED,
        first: First::Insist(Attach(DRIVER_WM1)),
        other: Other::ChangeSection(true),
        answers: (At(4, 1), Nothing, Refused(Refusal::NotRetired)),
    },
];

#[test]
fn a_section_ends_in_the_middle_of_a_call(rt: HostRuntime) {
    run_rows(&rt, rt.alloc(), SECTIONS);
}

/// Calls that wait for CPU 1, which exits only once CPU 2 has got the lock: a call that held it over all its turns would wait for itself.
const LOCKS: &[Row] = &[
    Row {
        name: "the lock between two turns of a perform",
        slots: 3,
        steps: RETIRED,
        first: First::Insist(Perform(TURNS)),
        other: Other::CallAndLeave(1, Attach(DRIVER_WM1)),
        answers: (Done, At(4, 2), Come(Stage::Freed(1))),
    },
    Row {
        name: "the lock between two turns of a destroy",
        slots: 3,
        steps: RETIRED,
        first: First::Insist(Destroy(2, TURNS)),
        other: Other::CallAndLeave(1, Attach(DRIVER_WM1)),
        answers: (Number(1), At(4, 2), Refused(Refusal::NotRetired)),
    },
];

#[test]
fn the_lock_is_free_between_two_turns(rt: HostRuntime) {
    run_rows(&rt, rt.alloc(), LOCKS);
}

/// The wait goes on while CPU 2 takes the lock very often, and sees each time that CPU 1 is inside.
const LONG: &[Row] = &[Row {
    name: "a wait of very many turns",
    slots: 2,
    steps: RETIRED,
    first: First::Insist(Destroy(2, TURNS)),
    other: Other::CallAndLeave(MEANWHILE, Advance(2)),
    answers: (
        Number(1),
        Come(Stage::Grace(1)),
        Refused(Refusal::NotRetired),
    ),
}];

#[test]
fn a_wait_goes_on(rt: HostRuntime) {
    run_rows(&rt, rt.alloc(), LONG);
}

/// How often destroys of one turn are repeated while a section ends.
const TRIES: u32 = 30;

/// Destroys of one turn each, until one frees the entry: none before frees it, and says that it is still held.
const ONE_TURN: &[Row] = &[Row {
    name: "destroys of one turn",
    slots: 2,
    steps: RETIRED,
    first: First::Insist(Destroy(2, 1)),
    other: Other::ChangeSection(false),
    answers: (Number(1), Nothing, Refused(Refusal::NotRetired)),
}];

#[test]
fn a_destroy_makes_no_turn_more(rt: HostRuntime) {
    for _ in 0..TRIES {
        run_rows(&rt, rt.alloc(), ONE_TURN);
    }
}

/// CPU 1 enters a section on its own thread, and sets a flag that no note goes with. CPU 0 sees the flag and performs: the section was open as
/// that call began, so it is waited for.
const FLAGS: &[Row] = &[Row {
    name: "a flag alone",
    slots: 2,
    steps: &[],
    first: First::PerformTwice,
    other: Other::StayInside,
    answers: (Done, Nothing, Refused(Refusal::NotRetired)),
}];

#[test]
fn a_section_known_by_a_flag_alone_is_waited_for(rt: HostRuntime) {
    run_rows(&rt, rt.alloc(), FLAGS);
}

/// Runs each row on a registry of its own.
fn run_rows<R: Threads + Wait + Abort + Sync>(rt: &R, alloc: Global, rows: &[Row]) {
    for row in rows {
        on_bench(rt, alloc, row.slots, 1000, Test::Together(row));
    }
}

/// CPU 0 and the other thread do what the row says at the same time.
pub(crate) fn together<D: Domain + Send + Sync, R: Threads + Wait + Abort + Sync>(
    rt: &R,
    bench: &mut Bench<D>,
    row: &Row,
) {
    bench.run(rt, row.name, row.steps);
    let registry = &bench.registry;
    let [first, second, third] = bench.cpus.as_mut_slice() else {
        panic!(rt; "three CPUs");
    };
    let (answer, meanwhile) = answers_of(rt, registry, first, second, third, row);
    let after = by_cpu(rt, registry, first, Advance(2));
    assert!(rt;
        (answer, meanwhile, after) == row.answers,
        "at {}",
        row.name
    );
}

/// What CPU 0 answers, and what the other thread does.
fn answers_of<D: Domain + Send + Sync, R: Threads + Wait + Abort + Sync>(
    rt: &R,
    registry: &Registry<D>,
    cpu: &mut Cpu<D>,
    second: &mut Cpu<D>,
    third: &mut Cpu<D>,
    row: &Row,
) -> (Answer, Answer) {
    let (first, other) = (row.first, row.other);
    let flags = (&AtomicBool::new(false), &AtomicBool::new(false));
    join(
        rt,
        move || -> Answer
            requires { IsSync R.row }
        { by_first(rt, registry, cpu, first, flags) },
        move || -> Answer
            requires { IsSync R.row }
        { by_other(rt, registry, second, third, other, flags) },
    )
}

/// What CPU 0 does, with two flags that the threads share.
fn by_first<D: Domain, R: Wait + Abort>(
    rt: &R,
    registry: &Registry<D>,
    cpu: &mut Cpu<D>,
    first: First,
    flags: (&AtomicBool, &AtomicBool),
) -> Answer {
    match first {
        First::Insist(call) => insist(rt, registry, cpu, call, flags.0),
        First::PerformTwice => perform_twice(rt, registry, cpu, flags.0, flags.1),
    }
}

/// What the other thread does with CPU 1 and CPU 2.
fn by_other<D: Domain, R: Wait + Abort>(
    rt: &R,
    registry: &Registry<D>,
    second: &mut Cpu<D>,
    third: &mut Cpu<D>,
    other: Other,
    flags: (&AtomicBool, &AtomicBool),
) -> Answer {
    match other {
        Other::ChangeSection(frees) => change_section(rt, registry, second, frees, flags.0),
        Other::CallAndLeave(times, call) => {
            let answer = call_once_begun(rt, registry, third, times, call, flags.0);
            exited(rt, registry.words(), second);
            answer
        }
        Other::StayInside => stay_inside(rt, registry, second, flags.0, flags.1),
    }
}

/// Once the first flag is set the CPU performs with three turns, in which nobody leaves, and is refused. It sets the second flag, and performs until
/// the section has ended.
fn perform_twice<D: Domain, R: Wait + Abort>(
    rt: &R,
    registry: &Registry<D>,
    cpu: &mut Cpu<D>,
    inside: &AtomicBool,
    refused: &AtomicBool,
) -> Answer {
    wait_for(inside);
    let first = by_cpu(rt, registry, cpu, Perform(3));
    assert!(rt; first == Refused(Refusal::Waiting(1)));
    refused.store(true, Ordering::SeqCst);
    by_cpu(rt, registry, cpu, Perform(TURNS))
}

/// Enters a section, sets the first flag, and leaves once the second one is set.
fn stay_inside<D: Domain, R: Abort>(
    rt: &R,
    registry: &Registry<D>,
    cpu: &mut Cpu<D>,
    inside: &AtomicBool,
    refused: &AtomicBool,
) -> Answer {
    let _entered = enter(registry.words(), cpu);
    inside.store(true, Ordering::SeqCst);
    wait_for(refused);
    exited(rt, registry.words(), cpu);
    Nothing
}

/// Waits until the flag is set, and a while longer; then the CPU makes the call so many times. Returns what the last one did.
fn call_once_begun<D: Domain, R: Wait + Abort>(
    rt: &R,
    registry: &Registry<D>,
    cpu: &mut Cpu<D>,
    times: u32,
    call: Call,
    begun: &AtomicBool,
) -> Answer {
    wait_for(begun);
    let mut answer = Nothing;
    for _ in 0..times {
        answer = by_cpu(rt, registry, cpu, call);
        yield_now();
    }
    answer
}

/// Lets others run until the flag is set, and a while longer: long enough for the first turn.
fn wait_for(begun: &AtomicBool) {
    let mut left = YIELDS;
    for _ in 0..TURNS {
        if left == 0 {
            break;
        }
        if begun.load(Ordering::SeqCst) {
            left -= 1;
        }
        yield_now();
    }
}

/// Sets the flag, and repeats the call until the entry has lost its slot. Returns what the last one did.
fn insist<D: Domain, R: Wait + Abort>(
    rt: &R,
    registry: &Registry<D>,
    cpu: &mut Cpu<D>,
    call: Call,
    begun: &AtomicBool,
) -> Answer {
    begun.store(true, Ordering::SeqCst);
    for _ in 0..TURNS {
        let answer = by_cpu(rt, registry, cpu, call);
        if !is_in_vain(answer) {
            return answer;
        }
        yield_now();
    }
    Nothing
}

/// Whether the entry still has its slot.
fn is_in_vain(answer: Answer) -> bool {
    answer == Refused(Refusal::NoSlot)
        || answer == Refused(Refusal::StillHeld(Stage::Grace(1)))
        || answer == Come(Stage::Grace(1))
}

/// Waits until the flag is set, and a while longer; then the CPU ends its section and begins another one.
fn change_section<D: Domain, R: Wait + Abort>(
    rt: &R,
    registry: &Registry<D>,
    cpu: &mut Cpu<D>,
    frees: bool,
    begun: &AtomicBool,
) -> Answer {
    wait_for(begun);
    exited(rt, registry.words(), cpu);
    let _again = enter(registry.words(), cpu);
    if frees {
        let _stage = by_cpu(rt, registry, cpu, Advance(2));
    }
    Nothing
}
