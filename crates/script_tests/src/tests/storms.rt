//! Storms: that the workers of all CPUs are at work at once, what is done in one, and that it tells what goes wrong in it. The program's tests compare
//! what it prints of some.

use registry_script::{Gate, OpenGate, StormDeeds, StormRun, StormSum, storm, storm_run};
use std::alloc::Global;
use std::sync::Wait;
use std::sync::atomic::{AtomicBool, AtomicU64, Ordering};
use std::test::*;
use std::thread;
use std::thread::Threads;

/// What a storm without a wrong answer counts.
fn calm(cpus: u8, turns: u32, lookups: u64, references: u64) -> StormSum {
    StormSum {
        cpus,
        turns,
        lookups,
        references,
        wrong: 0,
        held: 0,
    }
}

/// How often a worker looks before the gate lets go.
const PATIENCE: u32 = 100_000_000;

/// How many turns are met in.
const TURNS: u32 = 12;

/// A mark for each CPU, a digit of its own: the sum of all marks tells who has come, and how often.
const MARKS: [u64; 8] = [
    0x1,
    0x10,
    0x100,
    0x1000,
    0x1_0000,
    0x10_0000,
    0x100_0000,
    0x1000_0000,
];

/// A gate that holds each CPU inside its section of each turn until every CPU is inside its own section of that turn, told by its own number.
/// It lets go after some time, and tells that.
#[derive(Drop)]
struct Meetings {
    /// The marks of all CPUs of the storm together.
    all: u64,
    /// By turn, the marks of the CPUs that have come.
    come: [AtomicU64; 12],
    missed: AtomicBool,
}

impl Gate for Meetings {
    fn pass(&self, cpu: u8, turn: u32) {
        match (self.come.get(turn as usize), MARKS.get(cpu as usize)) {
            (Some(come), Some(mark)) => {
                come.fetch_add(*mark, Ordering::SeqCst);
                self.wait(come);
            }
            _ => self.missed.store(true, Ordering::SeqCst),
        }
    }
}

impl Meetings {
    /// Before the first turn of a storm of so many CPUs, 8 at most.
    fn new(cpus: u8) -> Meetings {
        let mut all = 0_u64;
        for mark in MARKS.iter().take(cpus as usize) {
            all = all.wrapping_add(*mark);
        }
        Meetings {
            all,
            come: [
                AtomicU64::new(0),
                AtomicU64::new(0),
                AtomicU64::new(0),
                AtomicU64::new(0),
                AtomicU64::new(0),
                AtomicU64::new(0),
                AtomicU64::new(0),
                AtomicU64::new(0),
                AtomicU64::new(0),
                AtomicU64::new(0),
                AtomicU64::new(0),
                AtomicU64::new(0),
            ],
            missed: AtomicBool::new(false),
        }
    }

    /// Waits until all have come to the turn. Once one CPU has waited too long nobody waits any more.
    fn wait(&self, come: &AtomicU64) {
        for _ in 0..PATIENCE {
            if come.load(Ordering::SeqCst) == self.all || self.missed.load(Ordering::SeqCst) {
                return;
            }
            thread::yield_now();
        }
        self.missed.store(true, Ordering::SeqCst);
    }

    /// Whether each CPU came once to each turn, and all were there at once.
    fn all_met(&self) -> bool {
        let each_once = self
            .come
            .iter()
            .all(|come| come.load(Ordering::SeqCst) == self.all);
        each_once && !self.missed.load(Ordering::SeqCst)
    }
}

/// Two, three and eight CPUs are inside at once in every turn, so none is idle, and none waits for another one's end.
#[test]
fn every_cpu_meets_in_every_turn(rt: HostRuntime) -> Result<(), Fail> {
    for (cpus, lookups, references) in [(2, 48, 24), (3, 72, 36), (8, 192, 96)] {
        let gate = Meetings::new(cpus);
        let sum = storm(&rt, rt.alloc(), cpus, TURNS, &gate);
        assert!(rt; gate.all_met());
        assert_eq!(rt; sum, Ok(calm(cpus, TURNS, lookups, references)));
    }
    Ok(())
}

/// The value of the driver that workers expect.
const EXPECTED: u64 = 7;

/// Storms of one CPU, where each number is exact. The interface is live in every second turn, and is freed as soon as it is detached,
/// and at the end with the driver. Each turn reads by two references, and no other CPU puts anything down. By turns: what is found,
/// attached, freed, read and handed over.
const ALONE: [(u32, [u64; 5]); 5] = [
    (1, [1, 1, 2, 2, 0]),
    (2, [1, 1, 2, 4, 0]),
    (3, [2, 2, 3, 6, 0]),
    (10, [5, 5, 6, 20, 0]),
    (1001, [501, 501, 502, 2002, 0]),
];

/// The numbers, in the order in which a row has them.
fn numbers(deeds: StormDeeds) -> [u64; 5] {
    let StormDeeds {
        found,
        attached,
        freed,
        read,
        handed,
    } = deeds;
    [found, attached, freed, read, handed]
}

#[test]
fn deeds_of_one_cpu(rt: HostRuntime) -> Result<(), Fail> {
    for (turns, wanted) in ALONE {
        let StormRun { sum, deeds } = storm_run(&rt, rt.alloc(), 1, turns, EXPECTED, &OpenGate)?;
        assert_eq!(rt; numbers(deeds), wanted);
        assert_eq!(rt;
            (sum.references, sum.wrong, sum.held),
            (u64::from(turns), 0, 0)
        );
    }
    Ok(())
}

/// Of many CPUs: each worker reads by two references a turn, some reference is handed over, and all that was attached is freed.
#[test]
fn deeds_of_many_cpus(rt: HostRuntime) -> Result<(), Fail> {
    for cpus in [2, 3, 8] {
        let StormRun { sum, deeds } = storm_run(&rt, rt.alloc(), cpus, 1000, EXPECTED, &OpenGate)?;
        assert_eq!(rt; (sum.wrong, sum.held), (0, 0));
        assert_eq!(rt; deeds.read, sum.lookups);
        assert!(rt; 1 <= deeds.handed && deeds.handed <= sum.references);
        assert!(rt; 1 <= deeds.attached && deeds.attached <= 500);
        assert_eq!(rt; deeds.freed.checked_sub(1), Some(deeds.attached));
        assert!(rt; deeds.found <= sum.references);
    }
    Ok(())
}

/// CPUs, turns, and the least and the greatest number of wrong answers where the driver isn't the one that workers expect: three of each
/// worker a turn, two of CPU 0 about the driver, and one of it before each attach of the interface.
const WRONG: [(u8, u32, u64, u64); 5] = [
    (1, 1, 6, 6),
    (1, 2, 9, 9),
    (1, 3, 13, 13),
    (2, 3, 22, 22),
    (8, 100, 2452, 2502),
];

#[test]
fn wrong_answers_are_told(rt: HostRuntime) -> Result<(), Fail> {
    for (cpus, turns, least, most) in WRONG {
        let StormRun { sum, .. } = storm_run(
            &rt,
            rt.alloc(),
            cpus,
            turns,
            EXPECTED + 1,
            &OpenGate,
        )?;
        assert!(rt; least <= sum.wrong && sum.wrong <= most);
        assert_eq!(rt; sum.held, 0);
    }
    Ok(())
}
