//! Out of memory: a blank that can't be opened comes back and opens then. After a refused audit the registry is as before.
//!
//! With ample memory these tests compare answers only. `tools/refuse-memory.sh` refuses each of their allocations in turn; each refusal
//! that is met is noted on standard error.

ghost use Rattle.name_registry.specs.Common.{IsBlankOf};

use super::answers::Answer::{self, At, Done};
use super::answers::{VGA, WM};
use super::bench::Call::Attach;
use super::bench::Step::{self, By, Reads, Uncounts};
use super::bench::{Bench, blank};
use super::readers::Held;
use super::readers::Reader::{Count, Enter, Exit, Find};
use cpu_words::Domain;
use name_registry::Blank;
use registry_values::{Balance, Refusal};
use std::alloc::Global;
use std::marker::Brand;
use std::process::Abort;
use std::sync::Wait;
use std::test::*;

/// CPU 0 attaches two drivers, and acquires a local reference to the second.
const COUNTED: &[(Step, Answer)] = &[
    (By(0, Attach(WM)), At(1, 0)),
    (By(0, Attach(VGA)), At(2, 1)),
    (Reads(0, Enter), Done),
    (Reads(0, Find(VGA)), At(2, 1)),
    (Reads(0, Count), Done),
    (Reads(0, Exit), Done),
];

/// The registry is as before: CPU 1 finds the second driver.
const AS_BEFORE: &[(Step, Answer)] = &[
    (Reads(1, Enter), Done),
    (Reads(1, Find(VGA)), At(2, 1)),
    (Reads(1, Exit), Done),
];

/// CPU 1 releases the local reference.
const RELEASED: &[(Step, Answer)] = &[(Uncounts(1), Done)];

fn note(rt: &(impl Abort + Eprint), what: &str) {
    assert!(rt; eprintln!(rt; "refused memory: {what}").is_ok());
}

/// A blank; where memory is refused, it is made once more.
fn made(rt: &(impl Abort + Eprint), alloc: Global) -> Result<Blank, Refusal> {
    match blank(alloc, 2, 1000) {
        Err(Refusal::NoMemory) => {
            note(rt, "Blank::new");
            blank(alloc, 2, 1000)
        }
        answer => answer,
    }
}

/// The open registry; where memory is refused, the blank that comes back is opened.
fn opened<D: Domain, R: Abort + Eprint>(rt: &R, alloc: Global, blank: Blank) -> Bench<D>
    requires { IsBlankOf blank D.table D.settings D.name D.parts }
{
    match blank.open::<D>(alloc) {
        Ok((registry, cpus)) => Bench { registry, cpus },
        Err((refusal, back)) => {
            assert!(rt; refusal == Refusal::NoMemory);
            note(rt, "Blank::open");
            Bench::open(rt, alloc, back)
        }
    }
}

#[test]
fn open_and_audit(rt: HostRuntime) -> Result<(), Fail> {
    let list = audited_again::<Brand, _>(&rt, rt.alloc(), made(&rt, rt.alloc())?)?;
    assert!(rt; are_counted(&list));
    Ok(())
}

/// Audits two drivers, one with a local reference.
fn audited_again<D: Domain, R: Wait + Abort + Eprint>(
    rt: &R,
    alloc: Global,
    blank: Blank,
) -> Result<Vec<Balance>, Refusal>
    requires { IsBlankOf blank D.table D.settings D.name D.parts }
{
    let mut bench = opened::<D, _>(rt, alloc, blank);
    let mut refs = Held::nothing();
    bench.follow(rt, &mut refs, "audit", COUNTED);
    let list = audited(rt, alloc, &mut bench, &mut refs);
    bench.follow(rt, &mut refs, "audit, released", RELEASED);
    refs.end(rt);
    list
}

/// Whether the list has the two drivers, and the one local reference.
fn are_counted(list: &[Balance]) -> bool {
    match list {
        [first, second] => is_counted(first, 1, 0, 0) && is_counted(second, 2, 1, 1),
        _ => false,
    }
}

/// Whether so many local references are held, all acquired by CPU 0.
fn is_counted(balance: &Balance, number: u64, slot: u8, held: i64) -> bool {
    (balance.number, balance.slot) == (number, slot)
        && (balance.held, balance.total) == (held, 0)
        && balance.locals.as_slice() == [held, 0, 0].as_slice()
}

/// Audits, again if memory was refused; in between the registry is as before.
fn audited<D: Domain, R: Wait + Abort + Eprint>(
    rt: &R,
    alloc: Global,
    bench: &mut Bench<D>,
    refs: &mut Held<D>,
) -> Result<Vec<Balance>, Refusal> {
    match bench.registry.audit(rt, alloc, &mut bench.cpus) {
        Err(Refusal::NoMemory) => {
            note(rt, "Registry::audit");
            bench.follow(rt, refs, "audit, refused memory", AS_BEFORE);
            bench.registry.audit(rt, alloc, &mut bench.cpus)
        }
        answer => answer,
    }
}
