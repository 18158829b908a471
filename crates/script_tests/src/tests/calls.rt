//! Calls of the runs on parsed scripts: the row found, and what a run leaves on a registry that the test made.

ghost use Rattle.std.specs.Prelude.{◌≡◌, IfOk};
ghost use Rattle.name_registry.specs.Common.{AreAllCpus, IsBlankOf};

use super::lines;
use super::streams::Sips;
use cpu_words::Domain;
use name_registry::{Blank, Registry};
use passive_list::{Cpu, exit};
use registry_script::{RunFault, Script, parse_script, run_core, run_live, run_live_on};
use registry_values::{Entry, Kind, Name, Record, Refusal, Stage};
use std::alloc::Global;
use std::io::ErrorKind;
use std::marker::Brand;
use std::process::Abort;
use std::sync::Wait;
use std::test::Fail;

#[test]
fn found(rt: HostRuntime) -> Result<(), Fail> {
    let text = lines(
        rt.alloc(),
        "domain 2 2; attach 0 driver wm0 1500; enter 0; find 0 driver wm0",
    )?;
    let report = lines(
        rt.alloc(),
        "domain 2 2; attached 1 slot 0; inside; found 1 slot 0 value 1500",
    )?;
    let script = parse_script(rt.alloc(), &text)?;
    let (mut by_core, mut by_live) = (Vec::new(rt.alloc()), Vec::new(rt.alloc()));
    let core = run_core(rt.alloc(), &script, &mut by_core);
    let live = run_live(&rt, rt.alloc(), &script, &mut by_live);
    assert!(rt; core == Ok(()) && by_core == report, "by the core");
    assert!(rt; live == Ok(()) && by_live == report, "by the live engine");
    Ok(())
}

/// The test attaches the driver wm with value 7 by CPU 0: number 1 in slot 0.
fn attach_wm<D: Domain, R: Wait>(
    rt: &R,
    registry: &Registry<D>,
    cpus: &mut [Cpu<D>],
) -> Result<(), Fail>
    requires cpus { AreAllCpus D.settings.cpus cpus.old }
    ensures cpus { IfOk result (λ _. AreAllCpus D.settings.cpus cpus.new) }
{
    let rec = Record {
        kind: Kind::Driver,
        name: Name::parse(b"wm".as_slice())?,
        value: 7,
    };
    if cpus.len() < 2 {
        return Err(Fail::from("two CPUs"));
    }
    let cpu = &mut cpus[0];
    registry.attach(rt, cpu, rec)?;
    Ok(())
}

/// A script, run on a registry in which wm is attached; what is written before the writer fails, or whole where it doesn't; what an advance
/// of wm answers afterwards, once it is detached.
type Row = (&'static str, &'static str, Result<(), RunFault>, Stage);

/// Scripts that find wm attached, hold references to it at their end, and detach it. The first is the row of the call tests; then the first
/// and the last label, a reference of another CPU, one whose count is collected, and references of far CPUs by all labels.
const AT_THE_END: &[Row] = &[
    (
        HOLDING,
        "domain 2 2; inside; found 1 slot 0 value 7; ref a 1; count x 1; outside; retired 1 slot 0",
        Ok(()),
        Stage::Freed(0),
    ),
    (
        "domain 2 2; enter 0; find 0 driver wm; ref 0 a; copy 0 a z; count 0 a; count 0 z; exit 0; detach 0 driver wm",
        "domain 2 2; inside; found 1 slot 0 value 7; ref a 1; ref z 1; count a 1; count z 1; outside; retired 1 slot 0",
        Ok(()),
        Stage::Freed(0),
    ),
    (
        "domain 2 2; enter 1; find 1 driver wm; ref 1 b; exit 1; detach 0 driver wm; advance 1",
        "domain 2 2; inside; found 1 slot 0 value 7; ref b 1; outside; retired 1 slot 0; passive cpu 1",
        Ok(()),
        Stage::Freed(0),
    ),
    (
        "domain 2 2; enter 1; find 1 driver wm; count 1 x; exit 1; detach 0 driver wm; advance 1",
        "domain 2 2; inside; found 1 slot 0 value 7; count x 1; outside; retired 1 slot 0; local 1",
        Ok(()),
        Stage::Freed(0),
    ),
    (
        "domain 8 32; enter 7; find 7 driver wm; ref 7 z; exit 7; detach 0 driver wm; advance 1",
        "domain 8 32; inside; found 1 slot 0 value 7; ref z 1; outside; retired 1 slot 0; passive cpu 7",
        Ok(()),
        Stage::Freed(0),
    ),
    (
        "domain 8 32; enter 7; find 7 driver wm; count 7 z; exit 7; detach 0 driver wm; advance 1",
        "domain 8 32; inside; found 1 slot 0 value 7; count z 1; outside; retired 1 slot 0; local 1",
        Ok(()),
        Stage::Freed(0),
    ),
    (
        "domain 3 2; enter 2; find 2 driver wm; ref 2 a; ref 2 m; ref 2 y; count 2 b; count 2 n; count 2 y; exit 2; detach 0 driver wm; advance 1",
        "domain 3 2; inside; found 1 slot 0 value 7; ref a 1; ref m 1; ref y 1; count b 1; count n 1; count y 1; outside; retired 1 slot 0; passive cpu 2",
        Ok(()),
        Stage::Freed(0),
    ),
];

const HOLDING: &str =
    "domain 2 2; enter 0; find 0 driver wm; ref 0 a; count 0 x; exit 0; detach 0 driver wm";

/// It holds both references, and has left the section.
const AFTER_A_FAULT: &[Row] = &[(
    HOLDING,
    "domain 2 2; inside; found 1 slot 0 value 7; ref a 1; count x 1",
    Err(RunFault::Write),
    Stage::Freed(0),
)];

/// It holds both references inside its section.
const INSIDE: &[Row] = &[(
    HOLDING,
    "domain 2 2; inside; found 1 slot 0 value 7; ref a 1",
    Err(RunFault::Write),
    Stage::Grace(0),
)];

#[test]
fn references_are_given_back_at_the_end(rt: HostRuntime) -> Result<(), Fail> {
    run_rows(&rt, rt.alloc(), AT_THE_END)
}

#[test]
fn references_are_given_back_after_a_fault(rt: HostRuntime) -> Result<(), Fail> {
    run_rows(&rt, rt.alloc(), AFTER_A_FAULT)
}

#[test]
fn an_open_section_stays_open_after_a_fault(rt: HostRuntime) -> Result<(), Fail> {
    run_rows(&rt, rt.alloc(), INSIDE)
}

fn run_rows<R: Wait + Abort>(rt: &R, alloc: Global, rows: &[Row]) -> Result<(), Fail> {
    for row in rows {
        let script = parse_script(alloc, &lines(alloc, row.0)?)?;
        let blank = Blank::new(alloc, script.settings())?;
        run_row::<Brand, _>(rt, alloc, blank, &script, row)?;
    }
    Ok(())
}

fn run_row<D: Domain, R: Wait + Abort>(
    rt: &R,
    alloc: Global,
    blank: Blank,
    script: &Script,
    row: &Row,
) -> Result<(), Fail>
    requires table { IsBlankOf blank D.table D.settings D.name D.parts }
    requires settings { script.now.settings ≡ D.settings }
{
    let Ok((registry, mut cpus)) = blank.open::<D>(alloc) else {
        return Err(Fail::from("an open registry"));
    };
    run_on(rt, alloc, &registry, &mut cpus, script, row)
}

fn run_on<D: Domain, R: Wait + Abort>(
    rt: &R,
    alloc: Global,
    registry: &Registry<D>,
    cpus: &mut [Cpu<D>],
    script: &Script,
    row: &Row,
) -> Result<(), Fail>
    requires settings { script.now.settings ≡ D.settings }
    requires cpus { AreAllCpus D.settings.cpus cpus.old }
{
    let (_, report, end, stage) = row;
    let report = lines(alloc, report)?;
    attach_wm(rt, registry, cpus)?;
    let ending = match end {
        Ok(()) => usize::MAX,
        Err(_) => report.len(),
    };
    let mut writer = Sips::until(alloc, ending, Some(ErrorKind::Interrupted));
    let ended = run_live_on(rt, alloc, registry, cpus, script, &mut writer);
    assert!(rt;
        ended == *end && writer.taken == report,
        "what is written, and the end"
    );
    let [first, second, ..] = cpus else {
        return Err(Fail::from("two CPUs"));
    };
    is_seen_off(rt, registry, first, second, end.is_ok(), *stage)
}

/// CPU 1 detaches wm where the script hasn't; nobody holds it by a reference, and CPU 0 may hold it by its section, until it exits.
fn is_seen_off<D: Domain, R: Wait + Abort>(
    rt: &R,
    registry: &Registry<D>,
    first: &mut Cpu<D>,
    second: &mut Cpu<D>,
    is_detached: bool,
    stage: Stage,
) -> Result<(), Fail> {
    let name = Name::parse(b"wm".as_slice())?;
    let detached = registry.detach(rt, second, Kind::Driver, &name);
    assert!(rt; detached.is_err() == is_detached, "detached once");
    let advanced = registry.advance(rt, 1);
    assert!(rt; advanced == Ok(stage), "the first stage");
    if first.inside() {
        exit(registry.words(), first);
        let advanced = registry.advance(rt, 1);
        assert!(rt;
            advanced == Ok(Stage::Freed(0)),
            "freed once CPU 0 is outside"
        );
    }
    Ok(())
}
