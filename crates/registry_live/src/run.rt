//! The run of a script over a registry that is running: one made for it, or one that is there already.

ghost use Rattle.std.specs.Prelude.{◌≡◌, IfErr, OnErr, OnOk};
ghost use Rattle.name_registry.specs.Common.{AreAllCpus, IsBlankOf};
ghost use Rattle.registry_report.specs.Common.{WritesFront, WritesRun, IsWhileRunning};
ghost use Rattle.registry_live.specs.{HoldTheSame};

use crate::session::LiveSession;
use cpu_words::Domain;
use name_registry::{Blank, Registry};
use passive_list::Cpu;
use registry_language::{RunFault, Script};
use registry_report::run_on;
use std::alloc::Global;
use std::io::Write;
use std::marker::Brand;
use std::sync::Wait;

/// Runs a script over a new registry of its own, and writes the text of each command, in order.
/// Refused: `Memory` if the registry couldn't be made, and nothing was written; `Memory` or `Write` in a run, and a front of the report was
/// written.
pub fn run_live<R: Wait, W: Write>(
    rt: &R,
    alloc: Global,
    script: &Script,
    writer: &mut W,
) -> Result<(), RunFault>
    ensures run { OnOk result (WritesRun (W.contents writer.old) (W.contents writer.new) script.now.commands) }
    ensures front { OnErr result (WritesFront (W.contents writer.old) (W.contents writer.new) script.now.commands) }
    ensures fault { IfErr result IsWhileRunning }
{
    match Blank::new(alloc, script.settings()) {
        Ok(blank) => run_on_blank::<Brand, R, W>(rt, alloc, blank, script, writer),
        Err(_) => Err(RunFault::Memory),
    }
}

/// Opens the registry, and runs the script over it.
fn run_on_blank<D: Domain, R: Wait, W: Write>(
    rt: &R,
    alloc: Global,
    blank: Blank,
    script: &Script,
    writer: &mut W,
) -> Result<(), RunFault>
    requires table { IsBlankOf blank D.table D.settings D.name D.parts }
    requires settings { script.now.settings ≡ D.settings }
    ensures run { OnOk result (WritesRun (W.contents writer.old) (W.contents writer.new) script.now.commands) }
    ensures front { OnErr result (WritesFront (W.contents writer.old) (W.contents writer.new) script.now.commands) }
    ensures fault { IfErr result IsWhileRunning }
{
    match blank.open::<D>(alloc) {
        Ok((registry, mut cpus)) => run_live_on(rt, alloc, &registry, &mut cpus, script, writer),
        Err(_) => Err(RunFault::Memory),
    }
}

/// Runs a script over a registry that others may use too, and writes the text of each command, in order.
///
/// At the end, and after a fault, it releases all references that the run still holds, and prints nothing for them. Each CPU then holds the
/// passive references that it held before. A local reference of a label is released on CPU 0, or the keeper gives it up; the session's
/// `give_back` says which. An open section stays open.
///
/// Refused: `Memory` or `Write`, and a front of the report was written.
/// Condition: the registry has the script's settings, and the slice is all its CPUs in order; so it is afterwards.
pub fn run_live_on<D: Domain, R: Wait, W: Write>(
    rt: &R,
    alloc: Global,
    registry: &Registry<D>,
    cpus: &mut [Cpu<D>],
    script: &Script,
    writer: &mut W,
) -> Result<(), RunFault>
    requires settings { script.now.settings ≡ D.settings }
    requires cpus { AreAllCpus D.settings.cpus cpus.old }
    ensures cpus { AreAllCpus D.settings.cpus cpus.new }
    ensures references { HoldTheSame cpus.old cpus.new }
    ensures run { OnOk result (WritesRun (W.contents writer.old) (W.contents writer.new) script.now.commands) }
    ensures front { OnErr result (WritesFront (W.contents writer.old) (W.contents writer.new) script.now.commands) }
    ensures fault { IfErr result IsWhileRunning }
{
    let mut session = LiveSession::new(rt, alloc, registry, cpus);
    let ended = run_on(alloc, &mut session, script.commands(), writer);
    session.give_back();
    ended
}
