//! The run of a script: each command in order, and its line. The core carries the commands out, or any other session.

ghost use Rattle.std.specs.Prelude.{◌≡◌, IfErr, IfOk, IsTrue, OnErr, OnOk};
ghost use Rattle.std.specs.Io.KnownBytes.{Appends};
ghost use Rattle.std.specs.List.{list_all};
ghost use Rattle.protocol.specs.Common.{opening};
ghost use Rattle.registry_report.specs.Printed.{WritesFront, WritesRun, AppendsPrefix, IsWhileRunning};
ghost use Rattle.registry_language.specs.Program.{suits};
ghost use Rattle.registry_report.specs.Registry.{Registry};
ghost use Rattle.registry_report.specs.Report.{report, report_from};
ghost use Rattle.registry_report.specs.Session.{without_labels};

use crate::carry::carry_out;
use crate::core_session::CoreSession;
use crate::session::Session;
use passive_core::Core;
use registry_language::{Command, RunFault, Script};
use registry_values::Settings;
use std::alloc::Global;
use std::io::Write;

/// Runs a script over the core, and writes its report: the text of each command, in order.
pub fn run_core<W: Write>(alloc: Global, script: &Script, writer: &mut W) -> Result<(), RunFault>
    ensures ok { OnOk result (Appends (W.contents writer.old) (W.contents writer.new) (report script.now)) }
    ensures err { OnErr result (AppendsPrefix (W.contents writer.old) (W.contents writer.new) (report script.now)) }
    ensures fault { IfErr result IsWhileRunning }
{
    let mut session = session_for(alloc, script.settings())?;
    run_on(alloc, &mut session, script.commands(), writer)
}

/// A session over a new core with the settings of a script, which are fit.
fn session_for(alloc: Global, settings: Settings) -> Result<CoreSession, RunFault>
    ensures opening { IfOk result (λ session. session ≡ without_labels (opening settings)) }
    ensures fault { IfErr result (λ fault. fault ≡ RunFault.Memory) }
{
    match Core::new(alloc, settings) {
        Ok(core) => Ok(CoreSession::new(core)),
        Err(_) => Err(RunFault::Memory),
    }
}

/// Carries the commands of a script out, and writes the text of each, in order, and flushes the writer.
///
/// Where the session shows a registry, the texts are the report from there; over any session each text is one
/// that its command may print.
#[tactic(auto, using(crate::proofs::Written::all_of_it, crate::proofs::Written::flushed, crate::proofs::Written::on_err))]
pub fn run_on<S: Session, W: Write>(
    alloc: Global,
    session: &mut S,
    commands: &[Command],
    writer: &mut W,
) -> Result<(), RunFault>
    requires { IsTrue (list_all (suits (S.settings (S.kept session.old))) commands.now) }
    ensures kept { S.kept session.new ≡ S.kept session.old }
    ensures ok { (r : Registry) → S.shows session.old r → OnOk result (Appends (W.contents writer.old) (W.contents writer.new) (report_from r commands.now)) }
    ensures err { (r : Registry) → S.shows session.old r → OnErr result (AppendsPrefix (W.contents writer.old) (W.contents writer.new) (report_from r commands.now)) }
    ensures run { OnOk result (WritesRun (W.contents writer.old) (W.contents writer.new) commands.now) }
    ensures front { OnErr result (WritesFront (W.contents writer.old) (W.contents writer.new) commands.now) }
    ensures fault { IfErr result IsWhileRunning }
{
    run_commands(alloc, session, commands, writer)?;
    writer.flush().map_err(|_| RunFault::Write)
}

/// Carries the commands out, and writes the text of each.
fn run_commands<S: Session, W: Write>(
    alloc: Global,
    session: &mut S,
    commands: &[Command],
    writer: &mut W,
) -> Result<(), RunFault>
    requires { IsTrue (list_all (suits (S.settings (S.kept session.old))) commands.now) }
    ensures kept { S.kept session.new ≡ S.kept session.old }
    ensures ok { (r : Registry) → S.shows session.old r → OnOk result (Appends (W.contents writer.old) (W.contents writer.new) (report_from r commands.now)) }
    ensures err { (r : Registry) → S.shows session.old r → OnErr result (AppendsPrefix (W.contents writer.old) (W.contents writer.new) (report_from r commands.now)) }
    ensures run { OnOk result (WritesRun (W.contents writer.old) (W.contents writer.new) commands.now) }
    ensures front { OnErr result (WritesFront (W.contents writer.old) (W.contents writer.new) commands.now) }
    ensures fault { IfErr result IsWhileRunning }
{
    for command in commands {
        let text = carry_out(alloc, session, *command)?;
        write_text(writer, text.as_bytes())?;
    }
    Ok(())
}

/// Writes all of the text. An interrupted write is a fault too, and so is one that takes no bytes.
pub fn write_text<W: Write>(writer: &mut W, text: &[u8]) -> Result<(), RunFault>
    ensures ok { OnOk result (Appends (W.contents writer.old) (W.contents writer.new) text.now) }
    ensures err { OnErr result (AppendsPrefix (W.contents writer.old) (W.contents writer.new) text.now) }
    ensures fault { IfErr result (λ fault. fault ≡ RunFault.Write) }
{
    let mut rest = text;
    while !rest.is_empty() {
        match writer.write(rest) {
            Ok(0) | Err(_) => return Err(RunFault::Write),
            Ok(n) => rest = &rest[n..],
        }
    }
    Ok(())
}
