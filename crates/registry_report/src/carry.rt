//! Commands, carried out by a session.

ghost use Rattle.std.specs.Prelude.{◌≡◌, IfErr, IfOk, IsTrue, OnOk, map, string_bytes, true};
ghost use Rattle.registry_values.specs.Common.{tally_shown};
ghost use Rattle.registry_report.specs.Lines.{audit_text, performed_line, section_line};
ghost use Rattle.registry_report.specs.Printed.{IsLineOf};
ghost use Rattle.registry_language.specs.Program.{suits};
ghost use Rattle.registry_report.specs.Registry.{Registry};
ghost use Rattle.registry_report.specs.Report.{after, text_of};

use super::lines::{
    attached, audited, destroyed, found, held, hitched, labelled, limited, opened, reading,
    retired, said, section, stage,
};
use super::session::Session;
use registry_language::{Command, RunFault};
use registry_values::Balance;
use std::alloc::Global;

/// The text of what a call of a session gave: the line that the function makes of the words and the answer, or why there is no answer.
macro_rules! say {
    ($alloc:ident, $given:expr => $line:ident $(, $word:expr)*) => {
        match $given {
            Ok(answer) => $line($alloc, $($word,)* answer),
            Err(hitch) => hitched($alloc, hitch),
        }
    };
}

/// Carries out a command, and gives its text: a line, or those of an audit.
pub fn carry_out<S: Session>(
    alloc: Global,
    session: &mut S,
    command: Command,
) -> Result<String, RunFault>
    requires { IsTrue (suits (S.settings (S.kept session.old)) command) }
    ensures kept { S.kept session.new ≡ S.kept session.old }
    ensures line { (r : Registry) → S.shows session.old r → IfOk result (λ text. string_bytes text ≡ text_of r command) }
    ensures shape { IfOk result (λ text. IsLineOf command (string_bytes text)) }
    ensures shows { (r : Registry) → S.shows session.old r → OnOk result (S.shows session.new (after r command)) }
    ensures memory { IfErr result (λ fault. fault ≡ RunFault.Memory) }
{
    match command {
        Command::Domain { cpus, slots } => opened(alloc, cpus, slots),
        Command::Limits {
            changes,
            sections,
            passive,
            count,
        } => limited(alloc, changes, sections, passive, count),
        Command::Attach { cpu, rec } => say!(alloc, session.attach(cpu, rec) => attached),
        Command::Plug { cpu, rec, label } => say!(alloc, session.plug(cpu, rec, label) => attached),
        Command::Detach { cpu, kind, name } =>
            say!(alloc, session.detach(cpu, kind, name) => retired),
        Command::Enter { cpu } => say!(alloc, session.enter(cpu) => entered),
        Command::Exit { cpu } => say!(alloc, session.exit(cpu) => section),
        Command::Find { cpu, kind, name } => say!(alloc, session.find(cpu, kind, name) => found),
        Command::Reference { cpu, label } =>
            say!(alloc, session.reference(cpu, label) => labelled, "ref", label),
        Command::Copy {
            cpu,
            source,
            target,
        } => say!(alloc, session.copy(cpu, source, target) => labelled, "ref", target),
        Command::Held { cpu, label } => say!(alloc, session.held(cpu, label) => held),
        Command::Read { cpu, label } => say!(alloc, session.read(cpu, label) => reading, "read"),
        Command::Release { cpu, label } =>
            say!(alloc, session.release(cpu, label) => labelled, "dropped", label),
        Command::Count { cpu, label } =>
            say!(alloc, session.count(cpu, label) => labelled, "count", label),
        Command::Peek { label } => say!(alloc, session.peek(label) => reading, "peek"),
        Command::Uncount { cpu, label } =>
            say!(alloc, session.uncount(cpu, label) => labelled, "uncounted", label),
        Command::Advance { number } => say!(alloc, session.advance(number) => stage, ""),
        Command::Destroy { cpu, number, turns } =>
            say!(alloc, session.destroy(cpu, number, turns) => destroyed),
        Command::Perform { cpu, turns } => say!(alloc, session.perform(cpu, turns) => performed),
        Command::Audit => say!(alloc, session.audit() => balanced),
    }
}

/// The CPU is inside its section.
fn entered(alloc: Global, _inside: ()) -> Result<String, RunFault>
    ensures line { IfOk result (λ text. string_bytes text ≡ section_line true) }
    ensures memory { IfErr result (λ fault. fault ≡ RunFault.Memory) }
{
    section(alloc, true)
}

/// The CPU has waited for all sections that were open.
fn performed(alloc: Global, _waited: ()) -> Result<String, RunFault>
    ensures line { IfOk result (λ text. string_bytes text ≡ performed_line) }
    ensures memory { IfErr result (λ fault. fault ≡ RunFault.Memory) }
{
    said(alloc, "performed")
}

/// The balances of an audit.
fn balanced(alloc: Global, balances: Vec<Balance>) -> Result<String, RunFault>
    ensures line { IfOk result (λ text. string_bytes text ≡ audit_text (map tally_shown balances.items)) }
    ensures memory { IfErr result (λ fault. fault ≡ RunFault.Memory) }
{
    audited(alloc, &balances)
}
