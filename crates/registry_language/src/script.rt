//! A script, and how it grows line by line.

ghost use Rattle.std.specs.Prelude.{◌≡◌, ◌+◌, ◌<◌, ◌≤◌, IfOk, IfErr, OnErr, IsTrue, Some, Ok, length, map};
ghost use Rattle.std.specs.List.{list_all};
ghost use Rattle.registry_values.specs.Common.{are_usual};
ghost use Rattle.registry_language.specs.Program.{Program, ProgramDraft, empty_draft, suits, may_follow, with_command, LineTakes, ParseGives};
ghost use Rattle.registry_language.specs.Grammar.{line_of, draft_of_lines, program_of_draft, program_of_bytes};

use super::command::Command;
use super::fault::{Cause, LineFault, ParseFault, ScriptFault};
use super::parse::line;
use super::position::Position;
use super::words::lines;
use registry_values::Settings;
use std::alloc::Global;
use std::marker::Model;

/// A script without a fault.
#[derive(Drop)]
pub struct Script {
    settings: Settings,
    commands: Vec<Command>,
}

impl Model for Script {
    ghost use Rattle.registry_language.specs.Program.{Program, IsProgram};

    ghost Value = { Program };

    ghost view = { λ a. record { settings = a.settings; commands = a.commands.items } };

    ghost invariant = { λ a. IsProgram (record { settings = a.settings; commands = a.commands.items }) };
}

impl Script {
    /// The settings that the script gives.
    pub fn settings(&self) -> Settings
        ensures value { result ≡ self.now.settings }
        ensures fit { IsTrue (are_usual self.now.settings) }
    {
        self.settings
    }

    /// The commands. The settings have each CPU that they name.
    pub fn commands(&self) -> &[Command]
        ensures value { result.now ≡ self.now.commands }
        ensures suited { IsTrue (list_all (suits self.now.settings) self.now.commands) }
    {
        &self.commands
    }
}

/// The lines so far.
#[derive(Drop)]
struct Draft {
    place: Position,
    commands: Vec<Command>,
}

impl Model for Draft {
    ghost use Rattle.registry_language.specs.Program.{ProgramDraft, IsDraft};

    ghost Value = { ProgramDraft };

    ghost view = { λ a. record { place = a.place; commands = a.commands.items } };

    ghost invariant = { λ a. IsDraft (record { place = a.place; commands = a.commands.items }) };
}

impl Draft {
    fn new(alloc: Global) -> Draft
        ensures { result ≡ empty_draft }
    {
        Draft {
            place: Position::First,
            commands: Vec::new(alloc),
        }
    }

    /// Adds what the next line says. An `Err` changes nothing.
    #[tactic(auto, using(crate::proofs::Parsing::one_command_more))]
    fn add(&mut self, command: Command) -> Result<(), LineFault>
        requires { IsTrue (may_follow self.old.place command) }
        ensures ok { IfOk result (λ _. self.new ≡ with_command self.old (Some command)) }
        ensures err { OnErr result (self.new ≡ self.old) }
        ensures memory { IfErr result (λ fault. fault ≡ LineFault.Memory) }
    {
        self.commands.push(command).map_err(|_| LineFault::Memory)?;
        self.place = self.place.after(command);
        Ok(())
    }

    /// Takes the next line.
    fn take(&mut self, alloc: Global, text: &[u8]) -> Result<(), LineFault>
        ensures { LineTakes self.new result (line_of self.old.place text.now) self.old }
    {
        if let Some(command) = line(alloc, self.place, text)? {
            self.add(command)?;
        }
        Ok(())
    }

    fn finish(self) -> Result<Script, ScriptFault>
        ensures { result ≡ program_of_draft self }
    {
        let Draft { place, commands } = self;
        match place {
            Position::Second(settings) | Position::Later(settings) => Ok(Script {
                settings,
                commands,
            }),
            Position::First => Err(ScriptFault {
                line: 1,
                cause: Cause::NoDomain,
            }),
        }
    }
}

/// The script that the bytes say, or its first fault.
#[tactic(auto, unfolding(crate::specs::Grammar::program_of_bytes))]
pub fn parse_script(alloc: Global, text: &[u8]) -> Result<Script, ParseFault>
    ensures { ParseGives result (program_of_bytes text.now) }
{
    if text.len() > 65_536 {
        let fault = ScriptFault {
            line: 1,
            cause: Cause::TooLong,
        };
        return Err(ParseFault::Script(fault));
    }
    let lines = lines(alloc, text).map_err(|_| ParseFault::Memory)?;
    let draft = draft_of(alloc, &lines)?;
    draft.finish().map_err(ParseFault::Script)
}

fn draft_of(alloc: Global, lines: &[&[u8]]) -> Result<Draft, ParseFault>
    requires { length lines.now ≤ 65537 }
    ensures { ParseGives result (draft_of_lines 1 empty_draft (map (λ x. x.now) lines.now)) }
{
    let mut draft = Draft::new(alloc);
    for (index, line) in lines.iter().enumerate() {
        match draft.take(alloc, line) {
            Ok(()) => {}
            Err(LineFault::Memory) => return Err(ParseFault::Memory),
            Err(LineFault::Cause(cause)) => {
                let line = index as u32 + 1;
                return Err(ParseFault::Script(ScriptFault { line, cause }));
            }
        }
    }
    Ok(draft)
}
