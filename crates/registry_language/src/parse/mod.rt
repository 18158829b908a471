//! What a line says.

ghost use Rattle.std.specs.Prelude.{◌≡◌, IfOk, IfSome, IsTrue, map};
ghost use Rattle.registry_language.specs.Grammar.{first_of, second_of, later_of, command_at, command_of, said, line_of, is_bad_byte, is_comment};
ghost use Rattle.registry_language.specs.Program.{may_follow, LineGives};
ghost use Rattle.std.specs.List.{list_any};

mod arguments;
mod commands;
mod settings;

use super::command::{Command, Verb};
use super::fault::{Cause, LineFault};
use super::position::Position;
use super::words::{verb, words};
use arguments::{cpu_alone, cpu_and_key, cpu_and_label};
use commands::{advance, attach, audit, copy, destroy, peek, perform, plug};
use registry_values::Settings;
use settings::{domain, limits};
use std::alloc::Global;

/// The command with the fields that the words give, or why they give none.
macro_rules! command {
    ($name:ident { $field:ident } of $words:expr) => {{
        let $field = $words?;
        Ok(Command::$name { $field })
    }};
    ($name:ident { $($field:ident),+ } of $words:expr) => {{
        let ($($field),+) = $words?;
        Ok(Command::$name { $($field),+ })
    }};
}

/// What the first command says.
fn first(verb: Verb, arguments: &[&[u8]]) -> Result<Command, Cause>
    ensures said { result ≡ first_of verb (map (λ x. x.now) arguments.now) }
    ensures follows { IfOk result (λ command. IsTrue (may_follow Position.First command)) }
{
    match verb {
        Verb::Domain => domain(arguments),
        _ => Err(Cause::Misplaced),
    }
}

/// What the second command says.
fn second(settings: Settings, verb: Verb, arguments: &[&[u8]]) -> Result<Command, Cause>
    ensures said { result ≡ second_of settings verb (map (λ x. x.now) arguments.now) }
    ensures follows { IfOk result (λ command. IsTrue (may_follow (Position.Second settings) command)) }
{
    match verb {
        Verb::Limits => limits(settings, arguments),
        _ => later(settings, verb, arguments),
    }
}

/// What a later command says.
fn later(settings: Settings, verb: Verb, arguments: &[&[u8]]) -> Result<Command, Cause>
    ensures said { result ≡ later_of settings verb (map (λ x. x.now) arguments.now) }
    ensures follows { IfOk result (λ command. IsTrue (may_follow (Position.Later settings) command)) }
{
    match verb {
        Verb::Domain | Verb::Limits => Err(Cause::Misplaced),
        Verb::Attach => attach(settings, arguments),
        Verb::Plug => plug(settings, arguments),
        Verb::Detach => command!(Detach { cpu, kind, name } of cpu_and_key(settings, arguments)),
        Verb::Enter => command!(Enter { cpu } of cpu_alone(settings, arguments)),
        Verb::Exit => command!(Exit { cpu } of cpu_alone(settings, arguments)),
        Verb::Find => command!(Find { cpu, kind, name } of cpu_and_key(settings, arguments)),
        Verb::Reference => command!(Reference { cpu, label } of cpu_and_label(settings, arguments)),
        Verb::Copy => copy(settings, arguments),
        Verb::Held => command!(Held { cpu, label } of cpu_and_label(settings, arguments)),
        Verb::Read => command!(Read { cpu, label } of cpu_and_label(settings, arguments)),
        Verb::Release => command!(Release { cpu, label } of cpu_and_label(settings, arguments)),
        Verb::Count => command!(Count { cpu, label } of cpu_and_label(settings, arguments)),
        Verb::Peek => peek(settings, arguments),
        Verb::Uncount => command!(Uncount { cpu, label } of cpu_and_label(settings, arguments)),
        Verb::Advance => advance(settings, arguments),
        Verb::Destroy => destroy(settings, arguments),
        Verb::Perform => perform(settings, arguments),
        Verb::Audit => audit(settings, arguments),
    }
}

/// What a verb and the words after it say at this place.
fn command_at(place: Position, verb: Verb, arguments: &[&[u8]]) -> Result<Command, Cause>
    ensures said { result ≡ command_at place verb (map (λ x. x.now) arguments.now) }
    ensures follows { IfOk result (λ command. IsTrue (may_follow place command)) }
{
    match place {
        Position::First => first(verb, arguments),
        Position::Second(settings) => second(settings, verb, arguments),
        Position::Later(settings) => later(settings, verb, arguments),
    }
}

/// The same, where the first word may name no command.
fn command(place: Position, verb: Option<Verb>, arguments: &[&[u8]]) -> Result<Command, Cause>
    ensures said { result ≡ command_of place verb (map (λ x. x.now) arguments.now) }
    ensures follows { IfOk result (λ command. IsTrue (may_follow place command)) }
{
    let verb = verb.ok_or(Cause::UnknownCommand)?;
    command_at(place, verb, arguments)
}

/// What the words of a line say.
#[tactic(auto, unfolding(crate::specs::Grammar::said))]
fn sentence(place: Position, words: &[&[u8]]) -> Result<Option<Command>, Cause>
    ensures said { result ≡ said place (map (λ x. x.now) words.now) }
    ensures follows { IfOk result (λ said. IfSome said (λ command. IsTrue (may_follow place command))) }
{
    let Some((first, arguments)) = words.split_first() else {
        return Ok(None);
    };
    if is_comment(first) {
        return Ok(None);
    }
    Ok(Some(command(place, verb(first), arguments)?))
}

fn is_comment(word: &[u8]) -> bool
    ensures { result ≡ is_comment word.now }
{
    match word {
        [b'#', ..] => true,
        _ => false,
    }
}

fn has_bad_byte(line: &[u8]) -> bool
    ensures { result ≡ list_any is_bad_byte line.now }
{
    line.iter().any(|b| *b < 32 || *b > 126)
}

/// What a line says.
#[tactic(auto, unfolding(crate::specs::Grammar::line_of))]
pub fn line(alloc: Global, place: Position, line: &[u8]) -> Result<Option<Command>, LineFault>
    ensures said { LineGives result (line_of place line.now) }
    ensures follows { IfOk result (λ said. IfSome said (λ command. IsTrue (may_follow place command))) }
{
    if line.len() > 120 {
        return Err(LineFault::Cause(Cause::LongLine));
    }
    if has_bad_byte(line) {
        return Err(LineFault::Cause(Cause::BadByte));
    }
    let words = words(alloc, line).map_err(|_| LineFault::Memory)?;
    sentence(place, &words).map_err(LineFault::Cause)
}
