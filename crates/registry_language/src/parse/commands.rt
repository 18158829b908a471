//! The commands whose words no other command has: `attach`, `plug`, `copy`, `peek`, `advance`, `destroy`, `perform` and `audit`.

ghost use Rattle.std.specs.Prelude.{◌≡◌, IfOk, IsTrue, map};
ghost use Rattle.registry_language.specs.Grammar.{attach_of, attach_words, plug_of, plug_words, copy_of, copy_words, peek_of, advance_of, destroy_of, destroy_words, perform_of, perform_words, audit_of};
ghost use Rattle.registry_language.specs.Program.{may_follow};

use super::arguments::{cpu, kind, label, name, turns};
use crate::command::Command;
use crate::fault::Cause;
use crate::position::Position;
use crate::words::number;
use registry_values::{Kind, Record, Settings};

/// `attach C KIND NAME VALUE`. Refused by the first word that is none: `BadCpu`, `BadKind`, `BadName`, `BadNumber`; `WrongCount` where
/// these aren't four words.
pub fn attach(settings: Settings, arguments: &[&[u8]]) -> Result<Command, Cause>
    ensures said { result ≡ attach_of settings (map (λ x. x.now) arguments.now) }
    ensures follows { IfOk result (λ command. IsTrue (may_follow (Position.Later settings) command)) }
{
    match arguments {
        [cpu, kind, name, value] => attach_words(settings, cpu, kind, name, value),
        _ => Err(Cause::WrongCount),
    }
}

#[tactic(auto, unfolding(crate::specs::Grammar::attach_words))]
fn attach_words(
    settings: Settings,
    first: &[u8],
    second: &[u8],
    third: &[u8],
    fourth: &[u8],
) -> Result<Command, Cause>
    ensures said { result ≡ attach_words settings first.now second.now third.now fourth.now }
    ensures follows { IfOk result (λ command. IsTrue (may_follow (Position.Later settings) command)) }
{
    let cpu = cpu(settings, first)?;
    let kind = kind(second)?;
    let name = name(third)?;
    let value = number(fourth).ok_or(Cause::BadNumber)?;
    let rec = Record { kind, name, value };
    Ok(Command::Attach { cpu, rec })
}

/// `plug C NAME VALUE LABEL`: what is plugged in is an interface. Refused by the first word that is none: `BadCpu`, `BadName`, `BadNumber`,
/// `BadLabel`; `WrongCount` if these aren't four words.
pub fn plug(settings: Settings, arguments: &[&[u8]]) -> Result<Command, Cause>
    ensures said { result ≡ plug_of settings (map (λ x. x.now) arguments.now) }
    ensures follows { IfOk result (λ command. IsTrue (may_follow (Position.Later settings) command)) }
{
    match arguments {
        [cpu, name, value, label] => plug_words(settings, cpu, name, value, label),
        _ => Err(Cause::WrongCount),
    }
}

#[tactic(auto, unfolding(crate::specs::Grammar::plug_words))]
fn plug_words(
    settings: Settings,
    first: &[u8],
    second: &[u8],
    third: &[u8],
    fourth: &[u8],
) -> Result<Command, Cause>
    ensures said { result ≡ plug_words settings first.now second.now third.now fourth.now }
    ensures follows { IfOk result (λ command. IsTrue (may_follow (Position.Later settings) command)) }
{
    let cpu = cpu(settings, first)?;
    let name = name(second)?;
    let value = number(third).ok_or(Cause::BadNumber)?;
    let label = label(fourth)?;
    let rec = Record {
        kind: Kind::Iface,
        name,
        value,
    };
    Ok(Command::Plug { cpu, rec, label })
}

/// `copy C SOURCE TARGET`. Refused by the first word that is none: `BadCpu`, `BadLabel`; `WrongCount` if these aren't three words.
pub fn copy(settings: Settings, arguments: &[&[u8]]) -> Result<Command, Cause>
    ensures said { result ≡ copy_of settings (map (λ x. x.now) arguments.now) }
    ensures follows { IfOk result (λ command. IsTrue (may_follow (Position.Later settings) command)) }
{
    match arguments {
        [cpu, source, target] => copy_words(settings, cpu, source, target),
        _ => Err(Cause::WrongCount),
    }
}

#[tactic(auto, unfolding(crate::specs::Grammar::copy_words))]
fn copy_words(
    settings: Settings,
    first: &[u8],
    second: &[u8],
    third: &[u8],
) -> Result<Command, Cause>
    ensures said { result ≡ copy_words settings first.now second.now third.now }
    ensures follows { IfOk result (λ command. IsTrue (may_follow (Position.Later settings) command)) }
{
    let cpu = cpu(settings, first)?;
    let source = label(second)?;
    let target = label(third)?;
    Ok(Command::Copy {
        cpu,
        source,
        target,
    })
}

/// `peek LABEL`.
/// Refused: `BadLabel`; `WrongCount` if this isn't one word.
#[tactic(auto, unfolding(crate::specs::Grammar::peek_of))]
pub fn peek(settings: Settings, arguments: &[&[u8]]) -> Result<Command, Cause>
    ensures said { result ≡ peek_of (map (λ x. x.now) arguments.now) }
    ensures follows { IfOk result (λ command. IsTrue (may_follow (Position.Later settings) command)) }
{
    let [word] = arguments else {
        return Err(Cause::WrongCount);
    };
    let label = label(word)?;
    Ok(Command::Peek { label })
}

/// `advance NUMBER`.
/// Refused: `BadNumber`; `WrongCount` if this isn't one word.
#[tactic(auto, unfolding(crate::specs::Grammar::advance_of))]
pub fn advance(settings: Settings, arguments: &[&[u8]]) -> Result<Command, Cause>
    ensures said { result ≡ advance_of (map (λ x. x.now) arguments.now) }
    ensures follows { IfOk result (λ command. IsTrue (may_follow (Position.Later settings) command)) }
{
    let [word] = arguments else {
        return Err(Cause::WrongCount);
    };
    let number = number(word).ok_or(Cause::BadNumber)?;
    Ok(Command::Advance { number })
}

/// `destroy C NUMBER TURNS`. Refused by the first word that is none: `BadCpu`, and `BadNumber` of either number; `WrongCount` where
/// these aren't three words.
pub fn destroy(settings: Settings, arguments: &[&[u8]]) -> Result<Command, Cause>
    ensures said { result ≡ destroy_of settings (map (λ x. x.now) arguments.now) }
    ensures follows { IfOk result (λ command. IsTrue (may_follow (Position.Later settings) command)) }
{
    match arguments {
        [cpu, number, turns] => destroy_words(settings, cpu, number, turns),
        _ => Err(Cause::WrongCount),
    }
}

#[tactic(auto, unfolding(crate::specs::Grammar::destroy_words))]
fn destroy_words(
    settings: Settings,
    first: &[u8],
    second: &[u8],
    third: &[u8],
) -> Result<Command, Cause>
    ensures said { result ≡ destroy_words settings first.now second.now third.now }
    ensures follows { IfOk result (λ command. IsTrue (may_follow (Position.Later settings) command)) }
{
    let cpu = cpu(settings, first)?;
    let number = number(second).ok_or(Cause::BadNumber)?;
    let turns = turns(third)?;
    Ok(Command::Destroy { cpu, number, turns })
}

/// `perform C TURNS`. Refused by the first word that is none: `BadCpu`, `BadNumber`; `WrongCount` if these aren't two words.
pub fn perform(settings: Settings, arguments: &[&[u8]]) -> Result<Command, Cause>
    ensures said { result ≡ perform_of settings (map (λ x. x.now) arguments.now) }
    ensures follows { IfOk result (λ command. IsTrue (may_follow (Position.Later settings) command)) }
{
    match arguments {
        [cpu, turns] => perform_words(settings, cpu, turns),
        _ => Err(Cause::WrongCount),
    }
}

#[tactic(auto, unfolding(crate::specs::Grammar::perform_words))]
fn perform_words(settings: Settings, first: &[u8], second: &[u8]) -> Result<Command, Cause>
    ensures said { result ≡ perform_words settings first.now second.now }
    ensures follows { IfOk result (λ command. IsTrue (may_follow (Position.Later settings) command)) }
{
    let cpu = cpu(settings, first)?;
    let turns = turns(second)?;
    Ok(Command::Perform { cpu, turns })
}

/// `audit`.
/// Refused: `WrongCount` if a word follows.
pub fn audit(settings: Settings, arguments: &[&[u8]]) -> Result<Command, Cause>
    ensures said { result ≡ audit_of (map (λ x. x.now) arguments.now) }
    ensures follows { IfOk result (λ command. IsTrue (may_follow (Position.Later settings) command)) }
{
    if arguments.is_empty() {
        Ok(Command::Audit)
    } else {
        Err(Cause::WrongCount)
    }
}
