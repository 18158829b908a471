//! The commands that give the settings: `domain` and `limits`.

ghost use Rattle.std.specs.Prelude.{◌≡◌, IfOk, IsTrue, map};
ghost use Rattle.registry_language.specs.Grammar.{fit_command, domain_of, limits_of, limits_words};
ghost use Rattle.registry_language.specs.Program.{settings_for, with_limits, may_follow};
ghost use Rattle.registry_values.specs.Common.{are_usual};

use crate::command::Command;
use crate::fault::Cause;
use crate::position::{Position, settings_for, with_limits};
use crate::words::number;
use registry_values::{Settings, USUAL_CPUS, USUAL_SLOTS};

/// `domain CPUS SLOTS`.
/// Refused: `WrongCount` if these aren't two words; `BadNumber` if one isn't a number; `BadSettings` if there is no such registry.
#[tactic(auto, unfolding(crate::specs::Grammar::domain_of))]
pub fn domain(arguments: &[&[u8]]) -> Result<Command, Cause>
    ensures said { result ≡ domain_of (map (λ x. x.now) arguments.now) }
    ensures follows { IfOk result (λ command. IsTrue (may_follow Position.First command)) }
{
    let [cpus, slots] = arguments else {
        return Err(Cause::WrongCount);
    };
    let cpus = number(cpus).ok_or(Cause::BadNumber)?;
    let slots = number(slots).ok_or(Cause::BadNumber)?;
    sized(cpus, slots)
}

/// The command of settings that are tested before they are narrowed.
fn sized(cpus: u64, slots: u64) -> Result<Command, Cause>
    ensures said { result ≡ fit_command (settings_for cpus slots) (Command.Domain cpus slots) }
    ensures follows { IfOk result (λ command. IsTrue (may_follow Position.First command)) }
{
    if cpus > USUAL_CPUS as u64 || slots > USUAL_SLOTS as u64 {
        return Err(Cause::BadSettings);
    }
    let cpus = cpus as u8;
    let slots = slots as u8;
    fitting(settings_for(cpus, slots), Command::Domain { cpus, slots })
}

/// The command, where the settings after it can be used.
fn fitting(settings: Settings, command: Command) -> Result<Command, Cause>
    ensures said { result ≡ fit_command settings command }
    ensures fit { IfOk result (λ taken. IsTrue (are_usual settings)) }
    ensures same { IfOk result (λ taken. taken ≡ command) }
{
    match settings.check() {
        Ok(()) => Ok(command),
        Err(_) => Err(Cause::BadSettings),
    }
}

/// `limits CHANGES SECTIONS PASSIVE COUNT`.
/// Refused: `WrongCount` if these aren't four words; `BadNumber` if one isn't a number; `BadSettings` if the settings with these limits
/// can't be used.
pub fn limits(settings: Settings, arguments: &[&[u8]]) -> Result<Command, Cause>
    ensures said { result ≡ limits_of settings (map (λ x. x.now) arguments.now) }
    ensures follows { IfOk result (λ command. IsTrue (may_follow (Position.Second settings) command)) }
{
    match arguments {
        [changes, sections, passive, count] => limits_words(
            settings, changes, sections, passive, count,
        ),
        _ => Err(Cause::WrongCount),
    }
}

#[tactic(auto, unfolding(crate::specs::Grammar::limits_words))]
fn limits_words(
    settings: Settings,
    first: &[u8],
    second: &[u8],
    third: &[u8],
    fourth: &[u8],
) -> Result<Command, Cause>
    ensures said { result ≡ limits_words settings first.now second.now third.now fourth.now }
    ensures follows { IfOk result (λ command. IsTrue (may_follow (Position.Second settings) command)) }
{
    let changes = number(first).ok_or(Cause::BadNumber)?;
    let sections = number(second).ok_or(Cause::BadNumber)?;
    let passive = number(third).ok_or(Cause::BadNumber)?;
    let count = number(fourth).ok_or(Cause::BadNumber)?;
    fitting(
        with_limits(settings, changes, sections, passive, count),
        Command::Limits {
            changes,
            sections,
            passive,
            count,
        },
    )
}
