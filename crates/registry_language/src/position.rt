//! The place of a command in its script.

ghost use Rattle.std.specs.Prelude.{◌≡◌};
ghost use Rattle.registry_language.specs.Program.{settings_for, with_limits, settings_after, position_after};

use super::command::Command;
use registry_values::Settings;

/// Where the next command stands, with the settings that the commands before it give.
#[derive(Clone, Copy, Debug, PartialEq, Eq)]
pub enum Position {
    /// No command has come.
    First,
    /// Only `domain` has come.
    Second(Settings),
    /// More has come: neither `domain` nor `limits` may follow.
    Later(Settings),
}

impl Position {
    /// Where the command after this one stands.
    pub fn after(self, command: Command) -> Position
        ensures { result ≡ position_after self command }
    {
        match self {
            Position::First => after_first(command),
            Position::Second(settings) => Position::Later(settings_after(settings, command)),
            Position::Later(settings) => Position::Later(settings),
        }
    }
}

fn after_first(command: Command) -> Position
    ensures { result ≡ position_after Position.First command }
{
    match command {
        Command::Domain { cpus, slots } => Position::Second(settings_for(cpus, slots)),
        _ => Position::First,
    }
}

/// The settings with the limits that the command gives.
fn settings_after(settings: Settings, command: Command) -> Settings
    ensures { result ≡ settings_after settings command }
{
    match command {
        Command::Limits {
            changes,
            sections,
            passive,
            count,
        } => with_limits(settings, changes, sections, passive, count),
        _ => settings,
    }
}

/// The settings of a script whose first command is `domain`, unless `limits` says otherwise.
pub fn settings_for(cpus: u8, slots: u8) -> Settings
    ensures { result ≡ settings_for cpus slots }
{
    Settings {
        cpus,
        slots,
        change_limit: 1000,
        section_limit: 1000,
        passive_limit: 100,
        count_limit: 100,
    }
}

/// The settings with other limits.
pub fn with_limits(
    settings: Settings,
    changes: u64,
    sections: u64,
    passive: u64,
    count: u64,
) -> Settings
    ensures { result ≡ with_limits settings changes sections passive count }
{
    Settings {
        change_limit: changes,
        section_limit: sections,
        passive_limit: passive,
        count_limit: count,
        ..settings
    }
}
