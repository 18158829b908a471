//! Why a script was not run to its end.

ghost use Rattle.std.specs.Prelude.{◌≡◌};
ghost use Rattle.registry_language.specs.declared.fault.RunFault.TheVariants as run;

use std::alloc::AllocError;
use thiserror::Error;

/// What is wrong with a line, in the order in which a line is tested.
#[derive(Clone, Copy, Debug, PartialEq, Eq, Error)]
pub enum Cause {
    /// The script has more than 65,536 bytes.
    #[error("TooLong")]
    TooLong,
    /// More than 120 bytes without the line's end.
    #[error("LongLine")]
    LongLine,
    /// A byte outside 32 to 126.
    #[error("BadByte")]
    BadByte,
    /// The first word names no command.
    #[error("UnknownCommand")]
    UnknownCommand,
    /// The first command isn't `domain`, a later one is, or `limits` isn't the second command.
    #[error("Misplaced")]
    Misplaced,
    /// The command takes another number of words.
    #[error("WrongCount")]
    WrongCount,
    /// Not 1 to 20 digits whose value is below 2^64, or no number of turns, 1 to 1000.
    #[error("BadNumber")]
    BadNumber,
    /// Not a number below the number of CPUs.
    #[error("BadCpu")]
    BadCpu,
    /// Neither `iface` nor `driver`.
    #[error("BadKind")]
    BadKind,
    /// Not a lower-case letter, followed by at most 14 lower-case letters and digits.
    #[error("BadName")]
    BadName,
    /// Not one of the letters `a` to `z`.
    #[error("BadLabel")]
    BadLabel,
    /// A setting is out of its range.
    #[error("BadSettings")]
    BadSettings,
    /// The script has no command.
    #[error("NoDomain")]
    NoDomain,
}

/// The first fault of a script.
#[derive(Clone, Copy, Debug, PartialEq, Eq, Error)]
#[error("line {line}: {cause}")]
pub struct ScriptFault {
    /// The line, from 1.
    pub line: u32,
    /// What is wrong with it.
    pub cause: Cause,
}

/// Why some bytes gave no script.
#[derive(Clone, Copy, Debug, PartialEq, Eq, Error)]
pub enum ParseFault {
    /// The script has a fault.
    #[error("script fault: {0}")]
    Script(ScriptFault),
    /// Memory was refused.
    #[error("out of memory")]
    Memory,
}

/// Why a script's run stopped.
#[derive(Clone, Copy, Debug, PartialEq, Eq, Error)]
pub enum RunFault {
    /// The script has a fault; nothing was written.
    #[error("script fault: {0}")]
    Script(ScriptFault),
    /// The reader failed; nothing was written.
    #[error("read fault")]
    Read,
    /// The writer failed or took no bytes; a front of the report was written.
    #[error("write fault")]
    Write,
    /// Memory was refused; a front of the report was written.
    #[error("out of memory")]
    Memory,
    /// A storm's worker couldn't be started.
    #[error("no thread")]
    NoThread,
}

impl From<AllocError> for RunFault {
    ghost from_gives = { λ _ fault. fault ≡ run.Memory };

    fn from(_refused: AllocError) -> RunFault {
        RunFault::Memory
    }
}

/// Why a line was not taken.
#[derive(Clone, Copy, Debug, PartialEq, Eq)]
pub enum LineFault {
    Cause(Cause),
    Memory,
}
