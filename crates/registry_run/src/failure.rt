//! Why the program ends with another status than 0.

ghost use Rattle.std.specs.Prelude.{◌≡◌, ◌≢◌};
ghost use Rattle.std.specs.IoError.{error_kind};
ghost use Rattle.std.specs.Process.{exit_status};
ghost use Rattle.registry_language.specs.declared.fault.RunFault.TheVariants as fault;
ghost use Rattle.registry_run.specs.{status_after, status_of};

use registry_script::RunFault;
use std::io;
use std::io::ErrorKind;
use std::process::ExitCode;
use thiserror::Error;

/// Why the program ends with another status than 0; its text is the line on standard error.
#[derive(Clone, Copy, Debug, PartialEq, Eq, Error)]
pub enum Failure {
    #[error("usage: registry_run core | live | storm C T")]
    Usage,
    #[error("{0}")]
    Run(RunFault),
}

impl Failure {
    /// The exit status.
    pub fn status(self) -> u8
        ensures { result ≡ status_of self }
    {
        match self {
            Failure::Usage | Failure::Run(RunFault::Script(_)) => 2,
            Failure::Run(RunFault::Read | RunFault::Write) => 3,
            Failure::Run(RunFault::Memory | RunFault::NoThread) => 4,
        }
    }

    /// The arguments couldn't be read.
    pub fn without_arguments(error: io::Error) -> Failure
        ensures memory { error_kind error ≡ ErrorKind.OutOfMemory → result ≡ Failure.Run fault.Memory }
        ensures other { error_kind error ≢ ErrorKind.OutOfMemory → result ≡ Failure.Usage }
    {
        match error.kind() {
            ErrorKind::OutOfMemory => Failure::Run(RunFault::Memory),
            _ => Failure::Usage,
        }
    }
}

/// The code that the program ends with.
pub fn exit_code(ended: Result<(), Failure>) -> ExitCode
    ensures { exit_status result ≡ status_after ended }
{
    match ended {
        Ok(()) => ExitCode::SUCCESS,
        Err(failure) => ExitCode::from(failure.status()),
    }
}
