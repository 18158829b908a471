//! Runs a script on standard input and writes its report to standard output, or runs a storm and prints what it found.
#![tactic(auto)]

mod doing;
mod failure;
mod task;

ghost use Rattle.std.specs.Prelude.{IfOk};
ghost use Rattle.registry_run.specs.{IsPossible};

use doing::{OurStorms, carry_out};
use failure::{Failure, exit_code};
use registry_script::RunFault;
use std::alloc::Global;
use std::process::ExitCode;
use std::rt::Env;
use std::{env, io};
use task::Task;

fn main(rt: HostRuntime) -> ExitCode {
    let ended = match chosen(&rt) {
        Ok(task) => {
            let alloc = rt.alloc();
            let (mut input, mut output) = (rt.reader(), io::writer(&rt));
            carry_out(&rt, alloc, &mut OurStorms, task, &mut input, &mut output).map_err(
                Failure::Run,
            )
        }
        Err(failure) => Err(failure),
    };
    if let Err(failure) = ended {
        // Where standard error takes nothing the status still tells.
        rt.eprintln(failure).ok();
    }
    exit_code(ended)
}

/// The task that the arguments name.
fn chosen(rt: &(impl Env + Alloc<A = Global>)) -> Result<Task, Failure>
    ensures { IfOk result IsPossible }
{
    let mut words = env::args(rt).map_err(Failure::without_arguments)?;
    let _program = words.next();
    let words: Vec<String> = words
        .collect(rt.alloc())
        .map_err(|_| Failure::Run(RunFault::Memory))?;
    Task::parse(&words).ok_or(Failure::Usage)
}
