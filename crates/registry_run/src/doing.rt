//! Does what was asked for.

ghost use Rattle.std.specs.Prelude.{◌≡◌, IfErr, IfOk, string_bytes};
ghost use denote.Param.Send.{IsSync};
ghost use Rattle.registry_language.specs.declared.fault.RunFault.TheVariants as fault;
ghost use Rattle.registry_storm.specs.{IsOfStorm, IsSumOf};
ghost use Rattle.registry_run.specs.{Did, IsPossible, IsStorm, Stormed, count_lines, storm_text};

use crate::task::{StormSize, Task};
use registry_script::{OpenGate, RunFault, StormSum, run, storm, write_text};
use std::alloc::Global;
use std::io::{Read, Write};
use std::sync::Wait;
use std::thread::Threads;

/// What makes storms: `OurStorms`, or a stand-in for them in a test.
pub trait Storms {
    ghost use Rattle.std.specs.Prelude.{Result};
    ghost use Rattle.registry_language.specs.declared.fault.RunFault.{RunFault};
    ghost use Rattle.registry_storm.specs.declared.sum.StormSum.{StormSum};
    ghost use Rattle.registry_run.specs.declared.task.StormSize.{StormSize};

    // of the value before and the size: what the storm found, and the value after
    ghost made: { Self → StormSize → Result StormSum RunFault → Self → Type 0 };

    /// Makes one storm.
    fn storm<H: Threads + Wait + Sync>(
        &mut self,
        rt: &H,
        alloc: Global,
        size: StormSize,
    ) -> Result<StormSum, RunFault>
        requires storm { IsStorm size }
        requires sync { IsSync H.row }
        ensures made { made self.old size result self.new }
        ensures ok { IfOk result (λ sum. IsSumOf size.cpus size.turns sum) }
        ensures err { IfErr result IsOfStorm };
}

/// Storms over registries of their own.
#[derive(Drop)]
pub struct OurStorms;

impl Storms for OurStorms {
    ghost made = { λ _ _ _ _. Unit {0} };

    fn storm<H: Threads + Wait + Sync>(
        &mut self,
        rt: &H,
        alloc: Global,
        size: StormSize,
    ) -> Result<StormSum, RunFault> {
        storm(rt, alloc, size.cpus, size.turns, &OpenGate)
    }
}

/// Runs the script that is read, or makes a storm, which reads nothing, and writes its report or what it found. A storm is made once, and what is
/// written is of that one.
/// Condition: a storm has 1 to `USUAL_CPUS` CPUs and 1 to 100,000 turns.
/// Refused: of a script as `run` says; of a storm `Memory` and `NoThread`, and nothing was written, and `Write`, and a front was written.
pub fn carry_out<H: Threads + Wait + Sync, S: Storms, R: Read, W: Write>(
    rt: &H,
    alloc: Global,
    storms: &mut S,
    task: Task,
    reader: &mut R,
    writer: &mut W,
) -> Result<(), RunFault>
    requires possible { IsPossible task }
    ensures did { Did S.made task storms.old storms.new (R.remaining reader.old) (R.remaining reader.new) (W.contents writer.old) (W.contents writer.new) result }
{
    match task {
        Task::Script(engine) => run(rt, alloc, engine, reader, writer),
        Task::Storm(size) => run_storm(rt, alloc, storms, size, writer),
    }
}

/// Makes a storm, and writes what it found.
fn run_storm<H: Threads + Wait + Sync, S: Storms, W: Write>(
    rt: &H,
    alloc: Global,
    storms: &mut S,
    size: StormSize,
    writer: &mut W,
) -> Result<(), RunFault>
    requires storm { IsStorm size }
    ensures stormed { Stormed S.made size storms.old storms.new (W.contents writer.old) (W.contents writer.new) result }
{
    let sum = storms.storm(rt, alloc, size)?;
    let text = told(alloc, sum)?;
    write_text(writer, text.as_bytes())
}

/// What a storm found: its size, and a line for each number.
fn told(alloc: Global, sum: StormSum) -> Result<String, RunFault>
    ensures text { IfOk result (λ text. string_bytes text ≡ storm_text sum) }
    ensures memory { IfErr result (λ it. it ≡ fault.Memory) }
{
    let counts = counted(alloc, sum.references, sum.wrong, sum.held)?;
    Ok(format!(in alloc;
        "storm {} {}\nlookups {}\n{counts}",
        sum.cpus, sum.turns, sum.lookups
    )?)
}

/// The lines of a storm's counts, except the lookups.
fn counted(alloc: Global, references: u64, wrong: u64, held: i64) -> Result<String, RunFault>
    ensures text { IfOk result (λ text. string_bytes text ≡ count_lines references wrong held) }
    ensures memory { IfErr result (λ it. it ≡ fault.Memory) }
{
    Ok(format!(in alloc; "references {references}\nwrong {wrong}\nheld {held}\n")?)
}
