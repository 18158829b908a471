//! From the bytes that are read to the bytes that are written.

ghost use Rattle.std.specs.Prelude.{◌≡◌, IfOk, IfErr, IfSome};
ghost use Rattle.registry_script.specs.{Ran, RanOn, WasRead, IsWhileReading};

use registry_language::{ParseFault, RunFault, parse_script};
use registry_live::run_live;
use registry_report::run_core;
use std::alloc::Global;
use std::io::{Read, Write};
use std::sync::Wait;

/// One byte more than a script may have.
const LIMIT: usize = 65_537;

/// What carries out a script.
#[derive(Clone, Copy, Debug, PartialEq, Eq)]
pub enum Engine {
    /// The pure machine.
    Core,
    /// A registry that is running.
    Live,
}

/// Reads a script whole, runs it with the engine, and writes its report.
/// Refused: `Read` and `Script`, and nothing was written; `Write` and `Memory`, and a front of the report was written.
#[tactic(auto, using(crate::proofs::Known::ran_known))]
pub fn run<H: Wait, R: Read, W: Write>(
    rt: &H,
    alloc: Global,
    engine: Engine,
    reader: &mut R,
    writer: &mut W,
) -> Result<(), RunFault>
    ensures ran { Ran engine (R.remaining reader.old) (R.remaining reader.new) (W.contents writer.old) (W.contents writer.new) result }
    ensures known { IfSome (R.remaining reader.old) (λ input. RanOn engine input (W.contents writer.old) (W.contents writer.new) result) }
{
    run_script(rt, alloc, engine, reader, writer)
}

fn run_script<H: Wait, R: Read, W: Write>(
    rt: &H,
    alloc: Global,
    engine: Engine,
    reader: &mut R,
    writer: &mut W,
) -> Result<(), RunFault>
    ensures { Ran engine (R.remaining reader.old) (R.remaining reader.new) (W.contents writer.old) (W.contents writer.new) result }
{
    let text = read_script(alloc, reader)?;
    match parse_script(alloc, &text) {
        Ok(script) => match engine {
            Engine::Core => run_core(alloc, &script, writer),
            Engine::Live => run_live(rt, alloc, &script, writer),
        },
        Err(ParseFault::Script(fault)) => Err(RunFault::Script(fault)),
        Err(ParseFault::Memory) => Err(RunFault::Memory),
    }
}

/// Reads to the end, or to one byte more than a script may have. An interrupted read is a fault too.
fn read_script<R: Read>(alloc: Global, reader: &mut R) -> Result<Vec<u8>, RunFault>
    ensures ok { IfOk result (λ text. WasRead (R.remaining reader.old) (R.remaining reader.new) text.items) }
    ensures fault { IfErr result IsWhileReading }
{
    let mut text = Vec::new(alloc);
    let mut buffer = [0u8; 4096];
    while text.len() < LIMIT {
        let room = buffer.len().min(LIMIT - text.len());
        match reader.read(&mut buffer[..room]) {
            Ok(0) => return Ok(text),
            Ok(n) => text.extend_from_slice(&buffer[..n])?,
            Err(_) => return Err(RunFault::Read),
        }
    }
    Ok(text)
}
