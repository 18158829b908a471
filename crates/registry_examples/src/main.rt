//! An example by public calls alone: a packet loop.
#![tactic(auto)]

ghost use Rattle.std.specs.Prelude.{◌+◌, IfOk};
ghost use Rattle.registry_examples.specs.{SomeFreed};

mod failure;
mod packet_loop;

use failure::Failure;
use packet_loop::{PLUGS, run_packet_loop};
use std::alloc::Global;
use std::process::ExitCode;
use std::sync::Wait;
use std::thread::Threads;

/// The status is made of the number that the loop returns: it is 0 only if the interface's slot was freed `PLUGS` times.
fn main(rt: HostRuntime) -> ExitCode {
    match print_packet_loop(&rt) {
        Ok(freed) if freed == PLUGS => ExitCode::SUCCESS,
        Ok(_) => ExitCode::FAILURE,
        Err(failure) => {
            rt.eprintln(failure).ok();
            ExitCode::FAILURE
        }
    }
}

/// Every run prints the same, in any order of the threads. Returns how often the interface's slot was freed: a run of its registry has ended
/// in which a slot was freed so often, and one time more for the driver.
#[tactic(auto, using(crate::proofs::Frees::some_freed))]
fn print_packet_loop<R: Print + Alloc<A = Global> + Threads + Wait + Sync>(
    rt: &R,
) -> Result<u64, Failure>
    ensures ran { IfOk result (λ freed. SomeFreed (freed + 1)) }
{
    let (sum, _words) = run_packet_loop(rt, rt.alloc())?;
    println!(rt;
        "packet loop: packets {} counted {} freed {}",
        sum.packets, sum.counted, sum.freed
    )?;
    Ok(sum.freed)
}
