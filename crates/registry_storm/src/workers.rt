//! The threads of a storm: one worker for each CPU, all at once.

ghost use Rattle.std.specs.Prelude.{◌≡◌, ◌+◌, ◌*◌, ◌<◌, ◌≤◌, IfOk, IfErr, length, vec_len, All};
ghost use denote.Param.Send.{IsSync};
ghost use Rattle.registry_storm.specs.{IsOfStorm};

use crate::sum::Counts;
use crate::worker::{Done, Gate, Shared};
use cpu_words::Domain;
use passive_list::Cpu;
use registry_language::RunFault;
use registry_values::USUAL_CPUS;
use std::alloc::Global;
use std::sync::Wait;
use std::thread;
use std::thread::{Promise, PromisedHandle, Threads};

/// The promise of a worker that makes so many turns: it counts two lookups in each.
#[derive(Clone, Copy)]
pub struct Turns(u32);

impl Promise<Done> for Turns {
    ghost kept_by = { λ p done. done.counts.lookups ≡ 2 * p.0 };
}

/// Starts a worker for each CPU. Once all have ended, returns what they counted, and what the first one, of CPU 0, has left.
/// Refused: `NoThread` if a worker couldn't be started, and `Memory`. Those that were started have ended then.
pub fn work_all<D: Domain + Send + Sync, R: Threads + Wait + Sync, G: Gate + Sync>(
    rt: &R,
    alloc: Global,
    shared: &Shared<D, G>,
    first: &mut Cpu<D>,
    others: &mut [Cpu<D>],
) -> Result<Done, RunFault>
    requires others { length others.old + 1 ≡ shared.now.plan.cpus }
    ensures ok { IfOk result (λ done. done.counts.lookups ≡ 2 * shared.now.plan.turns * shared.now.plan.cpus) }
    ensures err { IfErr result IsOfStorm }
{
    thread::scope(
        thread::scope_env(),
        rt,
        move |scope| -> Result<Done, RunFault>
            requires others { length others.now + 1 ≡ shared.now.plan.cpus }
            ensures ok { IfOk result (λ done. done.counts.lookups ≡ 2 * shared.entry.now.plan.turns * shared.entry.now.plan.cpus) }
            ensures err { IfErr result IsOfStorm }
        {
            let turns = Turns(shared.plan.turns);
            let mut started = Vec::with_capacity(alloc, others.len())?;
            let leading = move || -> Done
                requires { IsSync R.row × IsSync G.row }
                ensures { result.counts.lookups ≡ 2 * shared.entry.now.plan.turns }
            { shared.work(rt, first) };
            let Ok(leading) = scope.spawn_with(turns, leading) else {
                return Err(RunFault::NoThread);
            };
            for cpu in others.iter_mut() {
                let worker = move || -> Done
                    requires { IsSync R.row × IsSync G.row }
                    ensures { result.counts.lookups ≡ 2 * shared.entry.now.plan.turns }
                { shared.work(rt, cpu) };
                match scope.spawn_with(turns, worker) {
                    Ok(worker) => started.push_reserved(worker),
                    Err(_) => return Err(RunFault::NoThread),
                }
            }
            let mut done = leading.join(rt);
            join_all(rt, started, turns, &mut done.counts);
            Ok(done)
        },
    )
}

/// Joins the workers, and adds what they have counted.
fn join_all<R: Threads>(
    rt: &R,
    started: Vec<PromisedHandle<Done, Turns>>,
    turns: Turns,
    counts: &mut Counts,
)
    requires started { All (λ h. h.promise ≡ turns) started.items }
    requires few { (vec_len started < USUAL_CPUS) × (turns.0 ≤ 100000) }
    requires first { counts.old.lookups ≡ 2 * turns.0 }
    ensures { counts.new.lookups ≡ 2 * turns.0 + 2 * turns.0 * vec_len started }
{
    for worker in started {
        counts.add(worker.join(rt).counts);
    }
}
