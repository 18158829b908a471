//! Waiting until each section that was open has ended.

ghost use Rattle.std.specs.Prelude.{◌≡◌, ◌≤◌, IfOk, IfErr, false};
ghost use Rattle.name_registry.specs.Locking.{IsPerformRefusal, is_inside, HasLearned};
ghost use Rattle.name_registry.specs.Performing.{HasSeenAllOut, HaveAllEnded, Performs, PerformsOutside, WaitsFor, none_seen};

use crate::glancing::{begin, glance_at_all, pass_all};
use crate::registry::{Locked, Registry};
use cpu_words::Domain;
use passive_list::Cpu;
use registry_values::{MOST_CPUS, MOST_SLOTS, Refusal, waiting_for};
use std::marker::Model;
use std::sync::Wait;
use std::thread::yield_now;

impl<D: Domain> Registry<D> {
    /// Waits, for at most `turns` turns, until each section that is open as the call begins has ended (pserialize_perform(9)). The
    /// interlock is free between the turns. The pass grows as by `hear`.
    /// Condition: at least one turn.
    ///
    /// Ok (`ended` says 1, `waited` 3; 2 follows from `waited` by the law `waiting` of `running_headline`):
    ///
    /// 1. each section that was open as the call began has ended, on any CPU;
    /// 2. no section may hold an entry that was detached by then;
    /// 3. each such entry has passed on each CPU, unless its slot was reused.
    ///
    /// Refused, in this order:
    ///
    /// - `Inside`: the CPU is inside a section; nothing has changed then;
    /// - `Waiting`, with the lowest-numbered CPU that wasn't seen out of its section; its turns have set no mark.
    #[tactic(auto, using(crate::proofs::Attached::inside_is, crate::proofs::Passed::performs_inside, crate::proofs::Waited::learns_none))]
    pub fn perform<R: Wait>(&self, rt: &R, cpu: &mut Cpu<D>, turns: u32) -> Result<(), Refusal>
        requires { 1 ≤ turns }
        ensures done { IfOk result (λ _. is_inside cpu.old ≡ false) }
        ensures refused { IfErr result (λ refusal. IsPerformRefusal D.settings (is_inside cpu.old) refusal) }
        ensures waited { IfOk result (λ _. HasSeenAllOut D.settings.cpus cpu.old cpu.new) }
        ensures ended { IfOk result (λ _. HaveAllEnded D.settings cpu.old cpu.new) }
        ensures made { PerformsOutside D.settings turns (is_inside cpu.old) cpu.old result cpu.new }
        ensures learned { HasLearned cpu.old cpu.new × (cpu.new.made ≡ cpu.old.made) }
    {
        if cpu.inside() {
            return Err(Refusal::Inside);
        }
        let mut interlock = Locked { registry: self };
        waiting_for(perform_in_turns(rt, &mut interlock, cpu, turns))
    }
}

/// What a `perform` does under the interlock, which it takes anew for each of these calls. Only the caller's CPU lasts from one to the
/// next.
trait UnderInterlock<D: Domain> {
    ghost use Rattle.std.specs.Prelude.{ℕ, List, Option, Bool};
    ghost use Rattle.passive_list.specs.Common.{OnCpu};

    // of the CPU before: the snapshots, the numbers of the retired entries, and the CPU after
    ghost begins: { OnCpu → List ℕ → List ℕ → OnCpu → Type 0 };
    // of the snapshots, the CPU before and who was seen: the answer, who is seen then, and the CPU after
    ghost glances: { List ℕ → OnCpu → List Bool → Option ℕ → List Bool → OnCpu → Type 0 };

    ghost passes: { OnCpu → List ℕ → OnCpu → Type 0 };

    /// Writes the section word of each CPU, and of each slot the number of its retired entry, or 0.
    fn begin<R: Wait>(
        &mut self,
        rt: &R,
        cpu: &mut Cpu<D>,
        snapshots: &mut [u64; MOST_CPUS],
        retired: &mut [u64; MOST_SLOTS],
    )
        ensures { begins cpu.old snapshots.new retired.new cpu.new };

    /// One turn: a glance at each CPU that wasn't seen yet. Returns the lowest-numbered that still wasn't.
    fn glance<R: Wait>(
        &mut self,
        rt: &R,
        cpu: &mut Cpu<D>,
        snapshots: &[u64; MOST_CPUS],
        seen: &mut [bool; MOST_CPUS],
    ) -> Option<u8>
        ensures { glances snapshots.now cpu.old seen.old result seen.new cpu.new };

    /// Looks at each CPU for the retired entries with these numbers.
    fn pass<R: Wait>(&mut self, rt: &R, cpu: &mut Cpu<D>, retired: &[u64; MOST_SLOTS])
        ensures { passes cpu.old retired.now cpu.new };
}

/// Begins, waits for at most `turns` turns, and passes what was retired as it began. Returns the lowest-numbered CPU that wasn't seen out
/// of the section of its snapshot; nothing is passed then.
fn perform_in_turns<D: Domain, I: UnderInterlock<D>, R: Wait>(
    rt: &R,
    interlock: &mut I,
    cpu: &mut Cpu<D>,
    turns: u32,
) -> Option<u8>
    requires { 1 ≤ turns }
    ensures { Performs I.begins I.glances I.passes turns cpu.old result cpu.new }
{
    let mut snapshots = [0; MOST_CPUS];
    let mut retired = [0; MOST_SLOTS];
    interlock.begin(rt, cpu, &mut snapshots, &mut retired);
    let told = wait_for_sections(rt, interlock, cpu, &snapshots, turns);
    if told.is_none() {
        interlock.pass(rt, cpu, &retired);
    }
    told
}

/// Glances at the CPUs in so many turns, or until all were seen. The answer is the last turn's. Between two turns it lets another thread
/// run, which may be a reader in the middle of its section, without a processor.
fn wait_for_sections<D: Domain, I: UnderInterlock<D>, R: Wait>(
    rt: &R,
    interlock: &mut I,
    cpu: &mut Cpu<D>,
    snapshots: &[u64; MOST_CPUS],
    turns: u32,
) -> Option<u8>
    requires { 1 ≤ turns }
    ensures { WaitsFor (I.glances snapshots.now) turns cpu.old none_seen result cpu.new }
{
    let mut seen = [false; MOST_CPUS];
    let mut waited = interlock.glance(rt, cpu, snapshots, &mut seen);
    for _ in 1..turns {
        if waited.is_none() {
            return None;
        }
        yield_now();
        waited = interlock.glance(rt, cpu, snapshots, &mut seen);
    }
    waited
}

impl<'a, D: Domain> UnderInterlock<D> for Locked<'a, D> {
    ghost use Rattle.name_registry.specs.Performing.{SomeBegan, SomeGlanced, SomePassed};

    ghost begins = { SomeBegan D.settings };

    ghost glances = { SomeGlanced D.settings };

    ghost passes = { SomePassed D.settings };

    #[tactic(auto, using(crate::proofs::Counted::begun, passive_list::proofs::Sharing::shared, passive_list::proofs::Sharing::sharing))]
    fn begin<R: Wait>(
        &mut self,
        rt: &R,
        cpu: &mut Cpu<D>,
        snapshots: &mut [u64; MOST_CPUS],
        retired: &mut [u64; MOST_SLOTS],
    ) {
        let keeper = &mut self.registry.interlock.lock(rt).keeper;
        begin(
            &self.registry.words,
            keeper,
            &mut cpu.plain,
            snapshots,
            retired,
        );
    }

    #[tactic(auto, using(crate::proofs::Counted::glanced, passive_list::proofs::Sharing::shared, passive_list::proofs::Sharing::sharing))]
    fn glance<R: Wait>(
        &mut self,
        rt: &R,
        cpu: &mut Cpu<D>,
        snapshots: &[u64; MOST_CPUS],
        seen: &mut [bool; MOST_CPUS],
    ) -> Option<u8> {
        let keeper = &mut self.registry.interlock.lock(rt).keeper;
        glance_at_all(
            &self.registry.words,
            keeper,
            &mut cpu.plain,
            snapshots,
            seen,
        )
    }

    fn pass<R: Wait>(&mut self, rt: &R, cpu: &mut Cpu<D>, retired: &[u64; MOST_SLOTS]) {
        let keeper = &mut self.registry.interlock.lock(rt).keeper;
        pass_all(&self.registry.words, keeper, &mut cpu.plain, retired);
    }
}
