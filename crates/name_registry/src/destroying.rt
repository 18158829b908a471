//! Destroying a retired entry, in several turns.

ghost use Rattle.std.specs.Prelude.{◌≡◌, ◌<◌, ◌≤◌, IfOk, IfErr, false};
ghost use Rattle.cpu_words.specs.Common.{IsFreedFrom, AreWordsOf};
ghost use Rattle.name_registry.specs.Destroying.{Destroys, DestroysOutside, HasAdvancedFor, IsDestroyAnswer, IsTurn, StaysGone};
ghost use Rattle.name_registry.specs.Locking.{IsDestroyRefusal, IsStageOf, KeepsWords, is_inside, HasLearned};

use crate::advancing::advance_in;
use crate::exchange::{hear_cpu, show_cpu};
use crate::registry::{Locked, Registry};
use cpu_words::{Domain, Words};
use passive_list::{Cpu, Keeper, PlainCpu};
use registry_values::{Refusal, Stage, destroyed};
use std::sync::Wait;
use std::thread::yield_now;

impl<D: Domain> Registry<D> {
    /// Destroys the retired entry `number`: at most `turns` turns of `advance` (psref_target_destroy(9), localcount_drain(9)), with the
    /// interlock free between them. Returns the slot, from 0, that is vacant again.
    /// Condition: at least one turn.
    ///
    /// - Ok (`forever`): nothing holds the entry, now or later.
    /// - Each result (`answer`): the caller's CPU knows what the last turn met, at nine loads a turn; its pass grows as by `hear`.
    ///
    /// Refused, in this order:
    ///
    /// - `Inside`: the CPU is inside a section; nothing has changed then;
    /// - `NotRetired`: no slot has the retired entry `number`, also if another caller freed it between two turns;
    /// - `StillHeld`, with the obstacle of the last turn. What turns noted and collected stays.
    #[tactic(auto, using(crate::proofs::Attached::inside_is, crate::proofs::Destroyed::destroyed_small, crate::proofs::Destroyed::destroys_inside, crate::proofs::Destroyed::destroys_outside, crate::proofs::Waited::learns_none))]
    pub fn destroy<R: Wait>(
        &self,
        rt: &R,
        cpu: &mut Cpu<D>,
        number: u64,
        turns: u32,
    ) -> Result<u8, Refusal>
        requires { 1 ≤ turns }
        ensures freed { IfOk result (λ slot. (is_inside cpu.old ≡ false) × (slot < D.settings.slots)) }
        ensures refused { IfErr result (λ refusal. IsDestroyRefusal D.settings (is_inside cpu.old) refusal) }
        ensures gone { IfOk result (λ slot. IsFreedFrom slot number cpu.new.known_log) }
        ensures forever { IfOk result (λ slot. StaysGone D.settings slot number cpu.new) }
        ensures answer { IsDestroyAnswer D.settings number cpu.old result cpu.new }
        ensures made { DestroysOutside D.settings number turns (is_inside cpu.old) cpu.old result cpu.new }
        ensures learned { HasLearned cpu.old cpu.new × (cpu.new.made ≡ cpu.old.made) }
    {
        if cpu.inside() {
            return Err(Refusal::Inside);
        }
        let mut interlock = Locked { registry: self };
        destroy_in_turns(rt, &mut interlock, cpu, number, turns)
    }
}

/// What a `destroy` does under the interlock, which it takes anew for each turn. Only the caller's CPU lasts from one to the next.
trait AdvancesUnderInterlock<D: Domain> {
    ghost use Rattle.std.specs.Prelude.{ℕ, Result};
    ghost use Rattle.name_registry.specs.Types.{Refusal, Stage};
    ghost use Rattle.passive_list.specs.Common.{OnCpu};

    // of the number and the CPU before: the answer, and the CPU after
    ghost advances: { ℕ → OnCpu → Result Stage Refusal → OnCpu → Type 0 };

    /// One turn of the work on the retired entry `number`: the first obstacle, or `Freed`.
    fn advance<R: Wait>(&mut self, rt: &R, cpu: &mut Cpu<D>, number: u64) -> Result<Stage, Refusal>
        ensures { advances number cpu.old result cpu.new };
}

/// Makes at most so many turns, and none after one that met no obstacle. Between two it lets another thread run, which may be a reader in
/// the middle of its section, without a processor.
#[tactic(auto, using(registry_values::proofs::Answers::handed_on, crate::proofs::Destroyed::ends_unretired))]
fn destroy_in_turns<D: Domain, I: AdvancesUnderInterlock<D>, R: Wait>(
    rt: &R,
    interlock: &mut I,
    cpu: &mut Cpu<D>,
    number: u64,
    turns: u32,
) -> Result<u8, Refusal>
    requires { 1 ≤ turns }
    ensures { Destroys (I.advances number) turns cpu.old result cpu.new }
{
    let mut stage = interlock.advance(rt, cpu, number)?;
    for _ in 1..turns {
        if let Stage::Freed(slot) = stage {
            return Ok(slot);
        }
        yield_now();
        stage = interlock.advance(rt, cpu, number)?;
    }
    destroyed(stage)
}

/// `advance_in` for a caller with a CPU: the keeper hears first what the CPU knows, and once more after the turn, so that it finds in its log what it
/// did. Then the CPU hears what the keeper did, all of it: what the turn met is in what the CPU knows (`turn`).
pub fn advance_for(
    words: &Words,
    keeper: &mut Keeper,
    cpu: &mut PlainCpu,
    number: u64,
) -> Result<Stage, Refusal>
    requires words { AreWordsOf words.now keeper.old.words.table keeper.old.words.settings }
    requires cpu { AreWordsOf words.now cpu.old.words.table cpu.old.words.settings }
    ensures answer { HasAdvancedFor keeper.old.words.settings keeper.old.keeper cpu.old.cpu number result keeper.new.keeper cpu.new.cpu }
    ensures turn { IsTurn keeper.old.words.settings number cpu.old.cpu result cpu.new.cpu }
    ensures stage { IfOk result (λ stage. IsStageOf keeper.old.words.settings stage) }
    ensures words { KeepsWords keeper.old cpu.old keeper.new cpu.new }
{
    hear_cpu(words, keeper, cpu);
    let answer = advance_in(words, keeper, number);
    hear_cpu(words, keeper, cpu);
    show_cpu(words, keeper, cpu);
    answer
}

impl<'a, D: Domain> AdvancesUnderInterlock<D> for Locked<'a, D> {
    ghost use Rattle.name_registry.specs.Destroying.{SomeAdvancedFor};

    ghost advances = { SomeAdvancedFor D.settings };

    fn advance<R: Wait>(
        &mut self,
        rt: &R,
        cpu: &mut Cpu<D>,
        number: u64,
    ) -> Result<Stage, Refusal> {
        let keeper = &mut self.registry.interlock.lock(rt).keeper;
        advance_for(&self.registry.words, keeper, &mut cpu.plain, number)
    }
}
