//! Read sections (pserialize(9)). Sections nest: only the outermost enter and exit step on the words.

ghost use Rattle.std.specs.Prelude.{◌≡◌, ◌≢◌, ◌↔◌, IsTrue, None};
ghost use Rattle.cpu_words.specs.Common.{AreWordsOf};
ghost use Rattle.passive_list.specs.Cpus.{AnswersEnter, HasEnteredOn, HasExitedOn, may_begin};

use crate::cpu::Cpu;
use crate::plain_cpu::PlainCpu;
use cpu_words::{Domain, Words, steps};
use registry_values::{Refusal, enter_answer};

/// Enters a section, or the open one once more. Where a section begins, the pass becomes the whole history.
/// Refused: `TooDeep` if the depth is `MOST_DEPTH`, then `SectionsSpent` if a section would begin and this CPU has begun `section_limit` of
/// them. Nothing changes then.
pub fn enter<D: Domain>(words: &Words, cpu: &mut Cpu<D>) -> Result<(), Refusal>
    requires words { AreWordsOf words.now D.table D.settings }
    ensures { AnswersEnter cpu.old cpu.new result }
{
    enter_on(words, &mut cpu.plain)
}

/// `enter` on a CPU that names its own table. Condition: the words are its table's.
pub fn enter_on(words: &Words, cpu: &mut PlainCpu) -> Result<(), Refusal>
    requires words { AreWordsOf words.now cpu.old.words.table cpu.old.words.settings }
    ensures entered { AnswersEnter cpu.old.cpu cpu.new.cpu result }
    ensures words { cpu.new.words ≡ cpu.old.words }
{
    let outside = cpu.depth == 0;
    if outside {
        enter_answer(0, true, may_begin(words, cpu))?;
        begin(words, cpu);
        return Ok(());
    }
    enter_answer(cpu.depth, false, false)?;
    cpu.depth += 1;
    Ok(())
}

/// Whether an enter would begin a section: the CPU is outside, and has begun fewer than it may. Condition: the words are its table's.
pub fn may_begin_on(words: &Words, cpu: &PlainCpu) -> bool
    requires words { AreWordsOf words.now cpu.now.words.table cpu.now.words.settings }
    ensures { IsTrue result ↔ (cpu.now.cpu.depth ≡ 0) × IsTrue (may_begin cpu.now.cpu.view) }
{
    cpu.depth == 0 && may_begin(words, cpu)
}

/// Whether this CPU may begin one section more.
#[tactic(auto, using(crate::proofs::Agreeing::may_begin_is))]
fn may_begin(words: &Words, cpu: &PlainCpu) -> bool
    requires words { AreWordsOf words.now cpu.now.words.table cpu.now.words.settings }
    ensures { result ≡ may_begin cpu.now.cpu.view }
{
    cpu.ended < words.settings().section_limit
}

/// Begins a section, as this CPU may.
fn begin(words: &Words, cpu: &mut PlainCpu)
    requires words { AreWordsOf words.now cpu.old.words.table cpu.old.words.settings }
    requires outside { cpu.old.cpu.depth ≡ 0 }
    requires room { IsTrue (may_begin cpu.old.cpu.view) }
    ensures entered { HasEnteredOn cpu.old.cpu cpu.new.cpu }
    ensures words { cpu.new.words ≡ cpu.old.words }
{
    steps::enter(words, &mut cpu.seat, cpu.row);
    cpu.depth = 1;
}

/// Exits the section, or one nesting of it. The exit that ends it clears the last found entry.
/// Condition: inside.
pub fn exit<D: Domain>(words: &Words, cpu: &mut Cpu<D>)
    requires words { AreWordsOf words.now D.table D.settings }
    requires inside { cpu.old.view.begin ≢ None }
    ensures { HasExitedOn cpu.old cpu.new }
{
    exit_on(words, &mut cpu.plain);
}

/// `exit` on a CPU that names its own table. Conditions: the words are its table's; inside.
pub fn exit_on(words: &Words, cpu: &mut PlainCpu)
    requires words { AreWordsOf words.now cpu.old.words.table cpu.old.words.settings }
    requires inside { cpu.old.cpu.view.begin ≢ None }
    ensures exited { HasExitedOn cpu.old.cpu cpu.new.cpu }
    ensures words { cpu.new.words ≡ cpu.old.words }
{
    if cpu.depth == 1 {
        return end(words, cpu);
    }
    cpu.depth -= 1;
}

/// Ends the section. The plain data change after the step: an atomic operation waits for each store that stands before it.
fn end(words: &Words, cpu: &mut PlainCpu)
    requires words { AreWordsOf words.now cpu.old.words.table cpu.old.words.settings }
    requires last { cpu.old.cpu.depth ≡ 1 }
    ensures exited { HasExitedOn cpu.old.cpu cpu.new.cpu }
    ensures words { cpu.new.words ≡ cpu.old.words }
{
    steps::exit(words, &mut cpu.seat, cpu.row);
    cpu.found.number = 0;
    cpu.depth = 0;
    cpu.ended += 1;
}
