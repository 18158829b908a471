//! What the caller's CPU and the keeper have seen reaches the other, by a note each.

ghost use Rattle.std.specs.Prelude.{◌≡◌, ◌++◌, None};
ghost use mathlib.Core.List.{IsPrefix};
ghost use Rattle.cpu_words.specs.Common.{AreWordsOf};
ghost use Rattle.passive_list.specs.Common.{HasOwnLog, HasHeardOn, cpu_after_tell, has_heard};
ghost use Rattle.name_registry.specs.Locking.{KeepsWords, keeper_after_hear, keeper_after_tell};

use cpu_words::Words;
use passive_list::{Keeper, PlainCpu, hear_keeper, hear_on, tell_keeper, tell_on};

/// The keeper hears what the CPU has seen: from now on it is known to be in the keeper's history. What the CPU knows of the keeper's log
/// begins the keeper's log, and that log has what the keeper has.
pub(crate) fn hear_cpu(words: &Words, keeper: &mut Keeper, cpu: &mut PlainCpu)
    requires words { AreWordsOf words.now keeper.old.words.table keeper.old.words.settings }
    requires cpu { AreWordsOf words.now cpu.old.words.table cpu.old.words.settings }
    ensures seen { IsPrefix cpu.old.cpu.view.pass keeper.new.keeper.view.history }
    ensures keeper { keeper.new.keeper ≡ keeper_after_hear keeper.old.keeper cpu.old.cpu }
    ensures known { IsPrefix cpu.old.cpu.known_log keeper.old.keeper.log }
    ensures own { HasOwnLog words.now.settings keeper.old.keeper }
    ensures cpu { cpu.new.cpu ≡ cpu_after_tell cpu.old.cpu }
    ensures words { KeepsWords keeper.old cpu.old keeper.new cpu.new }
{
    let note = tell_on(words, cpu);
    hear_keeper(words, keeper, note);
}

/// The CPU hears the whole history, and all that the keeper did: what the keeper changed is in its pass.
pub(crate) fn show_cpu(words: &Words, keeper: &mut Keeper, cpu: &mut PlainCpu)
    requires words { AreWordsOf words.now keeper.old.words.table keeper.old.words.settings }
    requires cpu { AreWordsOf words.now cpu.old.words.table cpu.old.words.settings }
    ensures keeper { keeper.new.keeper ≡ keeper_after_tell keeper.old.keeper }
    ensures cpu { HasHeardOn keeper.old.keeper.view.history cpu.old.cpu cpu.new.cpu }
    ensures told { IsPrefix keeper.new.keeper.log cpu.new.cpu.known_log }
    ensures log { cpu.new.cpu.log ≡ cpu.old.cpu.log ++ has_heard cpu.old.cpu None }
    ensures words { KeepsWords keeper.old cpu.old keeper.new cpu.new }
{
    let note = tell_keeper(words, keeper);
    hear_on(words, cpu, note);
}
