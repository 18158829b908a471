//! Notes: what a CPU or the keeper has seen reaches another thread, and what that has seen is in it.

ghost use Rattle.std.specs.Prelude.{◌≡◌, ◌++◌, Some, None};
ghost use mathlib.Core.List.{IsPrefix};
ghost use Rattle.cpu_words.specs.Common.{AreWordsOf, heard_from, keeper_with_note, did};
ghost use Rattle.passive_list.specs.Cpus.{HasHeardOn, WasShown, as_teller, has_heard, cpu_after_tell};
ghost use Rattle.passive_list.specs.Types.{Tell, Done};
ghost use Rattle.passive_list.specs.Keepers.{HasOwnLog};

use crate::cpu::Cpu;
use crate::keeper::Keeper;
use crate::plain_cpu::PlainCpu;
use cpu_words::{Domain, NoteSeat, Words, steps};
use std::marker::{Model, PhantomData};

/// A note: what a CPU or the keeper of the table that D names had seen as it told. It moves between threads, and may be dropped.
///
/// To a contract it is that prefix of the history, and what its teller knew of the keeper's log. If a CPU told it, also which one, and how
/// many events that CPU had made.
#[derive(Drop)]
pub struct Note<D: Domain> {
    pub seat: NoteSeat,
    pub domain: PhantomData<D>,
}

impl<D: Domain> Model for Note<D> {
    ghost use Rattle.std.specs.Prelude.{◌≡◌};
    ghost use Rattle.passive_list.specs.Cpus.{OnNote};

    ghost Value = { OnNote };

    ghost view = { λ n. record { pass = n.seat.view; known_log = n.seat.known_log; teller = n.seat.teller } };

    ghost invariant = { λ n. n.seat.table ≡ D.table };
}

/// Tells what this CPU has seen: the note has its pass and what it has heard of the keeper's log, and names the CPU. It changes nothing but
/// the CPU's own log, inside a section or outside.
pub fn tell<D: Domain>(words: &Words, cpu: &mut Cpu<D>) -> Note<D>
    requires words { AreWordsOf words.now D.table D.settings }
    ensures note { result ≡ record { pass = cpu.old.view.pass; known_log = cpu.old.known_log; teller = Some (as_teller cpu.old) } }
    ensures log { cpu.new ≡ cpu_after_tell cpu.old }
{
    Note {
        seat: tell_on(words, &mut cpu.plain),
        domain: PhantomData,
    }
}

/// `tell` on a CPU that names its own table. Condition: the words are of its table.
pub fn tell_on(words: &Words, cpu: &mut PlainCpu) -> NoteSeat
    requires words { AreWordsOf words.now cpu.old.words.table cpu.old.words.settings }
    ensures table { result.table ≡ cpu.old.words.table }
    ensures note { (result.view ≡ cpu.old.cpu.view.pass) × (result.known_log ≡ cpu.old.cpu.known_log) × (result.teller ≡ Some (as_teller cpu.old.cpu)) }
    ensures log { cpu.new.cpu ≡ cpu_after_tell cpu.old.cpu }
    ensures words { cpu.new.words ≡ cpu.old.words }
{
    steps::tell(words, &mut cpu.seat, cpu.row.cpu)
}

/// Hears a note: from here on this CPU has seen what the note tells, and every lookup is at least as new. Its pass grows, and has what the
/// note told, and it has heard what the note tells of the keeper's log. Nothing else changes except the note that it heard last. It may be
/// inside a section or outside.
pub fn hear<D: Domain>(words: &Words, cpu: &mut Cpu<D>, note: Note<D>)
    requires words { AreWordsOf words.now D.table D.settings }
    ensures heard { HasHeardOn note.pass cpu.old cpu.new }
    ensures known_log { IsPrefix note.known_log cpu.new.known_log }
    ensures shown { WasShown note.pass cpu.old cpu.new }
    ensures log { cpu.new.log ≡ cpu.old.log ++ has_heard cpu.old note.teller }
{
    let Note { seat, domain: _ } = note;
    hear_on(words, &mut cpu.plain, seat);
}

/// `hear` on a CPU that names its own table. Condition: the words and the note's seat are of its table.
pub fn hear_on(words: &Words, cpu: &mut PlainCpu, note: NoteSeat)
    requires words { AreWordsOf words.now cpu.old.words.table cpu.old.words.settings }
    requires note { note.table ≡ cpu.old.words.table }
    ensures heard { HasHeardOn note.view cpu.old.cpu cpu.new.cpu }
    ensures known_log { IsPrefix note.known_log cpu.new.cpu.known_log }
    ensures shown { WasShown note.view cpu.old.cpu cpu.new.cpu }
    ensures log { cpu.new.cpu.log ≡ cpu.old.cpu.log ++ has_heard cpu.old.cpu note.teller }
    ensures words { cpu.new.words ≡ cpu.old.words }
{
    steps::hear(words, &mut cpu.seat, cpu.row.cpu, note);
}

/// The keeper tells its history and its whole log, this event with it, as a note. It changes nothing but the log.
pub fn tell_keeper(words: &Words, keeper: &mut Keeper) -> NoteSeat
    requires words { AreWordsOf words.now keeper.old.words.table keeper.old.words.settings }
    ensures table { result.table ≡ keeper.old.words.table }
    ensures note { result.view ≡ keeper.old.keeper.view.history }
    ensures known_log { result.known_log ≡ keeper.new.keeper.log }
    ensures teller { result.teller ≡ None }
    ensures log { keeper.new ≡ record keeper.old { keeper = record keeper.old.keeper { log = keeper.old.keeper.log ++ did (Tell None) Done } } }
{
    steps::tell_keeper(words, &mut keeper.seat)
}

/// The keeper hears a note: what the note tells is in its history, and what it tells of the keeper's log begins that log. It has
/// all that the keeper has in its slots and marks (`own`). Of the keeper nothing changes but the note that it heard last, and the log, which says
/// whose note it was, and how many events that CPU had made by then.
/// Condition: the words and the note's seat are of the keeper's table.
pub fn hear_keeper(words: &Words, keeper: &mut Keeper, note: NoteSeat)
    requires words { AreWordsOf words.now keeper.old.words.table keeper.old.words.settings }
    requires note { note.table ≡ keeper.old.words.table }
    ensures told { IsPrefix note.view keeper.new.keeper.view.history }
    ensures view { keeper.new.keeper.view ≡ keeper_with_note keeper.old.keeper.view note.view }
    ensures slots { keeper.new.keeper.slots ≡ keeper.old.keeper.slots }
    ensures log { keeper.new.keeper.log ≡ keeper.old.keeper.log ++ heard_from None note.teller }
    ensures known_log { IsPrefix note.known_log keeper.old.keeper.log }
    ensures own { HasOwnLog keeper.old.words.settings keeper.old.keeper }
    ensures words { keeper.new.words ≡ keeper.old.words }
{
    steps::hear_keeper(words, &mut keeper.seat, note);
}
