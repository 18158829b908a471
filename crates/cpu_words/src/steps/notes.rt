//! Notes: what one seat has seen reaches another. A note is a seat of its own, which knows a prefix of the history, and what its teller
//! knew of the keeper's log; and of a CPU's note it is known how many events that CPU had made.

ghost use Rattle.std.specs.Prelude.{◌≡◌, ◌<◌, Some, None, ◌++◌, []};
ghost use mathlib.Core.List.{IsPrefix};
ghost use Rattle.cpu_words.specs.Types.{Tell, Hear, Done, Rest};
ghost use Rattle.cpu_words.specs.declared.view.View.TheVariants.{Keeper, Cpu, Note};
ghost use Rattle.cpu_words.specs.Sections.{IsIdle};
ghost use Rattle.cpu_words.specs.Rule.{did};
ghost use Rattle.cpu_words.specs.Steps.{ListGoesOn, Makes, SplitsBy, SeatRegroups};
ghost use Rattle.cpu_words.specs.Seats.{with_note, keeper_with_note};
ghost use Rattle.cpu_words.specs.KeeperLog.{KnownLogGrows, heard_from, IsOwnLog, IsShownAfter};
ghost use Rattle.cpu_words.specs.Logs.{teller_of};

use crate::law::Words;
use crate::operations::notes;
use crate::operations::notes::{CpuNote, KeeperNote};
use crate::seat::{CpuSeat, KeeperSeat, MayDrop, NoteSeat};

/// CPU `cpu` tells what it has seen: the note has its pass, and what it has heard of the keeper's log, and names the CPU as its teller, with
/// how many events it has made, this one among them. Condition: the seat is that CPU's, and idle.
#[tactic(auto, using(crate::proofs::seats::Notes::cpu_splits))]
pub fn tell(words: &Words, seat: &mut CpuSeat, cpu: u8) -> NoteSeat
    requires table { seat.old.table ≡ words.now.table }
    requires cpu { seat.old.view.id ≡ cpu }
    requires may { IsIdle seat.old.view }
    ensures step { SeatRegroups (did (Tell (Some cpu)) Done) seat.old seat.new }
    ensures same { seat.new.view ≡ seat.old.view }
    ensures event { SplitsBy (Tell (Some cpu)) (Cpu seat.old.view) (Cpu seat.old.view) (Note result.view) }
    ensures note { result.view ≡ seat.old.view.pass }
    ensures new { (result.table ≡ seat.old.table) × (result.log ≡ []) }
    ensures known_log { result.known_log ≡ seat.old.known_log }
    ensures teller { result.teller ≡ Some (teller_of seat.old.view seat.old.log) }
{
    // The contract alone speaks of the CPU's number.
    let _cpu = cpu;
    NoteSeat {
        token: words.table.shared.split_seat::<CpuNote>(&mut seat.token),
        end: MayDrop,
    }
}

/// The keeper tells what it has seen: the note has the whole history, and all that the keeper did, this with it. Condition: the keeper is at rest.
#[tactic(auto, using(crate::proofs::seats::Notes::keeper_splits, crate::proofs::seats::Notes::keeper_splits_by))]
pub fn tell_keeper(words: &Words, keeper: &mut KeeperSeat) -> NoteSeat
    requires table { keeper.old.table ≡ words.now.table }
    requires may { keeper.old.view.due ≡ Rest }
    ensures step { SeatRegroups (did (Tell None) Done) keeper.old keeper.new }
    ensures same { keeper.new.view ≡ keeper.old.view }
    ensures event { SplitsBy (Tell None) (Keeper keeper.old.view) (Keeper keeper.old.view) (Note result.view) }
    ensures note { result.view ≡ keeper.old.view.history }
    ensures new { (result.table ≡ keeper.old.table) × (result.log ≡ []) }
    ensures known_log { result.known_log ≡ keeper.new.log }
    ensures teller { result.teller ≡ None }
{
    NoteSeat {
        token: words
            .table
            .shared
            .split_seat::<KeeperNote>(&mut keeper.token),
        end: MayDrop,
    }
}

/// CPU `cpu` hears a note. Its pass becomes the whole history, with what the note tells in it; what it has heard of the keeper's log goes
/// on to all that the note tells of it. The note is laid beside the seat's view, and one load of the CPU's section word is the event. The
/// CPU's log has it with the note's teller.
/// Condition: the seat is that CPU's, and idle.
#[tactic(auto, using(crate::proofs::seats::Notes::cpu_heard, crate::proofs::seats::Notes::heard_event, crate::proofs::seats::Notes::laid_idle, crate::proofs::logs::Known::shown_with_note))]
pub fn hear(words: &Words, seat: &mut CpuSeat, cpu: u8, note: NoteSeat)
    requires table { (seat.old.table ≡ words.now.table) × (note.table ≡ words.now.table) }
    requires cpu { (cpu < words.now.settings.cpus) × (seat.old.view.id ≡ cpu) }
    requires may { IsIdle seat.old.view }
    ensures table { seat.new.table ≡ seat.old.table }
    ensures event { Makes (Hear (Some cpu)) Done (Cpu (with_note seat.old.view note.view)) (Cpu seat.new.view) }
    ensures told { IsPrefix note.view seat.new.view.pass }
    ensures change { IsPrefix seat.old.view.pass seat.new.view.pass × (seat.new.view ≡ record seat.old.view { pass = seat.new.view.pass; noted_pass = note.view }) }
    ensures log { seat.new.log ≡ seat.old.log ++ heard_from (Some cpu) note.teller }
    ensures known_log { KnownLogGrows seat.old.known_log note.known_log seat.new.known_log }
    ensures counts { IsShownAfter seat.new.known_log (Cpu (with_note seat.old.view note.view)) }
    ensures list { ListGoesOn seat.old.list seat.new.log seat.new.list }
{
    notes::lay(words, seat, note);
    notes::listen(words, seat, cpu);
}

/// The keeper hears a note. What the note tells is in its history, what it tells of the keeper's log begins that log, and the history is as
/// long as the log says. The note is laid beside the seat's view, and one load of the head is the event. The keeper's log has it with the
/// note's teller: whoever hears that log knows how far the teller had come by then.
/// Condition: the keeper is at rest.
#[tactic(auto, using(crate::proofs::seats::Notes::keeper_heard))]
pub fn hear_keeper(words: &Words, keeper: &mut KeeperSeat, note: NoteSeat)
    requires table { (keeper.old.table ≡ words.now.table) × (note.table ≡ words.now.table) }
    requires may { keeper.old.view.due ≡ Rest }
    ensures table { keeper.new.table ≡ keeper.old.table }
    ensures event { Makes (Hear None) Done (Keeper (keeper_with_note keeper.old.view note.view)) (Keeper keeper.new.view) }
    ensures told { IsPrefix note.view keeper.new.view.history }
    ensures change { keeper.new.view ≡ keeper_with_note keeper.old.view note.view }
    ensures log { keeper.new.log ≡ keeper.old.log ++ heard_from None note.teller }
    ensures own_log { IsOwnLog keeper.old.log note.known_log keeper.old.view }
    ensures list { ListGoesOn keeper.old.list keeper.new.log keeper.new.list }
{
    notes::lay_by_keeper(words, keeper, note);
    notes::hear_noted(words, keeper);
}
