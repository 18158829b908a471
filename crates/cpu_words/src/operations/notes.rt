//! How a note is cut off a seat that has seen something, and laid beside the view of a seat that is to hear it.

ghost use Rattle.std.specs.Prelude.{◌≡◌, ◌<◌, ◌++◌, Some, None};
ghost use Rattle.cpu_words.specs.declared.view.View.TheVariants.{Cpu};
ghost use Rattle.cpu_words.specs.Types.{Rest};
ghost use Rattle.cpu_words.specs.KeeperLog.{KnownLogGrows, heard_from, IsOwnLog, IsShownAfter};
ghost use Rattle.cpu_words.specs.Steps.{ListGoesOn, SeatGoesOn};
ghost use Rattle.cpu_words.specs.Seats.{with_note, keeper_with_note, CpuHears, KeeperHears};
ghost use Rattle.cpu_words.specs.Sections.{IsIdle};

use crate::law::{CpuHearing, NoteHearing, Words};
use crate::layout::{HEAD, section_place};
use crate::seat::{CpuSeat, KeeperSeat, NoteSeat};
use crate::view::Logged;
use atomic_table::{Join, Split};

/// A note of a CPU's pass, or to a CPU.
pub(crate) struct CpuNote;

impl Split<Logged> for CpuNote {
    ghost use Rattle.cpu_words.specs.Seats.{as_before, pass_told};
    ghost use Rattle.cpu_words.specs.Logs.{logged_after_split, fresh, known_log_of, tells_pass, told_by_cpu};

    ghost left = { logged_after_split as_before tells_pass };

    ghost right = { fresh pass_told known_log_of told_by_cpu };
}

impl Join<Logged> for CpuNote {
    ghost use Rattle.cpu_words.specs.Seats.{beside_cpu};
    ghost use Rattle.cpu_words.specs.Logs.{logged_with_note, spent_seat};

    ghost both = { logged_with_note beside_cpu };

    ghost spent = { spent_seat };
}

/// A note of the history by the keeper, or to the keeper.
pub(crate) struct KeeperNote;

impl Split<Logged> for KeeperNote {
    ghost use Rattle.cpu_words.specs.Seats.{as_before, history_told};
    ghost use Rattle.cpu_words.specs.Logs.{logged_after_split, fresh, whole_log, tells_history, no_teller};

    ghost left = { logged_after_split as_before tells_history };

    ghost right = { fresh history_told (whole_log tells_history) no_teller };
}

impl Join<Logged> for KeeperNote {
    ghost use Rattle.cpu_words.specs.Seats.{beside_keeper};
    ghost use Rattle.cpu_words.specs.Logs.{logged_with_note, spent_seat};

    ghost both = { logged_with_note beside_keeper };

    ghost spent = { spent_seat };
}

/// Lays a note beside a CPU's view, in place of the one before. This is no event of the core.
#[tactic(auto, using(crate::proofs::seats::Notes::cpu_joins))]
pub(crate) fn lay(words: &Words, seat: &mut CpuSeat, note: NoteSeat)
    requires table { (seat.old.table ≡ words.now.table) × (note.table ≡ words.now.table) }
    ensures table { seat.new.table ≡ seat.old.table }
    ensures change { seat.new.view ≡ with_note seat.old.view note.view }
    ensures log { seat.new.log ≡ seat.old.log }
    ensures known_log { (seat.new.known_log ≡ seat.old.known_log) × (seat.new.noted_log ≡ note.known_log) × (seat.new.teller ≡ note.teller) }
    ensures list { seat.new.list ≡ seat.old.list }
{
    let NoteSeat { token, end: _ } = note;
    words
        .table
        .shared
        .join_seat::<CpuNote>(&mut seat.token, token);
}

/// The same beside the keeper's view.
#[tactic(auto, using(crate::proofs::seats::Notes::keeper_joins))]
pub(crate) fn lay_by_keeper(words: &Words, keeper: &mut KeeperSeat, note: NoteSeat)
    requires table { (keeper.old.table ≡ words.now.table) × (note.table ≡ words.now.table) }
    ensures table { keeper.new.table ≡ keeper.old.table }
    ensures change { keeper.new.view ≡ keeper_with_note keeper.old.view note.view }
    ensures log { keeper.new.log ≡ keeper.old.log }
    ensures known_log { (keeper.new.noted_log ≡ note.known_log) × (keeper.new.teller ≡ note.teller) }
    ensures list { keeper.new.list ≡ keeper.old.list }
{
    let NoteSeat { token, end: _ } = note;
    words
        .table
        .shared
        .join_seat::<KeeperNote>(&mut keeper.token, token);
}

/// Hears the note that is beside a CPU's view, by a load of the CPU's section word: its log says who told it.
pub(crate) fn listen(words: &Words, seat: &mut CpuSeat, cpu: u8)
    requires table { seat.old.table ≡ words.now.table }
    requires cpu { (cpu < words.now.settings.cpus) × (seat.old.view.id ≡ cpu) }
    requires may { IsIdle seat.old.view }
    ensures table { seat.new.table ≡ seat.old.table }
    ensures told { CpuHears seat.old.view seat.new.view }
    ensures log { seat.new.log ≡ seat.old.log ++ heard_from (Some seat.old.view.id) seat.old.teller }
    ensures known_log { KnownLogGrows seat.old.known_log seat.old.noted_log seat.new.known_log }
    ensures counts { IsShownAfter seat.new.known_log (Cpu seat.old.view) }
    ensures list { ListGoesOn seat.old.list seat.new.log seat.new.list }
{
    words
        .table
        .shared
        .load::<CpuHearing>(&mut seat.token, section_place(words, cpu));
}

/// Hears the note that is beside the keeper's view, by a load of the head: its log says who told it.
pub(crate) fn hear_noted(words: &Words, keeper: &mut KeeperSeat)
    requires table { keeper.old.table ≡ words.now.table }
    requires may { keeper.old.view.due ≡ Rest }
    ensures step { SeatGoesOn (heard_from None keeper.old.teller) keeper.old keeper.new }
    ensures told { KeeperHears keeper.old.view keeper.new.view }
    ensures own_log { IsOwnLog keeper.old.log keeper.old.noted_log keeper.old.view }
{
    words
        .table
        .shared
        .load::<NoteHearing>(&mut keeper.token, HEAD);
}
