//! A passive reference without a section, by a CPU's seat. The passive word of the slot is counted up for an entry that the CPU remembers, and
//! then the slot's live word is loaded. If it is the entry's number, that is a reference. Else it is taken back.

ghost use Rattle.std.specs.Prelude.{◌≡◌, ◌≢◌, ◌<◌};
ghost use Rattle.cpu_words.specs.Types.{Try, Confirm, TakeBack, Recall, Word};
ghost use Rattle.cpu_words.specs.declared.view.View.TheVariants.{Cpu};
ghost use Rattle.cpu_words.specs.Rule.{did};
ghost use Rattle.cpu_words.specs.Spots.{IsRowOf};
ghost use Rattle.cpu_words.specs.Steps.{Makes, SeatGoesOn, SeatMakes};
ghost use Rattle.cpu_words.specs.Passives.{HasSeenMore, event_by, HasConfirmed, HasTakenBack, HasTried, MayEndTry, MayTakeBack, MayTry};

use crate::law::Words;
use crate::layout::{Row, live_place};
use crate::operations::by_seat;
use crate::seat::CpuSeat;
use protocol::Event;
use std::marker::Brand;

/// The row's CPU counts its passive word of `slot` up, to get a reference to the entry with `number`: one addition. Returns the word as it was.
/// Condition: the seat is that CPU's and idle, and that entry of the slot is in its pass. The slot is one of the table's, and the CPU has fewer
/// references into it than the passive limit.
pub fn begin_try(words: &Words, seat: &mut CpuSeat, row: Row, slot: u8, number: u64) -> u64
    requires table { seat.old.table ≡ words.now.table }
    requires cpu { (row.cpu < words.now.settings.cpus) × (seat.old.view.id ≡ row.cpu) }
    requires place { slot < words.now.settings.slots }
    requires row { IsRowOf words.now.settings.slots row }
    requires may { MayTry seat.old.view slot number }
    ensures step { SeatMakes Cpu (Try row.cpu slot number) (Word result) seat.old seat.new }
    ensures change { HasTried seat.old.view number seat.new.view }
{
    let word = row.passive_place(words, slot);
    by_seat::add::<_, Brand>(words, seat, word, 1, Event::Try(row.cpu, slot, number))
}

/// CPU `cpu` loads the live word of `slot`, and returns it. If it is `number`, what the CPU counted up is a reference to that entry, which is
/// live. Else what was counted up is still to be taken back. Either way its pass is the whole history.
/// Condition: the seat is that CPU's. It has counted up for that entry of its pass, and no search is under way.
pub fn end_try(words: &Words, seat: &mut CpuSeat, cpu: u8, slot: u8, number: u64) -> u64
    requires table { seat.old.table ≡ words.now.table }
    requires cpu { (cpu < words.now.settings.cpus) × (seat.old.view.id ≡ cpu) }
    requires place { slot < words.now.settings.slots }
    requires may { MayEndTry seat.old.view slot number }
    ensures step { SeatGoesOn (did (event_by number (Confirm cpu) (Recall cpu slot) result) (Word result)) seat.old seat.new }
    ensures confirmed { result ≡ number → Makes (Confirm cpu) (Word result) (Cpu seat.old.view) (Cpu seat.new.view) × HasConfirmed seat.old.view seat.new.view }
    ensures late { result ≢ number → Makes (Recall cpu slot) (Word result) (Cpu seat.old.view) (Cpu seat.new.view) × HasSeenMore seat.old.view seat.new.view }
{
    by_seat::load_either::<_, Brand>(
        words,
        seat,
        live_place(slot),
        number,
        Event::Confirm(cpu),
        Event::Recall(cpu, slot),
    )
}

/// The row's CPU counts its passive word of `slot` down again: one subtraction. Returns the word as it was.
/// Condition: the seat is that CPU's, and it has counted that word up to get a reference.
pub fn take_back(words: &Words, seat: &mut CpuSeat, row: Row, slot: u8) -> u64
    requires table { seat.old.table ≡ words.now.table }
    requires cpu { (row.cpu < words.now.settings.cpus) × (seat.old.view.id ≡ row.cpu) }
    requires place { slot < words.now.settings.slots }
    requires row { IsRowOf words.now.settings.slots row }
    requires may { MayTakeBack seat.old.view slot }
    ensures step { SeatMakes Cpu (TakeBack row.cpu) (Word result) seat.old seat.new }
    ensures change { HasTakenBack seat.old.view seat.new.view }
{
    let word = row.passive_place(words, slot);
    by_seat::subtract::<_, Brand>(words, seat, word, 1, Event::TakeBack(row.cpu))
}
