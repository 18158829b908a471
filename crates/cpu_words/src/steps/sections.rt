//! Read sections (pserialize(9)): Enter and Exit, each one addition to the CPU's section word.

ghost use Rattle.std.specs.Prelude.{◌≡◌, ◌<◌};
ghost use Rattle.cpu_words.specs.Types.{Enter, Exit, Done};
ghost use Rattle.cpu_words.specs.declared.view.View.TheVariants.{Cpu};
ghost use Rattle.cpu_words.specs.Spots.{IsRowOf};
ghost use Rattle.cpu_words.specs.Steps.{SeatMakes};
ghost use Rattle.cpu_words.specs.Sections.{MayEnter, HasEntered, MayExit, HasExited};

use crate::law::Words;
use crate::layout::Row;
use crate::operations::by_seat;
use crate::seat::CpuSeat;
use protocol::Event;
use std::marker::Brand;

/// The row's CPU begins a section: its section word becomes odd, and its pass the whole history.
/// Condition: the seat is that CPU's, idle and outside, and its section word is below twice the section limit.
pub fn enter(words: &Words, seat: &mut CpuSeat, row: Row)
    requires table { seat.old.table ≡ words.now.table }
    requires cpu { (row.cpu < words.now.settings.cpus) × (seat.old.view.id ≡ row.cpu) }
    requires row { IsRowOf words.now.settings.slots row }
    requires may { MayEnter seat.old.view }
    ensures step { SeatMakes Cpu (Enter row.cpu) Done seat.old seat.new }
    ensures change { HasEntered seat.old.view seat.new.view }
{
    let word = row.section_place(words);
    by_seat::add::<_, Brand>(words, seat, word, 1, Event::Enter(row.cpu));
}

/// The row's CPU ends its section: its section word becomes even, and what it had found is not its own any more.
/// Condition: the seat is that CPU's, idle and inside.
pub fn exit(words: &Words, seat: &mut CpuSeat, row: Row)
    requires table { seat.old.table ≡ words.now.table }
    requires cpu { (row.cpu < words.now.settings.cpus) × (seat.old.view.id ≡ row.cpu) }
    requires row { IsRowOf words.now.settings.slots row }
    requires may { MayExit seat.old.view }
    ensures step { SeatMakes Cpu (Exit row.cpu) Done seat.old seat.new }
    ensures change { HasExited seat.old.view seat.new.view }
{
    let word = row.section_place(words);
    by_seat::add::<_, Brand>(words, seat, word, 1, Event::Exit(row.cpu));
}
