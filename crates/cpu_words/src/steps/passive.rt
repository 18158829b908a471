//! Passive references (psref(9)): each counted in a passive word of the CPU that has it, one word for each slot.

ghost use Rattle.std.specs.Prelude.{◌≡◌, ◌<◌};
ghost use Rattle.cpu_words.specs.Types.{PassiveAdd, PassiveSub, LoadRecord, Passive, Word};
ghost use Rattle.cpu_words.specs.declared.view.View.TheVariants.{Cpu};
ghost use Rattle.cpu_words.specs.Views.{references_to};
ghost use Rattle.cpu_words.specs.Spots.{IsRowOf};
ghost use Rattle.cpu_words.specs.Steps.{SeatMakes};
ghost use Rattle.cpu_words.specs.Passives.{MayAdd, MayUse, HasAdded, HasSubtracted, IsWordOf, IsAloneAt, IsNamed};

use crate::law::Words;
use crate::layout::{Row, record_place};
use crate::operations::by_seat;
use crate::seat::CpuSeat;
use protocol::{Event, RecordOf};
use registry_values::MOST_SLOTS;
use std::marker::Brand;

/// The row's CPU gets a passive reference to the entry `number` of slot `slot`, by one addition to its passive word for that slot. Returns how
/// many it had. Its references into the slot are all to that entry.
/// Condition: the seat is that CPU's and idle. The entry is its last found one, or it has a passive reference to it already. It has fewer
/// of them than the passive limit.
pub fn passive_add(words: &Words, seat: &mut CpuSeat, row: Row, slot: u8, number: u64) -> u64
    requires table { seat.old.table ≡ words.now.table }
    requires cpu { (row.cpu < words.now.settings.cpus) × (seat.old.view.id ≡ row.cpu) }
    requires place { slot < words.now.settings.slots }
    requires row { IsRowOf words.now.settings.slots row }
    requires may { MayAdd seat.old.view slot number }
    ensures step { SeatMakes Cpu (PassiveAdd row.cpu number) (Word result) seat.old seat.new }
    ensures change { HasAdded seat.old.view slot number seat.new.view }
    ensures slot { slot < MOST_SLOTS }
    ensures count { result ≡ references_to number seat.old.view.references }
    ensures alone { IsAloneAt seat.old.view slot number }
{
    let word = row.passive_place(words, slot);
    by_seat::add::<_, Brand>(words, seat, word, 1, Event::PassiveAdd(row.cpu, number))
}

/// The row's CPU gives up a passive reference to the entry `number` of slot `slot`, by one subtraction from its passive word for that slot.
/// Returns how many it had.
/// Condition: the seat is that CPU's and idle, and has such a reference.
pub fn passive_sub(words: &Words, seat: &mut CpuSeat, row: Row, slot: u8, number: u64) -> u64
    requires table { seat.old.table ≡ words.now.table }
    requires cpu { (row.cpu < words.now.settings.cpus) × (seat.old.view.id ≡ row.cpu) }
    requires place { slot < words.now.settings.slots }
    requires row { IsRowOf words.now.settings.slots row }
    requires may { MayUse seat.old.view slot number }
    ensures step { SeatMakes Cpu (PassiveSub row.cpu number) (Word result) seat.old seat.new }
    ensures change { HasSubtracted seat.old.view number seat.new.view }
    ensures count { result ≡ references_to number seat.old.view.references }
    ensures alone { IsAloneAt seat.old.view slot number }
{
    let word = row.passive_place(words, slot);
    by_seat::subtract::<_, Brand>(words, seat, word, 1, Event::PassiveSub(row.cpu, number))
}

/// CPU `cpu` loads word `k` of the record of the entry `number` in slot `slot` by its passive reference: 0 is the number, 1 the kind,
/// 2 and 3 the name's high and low words, which are those of a name, 4 the value.
/// Condition: the seat is that CPU's and idle, and has such a reference; the slot is one of the table's, and `k` is
/// below 5.
pub fn load_passive(words: &Words, seat: &mut CpuSeat, cpu: u8, slot: u8, number: u64, k: u8) -> u64
    requires table { seat.old.table ≡ words.now.table }
    requires cpu { (cpu < words.now.settings.cpus) × (seat.old.view.id ≡ cpu) }
    requires place { (slot < words.now.settings.slots) × (k < 5) }
    requires may { MayUse seat.old.view slot number }
    ensures step { SeatMakes Cpu (LoadRecord (Passive cpu number k)) (Word result) seat.old seat.new }
    ensures same { seat.new.view ≡ seat.old.view }
    ensures word { IsWordOf seat.old.view slot number k result }
    ensures alone { IsAloneAt seat.old.view slot number }
    ensures name { IsNamed seat.old.view slot number }
{
    let word = record_place(slot as usize, k);
    let event = Event::LoadRecord(RecordOf::Passive(cpu, number, k));
    by_seat::load::<_, Brand>(words, seat, word, event)
}
