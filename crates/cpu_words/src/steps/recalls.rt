//! An entry is recalled, by a CPU's seat: inside a section or outside, by one load of its slot's live word, however long the list is.
//! Inside it may be found again by that load. Of the newest live entry the head tells the slot.

ghost use Rattle.std.specs.Prelude.{◌≡◌, ◌≢◌, ◌<◌, None};
ghost use Rattle.cpu_words.specs.Types.{Recall, RecallHead, Refind, Word};
ghost use Rattle.cpu_words.specs.declared.view.View.TheVariants.{Cpu};
ghost use Rattle.cpu_words.specs.Steps.{Makes, SeatGoesOn, SeatMakes};
ghost use Rattle.cpu_words.specs.Sections.{HasWholePass};
ghost use Rattle.cpu_words.specs.Passives.{HasRecalled, HasRecalledHead, HasRefound, MayRecall, MayRefind, event_by};
ghost use Rattle.cpu_words.specs.Rule.{did};

use crate::law::Words;
use crate::layout::{HEAD, live_place};
use crate::operations::by_seat;
use crate::seat::CpuSeat;
use protocol::Event;
use std::marker::Brand;

/// CPU `cpu` loads the live word of `slot`. Returns it: 0, or the number of the entry that is live there now. Its pass is the whole history.
/// Condition: the seat is that CPU's, no search is under way, and the slot is one of the table's.
pub fn recall(words: &Words, seat: &mut CpuSeat, cpu: u8, slot: u8) -> u64
    requires table { seat.old.table ≡ words.now.table }
    requires cpu { (cpu < words.now.settings.cpus) × (seat.old.view.id ≡ cpu) }
    requires place { slot < words.now.settings.slots }
    requires may { MayRecall seat.old.view slot }
    ensures step { SeatMakes Cpu (Recall cpu slot) (Word result) seat.old seat.new }
    ensures change { HasRecalled seat.old.view slot result seat.new.view }
    ensures whole { HasWholePass seat.new.view }
{
    by_seat::load::<_, Brand>(words, seat, live_place(slot), Event::Recall(cpu, slot))
}

/// CPU `cpu` loads the head of the list. Returns it: 0, or the slot of the newest entry that is live now, plus 1. Its pass is the whole history.
/// Condition: the seat is that CPU's, and no search is under way.
#[tactic(auto, using(crate::proofs::by_cpu::Recalling::recall_head_may))]
pub fn recall_head(words: &Words, seat: &mut CpuSeat, cpu: u8) -> u64
    requires table { seat.old.table ≡ words.now.table }
    requires cpu { (cpu < words.now.settings.cpus) × (seat.old.view.id ≡ cpu) }
    requires search { seat.old.view.search ≡ None }
    ensures step { SeatMakes Cpu (RecallHead cpu) (Word result) seat.old seat.new }
    ensures change { HasRecalledHead seat.old.view result seat.new.view }
    ensures whole { HasWholePass seat.new.view }
{
    by_seat::load::<_, Brand>(words, seat, HEAD, Event::RecallHead(cpu))
}

/// CPU `cpu` loads the live word of `slot`, and returns it. If it is `number`, that entry is live, and is the last found one, as after a
/// search. Else the load is a recall. Either way the CPU's pass is the whole history.
/// Condition: the seat is that CPU's and inside, no search is under way, and that entry of the slot is in its pass.
pub fn refind(words: &Words, seat: &mut CpuSeat, cpu: u8, slot: u8, number: u64) -> u64
    requires table { seat.old.table ≡ words.now.table }
    requires cpu { (cpu < words.now.settings.cpus) × (seat.old.view.id ≡ cpu) }
    requires place { slot < words.now.settings.slots }
    requires may { MayRefind seat.old.view slot number }
    ensures step { SeatGoesOn (did (event_by number (Refind cpu slot number) (Recall cpu slot) result) (Word result)) seat.old seat.new }
    ensures found { result ≡ number → Makes (Refind cpu slot number) (Word result) (Cpu seat.old.view) (Cpu seat.new.view) × HasRefound seat.old.view slot number seat.new.view }
    ensures other { result ≢ number → Makes (Recall cpu slot) (Word result) (Cpu seat.old.view) (Cpu seat.new.view) × HasRecalled seat.old.view slot result seat.new.view }
    ensures whole { HasWholePass seat.new.view }
{
    by_seat::load_either::<_, Brand>(
        words,
        seat,
        live_place(slot),
        number,
        Event::Refind(cpu, slot, number),
        Event::Recall(cpu, slot),
    )
}
