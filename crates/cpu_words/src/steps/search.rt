//! Searches by kind and name: Seek and LoadLink along the links, LoadRecord over the record words of a slot. Each is one load.
//! Slots are as wide as an address here: to widen a byte would stand between a link's load and the next one.

ghost use Rattle.std.specs.Prelude.{◌≡◌, ◌<◌, ◌≤◌, ◌-◌, ◌++◌};
ghost use Rattle.cpu_words.specs.Types.{Seek, LoadLink, LoadRecord, Compared, Done, Word};
ghost use Rattle.protocol.specs.declared.event.RecordOf.TheVariants.{Search as OfSearch};
ghost use Rattle.cpu_words.specs.declared.view.View.TheVariants.{Cpu};
ghost use Rattle.cpu_words.specs.Rule.{did};
ghost use Rattle.cpu_words.specs.Steps.{Makes, SeatGoesOn, SeatMakes};
ghost use Rattle.cpu_words.specs.Sections.{MaySeek, key_with, search_for, cpu_after_seek, MayLoadLink, link_answer, HasFollowed, HasLoadedLink, MayLoadSearched, loaded_of, loaded_answer, HasLoadedWord, IsValueThere};

use crate::law::Words;
use crate::layout::{HEAD, linked_place, record_place};
use crate::operations::by_seat;
use crate::seat::CpuSeat;
use protocol::{Event, RecordOf};
use registry_values::{Kind, MOST_SLOTS, Name};
use std::marker::Brand;

/// CPU `cpu` begins a search for a kind and a name, and loads the head of the list: a slot plus 1, or 0 where no entry has them.
/// Condition: the seat is that CPU's, idle and inside.
#[tactic(auto, using(crate::proofs::by_cpu::Searching::seek_may))]
pub fn seek(words: &Words, seat: &mut CpuSeat, cpu: u8, kind: Kind, name: Name) -> u64
    requires table { seat.old.table ≡ words.now.table }
    requires cpu { (cpu < words.now.settings.cpus) × (seat.old.view.id ≡ cpu) }
    requires may { MaySeek seat.old.view }
    ensures step { SeatGoesOn (did (Seek cpu kind name) Done ++ did (LoadLink cpu) (link_answer result)) seat.old seat.new }
    ensures begun { Makes (Seek cpu kind name) Done (Cpu seat.old.view) (Cpu (cpu_after_seek (key_with kind name) seat.old.view)) }
    ensures event { Makes (LoadLink cpu) (link_answer result) (Cpu (cpu_after_seek (key_with kind name) seat.old.view)) (Cpu seat.new.view) }
    ensures change { HasFollowed (cpu_after_seek (key_with kind name) seat.old.view) (search_for (key_with kind name) seat.old.view) result seat.new.view }
{
    by_seat::load::<_, Brand>(words, seat, HEAD, Event::Seek(cpu, kind, name))
}

/// The search of CPU `cpu` loads the link of the slot that `link` led to, `link - 1`. Returns a slot plus 1, or 0 if no entry has the kind
/// and the name.
/// Condition: the seat is that CPU's, and its search is at the link of that slot; slots count from 0. The link's place is known a
/// subtraction earlier than the record's, and the next entry waits for this load: so it goes first.
pub fn load_link(words: &Words, seat: &mut CpuSeat, cpu: u8, link: u64) -> u64
    requires table { seat.old.table ≡ words.now.table }
    requires cpu { (cpu < words.now.settings.cpus) × (seat.old.view.id ≡ cpu) }
    requires slot { (0 < link) × (link ≤ MOST_SLOTS) × (link ≤ words.now.settings.slots) }
    requires may { MayLoadLink seat.old.view (link - 1) }
    ensures step { SeatMakes Cpu (LoadLink cpu) (link_answer result) seat.old seat.new }
    ensures change { HasLoadedLink seat.old.view result seat.new.view }
{
    by_seat::load::<_, Brand>(words, seat, linked_place(link), Event::LoadLink(cpu))
}

/// The search of CPU `cpu` loads record word `k` of `slot`: 0 the number, 1 the kind, 2 and 3 the words of the name. If these are those
/// sought, word 4, the value, ends the search. Returns the word.
/// Condition: the seat is that CPU's, and its search is at that word; slots count from 0.
pub fn load_searched(words: &Words, seat: &mut CpuSeat, cpu: u8, slot: usize, k: u8) -> u64
    requires table { seat.old.table ≡ words.now.table }
    requires cpu { (cpu < words.now.settings.cpus) × (seat.old.view.id ≡ cpu) }
    requires slot { (slot < MOST_SLOTS) × (k < 5) × (slot < words.now.settings.slots) }
    requires may { MayLoadSearched seat.old.view slot k }
    ensures step { SeatMakes Cpu (LoadRecord (OfSearch cpu)) (loaded_answer (loaded_of seat.old.view.search result)) seat.old seat.new }
    ensures change { HasLoadedWord seat.old.view result seat.new.view }
{
    by_seat::load::<_, Brand>(
        words,
        seat,
        record_place(slot, k),
        Event::LoadRecord(RecordOf::Search(cpu)),
    )
}

/// The search of CPU `cpu` loads the value of the entry in `slot`, which it has compared: it isn't the one sought. The search stays where
/// it is. Returns the value.
/// Condition: the seat is that CPU's, and its search is at the link of that slot; slots count from 0.
pub fn load_compared(words: &Words, seat: &mut CpuSeat, cpu: u8, slot: usize) -> u64
    requires table { seat.old.table ≡ words.now.table }
    requires cpu { (cpu < words.now.settings.cpus) × (seat.old.view.id ≡ cpu) }
    requires slot { (slot < MOST_SLOTS) × (slot < words.now.settings.slots) }
    requires may { MayLoadLink seat.old.view slot }
    ensures step { SeatMakes Cpu (LoadRecord (Compared cpu)) (Word result) seat.old seat.new }
    ensures same { seat.new.view ≡ seat.old.view }
    ensures value { IsValueThere seat.old.view slot result }
{
    let word = record_place(slot, 4);
    let event = Event::LoadRecord(RecordOf::Compared(cpu));
    by_seat::load::<_, Brand>(words, seat, word, event)
}
