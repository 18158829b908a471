//! A record's words, loaded by a local reference (localcount(9)).

ghost use Rattle.std.specs.Prelude.{◌≡◌, ◌<◌, ℕ, IsTrue};
ghost use Rattle.cpu_words.specs.Types.{LoadRecord, Local, Word};
ghost use Rattle.protocol.specs.Common.{word, words_of};
ghost use Rattle.registry_values.specs.Common.{is_key};
ghost use Rattle.cpu_words.specs.declared.view.View.TheVariants.{Reference};
ghost use Rattle.cpu_words.specs.Rule.{did};
ghost use Rattle.cpu_words.specs.Steps.{Makes, SeatGoesOn};

use crate::law::Words;
use crate::layout::record_place;
use crate::operations::by_seat;
use crate::seat::ReferenceSeat;
use protocol::{Event, RecordOf};
use std::marker::Brand;

/// Loads word `k` of the record of a local reference's entry, which is in slot `slot`: 0 is the number, 1 the kind, 2 and 3 the name's
/// high and low words, 4 the value.
/// The name's words aren't both 0, as its entry was stored.
/// Condition: the slot is the entry's and one of the table's, and `k` is below 5.
pub fn load_local(words: &Words, seat: &mut ReferenceSeat, slot: u8, k: u8) -> u64
    requires table { seat.old.table ≡ words.now.table }
    requires slot { seat.old.view.entry.slot ≡ slot }
    requires place { (slot < words.now.settings.slots) × (k < 5) }
    ensures step { SeatGoesOn (did (LoadRecord (Local seat.old.view.entry.number k)) (Word result)) seat.old seat.new }
    ensures same { seat.new.view ≡ seat.old.view }
    ensures event { (id : ℕ) × Makes (LoadRecord (Local id k)) (Word result) (Reference seat.old.view) (Reference seat.new.view) }
    ensures word { result ≡ word (words_of seat.old.view.entry) k }
    ensures name { IsTrue (is_key seat.old.view.entry.rec.name) }
{
    let place = record_place(slot as usize, k);
    let event = Event::LoadRecord(RecordOf::Local(0, k));
    by_seat::load::<_, Brand>(words, seat, place, event)
}
