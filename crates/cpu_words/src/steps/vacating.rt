//! The end of a drain (psref(9), localcount(9)): the slot of a retired entry that nothing holds is vacant again.

ghost use Rattle.std.specs.Prelude.{◌≡◌, ◌++◌, None};
ghost use Rattle.cpu_words.specs.Types.{Entry, Retired, Hear, Vacate, Done};
ghost use Rattle.registry_values.specs.Common.{slot_at};
ghost use Rattle.cpu_words.specs.declared.view.View.TheVariants.{Keeper};
ghost use Rattle.cpu_words.specs.KeeperLog.{IsFreedFrom};
ghost use Rattle.cpu_words.specs.Rule.{did};
ghost use Rattle.cpu_words.specs.Steps.{Makes, SeatGoesOn};
ghost use Rattle.cpu_words.specs.Draining.{MayVacate, keeper_after_vacate};

use crate::law::Words;
use crate::layout::HEAD;
use crate::operations::hearing;
use crate::seat::KeeperSeat;
use protocol::Event;
use std::marker::Brand;

/// Makes the slot vacant, and hears. Vacate touches no word; the keeper hears by a load of the head. It tells that the entry, detached from
/// the slot by the keeper's log, has gone from there (`freed`): by the law `running_headline` nothing holds it, now or later.
/// Condition: the keeper is at rest, and the slot is retired and drained, and keeps nothing.
#[tactic(auto, using(crate::proofs::by_keeper::Vacating::vacating_may, crate::proofs::logs::Known::freed_by))]
pub fn vacate(words: &Words, keeper: &mut KeeperSeat, slot: u8)
    requires table { keeper.old.table ≡ words.now.table }
    requires may { MayVacate keeper.old.view slot }
    ensures step { SeatGoesOn (did (Vacate slot) Done ++ did (Hear None) Done) keeper.old keeper.new }
    ensures event { Makes (Vacate slot) Done (Keeper keeper.old.view) (Keeper keeper.new.view) }
    ensures hears { Makes (Hear None) Done (Keeper keeper.new.view) (Keeper keeper.new.view) }
    ensures change { keeper.new.view ≡ keeper_after_vacate keeper.old.view slot }
    ensures freed { (e : Entry) → slot_at keeper.old.view.slots slot ≡ Retired e → IsFreedFrom slot e.number keeper.new.log }
{
    hearing::load::<Brand>(words, keeper, HEAD, Event::Vacate(slot));
}
