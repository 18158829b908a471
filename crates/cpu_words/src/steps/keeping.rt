//! Kept drivers: an interface's slot keeps a local reference to its driver. The reference's seat is spent, and no word changes.

ghost use Rattle.std.specs.Prelude.{◌≡◌};
ghost use Rattle.cpu_words.specs.Types.{Keep, Done};
ghost use Rattle.cpu_words.specs.declared.view.View.TheVariants.{Keeper, Reference};
ghost use Rattle.cpu_words.specs.Rule.{did};
ghost use Rattle.cpu_words.specs.Steps.{JoinsBy, SeatRegroups};
ghost use Rattle.cpu_words.specs.Publishing.{MayKeep, keeper_after_keep};

use crate::law::Words;
use crate::operations::kept;
use crate::seat::{KeeperSeat, ReferenceSeat};
use std::marker::Brand;

/// The slot `slot` (from 0) keeps the reference, until the interface that is attached there next is freed.
/// Condition: the keeper may store in the slot (as for `store_record`), which keeps nothing, and the reference is to a driver.
pub fn keep(words: &Words, keeper: &mut KeeperSeat, slot: u8, reference: ReferenceSeat)
    requires table { (keeper.old.table ≡ words.now.table) × (reference.table ≡ words.now.table) }
    requires may { MayKeep keeper.old.view slot reference.view }
    ensures step { SeatRegroups (did (Keep slot reference.view.entry.number) Done) keeper.old keeper.new }
    ensures event { JoinsBy (Keep slot) (Keeper keeper.old.view) (Reference reference.view) (Keeper keeper.new.view) }
    ensures change { keeper.new.view ≡ keeper_after_keep keeper.old.view slot reference.view }
{
    kept::join::<Brand>(words, keeper, reference, slot);
}
