//! A local reference is given up under the interlock: its seat is taken in, and the total of its entry's slot is one less.

ghost use Rattle.std.specs.Prelude.{◌≡◌, ◌<◌};
ghost use Rattle.cpu_words.specs.Common.{AreWordsOf, IsFoundCollected};
ghost use Rattle.local_count.specs.Draining.{HasGivenUp};

use crate::plain_ref::PlainRef;
use cpu_words::{Words, steps};
use passive_list::Keeper;

/// Releases a local reference under the interlock: its seat is spent, and the total of its entry's slot is one less.
/// Condition: some count word of its slot was collected. A release by a CPU's count found it so where it handed the reference back; else the
/// keeper has an entry with the reference's number retired in a slot (`Keeper::slot`), and `collected` tells of some CPU. The reference is of
/// the keeper's table.
pub fn release_under(words: &Words, keeper: &mut Keeper, reference: PlainRef)
    requires words { AreWordsOf words.now keeper.old.words.table keeper.old.words.settings }
    requires reference { (reference.table ≡ keeper.old.words.table) × (reference.reference.entry.slot < keeper.old.words.settings.slots) }
    requires collected { IsFoundCollected keeper.old.keeper.slots keeper.old.keeper.view.marks reference.reference }
    ensures change { HasGivenUp keeper.old.keeper reference.reference keeper.new.keeper }
    ensures words { keeper.new.words ≡ keeper.old.words }
{
    let PlainRef {
        seat,
        number: _,
        slot,
        kind: _,
    } = reference;
    steps::join_keeper(words, &mut keeper.seat, seat);
    steps::total_sub(words, &mut keeper.seat, slot);
    let total = keeper.rows[slot as usize].total_or_bias() - 1;
    keeper.rows[slot as usize].total = Some(total);
}
