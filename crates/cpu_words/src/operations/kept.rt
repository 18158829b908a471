//! A local reference that a slot keeps: its seat is joined into the keeper's, for a slot that the caller names.

ghost use Rattle.std.specs.Prelude.{◌≡◌};
ghost use Rattle.cpu_words.specs.Types.{Keep, Done};
ghost use Rattle.cpu_words.specs.declared.view.View.TheVariants.{Keeper, Reference};
ghost use Rattle.cpu_words.specs.Steps.{JoinsBy, SeatRegroups};
ghost use Rattle.cpu_words.specs.Rule.{did};
ghost use Rattle.cpu_words.specs.Publishing.{MayKeep, keeper_after_keep};

use crate::law::Words;
use crate::seat::{KeeperSeat, MustJoin, ReferenceSeat};
use crate::view::Logged;
use atomic_table::Join;
use std::marker::{Brand, PhantomData};

/// The slot that keeps a reference. Each call picks its own.
pub(crate) trait KeepingSlot {
    ghost use Rattle.std.specs.Prelude.{ℕ};

    ghost slot: { ℕ };
}

impl KeepingSlot for Brand {
    ghost slot = { 0 };
}

/// The reference's seat is joined into the keeper's, and is spent.
struct Kept<S: KeepingSlot> {
    marker: PhantomData<S>,
}

impl<S: KeepingSlot> Join<Logged> for Kept<S> {
    ghost use Rattle.cpu_words.specs.Publishing.{with_kept};
    ghost use Rattle.cpu_words.specs.Logs.{joined_seat, spent_seat, keeps_for};

    ghost both = { joined_seat (with_kept S.slot) (keeps_for S.slot) };

    ghost spent = { spent_seat };
}

/// Joins the reference into the keeper's seat, for the slot `slot`.
#[tactic(auto, using(crate::proofs::by_keeper::Keeping::keeps_seats))]
pub(crate) fn join<S: KeepingSlot>(
    words: &Words,
    keeper: &mut KeeperSeat,
    reference: ReferenceSeat,
    slot: u8,
)
    requires table { (keeper.old.table ≡ words.now.table) × (reference.table ≡ words.now.table) }
    requires slot { S.slot ≡ slot }
    requires may { MayKeep keeper.old.view slot reference.view }
    ensures step { SeatRegroups (did (Keep slot reference.view.entry.number) Done) keeper.old keeper.new }
    ensures event { JoinsBy (Keep slot) (Keeper keeper.old.view) (Reference reference.view) (Keeper keeper.new.view) }
    ensures change { keeper.new.view ≡ keeper_after_keep keeper.old.view slot reference.view }
{
    // The contract alone speaks of the slot.
    let _slot = slot;
    let ReferenceSeat {
        token,
        end: MustJoin,
    } = reference;
    words
        .table
        .shared
        .join_seat::<Kept<S>>(&mut keeper.token, token);
}
