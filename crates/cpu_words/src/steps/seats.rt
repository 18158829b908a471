//! The seats of the CPUs: each is cut from the keeper's.

ghost use Rattle.std.specs.Prelude.{◌≡◌, ◌+◌};
ghost use Rattle.cpu_words.specs.Types.{Seat, Done};
ghost use Rattle.cpu_words.specs.declared.view.View.TheVariants.{Keeper, Cpu};
ghost use Rattle.cpu_words.specs.Rule.{did};
ghost use Rattle.cpu_words.specs.Steps.{SplitsBy, SeatRegroups};
ghost use Rattle.cpu_words.specs.Seats.{MaySeat, cpu_seat};

use crate::law::Words;
use crate::operations::seats::NextSeat;
use crate::seat::{CpuSeat, KeeperSeat, MayDrop};

/// The lowest-numbered CPU without a seat gets its seat, split from the keeper's.
/// Condition: the keeper is at rest, and has given out fewer seats than the table has CPUs.
#[tactic(auto, using(crate::proofs::seats::Seating::seat_splits))]
pub fn seat(words: &Words, keeper: &mut KeeperSeat) -> CpuSeat
    requires table { keeper.old.table ≡ words.now.table }
    requires may { MaySeat keeper.old.view }
    ensures step { SeatRegroups (did (Seat keeper.old.view.seated) Done) keeper.old keeper.new }
    ensures event { SplitsBy (Seat keeper.old.view.seated) (Keeper keeper.old.view) (Keeper keeper.new.view) (Cpu result.view) }
    ensures keeper { keeper.new.view ≡ record keeper.old.view { seated = keeper.old.view.seated + 1 } }
    ensures new { result ≡ cpu_seat keeper.old.table keeper.old.view.settings keeper.old.view.seated }
{
    CpuSeat {
        token: words.table.shared.split_seat::<NextSeat>(&mut keeper.token),
        end: MayDrop,
    }
}
