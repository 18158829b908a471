//! Grace (pserialize(9)): what the keeper's seat sees of the CPUs' section words, a load each.

ghost use Rattle.std.specs.Prelude.{◌≡◌, ◌<◌, Some, None};
ghost use Rattle.cpu_words.specs.Types.{Look, Snapshot, Word};
ghost use Rattle.cpu_words.specs.declared.view.View.TheVariants.{Keeper};
ghost use Rattle.cpu_words.specs.Steps.{SeatMakes};
ghost use Rattle.cpu_words.specs.Draining.{MayGlance, MayLook, MaySnapshot, HasLooked, HasSnapshot, keeper_after_look};

use crate::law::Words;
use crate::layout::section_place;
use crate::operations::by_seat;
use crate::seat::KeeperSeat;
use protocol::Event;
use std::marker::Brand;

/// Looks at the section word of CPU `cpu` for the retired entry in `slot`: the CPU has passed if the word is even or differs from its
/// snapshot. Returns the word, and is counted as a look.
/// Condition: the keeper is at rest, the slot's entry is retired, and the CPU is one of the table's.
pub fn look(words: &Words, keeper: &mut KeeperSeat, slot: u8, cpu: u8) -> u64
    requires table { keeper.old.table ≡ words.now.table }
    requires place { cpu < words.now.settings.cpus }
    requires may { MayLook keeper.old.view slot cpu }
    ensures step { SeatMakes Keeper (Look (Some slot) cpu) (Word result) keeper.old keeper.new }
    ensures change { HasLooked keeper.old.view (Look (Some slot) cpu) (Word result) slot cpu result keeper.new.view }
{
    let look = Event::Look(Some(slot), cpu);
    by_seat::load::<_, Brand>(words, keeper, section_place(words, cpu), look)
}

/// Looks at the section word of CPU `cpu` for no entry: the caller compares it with what `snapshot_now` answered. It is counted as a look.
/// Condition: the keeper is at rest, and the CPU is one of the table's.
pub fn look_now(words: &Words, keeper: &mut KeeperSeat, cpu: u8) -> u64
    requires table { keeper.old.table ≡ words.now.table }
    requires place { cpu < words.now.settings.cpus }
    requires may { MayGlance keeper.old.view cpu }
    ensures step { SeatMakes Keeper (Look None cpu) (Word result) keeper.old keeper.new }
    ensures change { keeper.new.view ≡ keeper_after_look keeper.old.view (Look None cpu) (Word result) }
{
    let glance = Event::Look(None, cpu);
    by_seat::load::<_, Brand>(words, keeper, section_place(words, cpu), glance)
}

/// Takes the snapshot of CPU `cpu` for the entry in `slot`, which was just unlinked: its section word now.
/// Condition: this snapshot is what the keeper must do next.
pub fn snapshot(words: &Words, keeper: &mut KeeperSeat, slot: u8, cpu: u8) -> u64
    requires table { keeper.old.table ≡ words.now.table }
    requires place { cpu < words.now.settings.cpus }
    requires may { MaySnapshot keeper.old.view slot cpu }
    ensures step { SeatMakes Keeper (Snapshot (Some slot) cpu) (Word result) keeper.old keeper.new }
    ensures change { HasSnapshot keeper.old.view slot cpu result keeper.new.view }
{
    let event = Event::Snapshot(Some(slot), cpu);
    by_seat::load::<_, Brand>(words, keeper, section_place(words, cpu), event)
}

/// Takes a snapshot of CPU `cpu` for no entry: its section word now, as `perform` keeps it. It is counted as a look.
/// Condition: the keeper is at rest, and the CPU is one of the table's.
pub fn snapshot_now(words: &Words, keeper: &mut KeeperSeat, cpu: u8) -> u64
    requires table { keeper.old.table ≡ words.now.table }
    requires place { cpu < words.now.settings.cpus }
    requires may { MayGlance keeper.old.view cpu }
    ensures step { SeatMakes Keeper (Snapshot None cpu) (Word result) keeper.old keeper.new }
    ensures change { keeper.new.view ≡ keeper_after_look keeper.old.view (Snapshot None cpu) (Word result) }
{
    let snapshot = Event::Snapshot(None, cpu);
    by_seat::load::<_, Brand>(words, keeper, section_place(words, cpu), snapshot)
}
