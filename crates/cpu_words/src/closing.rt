//! The end of a table: no thread shares its words any more.

ghost use Rattle.std.specs.Prelude.{◌≡◌, ◌<◌, ◌∷◌, slice_index};
ghost use Rattle.cpu_words.specs.Freed.{HasClosed, HaveClosed, cpu_end};
ghost use Rattle.cpu_words.specs.Spots.{live_of, index};

use crate::law::Words;
use crate::layout::live_place;
use crate::operations::ended;
use crate::seat::{CpuSeat, KeeperSeat};
use atomic_table::Closed;
use registry_values::Settings;
use std::alloc::Global;
use std::marker::{Brand, Model};

/// The words of a registry that has ended, as the last step of any seat left them. To a contract they are their list, and its settings.
pub struct LastWords {
    closed: Closed<u8, Global>,
    settings: Settings,
}

impl Model for LastWords {
    ghost use Rattle.std.specs.Prelude.{◌≡◌};
    ghost use Rattle.core.specs.Mem.Slots.{slots_items, slots_len, IsFull};
    ghost use Rattle.cpu_words.specs.Freed.{LastView};
    ghost use Rattle.cpu_words.specs.Spots.{words_of};

    ghost Value = { LastView };

    ghost view = { λ w. record { words = slots_items w.closed.words; settings = w.settings } };

    ghost invariant = { λ w. IsFull w.closed.words × (slots_len w.closed.words ≡ words_of w.settings) × (slots_len w.closed.slots ≡ 0) };
}

impl Words {
    /// Ends the table, by the seat of a CPU. Whoever calls this has the words back, so no thread makes a step on them any more: the run is
    /// over. The words are those of a table under the rule in which this seat has its view and its log, and knows what it knows of the
    /// keeper's log. What the laws say of them, and of the list of events that led to them, is `ended_run`.
    pub fn close(self, seat: CpuSeat) -> LastWords
        requires table { seat.table ≡ self.table }
        ensures settings { result.settings ≡ self.settings }
        ensures ended { HasClosed self.settings seat.view seat.log seat.known_log result.words }
    {
        let Words { table, settings } = self;
        let CpuSeat { token, end: _ } = seat;
        LastWords {
            closed: table.close_with(token),
            settings,
        }
    }

    /// The keeper's seat takes over a CPU's, which ends: nobody steps with it any more. This is no event.
    pub fn take_over(&self, keeper: &mut KeeperSeat, cpu: CpuSeat)
        requires table { (keeper.old.table ≡ self.now.table) × (cpu.table ≡ self.now.table) }
        ensures { keeper.new ≡ record keeper.old { ends = cpu_end cpu.view cpu.log cpu.known_log ∷ keeper.old.ends } }
    {
        ended::take_over::<Brand>(self, keeper, cpu);
    }

    /// Ends the table, by the keeper's seat with those that it took over. It is as `close`, and more: each of these has in the last words its
    /// view and its log. What the laws say of all of them together is `ended_run`.
    pub fn close_all(self, keeper: KeeperSeat) -> LastWords
        requires table { keeper.table ≡ self.table }
        ensures settings { result.settings ≡ self.settings }
        ensures ended { HaveClosed self.settings keeper.view keeper.log keeper.ends result.words }
    {
        let Words { table, settings } = self;
        let KeeperSeat { token, end: _ } = keeper;
        LastWords {
            closed: table.close_with(token),
            settings,
        }
    }
}

impl LastWords {
    /// The live word of a slot: 0, or the number of the slot's live entry.
    pub fn live(&self, slot: u8) -> u64
        requires slot { slot < self.now.settings.slots }
        ensures { result ≡ slice_index self.now.words (index self.now.settings (live_of slot)) }
    {
        self.closed.word(live_place(slot))
    }
}

impl Drop for LastWords {
    fn drop(self) {
        let LastWords {
            closed,
            settings: _,
        } = self;
        closed.free();
    }
}
