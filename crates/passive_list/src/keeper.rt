//! The keeper, the writer behind the interlock: its seat, and plain data that agree with what the seat knows.

ghost use Rattle.std.specs.Prelude.{◌≡◌, ◌<◌, ◌+◌, ◌*◌, IfOk, IsTrue, length, replicate};
ghost use Rattle.passive_list.specs.Types.{Live, Vacant};
ghost use Rattle.registry_values.specs.Common.{are_fit, slot_at};
ghost use Rattle.protocol.specs.Common.{kept_at};
ghost use Rattle.cpu_words.specs.Common.{keeper_with};
ghost use Rattle.passive_list.specs.Keepers.{AreRowsOfNew, total_or_bias};

use cpu_words::KeeperSeat;
use registry_values::{BIAS, Entry, Mark, NO_MARK, Settings};
use std::alloc::{AllocError, Global};
use std::marker::Model;

/// The state of a slot, as the keeper has it. A slot that was retired and drained is `Vacant` once it was vacated.
pub use registry_values::Slot as SlotState;

/// What the keeper has of a slot.
#[derive(Clone, Copy, Debug, PartialEq, Eq)]
pub struct KeptSlot {
    /// Vacant, or the slot's live or retired entry.
    pub state: SlotState,
    /// The slot's total: the bias, what was collected, less the references given up under the interlock. `None` is the bias.
    pub total: Option<u64>,
    /// The number of the driver that the slot keeps a reference to.
    pub keeps: Option<u64>,
    /// The rank of the slot's live entry: where it stands on the list.
    pub rank: u64,
}

/// The keeper of the table that its seat is of. To a contract it is that table with its settings, and what its seat knows, the slots as it has
/// them, and its log: what it did, each event with its reply, in order. It is at rest: no operation of it is half done. Each function that
/// writes its fields leaves it so that the rows agree with what the seat knows.
#[derive(Drop)]
pub struct Keeper {
    /// The seat that it steps with.
    pub seat: KeeperSeat,
    /// What the table was made for.
    pub settings: Settings,
    /// How many changes there were: attaches and detaches.
    pub changes: u64,
    /// By slot.
    pub rows: Vec<KeptSlot>,
    /// What was noted of the CPUs for a retired entry, a slot's marks side by side (`mark_place`).
    pub marks: Vec<Mark>,
}

/// The rows of a keeper that isn't seated yet, by the settings.
#[derive(Drop)]
pub struct KeeperRows {
    slots: Vec<KeptSlot>,
    marks: Vec<Mark>,
}

impl Model for Keeper {
    ghost use Rattle.passive_list.specs.Keepers.{OnPlainKeeper, IsOurKeeper, MarksAgree, on_keeper};

    ghost Value = { OnPlainKeeper };

    ghost view = { λ k. on_keeper k.seat.table k.settings k.seat.view k.rows.items k.seat.log };

    ghost invariant = { λ k. IsOurKeeper k.settings k.seat.view k.rows.items k.changes × MarksAgree k.settings k.seat.view k.marks.items };
}

/// A slot that nothing was ever in.
const VACANT_SLOT: KeptSlot = KeptSlot {
    state: SlotState::Vacant,
    total: None,
    keeps: None,
    rank: 0,
};

/// The place of a CPU's mark for a slot.
pub fn mark_place(cpus: u8, slot: u8, cpu: u8) -> usize
    ensures { result ≡ slot * cpus + cpu }
{
    slot as usize * cpus as usize + cpu as usize
}

impl KeptSlot {
    /// The slot's total, and the bias where nothing was collected or given up yet.
    pub fn total_or_bias(&self) -> u64
        ensures { result ≡ total_or_bias self.now }
    {
        self.total.unwrap_or(BIAS)
    }

    /// The slot's entry is live, with this rank.
    pub fn make_live(&mut self, entry: Entry, rank: u64)
        ensures { self.new ≡ record self.old { state = Live entry; rank = rank } }
    {
        self.state = SlotState::Live(entry);
        self.rank = rank;
    }
}

impl KeeperRows {
    /// A row for each slot, and a mark for each CPU there: all slots are vacant.
    /// Refused: no memory.
    pub fn new(alloc: Global, settings: Settings) -> Result<KeeperRows, AllocError>
        ensures { IfOk result (λ rows. AreRowsOfNew settings rows) }
    {
        Ok(KeeperRows {
            slots: vec![in alloc; VACANT_SLOT; settings.slots as usize]?,
            marks: vec![in alloc; NO_MARK; mark_place(settings.cpus, settings.slots, 0)]?,
        })
    }
}

impl Keeper {
    /// The keeper of a new seat: all slots are vacant, and there was no change.
    /// Conditions: the seat is as `Words::new` gave it for these settings, and the rows were made for them.
    #[tactic(auto, using(crate::proofs::Rows::first_states))]
    pub fn of_seat(seat: KeeperSeat, settings: Settings, rows: KeeperRows) -> Keeper
        requires fit { IsTrue (are_fit settings) }
        requires new { seat.view ≡ keeper_with settings settings.cpus }
        requires rows { AreRowsOfNew settings rows }
        ensures words { result.words ≡ record { table = seat.table; settings = settings } }
        ensures keeper { result.keeper ≡ record { view = keeper_with settings settings.cpus; slots = replicate settings.slots Vacant; log = seat.log } }
    {
        let KeeperRows { slots, marks } = rows;
        Keeper {
            seat,
            settings,
            changes: 0,
            rows: slots,
            marks,
        }
    }

    /// The seat alone, for whoever ends the table (`Words::close_all`).
    pub fn into_seat(self) -> KeeperSeat
        ensures table { result.table ≡ self.words.table }
        ensures seat { (result.view ≡ self.keeper.view) × (result.log ≡ self.keeper.log) }
    {
        let Keeper {
            seat,
            settings: _,
            changes: _,
            rows: _,
            marks: _,
        } = self;
        seat
    }

    /// The state of a slot, from 0; past the table's slots nothing is.
    pub fn slot(&self, s: u8) -> SlotState
        ensures { result ≡ slot_at self.now.keeper.slots s }
    {
        match self.rows.get(s as usize) {
            Some(row) => row.state,
            None => SlotState::Vacant,
        }
    }

    /// How many changes there were: attaches and detaches.
    pub fn changes(&self) -> u64
        ensures { result ≡ length self.now.keeper.view.history }
    {
        self.changes
    }

    /// The number of the driver that a slot keeps a reference to.
    /// Condition: the slot is one of the table's.
    pub fn keeps(&self, s: u8) -> Option<u64>
        requires { s < self.now.words.settings.slots }
        ensures { result ≡ kept_at self.now.keeper.view.keeps s }
    {
        self.rows[s as usize].keeps
    }
}
