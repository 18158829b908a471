//! The table of words, its one rule, and the type that names a table.

ghost use Rattle.std.specs.Prelude.{◌≡◌};

use crate::seat::SeatView;
use crate::view::{KeeperView, Logged};
use atomic_table::{Play, Table, TableRule};
use registry_values::Settings;
use std::alloc::Global;
use std::marker::{Brand, Model, PhantomData};
use std::sync::ledger::Ledger;

/// The rule of the table:
///
/// - the words and the views of all seats show a state of the core, and a list of events leads to it from the opening;
/// - what each seat did is its part of that list;
/// - what a seat has heard of the keeper's log is a prefix of the keeper's part;
/// - a seat that has ended, and was taken over, is still there as it was.
pub struct RegistryRule;

impl TableRule<u8, Logged, Settings> for RegistryRule {
    ghost use Rattle.cpu_words.specs.Logs.{LoggedRuled, first_logged};

    ghost holds = { LoggedRuled };

    ghost first = { first_logged };
}

/// The words of a registry, shared by all its seats. To a contract they are which table it is, and its settings.
#[derive(Drop)]
pub struct Words {
    pub(crate) table: Table<u8, Logged, Settings, RegistryRule, Global>,
    pub(crate) settings: Settings,
}

impl Model for Words {
    ghost use Rattle.std.specs.Prelude.{◌≡◌};
    ghost use Rattle.cpu_words.specs.Spots.{words_of};
    ghost use Rattle.cpu_words.specs.Views.{Named};

    ghost Value = { Named };

    ghost view = { λ w. record { table = w.table.shared.table_id; settings = w.settings } };

    ghost invariant = { λ w. (w.settings ≡ w.table.shared.key) × (w.table.shared.table_id.words ≡ words_of w.settings) × (w.table.shared.table_id.slots ≡ 0) };
}

impl Words {
    /// What the registry is made for: how large it is, and how far its counts may go.
    pub fn settings(&self) -> Settings
        ensures { result ≡ self.now.settings }
    {
        self.settings
    }
}

/// Names one table and its settings, for contracts: a lock or a message hands a value on by its type alone. It also names a ledger, of the
/// changes that calls behind the interlock make; each CPU has a share of it.
pub trait Domain: Ledger {
    ghost use Rattle.atomic_table.specs.Seated.{TableId};
    ghost use Rattle.cpu_words.specs.Types.{Settings};

    ghost table: { TableId };

    ghost settings: { Settings };
}

impl Domain for Brand {
    ghost use Rattle.cpu_words.specs.Views.{no_table, no_settings};

    ghost table = { no_table };

    ghost settings = { no_settings };
}

/// What a step of a seat tells of the view before, the word found and the view after. Each call of an inner step picks its own.
pub(crate) trait Tale<V> {
    ghost use Rattle.std.specs.Prelude.{ℕ, List};
    ghost use Rattle.cpu_words.specs.declared.view.LogItem.{LogItem};

    // the events that it is, with their replies, by the view before and the word found
    ghost does: { V → ℕ → List LogItem };

    ghost tells: { V → ℕ → V → Type 0 };
}

impl<V> Tale<V> for Brand {
    ghost use Rattle.std.specs.Prelude.{[]};

    ghost does = { λ x n. [] };

    ghost tells = { λ x n y. Unit {0} };
}

/// A step of a seat.
pub(crate) struct Told<V: SeatView, T: Tale<V>> {
    marker: PhantomData<(V, T)>,
}

impl<V: SeatView, T: Tale<V>> Play<u8, Logged> for Told<V, T> {
    ghost use Rattle.cpu_words.specs.Logs.{IsTold};

    ghost then = { IsTold V.as_view V.of_view T.does T.tells };
}

/// A CPU's load that hears a note. The log has it with the CPU that told the note.
pub(crate) struct CpuHearing;

impl Play<u8, Logged> for CpuHearing {
    ghost use Rattle.cpu_words.specs.Logs.{heard_by_cpu};
    ghost use Rattle.cpu_words.specs.Seats.{CpuHears};

    ghost then = { heard_by_cpu CpuHears };
}

/// The keeper's load that hears a note. The log has it with the CPU that told the note.
pub(crate) struct NoteHearing;

impl Play<u8, Logged> for NoteHearing {
    ghost use Rattle.cpu_words.specs.Logs.{hears_note};
    ghost use Rattle.cpu_words.specs.Seats.{KeeperHears};

    ghost then = { hears_note KeeperHears };
}

/// A step of the keeper's seat that hears what a note laid beside it tells.
pub(crate) struct KeeperHearing<T: Tale<KeeperView>> {
    marker: PhantomData<T>,
}

impl<T: Tale<KeeperView>> Play<u8, Logged> for KeeperHearing<T> {
    ghost use Rattle.cpu_words.specs.Logs.{heard_by_keeper};

    ghost then = { heard_by_keeper T.does T.tells };
}
