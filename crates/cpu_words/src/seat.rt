//! The seats. Each step on the words is made with one: to a contract a seat is its table, its view, its log, which
//! is what it did, and what it has heard of the keeper's log.

ghost use Rattle.std.specs.Prelude.{◌≡◌, [], false};
ghost use Rattle.cpu_words.specs.Views.{Seated};

use crate::view::{CpuView, KeeperView, Logged, ReferenceView};
use registry_values::Change;
use std::collections::LinkedList;
use std::marker::Model;

/// The end of a seat that can be dropped.
#[derive(Drop)]
pub struct MayDrop;

/// The end of a seat that can't be dropped, and is joined into another.
pub struct MustJoin;

/// What the owner of a seat knows, by the seat's kind.
pub trait SeatView {
    /// How such a seat ends.
    type End;

    ghost use Rattle.cpu_words.specs.declared.view.View.{View};
    ghost use Rattle.cpu_words.specs.Logs.{IsStanding};

    // such a view among those of all kinds, and such a view of any; of the other kinds some view, which nothing is said about
    ghost as_view: { Self → View };

    ghost of_view: { View → Self };

    ghost stands: { (x : Self) → IsStanding (as_view x) };
}

impl SeatView for KeeperView {
    type End = MayDrop;

    ghost use Rattle.cpu_words.specs.Views.{keeper_of};
    ghost use Rattle.cpu_words.specs.declared.view.View.TheVariants.{Keeper};

    ghost as_view = { Keeper };

    ghost of_view = { keeper_of };

    ghost stands = { λ x. tt };
}

impl SeatView for CpuView {
    type End = MayDrop;

    ghost use Rattle.cpu_words.specs.Views.{cpu_of};
    ghost use Rattle.cpu_words.specs.declared.view.View.TheVariants.{Cpu};

    ghost as_view = { Cpu };

    ghost of_view = { cpu_of };

    ghost stands = { λ x. tt };
}

impl SeatView for ReferenceView {
    type End = MustJoin;

    ghost use Rattle.cpu_words.specs.Views.{reference_of};
    ghost use Rattle.cpu_words.specs.declared.view.View.TheVariants.{Reference};

    ghost as_view = { Reference };

    ghost of_view = { reference_of };

    ghost stands = { λ x. tt };
}

impl SeatView for LinkedList<Change> {
    type End = MayDrop;

    ghost use Rattle.cpu_words.specs.Views.{note_of};
    ghost use Rattle.cpu_words.specs.declared.view.View.TheVariants.{Note};

    ghost as_view = { Note };

    ghost of_view = { note_of };

    ghost stands = { λ x. tt };
}

/// A seat, by what its owner knows.
#[derive(Drop)]
pub struct Seat<V: SeatView> {
    pub(crate) token: atomic_table::Seat<u8, Logged>,
    pub(crate) end: V::End,
}

/// The seat of the keeper, the writer behind the interlock. A table has one.
pub type KeeperSeat = Seat<KeeperView>;

/// The seat of a virtual CPU. A thread that owns it runs on that CPU.
pub type CpuSeat = Seat<CpuView>;

/// The seat of a local reference. It can't be dropped: it is joined into a CPU's seat or the keeper's.
pub type ReferenceSeat = Seat<ReferenceView>;

/// The seat of a note: a prefix of the history, to be heard by another seat.
pub type NoteSeat = Seat<LinkedList<Change>>;

impl<V: SeatView> Model for Seat<V> {
    ghost Value = { Seated V };

    ghost view = { λ s. record { table = s.token.table_id; view = V.of_view s.token.me.0.view; log = s.token.me.0.log; known_log = s.token.me.0.known_log; noted_log = s.token.me.0.noted_log; teller = s.token.me.0.teller; list = s.token.me.0.list; ends = s.token.me.0.ends } };

    ghost invariant = { λ s. (s.token.me ≡ (record s.token.me.0 { view = V.as_view (V.of_view s.token.me.0.view) }, [])) × (s.token.me.0.ended ≡ false) };
}
