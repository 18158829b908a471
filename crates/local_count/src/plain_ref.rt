//! A local reference that names its table by its own seat: a seat, and plain data that agree with what the seat knows.

ghost use Rattle.std.specs.Prelude.{◌≡◌, ◌<◌};

use cpu_words::{ReferenceSeat, Words, steps};
use registry_values::{Kind, Record, record_from};
use std::marker::Model;

/// A local reference (localcount(9)) to an entry of the table that its seat is of. It can't be dropped: it is spent by a release. To a
/// contract it is that table, and what `LocalRef` is to one.
pub struct PlainRef {
    pub seat: ReferenceSeat,
    /// Its entry's number, from 1.
    pub number: u64,
    /// Its entry's slot, from 0.
    pub slot: u8,
    /// Its entry's kind.
    pub kind: Kind,
}

impl Model for PlainRef {
    ghost use Rattle.local_count.specs.References.{OnPlainRef, IsOurReference};

    ghost Value = { OnPlainRef };

    ghost view = { λ r. record { table = r.seat.table; reference = r.seat.view } };

    ghost invariant = { λ r. IsOurReference r.seat.view r.number r.slot r.kind };
}

impl PlainRef {
    /// The number of the reference's entry, from 1.
    pub fn number(&self) -> u64
        ensures { result ≡ self.now.reference.entry.number }
    {
        self.number
    }

    /// The slot of the reference's entry, from 0.
    pub fn slot(&self) -> u8
        ensures { result ≡ self.now.reference.entry.slot }
    {
        self.slot
    }

    /// The kind of the reference's entry.
    pub fn kind(&self) -> Kind
        ensures { result ≡ self.now.reference.entry.rec.kind }
    {
        self.kind
    }

    /// The record of the reference's entry as it was published, also once the entry is detached: four loads.
    pub fn record(&mut self, words: &Words) -> Record
        requires words { (words.now.table ≡ self.old.table) × (self.old.reference.entry.slot < words.now.settings.slots) }
        ensures same { self.new ≡ self.old }
        ensures value { result ≡ self.old.reference.entry.rec }
    {
        let kind = steps::load_local(words, &mut self.seat, self.slot, 1);
        let high = steps::load_local(words, &mut self.seat, self.slot, 2);
        let low = steps::load_local(words, &mut self.seat, self.slot, 3);
        let value = steps::load_local(words, &mut self.seat, self.slot, 4);
        record_from(kind, high, low, value)
    }
}
