//! A local reference of a table that a type names.

ghost use Rattle.std.specs.Prelude.{◌≡◌};
ghost use Rattle.cpu_words.specs.Common.{AreWordsOf};

use crate::plain_ref::PlainRef;
use cpu_words::{Domain, Words};
use registry_values::{Kind, Record};
use std::marker::{Model, PhantomData};

/// A local reference (localcount(9)) to an entry of the table that D names. While it lives, its entry keeps its slot. It moves between
/// threads, and can't be dropped: it is spent by a release. To a contract it is what its seat knows: its entry, and the CPU whose count
/// word a release found collected.
pub struct LocalRef<D: Domain> {
    pub plain: PlainRef,
    pub domain: PhantomData<D>,
}

impl<D: Domain> Model for LocalRef<D> {
    ghost use Rattle.std.specs.Prelude.{◌≡◌, ◌<◌, IsTrue};
    ghost use Rattle.registry_values.specs.Common.{are_fit};
    ghost use Rattle.passive_list.specs.Types.{ReferenceView};

    ghost Value = { ReferenceView };

    ghost view = { λ r. r.plain.reference };

    ghost invariant = { λ r. (r.plain.table ≡ D.table) × IsTrue (are_fit D.settings) × (r.plain.reference.entry.slot < D.settings.slots) };
}

impl<D: Domain> LocalRef<D> {
    /// The number of the reference's entry, from 1.
    pub fn number(&self) -> u64
        ensures { result ≡ self.now.entry.number }
    {
        self.plain.number()
    }

    /// The kind of the reference's entry.
    pub fn kind(&self) -> Kind
        ensures { result ≡ self.now.entry.rec.kind }
    {
        self.plain.kind()
    }

    /// The record of the reference's entry as it was published, also once the entry is detached: four loads.
    pub fn record(&mut self, words: &Words) -> Record
        requires words { AreWordsOf words.now D.table D.settings }
        ensures same { self.new ≡ self.old }
        ensures value { result ≡ self.old.entry.rec }
    {
        self.plain.record(words)
    }
}
