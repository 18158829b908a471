//! The body of a local reference's handle.

ghost use Rattle.std.specs.Prelude.{◌≡◌, ◌<◌, is_some};
ghost use Rattle.c_handles.specs.Bodies.{back_word};
ghost use Rattle.c_handles.specs.values.Texts.{entry_out};

use crate::values::plain::{CEntry, CName};
use cpu_words::steps::load_local;
use cpu_words::{ReferenceSeat, Words};
use local_count::PlainRef;
use registry_values::{Kind, MOST_SLOTS, kind_word};
use std::marker::Model;
use std::mem::ManuallyDrop;

/// A local reference. C's handle has its entry; here is what a release needs of that. It can't be
/// dropped: it is spent by a release, or forgotten.
///
/// All of it are words: no byte is padding, which the compiler would carry from copy to copy, and
/// an acquire and a release copy it.
pub struct LocalBody {
    seat: ReferenceSeat,
    /// Its entry's number, from 1.
    number: u64,
    /// Its entry's slot, from 0.
    slot: u64,
    /// Its entry's kind, as C has it.
    kind: u64,
    /// 1 where a release found its CPU's count collected, and else 0.
    back: u64,
}

impl Model for LocalBody {
    ghost use Rattle.c_handles.specs.Bodies.{IsOurLocal, OnLocalBody};

    ghost Value = { OnLocalBody };

    ghost view = { λ b. record { table = b.seat.table; reference = b.seat.view } };

    ghost invariant = { λ b. IsOurLocal b.seat.view b.number b.slot b.kind b.back };
}

impl LocalBody {
    /// A reference, with 1 where it came back, else 0.
    pub fn of(reference: PlainRef, back: u64) -> LocalBody
        requires back { back ≡ back_word reference.reference.collected }
        ensures { (result.table ≡ reference.table) × (result.reference ≡ reference.reference) }
    {
        let PlainRef {
            seat,
            number,
            slot,
            kind,
        } = reference;
        LocalBody {
            seat,
            number,
            slot: u64::from(slot),
            kind: kind_word(kind),
            back,
        }
    }

    /// The reference itself.
    pub fn into_reference(self) -> PlainRef
        ensures { (result.table ≡ self.table) × (result.reference ≡ self.reference) }
    {
        let LocalBody {
            seat,
            number,
            slot,
            kind,
            back: _,
        } = self;
        let kind = if kind == 1 { Kind::Iface } else { Kind::Driver };
        PlainRef {
            seat,
            number,
            slot: slot as u8,
            kind,
        }
    }

    /// The entry of the reference, as it was attached and as C has it: three loads. Condition: the
    /// words are its table's.
    pub fn entry(&mut self, words: &Words) -> CEntry
        requires words { (words.now.table ≡ self.old.table) × (self.old.reference.entry.slot < words.now.settings.slots) }
        ensures same { self.new ≡ self.old }
        ensures entry { result ≡ entry_out self.old.reference.entry }
    {
        let slot = self.slot as u8;
        let high = load_local(words, &mut self.seat, slot, 2);
        let low = load_local(words, &mut self.seat, slot, 3);
        let value = load_local(words, &mut self.seat, slot, 4);
        CEntry {
            number: self.number,
            slot: self.slot,
            kind: self.kind,
            name: CName { high, low },
            value,
        }
    }

    /// The number of its entry, from 1.
    pub fn number(&self) -> u64
        ensures { result ≡ self.now.reference.entry.number }
    {
        self.number
    }

    /// The slot of its entry, from 0.
    pub fn slot(&self) -> u8
        ensures slot { result ≡ self.now.reference.entry.slot }
        ensures few { result < MOST_SLOTS }
    {
        self.slot as u8
    }

    /// Whether a release found its CPU's count collected.
    pub fn is_back(&self) -> bool
        ensures { result ≡ is_some self.now.reference.collected }
    {
        self.back == 1
    }

    /// The same as a word: 1 or 0.
    pub fn back(&self) -> u64
        ensures { result ≡ back_word self.now.reference.collected }
    {
        self.back
    }

    /// Spends the value and leaves the reference held, for good: nobody has its seat then, so no step can release it, and its count stays.
    pub fn forget(self) {
        // What isn't dropped frees nothing and makes no step. That is sound: what holds of the words while a seat stands holds whoever has
        // the seat, and a body owns no memory beyond its own.
        let _held = unsafe { ManuallyDrop::new_unchecked(self) };
    }
}
