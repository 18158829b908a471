//! What a CPU remembers of the entries that it has found, and of the names that it hasn't found.

ghost use Rattle.std.specs.Prelude.{◌≡◌, ◌≢◌, ◌↔◌, ◌<◌, IfOk, IsTrue, length};
ghost use Rattle.cpu_words.specs.Common.{key_with};
ghost use Rattle.passive_list.specs.Memories.{HasCleared, HasForgotten, IsMiss, IsRow, RecallsAt, RecallsWords, hint_of, is_for, keeps, miss_at, miss_of, no_hint, no_memo, no_memory, no_miss, no_misses, with_miss, with_missed, with_seen};

use crate::lookup::Seen;
use registry_values::{Kind, MOST_SLOTS, Name, kind_word};
use std::alloc::{AllocError, Global};
use std::marker::Model;

/// How many hints there are: for each of the most slots eight. Few of the names in the slots share one.
const HINTS: usize = 2048;

/// The products of so many names in a row have the same hint: 2^64 by `HINTS`.
const HINT_SPAN: u64 = 1 << 53;

/// How many more misses than slots are kept, but for the bound of `MOST_MISSES`.
const SPARE_MISSES: usize = 8;

/// The most misses that are kept: a byte is the place of each.
const MOST_MISSES: usize = 256;

/// An odd number. Of 32 names that differ in a counter few have products with it that begin with the same eight bits.
const MIX: u64 = 0xc4ce_b9fe_1a85_ec53;

/// The words of an entry that the CPU has found in a slot.
#[derive(Clone, Copy)]
pub struct Memo {
    pub number: u64,
    pub value: u64,
    /// The kind's word, as C has it; 0, which is no kind's, for no entry.
    pub kind: u64,
    pub name: Name,
}

impl Memo {
    /// Of no entry. All its bytes are 0: a row of these is filled at once.
    pub fn none() -> Memo
        ensures { result ≡ no_memo }
    {
        Memo {
            number: 0,
            value: 0,
            kind: 0,
            name: Name::of_words(0, 0),
        }
    }
}

/// A kind and a name that no live entry had, while the entry with `number` was the newest one.
#[derive(Clone, Copy)]
pub struct Miss {
    /// From 1; 0 for no miss.
    pub number: u64,
    pub kind: Kind,
    pub name: Name,
}

impl Miss {
    /// Of nothing.
    pub fn none() -> Miss
        ensures { result ≡ no_miss }
    {
        Miss {
            number: 0,
            kind: Kind::Iface,
            name: Name::of_words(0, 0),
        }
    }

    /// Whether it is a miss of this kind and name while the entry with this number was the newest one.
    pub fn is_of(self, kind: Kind, name: Name, number: u64) -> bool
        ensures { IsTrue result ↔ IsMiss (key_with kind name) number self }
    {
        number != 0 && self.number == number && self.kind == kind && self.name == name
    }

    /// Whether it has this kind and name.
    fn is_for(self, kind: Kind, name: Name) -> bool
        ensures { result ≡ is_for (key_with kind name) self }
    {
        self.kind == kind && self.name == name
    }
}

/// The two slots where entries with a hint were found last, or the two places of the last misses with it: they cost a section where they lead to other
/// names, and never an answer.
#[derive(Clone, Copy)]
pub struct Hint {
    /// The last one, or any.
    pub last: u8,
    /// The one before that.
    pub older: u8,
}

impl Hint {
    /// Of nothing.
    pub fn none() -> Hint
        ensures { result ≡ no_hint }
    {
        Hint { last: 0, older: 0 }
    }
}

/// What a CPU remembers. Its rows lie on the heap, as many as its table's slots ask for.
#[derive(Drop)]
pub struct Memory {
    /// By slot, the entry that the CPU found there last.
    rows: Vec<Memo>,
    /// By hint of a name.
    hints: Vec<Hint>,
    missed: Missed,
}

impl Model for Memory {
    ghost use Rattle.std.specs.Prelude.{◌≡◌, length};
    ghost use Rattle.passive_list.specs.Memories.{LeadBelow, Memory as OnMemory};
    ghost use Rattle.passive_list.specs.declared.memory.TheConstants.{HINTS};

    ghost Value = { OnMemory };

    ghost view = { λ m. record { rows = m.rows.items; hints = m.hints.items; missed = m.missed } };

    ghost invariant = { λ m. (length m.hints.items ≡ HINTS) × LeadBelow (length m.rows.items) m.hints.items };
}

impl Memory {
    /// Of no entry. All its bytes are 0, too.
    pub fn new(alloc: Global, slots: u8) -> Result<Memory, AllocError>
        requires { 0 < slots }
        ensures { IfOk result (λ memory. memory ≡ no_memory slots) }
    {
        Ok(Memory {
            rows: vec![in alloc; Memo::none(); slots as usize]?,
            hints: vec![in alloc; Hint::none(); HINTS]?,
            missed: Missed::new(alloc, slots)?,
        })
    }

    /// What is remembered with this kind's word and this name: at the newer one of its name's
    /// hints, else at the older one. A row of no entry has the word 0, and the name of two words 0.
    #[inline(always)]
    #[tactic(auto, using(crate::proofs::Memories::by_newer, crate::proofs::Memories::by_older))]
    pub fn remembered(&self, word: u64, name: Name) -> Option<Seen>
        ensures { RecallsWords self.now word name result }
    {
        let hint = hint_of(name);
        if let Some(seen) = self.at(self.hints[hint].last, word, name) {
            return Some(seen);
        }
        // Loaded only now: a register that is kept until then costs more.
        self.at(self.hints[hint].older, word, name)
    }

    /// What the row of a slot says, if it has this kind's word and this name.
    #[inline(always)]
    #[tactic(auto, using(crate::proofs::Memories::at_words))]
    fn at(&self, slot: u8, word: u64, name: Name) -> Option<Seen>
        requires { slot < length self.now.rows }
        ensures { RecallsAt self.now.rows word name slot result }
    {
        let slot = slot as usize;
        let memo = self.rows[slot];
        if is_row_of(memo, word, name) {
            Some(Seen {
                number: memo.number,
                slot: slot as u64,
                value: memo.value,
            })
        } else {
            None
        }
    }

    /// Remembers what a search for this kind and name found. Its slot becomes the newer one of the name's hints.
    pub fn remember(&mut self, kind: Kind, name: Name, seen: Seen)
        requires { (seen.slot < MOST_SLOTS) × (seen.slot < length self.old.rows) }
        ensures { self.new ≡ with_seen self.old (key_with kind name) seen }
    {
        let hint = hint_of(name);
        let slot = seen.slot as u8;
        let last = self.hints[hint].last;
        if last != slot {
            self.hints[hint] = Hint {
                last: slot,
                older: last,
            };
        }
        self.rows[slot as usize] = Memo {
            number: seen.number,
            value: seen.value,
            kind: kind_word(kind),
            name,
        };
    }

    /// Forgets what is remembered with this kind and name.
    pub fn forget(&mut self, kind: Kind, name: Name)
        ensures { HasForgotten (key_with kind name) self.old self.new }
    {
        let hint = self.hints[hint_of(name)];
        let word = kind_word(kind);
        self.clear(hint.last, word, name);
        self.clear(hint.older, word, name);
    }

    /// The last miss of this kind and name, if it is kept. Else another one.
    pub fn miss_of(&self, kind: Kind, name: Name) -> Miss
        ensures { result ≡ miss_of self.now.missed (key_with kind name) }
    {
        self.missed.of(kind, name)
    }

    /// Remembers a miss.
    pub fn miss(&mut self, kind: Kind, name: Name, number: u64)
        ensures { self.new ≡ with_miss self.old (key_with kind name) number }
    {
        self.missed.put(kind, name, number);
    }

    /// Clears the row of a slot, if it has this kind's word and this name, and there is one.
    fn clear(&mut self, slot: u8, word: u64, name: Name)
        requires { word ≢ 0 }
        ensures { HasCleared word name slot self.old self.new }
    {
        let slot = slot as usize;
        if slot < self.rows.len() && is_row_of(self.rows[slot], word, name) {
            self.rows[slot] = Memo::none();
        }
    }
}

/// The last misses, as many as there are places: each stays until as many others were kept after it.
#[derive(Drop)]
pub struct Missed {
    places: Vec<Miss>,
    /// By hint of a name.
    hints: Vec<Hint>,
    /// The place of the next one.
    next: u8,
}

impl Model for Missed {
    ghost use Rattle.std.specs.Prelude.{◌≡◌, ◌<◌, ◌≤◌, length};
    ghost use Rattle.passive_list.specs.Memories.{Missed as OnMissed};
    ghost use Rattle.passive_list.specs.declared.memory.TheConstants.{HINTS, MOST_MISSES};

    ghost Value = { OnMissed };

    ghost view = { λ m. record { places = m.places.items; hints = m.hints.items; next = m.next } };

    ghost invariant = { λ m. (length m.hints.items ≡ HINTS) × (m.next < length m.places.items) × (length m.places.items ≤ MOST_MISSES) };
}

impl Missed {
    /// Of nothing.
    fn new(alloc: Global, slots: u8) -> Result<Missed, AllocError>
        requires { 0 < slots }
        ensures { IfOk result (λ missed. missed ≡ no_misses slots) }
    {
        let places = (slots as usize + SPARE_MISSES).min(MOST_MISSES);
        Ok(Missed {
            places: vec![in alloc; Miss::none(); places]?,
            hints: vec![in alloc; Hint::none(); HINTS]?,
            next: 0,
        })
    }

    /// The miss of this kind and name at the newer one of its name's hints, else the one at the older one.
    fn of(&self, kind: Kind, name: Name) -> Miss
        ensures { result ≡ miss_of self.now (key_with kind name) }
    {
        let hint = self.hints[hint_of(name)];
        let newer = self.at(hint.last);
        if newer.is_for(kind, name) {
            return newer;
        }
        self.at(hint.older)
    }

    /// The miss of a place; of nothing, if there is no such place.
    fn at(&self, place: u8) -> Miss
        ensures { result ≡ miss_at self.now.places place }
    {
        let place = place as usize;
        if place < self.places.len() {
            self.places[place]
        } else {
            Miss::none()
        }
    }

    /// Whether there is such a place, and it keeps a miss of this kind and name.
    fn keeps(&self, place: u8, kind: Kind, name: Name) -> bool
        ensures value { result ≡ keeps self.now.places (key_with kind name) place }
        ensures within { IsTrue result → place < length self.now.places }
    {
        let kept = self.at(place);
        kept.number != 0 && kept.is_for(kind, name)
    }

    /// Keeps a miss: in the place where one of this kind and name was kept last, if it is there still. Else in the next place, which becomes the
    /// newer one of the name's hints.
    fn put(&mut self, kind: Kind, name: Name, number: u64)
        ensures { self.new ≡ with_missed self.old (key_with kind name) number }
    {
        let miss = Miss { number, kind, name };
        let hint = hint_of(name);
        let last = self.hints[hint].last;
        if self.keeps(last, kind, name) {
            self.places[last as usize] = miss;
            return;
        }
        let place = self.next as usize;
        self.places[place] = miss;
        self.hints[hint] = Hint {
            last: self.next,
            older: last,
        };
        self.next = ((place + 1) % self.places.len()) as u8;
    }
}

/// The hint of a name, from 0: the high bits of a product with an odd number, so that names that differ in a digit lie apart.
fn hint_of(name: Name) -> usize
    ensures { (result ≡ hint_of name) × (result < HINTS) }
{
    let (high, low) = name.words();
    let mixed = high.wrapping_add(low).wrapping_mul(MIX);
    (mixed / HINT_SPAN) as usize
}

/// Whether the row has this kind's word and this name.
fn is_row_of(memo: Memo, word: u64, name: Name) -> bool
    ensures { IsTrue result ↔ IsRow word name memo }
{
    memo.kind == word && memo.name == name
}
