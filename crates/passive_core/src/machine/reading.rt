//! The words and marks of a core, one at a time, and what their places are.

ghost use Rattle.std.specs.Prelude.{◌≡◌, ◌<◌, ◌≤◌, ◌*◌, Some, None, IfSome, IsTrue, length, slice_index_or, []};
ghost use Rattle.protocol.specs.Common.{is_idle, word, number_standing, Holds, at_rest, section_at, begin_at, depth_at, seen_at, found_at, hand_at, trying_at, search_at, passive_at, count_at, total_at, kept_at, mark_at, row_at, local_at};
ghost use Rattle.passive_core.specs.Types.{MOST_SECTIONS};
ghost use Rattle.registry_values.specs.Common.{slot_of, has_number, is_retired, slot_at, have_passed, are_clear, are_collected, is_some_collected};

use crate::machine::Core;
use protocol::{Due, Hand, LocalPlace, RecordWords, Search};
use registry_values::{
    Entry, Mark, Settings, Slot, are_clear, are_collected, has_number, have_passed,
    is_some_collected,
};

impl Core {
    /// The settings that the core was made with.
    pub fn settings(&self) -> Settings
        ensures { result ≡ self.now.settings }
    {
        self.settings
    }

    /// The link at the head of the list: 1 more than the slot of the entry that was linked last, or 0 where the list is
    /// empty.
    pub fn head(&self) -> u64
        ensures { result ≡ self.now.head }
    {
        self.head
    }

    pub(crate) fn section_at(&self, c: u8) -> u64
        requires { c < self.now.settings.cpus }
        ensures value { result ≡ section_at self.now c }
        ensures small { result ≤ 2 * MOST_SECTIONS }
    {
        self.section[c as usize]
    }

    pub(crate) fn begin_at(&self, c: u8) -> Option<u64>
        requires { c < self.now.settings.cpus }
        ensures { result ≡ begin_at self.now c }
    {
        self.begins[c as usize]
    }

    pub(crate) fn seen_at(&self, c: u8) -> u64
        requires { c < self.now.settings.cpus }
        ensures { result ≡ seen_at self.now c }
    {
        self.seen[c as usize]
    }

    pub(crate) fn depth_at(&self, c: u8) -> u8
        requires { c < self.now.settings.cpus }
        ensures { result ≡ depth_at self.now c }
    {
        self.depths[c as usize]
    }

    pub(crate) fn search_at(&self, c: u8) -> Option<Search>
        ensures value { result ≡ search_at self.now c }
        ensures within { IfSome result (λ _. c < self.now.settings.cpus) }
    {
        if c < self.settings.cpus {
            self.searches[c as usize]
        } else {
            None
        }
    }

    /// The last found entry of the CPU, from 0; none where the CPU isn't known.
    pub fn found_at(&self, c: u8) -> Option<Entry>
        ensures value { result ≡ found_at self.now c }
        ensures within { IfSome result (λ _. c < self.now.settings.cpus) }
    {
        if c < self.settings.cpus {
            self.found[c as usize]
        } else {
            None
        }
    }

    pub(crate) fn hand_at(&self, c: u8) -> Hand
        ensures { result ≡ hand_at self.now c }
    {
        if c < self.settings.cpus {
            self.hands[c as usize]
        } else {
            Hand::Empty
        }
    }

    /// 1 if the CPU is trying to get a reference in the slot, else 0.
    pub(crate) fn trying_at(&self, c: u8, t: u8) -> u64
        ensures { result ≡ trying_at self.now.hands c t }
    {
        match self.hand_at(c) {
            Hand::Trying(slot, _) if slot == t => 1,
            _ => 0,
        }
    }

    /// The state of the slot, from 0; vacant if the slot isn't known.
    pub fn slot_at(&self, t: u8) -> Slot
        ensures value { result ≡ slot_at self.now.slots t }
    {
        if t < self.settings.slots {
            self.slots[t as usize]
        } else {
            Slot::Vacant
        }
    }

    pub(crate) fn link_at(&self, t: u8) -> u64
        requires { t < self.now.settings.slots }
        ensures { result ≡ slice_index_or self.now.next t 0 }
    {
        self.next[t as usize]
    }

    pub(crate) fn row_at(&self, t: u8) -> RecordWords
        requires { t < self.now.settings.slots }
        ensures { result ≡ row_at self.now.rows t }
    {
        self.rows[t as usize]
    }

    /// What the keeper has noted of the CPU, from 0, for the entry that is retired in the slot, from 0.
    pub fn mark_at(&self, t: u8, c: u8) -> Mark
        requires slot { t < self.now.settings.slots }
        requires cpu { c < self.now.settings.cpus }
        ensures { result ≡ mark_at self.now.marks t c }
    {
        self.marks[t as usize][c as usize]
    }

    pub(crate) fn passive_at(&self, c: u8, t: u8) -> u64
        requires slot { t < self.now.settings.slots }
        requires cpu { c < self.now.settings.cpus }
        ensures { result ≡ passive_at self.now.passive c t }
    {
        self.passive[t as usize][c as usize]
    }

    pub(crate) fn count_at(&self, c: u8, t: u8) -> u64
        requires slot { t < self.now.settings.slots }
        requires cpu { c < self.now.settings.cpus }
        ensures { result ≡ count_at self.now.counts c t }
    {
        self.counts[t as usize][c as usize]
    }

    pub(crate) fn net_at(&self, c: u8, t: u8) -> u64
        requires slot { t < self.now.settings.slots }
        requires cpu { c < self.now.settings.cpus }
        ensures { result ≡ count_at self.now.nets c t }
    {
        self.nets[t as usize][c as usize]
    }

    pub(crate) fn total_at(&self, t: u8) -> u64
        requires { t < self.now.settings.slots }
        ensures { result ≡ total_at self.now.totals t }
    {
        self.totals[t as usize]
    }

    pub(crate) fn kept_at(&self, t: u8) -> Option<u64>
        ensures value { result ≡ kept_at self.now.keeps t }
        ensures within { IfSome result (λ _. t < self.now.settings.slots) }
    {
        if t < self.settings.slots {
            self.keeps[t as usize]
        } else {
            None
        }
    }

    /// The number that the live local reference with this id is to.
    pub(crate) fn standing_at(&self, id: u64) -> Option<u64>
        ensures value { result ≡ number_standing (local_at self.now.locals id) }
        ensures within { IfSome result (λ _. id < length self.now.locals) }
    {
        if id < self.locals.len() as u64 {
            standing(&self.locals[id as usize])
        } else {
            None
        }
    }

    /// How many changes the history has: attaches and detaches.
    pub fn changes(&self) -> u64
        ensures value { result ≡ length self.now.history }
        ensures room { result < 9223372036854775808 }
    {
        self.history.len() as u64
    }

    /// Whether the next change asks for memory: the history is as long as what it has. No contract speaks of memory.
    pub fn is_full(&self) -> bool {
        self.history.len() == self.history.capacity()
    }

    /// Whether no operation of the keeper is half done.
    pub fn at_rest(&self) -> bool
        ensures value { result ≡ at_rest self.now.due }
        ensures holds { Holds self.now }
    {
        matches!(self.due, Due::Rest)
    }

    /// Whether the CPU is seated, has no search under way and nothing in its hand.
    pub(crate) fn is_idle(&self, c: u8) -> bool
        ensures value { result ≡ is_idle self.now c }
        ensures within { IsTrue result → c < self.now.settings.cpus }
    {
        c < self.seated
            && self.searches[c as usize].is_none()
            && matches!(self.hands[c as usize], Hand::Empty)
    }

    /// Whether the slot, in range or not, has a retired entry.
    pub(crate) fn is_retired(&self, t: u8) -> bool
        ensures value { result ≡ is_retired (slot_at self.now.slots t) }
        ensures within { IsTrue result → t < self.now.settings.slots }
    {
        t < self.settings.slots && matches!(self.slots[t as usize], Slot::Retired(_))
    }

    /// The slot whose live or retired entry has this number.
    pub(crate) fn slot_of(&self, number: u64) -> Option<u8>
        ensures value { result ≡ slot_of self.now.slots number }
        ensures within { IfSome result (λ t. t < self.now.settings.slots) }
    {
        match place_of(number, &self.slots) {
            Some(t) => Some(t as u8),
            None => None,
        }
    }

    /// Whether every CPU has passed for the slot.
    pub(crate) fn have_passed(&self, t: u8) -> bool
        requires { t < self.now.settings.slots }
        ensures { result ≡ have_passed self.now.settings.cpus (slice_index_or self.now.marks t []) }
    {
        have_passed(self.settings.cpus, &self.marks[t as usize])
    }

    /// Whether every CPU was seen without passive references to the slot's entry.
    pub(crate) fn are_clear(&self, t: u8) -> bool
        requires { t < self.now.settings.slots }
        ensures { result ≡ are_clear self.now.settings.cpus (slice_index_or self.now.marks t []) }
    {
        are_clear(self.settings.cpus, &self.marks[t as usize])
    }

    /// Whether every CPU's count word for the slot was collected.
    pub(crate) fn are_collected(&self, t: u8) -> bool
        requires { t < self.now.settings.slots }
        ensures { result ≡ are_collected self.now.settings.cpus (slice_index_or self.now.marks t []) }
    {
        are_collected(self.settings.cpus, &self.marks[t as usize])
    }

    /// Whether some CPU's count word for the slot was collected.
    pub(crate) fn is_some_collected(&self, t: u8) -> bool
        requires { t < self.now.settings.slots }
        ensures { result ≡ is_some_collected self.now.settings.cpus (slice_index_or self.now.marks t []) }
    {
        is_some_collected(self.settings.cpus, &self.marks[t as usize])
    }
}

fn place_of(number: u64, slots: &[Slot]) -> Option<usize>
    ensures value { result ≡ slot_of slots.now number }
    ensures within { IfSome result (λ t. t < length slots.now) }
{
    slots.iter().position(|slot| has_number(number, slot))
}

fn standing(place: &LocalPlace) -> Option<u64>
    ensures { result ≡ number_standing place.now }
{
    match place {
        LocalPlace::Standing(number) => Some(*number),
        LocalPlace::Free | LocalPlace::Lifted(_) => None,
    }
}

/// Word k of a record, from 0; the last for k above 4.
pub(crate) fn word(row: &RecordWords, k: u8) -> u64
    ensures { result ≡ word row.now k }
{
    match k {
        0 => row.number,
        1 => row.kind,
        2 => row.high,
        3 => row.low,
        _ => row.value,
    }
}
