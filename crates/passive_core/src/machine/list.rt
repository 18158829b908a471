//! The list: a vacant slot's words, the store that links its entry, the store that unlinks it, and the one that puts an entry in another's place.

ghost use Rattle.std.specs.Prelude.{◌≡◌, ◌<◌, ◌≤◌, ◌==◌, ◌&&◌, IsTrue, IfSome, length, take, position, slice_index_or, true};
ghost use Rattle.passive_core.specs.Types.{StoreSlot, StoreNext, Publish, Unpublish, Republish, Live};
ghost use Rattle.protocol.specs.Common.{may_write, with_word, kind_of, entry_of, is_bias, are_unused, room_of, kept_at, keeps_rightly, is_prepared, may_publish, may_republish, names_lawfully, at_rest, row_at, Steps};
ghost use Rattle.protocol.specs.History.{rank_at};
ghost use Rattle.registry_values.specs.Common.{is_taken, is_live_as, is_live, key_of, live_count, same_key, slot_before, leads_to, slot_at};
ghost use Rattle.std.specs.List.{list_all, zip};

use crate::machine::{Core, NO_WORDS, grow};
use protocol::{Due, RecordWords, Reply, StepFault};
use registry_values::{
    BIAS, Change, Entry, Key, Kind, MOST_CPUS, NO_MARK, Name, Record, Room, Slot, has_room,
    is_live, is_live_as, key_of,
};

impl Core {
    /// Whether the keeper is at rest and the slot is in range and vacant.
    pub(crate) fn may_write(&self, t: u8) -> bool
        ensures value { result ≡ may_write self.now t }
        ensures slot { IsTrue result → t < self.now.settings.slots }
    {
        self.at_rest() && t < self.settings.slots && matches!(self.slots[t as usize], Slot::Vacant)
    }

    pub(crate) fn step_store_slot(&mut self, t: u8, k: u8, v: u64) -> Result<Reply, StepFault>
        ensures { Steps self.old self.new (StoreSlot t k v) result }
    {
        if k < 5 {
            self.store_record(t, k, v)
        } else {
            self.store_count(t, k, v)
        }
    }

    fn store_record(&mut self, t: u8, k: u8, v: u64) -> Result<Reply, StepFault>
        requires { k < 5 }
        ensures { Steps self.old self.new (StoreSlot t k v) result }
    {
        if !self.may_write(t) {
            return Err(StepFault::NotAllowed);
        }
        let row = self.row_at(t);
        self.rows[t as usize] = with_word(row, k, v);
        Ok(Reply::Done)
    }

    fn store_count(&mut self, t: u8, k: u8, v: u64) -> Result<Reply, StepFault>
        requires { 5 ≤ k }
        ensures { Steps self.old self.new (StoreSlot t k v) result }
    {
        if !self.may_write(t) || k - 5 >= self.settings.cpus {
            return Err(StepFault::NotAllowed);
        }
        self.counts[t as usize][(k - 5) as usize] = v;
        Ok(Reply::Done)
    }

    pub(crate) fn step_store_next(&mut self, t: u8, v: u64) -> Result<Reply, StepFault>
        ensures { Steps self.old self.new (StoreNext t v) result }
    {
        if !self.may_write(t) {
            return Err(StepFault::NotAllowed);
        }
        self.next[t as usize] = v;
        Ok(Reply::Done)
    }

    /// Whether a live entry has this kind and name.
    pub(crate) fn is_taken(&self, key: Key) -> bool
        ensures { result ≡ is_taken key self.now.slots }
    {
        self.slots.iter().any(|slot| is_live_as(key, slot))
    }

    /// The slot whose live entry has this kind and name.
    pub(crate) fn live_place(&self, key: Key) -> Option<u8>
        ensures value { result ≡ position (is_live_as key) self.now.slots }
        ensures within { IfSome result (λ t. t < self.now.settings.slots) }
    {
        match place_live_as(key, &self.slots) {
            Some(t) => Some(t as u8),
            None => None,
        }
    }

    /// What an attach asks of the history.
    pub(crate) fn room(&self) -> Room
        ensures { result ≡ room_of self.now }
    {
        Room {
            changes: self.changes(),
            live: live_count(&self.slots) as u8,
            limit: self.settings.change_limit,
        }
    }

    fn are_unused(&self, t: u8) -> bool
        requires { t < self.now.settings.slots }
        ensures { result ≡ are_unused self.now t }
    {
        are_bias(self.settings.cpus, &self.counts[t as usize]) && self.total_at(t) == BIAS
    }

    fn may_publish(&self, t: u8, entry: &Entry) -> bool
        ensures value { result ≡ may_publish self.now t entry.now }
        ensures slot { IsTrue result → t < self.now.settings.slots }
    {
        self.may_write(t)
            && entry.number == self.changes() + 1
            && !self.is_taken(key_of(entry))
            && has_room(self.room())
            && self.is_prepared(t, entry.rec.kind)
    }

    /// Whether the slot's link and counts are those of a new entry, and what it keeps is right for its kind.
    fn is_prepared(&self, t: u8, kind: Kind) -> bool
        requires { t < self.now.settings.slots }
        ensures { result ≡ is_prepared self.now t kind }
    {
        self.link_at(t) == self.head && self.are_unused(t) && keeps_rightly(self.kept_at(t), kind)
    }

    /// The entry that the slot's words are.
    fn entry_at(&self, t: u8) -> Option<Entry>
        ensures { result ≡ entry_of t (row_at self.now.rows t) }
    {
        if t < self.settings.slots {
            entry_of(t, &self.rows[t as usize])
        } else {
            None
        }
    }

    /// Whether the slot's words have a lawful name.
    fn names_lawfully(&self, t: u8) -> bool
        ensures { result ≡ names_lawfully self.now (Publish t) }
    {
        let row = if t < self.settings.slots {
            self.rows[t as usize]
        } else {
            NO_WORDS
        };
        Name::from_words(row.high, row.low).is_some()
    }

    pub(crate) fn step_publish(&mut self, t: u8) -> Result<Reply, StepFault>
        ensures { Steps self.old self.new (Publish t) result }
    {
        if !self.names_lawfully(t) {
            return Err(StepFault::NotAllowed);
        }
        let Some(entry) = self.entry_at(t) else {
            return Err(StepFault::NotAllowed);
        };
        if !self.may_publish(t, &entry) {
            return Err(StepFault::NotAllowed);
        }
        grow(&mut self.history, Change::Attach(entry))?;
        self.head = t as u64 + 1;
        self.slots[t as usize] = Slot::Live(entry);
        self.nets[t as usize] = [BIAS; MOST_CPUS];
        Ok(Reply::Done)
    }

    /// The live slot whose link leads to this one; none where the head does.
    fn slot_before(&self, t: u8) -> Option<u8>
        ensures value { result ≡ slot_before self.now.slots self.now.next t }
        ensures within { IfSome result (λ p. p < self.now.settings.slots) }
    {
        match place_before(&self.slots, &self.next, u64::from(t) + 1) {
            Some(p) => Some(p as u8),
            None => None,
        }
    }

    pub(crate) fn step_unpublish(&mut self, t: u8) -> Result<Reply, StepFault>
        ensures { Steps self.old self.new (Unpublish t) result }
    {
        let Slot::Live(entry) = self.slot_at(t) else {
            return Err(StepFault::NotAllowed);
        };
        if !self.at_rest() {
            return Err(StepFault::NotAllowed);
        }
        self.unlink(t, entry)
    }

    fn unlink(&mut self, t: u8, entry: Entry) -> Result<Reply, StepFault>
        requires live { slot_at self.old.slots t ≡ Live entry }
        requires rest { at_rest self.old.due ≡ true }
        ensures { Steps self.old self.new (Unpublish t) result }
    {
        let before = self.slot_before(t);
        let link = self.link_at(t);
        grow(&mut self.history, Change::Detach(entry.number))?;
        match before {
            Some(p) => self.next[p as usize] = link,
            None => self.head = link,
        }
        self.slots[t as usize] = Slot::Retired(entry);
        self.marks[t as usize] = [NO_MARK; MOST_CPUS];
        self.due = Due::Snapshots(t, 0);
        Ok(Reply::Done)
    }

    /// Whether all is stored in t that its entry needs to take the place of `old`, which is live in u.
    fn may_republish(&self, t: u8, u: u8, entry: &Entry, old: &Entry) -> bool
        requires { slot_at self.now.slots u ≡ Live old.now }
        ensures value { result ≡ may_republish self.now t u entry.now old.now }
        ensures slot { IsTrue result → t < self.now.settings.slots }
    {
        self.may_write(t)
            && entry.number == self.changes() + 1
            && are_alike(entry, old)
            && has_room(self.room())
            && self.may_follow(t, u, entry.rec.kind)
    }

    /// Whether the slot's link is that of the slot u, its counts are those of a new entry, and what it keeps is right for its kind.
    fn may_follow(&self, t: u8, u: u8, kind: Kind) -> bool
        requires new { t < self.now.settings.slots }
        requires old { (f : Entry) × (slot_at self.now.slots u ≡ Live f) }
        ensures { result ≡ (slice_index_or self.now.next t 0 == slice_index_or self.now.next u 0 && (are_unused self.now t && keeps_rightly (kept_at self.now.keeps t) kind)) }
    {
        self.next[t as usize] == self.next[u as usize]
            && self.are_unused(t)
            && keeps_rightly(self.kept_at(t), kind)
    }

    pub(crate) fn step_republish(&mut self, t: u8, u: u8) -> Result<Reply, StepFault>
        ensures { Steps self.old self.new (Republish t u) result }
    {
        let Some(entry) = self.entry_at(t) else {
            return Err(StepFault::NotAllowed);
        };
        let Slot::Live(old) = self.slot_at(u) else {
            return Err(StepFault::NotAllowed);
        };
        if !self.may_republish(t, u, &entry, &old) {
            return Err(StepFault::NotAllowed);
        }
        self.relink(t, u, entry, old)
    }

    fn relink(&mut self, new: u8, old: u8, entry: Entry, gone: Entry) -> Result<Reply, StepFault>
        requires entry { entry_of new (row_at self.old.rows new) ≡ Some entry }
        requires live { slot_at self.old.slots old ≡ Live gone }
        requires may { may_republish self.old new old entry gone ≡ true }
        ensures { Steps self.old self.new (Republish new old) result }
    {
        let before = self.slot_before(old);
        let rank = self.rank_at(gone.number);
        grow(&mut self.history, Change::Replace(gone.number, rank, entry))?;
        match before {
            Some(p) => self.next[p as usize] = new as u64 + 1,
            None => self.head = new as u64 + 1,
        }
        self.slots[new as usize] = Slot::Live(entry);
        self.slots[old as usize] = Slot::Retired(gone);
        self.nets[new as usize] = [BIAS; MOST_CPUS];
        self.marks[old as usize] = [NO_MARK; MOST_CPUS];
        self.due = Due::Snapshots(old, 0);
        Ok(Reply::Done)
    }

    /// Where the entry with this number is on the list.
    fn rank_at(&self, number: u64) -> u64
        requires above { 0 < number }
        requires within { number ≤ length self.now.history }
        ensures { result ≡ rank_at self.now.history number }
    {
        match self.history[number as usize - 1] {
            Change::Replace(_, rank, _) => rank,
            Change::Attach(_) | Change::Detach(_) => number,
        }
    }
}

/// Whether the entries have one kind and name.
fn are_alike(entry: &Entry, old: &Entry) -> bool
    ensures { result ≡ same_key (key_of entry.now) (key_of old.now) }
{
    entry.rec.kind == old.rec.kind && entry.rec.name == old.rec.name
}

/// The record words with another word k, from 0; the last for k above 4.
fn with_word(row: RecordWords, k: u8, v: u64) -> RecordWords
    ensures { result ≡ with_word row k v }
{
    match k {
        0 => RecordWords { number: v, ..row },
        1 => RecordWords { kind: v, ..row },
        2 => RecordWords { high: v, ..row },
        3 => RecordWords { low: v, ..row },
        _ => RecordWords { value: v, ..row },
    }
}

fn kind_of(word: u64) -> Option<Kind>
    ensures { result ≡ kind_of word }
{
    match word {
        1 => Some(Kind::Iface),
        2 => Some(Kind::Driver),
        _ => None,
    }
}

/// The entry whose words these are, if they have a lawful kind, and a name that isn't both words 0.
fn entry_of(t: u8, row: &RecordWords) -> Option<Entry>
    ensures { result ≡ entry_of t row.now }
{
    let kind = kind_of(row.kind)?;
    let name = Name::from_key_words(row.high, row.low)?;
    Some(Entry {
        number: row.number,
        slot: t,
        rec: Record {
            kind,
            name,
            value: row.value,
        },
    })
}

fn place_live_as(key: Key, slots: &[Slot]) -> Option<usize>
    ensures value { result ≡ position (is_live_as key) slots.now }
    ensures within { IfSome result (λ t. t < length slots.now) }
{
    slots.iter().position(|slot| is_live_as(key, slot))
}

fn live_count(slots: &[Slot]) -> usize
    ensures value { result ≡ live_count slots.now }
    ensures within { result ≤ length slots.now }
{
    slots.iter().filter(|slot| is_live(slot)).count()
}

fn are_bias(cpus: u8, row: &[u64]) -> bool
    ensures { result ≡ list_all is_bias (take cpus row.now) }
{
    row.iter().take(cpus as usize).all(|word| *word == BIAS)
}

/// An interface's slot keeps a reference, and a driver's none.
fn keeps_rightly(kept: Option<u64>, kind: Kind) -> bool
    ensures { result ≡ keeps_rightly kept kind }
{
    match kept {
        Some(_) => kind == Kind::Iface,
        None => kind == Kind::Driver,
    }
}

fn leads_to(link: u64, slot: &Slot, next: u64) -> bool
    ensures { result ≡ leads_to link (slot.now, next) }
{
    is_live(slot) && next == link
}

fn place_before(slots: &[Slot], next: &[u64], link: u64) -> Option<usize>
    ensures value { result ≡ position (leads_to link) (zip slots.now next.now) }
    ensures within { IfSome result (λ p. p < length slots.now) }
{
    slots
        .iter()
        .zip(next)
        .position(|(slot, next)| leads_to(link, slot, *next))
}
