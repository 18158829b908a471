//! Attaching an entry: a vacant slot's words are stored, and one store to the head of the list links it.

ghost use Rattle.std.specs.Prelude.{◌≡◌, ◌<◌, ◌+◌, ◌∷◌, ℕ, IfErr, IfOk, IfSome, IsSome, IsTrue, None, OnErr, OnOk, Ok, Some, [], length, position, slice_set, slice_index_or, true};
ghost use Rattle.std.specs.List.{zip};
ghost use Rattle.passive_core.specs.Types.{Hear, Keep, Publish, StoreSlot, Tell, Done};
ghost use Rattle.passive_core.specs.Attaching.{IsAnswer, after_attach, after_attach_iface, attach_answer, attach_iface_answer, with_reference_given_back, given_entry, is_to_driver, with_reference_kept, first_fit, with_prepared, with_attach_undone, words_before};
ghost use Rattle.passive_core.specs.Making.{AttachMakes, Makes, attach_events, attach_iface_events, count_stores_from, prepare_events, record_stores, seats_and};
ghost use Rattle.registry_values.specs.Common.{is_available, is_iface, is_lawful};
ghost use Rattle.protocol.specs.Common.{with_biases, at_rest, kept_at, local_at, after_publish, after_row_store, after_seeing, is_idle, may_write, number_standing, narrow_step, words_of, Holds};
ghost use Rattle.passive_core.specs.Commands.{all_seated, may_act};

use crate::machine::drain::is_driver_slot;
use crate::machine::{Core, make_room};
use protocol::{Event, LocalPlace, RecordWords};
use registry_values::{
    BIAS, Entry, Key, MOST_CPUS, Record, Refusal, Slot, attach_answer, given_entry, is_available,
    is_iface, kind_word,
};

/// The words of a slot and the seats as an attach found them.
#[derive(Clone, Copy)]
struct Before {
    seated: u8,
    row: RecordWords,
    counts: [u64; MOST_CPUS],
    link: u64,
}

impl Core {
    /// Attaches a driver, by a caller on the CPU c: the entry gets the next number, from 1, and the lowest-numbered slot, from 0, that is
    /// vacant and keeps nothing. Its words are stored, it is linked, and c has seen its change.
    ///
    /// Condition (`lawful`): the name is one that `Name::parse` or `Name::from_words` returns.
    ///
    /// Refused, in this order, and nothing has changed then:
    ///
    /// - `Inside`: c is inside a section;
    /// - `NeedsDriver`: the kind is `Iface`;
    /// - `NameTaken`; `NoSlot`;
    /// - `HistoryFull`: the history has no room for this attach and the detach of each entry that is live then;
    /// - `NoMemory`.
    pub fn attach(&mut self, c: u8, rec: Record) -> Result<Entry, Refusal>
        requires known { c < self.old.settings.cpus }
        requires rest { at_rest self.old.due ≡ true }
        requires ready { may_act self.old c ≡ true }
        requires lawful { IsTrue (is_lawful rec.name) }
        ensures answer { IsAnswer (attach_answer self.old c rec) result }
        ensures after { self.new ≡ after_attach self.old c result }
        ensures made { AttachMakes self.old self.new (attach_events self.old c) result }
        ensures settings { self.new.settings ≡ self.old.settings }
        ensures rest { at_rest self.new.due ≡ true }
        ensures ready { (d : ℕ) → may_act self.old d ≡ true → may_act self.new d ≡ true }
    {
        let _ = &self.settings;
        let given = self.given_entry(rec);
        let entry = attach_answer(self.inside(c), is_iface(rec.kind), given)?;
        self.make_room()?;
        let before = self.words_before(entry.slot);
        self.begin_change(c);
        self.prepare(&entry);
        match self.link(&entry) {
            Ok(()) => {
                self.end_change(c);
                Ok(entry)
            }
            Err(_) => {
                self.restore(entry.slot, before);
                Err(Refusal::NoMemory)
            }
        }
    }

    /// Attaches an interface, by a caller on the CPU c, on the driver that the live local reference with this id is to (localcount(9)): the
    /// slot takes the reference over and keeps it, so the id isn't live then. Else it is as `attach`.
    /// Condition (`lawful`): the name is one that `Name::parse` or `Name::from_words` returns.
    /// Refused, in this order, and nothing has changed then: `Inside` if c is inside a section; `NeedsDriver` if the reference is to an
    /// interface; `NameTaken`; `NoSlot`; `HistoryFull` if the history has no room for this attach and the detach of each entry that is live
    /// then; `NoMemory`.
    pub fn attach_iface(&mut self, c: u8, rec: Record, id: u64) -> Result<Entry, Refusal>
        requires known { c < self.old.settings.cpus }
        requires rest { at_rest self.old.due ≡ true }
        requires ready { may_act self.old c ≡ true }
        requires iface { is_iface rec.kind ≡ true }
        requires live { IsSome (number_standing (local_at self.old.locals id)) }
        requires lawful { IsTrue (is_lawful rec.name) }
        ensures answer { IsAnswer (attach_iface_answer self.old c rec id) result }
        ensures after { self.new ≡ after_attach_iface self.old c id result }
        ensures made { AttachMakes self.old self.new (attach_iface_events self.old c id) result }
        ensures settings { self.new.settings ≡ self.old.settings }
        ensures rest { at_rest self.new.due ≡ true }
        ensures ready { (d : ℕ) → may_act self.old d ≡ true → may_act self.new d ≡ true }
    {
        let _ = &self.settings;
        let given = self.given_entry(rec);
        let entry = attach_answer(self.inside(c), !self.is_to_driver(id), given)?;
        self.make_room()?;
        let before = self.words_before(entry.slot);
        let place = self.local_at(id);
        self.begin_change(c);
        self.keep(entry.slot, id);
        self.prepare(&entry);
        match self.link(&entry) {
            Ok(()) => {
                self.end_change(c);
                Ok(entry)
            }
            Err(_) => {
                self.restore(entry.slot, before);
                self.give_back(entry.slot, id, place);
                Err(Refusal::NoMemory)
            }
        }
    }

    /// The place of the live local reference with this id.
    fn local_at(&self, id: u64) -> LocalPlace
        requires { IsSome (number_standing (local_at self.now.locals id)) }
        ensures { result ≡ local_at self.now.locals id }
    {
        if id < self.locals.len() as u64 {
            self.locals[id as usize]
        } else {
            LocalPlace::Free
        }
    }

    /// The slot takes over the live local reference with this id, which is to a driver.
    fn keep(&mut self, t: u8, id: u64)
        requires write { may_write self.old t ≡ true }
        requires nothing { kept_at self.old.keeps t ≡ None }
        requires driver { is_to_driver self.old id ≡ true }
        ensures after { self.new ≡ with_reference_kept self.old t id }
        ensures made { Makes self.old (Keep t id ∷ []) self.new }
    {
        self.make(Event::Keep(t, id));
    }

    /// Gives the local reference with this id back, which the slot took over.
    fn give_back(&mut self, t: u8, id: u64, place: LocalPlace)
        requires slot { t < self.old.settings.slots }
        requires place { id < length self.old.locals }
        requires holds { Holds (with_reference_given_back self.old t id place) }
        ensures { self.new ≡ with_reference_given_back self.old t id place }
    {
        self.locals[id as usize] = place;
        self.keeps[t as usize] = None;
    }

    /// Whether the local reference with this id is to a driver (localcount(9)).
    fn is_to_driver(&self, id: u64) -> bool
        ensures { result ≡ is_to_driver self.now id }
    {
        let Some(number) = self.standing_at(id) else {
            return false;
        };
        let Some(t) = self.slot_of(number) else {
            return false;
        };
        is_driver_slot(&self.slot_at(t))
    }

    /// The lowest-numbered slot that is vacant and keeps nothing.
    fn first_fit(&self) -> Option<u8>
        ensures value { result ≡ first_fit self.now }
        ensures within { IfSome result (λ t. t < self.now.settings.slots) }
    {
        match first_fit_place(&self.slots, &self.keeps) {
            Some(t) => Some(t as u8),
            None => None,
        }
    }

    /// The entry that an attach of this record makes. Refused, in this order: `NameTaken`, `NoSlot`, `HistoryFull`.
    fn given_entry(&self, rec: Record) -> Result<Entry, Refusal>
        ensures value { result ≡ given_entry self.now rec }
        ensures within { IfOk result (λ entry. entry.slot < self.now.settings.slots) }
    {
        let key = Key {
            kind: rec.kind,
            name: rec.name,
        };
        given_entry(rec, self.is_taken(key), self.first_fit(), self.room())
    }

    /// Makes room for one more change. Refused: `NoMemory`. Nothing that the core shows changes.
    fn make_room(&mut self) -> Result<(), Refusal>
        ensures same { self.new ≡ self.old }
        ensures refusal { IfErr result (λ refusal. refusal ≡ Refusal.NoMemory) }
    {
        make_room(&mut self.history)
    }

    /// What `restore` puts back.
    fn words_before(&self, t: u8) -> Before
        requires { t < self.now.settings.slots }
        ensures { result ≡ words_before self.now t }
    {
        Before {
            seated: self.seated,
            row: self.row_at(t),
            counts: self.counts[t as usize],
            link: self.link_at(t),
        }
    }

    /// Puts the words of a slot and the seats back.
    fn restore(&mut self, t: u8, before: Before)
        requires slot { t < self.old.settings.slots }
        requires holds { Holds (with_attach_undone self.old t before) }
        ensures { self.new ≡ with_attach_undone self.old t before }
    {
        self.seated = before.seated;
        self.rows[t as usize] = before.row;
        let counts = before.counts;
        self.counts[t as usize] = counts;
        self.next[t as usize] = before.link;
    }

    /// Seats every CPU and hands the pass of c to the keeper, for a change by a caller on c.
    fn begin_change(&mut self, c: u8)
        requires known { c < self.old.settings.cpus }
        requires rest { at_rest self.old.due ≡ true }
        requires ready { may_act self.old c ≡ true }
        ensures after { self.new ≡ all_seated self.old }
        ensures made { Makes self.old (seats_and self.old (Tell (Some c) ∷ Hear None ∷ [])) self.new }
        ensures idle { is_idle self.new c ≡ true }
        ensures ready { (d : ℕ) → may_act self.old d ≡ true → may_act self.new d ≡ true }
    {
        self.seat_for(c);
        self.make(Event::Tell(Some(c)));
        self.make(Event::Hear(None));
    }

    /// Hands the history to c, so that c has seen the change.
    fn end_change(&mut self, c: u8)
        requires rest { at_rest self.old.due ≡ true }
        requires idle { is_idle self.old c ≡ true }
        ensures after { self.new ≡ after_seeing self.old c }
        ensures made { Makes self.old (Tell None ∷ Hear (Some c) ∷ []) self.new }
    {
        self.make(Event::Tell(None));
        self.make(Event::Hear(Some(c)));
    }

    /// Stores all words of the entry's slot.
    fn prepare(&mut self, entry: &Entry)
        requires { may_write self.old entry.now.slot ≡ true }
        ensures after { self.new ≡ with_prepared self.old entry.now }
        ensures made { Makes self.old (prepare_events self.old entry.now) self.new }
    {
        self.store_record_words(entry);
        self.store_counts(entry.slot);
        let head = self.head;
        self.make(Event::StoreNext(entry.slot, head));
    }

    fn store_record_words(&mut self, entry: &Entry)
        requires { may_write self.old entry.now.slot ≡ true }
        ensures after { self.new ≡ record self.old { rows = slice_set self.old.rows entry.now.slot (words_of entry.now) } }
        ensures made { Makes self.old (record_stores entry.now) self.new }
    {
        let t = entry.slot;
        let (high, low) = entry.rec.name.words();
        self.store_word(t, 0, entry.number);
        self.store_word(t, 1, kind_word(entry.rec.kind));
        self.store_word(t, 2, high);
        self.store_word(t, 3, low);
        self.store_word(t, 4, entry.rec.value);
    }

    fn store_word(&mut self, t: u8, k: u8, v: u64)
        requires write { may_write self.old t ≡ true }
        requires word { k < 5 }
        ensures after { self.new ≡ after_row_store self.old t k v }
        ensures made { Makes self.old (StoreSlot t k v ∷ []) self.new }
        ensures write { may_write self.new t ≡ true }
    {
        self.make(Event::StoreSlot(t, k, v));
    }

    /// Stores the slot's count words of all CPUs.
    fn store_counts(&mut self, t: u8)
        requires { may_write self.old t ≡ true }
        ensures after { self.new ≡ record self.old { counts = slice_set self.old.counts t (with_biases self.old.settings.cpus (slice_index_or self.old.counts t [])) } }
        ensures made { Makes self.old (count_stores_from t 0 self.old.settings.cpus) self.new }
    {
        let cpus = self.settings.cpus;
        for c in 0..cpus {
            self.make(Event::StoreSlot(t, 5 + c, BIAS));
        }
    }

    /// Links the entry, whose slot is prepared. Refused: `NoMemory`; nothing has changed then.
    fn link(&mut self, entry: &Entry) -> Result<(), Refusal>
        requires { narrow_step self.old (Publish entry.now.slot) ≡ Some (record { state = after_publish self.old entry.now.slot entry.now; reply = Done }) }
        ensures ok { OnOk result (self.new ≡ after_publish self.old entry.now.slot entry.now) }
        ensures err { OnErr result (self.new ≡ self.old) }
    {
        match self.step(Event::Publish(entry.slot)) {
            Ok(_) => Ok(()),
            Err(_) => Err(Refusal::NoMemory),
        }
    }
}

fn first_fit_place(slots: &[Slot], keeps: &[Option<u64>]) -> Option<usize>
    ensures value { result ≡ position is_available (zip slots.now keeps.now) }
    ensures within { IfSome result (λ t. t < length slots.now) }
{
    slots
        .iter()
        .zip(keeps)
        .position(|(slot, kept)| is_available(slot, *kept))
}
