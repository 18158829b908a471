//! Passive references (psref(9)): acquired, copied, read and released on one CPU.

ghost use Rattle.std.specs.Prelude.{◌≡◌, ℕ, ◌<◌, ◌||◌, nat_lt, IfOk, Some, None, [], ◌∷◌, true};
ghost use Rattle.passive_core.specs.Commands.{all_seated, may_act};
ghost use Rattle.passive_core.specs.Making.{Makes, record_loads, seats_and};
ghost use Rattle.passive_core.specs.Types.{PassiveAdd, PassiveSub, Word};
ghost use Rattle.protocol.specs.declared.event.RecordOf.TheVariants.{Passive as OfPassive};
ghost use Rattle.protocol.specs.Common.{is_idle, is_number, load_record, some_outcome, Holds, found_at, at_rest};
ghost use Rattle.registry_values.specs.Common.{slot_of, why_full, Answers};
ghost use Rattle.passive_core.specs.References.{passive_of, psref_to_found, refusal_of, psref_copy, IsOneMore, IsOneLess, IsRecordOf, IsWordLoad, after_acquire, after_release, after_read, with_one_more, with_one_less};

use crate::machine::Core;
use crate::psref::CorePsref;
use protocol::{Event, RecordOf, Reply};
use registry_values::{Record, Refusal, record_from, why_full, why_unusable};

impl Core {
    /// Acquires a passive reference to the CPU's last found entry (psref(9)). It outlives the section, and the entry's slot isn't reused
    /// before it is released.
    ///
    /// CPUs count from 0.
    /// Refused, in this order, and nothing has changed: `NothingFound` if the CPU has no last found entry; `PassiveFull` if it has
    /// `passive_limit` references to the entry.
    pub fn acquire(&mut self, c: u8) -> Result<CorePsref, Refusal>
        requires known { c < self.old.settings.cpus }
        requires rest { at_rest self.old.due ≡ true }
        requires ready { may_act self.old c ≡ true }
        ensures answer { result ≡ psref_to_found self.old c (found_at self.old c) }
        ensures after { self.new ≡ after_acquire self.old c result }
        ensures made { IfOk result (λ psref. Makes self.old (seats_and self.old (PassiveAdd c psref.number ∷ [])) self.new) }
        ensures counted { IfOk result (λ psref. IsOneMore self.old self.new c psref.number) }
        ensures settings { self.new.settings ≡ self.old.settings }
        ensures rest { at_rest self.new.due ≡ true }
        ensures ready { (d : ℕ) → may_act self.old d ≡ true → may_act self.new d ≡ true }
    {
        let Some(found) = self.found_at(c) else {
            return Err(Refusal::NothingFound);
        };
        if let Some(refusal) = self.why_full(c, found.number) {
            return Err(refusal);
        }
        self.add_passive(c, found.number);
        Ok(CorePsref {
            cpu: c,
            number: found.number,
        })
    }

    /// Acquires a second reference on the first one's CPU, to the same entry; each is released by itself (psref(9)).
    ///
    /// Refused, in this order, and nothing has changed: `WrongCpu` if the reference names another CPU; `NotHeld` if this CPU holds no
    /// passive reference to that number; `PassiveFull` if it has `passive_limit` of them.
    pub fn copy(&mut self, c: u8, psref: CorePsref) -> Result<CorePsref, Refusal>
        requires known { c < self.old.settings.cpus }
        requires rest { at_rest self.old.due ≡ true }
        requires ready { may_act self.old c ≡ true }
        ensures answer { result ≡ psref_copy self.old c psref.number (refusal_of self.old c psref) }
        ensures after { self.new ≡ after_acquire self.old c result }
        ensures made { IfOk result (λ psref. Makes self.old (seats_and self.old (PassiveAdd c psref.number ∷ [])) self.new) }
        ensures counted { IfOk result (λ psref. IsOneMore self.old self.new c psref.number) }
        ensures settings { self.new.settings ≡ self.old.settings }
        ensures rest { at_rest self.new.due ≡ true }
        ensures ready { (d : ℕ) → may_act self.old d ≡ true → may_act self.new d ≡ true }
    {
        if let Some(refusal) = self.refusal_of(c, psref) {
            return Err(refusal);
        }
        if let Some(refusal) = self.why_full(c, psref.number) {
            return Err(refusal);
        }
        self.add_passive(c, psref.number);
        Ok(psref)
    }

    /// Whether the CPU holds a passive reference to that number, whichever CPU the reference names.
    pub fn held(&self, c: u8, psref: CorePsref) -> bool
        requires { c < self.now.settings.cpus }
        ensures { result ≡ nat_lt 0 (passive_of self.now c psref.number) }
    {
        0 < self.passive_of(c, psref.number)
    }

    /// The record of the entry that the reference is to, which stays while the reference is held (psref(9)). It needs no section.
    ///
    /// Refused, in this order, and nothing has changed: `WrongCpu` if the reference names another CPU; `NotHeld` if this CPU holds no
    /// passive reference to that number.
    #[tactic(auto, using(crate::proofs::Making::seated_and))]
    pub fn read(&mut self, c: u8, psref: CorePsref) -> Result<Record, Refusal>
        requires known { c < self.old.settings.cpus }
        requires rest { at_rest self.old.due ≡ true }
        requires ready { may_act self.old c ≡ true }
        ensures answer { Answers (refusal_of self.old c psref) (IsRecordOf self.old.history psref.number) result }
        ensures after { self.new ≡ after_read self.old result }
        ensures made { IfOk result (λ _. Makes self.old (seats_and self.old (record_loads (λ k. OfPassive c psref.number k))) self.new) }
        ensures settings { self.new.settings ≡ self.old.settings }
        ensures rest { at_rest self.new.due ≡ true }
        ensures ready { (d : ℕ) → may_act self.old d ≡ true → may_act self.new d ≡ true }
    {
        if let Some(refusal) = self.refusal_of(c, psref) {
            return Err(refusal);
        }
        self.begin();
        Ok(self.record_by_passive(c, psref.number))
    }

    /// Releases a passive reference, on the CPU where it was acquired (psref(9)).
    ///
    /// Refused, in this order, and nothing has changed: `WrongCpu` if the reference names another CPU; `NotHeld` if this CPU holds no
    /// passive reference to that number.
    pub fn release(&mut self, c: u8, psref: CorePsref) -> Result<(), Refusal>
        requires known { c < self.old.settings.cpus }
        requires rest { at_rest self.old.due ≡ true }
        requires ready { may_act self.old c ≡ true }
        ensures answer { Answers (refusal_of self.old c psref) (λ _. Unit {0}) result }
        ensures after { self.new ≡ after_release self.old c psref.number result }
        ensures made { IfOk result (λ _. Makes self.old (seats_and self.old (PassiveSub c psref.number ∷ [])) self.new) }
        ensures counted { IfOk result (λ _. IsOneLess self.old self.new c psref.number) }
        ensures settings { self.new.settings ≡ self.old.settings }
        ensures rest { at_rest self.new.due ≡ true }
        ensures ready { (d : ℕ) → may_act self.old d ≡ true → may_act self.new d ≡ true }
    {
        if let Some(refusal) = self.refusal_of(c, psref) {
            return Err(refusal);
        }
        self.subtract_passive(c, psref.number);
        Ok(())
    }

    /// Seats all CPUs and counts one reference more to what the CPU has found or holds a reference to.
    fn add_passive(&mut self, c: u8, number: u64)
        requires known { c < self.old.settings.cpus }
        requires rest { at_rest self.old.due ≡ true }
        requires ready { may_act self.old c ≡ true }
        requires has { (is_number number (found_at self.old c) || nat_lt 0 (passive_of self.old c number)) ≡ true }
        requires room { nat_lt (passive_of self.old c number) self.old.settings.passive_limit ≡ true }
        ensures after { self.new ≡ with_one_more self.old c (slot_of self.old.slots number) }
        ensures made { Makes self.old (seats_and self.old (PassiveAdd c number ∷ [])) self.new }
        ensures counted { IsOneMore self.old self.new c number }
        ensures ready { (d : ℕ) → may_act self.old d ≡ true → may_act self.new d ≡ true }
    {
        self.begin();
        self.make(Event::PassiveAdd(c, number));
    }

    /// Seats all CPUs and counts one reference less.
    fn subtract_passive(&mut self, c: u8, number: u64)
        requires known { c < self.old.settings.cpus }
        requires rest { at_rest self.old.due ≡ true }
        requires ready { may_act self.old c ≡ true }
        requires held { nat_lt 0 (passive_of self.old c number) ≡ true }
        ensures after { self.new ≡ with_one_less self.old c (slot_of self.old.slots number) }
        ensures made { Makes self.old (seats_and self.old (PassiveSub c number ∷ [])) self.new }
        ensures counted { IsOneLess self.old self.new c number }
        ensures ready { (d : ℕ) → may_act self.old d ≡ true → may_act self.new d ≡ true }
    {
        self.begin();
        self.make(Event::PassiveSub(c, number));
    }

    /// Seats all CPUs, before the first event of a command. Those that might act before are idle then.
    pub(crate) fn begin(&mut self)
        requires { at_rest self.old.due ≡ true }
        ensures seated { self.new ≡ all_seated self.old }
        ensures idle { (d : ℕ) → d < self.old.settings.cpus → may_act self.old d ≡ true → is_idle self.new d ≡ true }
        ensures ready { (d : ℕ) → may_act self.old d ≡ true → may_act self.new d ≡ true }
        ensures sound { Holds self.old }
    {
        let _ = &self.settings;
        self.seat_all();
    }

    /// Loads words 1 to 4 of the record that a passive reference of the CPU is to.
    fn record_by_passive(&mut self, c: u8, number: u64) -> Record
        requires idle { is_idle self.old c ≡ true }
        requires held { nat_lt 0 (passive_of self.old c number) ≡ true }
        ensures record { IsRecordOf self.old.history number result }
        ensures same { self.new ≡ self.old }
        ensures made { Makes self.old (record_loads (λ k. OfPassive c number k)) self.new }
    {
        let _ = &self.settings;
        let kind = self.load_word(RecordOf::Passive(c, number, 1));
        let high = self.load_word(RecordOf::Passive(c, number, 2));
        let low = self.load_word(RecordOf::Passive(c, number, 3));
        let value = self.load_word(RecordOf::Passive(c, number, 4));
        record_from(kind, high, low, value)
    }

    /// One load of a record's word, which is known to be allowed.
    pub(crate) fn load_word(&mut self, of: RecordOf) -> u64
        requires { IsWordLoad self.old of }
        ensures word { load_record self.old of ≡ some_outcome self.old (Word result) }
        ensures same { self.new ≡ self.old }
    {
        match self.make(Event::LoadRecord(of)) {
            Reply::Word(word) => word,
            _ => unreachable!(),
        }
    }

    /// How many passive references the CPU has to that number; what it is trying is none.
    fn passive_of(&self, c: u8, number: u64) -> u64
        requires { c < self.now.settings.cpus }
        ensures { result ≡ passive_of self.now c number }
    {
        let _ = &self.settings;
        match self.slot_of(number) {
            Some(t) => self.passive_at(c, t) - self.trying_at(c, t),
            None => 0,
        }
    }

    /// Why the CPU may not have one passive reference more to that number.
    fn why_full(&self, c: u8, number: u64) -> Option<Refusal>
        requires { c < self.now.settings.cpus }
        ensures value { result ≡ why_full (passive_of self.now c number) self.now.settings.passive_limit }
        ensures room { result ≡ None → nat_lt (passive_of self.now c number) self.now.settings.passive_limit ≡ true }
    {
        why_full(self.passive_of(c, number), self.settings.passive_limit)
    }

    /// Why the CPU may not use the reference.
    fn refusal_of(&self, c: u8, psref: CorePsref) -> Option<Refusal>
        requires { c < self.now.settings.cpus }
        ensures { result ≡ refusal_of self.now c psref }
    {
        why_unusable(psref.cpu == c, self.held(c, psref))
    }
}
