//! Local references (localcount(9)): acquired in a section, and released on any CPU; and their audit.

ghost use Rattle.std.specs.Prelude.{◌≡◌, ℕ, ◌+◌, ◌<◌, nat_lt, IfOk, IsTrue, Some, None, [], ◌∷◌, if◌then◌else◌, false, true, IfErr, OnErr, All, map};
ghost use Rattle.passive_core.specs.Commands.{all_seated, may_act};
ghost use Rattle.passive_core.specs.Making.{Makes, record_loads, seats_and};
ghost use Rattle.passive_core.specs.Types.{CountAdd, SplitRef, JoinRef, CountDown, SplitBack, Entry};
ghost use Rattle.protocol.specs.declared.event.RecordOf.TheVariants.{Local as OfLocal};
ghost use Rattle.protocol.specs.Common.{is_idle, number_standing, at_rest, found_at, local_at, IsIn};
ghost use Rattle.passive_core.specs.References.{IsCounted, after_acquire_local, after_release_local, release_events, under_events, count_in, count_refusal, is_counting, is_live_local, local_slot, with_count_less, with_total_less, IsRecordOf, IsHeldRightly, IsOccupied, audit_of, locals_at, tally_of};
ghost use Rattle.registry_values.specs.Common.{why_uncounted, slot_of, bias, less_bias, local_of, tally_shown, slot_at};

use crate::machine::Core;
use protocol::{Event, RecordOf, Reply};
use registry_values::{
    BIAS, Balance, Record, Refusal, Slot, less_bias, local_of, record_from, sum, why_uncounted,
};
use std::alloc::AllocError;

impl Core {
    /// Acquires a local reference to the CPU's last found entry (localcount(9)), and returns its id: the lowest, from 0, that no live
    /// reference and no hand has. The reference outlives the section and may be released on any CPU.
    ///
    /// CPUs count from 0.
    /// Refused, in this order, and nothing has changed: `NothingFound` if the CPU has no last found entry; `LocalFull` if the CPU's own net
    /// count for it is `count_limit`; `NoMemory`.
    pub fn acquire_local(&mut self, c: u8) -> Result<u64, Refusal>
        requires known { c < self.old.settings.cpus }
        requires rest { at_rest self.old.due ≡ true }
        requires ready { may_act self.old c ≡ true }
        ensures answer { IsCounted self.old (count_refusal self.old c (found_at self.old c)) result }
        ensures after { self.new ≡ after_acquire_local self.old c result }
        ensures made { IfOk result (λ _. Makes self.old (seats_and self.old (CountAdd c ∷ SplitRef c ∷ [])) self.new) }
        ensures settings { self.new.settings ≡ self.old.settings }
        ensures rest { at_rest self.new.due ≡ true }
        ensures ready { (d : ℕ) → may_act self.old d ≡ true → may_act self.new d ≡ true }
    {
        let _ = &self.settings;
        let Some(found) = self.found_at(c) else {
            return Err(Refusal::NothingFound);
        };
        if let Some(refusal) = self.why_uncounted(c, found.number) {
            return Err(refusal);
        }
        let Ok(()) = self.make_place() else {
            return Err(Refusal::NoMemory);
        };
        self.begin();
        self.make(Event::CountAdd(c));
        Ok(self.split_in_place(c, found.number))
    }

    /// Whether a live local reference has this id; one in a hand isn't live.
    pub fn live(&self, id: u64) -> bool
        ensures { result ≡ is_live_local self.now id }
    {
        self.standing_at(id).is_some()
    }

    /// The number, from 1, of the entry that the live local reference is to.
    pub fn number(&self, id: u64) -> u64
        requires { is_live_local self.now id ≡ true }
        ensures { number_standing (local_at self.now.locals id) ≡ Some result }
    {
        match self.standing_at(id) {
            Some(number) => number,
            None => unreachable!(),
        }
    }

    /// The record of the entry that the live local reference is to, which stays while the reference is held (localcount(9)).
    #[tactic(auto, using(crate::proofs::Making::seated_and))]
    pub fn record(&mut self, id: u64) -> Record
        requires rest { at_rest self.old.due ≡ true }
        requires live { is_live_local self.old id ≡ true }
        ensures answer { (n : ℕ) → number_standing (local_at self.old.locals id) ≡ Some n → IsRecordOf self.old.history n result }
        ensures after { self.new ≡ all_seated self.old }
        ensures made { Makes self.old (seats_and self.old (record_loads (λ k. OfLocal id k))) self.new }
        ensures ready { (d : ℕ) → may_act self.old d ≡ true → may_act self.new d ≡ true }
    {
        self.begin();
        self.record_by_local(id)
    }

    /// Releases the live local reference on this CPU, whichever acquired it (localcount(9)): by this CPU's own count, or under
    /// the interlock, by the slot's total, where that count was collected. It always succeeds.
    pub fn release_local(&mut self, c: u8, id: u64)
        requires known { c < self.old.settings.cpus }
        requires rest { at_rest self.old.due ≡ true }
        requires ready { may_act self.old c ≡ true }
        requires live { is_live_local self.old id ≡ true }
        ensures after { self.new ≡ after_release_local self.old c id }
        ensures made { Makes self.old (seats_and self.old (release_events self.old c id)) self.new }
        ensures settings { self.new.settings ≡ self.old.settings }
        ensures rest { at_rest self.new.due ≡ true }
        ensures ready { (d : ℕ) → may_act self.old d ≡ true → may_act self.new d ≡ true }
    {
        self.begin();
        if !self.count_down(c, id) {
            self.release_under(c, id);
        }
    }

    /// Why the CPU may not have one local reference more to that number by its own net count.
    fn why_uncounted(&self, c: u8, number: u64) -> Option<Refusal>
        requires { c < self.now.settings.cpus }
        ensures value { result ≡ why_uncounted (count_in self.now.nets c (slot_of self.now.slots number)) (bias + self.now.settings.count_limit) }
        ensures room { result ≡ None → nat_lt (count_in self.now.nets c (slot_of self.now.slots number)) (bias + self.now.settings.count_limit) ≡ true }
    {
        let most = BIAS + self.settings.count_limit;
        why_uncounted(self.net_of(c, number), most)
    }

    /// The CPU's own net count word for that number.
    fn net_of(&self, c: u8, number: u64) -> u64
        requires { c < self.now.settings.cpus }
        ensures { result ≡ count_in self.now.nets c (slot_of self.now.slots number) }
    {
        match self.slot_of(number) {
            Some(t) => self.net_at(c, t),
            None => 0,
        }
    }

    /// Gives the reference up by the CPU's own count. If that was collected it returns false, and the reference is live as before.
    fn count_down(&mut self, c: u8, id: u64) -> bool
        requires idle { is_idle self.old c ≡ true }
        requires live { is_live_local self.old id ≡ true }
        ensures value { result ≡ is_counting self.old c (local_slot self.old id) }
        ensures counted { IsTrue result → self.new ≡ with_count_less self.old c id (local_slot self.old id) }
        ensures kept { result ≡ false → self.new ≡ self.old }
        ensures made { Makes self.old (JoinRef c id ∷ CountDown c ∷ (if result then [] else SplitBack c ∷ [])) self.new }
    {
        let _ = &self.settings;
        // For the proof alone: `number` says in its contract which entry the live reference is to.
        let _number = self.number(id);
        self.make(Event::JoinRef(c, id));
        match self.make(Event::CountDown(c)) {
            Reply::Collected => {
                self.make(Event::SplitBack(c));
                false
            }
            _ => true,
        }
    }

    /// Gives the reference up by the slot's total, where the count of some CPU was collected.
    fn release_under(&mut self, c: u8, id: u64)
        requires known { c < self.old.settings.cpus }
        requires rest { at_rest self.old.due ≡ true }
        requires live { is_live_local self.old id ≡ true }
        requires collected { is_counting self.old c (local_slot self.old id) ≡ false }
        ensures after { self.new ≡ with_total_less self.old id (local_slot self.old id) }
        ensures made { Makes self.old (under_events id (local_slot self.old id)) self.new }
    {
        let _ = &self.settings;
        let number = self.number(id);
        let Some(t) = self.slot_of(number) else {
            unreachable!()
        };
        self.make(Event::JoinKeeper(id));
        self.make(Event::TotalSub(t));
    }

    /// Loads words 1 to 4 of the record that a local reference is to.
    fn record_by_local(&mut self, id: u64) -> Record
        requires { is_live_local self.old id ≡ true }
        ensures record { (n : ℕ) → number_standing (local_at self.old.locals id) ≡ Some n → IsRecordOf self.old.history n result }
        ensures same { self.new ≡ self.old }
        ensures made { Makes self.old (record_loads (λ k. OfLocal id k)) self.new }
    {
        let _ = &self.settings;
        // For the proof alone: `number` says in its contract which entry the live reference is to.
        let _number = self.number(id);
        let kind = self.load_word(RecordOf::Local(id, 1));
        let high = self.load_word(RecordOf::Local(id, 2));
        let low = self.load_word(RecordOf::Local(id, 3));
        let value = self.load_word(RecordOf::Local(id, 4));
        record_from(kind, high, low, value)
    }
}

impl Core {
    /// Audits the counts of each live or retired entry, lowest slot first (localcount(9)). It makes no event.
    /// Refused: `NoMemory`, and not where there is no such entry.
    pub fn audit(&self) -> Result<Vec<Balance>, Refusal>
        requires { at_rest self.now.due ≡ true }
        ensures answer { IfOk result (λ list. map tally_shown list.items ≡ audit_of self.now) }
        ensures tally { IfOk result (λ list. All (λ b. IsHeldRightly self.now (tally_shown b)) list.items) }
        ensures err { IfErr result (λ refusal. refusal ≡ Refusal.NoMemory) }
        ensures wanted { OnErr result (IsOccupied self.now) }
    {
        self.balances().map_err(|_| Refusal::NoMemory)
    }

    fn balances(&self) -> Result<Vec<Balance>, AllocError>
        requires { at_rest self.now.due ≡ true }
        ensures answer { IfOk result (λ list. map tally_shown list.items ≡ audit_of self.now) }
        ensures tally { IfOk result (λ list. All (λ b. IsHeldRightly self.now (tally_shown b)) list.items) }
        ensures wanted { OnErr result (IsOccupied self.now) }
    {
        let mut list = Vec::new(*self.history.allocator());
        let slots = self.settings.slots;
        for t in 0..slots {
            match self.slot_at(t) {
                Slot::Vacant => (),
                Slot::Live(entry) | Slot::Retired(entry) => {
                    list.push(self.balance(t, entry.number)?)?;
                }
            }
        }
        Ok(list)
    }

    fn balance(&self, t: u8, number: u64) -> Result<Balance, AllocError>
        requires rest { at_rest self.now.due ≡ true }
        requires occupied { (e : Entry) × IsIn e (slot_at self.now.slots t) }
        ensures { IfOk result (λ b. tally_shown b ≡ tally_of self.now number t) }
    {
        let _ = &self.settings;
        let locals = self.locals_at(t)?;
        let total = less_bias(self.total_at(t));
        let held = sum(&locals) + total;
        Ok(Balance {
            number,
            slot: t,
            held,
            locals,
            total,
        })
    }

    /// Of each CPU its net count, by its count word.
    fn locals_at(&self, t: u8) -> Result<Vec<i64>, AllocError>
        requires { (e : Entry) × IsIn e (slot_at self.now.slots t) }
        ensures value { IfOk result (λ list. list.items ≡ locals_at self.now t) }
    {
        let mut list = Vec::new(*self.history.allocator());
        let cpus = self.settings.cpus;
        for c in 0..cpus {
            list.push(local_of(self.count_at(c, t)))?;
        }
        Ok(list)
    }
}
