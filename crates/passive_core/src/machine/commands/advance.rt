//! How far the destruction of a retired entry comes: one turn of the keeper's work on it, and at most so many turns.

ghost use Rattle.std.specs.Prelude.{◌≡◌, ◌<◌, IfSome, ℕ, Some, None, true, not, length, ◌≤◌};
ghost use Rattle.registry_values.specs.declared.entry.Entry.{Entry as AnEntry};
ghost use Rattle.passive_core.specs.Types.{Retired};
ghost use Rattle.registry_values.specs.Common.{is_retired_as, retired_slot, is_retired, slot_at, least_below, stage_of};
ghost use Rattle.passive_core.specs.Advancing.{is_open_since, has_passive, advance_answer, plain_stage, first_obstacle, AdvanceLeaves, StageLeaves, Settles, Empties, Gathers, HoldersAreOpen, MarksPass, MarksClear, SameBut, PassedBelow, ClearBelow, StageMarks, AdvanceMarks, destroy_answer, DestroyLeaves, DestroyMarks};
ghost use Rattle.protocol.specs.Common.{AllPassed, AllClear, AllCollected, is_drained, held_at, at_rest, count_at, mark_at, trying_at};
ghost use Rattle.passive_core.specs.Commands.{may_act};
ghost use Rattle.passive_core.specs.Making.{AdvanceMakes, MakesOnly, IsWork, IsLookFor, IsPassiveLookFor, IsCollectionFor, IsFreeingOf, DestroyMakes};

use crate::machine::Core;
use protocol::Event;
use registry_values::{BIAS, Refusal, Slot, Stage, destroyed, is_retired_as, settled};

impl Core {
    /// Makes one turn of the work on the retired entry `number`, up to its first obstacle. Returns, with the lowest-numbered CPU first:
    ///
    /// - `Grace`: a CPU with an open section that may hold the entry (pserialize(9));
    /// - `Passive`: a CPU with a passive reference to it (psref(9)), or one that isn't clear and is trying to get a reference in its slot;
    /// - `Local`: the local references to it (localcount(9)); its count words are collected then;
    /// - `Freed`: nothing holds it, and its slot, from 0, is vacant now.
    ///
    /// Where no CPU is trying for a reference, the result is by who holds the entry, and by the sections that are open since the snapshot (`plain`).
    ///
    /// Refused: `NotRetired` if no slot has the retired entry `number`; nothing has changed then.
    pub fn advance(&mut self, number: u64) -> Result<Stage, Refusal>
        requires { at_rest self.old.due ≡ true }
        ensures answer { result ≡ advance_answer self.old number }
        ensures plain { ((c t : ℕ) → trying_at self.old.hands c t ≡ 0) → result ≡ plain_stage self.old number }
        ensures after { AdvanceLeaves self.old self.new number result }
        ensures marks { AdvanceMarks self.old self.new number result }
        ensures made { AdvanceMakes self.old self.new number result }
        ensures holders { HoldersAreOpen self.old }
        ensures settings { self.new.settings ≡ self.old.settings }
        ensures rest { at_rest self.new.due ≡ true }
        ensures ready { (d : ℕ) → may_act self.old d ≡ true → may_act self.new d ≡ true }
    {
        let _ = &self.settings;
        let Some(t) = self.retired_slot(number) else {
            return Err(Refusal::NotRetired);
        };
        self.seat_all();
        Ok(self.advance_slot(t))
    }

    /// The work on the slot's retired entry, up to the first obstacle.
    fn advance_slot(&mut self, t: u8) -> Stage
        requires rest { at_rest self.old.due ≡ true }
        requires seated { self.old.seated ≡ self.old.settings.cpus }
        requires slot { t < self.old.settings.slots }
        requires retired { is_retired (slot_at self.old.slots t) ≡ true }
        ensures stage { (e : AnEntry) → slot_at self.old.slots t ≡ Retired e → result ≡ first_obstacle self.old t e.number }
        ensures after { StageLeaves self.old self.new t result }
        ensures marks { StageMarks self.old self.new t result }
        ensures made { MakesOnly (IsWork result t) self.old self.new }
    {
        if let Some(c) = self.look_at_all(t) {
            return Stage::Grace(c);
        }
        if let Some(c) = self.look_at_passive(t) {
            return Stage::Passive(c);
        }
        self.collect_all(t);
        self.settle(t)
    }

    /// The slot whose retired entry has this number.
    pub(crate) fn retired_slot(&self, number: u64) -> Option<u8>
        ensures value { result ≡ retired_slot self.now.slots number }
        ensures within { IfSome result (λ t. t < self.now.settings.slots) }
    {
        match retired_place(number, &self.slots) {
            Some(t) => Some(t as u8),
            None => None,
        }
    }

    /// Looks at the section word of each CPU that hasn't passed for the slot, up to the first that doesn't pass: it is
    /// the answer.
    pub(crate) fn look_at_all(&mut self, t: u8) -> Option<u8>
        requires rest { at_rest self.old.due ≡ true }
        requires slot { t < self.old.settings.slots }
        requires retired { is_retired (slot_at self.old.slots t) ≡ true }
        ensures answer { result ≡ least_below (is_open_since self.old t) self.old.settings.cpus }
        ensures only { self.new ≡ record self.old { marks = self.new.marks } }
        ensures marks { MarksPass self.old.marks self.new.marks t }
        ensures made { MakesOnly (IsLookFor t) self.old self.new }
        ensures passed { result ≡ None → AllPassed self.new t }
        ensures stopped { IfSome result (λ c. PassedBelow self.old self.new t c) }
    {
        let cpus = self.settings.cpus;
        for c in 0..cpus {
            if !self.passes(t, c) {
                return Some(c);
            }
        }
        None
    }

    /// Whether the CPU has passed for the slot, by an earlier look or by this one.
    fn passes(&mut self, t: u8, c: u8) -> bool
        requires rest { at_rest self.old.due ≡ true }
        requires slot { t < self.old.settings.slots }
        requires retired { is_retired (slot_at self.old.slots t) ≡ true }
        requires cpu { c < self.old.settings.cpus }
        ensures answer { result ≡ not (is_open_since self.old t c) }
        ensures only { self.new ≡ record self.old { marks = self.new.marks } }
        ensures marks { MarksPass self.old.marks self.new.marks t }
        ensures made { MakesOnly (IsLookFor t) self.old self.new }
        ensures others { SameBut self.old.marks self.new.marks t c }
        ensures passed { result ≡ (mark_at self.new.marks t c).passed }
    {
        let _ = &self.settings;
        if self.mark_at(t, c).passed {
            return true;
        }
        self.make(Event::Look(Some(t), c));
        self.mark_at(t, c).passed
    }

    /// Looks at the passive word of each CPU that isn't clear for the slot, up to the first that doesn't become clear:
    /// it is the answer.
    fn look_at_passive(&mut self, t: u8) -> Option<u8>
        requires rest { at_rest self.old.due ≡ true }
        requires slot { t < self.old.settings.slots }
        requires retired { is_retired (slot_at self.old.slots t) ≡ true }
        requires passed { AllPassed self.old t }
        ensures answer { result ≡ least_below (has_passive self.old t) self.old.settings.cpus }
        ensures only { self.new ≡ record self.old { marks = self.new.marks } }
        ensures marks { MarksClear self.old.marks self.new.marks t }
        ensures made { MakesOnly (IsPassiveLookFor t) self.old self.new }
        ensures clear { result ≡ None → AllClear self.new t }
        ensures stopped { IfSome result (λ c. ClearBelow self.old self.new t c) }
    {
        let cpus = self.settings.cpus;
        for c in 0..cpus {
            if !self.clears(t, c) {
                return Some(c);
            }
        }
        None
    }

    /// Whether the CPU is clear for the slot, by an earlier look at its passive word or by this one.
    fn clears(&mut self, t: u8, c: u8) -> bool
        requires rest { at_rest self.old.due ≡ true }
        requires slot { t < self.old.settings.slots }
        requires retired { is_retired (slot_at self.old.slots t) ≡ true }
        requires passed { AllPassed self.old t }
        requires cpu { c < self.old.settings.cpus }
        ensures answer { result ≡ not (has_passive self.old t c) }
        ensures only { self.new ≡ record self.old { marks = self.new.marks } }
        ensures marks { MarksClear self.old.marks self.new.marks t }
        ensures made { MakesOnly (IsPassiveLookFor t) self.old self.new }
        ensures others { SameBut self.old.marks self.new.marks t c }
        ensures clear { result ≡ (mark_at self.new.marks t c).clear }
    {
        let _ = &self.settings;
        if self.mark_at(t, c).clear {
            return true;
        }
        self.make(Event::PassiveLook(t, c));
        self.mark_at(t, c).clear
    }

    /// Collects the count words of all CPUs for the slot in its total.
    fn collect_all(&mut self, t: u8)
        requires rest { at_rest self.old.due ≡ true }
        requires slot { t < self.old.settings.slots }
        requires retired { is_retired (slot_at self.old.slots t) ≡ true }
        requires passed { AllPassed self.old t }
        requires clear { AllClear self.old t }
        ensures gathered { Gathers self.old self.new t }
        ensures made { MakesOnly (IsCollectionFor t) self.old self.new }
        ensures collected { AllCollected self.new t }
    {
        let cpus = self.settings.cpus;
        for c in 0..cpus {
            self.collect(t, c);
        }
    }

    /// Collects the CPU's count word for the slot, unless that was done before.
    fn collect(&mut self, t: u8, c: u8)
        requires rest { at_rest self.old.due ≡ true }
        requires slot { t < self.old.settings.slots }
        requires retired { is_retired (slot_at self.old.slots t) ≡ true }
        requires passed { AllPassed self.old t }
        requires clear { AllClear self.old t }
        requires cpu { c < self.old.settings.cpus }
        ensures gathered { Gathers self.old self.new t }
        ensures made { MakesOnly (IsCollectionFor t) self.old self.new }
        ensures collected { (mark_at self.new.marks t c).collected ≡ true }
    {
        let _ = &self.settings;
        if self.mark_at(t, c).collected {
            return;
        }
        self.make(Event::Collect(t, c));
        self.make(Event::TotalAdd(t));
    }

    /// Frees the slot, whose count words are all collected, where its total says that no local reference is held.
    fn settle(&mut self, t: u8) -> Stage
        requires rest { at_rest self.old.due ≡ true }
        requires slot { t < self.old.settings.slots }
        requires retired { is_retired (slot_at self.old.slots t) ≡ true }
        requires passed { AllPassed self.old t }
        requires clear { AllClear self.old t }
        requires collected { AllCollected self.old t }
        ensures stage { (e : AnEntry) → slot_at self.old.slots t ≡ Retired e → result ≡ stage_of t None None (held_at self.old.locals self.old.hands self.old.keeps self.old.due e.number t) }
        ensures after { Settles self.old self.new t result }
        ensures made { MakesOnly (IsWork result t) self.old self.new }
        ensures emptied { (c : ℕ) → count_at self.old.counts c t ≡ 0 }
    {
        let _ = &self.settings;
        let held = self.total_at(t) - BIAS;
        let stage = settled(held, t);
        if held != 0 {
            return stage;
        }
        self.free(t);
        stage
    }

    /// Makes the slot vacant; where it keeps a reference to a driver, the reference is given up.
    fn free(&mut self, t: u8)
        requires slot { t < self.old.settings.slots }
        requires drained { is_drained self.old t ≡ true }
        ensures after { Empties self.old self.new t }
        ensures made { MakesOnly (IsFreeingOf t) self.old self.new }
    {
        let _ = &self.settings;
        if self.kept_at(t).is_some() {
            self.make(Event::KeptSub(t));
            return;
        }
        self.make(Event::Vacate(t));
    }
}

fn retired_place(number: u64, slots: &[Slot]) -> Option<usize>
    ensures value { result ≡ retired_slot slots.now number }
    ensures within { IfSome result (λ t. t < length slots.now) }
{
    slots.iter().position(|slot| is_retired_as(number, slot))
}

impl Core {
    /// Advances the retired entry `number` on behalf of the CPU `c`, at most `turns` times (psref_target_destroy of psref(9),
    /// localcount_drain of localcount(9)). The answer is the slot, from 0, that is vacant again.
    ///
    /// Refused, in this order: `Inside` if the CPU is inside a section, and `NotRetired` if no slot has the retired entry `number`; nothing
    /// has changed then. `StillHeld` with the obstacle that the last turn met; what the turns noted and collected stays.
    pub fn destroy(&mut self, c: u8, number: u64, turns: u32) -> Result<u8, Refusal>
        requires known { c < self.old.settings.cpus }
        requires rest { at_rest self.old.due ≡ true }
        requires ready { may_act self.old c ≡ true }
        requires some { 1 ≤ turns }
        ensures answer { result ≡ destroy_answer self.old c number }
        ensures after { DestroyLeaves self.old self.new number result }
        ensures marks { DestroyMarks self.old self.new number result }
        ensures made { DestroyMakes self.old self.new number result }
        ensures settings { self.new.settings ≡ self.old.settings }
        ensures rest { at_rest self.new.due ≡ true }
        ensures ready { (d : ℕ) → may_act self.old d ≡ true → may_act self.new d ≡ true }
    {
        if self.inside(c) {
            return Err(Refusal::Inside);
        }
        let mut stage = self.advance(number)?;
        for _ in 1..turns {
            if let Stage::Freed(slot) = stage {
                return Ok(slot);
            }
            stage = self.advance(number)?;
        }
        destroyed(stage)
    }
}
