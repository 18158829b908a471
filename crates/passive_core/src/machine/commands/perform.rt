//! Waiting until each section that was open has ended.

ghost use Rattle.std.specs.Prelude.{◌≡◌, ◌<◌, ◌≤◌, ℕ, true, false, not, slice_index_or, Some, None};
ghost use Rattle.protocol.specs.Common.{AllPassed, is_inside, at_rest, section_at};
ghost use Rattle.registry_values.specs.Common.{least_below, retired_number, is_retired, slot_at};
ghost use Rattle.passive_core.specs.Commands.{may_act};
ghost use Rattle.passive_core.specs.Making.{IsWaiting, MakesOnly};
ghost use Rattle.passive_core.specs.Advancing.{perform_answer, PerformLeaves, OnlyPasses, AllOutside, AreSeen, AreWords};

use crate::machine::Core;
use protocol::{Event, Reply};
use registry_values::{
    MOST_CPUS, MOST_SLOTS, Refusal, first_unseen, is_out, retired_number, waiting_for,
};

impl Core {
    /// Waits on behalf of the CPU `c`, for at most `turns` turns, until each section that is open as the call begins has ended
    /// (pserialize_perform of pserialize(9)). Then every CPU has passed for each entry that was retired before.
    ///
    /// Refused, in this order: `Inside` if the CPU is inside a section; nothing has changed then. `Waiting` with the lowest-numbered CPU
    /// that wasn't seen out of its section; all CPUs have their seats then.
    pub fn perform(&mut self, c: u8, turns: u32) -> Result<(), Refusal>
        requires known { c < self.old.settings.cpus }
        requires rest { at_rest self.old.due ≡ true }
        requires ready { may_act self.old c ≡ true }
        requires some { 1 ≤ turns }
        ensures answer { result ≡ perform_answer self.old c }
        ensures after { PerformLeaves self.old self.new result }
        ensures made { MakesOnly IsWaiting self.old self.new }
        ensures settings { self.new.settings ≡ self.old.settings }
        ensures rest { at_rest self.new.due ≡ true }
        ensures ready { (d : ℕ) → may_act self.old d ≡ true → may_act self.new d ≡ true }
    {
        let _ = &self.settings;
        if self.inside(c) {
            return Err(Refusal::Inside);
        }
        let retired = self.retired_numbers();
        self.seat_all();
        waiting_for(self.wait_for_sections(turns))?;
        self.pass_all(&retired);
        Ok(())
    }

    /// The numbers of the retired entries, slot by slot.
    fn retired_numbers(&self) -> [Option<u64>; MOST_SLOTS]
        ensures { (t : ℕ) → t < self.now.settings.slots → slice_index_or result t None ≡ retired_number (slot_at self.now.slots t) }
    {
        let slots = self.settings.slots;
        let mut numbers = [None; MOST_SLOTS];
        for t in 0..slots {
            numbers[t as usize] = retired_number(self.slot_at(t));
        }
        numbers
    }

    /// Takes a snapshot of each CPU's section word, and looks at it again for so many turns. Returns the lowest-numbered CPU that wasn't
    /// seen out of the section of its snapshot.
    fn wait_for_sections(&mut self, turns: u32) -> Option<u8>
        requires { at_rest self.old.due ≡ true }
        ensures answer { result ≡ least_below (is_inside self.old) self.old.settings.cpus }
        ensures same { self.new ≡ self.old }
    {
        let snapshots = self.snapshot_all();
        let mut seen = [false; MOST_CPUS];
        self.glance_at_all(&snapshots, &mut seen);
        for _ in 1..turns {
            self.glance_at_all(&snapshots, &mut seen);
        }
        first_unseen(self.settings.cpus, &seen)
    }

    /// The section word of each CPU.
    fn snapshot_all(&mut self) -> [u64; MOST_CPUS]
        requires { at_rest self.old.due ≡ true }
        ensures words { AreWords self.old result }
        ensures same { self.new ≡ self.old }
    {
        let cpus = self.settings.cpus;
        let mut words = [0; MOST_CPUS];
        for c in 0..cpus {
            words[c as usize] = self.snapshot_of(c);
        }
        words
    }

    fn snapshot_of(&mut self, c: u8) -> u64
        requires rest { at_rest self.old.due ≡ true }
        requires cpu { c < self.old.settings.cpus }
        ensures word { result ≡ section_at self.old c }
        ensures same { self.new ≡ self.old }
    {
        match self.make(Event::Snapshot(None, c)) {
            Reply::Word(word) => word,
            _ => unreachable!(),
        }
    }

    /// Looks at the section word of each CPU that wasn't seen out of the section of its snapshot yet.
    fn glance_at_all(&mut self, snapshots: &[u64; MOST_CPUS], seen: &mut [bool; MOST_CPUS])
        requires rest { at_rest self.old.due ≡ true }
        requires words { AreWords self.old snapshots.now }
        requires sound { (c : ℕ) → slice_index_or seen.old c false ≡ true → is_inside self.old c ≡ false }
        ensures seen { AreSeen self.old seen.new }
        ensures sound { (c : ℕ) → slice_index_or seen.new c false ≡ true → is_inside self.old c ≡ false }
        ensures same { self.new ≡ self.old }
    {
        let cpus = self.settings.cpus;
        for c in 0..cpus {
            let before = seen[c as usize];
            seen[c as usize] = self.is_seen(c, snapshots[c as usize], before);
        }
    }

    /// Whether the CPU was seen out of the section of its snapshot, before or by this look at its section word.
    fn is_seen(&mut self, c: u8, snapshot: u64, before: bool) -> bool
        requires rest { at_rest self.old.due ≡ true }
        requires cpu { c < self.old.settings.cpus }
        requires word { snapshot ≡ section_at self.old c }
        requires sound { before ≡ true → is_inside self.old c ≡ false }
        ensures seen { result ≡ not (is_inside self.old c) }
        ensures same { self.new ≡ self.old }
    {
        let _ = &self.settings;
        if before {
            return true;
        }
        is_out(snapshot, self.look_at(c))
    }

    fn look_at(&mut self, c: u8) -> u64
        requires rest { at_rest self.old.due ≡ true }
        requires cpu { c < self.old.settings.cpus }
        ensures word { result ≡ section_at self.old c }
        ensures same { self.new ≡ self.old }
    {
        match self.make(Event::Look(None, c)) {
            Reply::Word(word) => word,
            _ => unreachable!(),
        }
    }

    /// Looks at each CPU that hasn't passed for the retired entries with these numbers, where no CPU is inside a section.
    fn pass_all(&mut self, numbers: &[Option<u64>; MOST_SLOTS])
        requires rest { at_rest self.old.due ≡ true }
        requires outside { AllOutside self.old }
        requires numbers { (t : ℕ) → t < self.old.settings.slots → slice_index_or numbers.now t None ≡ retired_number (slot_at self.old.slots t) }
        ensures only { OnlyPasses self.old self.new }
        ensures made { MakesOnly IsWaiting self.old self.new }
        ensures passed { (t : ℕ) → is_retired (slot_at self.old.slots t) ≡ true → AllPassed self.new t }
    {
        let slots = self.settings.slots;
        for t in 0..slots {
            self.pass_entry(numbers[t as usize]);
        }
    }

    /// Looks at each CPU that hasn't passed for the retired entry, where no CPU is inside a section.
    fn pass_entry(&mut self, number: Option<u64>)
        requires rest { at_rest self.old.due ≡ true }
        requires outside { AllOutside self.old }
        ensures only { OnlyPasses self.old self.new }
        ensures made { MakesOnly IsWaiting self.old self.new }
        ensures passed { (t : ℕ) → is_retired (slot_at self.old.slots t) ≡ true → number ≡ retired_number (slot_at self.old.slots t) → AllPassed self.new t }
    {
        let _ = &self.settings;
        let Some(number) = number else {
            return;
        };
        if let Some(t) = self.retired_slot(number) {
            self.look_at_all(t);
        }
    }
}
