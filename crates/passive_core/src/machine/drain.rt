//! What the keeper does with a retired entry: snapshots of section words, looks at them and at passive words; count words are collected into
//! totals, drivers' references are kept, and slots are free again.

ghost use Rattle.std.specs.Prelude.{◌≡◌, ◌<◌, Some, None, IsTrue, Ok};
ghost use Rattle.passive_core.specs.Types.{Snapshot, Look, Collect, TotalAdd, TotalSub, JoinKeeper, Keep, KeptSub, Vacate, Adding, Subtracting};
ghost use Rattle.protocol.specs.Common.{may_examine, may_glance, is_snapshot_due, due_after, Steps, may_collect, may_join_keeper, may_keep, is_driver_slot, is_iface_slot, is_drainable, is_drained, may_vacate};

use crate::machine::Core;
use protocol::{Due, LocalPlace, Reply, StepFault};
use registry_values::{BIAS, Kind, Mark, Slot, collected, looked};

impl Core {
    /// Whether the keeper is at rest and the CPU is in range.
    pub(crate) fn may_glance(&self, c: u8) -> bool
        ensures value { result ≡ may_glance self.now c }
        ensures cpu { IsTrue result → c < self.now.settings.cpus }
    {
        self.at_rest() && c < self.settings.cpus
    }

    /// Whether, in addition, the slot has a retired entry.
    pub(crate) fn may_examine(&self, t: u8, c: u8) -> bool
        ensures value { result ≡ may_examine self.now t c }
        ensures slot { IsTrue result → t < self.now.settings.slots }
        ensures cpu { IsTrue result → c < self.now.settings.cpus }
    {
        self.at_rest() && c < self.settings.cpus && self.is_retired(t)
    }

    fn is_snapshot_due(&self, t: u8, c: u8) -> bool
        ensures value { result ≡ is_snapshot_due self.now.due t c }
        ensures slot { IsTrue result → t < self.now.settings.slots }
        ensures cpu { IsTrue result → c < self.now.settings.cpus }
    {
        match self.due {
            Due::Snapshots(slot, cpu) => slot == t && cpu == c,
            _ => false,
        }
    }

    fn due_after(&self, t: u8, c: u8) -> Due
        requires { c < self.now.settings.cpus }
        ensures { result ≡ due_after self.now t c }
    {
        let cpus = self.settings.cpus;
        if c + 1 < cpus {
            Due::Snapshots(t, c + 1)
        } else {
            Due::Rest
        }
    }

    pub(crate) fn step_snapshot(&mut self, to: Option<u8>, c: u8) -> Result<Reply, StepFault>
        ensures { Steps self.old self.new (Snapshot to c) result }
    {
        match to {
            Some(t) => self.take_snapshot(t, c),
            None => self.glance(c),
        }
    }

    fn take_snapshot(&mut self, t: u8, c: u8) -> Result<Reply, StepFault>
        ensures { Steps self.old self.new (Snapshot (Some t) c) result }
    {
        if !self.is_snapshot_due(t, c) {
            return Err(StepFault::NotAllowed);
        }
        let due = self.due_after(t, c);
        let word = self.section_at(c);
        self.marks[t as usize][c as usize] = Mark {
            snapshot: Some(word),
            passed: false,
            clear: false,
            collected: false,
        };
        self.due = due;
        Ok(Reply::Word(word))
    }

    /// The CPU's section word, where nothing is due.
    fn glance(&self, c: u8) -> Result<Reply, StepFault>
        ensures { Steps self.now self.now (Snapshot None c) result }
    {
        if !self.may_glance(c) {
            return Err(StepFault::NotAllowed);
        }
        Ok(Reply::Word(self.section_at(c)))
    }

    pub(crate) fn step_look(&mut self, to: Option<u8>, c: u8) -> Result<Reply, StepFault>
        ensures { Steps self.old self.new (Look to c) result }
    {
        match to {
            Some(t) => self.look_for(t, c),
            None => self.glance(c),
        }
    }

    fn look_for(&mut self, t: u8, c: u8) -> Result<Reply, StepFault>
        ensures { Steps self.old self.new (Look (Some t) c) result }
    {
        if !self.may_examine(t, c) {
            return Err(StepFault::NotAllowed);
        }
        let word = self.section_at(c);
        let mark = self.mark_at(t, c);
        self.marks[t as usize][c as usize] = looked(mark, word);
        Ok(Reply::Word(word))
    }
}

impl Core {
    /// Whether every CPU has passed for the slot and has no passive reference to its entry.
    pub(crate) fn is_drainable(&self, t: u8) -> bool
        requires { t < self.now.settings.slots }
        ensures { result ≡ is_drainable self.now t }
    {
        self.have_passed(t) && self.are_clear(t)
    }

    fn may_collect(&self, t: u8, c: u8) -> bool
        ensures value { result ≡ may_collect self.now t c }
        ensures slot { IsTrue result → t < self.now.settings.slots }
        ensures cpu { IsTrue result → c < self.now.settings.cpus }
    {
        self.may_examine(t, c) && self.is_drainable(t) && !self.mark_at(t, c).collected
    }

    pub(crate) fn step_collect(&mut self, t: u8, c: u8) -> Result<Reply, StepFault>
        ensures { Steps self.old self.new (Collect t c) result }
    {
        if !self.may_collect(t, c) {
            return Err(StepFault::NotAllowed);
        }
        let word = self.count_at(c, t);
        let mark = self.mark_at(t, c);
        self.counts[t as usize][c as usize] = 0;
        self.marks[t as usize][c as usize] = collected(mark);
        self.due = Due::Adding(t, word);
        Ok(Reply::Word(word))
    }

    pub(crate) fn step_total_add(&mut self, t: u8) -> Result<Reply, StepFault>
        ensures { Steps self.old self.new (TotalAdd t) result }
    {
        match self.due {
            Due::Adding(slot, word) if slot == t => Ok(self.add_to_total(t, word)),
            _ => Err(StepFault::NotAllowed),
        }
    }

    fn add_to_total(&mut self, t: u8, word: u64) -> Reply
        requires { self.old.due ≡ Adding t word }
        ensures { Steps self.old self.new (TotalAdd t) (Ok result) }
    {
        let total = self.total_at(t);
        self.totals[t as usize] = total + word - BIAS;
        self.due = Due::Rest;
        Reply::Done
    }

    pub(crate) fn step_total_sub(&mut self, t: u8) -> Result<Reply, StepFault>
        ensures { Steps self.old self.new (TotalSub t) result }
    {
        match self.due {
            Due::Subtracting(slot) if slot == t => Ok(self.subtract_from_total(t)),
            _ => Err(StepFault::NotAllowed),
        }
    }

    fn subtract_from_total(&mut self, t: u8) -> Reply
        requires { self.old.due ≡ Subtracting t }
        ensures { Steps self.old self.new (TotalSub t) (Ok result) }
    {
        let total = self.total_at(t);
        self.totals[t as usize] = total - 1;
        self.due = Due::Rest;
        Reply::Done
    }

    fn may_join_keeper(&self, t: u8) -> bool
        requires { t < self.now.settings.slots }
        ensures { result ≡ may_join_keeper self.now t }
    {
        self.is_retired(t) && self.at_rest() && self.is_some_collected(t)
    }

    pub(crate) fn step_join_keeper(&mut self, id: u64) -> Result<Reply, StepFault>
        ensures { Steps self.old self.new (JoinKeeper id) result }
    {
        let Some(number) = self.standing_at(id) else {
            return Err(StepFault::NotAllowed);
        };
        let Some(t) = self.slot_of(number) else {
            return Err(StepFault::NotAllowed);
        };
        if !self.may_join_keeper(t) {
            return Err(StepFault::NotAllowed);
        }
        self.locals[id as usize] = LocalPlace::Free;
        self.due = Due::Subtracting(t);
        Ok(Reply::Done)
    }

    fn may_keep(&self, t: u8, driver: u8) -> bool
        ensures value { result ≡ may_keep self.now t driver }
        ensures slot { IsTrue result → t < self.now.settings.slots }
    {
        self.may_write(t) && self.kept_at(t).is_none() && is_driver_slot(&self.slot_at(driver))
    }

    pub(crate) fn step_keep(&mut self, t: u8, id: u64) -> Result<Reply, StepFault>
        ensures { Steps self.old self.new (Keep t id) result }
    {
        let Some(number) = self.standing_at(id) else {
            return Err(StepFault::NotAllowed);
        };
        let Some(driver) = self.slot_of(number) else {
            return Err(StepFault::NotAllowed);
        };
        if !self.may_keep(t, driver) {
            return Err(StepFault::NotAllowed);
        }
        self.locals[id as usize] = LocalPlace::Free;
        self.keeps[t as usize] = Some(number);
        Ok(Reply::Done)
    }

    /// Whether the slot's entry is retired, with all marks, and nothing is held or half done.
    pub(crate) fn is_drained(&self, t: u8) -> bool
        ensures value { result ≡ is_drained self.now t }
        ensures slot { IsTrue result → t < self.now.settings.slots }
    {
        self.at_rest()
            && self.is_retired(t)
            && self.is_drainable(t)
            && self.are_collected(t)
            && self.total_at(t) == BIAS
    }

    pub(crate) fn step_kept_sub(&mut self, t: u8) -> Result<Reply, StepFault>
        ensures { Steps self.old self.new (KeptSub t) result }
    {
        let Some(number) = self.kept_at(t) else {
            return Err(StepFault::NotAllowed);
        };
        let Some(driver) = self.slot_of(number) else {
            return Err(StepFault::NotAllowed);
        };
        if !is_iface_slot(&self.slot_at(t)) || !self.is_drained(t) {
            return Err(StepFault::NotAllowed);
        }
        let total = self.total_at(driver);
        self.totals[driver as usize] = total - 1;
        self.slots[t as usize] = Slot::Vacant;
        self.keeps[t as usize] = None;
        Ok(Reply::Done)
    }

    fn may_vacate(&self, t: u8) -> bool
        ensures value { result ≡ may_vacate self.now t }
        ensures slot { IsTrue result → t < self.now.settings.slots }
    {
        self.kept_at(t).is_none() && self.is_drained(t)
    }

    pub(crate) fn step_vacate(&mut self, t: u8) -> Result<Reply, StepFault>
        ensures { Steps self.old self.new (Vacate t) result }
    {
        if !self.may_vacate(t) {
            return Err(StepFault::NotAllowed);
        }
        self.slots[t as usize] = Slot::Vacant;
        Ok(Reply::Done)
    }
}

/// Whether the slot's entry, live or retired, is a driver.
pub(crate) fn is_driver_slot(slot: &Slot) -> bool
    ensures { result ≡ is_driver_slot slot.now }
{
    match slot {
        Slot::Vacant => false,
        Slot::Live(entry) | Slot::Retired(entry) => entry.rec.kind == Kind::Driver,
    }
}

fn is_iface_slot(slot: &Slot) -> bool
    ensures { result ≡ is_iface_slot slot.now }
{
    match slot {
        Slot::Vacant => false,
        Slot::Live(entry) | Slot::Retired(entry) => entry.rec.kind == Kind::Iface,
    }
}
