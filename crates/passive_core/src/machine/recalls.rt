//! The live words of the slots.

ghost use Rattle.std.specs.Prelude.{◌≡◌, ◌<◌, IsTrue};
ghost use Rattle.passive_core.specs.Types.{Hide, Recall, RecallHead, Refind, Show};
ghost use Rattle.protocol.specs.Common.{is_honest, has_live, live_at, may_hide, may_recall, may_recall_head, may_refind, Steps};
ghost use Rattle.registry_values.specs.Common.{slot_at};

use crate::machine::Core;
use protocol::{Reply, StepFault};
use registry_values::{Entry, Slot};

impl Core {
    pub(crate) fn live_at(&self, t: u8) -> u64
        requires { t < self.now.settings.slots }
        ensures { result ≡ live_at self.now.lives t }
    {
        self.lives[t as usize]
    }

    pub(crate) fn step_show(&mut self, t: u8) -> Result<Reply, StepFault>
        ensures { Steps self.old self.new (Show t) result }
    {
        let Slot::Live(entry) = self.slot_at(t) else {
            return Err(StepFault::NotAllowed);
        };
        if !self.at_rest() {
            return Err(StepFault::NotAllowed);
        }
        self.lives[t as usize] = entry.number;
        Ok(Reply::Done)
    }

    /// Whether the keeper is at rest and the slot is in range.
    fn may_hide(&self, t: u8) -> bool
        ensures value { result ≡ may_hide self.now t }
        ensures slot { IsTrue result → t < self.now.settings.slots }
    {
        self.at_rest() && t < self.settings.slots
    }

    pub(crate) fn step_hide(&mut self, t: u8) -> Result<Reply, StepFault>
        ensures { Steps self.old self.new (Hide t) result }
    {
        if !self.may_hide(t) {
            return Err(StepFault::NotAllowed);
        }
        self.lives[t as usize] = 0;
        Ok(Reply::Done)
    }

    /// Whether the CPU is seated and has no search under way, and the slot is in range, with a live word that is 0 or the number of its live
    /// entry.
    fn may_recall(&self, c: u8, t: u8) -> bool
        ensures value { result ≡ may_recall self.now c t }
        ensures cpu { IsTrue result → c < self.now.settings.cpus }
        ensures slot { IsTrue result → t < self.now.settings.slots }
    {
        c < self.seated
            && self.searches[c as usize].is_none()
            && t < self.settings.slots
            && is_honest(self.live_at(t), self.slot_at(t))
    }

    pub(crate) fn step_recall(&mut self, c: u8, t: u8) -> Result<Reply, StepFault>
        ensures { Steps self.old self.new (Recall c t) result }
    {
        if !self.may_recall(c, t) {
            return Err(StepFault::NotAllowed);
        }
        let word = self.live_at(t);
        let now = self.changes();
        self.seen[c as usize] = now;
        Ok(Reply::Word(word))
    }

    /// Whether the CPU is seated and has no search under way.
    fn may_recall_head(&self, c: u8) -> bool
        ensures value { result ≡ may_recall_head self.now c }
        ensures cpu { IsTrue result → c < self.now.settings.cpus }
    {
        c < self.seated && self.searches[c as usize].is_none()
    }

    pub(crate) fn step_recall_head(&mut self, c: u8) -> Result<Reply, StepFault>
        ensures { Steps self.old self.new (RecallHead c) result }
    {
        if !self.may_recall_head(c) {
            return Err(StepFault::NotAllowed);
        }
        let word = self.head;
        let changes = self.changes();
        self.seen[c as usize] = changes;
        Ok(Reply::Word(word))
    }

    /// Whether the CPU is seated and inside, and has no search under way, and the live entry of the slot has this number, as its live word.
    fn may_refind(&self, c: u8, t: u8, number: u64, entry: Entry) -> bool
        requires { t < self.now.settings.slots }
        ensures value { result ≡ may_refind self.now c t number entry }
        ensures cpu { IsTrue result → c < self.now.settings.cpus }
    {
        c < self.seated
            && self.searches[c as usize].is_none()
            && self.begins[c as usize].is_some()
            && entry.number == number
            && self.live_at(t) == number
    }

    pub(crate) fn step_refind(&mut self, c: u8, t: u8, number: u64) -> Result<Reply, StepFault>
        ensures { Steps self.old self.new (Refind c t number) result }
    {
        let Slot::Live(entry) = self.slot_at(t) else {
            return Err(StepFault::NotAllowed);
        };
        if !self.may_refind(c, t, number, entry) {
            return Err(StepFault::NotAllowed);
        }
        let word = self.live_at(t);
        let seen = self.changes();
        self.seen[c as usize] = seen;
        self.found[c as usize] = Some(entry);
        Ok(Reply::Word(word))
    }
}

/// Whether the live word of a slot is 0, or the number of its live entry.
fn is_honest(word: u64, slot: Slot) -> bool
    ensures { result ≡ is_honest word slot }
{
    if word == 0 {
        return true;
    }
    has_live(word, slot)
}

/// Whether this number is that of the slot's live entry.
pub(crate) fn has_live(number: u64, slot: Slot) -> bool
    ensures { result ≡ has_live number slot }
{
    match slot {
        Slot::Live(entry) => entry.number == number,
        _ => false,
    }
}
