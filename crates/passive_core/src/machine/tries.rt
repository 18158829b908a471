//! Passive references without a section: a CPU counts its word up, and what it counted is a reference from the next step on, or is counted
//! down again.

ghost use Rattle.std.specs.Prelude.{◌≡◌, ◌<◌, IsTrue};
ghost use Rattle.passive_core.specs.Types.{Try, Confirm, TakeBack, Trying};
ghost use Rattle.protocol.specs.Common.{hand_at, may_confirm, may_try, Steps};
ghost use Rattle.registry_values.specs.Common.{slot_at};

use crate::machine::Core;
use crate::machine::recalls::has_live;
use protocol::{Hand, Reply, StepFault};

impl Core {
    /// Whether the CPU is idle and has seen the attach of that number, the slot is known, and the CPU's word for it is below the limit.
    fn may_try(&self, c: u8, t: u8, number: u64) -> bool
        ensures value { result ≡ may_try self.now c t number }
        ensures slot { IsTrue result → t < self.now.settings.slots }
        ensures cpu { IsTrue result → c < self.now.settings.cpus }
    {
        self.is_idle(c)
            && number <= self.seen_at(c)
            && t < self.settings.slots
            && self.passive_at(c, t) < self.settings.passive_limit
    }

    pub(crate) fn step_try(&mut self, c: u8, t: u8, number: u64) -> Result<Reply, StepFault>
        ensures { Steps self.old self.new (Try c t number) result }
    {
        if !self.may_try(c, t, number) {
            return Err(StepFault::NotAllowed);
        }
        let word = self.passive_at(c, t);
        self.passive[t as usize][c as usize] = word + 1;
        self.hands[c as usize] = Hand::Trying(t, number);
        Ok(Reply::Word(word))
    }

    /// Whether no search is under way, and the entry is live in the slot.
    fn may_confirm(&self, c: u8, t: u8, number: u64) -> bool
        requires { c < self.now.settings.cpus }
        ensures { result ≡ may_confirm self.now c number (slot_at self.now.slots t) }
    {
        self.searches[c as usize].is_none() && has_live(number, self.slot_at(t))
    }

    pub(crate) fn step_confirm(&mut self, c: u8) -> Result<Reply, StepFault>
        ensures { Steps self.old self.new (Confirm c) result }
    {
        match self.hand_at(c) {
            Hand::Trying(t, number) => self.confirm(c, t, number),
            _ => Err(StepFault::NotAllowed),
        }
    }

    fn confirm(&mut self, c: u8, t: u8, number: u64) -> Result<Reply, StepFault>
        requires { hand_at self.old c ≡ Trying t number }
        ensures { Steps self.old self.new (Confirm c) result }
    {
        if !self.may_confirm(c, t, number) {
            return Err(StepFault::NotAllowed);
        }
        let word = self.live_at(t);
        let now = self.changes();
        self.hands[c as usize] = Hand::Empty;
        self.seen[c as usize] = now;
        Ok(Reply::Word(word))
    }

    pub(crate) fn step_take_back(&mut self, c: u8) -> Result<Reply, StepFault>
        ensures { Steps self.old self.new (TakeBack c) result }
    {
        let _ = &self.settings;
        let Hand::Trying(t, _) = self.hand_at(c) else {
            return Err(StepFault::NotAllowed);
        };
        let word = self.passive_at(c, t);
        self.passive[t as usize][c as usize] = word - 1;
        self.hands[c as usize] = Hand::Empty;
        Ok(Reply::Word(word))
    }
}
