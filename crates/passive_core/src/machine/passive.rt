//! Passive references: each CPU counts its own, slot by slot.

ghost use Rattle.std.specs.Prelude.{◌≡◌, ◌<◌, IsTrue};
ghost use Rattle.passive_core.specs.Types.{PassiveAdd, PassiveSub, PassiveLook, LoadRecord};
ghost use Rattle.protocol.specs.declared.event.RecordOf.TheVariants.{Passive as OfPassive};
ghost use Rattle.protocol.specs.Common.{may_add, may_sub, may_look_passive, is_number, Steps};

use crate::machine::Core;
use crate::machine::reading::word;
use protocol::{Reply, StepFault};
use registry_values::{Entry, cleared};

impl Core {
    fn may_add(&self, c: u8, number: u64, t: u8) -> bool
        requires { t < self.now.settings.slots }
        ensures { result ≡ may_add self.now c number t }
    {
        self.is_idle(c)
            && (is_number(number, &self.found[c as usize]) || 0 < self.passive_at(c, t))
            && self.passive_at(c, t) < self.settings.passive_limit
    }

    pub(crate) fn step_passive_add(&mut self, c: u8, number: u64) -> Result<Reply, StepFault>
        ensures { Steps self.old self.new (PassiveAdd c number) result }
    {
        let Some(t) = self.slot_of(number) else {
            return Err(StepFault::NotAllowed);
        };
        if !self.may_add(c, number, t) {
            return Err(StepFault::NotAllowed);
        }
        let word = self.passive_at(c, t);
        self.passive[t as usize][c as usize] = word + 1;
        Ok(Reply::Word(word))
    }

    fn may_sub(&self, c: u8, t: u8) -> bool
        requires { t < self.now.settings.slots }
        ensures { result ≡ may_sub self.now c t }
    {
        self.is_idle(c) && 0 < self.passive_at(c, t)
    }

    pub(crate) fn step_passive_sub(&mut self, c: u8, number: u64) -> Result<Reply, StepFault>
        ensures { Steps self.old self.new (PassiveSub c number) result }
    {
        let Some(t) = self.slot_of(number) else {
            return Err(StepFault::NotAllowed);
        };
        if !self.may_sub(c, t) {
            return Err(StepFault::NotAllowed);
        }
        let word = self.passive_at(c, t);
        self.passive[t as usize][c as usize] = word - 1;
        Ok(Reply::Word(word))
    }

    /// A word of the record that a passive reference is to.
    pub(crate) fn load_by_passive(&self, c: u8, number: u64, k: u8) -> Result<Reply, StepFault>
        ensures { Steps self.now self.now (LoadRecord (OfPassive c number k)) result }
    {
        let Some(t) = self.slot_of(number) else {
            return Err(StepFault::NotAllowed);
        };
        if !self.may_sub(c, t) || k >= 5 {
            return Err(StepFault::NotAllowed);
        }
        Ok(Reply::Word(word(&self.rows[t as usize], k)))
    }

    fn may_look_passive(&self, t: u8, c: u8) -> bool
        ensures value { result ≡ may_look_passive self.now t c }
        ensures slot { IsTrue result → t < self.now.settings.slots }
        ensures cpu { IsTrue result → c < self.now.settings.cpus }
    {
        self.may_examine(t, c) && self.have_passed(t)
    }

    pub(crate) fn step_passive_look(&mut self, t: u8, c: u8) -> Result<Reply, StepFault>
        ensures { Steps self.old self.new (PassiveLook t c) result }
    {
        if !self.may_look_passive(t, c) {
            return Err(StepFault::NotAllowed);
        }
        let word = self.passive_at(c, t);
        let mark = self.mark_at(t, c);
        self.marks[t as usize][c as usize] = cleared(mark, word);
        Ok(Reply::Word(word))
    }
}

fn is_number(number: u64, found: &Option<Entry>) -> bool
    ensures { result ≡ is_number number found.now }
{
    match found {
        Some(entry) => entry.number == number,
        None => false,
    }
}
