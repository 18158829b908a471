//! Seats, sections and notes: the steps of a CPU that touch its section word or its pass alone.

ghost use Rattle.std.specs.Prelude.{◌≡◌, ◌<◌, Some, IsTrue};
ghost use Rattle.passive_core.specs.Types.{Seat, Enter, Exit, Tell, Hear};
ghost use Rattle.protocol.specs.Common.{may_seat, may_enter, may_exit, Steps};

use crate::machine::Core;
use protocol::{Reply, StepFault};

impl Core {
    fn may_seat(&self, c: u8) -> bool
        ensures { result ≡ may_seat self.now c }
    {
        self.at_rest() && c == self.seated && c < self.settings.cpus
    }

    pub(crate) fn step_seat(&mut self, c: u8) -> Result<Reply, StepFault>
        ensures { Steps self.old self.new (Seat c) result }
    {
        if !self.may_seat(c) {
            return Err(StepFault::NotAllowed);
        }
        self.seated = c + 1;
        Ok(Reply::Done)
    }

    fn may_enter(&self, c: u8) -> bool
        ensures value { result ≡ may_enter self.now c }
        ensures cpu { IsTrue result → c < self.now.settings.cpus }
    {
        self.is_idle(c)
            && self.begins[c as usize].is_none()
            && self.section[c as usize] < 2 * self.settings.section_limit
    }

    pub(crate) fn step_enter(&mut self, c: u8) -> Result<Reply, StepFault>
        ensures { Steps self.old self.new (Enter c) result }
    {
        if !self.may_enter(c) {
            return Err(StepFault::NotAllowed);
        }
        let now = self.changes();
        let word = self.section_at(c);
        self.section[c as usize] = word + 1;
        self.begins[c as usize] = Some(now);
        self.depths[c as usize] = 1;
        self.seen[c as usize] = now;
        Ok(Reply::Done)
    }

    fn may_exit(&self, c: u8) -> bool
        ensures value { result ≡ may_exit self.now c }
        ensures cpu { IsTrue result → c < self.now.settings.cpus }
    {
        self.is_idle(c) && self.begins[c as usize].is_some() && self.depths[c as usize] == 1
    }

    pub(crate) fn step_exit(&mut self, c: u8) -> Result<Reply, StepFault>
        ensures { Steps self.old self.new (Exit c) result }
    {
        if !self.may_exit(c) {
            return Err(StepFault::NotAllowed);
        }
        let word = self.section_at(c);
        self.section[c as usize] = word + 1;
        self.begins[c as usize] = None;
        self.depths[c as usize] = 0;
        self.found[c as usize] = None;
        Ok(Reply::Done)
    }

    pub(crate) fn step_tell(&mut self, to: Option<u8>) -> Result<Reply, StepFault>
        ensures { Steps self.old self.new (Tell to) result }
    {
        let allowed = match to {
            Some(c) => self.is_idle(c),
            None => self.at_rest(),
        };
        if allowed {
            Ok(Reply::Done)
        } else {
            Err(StepFault::NotAllowed)
        }
    }

    fn see(&mut self, c: u8) -> Result<Reply, StepFault>
        ensures { Steps self.old self.new (Hear (Some c)) result }
    {
        if !self.is_idle(c) {
            return Err(StepFault::NotAllowed);
        }
        let now = self.changes();
        self.seen[c as usize] = now;
        Ok(Reply::Done)
    }

    pub(crate) fn step_hear(&mut self, to: Option<u8>) -> Result<Reply, StepFault>
        ensures { Steps self.old self.new (Hear to) result }
    {
        match to {
            Some(c) => self.see(c),
            None => self.step_tell(None),
        }
    }
}
