//! Local references: counted by CPU, split off into seats of their own, and given back on any CPU.

ghost use Rattle.std.specs.Prelude.{◌≡◌, ◌<◌, ◌≤◌, IfErr, IfSome, OnErr, OnOk, Some, None, Ok, length, position};
ghost use Rattle.passive_core.specs.Types.{Ref, CountAdd, SplitRef, JoinRef, CountDown, SplitBack, LoadRecord, Taking, Giving, Back};
ghost use Rattle.passive_core.specs.References.{with_room};
ghost use Rattle.protocol.specs.declared.event.RecordOf.TheVariants.{Local as OfLocal};
ghost use Rattle.protocol.specs.Common.{may_count, is_free, least_id, exchange, narrow_step, with_local, hand_at, Steps};
ghost use Rattle.registry_values.specs.Common.{slot_of};

use crate::machine::reading::word;
use crate::machine::{Core, grow};
use protocol::{Hand, LocalPlace, Reply, StepFault};
use registry_values::BIAS;

impl Core {
    /// A word of the record that a live local reference is to.
    pub(crate) fn load_by_local(&self, id: u64, k: u8) -> Result<Reply, StepFault>
        ensures { Steps self.now self.now (LoadRecord (OfLocal id k)) result }
    {
        let Some(number) = self.standing_at(id) else {
            return Err(StepFault::NotAllowed);
        };
        let Some(t) = self.slot_of(number) else {
            return Err(StepFault::NotAllowed);
        };
        if k >= 5 {
            return Err(StepFault::NotAllowed);
        }
        Ok(Reply::Word(word(&self.rows[t as usize], k)))
    }

    fn may_count(&self, c: u8, t: u8) -> bool
        requires { t < self.now.settings.slots }
        ensures { result ≡ may_count self.now c t }
    {
        self.is_idle(c) && self.net_at(c, t) < BIAS + self.settings.count_limit
    }

    pub(crate) fn step_count_add(&mut self, c: u8) -> Result<Reply, StepFault>
        ensures { Steps self.old self.new (CountAdd c) result }
    {
        let Some(found) = self.found_at(c) else {
            return Err(StepFault::NotAllowed);
        };
        let Some(t) = self.slot_of(found.number) else {
            return Err(StepFault::NotAllowed);
        };
        if !self.may_count(c, t) {
            return Err(StepFault::NotAllowed);
        }
        let word = self.count_at(c, t);
        let net = self.net_at(c, t);
        self.counts[t as usize][c as usize] = word + 1;
        self.nets[t as usize][c as usize] = net + 1;
        self.hands[c as usize] = Hand::Taking(found.number);
        Ok(Reply::Word(word))
    }

    /// The lowest id that no live reference and no hand has.
    fn least_id(&self) -> u64
        ensures value { result ≡ least_id self.now.locals }
        ensures within { result ≤ length self.now.locals }
    {
        match free_place(&self.locals) {
            Some(id) => id as u64,
            None => self.locals.len() as u64,
        }
    }

    pub(crate) fn step_split_ref(&mut self, c: u8) -> Result<Reply, StepFault>
        ensures { Steps self.old self.new (SplitRef c) result }
    {
        match self.hand_at(c) {
            Hand::Taking(number) => self.split(c, number),
            _ => Err(StepFault::NotAllowed),
        }
    }

    /// Adds a free place where none is free, so that a reference can be split off without growth. Refused: `NoMemory`;
    /// nothing has changed.
    pub(crate) fn make_place(&mut self) -> Result<(), StepFault>
        ensures ok { OnOk result (self.new ≡ with_room self.old) }
        ensures room { OnOk result (least_id self.new.locals < length self.new.locals) }
        ensures err { OnErr result (self.new ≡ self.old) }
        ensures full { OnErr result (position is_free self.old.locals ≡ None) }
    {
        match free_place(&self.locals) {
            Some(_) => Ok(()),
            None => grow(&mut self.locals, LocalPlace::Free),
        }
    }

    /// `SplitRef` if a place is free already.
    pub(crate) fn split_in_place(&mut self, c: u8, number: u64) -> u64
        requires hand { hand_at self.old c ≡ Taking number }
        requires room { least_id self.old.locals < length self.old.locals }
        ensures { narrow_step self.old (SplitRef c) ≡ Some (record { state = self.new; reply = Ref result }) }
    {
        let id = self.least_id();
        self.locals[id as usize] = LocalPlace::Standing(number);
        self.hands[c as usize] = Hand::Empty;
        id
    }

    fn split(&mut self, c: u8, number: u64) -> Result<Reply, StepFault>
        requires { hand_at self.old c ≡ Taking number }
        ensures { Steps self.old self.new (SplitRef c) result }
    {
        let id = self.least_id();
        put_local(&mut self.locals, id, LocalPlace::Standing(number))?;
        self.hands[c as usize] = Hand::Empty;
        Ok(Reply::Ref(id))
    }

    pub(crate) fn step_join_ref(&mut self, c: u8, id: u64) -> Result<Reply, StepFault>
        ensures { Steps self.old self.new (JoinRef c id) result }
    {
        let Some(number) = self.standing_at(id) else {
            return Err(StepFault::NotAllowed);
        };
        if !self.is_idle(c) {
            return Err(StepFault::NotAllowed);
        }
        self.hands[c as usize] = Hand::Giving(number, id);
        self.locals[id as usize] = LocalPlace::Lifted(c);
        Ok(Reply::Done)
    }

    pub(crate) fn step_count_down(&mut self, c: u8) -> Result<Reply, StepFault>
        ensures { Steps self.old self.new (CountDown c) result }
    {
        if c >= self.settings.cpus {
            return Err(StepFault::NotAllowed);
        }
        let Hand::Giving(number, id) = self.hands[c as usize] else {
            return Err(StepFault::NotAllowed);
        };
        match self.slot_of(number) {
            Some(t) => Ok(self.exchange(c, number, id, t)),
            None => Err(StepFault::NotAllowed),
        }
    }

    /// One compare-exchange from the bias plus the CPU's net count, to one less.
    fn exchange(&mut self, c: u8, number: u64, id: u64, t: u8) -> Reply
        requires hand { hand_at self.old c ≡ Giving number id }
        requires slot { slot_of self.old.slots number ≡ Some t }
        requires within { t < self.old.settings.slots }
        requires cpu { c < self.old.settings.cpus }
        requires place { id < length self.old.locals }
        ensures { exchange self.old c number id t ≡ Some (record { state = self.new; reply = result }) }
    {
        let word = self.count_at(c, t);
        let net = self.net_at(c, t);
        if word == net {
            self.counts[t as usize][c as usize] = word - 1;
            self.nets[t as usize][c as usize] = net - 1;
            self.hands[c as usize] = Hand::Empty;
            self.locals[id as usize] = LocalPlace::Free;
            Reply::Word(word)
        } else {
            self.hands[c as usize] = Hand::Back(number, id);
            Reply::Collected
        }
    }

    pub(crate) fn step_split_back(&mut self, c: u8) -> Result<Reply, StepFault>
        ensures { Steps self.old self.new (SplitBack c) result }
    {
        match self.hand_at(c) {
            Hand::Back(number, id) => Ok(self.put_back(c, number, id)),
            _ => Err(StepFault::NotAllowed),
        }
    }

    fn put_back(&mut self, c: u8, number: u64, id: u64) -> Reply
        requires { hand_at self.old c ≡ Back number id }
        ensures { Steps self.old self.new (SplitBack c) (Ok result) }
    {
        self.hands[c as usize] = Hand::Empty;
        self.locals[id as usize] = LocalPlace::Standing(number);
        Reply::Ref(id)
    }
}

/// Puts a reference in its place, at the end of the list where the list is too short for it.
fn put_local(locals: &mut Vec<LocalPlace>, id: u64, place: LocalPlace) -> Result<(), StepFault>
    ensures ok { OnOk result (locals.new.items ≡ with_local locals.old.items id place) }
    ensures err { OnErr result (locals.new.items ≡ locals.old.items) }
    ensures fault { IfErr result (λ fault. fault ≡ StepFault.NoMemory) }
{
    if id < locals.len() as u64 {
        locals[id as usize] = place;
        Ok(())
    } else {
        grow(locals, place)
    }
}

fn free_place(locals: &[LocalPlace]) -> Option<usize>
    ensures value { result ≡ position is_free locals.now }
    ensures within { IfSome result (λ id. id < length locals.now) }
{
    locals.iter().position(is_free)
}

fn is_free(place: &LocalPlace) -> bool
    ensures { result ≡ is_free place.now }
{
    matches!(place, LocalPlace::Free)
}
