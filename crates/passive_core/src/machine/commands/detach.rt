//! Unlinking an entry.

ghost use Rattle.std.specs.Prelude.{◌≡◌, ◌<◌, ℕ, IfErr, IfOk, IfSome, OnErr, OnOk, replicate, slice_index_or, [], true};
ghost use Rattle.passive_core.specs.Commands.{all_seated, may_act};
ghost use Rattle.passive_core.specs.Attaching.{after_detach, with_all_snapshots, IsDetachAnswer, IsLookupNow};
ghost use Rattle.passive_core.specs.Making.{Makes, detach_events, seats_and, snapshots_from};
ghost use Rattle.protocol.specs.Common.{after_unpublish, is_idle, at_rest};
ghost use Rattle.registry_values.specs.Common.{no_mark, slot_at};
ghost use Rattle.passive_core.specs.Types.{Snapshots, Live};

use crate::machine::{Core, make_room};
use protocol::Event;
use registry_values::{Entry, Key, Kind, MOST_CPUS, Name, Refusal, Slot, detach_answer};

impl Core {
    /// Unlinks the live entry with the kind and the name, on CPU `c` (from 0), and returns it. It is retired then, with the snapshot of
    /// each CPU's section word, and waits for grace (pserialize(9)) and for its references (psref(9), localcount(9)). The CPU has seen the
    /// change.
    /// Refused, in this order: `Inside` if the CPU is inside a section, `NotFound` if no live entry has both, and `NoMemory` if the history
    /// can't grow. A refusal changes nothing.
    pub fn detach(&mut self, c: u8, kind: Kind, name: &Name) -> Result<Entry, Refusal>
        requires known { c < self.old.settings.cpus }
        requires rest { at_rest self.old.due ≡ true }
        requires ready { may_act self.old c ≡ true }
        ensures answer { IsDetachAnswer self.old c (record { kind = kind; name = name.now }) result }
        ensures live { IfOk result (λ e. slot_at self.old.slots e.slot ≡ Live e) }
        ensures after { self.new ≡ after_detach self.old c result }
        ensures made { IfOk result (λ e. Makes self.old (seats_and self.old (detach_events self.old.settings.cpus c e.slot)) self.new) }
        ensures settings { self.new.settings ≡ self.old.settings }
        ensures rest { at_rest self.new.due ≡ true }
        ensures ready { (d : ℕ) → may_act self.old d ≡ true → may_act self.new d ≡ true }
    {
        let _ = &self.due;
        let key = Key { kind, name: *name };
        let entry = detach_answer(self.inside(c), self.live_entry(key))?;
        self.retire(c, entry)?;
        self.take_snapshots(entry.slot);
        self.make(Event::Tell(None));
        self.make(Event::Hear(Some(c)));
        Ok(entry)
    }

    /// The live entry with this kind and name.
    fn live_entry(&self, key: Key) -> Option<Entry>
        ensures answer { IsLookupNow self.now key result }
        ensures live { IfSome result (λ e. slot_at self.now.slots e.slot ≡ Live e) }
    {
        let _ = &self.due;
        let t = self.live_place(key)?;
        match self.slot_at(t) {
            Slot::Live(entry) => Some(entry),
            _ => None,
        }
    }

    /// Hands the history to the CPU and unlinks the entry. Refused: `NoMemory`; nothing has changed then, since the
    /// history grows before the first event.
    fn retire(&mut self, c: u8, entry: Entry) -> Result<(), Refusal>
        requires rest { at_rest self.old.due ≡ true }
        requires idle { is_idle (all_seated self.old) c ≡ true }
        requires live { slot_at self.old.slots entry.slot ≡ Live entry }
        ensures ok { OnOk result (self.new ≡ after_unpublish (all_seated self.old) entry.slot entry) }
        ensures err { OnErr result (self.new ≡ self.old) }
        ensures fault { IfErr result (λ refusal. refusal ≡ Refusal.NoMemory) }
    {
        make_room(&mut self.history)?;
        let seated = self.seated;
        self.seat_all();
        self.make(Event::Tell(Some(c)));
        self.make(Event::Hear(None));
        match self.step(Event::Unpublish(entry.slot)) {
            Ok(_) => Ok(()),
            Err(_) => {
                self.seated = seated;
                Err(Refusal::NoMemory)
            }
        }
    }

    /// Takes the snapshot of each CPU for a slot that was just unlinked.
    fn take_snapshots(&mut self, t: u8)
        requires due { self.old.due ≡ Snapshots t 0 }
        requires blank { slice_index_or self.old.marks t [] ≡ replicate MOST_CPUS no_mark }
        ensures after { self.new ≡ with_all_snapshots self.old t }
        ensures made { Makes self.old (snapshots_from t 0 self.old.settings.cpus) self.new }
    {
        let cpus = self.settings.cpus;
        for d in 0..cpus {
            self.make(Event::Snapshot(Some(t), d));
        }
    }
}
