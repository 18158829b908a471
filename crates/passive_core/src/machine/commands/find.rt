//! Lookups.

ghost use Rattle.std.specs.Prelude.{◌≡◌, ◌<◌, ℕ, IsSome, Some, length, true};
ghost use Rattle.passive_core.specs.Commands.{all_seated, may_act, after_find, next_load};
ghost use Rattle.passive_core.specs.Making.{FindMakes};
ghost use Rattle.protocol.specs.declared.event.Event.{Event as AnEvent};
ghost use Rattle.protocol.specs.Common.{is_inside, narrow_step, IsLoadOf, IsLookup, Holds, at_rest, search_at};

use crate::machine::Core;
use protocol::{Event, RecordOf, Reply, Search, SearchPlace};
use registry_values::{Entry, Kind, Name};

impl Core {
    /// Looks the kind and the name up, inside a section of CPU `c` (from 0): the live entry that has both, or `None`
    /// (pserialize(9), read sections). The answer becomes the CPU's last found entry; `None` clears it. No refusal.
    pub fn find(&mut self, c: u8, kind: Kind, name: &Name) -> Option<Entry>
        requires known { c < self.old.settings.cpus }
        requires rest { at_rest self.old.due ≡ true }
        requires ready { may_act self.old c ≡ true }
        requires inside { is_inside self.old c ≡ true }
        ensures answer { IsLookup self.old.history (length self.old.history) (record { kind = kind; name = name.now }) result }
        ensures after { self.new ≡ after_find (all_seated self.old) c result }
        ensures made { FindMakes self.old self.new c (record { kind = kind; name = name.now }) }
        ensures settings { self.new.settings ≡ self.old.settings }
        ensures rest { at_rest self.new.due ≡ true }
        ensures ready { (d : ℕ) → may_act self.old d ≡ true → may_act self.new d ≡ true }
    {
        let _ = &self.due;
        self.seat_all();
        self.make(Event::Seek(c, kind, *name));
        'walk: loop {
            match self.load_next(c) {
                Reply::Found(entry) => return Some(entry),
                Reply::Missed => return None,
                _ => {}
            }
        }
    }

    /// Makes the next load of the CPU's search.
    fn load_next(&mut self, c: u8) -> Reply
        requires { IsSome (search_at self.old c) }
        ensures made { next_load self.old c (search_at self.old c) ≡ Some (record { state = self.new; reply = result }) }
        ensures holds { Holds self.old }
        ensures event { (event : AnEvent) × IsLoadOf c event × (narrow_step self.old event ≡ Some (record { state = self.new; reply = result })) }
    {
        let _ = &self.due;
        match self.search_at(c) {
            Some(
                Search {
                    place: SearchPlace::AtHead | SearchPlace::AtNext(_),
                    ..
                },
            ) => self.make(Event::LoadLink(c)),
            _ => self.make(Event::LoadRecord(RecordOf::Search(c))),
        }
    }
}
