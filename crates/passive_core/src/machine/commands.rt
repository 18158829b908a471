//! The commands of the core: what a caller asks for, made of the events of the protocol.
//!
//! Before its first event a command seats all CPUs. A command that is refused has made no event, unless it says so.
//!
//! A line `let _ = &self.field;` is for the proof alone: reading a field opens what the type keeps.

mod advance;
mod attach;
mod detach;
mod find;
mod local;
mod passive;
mod perform;
mod sections;

ghost use Rattle.std.specs.Prelude.{◌≡◌, IsSome, Some, false, true};
ghost use Rattle.passive_core.specs.Commands.{all_seated};
ghost use Rattle.protocol.specs.Common.{narrow_step, grows, at_rest};

use crate::machine::Core;
use protocol::{Event, Reply};

impl Core {
    /// Makes an event that is known to be allowed and grows nothing.
    pub(crate) fn make(&mut self, event: Event) -> Reply
        requires allowed { IsSome (narrow_step self.old event) }
        requires small { grows event ≡ false }
        ensures { narrow_step self.old event ≡ Some (record { state = self.new; reply = result }) }
    {
        match self.step(event) {
            Ok(reply) => reply,
            Err(_) => unreachable!(),
        }
    }

    /// Seats every CPU that has no seat yet.
    pub(crate) fn seat_all(&mut self)
        requires { at_rest self.old.due ≡ true }
        ensures { self.new ≡ all_seated self.old }
    {
        let cpus = self.settings.cpus;
        for c in self.seated..cpus {
            self.make(Event::Seat(c));
        }
    }
}
