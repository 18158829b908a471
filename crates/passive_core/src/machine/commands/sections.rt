//! Sections: what a caller may test of a CPU, and how a CPU begins and ends its read section (pserialize(9)).

ghost use Rattle.std.specs.Prelude.{◌≡◌, ◌<◌, ◌≤◌, ℕ, OnOk, [], ◌∷◌, false, true};
ghost use Rattle.passive_core.specs.Commands.{all_seated, may_act, enter_answer, may_begin, after_enter_command, after_exit_command, with_depth};
ghost use Rattle.passive_core.specs.Making.{Makes, seats_and};
ghost use Rattle.passive_core.specs.Types.{Enter, Exit};
ghost use Rattle.protocol.specs.Common.{is_idle, is_inside, Holds, at_rest, depth_at};

use crate::machine::Core;
use protocol::Event;
use registry_values::{Refusal, enter_answer};

impl Core {
    /// Whether the CPU is inside a section.
    pub fn inside(&self, c: u8) -> bool
        requires { c < self.now.settings.cpus }
        ensures { result ≡ is_inside self.now c }
    {
        self.begins[c as usize].is_some()
    }

    /// How deep the CPU's section is nested, from 1 to `MOST_DEPTH`; 0 outside.
    pub fn depth(&self, c: u8) -> u8
        requires { c < self.now.settings.cpus }
        ensures { result ≡ depth_at self.now c }
    {
        self.depths[c as usize]
    }

    /// Whether the CPU has no search under way and nothing in its hand; true also where it isn't seated yet.
    pub fn idle(&self, c: u8) -> bool
        requires { c < self.now.settings.cpus }
        ensures { result ≡ may_act self.now c }
    {
        c >= self.seated || self.is_idle(c)
    }

    /// Begins a read section on the CPU, or nests the one that is open a level deeper (pserialize(9)). Inside a section
    /// it only adds 1 to the depth and makes no event; outside all CPUs are seated, and the event `Enter` is made, which
    /// sees the whole history.
    /// Refused, in this order, and nothing has changed then: `TooDeep` if the depth is `MOST_DEPTH`; `SectionsSpent` if the
    /// CPU is outside a section and has begun as many as the settings allow.
    pub fn enter(&mut self, c: u8) -> Result<(), Refusal>
        requires known { c < self.old.settings.cpus }
        requires rest { at_rest self.old.due ≡ true }
        requires ready { may_act self.old c ≡ true }
        ensures answer { result ≡ enter_answer self.old c }
        ensures after { self.new ≡ after_enter_command self.old c }
        ensures made { OnOk result (is_inside self.old c ≡ false → Makes self.old (seats_and self.old (Enter c ∷ [])) self.new) }
        ensures nested { is_inside self.old c ≡ true → self.new ≡ record self.old { depths = self.new.depths } }
        ensures settings { self.new.settings ≡ self.old.settings }
        ensures rest { at_rest self.new.due ≡ true }
        ensures ready { (d : ℕ) → may_act self.old d ≡ true → may_act self.new d ≡ true }
    {
        let depth = self.depth(c);
        let inside = self.inside(c);
        enter_answer(depth, !inside, self.may_begin(c))?;
        if inside {
            self.set_depth(c, depth + 1);
            return Ok(());
        }
        self.seat_for(c);
        self.make(Event::Enter(c));
        Ok(())
    }

    /// Ends the CPU's read section, or where it is nested takes 1 from its depth (pserialize(9)). At the outermost exit
    /// all CPUs are seated and the event `Exit` is made, which clears the last found entry; an inner exit makes no event.
    /// It is never refused.
    pub fn exit(&mut self, c: u8)
        requires known { c < self.old.settings.cpus }
        requires rest { at_rest self.old.due ≡ true }
        requires ready { may_act self.old c ≡ true }
        requires inside { is_inside self.old c ≡ true }
        ensures after { self.new ≡ after_exit_command self.old c }
        ensures made { depth_at self.old c ≡ 1 → Makes self.old (seats_and self.old (Exit c ∷ [])) self.new }
        ensures nested { (depth_at self.old c ≡ 1 → ⊥) → self.new ≡ record self.old { depths = self.new.depths } }
        ensures settings { self.new.settings ≡ self.old.settings }
        ensures rest { at_rest self.new.due ≡ true }
        ensures ready { (d : ℕ) → may_act self.old d ≡ true → may_act self.new d ≡ true }
    {
        let _ = &self.depths;
        let depth = self.depth(c);
        if depth == 1 {
            self.seat_for(c);
            self.make(Event::Exit(c));
        } else {
            self.set_depth(c, depth - 1);
        }
    }

    /// Whether the CPU has begun fewer sections than it may.
    fn may_begin(&self, c: u8) -> bool
        requires { c < self.now.settings.cpus }
        ensures { result ≡ may_begin self.now c }
    {
        self.section_at(c) < 2 * self.settings.section_limit
    }

    /// Seats every CPU for a command of this one, which is idle then.
    pub(crate) fn seat_for(&mut self, c: u8)
        requires known { c < self.old.settings.cpus }
        requires rest { at_rest self.old.due ≡ true }
        requires ready { may_act self.old c ≡ true }
        ensures after { self.new ≡ all_seated self.old }
        ensures idle { is_idle self.new c ≡ true }
        ensures sound { Holds self.old }
        ensures ready { (d : ℕ) → may_act self.old d ≡ true → may_act self.new d ≡ true }
    {
        let _ = &self.seated;
        self.seat_all();
    }

    /// The section that is open on the CPU is this deep now.
    fn set_depth(&mut self, c: u8, depth: u8)
        requires known { c < self.old.settings.cpus }
        requires inside { is_inside self.old c ≡ true }
        requires deep { 1 ≤ depth }
        ensures { self.new ≡ with_depth self.old c depth }
    {
        self.depths[c as usize] = depth;
    }
}
