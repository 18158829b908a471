//! What carries the commands of a script out: over the pure machine, or over a registry that is running.

ghost use Rattle.std.specs.Prelude.{◌≡◌, ◌<◌, ◌≤◌, IfErr, IfOk, IsTrue, map, true};
ghost use Rattle.registry_values.specs.declared.refusal.Refusal.TheVariants as refusal;
ghost use Rattle.registry_values.specs.Common.{tally_shown, is_lawful, is_iface};
ghost use Rattle.registry_report.specs.declared.hitch.Hitch.TheVariants as hitch;
ghost use Rattle.registry_language.specs.declared.command.Command.TheVariants as command;
ghost use Rattle.registry_report.specs.Turns.{advance_answer, attach_answer, audit_answer, copy_answer, count_answer, destroy_answer, detach_answer, enter_answer, exit_answer, find_answer, held_answer, command_answer, peek_answer, perform_answer, plug_answer, read_answer, reference_answer, release_answer, uncount_answer};
ghost use Rattle.registry_report.specs.Session.{AnswersFor, LeavesFor};
ghost use Rattle.registry_report.specs.Printed.{MayHitch};
ghost use Rattle.registry_report.specs.Registry.{Registry};
ghost use Rattle.registry_report.specs.Report.{after};

use super::hitch::Hitch;
use registry_language::Label;
use registry_values::{Balance, Entry, Kind, Name, Record, Stage};

/// The number of the entry that a reference is to, and the value that its record has.
#[derive(Clone, Copy, Debug, PartialEq, Eq)]
pub struct Reading {
    /// The entry's number.
    pub number: u64,
    /// The value of its record.
    pub value: u64,
}

/// Carries commands out, one after the other, on a registry whose CPUs and settings are those of a script. Labels name the references that
/// the commands acquire.
///
/// Where a session shows the registry of the report, each answer is the report's. A session over a registry that others use too shows none.
pub trait Session {
    ghost use Rattle.std.specs.Prelude.{ℕ, Result};
    ghost use Rattle.registry_report.specs.Types.{Settings};
    ghost use Rattle.registry_report.specs.declared.hitch.Hitch.{Hitch};
    ghost use Rattle.registry_report.specs.Registry.{Registry};

    // What no command changes: the settings of the registry, and what else a session says of itself.
    ghost Kept: { Type 0 };

    ghost kept: { Self → Kept };

    ghost settings: { Kept → Settings };

    // The session shows all of a registry that the answers depend on.
    ghost shows: { Self → Registry → Type 0 };

    // of the session before, the CPU, the number of a destroy, and the turns: the answer, and the session after
    ghost destroys: { Self → ℕ → ℕ → ℕ → Result ℕ Hitch → Self → Type 0 };

    ghost performs: { Self → ℕ → ℕ → Result (Unit {0}) Hitch → Self → Type 0 };

    /// The CPU attaches the record.
    fn attach(&mut self, cpu: u8, rec: Record) -> Result<Entry, Hitch>
        requires known { cpu < (settings (kept self.old)).cpus }
        requires lawful { IsTrue (is_lawful rec.name) }
        ensures kept { kept self.new ≡ kept self.old }
        ensures answer { AnswersFor (shows self.old) (λ r. command_answer (attach_answer r cpu rec)) result }
        ensures shows { LeavesFor (shows self.old) (shows self.new) (command.Attach cpu rec) result }
        ensures hitch { IfErr result (MayHitch (command.Attach cpu rec)) };

    /// The CPU attaches the interface on the driver that the label's local reference is to. The label is free then.
    fn plug(&mut self, cpu: u8, rec: Record, label: Label) -> Result<Entry, Hitch>
        requires known { cpu < (settings (kept self.old)).cpus }
        requires lawful { IsTrue (is_lawful rec.name) }
        requires iface { is_iface rec.kind ≡ true }
        requires label { label.place < 26 }
        ensures kept { kept self.new ≡ kept self.old }
        ensures answer { AnswersFor (shows self.old) (λ r. plug_answer r cpu rec label.place) result }
        ensures shows { LeavesFor (shows self.old) (shows self.new) (command.Plug cpu rec label) result }
        ensures hitch { IfErr result (MayHitch (command.Plug cpu rec label)) };

    /// The CPU detaches the live entry of this kind and name.
    fn detach(&mut self, cpu: u8, kind: Kind, name: Name) -> Result<Entry, Hitch>
        requires { cpu < (settings (kept self.old)).cpus }
        ensures kept { kept self.new ≡ kept self.old }
        ensures answer { AnswersFor (shows self.old) (λ r. command_answer (detach_answer r cpu (record { kind = kind; name = name }))) result }
        ensures shows { LeavesFor (shows self.old) (shows self.new) (command.Detach cpu kind name) result }
        ensures hitch { IfErr result (MayHitch (command.Detach cpu kind name)) };

    /// The CPU enters a section.
    fn enter(&mut self, cpu: u8) -> Result<(), Hitch>
        requires { cpu < (settings (kept self.old)).cpus }
        ensures kept { kept self.new ≡ kept self.old }
        ensures answer { AnswersFor (shows self.old) (λ r. command_answer (enter_answer r cpu)) result }
        ensures shows { LeavesFor (shows self.old) (shows self.new) (command.Enter cpu) result }
        ensures hitch { IfErr result (MayHitch (command.Enter cpu)) };

    /// The CPU exits its section; whether the section stays open.
    fn exit(&mut self, cpu: u8) -> Result<bool, Hitch>
        requires { cpu < (settings (kept self.old)).cpus }
        ensures kept { kept self.new ≡ kept self.old }
        ensures answer { AnswersFor (shows self.old) (λ r. exit_answer r cpu) result }
        ensures shows { LeavesFor (shows self.old) (shows self.new) (command.Exit cpu) result }
        ensures hitch { IfErr result (MayHitch (command.Exit cpu)) };

    /// The live entry of this kind and name, as the CPU finds it inside its section.
    fn find(&mut self, cpu: u8, kind: Kind, name: Name) -> Result<Option<Entry>, Hitch>
        requires { cpu < (settings (kept self.old)).cpus }
        ensures kept { kept self.new ≡ kept self.old }
        ensures answer { AnswersFor (shows self.old) (λ r. find_answer r cpu (record { kind = kind; name = name })) result }
        ensures shows { LeavesFor (shows self.old) (shows self.new) (command.Find cpu kind name) result }
        ensures hitch { IfErr result (MayHitch (command.Find cpu kind name)) };

    /// The CPU acquires a passive reference to what it found last, and the label gets it. Returns the entry's number.
    fn reference(&mut self, cpu: u8, label: Label) -> Result<u64, Hitch>
        requires known { cpu < (settings (kept self.old)).cpus }
        requires label { label.place < 26 }
        ensures kept { kept self.new ≡ kept self.old }
        ensures answer { AnswersFor (shows self.old) (λ r. reference_answer r cpu label.place) result }
        ensures shows { LeavesFor (shows self.old) (shows self.new) (command.Reference cpu label) result }
        ensures hitch { IfErr result (MayHitch (command.Reference cpu label)) };

    /// The CPU makes a second passive reference of the source's, and the target gets it. Returns the entry's number.
    fn copy(&mut self, cpu: u8, source: Label, target: Label) -> Result<u64, Hitch>
        requires known { cpu < (settings (kept self.old)).cpus }
        requires source { source.place < 26 }
        requires target { target.place < 26 }
        ensures kept { kept self.new ≡ kept self.old }
        ensures answer { AnswersFor (shows self.old) (λ r. copy_answer r cpu source.place target.place) result }
        ensures shows { LeavesFor (shows self.old) (shows self.new) (command.Copy cpu source target) result }
        ensures hitch { IfErr result (MayHitch (command.Copy cpu source target)) };

    /// Whether the CPU holds a passive reference to the target of the label's.
    fn held(&self, cpu: u8, label: Label) -> Result<bool, Hitch>
        requires known { cpu < (settings (kept self.now)).cpus }
        requires label { label.place < 26 }
        ensures answer { AnswersFor (shows self.now) (λ r. held_answer r cpu label.place) result }
        ensures hitch { IfErr result (MayHitch (command.Held cpu label)) };

    /// What the CPU reads by the label's passive reference.
    fn read(&mut self, cpu: u8, label: Label) -> Result<Reading, Hitch>
        requires known { cpu < (settings (kept self.old)).cpus }
        requires label { label.place < 26 }
        ensures kept { kept self.new ≡ kept self.old }
        ensures answer { AnswersFor (shows self.old) (λ r. read_answer r cpu label.place) result }
        ensures shows { LeavesFor (shows self.old) (shows self.new) (command.Read cpu label) result }
        ensures hitch { IfErr result (MayHitch (command.Read cpu label)) };

    /// The CPU releases the label's passive reference; the label is free then. The number that it was to.
    fn release(&mut self, cpu: u8, label: Label) -> Result<u64, Hitch>
        requires known { cpu < (settings (kept self.old)).cpus }
        requires label { label.place < 26 }
        ensures kept { kept self.new ≡ kept self.old }
        ensures answer { AnswersFor (shows self.old) (λ r. release_answer r cpu label.place) result }
        ensures shows { LeavesFor (shows self.old) (shows self.new) (command.Release cpu label) result }
        ensures hitch { IfErr result (MayHitch (command.Release cpu label)) };

    /// The CPU acquires a local reference to what it found last, and the label gets it. Returns the entry's number.
    fn count(&mut self, cpu: u8, label: Label) -> Result<u64, Hitch>
        requires known { cpu < (settings (kept self.old)).cpus }
        requires label { label.place < 26 }
        ensures kept { kept self.new ≡ kept self.old }
        ensures answer { AnswersFor (shows self.old) (λ r. count_answer r cpu label.place) result }
        ensures shows { LeavesFor (shows self.old) (shows self.new) (command.Count cpu label) result }
        ensures hitch { IfErr result (MayHitch (command.Count cpu label)) };

    /// The record that the label's local reference is to.
    fn peek(&mut self, label: Label) -> Result<Reading, Hitch>
        requires { label.place < 26 }
        ensures kept { kept self.new ≡ kept self.old }
        ensures answer { AnswersFor (shows self.old) (λ r. peek_answer r label.place) result }
        ensures shows { LeavesFor (shows self.old) (shows self.new) (command.Peek label) result }
        ensures hitch { IfErr result (MayHitch (command.Peek label)) };

    /// The CPU releases the label's local reference; the label is free then. The number that it was to.
    fn uncount(&mut self, cpu: u8, label: Label) -> Result<u64, Hitch>
        requires known { cpu < (settings (kept self.old)).cpus }
        requires label { label.place < 26 }
        ensures kept { kept self.new ≡ kept self.old }
        ensures answer { AnswersFor (shows self.old) (λ r. uncount_answer r label.place) result }
        ensures shows { LeavesFor (shows self.old) (shows self.new) (command.Uncount cpu label) result }
        ensures hitch { IfErr result (MayHitch (command.Uncount cpu label)) };

    /// One turn of the work on the retired entry with this number: its stage then.
    fn advance(&mut self, number: u64) -> Result<Stage, Hitch>
        ensures kept { kept self.new ≡ kept self.old }
        ensures answer { AnswersFor (shows self.old) (λ r. command_answer (advance_answer r number)) result }
        ensures shows { LeavesFor (shows self.old) (shows self.new) (command.Advance number) result }
        ensures hitch { IfErr result (MayHitch (command.Advance number)) };

    /// The CPU destroys the retired entry with this number, in at most so many turns: the slot that is vacant again.
    fn destroy(&mut self, cpu: u8, number: u64, turns: u32) -> Result<u8, Hitch>
        requires known { cpu < (settings (kept self.old)).cpus }
        requires some { 1 ≤ turns }
        ensures kept { kept self.new ≡ kept self.old }
        ensures answer { AnswersFor (shows self.old) (λ r. command_answer (destroy_answer r cpu number)) result }
        ensures shows { LeavesFor (shows self.old) (shows self.new) (command.Destroy cpu number turns) result }
        ensures made { destroys self.old cpu number turns result self.new }
        ensures hitch { IfErr result (MayHitch (command.Destroy cpu number turns)) };

    /// The CPU waits, for so many turns, until no section that is open now is.
    fn perform(&mut self, cpu: u8, turns: u32) -> Result<(), Hitch>
        requires known { cpu < (settings (kept self.old)).cpus }
        requires some { 1 ≤ turns }
        ensures kept { kept self.new ≡ kept self.old }
        ensures answer { AnswersFor (shows self.old) (λ r. command_answer (perform_answer r cpu)) result }
        ensures shows { LeavesFor (shows self.old) (shows self.new) (command.Perform cpu turns) result }
        ensures made { performs self.old cpu turns result self.new }
        ensures hitch { IfErr result (MayHitch (command.Perform cpu turns)) };

    /// The balance of each live or retired slot.
    fn audit(&mut self) -> Result<Vec<Balance>, Hitch>
        ensures kept { kept self.new ≡ kept self.old }
        ensures answer { (r : Registry) → shows self.old r → IfOk result (λ list. map tally_shown list.items ≡ audit_answer r) }
        ensures shows { (r : Registry) → shows self.old r → shows self.new r }
        ensures err { IfErr result (λ h. h ≡ hitch.Refused refusal.NoMemory) };
}
