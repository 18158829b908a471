//! A script's run over a core: the core, and the references of the labels.

ghost use Rattle.std.specs.Prelude.{◌≡◌, ◌<◌};
ghost use Rattle.passive_core.specs.Common.{IsQuiet};
ghost use Rattle.registry_report.specs.Session.{label_answer, label_at, without_labels};

use super::hitch::{Hitch, as_answer};
use super::session::{Reading, Session};
use passive_core::{Core, CorePsref};
use registry_language::Label;
use registry_values::{Balance, Entry, Kind, Name, Record, Stage};
use std::marker::Model;

/// A core, and the references of the labels.
#[derive(Drop)]
pub struct CoreSession {
    core: Core,
    passives: [Option<CorePsref>; 26],
    locals: [Option<u64>; 26],
}

impl Model for CoreSession {
    ghost use Rattle.registry_report.specs.Session.{SessionState};

    ghost Value = { SessionState };

    ghost use Rattle.registry_report.specs.Session.{IsSession};

    ghost view = { λ a. record { core = a.core; passives = a.passives; locals = a.locals } };

    ghost invariant = { λ a. IsSession (record { core = a.core; passives = a.passives; locals = a.locals }) };
}

impl CoreSession {
    /// A session in which no label has a reference.
    pub fn new(core: Core) -> CoreSession
        requires { IsQuiet core }
        ensures { result ≡ without_labels core }
    {
        prove!(core.at_rest());
        CoreSession {
            core,
            passives: [None; 26],
            locals: [None; 26],
        }
    }

    /// The passive reference of the label.
    fn passive(&self, label: Label) -> Result<CorePsref, Hitch>
        requires { label.place < 26 }
        ensures { result ≡ label_answer (label_at self.now.passives label.place) }
    {
        self.passives[label.place as usize].ok_or(Hitch::NoLabel)
    }

    /// The local reference of the label.
    fn local(&self, label: Label) -> Result<u64, Hitch>
        requires { label.place < 26 }
        ensures { result ≡ label_answer (label_at self.now.locals label.place) }
    {
        self.locals[label.place as usize].ok_or(Hitch::NoLabel)
    }
}

impl Session for CoreSession {
    ghost use Rattle.registry_report.specs.Types.{Settings};
    ghost use Rattle.registry_report.specs.Session.{Shows};

    ghost Kept = { Settings };

    ghost kept = { λ s. s.core.settings };

    ghost settings = { λ settings. settings };

    ghost shows = { Shows };

    // Nobody else acts between the turns of the pure machine, so each returns what the first does.
    ghost destroys = { λ _ _ _ _ _ _. Unit {0} };

    ghost performs = { λ _ _ _ _ _. Unit {0} };

    fn attach(&mut self, cpu: u8, rec: Record) -> Result<Entry, Hitch> {
        let answer = self.core.attach(cpu, rec);
        prove!(self.core.at_rest());
        as_answer(answer)
    }

    fn plug(&mut self, cpu: u8, rec: Record, label: Label) -> Result<Entry, Hitch> {
        let id = self.local(label)?;
        let answer = self.core.attach_iface(cpu, rec, id);
        prove!(self.core.at_rest());
        let entry = answer?;
        self.locals[label.place as usize] = None;
        Ok(entry)
    }

    fn detach(&mut self, cpu: u8, kind: Kind, name: Name) -> Result<Entry, Hitch> {
        let answer = self.core.detach(cpu, kind, &name);
        prove!(self.core.at_rest());
        as_answer(answer)
    }

    fn enter(&mut self, cpu: u8) -> Result<(), Hitch> {
        let answer = self.core.enter(cpu);
        prove!(self.core.at_rest());
        as_answer(answer)
    }

    fn exit(&mut self, cpu: u8) -> Result<bool, Hitch> {
        if !self.core.inside(cpu) {
            return Err(Hitch::NotInside);
        }
        self.core.exit(cpu);
        prove!(self.core.at_rest());
        Ok(self.core.inside(cpu))
    }

    fn find(&mut self, cpu: u8, kind: Kind, name: Name) -> Result<Option<Entry>, Hitch> {
        if !self.core.inside(cpu) {
            return Err(Hitch::NotInside);
        }
        let answer = self.core.find(cpu, kind, &name);
        prove!(self.core.at_rest());
        Ok(answer)
    }

    fn reference(&mut self, cpu: u8, label: Label) -> Result<u64, Hitch> {
        if self.passive(label).is_ok() {
            return Err(Hitch::LabelTaken);
        }
        let answer = self.core.acquire(cpu);
        prove!(self.core.at_rest());
        let psref = answer?;
        self.passives[label.place as usize] = Some(psref);
        Ok(psref.number)
    }

    fn copy(&mut self, cpu: u8, source: Label, target: Label) -> Result<u64, Hitch> {
        let psref = self.passive(source)?;
        if self.passive(target).is_ok() {
            return Err(Hitch::LabelTaken);
        }
        let answer = self.core.copy(cpu, psref);
        prove!(self.core.at_rest());
        let second = answer?;
        self.passives[target.place as usize] = Some(second);
        Ok(second.number)
    }

    fn held(&self, cpu: u8, label: Label) -> Result<bool, Hitch> {
        let psref = self.passive(label)?;
        Ok(self.core.held(cpu, psref))
    }

    fn read(&mut self, cpu: u8, label: Label) -> Result<Reading, Hitch> {
        let psref = self.passive(label)?;
        let answer = self.core.read(cpu, psref);
        prove!(self.core.at_rest());
        Ok(Reading {
            number: psref.number,
            value: answer?.value,
        })
    }

    fn release(&mut self, cpu: u8, label: Label) -> Result<u64, Hitch> {
        let psref = self.passive(label)?;
        let answer = self.core.release(cpu, psref);
        prove!(self.core.at_rest());
        answer?;
        self.passives[label.place as usize] = None;
        Ok(psref.number)
    }

    fn count(&mut self, cpu: u8, label: Label) -> Result<u64, Hitch> {
        if self.local(label).is_ok() {
            return Err(Hitch::LabelTaken);
        }
        let answer = self.core.acquire_local(cpu);
        prove!(self.core.at_rest());
        let id = answer?;
        self.locals[label.place as usize] = Some(id);
        Ok(self.core.number(id))
    }

    #[tactic(auto, using(crate::proofs::calls::Done::peek_leaves))]
    fn peek(&mut self, label: Label) -> Result<Reading, Hitch> {
        let id = self.local(label)?;
        let number = self.core.number(id);
        let rec = self.core.record(id);
        prove!(self.core.at_rest());
        Ok(Reading {
            number,
            value: rec.value,
        })
    }

    fn uncount(&mut self, cpu: u8, label: Label) -> Result<u64, Hitch> {
        let id = self.local(label)?;
        let number = self.core.number(id);
        self.core.release_local(cpu, id);
        prove!(self.core.at_rest());
        self.locals[label.place as usize] = None;
        Ok(number)
    }

    fn advance(&mut self, number: u64) -> Result<Stage, Hitch> {
        let answer = self.core.advance(number);
        prove!(self.core.at_rest());
        as_answer(answer)
    }

    fn destroy(&mut self, cpu: u8, number: u64, turns: u32) -> Result<u8, Hitch> {
        let answer = self.core.destroy(cpu, number, turns);
        prove!(self.core.at_rest());
        as_answer(answer)
    }

    fn perform(&mut self, cpu: u8, turns: u32) -> Result<(), Hitch> {
        let answer = self.core.perform(cpu, turns);
        prove!(self.core.at_rest());
        as_answer(answer)
    }

    #[tactic(auto, using(crate::proofs::calls::Done::seen, crate::proofs::shows::Counted::audit_answers))]
    fn audit(&mut self) -> Result<Vec<Balance>, Hitch> {
        Ok(self.core.audit()?)
    }
}
