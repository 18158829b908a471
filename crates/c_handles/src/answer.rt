//! What a call returns that writes to places of handles: its number, and the places, which go back to C.

ghost use Rattle.std.specs.Prelude.{◌≡◌};
ghost use Rattle.c_handles.specs.contracts.values.given.GivenSettings.{the_row as settings_row};
ghost use Rattle.c_handles.specs.declared.values.given.GivenSettings.{GivenSettings};
ghost use Rattle.c_handles.specs.declared.values.place.NumberPlace.{NumberPlace};
ghost use Rattle.c_handles.specs.declared.values.rows.BalancesPlace.{BalancesPlace};
ghost use Rattle.c_handles.specs.declared.keeper_place.KeeperPlace.{KeeperPlace};
ghost use Rattle.c_handles.specs.declared.rows.CpusPlace.{CpusPlace};

use crate::rows::CpusPlace;
use crate::values::answer::{ListAnswer, OpenAnswer};
use std::marker::Model;

/// A call's number, and the place of CPUs again.
#[repr(C)]
pub struct CpusAnswer {
    pub number: u32,
    pub ghost cpus: { CpusPlace },
}

impl Model for CpusAnswer {
    ghost use Rattle.c_handles.specs.Lent.{lends_cpus};

    ghost also_owns = { λ a. lends_cpus a.cpus.at a.cpus.value };
}

/// A call's number, the place of a number again, that of balances, and that of CPUs.
#[repr(C)]
pub struct AuditAnswer {
    pub number: u32,
    pub ghost place: { NumberPlace },
    pub ghost list: { BalancesPlace },
    pub ghost cpus: { CpusPlace },
}

impl Model for AuditAnswer {
    ghost use base.Fml.{fsep};
    ghost use Rattle.c_handles.specs.Lent.{lends_cpus};
    ghost use Rattle.c_handles.specs.values.Lent.{lends_balances, lends_number};

    ghost also_owns = { λ a. fsep (fsep (lends_number a.place.at a.place.value) (lends_balances a.list.at a.list.value)) (lends_cpus a.cpus.at a.cpus.value) };
}

/// A call's number, the settings that were given, and the place of CPUs again.
#[repr(C)]
pub struct OpenedAnswer {
    pub number: u32,
    pub ghost settings: { GivenSettings } by { settings_row.coded },
    pub ghost cpus: { CpusPlace },
}

impl Model for OpenedAnswer {
    ghost use base.Fml.{fsep};
    ghost use Rattle.c_handles.specs.values.Lent.{gives_settings};
    ghost use Rattle.c_handles.specs.Lent.{lends_cpus};

    ghost also_owns = { λ a. fsep (gives_settings a.settings.share a.settings.at a.settings.settings) (lends_cpus a.cpus.at a.cpus.value) };
}

impl CpusAnswer {
    /// Gives the place back with a call's number.
    pub fn of(cpus: CpusPlace, number: u32) -> CpusAnswer
        ensures { result ≡ record { number = number; cpus = cpus } }
    {
        let CpusPlace { at: _ } = cpus;
        CpusAnswer { number }
    }
}

/// A call's number, and the place of the keeper again.
#[repr(C)]
pub struct KeeperAnswer {
    pub number: u32,
    pub ghost place: { KeeperPlace },
}

impl Model for KeeperAnswer {
    ghost use Rattle.c_handles.specs.Lent.{lends_keeper};

    ghost also_owns = { λ a. lends_keeper a.place.at a.place.value };
}

/// A call's number, the place of the keeper again, and that of CPUs.
#[repr(C)]
pub struct ClosedAnswer {
    pub number: u32,
    pub ghost keeper: { KeeperPlace },
    pub ghost cpus: { CpusPlace },
}

impl Model for ClosedAnswer {
    ghost use base.Fml.{fsep};
    ghost use Rattle.c_handles.specs.Lent.{lends_cpus, lends_keeper};

    ghost also_owns = { λ a. fsep (lends_keeper a.keeper.at a.keeper.value) (lends_cpus a.cpus.at a.cpus.value) };
}

impl AuditAnswer {
    /// Gives a place of CPUs back, too.
    pub fn of(answer: ListAnswer, cpus: CpusPlace) -> AuditAnswer
        ensures { result ≡ record { number = answer.number; place = answer.place; list = answer.list; cpus = cpus } }
    {
        let ListAnswer { number } = answer;
        let CpusPlace { at: _ } = cpus;
        AuditAnswer { number }
    }
}

impl OpenedAnswer {
    /// Gives a place of CPUs back, too.
    pub fn of(answer: OpenAnswer, cpus: CpusPlace) -> OpenedAnswer
        ensures { result ≡ record { number = answer.number; settings = answer.settings; cpus = cpus } }
    {
        let OpenAnswer { number } = answer;
        let CpusPlace { at: _ } = cpus;
        OpenedAnswer { number }
    }
}

impl ClosedAnswer {
    /// Gives a place of CPUs back, too.
    pub fn of(answer: KeeperAnswer, cpus: CpusPlace) -> ClosedAnswer
        ensures { result ≡ record { number = answer.number; keeper = answer.place; cpus = cpus } }
    {
        let KeeperAnswer { number } = answer;
        let CpusPlace { at: _ } = cpus;
        ClosedAnswer { number }
    }
}
