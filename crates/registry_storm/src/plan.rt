//! What all workers of a storm have in common.

ghost use Rattle.std.specs.Prelude.{◌≡◌, ◌↔◌, ◌≤◌, IsTrue, [], ◌∷◌, Some, Ok};
ghost use Rattle.registry_values.specs.declared.limits.TheConstants.{USUAL_CPUS};
ghost use Rattle.registry_values.specs.Common.{is_key, name_of_bytes};
ghost use Rattle.registry_storm.specs.{driver_entry, driver_record, iface_record, IsIfaceOf, settings_of};

use registry_values::{
    Entry, Kind, Name, Record, Refusal, Settings, USUAL_CHANGES, USUAL_COUNT, USUAL_SECTIONS,
};

/// How many slots the registry of a storm has.
pub const SLOTS: u8 = 4;

/// The value of the driver, as every worker expects it.
pub const DRIVER_VALUE: u64 = 7;

/// How many CPUs and turns a storm has, and the names of its entries.
#[derive(Clone, Copy)]
pub struct Plan {
    /// From 1 to `USUAL_CPUS`, each with a worker.
    pub cpus: u8,
    /// The turns of each worker, from 1.
    pub turns: u32,
    /// The driver's name.
    pub driver: Name,
    /// The name of each interface in turn.
    pub iface: Name,
    ghost some: { (1 ≤ cpus) × (cpus ≤ USUAL_CPUS) × (1 ≤ turns) × (turns ≤ 100000) },
    ghost names: { (name_of_bytes (100 ∷ 114 ∷ 118 ∷ []) ≡ Ok driver) × (name_of_bytes (119 ∷ 109 ∷ 48 ∷ []) ≡ Ok iface) },
    ghost keys: { IsTrue (is_key driver) × IsTrue (is_key iface) },
}

impl Plan {
    /// The plan of a storm over the driver `drv` and the interface `wm0`.
    pub fn new(cpus: u8, turns: u32) -> Plan
        requires { (1 ≤ cpus) × (cpus ≤ USUAL_CPUS) × (1 ≤ turns) × (turns ≤ 100000) }
        ensures { (result.cpus ≡ cpus) × (result.turns ≡ turns) }
    {
        let (Ok(driver), Ok(iface)) = (Name::parse(b"drv"), Name::parse(b"wm0")) else {
            unreachable!()
        };
        Plan {
            cpus,
            turns,
            driver,
            iface,
        }
    }

    /// The record of the driver.
    pub fn driver(&self) -> Record
        ensures value { result ≡ driver_record self.now.driver }
        ensures key { IsTrue (is_key result.name) }
    {
        Record {
            kind: Kind::Driver,
            name: self.driver,
            value: DRIVER_VALUE,
        }
    }

    /// The record of the interface that is attached in a turn.
    pub fn iface(&self, turn: u32) -> Record
        ensures value { result ≡ iface_record self.now.iface turn }
        ensures key { IsTrue (is_key result.name) }
    {
        Record {
            kind: Kind::Iface,
            name: self.iface,
            value: u64::from(turn),
        }
    }

    /// The driver, which is the first entry of the registry.
    pub fn driver_entry(&self) -> Entry
        ensures { result ≡ driver_entry self.now.driver }
    {
        Entry {
            number: 1,
            slot: 0,
            rec: self.driver(),
        }
    }

    /// Whether this is the driver.
    pub fn is_driver(&self, entry: Option<Entry>) -> bool
        ensures { IsTrue result ↔ (entry ≡ Some (driver_entry self.now.driver)) }
    {
        entry == Some(self.driver_entry())
    }

    /// Whether no interface was found, or one that was attached in some turn.
    pub fn is_iface(&self, entry: Option<Entry>) -> bool
        ensures { IsTrue result ↔ IsIfaceOf self.now.turns entry }
    {
        match entry {
            Some(entry) => entry.rec.value < u64::from(self.turns),
            None => true,
        }
    }

    /// Whether a record is the driver's, read by a reference to this number.
    pub fn is_record(&self, number: u64, rec: Record) -> bool
        ensures { IsTrue result ↔ (number ≡ 1) × (rec ≡ driver_record self.now.driver) }
    {
        number == 1 && rec == self.driver()
    }

    /// Whether a read by a passive reference to this number gave the driver's record.
    pub fn is_read(&self, number: u64, answer: Result<Record, Refusal>) -> bool
        ensures { IsTrue result ↔ (number ≡ 1) × (answer ≡ Ok (driver_record self.now.driver)) }
    {
        number == 1 && answer == Ok(self.driver())
    }
}

/// The settings of a storm's registry: limits that no storm reaches.
pub fn settings_of(cpus: u8) -> Settings
    ensures { result ≡ settings_of cpus }
{
    Settings {
        cpus,
        slots: SLOTS,
        change_limit: USUAL_CHANGES,
        section_limit: USUAL_SECTIONS,
        passive_limit: 4,
        count_limit: USUAL_COUNT,
    }
}
