//! The commands of a script.

use super::label::Label;
use registry_values::{Kind, Name, Record};

/// The command that the first word of a line names.
#[derive(Clone, Copy, Debug, PartialEq, Eq)]
pub enum Verb {
    Domain,
    Limits,
    Attach,
    Plug,
    Detach,
    Enter,
    Exit,
    Find,
    Reference,
    Copy,
    Held,
    Read,
    Release,
    Count,
    Peek,
    Uncount,
    Advance,
    Destroy,
    Perform,
    Audit,
}

/// A command, with what its words say.
#[derive(Clone, Copy, Debug, PartialEq, Eq)]
pub enum Command {
    /// The registry has so many CPUs and slots.
    Domain {
        cpus: u8,
        slots: u8,
    },
    /// Its history has room for so many changes, each CPU for so many outermost sections, and for so many
    /// passive references and so large a net count to each entry.
    Limits {
        changes: u64,
        sections: u64,
        passive: u64,
        count: u64,
    },
    /// The CPU attaches the record.
    Attach {
        cpu: u8,
        rec: Record,
    },
    /// The CPU attaches the interface, which keeps the label's local reference to its driver.
    Plug {
        cpu: u8,
        rec: Record,
        label: Label,
    },
    /// The CPU detaches the live entry of this kind and name.
    Detach {
        cpu: u8,
        kind: Kind,
        name: Name,
    },
    /// The CPU enters a section.
    Enter {
        cpu: u8,
    },
    /// The CPU exits its section.
    Exit {
        cpu: u8,
    },
    /// The CPU, inside a section, looks for the live entry of this kind and name.
    Find {
        cpu: u8,
        kind: Kind,
        name: Name,
    },
    /// The CPU acquires a passive reference to what it found last.
    Reference {
        cpu: u8,
        label: Label,
    },
    /// The CPU makes a second passive reference of the source's.
    Copy {
        cpu: u8,
        source: Label,
        target: Label,
    },
    /// Whether the CPU holds a passive reference to the target of the label's.
    Held {
        cpu: u8,
        label: Label,
    },
    /// The record that the label's passive reference is to, as the CPU reads it.
    Read {
        cpu: u8,
        label: Label,
    },
    /// The CPU releases the label's passive reference.
    Release {
        cpu: u8,
        label: Label,
    },
    /// The CPU acquires a local reference to what it found last.
    Count {
        cpu: u8,
        label: Label,
    },
    /// The record that the label's local reference is to.
    Peek {
        label: Label,
    },
    /// The CPU releases the label's local reference.
    Uncount {
        cpu: u8,
        label: Label,
    },
    /// One turn of the work on the retired entry with this number.
    Advance {
        number: u64,
    },
    /// The CPU destroys the retired entry with this number, in at most so many turns.
    Destroy {
        cpu: u8,
        number: u64,
        turns: u32,
    },
    /// The CPU waits, for so many turns, until no section that is open now is.
    Perform {
        cpu: u8,
        turns: u32,
    },
    /// The balance of each slot with a live or a retired entry.
    Audit,
}
