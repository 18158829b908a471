//! The drivers and interfaces that rows attach and look up, and what the calls of rows answer.

ghost use Rattle.std.specs.Prelude.{◌≡◌, IsTrue};
ghost use Rattle.registry_values.specs.Common.{is_key};

use registry_values::{Entry, Kind, Name, Record, Refusal, Stage};
use std::process::Abort;

/// A driver or an interface, before its name is parsed.
#[derive(Clone, Copy)]
pub(crate) struct Wanted {
    pub(crate) kind: Kind,
    pub(crate) name: &'static str,
    pub(crate) value: u64,
}

pub(crate) const WM: Wanted = Wanted {
    kind: Kind::Driver,
    name: "wm",
    value: 7,
};

pub(crate) const VGA: Wanted = Wanted {
    kind: Kind::Driver,
    name: "vga",
    value: 8,
};

/// A driver with the name of an interface.
pub(crate) const DRIVER_WM0: Wanted = Wanted {
    kind: Kind::Driver,
    name: "wm0",
    value: 1500,
};

/// The interface with that name.
pub(crate) const WM0: Wanted = Wanted {
    kind: Kind::Iface,
    ..DRIVER_WM0
};

/// A driver that nobody attaches.
pub(crate) const DRIVER_WM1: Wanted = Wanted {
    kind: Kind::Driver,
    name: "wm1",
    value: 1,
};

/// The record, with its name parsed.
pub(crate) fn record<R: Abort>(rt: &R, wanted: Wanted) -> Record
    ensures kind { result.kind ≡ wanted.kind }
    ensures name { IsTrue (is_key result.name) }
{
    match Name::parse(wanted.name.as_bytes()) {
        Ok(name) => Record {
            kind: wanted.kind,
            name,
            value: wanted.value,
        },
        Err(fault) => panic!(rt; "{fault}"),
    }
}

/// What a call returns.
#[derive(Clone, Copy, PartialEq)]
pub(crate) enum Answer {
    Done,
    Refused(Refusal),
    /// Nothing was found.
    Nothing,
    /// The entry with this number, in this slot.
    At(u64, u8),
    /// The number of the entry that was replaced, and of the other one, in this slot.
    Replaced(u64, u64, u8),
    /// How the destruction of an entry has come on.
    Come(Stage),
    /// The number of a slot, or how many there are.
    Number(u64),
    /// Whether it is so.
    Is(bool),
    /// A reference names this CPU and this number.
    Names(u8, u64),
    /// The results of a look at CPU 0 and of one at CPU 1.
    Looks(bool, bool),
}

/// Done, or why it was refused.
pub(crate) fn done(answer: Result<(), Refusal>) -> Answer {
    match answer {
        Ok(()) => Answer::Done,
        Err(refusal) => Answer::Refused(refusal),
    }
}

/// How the destruction has come on, or why it was refused.
pub(crate) fn come(answer: Result<Stage, Refusal>) -> Answer {
    match answer {
        Ok(stage) => Answer::Come(stage),
        Err(refusal) => Answer::Refused(refusal),
    }
}

/// The entry, whose record must be this one.
pub(crate) fn entry<R: Abort>(rt: &R, answer: Result<Entry, Refusal>, rec: Record) -> Answer {
    match answer {
        Ok(entry) => at(rt, entry, rec),
        Err(refusal) => Answer::Refused(refusal),
    }
}

/// The two entries: the new one has this record, and the old one its kind and name.
pub(crate) fn replaced<R: Abort>(
    rt: &R,
    answer: Result<(Entry, Entry), Refusal>,
    rec: Record,
) -> Answer {
    match answer {
        Ok((old, new)) => {
            let value = old.rec.value;
            assert_eq!(rt; (old.rec, new.rec), (Record { value, ..rec }, rec));
            Answer::Replaced(old.number, new.number, new.slot)
        }
        Err(refusal) => Answer::Refused(refusal),
    }
}

/// Where the entry is, whose record must be this one.
pub(crate) fn at<R: Abort>(rt: &R, entry: Entry, rec: Record) -> Answer {
    assert_eq!(rt; entry.rec, rec);
    Answer::At(entry.number, entry.slot)
}
