//! What rows speak of: settings, records and references, and the lines that rows begin with.

use super::bench::{Ask, Line, Rec, Told};
use passive_core::{CorePsref, Kind, Settings};

/// Two CPUs, two slots, and limits that no row meets.
pub(super) const USUAL: Settings = Settings {
    cpus: 2,
    slots: 2,
    change_limit: 1000,
    section_limit: 1000,
    passive_limit: 100,
    count_limit: 100,
};

pub(super) const WM: Rec = Rec {
    kind: Kind::Driver,
    text: b"wm",
    value: 7,
};

pub(super) const WM0: Rec = Rec {
    kind: Kind::Driver,
    text: b"wm0",
    value: 1500,
};

pub(super) const VGA: Rec = Rec {
    kind: Kind::Driver,
    text: b"vga",
    value: 8,
};

pub(super) const WM0_IFACE: Rec = Rec {
    kind: Kind::Iface,
    ..WM0
};

/// Drivers that follow one another in the list.
pub(super) const THIRD: Rec = Rec {
    text: b"wm2",
    value: 12,
    ..WM
};

pub(super) const SECOND: Rec = Rec {
    text: b"wm1",
    value: 11,
    ..WM
};

pub(super) const FIRST: Rec = Rec {
    text: b"wm0",
    value: 10,
    ..WM
};

/// CPU 0's passive reference to entry 1.
pub(super) const A: CorePsref = CorePsref { cpu: 0, number: 1 };

/// CPU 0 attaches the driver wm, enters a section and finds it.
pub(super) const ATTACH_WM: Line = (0, Ask::Attach(WM), Ok(Told::Entry(1, 0, 7)));

pub(super) const ENTER: Line = (0, Ask::Enter, Ok(Told::Depth(1)));

pub(super) const FIND_WM: Line = (0, Ask::Find(WM), Ok(Told::Entry(1, 0, 7)));

pub(super) const EXIT: Line = (0, Ask::Exit, Ok(Told::Depth(0)));
