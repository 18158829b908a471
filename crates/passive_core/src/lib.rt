//! The protocol of read sections, passive references and local counts, as a pure machine.
//!
//! A `Core` owns one state of the protocol, for all CPUs, and takes one event at a time: `step` makes it where it is allowed. The commands
//! (`attach`, `enter`, `find`, ..) make the events of a registry's call, one after the other, and return what the call returns. There are
//! no threads and no shared words here, so a test bench can drive any order of events. Each contract says exactly what is returned and
//! left.
#![tactic(auto)]

mod machine;
mod psref;

pub use machine::{Core, run_events};
pub use protocol::{
    Counted, Due, Event, Hand, Loaded, LocalPlace, RecordOf, RecordWords, Reply, Search,
    SearchPlace, Short, StepFault, balance_at_rest, every_run_keeps, grace_law, headline,
    invariant_suffices, lawful_answers, narrow_runs, safe_reuse, worked_run,
};
pub use psref::CorePsref;
pub use registry_values::{
    BIAS, Balance, Change, Entry, Key, Kind, Mark, Name, NameFault, Record, Refusal, Settings,
    Slot, Stage, name_laws, record_from,
};
