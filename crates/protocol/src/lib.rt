//! The protocol of read sections, passive references and local counts: state, events, the invariant that they keep, the model, and the laws
//! over every list of events. Nothing here runs: the machine (`passive_core`) and the shared words (`cpu_words`) are proved to make these
//! events.
//!
//! The life of an entry:
//!
//! 1. `Publish` links it: sections find it from then on.
//! 2. `Unpublish` takes it out, and its slot is retired, with a `Snapshot` of each CPU.
//! 3. `Look`s, until no open section may hold it.
//! 4. `PassiveLook`s, until no CPU has a passive reference to it.
//! 5. `Collect` and `TotalAdd` for each CPU's count word, and `TotalSub`s, until the total is its bias.
//! 6. `Vacate` frees the slot; `KeptSub` does if it keeps a driver's reference.
//!
//! The invariant says at each moment who may still hold the entry.
#![tactic(auto)]

mod event;
mod laws;
mod state;

pub use event::{Counted, Event, RecordOf, Reply, Short, StepFault};
pub use laws::{
    balance_at_rest, every_run_keeps, fresh_answers, grace_law, headline, invariant_suffices,
    lawful_answers, narrow_runs, safe_reuse, worked_run,
};
pub use state::{Due, Hand, Loaded, LocalPlace, RecordWords, Search, SearchPlace};
