//! The report of a script: what each command returns and leaves, over model states; what carries commands out; and the run that writes
//! their lines. The pure machine carries them out here, and its lines are the report.
//!
//! A `Session` carries commands out for one script. It owns the references of the labels. A label is free until a `ref`, `copy` or `count`
//! gives it a reference, and free again once a `drop`, `uncount` or `plug` has spent it. A refused command leaves its labels as they were.
#![tactic(auto)]

mod carry;
mod core_session;
mod hitch;
mod laws;
mod lines;
mod run;
mod session;

pub use hitch::{Hitch, as_answer};
pub use laws::report_laws;
pub use run::{run_core, run_on, write_text};
pub use session::{Reading, Session};
