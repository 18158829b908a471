//! Scripts of registry commands, from bytes to bytes: read, parsed, run by an engine, and written. The language, the report, the runs and the
//! storm are crates of their own, and what callers use of them is here too.
#![tactic(auto)]

mod engine;

pub use engine::{Engine, run};
pub use registry_language::{
    Cause, Command, Label, ParseFault, RunFault, Script, ScriptFault, parse_number, parse_script,
};
pub use registry_live::{run_live, run_live_on};
pub use registry_report::{report_laws, run_core, write_text};
pub use registry_storm::{Gate, OpenGate, StormDeeds, StormRun, StormSum, storm, storm_run};
