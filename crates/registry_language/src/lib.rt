//! The language of scripts: words, labels, commands, the parser, and why a script was not run to its end.
//!
//! `parse_script` takes the bytes line by line: a line's words, the command that they name, and whether it may come after the lines before
//! it. The first fault ends it. A `Script` has none, and its settings have each CPU that its commands name.
#![tactic(auto)]

mod command;
mod fault;
mod label;
mod parse;
mod position;
mod script;
mod words;

pub use command::Command;
pub use fault::{Cause, ParseFault, RunFault, ScriptFault};
pub use label::Label;
pub use script::{Script, parse_script};
pub use words::number as parse_number;
