//! Why an example ended early.

use registry_values::{NameFault, Refusal};
use std::alloc::AllocError;
use std::io;
use thiserror::Error;

/// Why an example ended early: a call was refused, or an answer wasn't what the example says of it.
#[derive(Debug, Drop, Error)]
pub enum Failure {
    #[error("refused: {0}")]
    Refused(#[from] Refusal),
    #[error("no name: {0}")]
    BadName(#[from] NameFault),
    #[error("out of memory")]
    Memory(#[from(alloc)] AllocError),
    #[error("no line could be written")]
    Output(#[from] io::Error),
    /// A wrong answer; the text says which.
    #[error("a wrong answer: {0}")]
    Wrong(&'static str),
}
