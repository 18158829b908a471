//! Tests of what no contract says, nor a script alone: readers and writers that fail, storms, and runs on a registry of the test's own. The scripts that say
//! more are rows of the program (`rows.py` of `registry_run`), which also runs out of memory.

mod calls;
mod ends;
mod storms;
mod streams;

use registry_script::Engine;
use std::alloc::{AllocError, Global};

/// Both engines. They write the same wherever nobody else uses the registry that is running.
const ENGINES: [Engine; 2] = [Engine::Core, Engine::Live];

/// The lines of a row, each ended, where `; ` stands between two lines.
fn lines(alloc: Global, row: &str) -> Result<Vec<u8>, AllocError> {
    let mut text = Vec::new(alloc);
    for line in row.split("; ") {
        text.extend_from_slice(line.as_bytes())?;
        text.push(b'\n')?;
    }
    Ok(text)
}
