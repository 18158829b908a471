//! What the arguments ask for.

ghost use Rattle.std.specs.Prelude.{◌≡◌, IfSome, map, string_bytes};
ghost use Rattle.registry_language.specs.Words.{number_of};
ghost use Rattle.registry_run.specs.{task_of, engine_named, storm_asked, within_one_to, IsPossible};

use registry_script::{Engine, parse_number};
use registry_values::USUAL_CPUS;

/// The most turns of a storm.
const MOST_TURNS: u64 = 100_000;

/// What the arguments ask for.
#[derive(Clone, Copy, Debug, PartialEq, Eq)]
pub enum Task {
    /// To run the script on standard input.
    Script(Engine),
    /// To run a storm.
    Storm(StormSize),
}

/// How large a storm is.
#[derive(Clone, Copy, Debug, PartialEq, Eq)]
pub struct StormSize {
    /// 1 to `USUAL_CPUS`.
    pub cpus: u8,
    /// 1 to 100,000.
    pub turns: u32,
}

impl Task {
    /// The task that the words after the program's name ask for: `core`, `live`, or `storm C T` with numbers as scripts have them.
    pub fn parse(words: &[String]) -> Option<Task>
        ensures task { result ≡ task_of (map (λ w. string_bytes w) words.now) }
        ensures possible { IfSome result IsPossible }
    {
        match words {
            [word] => engine(word.as_bytes()).map(Task::Script),
            [word, cpus, turns] => storm(word.as_bytes(), cpus.as_bytes(), turns.as_bytes()),
            _ => None,
        }
    }
}

/// The engine that a word names.
fn engine(word: &[u8]) -> Option<Engine>
    ensures { result ≡ engine_named word.now }
{
    if word == b"core".as_slice() {
        Some(Engine::Core)
    } else if word == b"live".as_slice() {
        Some(Engine::Live)
    } else {
        None
    }
}

/// The storm that three words ask for.
fn storm(word: &[u8], cpus: &[u8], turns: &[u8]) -> Option<Task>
    ensures task { result ≡ storm_asked word.now cpus.now turns.now }
    ensures possible { IfSome result IsPossible }
{
    if word != b"storm".as_slice() {
        return None;
    }
    let cpus = parse_within(cpus, USUAL_CPUS as u64)? as u8;
    let turns = parse_within(turns, MOST_TURNS)? as u32;
    Some(Task::Storm(StormSize { cpus, turns }))
}

/// A number from 1 to `most`.
fn parse_within(word: &[u8], most: u64) -> Option<u64>
    ensures { result ≡ within_one_to most (number_of word.now) }
{
    match parse_number(word) {
        Some(n) if 1 <= n && n <= most => Some(n),
        _ => None,
    }
}
