//! Why a call was refused.

ghost use Rattle.std.specs.Prelude.{◌≡◌};
ghost use Rattle.registry_values.specs.Answers.{number_of_refusal};

use crate::stage::Stage;
use thiserror::Error;

/// Why a call was refused. Each call lists its refusals, in the order in which it tests them.
#[derive(Clone, Copy, Debug, PartialEq, Eq, Error)]
pub enum Refusal {
    /// A growth was really refused.
    #[error("out of memory")]
    NoMemory,
    /// A setting is out of its range.
    #[error("a setting is out of its range")]
    BadSettings,
    /// A live entry has this kind and name.
    #[error("a live entry has this kind and name")]
    NameTaken,
    /// No slot is vacant and keeps nothing.
    #[error("no slot is vacant")]
    NoSlot,
    /// The history has no room for this attach and the detach of each live entry.
    #[error("the history has no room for this attach and the detaches to come")]
    HistoryFull,
    /// No live entry has this kind and name.
    #[error("no live entry has this kind and name")]
    NotFound,
    /// The caller's CPU is inside a section.
    #[error("this CPU is inside a section")]
    Inside,
    /// This CPU has made as many outermost enters as the settings allow.
    #[error("this CPU has begun as many sections as it may")]
    SectionsSpent,
    /// The CPU has no last found entry.
    #[error("this CPU has no last found entry")]
    NothingFound,
    /// This CPU has as many passive references to the entry as the settings allow.
    #[error("this CPU has as many passive references to the entry as it may")]
    PassiveFull,
    /// The reference names another CPU.
    #[error("the reference is another CPU's")]
    WrongCpu,
    /// This CPU holds no passive reference to that number.
    #[error("this CPU holds no passive reference to that entry")]
    NotHeld,
    /// This CPU's own net count for the entry is as large as the settings allow.
    #[error("this CPU's net count of local references to the entry is at its limit")]
    LocalFull,
    /// The number isn't that of a retired entry.
    #[error("no retired entry has this number")]
    NotRetired,
    /// The slice isn't the registry's CPUs, all of them and in their order.
    #[error("the CPUs given aren't all CPUs in their order")]
    MissingCpu,
    /// The last turn met this obstacle.
    #[error("the entry is still held")]
    StillHeld(Stage),
    /// The lowest-numbered CPU that wasn't seen out of its section.
    #[error("CPU {0} is still inside its section")]
    Waiting(u8),
    /// The CPU's section has depth `MOST_DEPTH`.
    #[error("this CPU's section is nested as deep as it may be")]
    TooDeep,
    /// An interface needs a reference to a driver.
    #[error("an interface needs a reference to a driver")]
    NeedsDriver,
}

impl Refusal {
    /// The refusal's number, from 1 to 19.
    pub fn number(&self) -> u8
        ensures { result ≡ number_of_refusal self.now }
    {
        match self {
            Refusal::NoMemory => 1,
            Refusal::BadSettings => 2,
            Refusal::NameTaken => 3,
            Refusal::NoSlot => 4,
            Refusal::HistoryFull => 5,
            Refusal::NotFound => 6,
            Refusal::Inside => 7,
            Refusal::SectionsSpent => 8,
            Refusal::NothingFound => 9,
            Refusal::PassiveFull => 10,
            Refusal::WrongCpu => 11,
            Refusal::NotHeld => 12,
            Refusal::LocalFull => 13,
            Refusal::NotRetired => 14,
            Refusal::MissingCpu => 15,
            Refusal::StillHeld(_) => 16,
            Refusal::Waiting(_) => 17,
            Refusal::TooDeep => 18,
            Refusal::NeedsDriver => 19,
        }
    }
}
