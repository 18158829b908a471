//! The results of calls, from plain values: where the caller is, what is in the slots, and how far the history and the counts have come.

ghost use Rattle.std.specs.Prelude.{◌≡◌, ◌<◌, nat_lt, IfOk, Ok, Some, None, true, false};
ghost use Rattle.registry_values.specs.Answers.{attach_answer, detach_answer, enter_answer, given_entry, has_room, wait_answer, why_full, why_uncounted, why_unusable};

use crate::entry::{Entry, Record};
use crate::limits::MOST_DEPTH;
use crate::refusal::Refusal;

/// What an attach asks of the history.
#[derive(Clone, Copy, Debug, PartialEq, Eq)]
pub struct Room {
    /// How many changes there were: attaches and detaches.
    pub changes: u64,
    /// How many entries are live.
    pub live: u8,
    /// How many changes the history may have.
    pub limit: u64,
}

/// Whether the history has room for an attach and for the detach of each entry that is live then.
pub fn has_room(room: Room) -> bool
    ensures { result ≡ has_room room }
{
    let wanted = u64::from(room.live) + 2;
    wanted <= room.limit && room.changes <= room.limit - wanted
}

/// The entry that an attach of the record makes: its number is that of the next change, from 1, and its slot is the first-fit one.
/// Refused, in this order: `NameTaken` if a live entry has its kind and name; `NoSlot` if no slot is available; `HistoryFull` if the
/// history has no room for this attach and the detach of each entry that is live then.
pub fn given_entry(
    rec: Record,
    is_taken: bool,
    fit: Option<u8>,
    room: Room,
) -> Result<Entry, Refusal>
    ensures value { result ≡ given_entry is_taken fit room rec }
    ensures slot { IfOk result (λ entry. fit ≡ Some entry.slot) }
{
    if is_taken {
        return Err(Refusal::NameTaken);
    }
    let Some(slot) = fit else {
        return Err(Refusal::NoSlot);
    };
    if !has_room(room) {
        return Err(Refusal::HistoryFull);
    }
    let number = room.changes + 1;
    Ok(Entry { number, slot, rec })
}

/// The result of an attach, from the entry that is given.
/// Refused, in this order: `Inside` if the caller's CPU is inside a section; `NeedsDriver` if the call isn't for such an entry or such a
/// reference; then as `given` is.
pub fn attach_answer(
    inside: bool,
    unfit: bool,
    given: Result<Entry, Refusal>,
) -> Result<Entry, Refusal>
    ensures value { result ≡ attach_answer inside unfit given }
    ensures fit { IfOk result (λ entry. (inside ≡ false) × (unfit ≡ false) × (given ≡ Ok entry)) }
{
    if inside {
        return Err(Refusal::Inside);
    }
    if unfit {
        return Err(Refusal::NeedsDriver);
    }
    given
}

/// The result of a detach, from what a lookup of its kind and name gives now: the entry, or the slot of it.
/// Refused, in this order: `Inside` if the caller's CPU is inside a section; `NotFound` if there is no such live entry.
pub fn detach_answer<T: Drop>(inside: bool, found: Option<T>) -> Result<T, Refusal>
    ensures value { result ≡ detach_answer inside found }
    ensures found { IfOk result (λ given. (inside ≡ false) × (found ≡ Some given)) }
{
    if inside {
        return Err(Refusal::Inside);
    }
    match found {
        Some(given) => Ok(given),
        None => Err(Refusal::NotFound),
    }
}

/// The result of an enter (pserialize(9)), on a CPU whose section has this depth. Refused, in this order: `TooDeep` if the depth is `MOST_DEPTH`;
/// `SectionsSpent` if a section would begin and the CPU may not begin one more.
pub fn enter_answer(depth: u8, outside: bool, may_begin: bool) -> Result<(), Refusal>
    ensures value { result ≡ enter_answer depth outside may_begin }
    ensures may { IfOk result (λ _. (depth < MOST_DEPTH) × (outside ≡ true → may_begin ≡ true)) }
{
    if depth == MOST_DEPTH {
        return Err(Refusal::TooDeep);
    }
    if outside && !may_begin {
        return Err(Refusal::SectionsSpent);
    }
    Ok(())
}

/// The result of a wait (pserialize(9)), from the lowest-numbered CPU that wasn't seen out of its section.
/// Refused: `Waiting`.
pub fn waiting_for(first: Option<u8>) -> Result<(), Refusal>
    ensures value { result ≡ wait_answer first }
    ensures none { IfOk result (λ _. first ≡ None) }
{
    match first {
        Some(cpu) => Err(Refusal::Waiting(cpu)),
        None => Ok(()),
    }
}

/// Why a CPU may not have one more passive reference to an entry than it has (psref(9)): `PassiveFull` at the limit.
pub fn why_full(count: u64, limit: u64) -> Option<Refusal>
    ensures value { result ≡ why_full count limit }
    ensures room { result ≡ None → nat_lt count limit ≡ true }
{
    if count < limit {
        None
    } else {
        Some(Refusal::PassiveFull)
    }
}

/// Why a CPU may not use a passive reference (psref(9)): `WrongCpu` if the reference names another CPU, then `NotHeld` if this CPU holds
/// none to that number.
pub fn why_unusable(is_own: bool, is_held: bool) -> Option<Refusal>
    ensures value { result ≡ why_unusable is_own is_held }
    ensures held { result ≡ None → is_held ≡ true }
{
    if !is_own {
        return Some(Refusal::WrongCpu);
    }
    if !is_held {
        return Some(Refusal::NotHeld);
    }
    None
}

/// Why a CPU may not acquire one more local reference to an entry (localcount(9)), where its own net count for it may be below `most`:
/// `LocalFull` if it isn't.
pub fn why_uncounted(count: u64, most: u64) -> Option<Refusal>
    ensures value { result ≡ why_uncounted count most }
    ensures room { result ≡ None → nat_lt count most ≡ true }
{
    if count < most {
        None
    } else {
        Some(Refusal::LocalFull)
    }
}
