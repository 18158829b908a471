//! The events: one atomic step each, by a CPU or by the keeper, the writer behind the interlock.

use registry_values::{Entry, Kind, Name};
use thiserror::Error;

/// Whose record a load reads.
#[derive(Clone, Copy, Debug, PartialEq, Eq)]
pub enum RecordOf {
    /// By the search of this CPU: the record of the slot that it is at.
    Search(u8),
    /// By this CPU's passive reference to this number: word k, from 0 to 4.
    Passive(u8, u64, u8),
    /// By the local reference with this id: word k, from 0 to 4.
    Local(u64, u8),
    /// By the search of this CPU: the value of the entry that it has compared and found not to be the one sought. The search stays there.
    Compared(u8),
}

/// One atomic step. CPUs and slots count from 0, entries' numbers from 1, local references' ids from 0.
#[derive(Clone, Copy, Debug, PartialEq, Eq)]
pub enum Event {
    /// The CPU gets its seat.
    Seat(u8),
    /// The CPU begins a section.
    Enter(u8),
    /// The CPU ends its section.
    Exit(u8),
    /// The CPU begins a search for a kind and a name.
    Seek(u8, Kind, Name),
    /// The search of the CPU loads a link.
    LoadLink(u8),
    /// A word of a record is loaded.
    LoadRecord(RecordOf),
    /// Word k of a vacant slot is stored: 0 to 4 of its record, 5 + c the count word of CPU c. The slot, k, the value.
    StoreSlot(u8, u8, u64),
    /// The link of a vacant slot is stored. The slot; 0 for the end of the list, else a slot plus 1.
    StoreNext(u8, u64),
    /// The slot's entry is linked at the head of the list.
    Publish(u8),
    /// The slot's entry is unlinked.
    Unpublish(u8),
    /// The slot's entry is linked in the place of another slot's live one, which is unlinked by the same store. The new one's slot, the old one's.
    Republish(u8, u8),
    /// A note of the CPU's pass, or of the keeper's history, is split off.
    Tell(Option<u8>),
    /// A note is joined into the CPU's seat, or into the keeper's.
    Hear(Option<u8>),
    /// A CPU's section word is loaded, as the snapshot for a slot just unlinked or for none. The slot, the CPU.
    Snapshot(Option<u8>, u8),
    /// A CPU's section word is loaded, to see whether the CPU has passed for the slot, or for none. The slot, the CPU.
    Look(Option<u8>, u8),
    /// The CPU counts a passive reference to the entry with this number.
    PassiveAdd(u8, u64),
    /// The CPU counts one passive reference to that number less.
    PassiveSub(u8, u64),
    /// The slot's passive word of a CPU is loaded. The slot, the CPU.
    PassiveLook(u8, u8),
    /// The CPU counts a local reference to its last found entry.
    CountAdd(u8),
    /// The reference that the CPU has just counted gets a seat of its own.
    SplitRef(u8),
    /// The local reference with this id is joined into the CPU's hand.
    JoinRef(u8, u64),
    /// The CPU counts the reference in its hand down, unless its word was collected.
    CountDown(u8),
    /// The reference that the CPU couldn't count down gets its seat again.
    SplitBack(u8),
    /// The slot's count word of the CPU is swapped for 0. The slot, the CPU.
    Collect(u8, u8),
    /// What was collected is added to the slot's total.
    TotalAdd(u8),
    /// The local reference with this id is joined into the keeper's seat.
    JoinKeeper(u64),
    /// The reference that the keeper joined is subtracted from its slot's total.
    TotalSub(u8),
    /// A vacant slot takes the local reference with this id, to a driver, over.
    Keep(u8, u64),
    /// A retired interface gives up its driver's reference, and its slot is vacant.
    KeptSub(u8),
    /// A retired entry's slot is vacant.
    Vacate(u8),
    /// The keeper stores the number of the slot's live entry in the slot's live word: a CPU that remembers the entry takes it as the result of a lookup.
    Show(u8),
    /// The keeper stores 0 in the slot's live word.
    Hide(u8),
    /// The CPU, which has no search under way, loads the slot's live word, inside a section or outside, and sees the whole history: the word is
    /// 0, or the number of the slot's live entry. The CPU, the slot.
    Recall(u8, u8),
    /// The CPU, which has no search under way, loads the head of the list, inside a section or outside, and sees the whole history.
    RecallHead(u8),
    /// The CPU, inside a section and with no search, finds the slot's live entry again by its live word. The CPU, the slot, the number.
    Refind(u8, u8, u64),
    /// The CPU counts its passive word of the slot up, to get a reference to the entry with this number. It has seen that entry's attach. The
    /// CPU, the slot, the number.
    Try(u8, u8, u64),
    /// What the CPU has counted up is a reference: its entry is the slot's live one. The slot's live word is loaded.
    Confirm(u8),
    /// The CPU counts down again what it has counted up.
    TakeBack(u8),
}

/// The reply of an event.
#[derive(Clone, Copy, Debug, PartialEq, Eq)]
pub enum Reply {
    /// Nothing but that it was made.
    Done,
    /// The word that was loaded, or stood there before an addition, a subtraction or a swap.
    Word(u64),
    /// The search is over: this entry has the kind and name.
    Found(Entry),
    /// The search is over: no entry has them.
    Missed,
    /// The id of the local reference whose seat was split.
    Ref(u64),
    /// The CPU's count word was collected, so the reference goes back under the interlock.
    Collected,
}

/// Why an event wasn't made; nothing has changed.
#[derive(Clone, Copy, Debug, PartialEq, Eq, Error)]
pub enum StepFault {
    /// The event's condition fails.
    #[error("the event isn't allowed here")]
    NotAllowed,
    /// A list couldn't grow; only `Publish`, `Unpublish`, `Republish` and `SplitRef` grow one.
    #[error("out of memory")]
    NoMemory,
}

/// How a list of events went.
#[derive(Clone, Copy, Debug, PartialEq, Eq)]
pub struct Counted {
    /// How many events were made.
    pub taken: u64,
    /// How many weren't allowed, and were left out.
    pub refused: u64,
    /// The reply of the last event that was made.
    pub last: Option<Reply>,
}

/// Memory was refused at event `done`, from 0; the events before it were made or left out.
#[derive(Clone, Copy, Debug, PartialEq, Eq)]
pub struct Short {
    /// The place of the event in the list.
    pub done: usize,
}
