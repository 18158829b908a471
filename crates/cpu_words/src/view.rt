//! What the seats know. Contracts alone speak of these types: no value of them is ever made, so their lists take no memory and their
//! counts have no last value.

use protocol::{Due, Event, RecordWords, Reply, Search};
use registry_values::{Change, Entry, Mark, Settings, Slot};
use std::collections::LinkedList;

/// What is in a CPU's hand, by entry. The ids that the core gives its references are in no view.
pub enum InHand {
    Empty,
    /// Counted up, and not given its seat yet.
    Taking(Entry),
    /// Its seat was taken in, and it isn't counted down yet.
    Giving(Entry),
    /// The count word was found collected, so the reference gets its seat again.
    Back(Entry),
    /// The CPU's passive word of this entry's slot was counted up, and it's no reference yet: the entry need not have its slot any more.
    Trying(Entry),
}

/// A look of the keeper at a CPU's word, and what it found.
pub struct Looked {
    /// The look: at which CPU, and for a slot or for none.
    pub event: Event,
    /// The word that was loaded.
    pub reply: Reply,
}

/// Who told a note: a CPU, and how far it had come.
pub struct Teller {
    /// The CPU's number, from 0.
    pub cpu: u64,
    /// How many events it had made, this telling among them.
    pub events: u64,
}

/// An item of a seat's log: an event that it made, and what that replied. The ids that the core gives its references are 0 here.
pub struct LogItem {
    /// The event of the protocol that the step made.
    pub event: Event,
    /// What the step answered.
    pub reply: Reply,
    /// Where the seat heard a CPU's note: who told it. None where it heard the keeper's, and of any other event.
    pub teller: Option<Teller>,
}

/// A seat's view, and beside it all that the seat did, in order, and what it knows of the keeper's log.
pub struct Logged {
    /// What the seat knows now.
    pub view: View,
    /// What it did, the first item first.
    pub log: LinkedList<LogItem>,
    /// What it has heard of the keeper's log: a prefix of it.
    pub known_log: LinkedList<LogItem>,
    /// What the note that was laid beside the view last knows of the keeper's log.
    pub noted_log: LinkedList<LogItem>,
    /// Of a note, the CPU that told it; of another seat, the CPU that told the note that was laid beside the view last. None where the keeper
    /// told it.
    pub teller: Option<Teller>,
    /// The list of all events, as the seat's last step on a word left it: each item with the place among the seats of the one that made it.
    pub list: LinkedList<(u64, LogItem)>,
    /// The seats that this one took over as they ended.
    pub ends: LinkedList<EndedSeat>,
    /// Whether the seat has ended: another has taken it over, and nobody steps with it any more.
    pub ended: bool,
}

/// A seat as it ended, for whoever took it over.
pub struct EndedSeat {
    /// What it knew.
    pub view: View,
    /// All that it did.
    pub log: LinkedList<LogItem>,
    /// What it had heard of the keeper's log.
    pub known_log: LinkedList<LogItem>,
}

/// What the keeper's seat knows: all that only the keeper writes, and what it has counted itself.
pub struct KeeperView {
    /// The settings of the table.
    pub settings: Settings,
    /// How many CPUs have got their seats: 0, 1, .. in this order.
    pub seated: u64,
    /// All attaches and detaches so far, the first one first.
    pub history: LinkedList<Change>,
    /// The state of each slot.
    pub slots: LinkedList<Slot>,
    /// By slot, and there by CPU: what the keeper has noted of the CPU for the slot's retired entry.
    pub marks: LinkedList<LinkedList<Mark>>,
    /// By slot: the number of the driver that the slot keeps a local reference to.
    pub keeps: LinkedList<Option<u64>>,
    /// What the keeper must do next, where a work of several steps is half done.
    pub due: Due,
    /// The word at the head of the list: 1 more than the slot of the newest live entry, or 0.
    pub head: u64,
    /// By slot: the word that links it to the next live entry, in the same form.
    pub next: LinkedList<u64>,
    /// By slot: the five words of its record.
    pub rows: LinkedList<RecordWords>,
    /// By slot: its total, over the bias.
    pub totals: LinkedList<u64>,
    /// By slot: its live word, the number of the slot's live entry or 0.
    pub lives: LinkedList<u64>,
    /// The count words of vacant slots, as the keeper stored them; of an occupied slot this says nothing.
    pub counts: LinkedList<LinkedList<u64>>,
    /// By number: the local references given up under the interlock; one that is taken in counts before it is subtracted.
    pub given_up: LinkedList<u64>,
    /// How many looks it has made: loads of a CPU's section or passive word, except the snapshots of an unlinking.
    pub looks: u64,
    /// The last of them.
    pub last_look: Option<Looked>,
    /// The pass of the note that was laid here last.
    pub noted_pass: LinkedList<Change>,
}

/// What a CPU's seat knows: its words and its pass, and what it holds.
pub struct CpuView {
    /// The settings of the table.
    pub settings: Settings,
    /// The CPU's number, from 0.
    pub id: u64,
    /// Its section word: even outside a section, odd inside.
    pub section: u64,
    /// The length of the history when its open section began; none outside.
    pub begin: Option<u64>,
    /// The prefix of the one history that this CPU has seen.
    pub pass: LinkedList<Change>,
    /// The lookup that it is in the middle of.
    pub search: Option<Search>,
    /// The entry that its last lookup in the open section found.
    pub found: Option<Entry>,
    /// The local reference that it is acquiring or releasing.
    pub hand: InHand,
    /// Its passive references: one entry for each.
    pub references: LinkedList<Entry>,
    /// By number: the local references that this CPU acquired, and those that it released by its own count.
    pub acquired: LinkedList<u64>,
    pub released: LinkedList<u64>,
    /// By slot: the number of the entry there that this CPU last counted a reference to, up or down; 0 for none.
    pub met: LinkedList<u64>,
    /// The pass of the note that was laid here last.
    pub noted_pass: LinkedList<Change>,
}

/// What a local reference's seat knows: its entry, and the CPU whose count word a release of it found collected.
pub struct ReferenceView {
    /// The entry that it is to.
    pub entry: Entry,
    /// The CPU whose count word a release found collected, if one did.
    pub collected: Option<u64>,
}

/// What the owner of a seat knows, by the kind of seat.
pub enum View {
    Keeper(KeeperView),
    Cpu(CpuView),
    Reference(ReferenceView),
    /// A prefix of the history.
    Note(LinkedList<Change>),
    /// Of a seat that was joined into another.
    Spent,
}
