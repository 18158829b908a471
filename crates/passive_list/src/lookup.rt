//! Lookups in a section: a search along the list, loads alone. No shared word is written, and nobody waits.

ghost use Rattle.std.specs.Prelude.{◌≡◌, ◌≢◌, ◌<◌, None, IfSome};
ghost use Rattle.cpu_words.specs.Common.{AreWordsOf, IsShownCpu, MaySeek, key_with};
ghost use Rattle.passive_list.specs.Cpus.{IsKept};
ghost use Rattle.passive_list.specs.Remembering.{FindsWhatIsKept};
ghost use Rattle.passive_list.specs.Lookups.{HasFound, SearchesOnce, GoesOnByLoads, MayVisit, HasVisited, HasLookedUp, entry_seen};

use crate::cpu::Cpu;
use crate::place::Found;
use crate::plain_cpu::PlainCpu;
use cpu_words::{CpuSeat, Domain, Words, steps};
use registry_values::{Entry, Key, Kind, MOST_CHANGES, MOST_SLOTS, Name, Record, are_words_of};

/// Above every number that an entry can have.
const ABOVE_ALL: u64 = MOST_CHANGES + 1;

/// Looks an entry up by its kind and name, and keeps the result as the last found entry: `None` clears it. A found entry keeps its slot
/// until this section ends. It takes no memory.
/// Condition: inside.
///
/// - The result is the registry's at some point from what this CPU had seen at the call to what it has seen at the return.
/// - It isn't `None` because of a replacement: a name that had an entry has one, unless an entry with that name was detached meanwhile.
/// - It is one search, of loads alone: one, and five for each entry visited. It visits no more entries than there are slots. The last load
///   replies the result.
#[inline(always)]
pub fn find<D: Domain>(words: &Words, cpu: &mut Cpu<D>, kind: Kind, name: &Name) -> Option<Entry>
    requires words { AreWordsOf words.now D.table D.settings }
    requires inside { cpu.old.view.begin ≢ None }
    ensures found { HasFound (key_with kind name.now) cpu.old cpu.new result }
    ensures kept { FindsWhatIsKept (key_with kind name.now) cpu.old.view.pass cpu.new.view.pass result }
{
    find_on(words, &mut cpu.plain, kind, name)
}

/// `find` on a CPU that names its own table. Conditions: the words are its table's; inside.
#[inline(always)]
pub fn find_on(words: &Words, cpu: &mut PlainCpu, kind: Kind, name: &Name) -> Option<Entry>
    requires words { AreWordsOf words.now cpu.old.words.table cpu.old.words.settings }
    requires inside { cpu.old.cpu.view.begin ≢ None }
    ensures found { HasFound (key_with kind name.now) cpu.old.cpu cpu.new.cpu result }
    ensures kept { FindsWhatIsKept (key_with kind name.now) cpu.old.cpu.view.pass cpu.new.cpu.view.pass result }
    ensures words { cpu.new.words ≡ cpu.old.words }
{
    let name = *name;
    let seen = find_seen(words, cpu, kind, name);
    entry_of(seen, kind, name)
}

/// `find_on`, which returns the words of the entry. Conditions: the words are the CPU's table's; inside.
#[inline(always)]
pub fn find_seen(words: &Words, cpu: &mut PlainCpu, kind: Kind, name: Name) -> Option<Seen>
    requires words { AreWordsOf words.now cpu.old.words.table cpu.old.words.settings }
    requires inside { cpu.old.cpu.view.begin ≢ None }
    ensures found { HasFound (key_with kind name) cpu.old.cpu cpu.new.cpu (entry_seen (key_with kind name) result) }
    ensures slot { IfSome result (λ seen. (seen.slot < MOST_SLOTS) × (seen.slot < cpu.old.words.settings.slots)) }
    ensures words { cpu.new.words ≡ cpu.old.words }
{
    let seen = look_up(words, &mut cpu.seat, cpu.row.cpu, kind, name);
    keep(&mut cpu.found, seen, kind, name);
    seen
}

/// The words of an entry that a search found.
#[derive(Clone, Copy)]
pub struct Seen {
    /// The entry's number, from 1.
    pub number: u64,
    /// Its slot, from 0; as wide as the link that led there.
    pub slot: u64,
    /// The value that its owner gave; the registry doesn't look at it.
    pub value: u64,
}

/// Keeps what a search found as the last found entry.
pub(crate) fn keep(found: &mut Found, seen: Option<Seen>, kind: Kind, name: Name)
    requires slot { IfSome seen (λ s. s.slot < MOST_SLOTS) }
    ensures { IsKept found.new (entry_seen (key_with kind name) seen) }
{
    // The contract alone speaks of the name.
    let _name = name;
    let Some(seen) = seen else {
        found.number = 0;
        return;
    };
    found.number = seen.number;
    found.slot = seen.slot as u8;
    found.kind = kind;
}

/// The entry of these words. It is put together here, once: it has bytes between its fields, and handing it on from call to call takes longer
/// than a search.
#[inline(always)]
pub fn entry_of(seen: Option<Seen>, kind: Kind, name: Name) -> Option<Entry>
    requires slot { IfSome seen (λ s. s.slot < MOST_SLOTS) }
    ensures { result ≡ entry_seen (key_with kind name) seen }
{
    let seen = seen?;
    let rec = Record {
        kind,
        name,
        value: seen.value,
    };
    Some(Entry {
        number: seen.number,
        slot: seen.slot as u8,
        rec,
    })
}

/// The whole search, by the CPU's seat.
pub fn look_up(words: &Words, seat: &mut CpuSeat, cpu: u8, kind: Kind, name: Name) -> Option<Seen>
    requires table { seat.old.table ≡ words.now.table }
    requires cpu { (cpu < words.now.settings.cpus) × (seat.old.view.id ≡ cpu) }
    requires settings { seat.old.view.settings ≡ words.now.settings }
    requires may { MaySeek seat.old.view }
    ensures table { seat.new.table ≡ seat.old.table }
    ensures change { HasLookedUp (key_with kind name) seat.old.view seat.new.view (entry_seen (key_with kind name) result) }
    ensures is_shown { IsShownCpu seat.new.view }
    ensures known_log { seat.new.known_log ≡ seat.old.known_log }
    ensures log { SearchesOnce cpu seat.old.view.settings.slots (key_with kind name) (entry_seen (key_with kind name) result) seat.old.log seat.new.log }
{
    let mut last = ABOVE_ALL;
    let mut link = steps::seek(words, seat, cpu, kind, name);
    while link != 0 {
        let slot = (link - 1) as usize;
        let (number, is_sought) = visit(words, seat, cpu, slot, kind, name);
        if is_sought {
            let value = steps::load_searched(words, seat, cpu, slot, 4);
            return Some(Seen {
                number,
                slot: link - 1,
                value,
            });
        }
        last = number;
        link = steps::load_link(words, seat, cpu, link);
    }
    None
}

/// Loads the number, the kind and the name of a slot. Returns the number, and whether kind and name are those sought.
fn visit(
    words: &Words,
    seat: &mut CpuSeat,
    cpu: u8,
    slot: usize,
    kind: Kind,
    name: Name,
) -> (u64, bool)
    requires table { seat.old.table ≡ words.now.table }
    requires cpu { (cpu < words.now.settings.cpus) × (seat.old.view.id ≡ cpu) }
    requires slot { (slot < MOST_SLOTS) × (slot < words.now.settings.slots) }
    requires may { MayVisit seat.old.view (key_with kind name) slot }
    ensures table { seat.new.table ≡ seat.old.table }
    ensures change { HasVisited seat.old.view (key_with kind name) slot result.0 result.1 seat.new.view }
    ensures known_log { seat.new.known_log ≡ seat.old.known_log }
    ensures log { GoesOnByLoads cpu 4 seat.old.log seat.new.log }
{
    let number = steps::load_searched(words, seat, cpu, slot, 0);
    let found = steps::load_searched(words, seat, cpu, slot, 1);
    let high = steps::load_searched(words, seat, cpu, slot, 2);
    let low = steps::load_searched(words, seat, cpu, slot, 3);
    (number, are_words_of(Key { kind, name }, found, high, low))
}
