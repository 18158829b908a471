//! A walk over all entries in a section: loads alone. No shared word is written, and nobody waits.
//!
//! It is one search for a name that no entry has, so it goes by each entry on the list. The search loads the words that it compares: the
//! number, the kind and the name. The walk loads the value beside them.

ghost use Rattle.std.specs.Prelude.{◌≡◌, ◌≢◌, ◌<◌, ◌≤◌, List, None, take, drop, set, length};
ghost use Rattle.passive_list.specs.Types.{Entry, Kind};
ghost use Rattle.registry_values.specs.Common.{kind_word};
ghost use Rattle.protocol.specs.Common.{words_of};
ghost use Rattle.cpu_words.specs.Common.{AreWordsOf, IsShownCpu, MaySeek};
ghost use Rattle.passive_list.specs.Lookups.{IsWalkLoad, GoesOnBySoMany, HasGoneOverBy};
ghost use Rattle.passive_list.specs.Walks.{MayGoBy, HasGoneByOne, HasGoneOver, HasWalked, IsWritten};

use crate::cpu::Cpu;
use crate::plain_cpu::PlainCpu;
use cpu_words::{CpuSeat, Domain, Words, steps};
use protocol::RecordWords;
use registry_values::{Entry, Kind, MOST_SLOTS, Name};

/// How a walk writes an entry into a place of its row: by its slot, and by the words that it loads
/// there.
pub trait WritesEntry {
    /// What a place has.
    type Place;

    /// What is written for an entry.
    ghost written: { Entry → Self.Place };

    fn write(place: &mut Self::Place, slot: u64, entry: RecordWords)
        requires slot { slot < MOST_SLOTS }
        ensures { (e : Entry) → e.slot ≡ slot → entry ≡ words_of e → place.new ≡ written e };
}

/// Writes each entry as it is.
struct AsItIs;

impl WritesEntry for AsItIs {
    type Place = Entry;

    ghost written = { λ e. e };

    /// Field by field. An entry that is copied whole takes the bytes between its fields along, which takes longer than to load it.
    #[inline(always)]
    fn write(place: &mut Entry, slot: u64, entry: RecordWords) {
        place.number = entry.number;
        place.slot = slot as u8;
        place.rec.kind = kind_of(entry.kind);
        place.rec.name = Name::of_words(entry.high, entry.low);
        place.rec.value = entry.value;
    }
}

/// Walks over all entries: writes the live ones into the row, the newest first, and returns how many there are. The rest of the row stays.
/// The last found entry is cleared. It takes no memory.
/// Conditions: inside; the row has as many places as the registry has slots.
///
/// 1. Each entry that is live from the start to the end is in the row, once. A name that has an entry all the while, though that be replaced, is
///    there once (`places` of `HasWalked`, and `newest_first`).
/// 2. Each entry in the row was live at some point from what this CPU had seen at the call to what it has seen at the return.
/// 3. Each of them keeps its slot until this section ends.
///
/// With n entries in the row there are 6 n + 1 loads (`log` of `HasWalked`).
#[tactic(auto, using(crate::proofs::GoingOver::all_written, crate::proofs::GoingOver::walked_by, crate::proofs::Sharing::shared, crate::proofs::Sharing::sharing))]
pub fn walk<D: Domain>(words: &Words, cpu: &mut Cpu<D>, row: &mut [Entry]) -> usize
    requires words { AreWordsOf words.now D.table D.settings }
    requires inside { cpu.old.view.begin ≢ None }
    requires room { D.settings.slots ≤ length row.old }
    ensures count { result ≤ D.settings.slots }
    ensures walked { HasWalked cpu.old cpu.new (take result row.new) }
    ensures rest { drop result row.new ≡ drop result row.old }
{
    walk_on::<AsItIs>(words, &mut cpu.plain, row)
}

/// `walk` on a CPU that names its own table, into a row of any length: what it has no place for isn't written. Returns how many entries there are,
/// with those. Conditions: the words are its table's; inside.
pub fn walk_on<W: WritesEntry>(words: &Words, cpu: &mut PlainCpu, row: &mut [W::Place]) -> usize
    requires words { AreWordsOf words.now cpu.old.words.table cpu.old.words.settings }
    requires inside { cpu.old.cpu.view.begin ≢ None }
    ensures count { result ≤ cpu.old.words.settings.slots }
    ensures walked { (met : List Entry) × (result ≡ length met) × HasWalked cpu.old.cpu cpu.new.cpu met × IsWritten W.written met row.old row.new }
    ensures words { cpu.new.words ≡ cpu.old.words }
{
    let count = go_over::<W>(words, &mut cpu.seat, cpu.row.cpu, row);
    cpu.found.number = 0;
    count
}

/// The whole walk, by the CPU's seat. Its search finds nothing, so the last found entry is cleared.
fn go_over<W: WritesEntry>(
    words: &Words,
    seat: &mut CpuSeat,
    cpu: u8,
    row: &mut [W::Place],
) -> usize
    requires table { seat.old.table ≡ words.now.table }
    requires cpu { (cpu < words.now.settings.cpus) × (seat.old.view.id ≡ cpu) }
    requires settings { seat.old.view.settings ≡ words.now.settings }
    requires may { MaySeek seat.old.view }
    ensures table { seat.new.table ≡ seat.old.table }
    ensures change { (met : List Entry) × (result ≡ length met) × HasGoneOver seat.old.view seat.new.view met × IsWritten W.written met row.old row.new }
    ensures is_shown { IsShownCpu seat.new.view }
    ensures known_log { seat.new.known_log ≡ seat.old.known_log }
    ensures log { HasGoneOverBy cpu seat.old.view.settings.slots result seat.old.log seat.new.log }
{
    let mut count = 0;
    let mut link = steps::seek(words, seat, cpu, Kind::Iface, Name::of_words(0, 0));
    while link != 0 {
        let slot = (link - 1) as usize;
        let entry = go_by(words, seat, cpu, slot);
        write_at::<W>(row, count, link - 1, entry);
        count += 1;
        link = steps::load_link(words, seat, cpu, link);
    }
    count
}

/// Writes the entry of that slot, which has these words, into its place, if the row goes so far.
#[inline(always)]
fn write_at<W: WritesEntry>(row: &mut [W::Place], place: usize, slot: u64, entry: RecordWords)
    requires slot { slot < MOST_SLOTS }
    ensures { (e : Entry) → e.slot ≡ slot → entry ≡ words_of e → row.new ≡ set row.old place (W.written e) }
{
    if place < row.len() {
        W::write(&mut row[place], slot, entry);
    }
}

/// Loads all words of the entry in a slot, and hands them on as they are.
#[tactic(auto, using(crate::proofs::Walking::may_load, crate::proofs::Walking::four_loaded, crate::proofs::Walking::five_loaded))]
fn go_by(words: &Words, seat: &mut CpuSeat, cpu: u8, slot: usize) -> RecordWords
    requires table { seat.old.table ≡ words.now.table }
    requires cpu { (cpu < words.now.settings.cpus) × (seat.old.view.id ≡ cpu) }
    requires slot { (slot < MOST_SLOTS) × (slot < words.now.settings.slots) }
    requires may { MayGoBy seat.old.view slot }
    ensures table { seat.new.table ≡ seat.old.table }
    ensures change { (e : Entry) × (e.slot ≡ slot) × (result ≡ words_of e) × HasGoneByOne seat.old.view slot e seat.new.view }
    ensures known_log { seat.new.known_log ≡ seat.old.known_log }
    ensures log { GoesOnBySoMany (IsWalkLoad cpu) 5 seat.old.log seat.new.log }
{
    let number = steps::load_searched(words, seat, cpu, slot, 0);
    let kind = steps::load_searched(words, seat, cpu, slot, 1);
    let high = steps::load_searched(words, seat, cpu, slot, 2);
    let low = steps::load_searched(words, seat, cpu, slot, 3);
    let value = steps::load_compared(words, seat, cpu, slot);
    RecordWords {
        number,
        kind,
        high,
        low,
        value,
    }
}

/// The kind whose word this is.
pub(crate) fn kind_of(word: u64) -> Kind
    ensures { (kind : Kind) → word ≡ kind_word kind → result ≡ kind }
{
    if word == 1 { Kind::Iface } else { Kind::Driver }
}
