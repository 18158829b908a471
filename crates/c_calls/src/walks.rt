//! The walk over all entries, through a CPU's handle, into C's row.

ghost use Rattle.std.specs.Prelude.{◌≡◌, ◌≢◌, List, None, length};
ghost use Rattle.c_calls.specs.Types.{Entry};
ghost use Rattle.cpu_words.specs.Common.{AreWordsOf};
ghost use Rattle.passive_list.specs.Common.{HasWalked};
ghost use Rattle.c_handles.specs.values.Places.{put};
ghost use Rattle.c_calls.specs.Calls.{Through, Walks, WalksBy, WritesRow};
ghost use Rattle.c_handles.specs.Heap.{IsLong};
ghost use Rattle.c_handles.specs.values.Texts.{entry_out};

use c_handles::CpuBody;
use c_handles::handle::CpuHandle;
use c_handles::heap::CHandle;
use c_handles::values::answer::WalkAnswer;
use c_handles::values::place::NumberPlace;
use c_handles::values::plain::{CEntry, CName, DONE, EMPTY_HANDLE, NO_ROOM, NULL, OUTSIDE};
use c_handles::values::rows::EntriesPlace;
use cpu_words::Words;
use passive_list::{PlainCpu, WritesEntry, walk_on};
use protocol::RecordWords;

/// `kupaldiz_walk` of the header.
pub fn walk_entries(
    cpu: &mut CpuHandle,
    mut row: EntriesPlace,
    room: usize,
    mut count: NumberPlace,
) -> WalkAnswer
    requires room { IsLong row.value room }
    ensures places { (result.row.at ≡ row.at) × (result.place.at ≡ count.at) }
    ensures call { Through cpu.old.body cpu.new.body result.number ((result.row.value ≡ row.value) × (result.place.value ≡ count.value))
        (λ a b. WalksBy a b result.number room row.value result.row.value count.value result.place.value) }
{
    let Some(body) = cpu.body_mut() else {
        return count.answer(EMPTY_HANDLE).with_row(row);
    };
    let answer = walk_into(body, &mut row, room, &mut count);
    count.answer(answer).with_row(row)
}

/// Walks over all entries, into the row, if there is one or needn't be.
fn walk_into(cpu: &mut CpuBody, row: &mut EntriesPlace, room: usize, count: &mut NumberPlace) -> u32
    requires room { IsLong row.old.value room }
    ensures places { (row.new.at ≡ row.old.at) × (count.new.at ≡ count.old.at) }
    ensures call { WalksBy cpu.old cpu.new result room row.old.value row.new.value count.old.value count.new.value }
{
    if !row.is_null() {
        return walk(cpu, row.row_mut(room), count);
    }
    if room != 0 {
        return NULL;
    }
    walk(cpu, &mut [], count)
}

/// Walks over all entries, and writes them where the row has room.
fn walk(cpu: &mut CpuBody, row: &mut [CEntry], count: &mut NumberPlace) -> u32
    ensures place { count.new.at ≡ count.old.at }
    ensures call { Walks cpu.old cpu.new result row.old row.new count.old.value count.new.value }
{
    if !cpu.cpu.inside() {
        return OUTSIDE;
    }
    walk_inside(&cpu.words, &mut cpu.cpu, row, count)
}

/// The same inside a section.
fn walk_inside(
    words: &Words,
    cpu: &mut PlainCpu,
    row: &mut [CEntry],
    count: &mut NumberPlace,
) -> u32
    requires words { AreWordsOf words.now cpu.old.words.table cpu.old.words.settings }
    requires inside { cpu.old.cpu.view.begin ≢ None }
    ensures place { count.new.at ≡ count.old.at }
    ensures words { cpu.new.words ≡ cpu.old.words }
    ensures met { (met : List Entry) × HasWalked cpu.old.cpu cpu.new.cpu met × (count.new.value ≡ put count.old.value (length met)) × WritesRow met result row.old row.new }
{
    let met = walk_on::<ToC>(words, cpu, row);
    count.put(met as u64);
    if row.len() < met { NO_ROOM } else { DONE }
}

/// Writes each entry as C has it.
struct ToC;

impl WritesEntry for ToC {
    type Place = CEntry;

    ghost written = { entry_out };

    #[inline(always)]
    fn write(place: &mut CEntry, slot: u64, entry: RecordWords) {
        let name = CName {
            high: entry.high,
            low: entry.low,
        };
        *place = CEntry {
            number: entry.number,
            slot,
            kind: entry.kind,
            name,
            value: entry.value,
        };
    }
}
