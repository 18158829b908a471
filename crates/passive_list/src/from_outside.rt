//! Lookups from outside, each in a section of its own.

ghost use Rattle.std.specs.Prelude.{◌≡◌, ◌<◌, ◌+◌, ◌^◌, IfSome, IsTrue};
ghost use Rattle.passive_list.specs.Types.{Exit, Done, Cpu};
ghost use Rattle.cpu_words.specs.Common.{AreWordsOf, IsRowOf, key_with, SeatMakes, MayExit, HasExited};
ghost use Rattle.passive_list.specs.Lookups.{HasFoundFromOutside, entry_seen};
ghost use Rattle.passive_list.specs.Cpus.{may_begin};

use crate::lookup::{Seen, look_up};
use crate::plain_cpu::PlainCpu;
use cpu_words::{CpuSeat, Row, Words, steps};
use registry_values::{Kind, MOST_SLOTS, Name};

/// Looks an entry up in a read section of its own (pserialize(9)), and returns its words, or `None` if none was found: an enter, a find and
/// an exit in one. It doesn't write the depth and the last found entry, which a CPU keeps for calls in a section. Each result has an exit
/// of its own: one for both would carry more words past it.
/// Conditions: the words are the CPU's table's; it is outside, and has a section left (`may_begin_on`).
#[inline(always)]
pub fn find_from_outside(words: &Words, cpu: &mut PlainCpu, kind: Kind, name: Name) -> Option<Seen>
    requires words { AreWordsOf words.now cpu.old.words.table cpu.old.words.settings }
    requires outside { cpu.old.cpu.depth ≡ 0 }
    requires room { IsTrue (may_begin cpu.old.cpu.view) }
    ensures found { HasFoundFromOutside (key_with kind name) cpu.old.cpu cpu.new.cpu (entry_seen (key_with kind name) result) }
    ensures slot { IfSome result (λ seen. (seen.slot < MOST_SLOTS) × (seen.slot < cpu.old.words.settings.slots)) }
    ensures words { cpu.new.words ≡ cpu.old.words }
{
    steps::enter(words, &mut cpu.seat, cpu.row);
    let Some(seen) = look_up(words, &mut cpu.seat, cpu.row.cpu, kind, name) else {
        exit_counted(words, &mut cpu.seat, cpu.row, &mut cpu.ended);
        return None;
    };
    exit_counted(words, &mut cpu.seat, cpu.row, &mut cpu.ended);
    Some(seen)
}

/// Ends the section by the CPU's seat, and counts it as ended.
fn exit_counted(words: &Words, seat: &mut CpuSeat, row: Row, ended: &mut u64)
    requires table { seat.old.table ≡ words.now.table }
    requires cpu { (row.cpu < words.now.settings.cpus) × (seat.old.view.id ≡ row.cpu) }
    requires row { IsRowOf words.now.settings.slots row }
    requires may { MayExit seat.old.view }
    requires room { ended.old < 2 ^ 63 }
    ensures step { SeatMakes Cpu (Exit row.cpu) Done seat.old seat.new }
    ensures change { HasExited seat.old.view seat.new.view }
    ensures count { ended.new ≡ ended.old + 1 }
{
    steps::exit(words, seat, row);
    *ended += 1;
}
