//! Reading (psref(9)): the record of an entry that this CPU refers to, by four loads.

ghost use Rattle.std.specs.Prelude.{◌≡◌, ◌<◌, ◌++◌, IfErr};
ghost use Rattle.registry_values.specs.Common.{Answers};
ghost use Rattle.passive_list.specs.Types.{LoadRecord, Passive, Word};
ghost use Rattle.cpu_words.specs.Common.{AreWordsOf, did, IsWordOf};
ghost use Rattle.passive_ref.specs.{IsHeldAt, IsRead, why_unusable};

use crate::holding::usable_slot;
use crate::psref::Psref;
use cpu_words::{Domain, Words, steps};
use passive_list::{Cpu, PlainCpu};
use registry_values::{Record, Refusal, record_from};

/// The record of the entry that the reference is to, which stays while the reference is held (psref(9)). It needs no section, and changes
/// nothing but the CPU's log, which has the four loads.
/// Refused, in this order: `WrongCpu` if the reference names another CPU; `NotHeld` if this CPU holds no passive reference to that number.
pub fn read<D: Domain>(words: &Words, cpu: &mut Cpu<D>, psref: &Psref) -> Result<Record, Refusal>
    requires words { AreWordsOf words.now D.table D.settings }
    ensures answer { Answers (why_unusable cpu.old.view psref.now) (IsRead psref.now.number cpu.old cpu.new) result }
    ensures refused { IfErr result (λ _. cpu.new ≡ cpu.old) }
{
    read_on(words, &mut cpu.plain, psref)
}

/// `read` on a CPU that names its own table. Condition: the words are its table's.
pub fn read_on(words: &Words, cpu: &mut PlainCpu, psref: &Psref) -> Result<Record, Refusal>
    requires words { AreWordsOf words.now cpu.old.words.table cpu.old.words.settings }
    ensures answer { Answers (why_unusable cpu.old.cpu.view psref.now) (IsRead psref.now.number cpu.old.cpu cpu.new.cpu) result }
    ensures refused { IfErr result (λ _. cpu.new ≡ cpu.old) }
    ensures words { cpu.new.words ≡ cpu.old.words }
{
    let slot = usable_slot(cpu, psref)?;
    Ok(load_record(words, cpu, slot, psref.number))
}

/// Loads words 1 to 4 of the record of an entry that this CPU refers to.
fn load_record(words: &Words, cpu: &mut PlainCpu, slot: u8, number: u64) -> Record
    requires words { AreWordsOf words.now cpu.old.words.table cpu.old.words.settings }
    requires held { IsHeldAt cpu.old.cpu.view slot number }
    ensures record { IsRead number cpu.old.cpu cpu.new.cpu result }
    ensures words { cpu.new.words ≡ cpu.old.words }
{
    let kind = load_word(words, cpu, slot, number, 1);
    let high = load_word(words, cpu, slot, number, 2);
    let low = load_word(words, cpu, slot, number, 3);
    let value = load_word(words, cpu, slot, number, 4);
    record_from(kind, high, low, value)
}

/// Loads one word of that record.
#[tactic(auto, using(crate::proofs::Changing::within))]
fn load_word(words: &Words, cpu: &mut PlainCpu, slot: u8, number: u64, k: u8) -> u64
    requires words { AreWordsOf words.now cpu.old.words.table cpu.old.words.settings }
    requires held { IsHeldAt cpu.old.cpu.view slot number }
    requires place { k < 5 }
    ensures word { IsWordOf cpu.old.cpu.view slot number k result }
    ensures log { cpu.new ≡ record cpu.old { cpu = record cpu.old.cpu { log = cpu.old.cpu.log ++ did (LoadRecord (Passive cpu.old.cpu.view.id number k)) (Word result) } } }
{
    steps::load_passive(words, &mut cpu.seat, cpu.row.cpu, slot, number, k)
}
