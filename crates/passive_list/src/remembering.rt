//! Lookups by memory, from outside: by one load, where the CPU remembers an entry with this kind and name that is live; by two, where it
//! remembers that none had them, and the newest live entry is the same. Beneath it the recall of an entry that a CPU has seen: by one load, in
//! a section or outside; the length of the list makes no difference, and no word is written.

ghost use Rattle.std.specs.Prelude.{◌≡◌, ◌≢◌, ◌<◌, ◌≤◌, None, ◌↔◌, IfSome, IsTrue, Some, true};
ghost use Rattle.cpu_words.specs.Common.{AreWordsOf, key_with};
ghost use Rattle.passive_list.specs.Remembering.{HasRecalledHeadOn, HasRecalledOn, HasRefoundOn, HasSeen, FindsInside, FindsWhatIsKept, FindsWhatStays, HasFoundAnew, HasFoundByMemory, HasFoundInSection, HasFoundKept, HasRecalledByMemory, Refinds, RefindsSeen, RemembersAnswer, RemembersSo};
ghost use Rattle.passive_list.specs.Memories.{ByWord, HasNumbered, IsOfNoKind, IsMiss, IsSome, IsTrueMiss, Recalls, WasAbsent, miss_of, with_miss};
ghost use Rattle.passive_list.specs.Cpus.{may_begin};
ghost use Rattle.passive_list.specs.Lookups.{entry_seen};

use crate::from_outside::find_from_outside;
use crate::lookup::{Seen, find_seen, keep};
use crate::memory::Miss;
use crate::plain_cpu::PlainCpu;
use crate::walks::kind_of;
use cpu_words::{Words, steps};
use registry_values::{Kind, MOST_SLOTS, Name, kind_word};

/// The slot of the newest live entry plus 1, or 0 where no entry is live: by one load of the head. So it is at that very point of the history,
/// where this CPU's pass is the whole of it.
/// Condition: the words are the CPU's table's.
#[inline(always)]
#[tactic(auto, using(crate::proofs::ByMemory::head_few, crate::proofs::ByMemory::recalled_head_on))]
pub fn recall_head_on(words: &Words, cpu: &mut PlainCpu) -> u64
    requires words { AreWordsOf words.now cpu.old.words.table cpu.old.words.settings }
    ensures recalled { HasRecalledHeadOn cpu.old.cpu cpu.new.cpu result }
    ensures few { (result ≤ MOST_SLOTS) × (result ≤ cpu.old.words.settings.slots) }
    ensures words { cpu.new.words ≡ cpu.old.words }
{
    steps::recall_head(words, &mut cpu.seat, cpu.row.cpu)
}

/// Whether the entry `seen`, which this CPU has seen, is live: by one load of its slot's live word. If so, it is the last found entry, as after
/// `find_on`, and the registry's answer at that very point of the history, where this CPU's pass is the whole of it. Else the load is a
/// recall, and tells nothing.
/// Conditions: the words are the CPU's table's; inside.
#[inline(always)]
pub fn refind_on(words: &Words, cpu: &mut PlainCpu, kind: Kind, name: Name, seen: Seen) -> bool
    requires words { AreWordsOf words.now cpu.old.words.table cpu.old.words.settings }
    requires inside { cpu.old.cpu.view.begin ≢ None }
    requires seen { HasSeen cpu.old (key_with kind name) seen }
    ensures found { HasRefoundOn (key_with kind name) seen cpu.old.cpu cpu.new.cpu result }
    ensures words { cpu.new.words ≡ cpu.old.words }
{
    let live = steps::refind(
        words,
        &mut cpu.seat,
        cpu.row.cpu,
        seen.slot as u8,
        seen.number,
    );
    let found = live == seen.number;
    if found {
        keep(&mut cpu.found, Some(seen), kind, name);
        return true;
    }
    false
}

/// Looks an entry up by memory: by one load, if the CPU remembers an entry with this kind and name, and that is live. The answer is the
/// registry's at the very point of that load. Else it loads the head and the newest live entry's word. There is no such entry at the head's
/// load, if no entry is live, or if the CPU missed this kind and name before, while that entry was the newest one. Else it looks up in a section
/// of its own, and remembers the answer, a miss too.
/// An entry that was attached before the call began, as far as the CPU knows, is found unless it is detached or replaced meanwhile (`stays`).
/// If there was an entry with this kind and name then, an entry is found, unless one with both is detached meanwhile (`kept`).
/// Conditions: the words are the CPU's table's; it is outside, and has a section left (`may_begin_on`).
#[inline(always)]
#[tactic(auto, using(crate::proofs::ByMemory::still_outside))]
pub fn find_by_memory(words: &Words, cpu: &mut PlainCpu, kind: Kind, name: Name) -> Option<Seen>
    requires words { AreWordsOf words.now cpu.old.words.table cpu.old.words.settings }
    requires outside { cpu.old.cpu.depth ≡ 0 }
    requires room { IsTrue (may_begin cpu.old.cpu.view) }
    ensures found { HasFoundByMemory (key_with kind name) cpu.old.cpu cpu.new.cpu result }
    ensures stays { FindsWhatStays (key_with kind name) cpu.old.cpu.view.pass cpu.new.cpu.view.pass (entry_seen (key_with kind name) result) }
    ensures kept { FindsWhatIsKept (key_with kind name) cpu.old.cpu.view.pass cpu.new.cpu.view.pass (entry_seen (key_with kind name) result) }
    ensures slot { IfSome result (λ seen. seen.slot < MOST_SLOTS) }
    ensures words { cpu.new.words ≡ cpu.old.words }
{
    if let Some(seen) = recall_remembered(words, cpu, kind, name) {
        return Some(seen);
    }
    find_anew(words, cpu, kind, name)
}

/// The entry that the CPU remembers with this kind and name, if it is live: by one load. It is the registry's answer at the very point of that
/// load. `None` says nothing: the caller looks up anew (`find_anew`).
/// Condition: the words are the CPU's table's.
#[inline(always)]
pub fn recall_remembered(words: &Words, cpu: &mut PlainCpu, kind: Kind, name: Name) -> Option<Seen>
    requires words { AreWordsOf words.now cpu.old.words.table cpu.old.words.settings }
    ensures found { HasRecalledByMemory (key_with kind name) cpu.old.cpu cpu.new.cpu result }
    ensures slot { IfSome result (λ seen. seen.slot < MOST_SLOTS) }
    ensures words { cpu.new.words ≡ cpu.old.words }
{
    recall_remembered_by(words, cpu, kind_word(kind), name)
}

/// The same by the word of a kind: an entry's row that has the word proves that it is one. If it is
/// the word of no kind, nothing changes.
/// Conditions: the words are the CPU's table's; the word is a kind's, or not both words of the name
/// are 0.
#[inline(always)]
#[tactic(auto, using(crate::proofs::ByMemory::recalls_none))]
pub fn recall_remembered_by(
    words: &Words,
    cpu: &mut PlainCpu,
    word: u64,
    name: Name,
) -> Option<Seen>
    requires words { AreWordsOf words.now cpu.old.words.table cpu.old.words.settings }
    requires some { IsSome word name }
    ensures found { ByWord word result (λ kind seen. HasRecalledByMemory (key_with kind name) cpu.old.cpu cpu.new.cpu seen) }
    ensures no_kind { IsOfNoKind word → cpu.new ≡ cpu.old }
    ensures slot { IfSome result (λ seen. seen.slot < MOST_SLOTS) }
    ensures words { cpu.new.words ≡ cpu.old.words }
{
    let seen = remembered_by(cpu, word, name)?;
    let live = steps::recall(words, &mut cpu.seat, cpu.row.cpu, seen.slot as u8);
    let is_live = live == seen.number;
    if is_live {
        return Some(seen);
    }
    None
}

/// The entry that the CPU remembers with this kind and name.
#[inline(always)]
pub fn remembered(cpu: &PlainCpu, kind: Kind, name: Name) -> Option<Seen>
    ensures recalled { Recalls cpu.now.cpu.memory (key_with kind name) result }
    ensures seen { IfSome result (λ seen. HasSeen cpu.now (key_with kind name) seen) }
{
    remembered_by(cpu, kind_word(kind), name)
}

/// The same by the word of a kind. Condition: it is a kind's, or not both words of the name are 0.
#[inline(always)]
fn remembered_by(cpu: &PlainCpu, word: u64, name: Name) -> Option<Seen>
    requires { IsSome word name }
    ensures { ByWord word result (RemembersSo cpu.now name) }
{
    cpu.memory.remembered(word, name)
}

/// Looks an entry up anew: there is none, if no entry is live, or if the newest live one is that of the last miss. Else in a section.
/// It stands apart, so that a lookup by memory saves no register for it.
/// Conditions: the words are the CPU's table's; it is outside, and has a section left (`may_begin_on`).
#[inline(never)]
pub fn find_anew(words: &Words, cpu: &mut PlainCpu, kind: Kind, name: Name) -> Option<Seen>
    requires words { AreWordsOf words.now cpu.old.words.table cpu.old.words.settings }
    requires outside { cpu.old.cpu.depth ≡ 0 }
    requires room { IsTrue (may_begin cpu.old.cpu.view) }
    ensures found { HasFoundAnew (key_with kind name) cpu.old.cpu cpu.new.cpu result }
    ensures slot { IfSome result (λ seen. seen.slot < MOST_SLOTS) }
    ensures words { cpu.new.words ≡ cpu.old.words }
{
    let miss = last_miss(cpu, kind, name);
    let head = recall_head_on(words, cpu);
    if head == 0 {
        return None;
    }
    let slot = (head - 1) as u8;
    let number = recall_word(words, cpu, slot);
    if miss.is_of(kind, name, number) {
        return None;
    }
    find_in_section(words, cpu, kind, name, number)
}

/// The last miss of this kind and name, if it is kept. Else another one.
fn last_miss(cpu: &PlainCpu, kind: Kind, name: Name) -> Miss
    ensures is { result ≡ miss_of cpu.now.cpu.memory.missed (key_with kind name) }
    ensures so { IsTrueMiss cpu.now.cpu.view.pass result }
{
    cpu.memory.miss_of(kind, name)
}

/// The slot's live word, by one load: the number of the entry there, if that is live at this very point of the history, where this CPU's pass is
/// the whole of it.
/// Conditions: the words are the CPU's table's; the slot is one of the table's.
#[inline(always)]
pub fn recall_word(words: &Words, cpu: &mut PlainCpu, slot: u8) -> u64
    requires words { AreWordsOf words.now cpu.old.words.table cpu.old.words.settings }
    requires slot { (slot < MOST_SLOTS) × (slot < cpu.old.words.settings.slots) }
    ensures recalled { HasRecalledOn slot result cpu.old.cpu cpu.new.cpu true }
    ensures words { cpu.new.words ≡ cpu.old.words }
{
    steps::recall(words, &mut cpu.seat, cpu.row.cpu, slot)
}

/// Looks an entry up in a section, and remembers the answer: a miss by the number of the newest live entry before it, if that isn't 0.
/// It stands apart, so that a miss that is remembered saves no register for it.
#[inline(never)]
fn find_in_section(
    words: &Words,
    cpu: &mut PlainCpu,
    kind: Kind,
    name: Name,
    number: u64,
) -> Option<Seen>
    requires words { AreWordsOf words.now cpu.old.words.table cpu.old.words.settings }
    requires outside { cpu.old.cpu.depth ≡ 0 }
    requires room { IsTrue (may_begin cpu.old.cpu.view) }
    requires newest { number ≢ 0 → HasNumbered cpu.old.cpu.view.pass number }
    ensures found { HasFoundInSection (key_with kind name) number cpu.old.cpu cpu.new.cpu result }
    ensures slot { IfSome result (λ seen. seen.slot < MOST_SLOTS) }
    ensures words { cpu.new.words ≡ cpu.old.words }
{
    let answer = find_from_outside(words, cpu, kind, name);
    remember_on(cpu, kind, name, answer);
    if number != 0 && answer.is_none() {
        miss_on(cpu, kind, name, number);
    }
    answer
}

/// Remembers a miss.
fn miss_on(cpu: &mut PlainCpu, kind: Kind, name: Name, number: u64)
    requires { WasAbsent cpu.old.cpu.view.pass (key_with kind name) number }
    ensures cpu { cpu.new.cpu ≡ record cpu.old.cpu { memory = with_miss cpu.old.cpu.memory (key_with kind name) number } }
    ensures words { cpu.new.words ≡ cpu.old.words }
{
    cpu.memory.miss(kind, name, number);
}

/// Looks an entry up in the open section: by one load, if the CPU remembers an entry with this kind and name, and that is live. Else by a search,
/// and remembers the answer. The result is the last found entry, as `find_on`'s.
/// What was there before the call began is found as `find_by_memory` finds it (`stays`, `kept`).
/// Conditions: the words are the CPU's table's; inside.
#[inline(always)]
pub fn find_inside_on(words: &Words, cpu: &mut PlainCpu, kind: Kind, name: Name) -> Option<Seen>
    requires words { AreWordsOf words.now cpu.old.words.table cpu.old.words.settings }
    requires inside { cpu.old.cpu.view.begin ≢ None }
    ensures found { FindsInside (key_with kind name) cpu.old.cpu cpu.new.cpu result }
    ensures stays { FindsWhatStays (key_with kind name) cpu.old.cpu.view.pass cpu.new.cpu.view.pass (entry_seen (key_with kind name) result) }
    ensures kept { FindsWhatIsKept (key_with kind name) cpu.old.cpu.view.pass cpu.new.cpu.view.pass (entry_seen (key_with kind name) result) }
    ensures slot { IfSome result (λ seen. seen.slot < MOST_SLOTS) }
    ensures words { cpu.new.words ≡ cpu.old.words }
{
    if let Some(seen) = refind_remembered(words, cpu, kind, name) {
        return Some(seen);
    }
    find_and_remember(words, cpu, kind, name)
}

/// The entry that the CPU remembers with this kind and name, if it is live: by one load. It is the last found entry then, as `find_inside_on`
/// finds it. `None` says nothing: the caller searches (`find_and_remember`).
/// Conditions: the words are the CPU's table's; inside.
#[inline(always)]
pub fn refind_remembered(words: &Words, cpu: &mut PlainCpu, kind: Kind, name: Name) -> Option<Seen>
    requires words { AreWordsOf words.now cpu.old.words.table cpu.old.words.settings }
    requires inside { cpu.old.cpu.view.begin ≢ None }
    ensures found { IfSome result (λ seen. FindsInside (key_with kind name) cpu.old.cpu cpu.new.cpu (Some seen)) }
    ensures missed { result ≡ None → HasRecalledByMemory (key_with kind name) cpu.old.cpu cpu.new.cpu None }
    ensures slot { IfSome result (λ seen. seen.slot < MOST_SLOTS) }
    ensures words { cpu.new.words ≡ cpu.old.words }
{
    refind_remembered_by(words, cpu, kind_word(kind), name)
}

/// The same by the word of a kind. If it is the word of no kind, nothing changes.
/// Conditions: the words are the CPU's table's; inside; the word is a kind's, or not both words of
/// the name are 0.
#[inline(always)]
#[tactic(auto, using(crate::proofs::ByMemory::refinds_none))]
pub fn refind_remembered_by(
    words: &Words,
    cpu: &mut PlainCpu,
    word: u64,
    name: Name,
) -> Option<Seen>
    requires words { AreWordsOf words.now cpu.old.words.table cpu.old.words.settings }
    requires inside { cpu.old.cpu.view.begin ≢ None }
    requires some { IsSome word name }
    ensures found { ByWord word result (λ kind seen. Refinds (key_with kind name) cpu.old.cpu cpu.new.cpu seen) }
    ensures no_kind { IsOfNoKind word → cpu.new ≡ cpu.old }
    ensures slot { IfSome result (λ seen. seen.slot < MOST_SLOTS) }
    ensures words { cpu.new.words ≡ cpu.old.words }
{
    let seen = remembered_by(cpu, word, name)?;
    if refind_seen(words, cpu, kind_of(word), name, seen) {
        return Some(seen);
    }
    None
}

/// Whether an entry that the CPU has seen is live: it is the last found one then.
#[inline(always)]
#[tactic(auto, using(crate::proofs::ByMemory::refinds_seen))]
fn refind_seen(words: &Words, cpu: &mut PlainCpu, kind: Kind, name: Name, seen: Seen) -> bool
    requires words { AreWordsOf words.now cpu.old.words.table cpu.old.words.settings }
    requires inside { cpu.old.cpu.view.begin ≢ None }
    requires seen { HasSeen cpu.old (key_with kind name) seen }
    ensures found { RefindsSeen (key_with kind name) seen cpu.old.cpu cpu.new.cpu result }
    ensures words { cpu.new.words ≡ cpu.old.words }
{
    refind_on(words, cpu, kind, name, seen)
}

/// Searches the list in the open section, and remembers the answer. It stands apart, so that a find by memory saves no register for it.
/// Conditions: the words are the CPU's table's; inside.
#[inline(never)]
pub fn find_and_remember(words: &Words, cpu: &mut PlainCpu, kind: Kind, name: Name) -> Option<Seen>
    requires words { AreWordsOf words.now cpu.old.words.table cpu.old.words.settings }
    requires inside { cpu.old.cpu.view.begin ≢ None }
    ensures found { HasFoundKept (key_with kind name) cpu.old.cpu cpu.new.cpu result }
    ensures slot { IfSome result (λ seen. seen.slot < MOST_SLOTS) }
    ensures words { cpu.new.words ≡ cpu.old.words }
{
    let seen = find_seen(words, cpu, kind, name);
    remember_on(cpu, kind, name, seen);
    seen
}

/// Remembers the answer of a lookup: the entry, or that there is none.
fn remember_on(cpu: &mut PlainCpu, kind: Kind, name: Name, answer: Option<Seen>)
    requires { IfSome answer (λ seen. HasSeen cpu.old (key_with kind name) seen) }
    ensures cpu { cpu.new.cpu ≡ record cpu.old.cpu { memory = cpu.new.cpu.memory } }
    ensures remembers { RemembersAnswer (key_with kind name) cpu.old.cpu.memory cpu.new.cpu.memory answer }
    ensures missed { cpu.new.cpu.memory.missed ≡ cpu.old.cpu.memory.missed }
    ensures words { cpu.new.words ≡ cpu.old.words }
{
    match answer {
        Some(seen) => cpu.memory.remember(kind, name, seen),
        None => cpu.memory.forget(kind, name),
    }
}
