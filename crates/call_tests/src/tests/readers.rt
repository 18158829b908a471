//! What a CPU does with the words alone: sections, lookups, and references that a row holds.

ghost use Rattle.std.specs.Prelude.{◌<◌};
ghost use Rattle.cpu_words.specs.Common.{AreWordsOf};

use super::answers::{Answer, Wanted, at, done, record};
use cpu_words::{Domain, Words};
use local_count::{LocalRef, acquire_local};
use passive_list::{
    Cpu, Seen, enter, exit, find, find_by_memory, find_inside_on, may_begin_on, recall_word,
};
use passive_ref::{Psref, acquire, copy, get_by_memory, held, read, release};
use registry_values::{Entry, MOST_SLOTS, Record, Refusal};
use std::process::Abort;

/// A call on the words by a CPU.
#[derive(Clone, Copy)]
pub(crate) enum Reader {
    Enter,
    Exit,
    Find(Wanted),
    /// In its section, it looks up by memory.
    FindInside(Wanted),
    /// From outside, it looks up by memory.
    LookUp(Wanted),
    /// From outside, it gets a passive reference by memory.
    Get(Wanted),
    /// Whether the slot's live entry has this number.
    Recall(u8, u64),
    /// How many sections it has ended.
    Ended,
    /// It acquires a local reference to what it found last.
    Count,
    /// It acquires a passive reference to what it found last.
    Acquire,
    /// Copies the passive reference. Once that is released, or forgotten, the copy takes its place.
    Copy,
    /// What the passive reference names.
    Reference,
    /// It reads this record by the passive reference.
    Read(Wanted),
    /// Whether it holds the passive reference.
    Holds,
    Release,
    Forget,
}

/// The references that a row holds.
pub(crate) struct Held<D: Domain> {
    local: Option<LocalRef<D>>,
    passive: Option<Psref>,
    copied: Option<Psref>,
}

impl<D: Domain> Held<D> {
    pub(crate) fn nothing() -> Held<D> {
        Held {
            local: None,
            passive: None,
            copied: None,
        }
    }

    /// At its end a row holds nothing.
    pub(crate) fn end<R: Abort>(self, rt: &R) {
        let Held {
            local,
            passive,
            copied,
        } = self;
        none(rt, local);
        none(rt, passive);
        none(rt, copied);
    }

    pub(crate) fn take_local<R: Abort>(&mut self, rt: &R) -> LocalRef<D> {
        match self.local.take() {
            Some(reference) => reference,
            None => panic!(rt; "no local reference"),
        }
    }

    pub(crate) fn keep_local<R: Abort>(&mut self, rt: &R, reference: LocalRef<D>) {
        put(rt, &mut self.local, reference);
    }

    /// Holds what a get returned, which is of this record.
    pub(crate) fn keep_got<R: Abort>(
        &mut self,
        rt: &R,
        got: Result<(Entry, Psref), Refusal>,
        rec: Record,
    ) -> Answer {
        match got {
            Ok((entry, psref)) => {
                assert_eq!(rt; (entry.number, entry.rec), (psref.number(), rec));
                put(rt, &mut self.passive, psref);
                Answer::Done
            }
            Err(refusal) => Answer::Refused(refusal),
        }
    }

    /// Hands the passive reference on.
    pub(crate) fn hand_passive<E: Domain, R: Abort>(&mut self, rt: &R, other: &mut Held<E>) {
        put(rt, &mut other.passive, self.take_passive(rt));
    }

    fn passive<R: Abort>(&self, rt: &R) -> &Psref {
        match &self.passive {
            Some(psref) => psref,
            None => panic!(rt; "no passive reference"),
        }
    }

    fn take_passive<R: Abort>(&mut self, rt: &R) -> Psref {
        match self.passive.take() {
            Some(psref) => psref,
            None => panic!(rt; "no passive reference"),
        }
    }

    /// Uses the copy as the reference that is gone.
    fn use_copy<R: Abort>(&mut self, rt: &R) {
        if let Some(psref) = self.copied.take() {
            put(rt, &mut self.passive, psref);
        }
    }
}

/// Puts a reference where none is.
fn put<T, R: Abort>(rt: &R, place: &mut Option<T>, reference: T) {
    none(rt, place.replace(reference));
}

/// No reference is there.
fn none<T, R: Abort>(rt: &R, place: Option<T>) {
    let None = place else {
        panic!(rt; "a reference is held")
    };
}

/// Makes the call; its answer.
pub(crate) fn by_reader<D: Domain, R: Abort>(
    rt: &R,
    words: &Words,
    cpu: &mut Cpu<D>,
    refs: &mut Held<D>,
    call: Reader,
) -> Answer
    requires words { AreWordsOf words.now D.table D.settings }
{
    match call {
        Reader::Enter => done(enter(words, cpu)),
        Reader::Exit => exited(rt, words, cpu),
        Reader::Find(wanted) => found(rt, words, cpu, record(rt, wanted)),
        Reader::FindInside(wanted) => found_inside(rt, words, cpu, record(rt, wanted)),
        Reader::LookUp(wanted) => looked_up(rt, words, cpu, record(rt, wanted)),
        Reader::Get(wanted) => got(rt, words, cpu, refs, record(rt, wanted)),
        Reader::Recall(slot, number) => {
            assert!(rt; usize::from(slot) < MOST_SLOTS && slot < words.settings().slots);
            Answer::Is(recall_word(words, &mut cpu.plain, slot) == number)
        }
        Reader::Ended => Answer::Number(cpu.plain.ended),
        Reader::Count => kept(rt, &mut refs.local, acquire_local(words, cpu)),
        Reader::Acquire => kept(rt, &mut refs.passive, acquire(words, cpu)),
        Reader::Copy => {
            let answer = copy(words, cpu, refs.passive(rt));
            kept(rt, &mut refs.copied, answer)
        }
        Reader::Reference => Answer::Names(refs.passive(rt).cpu(), refs.passive(rt).number()),
        Reader::Read(wanted) => {
            let answer = read(words, cpu, refs.passive(rt));
            same(rt, answer, record(rt, wanted))
        }
        Reader::Holds => Answer::Is(held(cpu, refs.passive(rt))),
        Reader::Release => released(rt, words, cpu, refs),
        Reader::Forget => forgotten(rt, refs),
    }
}

/// The CPU exits its section, or one nesting of it.
pub(crate) fn exited<D: Domain, R: Abort>(rt: &R, words: &Words, cpu: &mut Cpu<D>) -> Answer
    requires words { AreWordsOf words.now D.table D.settings }
{
    assert!(rt; cpu.inside());
    exit(words, cpu);
    Answer::Done
}

/// The CPU looks the record's kind and name up, in its open section.
fn found<D: Domain, R: Abort>(rt: &R, words: &Words, cpu: &mut Cpu<D>, rec: Record) -> Answer
    requires words { AreWordsOf words.now D.table D.settings }
{
    assert!(rt; cpu.inside());
    match find(words, cpu, rec.kind, &rec.name) {
        Some(entry) => at(rt, entry, rec),
        None => Answer::Nothing,
    }
}

/// The same, by memory.
fn found_inside<D: Domain, R: Abort>(rt: &R, words: &Words, cpu: &mut Cpu<D>, rec: Record) -> Answer
    requires words { AreWordsOf words.now D.table D.settings }
{
    assert!(rt; cpu.inside());
    match find_inside_on(words, &mut cpu.plain, rec.kind, rec.name) {
        Some(seen) => at(rt, entry_of(seen, rec), rec),
        None => Answer::Nothing,
    }
}

/// The CPU looks the record's kind and name up by memory, from outside.
fn looked_up<D: Domain, R: Abort>(rt: &R, words: &Words, cpu: &mut Cpu<D>, rec: Record) -> Answer
    requires words { AreWordsOf words.now D.table D.settings }
{
    match look_up(rt, words, cpu, rec) {
        Some(entry) => at(rt, entry, rec),
        None => Answer::Nothing,
    }
}

/// A lookup by memory, of the record's kind and name.
fn look_up<D: Domain, R: Abort>(
    rt: &R,
    words: &Words,
    cpu: &mut Cpu<D>,
    rec: Record,
) -> Option<Entry>
    requires words { AreWordsOf words.now D.table D.settings }
{
    assert!(rt; may_begin_on(words, &cpu.plain));
    match find_by_memory(words, &mut cpu.plain, rec.kind, rec.name) {
        Some(seen) => Some(entry_of(seen, rec)),
        None => None,
    }
}

/// The entry of these words, with the record's kind and name.
fn entry_of(seen: Seen, rec: Record) -> Entry
    requires { seen.slot < MOST_SLOTS }
{
    Entry {
        number: seen.number,
        slot: seen.slot as u8,
        rec: Record {
            kind: rec.kind,
            name: rec.name,
            value: seen.value,
        },
    }
}

/// The CPU gets a passive reference to the entry with the record's kind and name.
fn got<D: Domain, R: Abort>(
    rt: &R,
    words: &Words,
    cpu: &mut Cpu<D>,
    refs: &mut Held<D>,
    rec: Record,
) -> Answer
    requires words { AreWordsOf words.now D.table D.settings }
{
    let answer = get(rt, words, cpu, rec);
    refs.keep_got(rt, answer, rec)
}

/// A get by memory, of the record's kind and name. Between a lookup and the get of what that found, the entry may be detached, and another one attached:
/// a hundred times at most.
fn get<D: Domain, R: Abort>(
    rt: &R,
    words: &Words,
    cpu: &mut Cpu<D>,
    rec: Record,
) -> Result<(Entry, Psref), Refusal>
    requires words { AreWordsOf words.now D.table D.settings }
{
    for _ in 0..100 {
        if let Some((seen, psref)) = get_by_memory(words, &mut cpu.plain, rec.kind, rec.name) {
            return Ok((entry_of(seen, rec), psref));
        }
        if look_up(rt, words, cpu, rec).is_none() {
            return Err(Refusal::NotFound);
        }
    }
    Err(Refusal::PassiveFull)
}

/// Keeps the reference, or says why there is none.
fn kept<T, R: Abort>(rt: &R, place: &mut Option<T>, answer: Result<T, Refusal>) -> Answer {
    match answer {
        Ok(reference) => {
            put(rt, place, reference);
            Answer::Done
        }
        Err(refusal) => Answer::Refused(refusal),
    }
}

/// What was read is this record, or it was refused.
fn same<R: Abort>(rt: &R, answer: Result<Record, Refusal>, rec: Record) -> Answer {
    match answer {
        Ok(read) => {
            assert!(rt; read == rec);
            Answer::Done
        }
        Err(refusal) => Answer::Refused(refusal),
    }
}

/// The CPU releases the passive reference. Where that is refused, the reference comes back.
fn released<D: Domain, R: Abort>(
    rt: &R,
    words: &Words,
    cpu: &mut Cpu<D>,
    refs: &mut Held<D>,
) -> Answer
    requires words { AreWordsOf words.now D.table D.settings }
{
    let psref = refs.take_passive(rt);
    match release(words, cpu, psref) {
        Ok(()) => {
            refs.use_copy(rt);
            Answer::Done
        }
        Err((refusal, back)) => {
            put(rt, &mut refs.passive, back);
            Answer::Refused(refusal)
        }
    }
}

/// The row gives the passive reference up, which stays held.
fn forgotten<D: Domain, R: Abort>(rt: &R, refs: &mut Held<D>) -> Answer {
    refs.take_passive(rt).forget();
    refs.use_copy(rt);
    Answer::Done
}
