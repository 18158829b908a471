//! Lookups, gets, and enters with a find. From outside they go by memory: a CPU that has found an entry loads one word to see that it is live
//! still. In an open section they are finds.

ghost use Rattle.std.specs.Prelude.{◌≡◌, ◌≢◌, ◌<◌, IfOk, IfSome, IsTrue, None, Ok, Some};
ghost use Rattle.protocol.specs.Common.{entry_with};
ghost use Rattle.cpu_words.specs.Common.{AreWordsOf, key_with};
ghost use Rattle.passive_list.specs.Common.{ByWord, HasRecalledByMemory, IsOfNoKind, IsSome, OnCpu, entry_seen, may_begin};
ghost use Rattle.name_registry.specs.LookingUp.{EntersAndFinds, FindsAndAcquires, FindsFast, Gets, GetsAnew, GetsFound, GetsInSection, HasEnteredInVain, HasMissed, HasNotGot, LooksFast, LooksInside, LooksUp, MayBegin, found_or, got_of, looked_up};

use crate::registry::Registry;
use cpu_words::{Domain, Words};
use passive_list::{
    Cpu, PlainCpu, Seen, enter_on, exit_on, find_and_remember, find_anew, find_by_memory,
    find_inside_on, may_begin_on, recall_remembered, recall_remembered_by, refind_remembered,
    refind_remembered_by,
};
use passive_ref::{Psref, acquire_on, get_by_memory};
use registry_values::{Entry, Key, Kind, MOST_SLOTS, Name, Record, Refusal};

impl<D: Domain> Registry<D> {
    /// Looks an entry up by its kind and name.
    ///
    /// Outside a section it goes by memory. If the CPU remembers an entry with this kind and name, it loads one word. If that says that the entry
    /// is live, the entry is the registry's answer at the very point of that load. Else it looks up in a section of its own, and remembers the
    /// result. Nothing is held from then on. In an open section it is a find: the result is the last found entry then.
    /// Refused: `SectionsSpent` outside, if no section is left, and nothing has changed; `NotFound`.
    #[inline(always)]
    pub fn look_up(&self, cpu: &mut Cpu<D>, kind: Kind, name: &Name) -> Result<Entry, Refusal>
        ensures { LooksUp (key_with kind name.now) cpu.old cpu.new result }
    {
        let key = Key { kind, name: *name };
        let looked = look_up_in(&self.words, &mut cpu.plain, key);
        with_entry(key, looked)
    }

    /// Looks an entry up and acquires a passive reference to it (psref(9)).
    ///
    /// Outside a section it goes by memory: for an entry that the CPU remembers it adds 1 to a word of the CPU's, and loads one word. If that
    /// says that the entry is live, the addition is the reference. Else it looks the entry up as `look_up` does, and tries once more if there is
    /// one. If that fails too, it is an enter, a find, an acquire and an exit. In an open section it is a find and an acquire.
    /// Refused: `SectionsSpent` outside, if no section is left, and nothing has changed; `NotFound`; `PassiveFull`. Nothing is acquired then.
    #[inline(always)]
    pub fn get(&self, cpu: &mut Cpu<D>, kind: Kind, name: &Name) -> Result<(Entry, Psref), Refusal>
        ensures { Gets (key_with kind name.now) cpu.old cpu.new result }
    {
        let key = Key { kind, name: *name };
        let got = get_in(&self.words, &mut cpu.plain, key);
        with_entry_got(key, got)
    }
}

/// `Registry::look_up` on a CPU that names its own table. Returns the words of the entry, or `None` in place of `NotFound`.
/// Condition: the words are its table's.
#[inline(always)]
fn look_up_in(words: &Words, cpu: &mut PlainCpu, key: Key) -> Result<Option<Seen>, Refusal>
    requires words { AreWordsOf words.now cpu.old.words.table cpu.old.words.settings }
    ensures looks { LooksUp key cpu.old.cpu cpu.new.cpu (looked_up key result) }
    ensures slot { IfOk result (λ seen. IfSome seen (λ s. s.slot < MOST_SLOTS)) }
    ensures words { cpu.new.words ≡ cpu.old.words }
{
    if let Some(seen) = look_up_fast(words, cpu, key) {
        return Ok(Some(seen));
    }
    look_up_slow(words, cpu, key)
}

/// The fast path of `look_up_in`: from outside, the entry that the CPU remembers, if one load says that it is live. Its words stay in registers,
/// since there is no refusal beside them. `None` says nothing: `look_up_slow` follows. Condition: the words are its table's.
#[inline(always)]
fn look_up_fast(words: &Words, cpu: &mut PlainCpu, key: Key) -> Option<Seen>
    requires words { AreWordsOf words.now cpu.old.words.table cpu.old.words.settings }
    ensures looks { IfSome result (λ seen. LooksUp key cpu.old.cpu cpu.new.cpu (found_or (entry_seen key (Some seen)))) }
    ensures missed { result ≡ None → HasMissed key cpu.old.cpu cpu.new.cpu }
    ensures slot { IfSome result (λ seen. seen.slot < MOST_SLOTS) }
    ensures words { cpu.new.words ≡ cpu.old.words }
{
    if may_begin_on(words, cpu) {
        return recall_remembered(words, cpu, key.kind, key.name);
    }
    None
}

/// `look_up_fast` by the word of a kind. If it is the word of no kind, nothing changes.
/// Conditions: the words are the CPU's table's; the word is a kind's, or not both words of the name
/// are 0.
#[inline(always)]
#[tactic(auto, using(crate::proofs::LookedUp::looked_by_word))]
pub fn look_up_by(words: &Words, cpu: &mut PlainCpu, word: u64, name: Name) -> Option<Seen>
    requires words { AreWordsOf words.now cpu.old.words.table cpu.old.words.settings }
    requires some { IsSome word name }
    ensures looks { ByWord word result (λ kind seen. LooksFast (key_with kind name) cpu.old.cpu cpu.new.cpu seen) }
    ensures no_kind { IsOfNoKind word → cpu.new ≡ cpu.old }
    ensures slot { IfSome result (λ seen. seen.slot < MOST_SLOTS) }
    ensures words { cpu.new.words ≡ cpu.old.words }
{
    if may_begin_on(words, cpu) {
        return recall_remembered_by(words, cpu, word, name);
    }
    None
}

/// What `look_up_in` does after `look_up_fast` returned `None`. `a` is the CPU before that. Condition: the words are its table's.
#[inline(always)]
#[tactic(auto, using(crate::proofs::LookedUp::looked_nested))]
fn look_up_slow(words: &Words, cpu: &mut PlainCpu, key: Key) -> Result<Option<Seen>, Refusal>
    requires words { AreWordsOf words.now cpu.old.words.table cpu.old.words.settings }
    ensures looks { (a : OnCpu) → HasMissed key a cpu.old.cpu → LooksUp key a cpu.new.cpu (looked_up key result) }
    ensures slot { IfOk result (λ seen. IfSome seen (λ s. s.slot < MOST_SLOTS)) }
    ensures words { cpu.new.words ≡ cpu.old.words }
{
    if may_begin_on(words, cpu) {
        return Ok(look_up_anew(words, cpu, key));
    }
    look_up_nested(words, cpu, key)
}

/// The same from outside, with a section left. Conditions: the words are its table's; it may begin
/// a section.
#[inline(always)]
#[tactic(auto, using(crate::proofs::LookedUp::looked_anew))]
pub fn look_up_anew(words: &Words, cpu: &mut PlainCpu, key: Key) -> Option<Seen>
    requires words { AreWordsOf words.now cpu.old.words.table cpu.old.words.settings }
    requires may { MayBegin cpu.old.cpu }
    ensures looks { (a : OnCpu) → HasMissed key a cpu.old.cpu → LooksUp key a cpu.new.cpu (found_or (entry_seen key result)) }
    ensures slot { IfSome result (λ seen. seen.slot < MOST_SLOTS) }
    ensures words { cpu.new.words ≡ cpu.old.words }
{
    find_anew(words, cpu, key.kind, key.name)
}

/// A lookup where it may begin no section. Conditions: the words are its table's; it may begin
/// none.
#[inline(never)]
pub fn look_up_nested(words: &Words, cpu: &mut PlainCpu, key: Key) -> Result<Option<Seen>, Refusal>
    requires words { AreWordsOf words.now cpu.old.words.table cpu.old.words.settings }
    requires not { MayBegin cpu.old.cpu → ⊥ }
    ensures looks { LooksUp key cpu.old.cpu cpu.new.cpu (looked_up key result) }
    ensures slot { IfOk result (λ seen. IfSome seen (λ s. s.slot < MOST_SLOTS)) }
    ensures words { cpu.new.words ≡ cpu.old.words }
{
    if cpu.depth == 0 {
        return Err(Refusal::SectionsSpent);
    }
    Ok(find_in(words, cpu, key))
}

/// Looks an entry up in the open section, by memory where that serves. Returns its words, if there is one: it is the last found entry then.
/// Conditions: the words are the CPU's table's; inside.
#[inline(always)]
fn find_in(words: &Words, cpu: &mut PlainCpu, key: Key) -> Option<Seen>
    requires words { AreWordsOf words.now cpu.old.words.table cpu.old.words.settings }
    requires inside { cpu.old.cpu.view.begin ≢ None }
    ensures looks { LooksInside key cpu.old.cpu cpu.new.cpu (found_or (entry_seen key result)) }
    ensures slot { IfSome result (λ seen. seen.slot < MOST_SLOTS) }
    ensures inside { cpu.new.cpu.view.begin ≡ cpu.old.cpu.view.begin }
    ensures words { cpu.new.words ≡ cpu.old.words }
{
    find_inside_on(words, cpu, key.kind, key.name)
}

/// The fast path of `find_in`: the entry that the CPU remembers, if one load says that it is live. `None` says nothing: `find_slow` follows.
/// Conditions: the words are the CPU's table's; inside.
#[inline(always)]
#[tactic(auto, using(crate::proofs::LookedUp::found_by_load))]
fn find_fast(words: &Words, cpu: &mut PlainCpu, key: Key) -> Option<Seen>
    requires words { AreWordsOf words.now cpu.old.words.table cpu.old.words.settings }
    requires inside { cpu.old.cpu.view.begin ≢ None }
    ensures looks { IfSome result (λ seen. LooksInside key cpu.old.cpu cpu.new.cpu (found_or (entry_seen key (Some seen)))) }
    ensures missed { result ≡ None → HasRecalledByMemory key cpu.old.cpu cpu.new.cpu None }
    ensures slot { IfSome result (λ seen. seen.slot < MOST_SLOTS) }
    ensures words { cpu.new.words ≡ cpu.old.words }
{
    refind_remembered(words, cpu, key.kind, key.name)
}

/// `find_fast` by the word of a kind. If it is the word of no kind, nothing changes.
/// Conditions: the words are the CPU's table's; inside; the word is a kind's, or not both words of
/// the name are 0.
#[inline(always)]
#[tactic(auto, using(crate::proofs::LookedUp::found_by_word))]
pub fn find_by(words: &Words, cpu: &mut PlainCpu, word: u64, name: Name) -> Option<Seen>
    requires words { AreWordsOf words.now cpu.old.words.table cpu.old.words.settings }
    requires inside { cpu.old.cpu.view.begin ≢ None }
    requires some { IsSome word name }
    ensures looks { ByWord word result (λ kind seen. FindsFast (key_with kind name) cpu.old.cpu cpu.new.cpu seen) }
    ensures no_kind { IsOfNoKind word → cpu.new ≡ cpu.old }
    ensures slot { IfSome result (λ seen. seen.slot < MOST_SLOTS) }
    ensures words { cpu.new.words ≡ cpu.old.words }
{
    refind_remembered_by(words, cpu, word, name)
}

/// What `find_in` does after `find_fast` returned `None`. `a` is the CPU before that. Conditions: the words are the CPU's table's; inside.
#[inline(always)]
pub fn find_slow(words: &Words, cpu: &mut PlainCpu, key: Key) -> Option<Seen>
    requires words { AreWordsOf words.now cpu.old.words.table cpu.old.words.settings }
    requires inside { cpu.old.cpu.view.begin ≢ None }
    ensures looks { (a : OnCpu) → HasRecalledByMemory key a cpu.old.cpu None → LooksInside key a cpu.new.cpu (found_or (entry_seen key result)) }
    ensures slot { IfSome result (λ seen. seen.slot < MOST_SLOTS) }
    ensures inside { cpu.new.cpu.view.begin ≡ cpu.old.cpu.view.begin }
    ensures words { cpu.new.words ≡ cpu.old.words }
{
    find_and_remember(words, cpu, key.kind, key.name)
}

/// The fast path of an enter with a find, from outside with a section left: an enter, and the entry
/// that the CPU remembers, if one load says that it is live. It is the last found entry then, and
/// the CPU stays inside. `None`: it has entered, and no more is said; `enter_find_slow` follows.
/// Conditions: the words are the CPU's table's; it may begin a section.
#[inline(always)]
pub fn enter_find_fast(words: &Words, cpu: &mut PlainCpu, key: Key) -> Option<Seen>
    requires words { AreWordsOf words.now cpu.old.words.table cpu.old.words.settings }
    requires may { MayBegin cpu.old.cpu }
    ensures finds { IfSome result (λ seen. EntersAndFinds key cpu.old.cpu cpu.new.cpu (found_or (entry_seen key (Some seen)))) }
    ensures missed { result ≡ None → HasEnteredInVain key cpu.old.cpu cpu.new.cpu }
    ensures inside { cpu.new.cpu.view.begin ≢ None }
    ensures slot { IfSome result (λ seen. seen.slot < MOST_SLOTS) }
    ensures words { cpu.new.words ≡ cpu.old.words }
{
    match enter_on(words, cpu) {
        Ok(()) => find_fast(words, cpu, key),
        Err(_) => None,
    }
}

/// What an enter with a find does after `enter_find_fast` returned `None`: a search, and an exit
/// where that finds nothing. `a` is the CPU before the enter. Conditions: the words are the CPU's
/// table's; inside.
#[inline(always)]
pub fn enter_find_slow(words: &Words, cpu: &mut PlainCpu, key: Key) -> Option<Seen>
    requires words { AreWordsOf words.now cpu.old.words.table cpu.old.words.settings }
    requires inside { cpu.old.cpu.view.begin ≢ None }
    ensures finds { (a : OnCpu) → HasEnteredInVain key a cpu.old.cpu → EntersAndFinds key a cpu.new.cpu (found_or (entry_seen key result)) }
    ensures slot { IfSome result (λ seen. seen.slot < MOST_SLOTS) }
    ensures words { cpu.new.words ≡ cpu.old.words }
{
    match find_slow(words, cpu, key) {
        Some(seen) => Some(seen),
        None => {
            exit_on(words, cpu);
            None
        }
    }
}

/// Enters a section, or the open one once more, and looks an entry up in it. Returns its words: it
/// is the last found entry then, and the CPU stays inside. Where there is none, or this is refused,
/// the CPU is as deep inside as before. It stands apart, for a CPU that may begin no section.
/// Refused: `TooDeep`, `SectionsSpent`, as `enter`, and nothing has changed. Condition: the words
/// are the CPU's table's.
#[inline(never)]
pub fn enter_find_nested(
    words: &Words,
    cpu: &mut PlainCpu,
    key: Key,
) -> Result<Option<Seen>, Refusal>
    requires words { AreWordsOf words.now cpu.old.words.table cpu.old.words.settings }
    ensures finds { EntersAndFinds key cpu.old.cpu cpu.new.cpu (looked_up key result) }
    ensures slot { IfOk result (λ seen. IfSome seen (λ s. s.slot < MOST_SLOTS)) }
    ensures words { cpu.new.words ≡ cpu.old.words }
{
    enter_and_find(words, cpu, key)
}

/// An enter and a find, and an exit where it found nothing.
#[inline(always)]
fn enter_and_find(words: &Words, cpu: &mut PlainCpu, key: Key) -> Result<Option<Seen>, Refusal>
    requires words { AreWordsOf words.now cpu.old.words.table cpu.old.words.settings }
    ensures finds { EntersAndFinds key cpu.old.cpu cpu.new.cpu (looked_up key result) }
    ensures slot { IfOk result (λ seen. IfSome seen (λ s. s.slot < MOST_SLOTS)) }
    ensures words { cpu.new.words ≡ cpu.old.words }
{
    enter_on(words, cpu)?;
    match find_in(words, cpu, key) {
        Some(seen) => Ok(Some(seen)),
        None => {
            exit_on(words, cpu);
            Ok(None)
        }
    }
}

/// `Registry::get` on a CPU that names its own table. Returns the words of the entry. Condition: the words are its table's.
#[inline(always)]
fn get_in(words: &Words, cpu: &mut PlainCpu, key: Key) -> Result<(Seen, Psref), Refusal>
    requires words { AreWordsOf words.now cpu.old.words.table cpu.old.words.settings }
    ensures gets { Gets key cpu.old.cpu cpu.new.cpu (got_of key result) }
    ensures slot { IfOk result (λ got. got.0.slot < MOST_SLOTS) }
    ensures words { cpu.new.words ≡ cpu.old.words }
{
    if let Some(got) = get_fast(words, cpu, key) {
        return Ok(got);
    }
    get_slow(words, cpu, key)
}

/// The fast path of `get_in`: from outside, by an addition and a load, if the CPU remembers the entry. `None` says nothing, and nothing is held:
/// `get_slow` follows. Condition: the words are its table's.
#[inline(always)]
#[tactic(auto, using(crate::proofs::LookedUp::got_by_load, crate::proofs::LookedUp::has_not_got))]
pub fn get_fast(words: &Words, cpu: &mut PlainCpu, key: Key) -> Option<(Seen, Psref)>
    requires words { AreWordsOf words.now cpu.old.words.table cpu.old.words.settings }
    ensures gets { IfSome result (λ got. Gets key cpu.old.cpu cpu.new.cpu (got_of key (Ok got))) }
    ensures missed { result ≡ None → HasNotGot key cpu.old.cpu cpu.new.cpu }
    ensures slot { IfSome result (λ got. got.0.slot < MOST_SLOTS) }
    ensures own { IfSome result (λ got. got.1.cpu ≡ cpu.old.cpu.view.id) }
    ensures words { cpu.new.words ≡ cpu.old.words }
{
    if may_begin_on(words, cpu) {
        return get_by_memory(words, cpu, key.kind, key.name);
    }
    None
}

/// What `get_in` does after `get_fast` returned `None`. `a` is the CPU before that. Condition: the words are its table's.
#[inline(always)]
#[tactic(auto, using(crate::proofs::LookedUp::got_anew, crate::proofs::LookedUp::got_nested))]
pub fn get_slow(words: &Words, cpu: &mut PlainCpu, key: Key) -> Result<(Seen, Psref), Refusal>
    requires words { AreWordsOf words.now cpu.old.words.table cpu.old.words.settings }
    ensures gets { (a : OnCpu) → HasNotGot key a cpu.old.cpu → Gets key a cpu.new.cpu (got_of key result) }
    ensures slot { IfOk result (λ got. got.0.slot < MOST_SLOTS) }
    ensures words { cpu.new.words ≡ cpu.old.words }
{
    if may_begin_on(words, cpu) {
        return get_anew(words, cpu, key);
    }
    get_nested(words, cpu, key)
}

/// A get where it may begin no section.
#[inline(never)]
fn get_nested(words: &Words, cpu: &mut PlainCpu, key: Key) -> Result<(Seen, Psref), Refusal>
    requires words { AreWordsOf words.now cpu.old.words.table cpu.old.words.settings }
    requires not { MayBegin cpu.old.cpu → ⊥ }
    ensures gets { Gets key cpu.old.cpu cpu.new.cpu (got_of key result) }
    ensures slot { IfOk result (λ got. got.0.slot < MOST_SLOTS) }
    ensures words { cpu.new.words ≡ cpu.old.words }
{
    if cpu.depth == 0 {
        return Err(Refusal::SectionsSpent);
    }
    find_and_acquire(words, cpu, key)
}

/// Looks an entry up, and acquires a reference to it, if there is one. Conditions: outside; a section is left.
#[inline(never)]
fn get_anew(words: &Words, cpu: &mut PlainCpu, key: Key) -> Result<(Seen, Psref), Refusal>
    requires words { AreWordsOf words.now cpu.old.words.table cpu.old.words.settings }
    requires outside { cpu.old.cpu.depth ≡ 0 }
    requires room { IsTrue (may_begin cpu.old.cpu.view) }
    ensures gets { GetsAnew key cpu.old.cpu cpu.new.cpu (got_of key result) }
    ensures slot { IfOk result (λ got. got.0.slot < MOST_SLOTS) }
    ensures words { cpu.new.words ≡ cpu.old.words }
{
    if find_by_memory(words, cpu, key.kind, key.name).is_none() {
        return Err(Refusal::NotFound);
    }
    get_found(words, cpu, key)
}

/// Acquires a reference to the entry that the CPU remembers, else in a section.
fn get_found(words: &Words, cpu: &mut PlainCpu, key: Key) -> Result<(Seen, Psref), Refusal>
    requires words { AreWordsOf words.now cpu.old.words.table cpu.old.words.settings }
    ensures gets { GetsFound key cpu.old.cpu cpu.new.cpu (got_of key result) }
    ensures slot { IfOk result (λ got. got.0.slot < MOST_SLOTS) }
    ensures words { cpu.new.words ≡ cpu.old.words }
{
    if let Some(got) = get_by_memory(words, cpu, key.kind, key.name) {
        return Ok(got);
    }
    get_in_section(words, cpu, key)
}

/// Looks an entry up and acquires a reference to it, in a section.
#[inline(never)]
fn get_in_section(words: &Words, cpu: &mut PlainCpu, key: Key) -> Result<(Seen, Psref), Refusal>
    requires words { AreWordsOf words.now cpu.old.words.table cpu.old.words.settings }
    ensures gets { GetsInSection key cpu.old.cpu cpu.new.cpu (got_of key result) }
    ensures slot { IfOk result (λ got. got.0.slot < MOST_SLOTS) }
    ensures words { cpu.new.words ≡ cpu.old.words }
{
    enter_on(words, cpu)?;
    let got = find_and_acquire(words, cpu, key);
    exit_on(words, cpu);
    got
}

/// Looks an entry up in the open section, and acquires a reference to it.
fn find_and_acquire(words: &Words, cpu: &mut PlainCpu, key: Key) -> Result<(Seen, Psref), Refusal>
    requires words { AreWordsOf words.now cpu.old.words.table cpu.old.words.settings }
    requires inside { cpu.old.cpu.view.begin ≢ None }
    ensures gets { FindsAndAcquires key cpu.old.cpu cpu.new.cpu (got_of key result) }
    ensures slot { IfOk result (λ got. got.0.slot < MOST_SLOTS) }
    ensures inside { cpu.new.cpu.view.begin ≡ cpu.old.cpu.view.begin }
    ensures words { cpu.new.words ≡ cpu.old.words }
{
    let Some(seen) = find_in(words, cpu, key) else {
        return Err(Refusal::NotFound);
    };
    let psref = acquire_on(words, cpu)?;
    Ok((seen, psref))
}

/// The entry of these words.
#[inline(always)]
fn entry_of(key: Key, seen: Seen) -> Entry
    requires slot { seen.slot < MOST_SLOTS }
    ensures { result ≡ entry_with key seen.slot seen.number seen.value }
{
    let rec = Record {
        kind: key.kind,
        name: key.name,
        value: seen.value,
    };
    Entry {
        number: seen.number,
        slot: seen.slot as u8,
        rec,
    }
}

/// A lookup's result with the entry in place of its words.
#[inline(always)]
fn with_entry(key: Key, looked: Result<Option<Seen>, Refusal>) -> Result<Entry, Refusal>
    requires slot { IfOk looked (λ seen. IfSome seen (λ s. s.slot < MOST_SLOTS)) }
    ensures { result ≡ looked_up key looked }
{
    match looked {
        Ok(Some(seen)) => Ok(entry_of(key, seen)),
        Ok(None) => Err(Refusal::NotFound),
        Err(refusal) => Err(refusal),
    }
}

/// The same of a get.
#[inline(always)]
fn with_entry_got(key: Key, got: Result<(Seen, Psref), Refusal>) -> Result<(Entry, Psref), Refusal>
    requires slot { IfOk got (λ got. got.0.slot < MOST_SLOTS) }
    ensures { result ≡ got_of key got }
{
    match got {
        Ok((seen, psref)) => Ok((entry_of(key, seen), psref)),
        Err(refusal) => Err(refusal),
    }
}
