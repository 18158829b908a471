//! What the keeper does with the words: each call tests at run time what it asks.

ghost use Rattle.std.specs.Prelude.{◌≡◌, IsTrue};
ghost use Rattle.std.specs.List.{list_any};
ghost use Rattle.registry_values.specs.Common.{is_key, key_of_record, is_taken};
ghost use Rattle.cpu_words.specs.Common.{AreWordsOf};
ghost use Rattle.name_registry.specs.Common.{is_live_row};

use super::answers::{Answer, Wanted, at, record};
use cpu_words::Words;
use passive_list::{Keeper, KeptSlot, SlotState, look, publish, retire};
use passive_ref::look_passive;
use registry_values::{Entry, Key, Kind, MOST_SLOTS, Record, is_live_as};
use std::process::Abort;

/// A call on the words by the keeper, of slot 0.
#[derive(Clone, Copy)]
pub(crate) enum Writer {
    /// It publishes this driver.
    Publish(Wanted),
    /// It retires this driver.
    Retire(Wanted),
    /// A look at each CPU's section.
    Look,
    /// A look at each CPU's passive references.
    LookPassive,
}

/// Makes the call; its answer.
pub(crate) fn by_keeper<R: Abort>(
    rt: &R,
    words: &Words,
    keeper: &mut Keeper,
    call: Writer,
) -> Answer
    requires words { AreWordsOf words.now keeper.old.words.table keeper.old.words.settings }
    ensures words { keeper.new.words ≡ keeper.old.words }
{
    match call {
        Writer::Publish(wanted) => {
            let rec = record(rt, wanted);
            at(rt, published(rt, words, keeper, rec), rec)
        }
        Writer::Retire(wanted) => at(rt, retired(rt, words, keeper), record(rt, wanted)),
        Writer::Look => {
            let first = looked(rt, words, keeper, 0);
            Answer::Looks(first, looked(rt, words, keeper, 1))
        }
        Writer::LookPassive => {
            let first = passive_look(rt, words, keeper, 0);
            Answer::Looks(first, passive_look(rt, words, keeper, 1))
        }
    }
}

/// The keeper publishes a driver in slot 0, which is vacant and keeps nothing. No live entry has its name, and the history has room.
pub(crate) fn published<R: Abort>(rt: &R, words: &Words, keeper: &mut Keeper, rec: Record) -> Entry
    requires words { AreWordsOf words.now keeper.old.words.table keeper.old.words.settings }
    requires name { IsTrue (is_key rec.name) }
    ensures words { keeper.new.words ≡ keeper.old.words }
{
    assert!(rt; rec.kind == Kind::Driver);
    assert!(rt; 0 < keeper.settings().slots);
    assert!(rt; keeper.slot(0) == SlotState::Vacant && keeper.keeps(0).is_none());
    assert!(rt; !is_taken(keeper, rec));
    assert!(rt; keeper.changes() + MOST_SLOTS as u64 + 2 <= keeper.settings().change_limit);
    publish(words, keeper, 0, rec)
}

/// Whether a live entry has the record's kind and name.
#[tactic(auto, using(passive_list::proofs::Rows::taken_in_rows))]
fn is_taken(keeper: &Keeper, rec: Record) -> bool
    ensures { result ≡ is_taken (key_of_record rec) keeper.now.keeper.slots }
{
    let key = Key {
        kind: rec.kind,
        name: rec.name,
    };
    is_live_in(keeper.rows(), key)
}

fn is_live_in(rows: &[KeptSlot], key: Key) -> bool
    ensures { result ≡ list_any (is_live_row key) rows.now }
{
    rows.iter().any(|row| is_live_as(key, &row.state))
}

/// The keeper retires the driver of slot 0.
pub(crate) fn retired<R: Abort>(rt: &R, words: &Words, keeper: &mut Keeper) -> Entry
    requires words { AreWordsOf words.now keeper.old.words.table keeper.old.words.settings }
    ensures words { keeper.new.words ≡ keeper.old.words }
{
    assert!(rt; matches!(keeper.slot(0), SlotState::Live(_)));
    retire(words, keeper, 0)
}

/// The result of a look at the CPU's section.
pub(crate) fn looked<R: Abort>(rt: &R, words: &Words, keeper: &mut Keeper, cpu: u8) -> bool
    requires words { AreWordsOf words.now keeper.old.words.table keeper.old.words.settings }
    ensures words { keeper.new.words ≡ keeper.old.words }
{
    assert!(rt; cpu < keeper.settings().cpus);
    assert!(rt; matches!(keeper.slot(0), SlotState::Retired(_)));
    look(words, keeper, 0, cpu)
}

/// The result of a look at the CPU's passive references, once all CPUs have passed.
pub(crate) fn passive_look<R: Abort>(rt: &R, words: &Words, keeper: &mut Keeper, cpu: u8) -> bool
    requires words { AreWordsOf words.now keeper.old.words.table keeper.old.words.settings }
    ensures words { keeper.new.words ≡ keeper.old.words }
{
    assert!(rt; cpu < keeper.settings().cpus);
    assert!(rt; 0 < keeper.settings().slots);
    assert!(rt; matches!(keeper.slot(0), SlotState::Retired(_)));
    assert!(rt; keeper.have_passed(0));
    look_passive(words, keeper, 0, cpu)
}
