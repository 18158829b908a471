//! What the lock guards: the keeper, and the book of the changes that calls have made.

ghost use Rattle.std.specs.Prelude.{◌≡◌, ◌+◌, ◌++◌, ◌<◌, IfOk, IfErr, IsTrue, Some, false, ℕ};
ghost use Rattle.registry_values.specs.Common.{is_key, is_iface};
ghost use Rattle.name_registry.specs.Types.{Attach, Detach, Replace, Driver, Iface};
ghost use Rattle.cpu_words.specs.Common.{IsAttachedKeeping, AreWordsOf};
ghost use Rattle.name_registry.specs.Changes.{AreReplaced, HasMade, HasMadeReplace, weigh, weight};
ghost use Rattle.name_registry.specs.Locking.{MayAttach, IsAttachRefusal, IsDetachRefusedTo, IsReplaceRefusedTo, is_inside, tells_and_hears, HasLearned, HasSeenAttach, HasSeenDetach, HasSeenReplace, KnowsGivenUp};

use crate::attaching::{attach_iface_in, attach_in, detach_in};
use crate::releasing::release_for;
use crate::replacing::{replace_iface_in, replace_in};
use cpu_words::{Domain, Words};
use local_count::LocalRef;
use passive_list::{Cpu, Keeper};
use registry_values::{Entry, Kind, MOST_CHANGES, Name, Record, Refusal};
use std::sync::ledger::Book;

/// More than three times the greatest number of an entry.
const UNIT: u64 = 3 * MOST_CHANGES + 3;

/// The keeper of D's table, and the book. The book's total is what all changes of the history weigh, so a change is made only where it is counted, to the
/// share of some CPU. The book takes no bytes.
#[derive(Drop)]
pub(crate) struct Interlock<D: Domain> {
    pub(crate) keeper: Keeper,
    pub(crate) book: Book<D>,
    ghost named: { AreWordsOf keeper.words D.table D.settings },
    ghost counted: { book.total ≡ weigh keeper.keeper.view.history },
}

impl<D: Domain> Interlock<D> {
    /// `attach_in`, counted to the CPU.
    pub(crate) fn attach(
        &mut self,
        words: &Words,
        cpu: &mut Cpu<D>,
        rec: Record,
    ) -> Result<Entry, Refusal>
        requires words { AreWordsOf words.now D.table D.settings }
        requires name { IsTrue (is_key rec.name) }
        ensures may { IfOk result (λ _. MayAttach (is_inside cpu.old) (is_iface rec.kind)) }
        ensures ok { IfOk result (λ e. (e.rec ≡ rec) × HasLearned cpu.old cpu.new × HasSeenAttach cpu.old cpu.new e) }
        ensures made { IfOk result (λ e. HasMade cpu.old (Attach e) cpu.new) }
        ensures refused { IfErr result (λ refusal. IsAttachRefusal (is_inside cpu.old) (is_iface rec.kind) refusal × (cpu.new ≡ cpu.old)) }
    {
        let Interlock { keeper, book } = self;
        // Its clause tells what a keeper keeps of itself: how long its history may be.
        let _settings = keeper.settings();
        let entry = attach_in(words, keeper, &mut cpu.plain, rec)?;
        count_attach(book, cpu, entry);
        Ok(entry)
    }

    /// `attach_iface_in`, counted to the CPU.
    #[tactic(auto, using(crate::proofs::Noted::iface_may, passive_list::proofs::Sharing::shared))]
    pub(crate) fn attach_iface(
        &mut self,
        words: &Words,
        cpu: &mut Cpu<D>,
        rec: Record,
        reference: LocalRef<D>,
    ) -> Result<Entry, (Refusal, LocalRef<D>)>
        requires words { AreWordsOf words.now D.table D.settings }
        requires kind { rec.kind ≡ Iface }
        requires name { IsTrue (is_key rec.name) }
        ensures may { IfOk result (λ _. MayAttach (is_inside cpu.old) (is_iface reference.entry.rec.kind)) }
        ensures ok { IfOk result (λ e. (e.rec ≡ rec) × HasLearned cpu.old cpu.new × HasSeenAttach cpu.old cpu.new e) }
        ensures made { IfOk result (λ e. HasMade cpu.old (Attach e) cpu.new) }
        ensures keeping { IfOk result (λ e. IsAttachedKeeping e.slot e.number reference.entry.number cpu.new.known_log) }
        ensures refused { IfErr result (λ back. IsAttachRefusal (is_inside cpu.old) (is_iface reference.entry.rec.kind) back.0 × (back.1 ≡ reference) × (cpu.new ≡ cpu.old)) }
    {
        let Interlock { keeper, book } = self;
        // Its clause tells what a keeper keeps of itself: how long its history may be.
        let _settings = keeper.settings();
        let LocalRef { plain, domain } = reference;
        match attach_iface_in(words, keeper, &mut cpu.plain, rec, plain) {
            Ok(entry) => {
                count_attach(book, cpu, entry);
                Ok(entry)
            }
            Err((refusal, plain)) => Err((refusal, LocalRef { plain, domain })),
        }
    }

    /// `detach_in`, counted to the CPU.
    #[tactic(auto, using(crate::proofs::Counted::detach_numbered, crate::proofs::Counted::few_changes, crate::proofs::Counted::one_made, crate::proofs::Counted::detached, crate::proofs::Noted::detach_may, passive_list::proofs::Sharing::shared, passive_list::proofs::Sharing::sharing))]
    pub(crate) fn detach(
        &mut self,
        words: &Words,
        cpu: &mut Cpu<D>,
        kind: Kind,
        name: &Name,
    ) -> Result<Entry, Refusal>
        requires words { AreWordsOf words.now D.table D.settings }
        ensures may { IfOk result (λ _. is_inside cpu.old ≡ false) }
        ensures ok { IfOk result (λ e. (e.rec.kind ≡ kind) × (e.rec.name ≡ name.now) × HasLearned cpu.old cpu.new × HasSeenDetach cpu.old cpu.new e) }
        ensures made { IfOk result (λ e. HasMade cpu.old (Detach e.number) cpu.new) }
        ensures refused { IfErr result (λ refusal. IsDetachRefusedTo (is_inside cpu.old) refusal × (cpu.new ≡ cpu.old)) }
    {
        let Interlock { keeper, book } = self;
        // Its clause tells what a keeper keeps of itself: how long its history may be.
        let _settings = keeper.settings();
        let entry = detach_in(words, keeper, &mut cpu.plain, kind, name)?;
        count_detach(book, cpu, entry.number);
        Ok(entry)
    }

    /// `replace_in`, counted to the CPU.
    pub(crate) fn replace(
        &mut self,
        words: &Words,
        cpu: &mut Cpu<D>,
        name: &Name,
        value: u64,
    ) -> Result<(Entry, Entry), Refusal>
        requires words { AreWordsOf words.now D.table D.settings }
        ensures may { IfOk result (λ _. is_inside cpu.old ≡ false) }
        ensures ok { IfOk result (λ p. AreReplaced (record { kind = Driver; name = name.now }) value p × HasLearned cpu.old cpu.new × HasSeenReplace cpu.old cpu.new p.0 p.1) }
        ensures made { IfOk result (λ p. HasMadeReplace cpu.old p.0 p.1 cpu.new) }
        ensures refused { IfErr result (λ refusal. IsReplaceRefusedTo (is_inside cpu.old) false refusal × (cpu.new ≡ cpu.old)) }
    {
        let Interlock { keeper, book } = self;
        // Its clause tells what a keeper keeps of itself: how long its history may be.
        let _settings = keeper.settings();
        let entries = replace_in(words, keeper, &mut cpu.plain, name, value)?;
        count_replace(book, cpu, entries.1);
        Ok(entries)
    }

    /// `replace_iface_in`, counted to the CPU.
    pub(crate) fn replace_iface(
        &mut self,
        words: &Words,
        cpu: &mut Cpu<D>,
        name: &Name,
        value: u64,
        reference: LocalRef<D>,
    ) -> Result<(Entry, Entry), (Refusal, LocalRef<D>)>
        requires words { AreWordsOf words.now D.table D.settings }
        ensures may { IfOk result (λ _. MayAttach (is_inside cpu.old) (is_iface reference.entry.rec.kind)) }
        ensures ok { IfOk result (λ p. AreReplaced (record { kind = Iface; name = name.now }) value p × HasLearned cpu.old cpu.new × HasSeenReplace cpu.old cpu.new p.0 p.1) }
        ensures made { IfOk result (λ p. HasMadeReplace cpu.old p.0 p.1 cpu.new) }
        ensures keeping { IfOk result (λ p. IsAttachedKeeping p.1.slot p.1.number reference.entry.number cpu.new.known_log) }
        ensures refused { IfErr result (λ back. IsReplaceRefusedTo (is_inside cpu.old) (is_iface reference.entry.rec.kind) back.0 × (back.1 ≡ reference) × (cpu.new ≡ cpu.old)) }
    {
        let Interlock { keeper, book } = self;
        // Its clause tells what a keeper keeps of itself: how long its history may be.
        let _settings = keeper.settings();
        let LocalRef { plain, domain } = reference;
        match replace_iface_in(words, keeper, &mut cpu.plain, name, value, plain) {
            Ok(entries) => {
                count_replace(book, cpu, entries.1);
                Ok(entries)
            }
            Err((refusal, plain)) => Err((refusal, LocalRef { plain, domain })),
        }
    }

    /// `release_for`, for the CPU. Condition: some count word of the reference's slot was collected, as a release found.
    pub(crate) fn give_up(&mut self, words: &Words, cpu: &mut Cpu<D>, reference: LocalRef<D>)
        requires words { AreWordsOf words.now D.table D.settings }
        requires collected { (c : ℕ) × (reference.collected ≡ Some c) }
        ensures learned { HasLearned cpu.old cpu.new × (cpu.new.made ≡ cpu.old.made) }
        ensures log { cpu.new.log ≡ cpu.old.log ++ tells_and_hears cpu.old }
        ensures known { KnowsGivenUp reference.entry cpu.old cpu.new }
    {
        let LocalRef { plain, domain: _ } = reference;
        release_for(words, &mut self.keeper, &mut cpu.plain, plain);
    }
}

/// Counts the attach of an entry as made by the CPU's calls. It does nothing when it runs.
fn count_attach<D: Domain>(book: &mut Book<D>, cpu: &mut Cpu<D>, entry: Entry)
    ensures total { book.new.total ≡ book.old.total + weight (Attach entry) }
    ensures cpu { cpu.new ≡ record cpu.old { made = cpu.old.made + weight (Attach entry) } }
{
    book.add(&mut cpu.share, UNIT);
    book.add(&mut cpu.share, entry.number);
    book.add(&mut cpu.share, entry.number);
    book.add(&mut cpu.share, entry.number);
}

/// Counts the replacement that brought the entry as made by the CPU's calls. It does nothing when it runs.
fn count_replace<D: Domain>(book: &mut Book<D>, cpu: &mut Cpu<D>, entry: Entry)
    ensures total { book.new.total ≡ book.old.total + weight (Replace 0 0 entry) }
    ensures cpu { cpu.new ≡ record cpu.old { made = cpu.old.made + weight (Replace 0 0 entry) } }
{
    book.add(&mut cpu.share, UNIT);
    book.add(&mut cpu.share, entry.number);
    book.add(&mut cpu.share, entry.number);
    book.add(&mut cpu.share, entry.number);
    book.add(&mut cpu.share, 2);
}

/// Counts the detach of the entry `number` as made by the CPU's calls. It does nothing when it runs.
fn count_detach<D: Domain>(book: &mut Book<D>, cpu: &mut Cpu<D>, number: u64)
    ensures total { book.new.total ≡ book.old.total + weight (Detach number) }
    ensures cpu { cpu.new ≡ record cpu.old { made = cpu.old.made + weight (Detach number) } }
{
    book.add(&mut cpu.share, UNIT);
    book.add(&mut cpu.share, number);
    book.add(&mut cpu.share, number);
    book.add(&mut cpu.share, number);
    book.add(&mut cpu.share, 1);
}
