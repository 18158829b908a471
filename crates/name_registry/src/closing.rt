//! The end of a registry.

ghost use Rattle.std.specs.Prelude.{◌≡◌, ◌<◌, ◌∷◌, length};
ghost use Rattle.cpu_words.specs.Common.{AreWordsOf, cpu_end};
ghost use Rattle.name_registry.specs.Opening.{AreTaken, ClosesRun, ClosesRunOf, made_by};

use crate::exchange::{hear_cpu, show_cpu};
use crate::interlock::Interlock;
use crate::registry::Registry;
use cpu_words::{Domain, KeeperSeat, LastWords, Words};
use passive_list::Cpu;
use std::sync::ledger::{Book, Share};

impl<D: Domain> Registry<D> {
    /// Ends the registry, and returns its last words. Whoever calls this has the registry back from all threads, so the run is over. The
    /// keeper hears at last what the CPU knows, and the CPU what the keeper did.
    ///
    /// The contract is the theorem of a finished run: a list of events leads from the opening to these words, on any schedule,
    /// and all laws of the protocol hold of it. Each call of this CPU is in it, by the CPU's log, which with the two notes of this call is
    /// its whole part (`own`). It has all that the CPU knows: an entry that was destroyed for it is gone (`gone`).
    pub fn close(self, cpu: Cpu<D>) -> LastWords
        ensures settings { result.settings ≡ D.settings }
        ensures run { ClosesRun D.settings cpu result.words }
    {
        let Registry { words, interlock } = self;
        let Interlock {
            mut keeper,
            book: _,
        } = interlock.into_inner();
        let Cpu {
            mut plain,
            share: _,
        } = cpu;
        hear_cpu(&words, &mut keeper, &mut plain);
        show_cpu(&words, &mut keeper, &mut plain);
        words.close(Box::into_inner(plain).into_seat())
    }

    /// Ends the registry with its CPUs, and returns its last words. Whoever calls this has the registry and these CPUs back from all threads, so
    /// the run is over.
    ///
    /// The contract is the theorem of a finished run, for the keeper and all these CPUs: one list of events leads from the opening to these words,
    /// on any schedule, and all laws of the protocol hold of it.
    ///
    /// - `each`: each call of each CPU is in it, as the CPU's log is its whole part. No entry was freed while the CPU held it: in a section that
    ///   had found it, or by a passive reference, acquired, copied or got by memory (`held`).
    /// - `locals`: nor was one freed while there was a local reference to it, also where that was acquired on one CPU and released on another.
    /// - `exact`: at each event, the logs count as many references as there are.
    /// - `made`: where these are all CPUs of the registry, each change of its history is one that some call returned.
    pub fn close_all(self, cpus: Vec<Cpu<D>>) -> LastWords
        ensures settings { result.settings ≡ D.settings }
        ensures run { ClosesRunOf D.settings D.parts cpus.items result.words }
    {
        let Registry { words, interlock } = self;
        let Interlock { keeper, mut book } = interlock.into_inner();
        let mut seat = keeper.into_seat();
        take_over_all(&words, &mut seat, &mut book, cpus);
        words.close_all(seat)
    }
}

/// The keeper's seat takes over those of the CPUs. Where these are as many as the ledger has parts, what they made is all that the book counts.
fn take_over_all<D: Domain>(
    words: &Words,
    keeper: &mut KeeperSeat,
    book: &mut Book<D>,
    mut cpus: Vec<Cpu<D>>,
)
    requires words { AreWordsOf words.now D.table D.settings }
    requires table { keeper.old.table ≡ D.table }
    ensures keeper { keeper.new ≡ record keeper.old { ends = keeper.new.ends } }
    ensures taken { AreTaken cpus.items keeper.new.ends }
    ensures made { 0 < D.parts → length cpus.items ≡ D.parts → book.old.total ≡ made_by cpus.items }
{
    let Some(first) = cpus.pop() else { return };
    let mut shares = take_over(words, keeper, first);
    while let Some(cpu) = cpus.pop() {
        shares.merge(take_over(words, keeper, cpu));
    }
    book.audit(&mut shares);
}

/// The keeper's seat takes over that of the CPU. Returns the CPU's part of the ledger.
fn take_over<D: Domain>(words: &Words, keeper: &mut KeeperSeat, cpu: Cpu<D>) -> Share<D>
    requires words { AreWordsOf words.now D.table D.settings }
    requires table { keeper.old.table ≡ D.table }
    ensures keeper { keeper.new ≡ record keeper.old { ends = cpu_end cpu.view cpu.log cpu.known_log ∷ keeper.old.ends } }
    ensures share { (result.parts ≡ 1) × (result.amount ≡ cpu.made) }
{
    let Cpu { plain, share } = cpu;
    words.take_over(keeper, Box::into_inner(plain).into_seat());
    share
}
