//! The laws of the free interlock, of the exact audit, and of what changes weigh.

ghost use Rattle.name_registry.specs.Changes.{WeightsTell};
ghost use Rattle.name_registry.specs.Auditing.{ExactAudit, FreeInterlock};

use cpu_words::Domain;
use passive_list::{Cpu, Keeper};

/// Theorem, no effect at run time: the balance of each slot is the local references held to its entry (localcount(9)).
///
/// Hypotheses: any table under the rule, in which the keeper's seat has this keeper's view. It is so between two steps of the keeper.
///
/// Conclusion, for the words and seats of all threads: a list of events leads to a state that they all show, and in that state
/// each slot is balanced. The result says nothing.
pub fn free_interlock(keeper: &Keeper) -> u64
    ensures law { FreeInterlock keeper.now.words.settings keeper.now.keeper }
{
    // Its clause tells what a keeper keeps of itself: that it is at rest.
    let _settings = keeper.settings();
    keeper.changes()
}

/// Theorem, no effect at run time: an audit lists the right numbers (localcount(9)).
///
/// Hypotheses: any table under the rule, in which the seats of the keeper and of these CPUs have their views. It is so between two steps of them.
///
/// Conclusions, for the words and seats of all threads:
///
/// 1. a list of events leads to one state that the words, this keeper and these CPUs show;
/// 2. what an audit of them lists is the CPUs' net counts, and what it says is held is the tally;
/// 3. if they are all CPUs, that is the number of local references held to the entry.
///
/// The result says nothing.
#[tactic(auto, using(crate::proofs::Tallies::exact_law))]
pub fn exact_audit<D: Domain>(keeper: &Keeper, cpus: &[Cpu<D>]) -> u64
    ensures law { ExactAudit keeper.now.words.settings keeper.now.keeper cpus.now }
{
    // The law alone speaks of the CPUs.
    let _cpus = cpus;
    keeper.changes()
}

/// Theorem, no effect at run time: a CPU's share tells which change its calls made.
///
/// If the share has grown by the weight of one change, the calls made one change, of that kind and number. No other changes weigh as much
/// together. The result says nothing.
#[tactic(auto, using(crate::proofs::Counted::weights_tell))]
pub fn weights_law() -> u64
    ensures law { WeightsTell }
{
    0
}
