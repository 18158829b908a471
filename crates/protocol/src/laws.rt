//! The laws of the core, over every list of events and of every state with the core invariant: functions that do nothing, whose contracts are
//! the laws.

ghost use Rattle.protocol.specs.Laws.{BalanceAtRest, DriversOutlive, EveryRunKeeps, FreshAnswers, GraceLaw, Headline, InvariantSuffices, LawfulAnswers, LiveRecalls, NarrowEvents, NarrowNames, NarrowRuns, NewestRecalls, PlainRuns, ReplacedAtOnce, SafeReuse, UntriedRuns, WholePasses};
ghost use Rattle.protocol.specs.Model.{EveryRunIsModelRun};
ghost use Rattle.protocol.specs.Rows.{CollectRace, FrozenLink, KeptDriver, ReplaceRace, ReplacedUnder, TryRace};

/// Theorem, no effect at run time: the headline for the core. After every list of events from the opening:
///
/// 1. no slot is destroyed or given again while a read section that may have found its entry, a passive reference, a local reference or a
///    kept one holds it;
/// 2. whenever the keeper is at rest, each slot's balance is exactly its local references held;
/// 3. the result of each lookup is the registry's at some point of its one history, not before what the caller had seen.
#[tactic(auto, using(crate::proofs::runs::Headline::headline))]
pub fn headline()
    ensures { Headline }
{}

/// Theorem, no effect at run time: what every list of events keeps, also with events that aren't allowed.
///
/// - `keeps`: the core invariant;
/// - `modelled`: a run of the model reaches the picture of the state. In it a CPU takes a reference without a section only to a number that it was
///   trying at an allowed Confirm of the list.
/// - `untried`: where no event is a Try, no CPU is trying, so each passive word counts references alone.
#[tactic(auto, using(crate::proofs::model::Refining::every_run_is_model_run, crate::proofs::runs::Untried::untried_runs))]
pub fn every_run_keeps()
    ensures keeps { EveryRunKeeps }
    ensures modelled { EveryRunIsModelRun }
    ensures untried { UntriedRuns }
{}

/// Theorem, no effect at run time: when a slot is reused.
///
/// - `reuse`: an occupant goes only by `Vacate` or `KeptSub`, detached and without a holder. One comes only by `Publish`, into a slot
///   without one.
/// - `drivers`: no driver's slot goes while an interface that keeps the driver is live or retired.
#[tactic(auto, using(crate::proofs::runs::Headline::safe_reuse, crate::proofs::runs::Headline::drivers_outlive))]
pub fn safe_reuse()
    ensures reuse { SafeReuse }
    ensures drivers { DriversOutlive }
{}

/// Theorem, no effect at run time: the result of each lookup is the registry's at some point from the search's start to the CPU's new pass.
#[tactic(auto, using(crate::proofs::runs::Answers::lawful_answers))]
pub fn lawful_answers()
    ensures { LawfulAnswers }
{}

/// Theorem, no effect at run time: how new the result of a search is.
///
/// - `fresh`: it is the registry's at some point from the search's Seek on, to the CPU's new pass, even if the CPU's pass was older. So an
///   entry that was live at the Seek and isn't detached yet is found, and one that was detached before the Seek isn't.
/// - `whole`: a CPU that has just entered a section, heard a note, or recalled an entry or the head, has seen the whole history.
/// - `live`: an entry that a CPU recalls, finds again, or confirms a reference to, is live at that very point of the history. What it confirms
///   it had seen before.
/// - `newest`: the head that a CPU recalls leads to the newest entry that is live at that very point, or no entry is.
#[tactic(auto, using(crate::proofs::runs::Fresh::whole_passes, crate::proofs::runs::Fresh::live_recalls))]
pub fn fresh_answers()
    ensures fresh { FreshAnswers }
    ensures whole { WholePasses }
    ensures live { LiveRecalls }
    ensures newest { NewestRecalls }
{}

/// Theorem, no effect at run time: an entry that takes another's place leaves no gap.
///
/// - `at_once`: a `Republish` ends one entry and attaches another, of the same kind and name, by one change. Where an entry has a kind and name,
///   one has them at each point from there on, up to a detach; so no lookup over these points is a miss.
/// - `plain`: where no event is a Republish, the history is one of attaches and detaches alone, and ranks are numbers.
#[tactic(auto, using(crate::proofs::runs::Replacing::replaced_at_once, crate::proofs::runs::Replacing::plain_runs))]
pub fn replaces()
    ensures at_once { ReplacedAtOnce }
    ensures plain { PlainRuns }
{}

/// Theorem, no effect at run time: at rest the balance of each slot is its local references held.
#[tactic(auto, using(crate::proofs::runs::Headline::balance_at_rest))]
pub fn balance_at_rest()
    ensures { BalanceAtRest }
{}

/// Theorem, no effect at run time: if a CPU's section word is even, or differs from what it was, the section that was open then has had its
/// exit.
pub fn grace_law()
    ensures { GraceLaw }
{}

/// Theorem, no effect at run time: the core invariant is enough for all laws, in any state that has it.
///
/// - For its next event: the headline, safe reuse and lawful lookups.
/// - Balance at rest.
/// - For every list of events that goes on from it: the grace law, the invariant and the run of the model.
///
/// A `Core` always has the invariant, also after a call whose events aren't told.
pub fn invariant_suffices()
    ensures { InvariantSuffices }
{}

/// Theorem, no effect at run time: what all laws say of the pure machine, whose event `narrow_step` refuses a `Publish` of a name that isn't
/// lawful (`Name::parse`), and is `step` else.
///
/// - `events`: each of its events is one of `step`.
/// - `runs`: each of its lists is one of `step`, without what it alone refuses: same state, as many events made, same last reply.
/// - `names`: each entry that it ever attaches has a lawful name.
#[tactic(auto, using(crate::proofs::runs::Narrow::narrow_events, crate::proofs::runs::Narrow::narrow_names, crate::proofs::runs::Narrow::narrow_runs))]
pub fn narrow_runs()
    ensures events { NarrowEvents }
    ensures runs { NarrowRuns }
    ensures names { NarrowNames }
{}

/// Theorem, no effect at run time: six lists of events reply as written, so the definitions aren't vacuous.
///
/// - `frozen_link`: a search goes on along the frozen link of an unlinked entry.
/// - `collect_race`: a reference is given back while its count is collected.
/// - `try_race`: a CPU recalls an entry and gets a passive reference to it without a section; it comes too late for an entry that is
///   detached meanwhile, and for a slot that is freed and reused. It recalls the head, and finds an entry again in a section alone.
/// - `replace_race`: a search finds the old entry or the new one as one takes the other's place.
/// - `replaced_under`: a search is at an entry while it and the next one are replaced: it goes on along the frozen link.
/// - `kept_driver`: a detached driver keeps its slot until its interface is freed.
pub fn worked_run()
    ensures frozen_link { FrozenLink }
    ensures collect_race { CollectRace }
    ensures try_race { TryRace }
    ensures replace_race { ReplaceRace }
    ensures replaced_under { ReplacedUnder }
    ensures kept_driver { KeptDriver }
{}
