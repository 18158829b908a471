//! The laws of the protocol, said of the running words: functions that do nothing, whose contracts are the laws.

ghost use Rattle.cpu_words.specs.Headline.{DrainedIsFree, FoundIsHeld, HeldHaveSlots, MarksAreHonest, RunningHeadline, SeatsBalance};
ghost use Rattle.cpu_words.specs.Freed.{EndedRuns, EndedRunsForAll, FreedByKeeper, FreedIsGone, AttachedKeeps};
ghost use Rattle.cpu_words.specs.Called.{CpuHearsLater, EndsOpenSections, KeeperHearsLater};
ghost use Rattle.cpu_words.specs.Waiting.{WaitingEnds, OrderedInTime};
ghost use Rattle.cpu_words.specs.Fresh.{HeadsAreNewest, LookupsAreFresh, LookupsAreLinear, RecallsAreLive, RefindsAreLive, WholeInTheList};

/// The running headline, no effect at run time: what holds in every table under the rule (`LoggedRuled`); see GUARANTEES.md.
///
/// - `run`: some list of events leads to what the words and views show, and obeys the protocol's laws.
/// - `held`: an entry that anything holds has its slot.
/// - `fresh`: a search's result was the registry's between its Seek and its last load.
/// - `linear`: it takes effect at one point of the list between these, where it is the registry's.
/// - `whole`: Enter, Hear, Recall, RecallHead, Refind and Confirm see the whole history.
/// - `recalled`: an entry that a CPU recalled was live as its live word was loaded, by that load's place in the list.
/// - `refound`: so was one that a CPU found again.
/// - `newest`: the head that a CPU recalled led to the newest live entry as it was loaded, or there was none, by that load's place in the list.
/// - `balance`: a slot's words, less biases, are its local references.
/// - `grows`, `told`, `heard`: of two moments, what is done between them comes after all that was known at the first: what a seat does, what
///   the keeper does once it has heard a note of that seat, what a CPU knows once it has heard one.
/// - `ended`: a wait that began between two moments has seen the exit of each section that was known to be open at the first.
/// - `waiting`: earlier sections have ended.
/// - `freed`, `freed_by`: nothing holds a detached entry whose slot was vacated.
/// - `kept`: an interface's slot keeps its driver.
#[tactic(auto, using(crate::proofs::laws::Safety::running_headline, crate::proofs::laws::Fresh::heads_are_newest, crate::proofs::laws::Fresh::lookups_are_fresh, crate::proofs::laws::Linear::lookups_are_linear, crate::proofs::laws::Fresh::recalls_are_live, crate::proofs::laws::Fresh::refinds_are_live, crate::proofs::laws::Fresh::whole_in_the_list, crate::proofs::laws::Called::ordered_in_time, crate::proofs::laws::Called::keeper_hears_later))]
pub fn running_headline()
    ensures run { RunningHeadline }
    ensures held { HeldHaveSlots }
    ensures grows { OrderedInTime }
    ensures told { KeeperHearsLater }
    ensures heard { CpuHearsLater }
    ensures ended { EndsOpenSections }
    ensures fresh { LookupsAreFresh }
    ensures linear { LookupsAreLinear }
    ensures whole { WholeInTheList }
    ensures recalled { RecallsAreLive }
    ensures refound { RefindsAreLive }
    ensures newest { HeadsAreNewest }
    ensures waiting { WaitingEnds }
    ensures freed { FreedIsGone }
    ensures freed_by { FreedByKeeper }
    ensures kept { AttachedKeeps }
    ensures balance { SeatsBalance }
{}

/// Theorem, no effect at run time: what holds of the words that `Words::close` returns, on any schedule. Its hypothesis, that they are under the
/// rule (`HasClosed`, `HaveClosed`), is what `close` and `close_all` ensure.
///
/// A list of events leads from the opening to the words. Each event was made, with its reply, by the seat at its place (`are`, `all`): the keeper's
/// by the keeper's, and a CPU's by that CPU's (`seat`, `owners`).
///
/// - `words`, `holds`, `modelled`, `laws`: they are the words of the state that the list leads to, which obeys the protocol's laws.
/// - `keeper`, `shown`: the keeper's log is its whole part of the list, and its view is of that state.
/// - `gone`: an entry that the keeper freed by that log has no slot, no holder, and no live word.
///
/// For the CPU whose seat ended the table:
///
/// - `own`, `shown`: its log is its whole part of the list, and its view is of that state.
/// - `known`, `seen`: what it knew of the keeper's log begins that log, and its pass the history.
///
/// Where the keeper ended the table (`Words::close_all`), this is so of each CPU that it took over, by one list (`all`). And no entry was
/// freed while one of these held it by its log: in a section that had found it, or by a passive reference, also of a get (`held`); nor while
/// there was a local reference to it, by the logs of all CPUs and the keeper's (`locals`). What the logs count as held is just what there was,
/// at each event (`exact`), and at the end of each CPU (`references`).
#[tactic(auto, using(crate::proofs::laws::Freed::ended_runs, crate::proofs::laws::Freed::ended_runs_for_all))]
pub fn ended_run()
    ensures ended { EndedRuns }
    ensures all { EndedRunsForAll }
{}

/// Theorem, no effect at run time: what the keeper's marks say of all seats, in every state of the table that is under the rule.
///
/// - `drained`: if all marks of a retired slot are set and its total is its bias, nothing holds its entry: no section, passive reference,
///   hand, local reference or slot.
/// - `marked`, for one CPU. Passed: no open section of it may hold the entry. Clear: it has no passive reference to the entry, and its
///   passive word is 0, or 1 while the CPU is trying to get a reference in that slot. Collected: its count word is 0.
/// - `found`: a CPU's open section may hold the CPU's last found entry.
pub fn honest_marks()
    ensures drained { DrainedIsFree }
    ensures marked { MarksAreHonest }
    ensures found { FoundIsHeld }
{}
