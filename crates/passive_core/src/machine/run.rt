//! One event after the other.

ghost use Rattle.std.specs.Prelude.{◌≡◌, ◌<◌, IfOk, IfErr, take, length, slice_index_or};
ghost use Rattle.protocol.specs.Common.{Steps, WantsMemory, narrow_run_of_events, empty_run};
ghost use Rattle.passive_core.specs.Types.{LoadRecord, Seat};

use crate::machine::Core;
use protocol::{Counted, Event, RecordOf, Reply, Short, StepFault};

impl Core {
    /// Makes one event. Refused, in this order: `NotAllowed` exactly where the event's condition fails, or a `Publish` is of a name that isn't
    /// lawful (`narrow_step`); `NoMemory` where
    /// a list would have to grow, so only from `Publish`, `Unpublish`, `Republish` and `SplitRef`. Both change nothing.
    pub fn step(&mut self, event: Event) -> Result<Reply, StepFault>
        ensures { Steps self.old self.new event result }
    {
        match event {
            Event::Seat(c) => self.step_seat(c),
            Event::Enter(c) => self.step_enter(c),
            Event::Exit(c) => self.step_exit(c),
            Event::Seek(c, kind, name) => self.step_seek(c, kind, name),
            Event::LoadLink(c) => self.step_load_link(c),
            Event::LoadRecord(of) => self.step_load_record(of),
            Event::StoreSlot(t, k, v) => self.step_store_slot(t, k, v),
            Event::StoreNext(t, v) => self.step_store_next(t, v),
            Event::Publish(t) => self.step_publish(t),
            Event::Unpublish(t) => self.step_unpublish(t),
            Event::Republish(t, u) => self.step_republish(t, u),
            Event::Tell(to) => self.step_tell(to),
            Event::Hear(to) => self.step_hear(to),
            Event::Snapshot(to, c) => self.step_snapshot(to, c),
            Event::Look(to, c) => self.step_look(to, c),
            Event::PassiveAdd(c, number) => self.step_passive_add(c, number),
            Event::PassiveSub(c, number) => self.step_passive_sub(c, number),
            Event::PassiveLook(t, c) => self.step_passive_look(t, c),
            Event::CountAdd(c) => self.step_count_add(c),
            Event::SplitRef(c) => self.step_split_ref(c),
            Event::JoinRef(c, id) => self.step_join_ref(c, id),
            Event::CountDown(c) => self.step_count_down(c),
            Event::SplitBack(c) => self.step_split_back(c),
            Event::Collect(t, c) => self.step_collect(t, c),
            Event::TotalAdd(t) => self.step_total_add(t),
            Event::JoinKeeper(id) => self.step_join_keeper(id),
            Event::TotalSub(t) => self.step_total_sub(t),
            Event::Keep(t, id) => self.step_keep(t, id),
            Event::KeptSub(t) => self.step_kept_sub(t),
            Event::Vacate(t) => self.step_vacate(t),
            Event::Show(t) => self.step_show(t),
            Event::Hide(t) => self.step_hide(t),
            Event::Recall(c, t) => self.step_recall(c, t),
            Event::RecallHead(c) => self.step_recall_head(c),
            Event::Refind(c, t, number) => self.step_refind(c, t, number),
            Event::Try(c, t, number) => self.step_try(c, t, number),
            Event::Confirm(c) => self.step_confirm(c),
            Event::TakeBack(c) => self.step_take_back(c),
        }
    }

    fn step_load_record(&mut self, of: RecordOf) -> Result<Reply, StepFault>
        ensures { Steps self.old self.new (LoadRecord of) result }
    {
        match of {
            RecordOf::Search(c) => self.load_searched(c),
            RecordOf::Passive(c, number, k) => self.load_by_passive(c, number, k),
            RecordOf::Local(id, k) => self.load_by_local(id, k),
            RecordOf::Compared(c) => self.load_compared(c),
        }
    }
}

/// Makes all events in order, and counts and skips those that aren't allowed.
/// Refused: `Short` at the first event that needs memory and gets none; the state is that of the events before it.
pub fn run_events(core: &mut Core, events: &[Event]) -> Result<Counted, Short>
    ensures ok { IfOk result (λ counted. record { state = core.new; counted = counted } ≡ narrow_run_of_events (empty_run core.old) events.now) }
    ensures short { IfErr result (λ short. (short.done < length events.now) × (core.new ≡ (narrow_run_of_events (empty_run core.old) (take short.done events.now)).state)) }
    ensures wanted { IfErr result (λ short. WantsMemory core.new (slice_index_or events.now short.done (Seat 0))) }
{
    let mut counted = Counted {
        taken: 0,
        refused: 0,
        last: None,
    };
    for (done, event) in events.iter().enumerate() {
        match core.step(*event) {
            Ok(reply) => {
                counted.taken += 1;
                counted.last = Some(reply);
            }
            Err(StepFault::NotAllowed) => counted.refused += 1,
            Err(StepFault::NoMemory) => return Err(Short { done }),
        }
    }
    Ok(counted)
}
