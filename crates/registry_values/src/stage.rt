//! How far the destruction of a retired entry has come.

ghost use Rattle.std.specs.Prelude.{◌≡◌, None};
ghost use Rattle.registry_values.specs.Answers.{destroy_result, stage_of};

use crate::refusal::Refusal;

/// The first obstacle, in this order, between a retired entry and the freeing of its slot.
#[derive(Clone, Copy, Debug, PartialEq, Eq)]
pub enum Stage {
    /// A section of this CPU may still hold the entry (pserialize(9)).
    Grace(u8),
    /// This CPU has a passive reference to it (psref(9)).
    Passive(u8),
    /// So many local references to it are held (localcount(9)); never 0.
    Local(u64),
    /// Nothing: this slot is vacant again.
    Freed(u8),
}

/// The stage of a retired entry that no section may hold and no passive reference is to, by the number of local references to it and by
/// its slot, from 0.
pub fn settled(held: u64, slot: u8) -> Stage
    ensures { result ≡ stage_of slot None None held }
{
    if held == 0 {
        Stage::Freed(slot)
    } else {
        Stage::Local(held)
    }
}

/// The result of a destroy, from its last stage: the slot that was freed, or the obstacle as a refusal.
pub fn destroyed(stage: Stage) -> Result<u8, Refusal>
    ensures { result ≡ destroy_result stage }
{
    match stage {
        Stage::Freed(slot) => Ok(slot),
        held => Err(Refusal::StillHeld(held)),
    }
}
