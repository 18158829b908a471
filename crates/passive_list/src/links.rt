//! The live entries by rank: the list goes down by ranks, so they say where each link leads.

ghost use Rattle.std.specs.Prelude.{◌≡◌, ℕ, length};
ghost use Rattle.cpu_words.specs.Common.{LeadsBelow, IsBefore, IsLinkPlace};
ghost use Rattle.passive_list.specs.Keepers.{AreRanksOf, states_of};
ghost use Rattle.passive_list.specs.Publishing.{is_newer, newer_of, is_older, older_of, link_to, place_of};

use crate::keeper::KeptSlot;
use registry_values::is_live;

/// A live entry: where it is, and its rank.
#[derive(Clone, Copy)]
pub(crate) struct At {
    slot: u8,
    rank: u64,
}

/// The link that leads to the live entry with the greatest rank below `rank`: its slot plus 1, or 0 where there is none.
#[tactic(auto, using(crate::proofs::Leading::newest_to, crate::proofs::Leading::newest_leads))]
pub(crate) fn link_below(rows: &[KeptSlot], slots: u8, rank: u64) -> u64
    requires { length rows.now ≡ slots }
    ensures { (ranks : ℕ → ℕ) → AreRanksOf ranks rows.now → LeadsBelow ranks (states_of rows.now) rank result }
{
    let mut best = None;
    for t in 0..slots {
        best = newer_of(rank, t, best, &rows[t as usize]);
    }
    link_to(best)
}

/// The slot of the live entry with the least rank above `rank`.
#[tactic(auto, using(crate::proofs::Leading::oldest_to, crate::proofs::Leading::oldest_before, crate::proofs::Leading::oldest_place))]
pub(crate) fn slot_above(rows: &[KeptSlot], slots: u8, rank: u64) -> Option<u8>
    requires { length rows.now ≡ slots }
    ensures before { (ranks : ℕ → ℕ) → AreRanksOf ranks rows.now → IsBefore ranks (states_of rows.now) rank result }
    ensures place { IsLinkPlace slots result }
{
    let mut best = None;
    for t in 0..slots {
        best = older_of(rank, t, best, &rows[t as usize]);
    }
    place_of(best)
}

fn place_of(best: Option<At>) -> Option<u8>
    ensures { result ≡ place_of best }
{
    match best {
        None => None,
        Some(at) => Some(at.slot),
    }
}

fn link_to(best: Option<At>) -> u64
    ensures { result ≡ link_to best }
{
    match best {
        None => 0,
        Some(at) => at.slot as u64 + 1,
    }
}

/// The newest so far below a rank, where this is the row of the next slot.
fn newer_of(rank: u64, slot: u8, best: Option<At>, row: &KeptSlot) -> Option<At>
    ensures { result ≡ newer_of rank slot best row.now }
{
    if is_live(&row.state) && row.rank < rank && is_newer(row.rank, best) {
        return Some(At {
            slot,
            rank: row.rank,
        });
    }
    best
}

fn is_newer(rank: u64, best: Option<At>) -> bool
    ensures { result ≡ is_newer rank best }
{
    match best {
        None => true,
        Some(at) => at.rank < rank,
    }
}

/// The oldest so far above a rank, where this is the row of the next slot.
fn older_of(rank: u64, slot: u8, best: Option<At>, row: &KeptSlot) -> Option<At>
    ensures { result ≡ older_of rank slot best row.now }
{
    if is_live(&row.state) && rank < row.rank && is_older(row.rank, best) {
        return Some(At {
            slot,
            rank: row.rank,
        });
    }
    best
}

fn is_older(rank: u64, best: Option<At>) -> bool
    ensures { result ≡ is_older rank best }
{
    match best {
        None => true,
        Some(at) => rank < at.rank,
    }
}
