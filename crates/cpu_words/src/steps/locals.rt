//! Local references (localcount(9)) by a CPU's seat: each is a seat of its own but while it is in the CPU's hand.

ghost use Rattle.std.specs.Prelude.{◌≡◌, ◌≢◌, ◌+◌, ◌<◌, []};
ghost use Rattle.cpu_words.specs.Types.{Entry, CountAdd, SplitRef, JoinRef, CountDown, SplitBack, Done, Word, Collected, Ref};
ghost use Rattle.registry_values.specs.Common.{bias};
ghost use Rattle.cpu_words.specs.declared.view.View.TheVariants.{Cpu, Reference};
ghost use Rattle.cpu_words.specs.declared.view.InHand.TheVariants.{Giving as GivingEntry};
ghost use Rattle.cpu_words.specs.Sections.{IsIdle};
ghost use Rattle.cpu_words.specs.Rule.{did};
ghost use Rattle.cpu_words.specs.Spots.{IsRowOf};
ghost use Rattle.cpu_words.specs.Steps.{Makes, SplitsBy, JoinsBy, SeatGoesOn, SeatMakes, SeatRegroups};
ghost use Rattle.cpu_words.specs.Locals.{down_reply, IsTaking, IsBack, IsNetCount, IsMetAlone, MayCount, HasCounted, MayCountDown, HasCountedDown, HasFoundCollected, HasSplit, HasSplitBack, with_hand};

use crate::law::Words;
use crate::layout::Row;
use crate::operations::by_seat;
use crate::operations::in_hand::InHandReference;
use crate::seat::{CpuSeat, MustJoin, ReferenceSeat};
use protocol::Event;
use std::marker::Brand;

/// The row's CPU counts a local reference to its last found entry, the one with `number` (from 1) in `slot` (from 0), and has it in its hand:
/// one addition to its count word. Returns the word as it was, which is its net count for that number, over the bias.
/// Condition: the seat is that CPU's, idle, and its net count for that number is below the count limit. The CPU's place of that slot has
/// that count; if the place has another number, the count is 0.
pub fn count_add(words: &Words, seat: &mut CpuSeat, row: Row, slot: u8, number: u64) -> u64
    requires table { seat.old.table ≡ words.now.table }
    requires place { (row.cpu < words.now.settings.cpus) × (slot < words.now.settings.slots) }
    requires cpu { seat.old.view.id ≡ row.cpu }
    requires row { IsRowOf words.now.settings.slots row }
    requires may { MayCount seat.old.view slot number }
    ensures step { SeatMakes Cpu (CountAdd row.cpu) (Word result) seat.old seat.new }
    ensures change { HasCounted seat.old.view slot number seat.new.view }
    ensures word { IsNetCount seat.old.view number result }
    ensures room { result < bias + seat.old.view.settings.count_limit }
    ensures alone { IsMetAlone seat.old.view slot number }
{
    // The contract alone speaks of the entry's number.
    let _number = number;
    let word = row.count_place(words, slot);
    by_seat::add::<_, Brand>(words, seat, word, 1, Event::CountAdd(row.cpu))
}

/// The reference that CPU `cpu` has just counted leaves its hand and gets a seat of its own.
/// Condition: the seat is that CPU's, with a reference in its hand that was just counted.
pub fn split_ref(words: &Words, seat: &mut CpuSeat, cpu: u8) -> ReferenceSeat
    requires table { seat.old.table ≡ words.now.table }
    requires cpu { seat.old.view.id ≡ cpu }
    requires may { (e : Entry) × IsTaking seat.old.view e }
    ensures step { SeatRegroups (did (SplitRef cpu) (Ref 0)) seat.old seat.new }
    ensures event { SplitsBy (SplitRef cpu) (Cpu seat.old.view) (Cpu seat.new.view) (Reference result.view) }
    ensures change { HasSplit seat.old.view seat.new.view result.view }
    ensures new { (result.table ≡ seat.old.table) × (result.log ≡ []) }
{
    // The contract alone speaks of the CPU's number.
    let _cpu = cpu;
    ReferenceSeat {
        token: words
            .table
            .shared
            .split_seat::<InHandReference>(&mut seat.token),
        end: MustJoin,
    }
}

/// The reference that CPU `cpu` couldn't count down leaves its hand and gets its seat again, which knows the CPU whose count word was
/// collected. Condition: the seat is that CPU's, with such a reference in its hand.
pub fn split_back(words: &Words, seat: &mut CpuSeat, cpu: u8) -> ReferenceSeat
    requires table { seat.old.table ≡ words.now.table }
    requires cpu { seat.old.view.id ≡ cpu }
    requires may { (e : Entry) × IsBack seat.old.view e }
    ensures step { SeatRegroups (did (SplitBack cpu) (Ref 0)) seat.old seat.new }
    ensures event { SplitsBy (SplitBack cpu) (Cpu seat.old.view) (Cpu seat.new.view) (Reference result.view) }
    ensures change { HasSplitBack seat.old.view seat.new.view result.view }
    ensures new { (result.table ≡ seat.old.table) × (result.log ≡ []) }
{
    // The contract alone speaks of the CPU's number.
    let _cpu = cpu;
    ReferenceSeat {
        token: words
            .table
            .shared
            .split_seat::<InHandReference>(&mut seat.token),
        end: MustJoin,
    }
}

/// A local reference is taken into the hand of CPU `cpu`, to be given up. Condition: the seat is that CPU's, and idle.
#[tactic(auto, using(crate::proofs::by_cpu::Hands::seat_joins))]
pub fn join_ref(words: &Words, seat: &mut CpuSeat, cpu: u8, reference: ReferenceSeat)
    requires table { (seat.old.table ≡ words.now.table) × (reference.table ≡ words.now.table) }
    requires cpu { seat.old.view.id ≡ cpu }
    requires may { IsIdle seat.old.view }
    ensures step { SeatRegroups (did (JoinRef cpu reference.view.entry.number) Done) seat.old seat.new }
    ensures event { JoinsBy (JoinRef cpu) (Cpu seat.old.view) (Reference reference.view) (Cpu seat.new.view) }
    ensures change { seat.new.view ≡ with_hand seat.old.view (GivingEntry reference.view.entry) }
{
    // The contract alone speaks of the CPU's number.
    let _cpu = cpu;
    let ReferenceSeat {
        token,
        end: MustJoin,
    } = reference;
    words
        .table
        .shared
        .join_seat::<InHandReference>(&mut seat.token, token);
}

/// The row's CPU counts the reference in its hand, to the entry with `number` (from 1) in `slot` (from 0), down: one compare-exchange of its
/// count word from `expected` to one less. Returns the word as it was. If it isn't `expected`, the keeper has collected the word, and the
/// reference stays in the hand, to go back.
/// Condition: the seat is that CPU's, with such a reference in its hand, and `expected` is its net count for that number, over the bias.
/// The CPU's place of that slot has that count; if the place has another number, the count is 0, and `expected` is the bias.
pub fn count_down(
    words: &Words,
    seat: &mut CpuSeat,
    row: Row,
    slot: u8,
    number: u64,
    expected: u64,
) -> u64
    requires table { seat.old.table ≡ words.now.table }
    requires place { (row.cpu < words.now.settings.cpus) × (slot < words.now.settings.slots) }
    requires cpu { seat.old.view.id ≡ row.cpu }
    requires row { IsRowOf words.now.settings.slots row }
    requires may { MayCountDown seat.old.view slot number expected }
    ensures step { SeatGoesOn (did (CountDown row.cpu) (down_reply expected result)) seat.old seat.new }
    ensures floor { 0 < expected }
    ensures net { IsNetCount seat.old.view number expected }
    ensures alone { IsMetAlone seat.old.view slot number }
    ensures counted { result ≡ expected → Makes (CountDown row.cpu) (Word result) (Cpu seat.old.view) (Cpu seat.new.view) × HasCountedDown seat.old.view slot number seat.new.view }
    ensures collected { result ≢ expected → Makes (CountDown row.cpu) Collected (Cpu seat.old.view) (Cpu seat.new.view) × HasFoundCollected seat.old.view number seat.new.view }
{
    // The contract alone speaks of the entry's number.
    let _number = number;
    by_seat::compare_exchange::<_, Brand>(
        words,
        seat,
        row.count_place(words, slot),
        expected,
        expected.wrapping_sub(1),
        Event::CountDown(row.cpu),
    )
}
