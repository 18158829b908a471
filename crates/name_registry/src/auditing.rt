//! The audit of local references (localcount(9)), for a caller that holds the keeper and all CPUs.
//!
//! One body serves a registry and C: traits say how it reaches a CPU, which may be missing behind a handle, and how it writes a balance.

ghost use Rattle.std.specs.Prelude.{◌≡◌, ◌↔◌, ◌⊎◌, ◌++◌, ◌+◌, ◌+ℤ◌, ◌≤ℤ◌, ◌<◌, ◌≤◌, ◌^◌, ℕ, All, IfOk, IfErr, IsErrOf, OnErr, IsSome, Option, Some, length, map, take, get_or, neg_ℤ, pos, true, false};
ghost use Rattle.registry_values.specs.Common.{Tally, slot_at, sum_of, tally_shown};
ghost use Rattle.protocol.specs.Common.{IsIn};
ghost use mathlib.Core.List.{IsPrefix};
ghost use Rattle.cpu_words.specs.Common.{AreWordsOf, Named};
ghost use Rattle.passive_list.specs.Common.{HasHeardOn, OnCpu, WasShown, has_heard, has_told, place_at};
ghost use Rattle.name_registry.specs.Types.{Entry};
ghost use Rattle.name_registry.specs.Auditing.{AreAllCpus, AreAllThere, AreAlike, AreItsWords, AreOf, AreThere, AreTold, HasListened, HasToldAll, HaveHeardAndTold, HaveLearned, IsAuditBy, IsAuditIn, IsAuditOf, IsOccupied, Occupies, WritesNext, entries_in, is_collected, local_met, locals_met, occupied, place_of, places_below, tallies_met, tally_met};
ghost use Rattle.name_registry.specs.Locking.{keeper_after_tell};

use cpu_words::{Domain, NoteSeat, Words};
use local_count::net_count;
use passive_list::{
    Cpu, Keeper, NumberedCount, PlainCpu, hear_keeper, hear_on, tell_keeper, tell_on,
};
use registry_values::{Balance, MOST_CPUS, MOST_SLOTS, Refusal, Slot, less_bias, sum};
use std::alloc::{AllocError, Global};

/// How an audit reaches a CPU in what it is lent: the CPU itself, or a handle of one, behind which may be none.
pub trait ReachesCpu {
    /// What it is lent.
    type Lent;

    /// The CPU. Nothing is said of it where there is none.
    ghost cpu: { Self.Lent → OnCpu };

    /// The CPU's table, if there is a CPU.
    ghost table: { Self.Lent → Option Named };

    /// Whether it is the CPU with this number.
    fn is_cpu(lent: &mut Self::Lent, id: u8) -> bool
        ensures same { lent.new ≡ lent.old }
        ensures yes { result ≡ true → IsSome (table lent.old) × ((cpu lent.old).view.id ≡ id) }
        ensures no { result ≡ false → IsSome (table lent.old) → (cpu lent.old).view.id ≡ id → ⊥ };

    /// The CPU hears the note and tells on what it knows then. Conditions: there is one; the words and the note are of its table.
    fn pass_on(lent: &mut Self::Lent, words: &Words, note: NoteSeat) -> NoteSeat
        requires words { AreItsWords (table lent.old) words.now }
        requires note { note.table ≡ words.now.table }
        ensures table { table lent.new ≡ table lent.old }
        ensures heard { HasHeardOn note.view (cpu lent.old) (cpu lent.new) }
        ensures told { IsPrefix note.known_log (cpu lent.new).known_log }
        ensures shown { WasShown note.view (cpu lent.old) (cpu lent.new) }
        ensures log { (cpu lent.new).log ≡ (cpu lent.old).log ++ has_heard (cpu lent.old) note.teller ++ has_told (cpu lent.old) }
        ensures note { (result.table ≡ note.table) × (result.known_log ≡ (cpu lent.new).known_log) }
        ensures pass { result.view ≡ (cpu lent.new).view.pass };

    /// The CPU's net count for the entry with `number` in the slot `t`, as `local_on` has it. Conditions: there is one, and those of `local_on`.
    fn local(lent: &mut Self::Lent, keeper: &Keeper, t: u8, number: u64) -> i64
        requires there { IsSome (table lent.old) }
        requires entry { (t < MOST_SLOTS) × (0 < number) }
        ensures same { lent.new ≡ lent.old }
        ensures value { result ≡ local_met keeper.now.keeper t number (cpu lent.old) }
        ensures range { (neg_ℤ (pos (2 ^ 50)) ≤ℤ result) × (result ≤ℤ pos (2 ^ 50)) };
}

/// How an audit writes what it says of an entry into a place of its list.
pub trait WritesBalance {
    /// What a place has.
    type Place;

    /// It has room for the net counts of so many CPUs.
    ghost fits: { ℕ → Self.Place → Type 0 };

    /// What it says.
    ghost shown: { Self.Place → Tally };

    /// What it says once this is written.
    ghost kept: { Tally → Tally };

    fn write(place: &mut Self::Place, number: u64, slot: u8, held: i64, locals: &[i64], total: i64)
        requires fits { fits (length locals.now) place.old }
        requires few { length locals.now ≤ MOST_CPUS }
        ensures { shown place.new ≡ kept (record { number = number; slot = slot; held = held; locals = locals.now; total = total }) };
}

/// The CPU itself.
impl<D: Domain> ReachesCpu for Cpu<D> {
    type Lent = Cpu<D>;

    ghost cpu = { λ x. x };

    ghost table = { λ x. Some (record { table = D.table; settings = D.settings }) };

    fn is_cpu(lent: &mut Cpu<D>, id: u8) -> bool {
        lent.id() == id
    }

    fn pass_on(lent: &mut Cpu<D>, words: &Words, note: NoteSeat) -> NoteSeat {
        hear_on(words, &mut lent.plain, note);
        tell_on(words, &mut lent.plain)
    }

    fn local(lent: &mut Cpu<D>, keeper: &Keeper, t: u8, number: u64) -> i64 {
        local_on(keeper, &lent.plain, t, number)
    }
}

/// As it is, over the net counts of as many CPUs.
impl WritesBalance for Balance {
    type Place = Balance;

    ghost fits = { λ n b. length b.locals.items ≡ n };

    ghost shown = { tally_shown };

    ghost kept = { λ y. y };

    fn write(place: &mut Balance, number: u64, slot: u8, held: i64, locals: &[i64], total: i64) {
        place.number = number;
        place.slot = slot;
        place.held = held;
        place.locals.copy_from_slice(locals);
        place.total = total;
    }
}

/// Audits the local references (localcount(9)): returns a `Balance` for each live or retired entry, lowest slot first. It has each CPU's net count,
/// or 0 if collected; as total what was collected, less what was given up; as `held` their sum.
///
/// - Ok: `held` is the tally (`answer`). The list follows from the CPUs and what they know (`known`), and from the keeper's log (`log`).
/// - Ok or `NoMemory`: all CPUs know the keeper's log and have its history as their pass (`told`). Each heard and told once (`notes`).
///
/// Refused, in this order:
///
/// - `MissingCpu` if the slice isn't CPU 0, 1, .. of this registry in this order; nothing has changed then;
/// - `NoMemory`, but not if there is no such entry.
#[tactic(auto, using(crate::proofs::Audits::sums_met, crate::proofs::Gathered::tallies_learned))]
pub fn audit_in<D: Domain>(
    alloc: Global,
    words: &Words,
    keeper: &mut Keeper,
    cpus: &mut [Cpu<D>],
) -> Result<Vec<Balance>, Refusal>
    requires words { AreWordsOf words.now keeper.old.words.table keeper.old.words.settings }
    requires named { AreWordsOf keeper.old.words D.table D.settings }
    ensures missing { IsErrOf result Refusal.MissingCpu ↔ (AreAllCpus keeper.old.words.settings.cpus cpus.old → ⊥) }
    ensures err { IfErr result (λ refusal. (refusal ≡ Refusal.MissingCpu) ⊎ (refusal ≡ Refusal.NoMemory)) }
    ensures wanted { IsErrOf result Refusal.NoMemory → IsOccupied keeper.old.keeper }
    ensures places { IfOk result (λ list. map place_of list.items ≡ places_below keeper.old.keeper keeper.old.words.settings.slots) }
    ensures sums { IfOk result (λ list. All (λ b. b.held ≡ sum_of b.locals.items +ℤ b.total) list.items) }
    ensures locals { IfOk result (λ list. All (λ b. length b.locals.items ≡ keeper.old.words.settings.cpus) list.items) }
    ensures answer { IfOk result (λ list. IsAuditOf keeper.old.words.settings keeper.old.keeper cpus.old list.items) }
    ensures known { IfOk result (λ list. IsAuditBy keeper.old.words.settings cpus.old cpus.new list.items) }
    ensures log { IfOk result (λ list. IsAuditIn keeper.old.words.settings (keeper_after_tell keeper.old.keeper).log cpus.old list.items) }
    ensures keeper { HasListened keeper.old.keeper keeper.new.keeper }
    ensures cpus { HaveLearned cpus.old cpus.new }
    ensures notes { AreAllCpus keeper.old.words.settings.cpus cpus.old → HaveHeardAndTold cpus.old cpus.new }
    ensures told { AreAllCpus keeper.old.words.settings.cpus cpus.old → HasToldAll keeper.old.keeper cpus.new keeper.new.keeper }
    ensures unchanged { IsErrOf result Refusal.MissingCpu → (keeper.new ≡ keeper.old) × (cpus.new ≡ cpus.old) }
    ensures words { keeper.new.words ≡ keeper.old.words }
{
    if !are_all::<Cpu<D>>(keeper.settings().cpus, cpus) {
        return Err(Refusal::MissingCpu);
    }
    gather::<Cpu<D>>(words, keeper, cpus);
    match balances(alloc, keeper, cpus) {
        Ok(list) => Ok(list),
        Err(_) => Err(Refusal::NoMemory),
    }
}

/// The balances of all entries, the lowest slot first, in memory that is taken first.
fn balances<D: Domain>(
    alloc: Global,
    keeper: &Keeper,
    cpus: &mut [Cpu<D>],
) -> Result<Vec<Balance>, AllocError>
    requires { length cpus.old ≤ MOST_CPUS }
    ensures cpus { cpus.new ≡ cpus.old }
    ensures value { IfOk result (λ list. map tally_shown list.items ≡ tallies_met keeper.now.keeper cpus.old keeper.now.words.settings.slots) }
    ensures wanted { OnErr result (IsOccupied keeper.now.keeper) }
{
    let mut list = blank(alloc, count_entries(keeper), cpus.len())?;
    write_balances::<Cpu<D>, Balance>(keeper, cpus, &mut list);
    Ok(list)
}

/// So many balances of nothing, each with room for so many CPUs.
fn blank(alloc: Global, count: usize, cpus: usize) -> Result<Vec<Balance>, AllocError>
    ensures count { IfOk result (λ list. length list.items ≡ count) }
    ensures fits { IfOk result (λ list. All (λ b. length b.locals.items ≡ cpus) list.items) }
    ensures wanted { OnErr result (0 < count) }
{
    let mut list = Vec::new(alloc);
    for _ in 0..count {
        list.push(Balance {
            number: 0,
            slot: 0,
            held: 0,
            locals: vec![in alloc; 0; cpus]?,
            total: 0,
        })?;
    }
    Ok(list)
}

/// Lets all know the same of what the keeper did: the keeper tells, each CPU hears in turn and tells on, and the keeper hears the last one.
/// Conditions: the words are the keeper's; each CPU is there, and of its table.
pub fn gather<C: ReachesCpu>(words: &Words, keeper: &mut Keeper, cpus: &mut [C::Lent])
    requires words { AreWordsOf words.now keeper.old.words.table keeper.old.words.settings }
    requires there { AreOf keeper.old.words (map C.table cpus.old) }
    ensures alike { AreAlike keeper.old.keeper (map C.cpu cpus.old) (map C.cpu cpus.new) }
    ensures keeper { HasListened keeper.old.keeper keeper.new.keeper }
    ensures cpus { HaveLearned (map C.cpu cpus.old) (map C.cpu cpus.new) }
    ensures notes { HaveHeardAndTold (map C.cpu cpus.old) (map C.cpu cpus.new) }
    ensures told { HasToldAll keeper.old.keeper (map C.cpu cpus.new) keeper.new.keeper }
    ensures tables { map C.table cpus.new ≡ map C.table cpus.old }
    ensures words { keeper.new.words ≡ keeper.old.words }
{
    let mut note = tell_keeper(words, keeper);
    for c in 0..cpus.len() {
        note = C::pass_on(&mut cpus[c], words, note);
    }
    hear_keeper(words, keeper, note);
}

/// Whether these are so many CPUs, 0, 1, .., in this order.
pub fn are_all<C: ReachesCpu>(count: u8, cpus: &mut [C::Lent]) -> bool
    ensures same { cpus.new ≡ cpus.old }
    ensures yes { result ≡ true → AreAllThere count (map C.table cpus.old) (map C.cpu cpus.old) }
    ensures no { result ≡ false → AreAllThere count (map C.table cpus.old) (map C.cpu cpus.old) → ⊥ }
{
    if cpus.len() != count as usize {
        return false;
    }
    for c in 0..count {
        if !C::is_cpu(&mut cpus[c as usize], c) {
            return false;
        }
    }
    true
}

/// How many slots have an entry.
pub fn count_entries(keeper: &Keeper) -> usize
    ensures { result ≡ occupied keeper.now.keeper keeper.now.words.settings.slots }
{
    let mut count = 0;
    for t in 0..keeper.settings().slots {
        count += entries_in(keeper.slot(t));
    }
    count
}

fn entries_in(slot: Slot) -> usize
    ensures { result ≡ entries_in slot }
{
    match slot {
        Slot::Vacant => 0,
        Slot::Live(_) | Slot::Retired(_) => 1,
    }
}

/// Writes the balance of each entry, the lowest-numbered slot first. The rest of the list stays.
/// Conditions: each CPU is there; the list has a place for each entry, and each place room for the CPUs.
pub fn write_balances<C: ReachesCpu, W: WritesBalance>(
    keeper: &Keeper,
    cpus: &mut [C::Lent],
    list: &mut [W::Place],
)
    requires there { AreThere (map C.table cpus.old) }
    requires few { length cpus.old ≤ MOST_CPUS }
    requires room { occupied keeper.now.keeper keeper.now.words.settings.slots ≤ length list.old }
    requires fits { All (W.fits (length cpus.old)) list.old }
    ensures cpus { cpus.new ≡ cpus.old }
    ensures list { AreTold W.shown (λ n t. W.kept (tally_met keeper.now.keeper (map C.cpu cpus.old) n t)) keeper.now.keeper keeper.now.words.settings.slots (occupied keeper.now.keeper keeper.now.words.settings.slots) list.old list.new }
{
    let mut at = 0;
    for t in 0..keeper.settings().slots {
        at = write_next::<C, W>(keeper, cpus, list, t, at);
    }
}

/// Writes the balance of the slot's entry, if it has one. The answer is the next place in the list.
fn write_next<C: ReachesCpu, W: WritesBalance>(
    keeper: &Keeper,
    cpus: &mut [C::Lent],
    list: &mut [W::Place],
    t: u8,
    at: usize,
) -> usize
    requires there { AreThere (map C.table cpus.old) }
    requires few { length cpus.old ≤ MOST_CPUS }
    requires room { (e : Entry) → IsIn e (slot_at keeper.now.keeper.slots t) → at < length list.old }
    requires fits { (p : W.Place) → at < length list.old → W.fits (length cpus.old) (get_or list.old at p) }
    ensures cpus { cpus.new ≡ cpus.old }
    ensures next { WritesNext W.shown (λ n u. W.kept (tally_met keeper.now.keeper (map C.cpu cpus.old) n u)) keeper.now.keeper t at list.old result list.new }
{
    match keeper.slot(t) {
        Slot::Vacant => at,
        Slot::Live(entry) | Slot::Retired(entry) => {
            write_balance::<C, W>(keeper, cpus, t, entry.number, &mut list[at]);
            at + 1
        }
    }
}

/// Writes what the counts say of the entry with this number in the slot.
fn write_balance<C: ReachesCpu, W: WritesBalance>(
    keeper: &Keeper,
    cpus: &mut [C::Lent],
    t: u8,
    number: u64,
    place: &mut W::Place,
)
    requires there { AreThere (map C.table cpus.old) }
    requires few { length cpus.old ≤ MOST_CPUS }
    requires entry { Occupies keeper.now.keeper t number }
    requires fits { W.fits (length cpus.old) place.old }
    ensures cpus { cpus.new ≡ cpus.old }
    ensures tally { W.shown place.new ≡ W.kept (tally_met keeper.now.keeper (map C.cpu cpus.old) number t) }
{
    let total = less_bias(keeper.rows()[t as usize].total_or_bias());
    let mut row = [0; MOST_CPUS];
    read_locals::<C>(keeper, cpus, t, number, &mut row);
    let locals = &row[..cpus.len()];
    let held = sum(locals) + total;
    W::write(place, number, t, held, locals, total);
}

/// Reads of each CPU its net count for the entry.
fn read_locals<C: ReachesCpu>(
    keeper: &Keeper,
    cpus: &mut [C::Lent],
    t: u8,
    number: u64,
    row: &mut [i64; MOST_CPUS],
)
    requires there { AreThere (map C.table cpus.old) }
    requires few { length cpus.old ≤ MOST_CPUS }
    requires entry { (t < MOST_SLOTS) × (0 < number) }
    ensures cpus { cpus.new ≡ cpus.old }
    ensures value { take (length cpus.old) row.new ≡ locals_met keeper.now.keeper (map C.cpu cpus.old) t number }
    ensures range { (c : ℕ) → c < length cpus.old → (neg_ℤ (pos (2 ^ 50)) ≤ℤ get_or row.new c (pos 0)) × (get_or row.new c (pos 0) ≤ℤ pos (2 ^ 50)) }
{
    for c in 0..cpus.len() {
        row[c] = C::local(&mut cpus[c], keeper, t, number);
    }
}

/// What an audit says of one CPU, for a caller that is lent the CPUs one at a time, each naming its own table: its net count for the entry
/// with `number` in the slot `t`, by its place; 0 where the keeper has collected it. It makes no step.
/// Condition: the slot is below `MOST_SLOTS`; an entry's number is never 0.
pub fn local_on(keeper: &Keeper, cpu: &PlainCpu, t: u8, number: u64) -> i64
    requires { (t < MOST_SLOTS) × (0 < number) }
    ensures value { result ≡ local_met keeper.now.keeper t number cpu.now.cpu }
    ensures range { (neg_ℤ (pos (2 ^ 50)) ≤ℤ result) × (result ≤ℤ pos (2 ^ 50)) }
{
    if is_collected(keeper, t, cpu.row.cpu) {
        0
    } else {
        less_bias(net_count(net_place(cpu.net.as_slice(), t), number))
    }
}

/// The place of a slot. Past the last slot it is of no entry.
fn net_place(places: &[NumberedCount], t: u8) -> NumberedCount
    ensures { result ≡ place_at places.now t }
{
    if usize::from(t) < places.len() {
        places[t as usize]
    } else {
        NumberedCount::NONE
    }
}

/// Whether the keeper has collected the CPU's count word for the entry in the slot `t`.
#[tactic(auto, using(passive_list::proofs::Rows::retired_in, crate::proofs::Audits::none_past))]
fn is_collected(keeper: &Keeper, t: u8, cpu: u8) -> bool
    ensures { result ≡ is_collected keeper.now.keeper t cpu }
{
    let cpus = keeper.settings().cpus;
    if cpu >= cpus {
        return false;
    }
    match keeper.slot(t) {
        Slot::Retired(_) => keeper.mark(t, cpu).collected,
        Slot::Vacant | Slot::Live(_) => false,
    }
}
