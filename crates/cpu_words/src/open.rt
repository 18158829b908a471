//! A new table: its words, the keeper's seat, and a seat for each CPU.

ghost use Rattle.std.specs.Prelude.{◌≡◌, ◌↔◌, ◌≤◌, [], IfOk, IfErr, IsErrOf, IsTrue, false, vec_len, vec_capacity};
ghost use Rattle.registry_values.specs.Common.{are_fit, are_usual, IsRefusalOfNew};
ghost use Rattle.cpu_words.specs.Views.{new_keeper};
ghost use Rattle.cpu_words.specs.Seats.{AreOpening, AreSeats, keeper_with};

use crate::law::Words;
use crate::layout::{total_place, words_of};
use crate::seat::{CpuSeat, KeeperSeat, MayDrop, Seat};
use crate::steps::seat;
use atomic_table::Table;
use registry_values::{BIAS, Refusal, Settings};
use std::alloc::{AllocError, Global};

impl Words {
    /// The words of a registry with these settings, the keeper's seat, and the seat of each CPU, CPU 0 first. All words are 0 but the
    /// totals, no entry has been attached, and all CPUs are outside.
    /// Refused: `BadSettings` if `Settings::check` refuses them, and `NoMemory`.
    #[tactic(auto, using(registry_values::proofs::Fit::usual_fits))]
    pub fn new(
        alloc: Global,
        settings: Settings,
    ) -> Result<(Words, KeeperSeat, Vec<CpuSeat>), Refusal>
        ensures ok { IfOk result (λ made. IsTrue (are_fit settings) × (made.0.settings ≡ settings)) }
        ensures keeper { IfOk result (λ made. (made.1.table ≡ made.0.table) × (made.1.view ≡ record (new_keeper settings) { seated = settings.cpus })) }
        ensures seats { IfOk result (λ made. AreSeats made.0.table settings settings.cpus made.2.items) }
        ensures bad { IsErrOf result Refusal.BadSettings ↔ are_usual settings ≡ false }
        ensures err { IfErr result IsRefusalOfNew }
    {
        settings.check()?;
        match Words::opening(alloc, settings) {
            Ok(made) => Ok(made),
            Err(_) => Err(Refusal::NoMemory),
        }
    }

    /// The same for any settings that the library is proved for.
    #[tactic(auto, using(crate::proofs::seats::Seating::opens))]
    pub fn opening(
        alloc: Global,
        settings: Settings,
    ) -> Result<(Words, KeeperSeat, Vec<CpuSeat>), AllocError>
        requires { IsTrue (are_fit settings) }
        ensures settings { IfOk result (λ made. made.0.settings ≡ settings) }
        ensures keeper { IfOk result (λ made. (made.1.table ≡ made.0.table) × (made.1.view ≡ keeper_with settings settings.cpus)) }
        ensures seats { IfOk result (λ made. AreSeats made.0.table settings settings.cpus made.2.items) }
    {
        let mut seats = Vec::with_capacity(alloc, settings.cpus as usize)?;
        let row = opening_words(alloc, settings)?;
        let (table, token) = Table::of_words(alloc, row.as_slice(), &settings)?;
        let words = Words { table, settings };
        let mut keeper = Seat {
            token,
            end: MayDrop,
        };
        seat_all(&words, &mut keeper, &mut seats);
        Ok((words, keeper, seats))
    }
}

/// The words at the start: all 0 but the totals. They lie on the heap: with many CPUs and slots they are too many for the stack.
#[tactic(auto, using(protocol::proofs::Cells::get_or_all))]
fn opening_words(alloc: Global, settings: Settings) -> Result<Vec<u64>, AllocError>
    ensures { IfOk result (λ words. AreOpening settings words.items) }
{
    let mut words = vec![in alloc; 0; words_of(settings)]?;
    for t in 0..settings.slots {
        words[total_place(t)] = BIAS;
    }
    Ok(words)
}

/// Gives each CPU its seat, CPU 0 first. The list has room for them.
fn seat_all(words: &Words, keeper: &mut KeeperSeat, seats: &mut Vec<CpuSeat>)
    requires table { keeper.old.table ≡ words.now.table }
    requires new { keeper.old.view ≡ keeper_with words.now.settings 0 }
    requires room { (seats.old.items ≡ []) × (vec_len seats.old ≡ 0) × (words.now.settings.cpus ≤ vec_capacity seats.old) }
    ensures table { keeper.new.table ≡ words.now.table }
    ensures keeper { keeper.new.view ≡ keeper_with words.now.settings words.now.settings.cpus }
    ensures seats { AreSeats words.now.table words.now.settings words.now.settings.cpus seats.new.items }
{
    let cpus = words.settings.cpus;
    for _ in 0..cpus {
        seats.push_reserved(seat(words, keeper));
    }
}
