//! Steps of the keeper's seat that find in its log what the note beside its view told.

ghost use Rattle.std.specs.Prelude.{◌≡◌, ℕ, ◌<◌, ◌+◌, ◌-◌, ◌%◌, ◌^◌};
ghost use Rattle.cpu_words.specs.Spots.{words_of};
ghost use Rattle.cpu_words.specs.Steps.{is_hear, HasNone, KeeperMay, KeeperStores, SeatGoesOn};
ghost use Rattle.cpu_words.specs.KeeperLog.{IsOwnLog};
ghost use Rattle.cpu_words.specs.Logs.{the_keeper, AreBy};

use crate::law::{KeeperHearing, Tale, Words};
use crate::seat::KeeperSeat;
use crate::view::KeeperView;
use protocol::Event;

/// Loads a word.
pub(crate) fn load<T: Tale<KeeperView>>(
    words: &Words,
    seat: &mut KeeperSeat,
    word: usize,
    event: Event,
) -> u64
    requires table { seat.old.table ≡ words.now.table }
    requires place { word < words_of words.now.settings }
    requires own { (n : ℕ) → AreBy the_keeper (T.does seat.old.view n) }
    requires quiet { (n : ℕ) → HasNone is_hear (T.does seat.old.view n) }
    requires may { KeeperMay words.now.settings seat.old.view word (λ n. n) (T.does seat.old.view) T.tells }
    ensures step { SeatGoesOn (T.does seat.old.view result) seat.old seat.new }
    ensures told { T.tells seat.old.view result seat.new.view }
    ensures own_log { IsOwnLog seat.old.log seat.old.noted_log seat.old.view }
{
    // The contract alone speaks of the event.
    let _event = event;
    words
        .table
        .shared
        .load::<KeeperHearing<T>>(&mut seat.token, word)
}

/// Stores a word.
pub(crate) fn store<T: Tale<KeeperView>>(
    words: &Words,
    seat: &mut KeeperSeat,
    word: usize,
    value: u64,
    event: Event,
)
    requires table { seat.old.table ≡ words.now.table }
    requires place { word < words_of words.now.settings }
    requires own { (n : ℕ) → AreBy the_keeper (T.does seat.old.view n) }
    requires quiet { (n : ℕ) → HasNone is_hear (T.does seat.old.view n) }
    requires may { KeeperStores words.now.settings seat.old.view word value (T.does seat.old.view) T.tells }
    ensures step { SeatGoesOn (T.does seat.old.view value) seat.old seat.new }
    ensures told { T.tells seat.old.view value seat.new.view }
    ensures own_log { IsOwnLog seat.old.log seat.old.noted_log seat.old.view }
{
    // The contract alone speaks of the event.
    let _event = event;
    words
        .table
        .shared
        .store::<KeeperHearing<T>>(&mut seat.token, word, value);
}

/// Subtracts from a word. Returns the word as it was.
pub(crate) fn subtract<T: Tale<KeeperView>>(
    words: &Words,
    seat: &mut KeeperSeat,
    word: usize,
    k: u64,
    event: Event,
) -> u64
    requires table { seat.old.table ≡ words.now.table }
    requires place { word < words_of words.now.settings }
    requires own { (n : ℕ) → AreBy the_keeper (T.does seat.old.view n) }
    requires quiet { (n : ℕ) → HasNone is_hear (T.does seat.old.view n) }
    requires may { KeeperMay words.now.settings seat.old.view word (λ n. (n + (2 ^ 64 - k)) % 2 ^ 64) (T.does seat.old.view) T.tells }
    ensures step { SeatGoesOn (T.does seat.old.view result) seat.old seat.new }
    ensures told { T.tells seat.old.view result seat.new.view }
    ensures own_log { IsOwnLog seat.old.log seat.old.noted_log seat.old.view }
{
    // The contract alone speaks of the event.
    let _event = event;
    words
        .table
        .shared
        .fetch_sub::<KeeperHearing<T>>(&mut seat.token, word, k)
}
