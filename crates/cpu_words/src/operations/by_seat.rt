//! Steps of any seat.

ghost use Rattle.std.specs.Prelude.{◌≡◌, ℕ, ◌<◌, ◌+◌, ◌-◌, ◌%◌, ◌^◌, ◌==◌};
ghost use prog.Atomic.{either};
ghost use Rattle.cpu_words.specs.Spots.{words_of};
ghost use Rattle.cpu_words.specs.Steps.{is_hear, HasNone, SeatMay, SeatGoesOn};
ghost use Rattle.cpu_words.specs.Logs.{who, AreBy};

use crate::law::{Tale, Told, Words};
use crate::seat::{Seat, SeatView};
use protocol::Event;
use registry_values::Key;

/// Adds to a word. Returns the word as it was.
pub(crate) fn add<V: SeatView, T: Tale<V>>(
    words: &Words,
    seat: &mut Seat<V>,
    word: usize,
    k: u64,
    event: Event,
) -> u64
    requires table { seat.old.table ≡ words.now.table }
    requires place { word < words_of words.now.settings }
    requires own { (n : ℕ) → AreBy (who (V.as_view seat.old.view)) (T.does seat.old.view n) }
    requires quiet { (n : ℕ) → HasNone is_hear (T.does seat.old.view n) }
    requires may { SeatMay V.as_view V.of_view words.now.settings seat.old.view word (λ n. (n + k) % 2 ^ 64) (T.does seat.old.view) T.tells }
    ensures step { SeatGoesOn (T.does seat.old.view result) seat.old seat.new }
    ensures told { T.tells seat.old.view result seat.new.view }
{
    // The contract alone speaks of the event.
    let _event = event;
    words
        .table
        .shared
        .fetch_add::<Told<V, T>>(&mut seat.token, word, k)
}

/// Subtracts from a word. Returns the word as it was.
pub(crate) fn subtract<V: SeatView, T: Tale<V>>(
    words: &Words,
    seat: &mut Seat<V>,
    word: usize,
    k: u64,
    event: Event,
) -> u64
    requires table { seat.old.table ≡ words.now.table }
    requires place { word < words_of words.now.settings }
    requires own { (n : ℕ) → AreBy (who (V.as_view seat.old.view)) (T.does seat.old.view n) }
    requires quiet { (n : ℕ) → HasNone is_hear (T.does seat.old.view n) }
    requires may { SeatMay V.as_view V.of_view words.now.settings seat.old.view word (λ n. (n + (2 ^ 64 - k)) % 2 ^ 64) (T.does seat.old.view) T.tells }
    ensures step { SeatGoesOn (T.does seat.old.view result) seat.old seat.new }
    ensures told { T.tells seat.old.view result seat.new.view }
{
    // The contract alone speaks of the event.
    let _event = event;
    words
        .table
        .shared
        .fetch_sub::<Told<V, T>>(&mut seat.token, word, k)
}

/// Loads a word.
pub(crate) fn load<V: SeatView, T: Tale<V>>(
    words: &Words,
    seat: &mut Seat<V>,
    word: usize,
    event: Event,
) -> u64
    requires table { seat.old.table ≡ words.now.table }
    requires place { word < words_of words.now.settings }
    requires own { (n : ℕ) → AreBy (who (V.as_view seat.old.view)) (T.does seat.old.view n) }
    requires quiet { (n : ℕ) → HasNone is_hear (T.does seat.old.view n) }
    requires may { SeatMay V.as_view V.of_view words.now.settings seat.old.view word (λ n. n) (T.does seat.old.view) T.tells }
    ensures step { SeatGoesOn (T.does seat.old.view result) seat.old seat.new }
    ensures told { T.tells seat.old.view result seat.new.view }
{
    // The contract alone speaks of the event.
    let _event = event;
    words.table.shared.load::<Told<V, T>>(&mut seat.token, word)
}

/// Loads a word for a lookup of this key.
pub(crate) fn load_for<V: SeatView, T: Tale<V>>(
    words: &Words,
    seat: &mut Seat<V>,
    word: usize,
    event: Event,
    key: Key,
) -> u64
    requires table { seat.old.table ≡ words.now.table }
    requires place { word < words_of words.now.settings }
    requires own { (n : ℕ) → AreBy (who (V.as_view seat.old.view)) (T.does seat.old.view n) }
    requires quiet { (n : ℕ) → HasNone is_hear (T.does seat.old.view n) }
    requires may { SeatMay V.as_view V.of_view words.now.settings seat.old.view word (λ n. n) (T.does seat.old.view) T.tells }
    ensures step { SeatGoesOn (T.does seat.old.view result) seat.old seat.new }
    ensures told { T.tells seat.old.view result seat.new.view }
{
    // The contract alone speaks of the key.
    let _key = key;
    load::<V, T>(words, seat, word, event)
}

/// Loads a word: by one event where it is `number`, else by another.
pub(crate) fn load_either<V: SeatView, T: Tale<V>>(
    words: &Words,
    seat: &mut Seat<V>,
    word: usize,
    number: u64,
    same: Event,
    other: Event,
) -> u64
    requires table { seat.old.table ≡ words.now.table }
    requires place { word < words_of words.now.settings }
    requires own { (n : ℕ) → AreBy (who (V.as_view seat.old.view)) (T.does seat.old.view n) }
    requires quiet { (n : ℕ) → HasNone is_hear (T.does seat.old.view n) }
    requires may { SeatMay V.as_view V.of_view words.now.settings seat.old.view word (λ n. n) (T.does seat.old.view) T.tells }
    ensures step { SeatGoesOn (T.does seat.old.view result) seat.old seat.new }
    ensures told { T.tells seat.old.view result seat.new.view }
{
    // The contract alone speaks of the number and of the other event.
    let _number = number;
    let _other = other;
    load::<V, T>(words, seat, word, same)
}

/// Writes a word. Returns the word as it was.
pub(crate) fn swap<V: SeatView, T: Tale<V>>(
    words: &Words,
    seat: &mut Seat<V>,
    word: usize,
    value: u64,
    event: Event,
) -> u64
    requires table { seat.old.table ≡ words.now.table }
    requires place { word < words_of words.now.settings }
    requires own { (n : ℕ) → AreBy (who (V.as_view seat.old.view)) (T.does seat.old.view n) }
    requires quiet { (n : ℕ) → HasNone is_hear (T.does seat.old.view n) }
    requires may { SeatMay V.as_view V.of_view words.now.settings seat.old.view word (λ _. value) (T.does seat.old.view) T.tells }
    ensures step { SeatGoesOn (T.does seat.old.view result) seat.old seat.new }
    ensures told { T.tells seat.old.view result seat.new.view }
{
    // The contract alone speaks of the event.
    let _event = event;
    words
        .table
        .shared
        .swap::<Told<V, T>>(&mut seat.token, word, value)
}

/// Writes `new` if the word is `old`. Returns the word as it was.
pub(crate) fn compare_exchange<V: SeatView, T: Tale<V>>(
    words: &Words,
    seat: &mut Seat<V>,
    word: usize,
    old: u64,
    new: u64,
    event: Event,
) -> u64
    requires table { seat.old.table ≡ words.now.table }
    requires place { word < words_of words.now.settings }
    requires own { (n : ℕ) → AreBy (who (V.as_view seat.old.view)) (T.does seat.old.view n) }
    requires quiet { (n : ℕ) → HasNone is_hear (T.does seat.old.view n) }
    requires may { SeatMay V.as_view V.of_view words.now.settings seat.old.view word (λ n. either (n == old) new n) (T.does seat.old.view) T.tells }
    ensures step { SeatGoesOn (T.does seat.old.view result) seat.old seat.new }
    ensures told { T.tells seat.old.view result seat.new.view }
{
    // The contract alone speaks of the event.
    let _event = event;
    words
        .table
        .shared
        .compare_exchange::<Told<V, T>>(&mut seat.token, word, old, new)
}
