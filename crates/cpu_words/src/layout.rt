//! The place of each word of the table, by the settings.
//!
//! ```text
//! place                              word                                              written by
//! 0 to 15                            none                                              no one, once the table is made
//! HEAD                               slot of the newest live entry plus 1, or 0        the keeper
//! NEXTS + STRIDE * t                 slot of the next older entry plus 1, or 0         the keeper
//! RECORDS + STRIDE * t + k           word k of the record in slot t                    the keeper
//! LIVES + STRIDE * t                 number of slot t's live entry, or 0               the keeper
//! TOTALS + STRIDE * t                total of slot t                                   the keeper
//! rows + row * c                     section of CPU c                                  CPU c
//! rows + row * c + PASSIVES + t      passive references of CPU c to slot t's entry     CPU c
//! rows + row * c + PASSIVES + s + t  count of CPU c for slot t                         CPU c, the keeper
//! ```

ghost use Rattle.std.specs.Prelude.{◌≡◌, ◌<◌, ◌≤◌, ◌+◌, ◌*◌, ◌-◌};
ghost use Rattle.cpu_words.specs.Spots.{rows_from, stride_of, words_of, section_of, passive_of, count_of, index, IsRowOf, LinesApart, OnePlace, FirstWordsFree, AllBelow};

use crate::law::Words;
use registry_values::{MOST_SLOTS, Settings};

/// The words of a line of 64 bytes.
const LINE: usize = 8;

/// The head of the list: behind two lines on which no word is.
pub(crate) const HEAD: usize = 2 * LINE;

/// The link of slot 0.
const NEXTS: usize = HEAD + LINE;

/// The first record word of slot 0.
const RECORDS: usize = NEXTS + 1;

/// The live word of slot 0, on the line of its link and its record.
const LIVES: usize = NEXTS + 6;

/// The total of slot 0.
pub(crate) const TOTALS: usize = NEXTS + 7;

/// From a slot's words to the next one's.
pub(crate) const STRIDE: usize = LINE;

/// In a row, the passive word of slot 0.
const PASSIVES: usize = 1;

/// In a row, the words that no one writes, and the section's.
const APART: usize = 2 * LINE;

/// The row of CPU 0: a line behind the slots.
fn rows_place(slots: u8) -> usize
    ensures { result ≡ rows_from slots }
{
    NEXTS + STRIDE * slots as usize + LINE
}

/// From a CPU's row to the next one.
fn row_size(slots: u8) -> usize
    ensures { result ≡ stride_of slots }
{
    2 * slots as usize + APART
}

/// How many words a table has.
pub(crate) fn words_of(settings: Settings) -> usize
    ensures { result ≡ words_of settings }
{
    rows_place(settings.slots) + settings.cpus as usize * row_size(settings.slots)
}

/// Where a CPU's words are, for whoever steps on them again and again: each place is one addition or none.
#[derive(Clone, Copy, Debug, PartialEq, Eq)]
pub struct Row {
    /// The CPU's number, from 0.
    pub cpu: u8,
    /// The place of its section word.
    section: u32,
    /// The place of its count word for slot 0.
    counts: u32,
}

impl Row {
    /// The row of a CPU, in a table of so many slots.
    pub fn of(slots: u8, cpu: u8) -> Row
        ensures row { IsRowOf slots result }
        ensures cpu { result.cpu ≡ cpu }
    {
        let section = rows_place(slots) + cpu as usize * row_size(slots);
        Row {
            cpu,
            section: section as u32,
            counts: (section + PASSIVES + slots as usize) as u32,
        }
    }

    /// The place of the CPU's section word.
    #[tactic(auto, using(crate::proofs::shown::Placing::below_size))]
    pub(crate) fn section_place(self, words: &Words) -> usize
        requires cpu { self.cpu < words.now.settings.cpus }
        requires row { IsRowOf words.now.settings.slots self }
        ensures place { result ≡ index words.now.settings (section_of self.cpu) }
        ensures below { result < words_of words.now.settings }
    {
        // The contract alone speaks of the words.
        let _words = words;
        self.section as usize
    }

    /// The place of the CPU's passive word for a slot.
    pub(crate) fn passive_place(self, words: &Words, slot: u8) -> usize
        requires word { (self.cpu < words.now.settings.cpus) × (slot < words.now.settings.slots) }
        requires row { IsRowOf words.now.settings.slots self }
        ensures place { result ≡ index words.now.settings (passive_of self.cpu slot) }
        ensures below { result < words_of words.now.settings }
    {
        // The contract alone speaks of the words.
        let _words = words;
        self.section as usize + PASSIVES + slot as usize
    }

    /// The place of the CPU's count word for a slot.
    pub(crate) fn count_place(self, words: &Words, slot: u8) -> usize
        requires word { (self.cpu < words.now.settings.cpus) × (slot < words.now.settings.slots) }
        requires row { IsRowOf words.now.settings.slots self }
        ensures place { result ≡ index words.now.settings (count_of self.cpu slot) }
        ensures below { result < words_of words.now.settings }
    {
        // The contract alone speaks of the words.
        let _words = words;
        self.counts as usize + slot as usize
    }
}

/// The place of a CPU's section word.
pub(crate) fn section_place(words: &Words, cpu: u8) -> usize
    requires cpu { cpu < words.now.settings.cpus }
    ensures place { result ≡ index words.now.settings (section_of cpu) }
    ensures below { result < words_of words.now.settings }
{
    Row::of(words.settings().slots, cpu).section_place(words)
}

/// The place of a CPU's passive word for a slot.
pub(crate) fn passive_place(words: &Words, cpu: u8, slot: u8) -> usize
    requires word { (cpu < words.now.settings.cpus) × (slot < words.now.settings.slots) }
    ensures place { result ≡ index words.now.settings (passive_of cpu slot) }
    ensures below { result < words_of words.now.settings }
{
    Row::of(words.settings().slots, cpu).passive_place(words, slot)
}

/// The place of a CPU's count word for a slot.
pub(crate) fn count_place(words: &Words, cpu: u8, slot: u8) -> usize
    requires word { (cpu < words.now.settings.cpus) × (slot < words.now.settings.slots) }
    ensures place { result ≡ index words.now.settings (count_of cpu slot) }
    ensures below { result < words_of words.now.settings }
{
    Row::of(words.settings().slots, cpu).count_place(words, slot)
}

/// The place of a slot's link.
pub(crate) fn next_place(slot: u8) -> usize
    ensures place { result ≡ NEXTS + STRIDE * slot }
{
    NEXTS + STRIDE * slot as usize
}

/// The place of the link of the slot that `link` leads to, `link - 1`.
pub(crate) fn linked_place(link: u64) -> usize
    requires slot { (0 < link) × (link ≤ MOST_SLOTS) }
    ensures place { result ≡ NEXTS + STRIDE * (link - 1) }
{
    NEXTS - STRIDE + STRIDE * link as usize
}

/// The place of word `k` of a slot's record.
pub(crate) fn record_place(slot: usize, k: u8) -> usize
    requires slot { slot < 256 }
    ensures place { result ≡ RECORDS + STRIDE * slot + k }
{
    RECORDS + STRIDE * slot + k as usize
}

/// The place of a slot's live word.
pub(crate) fn live_place(slot: u8) -> usize
    ensures place { result ≡ LIVES + STRIDE * slot }
{
    LIVES + STRIDE * slot as usize
}

/// The place of a slot's total.
pub(crate) fn total_place(slot: u8) -> usize
    ensures place { result ≡ TOTALS + STRIDE * slot }
{
    TOTALS + STRIDE * slot as usize
}

/// Theorem, no effect at run time: where the words are.
///
/// - `lines_apart`: a CPU's words share no line of 64 bytes with another CPU's or with the shared ones, wherever the block begins.
/// - `one_place`: two different words are at different places.
/// - `first_words_free`: none is among the first sixteen.
/// - `all_below`: each is a word of the table.
#[tactic(auto, using(crate::proofs::shown::Placing::lines_apart, crate::proofs::shown::Placing::one_place, crate::proofs::shown::Placing::first_words_free, crate::proofs::shown::Placing::below_size))]
pub fn layout_law()
    ensures lines_apart { LinesApart }
    ensures one_place { OnePlace }
    ensures first_words_free { FirstWordsFree }
    ensures all_below { AllBelow }
{}
