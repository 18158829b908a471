//! Lines, words and numbers.

ghost use Rattle.std.specs.Prelude.{◌≡◌, ◌+◌, ◌*◌, ◌<◌, ◌≤◌, IfOk, map, length, vec_len};
ghost use Rattle.registry_language.specs.Words.{lines_of, words_in_line, is_numeral, within_u64, number_of, entry_verbs, section_verbs, passive_verbs, local_verbs, verb_among, verb_of};
ghost use Rattle.std.specs.List.{list_all};
ghost use Rattle.std.specs.Char.{is_ascii_digit};

use super::command::Verb;
use std::alloc::{AllocError, Global};

/// The lines of a text.
pub fn lines(alloc: Global, text: &[u8]) -> Result<Vec<&[u8]>, AllocError>
    ensures lines { IfOk result (λ v. map (λ x. x.now) v.items ≡ lines_of text.now) }
    ensures count { IfOk result (λ v. vec_len v ≤ length text.now + 1) }
{
    text.split(|b| *b == b'\n').collect(alloc)
}

/// The words of a line.
pub fn words(alloc: Global, line: &[u8]) -> Result<Vec<&[u8]>, AllocError>
    ensures { IfOk result (λ v. map (λ x. x.now) v.items ≡ words_in_line line.now) }
{
    line.split(|b| *b == b' ')
        .filter(|w| !w.is_empty())
        .collect(alloc)
}

fn are_digits(word: &[u8]) -> bool
    ensures { result ≡ list_all is_ascii_digit word.now }
{
    word.iter().all(|b| b.is_ascii_digit())
}

/// Whether a word is 1 to 20 digits.
fn is_numeral(word: &[u8]) -> bool
    ensures { result ≡ is_numeral word.now }
{
    1 <= word.len() && word.len() <= 20 && are_digits(word)
}

/// The number with one digit more.
fn with_digit(n: u64, digit: u8) -> Option<u64>
    requires { digit < 10 }
    ensures { result ≡ within_u64 (n * 10 + digit) }
{
    match n.checked_mul(10) {
        Some(tens) => tens.checked_add(u64::from(digit)),
        None => None,
    }
}

/// The number that a word of a script says: 1 to 20 decimal digits of a value below 2^64. None where the word is
/// anything else.
#[tactic(auto, using(crate::proofs::Parsing::spent))]
pub fn number(word: &[u8]) -> Option<u64>
    ensures { result ≡ number_of word.now }
{
    if !is_numeral(word) {
        return None;
    }
    let mut n = 0u64;
    for b in word {
        let Some(more) = with_digit(n, *b - b'0') else {
            return None;
        };
        n = more;
    }
    Some(n)
}

/// The verb that the word names, if it is one of these.
macro_rules! verb_among {
    ($word:ident:) => {
        None
    };
    ($word:ident: $name:literal => $verb:ident, $($rest:tt)*) => {
        if $word == $name.as_slice() {
            Some(Verb::$verb)
        } else {
            verb_among!($word: $($rest)*)
        }
    };
}

/// The command that a word names.
pub fn verb(word: &[u8]) -> Option<Verb>
    ensures { result ≡ verb_of word.now }
{
    if let Some(verb) = entry_verb(word) {
        return Some(verb);
    }
    if let Some(verb) = section_verb(word) {
        return Some(verb);
    }
    if let Some(verb) = passive_verb(word) {
        return Some(verb);
    }
    local_verb(word)
}

fn entry_verb(word: &[u8]) -> Option<Verb>
    ensures { result ≡ verb_among entry_verbs word.now }
{
    verb_among!(word:
        b"domain" => Domain,
        b"limits" => Limits,
        b"attach" => Attach,
        b"plug" => Plug,
        b"detach" => Detach,
        b"advance" => Advance,
        b"destroy" => Destroy,
    )
}

fn section_verb(word: &[u8]) -> Option<Verb>
    ensures { result ≡ verb_among section_verbs word.now }
{
    verb_among!(word:
        b"enter" => Enter,
        b"exit" => Exit,
        b"find" => Find,
        b"perform" => Perform,
        b"audit" => Audit,
    )
}

fn passive_verb(word: &[u8]) -> Option<Verb>
    ensures { result ≡ verb_among passive_verbs word.now }
{
    verb_among!(word:
        b"ref" => Reference,
        b"copy" => Copy,
        b"held" => Held,
        b"read" => Read,
        b"drop" => Release,
    )
}

fn local_verb(word: &[u8]) -> Option<Verb>
    ensures { result ≡ verb_among local_verbs word.now }
{
    verb_among!(word:
        b"count" => Count,
        b"peek" => Peek,
        b"uncount" => Uncount,
    )
}
