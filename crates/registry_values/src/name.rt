//! The names of interfaces and drivers.

ghost use Rattle.std.specs.Prelude.{◌≡◌, ◌≤◌, ◌<◌, IsTrue, IfOk, IfSome, length};
ghost use Rattle.registry_values.specs.Names.{bad_place, is_allowed, name_of_bytes, name_of, is_name, padded_bytes, bytes_of, are_zeros, is_rest, is_padded, are_name_words, is_lawful, are_key_words, is_key, key_of_bytes, key_of_words, name_of_words, NamesAreKeys, RoundTrip, IsWritten};

use thiserror::Error;

/// Why some bytes are no name; the first of these that holds.
#[derive(Clone, Copy, Debug, PartialEq, Eq, Error)]
pub enum NameFault {
    /// There is no byte.
    #[error("a name has at least one byte")]
    Empty,
    /// There are more than 15 bytes.
    #[error("a name has at most 15 bytes")]
    TooLong,
    /// The byte at this place, from 0, is the first that may not stand where it does.
    #[error("byte {0} may not stand there")]
    BadByte(u8),
}

/// A name of 1 to 15 bytes: a lower-case ASCII letter, and then lower-case ASCII letters and digits (`parse`). Or any 16 bytes that aren't
/// all 0 (`from_key_bytes`). It is kept as its two words, so that a name is written, read and compared by two words.
#[derive(Clone, Copy, Debug, PartialEq, Eq)]
pub struct Name {
    high: u64,
    low: u64,
}

impl Name {
    /// The name that the bytes are. Refused: `Empty`, `TooLong` and `BadByte`, tested in this order.
    pub fn parse(bytes: &[u8]) -> Result<Name, NameFault>
        ensures value { result ≡ name_of_bytes bytes.now }
        ensures lawful { IfOk result (λ name. IsTrue (is_lawful name)) }
        ensures key { IfOk result (λ name. IsTrue (is_key name)) }
    {
        if bytes.is_empty() {
            return Err(NameFault::Empty);
        }
        if bytes.len() > 15 {
            return Err(NameFault::TooLong);
        }
        if let Some(place) = bad_place(bytes) {
            return Err(NameFault::BadByte(place as u8));
        }
        Ok(Name::from_bytes(bytes))
    }

    /// The name that is any 1 to 16 bytes but zero bytes alone, such as "eth0.100", an address or a number's bytes. Its words are these bytes,
    /// followed by zero bytes up to 16, so bytes that differ in zero bytes at the end alone are one name. `None` for no byte, for more than
    /// 16, and if all are 0.
    #[tactic(auto, using(crate::proofs::Names::key_from))]
    pub fn from_key_bytes(bytes: &[u8]) -> Option<Name>
        ensures value { result ≡ key_of_bytes bytes.now }
        ensures key { IfSome result (λ name. IsTrue (is_key name)) }
    {
        if bytes.len() > 16 || are_zeros(bytes) {
            return None;
        }
        Some(Name::padded(bytes))
    }

    /// The name's bytes, followed by zero bytes up to 16, as two numbers with the high bytes first.
    pub fn words(&self) -> (u64, u64)
        ensures high { result.0 ≡ self.now.high }
        ensures low { result.1 ≡ self.now.low }
    {
        (self.high, self.low)
    }

    /// The name that has these words; `None` if no name has them.
    pub fn from_words(high: u64, low: u64) -> Option<Name>
        ensures { result ≡ name_of_words high low }
    {
        if are_name_words(high, low) {
            Some(Name { high, low })
        } else {
            None
        }
    }

    /// The name that has these words, which may be any but two of 0; `None` if both are 0.
    pub fn from_key_words(high: u64, low: u64) -> Option<Name>
        ensures value { result ≡ key_of_words high low }
        ensures key { IfSome result (λ name. IsTrue (is_key name)) }
    {
        if are_key_words(high, low) {
            Some(Name { high, low })
        } else {
            None
        }
    }

    /// These two words, whether or not they are a key's. `from_key_words` is the test; to look up two words of 0 finds nothing.
    pub fn of_words(high: u64, low: u64) -> Name
        ensures { result ≡ record { high = high; low = low } }
    {
        Name { high, low }
    }

    #[tactic(auto, using(crate::proofs::Names::lawful_words, crate::proofs::Names::names_are_keys))]
    pub(crate) fn from_bytes(text: &[u8]) -> Name
        requires { IsTrue (is_name text.now) }
        ensures value { result ≡ name_of text.now }
        ensures lawful { IsTrue (is_lawful result) }
        ensures key { IsTrue (is_key result) }
    {
        Name::padded(text)
    }

    /// The bytes, and zero bytes up to 16, as a name's two words.
    fn padded(bytes: &[u8]) -> Name
        requires { length bytes.now ≤ 16 }
        ensures { result ≡ name_of bytes.now }
    {
        let b = padded(bytes);
        let high = u64::from_be_bytes([b[0], b[1], b[2], b[3], b[4], b[5], b[6], b[7]]);
        let low = u64::from_be_bytes([b[8], b[9], b[10], b[11], b[12], b[13], b[14], b[15]]);
        Name { high, low }
    }
}

/// Theorem, no effect at run time: what the words of names mean.
///
/// - `keys`: a lawful name is a key.
/// - `round_trip`: a name's words give the name back.
/// - `written`: what two words give is the name of some bytes, so there is `None` exactly where no name has them.
#[tactic(auto, using(crate::proofs::Names::names_are_keys, crate::proofs::Names::round_trip, crate::proofs::Names::written))]
pub fn name_laws()
    ensures keys { NamesAreKeys }
    ensures round_trip { RoundTrip }
    ensures written { IsWritten }
{}

/// The bytes, and zero bytes up to 16.
fn padded(text: &[u8]) -> [u8; 16]
    requires { length text.now ≤ 16 }
    ensures { result ≡ padded_bytes text.now }
{
    let mut bytes = [0u8; 16];
    for (i, b) in text.iter().enumerate() {
        bytes[i] = *b;
    }
    bytes
}

/// The first place with a byte that may not be there.
fn bad_place(bytes: &[u8]) -> Option<usize>
    ensures first { result ≡ bad_place 0 bytes.now }
    ensures within { IfSome result (λ place. place < length bytes.now) }
{
    for (i, b) in bytes.iter().enumerate() {
        if !is_allowed(i, *b) {
            return Some(i);
        }
    }
    None
}

/// Whether a name may have this byte at this place.
fn is_allowed(place: usize, b: u8) -> bool
    ensures { result ≡ is_allowed place b }
{
    b.is_ascii_lowercase() || (place != 0 && b.is_ascii_digit())
}

/// Whether the two words are those of a name.
fn are_name_words(high: u64, low: u64) -> bool
    ensures { result ≡ are_name_words high low }
{
    let bytes = bytes_of(high, low);
    is_padded(&bytes)
}

/// Whether the two words aren't both 0.
#[tactic(auto, unfolding(crate::specs::Names::are_key_words))]
fn are_key_words(high: u64, low: u64) -> bool
    ensures { result ≡ are_key_words high low }
{
    !(high == 0 && low == 0)
}

/// Whether these are a letter, then letters and digits, and then zero bytes only, at least one.
fn is_padded(bytes: &[u8]) -> bool
    ensures { result ≡ is_padded bytes.now }
{
    match bytes {
        [first, rest @ ..] => is_allowed(0, *first) && is_rest(rest),
        [] => false,
    }
}

/// The bytes of the two words, the high ones first.
pub(crate) fn bytes_of(high: u64, low: u64) -> [u8; 16]
    ensures { result ≡ bytes_of high low }
{
    let h = high.to_be_bytes();
    let l = low.to_be_bytes();
    [
        h[0], h[1], h[2], h[3], h[4], h[5], h[6], h[7], l[0], l[1], l[2], l[3], l[4], l[5], l[6],
        l[7],
    ]
}

/// Whether these are letters and digits, and then zero bytes only, at least one.
fn is_rest(bytes: &[u8]) -> bool
    ensures { result ≡ is_rest bytes.now }
{
    for (i, b) in bytes.iter().enumerate() {
        if *b == 0 {
            return are_zeros(&bytes[i + 1..]);
        }
        if !is_allowed(1, *b) {
            return false;
        }
    }
    false
}

/// Whether these are zero bytes only.
fn are_zeros(bytes: &[u8]) -> bool
    ensures { result ≡ are_zeros bytes.now }
{
    for b in bytes {
        if *b != 0 {
            return false;
        }
    }
    true
}
