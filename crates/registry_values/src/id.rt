//! Ids as names: any number of 64 bits, such as an index, an address or a hash, has a name of 13 bytes.

ghost use Rattle.std.specs.Prelude.{◌≡◌, ◌%◌, ◌≤◌, IsTrue, length};
ghost use Rattle.registry_values.specs.Names.{is_lawful, is_key, digit_byte, digit_value, id_bytes, id_of_bytes, value_of, said_by, name_of_id, id_of_name, IdsComeBack, NamesComeBack};

use crate::name::{Name, bytes_of};

/// The name of an id: a letter, a to p, for its four highest bits, then twelve digits to the base 32, 0 to 9 and a to v. The names order as the ids do.
pub fn name_of_id(id: u64) -> Name
    ensures value { result ≡ name_of_id id }
    ensures lawful { IsTrue (is_lawful result) }
    ensures key { IsTrue (is_key result) }
{
    Name::from_bytes(&bytes_of_id(id))
}

/// The id that has this name; `None` if none has.
#[tactic(auto, unfolding(crate::specs::Names::id_of_name))]
pub fn id_of_name(name: Name) -> Option<u64>
    ensures { result ≡ id_of_name name }
{
    let id = said_by(name);
    if name_of_id(id) == name {
        Some(id)
    } else {
        None
    }
}

/// Theorem, no effect at run time: what the names of ids mean.
///
/// - `back`: an id's name gives the id back.
/// - `names`: a name that gives an id is that id's name.
#[tactic(auto, using(crate::proofs::Names::ids_come_back, crate::proofs::Names::names_come_back))]
pub fn id_laws()
    ensures back { IdsComeBack }
    ensures names { NamesComeBack }
{}

/// The bytes of the name of an id.
fn bytes_of_id(id: u64) -> [u8; 13]
    ensures { result ≡ id_bytes id }
{
    [
        b'a' + (id >> 60) as u8,
        digit(id >> 55),
        digit(id >> 50),
        digit(id >> 45),
        digit(id >> 40),
        digit(id >> 35),
        digit(id >> 30),
        digit(id >> 25),
        digit(id >> 20),
        digit(id >> 15),
        digit(id >> 10),
        digit(id >> 5),
        digit(id),
    ]
}

/// The byte of the last digit of a number.
fn digit(number: u64) -> u8
    ensures { result ≡ digit_byte (number % 32) }
{
    let digit = (number % 32) as u8;
    if digit < 10 {
        b'0' + digit
    } else {
        b'a' - 10 + digit
    }
}

/// The id that the bytes of the name say, if it is an id's.
fn said_by(name: Name) -> u64
    ensures { result ≡ said_by name }
{
    let (high, low) = name.words();
    let bytes = bytes_of(high, low);
    id_of_bytes(&bytes)
}

/// The id that these bytes say: a letter, and twelve digits.
fn id_of_bytes(bytes: &[u8]) -> u64
    requires { 13 ≤ length bytes.now }
    ensures { result ≡ id_of_bytes bytes.now }
{
    value_of(u64::from(bytes[0].saturating_sub(b'a')), &bytes[1..13])
}

/// What these digits say, after those that said `first`, in 64 bits.
fn value_of(first: u64, digits: &[u8]) -> u64
    ensures { result ≡ value_of first digits.now }
{
    let mut value = first;
    for digit in digits {
        value = value.wrapping_mul(32).wrapping_add(digit_value(*digit));
    }
    value
}

/// What the digit of this byte says.
fn digit_value(byte: u8) -> u64
    ensures { result ≡ digit_value byte }
{
    let from = if byte < 58 { b'0' } else { b'a' - 10 };
    u64::from(byte.saturating_sub(from))
}
