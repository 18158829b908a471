//! Names from bytes and from ids, and their bytes again: calls that need no handle.

ghost use Rattle.std.specs.Prelude.{◌≡◌, ◌≢◌, ◌-◌, ◌<◌, ◌≤◌, get_or, length, take, Some, ℕ};
ghost use Rattle.registry_values.specs.Common.{bytes_of};
ghost use Rattle.c_handles.specs.Heap.{IsLong, IsThere};
ghost use Rattle.registry_values.specs.Names.{name_of_id};
ghost use Rattle.c_handles.specs.values.Places.{put};
ghost use Rattle.c_handles.specs.values.Texts.{Formats, FormatsBy, IsTextLength, IsWritten, NamesBytes, TellsId, WritesText, name_out};

use crate::values::answer::{BytesAnswer, FormatAnswer, IdAnswer, NameAnswer};
use crate::values::given::{GivenBytes, GivenName};
use crate::values::place::{NamePlace, NumberPlace};
use crate::values::plain::{
    BAD_NAME, CName, DONE, NAME_TOO_LONG, NO_ROOM, NULL, name_in, name_out,
};
use crate::values::rows::TextPlace;
use registry_values::Name;

/// Writes the name that the bytes are: `kupaldiz_name_of_bytes` of the header.
pub fn name_of_bytes(mut bytes: GivenBytes, length: usize, mut name: NamePlace) -> BytesAnswer
    requires length { IsLong bytes.bytes length }
    ensures given { result.bytes ≡ bytes }
    ensures place { result.place.at ≡ name.at }
    ensures call { NamesBytes bytes.bytes result.number name.value result.place.value }
{
    let answer = name_bytes(&mut bytes, length, &mut name);
    name.answer(answer).with_bytes(bytes)
}

/// Writes the name that the bytes are, if there are bytes and a place.
fn name_bytes(bytes: &mut GivenBytes, length: usize, name: &mut NamePlace) -> u32
    requires length { IsLong bytes.old.bytes length }
    ensures given { bytes.new ≡ bytes.old }
    ensures place { name.new.at ≡ name.old.at }
    ensures call { NamesBytes bytes.old.bytes result name.old.value name.new.value }
{
    if bytes.is_null() || name.is_null() {
        return NULL;
    }
    if length > 16 {
        return NAME_TOO_LONG;
    }
    let row = read_bytes(bytes, length);
    match Name::from_key_bytes(&row[..length]) {
        Some(made) => {
            name.put(name_out(made));
            DONE
        }
        None => BAD_NAME,
    }
}

/// So many bytes, in the first places. Conditions: there are so many, and not too many.
#[tactic(auto, using(crate::proofs::Written::all_read))]
fn read_bytes(bytes: &mut GivenBytes, length: usize) -> [u8; 16]
    requires there { IsThere bytes.old.bytes length }
    requires few { length ≤ 16 }
    ensures same { bytes.new ≡ bytes.old }
    ensures read { bytes.old.bytes ≡ Some (take length result) }
{
    let mut row = [0; 16];
    for k in 0..length {
        row[k] = bytes.byte(k);
    }
    row
}

/// Writes the name of an id, if there is a place for it: `kupaldiz_name_of_id` of the header.
pub fn name_of_id(id: u64, mut name: NamePlace) -> NameAnswer
    ensures number { result.number ≡ DONE }
    ensures place { result.place.at ≡ name.at }
    ensures call { result.place.value ≡ put name.value (name_out (name_of_id id)) }
{
    name.put(name_out(registry_values::name_of_id(id)));
    name.answer(DONE)
}

/// Writes the id that has the name, if there is one and a place for it: `kupaldiz_id_of_name` of the header.
pub fn id_of_name(mut name: GivenName, mut id: NumberPlace) -> IdAnswer
    ensures given { result.name ≡ name }
    ensures place { result.place.at ≡ id.at }
    ensures call { TellsId name.name result.number id.value result.place.value }
{
    let answer = read_id(&mut name, &mut id);
    id.answer(answer).with_given(name)
}

/// Writes the id that has the name.
fn read_id(name: &mut GivenName, id: &mut NumberPlace) -> u32
    ensures given { name.new ≡ name.old }
    ensures place { id.new.at ≡ id.old.at }
    ensures call { TellsId name.old.name result id.old.value id.new.value }
{
    let Some(name) = name.name() else {
        return NULL;
    };
    match registry_values::id_of_name(name_in(&name)) {
        Some(found) => {
            id.put(found);
            DONE
        }
        None => BAD_NAME,
    }
}

/// Writes the bytes of a name, and a zero: `kupaldiz_name_format` of the header.
pub fn format_name(mut name: GivenName, mut text: TextPlace, room: usize) -> FormatAnswer
    requires room { IsLong text.value room }
    ensures given { result.name ≡ name }
    ensures place { result.place.at ≡ text.at }
    ensures call { FormatsBy name.name room text.value result.place.value result.number }
{
    let answer = format_given(&mut name, &mut text, room);
    text.answer(answer).with_name(name)
}

/// Writes the bytes of the name, if there is one, and a place for them or none needed.
fn format_given(name: &mut GivenName, text: &mut TextPlace, room: usize) -> u32
    requires room { IsLong text.old.value room }
    ensures given { name.new ≡ name.old }
    ensures place { text.new.at ≡ text.old.at }
    ensures call { FormatsBy name.old.name room text.old.value text.new.value result }
{
    let Some(name) = name.name() else {
        return NULL;
    };
    if !text.is_null() {
        return format(&name, text.row_mut(room));
    }
    if room != 0 {
        return NULL;
    }
    format(&name, &mut [])
}

/// Writes the bytes of the name, if it is one.
fn format(name: &CName, text: &mut [u8]) -> u32
    ensures { Formats name.now result text.old text.new }
{
    let Some(name) = Name::from_key_words(name.high, name.low) else {
        return BAD_NAME;
    };
    let (high, low) = name.words();
    let bytes = bytes_of(high, low);
    let length = text_length(&bytes);
    write_whole(&bytes[..length], text)
}

/// The bytes of two words, the high ones first.
fn bytes_of(high: u64, low: u64) -> [u8; 16]
    ensures { result ≡ bytes_of high low }
{
    let h = high.to_be_bytes();
    let l = low.to_be_bytes();
    [
        h[0], h[1], h[2], h[3], h[4], h[5], h[6], h[7], l[0], l[1], l[2], l[3], l[4], l[5], l[6],
        l[7],
    ]
}

/// How many bytes there are up to the last one that isn't 0.
#[tactic(auto, using(crate::proofs::Written::all_long, crate::proofs::Written::as_long, crate::proofs::Written::longer, crate::proofs::Written::none_long))]
fn text_length(bytes: &[u8; 16]) -> usize
    ensures { IsTextLength bytes.now result }
{
    let mut length = 0;
    for k in 0..16 {
        if bytes[k] != 0 {
            length = k + 1;
        }
    }
    length
}

/// Writes the words and a zero, if there is room for all.
fn write_whole(words: &[u8], text: &mut [u8]) -> u32
    ensures { WritesText words.now result text.old text.new }
{
    if text.len() <= words.len() {
        return NO_ROOM;
    }
    write_text(words, text);
    DONE
}

/// Writes the words and a zero. Condition: there is room for both.
#[tactic(auto, using(crate::proofs::Written::none_copied, crate::proofs::Written::written))]
fn write_text(words: &[u8], text: &mut [u8])
    requires { length words.now < length text.old }
    ensures { IsWritten words.now text.old text.new }
{
    for k in 0..words.len() {
        text[k] = words[k];
    }
    text[words.len()] = 0;
}
