//! The calls that need no handle.

ghost use Rattle.std.specs.Prelude.{◌≡◌};
ghost use Rattle.c_handles.specs.Heap.{IsLong};
ghost use Rattle.registry_values.specs.Names.{name_of_id};
ghost use Rattle.c_handles.specs.values.Places.{put};
ghost use Rattle.c_handles.specs.values.Texts.{FormatsBy, NamesBytes, TellsId, name_out};
ghost use Rattle.c_handles.specs.declared.values.plain.TheConstants.{DONE};

use c_handles::values::answer::{BytesAnswer, FormatAnswer, IdAnswer, NameAnswer};
use c_handles::values::given::{GivenBytes, GivenName};
use c_handles::values::place::{NamePlace, NumberPlace};
use c_handles::values::rows::TextPlace;
use c_handles::values::texts;

/// `kupaldiz_name_of_bytes` of the header.
#[unsafe(no_mangle)]
pub extern "C" fn kupaldiz_name_of_bytes(
    bytes: GivenBytes,
    length: usize,
    name: NamePlace,
) -> BytesAnswer
    requires length { IsLong bytes.bytes length }
    ensures given { result.bytes ≡ bytes }
    ensures place { result.place.at ≡ name.at }
    ensures call { NamesBytes bytes.bytes result.number name.value result.place.value }
{
    texts::name_of_bytes(bytes, length, name)
}

/// `kupaldiz_name_of_id` of the header.
#[unsafe(no_mangle)]
pub extern "C" fn kupaldiz_name_of_id(id: u64, name: NamePlace) -> NameAnswer
    ensures number { result.number ≡ DONE }
    ensures place { result.place.at ≡ name.at }
    ensures call { result.place.value ≡ put name.value (name_out (name_of_id id)) }
{
    texts::name_of_id(id, name)
}

/// `kupaldiz_id_of_name` of the header.
#[unsafe(no_mangle)]
pub extern "C" fn kupaldiz_id_of_name(name: GivenName, id: NumberPlace) -> IdAnswer
    ensures given { result.name ≡ name }
    ensures place { result.place.at ≡ id.at }
    ensures call { TellsId name.name result.number id.value result.place.value }
{
    texts::id_of_name(name, id)
}

/// `kupaldiz_name_format` of the header.
#[unsafe(no_mangle)]
pub extern "C" fn kupaldiz_name_format(
    name: GivenName,
    text: TextPlace,
    room: usize,
) -> FormatAnswer
    requires room { IsLong text.value room }
    ensures given { result.name ≡ name }
    ensures place { result.place.at ≡ text.at }
    ensures call { FormatsBy name.name room text.value result.place.value result.number }
{
    texts::format_name(name, text, room)
}
