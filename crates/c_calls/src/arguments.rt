//! The arguments of C's calls: a kind and a name are judged before any call of the registry is made.

ghost use Rattle.std.specs.Prelude.{◌≡◌, IfErr, IfOk, IsTrue};
ghost use Rattle.registry_values.specs.Common.{is_key};
ghost use Rattle.c_handles.specs.declared.values.plain.TheConstants.{DONE};
ghost use Rattle.c_calls.specs.Calls.{asked};

use c_handles::values::plain::{BAD_KIND, BAD_NAME, CName, NULL, kind_in};
use registry_values::{Key, Name};

/// The key that a call asks for, by a kind and a name of C's. Else the number of what is wrong with them, in this order: `NULL` if there is
/// no name, `BAD_KIND`, `BAD_NAME` if both of its words are 0.
#[inline(always)]
pub fn asked(kind: u32, name: Option<CName>) -> Result<Key, u32>
    ensures value { result ≡ asked kind name }
    ensures key { IfOk result (λ key. IsTrue (is_key key.name)) }
{
    let Some(name) = name else {
        return Err(NULL);
    };
    let Some(kind) = kind_in(kind) else {
        return Err(BAD_KIND);
    };
    let Some(name) = Name::from_key_words(name.high, name.low) else {
        return Err(BAD_NAME);
    };
    Ok(Key { kind, name })
}
