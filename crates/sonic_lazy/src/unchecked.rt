// What paths find in an input that is known to begin with a value in UTF-8.
ghost use Rattle.std.specs.Prelude.{◌≡◌, true, false};
ghost use Rattle.sonic_text.specs.Documents.{StartsWithUtf8Value};
ghost use Rattle.sonic_pointer.specs.Nodes.{path_of};
ghost use Rattle.sonic_lazy.specs.Shown.{IsSureLookup};

use crate::lazyvalue::LazyValue;
use bytes::Bytes;
use sonic_error::Error;
use sonic_find::internal::{Cursor, locate};
use sonic_input::{FastStr, JsonInput, Read};
use sonic_pointer::PointerNode;

/// The value to which one path leads in an input that begins with a value in UTF-8, without memory.
///
/// It is what [`get`](crate::get) answers. Values before it are passed without a second look at
/// what is in them; what follows the input's value may be anything. An input that was taken by
/// [`validate`](crate::validate) begins so.
///
/// The path `["a", 1]` over `{"a":[2,3]} x` leads to `3`.
pub fn get_unchecked<'de, I: JsonInput<'de>>(
    json: I,
    path: &[PointerNode<'_>],
) -> Result<LazyValue<'de>, Error>
    requires { StartsWithUtf8Value (I.JsonInput.content json) }
    ensures { IsSureLookup (I.JsonInput.content json) I.JsonInput.is_bytes (path_of path.now) result }
{
    let text = json.to_u8_slice();
    let mut cursor = Cursor::unchecked(Read::unscanned(json.to_json_slice()));
    match locate(&mut cursor, path) {
        Ok(found) => Ok(LazyValue::at(json, found)),
        Err(fault) => Err(fault.error(text)),
    }
}

/// The value to which one path leads in a text that begins with a value, as [`get_unchecked`]
/// answers it.
pub fn get_from_str_unchecked<'de>(
    json: &'de str,
    path: &[PointerNode<'_>],
) -> Result<LazyValue<'de>, Error>
    requires { StartsWithUtf8Value json.now }
    ensures { IsSureLookup json.now false (path_of path.now) result }
{
    get_unchecked(json, path)
}

/// The value to which one path leads in bytes that begin with a value in UTF-8, as
/// [`get_unchecked`] answers it.
pub fn get_from_slice_unchecked<'de>(
    json: &'de [u8],
    path: &[PointerNode<'_>],
) -> Result<LazyValue<'de>, Error>
    requires { StartsWithUtf8Value json.now }
    ensures { IsSureLookup json.now true (path_of path.now) result }
{
    get_unchecked(json, path)
}

/// The value to which one path leads in shared bytes that begin with a value in UTF-8, as
/// [`get_unchecked`] answers it.
pub fn get_from_bytes_unchecked<'de>(
    json: &'de Bytes,
    path: &[PointerNode<'_>],
) -> Result<LazyValue<'de>, Error>
    requires { StartsWithUtf8Value json.now }
    ensures { IsSureLookup json.now true (path_of path.now) result }
{
    get_unchecked(json, path)
}

/// The value to which one path leads in shared text that begins with a value, as [`get_unchecked`]
/// answers it.
pub fn get_from_faststr_unchecked<'de>(
    json: &'de FastStr,
    path: &[PointerNode<'_>],
) -> Result<LazyValue<'de>, Error>
    requires { StartsWithUtf8Value json.now }
    ensures { IsSureLookup json.now false (path_of path.now) result }
{
    get_unchecked(json, path)
}
