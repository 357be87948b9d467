// What one path finds in an input.
ghost use Rattle.std.specs.Prelude.{true, false, IfErr};
ghost use Rattle.sonic_lazy.specs.Shown.{IsLookup};
ghost use Rattle.sonic_text.specs.Strings.{strict};
ghost use Rattle.sonic_pointer.specs.Nodes.{path_of};
ghost use Rattle.sonic_parser.specs.Honest.{IsHonest};

use crate::lazyvalue::LazyValue;
use bytes::Bytes;
use sonic_error::Error;
use sonic_find::internal::locate_from;
use sonic_input::{FastStr, JsonInput, Read};
use sonic_pointer::PointerNode;
use std::alloc::Global;

/// The value to which one path leads in an input, without a tree.
///
/// What follows the value may be anything. Of equal keys the first counts. A path that leads nowhere
/// is an error at the place where it does: `ErrorCode::GetUnknownKeyInObject` at the closing brace
/// of an object with members that lacks its key. The fault of the text is the error where it comes
/// before that. Running out of memory is `ErrorCode::NoMemory` without a place.
///
/// The path `["a", 1]` over `{"a":[2,3]` leads to `3`.
pub fn get<'de, I: JsonInput<'de>>(
    alloc: Global,
    json: I,
    path: &[PointerNode<'_>],
) -> Result<LazyValue<'de>, Error>
    ensures lookup { IsLookup (I.JsonInput.content json) I.JsonInput.is_bytes (path_of path.now) result }
    ensures honest { IfErr result (IsHonest strict (I.JsonInput.content json) 0) }
{
    let text = json.to_u8_slice();
    let read = Read::unscanned(json.to_json_slice());
    match locate_from(alloc, read, json.need_utf8_valid(), path) {
        Ok(found) => Ok(LazyValue::at(json, found)),
        Err(fault) => Err(fault.error(text)),
    }
}

/// The value to which one path leads in a text, as [`get`] answers it.
///
/// The path `[1]` over `"[1,2]"` leads to `2`.
pub fn get_from_str<'de>(
    alloc: Global,
    json: &'de str,
    path: &[PointerNode<'_>],
) -> Result<LazyValue<'de>, Error>
    ensures lookup { IsLookup json.now false (path_of path.now) result }
    ensures honest { IfErr result (IsHonest strict json.now 0) }
{
    get(alloc, json, path)
}

/// The value to which one path leads in bytes that may be no UTF-8, as [`get`] answers it.
///
/// The path `[1]` over `b"[1,2]\xFF"` leads to `2`, as the broken byte comes after it.
pub fn get_from_slice<'de>(
    alloc: Global,
    json: &'de [u8],
    path: &[PointerNode<'_>],
) -> Result<LazyValue<'de>, Error>
    ensures lookup { IsLookup json.now true (path_of path.now) result }
    ensures honest { IfErr result (IsHonest strict json.now 0) }
{
    get(alloc, json, path)
}

/// The value to which one path leads in shared bytes that may be no UTF-8, as [`get`] answers it.
pub fn get_from_bytes<'de>(
    alloc: Global,
    json: &'de Bytes,
    path: &[PointerNode<'_>],
) -> Result<LazyValue<'de>, Error>
    ensures lookup { IsLookup json.now true (path_of path.now) result }
    ensures honest { IfErr result (IsHonest strict json.now 0) }
{
    get(alloc, json, path)
}

/// The value to which one path leads in shared text, as [`get`] answers it.
pub fn get_from_faststr<'de>(
    alloc: Global,
    json: &'de FastStr,
    path: &[PointerNode<'_>],
) -> Result<LazyValue<'de>, Error>
    ensures lookup { IsLookup json.now false (path_of path.now) result }
    ensures honest { IfErr result (IsHonest strict json.now 0) }
{
    get(alloc, json, path)
}
