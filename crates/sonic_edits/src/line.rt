// One edit line.
ghost use Rattle.std.specs.Prelude.{◌≡◌, None, IfOk, IfSome};
ghost use Rattle.sonic_edits.specs.Edits.{edit_of};
ghost use Rattle.sonic_edits.specs.Lines.{IsEditLine};
ghost use Rattle.sonic_owned.specs.Forms.{Form};
ghost use Rattle.sonic_owned.specs.TreeEdits as edits;

use crate::change::said_edit;
use crate::edit::Edit;
use crate::elements::few_elements;
use std::alloc::{AllocError, Global};

/// The edit that a line says, or `None` where it says none. A line ends before its line feed.
///
/// A line is a JSON text in UTF-8 (RFC 8259, section 2), with white space around it, and one of
/// these arrays: `["set", PATH, VALUE]`, `["push", PATH, VALUE]`, `["pair", PATH, KEY, VALUE]` and
/// `["take", PATH]`. The first element is the string that denotes the word, however it is spelled.
/// The path is what [`sonic_paths::path_of_line`] reads of its own text. The key is a string,
/// unescaped. The value is any value, and its text is kept as it is.
///
/// So `["push", ["a"], 1.0]` appends the value `1.0` to the array `a`. `["Take", []]`,
/// `["take", [], 1]` and `["take", [-1]]` say none. The only error is that memory ran out. However
/// many elements a line has, four of them are kept at most.
pub fn edit_of_line(alloc: Global, line: &[u8]) -> Result<Option<Edit>, AllocError>
    ensures some { IfOk result (λ found. IfSome found (λ edit. IsEditLine line.now (edit_of edit))) }
    ensures none { IfOk result (λ found. found ≡ None → (e : edits.Edit Form) → ¬ IsEditLine line.now e) }
{
    let Ok(text) = simdutf8::compat::from_utf8(line) else {
        return Ok(None);
    };
    let Some(elements) = few_elements(alloc, text)? else {
        return Ok(None);
    };
    said_edit(alloc, elements.as_slice())
}
