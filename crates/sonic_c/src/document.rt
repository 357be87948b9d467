// The text of a document, without white space or over lines.
ghost use Rattle.sonic_c.specs.Texts.{IsMinifyCall, IsIndentCall};

use crate::fault::{Fault, tell};
use crate::room::write_text;
use crate::status::BAD_WIDTH;
use sonic_min::{indent, minify};
use std::alloc::Global;

// How many blanks a line is indented by at most for each level of depth.
const MAX_WIDTH: usize = 8;

/// The text of the document without white space outside strings: writes as much of it as the room takes
/// to the start of the room, and tells the length of the whole, in bytes.
///
/// Scalars and keys keep their bytes, members their order and their repeats. What is no document is
/// `DOCUMENT_ERROR`, as for `jihluka_validate`. No text is longer than its document. Of `[ 1 , "a b" ]` it
/// is `[1,"a b"]`. Memory is as many bytes as the document has, and those of `jihluka_validate`.
#[unsafe(no_mangle)]
pub extern "C" fn jihluka_minify(
    alloc: Global,
    json: &[u8],
    room: &mut [u8],
    wanted: &mut usize,
    error: &mut Fault,
) -> u32
    ensures { IsMinifyCall json.now (record { room = room.old; wanted = wanted.old; error = error.old })
        (record { room = room.new; wanted = wanted.new; error = error.new }) result }
{
    match minify(alloc, json) {
        Ok(text) => write_text(text.as_str(), room, wanted),
        Err(reason) => tell(error, &reason),
    }
}

/// The text of the document over lines, with so many blanks for each level of depth, as `jihluka_minify`
/// writes the one without white space.
///
/// An opening bracket ends its line, a closing one has its own; an empty container is `[]` or `{}`, and
/// one blank is after a key's colon. No line feed ends the text. A width above 8 is `BAD_WIDTH`. So of
/// `[1,2]` with a width of 1 the lines are `[`, ` 1,`, ` 2` and `]`. The text may have many more bytes
/// than the document; it is made in memory as a whole, also where the room is for its start alone.
#[unsafe(no_mangle)]
pub extern "C" fn jihluka_indent(
    alloc: Global,
    json: &[u8],
    width: usize,
    room: &mut [u8],
    wanted: &mut usize,
    error: &mut Fault,
) -> u32
    ensures { IsIndentCall json.now width
        (record { room = room.old; wanted = wanted.old; error = error.old })
        (record { room = room.new; wanted = wanted.new; error = error.new }) result }
{
    if width > MAX_WIDTH {
        return BAD_WIDTH;
    }
    match indent(alloc, json, width) {
        Ok(text) => write_text(text.as_str(), room, wanted),
        Err(reason) => tell(error, &reason),
    }
}
