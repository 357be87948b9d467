// What one path finds.
ghost use Rattle.sonic_text.specs.Documents.{StartsWithUtf8Value};
ghost use Rattle.sonic_c.specs.Told.{IsGetCall};
ghost use Rattle.sonic_c.specs.Internal.Told.{TellsSlot};

use crate::fault::{Fault, tell};
use crate::span::Span;
use crate::status::{BAD_LINES, NO_MEMORY, OK};
use sonic_error::Error;
use sonic_find::{find, find_unchecked};
use sonic_paths::path_of_line;
use std::alloc::Global;

/// Where the path leads in the text.
///
/// `path` is a JSON array of keys and indexes, at most 255. A path that leads nowhere is
/// `DOCUMENT_ERROR`, as a broken text is, and the error says why.
#[unsafe(no_mangle)]
pub extern "C" fn jihluka_get(
    alloc: Global,
    json: &[u8],
    path: &[u8],
    span: &mut Span,
    error: &mut Fault,
) -> u32
    ensures { IsGetCall json.now path.now (record { span = span.old; error = error.old })
        (record { span = span.new; error = error.new }) result }
{
    let Ok(line) = path_of_line(alloc, path) else {
        return NO_MEMORY;
    };
    let Some(path) = line else {
        return BAD_LINES;
    };
    match path.nodes(alloc) {
        Ok(nodes) => {
            let found = find(alloc, json, &nodes);
            tell_found(found, span, error)
        }
        Err(_) => NO_MEMORY,
    }
}

/// Where the path leads in a text that is known to begin with a value in UTF-8, as one that
/// `jihluka_validate` took does: what `jihluka_get` tells, without a second look at what it passes.
#[unsafe(no_mangle)]
pub extern "C" fn jihluka_get_unchecked(
    alloc: Global,
    json: &[u8],
    path: &[u8],
    span: &mut Span,
    error: &mut Fault,
) -> u32
    requires { StartsWithUtf8Value json.now }
    ensures { IsGetCall json.now path.now (record { span = span.old; error = error.old })
        (record { span = span.new; error = error.new }) result }
{
    let Ok(line) = path_of_line(alloc, path) else {
        return NO_MEMORY;
    };
    let Some(path) = line else {
        return BAD_LINES;
    };
    match path.nodes(alloc) {
        Ok(nodes) => {
            let found = find_unchecked(json, &nodes);
            tell_found(found, span, error)
        }
        Err(_) => NO_MEMORY,
    }
}

// Tells what was found, or the error.
fn tell_found(found: Result<sonic_find::Span, Error>, span: &mut Span, error: &mut Fault) -> u32
    ensures { TellsSlot found (record { span = span.old; error = error.old })
        (record { span = span.new; error = error.new }) result }
{
    match found {
        Ok(found) => {
            *span = Span::of(found);
            OK
        }
        Err(reason) => tell(error, &reason),
    }
}
