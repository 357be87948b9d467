// What many paths find.
ghost use Rattle.std.specs.Prelude.{◌≡◌, ℕ, List, length, IfOk, IfErr, OnOk};
ghost use Rattle.sonic_text.specs.Documents.{StartsWithUtf8Value};
ghost use Rattle.sonic_c.specs.Rows.{AreNoPaths};
ghost use Rattle.sonic_c.specs.Told.{IsManyCall, Say};
ghost use Rattle.sonic_c.specs.Internal.Texts.{OrOutOfMemory};
ghost use Rattle.sonic_c.specs.Internal.Told.{RefusesLines, TellsAll};

use crate::fault::{Fault, tell};
use crate::span::{Span, fill_spans};
use crate::status::{BAD_LINES, NO_MEMORY, OK, WRONG_COUNT};
use sonic_error::Error;
use sonic_find::{find_many, find_many_unchecked};
use sonic_paths::{Head, read_paths};
use sonic_pointer::PointerTree;
use std::alloc::Global;

/// Where the paths lead in the text, in their order: the span of each value, or twice 0 for a path
/// that lacks its key.
///
/// `paths` has a path on each line, a JSON array of keys and indexes, at most 255; no line among them
/// is blank. There have to be as many spans as paths.
#[unsafe(no_mangle)]
pub extern "C" fn jihluka_get_many(
    alloc: Global,
    json: &[u8],
    paths: &[u8],
    spans: &mut [Span],
    error: &mut Fault,
) -> u32
    ensures { IsManyCall json.now paths.now (record { spans = spans.old; error = error.old })
        (record { spans = spans.new; error = error.new }) result }
{
    let tree = match tree_of(alloc, paths, spans.len(), error) {
        Ok(tree) => tree,
        Err(status) => return status,
    };
    follow(alloc, json, &tree, spans, error)
}

/// Where the paths lead in a text that is known to begin with a value in UTF-8, as one that
/// `jihluka_validate` took does: what `jihluka_get_many` tells, without a second look at what it passes.
#[unsafe(no_mangle)]
pub extern "C" fn jihluka_get_many_unchecked(
    alloc: Global,
    json: &[u8],
    paths: &[u8],
    spans: &mut [Span],
    error: &mut Fault,
) -> u32
    requires { StartsWithUtf8Value json.now }
    ensures { IsManyCall json.now paths.now (record { spans = spans.old; error = error.old })
        (record { spans = spans.new; error = error.new }) result }
{
    let tree = match tree_of(alloc, paths, spans.len(), error) {
        Ok(tree) => tree,
        Err(status) => return status,
    };
    follow_unchecked(alloc, json, &tree, spans, error)
}

// Follows the paths of a tree, of which as many spans are there.
fn follow(
    alloc: Global,
    json: &[u8],
    tree: &PointerTree,
    spans: &mut [Span],
    error: &mut Fault,
) -> u32
    requires { length tree.now ≡ length spans.old }
    ensures { (lines : List ℕ) → Say lines tree.now → IsManyCall json.now lines
        (record { spans = spans.old; error = error.old })
        (record { spans = spans.new; error = error.new }) result }
{
    let Ok(mut slots) = vec![in alloc; None; tree.size()] else {
        return NO_MEMORY;
    };
    let slots = slots.as_mut_slice();
    let found = find_many(alloc, json, tree, slots);
    tell_all(found, slots, spans, error)
}

// The same in a text that is known to begin with a value in UTF-8.
fn follow_unchecked(
    alloc: Global,
    json: &[u8],
    tree: &PointerTree,
    spans: &mut [Span],
    error: &mut Fault,
) -> u32
    requires starts { StartsWithUtf8Value json.now }
    requires spans { length tree.now ≡ length spans.old }
    ensures { (lines : List ℕ) → Say lines tree.now → IsManyCall json.now lines
        (record { spans = spans.old; error = error.old })
        (record { spans = spans.new; error = error.new }) result }
{
    let Ok(mut slots) = vec![in alloc; None; tree.size()] else {
        return NO_MEMORY;
    };
    let slots = slots.as_mut_slice();
    let found = find_many_unchecked(json, tree, slots);
    tell_all(found, slots, spans, error)
}

// The tree of the paths that the lines say, if there are so many.
pub(crate) fn tree_of(
    alloc: Global,
    lines: &[u8],
    count: usize,
    error: &mut Fault,
) -> Result<PointerTree, u32>
    ensures says { IfOk result (λ tree. Say lines.now tree) }
    ensures count { IfOk result (λ tree. length tree ≡ count) }
    ensures kept { OnOk result (error.new ≡ error.old) }
    ensures refused { IfErr result (RefusesLines lines.now count error.old error.new) }
{
    let tree = match paths_of(alloc, lines, error) {
        Ok(tree) => tree,
        Err(status) => return Err(status),
    };
    let size = tree.size();
    if size != count {
        *error = Fault::at_line(size);
        return Err(WRONG_COUNT);
    }
    Ok(tree)
}

// The tree of the paths that the lines say.
pub(crate) fn paths_of(alloc: Global, lines: &[u8], error: &mut Fault) -> Result<PointerTree, u32>
    ensures says { IfOk result (λ tree. Say lines.now tree) }
    ensures kept { OnOk result (error.new ≡ error.old) }
    ensures refused { IfErr result (OrOutOfMemory (AreNoPaths lines.now) error.old error.new) }
{
    let Ok(head) = read_paths(alloc, lines) else {
        return Err(NO_MEMORY);
    };
    let (tree, end) = match head {
        Head::Paths(tree, end) => (tree, end),
        Head::Bad(line) => {
            *error = Fault::at_line(line);
            return Err(BAD_LINES);
        }
    };
    if end < lines.len() {
        *error = Fault::at_line(tree.size() + 1);
        return Err(BAD_LINES);
    }
    Ok(tree)
}

// Tells what was found, or the error.
pub(crate) fn tell_all(
    found: Result<(), Error>,
    slots: &[Option<sonic_find::Span>],
    spans: &mut [Span],
    error: &mut Fault,
) -> u32
    requires { length slots.now ≡ length spans.old }
    ensures { TellsAll found slots.now (record { spans = spans.old; error = error.old })
        (record { spans = spans.new; error = error.new }) result }
{
    match found {
        Ok(()) => {
            fill_spans(spans, slots);
            OK
        }
        Err(reason) => tell(error, &reason),
    }
}
