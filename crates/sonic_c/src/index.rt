// All values of a document.
ghost use Rattle.std.specs.Prelude.{◌≡◌, map};
ghost use Rattle.sonic_c.specs.Codes.{placed};
ghost use Rattle.sonic_c.specs.Indexes.{key_of, position_of, shown_entry, IsIndexCall};

use crate::code::found_number;
use crate::fault::{Fault, tell};
use crate::span::Span;
use crate::status::OK;
use sonic_index::{JsonIndex, Label};
use std::alloc::Global;

/// A value of a document, as a caller sees it.
#[repr(C)]
#[derive(Clone, Copy)]
pub struct Entry {
    /// Where it is.
    pub value: Span,
    /// The key of a member, the quotes with it, and twice 0 of an element and of the root.
    pub key: Span,
    /// The number of the value whose part it is, and 0 for the root.
    pub parent: usize,
    /// How many elements come before an element in its array, and 0 of a member and of the root.
    pub position: usize,
    /// The number of its type, as `jihluka_type` tells it.
    pub kind: u32,
}

/// All values of the document, in the order of the places where they begin: writes as many of them as the
/// caller has room for to the start of that, and tells how many there are.
///
/// What is no document is `DOCUMENT_ERROR`, as for `jihluka_validate`. Of `{"a":[1,{}]}` they are 4, of which
/// the second is the array from 5 to 11, in the value 0, by the key from 1 to 4. Memory is 16 bytes for each
/// value, and a text of 4 GiB and more is `NO_MEMORY`.
#[unsafe(no_mangle)]
pub extern "C" fn jihluka_index(
    alloc: Global,
    json: &[u8],
    entries: &mut [Entry],
    wanted: &mut usize,
    error: &mut Fault,
) -> u32
    ensures { IsIndexCall json.now
        (record { entries = entries.old; wanted = wanted.old; error = error.old })
        (record { entries = entries.new; wanted = wanted.new; error = error.new }) result }
{
    match JsonIndex::build(alloc, json) {
        Ok(index) => {
            fill_entries(entries, &index);
            *wanted = index.len();
            OK
        }
        Err(reason) => tell(error, &reason),
    }
}

// Writes as many values as there is room for.
fn fill_entries(entries: &mut [Entry], index: &JsonIndex<'_>)
    ensures { entries.new ≡ placed (map shown_entry index.now.entries) entries.old }
{
    for i in 0..entries.len().min(index.len()) {
        let Some(value) = index.entry(i) else {
            unreachable!();
        };
        entries[i] = shown(&value);
    }
}

// A value as a caller sees it.
fn shown(value: &sonic_index::Entry) -> Entry
    ensures { result ≡ shown_entry value.now }
{
    Entry {
        value: Span {
            start: value.start,
            end: value.end,
        },
        key: key_of(value.label),
        parent: value.parent,
        position: position_of(value.label),
        kind: found_number(value.kind),
    }
}

// The key of a member.
fn key_of(label: Label) -> Span
    ensures { result ≡ key_of label }
{
    match label {
        Label::Key { start, end } => Span { start, end },
        Label::Root | Label::At(_) => Span { start: 0, end: 0 },
    }
}

// How many elements come before an element.
fn position_of(label: Label) -> usize
    ensures { result ≡ position_of label }
{
    match label {
        Label::At(position) => position,
        Label::Root | Label::Key { .. } => 0,
    }
}
