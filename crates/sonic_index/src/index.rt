// The index and its calls.
ghost use Rattle.std.specs.Prelude.{◌≡◌, ◌≢◌, ◌<◌, ℕ, List, Some, length, slice_get, slice_range, IfOk, IfErr, IfNone, IfSome, OnOk};
ghost use Rattle.sonic_error.specs.Errors.{IsPlainError};
ghost use Rattle.sonic_text.specs.Places.{byte};
ghost use Rattle.sonic_text.specs.Strings.{strict, IsString};
ghost use Rattle.sonic_parser.specs.Honest.{IsHonest};
ghost use Rattle.sonic_pointer.specs.Nodes.{path_of};
ghost use Rattle.sonic_find.specs.Documents.{IsInvalidError, IsValidDocument};
ghost use Rattle.sonic_find.specs.Paths.{found, Leads};
ghost use Rattle.sonic_lazy.specs.LazyValues.{raw_bytes};
ghost use Rattle.sonic_lazy.specs.Shown.{FindsNone};
ghost use Rattle.sonic_index.specs.declared.entry.Entry.{Entry};
ghost use Rattle.sonic_index.specs.Entries.{AreEntries, IsEntry};
ghost use Rattle.sonic_index.specs.Internal.Cells.{label_of};

use crate::build::{Written, document};
use crate::cell::Cell;
use crate::entry::{Entry, Label};
use crate::find::child;
use crate::members::order_wide;
use sonic_error::{ErrorCode, Result};
use sonic_find::Span;
use sonic_find::internal::value_span;
use sonic_input::{JsonInput, JsonSlice, Read};
use sonic_lazy::LazyValue;
use sonic_parser::Fault;
use sonic_pointer::PointerNode;
use sonic_text::{byte_at, string_end, type_of};
use std::alloc::Global;
use std::marker::Model;

/// An index of all values of a document: where each is, in which one, and how it is labelled there.
///
/// The values come in the order of the places where they begin, and 16 bytes are kept of each. Of each
/// member of a wide object, within which more than 64 values lie at any depth, 4 more are kept, in the
/// order of the keys. A clause sees the text and its entries (`Indexed`).
#[derive(Drop)]
pub struct JsonIndex<'de> {
    json: JsonSlice<'de>,
    cells: Vec<Cell>,
    // The numbers of the members of wide objects, in order.
    members: Option<Vec<u32>>,
}

impl<'de> Model for JsonIndex<'de> {
    ghost use Rattle.sonic_index.specs.Entries.{Indexed};

    ghost Value = { Indexed };

    ghost use Rattle.sonic_index.specs.Internal.IndexViews.{indexed_of, IsIndexOf};

    ghost view = { indexed_of };

    ghost invariant = { IsIndexOf };
}

impl<'de> JsonIndex<'de> {
    /// The index of a valid document (RFC 8259, sections 2 and 8.1): one value with nothing but white
    /// space round it, in UTF-8.
    ///
    /// Else the error is what `validate` of `sonic_find` answers, the first of these: the fault of the
    /// value; `ErrorCode::TrailingCharacters` at the first byte after it that is no white space; and,
    /// for `&[u8]` and `&Bytes`, `ErrorCode::InvalidUTF8` at the first broken place of the whole input.
    /// Running out of memory is `ErrorCode::NoMemory` without a place, and so is a text of 4 GiB and
    /// more, whose places don't fit the index.
    ///
    /// One walk without recursion finds the values: 16 bytes are kept of each, and they are the walk's
    /// only stack. Before it the text's commas and brackets are counted, and after it the text of bytes is
    /// checked for UTF-8. Depth is bounded by memory alone. Room is taken at once for as many values
    /// as commas and brackets allow, or bit by bit where that is refused. The members of objects within
    /// which more than 64 values lie are then sorted by their keys, in n log n comparisons: 4 bytes are
    /// kept of each, and while they are sorted 24 more, with a copy of each key that has an escape.
    pub fn build<I: JsonInput<'de>>(alloc: Global, json: I) -> Result<JsonIndex<'de>>
        ensures ok { IfOk result (λ index. (index.text ≡ I.JsonInput.content json)
            × AreEntries (I.JsonInput.content json) index.entries) }
        ensures valid { OnOk result (IsValidDocument (I.JsonInput.content json)) }
        ensures err { IfErr result (λ error.
            IsInvalidError (I.JsonInput.content json) I.JsonInput.is_bytes error) }
        ensures complete { IsValidDocument (I.JsonInput.content json)
            → IfErr result (λ error. IsPlainError error ErrorCode.NoMemory) }
        ensures honest { IfErr result (IsHonest strict (I.JsonInput.content json) 0) }
    {
        let text = json.to_u8_slice();
        let read = Read::unscanned(json.to_json_slice());
        let Written { cells, has_wide } = match document(alloc, read, json.need_utf8_valid()) {
            Ok(written) => written,
            Err(fault) => return Err(fault.error(text)),
        };
        match order_wide(alloc, text, cells.as_slice(), has_wide) {
            Ok(members) => Ok(JsonIndex {
                json: json.to_json_slice(),
                cells,
                members,
            }),
            Err(_) => Err(Fault::OutOfMemory.error(text)),
        }
    }

    /// The text of the document.
    ///
    /// The places of entries are places in it.
    pub fn text(&self) -> &'de [u8]
        ensures { result.now ≡ self.now.text }
    {
        self.json.bytes()
    }

    /// How many values the document has.
    ///
    /// Of `{"a":[1,{}]}` it is 4.
    pub fn len(&self) -> usize
        ensures { result ≡ length self.now.entries }
    {
        self.cells.len()
    }

    /// The value with this number, counted from 0 by the places where values begin, or `None` where the
    /// document has no such value.
    ///
    /// It takes no memory, and no longer for a later value; of a member the key is passed once. Of
    /// `{"a":[1,{}]}` the entry 1 is an array from 5 to 11, in the value 0, by the key from 1 to 4.
    pub fn entry(&self, i: usize) -> Option<Entry>
        ensures entry { result ≡ slice_get self.now.entries i }
        ensures is { IfSome result (IsEntry self.now.text self.now.entries) }
        ensures all { AreEntries self.now.text self.now.entries }
    {
        if self.cells.len() <= i {
            return None;
        }
        let text = self.json.bytes();
        let cell = self.cells[i];
        let parent = self.cells[cell.parent as usize];
        Some(Entry {
            start: cell.start as usize,
            end: cell.end as usize,
            parent: cell.parent as usize,
            kind: type_of(byte_at(text, cell.start as usize)),
            label: label(text, parent, cell),
        })
    }

    /// The number of the value to which a path leads from the root (compare RFC 6901, section 4), or
    /// `None` where it leads to none. Of equal keys the first counts. The empty path leads to the root.
    ///
    /// It takes no memory. A member of an object within which more than 64 values lie is found by halving,
    /// among the members of all such objects. The members of another object are gone over, up to the one
    /// that is named, and what is inside one is passed by steps that double. An element is found by
    /// halving, and each step climbs from a value to the element around it; where that is further than
    /// its own number, the elements before it are gone over. So the time of a step is at most the
    /// logarithm of the number of values in the array times the number of the element, or times how deep
    /// they are in it, if that is less. In `{"a":[1,{}]}` the path `["a", 1]` leads to the value 3.
    pub fn find(&self, path: &[PointerNode<'_>]) -> Option<usize>
        ensures some { IfSome result (λ i. (x : Entry) × (slice_get self.now.entries i ≡ Some x)
            × Leads self.now.text (path_of path.now) (found x.start x.end)) }
        ensures none { IfNone result (FindsNone self.now.text (path_of path.now)) }
    {
        let text = self.json.bytes();
        let cells = self.cells.as_slice();
        let members = match &self.members {
            Some(members) => Some(members.as_slice()),
            None => None,
        };
        let mut at = 0;
        for node in path {
            at = child(text, cells, members, at, node)?;
        }
        Some(at)
    }

    /// The value with this number, counted from 0 by the places where values begin.
    ///
    /// It takes no memory, and of a string alone the text is read, for a backslash. Of `{"a":[1,{}]}` the
    /// value 1 is `[1,{}]`.
    pub fn value(&self, i: usize) -> LazyValue<'de>
        requires { i < length self.now.entries }
        ensures { (x : Entry) × (slice_get self.now.entries i ≡ Some x)
            × (raw_bytes result ≡ slice_range self.now.text x.start x.end) }
    {
        let cell = self.cells[i];
        let start = cell.start as usize;
        let end = cell.end as usize;
        let value = value_span(self.json.bytes(), Span { start, end });
        LazyValue::whole(self.json.part(start, end), value.escaped)
    }
}

// How the value of a cell is labelled in that of its parent.
fn label(text: &[u8], parent: Cell, cell: Cell) -> Label
    requires key { parent.start ≢ cell.start → byte text.now parent.start ≡ 123
        → (end : ℕ) × (key : List ℕ) × IsString strict text.now cell.label end key }
    ensures { result ≡ label_of text.now parent cell }
{
    if parent.start == cell.start {
        return Label::Root;
    }
    let start = cell.label as usize;
    if byte_at(text, parent.start as usize) != b'{' {
        return Label::At(start);
    }
    match string_end(text, start, false) {
        Ok(key) => Label::Key {
            start,
            end: key.end,
        },
        Err(_) => unreachable!(),
    }
}
