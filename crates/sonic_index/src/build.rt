// The walk that writes the cells: one step for each item, and one for each container that ends. Its only
// stack is the cells.
ghost use Rattle.std.specs.Str.{IsUtf8};
ghost use Rattle.std.specs.Prelude.{◌≡◌, ◌+◌, ◌-◌, ◌^◌, ◌<◌, ◌≤◌, ◌↔◌, Bool, IsTrue, List, [], ◌∷◌, ◌++◌, Some, length, get_or, set, slice_get, IfOk, IfErr, OnOk, IsFalse};
ghost use Rattle.sonic_text.specs.declared.kind.Kind.{Kind};
ghost use Rattle.sonic_text.specs.Documents.{IsRootFault};
ghost use Rattle.sonic_text.specs.Places.{byte, after_space};
ghost use Rattle.sonic_text.specs.Values.{opening};
ghost use Rattle.sonic_parser.specs.Containers.{IsSeparatorFault};
ghost use Rattle.sonic_parser.specs.Faults.{IsStopFor};
ghost use Rattle.sonic_parser.specs.Parts.{IsAfterValue};
ghost use Rattle.sonic_find.specs.Documents.{IsAfterRoot, IsInvalid, IsValidDocument};
ghost use Rattle.sonic_index.specs.declared.entry.Entry.{Entry};
ghost use Rattle.sonic_index.specs.Internal.Cells.{AreKept};
ghost use Rattle.sonic_index.specs.Internal.Walks.{AreOfAlone, AreWritten};
ghost use Rattle.sonic_index.specs.Internal.Places.{first_item_of, item_after, labelled_at, ComesNext, ExpectsValueAt, HasEndAt, HasItemAt, HasValueAt, IsValueWritten, OpensSome};

use crate::cell::Cell;
use crate::members::WIDE;
use crate::room::room;
use sonic_error::ErrorCode;
use sonic_find::internal::check;
use sonic_input::Read;
use sonic_parser::Fault;
use sonic_parser::internal::{
    AfterItem, ValueAt, after_comma, item_at, next_item, opens_nested_array, scalar_end, value_at,
    value_place,
};
use sonic_text::{Kind, Stop, byte_at, skip_space};
use std::alloc::{AllocError, Global};

// The cells of a document, and whether one of its objects was seen to be wide. No clause says so, as it is
// a hint.
#[derive(Drop)]
pub(crate) struct Written {
    pub(crate) cells: Vec<Cell>,
    pub(crate) has_wide: bool,
}

impl Written {
    // Ends the container of this item at a place: its cell.
    #[inline(always)]
    fn end(&mut self, item: Item, place: usize) -> Cell
        requires short { place < 2 ^ 32 }
        requires within { item.parent < length self.old.cells.items }
        ensures cell { (cell : Cell) × (slice_get self.old.cells.items item.parent ≡ Some cell)
            × (result ≡ record cell { end = place }) }
        ensures cells { self.new.cells.items ≡ set self.old.cells.items item.parent result }
    {
        if item.kind == Kind::Object && item.parent + WIDE < self.cells.len() {
            self.has_wide = true;
        }
        let cell = self.cells[item.parent].ended(place);
        self.cells[item.parent] = cell;
        cell
    }
}

// An item of a container, or the root.
#[derive(Clone, Copy)]
pub(crate) struct Item {
    // The number of the container, and 0 for the root.
    pub(crate) parent: usize,
    // The kind of the container. Of the root it says nothing.
    pub(crate) kind: Kind,
    // Of a member where its key begins, of an element how many come before it, and 0 for the root.
    pub(crate) label: usize,
}

impl Item {
    // The first item of the container with this number, before its label is known; or the root.
    #[inline(always)]
    fn first(parent: usize, kind: Kind) -> Item
        ensures { result ≡ first_item_of parent kind }
    {
        Item {
            parent,
            kind,
            label: 0,
        }
    }

    // The same item with its label, where it is expected at a place: of an element the label says already
    // how many come before it.
    #[inline(always)]
    fn labelled(self, place: usize) -> Item
        ensures { result ≡ labelled_at self place }
    {
        let label = match self.kind {
            Kind::Array => self.label,
            Kind::Object => place,
        };
        Item {
            parent: self.parent,
            kind: self.kind,
            label,
        }
    }

    // The item after it, which is expected at a place: its label says how many come before it.
    #[inline(always)]
    fn next_at(self, place: usize) -> Left
        requires { self.label < 2 ^ 32 }
        ensures { result ≡ Left.Item (record { item = item_after self; place = place }) }
    {
        let item = Item {
            parent: self.parent,
            kind: self.kind,
            label: self.label + 1,
        };
        Left::Item(At { item, place })
    }
}

// A place to which the walk has come: where an item or its value is expected, or where its value ended.
#[derive(Clone, Copy)]
pub(crate) struct At {
    pub(crate) item: Item,
    pub(crate) place: usize,
}

impl At {
    // The same item, with the walk at another place.
    #[inline(always)]
    fn moved(self, place: usize) -> At
        ensures { result ≡ record self { place = place } }
    {
        At {
            item: self.item,
            place,
        }
    }
}

// What comes after a value.
#[derive(Clone, Copy)]
pub(crate) enum Left {
    // Another item is expected, of which the label says how many come before it.
    Item(At),
    // The root ended here.
    Root(usize),
}

// Adds the cell of a value. Mostly there is room for it.
#[inline(always)]
fn add(cells: &mut Vec<Cell>, cell: Cell) -> Result<(), AllocError>
    ensures { OnOk result (cells.new.items ≡ cells.old.items ++ cell ∷ []) }
{
    if cells.len() == cells.capacity() {
        cells.reserve(1)?;
    }
    cells.push_reserved(cell);
    Ok(())
}

// Writes the value that is expected, and says what it is.
fn value(text: &[u8], cells: &mut Vec<Cell>, at: At) -> Result<ValueAt, Fault>
    requires short { length text.now < 2 ^ 32 }
    requires expected { (kinds : List Kind) × ExpectsValueAt text.now cells.old.items kinds at }
    ensures ok { IfOk result (IsValueWritten text.now cells.old.items cells.new.items at) }
    ensures err { IfErr result (IsStopFor (IsRootFault text.now)) }
    ensures within { IfErr result (IsStopFor (λ s. s.place ≤ length text.now)) }
{
    let found = value_at(text, at.place, false)?;
    let cell = Cell::begun(at.place, at.item.parent, at.item.label);
    match found {
        ValueAt::Ends(end) => add(cells, cell.ended(end))?,
        ValueAt::Opens(..) => add(cells, cell)?,
    }
    Ok(found)
}

// Enters the arrays that begin where an element is expected, one directly inside the other.
#[inline(always)]
fn nest(text: &[u8], cells: &mut Vec<Cell>, at: At) -> Result<At, AllocError>
    requires short { length text.now < 2 ^ 32 }
    requires item { HasItemAt text.now cells.old.items at }
    requires array { at.item.kind ≡ Kind.Array }
    ensures item { IfOk result (HasItemAt text.now cells.new.items) }
    ensures later { IfOk result (λ next. at.place ≤ next.place) }
{
    if !opens_nested_array(text, at.place) {
        return Ok(at);
    }
    let mut at = at;
    'arrays: loop {
        let item = Item::first(cells.len(), Kind::Array);
        add(cells, Cell::begun(at.place, at.item.parent, at.item.label))?;
        let place = at.place + 1;
        at = At { item, place };
        if byte_at(text, place + 1) != b'[' {
            return Ok(at);
        }
    }
}

// Goes to the first item of the container that was written last, which is expected at a place.
#[inline(always)]
fn enter(text: &[u8], cells: &mut Vec<Cell>, kind: Kind, first: usize) -> Result<At, AllocError>
    requires short { length text.now < 2 ^ 32 }
    requires some { 0 < length cells.old.items }
    requires item { HasItemAt text.now cells.old.items
        (record { item = first_item_of (length cells.old.items - 1) kind; place = first }) }
    ensures item { IfOk result (HasItemAt text.now cells.new.items) }
    ensures later { IfOk result (λ next. first ≤ next.place) }
{
    let item = Item::first(cells.len() - 1, kind);
    let at = At { item, place: first };
    match kind {
        Kind::Array => nest(text, cells, at),
        Kind::Object => Ok(at),
    }
}

// The item whose value is the container with this cell, in the container around it.
#[inline(always)]
fn item_of(text: &[u8], cells: &[Cell], cell: Cell) -> Item
    requires parent { cell.parent < length cells.now }
    requires opens { OpensSome text.now (get_or cells.now cell.parent cell).start }
    ensures is { result ≡ record { parent = cell.parent; kind = result.kind; label = cell.label } }
    ensures kind { byte text.now (get_or cells.now cell.parent cell).start ≡ opening result.kind }
{
    let parent = cell.parent as usize;
    match Kind::opened_by(byte_at(text, cells[parent].start as usize)) {
        Some(kind) => Item {
            parent,
            kind,
            label: cell.label as usize,
        },
        None => unreachable!(),
    }
}

// What comes after a value in a container of this kind, where mostly the bracket of an array comes directly
// behind it.
#[inline(always)]
fn after_value(text: &[u8], end: usize, kind: Kind) -> Result<AfterItem, Stop>
    requires { end ≤ length text.now }
    ensures ok { IfOk result (λ next. IsAfterValue text.now kind end next) }
    ensures err { IfErr result (λ s. IsSeparatorFault text.now kind end s) }
{
    if kind == Kind::Array && byte_at(text, end) == b']' {
        return Ok(AfterItem::End(end + 1));
    }
    next_item(text, end, kind)
}

// After the value of an item, ends containers as long as they close: what comes then.
#[inline(always)]
fn leave(text: &[u8], written: &mut Written, at: At) -> Result<Left, Stop>
    requires short { length text.now < 2 ^ 32 }
    requires ended { HasEndAt text.now written.old.cells.items at }
    ensures ok { IfOk result (ComesNext text.now written.new.cells.items at.place) }
    ensures err { IfErr result (IsRootFault text.now) }
    ensures within { IfErr result (λ s. s.place ≤ length text.now) }
{
    let mut at = at;
    'containers: loop {
        let end = match after_value(text, at.place, at.item.kind)? {
            AfterItem::Item(place) => return Ok(at.item.next_at(place)),
            AfterItem::End(end) => end,
        };
        let cell = written.end(at.item, end);
        if at.item.parent == 0 {
            return Ok(Left::Root(end));
        }
        at = At {
            item: item_of(text, &written.cells, cell),
            place: end,
        };
    }
}

// The same, where mostly another item comes directly after a comma.
#[inline(always)]
fn after(text: &[u8], written: &mut Written, at: At) -> Result<Left, Stop>
    requires short { length text.now < 2 ^ 32 }
    requires ended { HasEndAt text.now written.old.cells.items at }
    ensures ok { IfOk result (ComesNext text.now written.new.cells.items at.place) }
    ensures err { IfErr result (IsRootFault text.now) }
    ensures within { IfErr result (λ s. s.place ≤ length text.now) }
{
    if let Some(place) = after_comma(text, at.place) {
        return Ok(at.item.next_at(place));
    }
    leave(text, written, at)
}

// Writes a value that is no plain scalar, and goes on after it or in it.
fn other(text: &[u8], written: &mut Written, at: At) -> Result<Left, Fault>
    requires short { length text.now < 2 ^ 32 }
    requires expected { HasValueAt text.now written.old.cells.items at }
    ensures ok { IfOk result (ComesNext text.now written.new.cells.items at.place) }
    ensures err { IfErr result (IsStopFor (IsRootFault text.now)) }
    ensures within { IfErr result (IsStopFor (λ s. s.place ≤ length text.now)) }
{
    match value(text, &mut written.cells, at)? {
        ValueAt::Opens(kind, first) => Ok(Left::Item(enter(
            text,
            &mut written.cells,
            kind,
            first,
        )?)),
        ValueAt::Ends(place) => Ok(leave(text, written, at.moved(place))?),
    }
}

// Passes what comes before the value of the item that is expected.
#[inline(always)]
fn head(text: &[u8], at: At) -> Result<At, Stop>
    requires { (cells : List Cell) × HasItemAt text.now cells at }
    ensures ok { IfOk result (λ value. (cells : List Cell) → HasItemAt text.now cells at
        → HasValueAt text.now cells value) }
    ensures later { IfOk result (λ value. at.place ≤ value.place) }
    ensures err { IfErr result (IsRootFault text.now) }
    ensures within { IfErr result (λ s. s.place ≤ length text.now) }
{
    let item = at.item.labelled(at.place);
    if let Some(place) = value_place(text, at.place, at.item.kind, false) {
        return Ok(At { item, place });
    }
    let place = item_at(text, at.place, at.item.kind, false)?;
    Ok(At { item, place })
}

// Writes the value that is expected, and goes on after it or in it.
#[inline(always)]
fn step(text: &[u8], written: &mut Written, at: At) -> Result<Left, Fault>
    requires short { length text.now < 2 ^ 32 }
    requires expected { HasValueAt text.now written.old.cells.items at }
    ensures ok { IfOk result (ComesNext text.now written.new.cells.items at.place) }
    ensures err { IfErr result (IsStopFor (IsRootFault text.now)) }
    ensures within { IfErr result (IsStopFor (λ s. s.place ≤ length text.now)) }
{
    let Some(end) = scalar_end(text, at.place, false) else {
        return Ok(other(text, written, at)?);
    };
    let cell = Cell::begun(at.place, at.item.parent, at.item.label);
    add(&mut written.cells, cell.ended(end))?;
    Ok(after(text, written, at.moved(end))?)
}

// Writes the cells of the value that is the first in the text, at a place: where it ends.
fn entries(text: &[u8], written: &mut Written, start: usize) -> Result<usize, Fault>
    requires short { length text.now < 2 ^ 32 }
    requires empty { written.old.cells.items ≡ [] }
    requires place { start ≡ after_space text.now 0 }
    requires inside { start ≤ length text.now }
    ensures ok { IfOk result (λ end. AreWritten text.now end written.new.cells.items) }
    ensures inside { IfOk result (λ end. end ≤ length text.now) }
    ensures err { IfErr result (IsStopFor (IsRootFault text.now)) }
    ensures within { IfErr result (IsStopFor (λ s. s.place ≤ length text.now)) }
{
    let item = Item::first(0, Kind::Array);
    let mut at = match value(text, &mut written.cells, At { item, place: start })? {
        ValueAt::Ends(end) => return Ok(end),
        ValueAt::Opens(kind, first) => enter(text, &mut written.cells, kind, first)?,
    };
    'items: loop {
        at = head(text, at)?;
        match step(text, written, at)? {
            Left::Item(next) => at = next,
            Left::Root(end) => return Ok(end),
        }
    }
}

// Whether the places in a text fit a cell: it has less than 4 GiB.
fn fits(text: &[u8]) -> bool
    ensures { IsTrue result ↔ (length text.now < 2 ^ 32) }
{
    text.len() <= u32::MAX as usize
}

// The cells of a text that is one value with nothing but white space round it, or the reason why it is
// none. Of a text of 4 GiB and more the places don't fit a cell: it runs out of memory.
fn whole(alloc: Global, read: Read<'_>) -> Result<Written, Fault>
    requires { read.place ≡ 0 }
    ensures alone { OnOk result (IsAfterRoot read.entry.text (length read.entry.text)) }
    ensures kept { IfOk result (λ written. (es : List Entry) → AreOfAlone read.entry.text es
        → AreKept es written.cells.items) }
    ensures short { OnOk result (length read.entry.text < 2 ^ 32) }
    ensures err { IfErr result (IsStopFor (λ s. (is_bytes : Bool) → IsInvalid read.entry.text is_bytes s)) }
    ensures within { IfErr result (IsStopFor (λ s. s.place ≤ length read.entry.text)) }
{
    let text = read.as_u8_slice();
    if !fits(text) {
        return Err(Fault::OutOfMemory);
    }
    let mut written = Written {
        cells: room(alloc, text),
        has_wide: false,
    };
    let end = entries(text, &mut written, skip_space(text, 0))?;
    let place = skip_space(text, end);
    if place < text.len() {
        let code = ErrorCode::TrailingCharacters;
        return Err(Fault::At(Stop { place, code }));
    }
    Ok(written)
}

// The cells of a document, or the reason why the text is none.
pub(crate) fn document(alloc: Global, read: Read<'_>, is_bytes: bool) -> Result<Written, Fault>
    requires start { read.place ≡ 0 }
    requires utf8 { IsFalse is_bytes → IsUtf8 read.text }
    ensures valid { OnOk result (IsValidDocument read.entry.text) }
    ensures kept { IfOk result (λ written. (es : List Entry) → AreOfAlone read.entry.text es
        → AreKept es written.cells.items) }
    ensures short { OnOk result (length read.entry.text < 2 ^ 32) }
    ensures err { IfErr result (IsStopFor (IsInvalid read.entry.text is_bytes)) }
    ensures within { IfErr result (IsStopFor (λ s. s.place ≤ length read.entry.text)) }
{
    let text = read.as_u8_slice();
    let written = whole(alloc, read)?;
    if is_bytes {
        check(text, text.len())?;
    }
    Ok(written)
}
