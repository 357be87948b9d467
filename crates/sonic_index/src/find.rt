// How the items of a value are found by their entries.
ghost use Rattle.std.specs.Prelude.{◌≡◌, ◌<◌, ◌≤◌, ◌↔◌, length, IfNone, IfSome, IsTrue};
ghost use Rattle.sonic_text.specs.Paths.{key, index};
ghost use Rattle.sonic_pointer.specs.Nodes.{node_of};
ghost use Rattle.sonic_index.specs.Entries.{AreEntries};
ghost use Rattle.sonic_index.specs.Internal.Cells.{entries_of};
ghost use Rattle.sonic_index.specs.Internal.Items.{AreParents, AreRising, BeginsKey, BeginsString, GoesNowhere, GoesTo, IsArray, IsBetween, IsItemAround, IsUnder};
ghost use Rattle.sonic_index.specs.Internal.Members.{AreOrdered};

use crate::cell::Cell;
use crate::members::{is_wide, wide_member};
use sonic_pointer::PointerNode;
use sonic_text::{byte_at, same_key, string_end};

// How many elements of an array are gone over before it is halved.
const EARLY: usize = 8;

// The number of the first item that a node names of the value with this number.
pub(crate) fn child(
    text: &[u8],
    cells: &[Cell],
    members: Option<&[u32]>,
    i: usize,
    node: &PointerNode<'_>,
) -> Option<usize>
    requires entries { AreEntries text.now (entries_of text.now cells.now) }
    requires ordered { IfSome members (λ numbers. AreOrdered text.now cells.now numbers.now) }
    requires within { i < length cells.now }
    ensures some { IfSome result (λ c. GoesTo text.now cells.now i (node_of node.now) c) }
    ensures none { IfNone result (GoesNowhere text.now cells.now i (node_of node.now)) }
{
    match node {
        PointerNode::Key(wanted) => match members {
            Some(members) if is_wide(cells, i) => wide_member(text, cells, members, i, *wanted),
            _ => member(text, cells, i, *wanted),
        },
        PointerNode::Index(number) => element(text, cells, i, *number),
    }
}

// The same of a key, where the members are gone over one by one.
fn member(text: &[u8], cells: &[Cell], i: usize, wanted: &str) -> Option<usize>
    requires entries { AreEntries text.now (entries_of text.now cells.now) }
    requires within { i < length cells.now }
    ensures some { IfSome result (λ c. GoesTo text.now cells.now i (key wanted.now) c) }
    ensures none { IfNone result (GoesNowhere text.now cells.now i (key wanted.now)) }
{
    let whole = cells[i];
    if byte_at(text, whole.start as usize) != b'{' {
        return None;
    }
    let mut at = i + 1;
    while at < cells.len() {
        let item = cells[at];
        if whole.end <= item.start {
            return None;
        }
        if is_named(text, item.label as usize, wanted) {
            return Some(at);
        }
        at = after(cells, at);
    }
    None
}

// Whether the key that begins at a place is this one.
fn is_named(text: &[u8], place: usize, wanted: &str) -> bool
    requires { BeginsString text.now place }
    ensures { IsTrue result ↔ BeginsKey text.now place wanted.now }
{
    match string_end(text, place, false) {
        Ok(found) => same_key(text, place, found.end, wanted),
        Err(_) => unreachable!(),
    }
}

// The number of the element with this number of the array with the number i, by halving: of the values
// inside the array the middle one is in some element, whose number says in which half to go on. Where
// the element is early, or the middle one is so deep in its own that all elements before the one that
// is sought are gone over sooner, they are.
fn element(text: &[u8], cells: &[Cell], i: usize, number: usize) -> Option<usize>
    requires entries { AreEntries text.now (entries_of text.now cells.now) }
    requires within { i < length cells.now }
    ensures some { IfSome result (λ c. GoesTo text.now cells.now i (index number) c) }
    ensures none { IfNone result (GoesNowhere text.now cells.now i (index number)) }
{
    if byte_at(text, cells[i].start as usize) != b'[' {
        return None;
    }
    if number < EARLY {
        return early_element(text, cells, i, number);
    }
    let mut low = i + 1;
    let mut high = after(cells, i);
    while low < high {
        let middle = low + (high - low) / 2;
        let Some(at) = item_around(cells, i, middle, number) else {
            return early_element(text, cells, i, number);
        };
        let count = cells[at].label as usize;
        if count == number {
            return Some(at);
        }
        if count < number {
            low = middle + 1;
        } else {
            high = at;
        }
    }
    None
}

// The same where the elements are gone over one by one.
fn early_element(text: &[u8], cells: &[Cell], i: usize, number: usize) -> Option<usize>
    requires entries { AreEntries text.now (entries_of text.now cells.now) }
    requires array { IsArray text.now cells.now i }
    ensures some { IfSome result (λ c. GoesTo text.now cells.now i (index number) c) }
    ensures none { IfNone result (GoesNowhere text.now cells.now i (index number)) }
{
    let whole = cells[i];
    let mut at = i + 1;
    while at < cells.len() {
        let item = cells[at];
        if whole.end <= item.start {
            return None;
        }
        if item.label as usize == number {
            return Some(at);
        }
        at = after(cells, at);
    }
    None
}

// The number of the item of the value with the number i in which the value with the number d is, or
// `None` where so many steps from a value to the one around it don't lead to that item.
fn item_around(cells: &[Cell], i: usize, d: usize, most: usize) -> Option<usize>
    requires parents { AreParents cells.now }
    requires under { IsUnder cells.now i d }
    ensures { IfSome result (IsItemAround cells.now i d) }
{
    let mut at = d;
    'parents: for _ in 0..most {
        let parent = cells[at].parent as usize;
        if parent == i {
            return Some(at);
        }
        at = parent;
    }
    None
}

// The number of the first value that begins where the value with this number ends, or later, and how
// many there are where none does. All between are its parts, and theirs.
fn after(cells: &[Cell], i: usize) -> usize
    requires rising { AreRising cells.now }
    requires within { i < length cells.now }
    ensures { IsBetween cells.now i result result }
{
    let end = cells[i].end;
    let bounds = near(cells, i);
    let mut low = bounds.low;
    let mut high = bounds.high;
    while low < high {
        let middle = low + (high - low) / 2;
        if cells[middle].start < end {
            low = middle + 1;
        } else {
            high = middle;
        }
    }
    low
}

// Numbers from the one to the other.
#[derive(Drop)]
struct Bounds {
    low: usize,
    high: usize,
}

// Between which numbers the first value is that begins where the value with this number ends, or
// later. Each step is as long as all before it, so a value with few parts takes few steps.
fn near(cells: &[Cell], i: usize) -> Bounds
    requires rising { AreRising cells.now }
    requires within { i < length cells.now }
    ensures { IsBetween cells.now i result.low result.high }
{
    let end = cells[i].end;
    let mut low = i + 1;
    while low - i <= cells.len() - low {
        let next = low + (low - i);
        let last = next - 1;
        if end <= cells[last].start {
            return Bounds { low, high: last };
        }
        low = next;
    }
    let high = cells.len();
    Bounds { low, high }
}
