// The members of wide objects in the order of their keys, so that one is found by halving.
ghost use Rattle.std.specs.Prelude.{◌≡◌, ℕ, ◌+◌, ◌^◌, ◌<◌, ◌≤◌, ◌↔◌, List, All, length, map, IfOk, IfNone, IfSome, IsTrue, OnOk};
ghost use Rattle.sonic_text.specs.Paths.{key};
ghost use Rattle.sonic_index.specs.Entries.{AreEntries};
ghost use Rattle.sonic_index.specs.Internal.Cells.{entries_of};
ghost use Rattle.sonic_index.specs.Internal.Items.{GoesNowhere, GoesTo};
ghost use Rattle.sonic_index.specs.Internal.Members.{compare_key_of, AreCollected, AreJoined, AreLinked, AreOrdered, IsFirstMember, IsMember, IsPlaceFor, IsWide};

use crate::cell::Cell;
use sonic_text::internal::compare_key;
use sonic_text::{byte_at, string_end, unescape_into};
use std::alloc::{AllocError, Global};
use std::cmp::Ordering;

// A member: the number of its object, the bytes that its key denotes, and its own number.
type Member<'a> = (u32, &'a [u8], u32);

// A key with its escapes undone, and the number of its member.
#[derive(Drop)]
struct Unescaped {
    number: u32,
    key: Vec<u8>,
}

// Members of wide objects: those whose key is as it is written, and the keys of the others.
#[derive(Drop)]
struct Members<'a> {
    plain: Vec<Member<'a>>,
    escaped: Vec<Unescaped>,
}

// So many cells after that of a wide value is one that lies within it, too: more than 64 do, at any depth.
pub(crate) const WIDE: usize = 65;

// Whether more than 64 cells lie within the value with this number, at any depth.
#[inline(always)]
pub(crate) fn is_wide(cells: &[Cell], i: usize) -> bool
    requires { i < length cells.now }
    ensures { IsTrue result ↔ IsWide cells.now i }
{
    let last = i + WIDE;
    last < cells.len() && cells[last].start < cells[i].end
}

// Whether the value with this number is that of a member of a wide object.
#[inline(always)]
fn is_member(text: &[u8], cells: &[Cell], n: usize) -> bool
    requires linked { AreLinked text.now cells.now }
    requires within { n < length cells.now }
    ensures yes { IsTrue result → (p : ℕ) × (b : List ℕ) × IsWide cells.now p × IsMember text.now cells.now p n b }
    ensures no { (p : ℕ) (b : List ℕ) → IsWide cells.now p → IsMember text.now cells.now p n b → IsTrue result }
{
    let parent = cells[n].parent as usize;
    parent < n && byte_at(text, cells[parent].start as usize) == b'{' && is_wide(cells, parent)
}

// Adds the member that has this number.
fn add<'a>(
    alloc: Global,
    text: &'a [u8],
    cells: &[Cell],
    n: usize,
    members: &mut Members<'a>,
) -> Result<(), AllocError>
    requires short { n < 2 ^ 32 }
    requires member { (p : ℕ) × (b : List ℕ) × IsWide cells.now p × IsMember text.now cells.now p n b }
    requires collected { AreCollected text.now cells.now n members.old.plain.items members.old.escaped.items }
    ensures { OnOk result (AreCollected text.now cells.now (n + 1) members.new.plain.items members.new.escaped.items) }
{
    let cell = cells[n];
    let start = cell.label as usize;
    let number = n as u32;
    let Ok(found) = string_end(text, start, false) else {
        unreachable!()
    };
    if !found.escaped {
        let key = &text[start + 1..found.end - 1];
        members.plain.push((cell.parent, key, number))?;
        return Ok(());
    }
    let mut key = Vec::new(alloc);
    match unescape_into(&mut key, text, start, found.end, false) {
        Ok(()) => members.escaped.push(Unescaped { number, key })?,
        Err(_) => return Err(AllocError),
    }
    Ok(())
}

// The members of all wide objects.
fn collect<'a>(alloc: Global, text: &'a [u8], cells: &[Cell]) -> Result<Members<'a>, AllocError>
    requires short { length cells.now ≤ 2 ^ 32 }
    requires linked { AreLinked text.now cells.now }
    ensures { IfOk result (λ m. AreCollected text.now cells.now (length cells.now) m.plain.items m.escaped.items) }
{
    let mut members = Members {
        plain: Vec::new(alloc),
        escaped: Vec::new(alloc),
    };
    for n in 0..cells.len() {
        if is_member(text, cells, n) {
            add(alloc, text, cells, n, &mut members)?;
        }
    }
    Ok(members)
}

// The numbers of members.
fn numbers_of(alloc: Global, members: &[Member<'_>]) -> Result<Vec<u32>, AllocError>
    ensures { IfOk result (λ numbers. numbers.items ≡ map (λ m. m.2) members.now) }
{
    let mut numbers = Vec::new(alloc);
    numbers.reserve(members.len())?;
    for member in members {
        numbers.push(member.2)?;
    }
    Ok(numbers)
}

// Adds the members whose keys have escapes.
fn join<'a>(
    cells: &[Cell],
    escaped: &'a [Unescaped],
    members: &mut Vec<Member<'a>>,
) -> Result<(), AllocError>
    requires { All (λ x. x.number < length cells.now) escaped.now }
    ensures { OnOk result (AreJoined cells.now escaped.now members.old.items members.new.items) }
{
    for other in escaped {
        let parent = cells[other.number as usize].parent;
        members.push((parent, other.key.as_slice(), other.number))?;
    }
    Ok(())
}

// The numbers of the members of wide objects, ordered by their objects, then by the bytes that their
// keys denote, and then as they come.
fn order(alloc: Global, text: &[u8], cells: &[Cell]) -> Result<Vec<u32>, AllocError>
    requires short { length cells.now ≤ 2 ^ 32 }
    requires linked { AreLinked text.now cells.now }
    ensures { IfOk result (λ numbers. AreOrdered text.now cells.now numbers.items) }
{
    let Members { plain, escaped } = collect(alloc, text, cells)?;
    let mut members = plain;
    join(cells, &escaped, &mut members)?;
    members.sort_unstable();
    numbers_of(alloc, &members)
}

// The same where an object is wide, and else nothing.
pub(crate) fn order_wide(
    alloc: Global,
    text: &[u8],
    cells: &[Cell],
    has_wide: bool,
) -> Result<Option<Vec<u32>>, AllocError>
    requires short { length cells.now ≤ 2 ^ 32 }
    requires linked { AreLinked text.now cells.now }
    ensures { IfOk result (λ numbers. IfSome numbers (λ some. AreOrdered text.now cells.now some.items)) }
{
    if has_wide {
        Ok(Some(order(alloc, text, cells)?))
    } else {
        Ok(None)
    }
}

// How the member with this number compares with those of the object i by this key.
fn compare(text: &[u8], cells: &[Cell], n: usize, i: usize, key: &str) -> Ordering
    requires { (p : ℕ) × (b : List ℕ) × IsMember text.now cells.now p n b }
    ensures { (p : ℕ) (b : List ℕ) → IsMember text.now cells.now p n b → result ≡ compare_key_of p b i key.now }
{
    let cell = cells[n];
    let parent = cell.parent as usize;
    if parent != i {
        return parent.cmp(&i);
    }
    let start = cell.label as usize;
    match string_end(text, start, false) {
        Ok(found) => compare_key(text, start, found.end, key),
        Err(_) => unreachable!(),
    }
}

// The place in the order of the first member that comes not before those of the object i by this key.
fn place(text: &[u8], cells: &[Cell], numbers: &[u32], i: usize, key: &str) -> usize
    requires { AreOrdered text.now cells.now numbers.now }
    ensures { (o : AreOrdered text.now cells.now numbers.now) → IsPlaceFor o.members i key.now result result }
{
    let mut low = 0;
    let mut high = numbers.len();
    while low < high {
        let middle = low + (high - low) / 2;
        if compare(text, cells, numbers[middle] as usize, i, key).is_lt() {
            low = middle + 1;
        } else {
            high = middle;
        }
    }
    low
}

// The number of the first member of the wide object i by this key.
fn first(text: &[u8], cells: &[Cell], numbers: &[u32], i: usize, key: &str) -> Option<usize>
    requires wide { IsWide cells.now i }
    requires ordered { AreOrdered text.now cells.now numbers.now }
    ensures some { IfSome result (IsFirstMember text.now cells.now i key.now) }
    ensures none { IfNone result ((n : ℕ) → ¬ IsMember text.now cells.now i n key.now) }
{
    let at = place(text, cells, numbers, i, key);
    if at == numbers.len() {
        return None;
    }
    let n = numbers[at] as usize;
    if compare(text, cells, n, i, key).is_eq() {
        Some(n)
    } else {
        None
    }
}

// The same of a value that is wide, and may be no object.
pub(crate) fn wide_member(
    text: &[u8],
    cells: &[Cell],
    numbers: &[u32],
    i: usize,
    wanted: &str,
) -> Option<usize>
    requires entries { AreEntries text.now (entries_of text.now cells.now) }
    requires wide { IsWide cells.now i }
    requires ordered { AreOrdered text.now cells.now numbers.now }
    ensures some { IfSome result (λ c. GoesTo text.now cells.now i (key wanted.now) c) }
    ensures none { IfNone result (GoesNowhere text.now cells.now i (key wanted.now)) }
{
    if byte_at(text, cells[i].start as usize) != b'{' {
        return None;
    }
    first(text, cells, numbers, i, wanted)
}
