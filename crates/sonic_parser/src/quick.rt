// The loop over the items of a container that fit, in registers.
//
// It finds no fault: where an item doesn't fit, it says how far it came, and `skip` goes on there.
ghost use Rattle.std.specs.Prelude.{◌≡◌, ◌+◌, ◌<◌, ◌≤◌, ◌≢◌, ◌↔◌, ℕ, Bool, true, length, take, vec_len, IfSome, IsSome, MatchOption, OnSome};
ghost use Rattle.sonic_text.specs.Numbers.{IsNumber};
ghost use Rattle.sonic_text.specs.Places.{byte, IsDigit};
ghost use Rattle.sonic_text.specs.Values.{opening};
ghost use Rattle.sonic_parser.specs.Internal.Skipping.{IsAhead, IsReached, IsOngoing, place_of};
ghost use Rattle.sonic_parser.specs.OpenContainers.{IsTop};
ghost use Rattle.sonic_parser.specs.Parts.{IsAfterValue, IsItem, IsValueEnd};

use crate::container::{AfterItem, NEAR, first_item, skip_key};
use crate::number_run::NumberRun;
use crate::skip::{Extent, Reached, leave};
use sonic_text::internal::{
    short_number, short_space, short_string, skip_digits, skip_literal, skip_number, skip_string,
};
use sonic_text::{Kind, byte_at, skip_space};

// What is at the place of a value.
#[derive(Clone, Copy)]
pub(crate) enum Peek {
    // A value that ends here.
    Value(usize),
    // A value, after which the next item is expected here.
    AfterItem(usize),
    // A container of this kind, whose first item is expected here.
    Inside(Kind, usize),
    // Something else.
    Other,
}

/// The place where the value is expected of the item that is expected at a place, in a container of
/// this kind, by a quick look. `None` says nothing of the text: what is there, `item_at` says.
///
/// An element's value is expected where the element is, and a member's after its key and colon: at the
/// start of `"a" : 1` it is 6.
#[inline(always)]
#[tactic(auto, using(crate::proofs::BeginningLemmas::items))]
pub fn value_place(text: &[u8], place: usize, kind: Kind, lossy: bool) -> Option<usize>
    requires { place ≤ length text.now }
    ensures { IfSome result (λ value. IsItem lossy text.now kind place value) }
{
    match kind {
        Kind::Array => Some(place),
        Kind::Object => skip_key(text, place, lossy),
    }
}

// What the container is whose bracket is at a place.
#[inline(always)]
fn inside(text: &[u8], place: usize, kind: Kind) -> Peek
    requires within { place ≤ length text.now }
    requires bracket { byte text.now place ≡ opening kind }
    ensures { (m : Bool) → IsAhead m text.now place result }
{
    match first_item(text, place, kind) {
        AfterItem::Item(first) => Peek::Inside(kind, first),
        AfterItem::End(end) => Peek::Value(end),
    }
}

// The end of the number at a place, where it is digits alone, as most numbers are, and none of them is a
// first 0.
#[inline(always)]
pub(crate) fn digits_ahead(text: &[u8], place: usize) -> Option<usize>
    requires { place ≤ length text.now }
    ensures number { IfSome result (λ end. (place < end) × (end ≤ length text.now) × IsNumber text.now place end) }
    ensures digit { IfSome result (λ end. IsDigit (byte text.now place)) }
{
    if !matches!(byte_at(text, place), b'1'..=b'9') {
        return None;
    }
    let end = skip_digits(text, place);
    match byte_at(text, end) {
        b'.' | b'e' | b'E' => None,
        _ => Some(end),
    }
}

// The end of the literal at a place whose first byte this is.
#[inline(always)]
fn literal_ahead(text: &[u8], place: usize, first: u8) -> Option<usize>
    requires within { place ≤ length text.now }
    requires first { byte text.now place ≡ first }
    ensures end { IfSome result (λ end. (m : Bool) → IsValueEnd m text.now place end) }
    ensures near { IfSome result (λ end. end ≤ place + 5) }
    ensures scalar { OnSome result ((first ≢ 91) × (first ≢ 123)) }
{
    match first {
        b'n' => skip_literal(text, place, "null"),
        b't' => skip_literal(text, place, "true"),
        b'f' => skip_literal(text, place, "false"),
        _ => None,
    }
}

/// The end of the string, the number or the literal at a place (RFC 8259, sections 3, 6 and 7), by a
/// quick look. `None` says nothing of the text: what is there, `value_at` says.
///
/// At the start of `1,2` it is 1.
#[inline(always)]
pub fn scalar_end(text: &[u8], place: usize, lossy: bool) -> Option<usize>
    requires { place ≤ length text.now }
    ensures end { IfSome result (IsValueEnd lossy text.now place) }
    ensures scalar { OnSome result ((byte text.now place ≢ 91) × (byte text.now place ≢ 123)) }
{
    let byte = byte_at(text, place);
    if byte == b'"' {
        return skip_string(text, place, lossy);
    }
    if byte.is_ascii_digit() {
        return match digits_ahead(text, place) {
            Some(end) => Some(end),
            None => skip_number(text, place),
        };
    }
    if byte == b'-' {
        return skip_number(text, place);
    }
    literal_ahead(text, place, byte)
}

/// The end of the string, the number or the literal at a place (RFC 8259, sections 3, 6 and 7), where it is
/// short. `None` says nothing of the text.
///
/// At the start of `1,2` and 61 bytes more it is 1.
#[inline(always)]
pub fn short_scalar(text: &[u8], place: usize) -> Option<usize>
    requires { place + 64 ≤ length text.now }
    ensures end { IfSome result (λ end. (m : Bool) → IsValueEnd m text.now place end) }
    ensures near { IfSome result (λ end. end ≤ place + 50) }
{
    let byte = text[place];
    if byte == b'"' {
        return short_string(text, place);
    }
    if byte.is_ascii_digit() {
        return short_number(text, place);
    }
    // Apart, so that the digits of most numbers are read before it is known that no sign is there.
    if byte == b'-' {
        return short_number(text, place);
    }
    literal_ahead(text, place, byte)
}

// What is at the place of a value, where it is near.
#[inline(always)]
fn short_look(text: &[u8], place: usize) -> Peek
    requires { place + 128 ≤ length text.now }
    ensures { (m : Bool) → IsAhead m text.now place result }
{
    let byte = text[place];
    if byte == b'{' && text[place + 1] == b'"' {
        return Peek::Inside(Kind::Object, place + 1);
    }
    if byte == b'[' && text[place + 1] > b' ' && text[place + 1] != b']' {
        return Peek::Inside(Kind::Array, place + 1);
    }
    let Some(end) = short_scalar(text, place) else {
        return Peek::Other;
    };
    if text[end] == b',' {
        Peek::AfterItem(short_space(text, end + 1))
    } else {
        Peek::Value(end)
    }
}

// What is at the place of a value.
#[inline(always)]
fn look(text: &[u8], place: usize, lossy: bool) -> Peek
    requires { place ≤ length text.now }
    ensures { IsAhead lossy text.now place result }
{
    if text.len() - place >= NEAR {
        match short_look(text, place) {
            Peek::Other => {}
            ahead => return ahead,
        }
    }
    if let Some(end) = scalar_end(text, place, lossy) {
        return match after_comma(text, end) {
            Some(next) => Peek::AfterItem(next),
            None => Peek::Value(end),
        };
    }
    match Kind::opened_by(byte_at(text, place)) {
        Some(kind) => inside(text, place, kind),
        None => Peek::Other,
    }
}

// How many arrays begin at a place, one directly inside the other, each with an array for its first
// item; at most so many.
fn nested_arrays(text: &[u8], place: usize, most: usize) -> usize
    requires { byte text.now place ≡ opening Kind.Array }
    ensures few { result ≤ most }
    ensures nested { (k : ℕ) → k ≤ result → byte text.now (place + k) ≡ opening Kind.Array }
{
    let limit = most.min(text.len() - place - 1);
    let mut count = 0;
    while count < limit && text[place + count + 1] == b'[' {
        count += 1;
    }
    count
}

// Opens the arrays that begin one directly inside the other where an item of an array is expected:
// how many. One place of the room stays free.
#[inline(never)]
fn open_nested(text: &[u8], kinds: &mut [Kind], depth: usize, place: usize) -> usize
    requires bracket { byte text.now place ≡ opening Kind.Array }
    requires room { depth < length kinds.old }
    ensures long { length kinds.new ≡ length kinds.old }
    ensures room { depth + result < length kinds.new }
    ensures within { place + result ≤ length text.now }
    ensures reached { (m : Bool) (root : ℕ) → IsTop (take depth kinds.old) Kind.Array
        → IsReached m text.now root (take depth kinds.old) (Reached.Expected place)
        → IsReached m text.now root (take (depth + result) kinds.new) (Reached.Expected (place + result)) }
{
    let count = nested_arrays(text, place, kinds.len() - depth - 1);
    kinds[depth..depth + count].fill(Kind::Array);
    count
}

// The same, where an array is the first item of the array that is open, and has an array for its own;
// else it opens none.
//
// Brackets one after the other are the one thing of which a text can have as many as it has bytes,
// so they are counted first, and their kinds written in one piece.
#[inline(always)]
fn open_arrays(text: &[u8], kinds: &mut [Kind], depth: usize, place: usize) -> usize
    requires some { 0 < depth }
    requires room { depth ≤ length kinds.old }
    requires inside { place ≤ length text.now }
    ensures long { length kinds.new ≡ length kinds.old }
    ensures room { depth + result ≤ length kinds.new }
    ensures within { place + result ≤ length text.now }
    ensures reached { (m : Bool) (root : ℕ)
        → IsReached m text.now root (take depth kinds.old) (Reached.Expected place)
        → IsReached m text.now root (take (depth + result) kinds.new) (Reached.Expected (place + result)) }
{
    if depth < kinds.len()
        && matches!(kinds[depth - 1], Kind::Array)
        && byte_at(text, place) == b'['
        && byte_at(text, place + 1) == b'['
    {
        open_nested(text, kinds, depth, place)
    } else {
        0
    }
}

/// Where the next item is expected after a value, if a comma comes directly behind it, as mostly, and
/// `None` where none does: how the container goes on there, `next_item` says.
///
/// After the `1` of `[1, 2]` it is 4.
#[inline(always)]
pub fn after_comma(text: &[u8], ended: usize) -> Option<usize>
    requires { ended ≤ length text.now }
    ensures next { IfSome result (λ next. (kind : Kind)
        → IsAfterValue text.now kind ended (AfterItem.Item next)) }
    ensures comma { IsSome result ↔ (byte text.now ended ≡ 44) }
{
    if byte_at(text, ended) == b',' {
        Some(skip_space(text, ended + 1))
    } else {
        None
    }
}

// How far the items fit of the open containers, of the innermost of which the next one is expected
// at a place, while there is room for the kinds of those that are open.
//
// `kinds` begins with the kinds of the containers that are open, the outermost first; so many are.
#[inline(never)]
pub(crate) fn pass_items(
    text: &[u8],
    kinds: &mut [Kind],
    depth: usize,
    first: usize,
    lossy: bool,
) -> Extent
    requires within { first ≤ length text.now }
    requires some { 0 < depth }
    requires room { depth ≤ length kinds.old }
    ensures long { length kinds.new ≡ length kinds.old }
    ensures room { result.depth ≤ length kinds.new }
    ensures some { IsOngoing result.depth result.reached }
    ensures within { place_of result.reached ≤ length text.now }
    ensures reached { (root : ℕ)
        → IsReached lossy text.now root (take depth kinds.old) (Reached.Expected first)
        → IsReached lossy text.now root (take result.depth kinds.new) result.reached }
{
    let mut depth = depth;
    let mut kind = kinds[depth - 1];
    let mut series = NumberRun::new(first);
    let mut place = series.pass(text, first, kind);
    'items: loop {
        let Some(value) = value_place(text, place, kind, lossy) else {
            return Extent::new(Reached::Expected(place), depth);
        };
        let ahead = look(text, value, lossy);
        if let Peek::AfterItem(next) = ahead {
            place = next;
            continue 'items;
        }
        if let Peek::Inside(inner, first) = ahead
            && depth < kinds.len()
        {
            kinds[depth] = inner;
            depth += 1;
            let count = open_arrays(text, kinds, depth, first);
            depth += count;
            kind = kinds[depth - 1];
            place = series.pass(text, first + count, kind);
            continue 'items;
        }
        let Peek::Value(ended) = ahead else {
            return Extent::new(Reached::Expected(place), depth);
        };
        let extent = leave(text, kinds, depth, ended);
        depth = extent.depth;
        let Reached::Expected(after) = extent.reached else {
            return Extent::new(extent.reached, depth);
        };
        place = after;
        kind = kinds[depth - 1];
    }
}

// How far the items fit of the containers that are open, of the innermost of which the next one is
// expected at a place.
//
// `opened` has the kinds of the containers that are open, the outermost first.
pub(crate) fn close_quickly(
    text: &[u8],
    opened: &mut Vec<Kind>,
    first: usize,
    lossy: bool,
) -> Reached
    requires within { first ≤ length text.now }
    requires some { 0 < vec_len opened.old }
    ensures some { IsOngoing (vec_len opened.new) result }
    ensures within { place_of result ≤ length text.now }
    ensures reached { (root : ℕ)
        → IsReached lossy text.now root opened.old.items (Reached.Expected first)
        → IsReached lossy text.now root opened.new.items result }
{
    let mut place = first;
    'rooms: loop {
        let depth = opened.len();
        // As many again, within limits.
        let room = depth.max(64).min(65_536);
        if opened.resize(depth + room, Kind::Array).is_err() {
            return Reached::Expected(place);
        }
        let extent = pass_items(text, opened.as_mut_slice(), depth, place, lossy);
        opened.truncate(extent.depth);
        match extent.reached {
            Reached::Expected(next) if place < next => place = next,
            reached => return reached,
        }
    }
}
