// Where a container ends that is known to be whole, by blocks of 64 bytes.
ghost use Rattle.std.specs.Prelude.{◌≡◌, ℕ, ◌+◌, ◌-◌, ◌/◌, ◌^◌, ◌<◌, ◌≤◌, Bool, List, MatchOption};
ghost use Rattle.sonic_blocks.specs.Views.{AreMasks, IsMask};
ghost use Rattle.sonic_text.specs.Brackets.{Closes, LeavesString};
ghost use Rattle.sonic_text.specs.Places.{byte};
ghost use Rattle.sonic_text.specs.Values.{opening, closing, IsValue};
ghost use Rattle.sonic_parser.specs.Internal.Blocks.{AreKnown, IsInContainer};
ghost use Rattle.sonic_parser.specs.Internal.Unchecked.{IsInsideString, IsOpenString};

use sonic_blocks::internal::closing_bit;
use sonic_blocks::{Masks, Steps, Tape, get_string_bits};
use sonic_text::Kind;
use std::marker::Brand;
use std::sync::ledger::{Blank, Ledger};

// What is known of the bytes before a block.
#[derive(Clone, Copy, Drop)]
struct Known {
    // How many of the brackets are open.
    depth: usize,
    // `u64::MAX` where a string is open, else 0.
    in_string: u64,
    // 1 where the first byte of the block is escaped, else 0.
    in_escape: u64,
}

// A block, and what it shows.
#[derive(Clone, Copy, Drop)]
struct Block {
    // Where it begins.
    place: usize,
    masks: Masks,
}

// The kind of the container that begins with a block.
fn first_kind(masks: &Masks) -> Kind
    ensures { (t : List ℕ) (p : ℕ) (kind : Kind) → AreMasks t p masks.now → byte t p ≡ opening kind → result ≡ kind }
{
    if masks.open_brace & 1 == 1 {
        return Kind::Object;
    }
    Kind::Array
}

// The brackets of the kind that open and that close, in strings and outside.
fn brackets_of(masks: &Masks, kind: Kind) -> (u64, u64)
    ensures { (t : List ℕ) (p : ℕ) → AreMasks t p masks.now
        → IsMask t p (opening kind) result.0 × IsMask t p (closing kind) result.1 }
{
    match kind {
        Kind::Array => (masks.open_bracket, masks.close_bracket),
        Kind::Object => (masks.open_brace, masks.close_brace),
    }
}

// Where the container ends, if it ends in this block.
#[inline(always)]
fn end_in(block: &Block, kind: Kind, known: &mut Known) -> Option<usize>
    requires ends { (t : List ℕ) × (start : ℕ) × (j : ℕ)
        × IsInContainer kind t start j block.now known.old }
    requires room { block.now.place < 2 ^ 63 }
    ensures { (t : List ℕ) (start j : ℕ) → IsInContainer kind t start j block.now known.old
        → MatchOption result
        (AreKnown kind t start (block.now.place + 64) known.new × (block.now.place + 64 < j))
        (λ end. end ≡ j) }
{
    let inside = get_string_bits(
        block.masks.backslash,
        block.masks.quote,
        &mut known.in_string,
        &mut known.in_escape,
    );
    let (opens, closes) = brackets_of(&block.masks, kind);
    let (opens, closes) = (opens & !inside, closes & !inside);
    if let Some(bit) = closing_bit(opens, closes, known.depth) {
        return Some(block.place + bit as usize + 1);
    }
    known.depth = known.depth + opens.count_ones() as usize - closes.count_ones() as usize;
    None
}

// The end of the container of this kind that begins with a block. It is inlined for each kind, so
// that only two brackets are looked for.
#[inline(always)]
fn end_of_kind<L: Ledger>(
    tape: &Tape<'_>,
    start: usize,
    masks: Masks,
    kind: Kind,
    steps: &mut Steps<L>,
) -> usize
    requires masks { AreMasks tape.now start masks }
    requires begins { byte tape.now start ≡ opening kind }
    requires container { (lossy : Bool) × (j : ℕ) × IsValue lossy tape.now start j }
    ensures end { (lossy : Bool) (j : ℕ) → IsValue lossy tape.now start j → result ≡ j }
    ensures cost { steps.new ≤ steps.old + (result - start) / 64 }
{
    let len = tape.len();
    let mut known = Known {
        depth: 0,
        in_string: 0,
        in_escape: 0,
    };
    let mut block = Block {
        place: start,
        masks,
    };
    while block.place < len {
        if let Some(end) = end_in(&block, kind, &mut known) {
            return end;
        }
        block.place += 64;
        block.masks = tape.masks_at(block.place, steps);
    }
    unreachable!()
}

/// The end of the container at `start`, which is known to be whole: from `{` of `{"a":"}"},1` to
/// the place of the comma.
///
/// The text is seen by [`Masks`] alone, and each view is a step: one for 64 bytes, and one more. Only
/// the brackets of the container's own kind are counted, and those in strings aren't: what else is
/// between them isn't looked at (the law is `value_balances`).
pub fn container_end<L: Ledger>(tape: &Tape<'_>, start: usize, steps: &mut Steps<L>) -> usize
    requires { (lossy : Bool) × (kind : Kind) × (j : ℕ) × IsValue lossy tape.now start j
        × (byte tape.now start ≡ opening kind) }
    ensures end { (lossy : Bool) (j : ℕ) → IsValue lossy tape.now start j → result ≡ j }
    ensures cost { steps.new ≤ steps.old + (result - start) / 64 + 1 }
{
    let masks = tape.masks_at(start, steps);
    match first_kind(&masks) {
        Kind::Array => end_of_kind(tape, start, masks, Kind::Array, steps),
        Kind::Object => end_of_kind(tape, start, masks, Kind::Object, steps),
    }
}

// The end of the string inside of which `start` is, and isn't escaped: after the next quote that no
// backslash escapes.
fn string_end<L: Ledger>(tape: &Tape<'_>, start: usize, steps: &mut Steps<L>) -> usize
    requires { IsOpenString tape.now start }
    ensures { (s : ℕ) → IsInsideString tape.now s start → LeavesString tape.now s start result }
{
    let len = tape.len();
    let (mut in_string, mut in_escape) = (u64::MAX, 0);
    let mut place = start;
    while place < len {
        let masks = tape.masks_at(place, steps);
        let inside = get_string_bits(masks.backslash, masks.quote, &mut in_string, &mut in_escape);
        if inside != u64::MAX {
            return place + inside.trailing_ones() as usize + 1;
        }
        place += 64;
    }
    unreachable!()
}

// The end of a container for a caller that counts nothing.
fn end_over<L: Ledger>(text: &[u8], start: usize, blank: Blank) -> usize
    requires name { blank.name ≡ L.name }
    requires parts { blank.parts ≡ L.parts }
    requires some { 0 < L.parts }
    requires container { (lossy : Bool) × (kind : Kind) × (j : ℕ) × IsValue lossy text.now start j
        × (byte text.now start ≡ opening kind) }
    ensures { (lossy : Bool) (j : ℕ) → IsValue lossy text.now start j → result ≡ j }
{
    container_end(&Tape::new(text), start, &mut Steps::<L>::new(blank))
}

// The end of the container at a place.
pub(crate) fn whole_container(text: &[u8], start: usize) -> usize
    requires { (lossy : Bool) × (kind : Kind) × (j : ℕ) × IsValue lossy text.now start j
        × (byte text.now start ≡ opening kind) }
    ensures { (lossy : Bool) (j : ℕ) → IsValue lossy text.now start j → result ≡ j }
{
    end_over::<Brand>(text, start, Blank::new(1))
}

// The end of a string for a caller that counts nothing.
fn string_end_over<L: Ledger>(text: &[u8], start: usize, blank: Blank) -> usize
    requires name { blank.name ≡ L.name }
    requires parts { blank.parts ≡ L.parts }
    requires some { 0 < L.parts }
    requires string { IsOpenString text.now start }
    ensures { (s : ℕ) → IsInsideString text.now s start → LeavesString text.now s start result }
{
    string_end(&Tape::new(text), start, &mut Steps::<L>::new(blank))
}

// The end of the string inside of which a place is.
pub(crate) fn open_string(text: &[u8], start: usize) -> usize
    requires { IsOpenString text.now start }
    ensures { (s : ℕ) → IsInsideString text.now s start → LeavesString text.now s start result }
{
    string_end_over::<Brand>(text, start, Blank::new(1))
}
