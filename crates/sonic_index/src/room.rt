// How much room the values of a text may need.
ghost use Rattle.std.specs.Prelude.{◌≡◌, ◌<◌, []};

use crate::cell::Cell;
use sonic_blocks::{Steps, Tape, get_string_bits};
use std::alloc::Global;
use std::marker::Brand;
use std::sync::ledger::{Blank, Ledger};

// The same for a caller that counts views.
fn most_over<L: Ledger>(text: &[u8], blank: Blank) -> usize
    requires name { blank.name ≡ L.name }
    requires parts { blank.parts ≡ L.parts }
    requires some { 0 < L.parts }
{
    let tape = Tape::new(text);
    let mut steps = Steps::<L>::new(blank);
    let (mut in_string, mut in_escape) = (0, 0);
    let (mut place, mut count) = (0, 1usize);
    while place < text.len() {
        let masks = tape.masks_at(place, &mut steps);
        let inside = get_string_bits(masks.backslash, masks.quote, &mut in_string, &mut in_escape);
        let found = masks.comma | masks.open_brace | masks.open_bracket;
        count = count.saturating_add((found & !inside).count_ones() as usize);
        place += 64;
    }
    count
}

// Of a document, at least as many values as it has: one, and one for each comma and each bracket that
// opens outside strings. No clause says so, as it is a hint.
fn most(text: &[u8]) -> usize {
    most_over::<Brand>(text, Blank::new(1))
}

// No cells, with room for those of a text. Where that is refused there is none: a text that is no
// document may have many more commas than values.
pub(crate) fn room(alloc: Global, text: &[u8]) -> Vec<Cell>
    ensures { result.items ≡ [] }
{
    match Vec::with_capacity(alloc, most(text)) {
        Ok(cells) => cells,
        Err(_) => Vec::new(alloc),
    }
}
