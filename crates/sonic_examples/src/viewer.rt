// A viewer that shows which value of a document is under the cursor.
ghost use Rattle.std.specs.Prelude.{◌+◌, ◌↔◌, IfNone, IfSome, IsTrue, length};
ghost use Rattle.sonic_examples.specs.Around.{IsAround, NoneAround};

use sonic_index::{JsonIndex, Label};
use std::alloc::Global;
use std::io;

/// The number of the innermost value around a place of a document: of those that begin at or before it
/// and end after it the last, as parts come after what they are parts of.
///
/// In `{"a":[1,{}]}` the place 8 is in the value 3, and the places 2 and 7 are in 0 and 1.
pub fn value_at(index: &JsonIndex<'_>, place: usize) -> Option<usize>
    ensures some { IfSome result (λ i. IsAround index.now.entries place i
        × NoneAround index.now.entries place (i + 1) (length index.now.entries)) }
    ensures none { IfNone result (NoneAround index.now.entries place 0 (length index.now.entries)) }
{
    let mut found = None;
    for number in 0..index.len() {
        if is_around(index, number, place) {
            found = Some(number);
        }
    }
    found
}

// Whether the value with this number is around the place.
fn is_around(index: &JsonIndex<'_>, number: usize, place: usize) -> bool
    ensures { IsTrue result ↔ IsAround index.now.entries place number }
{
    match index.entry(number) {
        Some(entry) => entry.start <= place && place < entry.end,
        None => false,
    }
}

const DOCUMENT: &str = r#"{"name": "Zo\u00eb", "tags": [7, {"a": null}]}"#;

/// The values under four places of a document.
pub fn show(rt: &impl Print, alloc: Global) -> io::Result<()> {
    let Ok(index) = JsonIndex::build(alloc, DOCUMENT) else {
        return println!(rt; "out of memory");
    };
    for place in [0, 12, 30, 41] {
        show_at(rt, &index, place)?;
    }
    Ok(())
}

// The value under one place.
fn show_at(rt: &impl Print, index: &JsonIndex<'_>, place: usize) -> io::Result<()> {
    match value_at(index, place).and_then(|number| index.entry(number)) {
        None => println!(rt; "nothing at {place}"),
        Some(entry) => println!(rt;
            "{place} is in {}, from {} to {}",
            role(entry.label),
            entry.start,
            entry.end
        ),
    }
}

// What a value with this label is, in words.
fn role(label: Label) -> &'static str {
    match label {
        Label::Root => "the root",
        Label::Key { .. } => "a member",
        Label::At(_) => "an element",
    }
}
