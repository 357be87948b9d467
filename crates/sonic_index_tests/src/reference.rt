// The entries of a text by a plain recursive program, beside `build`, on all short texts.
use crate::same::same_at;
use sonic_error::JsonType;
use sonic_find::validate;
use sonic_index::{Entry, JsonIndex, Label};
use std::alloc::{AllocError, Global};
use std::process::Abort;
use std::test::Fail;

// A value that is expected: where, in which value, and by which label.
#[derive(Clone, Copy)]
struct Expected {
    start: usize,
    parent: usize,
    label: Label,
}

// Whether the text goes on with these bytes.
fn goes_on(text: &[u8], place: usize, wanted: &[u8]) -> bool {
    match text.get(place..place.saturating_add(wanted.len())) {
        Some(found) => found == wanted,
        None => false,
    }
}

// The end of the scalar at a place, with its type. Here are no others than `"a"` and numbers of ones.
fn scalar(text: &[u8], start: usize) -> Option<(usize, JsonType)> {
    if goes_on(text, start, b"\"a\"") {
        return Some((start.saturating_add(3), JsonType::String));
    }
    let mut end = start;
    for _ in 0..text.len() {
        if goes_on(text, end, b"1") {
            end = end.saturating_add(1);
        }
    }
    if end == start {
        return None;
    }
    Some((end, JsonType::Number))
}

// The label of the item that is expected at a place after so many others, and where its value is.
fn item(text: &[u8], kind: JsonType, count: usize, place: usize) -> Option<(Label, usize)> {
    if let JsonType::Array = kind {
        return Some((Label::At(count), place));
    }
    if !goes_on(text, place, b"\"a\":") {
        return None;
    }
    let end = place.saturating_add(3);
    Some((Label::Key { start: place, end }, place.saturating_add(4)))
}

// Adds the entry of a value, and gives its number.
fn add(
    entries: &mut Vec<Entry>,
    at: Expected,
    end: usize,
    kind: JsonType,
) -> Result<usize, AllocError> {
    let number = entries.len();
    let Expected {
        start,
        parent,
        label,
    } = at;
    entries.push(Entry {
        start,
        end,
        parent,
        kind,
        label,
    })?;
    Ok(number)
}

// Adds the entries of a value and of all in it: where it ends, if there is one.
fn value(
    text: &[u8],
    at: Expected,
    deep: u8,
    entries: &mut Vec<Entry>,
) -> Result<Option<usize>, AllocError> {
    if deep == 0 {
        return Ok(None);
    }
    if let Some((end, kind)) = scalar(text, at.start) {
        add(entries, at, end, kind)?;
        return Ok(Some(end));
    }
    let (kind, close): (JsonType, &[u8]) = if goes_on(text, at.start, b"[") {
        (JsonType::Array, b"]")
    } else if goes_on(text, at.start, b"{") {
        (JsonType::Object, b"}")
    } else {
        return Ok(None);
    };
    let parent = add(entries, at, 0, kind)?;
    let mut place = at.start.saturating_add(1);
    let mut found = goes_on(text, place, close);
    for count in 0..text.len() {
        if found {
            break;
        }
        let Some((label, start)) = item(text, kind, count, place) else {
            return Ok(None);
        };
        let Some(end) = value(
            text,
            Expected {
                start,
                parent,
                label,
            },
            deep - 1,
            entries,
        )?
        else {
            return Ok(None);
        };
        found = goes_on(text, end, close);
        if found {
            place = end;
        } else if goes_on(text, end, b",") {
            place = end.saturating_add(1);
        } else {
            return Ok(None);
        }
    }
    let end = place.saturating_add(1);
    if let Some(entry) = entries.get_mut(parent) {
        entry.end = end;
    }
    Ok(if found { Some(end) } else { None })
}

// Checks that the index has these entries, and no others.
fn check_entries(rt: &impl Abort, index: &JsonIndex<'_>, entries: &[Entry], text: &[u8]) {
    same_at(rt, index.len(), entries.len(), text);
    for (number, &entry) in entries.iter().enumerate() {
        same_at(rt, index.entry(number), Some(entry), text);
    }
}

// Checks that a text has the same entries for both, or none.
fn check_text(rt: &impl Abort, alloc: Global, text: &[u8]) -> Result<(), Fail> {
    let mut entries = Vec::new(alloc);
    let root = Expected {
        start: 0,
        parent: 0,
        label: Label::Root,
    };
    let whole = value(text, root, u8::MAX, &mut entries)? == Some(text.len());
    match (JsonIndex::build(alloc, text), whole) {
        (Ok(index), true) => check_entries(rt, &index, &entries, text),
        (Err(error), false) => same_at(rt, validate(alloc, text), Err(error), text),
        (Ok(_), false) => panic!(rt; "{text:?} is no document"),
        (Err(error), true) => panic!(rt; "{text:?}: {error}"),
    }
    Ok(())
}

// What texts are made of.
type Pieces = [&'static [u8]; 8];

const LETTERS: Pieces = [b"[", b"]", b"{", b"}", b",", b":", b"1", b"\"a\""];

// Longer pieces, of which a few make objects with some members.
const MEMBERS: Pieces = [b"[", b"]", b"{\"a\":", b"}", b",", b",\"a\":", b"1", b"{"];

// The text number `n` among all those of `length` pieces.
fn text_of_number(
    alloc: Global,
    pieces: &Pieces,
    mut n: usize,
    length: u8,
) -> Result<Vec<u8>, Fail> {
    let mut text = Vec::new(alloc);
    for _ in 0..length {
        text.extend_from_slice(pieces[n % 8])?;
        n /= 8;
    }
    Ok(text)
}

// A length, and how many texts have it.
const LENGTHS: [(u8, usize); 7] = [
    (0, 1),
    (1, 8),
    (2, 64),
    (3, 512),
    (4, 4_096),
    (5, 32_768),
    (6, 262_144),
];

// Checks all texts of up to six pieces.
fn check_texts(rt: &impl Abort, alloc: Global, pieces: &Pieces) -> Result<(), Fail> {
    for &(length, count) in &LENGTHS {
        for n in 0..count {
            let text = text_of_number(alloc, pieces, n, length)?;
            check_text(rt, alloc, &text)?;
        }
    }
    Ok(())
}

#[test]
fn finds_in_all_short_texts_what_the_plain_program_finds(rt: HostRuntime) -> Result<(), Fail> {
    check_texts(&rt, rt.alloc(), &LETTERS)?;
    check_texts(&rt, rt.alloc(), &MEMBERS)
}
