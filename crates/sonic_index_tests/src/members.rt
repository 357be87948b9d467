// Objects of many members: each key is found as by a plain pass over the entries.
use crate::same::same_at;
use sonic_index::{JsonIndex, Label};
use sonic_pointer::PointerNode::Key;
use std::alloc::Global;
use std::process::Abort;
use std::test::Fail;

// How many members an object has, and how many each of its values has, where 0 means a number.
const SIZES: [(usize, usize); 11] = [
    (0, 0),
    (1, 0),
    (63, 0),
    (64, 0),
    (65, 0),
    (66, 0),
    (1_000, 0),
    (1, 64),
    (1, 65),
    (3, 70),
    (70, 3),
];

// The key that the member with this number has: of seven the last has that of the first.
fn key(alloc: Global, first: &str, number: usize) -> Result<String, Fail> {
    let number = if number % 7 == 6 { number - 6 } else { number };
    Ok(format!(in alloc; "{first}{number}")?)
}

// Appends an object of so many members with such values. Each third key has an escape.
fn add_object(alloc: Global, text: &mut String, size: usize, value: &str) -> Result<(), Fail> {
    text.push_str("{")?;
    for number in 0..size {
        let first = if number % 3 == 1 { "\\u006b" } else { "k" };
        let comma = if number == 0 { "" } else { "," };
        let key = key(alloc, first, number)?;
        let member = format!(in alloc; "{comma}\"{key}\":{value}")?;
        text.push_str(member.as_str())?;
    }
    text.push_str("}")?;
    Ok(())
}

// Whether the string from `start` to `end`, which may begin with the escape of `k`, denotes the key.
fn denotes(text: &str, start: usize, end: usize, key: &str) -> bool {
    let Some(raw) = text
        .as_bytes()
        .get(start.saturating_add(1)..end.saturating_sub(1))
    else {
        return false;
    };
    match (
        raw.strip_prefix(b"\\u006b"),
        key.as_bytes().strip_prefix(b"k"),
    ) {
        (Some(raw), Some(key)) => raw == key,
        _ => raw == key.as_bytes(),
    }
}

// The first member of the object with this number by a key, by a plain pass.
fn first(index: &JsonIndex<'_>, text: &str, parent: usize, key: &str) -> Option<usize> {
    for number in 1..index.len() {
        let entry = index.entry(number)?;
        if let Label::Key { start, end } = entry.label {
            if entry.parent == parent && denotes(text, start, end, key) {
                return Some(number);
            }
        }
    }
    None
}

// Checks what each key leads to, one after the last too.
fn check(
    rt: &impl Abort,
    alloc: Global,
    text: &str,
    (outer, inner): (usize, usize),
) -> Result<(), Fail> {
    let index = JsonIndex::build(alloc, text).expect(rt, "a valid document");
    for number in 0..outer.saturating_add(1) {
        let name = key(alloc, "k", number)?;
        let found = index.find(&[Key(name.as_str())]);
        same_at(rt, found, first(&index, text, 0, name.as_str()), number);
        let Some(parent) = found else {
            continue;
        };
        for number in 0..inner.saturating_add(1) {
            let second = key(alloc, "k", number)?;
            let found = index.find(&[Key(name.as_str()), Key(second.as_str())]);
            same_at(
                rt,
                found,
                first(&index, text, parent, second.as_str()),
                number,
            );
        }
    }
    Ok(())
}

#[test]
fn finds_the_first_of_many_members(rt: HostRuntime) -> Result<(), Fail> {
    let alloc = rt.alloc();
    for (outer, inner) in SIZES {
        let mut value = String::new(alloc);
        if inner == 0 {
            value.push_str("7")?;
        } else {
            add_object(alloc, &mut value, inner, "7")?;
        }
        let mut text = String::new(alloc);
        add_object(alloc, &mut text, outer, value.as_str())?;
        check(&rt, alloc, text.as_str(), (outer, inner))?;
    }
    Ok(())
}
