// Documents that are deeper than any stack.
use crate::refused::refused_as_validate;
use crate::same::same_at;
use sonic_error::{ErrorCode, JsonType};
use sonic_index::{Entry, JsonIndex, Label};
use sonic_pointer::PointerNode;
use std::alloc::Global;
use std::process::Abort;
use std::test::Fail;

const DEPTH: usize = 100_000;

// So many arrays one inside the other, of which so many end.
fn nested(alloc: Global, ends: usize) -> Result<Vec<u8>, Fail> {
    let mut text = vec![in alloc; b'['; DEPTH]?;
    for _ in 0..ends {
        text.push(b']')?;
    }
    Ok(text)
}

// The entry of the array that is inside so many others.
fn array_in(number: usize) -> Entry {
    Entry {
        start: number,
        end: (2 * DEPTH).saturating_sub(number),
        parent: number.saturating_sub(1),
        kind: JsonType::Array,
        label: if number == 0 {
            Label::Root
        } else {
            Label::At(0)
        },
    }
}

// Checks the entry of each array.
fn check(rt: &impl Abort, index: &JsonIndex<'_>) {
    same_at(rt, index.len(), DEPTH, "arrays");
    for number in 0..DEPTH {
        same_at(rt, index.entry(number), Some(array_in(number)), number);
    }
}

#[test]
fn finds_values_in_many_others(rt: HostRuntime) -> Result<(), Fail> {
    let alloc = rt.alloc();
    let text = nested(alloc, DEPTH)?;
    match JsonIndex::build(alloc, text.as_slice()) {
        Ok(index) => {
            check(&rt, &index);
            let path = vec![in alloc; PointerNode::Index(0); DEPTH - 1]?;
            same_at(
                &rt,
                index.find(path.as_slice()),
                Some(DEPTH - 1),
                "the innermost",
            );
        }
        Err(error) => panic!(rt; "{error}"),
    }
    let cut = nested(alloc, DEPTH - 1)?;
    refused_as_validate(&rt, alloc, cut.as_slice(), ErrorCode::EofWhileParsing);
    let closed = nested(alloc, DEPTH + 1)?;
    refused_as_validate(&rt, alloc, closed.as_slice(), ErrorCode::TrailingCharacters);
    Ok(())
}
