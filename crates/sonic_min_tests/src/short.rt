// All texts of up to six structural bytes, at the beginning of a block and over its end, beside a plain
// slow program, and `validate` where they are no documents.
use crate::reference::plain_small;
use crate::same::same_at;
use sonic_find::validate;
use sonic_min::minify;
use std::alloc::Global;
use std::process::Abort;
use std::test::Fail;

// What texts are made of, how many blanks come before them, and how many bytes they have at most. After
// 61 blanks they begin in the first block of 64 bytes and end in the second.
const TEXTS: [(&[u8], usize, usize); 4] = [
    (b"[]{},:\" 1", 0, 5),
    (b"{}:\" 1", 0, 6),
    (b"[],\"\\ ", 0, 6),
    (b"[],\"\\ ", 61, 6),
];

// Writes the text with this number in place of what was there.
fn write_text(
    text: &mut Vec<u8>,
    bytes: &[u8],
    blanks: usize,
    len: usize,
    number: usize,
) -> Result<(), Fail> {
    text.clear();
    text.resize(blanks, b' ')?;
    let mut rest = number;
    for _ in 0..len {
        text.push(
            bytes
                .get(rest % bytes.len().max(1))
                .copied()
                .unwrap_or(b' '),
        )?;
        rest /= bytes.len().max(1);
    }
    Ok(())
}

// Checks one text.
fn check(rt: &impl Abort, alloc: Global, text: &[u8]) -> Result<(), Fail> {
    match (minify(alloc, text), validate(alloc, text)) {
        (Ok(small), Ok(())) => {
            let wanted = plain_small(alloc, text)?;
            same_at(rt, small.as_bytes(), wanted.as_slice(), text);
            let again = minify(alloc, small.as_str())?;
            same_at(rt, again.as_bytes(), small.as_bytes(), text);
        }
        (Err(error), Err(wanted)) => {
            same_at(rt, error.code(), wanted.code(), text);
            same_at(rt, error.offset(), wanted.offset(), text);
        }
        _ => panic!(rt; "{text:?} is judged in two ways"),
    }
    Ok(())
}

#[test]
fn agrees_with_a_plain_program(rt: HostRuntime) -> Result<(), Fail> {
    let alloc = rt.alloc();
    let mut text = Vec::new(alloc);
    for (bytes, blanks, most) in TEXTS {
        let mut count: usize = 1;
        for len in 0..most + 1 {
            for number in 0..count {
                write_text(&mut text, bytes, blanks, len, number)?;
                check(&rt, alloc, &text)?;
            }
            count = count.saturating_mul(bytes.len());
        }
    }
    Ok(())
}
