// White space by blocks, of which the last one is kept: each call comes to the byte that a plain loop
// finds, whatever was passed before.
use crate::same::same_at;
use sonic_input::Read;
use sonic_parser::Parser;
use sonic_text::is_whitespace;
use std::alloc::Global;
use std::process::Abort;
use std::test::Fail;

const KINDS: &[u8; 4] = b" \t\n\r";

const WORDS: &[u8; 9] = b"\x0b{\x0c1\x00:\xa0\x85]";

// The first place from a place on that holds no white space, or the end.
fn word_from(text: &[u8], start: usize) -> usize {
    let mut place = start;
    while place < text.len() && is_whitespace(text[place]) {
        place += 1;
    }
    place
}

// Each word after so many blanks of each kind in turn, and as many after the last one.
fn spaced(alloc: Global, blanks: usize) -> Result<Vec<u8>, Fail> {
    let mut text = Vec::new(alloc);
    for word in WORDS {
        for n in 0..blanks {
            text.push(KINDS[n % 4])?;
        }
        text.push(*word)?;
    }
    for n in 0..blanks {
        text.push(KINDS[n % 4])?;
    }
    Ok(text)
}

// All words of a text, one after the other, with a look at each before it is passed.
fn check_words(rt: &impl Abort, text: &[u8]) {
    let mut parser = Parser::new(Read::from(text));
    for _ in 0..WORDS.len() + 2 {
        let place = word_from(text, parser.offset());
        let word = text.get(place).copied();
        same_at(rt, parser.skip_space_peek(), word, text);
        same_at(rt, parser.offset(), place, text);
        same_at(rt, parser.skip_space(), word, text);
    }
    same_at(rt, parser.offset(), text.len(), text);
}

#[test]
fn passes_white_space_of_each_length(rt: HostRuntime) -> Result<(), Fail> {
    let alloc = rt.alloc();
    for blanks in 0..131 {
        check_words(&rt, &spaced(alloc, blanks)?);
    }
    Ok(())
}

// After a value that isn't there the cursor is at its fault, whatever block was kept on the way.
#[test]
fn goes_on_where_it_stopped(rt: HostRuntime) -> Result<(), Fail> {
    let alloc = rt.alloc();
    for blanks in 0..131 {
        let mut text = Vec::new(alloc);
        text.extend_from_slice(&spaced(alloc, blanks)?)?;
        let mut parser = Parser::new(Read::from(&text[..]));
        assert!(&rt; parser.skip_one(alloc).is_err(), "{text:?}");
        let place = word_from(&text, parser.offset());
        same_at(&rt, place, blanks, &text);
        same_at(&rt, parser.skip_space(), Some(0x0b), &text);
    }
    Ok(())
}
