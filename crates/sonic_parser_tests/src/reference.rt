// The grammar by recursive descent, as plain as it gets, beside the loop over open brackets.
ghost use Rattle.std.specs.Prelude.{◌≡◌, ◌<◌, ◌≤◌, ℕ, List, Option, length, IfErr, IfNone, IfSome, OnOk};
ghost use Rattle.sonic_text.specs.Places.{byte};
ghost use Rattle.sonic_text.specs.Values.{opening, ItemHead, IsValue};
ghost use Rattle.sonic_text.specs.Faults.{IsFault, IsKeyFault};
ghost use Rattle.sonic_parser.specs.Faults.{IsStopFor};
ghost use Rattle.sonic_parser.specs.Parsers.{moved};

use crate::same::same_at;
use sonic_input::Read;
use sonic_parser::{Fault, Parser};
use sonic_text::{Kind, Stop, byte_at};
use std::alloc::Global;
use std::process::Abort;
use std::test::Fail;

// The kind of container that begins at the cursor, if one does.
fn kind_here(parser: &Parser<'_>) -> Option<Kind>
    ensures { IfSome result (λ kind. byte parser.now.text parser.now.place ≡ opening kind) }
{
    match byte_at(parser.text(), parser.offset()) {
        b'[' => Some(Kind::Array),
        b'{' => Some(Kind::Object),
        _ => None,
    }
}

// Goes up to the value of the item of this kind that is expected at the cursor.
fn pass_head(parser: &mut Parser<'_>, kind: Kind) -> Result<(), Stop>
    ensures head { OnOk result ((l : Option (List ℕ)) × ItemHead parser.old.lossy parser.old.text
        kind parser.old.place parser.new.place l) }
    ensures moved { OnOk result (parser.new ≡ moved parser.old parser.new.place) }
    ensures err { IfErr result (λ s. (kind ≡ Kind.Object)
        × IsKeyFault parser.old.lossy parser.old.text parser.old.place s) }
{
    match kind {
        Kind::Array => Ok(()),
        Kind::Object => {
            parser.key()?;
            Ok(())
        }
    }
}

// Passes the value that is expected at the cursor, or says its fault.
fn pass_value(alloc: Global, parser: &mut Parser<'_>) -> Result<(), Fault>
    ensures later { OnOk result (parser.old.place < parser.new.place) }
    ensures value { OnOk result (IsValue parser.old.lossy parser.old.text
        parser.old.place parser.new.place) }
    ensures moved { OnOk result (parser.new ≡ moved parser.old parser.new.place) }
    ensures err { IfErr result (IsStopFor (λ s. IsFault
        parser.old.lossy parser.old.text parser.old.place s)) }
{
    let Some(kind) = kind_here(parser) else {
        parser.skip_value(alloc)?;
        return Ok(());
    };
    if !parser.enter(kind) {
        return Ok(());
    }
    'items: loop {
        pass_head(parser, kind)?;
        pass_value(alloc, parser)?;
        if !parser.next_item(kind)? {
            return Ok(());
        }
    }
}

const LETTERS: &[u8; 10] = b"[]{},:\"1\\ ";

// The text number `n` among all those of these letters that are `length` bytes long.
pub(crate) fn text_of_number(alloc: Global, mut n: usize, length: u8) -> Result<Vec<u8>, Fail> {
    let mut text = Vec::new(alloc);
    for _ in 0..length {
        text.push(LETTERS[n % 10])?;
        n /= 10;
    }
    Ok(text)
}

// A parser at the start of a text.
fn parser_of(text: &[u8], lossy: bool) -> Parser<'_> {
    let parser = Parser::new(Read::from(text));
    if lossy { parser.utf8_lossy() } else { parser }
}

// What the plain program finds in a text: where the value begins and ends, or its fault.
pub(crate) fn plain_answer(
    rt: &impl Abort,
    alloc: Global,
    text: &[u8],
    lossy: bool,
) -> Result<(usize, usize), Stop> {
    let mut parser = parser_of(text, lossy);
    parser.skip_space_peek();
    let start = parser.offset();
    match pass_value(alloc, &mut parser) {
        Ok(()) => Ok((start, parser.offset())),
        Err(Fault::At(stop)) => Err(stop),
        Err(Fault::OutOfMemory) => panic!(rt; "out of memory"),
    }
}

// What the parser finds in it, with the cursor after it or at the fault.
pub(crate) fn parser_answer(
    alloc: Global,
    text: &[u8],
    lossy: bool,
) -> Result<(usize, usize), Stop> {
    let mut parser = Parser::new(Read::from(text));
    if lossy {
        parser = parser.utf8_lossy();
    }
    match parser.skip_one(alloc) {
        Ok((span, _)) => {
            let end = parser.offset();
            Ok((end - span.len(), end))
        }
        Err(error) => {
            let (place, code) = (parser.offset(), error.code());
            Err(Stop { place, code })
        }
    }
}

fn check_texts(rt: &impl Abort, alloc: Global, length: u8, count: usize) -> Result<(), Fail> {
    for n in 0..count {
        let text = text_of_number(alloc, n, length)?;
        same_at(
            rt,
            parser_answer(alloc, &text, false),
            plain_answer(rt, alloc, &text, false),
            text,
        );
    }
    Ok(())
}

#[test]
fn skips_all_short_texts_as_the_plain_program_does(rt: HostRuntime) -> Result<(), Fail> {
    let alloc = rt.alloc();
    check_texts(&rt, alloc, 0, 1)?;
    check_texts(&rt, alloc, 1, 10)?;
    check_texts(&rt, alloc, 2, 100)?;
    check_texts(&rt, alloc, 3, 1_000)?;
    check_texts(&rt, alloc, 4, 10_000)?;
    check_texts(&rt, alloc, 5, 100_000)?;
    check_texts(&rt, alloc, 6, 1_000_000)?;
    check_texts(&rt, alloc, 7, 10_000_000)
}

// The same in containers, where so much follows that what is short is near.
fn check_near(rt: &impl Abort, alloc: Global, length: u8, count: usize) -> Result<(), Fail> {
    for bracket in *b"[{" {
        for n in 0..count {
            let mut text = Vec::new(alloc);
            text.push(bracket)?;
            text.extend_from_slice(&text_of_number(alloc, n, length)?)?;
            text.extend_from_slice(&[b' '; 160])?;
            same_at(
                rt,
                parser_answer(alloc, &text, false),
                plain_answer(rt, alloc, &text, false),
                text,
            );
        }
    }
    Ok(())
}

#[test]
fn skips_what_is_near_as_the_plain_program_does(rt: HostRuntime) -> Result<(), Fail> {
    let alloc = rt.alloc();
    check_near(&rt, alloc, 3, 1_000)?;
    check_near(&rt, alloc, 4, 10_000)?;
    check_near(&rt, alloc, 5, 100_000)?;
    check_near(&rt, alloc, 6, 1_000_000)
}
