// Each call of `sonic_blocks`, and the calls of a parser, as a caller writes them.
//
// What is tested here is that it compiles: names, parameters and results are those that a caller
// relies on. What the calls answer is said by their contracts.
ghost use Rattle.std.specs.Prelude.{◌≡◌, ◌<◌, ◌≤◌, ℕ, Bool, length};
ghost use Rattle.sonic_text.specs.declared.kind.Kind.{Kind};
ghost use Rattle.sonic_text.specs.Places.{byte};
ghost use Rattle.sonic_text.specs.Values.{opening, IsValue};

use crate::same::same;
use sonic_blocks::internal::first_of;
use sonic_blocks::{
    Masks, Steps, StringBlock, Tape, get_escaped, get_nonspace_bits, get_string_bits, prefix_xor,
};
use sonic_error::{Error, Wanted};
use sonic_input::Read;
use sonic_parser::{ParseStatus, Parser, Reference, container_end};
use std::marker::Brand;
use std::sync::ledger::{Blank, Ledger};
use std::test::Fail;

// The end of the container at a place, for a caller that counts nothing.
fn end_over<L: Ledger>(text: &[u8], start: usize, blank: Blank) -> usize
    requires name { blank.name ≡ L.name }
    requires parts { blank.parts ≡ L.parts }
    requires some { 0 < L.parts }
    requires container { (lossy : Bool) × (kind : Kind) × (j : ℕ) × IsValue lossy text.now start j
        × (byte text.now start ≡ opening kind) }
{
    let mut steps: Steps<L> = Steps::new(blank);
    let tape: Tape<'_> = Tape::new(text);
    container_end(&tape, start, &mut steps)
}

// The brackets that close among the first 64 bytes of a text.
fn closing_over<L: Ledger>(text: &[u8], blank: Blank) -> u64
    requires name { blank.name ≡ L.name }
    requires parts { blank.parts ≡ L.parts }
    requires some { 0 < L.parts }
{
    let mut steps: Steps<L> = Steps::new(blank);
    let tape: Tape<'_> = Tape::new(text);
    let masks: Masks = tape.masks_at(0, &mut steps);
    masks.close_bracket & masks.nonspace
}

// The same for a caller that hands on no ledger.
fn end_of(text: &[u8], start: usize) -> usize
    requires container { (lossy : Bool) × (kind : Kind) × (j : ℕ) × IsValue lossy text.now start j
        × (byte text.now start ≡ opening kind) }
{
    end_over::<Brand>(text, start, Blank::new(1))
}

fn closing_in(text: &[u8]) -> u64 {
    closing_over::<Brand>(text, Blank::new(1))
}

#[test]
fn compiles_calls_of_blocks(rt: HostRuntime) {
    let text = b"[\"]\"],\"\\\"\" \x01                                                      ";
    let (mut in_string, mut in_escape) = (0, 0);
    let nonspace: u64 = get_nonspace_bits(&[b' '; 64]);
    same(&rt, nonspace, 0);
    same(&rt, prefix_xor(0b1001), 0b111);
    same(&rt, get_escaped(&mut in_escape, 1), 2);
    same(
        &rt,
        get_string_bits(0, 0b101, &mut in_string, &mut in_escape),
        3,
    );
    same(&rt, first_of(text, 1, b']', b'}', b','), Some(2));
    same(&rt, closing_in(text), 0b10100);
    let block = StringBlock::new(&[b'"'; 32]);
    let firsts: (bool, bool, bool) = (
        block.has_unescaped(),
        block.has_quote_first(),
        block.has_backslash(),
    );
    same(&rt, firsts, (false, true, false));
    let places: (usize, usize, usize) = (
        block.quote_index(),
        block.bs_index(),
        block.unescaped_index(),
    );
    same(&rt, places, (0, 32, 32));
    let alloc = rt.alloc();
    let mut parser = Parser::new(Read::from(&text[..]));
    match parser.skip_value(alloc) {
        Ok(_) => same(&rt, end_of(text, 0), parser.offset()),
        Err(_) => panic!(rt; "the array is whole"),
    }
}

#[test]
fn compiles_calls_of_a_parser(rt: HostRuntime) -> Result<(), Fail> {
    let alloc = rt.alloc();
    let mut parser = Parser::new(Read::from(" [1] \"a\\n\""));
    same(&rt, parser.skip_space_peek(), Some(b'['));
    let skipped: Result<(&[u8], ParseStatus), Error> = parser.skip_one(alloc);
    same(&rt, skipped, Ok((&b"[1]"[..], ParseStatus::None)));
    let mut buf = Vec::new(alloc);
    if parser.skip_space() == Some(b'"') {
        match Parser::parse_str(&mut buf, &mut parser) {
            Ok(Reference::Copied(text)) => same(&rt, text, "a\n"),
            _ => panic!(rt; "the string has an escape"),
        }
    }
    same(&rt, parser.text().len(), parser.offset());
    let lossy: Parser<'_> = Parser::new(Read::from("1")).utf8_lossy();
    same(&rt, lossy.offset(), 0);
    Ok(())
}

#[test]
fn compiles_calls_behind_a_first_byte(rt: HostRuntime) {
    let mut number = Parser::new(Read::from("12"));
    if number.skip_space() == Some(b'1') {
        same(&rt, number.skip_number(b'1'), Ok("12"));
    }
    let mut literal = Parser::new(Read::from("null"));
    if literal.skip_space() == Some(b'n') {
        same(&rt, literal.parse_literal("ull"), Ok(()));
    }
    let mut truth = Parser::new(Read::from("true"));
    if truth.skip_space() == Some(b't') {
        let error: Error = truth.peek_invalid_type(rt.alloc(), b't', Wanted::Object);
        same(&rt, error.is_unmatched_type(), true);
    }
}
