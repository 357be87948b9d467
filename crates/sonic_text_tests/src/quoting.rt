// What no clause says: that text is quoted as worked examples say (RFC 8259, section 7), and that
// what is quoted and read again is what it was.
use crate::same::{same, same_at};
use sonic_text::{QUOTE_TAB, format_string, string_end, unescape_into, write_quoted};
use std::alloc::Global;
use std::fmt;
use std::process::Abort;
use std::test::Fail;

// The most bytes that a text of the tests has.
const LONGEST: usize = 100;

// What is in a place that nothing was written to.
const UNTOUCHED: u8 = 0xFF;

// Nothing was written to these places.
fn check_untouched(rt: &impl Abort, rest: &[u8], text: &str) {
    for &byte in rest {
        same_at(rt, byte, UNTOUCHED, text);
    }
}

// Checks what the text is quoted as, and that the bytes behind it stay.
fn check(rt: &impl Abort, text: &str, quoted: &str) {
    assert!(rt; text.len() <= LONGEST);
    assert!(rt; 1 < quoted.len());
    let mut written = [UNTOUCHED; 6 * LONGEST + 2];
    let len = format_string(text, &mut written, true);
    same_at(rt, &written[..len], quoted.as_bytes(), text);
    check_untouched(rt, &written[len..], text);
    let mut bare = [UNTOUCHED; 6 * LONGEST + 2];
    let len = format_string(text, &mut bare, false);
    same_at(
        rt,
        &bare[..len],
        &quoted.as_bytes()[1..quoted.len() - 1],
        text,
    );
    check_untouched(rt, &bare[len..], text);
}

#[test]
fn quotes_text(rt: HostRuntime) {
    for &(text, quoted) in &[
        ("", "\"\""),
        ("\0", "\"\\u0000\""),
        ("test\"test", "\"test\\\"test\""),
        ("\\testtest\"", "\"\\\\testtest\\\"\""),
        ("\u{8}\t\n\u{c}\r", "\"\\b\\t\\n\\f\\r\""),
        ("\u{1f}\u{7f}/", "\"\\u001f\u{7f}/\""),
        ("\u{e9}\u{1F600}", "\"\u{e9}\u{1F600}\""),
        (
            "0123456789012345678901234567890\n",
            "\"0123456789012345678901234567890\\n\"",
        ),
        (
            "\"0123456789012345678901234567890123456789\\",
            "\"\\\"0123456789012345678901234567890123456789\\\\\"",
        ),
    ] {
        check(&rt, text, quoted);
    }
}

#[test]
fn has_an_entry_for_each_byte(rt: HostRuntime) {
    for byte in 0..=u8::MAX {
        let wanted = match byte {
            8 | b'\t' | b'\n' | 12 | b'\r' | b'"' | b'\\' => 2,
            0..=31 => 6,
            _ => 0,
        };
        same_at(&rt, QUOTE_TAB[byte as usize].0, wanted, byte);
    }
}

// Text that is shown quoted.
#[derive(Clone, Copy)]
struct Quoted<'a>(&'a str);

impl fmt::Display for Quoted<'_> {
    fn fmt<W: fmt::Write>(&self, f: &mut fmt::Formatter<W>) -> fmt::Result {
        write_quoted(self.0, f)
    }
}

// Checks that the text, quoted and read again, is what it was, and that it is shown as it is quoted.
fn check_back(rt: &impl Abort, alloc: Global, text: &str) -> Result<(), Fail> {
    assert!(rt; text.len() <= LONGEST);
    let mut written = [UNTOUCHED; 6 * LONGEST + 2];
    let len = format_string(text, &mut written, true);
    let quoted = &written[..len];
    let mut out = Vec::new(alloc);
    match string_end(quoted, 0, false) {
        Ok(string) if string.end == len => {
            assert!(rt;
                unescape_into(&mut out, quoted, 0, len, false).is_ok(),
                "{text:?}"
            );
        }
        _ => panic!(rt; "{text:?} is quoted as no string"),
    }
    same(rt, &out[..], text.as_bytes());
    let shown = format!(in alloc; "{}", Quoted(text))?;
    same(rt, shown.as_bytes(), quoted);
    Ok(())
}

#[test]
fn reads_each_char_again(rt: HostRuntime) -> Result<(), Fail> {
    for code in 0..0x1_1000 {
        if let Some(char) = char::from_u32(code) {
            let mut text = String::new(rt.alloc());
            text.push(char)?;
            check_back(&rt, rt.alloc(), &text)?;
        }
    }
    Ok(())
}

#[test]
fn reads_random_texts_again(rt: HostRuntime) -> Result<(), Fail> {
    let mut state = 1_u64;
    for len in 0..1_000 {
        let mut text = String::new(rt.alloc());
        for _ in 0..len % (LONGEST / 4) {
            state = state
                .wrapping_mul(6_364_136_223_846_793_005)
                .wrapping_add(1);
            // Most chars are ASCII, and many of these special.
            let code = match state >> 62 {
                0 => (state >> 40) as u32 % 0x1_1000,
                1 => (state >> 40) as u32 % 32,
                2 => 34 + 58 * ((state >> 40) as u32 % 2),
                _ => 32 + (state >> 40) as u32 % 96,
            };
            if let Some(char) = char::from_u32(code) {
                text.push(char)?;
            }
        }
        check_back(&rt, rt.alloc(), &text)?;
    }
    Ok(())
}
