// What no clause says: that the calls answer the worked examples of their documents.
use crate::same::{same, same_at};
use sonic_text::internal::compare_key;
use sonic_text::{ESCAPED_TAB, codepoint_to_utf8, hex4, same_key, string_end, unescape_into};
use std::alloc::Global;
use std::cmp::Ordering;
use std::process::Abort;

#[test]
fn reads_four_digits(rt: HostRuntime) {
    same(&rt, hex4(b"0000"), Some(0));
    same(&rt, hex4(b"00e9"), Some(0xE9));
    same(&rt, hex4(b"FfFf"), Some(0xFFFF));
    same(&rt, hex4(b"00g0"), None);
    same(&rt, hex4(b"Abcd"), Some(0xABCD));
    for &digits in &[
        b"000/", b":000", b"0@00", b"00G0", b"`000", b"0g00", b"00\xff0",
    ] {
        same_at(&rt, hex4(digits), None, digits);
    }
}

fn check_utf8(rt: &impl Abort, cp: u32, bytes: &[u8]) {
    let mut out = [0xAA; 4];
    let len = codepoint_to_utf8(cp, &mut out);
    assert!(rt; len <= 4, "{cp:x}");
    same_at(rt, &out[..len], bytes, cp);
    for after in &out[len..] {
        same_at(rt, *after, 0xAA, cp);
    }
}

#[test]
fn writes_code_points(rt: HostRuntime) {
    check_utf8(&rt, 0, b"\0");
    check_utf8(&rt, 0x7F, b"\x7f");
    check_utf8(&rt, 0x80, b"\xc2\x80");
    check_utf8(&rt, 0x7FF, b"\xdf\xbf");
    check_utf8(&rt, 0x800, b"\xe0\xa0\x80");
    check_utf8(&rt, 0xD800, b"\xed\xa0\x80");
    check_utf8(&rt, 0xFFFF, b"\xef\xbf\xbf");
    check_utf8(&rt, 0x1_0000, b"\xf0\x90\x80\x80");
    check_utf8(&rt, 0x10_FFFF, b"\xf4\x8f\xbf\xbf");
    check_utf8(&rt, 0x11_0000, b"");
    check_utf8(&rt, u32::MAX, b"");
}

#[test]
fn knows_the_short_escapes(rt: HostRuntime) {
    same(&rt, ESCAPED_TAB[b'n' as usize], b'\n');
    same(&rt, ESCAPED_TAB[b't' as usize], b'\t');
    same(&rt, ESCAPED_TAB[b'b' as usize], 8);
    same(&rt, ESCAPED_TAB[b'f' as usize], 12);
    same(&rt, ESCAPED_TAB[b'/' as usize], b'/');
    same(&rt, ESCAPED_TAB[b'u' as usize], 0);
    same(&rt, ESCAPED_TAB[b'N' as usize], 0);
}

// Appends what the string denotes that begins a text: whether there is one.
fn unescape_first(out: &mut Vec<u8>, text: &[u8], lossy: bool) -> bool {
    if text.is_empty() || text[0] != b'"' {
        return false;
    }
    match string_end(text, 0, lossy) {
        Ok(string) => unescape_into(out, text, 0, string.end, lossy).is_ok(),
        Err(_) => false,
    }
}

fn check_bytes(rt: &impl Abort, alloc: Global, text: &[u8], lossy: bool, bytes: &[u8]) {
    let mut out = Vec::new(alloc);
    assert!(rt; unescape_first(&mut out, text, lossy), "{text:?}");
    same_at(rt, &out[..], bytes, text);
}

#[test]
fn unescapes_strings(rt: HostRuntime) {
    check_bytes(&rt, rt.alloc(), b"\"a\\u00e9\\n\"", false, b"a\xc3\xa9\n");
    check_bytes(&rt, rt.alloc(), b"\"\\ud800x\"", true, b"\xef\xbf\xbdx");
    check_bytes(
        &rt,
        rt.alloc(),
        b"\"0123456789012345678901234567890123456789\\t0123456789\"",
        false,
        b"0123456789012345678901234567890123456789\t0123456789",
    );
    check_bytes(
        &rt,
        rt.alloc(),
        b"\"\\ud83d\\ude00\"",
        false,
        b"\xf0\x9f\x98\x80",
    );
}

// Whether the string that begins a text is a key, and how the two are ordered.
fn compared(text: &[u8], key: &str) -> Option<(bool, Ordering)> {
    if text.is_empty() || text[0] != b'"' {
        return None;
    }
    match string_end(text, 0, false) {
        Ok(string) => {
            let same = same_key(text, 0, string.end, key);
            Some((same, compare_key(text, 0, string.end, key)))
        }
        Err(_) => None,
    }
}

#[test]
fn compares_keys(rt: HostRuntime) {
    for &(text, key, want) in &[
        (&b"\"\""[..], "", Ordering::Equal),
        (&b"\"\\u0061\""[..], "a", Ordering::Equal),
        (&b"\"\\u00e9\""[..], "é", Ordering::Equal),
        (&b"\"a\""[..], "b", Ordering::Less),
        (&b"\"a\""[..], "ab", Ordering::Less),
        (&b"\"ab\""[..], "a", Ordering::Greater),
        (&b"\"\""[..], "a", Ordering::Less),
        (&b"\"a\""[..], "", Ordering::Greater),
        (&b"\"\\u0061b\""[..], "ab", Ordering::Equal),
        (&b"\"\\u0061b\""[..], "aa", Ordering::Greater),
        (&b"\"\\u0061b\""[..], "ac", Ordering::Less),
        (&b"\"\\u0061b\""[..], "abc", Ordering::Less),
        (&b"\"a\\\\b\""[..], "a\\b", Ordering::Equal),
        (&b"\"a\\\\b\""[..], "a\\\\b", Ordering::Greater),
        (&b"\"\\u0061\""[..], "\\u0061", Ordering::Greater),
        (&b"\"ab\\u0063d\""[..], "abc", Ordering::Greater),
        (&b"\"x\\u00e9\""[..], "x", Ordering::Greater),
        (&b"\"x\\u00e9\""[..], "x\u{c3}", Ordering::Greater),
        (&b"\"x\\u00e9\""[..], "x\u{ea}", Ordering::Less),
        (&b"\"\\ud83d\\ude00\""[..], "\u{ffff}", Ordering::Greater),
    ] {
        let same = want == Ordering::Equal;
        same_at(&rt, compared(text, key), Some((same, want)), key);
    }
}
