// What no clause says of the cursor: that it answers the worked examples of its documents.
use crate::same::{same, same_at};
use bytes::Bytes;
use sonic_error::ErrorCode;
use sonic_input::{FastStr, JsonInput, JsonSlice, Read};
use std::process::Abort;
use std::test::Fail;

#[test]
fn reads_a_text(rt: HostRuntime) {
    let mut read = Read::from("[1]");
    same(&rt, read.next(), Some(b'['));
    same(&rt, read.peek(), Some(b'1'));
    same(&rt, read.index(), 1);
    same(&rt, read.remain(), 2);
    same(&rt, read.next(), Some(b'1'));
    same(&rt, read.next(), Some(b']'));
    same(&rt, read.peek(), None);
    same(&rt, read.next(), None);
    same(&rt, read.index(), 3);
    same(&rt, read.remain(), 0);
}

#[test]
fn moves_the_cursor(rt: HostRuntime) {
    let mut read = Read::from("[1,2]");
    same(&rt, read.remain(), 5);
    read.eat(4);
    same(&rt, read.peek(), Some(b']'));
    same(&rt, read.index(), 4);
    read.backward(3);
    same(&rt, read.peek(), Some(b'1'));
    same(&rt, read.as_u8_slice().len(), 5);
    read.set_index(5);
    same(&rt, read.peek(), None);
    read.set_index(0);
    same(&rt, read.peek(), Some(b'['));
}

#[test]
fn reads_several_bytes(rt: HostRuntime) {
    let mut read = Read::from("[12]");
    same(&rt, read.peek_n(2), Some(b"[1".as_slice()));
    same(&rt, read.index(), 0);
    same(&rt, read.next_n(2), Some(b"[1".as_slice()));
    same(&rt, read.index(), 2);
    assert!(rt; read.peek_n(3).is_none());
    assert!(rt; read.next_n(3).is_none());
    assert!(rt; read.peek_n(usize::MAX).is_none());
    assert!(rt; read.next_n(usize::MAX).is_none());
    same(&rt, read.index(), 2);
    same(&rt, read.next_n(2), Some(b"2]".as_slice()));
    same(&rt, read.next_n(0), Some(b"".as_slice()));
    assert!(rt; read.next_n(1).is_none());
}

#[test]
fn reads_any_place(rt: HostRuntime) {
    let mut read = Read::from("[12]");
    same(&rt, read.next(), Some(b'['));
    same(&rt, read.as_u8_slice(), b"[12]".as_slice());
    same(&rt, read.as_u8_slice().len(), 4);
    same(&rt, read.at(3), b']');
    same(&rt, read.at(0), b'[');
    same(&rt, read.slice(1, 3), b"12".as_slice());
    same(&rt, read.slice(4, 4).len(), 0);
    same(&rt, read.slice_ref(1, 3).bytes(), b"12".as_slice());
    same(&rt, read.index(), 1);
}

#[test]
fn reads_the_empty_text(rt: HostRuntime) {
    let mut read = Read::from("");
    same(&rt, read.peek(), None);
    same(&rt, read.next(), None);
    same(&rt, read.remain(), 0);
    same(&rt, read.peek_n(0), Some(b"".as_slice()));
    assert!(rt; read.next_n(1).is_none());
    assert!(rt; read.next_n(usize::MAX).is_none());
    same(&rt, read.as_u8_slice().len(), 0);
    same(&rt, read.slice_ref(0, 0).bytes().len(), 0);
    assert!(rt; read.check_utf8_final().is_ok());
    read.check_invalid_utf8();
    same(&rt, read.next_invalid_utf8(), usize::MAX);
}

/// Checks a cursor over an input that is `[é]`.
fn check_read<'de, I: JsonInput<'de>>(rt: &impl Abort, input: I, is_bytes: bool, shared: bool) {
    let mut read = Read::from(input);
    same(rt, read.as_u8_slice(), "[é]".as_bytes());
    assert_eq!(rt; read.as_u8_slice().len(), 4);
    same(rt, read.need_utf8_valid(), is_bytes);
    same(rt, read.next_invalid_utf8(), usize::MAX);

    let part = read.slice_ref(1, 3);
    same(rt, part.bytes(), "é".as_bytes());
    same(rt, matches!(part, JsonSlice::Shared(_)), shared);

    // The second byte of the letter begins no character.
    read.set_index(2);
    read.check_invalid_utf8();
    same(
        rt,
        read.next_invalid_utf8(),
        if is_bytes { 2 } else { usize::MAX },
    );
    same(rt, read.index(), 2);
}

#[test]
fn reads_five_kinds_of_input(rt: HostRuntime) -> Result<(), Fail> {
    let bytes = Bytes::copy_from_slice(rt.alloc(), "[é]".as_bytes())?;
    let string = String::from_str(rt.alloc(), "[é]")?;
    let text = FastStr::new(rt.alloc(), "[é]")?;
    check_read(&rt, "[é]".as_bytes(), true, false);
    check_read(&rt, "[é]", false, false);
    check_read(&rt, &string, false, false);
    check_read(&rt, &bytes, true, true);
    check_read(&rt, &text, false, true);
    Ok(())
}

#[test]
fn reads_a_slice_as_text(rt: HostRuntime) {
    let mut read = Read::of_slice(JsonSlice::Raw("é1".as_bytes()));
    assert!(rt; !read.need_utf8_valid());
    same(&rt, read.next_invalid_utf8(), usize::MAX);
    same(&rt, read.as_u8_slice(), "é1".as_bytes());
    same(&rt, read.next(), Some(0xC3));
    read.check_invalid_utf8();
    same(&rt, read.next_invalid_utf8(), usize::MAX);
}

fn check_next_invalid(rt: &impl Abort, bytes: &[u8], next_invalid: usize) {
    let read = Read::from(bytes);
    same_at(rt, read.next_invalid_utf8(), next_invalid, bytes);
    same_at(
        rt,
        read.check_utf8_final().is_ok(),
        next_invalid == usize::MAX,
        bytes,
    );
}

#[test]
fn finds_broken_bytes(rt: HostRuntime) -> Result<(), Fail> {
    check_next_invalid(&rt, b"", usize::MAX);
    check_next_invalid(&rt, b"[1]", usize::MAX);
    check_next_invalid(&rt, "é€😀".as_bytes(), usize::MAX);
    check_next_invalid(&rt, b"\xFFa", 0);
    check_next_invalid(&rt, b"a\x80b", 1);
    check_next_invalid(&rt, b"ab\xC3", 2);
    check_next_invalid(&rt, b"a\xE2\x82", 1);
    check_next_invalid(&rt, b"\xF0\x9F\x98", 0);
    check_next_invalid(&rt, b"a\xE2\x82b", 1);
    check_next_invalid(&rt, b"\xED\xA0\x80", 0);
    check_next_invalid(&rt, b"a\xC0\x80", 1);
    check_next_invalid(&rt, b"\"222\x80\x90\"", 4);

    let mut long = vec![in rt.alloc(); b'a'; 3000]?;
    check_next_invalid(&rt, &long, usize::MAX);
    long.push(0xFF)?;
    check_next_invalid(&rt, &long, 3000);
    Ok(())
}

#[test]
fn finds_the_next_broken_byte(rt: HostRuntime) {
    let mut read = Read::from(b"\xFFa\x80".as_slice());
    same(&rt, read.next_invalid_utf8(), 0);
    same(&rt, read.remain(), 3);
    read.eat(1);
    same(&rt, read.next_invalid_utf8(), 0);
    read.check_invalid_utf8();
    same(&rt, read.next_invalid_utf8(), 2);
    same(&rt, read.index(), 1);
    read.eat(2);
    read.check_invalid_utf8();
    same(&rt, read.next_invalid_utf8(), usize::MAX);
    assert!(rt; read.check_utf8_final().is_ok());
}

#[test]
fn reports_invalid_utf8_as_an_error(rt: HostRuntime) -> Result<(), Fail> {
    let table = [
        (b"\"\xFF\"".as_slice(), 1, 2, 1),
        (b"[\n\xFF]".as_slice(), 2, 1, 2),
        (b"ab\xC3".as_slice(), 1, 3, 2),
    ];
    for &(bytes, line, column, offset) in &table {
        match Read::from(bytes).check_utf8_final() {
            Ok(()) => assert!(rt; false, "{bytes:?}"),
            Err(error) => {
                same_at(&rt, error.code(), ErrorCode::InvalidUTF8, bytes);
                same_at(&rt, error.line(), line, bytes);
                same_at(&rt, error.column(), column, bytes);
                same_at(&rt, error.offset(), offset, bytes);
            }
        }
    }
    Ok(())
}

#[test]
fn an_unscanned_cursor_looks_at_nothing(rt: HostRuntime) {
    let mut read = Read::unscanned(JsonSlice::Raw(b"1\xff"));
    assert!(rt; read.need_utf8_valid());
    same(&rt, read.next_invalid_utf8(), usize::MAX);
    same(&rt, read.next(), Some(b'1'));
    same(&rt, read.check_utf8_final(), Ok(()));
    read.check_invalid_utf8();
    same(&rt, read.next_invalid_utf8(), 1);
}
