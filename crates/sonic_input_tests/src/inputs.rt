// What no clause says: that the calls answer the worked examples of their documents, and that
// they succeed where memory is ample.
use crate::same::same;
use bytes::Bytes;
use sonic_input::{FastStr, JsonInput, JsonSlice, SharedSlice};
use std::alloc::Global;
use std::hash::{DefaultHasher, Hash, Hasher};
use std::process::Abort;
use std::test::Fail;

#[test]
fn makes_shared_text(rt: HostRuntime) -> Result<(), Fail> {
    let text = FastStr::new(rt.alloc(), "é1")?;
    same(&rt, text.len(), 3);
    assert!(rt; !text.is_empty());
    same(&rt, text.as_str(), "é1");
    same(&rt, text.bytes().as_slice(), [0xC3, 0xA9, 0x31].as_slice());
    Ok(())
}

#[test]
fn clones_and_prints_shared_text(rt: HostRuntime) -> Result<(), Fail> {
    let text = FastStr::new(rt.alloc(), "é1")?;
    let copy = text.clone(rt.alloc())?;
    assert!(rt; copy == text);
    same(&rt, copy.to_string(rt.alloc())?.as_str(), "é1");
    Ok(())
}

/// Checks the text `é1` from `start` to `end`, which are to be boundaries of characters.
fn check_cut(rt: &impl Abort, text: &FastStr, alloc: Global, cut: (usize, usize), wanted: &str) {
    let (start, end) = cut;
    assert!(rt; text.as_str().is_char_boundary(start));
    assert!(rt; text.as_str().is_char_boundary(end));
    assert!(rt; start <= end);
    match text.slice(alloc, start, end) {
        Ok(part) => same(rt, part.as_str(), wanted),
        Err(error) => assert!(rt; false, "{error}"),
    }
}

#[test]
fn cuts_shared_text(rt: HostRuntime) -> Result<(), Fail> {
    let text = FastStr::new(rt.alloc(), "é1")?;
    for &(start, end, wanted) in &[(0, 2, "é"), (2, 3, "1"), (0, 3, "é1"), (2, 2, "")] {
        check_cut(&rt, &text, rt.alloc(), (start, end), wanted);
    }
    assert!(rt; FastStr::new(rt.alloc(), "")?.is_empty());
    Ok(())
}

#[test]
fn takes_bytes_that_are_text(rt: HostRuntime) -> Result<(), Fail> {
    let bytes = Bytes::copy_from_slice(rt.alloc(), "é".as_bytes())?;
    match FastStr::from_bytes(bytes) {
        Ok(text) => same(&rt, text.as_str(), "é"),
        Err(_) => assert!(rt; false, "it is text"),
    }
    let broken = Bytes::copy_from_slice(rt.alloc(), [0x61, 0xFF].as_slice())?;
    match FastStr::from_bytes(broken) {
        Ok(_) => assert!(rt; false, "it is no text"),
        Err(back) => same(&rt, back.as_slice(), [0x61, 0xFF].as_slice()),
    }
    Ok(())
}

#[test]
fn compares_shared_text(rt: HostRuntime) -> Result<(), Fail> {
    let one = FastStr::new(rt.alloc(), "b")?;
    let other = FastStr::new(rt.alloc(), "aa")?;
    assert!(rt; one != other);
    assert!(rt; other < one);
    assert!(rt; hash_of(&one) == hash_of(&"b"));
    assert!(rt; hash_of(&one) != hash_of(&other));
    Ok(())
}

fn hash_of<T: Hash>(value: &T) -> u64 {
    let mut state = DefaultHasher::new();
    value.hash(&mut state);
    state.finish()
}

fn is_shared(slice: &JsonSlice<'_>) -> bool {
    matches!(slice, JsonSlice::Shared(_))
}

/// Checks an input that is `[é]`.
fn check_input<'de, I: JsonInput<'de>>(rt: &impl Abort, input: I, is_bytes: bool, shared: bool) {
    let bytes = input.to_u8_slice();
    same(rt, bytes, "[é]".as_bytes());
    assert_eq!(rt; bytes.len(), 4);
    same(rt, input.need_utf8_valid(), is_bytes);

    let whole = input.to_json_slice();
    same(rt, whole.bytes(), "[é]".as_bytes());
    same(rt, is_shared(&whole), shared);

    let part = input.from_range(1, 3);
    same(rt, part.bytes(), "é".as_bytes());
    same(rt, is_shared(&part), shared);
}

#[test]
fn takes_five_kinds_of_input(rt: HostRuntime) -> Result<(), Fail> {
    let bytes = Bytes::copy_from_slice(rt.alloc(), "[é]".as_bytes())?;
    let string = String::from_str(rt.alloc(), "[é]")?;
    let text = FastStr::new(rt.alloc(), "[é]")?;
    check_input(&rt, "[é]".as_bytes(), true, false);
    check_input(&rt, "[é]", false, false);
    check_input(&rt, &string, false, false);
    check_input(&rt, &bytes, true, true);
    check_input(&rt, &text, false, true);
    Ok(())
}

/// Checks a slice that is `[é]`.
fn check_slice(rt: &impl Abort, slice: JsonSlice<'_>, shared: bool) {
    same(rt, slice.as_ref(), "[é]".as_bytes());
    assert_eq!(rt; slice.bytes().len(), 4);
    same(rt, is_shared(&slice), shared);

    let part = slice.part(1, 4);
    same(rt, part.bytes(), "é]".as_bytes());
    assert_eq!(rt; part.bytes().len(), 3);
    same(rt, is_shared(&part), shared);
    same(rt, part.part(2, 3).bytes(), b"]".as_slice());
    same(rt, part.part(3, 3).bytes().len(), 0);
}

#[test]
fn makes_slices_of_inputs(rt: HostRuntime) -> Result<(), Fail> {
    let bytes = Bytes::copy_from_slice(rt.alloc(), "[é]".as_bytes())?;
    let string = String::from_str(rt.alloc(), "[é]")?;
    let text = FastStr::new(rt.alloc(), "[é]")?;
    check_slice(&rt, JsonSlice::from("[é]".as_bytes()), false);
    check_slice(&rt, JsonSlice::from("[é]"), false);
    check_slice(&rt, JsonSlice::from(&string), false);
    check_slice(&rt, JsonSlice::from(&bytes), true);
    check_slice(&rt, JsonSlice::from(&text), true);
    same(&rt, JsonSlice::default().bytes(), b"null".as_slice());
    Ok(())
}

#[test]
fn makes_text_of_slices(rt: HostRuntime) -> Result<(), Fail> {
    let raw = JsonSlice::Raw("ab".as_bytes());
    same(&rt, raw.as_faststr(rt.alloc())?.as_str(), "ab");

    let text = FastStr::new(rt.alloc(), "ab")?;
    let shared = JsonSlice::from(&text);
    same(&rt, shared.as_faststr(rt.alloc())?.as_str(), "ab");
    Ok(())
}

#[test]
fn compares_slices(rt: HostRuntime) -> Result<(), Fail> {
    let bytes = Bytes::copy_from_slice(rt.alloc(), b"xaay".as_slice())?;
    same(&rt, bytes.len(), 4);
    let shared = JsonSlice::Shared(SharedSlice::new(&bytes, 1, 3));
    assert!(rt; shared == JsonSlice::Raw(b"aa"));
    assert!(rt; hash_of(&shared) == hash_of(&JsonSlice::Raw(b"aa")));
    assert!(rt; hash_of(&shared) == hash_of(&b"aa".as_slice()));
    assert!(rt; shared != JsonSlice::Raw(b"ab"));
    assert!(rt; shared < JsonSlice::Raw(b"b"));
    assert!(rt; JsonSlice::Raw(b"a") < shared);
    assert!(rt; JsonSlice::Raw(b"B") < shared);
    assert!(rt; shared < JsonSlice::Raw(b"aaa"));
    Ok(())
}
