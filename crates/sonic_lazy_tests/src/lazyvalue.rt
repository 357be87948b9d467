// What no clause says: that the calls answer the worked examples of their documents, and that
// they succeed where memory is ample.
ghost use Rattle.std.specs.Prelude.{◌≡◌, false};

use crate::same::{same, same_at};
use sonic_input::{FastStr, JsonInput, JsonSlice, Read};
use sonic_lazy::LazyValue;
use sonic_parser::{ParseStatus, Parser};
use std::alloc::Global;
use std::borrow::CowStr;
use std::hash::{DefaultHasher, Hash, Hasher};
use std::process::Abort;
use std::test::Fail;

// The value that the whole input is, if it is one.
fn value_of<'a, I: JsonInput<'a>>(alloc: Global, input: I) -> Option<LazyValue<'a>>
    requires { I.JsonInput.is_bytes ≡ false }
{
    let text = input.to_u8_slice();
    let raw = input.to_json_slice();
    let mut parser = Parser::new(Read::from(input));
    match parser.skip_one(alloc) {
        Ok((found, ParseStatus::HasEscaped)) if found.len() == text.len() => Some(LazyValue::whole(
            raw, true,
        )),
        Ok((found, ParseStatus::None)) if found.len() == text.len() => Some(LazyValue::whole(
            raw, false,
        )),
        _ => None,
    }
}

fn hash_of<T: Hash>(value: &T) -> u64 {
    let mut state = DefaultHasher::new();
    value.hash(&mut state);
    state.finish()
}

/// Checks the value that is the whole text.
fn check_text(rt: &impl Abort, alloc: Global, text: &str) {
    let value = value_of(alloc, text).expect(rt, "a value");
    same(rt, value.as_raw_str(), text);
    assert!(rt; matches!(value.as_raw_cow(), CowStr::Borrowed(raw) if raw == text));
}

#[test]
fn gives_the_raw_text(rt: HostRuntime) -> Result<(), Fail> {
    for &text in &[
        "null",
        "true",
        "-1.5e3",
        "\"a\"",
        "\"\\n\"",
        "[1, 2]",
        "{\"é\": []}",
    ] {
        check_text(&rt, rt.alloc(), text);
    }
    Ok(())
}

#[test]
fn is_null_by_default(rt: HostRuntime) -> Result<(), Fail> {
    same(&rt, LazyValue::default().as_raw_str(), "null");
    Ok(())
}

#[test]
fn clones_and_prints_a_value(rt: HostRuntime) -> Result<(), Fail> {
    let value = value_of(rt.alloc(), "[1, \"é\"]").expect(&rt, "a value");
    let copy = value.clone()?;
    assert!(rt; copy == value);
    same(&rt, copy.to_string(rt.alloc())?.as_str(), "[1, \"é\"]");
    Ok(())
}

#[test]
fn shows_the_text_in_quotes(rt: HostRuntime) -> Result<(), Fail> {
    for &(text, wanted) in &[
        ("1", "\"1\""),
        ("[1, \"é\"]", "\"[1, \\\"é\\\"]\""),
        ("\"\\n\"", "\"\\\"\\\\n\\\"\""),
    ] {
        let value = value_of(rt.alloc(), text).expect(&rt, "a value");
        same_at(&rt, &format!(in rt.alloc(); "{value:?}")?[..], wanted, text);
    }
    Ok(())
}

#[test]
fn compares_texts_whatever_holds_them(rt: HostRuntime) -> Result<(), Fail> {
    let text = FastStr::new(rt.alloc(), "[1]")?;
    let shared = value_of(rt.alloc(), &text).expect(&rt, "a value");
    let raw = value_of(rt.alloc(), "[1]").expect(&rt, "a value");
    let spaced = value_of(rt.alloc(), "[1 ]").expect(&rt, "a value");
    let number = value_of(rt.alloc(), "7").expect(&rt, "a value");
    assert!(rt; shared == raw);
    assert!(rt; hash_of(&shared) == hash_of(&raw));
    assert!(rt; raw != spaced);
    assert!(rt; spaced < shared);
    assert!(rt; number < raw);
    assert!(rt; shared.cmp(&raw).is_eq());
    assert!(rt; shared.partial_cmp(&number) == Some(std::cmp::Ordering::Greater));
    Ok(())
}
