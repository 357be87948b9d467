// Worked examples of values that are the same, and of others.
use crate::same::same_at;
use sonic_error::Error;
use sonic_lazy::from_str;
use sonic_patch::same;
use std::alloc::{AllocError, Global};
use std::process::Abort;
use std::test::Fail;

// Two documents, and whether they are the same.
type Row = (&'static str, &'static str, bool);

const VALUES: [Row; 45] = [
    // Scalars.
    ("null", "null", true),
    ("true", "true", true),
    ("true", "false", false),
    ("null", "false", false),
    ("0", "0", true),
    ("0", "-0", false),
    ("1", "1.0", false),
    ("10", "1e1", false),
    ("\"\"", "\"\"", true),
    ("\"1\"", "1", false),
    ("\"null\"", "null", false),
    // Strings by what they denote.
    ("\"a\"", "\"\\u0061\"", true),
    ("\"\\n\"", "\"\\u000A\"", true),
    ("\"/\"", "\"\\/\"", true),
    ("\"\\ud834\\udd1e\"", "\"\u{1d11e}\"", true),
    ("\"a\"", "\"A\"", false),
    // Empty containers.
    ("[]", " [ ]\n", true),
    ("{}", "{\n}", true),
    ("[]", "{}", false),
    ("[[]]", "[[],[]]", false),
    ("[]", "[null]", false),
    // Elements one by one.
    ("[1,2]", "[ 1 , 2 ]", true),
    ("[1,2]", "[2,1]", false),
    ("[1,2]", "[1,2,2]", false),
    ("[1,1,2]", "[1,2,2]", false),
    ("[[1],2]", "[1,[2]]", false),
    ("[{\"a\":1},{\"a\":2}]", "[{\"a\":2},{\"a\":1}]", false),
    // Members in any order.
    ("{\"a\":1}", "{ \"a\" : 1 }", true),
    ("{\"a\":1}", "{\"\\u0061\":1}", true),
    ("{\"a\":1,\"b\":2}", "{\"b\":2,\"a\":1}", true),
    ("{\"a\":1,\"b\":2}", "{\"b\":1,\"a\":2}", false),
    ("{\"a\":1,\"b\":2}", "{\"a\":1}", false),
    ("{\"a\":1}", "{\"b\":1}", false),
    ("{\"a\":null}", "{}", false),
    // Keys that come more than once.
    ("{\"a\":1,\"a\":2}", "{\"a\":2,\"a\":1}", true),
    ("{\"a\":1,\"a\":1}", "{\"a\":1}", false),
    (
        "{\"a\":1,\"a\":1,\"a\":2}",
        "{\"a\":2,\"a\":1,\"a\":2}",
        true,
    ),
    ("{\"a\":1,\"a\":2}", "{\"a\":1,\"a\":3}", false),
    (
        "{\"a\":1,\"b\":1,\"a\":2}",
        "{\"b\":1,\"a\":2,\"\\u0061\":1}",
        true,
    ),
    // Members of members, in any order at each level.
    (
        "{\"a\":{\"b\":1,\"c\":[]},\"d\":0}",
        "{\"d\":0,\"a\":{\"c\":[],\"b\":1}}",
        true,
    ),
    (
        "{\"a\":{\"b\":1,\"c\":[]},\"d\":0}",
        "{\"d\":0,\"a\":{\"c\":{},\"b\":1}}",
        false,
    ),
    (
        "[{\"a\":[1,{\"x\":1,\"y\":2}]},3]",
        "[{\"a\":[1,{\"y\":2,\"x\":1}]},3]",
        true,
    ),
    ("{\"a\":[],\"b\":{}}", "{\"b\":[],\"a\":{}}", false),
    // A key and a string of its bytes are no member.
    ("[\"a\",1]", "{\"a\":1}", false),
    ("{\"a\":\"b\"}", "{\"b\":\"a\"}", false),
];

// Whether two documents are the same.
fn are_same(alloc: Global, left: &str, right: &str) -> Result<bool, Error> {
    let left = from_str(alloc, left)?;
    let right = from_str(alloc, right)?;
    Ok(same(alloc, left.as_raw_str(), right.as_raw_str())?)
}

// Checks two documents in both orders.
fn check(rt: &impl Abort, alloc: Global, left: &str, right: &str, wanted: bool) {
    same_at(rt, are_same(alloc, left, right).ok(), Some(wanted), left);
    same_at(rt, are_same(alloc, right, left).ok(), Some(wanted), right);
}

#[test]
fn answers_worked_examples(rt: HostRuntime) {
    for &(left, right, wanted) in &VALUES {
        check(&rt, rt.alloc(), left, right, wanted);
        check(&rt, rt.alloc(), left, left, true);
    }
}

// An innermost value inside so many others, of each of which it is the first member or the second.
fn nested(alloc: Global, first: bool, innermost: &str) -> Result<String, AllocError> {
    let mut text = String::new(alloc);
    for _ in 0..100_000 {
        text.push_str(if first { r#"{"a":"# } else { r#"{"b":0,"a":"# })?;
    }
    text.push_str(innermost)?;
    for _ in 0..100_000 {
        text.push_str(if first { r#","b":0}"# } else { "}" })?;
    }
    Ok(text)
}

#[test]
fn goes_as_deep_as_memory(rt: HostRuntime) -> Result<(), Fail> {
    let alloc = rt.alloc();
    let one = nested(alloc, true, "1")?;
    let other = nested(alloc, false, "1")?;
    let unlike = nested(alloc, false, "2")?;
    check(&rt, alloc, one.as_str(), other.as_str(), true);
    check(&rt, alloc, one.as_str(), unlike.as_str(), false);
    Ok(())
}

// A member for each number below a count, in their order or from the last on.
fn wide(alloc: Global, count: usize, backward: bool) -> Result<String, AllocError> {
    let mut text = String::from_str(alloc, "{")?;
    for i in 0..count {
        let number = if backward { count - 1 - i } else { i };
        let comma = if i == 0 { "" } else { "," };
        let member = format!(in alloc; "{comma}\"k{number}\":[{number}]")?;
        text.push_str(member.as_str())?;
    }
    text.push_str("}")?;
    Ok(text)
}

#[test]
fn takes_wide_objects_in_any_order(rt: HostRuntime) -> Result<(), Fail> {
    let alloc = rt.alloc();
    let one = wide(alloc, 20_000, false)?;
    let other = wide(alloc, 20_000, true)?;
    let fewer = wide(alloc, 19_999, true)?;
    check(&rt, alloc, one.as_str(), other.as_str(), true);
    check(&rt, alloc, one.as_str(), fewer.as_str(), false);
    Ok(())
}
