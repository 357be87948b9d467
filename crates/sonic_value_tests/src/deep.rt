// Values that are deeper than any stack: filled, written, copied, compared and dropped.
use sonic_value::{Value, get_by_schema};
use std::alloc::{AllocError, Global};
use std::process::Abort;
use std::test::Fail;

// So many objects, each but the last the one member of the one around it, and what is in the last.
fn objects_around(alloc: Global, levels: usize, inner: &str) -> Result<String, AllocError> {
    let mut text = "{\"\":".repeat(alloc, levels)?;
    text.push_str(inner)?;
    text.push_str(&"}".repeat(alloc, levels)?)?;
    Ok(text)
}

// The schema `{"":1}`, filled from a text.
fn filled(rt: &impl Abort, alloc: Global, json: &str) -> Value {
    let made = match Value::from_str(alloc, "{\"\":1}") {
        Ok(schema) => get_by_schema(alloc, json, schema),
        Err(error) => Err(error),
    };
    match made {
        Ok(value) => value,
        Err(error) => panic!(rt; "{error}"),
    }
}

// Checks the text of a value.
fn check_text(rt: &impl Abort, alloc: Global, value: &Value, wanted: &str) {
    match value.to_string(alloc) {
        Ok(text) => assert!(rt; text.as_str() == wanted),
        Err(error) => panic!(rt; "{error}"),
    }
}

// An object whose members have one key: of each how many objects are around an empty one.
fn repeating(alloc: Global, depths: &[usize]) -> Result<String, AllocError> {
    let mut text = String::from_str(alloc, "{")?;
    let mut before = "\"\":";
    for depth in depths {
        text.push_str(before)?;
        text.push_str(&objects_around(alloc, *depth, "{}")?)?;
        before = ",\"\":";
    }
    text.push('}')?;
    Ok(text)
}

// Such members, and how many objects are around an empty one in what is filled.
fn repeated() -> [(&'static [usize], usize); 3] {
    [
        (&[1], 2),
        (&[254, 508, 762, 1016, 1022, 1276], 1277),
        (&[254, 508, 762, 1016, 1270, 1524], 1525),
    ]
}

#[test]
fn fills_what_a_key_that_comes_again_deepens(rt: HostRuntime) -> Result<(), Fail> {
    let alloc = rt.alloc();
    for (depths, levels) in repeated() {
        let made = filled(&rt, alloc, &repeating(alloc, depths)?);
        check_text(&rt, alloc, &made, &objects_around(alloc, levels, "{}")?);
    }
    Ok(())
}

// A text that deepens the schema `{"":1}` by 255 levels, and what is innermost then in the same way, so
// many times.
fn deepening(alloc: Global, times: usize) -> Result<String, AllocError> {
    let mut once = String::from_str(alloc, "{\"\":")?;
    once.push_str(&objects_around(alloc, 255, "0")?)?;
    once.push_str(",\"\":")?;
    once.push_str(&"{\"\":".repeat(alloc, 254)?)?;
    let mut text = once.repeat(alloc, times)?;
    text.push_str("{\"\":2}")?;
    let close = "}".repeat(alloc, 255)?;
    text.push_str(&close.repeat(alloc, times)?)?;
    Ok(text)
}

#[test]
fn writes_what_was_deepened(rt: HostRuntime) -> Result<(), Fail> {
    let alloc = rt.alloc();
    for (times, levels) in [(0, 1), (1, 256), (4, 1021), (5, 1276), (393, 100_216)] {
        let made = filled(&rt, alloc, &deepening(alloc, times)?);
        let wanted = objects_around(alloc, levels, "2")?;
        check_text(&rt, alloc, &made, &wanted);
    }
    Ok(())
}

// A list with an item, and another one before and after it where this says so.
fn list(alloc: Global, item: Value, before: bool, after: bool) -> Result<Vec<Value>, AllocError> {
    let mut items = Vec::new(alloc);
    if before {
        items.push(Value::Null)?;
    }
    items.push(item)?;
    if after {
        items.push(Value::Array(Vec::new(alloc)))?;
    }
    Ok(items)
}

// An object with the items of a list.
fn object(alloc: Global, items: Vec<Value>) -> Result<Value, AllocError> {
    let mut members = Vec::new(alloc);
    for item in items {
        members.push((String::from_str(alloc, "key")?, item))?;
    }
    Ok(Value::Object(members))
}

// So many arrays and objects by turns, one in the other, each with another item before and after it
// where this says so, and a truth that is innermost.
fn nested(
    alloc: Global,
    truth: bool,
    levels: usize,
    before: bool,
    after: bool,
) -> Result<Value, AllocError> {
    let mut value = Value::Bool(truth);
    for level in 0..levels {
        let items = list(alloc, value, before, after)?;
        value = if level % 2 == 0 {
            Value::Array(items)
        } else {
            object(alloc, items)?
        };
    }
    Ok(value)
}

#[test]
fn drops_what_is_deeper_than_any_stack(rt: HostRuntime) -> Result<(), Fail> {
    let alloc = rt.alloc();
    for (before, after) in [(false, false), (false, true), (true, false), (true, true)] {
        let value = nested(alloc, true, 200_000, before, after)?;
        assert!(rt; matches!(&value, Value::Object(_)));
    }
    Ok(())
}

#[test]
fn goes_as_deep_as_memory_lasts(rt: HostRuntime) -> Result<(), Fail> {
    const PAIRS: usize = 500_000;
    let alloc = rt.alloc();
    let value = nested(alloc, true, 2 * PAIRS, false, false)?;
    let mut text = "{\"key\":[".repeat(alloc, PAIRS)?;
    text.push_str("true")?;
    text.push_str(&"]}".repeat(alloc, PAIRS)?)?;
    check_text(&rt, alloc, &value, &text);
    match value.clone(alloc) {
        Ok(copy) => assert!(rt; copy == value),
        Err(error) => panic!(rt; "{error}"),
    }
    Ok(())
}

#[test]
fn compares_what_is_deeper_than_any_stack(rt: HostRuntime) -> Result<(), Fail> {
    let alloc = rt.alloc();
    let one = nested(alloc, true, 100_000, true, true)?;
    let same = nested(alloc, true, 100_000, true, true)?;
    let other = nested(alloc, false, 100_000, true, true)?;
    assert!(rt; one == same);
    assert!(rt; one != other);
    Ok(())
}
