// The items of a container, one after the other.
ghost use Rattle.std.specs.Prelude.{IfOk, IfErr};
ghost use Rattle.sonic_error.specs.Errors.{IsPlainError};
ghost use Rattle.sonic_examples.specs.Elements.{AreElements, IsClosedArray, IsElementsError};

use sonic_error::{Error, ErrorCode};
use sonic_lazy::{JsonValueTrait, LazyValue, to_array_iter, to_object_iter};
use std::alloc::Global;
use std::io;

/// All elements of an array, or what is wrong with it, unless memory runs out.
///
/// Of `[1, [2]]` they are `1` and `[2]`.
pub fn elements<'t>(alloc: Global, json: &'t str) -> Result<Vec<LazyValue<'t>>, Error>
    ensures ok { IfOk result (λ values. AreElements json.now values.items) }
    ensures err { IfErr result (IsElementsError json.now) }
    ensures complete { IsClosedArray json.now → IfErr result (λ error. IsPlainError error ErrorCode.NoMemory) }
{
    let mut values = Vec::new(alloc);
    let mut elements = to_array_iter(alloc, json);
    'elements: while let Some(element) = elements.next() {
        match values.push(element?) {
            Ok(()) => {}
            Err(_) => return Err(Error::plain(ErrorCode::NoMemory)),
        }
    }
    Ok(values)
}

const SETTINGS: &str = r#"{"retries": 3, "hosts": ["a.example", "b.example"], "caf\u00e9": true}"#;

// Prints the elements of an array, each after the key of its member.
fn show_elements(
    rt: &impl Print,
    alloc: Global,
    key: &str,
    array: &LazyValue<'_>,
) -> io::Result<()> {
    let values = match elements(alloc, array.as_raw_str()) {
        Ok(values) => values,
        Err(error) => return println!(rt; "{error}"),
    };
    for value in &values {
        println!(rt; "{key} has {value}")?;
    }
    Ok(())
}

// Prints a member: one whose value is an array by its elements, and each other one as it is.
fn show_member(rt: &impl Print, alloc: Global, key: &str, value: &LazyValue<'_>) -> io::Result<()> {
    if value.is_array() {
        show_elements(rt, alloc, key, value)
    } else {
        println!(rt; "{key} = {value}")
    }
}

/// The members of an object, with their keys as text.
pub fn show(rt: &impl Print, alloc: Global) -> io::Result<()> {
    let mut members = to_object_iter(alloc, SETTINGS);
    'members: while let Some(member) = members.next() {
        match member {
            Ok((key, value)) => show_member(rt, alloc, key.as_str(), &value)?,
            Err(error) => return println!(rt; "{error}"),
        }
    }
    Ok(())
}
