// Copies of values.
//
// One loop goes from container to container. Those that are open wait in a vector, so that no value is
// too deep.
ghost use Rattle.std.specs.Prelude.{◌≡◌, ◌≤◌, ◌<◌, ◌+◌, ◌*◌, ◌++◌, Bool, map, option_map, string_bytes, Some, None, IfOk, IfErr, IfSome, OnOk};
ghost use Rattle.sonic_error.specs.Errors.{IsPlainError};
ghost use Rattle.sonic_text.specs.Trees.{Tree};
ghost use Rattle.sonic_value.specs.Internal.Clones.{kept_tree, kept_member, left_size, made_tree, next_tree, waiting_size, IsPutIn};
ghost use Rattle.sonic_value.specs.Internal.Keeping.{kept, kept_text};
ghost use Rattle.sonic_value.specs.Internal.ValueCounts.{value_count, items_value_count};
ghost use Rattle.sonic_value.specs.Views.{tree, key_and_tree, elements_of, members_of};

use super::Value;
use crate::reader::spelled;
use sonic_error::{Error, ErrorCode, Result};
use std::alloc::{AllocError, Global};

impl Value {
    /// An equal value.
    ///
    /// The only error is `ErrorCode::NoMemory`.
    pub fn clone(&self, alloc: Global) -> Result<Value>
        ensures ok { IfOk result (λ made. tree made ≡ tree self.now) }
        ensures err { IfErr result (λ error. IsPlainError error ErrorCode.NoMemory) }
    {
        match copy(self, true, alloc) {
            Ok(made) => Ok(made),
            Err(_) => Err(Error::plain(ErrorCode::NoMemory)),
        }
    }
}

// A copy that is being made: it is whole, or these items of a container are left, and those before them
// are copied.
#[derive(Drop)]
enum Copying<'a> {
    Whole(Value),
    Array(&'a [Value], Vec<Value>),
    Object(&'a [(String, Value)], Vec<(String, Value)>),
}

// A copy of a value, whose strings and keys are spelled out where they aren't known to be UTF-8.
pub(crate) fn copy(
    value: &Value,
    utf8: bool,
    alloc: Global,
) -> std::result::Result<Value, AllocError>
    ensures { IfOk result (λ made. tree made ≡ kept utf8 (tree value.now)) }
{
    let mut opened = Vec::new(alloc);
    let mut level = match begin(value, utf8, alloc)? {
        Copying::Whole(made) => return Ok(made),
        begun => begun,
    };
    'items: loop {
        level.copy_scalars(utf8, alloc)?;
        if let Some(item) = level.next() {
            opened.push(level)?;
            level = begin(item, utf8, alloc)?;
            continue;
        }
        let made = level.close();
        let Some(outer) = opened.pop() else {
            return Ok(made);
        };
        level = outer.put(made, utf8, alloc)?;
    }
}

// Begins a copy: of a value that is no container it is whole. No memory is taken for a container.
#[inline(always)]
fn begin(value: &Value, utf8: bool, alloc: Global) -> std::result::Result<Copying<'_>, AllocError>
    ensures same { IfOk result (λ begun. made_tree utf8 begun ≡ kept utf8 (tree value.now)) }
    ensures less { IfOk result (λ begun. left_size begun < 2 * value_count (tree value.now)) }
{
    match value {
        Value::Null => Ok(Copying::Whole(Value::Null)),
        Value::Bool(truth) => Ok(Copying::Whole(Value::Bool(*truth))),
        Value::Number(number) => Ok(Copying::Whole(Value::Number(number.clone()?))),
        Value::String(text) => Ok(Copying::Whole(Value::String(kept_string(text, utf8, alloc)?))),
        Value::Array(elements) => Ok(Copying::Array(elements, Vec::new(alloc))),
        Value::Object(members) => Ok(Copying::Object(members, Vec::new(alloc))),
    }
}

// What is kept of a string or a key.
fn kept_string(text: &String, utf8: bool, alloc: Global) -> std::result::Result<String, AllocError>
    ensures { IfOk result (λ made. string_bytes made ≡ kept_text utf8 (string_bytes text.now)) }
{
    if utf8 {
        text.clone()
    } else {
        spelled(alloc, text.as_bytes())
    }
}

impl<'a> Copying<'a> {
    // Copies the items before the first that is a container.
    fn copy_scalars(&mut self, utf8: bool, alloc: Global) -> std::result::Result<(), AllocError>
        ensures same { OnOk result (made_tree utf8 self.new ≡ made_tree utf8 self.old) }
        ensures less { OnOk result (left_size self.new ≤ left_size self.old) }
    {
        match self {
            Copying::Whole(_) => Ok(()),
            Copying::Array(elements, made) => {
                *elements = copy_elements(elements, made, utf8, alloc)?;
                Ok(())
            }
            Copying::Object(members, made) => {
                *members = copy_members(members, made, utf8, alloc)?;
                Ok(())
            }
        }
    }

    // The first item that is left.
    fn next(&self) -> Option<&'a Value>
        ensures next { option_map (λ item. tree item.now) result ≡ next_tree self.now }
        ensures less { IfSome result (λ item.
            left_size self.now ≡ waiting_size self.now + 2 * value_count (tree item.now)) }
    {
        match self {
            Copying::Whole(_) => None,
            Copying::Array(elements, _) => elements.first(),
            Copying::Object(members, _) => match members.first() {
                Some((_, value)) => Some(value),
                None => None,
            },
        }
    }

    // With a copy of that item.
    fn put(
        self,
        item: Value,
        utf8: bool,
        alloc: Global,
    ) -> std::result::Result<Copying<'a>, AllocError>
        ensures { IfOk result (λ next. (x : Tree) → next_tree self.entry ≡ Some x
            → tree item ≡ kept utf8 x → IsPutIn utf8 self.entry next) }
    {
        match self {
            Copying::Array([_, rest @ ..], mut made) => {
                made.push(item)?;
                Ok(Copying::Array(rest, made))
            }
            Copying::Object([(key, _), rest @ ..], mut made) => {
                made.push((kept_string(key, utf8, alloc)?, item))?;
                Ok(Copying::Object(rest, made))
            }
            full => Ok(full),
        }
    }

    // The copy, where no item is left.
    fn close(self) -> Value
        ensures { next_tree self.entry ≡ None
            → ((utf8 : Bool) → tree result ≡ made_tree utf8 self.entry) }
    {
        match self {
            Copying::Whole(made) => made,
            Copying::Array(_, elements) => Value::Array(elements),
            Copying::Object(_, members) => Value::Object(members),
        }
    }
}

// Copies the elements before the first that is a container, and gives those that are left.
fn copy_elements<'a>(
    elements: &'a [Value],
    made: &mut Vec<Value>,
    utf8: bool,
    alloc: Global,
) -> std::result::Result<&'a [Value], AllocError>
    ensures same { IfOk result (λ left. map tree made.new.items ++ map (kept_tree utf8) left.now
        ≡ map tree made.old.items ++ map (kept_tree utf8) elements.entry.now) }
    ensures less { IfOk result (λ left. items_value_count (elements_of (map tree left.now))
        ≤ items_value_count (elements_of (map tree elements.entry.now))) }
{
    let mut left = elements;
    made.reserve_exact(left.len())?;
    'elements: while let [element, rest @ ..] = left {
        let item = match element {
            Value::Null => Value::Null,
            Value::Bool(truth) => Value::Bool(*truth),
            Value::Number(number) => Value::Number(number.clone()?),
            Value::String(text) => Value::String(kept_string(text, utf8, alloc)?),
            _ => break,
        };
        made.push(item)?;
        left = rest;
    }
    Ok(left)
}

// The same of members.
fn copy_members<'a>(
    members: &'a [(String, Value)],
    made: &mut Vec<(String, Value)>,
    utf8: bool,
    alloc: Global,
) -> std::result::Result<&'a [(String, Value)], AllocError>
    ensures same { IfOk result (λ left.
        map key_and_tree made.new.items ++ map (kept_member utf8) left.now
        ≡ map key_and_tree made.old.items ++ map (kept_member utf8) members.entry.now) }
    ensures less { IfOk result (λ left. items_value_count (members_of (map key_and_tree left.now))
        ≤ items_value_count (members_of (map key_and_tree members.entry.now))) }
{
    let mut left = members;
    made.reserve_exact(left.len())?;
    'members: while let [(key, value), rest @ ..] = left {
        let item = match value {
            Value::Null => Value::Null,
            Value::Bool(truth) => Value::Bool(*truth),
            Value::Number(number) => Value::Number(number.clone()?),
            Value::String(text) => Value::String(kept_string(text, utf8, alloc)?),
            _ => break,
        };
        made.push((kept_string(key, utf8, alloc)?, item))?;
        left = rest;
    }
    Ok(left)
}
