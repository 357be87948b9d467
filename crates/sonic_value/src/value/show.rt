// The text of a value, written piece by piece.
//
// One loop goes from container to container, and those around the one in hand wait in a vector. Where it
// can't grow the loop goes on by a call.
ghost use Rattle.std.specs.Prelude.{◌≡◌, ◌<◌, ◌*◌, string_bytes, IfOk, IfErr};
ghost use Rattle.std.specs.Fmt.{WritesOnOk};
ghost use Rattle.sonic_error.specs.Errors.{IsPlainError};
ghost use Rattle.sonic_owned.specs.Writing.{WritesUpTo};
ghost use Rattle.sonic_value.specs.CompactTexts.{compact};
ghost use Rattle.sonic_value.specs.Internal.OpenTexts.{array_size, array_text, begun_size, begun_text, next_size, next_text, object_size, object_text, shown_size, shown_text};
ghost use Rattle.sonic_value.specs.Internal.ValueCounts.{value_count};
ghost use Rattle.sonic_value.specs.Views.{tree};

use super::Value;
use sonic_error::{Error, ErrorCode, Result};
use sonic_text::write_quoted;
use std::alloc::Global;
use std::fmt;
use std::fmt::Write;

impl Value {
    /// The text of the value, without white space.
    ///
    /// The only error is `ErrorCode::NoMemory`. Of an array of `1` and `"a"` it is `[1,"a"]`.
    pub fn to_string(&self, alloc: Global) -> Result<String>
        ensures ok { IfOk result (λ made. string_bytes made ≡ compact (tree self.now)) }
        ensures err { IfErr result (λ error. IsPlainError error ErrorCode.NoMemory) }
    {
        match format!(in alloc; "{self}") {
            Ok(text) => Ok(text),
            Err(_) => Err(Error::plain(ErrorCode::NoMemory)),
        }
    }
}

/// The text of the value, as [`Value::to_string`] writes it.
///
/// It fails only where the writer fails. Containers that are begun wait in memory of where the value's own
/// came from. Where that runs out each level more is one call more.
impl fmt::Display for Value {
    ghost use Rattle.std.specs.Prelude.{Some};
    ghost use Rattle.sonic_value.specs.CompactTexts.{compact};
    ghost use Rattle.sonic_value.specs.Views.{tree};

    ghost output = { λ value. Some (compact (tree value)) };

    fn fmt<W: Write>(&self, f: &mut fmt::Formatter<W>) -> fmt::Result {
        show(self, f)
    }
}

/// The text of the value, as `Display` writes it.
impl fmt::Debug for Value {
    ghost use Rattle.std.specs.Prelude.{Some};
    ghost use Rattle.sonic_value.specs.CompactTexts.{compact};
    ghost use Rattle.sonic_value.specs.Views.{tree};

    ghost debug_output = { λ value. Some (compact (tree value)) };

    fn fmt<W: Write>(&self, f: &mut fmt::Formatter<W>) -> fmt::Result {
        show(self, f)
    }
}

// A container whose opening bracket is written: its items, and how many of them are begun.
#[derive(Clone, Copy)]
enum Showing<'a> {
    Array(&'a Vec<Value>, usize),
    Object(&'a Vec<(String, Value)>, usize),
}

// Writes the text of a value.
fn show<W: Write>(value: &Value, f: &mut fmt::Formatter<W>) -> fmt::Result
    ensures { WritesOnOk W.Write.write_str_gives f.old result (compact (tree value.now)) f.new }
{
    match begin(value, f)? {
        Some(level) => show_level(level, f),
        None => Ok(()),
    }
}

// Writes what is left of a container. Those around the one in hand wait in a vector. It calls itself only
// where memory runs out.
fn show_level<W: Write>(level: Showing<'_>, f: &mut fmt::Formatter<W>) -> fmt::Result
    ensures { WritesOnOk W.Write.write_str_gives f.old result (shown_text level.entry) f.new }
{
    let alloc = match level {
        Showing::Array(elements, _) => *elements.allocator(),
        Showing::Object(members, _) => *members.allocator(),
    };
    let mut opened = Vec::new(alloc);
    let mut next = Some(level);
    'levels: while let Some(level) = next {
        let Some((inner, outer)) = level.next(f)? else {
            next = opened.pop();
            continue;
        };
        if opened.push(outer).is_ok() {
            next = Some(inner);
        } else {
            show_level(inner, f)?;
            next = Some(outer);
        }
    }
    Ok(())
}

// Begins the text of a value: of a container it is the opening bracket, and else all.
fn begin<'a, W: Write>(
    value: &'a Value,
    f: &mut fmt::Formatter<W>,
) -> std::result::Result<Option<Showing<'a>>, fmt::Error>
    ensures text { WritesUpTo W.Write.write_str_gives f.old (compact (tree value.now)) begun_text
        result f.new }
    ensures less { IfOk result (λ begun. begun_size begun < 2 * value_count (tree value.now)) }
{
    match value {
        Value::Null => f.write_str("null")?,
        Value::Bool(true) => f.write_str("true")?,
        Value::Bool(false) => f.write_str("false")?,
        Value::Number(number) => f.write_str(number.as_str())?,
        Value::String(text) => write_quoted(text.as_str(), f)?,
        Value::Array(elements) => {
            f.write_str("[")?;
            return Ok(Some(Showing::Array(elements, 0)));
        }
        Value::Object(members) => {
            f.write_str("{")?;
            return Ok(Some(Showing::Object(members, 0)));
        }
    }
    Ok(None)
}

impl<'a> Showing<'a> {
    // Writes the items up to the first that is a container, begins that, and gives it and what is left
    // of this one. `None` where the closing bracket is written.
    fn next<W: Write>(
        self,
        f: &mut fmt::Formatter<W>,
    ) -> std::result::Result<Option<(Showing<'a>, Showing<'a>)>, fmt::Error>
        ensures text { WritesUpTo W.Write.write_str_gives f.old (shown_text self.entry) next_text
            result f.new }
        ensures less { IfOk result (λ found. next_size found < shown_size self.entry) }
    {
        match self {
            Showing::Array(elements, begun) => show_elements(elements, begun, f),
            Showing::Object(members, begun) => show_members(members, begun, f),
        }
    }
}

// The same of an array.
fn show_elements<'a, W: Write>(
    elements: &'a Vec<Value>,
    begun: usize,
    f: &mut fmt::Formatter<W>,
) -> std::result::Result<Option<(Showing<'a>, Showing<'a>)>, fmt::Error>
    ensures text { WritesUpTo W.Write.write_str_gives f.old (array_text elements.now.items begun)
        next_text result f.new }
    ensures less { IfOk result (λ found. next_size found < array_size elements.now.items begun) }
{
    let mut position = begun;
    'elements: while position < elements.len() {
        if position > 0 {
            f.write_str(",")?;
        }
        let element = &elements[position];
        position += 1;
        if let Some(inner) = begin(element, f)? {
            return Ok(Some((inner, Showing::Array(elements, position))));
        }
    }
    f.write_str("]")?;
    Ok(None)
}

// And of an object.
fn show_members<'a, W: Write>(
    members: &'a Vec<(String, Value)>,
    begun: usize,
    f: &mut fmt::Formatter<W>,
) -> std::result::Result<Option<(Showing<'a>, Showing<'a>)>, fmt::Error>
    ensures text { WritesUpTo W.Write.write_str_gives f.old (object_text members.now.items begun)
        next_text result f.new }
    ensures less { IfOk result (λ found. next_size found < object_size members.now.items begun) }
{
    let mut position = begun;
    'members: while position < members.len() {
        if position > 0 {
            f.write_str(",")?;
        }
        let (key, value) = &members[position];
        position += 1;
        write_quoted(key.as_str(), f)?;
        f.write_str(":")?;
        if let Some(inner) = begin(value, f)? {
            return Ok(Some((inner, Showing::Object(members, position))));
        }
    }
    f.write_str("}")?;
    Ok(None)
}
