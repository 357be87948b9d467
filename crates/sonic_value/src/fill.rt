// Schemas, filled from the values of a text.
//
// One loop goes from member to member of the data. The objects of the schema that are open wait in a
// vector, which is all that grows.
ghost use Rattle.std.specs.Prelude.{◌≡◌, ◌<◌, ◌≤◌, ℕ, List, None, length, IfOk, IfErr, IfSome, OnOk};
ghost use Rattle.sonic_parser.specs.Faults.{IsStopFor};
ghost use Rattle.sonic_text.specs.Faults.{IsKeyFault};
ghost use Rattle.sonic_text.specs.Places.{byte};
ghost use Rattle.sonic_text.specs.Strings.{strict};
ghost use Rattle.sonic_text.specs.Trees.{Tree};
ghost use Rattle.sonic_text.specs.Values.{opening};
ghost use Rattle.sonic_value.specs.Internal.Fillers.{items_of, IsFillRead, IsFillStopped, IsMemberFound, IsPlaceOf};
ghost use Rattle.sonic_value.specs.Internal.OpenSchemas.{IsFillable, IsFillingBegun, IsFilling, IsMemberEnded};
ghost use Rattle.sonic_value.specs.Schemas.{IsReplaced};
ghost use Rattle.sonic_value.specs.Views.{tree};

// Objects that are open.
mod level;

use crate::Value;
use crate::read::read_value;
use crate::reader::Reader;
use level::Level;
use sonic_parser::Fault;
use sonic_text::Kind;

// How far a value of a schema is filled.
#[derive(Drop)]
enum Begun {
    // It is filled.
    Filled(Value),
    // It is an object with these members, and another member of the data is expected.
    Open(Vec<(String, Value)>),
}

// Fills a schema from the value at the cursor. Inside a value that takes the place of one so many
// containers may be open at once.
pub(crate) fn fill_value(
    reader: &mut Reader<'_>,
    schema: Value,
    depth_left: usize,
) -> Result<Value, Fault>
    ensures ok { IfOk result (λ made. IsFillRead reader.old.source depth_left (tree schema) (tree made)
        reader.old.place reader.new.place) }
    ensures moved { reader.new ≡ record reader.old { place = reader.new.place } }
    ensures err { IfErr result (IsStopFor (IsFillStopped reader.old.source depth_left (tree schema)
        reader.old.place)) }
{
    let mut opened = Vec::new(reader.alloc());
    let mut begun = begin(reader, schema, depth_left)?;
    'members: loop {
        match begun {
            Begun::Filled(value) => return Ok(value),
            Begun::Open(members) => begun = fill_member(reader, &mut opened, members, depth_left)?,
        }
    }
}

// Begins to fill a schema from the value at the cursor.
fn begin(reader: &mut Reader<'_>, schema: Value, depth_left: usize) -> Result<Begun, Fault>
    ensures ok { IfOk result (λ begun. IsFillingBegun reader.old.source depth_left (tree schema) begun
        reader.old.place reader.new.place) }
    ensures moved { reader.new ≡ record reader.old { place = reader.new.place } }
    ensures err { IfErr result (IsStopFor (IsFillStopped reader.old.source depth_left (tree schema)
        reader.old.place)) }
{
    let Some(members) = fillable(reader, schema) else {
        return Ok(Begun::Filled(read_value(reader, depth_left)?));
    };
    if reader.enter(Kind::Object) {
        return Ok(Begun::Open(members));
    }
    Ok(Begun::Filled(Value::Object(members)))
}

// The members of a schema that the value at the cursor fills, and `None` where that takes its place.
fn fillable(reader: &Reader<'_>, schema: Value) -> Option<Vec<(String, Value)>>
    ensures some { IfSome result (λ members. IsFillable (tree schema) (items_of members.items)) }
    ensures object { IfSome result (λ members.
        byte reader.now.source.text reader.now.place ≡ opening Kind.Object) }
    ensures none { result ≡ None → IsReplaced reader.now.source.text (tree schema) reader.now.place }
{
    match reader.container() {
        Some(Kind::Object) => schema.into_members(),
        Some(Kind::Array) => None,
        None => None,
    }
}

// Passes the member of the data that is expected at the cursor, or begins to fill a value from it.
//
// The innermost object of the schema has these members.
fn fill_member(
    reader: &mut Reader<'_>,
    opened: &mut Vec<Level>,
    members: Vec<(String, Value)>,
    depth_left: usize,
) -> Result<Begun, Fault>
    ensures ok { IfOk result (λ begun. (schema : Tree) (i : ℕ)
        → IsFilling reader.old.source depth_left schema i opened.old.items (Begun.Open members) reader.old.place
        → IsFilling reader.old.source depth_left schema i opened.new.items begun reader.new.place) }
    ensures moved { reader.new ≡ record reader.old { place = reader.new.place } }
    ensures later { OnOk result (reader.old.place < reader.new.place) }
    ensures err { IfErr result (IsStopFor (λ s. (schema : Tree) (i : ℕ)
        → IsFilling reader.old.source depth_left schema i opened.old.items (Begun.Open members) reader.old.place
        → IsFillStopped reader.old.source depth_left schema i s)) }
{
    let Some(index) = find_next(reader, &members)? else {
        reader.skip_value()?;
        return leave(reader, opened, members);
    };
    let (level, schema) = Level::take(members, index);
    match begin(reader, schema, depth_left)? {
        Begun::Filled(value) => leave(reader, opened, level.put(value)),
        Begun::Open(inner) => {
            opened.push(level)?;
            Ok(Begun::Open(inner))
        }
    }
}

// After a member of the data, ends objects as long as they close.
//
// The innermost object of the schema has these members.
fn leave(
    reader: &mut Reader<'_>,
    opened: &mut Vec<Level>,
    members: Vec<(String, Value)>,
) -> Result<Begun, Fault>
    ensures ok { IfOk result (λ begun. (depth_left : ℕ) (schema : Tree) (i : ℕ)
        → IsMemberEnded reader.old.source depth_left schema i opened.old.items (items_of members.items) reader.old.place
        → IsFilling reader.old.source depth_left schema i opened.new.items begun reader.new.place) }
    ensures moved { reader.new ≡ record reader.old { place = reader.new.place } }
    ensures later { OnOk result (reader.old.place ≤ reader.new.place) }
    ensures err { IfErr result (IsStopFor (λ s. (depth_left : ℕ) (schema : Tree) (i : ℕ)
        → IsMemberEnded reader.old.source depth_left schema i opened.old.items (items_of members.items) reader.old.place
        → IsFillStopped reader.old.source depth_left schema i s)) }
{
    let mut members = members;
    'levels: loop {
        if reader.next_item(Kind::Object)? {
            return Ok(Begun::Open(members));
        }
        let value = Value::Object(members);
        match opened.pop() {
            Some(level) => members = level.put(value),
            None => return Ok(Begun::Filled(value)),
        }
    }
}

// Reads the key at the cursor, up to the member's value: the position of the last of the members
// that has it, and `None` where none has.
fn find_next(reader: &mut Reader<'_>, members: &[(String, Value)]) -> Result<Option<usize>, Fault>
    ensures ok { IfOk result (IsMemberFound reader.old.source reader.old.place reader.new.place members.now) }
    ensures moved { reader.new ≡ record reader.old { place = reader.new.place } }
    ensures err { IfErr result (IsStopFor (IsKeyFault strict reader.old.source.text reader.old.place)) }
{
    let key = reader.borrowed_key()?;
    Ok(last_of_key(members, key.as_str()))
}

// The position of the last member with a key, and `None` where no member has it.
fn last_of_key(members: &[(String, Value)], key: &str) -> Option<usize>
    ensures { IsPlaceOf key.now members.now result }
{
    let mut index = members.len();
    while index > 0 {
        index -= 1;
        if members[index].0.as_str() == key {
            return Some(index);
        }
    }
    None
}
