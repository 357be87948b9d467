// A schema filled from a value that is read already, as plain as it gets.
use sonic_value::Value;
use std::alloc::{AllocError, Global};
use std::mem;

// A copy of a value.
fn copy(alloc: Global, value: &Value) -> Result<Value, AllocError> {
    match value.clone(alloc) {
        Ok(made) => Ok(made),
        Err(_) => Err(AllocError),
    }
}

// The data, but for an object over one with members: each member of the data in order fills the last
// with its key.
pub(crate) fn fill(alloc: Global, schema: Value, data: &Value) -> Result<Value, AllocError> {
    let Value::Object(others) = data else {
        return copy(alloc, data);
    };
    let mut schema = schema;
    let Some(filled) = schema.as_object_mut() else {
        return copy(alloc, data);
    };
    if filled.is_empty() {
        return copy(alloc, data);
    }
    for (key, value) in others {
        let mut last = filled.len();
        for (i, (name, _)) in filled.iter().enumerate() {
            if name == key {
                last = i;
            }
        }
        if last < filled.len() {
            let old = mem::replace(&mut filled[last].1, Value::Null);
            filled[last].1 = fill(alloc, old, value)?;
        }
    }
    Ok(schema)
}
