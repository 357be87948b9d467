// What a value is, and the container that it holds.
ghost use Rattle.std.specs.Prelude.{◌↔◌, length, IsTrue};
ghost use Rattle.sonic_text.specs.Numbers.{IsNumber};

use super::Value;
use sonic_error::JsonType;
use sonic_lazy::{JsonContainerTrait, JsonValueTrait};
use sonic_text::internal::skip_number;
use sonic_text::{whole_i64, whole_u64};

/// A value is what its variant says. A number whose text is no number is a number still, but no
/// integer.
impl JsonValueTrait for Value {
    ghost use Rattle.sonic_lazy.specs.Scalars.{scalar_of_tree};
    ghost use Rattle.sonic_value.specs.Views.{tree};

    ghost scalar = { λ value. scalar_of_tree (tree value) };

    fn get_type(&self) -> JsonType {
        match self {
            Value::Null => JsonType::Null,
            Value::Bool(_) => JsonType::Boolean,
            Value::Number(_) => JsonType::Number,
            Value::String(_) => JsonType::String,
            Value::Array(_) => JsonType::Array,
            Value::Object(_) => JsonType::Object,
        }
    }

    fn as_bool(&self) -> Option<bool> {
        match self {
            Value::Bool(truth) => Some(*truth),
            _ => None,
        }
    }

    fn as_i64(&self) -> Option<i64> {
        let Value::Number(text) = self else {
            return None;
        };
        if !is_number(text) {
            return None;
        }
        whole_i64(text)
    }

    fn as_u64(&self) -> Option<u64> {
        let Value::Number(text) = self else {
            return None;
        };
        if !is_number(text) {
            return None;
        }
        whole_u64(text)
    }
}

// Whether the text is one number (RFC 8259, section 6) and nothing else.
fn is_number(text: &str) -> bool
    ensures { IsTrue result ↔ IsNumber text.now 0 (length text.now) }
{
    match skip_number(text.as_bytes(), 0) {
        Some(end) => end == text.len(),
        None => false,
    }
}

impl JsonContainerTrait for Value {
    type ObjectType = Vec<(String, Value)>;

    type ArrayType = Vec<Value>;

    ghost use Rattle.sonic_value.specs.Views.{array_in, object_in};

    ghost object = { object_in };

    ghost array = { array_in };

    fn as_object(&self) -> Option<&Vec<(String, Value)>> {
        match self {
            Value::Object(members) => Some(members),
            _ => None,
        }
    }

    fn as_array(&self) -> Option<&Vec<Value>> {
        match self {
            Value::Array(elements) => Some(elements),
            _ => None,
        }
    }
}
