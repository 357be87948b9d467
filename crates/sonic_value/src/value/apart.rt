// Values that are taken apart.
ghost use Rattle.std.specs.Prelude.{◌≡◌, ◌<◌, ◌+◌, None, IfSome, MatchOption};
ghost use Rattle.sonic_value.specs.Internal.Fillers.{items_of};
ghost use Rattle.sonic_value.specs.Internal.OpenSchemas.{IsFillable};
ghost use Rattle.sonic_value.specs.Internal.ValueCounts.{value_count};
ghost use Rattle.sonic_value.specs.Schemas.{HasMembers};
ghost use Rattle.sonic_value.specs.Views.{tree};

use super::Value;
use std::mem;

impl Value {
    // The members of an object with some, and `None` of every other value.
    pub(crate) fn into_members(self) -> Option<Vec<(String, Value)>>
        ensures some { IfSome result (λ members. IsFillable (tree self) (items_of members.items)) }
        ensures none { result ≡ None → ¬ HasMembers (tree self) }
    {
        let Value::Object(members) = self else {
            return None;
        };
        if members.is_empty() {
            return None;
        }
        Some(members)
    }

    // What is left of a value without one that is no container or has no items, and `None` where that
    // was all.
    pub(super) fn shrunk(self) -> Option<Self>
        ensures { IfSome result (λ rest. value_count (tree rest) < value_count (tree self)) }
    {
        match self {
            Value::Null => None,
            Value::Bool(_) => None,
            Value::Number(_) => None,
            Value::String(_) => None,
            Value::Array(elements) => Self::array_shrunk(elements),
            Value::Object(members) => Self::object_shrunk(members),
        }
    }

    // The same of an array with these elements.
    fn array_shrunk(mut elements: Vec<Self>) -> Option<Self>
        ensures { IfSome result (λ rest. value_count (tree rest) < value_count (tree (Value.Array elements))) }
    {
        let Some(last) = elements.pop() else {
            elements.destroy_empty();
            return None;
        };
        if elements.is_empty() {
            elements.destroy_empty();
            return Some(last);
        }
        Some(Value::Array(elements).below(last))
    }

    // The same of an object with these members.
    fn object_shrunk(mut members: Vec<(String, Self)>) -> Option<Self>
        ensures { IfSome result (λ rest. value_count (tree rest) < value_count (tree (Value.Object members))) }
    {
        let Some((_, last)) = members.pop() else {
            members.destroy_empty();
            return None;
        };
        if members.is_empty() {
            members.destroy_empty();
            return Some(last);
        }
        Some(Value::Object(members).below(last))
    }

    // Goes down the first items of an item, up to one that has none, which is dropped. What is around
    // each waits in its first item's place, and so this value does.
    fn below(self, item: Self) -> Self
        ensures { value_count (tree result) < value_count (tree self) + value_count (tree item) }
    {
        let mut around = self;
        let mut item = item;
        'values: loop {
            let (outer, first) = item.enter(around);
            around = outer;
            match first {
                Some(inner) => item = inner,
                None => return around,
            }
        }
    }

    // Puts what is around a value in its first item's place, and gives the value and that item. A value
    // that has none is dropped.
    fn enter(self, around: Self) -> (Self, Option<Self>)
        ensures whole { MatchOption result.1 (result.0 ≡ around)
            (λ first. value_count (tree result.0) + value_count (tree first)
            ≡ value_count (tree around) + value_count (tree self)) }
        ensures less { IfSome result.1 (λ first. value_count (tree first) < value_count (tree self)) }
    {
        match self {
            Value::Null => (around, None),
            Value::Bool(_) => (around, None),
            Value::Number(_) => (around, None),
            Value::String(_) => (around, None),
            Value::Array(elements) if elements.is_empty() => {
                elements.destroy_empty();
                (around, None)
            }
            Value::Array(mut elements) => {
                let first = mem::replace(&mut elements[0], around);
                (Value::Array(elements), Some(first))
            }
            Value::Object(members) if members.is_empty() => {
                members.destroy_empty();
                (around, None)
            }
            Value::Object(mut members) => {
                let first = mem::replace(&mut members[0].1, around);
                (Value::Object(members), Some(first))
            }
        }
    }
}
