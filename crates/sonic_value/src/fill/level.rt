// Objects of a schema that are open.
ghost use Rattle.std.specs.Prelude.{◌<◌, length};

use crate::Value;
use std::mem;

// An object of a schema, the value of one of whose members is being filled.
#[derive(Drop)]
pub(super) struct Level {
    // The members. In that value's place is `null`.
    members: Vec<(String, Value)>,
    // Where the member stands.
    index: usize,
    ghost inside: { index < length members.items },
}

impl Level {
    ghost use Rattle.std.specs.Prelude.{◌≡◌, ℕ, List};
    ghost use Rattle.sonic_text.specs.Trees.{Items, Tree};
    ghost use Rattle.sonic_value.specs.Filling.{change_last};
    ghost use Rattle.sonic_value.specs.Internal.Fillers.{items_of, IsLastWith};
    ghost use Rattle.sonic_value.specs.Internal.OpenSchemas.{IsMemberTaken};
    ghost use Rattle.sonic_value.specs.Views.{tree};

    // Takes the value of the member at a position.
    pub(super) fn take(members: Vec<(String, Value)>, index: usize) -> (Level, Value)
        requires { index < length members.items }
        ensures { (key : List ℕ) → IsLastWith key members.items index
            → IsMemberTaken key (items_of members.items) result.0 (tree result.1) }
    {
        let mut members = members;
        let value = mem::replace(&mut members[index].1, Value::Null);
        (Level { members, index }, value)
    }

    // The members with a value in that place.
    pub(super) fn put(self, value: Value) -> Vec<(String, Value)>
        ensures { (key : List ℕ) (schema : Tree) (ys : Items) → IsMemberTaken key ys self schema
            → items_of result.items ≡ change_last key (λ w. tree value) ys }
    {
        let Level { members, index } = self;
        let mut members = members;
        members[index].1 = value;
        members
    }
}
