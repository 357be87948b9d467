// Equality of values.
//
// One loop goes from container to container. Those around the ones in hand wait in a vector, so that no
// values are too deep while there is memory for it.
ghost use Rattle.std.specs.Prelude.{◌≡◌, ◌↔◌, ◌<◌, ◌*◌, IsTrue};
ghost use Rattle.sonic_value.specs.Internal.Comparisons.{array_alike, begun_alike, begun_size, compared_size, found_alike, found_size, object_alike, IsAlike};
ghost use Rattle.sonic_value.specs.Internal.OpenTexts.{array_size, object_size};
ghost use Rattle.sonic_value.specs.Internal.ValueCounts.{value_count};
ghost use Rattle.sonic_value.specs.Views.{tree};

use super::Value;

/// Members are compared in their order, and numbers by their text: `1.0` isn't `1`.
///
/// Containers that are begun wait in memory of where the value's own came from. Only a container inside
/// another one needs some. Where it runs out each level more is one call more, of which a stack of 8 MiB
/// holds some 50,000.
impl PartialEq for Value {
    ghost use Rattle.std.specs.Cmp.{partial_equiv_from_equiv};
    ghost use Rattle.std.proofs.lemmas.Cmp.{on_equiv};
    ghost use Rattle.sonic_value.specs.Internal.EqualityLaws.{tree_equivalence};
    ghost use Rattle.sonic_value.specs.Equality.{same_tree};
    ghost use Rattle.sonic_value.specs.Views.{tree};

    ghost eq = { λ one other. same_tree (tree one) (tree other) };

    ghost laws = { partial_equiv_from_equiv (on_equiv tree tree_equivalence) };

    fn eq(&self, other: &Value) -> bool
        ensures eq { result ≡ same_tree (tree self.now) (tree other.now) }
        ensures trees { IsTrue result ↔ (tree self.now ≡ tree other.now) }
    {
        match begin(self, other) {
            Compared::Known(same) => same,
            Compared::Open(level) => same_level(level),
        }
    }
}

impl Eq for Value {
    ghost use Rattle.std.proofs.lemmas.Cmp.{on_equiv};
    ghost use Rattle.sonic_value.specs.Internal.EqualityLaws.{tree_equivalence};
    ghost use Rattle.sonic_value.specs.Views.{tree};

    ghost laws = { on_equiv tree tree_equivalence };
}

// Two containers of one kind, and how many of their first items are the same.
#[derive(Clone, Copy)]
enum Comparing<'a> {
    Arrays(&'a Vec<Value>, &'a Vec<Value>, usize),
    Objects(&'a Vec<(String, Value)>, &'a Vec<(String, Value)>, usize),
}

// Whether two values are the same.
#[derive(Clone, Copy)]
enum Compared<T> {
    Known(bool),
    // They are where what is left of these containers is.
    Open(T),
}

// Begins to compare two values. Of two containers of one kind all is left.
fn begin<'a>(one: &'a Value, other: &'a Value) -> Compared<Comparing<'a>>
    ensures same { begun_alike result ↔ (tree one.now ≡ tree other.now) }
    ensures less { begun_size result < 2 * value_count (tree one.now) }
{
    match one {
        Value::Null => match other {
            Value::Null => Compared::Known(true),
            _ => Compared::Known(false),
        },
        Value::Bool(truth) => match other {
            Value::Bool(other) => Compared::Known(truth == other),
            _ => Compared::Known(false),
        },
        Value::Number(number) => match other {
            Value::Number(other) => Compared::Known(number == other),
            _ => Compared::Known(false),
        },
        Value::String(text) => match other {
            Value::String(other) => Compared::Known(text == other),
            _ => Compared::Known(false),
        },
        Value::Array(elements) => match other {
            Value::Array(others) => Compared::Open(Comparing::Arrays(elements, others, 0)),
            _ => Compared::Known(false),
        },
        Value::Object(members) => match other {
            Value::Object(others) => Compared::Open(Comparing::Objects(members, others, 0)),
            _ => Compared::Known(false),
        },
    }
}

// Whether what is left of two containers is the same. It calls itself only where memory runs out.
fn same_level(level: Comparing<'_>) -> bool
    ensures { IsTrue result ↔ IsAlike level.entry }
{
    let alloc = match level {
        Comparing::Arrays(elements, _, _) => *elements.allocator(),
        Comparing::Objects(members, _, _) => *members.allocator(),
    };
    let mut opened = Vec::new(alloc);
    let mut next = Some(level);
    'levels: while let Some(level) = next {
        let found = match level {
            Comparing::Arrays(elements, others, same) => next_elements(elements, others, same),
            Comparing::Objects(members, others, same) => next_members(members, others, same),
        };
        if let Compared::Known(true) = found {
            next = opened.pop();
            continue;
        }
        let Compared::Open((inner, outer)) = found else {
            return false;
        };
        if opened.push(outer).is_ok() {
            next = Some(inner);
        } else if same_level(inner) {
            next = Some(outer);
        } else {
            return false;
        }
    }
    true
}

// Goes past the elements that are the same, up to the first two that are containers of one kind: these,
// and what is left after them.
fn next_elements<'a>(
    elements: &'a Vec<Value>,
    others: &'a Vec<Value>,
    same: usize,
) -> Compared<(Comparing<'a>, Comparing<'a>)>
    ensures same { found_alike result ↔ array_alike elements.now.items others.now.items same }
    ensures less { found_size result < array_size elements.now.items same }
{
    if elements.len() != others.len() {
        return Compared::Known(false);
    }
    let mut position = same;
    'elements: while position < elements.len() {
        let begun = begin(&elements[position], &others[position]);
        position += 1;
        let outer = Comparing::Arrays(elements, others, position);
        match begun {
            Compared::Known(true) => continue,
            Compared::Known(false) => return Compared::Known(false),
            Compared::Open(inner) => return Compared::Open((inner, outer)),
        }
    }
    Compared::Known(true)
}

// The same of objects.
fn next_members<'a>(
    members: &'a Vec<(String, Value)>,
    others: &'a Vec<(String, Value)>,
    same: usize,
) -> Compared<(Comparing<'a>, Comparing<'a>)>
    ensures same { found_alike result ↔ object_alike members.now.items others.now.items same }
    ensures less { found_size result < object_size members.now.items same }
{
    if members.len() != others.len() {
        return Compared::Known(false);
    }
    let mut position = same;
    'members: while position < members.len() {
        let (key, value) = &members[position];
        let (other_key, other) = &others[position];
        if key != other_key {
            return Compared::Known(false);
        }
        position += 1;
        let outer = Comparing::Objects(members, others, position);
        match begin(value, other) {
            Compared::Known(true) => continue,
            Compared::Known(false) => return Compared::Known(false),
            Compared::Open(inner) => return Compared::Open((inner, outer)),
        }
    }
    Compared::Known(true)
}
