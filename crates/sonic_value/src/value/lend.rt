// Parts that are lent to be changed.
ghost use Rattle.std.specs.Borrow.{sem, LendsIf, LendsSo};
ghost use Rattle.std.specs.Prelude.{◌≡◌, ◌≢◌, ◌∷◌, ◌==◌, [], length, drop, map, option_map, IfSome, OnSome, None};
ghost use Rattle.sonic_owned.specs.TreePuts.{change_at, change_of, put};
ghost use Rattle.sonic_pointer.specs.Nodes.{node_of, path_of};
ghost use Rattle.sonic_text.specs.TreePaths.{child, leads, element_at, member_of};
ghost use Rattle.sonic_text.specs.Trees.{Items, Tree};
ghost use Rattle.sonic_text.specs.Trees.Tree.{container};
ghost use Rattle.sonic_text.specs.declared.kind.Kind.TheVariants.{Array as KArray, Object as KObject};
ghost use Rattle.sonic_value.specs.Internal.Keys.{seen};
ghost use Rattle.sonic_value.specs.Internal.Loans.{AtFirst};
ghost use Rattle.sonic_value.specs.Rows.{array_row, object_row};
ghost use Rattle.sonic_value.specs.Views.{tree, elements_of, members_of, array_in, object_in};
ghost use Rattle.sonic_value.specs.contracts.value.Value.{the_row as value_row};
ghost use Rattle.sonic_value.specs.declared.value.Value.{Array, Object};

use super::Value;
use super::look_up::first_of_key;
use sonic_pointer::PointerNode;

impl Value {
    /// The item that a node names, to be changed: the value of the first member with the key, or the
    /// element of the index. `None` where there is none, or the value is of another kind.
    ///
    /// Once the loan ends the value has what was left in the item's place.
    ///
    /// ```text
    /// // of {"a":1,"b":2}
    /// if let Some(item) = value.get_mut(PointerNode::Key("b")) {
    ///     *item = Value::Null;
    /// }
    /// // it is {"a":1,"b":null}
    /// ```
    pub fn get_mut(&mut self, node: PointerNode<'_>) -> Option<&mut Value>
        ensures* back { sem 𝓛 (LendsSo value_row value_row self.entry result
            (λ m w. OnSome result (tree m ≡ put (node_of node.entry ∷ []) (tree w) (tree self.old)))
            (λ m. m ≡ self.old)) }
        ensures value { option_map (λ found. tree found.now) result
            ≡ child (node_of node.entry) (tree self.old) }
    {
        lend_item(self, node)
    }

    /// The value to which a path leads in this one, to be changed (compare RFC 6901, section 4).
    /// `None` where it leads to none. A path may have any length.
    ///
    /// Once the loan ends the value has what was left in the part's place.
    ///
    /// ```text
    /// // of {"a":[0,{"b":true}]}
    /// if let Some(part) = value.pointer_mut(&pointer!["a", 1, "b"]) {
    ///     *part = Value::Null;
    /// }
    /// // it is {"a":[0,{"b":null}]}
    /// ```
    pub fn pointer_mut(&mut self, path: &[PointerNode<'_>]) -> Option<&mut Value>
        ensures* back { sem 𝓛 (LendsSo value_row value_row self.entry result
            (λ m w. OnSome result (tree m ≡ put (path_of path.now) (tree w) (tree self.old)))
            (λ m. m ≡ self.old)) }
        ensures value { option_map (λ found. tree found.now) result
            ≡ leads (tree self.old) (path_of path.now) }
    {
        if ends(path) {
            return Some(self);
        }
        match lend_first(self, path) {
            Some(item) => item.pointer_mut(after_first(path)),
            None => None,
        }
    }

    /// The elements, to be changed, and `None` of every other kind.
    ///
    /// Once the loan ends the value is the array that was left.
    ///
    /// ```text
    /// if let Some(elements) = value.as_array_mut() {
    ///     elements.clear();
    /// }
    /// ```
    pub fn as_array_mut(&mut self) -> Option<&mut Vec<Value>>
        ensures* back { sem 𝓛 (LendsIf value_row array_row self.entry result Array self.old) }
        ensures value { option_map (λ elements. elements.now) result ≡ array_in self.old }
    {
        match self {
            Value::Array(elements) => Some(elements),
            _ => None,
        }
    }

    /// The members, to be changed, and `None` of every other kind.
    ///
    /// Once the loan ends the value is the object that was left.
    ///
    /// ```text
    /// if let Some(members) = value.as_object_mut() {
    ///     members.clear();
    /// }
    /// ```
    pub fn as_object_mut(&mut self) -> Option<&mut Vec<(String, Value)>>
        ensures* back { sem 𝓛 (LendsIf value_row object_row self.entry result Object self.old) }
        ensures value { option_map (λ members. members.now) result ≡ object_in self.old }
    {
        match self {
            Value::Object(members) => Some(members),
            _ => None,
        }
    }
}

// The element at a position.
fn element_mut(elements: &mut Vec<Value>, i: usize) -> Option<&mut Value>
    ensures* back { sem 𝓛 (LendsSo array_row value_row elements.entry result
        (λ m w. IfSome result (λ lent. (elements_of (map tree m.items)
        ≡ change_at i (λ _. tree w) (elements_of (map tree elements.old.items)))
        × (w ≡ lent.now → m ≡ elements.old)))
        (λ m. m ≡ elements.old)) }
    ensures value { option_map (λ found. tree found.now) result
        ≡ element_at i (elements_of (map tree elements.old.items)) }
{
    elements.get_mut(i)
}

// The value of the first member with a key.
fn member_mut<'a>(members: &'a mut Vec<(String, Value)>, key: &str) -> Option<&'a mut Value>
    ensures* back { sem 𝓛 (LendsSo object_row value_row members.entry result
        (λ m w. IfSome result (λ lent. (members_of (seen m.items)
        ≡ change_of key.now (λ _. tree w) (members_of (seen members.old.items)))
        × (w ≡ lent.now → m ≡ members.old)))
        (λ m. m ≡ members.old)) }
    ensures value { option_map (λ found. tree found.now) result
        ≡ member_of key.now (members_of (seen members.old.items)) }
{
    match first_of_key(members, key) {
        Some(i) => match members.get_mut(i) {
            Some(member) => Some(&mut member.1),
            None => None,
        },
        None => None,
    }
}

// A value that lends the list that it holds.
//
// The borrow checker proves what is lent of a type by way of this trait, and not what is lent of a
// value as a value.
pub(crate) trait Holds {
    // The tree of the value.
    ghost shown: { Self → Tree };

    // The elements, of an array.
    fn elements<'a>(&'a mut self) -> Option<&'a mut Vec<Value>>
        ensures* back { sem 𝓛 (LendsSo Self.row array_row self.entry result
            (λ m w. IfSome result (λ lent. (shown m ≡ container KArray (elements_of (map tree w.items)))
            × (w ≡ lent.now → m ≡ self.old)))
            (λ m. m ≡ self.old)) }
        ensures some { IfSome result (λ lent.
            shown self.old ≡ container KArray (elements_of (map tree lent.now.items))) }
        ensures none { result ≡ None → (xs : Items) → shown self.old ≢ container KArray xs };

    // The members, of an object.
    fn members<'a>(&'a mut self) -> Option<&'a mut Vec<(String, Value)>>
        ensures* back { sem 𝓛 (LendsSo Self.row object_row self.entry result
            (λ m w. IfSome result (λ lent. (shown m ≡ container KObject (members_of (seen w.items)))
            × (w ≡ lent.now → m ≡ self.old)))
            (λ m. m ≡ self.old)) }
        ensures some { IfSome result (λ lent.
            shown self.old ≡ container KObject (members_of (seen lent.now.items))) }
        ensures none { result ≡ None → (xs : Items) → shown self.old ≢ container KObject xs };
}

impl Holds for Value {
    ghost shown = { tree };

    fn elements<'a>(&'a mut self) -> Option<&'a mut Vec<Value>> {
        self.as_array_mut()
    }

    fn members<'a>(&'a mut self) -> Option<&'a mut Vec<(String, Value)>> {
        self.as_object_mut()
    }
}

// The item that a node names.
pub(crate) fn lend_item<'a, A: Holds>(
    value: &'a mut A,
    node: PointerNode<'_>,
) -> Option<&'a mut Value>
    ensures* back { sem 𝓛 (LendsSo A.row value_row value.entry result
        (λ m w. IfSome result (λ lent. (A.Holds.shown m
        ≡ put (node_of node.entry ∷ []) (tree w) (A.Holds.shown value.old))
        × (w ≡ lent.now → m ≡ value.old)))
        (λ m. m ≡ value.old)) }
    ensures value { option_map (λ found. tree found.now) result
        ≡ child (node_of node.entry) (A.Holds.shown value.old) }
{
    match node {
        PointerNode::Index(i) => match value.elements() {
            Some(elements) => element_mut(elements, i),
            None => None,
        },
        PointerNode::Key(key) => match value.members() {
            Some(members) => member_mut(members, key),
            None => None,
        },
    }
}

// Whether no node is left of a path.
fn ends(path: &[PointerNode<'_>]) -> bool
    ensures { result ≡ (length path.now == 0) }
{
    path.is_empty()
}

// A path without its first node.
fn after_first<'s, 'p>(path: &'s [PointerNode<'p>]) -> &'s [PointerNode<'p>]
    ensures { result.now ≡ drop 1 path.now }
{
    if path.is_empty() {
        return path;
    }
    &path[1..]
}

// The item that the first node of a path names, and `None` of the empty path.
fn lend_first<'a, A: Holds>(value: &'a mut A, path: &[PointerNode<'_>]) -> Option<&'a mut Value>
    ensures* back { sem 𝓛 (LendsSo A.row value_row value.entry result
        (λ m w. IfSome result (λ lent. AtFirst path.now (λ node. A.Holds.shown m
        ≡ put (node ∷ []) (tree w) (A.Holds.shown value.old))
        × (w ≡ lent.now → m ≡ value.old)))
        (λ m. m ≡ value.old)) }
    ensures value { AtFirst path.now (λ node. option_map (λ found. tree found.now) result
        ≡ child node (A.Holds.shown value.old)) }
{
    if path.is_empty() {
        return None;
    }
    lend_item(value, path[0])
}
