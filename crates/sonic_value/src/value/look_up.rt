// What a node or a path leads to in a value.
ghost use Rattle.std.specs.Prelude.{◌≡◌, ◌≢◌, ℕ, option_map, slice_get, IfSome, Some, None};
ghost use Rattle.sonic_pointer.specs.Nodes.{node_of, path_of};
ghost use Rattle.sonic_text.specs.TreePaths.{child, leads};
ghost use Rattle.sonic_value.specs.Internal.Keys.{seen, keys, IsFirstKey};
ghost use Rattle.sonic_value.specs.Views.{tree};

use super::Value;
use sonic_pointer::PointerNode;

impl Value {
    /// The item that a node names: the value of the first member with the key, or the element of the
    /// index. `None` where there is none, or the value is of another kind.
    ///
    /// ```text
    /// // of {"a":1,"a":2}
    /// assert!(rt; value.get(PointerNode::Key("a")).as_u64() == Some(1));
    /// ```
    pub fn get(&self, node: PointerNode<'_>) -> Option<&Value>
        ensures { option_map (λ found. tree found.now) result
            ≡ child (node_of node.entry) (tree self.now) }
    {
        match (self, node) {
            (Value::Array(elements), PointerNode::Index(i)) => elements.get(i),
            (Value::Object(members), PointerNode::Key(key)) => match first_of_key(members, key) {
                Some(i) => Some(&members[i].1),
                None => None,
            },
            _ => None,
        }
    }

    /// The value to which a path leads in this one (compare RFC 6901, section 4). `None` where it
    /// leads to none. A path may have any length.
    ///
    /// ```text
    /// // of {"a":[0,{"b":true}]}
    /// assert!(rt; value.pointer(&pointer!["a", 1, "b"]).as_bool() == Some(true));
    /// ```
    pub fn pointer(&self, path: &[PointerNode<'_>]) -> Option<&Value>
        ensures { option_map (λ found. tree found.now) result
            ≡ leads (tree self.now) (path_of path.now) }
    {
        let mut value = self;
        let mut passed = 0;
        'levels: while passed < path.len() {
            match value.get(path[passed]) {
                Some(item) => value = item,
                None => return None,
            }
            passed += 1;
        }
        Some(value)
    }
}

// The position of the first member with a key, and `None` where no member has it.
pub(super) fn first_of_key(members: &[(String, Value)], key: &str) -> Option<usize>
    ensures some { IfSome result (IsFirstKey key.now (keys (seen members.now))) }
    ensures none { result ≡ None → (p : ℕ) → slice_get (keys (seen members.now)) p ≢ Some key.now }
{
    let mut i = 0;
    while i < members.len() {
        if members[i].0.as_str() == key {
            return Some(i);
        }
        i += 1;
    }
    None
}
