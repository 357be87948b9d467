// What paths find in a lazy value.
ghost use Rattle.std.specs.Prelude.{◌∷◌, [], IfSome, IfNone};
ghost use Rattle.sonic_pointer.specs.Nodes.{node_of, path_of};
ghost use Rattle.sonic_lazy.specs.LazyValues.{raw_bytes};
ghost use Rattle.sonic_lazy.specs.Shown.{IsFoundIn, FindsNone};

use crate::lazyvalue::LazyValue;
use sonic_find::internal::{Cursor, locate};
use sonic_input::Read;
use sonic_pointer::PointerNode;

impl<'a> LazyValue<'a> {
    /// The item of an object or an array that a node names, without memory: the value of the first
    /// member with the key, or the element of the index. `None` where there is none, or the value
    /// is of another kind.
    ///
    /// Of the value `{"a":[1]}` the key `a` names `[1]`.
    pub fn get(&self, node: PointerNode<'_>) -> Option<LazyValue<'a>>
        ensures some { IfSome result (IsFoundIn (raw_bytes self.now) (node_of node.entry ∷ [])) }
        ensures none { IfNone result (FindsNone (raw_bytes self.now) (node_of node.entry ∷ [])) }
    {
        self.pointer(&[node])
    }

    /// The value to which a path leads in this one, without memory (compare RFC 6901, section 4).
    /// `None` where it leads to none. The empty path leads to the value itself.
    ///
    /// In the value `{"a":[1,2]}` the path `["a", 1]` leads to `2`.
    pub fn pointer(&self, path: &[PointerNode<'_>]) -> Option<LazyValue<'a>>
        ensures some { IfSome result (IsFoundIn (raw_bytes self.now) (path_of path.now)) }
        ensures none { IfNone result (FindsNone (raw_bytes self.now) (path_of path.now)) }
    {
        let raw = self.raw();
        let mut cursor = Cursor::unchecked(Read::of_slice(raw));
        match locate(&mut cursor, path) {
            Ok(found) => Some(LazyValue::whole(raw.part(found.start, found.end), found.escaped)),
            Err(_) => None,
        }
    }
}
