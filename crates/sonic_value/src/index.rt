// What names an item of a value.
ghost use Rattle.std.specs.Borrow.{sem, LendsSo, LendsSoOk};
ghost use Rattle.std.specs.Prelude.{◌≡◌, OnSome, ◌++◌, ◌∷◌, [], string_bytes, option_map, IfSome, IfNone, IfOk, IfErr, OnOk, OnErr, Ok, Some, IsTrue, IsFalse};
ghost use Rattle.sonic_error.specs.Errors.{IsPlainError};
ghost use Rattle.sonic_owned.specs.TreePuts.{put};
ghost use Rattle.sonic_pointer.specs.Nodes.{node_of, is_key};
ghost use Rattle.sonic_text.specs.Paths.{Node, key, index};
ghost use Rattle.sonic_text.specs.TreePaths.{child};
ghost use Rattle.sonic_text.specs.Trees.{Tree};
ghost use Rattle.sonic_text.specs.Trees.Tree.{null};
ghost use Rattle.sonic_value.specs.Indexing.{with_node, IsUnindexed};
ghost use Rattle.sonic_value.specs.Internal.Inserted.{IsInserted};
ghost use Rattle.sonic_value.specs.Internal.Keys.{seen};
ghost use Rattle.sonic_value.specs.Views.{tree};
ghost use Rattle.sonic_value.specs.contracts.value.Value.{the_row as value_row};

use crate::Value;
use crate::value::{Holds, lend_item};
use sonic_error::{Error, ErrorCode, Result};
use sonic_input::FastStr;
use sonic_pointer::PointerNode;
use std::alloc::Global;

mod sealed {
    pub trait Sealed {}
}

/// What names an item of a value: `usize` an element, `&str`, `&String` and `&FastStr` the first
/// member with a key, `PointerNode` either. A reference names what it refers to.
///
/// No other type can implement it.
pub trait Index: sealed::Sealed {
    // The node that it is.
    ghost node: { Self → Node };

    /// The item, and `None` where there is none, or the value is of another kind.
    fn value_index_into<'v>(&self, v: &'v Value) -> Option<&'v Value>
        ensures { option_map (λ found. tree found.now) result ≡ child (node self.now) (tree v.now) };

    /// The item, to be changed.
    ///
    /// Once the loan ends the value has what was left in the item's place.
    fn index_into_mut<'v>(&self, v: &'v mut Value) -> Option<&'v mut Value>
        ensures* back { sem 𝓛 (LendsSo value_row value_row v.entry result
            (λ m w. OnSome result (tree m ≡ put (node self.now ∷ []) (tree w) (tree v.old)))
            (λ m. m ≡ v.old)) }
        ensures value { option_map (λ found. tree found.now) result
            ≡ child (node self.now) (tree v.old) };

    /// The key, and `None` of an index.
    ///
    /// `"a".as_key()` is `Some("a")`.
    fn as_key(&self) -> Option<&str>
        ensures some { IfSome result (λ text. node self.now ≡ key text.now) }
        ensures none { IfNone result (IsFalse (is_key (node self.now))) };

    /// The index, and `None` of a key.
    ///
    /// `1.as_index()` is `Some(1)`.
    fn as_index(&self) -> Option<usize>
        ensures some { IfSome result (λ number. node self.now ≡ index number) }
        ensures none { IfNone result (IsTrue (is_key (node self.now))) };

    /// The item, to be changed. For a key that the object lacks, a member with `null` is appended
    /// first, and `null` is made an empty object before that. Once the loan ends the value has what
    /// was left in the item's place.
    ///
    /// The errors are `ErrorCode::GetIndexOutOfArray` of an index past the last element,
    /// `ErrorCode::UnexpectedVisitType` of a value of another kind, and `ErrorCode::NoMemory` where a
    /// member is to be appended. The value is unchanged then.
    ///
    /// ```text
    /// let mut value = Value::Null;
    /// *"a".index_or_insert(alloc, &mut value)? = Value::Bool(true);
    /// // it is {"a":true}
    /// ```
    fn index_or_insert<'v>(&self, alloc: Global, v: &'v mut Value) -> Result<&'v mut Value>
        ensures* back { sem 𝓛 (LendsSoOk value_row value_row v.entry result
            (λ m w. (base : Tree) × (with_node (node self.now) (tree v.old) ≡ Ok base)
            × (tree m ≡ put (node self.now ∷ []) (tree w) base))
            (λ m. tree m ≡ tree v.old)) }
        ensures value { IfOk result (λ lent. (base : Tree) × (with_node (node self.now) (tree v.old) ≡ Ok base)
            × (child (node self.now) base ≡ Some (tree lent.now))) }
        ensures err { IfErr result (IsUnindexed (node self.now) (tree v.old)) };
}

// What is an index or a key.
trait Names {
    // The node that it is.
    ghost named: { Self → Node };

    // The same as a step of a path.
    fn to_node(&self) -> PointerNode<'_>
        ensures { node_of result ≡ named self.now };
}

impl<T: Names> sealed::Sealed for T {}

impl<T: Names> Index for T {
    ghost node = { T.Names.named };

    fn value_index_into<'v>(&self, v: &'v Value) -> Option<&'v Value> {
        v.get(self.to_node())
    }

    fn index_into_mut<'v>(&self, v: &'v mut Value) -> Option<&'v mut Value> {
        v.get_mut(self.to_node())
    }

    fn as_key(&self) -> Option<&str> {
        self.to_node().as_key()
    }

    fn as_index(&self) -> Option<usize> {
        self.to_node().as_index()
    }

    fn index_or_insert<'v>(&self, alloc: Global, v: &'v mut Value) -> Result<&'v mut Value> {
        lend_or_insert(v, alloc, self.to_node())
    }
}

impl Names for usize {
    ghost named = { index };

    fn to_node(&self) -> PointerNode<'_> {
        PointerNode::Index(*self)
    }
}

impl Names for &str {
    ghost named = { λ text. key text.now };

    fn to_node(&self) -> PointerNode<'_> {
        PointerNode::Key(*self)
    }
}

impl Names for &String {
    ghost named = { λ text. key (string_bytes text.now) };

    fn to_node(&self) -> PointerNode<'_> {
        PointerNode::Key(self.as_str())
    }
}

impl Names for &FastStr {
    ghost named = { λ text. key text.now };

    fn to_node(&self) -> PointerNode<'_> {
        PointerNode::Key(self.as_str())
    }
}

impl Names for PointerNode<'_> {
    ghost named = { node_of };

    fn to_node(&self) -> PointerNode<'_> {
        *self
    }
}

impl<T: Names> Names for &T {
    ghost named = { λ named. T.Names.named named.now };

    fn to_node(&self) -> PointerNode<'_> {
        let inner: &T = self;
        inner.to_node()
    }
}

// A value to which members are appended.
trait Inserts: Holds {
    // Appends a member with `null` for a key that an object lacks.
    fn insert(&mut self, alloc: Global, node: PointerNode<'_>) -> Result<()>
        ensures ok { OnOk result (IsInserted (node_of node.entry) (Self.shown self.old) (Self.shown self.new)) }
        ensures err { IfErr result (IsUnindexed (node_of node.entry) (Self.shown self.old)) }
        ensures same { OnErr result (Self.shown self.new ≡ Self.shown self.old) };
}

impl Inserts for Value {
    fn insert(&mut self, alloc: Global, node: PointerNode<'_>) -> Result<()> {
        if self.get(node).is_some() {
            return Ok(());
        }
        let PointerNode::Key(name) = node else {
            return match self {
                Value::Array(_) => Err(Error::plain(ErrorCode::GetIndexOutOfArray)),
                _ => Err(Error::plain(ErrorCode::UnexpectedVisitType)),
            };
        };
        if let Some(members) = self.as_object_mut() {
            return append_null(members, alloc, name);
        }
        match self {
            Value::Null => {
                let mut members = Vec::new(alloc);
                append_null(&mut members, alloc, name)?;
                *self = Value::Object(members);
                Ok(())
            }
            _ => Err(Error::plain(ErrorCode::UnexpectedVisitType)),
        }
    }
}

// The item that a node names, where a member is appended for a key that is lacking.
fn lend_or_insert<'a, A: Inserts>(
    value: &'a mut A,
    alloc: Global,
    node: PointerNode<'_>,
) -> Result<&'a mut Value>
    ensures* back { sem 𝓛 (LendsSoOk A.row value_row value.entry result
        (λ m w. (base : Tree) × (with_node (node_of node.entry) (A.Holds.shown value.old) ≡ Ok base)
        × (A.Holds.shown m ≡ put (node_of node.entry ∷ []) (tree w) base))
        (λ m. A.Holds.shown m ≡ A.Holds.shown value.old)) }
    ensures value { IfOk result (λ lent. (base : Tree)
        × (with_node (node_of node.entry) (A.Holds.shown value.old) ≡ Ok base)
        × (child (node_of node.entry) base ≡ Some (tree lent.now))) }
    ensures err { IfErr result (IsUnindexed (node_of node.entry) (A.Holds.shown value.old)) }
{
    value.insert(alloc, node)?;
    match lend_item(value, node) {
        Some(item) => Ok(item),
        // What a node names is there now.
        None => unreachable!(),
    }
}

// Appends a member with `null`.
fn append_null(members: &mut Vec<(String, Value)>, alloc: Global, name: &str) -> Result<()>
    ensures ok { OnOk result (seen members.new.items ≡ seen members.old.items ++ (name.now, null) ∷ []) }
    ensures err { IfErr result (λ error. IsPlainError error ErrorCode.NoMemory) }
    ensures same { OnErr result (seen members.new.items ≡ seen members.old.items) }
{
    let Ok(name) = String::from_str(alloc, name) else {
        return Err(Error::plain(ErrorCode::NoMemory));
    };
    match members.push((name, Value::Null)) {
        Ok(()) => Ok(()),
        Err(_) => Err(Error::plain(ErrorCode::NoMemory)),
    }
}
