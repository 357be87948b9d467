// What a path leads to in a value.
ghost use Rattle.std.specs.Prelude.{◌≡◌, ◌∷◌, [], option_map, IfSome, None};
ghost use Rattle.sonic_owned.specs.Forms.{Form};
ghost use Rattle.sonic_owned.specs.Leading.{item_in, LeadsTo};
ghost use Rattle.sonic_owned.specs.Views.{form};
ghost use Rattle.sonic_owned.specs.Seen.{view_form};
ghost use Rattle.sonic_owned.specs.Internal.Seen.{IsStep};
ghost use Rattle.sonic_pointer.specs.Nodes.{node_of, path_of};

use super::{Node, OwnedLazyValue};
use crate::raw::RawValue;
use crate::view::{OwnedView, look_into};
use sonic_pointer::PointerNode;

// What comes of a node at a value.
enum Step<'a> {
    // It leads to an item of the level.
    Item(&'a OwnedLazyValue),
    // The value isn't opened.
    Unopened(&'a RawValue),
    // It leads nowhere.
    Nowhere,
}

impl OwnedLazyValue {
    /// The item that a node names: the value of the first member with the key, or the element of the
    /// index. `None` where there is none, or the value is of another kind. No memory is taken.
    pub fn get(&self, node: PointerNode<'_>) -> Option<OwnedView<'_>>
        ensures some { IfSome result (λ seen. LeadsTo (node_of node.entry ∷ []) (form self.now) (view_form seen)) }
        ensures none { result ≡ None → (g : Form) → ¬ LeadsTo (node_of node.entry ∷ []) (form self.now) g }
    {
        self.pointer(&[node])
    }

    /// The value to which a path leads in this one, however far it is opened (compare RFC 6901,
    /// section 4). `None` where it leads to none. No memory is taken.
    pub fn pointer(&self, path: &[PointerNode<'_>]) -> Option<OwnedView<'_>>
        ensures some { IfSome result (λ seen. LeadsTo (path_of path.now) (form self.now) (view_form seen)) }
        ensures none { result ≡ None → (g : Form) → ¬ LeadsTo (path_of path.now) (form self.now) g }
    {
        let mut value = self;
        let mut passed = 0;
        'levels: while passed < path.len() {
            match value.step(path[passed]) {
                Step::Item(item) => value = item,
                Step::Unopened(raw) => return look_into(&raw.as_lazy(), &path[passed..]),
                Step::Nowhere => return None,
            }
            passed += 1;
        }
        Some(OwnedView::Node(value))
    }

    // What comes of a node.
    fn step(&self, node: PointerNode<'_>) -> Step<'_>
        ensures { IsStep (node_of node.entry) (form self.now) result }
    {
        if let Node::Raw(raw) = &self.node {
            return Step::Unopened(raw);
        }
        match self.item(node) {
            Some(item) => Step::Item(item),
            None => Step::Nowhere,
        }
    }

    // The item of a level that a node names.
    fn item(&self, node: PointerNode<'_>) -> Option<&OwnedLazyValue>
        ensures { option_map (λ item. form item.now) result ≡ item_in (node_of node.entry) (form self.now) }
    {
        match (&self.node, node) {
            (Node::Array(level), PointerNode::Index(i)) => level.at(i),
            (Node::Object(level), PointerNode::Key(key)) => {
                let i = level.first_of_key(key)?;
                let (_, value) = level.at(i)?;
                Some(value)
            }
            _ => None,
        }
    }
}
