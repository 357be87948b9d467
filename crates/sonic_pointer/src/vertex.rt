// The vertices of a tree.
ghost use Rattle.std.specs.Prelude.{◌≡◌, ◌+◌, ◌≤◌, ◌∷◌, ◌++◌, [], OnOk, OnErr, length};
ghost use Rattle.sonic_text.specs.Paths.{index};
ghost use Rattle.sonic_pointer.specs.Nodes.{node_of, owned_node};
ghost use Rattle.sonic_pointer.specs.Internal.Tries.{with_order, with_child};

use crate::node::PointerNode;
use crate::owned::OwnedNode;
use crate::pieces::{INLINE, Pieces};
use smallvec::SmallVec;
use std::alloc::{AllocError, Global};
use std::marker::Model;

// A vertex of a tree: its prefix is that of its parent and one node more. Of the root neither says anything.
// No call reads the number of the parent: by it the vertices say which paths the tree has.
#[derive(Debug, Drop)]
pub(crate) struct Vertex {
    parent: usize,
    node: OwnedNode,
    orders: SmallVec<usize, INLINE>,
    children: Pieces,
}

impl Model for Vertex {
    ghost use Rattle.sonic_pointer.specs.Internal.Tries.{Entry};

    ghost Value = { Entry };

    ghost use Rattle.sonic_pointer.specs.Internal.Vertices.{entry_of};

    ghost view = { entry_of };
}

impl Vertex {
    // The root of a tree without paths. It takes no memory.
    pub(crate) fn new_root(alloc: Global) -> Vertex
        ensures { result ≡ record { parent = 0; node = index 0; orders = []; children = [] } }
    {
        Vertex {
            parent: 0,
            node: OwnedNode::Index(0),
            orders: SmallVec::new(alloc),
            children: Pieces::new(alloc),
        }
    }

    // A vertex with one child. It takes no memory.
    pub(crate) fn with_child(alloc: Global, parent: usize, node: OwnedNode, child: usize) -> Vertex
        ensures { result ≡ record { parent = parent; node = owned_node node; orders = []; children = child ∷ [] } }
    {
        Vertex {
            parent,
            node,
            orders: SmallVec::new(alloc),
            children: Pieces::of_one(alloc, child),
        }
    }

    // The vertex where a path ends. It takes no memory.
    pub(crate) fn with_order(alloc: Global, parent: usize, node: OwnedNode, order: usize) -> Vertex
        ensures { result ≡ record { parent = parent; node = owned_node node; orders = order ∷ []; children = [] } }
    {
        let mut orders = SmallVec::new(alloc);
        orders.push_reserved(order);
        Vertex {
            parent,
            node,
            orders,
            children: Pieces::new(alloc),
        }
    }

    // The node by which it follows its parent.
    pub(crate) fn node(&self) -> PointerNode<'_>
        ensures { node_of result ≡ self.now.node }
    {
        self.node.lend()
    }

    pub(crate) fn orders(&self) -> &[usize]
        ensures { result.now ≡ self.now.orders }
    {
        self.orders.as_slice()
    }

    pub(crate) fn children(&self) -> &Pieces
        ensures { result.now ≡ self.now.children }
    {
        &self.children
    }

    pub(crate) fn add_order(&mut self, number: usize) -> Result<(), AllocError>
        ensures ok { OnOk result (self.new ≡ with_order self.old number) }
        ensures err { OnErr result (self.new ≡ self.old) }
    {
        self.orders.push(number)?;
        Ok(())
    }

    pub(crate) fn add_child(&mut self, position: usize, child: usize) -> Result<(), AllocError>
        requires { position ≤ length self.old.children }
        ensures ok { OnOk result (self.new ≡ with_child self.old position child) }
        ensures err { OnErr result (self.new ≡ self.old) }
    {
        self.children.insert(position, child)
    }
}
