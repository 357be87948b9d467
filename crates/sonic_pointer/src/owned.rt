// Paths that own their keys.
ghost use Rattle.std.specs.Prelude.{◌≡◌, ◌<◌, ◌∷◌, ◌++◌, [], IfOk, OnOk, OnErr, length, map, slice_index_or};
ghost use Rattle.sonic_text.specs.Paths.{index};
ghost use Rattle.sonic_pointer.specs.Nodes.{node_of, path_of, owned_node};

use crate::node::PointerNode;
use std::alloc::{AllocError, Global};
use std::marker::Model;

/// One step of a path, which owns its key.
#[derive(Debug, Drop)]
pub enum OwnedNode {
    Key(String),
    Index(usize),
}

/// A path that owns its keys. A clause sees it as the list of its nodes.
///
/// It lends its nodes to whoever follows it, and `PointerTree::add_owned_path` takes it as it is:
///
/// ```text
/// let mut path = OwnedPath::new(alloc);
/// path.push(OwnedNode::Key(String::from_str(alloc, "a")?))?;
/// path.push(OwnedNode::Index(1))?;
/// assert_eq!(rt; path.nodes(alloc)?.as_slice(), &pointer!["a", 1]);
/// ```
#[derive(Debug, Drop)]
pub struct OwnedPath {
    nodes: Vec<OwnedNode>,
}

impl Model for OwnedPath {
    ghost use Rattle.std.specs.Prelude.{List};
    ghost use Rattle.sonic_text.specs.Paths.{Node};

    ghost Value = { List Node };

    ghost use Rattle.sonic_pointer.specs.Internal.Owned.{owned_path};

    ghost view = { owned_path };
}

impl OwnedNode {
    // A copy of the node.
    fn of(alloc: Global, node: PointerNode<'_>) -> Result<OwnedNode, AllocError>
        ensures { IfOk result (λ made. owned_node made ≡ node_of node.entry) }
    {
        match node {
            PointerNode::Key(text) => Ok(OwnedNode::Key(String::from_str(alloc, text)?)),
            PointerNode::Index(number) => Ok(OwnedNode::Index(number)),
        }
    }

    // The same node, whose key is borrowed.
    pub(crate) fn lend(&self) -> PointerNode<'_>
        ensures { node_of result ≡ owned_node self.now }
    {
        match self {
            OwnedNode::Key(text) => PointerNode::Key(text.as_str()),
            OwnedNode::Index(number) => PointerNode::Index(*number),
        }
    }
}

impl OwnedPath {
    /// The path of no node. It takes no memory.
    pub fn new(alloc: Global) -> OwnedPath
        ensures { result ≡ [] }
    {
        let nodes = Vec::new(alloc);
        OwnedPath { nodes }
    }

    /// A copy of a path.
    ///
    /// The only error is that memory ran out. Of `&pointer!["a", 1]` it has the nodes of `["a", 1]`.
    pub fn from_nodes(alloc: Global, path: &[PointerNode<'_>]) -> Result<OwnedPath, AllocError>
        ensures { IfOk result (λ made. made ≡ path_of path.now) }
    {
        let mut nodes = Vec::new(alloc);
        for node in path {
            nodes.push(OwnedNode::of(alloc, *node)?)?;
        }
        Ok(OwnedPath { nodes })
    }

    /// The number of nodes. For the path of `["a", 1]` it is 2.
    pub fn len(&self) -> usize
        ensures { result ≡ length self.now }
    {
        self.nodes.len()
    }

    /// The nodes in order, whose keys are borrowed from this path.
    ///
    /// The only error is that memory ran out.
    pub fn nodes(&self, alloc: Global) -> Result<Vec<PointerNode<'_>>, AllocError>
        ensures { IfOk result (λ nodes. path_of nodes.items ≡ self.now) }
    {
        let mut nodes = Vec::new(alloc);
        for node in &self.nodes {
            nodes.push(node.lend())?;
        }
        Ok(nodes)
    }

    /// Appends a node, whose key isn't copied.
    ///
    /// The only error is that memory ran out.
    pub fn push(&mut self, node: OwnedNode) -> Result<(), AllocError>
        ensures ok { OnOk result (self.new ≡ self.old ++ owned_node node ∷ []) }
        ensures err { OnErr result (self.new ≡ self.old) }
    {
        self.nodes.push(node)?;
        Ok(())
    }

    // The nodes, which own their keys.
    pub(crate) fn into_nodes(self) -> Vec<OwnedNode>
        ensures { map owned_node result.items ≡ self }
    {
        let OwnedPath { nodes } = self;
        nodes
    }

    // The node at a position, from 0.
    pub(crate) fn node(&self, i: usize) -> PointerNode<'_>
        requires { i < length self.now }
        ensures { node_of result ≡ slice_index_or self.now i (index 0) }
    {
        self.nodes[i].lend()
    }
}

// What a tree is walked along: a path that is lent node by node, or one that owns its keys.
#[derive(Clone, Copy)]
pub(crate) enum Steps<'p> {
    Lent(&'p [PointerNode<'p>]),
    Owned(&'p OwnedPath),
}

impl<'p> Steps<'p> {
    ghost use Rattle.sonic_pointer.specs.Internal.Owned.{steps_of};

    pub(crate) fn len(&self) -> usize
        ensures { result ≡ length (steps_of self.now) }
    {
        match self {
            Steps::Lent(nodes) => nodes.len(),
            Steps::Owned(path) => path.len(),
        }
    }

    pub(crate) fn node(&self, i: usize) -> PointerNode<'p>
        requires { i < length (steps_of self.now) }
        ensures { node_of result ≡ slice_index_or (steps_of self.now) i (index 0) }
    {
        match self {
            Steps::Lent(nodes) => node_of_slice(*nodes, i),
            Steps::Owned(path) => path.node(i),
        }
    }
}

fn node_of_slice<'p>(nodes: &'p [PointerNode<'p>], i: usize) -> PointerNode<'p>
    requires { i < length nodes.now }
    ensures { node_of result ≡ slice_index_or (path_of nodes.now) i (index 0) }
{
    nodes[i]
}
