// Trees of paths.
ghost use Rattle.std.specs.Prelude.{◌≡◌, ◌<◌, ◌≤◌, ◌∷◌, ◌++◌, ◌↔◌, [], Err, OnOk, OnErr, length};
ghost use Rattle.std.specs.List.{All};
ghost use Rattle.sonic_pointer.specs.Nodes.{path_of};
ghost use Rattle.sonic_pointer.specs.Paths.{IsMixed, IsShort, IsUnmixed};

use crate::fault::PathError;
use crate::insert::{Parts, insert_path};
use crate::node::PointerNode;
use crate::owned::{OwnedPath, Steps};
use crate::vertex::Vertex;
use crate::view::TreeView;
use std::alloc::Global;
use std::marker::Model;

/// A list of paths, kept so that all of them can be followed at once.
///
/// Paths may repeat. A clause sees the list; each path in it has its number from 0 on. The text
/// that `Debug` prints isn't promised.
///
/// ```text
/// let mut tree = PointerTree::new(alloc);
/// tree.add_path(alloc, &pointer!["a", 1])?;
/// tree.add_path(alloc, &pointer!["a", 0])?;
/// assert_eq!(rt; tree.size(), 2);
/// assert_eq!(rt; tree.add_path(alloc, &pointer!["a", "b"]), Err(PathError::Mixed));
/// ```
#[derive(Debug, Drop)]
pub struct PointerTree {
    parts: Parts,
}

impl Model for PointerTree {
    ghost use Rattle.std.specs.Prelude.{List};
    ghost use Rattle.sonic_text.specs.Paths.{Node};

    ghost Value = { List (List Node) };

    ghost use Rattle.sonic_pointer.specs.Internal.Trees.{IsPointerTree};
    ghost use Rattle.sonic_pointer.specs.Internal.TrieFields.{kept_paths};

    ghost view = { λ tree. kept_paths tree.parts };

    ghost invariant = { IsPointerTree };
}

/// The most nodes that a path of a tree has.
pub const MAX_NODES: usize = 255;

impl PointerTree {
    /// The tree of no path. It takes no memory.
    pub fn new(alloc: Global) -> PointerTree
        ensures { result ≡ [] }
    {
        let parts = Parts {
            ends: Vec::new(alloc),
            root: Vertex::new_root(alloc),
            vertices: Vec::new(alloc),
        };
        PointerTree { parts }
    }

    /// Appends the path, whose number is the size so far.
    ///
    /// It is refused, first, with more than `MAX_NODES` nodes. Then the nodes that follow one prefix
    /// have to be of one kind: after `["a", 1]` the path `["a", "b"]` is `Mixed`, and `["a"]`
    /// isn't. A refused path changes nothing.
    pub fn add_path(&mut self, alloc: Global, path: &[PointerNode<'_>]) -> Result<(), PathError>
        ensures ok { OnOk result (self.new ≡ self.old ++ path_of path.now ∷ []) }
        ensures err { OnErr result (self.new ≡ self.old) }
        ensures too_long { (result ≡ Err PathError.TooLong) ↔ (255 < length path.now) }
        ensures mixed { (result ≡ Err PathError.Mixed)
            ↔ ((length path.now ≤ 255) × IsMixed self.old (path_of path.now)) }
    {
        if path.len() > MAX_NODES {
            return Err(PathError::TooLong);
        }
        let point = self.parts.trie().walk(&Steps::Lent(path))?;
        let copy = OwnedPath::from_nodes(alloc, path)?;
        insert_path(alloc, &mut self.parts, point, copy)?;
        Ok(())
    }

    /// Appends a path that owns its keys, as [`add_path`](PointerTree::add_path) does, and copies
    /// none of them. A refused path is let go.
    ///
    /// After the path of `["a", 1]` the one of `["a", "b"]` is `Mixed`.
    pub fn add_owned_path(&mut self, alloc: Global, path: OwnedPath) -> Result<(), PathError>
        ensures ok { OnOk result (self.new ≡ self.old ++ path ∷ []) }
        ensures err { OnErr result (self.new ≡ self.old) }
        ensures too_long { (result ≡ Err PathError.TooLong) ↔ (255 < length path) }
        ensures mixed { (result ≡ Err PathError.Mixed)
            ↔ ((length path ≤ 255) × IsMixed self.old path) }
    {
        if path.len() > MAX_NODES {
            return Err(PathError::TooLong);
        }
        let point = self.parts.trie().walk(&Steps::Owned(&path))?;
        insert_path(alloc, &mut self.parts, point, path)?;
        Ok(())
    }

    /// The number of paths, of which equal ones count each.
    pub fn size(&self) -> usize
        ensures { result ≡ length self.now }
    {
        self.parts.ends.len()
    }

    /// The place of the empty prefix.
    pub fn view(&self) -> TreeView<'_>
        ensures paths { result.paths ≡ self.now }
        ensures prefix { result.prefix ≡ [] }
        ensures unmixed { IsUnmixed self.now }
        ensures short { All IsShort self.now }
    {
        TreeView::of_root(self.parts.trie())
    }
}
