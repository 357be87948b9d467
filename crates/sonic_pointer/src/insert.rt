// A path more in a tree: all memory is taken before anything changes.
ghost use Rattle.std.specs.Prelude.{◌≡◌, ◌+◌, ◌-◌, ◌<◌, ◌≤◌, ◌∷◌, ◌++◌, [], OnOk, OnErr, length, map, set, vec_len, vec_capacity};
ghost use Rattle.sonic_pointer.specs.Paths.{IsShort};
ghost use Rattle.sonic_pointer.specs.Internal.Tries.{entry_at, with_order, with_child, HasChain};
ghost use Rattle.sonic_pointer.specs.Nodes.{owned_node};
ghost use Rattle.sonic_pointer.specs.Internal.TrieFields.{kept_entries, kept_paths, entries_of, KeepsTree, IsInsertionPoint, Branches};

use crate::owned::{OwnedNode, OwnedPath};
use crate::trie::{InsertionPoint, Trie};
use crate::vertex::Vertex;
use std::alloc::{AllocError, Global};

// What a tree keeps: the vertices at which its paths end, and a vertex for each prefix of them, the empty
// one's apart.
#[derive(Debug, Drop)]
pub(crate) struct Parts {
    pub(crate) ends: Vec<usize>,
    pub(crate) root: Vertex,
    pub(crate) vertices: Vec<Vertex>,
}

impl Parts {
    // The same parts, borrowed.
    pub(crate) fn trie(&self) -> Trie<'_>
        ensures ends { result.ends.now ≡ self.now.ends.items }
        ensures entries { entries_of result ≡ kept_entries self.now }
    {
        Trie {
            ends: self.ends.as_slice(),
            root: &self.root,
            vertices: self.vertices.as_slice(),
        }
    }
}

// Appends a vertex for each node of a path below the depth where it leaves the tree.
fn push_chain(
    alloc: Global,
    vertices: &mut Vec<Vertex>,
    number: usize,
    point: InsertionPoint,
    nodes: Vec<OwnedNode>,
)
    requires short { point.depth < length nodes.items }
    requires room { vec_len vertices.old + (length nodes.items - point.depth) ≤ vec_capacity vertices.old }
    ensures { HasChain number point.at point.depth (map owned_node nodes.items)
        vertices.old.items vertices.new.items }
{
    let len = nodes.len();
    let mut parent = point.at;
    let mut above = 0;
    'nodes: for node in nodes {
        above += 1;
        if above <= point.depth {
            continue 'nodes;
        }
        let own = vertices.len() + 1;
        let vertex = if above < len {
            Vertex::with_child(alloc, parent, node, own + 1)
        } else {
            Vertex::with_order(alloc, parent, node, number)
        };
        vertices.push_reserved(vertex);
        parent = own;
    }
}

// One more path ends at the vertex with this number.
fn add_order(
    root: &mut Vertex,
    vertices: &mut Vec<Vertex>,
    at: usize,
    number: usize,
) -> Result<(), AllocError>
    requires { at ≤ vec_len vertices.old }
    ensures ok { OnOk result (root.new ∷ vertices.new.items
        ≡ set (root.old ∷ vertices.old.items) at
        (with_order (entry_at (root.old ∷ vertices.old.items) at) number)) }
    ensures err { OnErr result (root.new ∷ vertices.new.items ≡ root.old ∷ vertices.old.items) }
{
    if at == 0 {
        return root.add_order(number);
    }
    vertices[at - 1].add_order(number)
}

// The vertex with this number has one more child.
fn add_child(
    root: &mut Vertex,
    vertices: &mut Vec<Vertex>,
    at: usize,
    position: usize,
    child: usize,
) -> Result<(), AllocError>
    requires inside { at ≤ vec_len vertices.old }
    requires fits { position ≤ length (entry_at (root.old ∷ vertices.old.items) at).children }
    ensures ok { OnOk result (root.new ∷ vertices.new.items
        ≡ set (root.old ∷ vertices.old.items) at
        (with_child (entry_at (root.old ∷ vertices.old.items) at) position child)) }
    ensures err { OnErr result (root.new ∷ vertices.new.items ≡ root.old ∷ vertices.old.items) }
    ensures len { vec_len vertices.new ≡ vec_len vertices.old }
    ensures capacity { vec_capacity vertices.new ≡ vec_capacity vertices.old }
{
    if at == 0 {
        return root.add_child(position, child);
    }
    vertices[at - 1].add_child(position, child)
}

// The path ends at a vertex that is there.
fn end_path(parts: &mut Parts, at: usize) -> Result<(), AllocError>
    requires { at ≤ vec_len parts.old.vertices }
    ensures ends { OnOk result (parts.new.ends.items ≡ parts.old.ends.items ++ at ∷ []) }
    ensures vertices { OnOk result (kept_entries parts.new ≡ set (kept_entries parts.old) at
        (with_order (entry_at (kept_entries parts.old) at) (length parts.old.ends.items))) }
    ensures same_ends { OnErr result (parts.new.ends.items ≡ parts.old.ends.items) }
    ensures same_vertices { OnErr result (kept_entries parts.new ≡ kept_entries parts.old) }
{
    let number = parts.ends.len();
    parts.ends.reserve(1)?;
    add_order(&mut parts.root, &mut parts.vertices, at, number)?;
    parts.ends.push_reserved(at);
    Ok(())
}

// The path leaves the tree after a vertex, and new vertices follow.
fn branch_path(
    alloc: Global,
    parts: &mut Parts,
    point: InsertionPoint,
    path: OwnedPath,
) -> Result<(), AllocError>
    requires inside { point.at ≤ vec_len parts.old.vertices }
    requires fits { point.position
        ≤ length (entry_at (kept_entries parts.old) point.at).children }
    requires short { point.depth < length path }
    ensures ends { OnOk result (parts.new.ends.items
        ≡ parts.old.ends.items ++ vec_len parts.new.vertices ∷ []) }
    ensures vertices { OnOk result (Branches (length parts.old.ends.items) (kept_entries parts.old)
        (kept_entries parts.new) point path) }
    ensures same_ends { OnErr result (parts.new.ends.items ≡ parts.old.ends.items) }
    ensures same_vertices { OnErr result (kept_entries parts.new ≡ kept_entries parts.old) }
{
    let number = parts.ends.len();
    let first = parts.vertices.len() + 1;
    parts.ends.reserve(1)?;
    let InsertionPoint {
        at,
        depth,
        position,
    } = point;
    parts.vertices.reserve(path.len() - depth)?;
    add_child(&mut parts.root, &mut parts.vertices, at, position, first)?;
    let nodes = path.into_nodes();
    push_chain(alloc, &mut parts.vertices, number, point, nodes);
    parts.ends.push_reserved(parts.vertices.len());
    Ok(())
}

// Appends the path, which leaves the tree here; out of memory, nothing changes.
pub(crate) fn insert_path(
    alloc: Global,
    parts: &mut Parts,
    point: InsertionPoint,
    path: OwnedPath,
) -> Result<(), AllocError>
    requires tree { KeepsTree parts.old }
    requires point { IsInsertionPoint (kept_paths parts.old) (kept_entries parts.old) path point }
    requires short { IsShort path }
    ensures tree { KeepsTree parts.new }
    ensures ok { OnOk result (kept_paths parts.new ≡ kept_paths parts.old ++ path ∷ []) }
    ensures err { OnErr result (kept_paths parts.new ≡ kept_paths parts.old) }
{
    if point.depth == path.len() {
        return end_path(parts, point.at);
    }
    branch_path(alloc, parts, point, path)
}
