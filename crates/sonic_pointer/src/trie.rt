// A tree as its calls read it.
ghost use Rattle.std.specs.Prelude.{◌≡◌, ◌≢◌, ◌⊎◌, ℕ, ◌<◌, ◌≤◌, ◌↔◌, IsTrue, IfOk, IfErr, IfSome, IfNone, Some, length, slice_get};
ghost use Rattle.sonic_text.specs.Paths.{Node, Path, key, index};
ghost use Rattle.sonic_pointer.specs.Nodes.{node_of};
ghost use Rattle.sonic_pointer.specs.Paths.{HasNextNode, IsMixed};
ghost use Rattle.sonic_pointer.specs.Internal.Tries.{entry_at, prefix_at, label_at, IsChildVertex, IsGap};

use crate::fault::PathError;
use crate::node::PointerNode;
use crate::owned::Steps;
use crate::pieces::Pieces;
use crate::target::Target;
use crate::vertex::Vertex;
use std::cmp::Ordering;

// The parts of a tree, borrowed: its paths end at these vertices.
#[derive(Clone, Copy)]
pub(crate) struct Trie<'t> {
    pub(crate) ends: &'t [usize],
    pub(crate) root: &'t Vertex,
    pub(crate) vertices: &'t [Vertex],
}

// Where a path leaves a tree: after the vertex `at`, whose prefix is the first `depth` nodes of
// the path, and whose children would have the next node at `position`.
#[derive(Clone, Copy)]
pub(crate) struct InsertionPoint {
    pub(crate) at: usize,
    pub(crate) depth: usize,
    pub(crate) position: usize,
}

// Which of the places from `low` to before `high` is looked at next: the one that is near, then the one
// before it, and else the middle.
#[inline(always)]
fn probe(low: usize, high: usize, near: usize) -> usize
    requires { low < high }
    ensures { (low ≤ result) × (result < high) }
{
    if low <= near && near < high {
        return near;
    }
    if high == near {
        return high - 1;
    }
    low + (high - low) / 2
}

impl<'t> Trie<'t> {
    ghost use Rattle.sonic_pointer.specs.Internal.Owned.{steps_of};
    ghost use Rattle.sonic_pointer.specs.Internal.Targets.{IsTarget};
    ghost use Rattle.sonic_pointer.specs.Internal.TrieFields.{entries_of, HoldsTree, trie_paths, trie_spots, trie_labels, AreKids, HasOtherKind, IsInsertionPoint};

    // The vertex with this number, 0 for the root.
    #[inline(always)]
    pub(crate) fn vertex(&self, at: usize) -> &'t Vertex
        requires { at < length (entries_of self.now) }
        ensures { result.now ≡ entry_at (entries_of self.now) at }
    {
        if at == 0 {
            return self.root;
        }
        self.vertex_below(at)
    }

    // The same where it isn't the root's.
    #[inline(always)]
    fn vertex_below(&self, at: usize) -> &'t Vertex
        requires below { 0 < at }
        requires inside { at < length (entries_of self.now) }
        ensures { result.now ≡ entry_at (entries_of self.now) at }
    {
        let vertices: &'t [Vertex] = self.vertices;
        &vertices[at - 1]
    }

    // The node by which a child follows its parent.
    #[inline(always)]
    pub(crate) fn label(&self, at: usize) -> PointerNode<'t>
        requires trie { HoldsTree self.now }
        requires step { (prefix : Path) × IsChildVertex (trie_spots self.now) prefix at }
        ensures { node_of result ≡ label_at (trie_spots self.now) at }
    {
        let vertex = self.vertex_below(at);
        vertex.node()
    }

    // The numbers of the children of the vertex with this number.
    #[inline(always)]
    pub(crate) fn children(&self, at: usize) -> &'t Pieces
        requires trie { HoldsTree self.now }
        requires inside { at < length (entries_of self.now) }
        ensures { AreKids self.now at result.now }
    {
        let vertex: &'t Vertex = self.vertex(at);
        vertex.children()
    }

    // The node of the first child of the vertex with this number.
    #[inline(always)]
    pub(crate) fn first(&self, at: usize) -> Option<PointerNode<'t>>
        requires trie { HoldsTree self.now }
        requires inside { at < length (entries_of self.now) }
        ensures some { IfSome result (λ node.
            HasNextNode (trie_paths self.now) (prefix_at (trie_spots self.now) at) (node_of node)) }
        ensures none { IfNone result ((node : Node)
            → ¬ HasNextNode (trie_paths self.now) (prefix_at (trie_spots self.now) at) node) }
    {
        match self.children(at).first() {
            None => None,
            Some(child) => Some(self.label(child)),
        }
    }

    // The number of the child with this node, or where it would go, sooner where that is `near`.
    #[inline(always)]
    pub(crate) fn search(&self, at: usize, target: &Target<'_>, near: usize) -> Result<usize, usize>
        requires trie { HoldsTree self.now }
        requires inside { at < length (entries_of self.now) }
        requires known { (node : Node) × IsTarget target.now node }
        ensures found { IfOk result (λ i. (node : Node) → IsTarget target.now node
            → slice_get (trie_labels self.now at) i ≡ Some node) }
        ensures absent { IfErr result (λ i. (node : Node) → IsTarget target.now node
            → IsGap (trie_labels self.now at) node i) }
    {
        let children = self.children(at);
        let mut window = children.first_window();
        let mut low = 0;
        let mut high = children.len();
        while low < high {
            let middle = probe(low, high, near);
            let child = children.get_near(middle, &mut window);
            match target.compare(self.label(child)) {
                Ordering::Less => high = middle,
                Ordering::Equal => return Ok(middle),
                Ordering::Greater => low = middle + 1,
            }
        }
        Err(low)
    }

    // Before which index no child comes from one on that would be at this position: the next child's, and
    // the largest number where there is none.
    pub(crate) fn next_index(&self, at: usize, position: usize) -> usize
        requires trie { HoldsTree self.now }
        requires inside { at < length (entries_of self.now) }
        ensures wider { (number k : ℕ) → IsGap (trie_labels self.now at) (index number) position
            → number ≤ k → k < result → IsGap (trie_labels self.now at) (index k) position }
        ensures reached { (result ≡ usize.MAX)
            ⊎ (slice_get (trie_labels self.now at) position ≡ Some (index result)) }
    {
        let children = self.children(at);
        if position >= children.len() {
            return usize::MAX;
        }
        match self.label(children.get(position)) {
            PointerNode::Index(number) => number,
            PointerNode::Key(_) => usize::MAX,
        }
    }

    // The number of the child with the key of these bytes, of children that are few: each is looked at.
    #[inline(always)]
    pub(crate) fn look_through(&self, at: usize, children: &[usize], bytes: &[u8]) -> Option<usize>
        requires trie { HoldsTree self.now }
        requires children { AreKids self.now at children.now }
        ensures some { IfSome result (λ i. slice_get (trie_labels self.now at) i ≡ Some (key bytes.now)) }
        ensures none { IfNone result ((k : ℕ) → slice_get (trie_labels self.now at) k ≢ Some (key bytes.now)) }
    {
        let mut i = 0;
        while i < children.len() {
            if self.label(children[i]).is_key_of(bytes) {
                return Some(i);
            }
            i += 1;
        }
        None
    }

    // Whether some node of the other kind follows the vertex.
    fn mixes(&self, at: usize, node: PointerNode<'_>) -> bool
        requires trie { HoldsTree self.now }
        requires inside { at < length (entries_of self.now) }
        ensures { IsTrue result ↔ HasOtherKind self.now at (node_of node.entry) }
    {
        match self.first(at) {
            None => false,
            Some(first) => first.is_key() != node.is_key(),
        }
    }

    // The path leaves the tree here, unless its next node is of another kind than those that follow.
    fn point_at(
        &self,
        at: usize,
        depth: usize,
        position: usize,
        node: PointerNode<'_>,
    ) -> Result<InsertionPoint, PathError>
        requires trie { HoldsTree self.now }
        requires inside { at < length (entries_of self.now) }
        ensures ok { IfOk result (λ point. (point ≡ record { at = at; depth = depth; position = position })
            × ¬ HasOtherKind self.now at (node_of node.entry)) }
        ensures err { IfErr result (λ error.
            (error ≡ PathError.Mixed) × HasOtherKind self.now at (node_of node.entry)) }
    {
        if self.mixes(at, node) {
            return Err(PathError::Mixed);
        }
        Ok(InsertionPoint {
            at,
            depth,
            position,
        })
    }

    // Where the path leaves the tree, unless it mixes with a path of it.
    pub(crate) fn walk(&self, path: &Steps<'_>) -> Result<InsertionPoint, PathError>
        requires { HoldsTree self.now }
        ensures ok { IfOk result (λ point.
            IsInsertionPoint (trie_paths self.now) (entries_of self.now) (steps_of path.now) point) }
        ensures err { IfErr result (λ error.
            (error ≡ PathError.Mixed) × IsMixed (trie_paths self.now) (steps_of path.now)) }
    {
        let mut at = 0;
        for depth in 0..path.len() {
            let node = path.node(depth);
            let children = self.children(at);
            // The last one is looked at first, as paths often come in rising order.
            match self.search(at, &Target::Node(node), children.len()) {
                Ok(i) => at = children.get(i),
                Err(position) => return self.point_at(at, depth, position, node),
            }
        }
        Ok(InsertionPoint {
            at,
            depth: path.len(),
            position: 0,
        })
    }
}
