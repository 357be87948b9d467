// Vertices of a tree.
ghost use Rattle.std.specs.Prelude.{◌≡◌, ◌<◌, ◌∷◌, ◌++◌, ◌↔◌, ◌⊎◌, ℕ, List, [], Some, IfOk, IfErr, IfSome, IfNone, length, slice_get};
ghost use Rattle.sonic_text.specs.Strings.{IsEscapedString, IsString, strict};
ghost use Rattle.std.specs.List.{Contains};
ghost use Rattle.sonic_text.specs.Paths.{Node, Path, key, index};
ghost use Rattle.sonic_pointer.specs.Nodes.{node_of};
ghost use Rattle.sonic_pointer.specs.Paths.{HasNextNode, HasPrefix, IsOrders, IsChildren};
ghost use Rattle.sonic_pointer.specs.Views.{HaveOneNumber, IsBranch, IsNextIndex};

use crate::branch::Branch;
use crate::node::PointerNode;
use crate::target::Target;
use crate::trie::Trie;
use crate::vertex::Vertex;
use std::marker::Model;

// So many children are looked through faster than searched.
const FEW: usize = 8;

/// A prefix of the paths in a tree, with the nodes that follow it.
///
/// A clause sees the tree's paths, the prefixes of these by their numbers, the prefix and its
/// children, the nodes that follow the prefix in some path. No call takes memory.
///
/// ```text
/// let mut tree = PointerTree::new(alloc);
/// tree.add_path(alloc, &pointer!["a", 1])?;
/// tree.add_path(alloc, &pointer!["a"])?;
/// let (node, view) = tree.view().child(0);
/// assert_eq!(rt; node, PointerNode::Key("a"));
/// assert_eq!(rt; view.orders(), &[1]);
/// assert_eq!(rt; view.branch(), Branch::Indexes);
/// assert_eq!(rt; view.of_index(1), Some(0));
/// ```
#[derive(Drop)]
pub struct TreeView<'t> {
    trie: Trie<'t>,
    at: usize,
}

impl<'t> Model for TreeView<'t> {
    ghost use Rattle.sonic_pointer.specs.Views.{View};

    ghost Value = { View };

    ghost use Rattle.sonic_pointer.specs.Internal.Fields.{view_of, IsView};

    ghost view = { view_of };

    ghost invariant = { IsView };
}

impl<'t> TreeView<'t> {
    ghost use Rattle.sonic_pointer.specs.Internal.TrieFields.{HoldsTree, trie_paths};
    ghost use Rattle.sonic_pointer.specs.Internal.Targets.{IsTarget};

    pub(crate) fn of_root(trie: Trie<'t>) -> TreeView<'t>
        requires { HoldsTree trie }
        ensures paths { result.paths ≡ trie_paths trie.entry }
        ensures prefix { result.prefix ≡ [] }
    {
        TreeView { trie, at: 0 }
    }

    /// The numbers of the paths that end here, rising: those of all equal paths.
    #[inline(always)]
    pub fn orders(&self) -> &'t [usize]
        ensures { IsOrders self.now.paths self.now.prefix result.now }
    {
        let vertex: &'t Vertex = self.trie.vertex(self.at);
        vertex.orders()
    }

    /// The number of this prefix among the [`prefixes`](TreeView::prefixes) of the tree, from 0 on.
    ///
    /// What is kept for each prefix stands under it in one list: under 0 what is kept for the root.
    #[inline(always)]
    pub fn number(&self) -> usize
        ensures { slice_get self.now.prefixes result ≡ Some self.now.prefix }
    {
        self.at
    }

    /// How many different prefixes the paths of the tree have, the empty one among them.
    ///
    /// The paths `["a", 1]` and `["a"]` have three: the root's, `["a"]` and `["a", 1]`.
    #[inline(always)]
    pub fn prefixes(&self) -> usize
        ensures count { result ≡ length self.now.prefixes }
        ensures one { HaveOneNumber self.now.prefixes }
        ensures all { (p : Path) → Contains self.now.prefixes p
            ↔ ((p ≡ []) ⊎ HasPrefix self.now.paths p) }
    {
        self.trie.vertices.len() + 1
    }

    /// What follows here.
    ///
    /// After the paths `["a", 1]` and `["a"]` it is `Keys` for the root and `Indexes` for `["a"]`.
    #[inline(always)]
    pub fn branch(&self) -> Branch
        ensures { IsBranch self.now.paths self.now.prefix result }
    {
        match self.trie.first(self.at) {
            None => Branch::Leaf,
            Some(node) if node.is_key() => Branch::Keys,
            Some(_) => Branch::Indexes,
        }
    }

    /// How many different nodes follow here.
    #[inline(always)]
    pub fn count(&self) -> usize
        ensures count { result ≡ length self.now.children }
        ensures children { IsChildren self.now.paths self.now.prefix self.now.children }
    {
        self.trie.children(self.at).len()
    }

    /// One of the nodes that follow, with its vertex.
    #[inline(always)]
    pub fn child(&self, i: usize) -> (PointerNode<'t>, TreeView<'t>)
        requires { i < length self.now.children }
        ensures node { slice_get self.now.children i ≡ Some (node_of result.0) }
        ensures paths { result.1.paths ≡ self.now.paths }
        ensures prefixes { result.1.prefixes ≡ self.now.prefixes }
        ensures prefix { result.1.prefix ≡ self.now.prefix ++ node_of result.0 ∷ [] }
    {
        let at = self.trie.children(self.at).get(i);
        let node = self.trie.label(at);
        let below = TreeView {
            trie: self.trie,
            at,
        };
        (node, below)
    }

    // The number of the child that is looked for, or `None`, sooner where it is `near`.
    #[inline(always)]
    fn number_of(&self, target: &Target<'_>, near: usize) -> Option<usize>
        requires { (node : Node) × IsTarget target.now node }
        ensures some { IfSome result (λ i. (node : Node) → IsTarget target.now node
            → slice_get self.now.children i ≡ Some node) }
        ensures none { IfNone result ((node : Node) → IsTarget target.now node
            → ¬ HasNextNode self.now.paths self.now.prefix node) }
    {
        match self.trie.search(self.at, target, near) {
            Ok(i) => Some(i),
            Err(_) => None,
        }
    }

    /// The number of the child whose key the string from `start` to `end`, both quotes included,
    /// denotes, or `None`.
    ///
    /// Both strings `"a"` and `"\u0061"` find the key `a`.
    pub fn of_key(&self, text: &[u8], start: usize, end: usize) -> Option<usize>
        requires { (b : List ℕ) × IsString strict text.now start end b }
        ensures some { IfSome result (λ i. (b : List ℕ) → IsString strict text.now start end b
            → slice_get self.now.children i ≡ Some (key b)) }
        ensures none { IfNone result ((b : List ℕ) → IsString strict text.now start end b
            → ¬ HasNextNode self.now.paths self.now.prefix (key b)) }
    {
        self.number_of(&Target::Text { text, start, end }, usize::MAX)
    }

    /// The same of a string that has no backslash, whose bytes are those of its key.
    ///
    /// The string `"a"` finds the key `a`.
    pub fn of_plain_key(&self, text: &[u8], start: usize, end: usize) -> Option<usize>
        requires string { (b : List ℕ) × IsString strict text.now start end b }
        requires plain { ¬ IsEscapedString text.now start end }
        ensures some { IfSome result (λ i. (b : List ℕ) → IsString strict text.now start end b
            → slice_get self.now.children i ≡ Some (key b)) }
        ensures none { IfNone result ((b : List ℕ) → IsString strict text.now start end b
            → ¬ HasNextNode self.now.paths self.now.prefix (key b)) }
    {
        self.of_bytes(&text[start + 1..end - 1])
    }

    // The number of the child whose key has these bytes, or `None`.
    #[inline(always)]
    fn of_bytes(&self, bytes: &[u8]) -> Option<usize>
        ensures some { IfSome result (λ i. slice_get self.now.children i ≡ Some (key bytes.now)) }
        ensures none { IfNone result (¬ HasNextNode self.now.paths self.now.prefix (key bytes.now)) }
    {
        match self.trie.children(self.at).in_one_piece() {
            Some(children) if children.len() <= FEW => {
                self.trie.look_through(self.at, children, bytes)
            }
            _ => self.search_bytes(bytes),
        }
    }

    // The same where the children are many.
    #[inline(never)]
    fn search_bytes(&self, bytes: &[u8]) -> Option<usize>
        ensures some { IfSome result (λ i. slice_get self.now.children i ≡ Some (key bytes.now)) }
        ensures none { IfNone result (¬ HasNextNode self.now.paths self.now.prefix (key bytes.now)) }
    {
        self.number_of(&Target::Bytes(bytes), usize::MAX)
    }

    /// The number of the child that is this index, or `None`.
    pub fn of_index(&self, number: usize) -> Option<usize>
        ensures some { IfSome result (λ i. slice_get self.now.children i ≡ Some (index number)) }
        ensures none { IfNone result (¬ HasNextNode self.now.paths self.now.prefix (index number)) }
    {
        self.number_of(&Target::Node(PointerNode::Index(number)), usize::MAX)
    }

    /// The same, or else the index before which no child comes from this one on: the next child's, or the
    /// largest number where there is none. So who goes over the items of an array in order needs to ask no
    /// more before that.
    ///
    /// It is found at once where `near` is the number of children with a lesser index. After the paths
    /// `[1]` and `[5]` from the index 2 on it is `Err(5)`, and near 1 two of them are looked at.
    pub fn index_from(&self, number: usize, near: usize) -> Result<usize, usize>
        ensures ok { IfOk result (λ i. slice_get self.now.children i ≡ Some (index number)) }
        ensures err { IfErr result (IsNextIndex self.now number) }
    {
        let node = PointerNode::Index(number);
        match self.trie.search(self.at, &Target::Node(node), near) {
            Ok(i) => Ok(i),
            Err(position) => Err(self.trie.next_index(self.at, position)),
        }
    }
}
