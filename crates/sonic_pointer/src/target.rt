// A node that is looked for.
ghost use Rattle.std.specs.Prelude.{◌≡◌, ◌≢◌, ◌<◌, ℕ, List, length};
ghost use Rattle.std.specs.Bool.{OnTrue};
ghost use Rattle.std.specs.Ordering.{nat_cmp};
ghost use Rattle.std.specs.Cmp.Lexicographic.{slice_cmp};
ghost use Rattle.sonic_text.specs.Places.{byte};
ghost use Rattle.sonic_text.specs.Strings.{IsString, strict};
ghost use Rattle.sonic_text.specs.Paths.{Node, key};
ghost use Rattle.sonic_pointer.specs.Nodes.{node_of};
ghost use Rattle.sonic_pointer.specs.Internal.Nodes.{node_cmp};

use crate::node::PointerNode;
use sonic_text::internal::compare_key;
use std::cmp::Ordering;

// What the children of a vertex are searched for.
#[derive(Clone, Copy)]
pub(crate) enum Target<'a> {
    // This node.
    Node(PointerNode<'a>),
    // The key of these bytes.
    Bytes(&'a [u8]),
    // The key that the string from `start` to `end` denotes.
    Text {
        text: &'a [u8],
        start: usize,
        end: usize,
    },
}

#[inline(always)]
fn compare_nodes(left: PointerNode<'_>, right: PointerNode<'_>) -> Ordering
    ensures { result ≡ node_cmp (node_of left.entry) (node_of right.entry) }
{
    match left {
        PointerNode::Key(text) => match right {
            PointerNode::Key(other) => text.cmp(other),
            PointerNode::Index(_) => Ordering::Less,
        },
        PointerNode::Index(number) => match right {
            PointerNode::Key(_) => Ordering::Greater,
            PointerNode::Index(other) => number.cmp(&other),
        },
    }
}

// Whether the bytes between the quotes of a string are those of a key, and none is a backslash.
#[inline(always)]
fn is_written(text: &[u8], key: &[u8]) -> bool
    ensures same { OnTrue result (text.now ≡ key.now) }
    ensures plain { OnTrue result ((k : ℕ) → k < length text.now → byte text.now k ≢ 92) }
{
    if text.len() != key.len() {
        return false;
    }
    let mut n = 0;
    while n < text.len() {
        let byte = text[n];
        if byte != key[n] || byte == b'\\' {
            return false;
        }
        n += 1;
    }
    true
}

// How the text that the string from `start` to `end` denotes compares with a key. Mostly their first
// bytes tell, or all bytes are the same.
#[inline(always)]
fn compare_string(text: &[u8], start: usize, end: usize, key: &str) -> Ordering
    requires { (b : List ℕ) × IsString strict text.now start end b }
    ensures { (b : List ℕ) → IsString strict text.now start end b → result ≡ slice_cmp nat_cmp b key.now }
{
    let bytes = key.as_bytes();
    if start + 2 < end && 0 < bytes.len() {
        let first = text[start + 1];
        if first != b'\\' && first != bytes[0] {
            return first.cmp(&bytes[0]);
        }
    }
    if is_written(&text[start + 1..end - 1], bytes) {
        return Ordering::Equal;
    }
    compare_key(text, start, end, key)
}

#[inline(always)]
fn compare_text(text: &[u8], start: usize, end: usize, node: PointerNode<'_>) -> Ordering
    requires { (b : List ℕ) × IsString strict text.now start end b }
    ensures { (b : List ℕ) → IsString strict text.now start end b
        → result ≡ node_cmp (key b) (node_of node.entry) }
{
    match node {
        PointerNode::Key(other) => compare_string(text, start, end, other),
        PointerNode::Index(_) => Ordering::Less,
    }
}

fn compare_bytes(bytes: &[u8], node: PointerNode<'_>) -> Ordering
    ensures { result ≡ node_cmp (key bytes.now) (node_of node.entry) }
{
    match node {
        PointerNode::Key(other) => bytes.cmp(&other.as_bytes()),
        PointerNode::Index(_) => Ordering::Less,
    }
}

impl<'a> Target<'a> {
    ghost use Rattle.sonic_pointer.specs.Internal.Targets.{IsTarget};

    #[inline(always)]
    pub(crate) fn compare(&self, node: PointerNode<'_>) -> Ordering
        requires { (target : Node) × IsTarget self.now target }
        ensures { (target : Node) → IsTarget self.now target
            → result ≡ node_cmp target (node_of node.entry) }
    {
        match self {
            Target::Node(target) => compare_nodes(*target, node),
            Target::Bytes(bytes) => compare_bytes(*bytes, node),
            Target::Text { text, start, end } => compare_text(*text, *start, *end, node),
        }
    }
}
