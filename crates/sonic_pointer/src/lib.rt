//! Paths of keys and indexes, and trees that hold a list of them.
#![tactic(auto)]

// What follows a prefix.
mod branch;
// A path more in a tree: all memory is taken before anything changes.
mod insert;
// Why a tree refuses a path.
mod fault;
// `pointer!`.
mod macros;
// The steps of a path.
mod node;
// Paths that own their keys.
mod owned;
// Lists of numbers that grow at any position.
mod pieces;
// Which member counts of those with equal keys.
mod rule;
// The vertices of a tree.
mod vertex;
// A tree as its calls read it.
mod trie;
// Trees of paths.
mod tree;
// Vertices of a tree, as callers see them.
mod view;
// A node that is looked for.
mod target;

pub use branch::Branch;
pub use fault::PathError;
pub use node::PointerNode;
pub use owned::{OwnedNode, OwnedPath};
pub use rule::KeyRule;
pub use tree::{MAX_NODES, PointerTree};
pub use view::TreeView;
