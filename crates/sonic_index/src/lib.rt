//! An index of all values of a document: where each is, in which one, and how it is labelled there.
#![tactic(auto)]

// The walk that writes the cells.
mod build;
// The entries as they are kept.
mod cell;
// The entries as callers see them.
mod entry;
// How the items of a value are found by their entries.
mod find;
// The index and its calls.
mod index;
// The laws of the parts of a value, and of the values of a document.
mod law;
// The members of wide objects in the order of their keys.
mod members;
// How much room the cells of a text may need.
mod room;

pub use entry::{Entry, Label};
pub use index::JsonIndex;
pub use law::{
    document_has_one_index, entries_are_one, nodes_nest, part_is_one, parts_are_in_order,
    parts_lie_inside,
};
