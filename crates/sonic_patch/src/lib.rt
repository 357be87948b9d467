//! JSON Patch (RFC 6902): the operations that a document says, with their pointers (RFC 6901), how they
//! are made on a value, and when two values are the same.
#![tactic(auto)]

// Whether two values are the same.
mod compared;
// What refuses a patch.
mod error;
// Two texts that tell the same parts in the same order.
mod in_order;
// The laws of sameness.
mod law;
// The operations, one by one.
mod make;
// Marks of values, by one walk through a text.
mod marks;
// One operation.
mod operation;
// The members of an operation.
mod parts;
// Patches, made on a value.
mod patching;
// The law of what patches make.
mod patching_law;
// Edits that are decided.
mod plan;
// Pointers.
mod pointer;
// A patch, and how it is read.
mod read;
// The laws of what a text says.
mod read_law;
// Where a pointer leads.
mod resolve;
// What values are by the marks of their parts, and numbers for that.
mod shape;
// A walk through a value that tells its parts in their order.
mod walk;
// Strings, each a text by itself.
mod word;

pub use compared::same;
pub use error::PatchError;
pub use law::{same_examples, same_is_an_equivalence};
pub use patching::apply;
pub use patching_law::{
    add_examples, index_examples, patch_examples, patching_means_the_patched_tree,
};
pub use pointer::Pointer;
pub use read::{Patch, read_patch};
pub use read_law::{patch_has_sound_operations, patch_says_one_thing, patch_says_sound_operations};
