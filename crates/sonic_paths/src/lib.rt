//! Path lines: the head of an input, whose lines each say a path of keys and indexes.
#![tactic(auto)]

// Heads, whatever their lines say: the lines one after the other, and where the document begins.
mod head;
// What the crates above need, and no user of this one.
#[doc(hidden)]
pub mod internal;
// The law of heads.
mod law;
// One path line.
mod line;
// Heads of path lines.
mod lines;

pub use law::head_says_one_thing;
pub use line::path_of_line;
pub use lines::{Head, read_paths};
