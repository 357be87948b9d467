//! Edit lines: the head of an input, whose lines each say an edit of the document after it.
#![tactic(auto)]

// Edits made one after another.
mod all;
// What an edit line asks for.
mod change;
// The edit that a line says.
mod edit;
// The elements of the array that a line is.
mod elements;
// The laws of heads.
mod law;
// One edit line.
mod line;
// Heads of any number of lines.
mod lines;

pub use all::edit_all;
pub use edit::Edit;
pub use law::{head_says_edits_or_a_bad_line, head_says_sound_edits};
pub use line::edit_of_line;
pub use lines::{EditHead, read_edits};
