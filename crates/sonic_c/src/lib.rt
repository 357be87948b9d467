//! What is found in a JSON text, for callers in C and in whatever calls C: `include/jihluka.h` says how.
//!
//! No call keeps a pointer of the caller's. What lasts from call to call is in the caller's memory: a cursor,
//! and paths that are kept, which alone own memory. `jihluka_paths_free` gives that back.
#![tactic(auto)]

// What begins a text, and why it is refused.
mod begun;
// The numbers that stand for the codes of errors.
mod code;
// How many items a container has.
mod count;
// The text of a document, without white space or over lines.
mod document;
// Where each of many paths leads, whatever the others lead to.
mod each;
// The text of a document with edits made in it.
mod edit;
// The errors that a caller is told.
mod fault;
// The text of a schema that is filled from a document.
mod fill;
// One path.
mod get;
// All values of a document.
mod index;
// A way through the items of a container.
mod items;
// Keeps the paths that lines say.
mod keep;
// Paths that are kept, with the room of a walk along them.
mod kept;
// The type of a value.
mod kind;
// Many paths.
mod many;
// The integer that a number is.
mod number;
// Where a path leads, as a caller is told it.
mod outcome;
// The value of a document that is to be changed, and its text.
mod owned;
// The text of a document with a patch made on it.
mod patch;
// The paths that a caller keeps.
mod paths;
// The caller's room for a text.
mod room;
// The rows of lines.
mod rows;
// The spans that a caller is told.
mod span;
// What a call comes to.
mod status;
// The text of a string.
mod string;
#[cfg(test)]
mod tests;
// The words of an error.
mod text;
// A box as the pointer that it is.
mod unboxed;
// Whether a text is a document.
mod validate;
// One item of a container after the other.
mod walk;
// Where paths that are kept lead.
mod with;

pub use fault::Fault;
pub use index::Entry;
pub use items::Items;
pub use outcome::Outcome;
pub use paths::Paths;
pub use span::Span;
pub use walk::Item;
