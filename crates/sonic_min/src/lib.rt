//! The text of a document without white space outside strings, the one over lines, and the laws of texts
//! that differ in white space alone.
#![tactic(auto)]

// The bytes of a block that are kept, put together.
mod keep;
// The laws of spellings, and of the texts of a spelling.
mod law;
// The brackets, commas and colons of a block of 64 bytes.
mod marks;
// A text that is made piece by piece.
mod output;
// How many bytes the text of a document over lines has.
mod room;
// The text of a document without white space outside strings.
mod small;
// The text of a document over lines.
mod wide;

pub use law::{
    document_has_one_spelling, document_means_the_same, small_has_no_space, small_is_small_again,
    spelling_means_one_tree, spread_text_is_a_document, spread_text_is_spelled,
    value_has_one_spelling,
};
pub use small::minify;
pub use wide::indent;
