//! Where paths of keys and indexes lead in a text, as spans of it, and whether a text is a valid
//! document.
#![tactic(auto)]

// The answer of a list of paths.
mod answer;
// Rows of a table whose paths are keys.
mod columns;
// Whether an input is a valid document.
mod document;
// Where each of many paths leads, whatever the others lead to.
mod each;
// Where paths lead in an input, as spans of it.
mod finding;
// Objects in which another member than the first may count.
mod provisional;
// What the crates above need, and no user of this one.
#[doc(hidden)]
pub mod internal;
// The laws of outcomes, answers and documents.
mod law;
// Where many paths lead in an input that is known to begin with a value.
mod many_unchecked;
// What each prefix of a tree had last.
mod marks;
// Where one path leads in a text.
mod path;
// Where many paths lead in many texts, in buffers that are used again.
mod buffers;
// Where a path leads.
mod outcome;
// A part of an input.
mod span;
// The slots of paths that go on alike.
mod settle;
// The slot of a path.
mod slot;
// What a walk has come to.
mod state;
// Tables: for each item of a container, where each path leads inside it.
mod table;
// The cursor of a walk through a text.
mod cursor;
// Whether the bytes of a text are UTF-8.
mod utf8;
// Which children of a prefix of the tree were visited.
mod visited;
// One walk that finds what all paths of a tree lead to.
mod walk;

pub use buffers::{WalkBuffers, find_each_by, find_many_by};
pub use document::validate;
pub use each::{find_each, find_each_unchecked};
pub use finding::{find, find_many, find_unchecked};
pub use law::{
    a_cut_is_the_root_fault, a_path_goes_on_in_its_value, document_is_valid_or_has_one_reason,
    fails_at_one_place_agree, find_each_agrees_with_find_many, first_is_the_plain_rule,
    get_many_agrees_with_get, outcomes_come_before_the_fault, path_has_one_answer,
    path_has_one_outcome, paths_have_one_answer, paths_have_one_answer_each,
    refuse_agrees_with_each_rule,
};
pub use many_unchecked::find_many_unchecked;
pub use outcome::PathOutcome;
pub use span::Span;
pub use table::{Table, TableItem, find_table};
