//! Owned JSON values that are opened a level at a time, and written back.
#![tactic(auto)]

// Edits of a value.
mod edit;
// Integers that were made.
mod integer;
// Laws.
mod law;
// Text as it is denoted: keys and strings.
mod made;
// The text of one value, which isn't opened.
mod raw;
// Values.
mod value;
// What a path leads to.
mod view;

pub use edit::Change;
pub use law::{
    closing_keeps_the_value, edit_leaves_the_rest, edit_means_the_edited_tree, form_means_one_tree,
    level_is_that_of_the_form, opening_keeps_the_value, part_stands_in_the_text,
    path_leads_as_in_the_tree, putting_means_the_tree, text_is_a_document,
};
pub use value::{LazyArray, LazyObject, OwnedLazyValue};
pub use view::OwnedView;
