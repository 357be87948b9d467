//! The commands over a JSON text, and the reports that they write.
#![tactic(auto)]

// The commands, and the words that ask for them.
mod commands;
// The line of a value of a document.
mod entry_line;
// The line of an error.
mod error_line;
// The laws of the reports.
mod law;
// A report that is ready, and its delivery.
mod reply;
// The top call.
mod runs;
// The exit statuses.
mod status;
// Runs that no fault stops.
mod sure;
// The lines of short texts.
mod text_line;

pub use commands::{Command, MOST, MOST_BLANKS};
pub use law::{
    edit_writes_the_edited_tree, input_has_one_report, min_and_indent_write_the_same_tree,
    patch_writes_the_patched_tree,
};
pub use runs::run;
pub use status::Status;
pub use sure::run_surely;
