//! Records by line: a row for each line of a stream, of what the paths of a tree lead to in it.
#![tactic(auto)]

// Text that is put together from its end to its start, which the commands need too.
#[doc(hidden)]
pub mod from_end;
// The laws of rows and of pieces.
mod law;
// The rows of the lines of a stream.
mod row;
// A stream that comes in pieces.
mod rows;
// The entries of a line, where they are short.
mod short;

pub use law::{pieces_have_no_part, rows_join, stream_has_its_rows};
pub use row::{append_rows, append_rows_each};
pub use rows::Rows;
