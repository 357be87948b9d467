//! What can be wrong with a JSON text, or with what was asked of it.
#![tactic(auto)]

// Codes of errors, and their families.
mod code;
// Errors with their places, as they are kept and printed.
mod error;
// The bytes round a place that an error shows.
mod fragment;
// Types of values, and the notes of a mismatch.
mod json_type;
// Offset, line and column of a place.
mod position;

pub use code::{Category, ErrorCode};
pub use error::{Error, Result};
pub use json_type::{JsonType, Note, Wanted};
