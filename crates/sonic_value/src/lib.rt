//! Plain JSON values: read whole, looked up, changed and written.
#![tactic(auto)]

// The laws of depths.
mod depth_law;
// Schemas, filled from the values of a text.
mod fill;
// What names an item of a value.
mod index;
// Laws.
mod law;
// Values read from a text.
mod read;
// The cursor that makes values of what it passes.
mod reader;
// Schemas that are filled, and the calls that do it.
mod schema;
// Values.
mod value;

pub use depth_law::{filling_too_deep_comes_before_the_fault, too_deep_comes_before_the_fault};
pub use index::Index;
pub use law::{
    compact_text_is_a_document, level_is_that_of_the_tree, schema_is_filled_or_has_one_reason,
    text_is_read_or_has_one_reason, what_is_filled_has_numbers, what_is_read_has_numbers,
};
pub use schema::{get_by_schema, parse_by_schema};
pub use value::Value;
