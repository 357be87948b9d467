//! The grammar of JSON (RFC 8259) as facts over a whole text, and the small readers that meet it.
#![tactic(auto)]

// The laws of brackets outside strings.
mod bracket_law;
// Hexadecimal digits, four of which follow `\u`.
mod hex;
// What the crates above need, and no user of this one.
#[doc(hidden)]
pub mod internal;
// Keys compared as they are read.
mod key;
// The two kinds of container.
mod kind;
// The laws of values, numbers and literals.
mod law;
// The three literals.
mod literal;
// What is short and near, without a look at the text's end.
mod short;
// Numbers: where they end, and what whole ones are.
mod number;
// Strings as they are written.
mod quote;
// Text that is written as a string without a buffer.
mod quoted;
// Bytes, white space, digits and types at a place.
mod scan;
// Which bytes are white space.
mod space;
// A place and a code, why something isn't there.
mod stop;
// Where strings end.
mod string;
// The laws of strings.
mod string_law;
// What a string denotes, as bytes.
mod unescape;
// A code point as UTF-8.
mod utf8;

pub use bracket_law::{
    container_ends_once, string_is_inside, value_balances, value_is_level, value_keeps_backslashes,
};
pub use hex::hex4;
pub use key::same_key;
pub use kind::Kind;
pub use law::{
    end_is_honest, first_byte_says_the_type, literal_has_one_outcome, number_has_one_outcome,
    value_has_no_space_at_its_ends, value_has_one_outcome, value_means_one_tree,
};
pub use literal::literal_end;
pub use number::{number_end, whole_i64, whole_u64};
pub use quote::{QUOTE_TAB, format_string};
pub use quoted::write_quoted;
pub use scan::{byte_at, skip_space, type_of};
pub use space::is_whitespace;
pub use stop::Stop;
pub use string::{StringEnd, string_end};
pub use string_law::{
    quoted_text_is_a_string, string_denotes_one_text, string_has_one_outcome,
    tables_have_the_escapes,
};
pub use unescape::{ESCAPED_TAB, unescape_into};
pub use utf8::codepoint_to_utf8;
