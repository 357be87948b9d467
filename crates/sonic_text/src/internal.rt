// What the crates above need, and no user of this one: it is public, and proved, and no page shows it.
pub use crate::key::compare_key;
pub use crate::literal::skip_literal;
pub use crate::number::skip_number;
pub use crate::scan::{skip_digits, stop_at};
pub use crate::short::{short_number, short_space, short_stop, short_string};
pub use crate::string::skip_string;
