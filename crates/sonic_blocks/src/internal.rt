// What the crates above need, and no user of this one: it is public, and proved, and no page shows it.
pub use crate::closing::closing_bit;
pub use crate::count::count_of;
pub use crate::elements::whole_elements;
pub use crate::runs::{
    digits_end, first_backslash, first_of, plain_end, short_digits_end, short_plain_end, space_end,
};
