// What the crates above need, and no user of this one: it is public, and proved, and no page shows it.
pub use crate::container::{AfterItem, next_item};
pub use crate::descent::{Descent, Step};
pub use crate::law::a_walk_keeps_to_its_value;
pub use crate::parts::{ValueAt, item_at, opens_nested_array, value_at};
pub use crate::quick::{after_comma, scalar_end, short_scalar, value_place};
