// What the crates above need, and no user of this one: it is public, and proved, and no page shows it.
pub use crate::head::{HeadEnd, LineReader, find_line_end, read_head};
